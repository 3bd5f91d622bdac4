//! Launch-on-capture pairs, from the bytes of files to the bytes of rows.

ghost use Rattle.std.specs.Prelude.{IfErr};
ghost use Rattle.report.specs.EndToEnd.{WritesOneOf};
ghost use Rattle.analysis_reports.specs.Pairs.{ArePairsOf, IsPairsFault};

use crate::whole::put_text;
use byte_output::Out;
use job_loading::{SimFault, read_inputs};
use pairs::launch_pairs;
use std::alloc::Global;
use test_columns::{columns_line, test_file};

/// Reads a circuit and tests for it, and writes the launch-on-capture pairs as a test file that
/// names its columns ([`test_columns::columns_line`]): for each test two rows, the test itself and
/// its capture test ([`pairs::launch_pairs`]).
///
/// It fails as [`crate::responses_text`] does, and with [`patterns::TestFault::TooMany`] if the
/// pairs are more rows than a test file may have. It writes nothing before all pairs are there.
pub fn pairs_text<W: Out>(
    alloc: Global,
    bench: &[u8],
    tests: &[u8],
    out: &mut W,
) -> Result<(), SimFault>
    ensures written { WritesOneOf (ArePairsOf bench.now tests.now) result (W.seen out.old)
        (W.seen out.new) }
    ensures refused { IfErr result (IsPairsFault bench.now tests.now) }
{
    let (circuit, tests) = read_inputs(alloc, bench, tests)?;
    let line = columns_line(alloc, &circuit)?;
    let pairs = launch_pairs(alloc, circuit, &tests)?;
    let text = test_file(alloc, line, &pairs)?;
    put_text(&text, out)?;
    Ok(())
}
