//! Fault-free responses, from the bytes of files to the bytes of rows.

ghost use Rattle.std.specs.Prelude.{IfErr};
ghost use Rattle.report.specs.EndToEnd.{WritesOneOf};
ghost use Rattle.analysis_reports.specs.Responses.{AreResponsesOf, IsResponsesFault};

use crate::whole::put_text;
use block_sim::responses;
use byte_output::Out;
use job_loading::{SimFault, read_inputs};
use patterns::write_tests;
use std::alloc::Global;

/// Reads a circuit and tests for it, and writes the fault-free responses, one row of bits for each
/// test. A row begins with the bits of the OUTPUT lines, in order. The bits that the flip-flops
/// capture follow, in the order of the DFF lines.
///
/// It reads the bench file before the tests, and fails for each as [`report::simulate_text_in`]
/// does. There is no limit on pieces, because no fault is simulated. It writes nothing before all
/// responses are there.
pub fn responses_text<W: Out>(
    alloc: Global,
    bench: &[u8],
    tests: &[u8],
    out: &mut W,
) -> Result<(), SimFault>
    ensures written { WritesOneOf (AreResponsesOf bench.now tests.now) result (W.seen out.old)
        (W.seen out.new) }
    ensures refused { IfErr result (IsResponsesFault bench.now tests.now) }
{
    let (circuit, tests) = read_inputs(alloc, bench, tests)?;
    let rows = responses(alloc, circuit, &tests)?;
    let text = write_tests(alloc, &rows)?;
    put_text(&text, out)?;
    Ok(())
}
