//! The line that names the columns of a test file, as it is written.

ghost use Rattle.std.specs.Prelude.{◌≡◌, ◌++◌, ℕ, IfOk, List, Some};
ghost use Rattle.text_lines.specs.Rows.{rows, rows_from};
ghost use Rattle.bench_net.specs.Circuit.{IsCircuit};
ghost use Rattle.bench_net.specs.Refusal.{IsAccepted};
ghost use Rattle.bench_net.specs.Scan.{sources};
ghost use Rattle.test_columns.specs.Columns.{columns, columns_line};

use crate::line::HEADING;
use crate::order::source_at;
use bench_net::Circuit;
use std::alloc::{AllocError, Global};

/// Returns the line that names the columns of tests for a circuit, with its line feed: first the
/// inputs, and then the flip-flops, in the order of their lines.
///
/// A test file that begins with it passes [`check_columns`](crate::check_columns), if the circuit
/// is that of a bench file. The readers of rows find the rows of the rest, one line further on.
pub fn columns_line(alloc: Global, circuit: &Circuit) -> Result<Vec<u8>, AllocError>
    ensures line { IfOk result (λ line. line.items ≡ columns_line (sources circuit.now)) }
    ensures named { (bench rest : List ℕ) → IsAccepted bench circuit.now → IfOk result (λ line.
        columns (line.items ++ rest)
        ≡ Some (record { line = 1; names = sources circuit.now })) }
    ensures rows { (bench rest : List ℕ) → IsAccepted bench circuit.now → IfOk result (λ line.
        rows (line.items ++ rest) ≡ rows_from 2 rest) }
{
    let _signals = circuit.signals();
    let mut line = b"# ".to_vec(alloc)?;
    line.extend_from_slice(HEADING)?;
    for place in 0..circuit.sources() as usize {
        if let Some(name) = source_at(circuit, place) {
            line.push(b' ')?;
            line.extend_from_slice(name)?;
        }
    }
    line.push(b'\n')?;
    Ok(line)
}
