//! Test files that name their columns.

ghost use Rattle.std.specs.Prelude.{◌≡◌, ◌≤◌, ◌++◌, ℕ, IfOk, List};
ghost use Rattle.text_lines.specs.Rows.{rows, rows_from};
ghost use Rattle.patterns.specs.Making.{test_text};
ghost use Rattle.patterns.specs.Tests.{HasTests};

use patterns::{Tests, write_tests};
use std::alloc::{AllocError, Global};

/// Returns a test file: the line that names the columns, as
/// [`columns_line`](crate::columns_line) returns it, and then the rows of tests.
pub fn test_file(alloc: Global, line: Vec<u8>, tests: &Tests) -> Result<Vec<u8>, AllocError>
    ensures text { IfOk result (λ text. text.items ≡ line.items ++ test_text tests.now.tests) }
    ensures read { ((rest : List ℕ) → rows (line.items ++ rest) ≡ rows_from 2 rest)
        → 1 ≤ tests.now.width
        → IfOk result (λ text. HasTests text.items tests.now.width tests.now) }
{
    let mut text = line;
    let rows = write_tests(alloc, tests)?;
    text.extend_from_slice(&rows)?;
    Ok(text)
}
