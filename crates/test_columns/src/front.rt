//! The front of a test file that is read piece by piece.

ghost use Rattle.std.specs.Prelude.{◌≡◌, IfSome, false, true};
ghost use Rattle.test_columns.specs.Columns.{IsBlankLine, IsLastOfFront, columns};

use crate::line::has_more_than_blanks;
use std::alloc::Global;
use std::io::BufRead;
use text_lines::without_carriage_return;

/// Reads a test file up to the end of its first line that has more than blanks. The bytes name the
/// columns that the file names. Returns `None` if the file can't be read, or memory runs out.
pub fn read_front<R: BufRead>(alloc: Global, file: &mut R) -> Option<Vec<u8>>
    ensures { IfSome (R.remaining file.old) (λ text. IfSome result (λ front.
        columns front.items ≡ columns text)) }
{
    let mut front = Vec::new(alloc);
    for _ in 0..u64::MAX {
        let start = front.len();
        let Ok(_) = file.read_until(b'\n', &mut front) else {
            return None;
        };
        if ends_front(&front[start..]) {
            return Some(front);
        }
    }
    None
}

/// Returns whether a line, with its end, is the last of the front of a file: if the file ends with
/// it, or it has more than blanks.
fn ends_front(line: &[u8]) -> bool
    ensures yes { result ≡ true → IsLastOfFront line.now }
    ensures no { result ≡ false → IsBlankLine line.now }
{
    match line {
        [line @ .., b'\n'] => has_more_than_blanks(without_carriage_return(line)),
        _ => true,
    }
}
