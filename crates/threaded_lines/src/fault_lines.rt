//! Lines of the faults of a list, which are written in stretches of the list.

ghost use Rattle.std.specs.Prelude.{◌≡◌, ◌≤◌, length};
ghost use Rattle.byte_output.specs.Output.{Writes};
ghost use Rattle.threaded_lines.specs.Texts.{text_between};

use byte_output::{Out, OutFailed};

/// Lines of the faults of a list.
pub trait FaultLines {
    ghost use Rattle.std.specs.Prelude.{List, ℕ};

    /// The text of each fault: its line, or nothing.
    ghost texts: { Self → List (List ℕ) };

    /// Returns the number of faults.
    fn count(&self) -> u32
        ensures { result ≡ length (texts self.now) };

    /// Writes the lines of the faults from one number up to another.
    fn put<W: Out>(&self, start: u32, end: u32, out: &mut W) -> Result<(), OutFailed>
        requires order { start ≤ end }
        requires within { end ≤ length (texts self.now) }
        ensures { Writes result (W.seen out.old) (W.seen out.new)
            (text_between (texts self.now) start end) };
}
