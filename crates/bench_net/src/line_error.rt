//! The error of a line that is no statement: what the reader expected, and where.

ghost use Rattle.std.specs.Prelude.{◌≡◌, length};
ghost use Rattle.bench_net.specs.declared.line_error.LineError.TheVariants as error;

use std::alloc::AllocFailed;

/// What may come next on a line.
#[derive(Clone, Copy)]
pub enum Expected {
    /// A name, INPUT or OUTPUT, at the front of the line.
    Name,
    /// `(` after INPUT or OUTPUT, or `=` after a name.
    OpenOrEquals,
    /// The kind of a gate, after `=`.
    Kind,
    /// `(` after the kind of a gate.
    Open,
    /// A name between the parentheses.
    Argument,
    /// `,` or `)` after a name between the parentheses.
    CommaOrClose,
    /// The end of the line, after `)`.
    End,
}

/// The reason why a line is no statement.
#[derive(Clone, Copy)]
pub enum Reason {
    /// The token isn't what may come next.
    Expected(Expected),
    /// The word before the parenthesis is neither INPUT nor OUTPUT.
    UnknownPort,
    /// The word before the parenthesis is neither the kind of a gate nor DFF.
    UnknownKind,
    /// The word takes one argument, and this is the number of its arguments.
    OneArgument(usize),
}

/// A reason with the place of its token.
#[derive(Clone, Copy)]
pub struct Wrong {
    pub reason: Reason,
    /// The number of bytes from the place to the end of the line. The token follows after blanks.
    pub left: usize,
}

impl Wrong {
    /// Returns a reason with the place at the front of these bytes, the rest of the line.
    pub(crate) fn before(rest: &[u8], reason: Reason) -> Wrong
        ensures reason { result.reason ≡ reason }
        ensures left { result.left ≡ length rest.now }
    {
        Wrong {
            reason,
            left: rest.len(),
        }
    }
}

/// The error of a line.
#[derive(Clone, Copy)]
pub enum LineError {
    /// The line is no statement.
    Wrong(Wrong),
    /// There is no memory for the arguments.
    Memory,
}

impl<T: Drop> From<AllocFailed<T>> for LineError {
    ghost from_gives = { λ _ e. e ≡ error.Memory };

    fn from(_error: AllocFailed<T>) -> LineError {
        LineError::Memory
    }
}
