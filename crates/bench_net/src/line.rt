//! The statements of a bench file over signal numbers, as a circuit keeps them.

ghost use Rattle.std.specs.Prelude.{◌≡◌, ◌<◌, ◌^◌, Some, filter, length, slice_get};
ghost use Rattle.bench_net.specs.Tables.{defines_number, definition_places};

use crate::GateLine;

/// A statement over signal numbers: each name that it defines or reads is given by its number.
#[derive(Drop)]
pub enum NumberedLine {
    /// A primary input.
    Input(u32),
    /// A signal that is a primary output.
    Output(u32),
    /// A signal and the gate that drives it.
    Gate(u32, GateLine),
    /// The output of a flip-flop and its data input.
    Dff(u32, u32),
}

/// Returns whether a line defines a signal: every line but an OUTPUT line does.
pub(crate) fn defines(line: &NumberedLine) -> bool
    ensures { result ≡ defines_number line.now }
{
    !matches!(line, NumberedLine::Output(_))
}

/// Returns the line that defines a signal, given the place of each signal's line.
pub(crate) fn line_of<'a>(
    lines: &'a [NumberedLine],
    definitions: &[usize],
    signal: u32,
) -> &'a NumberedLine
    requires few { length lines.now < 2 ^ 32 }
    requires definitions { definitions.now ≡ definition_places lines.now }
    requires below { signal < length definitions.now }
    ensures { slice_get (filter defines_number lines.now) signal ≡ Some result.now }
{
    let place = definitions[signal as usize];
    &lines[place]
}
