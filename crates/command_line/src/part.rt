//! The option `--part`: one part of the classes.

ghost use Rattle.std.specs.Prelude.{◌<◌};

use command_options::MAX_PARTS;

/// A part of the classes.
#[derive(Clone, Copy)]
pub(crate) struct Part {
    /// The part, counted from 0.
    pub(crate) part: u32,
    /// The number of parts.
    pub(crate) parts: u32,
    pub(crate) ghost within: { part < parts },
}

/// Returns the part that a text `I/N` names. `I` counts from 1.
pub(crate) fn part_of(text: &str) -> Option<Part> {
    let (part, parts) = text.split_once('/')?;
    let number = part.parse::<u32>().ok()?;
    let parts = parts.parse::<u32>().ok()?;
    if number == 0 || number > parts || parts > MAX_PARTS {
        return None;
    }
    Some(Part {
        part: number - 1,
        parts,
    })
}
