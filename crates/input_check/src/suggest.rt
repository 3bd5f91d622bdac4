//! Suggestions for misspelled words.

use std::alloc::{AllocError, Global};
use strsim::osa_distance;

/// The words for gates and flip-flops in other formats and here, each with its name here.
pub(crate) static GATES: [(&str, &str); 20] = [
    ("AND", "AND"),
    ("NAND", "NAND"),
    ("OR", "OR"),
    ("NOR", "NOR"),
    ("XOR", "XOR"),
    ("XNOR", "XNOR"),
    ("NOT", "NOT"),
    ("BUFF", "BUFF"),
    ("BUF", "BUFF"),
    ("DFF", "DFF"),
    ("INV", "NOT"),
    ("INVERTER", "NOT"),
    ("BUFFER", "BUFF"),
    ("EXOR", "XOR"),
    ("EXNOR", "XNOR"),
    ("NXOR", "XNOR"),
    ("FF", "DFF"),
    ("SDFF", "DFF"),
    ("LATCH", "DFF"),
    ("DELAY", "DFF"),
];

/// The words before a parenthesis that begin a line.
pub(crate) static PORTS: [(&str, &str); 6] = [
    ("INPUT", "INPUT"),
    ("OUTPUT", "OUTPUT"),
    ("IN", "INPUT"),
    ("OUT", "OUTPUT"),
    ("PI", "INPUT"),
    ("PO", "OUTPUT"),
];

/// A word that may be misspelled, and the nearest of the words that were compared with it. Words
/// are near by their number of changes: of a letter, or of two neighbours in the wrong order.
#[derive(Clone, Copy)]
pub(crate) struct Nearest<'w, 'a> {
    word: &'w str,
    /// Only a word with fewer changes is nearer.
    changes: usize,
    pub(crate) found: Option<&'a str>,
}

impl<'w, 'a> Nearest<'w, 'a> {
    /// Begins with no word.
    pub(crate) fn to(word: &'w str) -> Self {
        Nearest {
            word,
            changes: 2 + word.len() / 4,
            found: None,
        }
    }

    /// Compares the word with another one, which stands for a name.
    pub(crate) fn compare(
        &mut self,
        alloc: Global,
        spelled: &str,
        name: &'a str,
    ) -> Result<(), AllocError> {
        if spelled.len().abs_diff(self.word.len()) >= self.changes {
            return Ok(());
        }
        let changes = osa_distance(alloc, self.word, spelled)?;
        if changes < self.changes {
            self.changes = changes;
            self.found = Some(name);
        }
        Ok(())
    }
}

/// Returns the name that a word in any case may stand for, by a table of words with their names.
pub(crate) fn nearest_of(
    alloc: Global,
    word: &str,
    table: &[(&'static str, &'static str)],
) -> Result<Option<&'static str>, AllocError> {
    let word = word.to_ascii_uppercase(alloc)?;
    let mut nearest = Nearest::to(word.as_str());
    for (spelled, name) in table {
        nearest.compare(alloc, *spelled, *name)?;
    }
    Ok(nearest.found)
}

/// The number of names that are compared.
const MAX_COMPARED: usize = 100_000;

/// Returns the name that is nearest to a word, if one is near.
pub(crate) fn nearest_name<'a>(
    alloc: Global,
    word: &str,
    names: &[&'a str],
) -> Result<Option<&'a str>, AllocError> {
    let mut nearest = Nearest::to(word);
    for name in names.iter().take(MAX_COMPARED) {
        nearest.compare(alloc, *name, *name)?;
    }
    Ok(nearest.found)
}
