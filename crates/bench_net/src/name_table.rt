//! The names of the signals of a circuit, in one text.

ghost use Rattle.std.specs.Prelude.{◌≡◌, ◌<◌, Some, length, slice_get, IfOk, IfErr};
ghost use Rattle.bench_net.specs.declared.BenchFault.TheVariants as fault;
ghost use Rattle.bench_net.specs.reader.Parsed.{names_of};
ghost use Rattle.bench_net.specs.NameText.{cut_names, start_of, AreEnds, AreTexts};

use crate::BenchFault;
use crate::number::Names;
use std::alloc::Global;
use std::marker::Model;
use std::str;

/// The names of the signals, in the order of their numbers, seen by contracts as a list. They stand
/// one after another in one text: a `String` for each would be an allocation for each.
#[derive(Drop)]
pub struct NameTable {
    /// The bytes of all names.
    text: Vec<u8>,
    /// For each name the place in the text after its last byte.
    ends: Vec<usize>,
}

impl Model for NameTable {
    ghost use Rattle.std.specs.Prelude.{List, length};
    ghost use Rattle.bench_net.specs.Statement.{Name};

    ghost Value = { List Name };

    ghost use Rattle.bench_net.specs.NameText.{cut_names, AreEnds, AreTexts};

    ghost view = { λ t. cut_names t.text.items 0 t.ends.items };

    ghost invariant = { λ t. AreEnds (length t.text.items) 0 t.ends.items
        × AreTexts (cut_names t.text.items 0 t.ends.items) };
}

impl NameTable {
    /// Returns the names of a set, in its order.
    pub fn new(alloc: Global, names: &Names) -> Result<NameTable, BenchFault>
        ensures named { IfOk result (λ table. table ≡ names_of names.now.keys) }
        ensures refused { IfErr result (λ fault. fault ≡ BenchFault.Memory) }
    {
        let (text, ends) = joined(alloc, names)?;
        Ok(NameTable { text, ends })
    }

    /// Returns the number of names.
    pub fn len(&self) -> usize
        ensures { result ≡ length self.now }
    {
        self.ends.len()
    }

    /// Returns the name at a place.
    pub fn get(&self, place: usize) -> &str
        requires { place < length self.now }
        ensures { Some result.now ≡ slice_get self.now place }
    {
        name_at(&self.text, &self.ends, place)
    }
}

/// Returns the bytes of names, one after another, and for each name the place after its last byte.
fn joined(alloc: Global, names: &Names) -> Result<(Vec<u8>, Vec<usize>), BenchFault>
    ensures named { IfOk result (λ r. cut_names r.0.items 0 r.1.items ≡ names_of names.now.keys) }
    ensures ends { IfOk result (λ r. AreEnds (length r.0.items) 0 r.1.items) }
    ensures texts { IfOk result (λ r. AreTexts (cut_names r.0.items 0 r.1.items)) }
    ensures refused { IfErr result (λ fault. fault ≡ BenchFault.Memory) }
{
    let mut text = Vec::new(alloc);
    let mut ends = Vec::with_capacity(alloc, names.len())?;
    for name in names.iter() {
        text.extend_from_slice(name.as_bytes())?;
        ends.push(text.len())?;
    }
    Ok((text, ends))
}

/// Returns the place in the text where a name begins: after the name before it.
fn start_of(ends: &[usize], place: usize) -> usize
    requires { place < length ends.now }
    ensures { result ≡ start_of 0 ends.now place }
{
    if place == 0 { 0 } else { ends[place - 1] }
}

/// Returns the name at a place of a text of names.
fn name_at<'a>(text: &'a [u8], ends: &[usize], place: usize) -> &'a str
    requires ends { AreEnds (length text.now) 0 ends.now }
    requires texts { AreTexts (cut_names text.now 0 ends.now) }
    requires below { place < length ends.now }
    ensures { Some result.now ≡ slice_get (cut_names text.now 0 ends.now) place }
{
    let name = &text[start_of(ends, place)..ends[place]];
    // SAFETY: the bytes of a name are those of a `str`.
    unsafe { str::from_utf8_unchecked(name) }
}
