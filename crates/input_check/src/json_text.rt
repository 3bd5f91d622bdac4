//! Pieces of JSON (RFC 8259).

ghost use Rattle.std.specs.Prelude.{◌≡◌, ◌++◌, IfOk, OnOk, drop, option_map, string_bytes};
ghost use Rattle.std.specs.List.{flat_map};
ghost use Rattle.json.specs.Print.{quoted};
ghost use Rattle.input_check.specs.Objects.{member_text, number_or_null, string_or_null};

use itoa::Buffer;
use serde_json::Value;
use std::alloc::{AllocError, Global};

/// A member of an object: its name, and its number if there is one.
#[derive(Clone, Copy)]
pub(crate) struct Member<'a> {
    pub(crate) name: &'a str,
    pub(crate) number: Option<u64>,
}

/// Returns a member with a number.
pub(crate) fn numbered<'a>(name: &'a str, number: u64) -> Member<'a>
    ensures name { result.name.now ≡ name.now }
    ensures number { result.number ≡ Some number }
{
    Member {
        name,
        number: Some(number),
    }
}

/// Returns a member without a number.
pub(crate) fn missing<'a>(name: &'a str) -> Member<'a>
    ensures name { result.name.now ≡ name.now }
    ensures number { result.number ≡ None }
{
    Member { name, number: None }
}

/// Returns a text as a JSON string.
pub(crate) fn quoted(alloc: Global, text: &str) -> Result<String, AllocError>
    ensures { IfOk result (λ string. string_bytes string ≡ quoted text.now) }
{
    Value::String(String::from_str(alloc, text)?).to_string(alloc)
}

/// Returns a text as a JSON string, or `null` if there is none.
pub(crate) fn quoted_or_null(alloc: Global, text: &Option<String>) -> Result<String, AllocError>
    ensures { IfOk result (λ string. string_bytes string
        ≡ string_or_null (option_map string_bytes text.now)) }
{
    match text {
        Some(text) => quoted(alloc, text.as_str()),
        None => String::from_str(alloc, "null"),
    }
}

/// Returns a number as a text, or `null` if there is none.
pub(crate) fn number_or_null<'a>(number: Option<u64>, buffer: &'a mut Buffer) -> &'a str
    ensures { result.now ≡ number_or_null number }
{
    match number {
        Some(number) => buffer.format(number),
        None => "null",
    }
}

/// Adds pieces of text, one after another.
pub(crate) fn add_pieces(text: &mut Vec<u8>, pieces: &[&str]) -> Result<(), AllocError>
    ensures { OnOk result (text.new.items
        ≡ text.old.items ++ flat_map (λ piece. piece.now) pieces.now) }
{
    for piece in pieces {
        text.extend_from_slice(piece.as_bytes())?;
    }
    Ok(())
}

/// Adds members, each after this text.
pub(crate) fn add_members(
    text: &mut Vec<u8>,
    before: &str,
    members: &[Member<'_>],
) -> Result<(), AllocError>
    ensures { OnOk result (text.new.items ≡ text.old.items
        ++ flat_map (λ m. member_text before.now (m.name.now, m.number)) members.now) }
{
    for member in members {
        add_member(text, before, member.name, member.number)?;
    }
    Ok(())
}

/// Adds a member after a text.
fn add_member<'a>(
    text: &mut Vec<u8>,
    before: &'a str,
    name: &'a str,
    number: Option<u64>,
) -> Result<(), AllocError>
    ensures { OnOk result (text.new.items
        ≡ text.old.items ++ member_text before.now (name.now, number)) }
{
    let mut buffer = Buffer::new();
    let pieces = [
        before,
        "\"",
        name,
        "\":",
        number_or_null(number, &mut buffer),
    ];
    add_pieces(text, &pieces)
}

/// Returns a text without its first byte.
pub(crate) fn without_first(text: &[u8]) -> &[u8]
    ensures { result.now ≡ drop 1 text.now }
{
    if text.is_empty() { text } else { &text[1..] }
}
