//! Cuts of a text at a byte, or after its beginning.

ghost use Rattle.std.specs.Prelude.{◌≡◌, ◌≢◌, ◌++◌, ℕ, List, MatchOption, true, false};
ghost use Rattle.std.specs.List.{flat_map};
ghost use Rattle.part_files.specs.Cut.{IsCutFirst, IsCutLast, Lacks};

/// Returns the bytes before and after the first such byte of a text, or none if the text lacks it.
pub(crate) fn cut_first(text: &[u8], byte: u8) -> Option<(&[u8], &[u8])>
    ensures { MatchOption result (Lacks byte text.now)
        (λ cut. IsCutFirst byte text.now cut.0.now cut.1.now) }
{
    for at in 0..text.len() {
        if text[at] == byte {
            return Some((&text[..at], &text[at + 1..]));
        }
    }
    None
}

/// Returns the bytes before and after the last such byte of a text, or none if the text lacks it.
pub(crate) fn cut_last(text: &[u8], byte: u8) -> Option<(&[u8], &[u8])>
    ensures { MatchOption result (Lacks byte text.now)
        (λ cut. IsCutLast byte text.now cut.0.now cut.1.now) }
{
    let mut at = text.len();
    while at > 0 {
        at -= 1;
        if text[at] == byte {
            return Some((&text[..at], &text[at + 1..]));
        }
    }
    None
}

/// Returns the rest of a text after this beginning, or none if it doesn't begin so.
pub(crate) fn strip<'a>(text: &'a [u8], front: &[u8]) -> Option<&'a [u8]>
    ensures { MatchOption result ((rest : List ℕ) → text.now ≢ front.now ++ rest)
        (λ rest. text.now ≡ front.now ++ rest.now) }
{
    text.strip_prefix(front)
}

/// Returns whether a text is these pieces, one after another.
pub(crate) fn is_joined(text: &[u8], pieces: &[&str]) -> bool
    ensures yes { result ≡ true → text.now ≡ flat_map (λ p. p.now) pieces.now }
    ensures no { result ≡ false → text.now ≢ flat_map (λ p. p.now) pieces.now }
{
    let mut rest = text;
    for piece in pieces {
        match strip(rest, piece.as_bytes()) {
            Some(after) => rest = after,
            None => return false,
        }
    }
    rest.is_empty()
}
