//! The characters of texts.

ghost use Rattle.std.specs.Prelude.{◌≡◌, ◌≤◌, IfOk, length, count_by, drop, take};
ghost use Rattle.std.specs.List.{prefix_len};
ghost use Rattle.rr_builtin.specs.Characters.{begins_character, continues_character, from_character, first_character};

use std::alloc::{AllocError, Global};

/// Whether a byte begins a character.
fn begins_character(byte: u8) -> bool
    ensures { result ≡ begins_character byte }
{
    byte < 128 || !(byte < 192)
}

/// How many characters a text has: the bytes that begin one.
pub(crate) fn characters(text: &[u8]) -> usize
    ensures { result ≡ count_by begins_character text.now }
{
    text.iter().filter(|b| **b < 128 || !(**b < 192)).count()
}

/// Where the character of that place begins; the end of the text where there is none.
fn start_of(text: &[u8], place: usize) -> usize
    ensures is { drop result text.now ≡ from_character place text.now }
    ensures within { result ≤ length text.now }
{
    let mut left = place;
    for (i, byte) in text.iter().enumerate() {
        if begins_character(*byte) {
            if left == 0 {
                return i;
            }
            left -= 1;
        }
    }
    text.len()
}

/// How many bytes at the front go on in a character.
fn rest_len(rest: &[u8]) -> usize
    ensures is { result ≡ prefix_len continues_character rest.now }
    ensures within { result ≤ length rest.now }
{
    for (i, byte) in rest.iter().enumerate() {
        if begins_character(*byte) {
            return i;
        }
    }
    rest.len()
}

/// The first character of a text that begins with one.
fn first_character(text: &[u8]) -> &[u8]
    ensures { result.now ≡ first_character text.now }
{
    if text.len() == 0 {
        return text;
    }
    let end = rest_len(&text[1..]) + 1;
    &text[..end]
}

/// The character of that place.
pub(crate) fn character_at(alloc: Global, text: &[u8], place: usize) -> Result<Vec<u8>, AllocError>
    ensures { IfOk result (λ made. made.items ≡ first_character (from_character place text.now)) }
{
    let start = start_of(text, place);
    first_character(&text[start..]).to_vec(alloc)
}
