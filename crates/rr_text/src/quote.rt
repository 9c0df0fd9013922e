//! Texts between quotes.

ghost use Rattle.std.specs.Prelude.{◌≡◌, ℕ, List, [], ◌∷◌, ◌++◌, ◌≤◌, IsTrue, length, OnOk, drop, slice_range};
ghost use Rattle.rr_text.specs.Quoted.{quoted, escape, escaped, opens};

use std::alloc::AllocError;

/// Whether a byte is written as it is, whatever follows it.
fn is_plain(b: u8) -> bool
    ensures { IsTrue result → (s : List ℕ) → escape b s ≡ b ∷ [] }
{
    b != 34 && b != 92 && b != 35 && (b >= 28 || (b != 9 && b != 10 && b != 13 && b != 27))
}

/// Whether `#` before these bytes would begin an interpolation.
fn is_opening(bytes: &[u8]) -> bool
    ensures { result ≡ opens bytes.now }
{
    match bytes {
        [] => false,
        [first, ..] => *first == 123 || *first == 36 || *first == 64,
    }
}

/// Appends a byte as it is written between quotes.
fn push_escape(out: &mut Vec<u8>, b: u8, after: &[u8]) -> Result<(), AllocError>
    ensures { OnOk result (out.new.items ≡ out.old.items ++ escape b after.now) }
{
    match b {
        34 => out.extend_from_slice(&[92, 34]),
        92 => out.extend_from_slice(&[92, 92]),
        10 => out.extend_from_slice(&[92, 110]),
        9 => out.extend_from_slice(&[92, 116]),
        13 => out.extend_from_slice(&[92, 114]),
        27 => out.extend_from_slice(&[92, 101]),
        35 => {
            if is_opening(after) {
                out.extend_from_slice(&[92, 35])
            } else {
                out.extend_from_slice(&[35])
            }
        }
        _ => out.extend_from_slice(&[b]),
    }
}

/// Where the bytes that are written as they are end.
fn run_end(bytes: &[u8], start: usize) -> usize
    requires { start ≤ length bytes.now }
    ensures low { start ≤ result }
    ensures high { result ≤ length bytes.now }
    ensures run { escaped (drop start bytes.now) ≡ slice_range bytes.now start result ++ escaped (drop result bytes.now) }
{
    let mut end = start;
    while end < bytes.len() && is_plain(bytes[end]) {
        end += 1;
    }
    end
}

/// Appends a text between quotes.
pub fn push_quoted(out: &mut Vec<u8>, bytes: &[u8]) -> Result<(), AllocError>
    ensures { OnOk result (out.new.items ≡ out.old.items ++ quoted bytes.now) }
{
    out.push(34)?;
    let mut i = run_end(bytes, 0);
    out.extend_from_slice(&bytes[..i])?;
    while i < bytes.len() {
        push_escape(out, bytes[i], &bytes[i + 1..])?;
        let end = run_end(bytes, i + 1);
        out.extend_from_slice(&bytes[i + 1..end])?;
        i = end;
    }
    out.push(34)?;
    Ok(())
}
