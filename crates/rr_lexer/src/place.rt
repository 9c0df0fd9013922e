//! Lines and columns.

ghost use Rattle.std.specs.Prelude.{◌≡◌, ◌+◌, ◌<◌, ◌≤◌, ◌==◌, not, length, take, min, count_by};
ghost use Rattle.std.specs.List.{suffix_len};
ghost use Rattle.rr_lexer.specs.Places.{IsAt};

/// How many line ends stand in these bytes, and how many bytes behind the last of them.
fn lines_and_bytes(front: &[u8]) -> (usize, usize)
    ensures lines { result.0 ≡ count_by (λ b. b == 10) front.now }
    ensures bytes { result.1 ≡ suffix_len (λ b. not (b == 10)) front.now }
{
    let mut lines: usize = 0;
    let mut bytes: usize = 0;
    for b in front {
        if *b == b'\n' {
            lines += 1;
            bytes = 0;
        } else {
            bytes += 1;
        }
    }
    (lines, bytes)
}

/// One more than a count, or `u32::MAX` where that is more than a `u32` holds.
fn told(count: usize) -> u32
    ensures { result ≡ min (1 + count) 4294967295 }
{
    (count.min(4_294_967_294) + 1) as u32
}

/// The line and the column of the byte at a place of a source, or behind its last byte for a place past it.
///
/// Both count from 1, columns in bytes. `u32::MAX` stands for any larger number.
#[tactic(auto, unfolding(crate::specs::Places::line_of, crate::specs::Places::column_of))]
pub fn line_and_column(source: &[u8], place: usize) -> (u32, u32)
    ensures { IsAt source.now place result.0 result.1 }
{
    let front = &source[..place.min(source.len())];
    let (lines, bytes) = lines_and_bytes(front);
    (told(lines), told(bytes))
}
