//! Which bytes a source may have.

ghost use Rattle.std.specs.Prelude.{◌≡◌, ◌<◌, ◌≤◌, not, length, MatchOption};
ghost use Rattle.std.specs.List.{position_or_len};
ghost use Rattle.std.specs.Str.Lossy.{utf8_valid_len};
ghost use Rattle.rr_lexer.specs.Encoding.{is_allowed, refused_from};

fn is_allowed(b: u8) -> bool
    ensures { result ≡ is_allowed b }
{
    b > 31 && b != 127 || b == b'\t' || b == b'\n' || b == b'\r'
}

/// How many bytes stand before the first that is not allowed.
fn allowed_len(source: &[u8]) -> usize
    ensures is { result ≡ position_or_len (λ b. not (is_allowed b)) source.now }
    ensures within { result ≤ length source.now }
{
    for (i, b) in source.iter().enumerate() {
        if !is_allowed(*b) {
            return i;
        }
    }
    source.len()
}

/// The length of the longest front that is UTF-8.
#[tactic(auto, using(crate::proofs::Facts::utf8_facts))]
fn utf8_len(source: &[u8]) -> usize
    ensures is { result ≡ utf8_valid_len source.now }
    ensures within { result ≤ length source.now }
{
    match simdutf8::compat::from_utf8(source) {
        Ok(_) => source.len(),
        Err(e) => e.valid_up_to(),
    }
}

/// The place of the first refused byte.
#[tactic(auto, unfolding(crate::specs::Encoding::refused_from))]
pub fn first_refused(source: &[u8]) -> Option<usize>
    ensures { MatchOption result (refused_from source.now ≡ length source.now)
        (λ p. (p ≡ refused_from source.now) × (p < length source.now)) }
{
    let refused = utf8_len(source).min(allowed_len(source));
    if refused < source.len() {
        Some(refused)
    } else {
        None
    }
}
