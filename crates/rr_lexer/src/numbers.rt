//! Numbers without a sign.

ghost use Rattle.std.specs.Prelude.{◌≡◌, ℕ, true, ◌+◌, ◌-◌, ◌<◌, ◌≤◌, length, drop, slice_index, IfSome, MatchOption};
ghost use Rattle.rr_lexer.specs.Numbers.{digit_value, is_digit_of, base_of, goes_on_in, largest_int};
ghost use Rattle.rr_lexer.specs.Scans.{digits_from, checked_number, number_at};

use crate::class::byte_at;

const LARGEST: u128 = 9_223_372_036_854_775_808;

/// The value of a digit, letters from ten on; 255 for what is no digit.
#[tactic(auto, unfolding(crate::specs::Numbers::digit_value))]
fn digit_value(b: u8) -> u8
    ensures { result ≡ digit_value b }
{
    match b {
        b'0'..=b'9' => b - b'0',
        b'a'..=b'f' => b - 87,
        b'A'..=b'F' => b - 55,
        _ => 255,
    }
}

fn is_digit_of(base: u8, b: u8) -> bool
    ensures { result ≡ is_digit_of base b }
{
    digit_value(b) < base
}

/// The base that a letter behind a 0 gives, else 0.
fn base_of(b: u8) -> u8
    ensures is { result ≡ base_of b }
    ensures small { result ≤ 16 }
{
    match b {
        b'x' => 16,
        b'b' => 2,
        b'o' => 8,
        _ => 0,
    }
}

/// Whether a number goes on with these two bytes.
fn goes_on_in(base: u8, b: u8, c: u8) -> bool
    ensures { result ≡ goes_on_in base b c }
{
    is_digit_of(base, b) || b == b'_' && is_digit_of(base, c)
}

/// The number that goes on behind the digits that spell `first`, and how many bytes that takes.
#[tactic(auto, using(crate::proofs::Digits::digits_grow))]
fn digits_from(rest: &[u8], base: u8, first: u64) -> Option<(u64, usize)>
    requires some { 0 < base }
    requires first { first ≤ largest_int }
    ensures is { MatchOption result (largest_int < (digits_from base rest.now first).0) (λ p. p ≡ digits_from base rest.now first) }
    ensures within { IfSome result (λ p. (p.1 ≤ length rest.now) × (p.0 ≤ largest_int)) }
{
    let mut value = first;
    let mut i: usize = 0;
    while i < rest.len() {
        let b = rest[i];
        if is_digit_of(base, b) {
            let next = u128::from(value) * u128::from(base) + u128::from(digit_value(b));
            if next > LARGEST {
                return None;
            }
            value = next as u64;
        } else if !(b == b'_' && is_digit_of(base, byte_at(rest, i + 1))) {
            return Some((value, i));
        }
        i += 1;
    }
    Some((value, i))
}

/// The number whose first digit is the last of `size` bytes.
fn checked_number(rest: &[u8], size: usize, base: u8) -> Option<(u64, usize)>
    requires some { 0 < base }
    requires digit_before { 0 < size }
    requires room { size ≤ length rest.now }
    ensures is { result ≡ checked_number size base rest.now }
    ensures within { IfSome result (λ p. (0 < p.1) × (p.1 ≤ length rest.now)) }
{
    let first = u64::from(digit_value(rest[size - 1]));
    match digits_from(&rest[size..], base, first) {
        Some((value, n)) => {
            let end = size + n;
            if goes_on_in(10, byte_at(rest, end), byte_at(rest, end + 1)) {
                None
            } else {
                Some((value, end))
            }
        }
        None => None,
    }
}

/// The number at the front, and how many bytes it takes.
#[tactic(auto, unfolding(crate::specs::Scans::number_at), using(crate::proofs::Digits::digit_within))]
pub fn number_at(rest: &[u8]) -> Option<(u64, usize)>
    ensures is { result ≡ number_at rest.now }
    ensures within { IfSome result (λ p. (0 < p.1) × (p.1 ≤ length rest.now)) }
{
    let (a, b, c) = (byte_at(rest, 0), byte_at(rest, 1), byte_at(rest, 2));
    let base = base_of(b);
    if !is_digit_of(10, a) {
        None
    } else if a == b'0' && is_digit_of(base, c) {
        checked_number(rest, 3, base)
    } else if a == b'0' && goes_on_in(10, b, c) {
        None
    } else {
        checked_number(rest, 1, 10)
    }
}
