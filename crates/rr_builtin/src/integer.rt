//! The methods of integers.

ghost use Rattle.std.specs.Prelude.{◌≡◌, ◌+ℤ◌, ◌-ℤ◌, ◌*ℤ◌, neg_ℤ, pos, not};
ghost use Rattle.std.specs.Ordering.{int_eq};
ghost use Rattle.rr_builtin.specs.Integers.{given, quotient_of, remainder_of, absolute_of, order_of, even};

use crate::dividing::{floor_div, floor_mod};

/// Why a method of integers gives none.
#[derive(Clone, Copy, Drop)]
pub enum NumberProblem {
    /// The divisor is 0.
    DividedByZero,
    /// The result does not fit 64 bits.
    OutOfRange,
}

/// `x + y`.
pub fn sum(x: i64, y: i64) -> Result<i64, NumberProblem>
    ensures { result ≡ given (x +ℤ y) }
{
    match x.checked_add(y) {
        Some(z) => Ok(z),
        None => Err(NumberProblem::OutOfRange),
    }
}

/// `x - y`.
pub fn difference(x: i64, y: i64) -> Result<i64, NumberProblem>
    ensures { result ≡ given (x -ℤ y) }
{
    match x.checked_sub(y) {
        Some(z) => Ok(z),
        None => Err(NumberProblem::OutOfRange),
    }
}

/// `x * y`.
pub fn product(x: i64, y: i64) -> Result<i64, NumberProblem>
    ensures { result ≡ given (x *ℤ y) }
{
    match x.checked_mul(y) {
        Some(z) => Ok(z),
        None => Err(NumberProblem::OutOfRange),
    }
}

/// `-x`.
pub fn opposite(x: i64) -> Result<i64, NumberProblem>
    ensures { result ≡ given (neg_ℤ x) }
{
    match x.checked_neg() {
        Some(z) => Ok(z),
        None => Err(NumberProblem::OutOfRange),
    }
}

/// `x.abs`.
pub fn absolute(x: i64) -> Result<i64, NumberProblem>
    ensures { result ≡ absolute_of x }
{
    if x < 0 { opposite(x) } else { Ok(x) }
}

/// `x / y`, rounded down.
pub fn quotient(x: i64, y: i64) -> Result<i64, NumberProblem>
    ensures { result ≡ quotient_of x y }
{
    if y == 0 {
        return Err(NumberProblem::DividedByZero);
    }
    match floor_div(x, y) {
        Some(z) => Ok(z),
        None => Err(NumberProblem::OutOfRange),
    }
}

/// `x % y`, which has the sign of `y`.
pub fn remainder(x: i64, y: i64) -> Result<i64, NumberProblem>
    ensures { result ≡ remainder_of x y }
{
    if y == 0 {
        return Err(NumberProblem::DividedByZero);
    }
    Ok(floor_mod(x, y))
}

/// `x <=> y`: -1, 0 or 1.
pub fn compare(x: i64, y: i64) -> i64
    ensures { result ≡ order_of x y }
{
    if x < y {
        -1
    } else if x == y {
        0
    } else {
        1
    }
}

/// `x.even?`.
pub fn is_even(x: i64) -> bool
    ensures { result ≡ even x }
{
    floor_mod(x, 2) == 0
}

/// `x.odd?`.
pub fn is_odd(x: i64) -> bool
    ensures { result ≡ not (even x) }
{
    !is_even(x)
}

/// `x.zero?`.
pub fn is_zero(x: i64) -> bool
    ensures { result ≡ int_eq x (pos 0) }
{
    x == 0
}
