//! Division of 64-bit integers, as the language has it.

ghost use Rattle.std.specs.Prelude.{◌≡◌, ◌≢◌, ◌<◌, ◌^◌, ◌<ℤ◌, pos, negsuc, ℤ};
ghost use Rattle.rr_builtin.specs.Floor.{floored, modulus, fitted, IsDivision};

/// A negative number whose distance below -1 this is.
fn below(n: u64) -> i64
    requires { n < 2 ^ 63 }
    ensures { result ≡ negsuc n }
{
    -(n as i64) - 1
}

/// How far a negative number is below -1.
fn depth(z: i64) -> u64
    requires { z <ℤ pos 0 }
    ensures is { z ≡ negsuc result }
    ensures small { result < 2 ^ 63 }
{
    (-(z + 1)) as u64
}

/// The quotient rounded down; none where it does not fit 64 bits.
pub fn floor_div(a: i64, b: i64) -> Option<i64>
    requires { b ≢ pos 0 }
    ensures { result ≡ fitted (floored a b) }
{
    if b > 0 {
        if a >= 0 {
            Some((a as u64 / b as u64) as i64)
        } else {
            Some(below(depth(a) / b as u64))
        }
    } else if a > 0 {
        Some(below((a as u64 - 1) / (depth(b) + 1)))
    } else if a == 0 {
        Some(0)
    } else {
        let quotient = (depth(a) + 1) / (depth(b) + 1);
        if quotient < 9_223_372_036_854_775_808 {
            Some(quotient as i64)
        } else {
            None
        }
    }
}

/// What the quotient rounded down leaves. It has the sign of the divisor.
pub fn floor_mod(a: i64, b: i64) -> i64
    requires { b ≢ pos 0 }
    ensures { result ≡ modulus a b }
{
    if b > 0 {
        if a >= 0 {
            (a as u64 % b as u64) as i64
        } else {
            (b as u64 - 1 - depth(a) % b as u64) as i64
        }
    } else if a > 0 {
        -((depth(b) - (a as u64 - 1) % (depth(b) + 1)) as i64)
    } else if a == 0 {
        0
    } else {
        -(((depth(a) + 1) % (depth(b) + 1)) as i64)
    }
}

/// The quotient is rounded down, and the modulus is what it leaves.
pub fn division_rounds_down()
    ensures { (a b : ℤ) → b ≢ pos 0 → IsDivision a b (floored a b) (modulus a b) }
{}
