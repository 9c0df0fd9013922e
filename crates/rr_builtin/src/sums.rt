//! The sum of the elements of an array.

ghost use Rattle.std.specs.Prelude.{◌≡◌, ◌+◌, ◌+ℤ◌, IfOk, IfErr, Ok, Err, length};
ghost use Rattle.rr_space.specs.Tables.{Below};
ghost use Rattle.rr_space.specs.Parts.{value_of};
ghost use Rattle.rr_text.specs.Reads.{IsAmong, IsReadWith};
ghost use Rattle.rr_builtin.specs.Acts.{IsRefAmong};
ghost use Rattle.rr_builtin.specs.Deeds.{act_of, IsFit, IsDeedAmong};
ghost use Rattle.rr_builtin.specs.Elements.{elements_of};
ghost use Rattle.rr_builtin.specs.Integers.{given};
ghost use Rattle.rr_builtin.specs.Sums.{IsSumOfSoMany, integer_of, integers_of, totalled, sum_act};

use crate::arrays::element;
use crate::deed::Deed;
use crate::integer::NumberProblem;
use crate::numbers::number_given;
use crate::objects::raise;
use crate::problem::Problem;
use rr_space::{Ref, Space};

/// A number of 64 bits, if it is one.
fn fitted(number: i128) -> Result<i64, NumberProblem>
    ensures { result ≡ given number }
{
    if number >= -9_223_372_036_854_775_808 && number <= 9_223_372_036_854_775_807 {
        Ok(number as i64)
    } else {
        Err(NumberProblem::OutOfRange)
    }
}

pub(crate) fn integer_of(value: Ref) -> Option<i64>
    ensures { result ≡ integer_of (value_of value) }
{
    match value {
        Ref::Int(number) => Some(number),
        _ => None,
    }
}

/// A sum of so many numbers of 64 bits, and one more.
fn added(sum: i128, count: usize, number: i64) -> i128
    requires { IsSumOfSoMany count sum }
    ensures is { result ≡ sum +ℤ number }
    ensures bounded { IsSumOfSoMany (count + 1) result }
{
    sum + number as i128
}

/// The sum of the elements of an array, or the first of them that is no integer.
fn total(space: &Space, array: Ref) -> Result<i128, Ref>
    ensures all { IfOk result (λ n. totalled (integers_of (elements_of space.now array)) ≡ Ok n) }
    ensures other { IfErr result (λ r. totalled (integers_of (elements_of space.now array)) ≡ Err (value_of r)) }
    ensures among { IfErr result (λ r. (below : Below) → IsReadWith space.now below → IsRefAmong below array → IsRefAmong below r) }
{
    let mut sum = 0;
    for place in 0..space.arity(array) {
        let value = element(space, array, place);
        match integer_of(value) {
            Some(number) => sum = added(sum, place, number),
            None => return Err(value),
        }
    }
    Ok(sum)
}

/// `sum`.
pub(crate) fn sum_deed(space: &Space, array: Ref) -> Deed
    ensures act { (below : Below) → IsReadWith space.now below → IsAmong below array → act_of result ≡ sum_act below array space.now }
    ensures fit { IsFit space.now array result }
    ensures among { (below : Below) → IsDeedAmong below result }
{
    // No reference leads nowhere, as the clause of the number says.
    let _count = space.len();
    match total(space, array) {
        Ok(number) => Deed::Answer(number_given(fitted(number))),
        Err(other) => raise(Problem::WrongType(space.class_of(other))),
    }
}
