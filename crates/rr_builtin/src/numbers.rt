//! The methods of integers, as calls of them come out.

ghost use Rattle.std.specs.Prelude.{◌≡◌, ℕ};
ghost use Rattle.rr_space.specs.Parts.{truth_ref};
ghost use Rattle.rr_space.specs.Tables.{Below};
ghost use Rattle.rr_builtin.specs.Acts.{IsBuiltWithin, IsBuiltAmong};
ghost use Rattle.rr_builtin.specs.Numbers.{number_given, on_integers, on_other, on_integer, number_answer};

use crate::built::Built;
use crate::integer::{
    NumberProblem, absolute, compare, difference, is_even, is_odd, is_zero, opposite, product,
    quotient, remainder, sum,
};
use crate::method::NumberMethod;
use crate::problem::Problem;
use rr_base::ClassId;
use rr_space::{Ref, Space};
use rr_tree::BinaryOperator;

#[inline(always)]
pub(crate) fn number_given(number: Result<i64, NumberProblem>) -> Built
    ensures is { result ≡ number_given number }
    ensures plain { (k : ℕ) (below : Below) → IsBuiltWithin k result × IsBuiltAmong below result }
{
    match number {
        Ok(number) => Built::Value(Ref::Int(number)),
        Err(NumberProblem::DividedByZero) => Built::Raised(Problem::DividedByZero),
        Err(NumberProblem::OutOfRange) => Built::Raised(Problem::OutOfRange),
    }
}

fn truth(holds: bool) -> Built
    ensures is { result ≡ Built.Value (truth_ref holds) }
    ensures plain { (k : ℕ) (below : Below) → IsBuiltWithin k result × IsBuiltAmong below result }
{
    Built::Value(Ref::truth(holds))
}

/// An operator on two integers.
fn on_integers(operator: BinaryOperator, x: i64, y: i64) -> Built
    ensures is { result ≡ on_integers operator x y }
    ensures plain { (k : ℕ) (below : Below) → IsBuiltWithin k result × IsBuiltAmong below result }
{
    match operator {
        BinaryOperator::Add => number_given(sum(x, y)),
        BinaryOperator::Subtract => number_given(difference(x, y)),
        BinaryOperator::Multiply => number_given(product(x, y)),
        BinaryOperator::Divide => number_given(quotient(x, y)),
        BinaryOperator::Remainder => number_given(remainder(x, y)),
        BinaryOperator::Less => truth(x < y),
        BinaryOperator::LessOrEqual => truth(x <= y),
        BinaryOperator::Greater => truth(x > y),
        BinaryOperator::GreaterOrEqual => truth(x >= y),
        BinaryOperator::Compare => Built::Value(Ref::Int(compare(x, y))),
        BinaryOperator::Equal => truth(x == y),
        BinaryOperator::NotEqual => truth(x != y),
    }
}

/// An operator on an integer and an operand of another class.
fn on_other(operator: BinaryOperator, class: ClassId) -> Built
    ensures is { result ≡ on_other operator class }
    ensures plain { (k : ℕ) (below : Below) → IsBuiltWithin k result × IsBuiltAmong below result }
{
    match operator {
        BinaryOperator::Equal => truth(false),
        BinaryOperator::NotEqual => truth(true),
        BinaryOperator::Compare => Built::Value(Ref::Nil),
        BinaryOperator::Less
        | BinaryOperator::LessOrEqual
        | BinaryOperator::Greater
        | BinaryOperator::GreaterOrEqual => {
            Built::Raised(Problem::Incomparable(ClassId::INTEGER, class))
        }
        BinaryOperator::Add
        | BinaryOperator::Subtract
        | BinaryOperator::Multiply
        | BinaryOperator::Divide
        | BinaryOperator::Remainder => Built::Raised(Problem::WrongType(class)),
    }
}

/// An operator on an integer.
pub fn on_integer(space: &Space, operator: BinaryOperator, x: i64, operand: Ref) -> Built
    ensures is { result ≡ on_integer operator x operand space.now }
    ensures plain { (k : ℕ) (below : Below) → IsBuiltWithin k result × IsBuiltAmong below result }
{
    match operand {
        Ref::Int(y) => on_integers(operator, x, y),
        _ => on_other(operator, space.class_of(operand)),
    }
}

/// A method of an integer without operands.
pub fn number_answer(method: NumberMethod, x: i64) -> Built
    ensures is { result ≡ number_answer method x }
    ensures plain { (k : ℕ) (below : Below) → IsBuiltWithin k result × IsBuiltAmong below result }
{
    match method {
        NumberMethod::Opposite => number_given(opposite(x)),
        NumberMethod::Absolute => number_given(absolute(x)),
        NumberMethod::IsEven => truth(is_even(x)),
        NumberMethod::IsOdd => truth(is_odd(x)),
        NumberMethod::IsZero => truth(is_zero(x)),
    }
}
