//! The operators of integers, and new texts.

ghost use Rattle.std.specs.Prelude.{◌≡◌, length, Option, Result, IfOk, IfErr};
ghost use Rattle.rr_space.specs.Tables.{Below};
ghost use Rattle.rr_space.specs.declared.refer.Ref.{Ref};
ghost use Rattle.rr_text.specs.Reads.{IsReadWith};
ghost use Rattle.rr_builtin.specs.Acts.{with_text, with_frozen};
ghost use Rattle.rr_builtin.specs.Integers.{quotient_of, remainder_of};
ghost use Rattle.rr_builtin.specs.Numbers.{number_given};
ghost use Rattle.rr_eval.specs.Acts.{Acts, IsRefusal, Passes};
ghost use Rattle.rr_eval.specs.Changes.{Changes};
ghost use Rattle.rr_eval.specs.Within.{Reach, reach, IsReached, IsResponseReached};
ghost use Rattle.rr_eval.specs.Operators.{settled_number, integers, opposite, with_literal, make};

use crate::problem::{Problem, Response};
use rr_base::Fault;
use rr_builtin::{
    NumberProblem, Problem as BuiltInProblem, compare, difference, product, quotient, remainder,
    sum,
};
use rr_space::{Node, Ref, Space};
use rr_tree::BinaryOperator;

/// Unary minus.
pub fn opposite(x: i64) -> Response
    ensures does { result ≡ opposite x }
    ensures within { (k : Reach) → IsResponseReached k result }
{
    match x.checked_neg() {
        Some(z) => Response::Gives(Ref::Int(z)),
        None => Response::Fails(Problem::BuiltIn(BuiltInProblem::OutOfRange)),
    }
}

/// The problem of an operator on two integers.
#[inline(never)]
pub fn failed(problem: NumberProblem) -> Response
    ensures does { result ≡ settled_number (number_given (Result.Err problem)) }
    ensures within { (k : Reach) → IsResponseReached k result }
{
    match problem {
        NumberProblem::DividedByZero => {
            Response::Fails(Problem::BuiltIn(BuiltInProblem::DividedByZero))
        }
        NumberProblem::OutOfRange => Response::Fails(Problem::BuiltIn(BuiltInProblem::OutOfRange)),
    }
}

/// The quotient. It is written into memory here, and so that of no other operator has to be.
#[inline(always)]
fn divided(x: i64, y: i64) -> Result<i64, NumberProblem>
    ensures { result ≡ quotient_of x y }
{
    quotient(x, y)
}

/// What a division leaves, which is written into memory here as well.
#[inline(always)]
fn left_over(x: i64, y: i64) -> Result<i64, NumberProblem>
    ensures { result ≡ remainder_of x y }
{
    remainder(x, y)
}

/// What an operator on two integers gives.
///
/// # Errors
///
/// `DividedByZero` and `OutOfRange`, where the result does not fit 64 bits.
#[inline(always)]
pub fn computed(op: BinaryOperator, x: i64, y: i64) -> Result<Ref, NumberProblem>
    ensures gives { IfOk result (λ v. integers op x y ≡ Response.Gives v) }
    ensures fails { IfErr result (λ e. integers op x y ≡ settled_number (number_given (Result.Err e))) }
    ensures within { (k : Reach) → IfOk result (IsReached k) }
{
    let number = match op {
        BinaryOperator::Add => sum(x, y)?,
        BinaryOperator::Subtract => difference(x, y)?,
        BinaryOperator::Multiply => product(x, y)?,
        BinaryOperator::Divide => divided(x, y)?,
        BinaryOperator::Remainder => left_over(x, y)?,
        BinaryOperator::Less => return Ok(Ref::truth(x < y)),
        BinaryOperator::LessOrEqual => return Ok(Ref::truth(x <= y)),
        BinaryOperator::Greater => return Ok(Ref::truth(x > y)),
        BinaryOperator::GreaterOrEqual => return Ok(Ref::truth(x >= y)),
        BinaryOperator::Compare => compare(x, y),
        BinaryOperator::Equal => return Ok(Ref::truth(x == y)),
        BinaryOperator::NotEqual => return Ok(Ref::truth(x != y)),
    };
    Ok(Ref::Int(number))
}

/// Makes a new text. A refused growth leaves the objects as they were.
pub fn make_text(space: &mut Space, bytes: Vec<u8>) -> Result<Ref, Fault>
    ensures name { IfOk result (λ text. text ≡ Ref.Local (length space.old.slots)) }
    ensures made { IfOk result (λ _. space.new ≡ with_text bytes.items space.old) }
    ensures read { (below : Below) → IsReadWith space.old below → IsReadWith space.new below }
    ensures kept { IfErr result (λ _. space.new ≡ space.old) }
    ensures refused { IfErr result IsRefusal }
    ensures limit { space.new.limit ≡ space.old.limit }
    ensures changed { Changes space.old space.new }
    ensures full { IfErr result (λ f. Passes f space.old.limit (length (with_text bytes.items space.old).slots)) }
{
    match space.alloc(Node::Text(bytes)) {
        Ok(text) => Ok(text),
        Err(fault) => Err(fault),
    }
}

/// Makes a new frozen text. A refused growth leaves the objects as they were.
fn make_frozen(space: &mut Space, bytes: Vec<u8>) -> Result<Ref, Fault>
    ensures name { IfOk result (λ text. text ≡ Ref.Local (length space.old.slots)) }
    ensures made { IfOk result (λ _. space.new ≡ with_frozen bytes.items space.old) }
    ensures read { (below : Below) → IsReadWith space.old below → IsReadWith space.new below }
    ensures kept { IfErr result (λ _. space.new ≡ space.old) }
    ensures refused { IfErr result IsRefusal }
    ensures limit { space.new.limit ≡ space.old.limit }
    ensures changed { Changes space.old space.new }
    ensures full { IfErr result (λ f. Passes f space.old.limit (length (with_frozen bytes.items space.old).slots)) }
{
    match make_text(space, bytes) {
        Ok(text) => {
            space.freeze(text);
            Ok(text)
        }
        Err(fault) => Err(fault),
    }
}

/// Makes the text of a literal. A refused growth leaves the objects as they were.
pub fn make_literal(space: &mut Space, frozen: bool, bytes: Vec<u8>) -> Result<Ref, Fault>
    ensures name { IfOk result (λ text. text ≡ Ref.Local (length space.old.slots)) }
    ensures made { IfOk result (λ _. space.new ≡ with_literal frozen bytes.items space.old) }
    ensures read { (below : Below) → IsReadWith space.old below → IsReadWith space.new below }
    ensures kept { IfErr result (λ _. space.new ≡ space.old) }
    ensures refused { IfErr result IsRefusal }
    ensures limit { space.new.limit ≡ space.old.limit }
    ensures changed { Changes space.old space.new }
    ensures full { IfErr result (λ f. Passes f space.old.limit (length (with_literal frozen bytes.items space.old).slots)) }
{
    match frozen {
        true => make_frozen(space, bytes),
        false => make_text(space, bytes),
    }
}

/// Makes the text of a literal, frozen or not, as an operation.
pub fn make(space: &mut Space, frozen: bool, bytes: Vec<u8>) -> Result<Response, Fault>
    ensures acts { Acts (make frozen bytes.items) space.old space.new result }
    ensures within { (below : Option Below) → IfOk result (IsResponseReached (reach (length space.new.slots) below)) }
    ensures read { (below : Below) → IsReadWith space.old below → IsReadWith space.new below }
    ensures limit { space.new.limit ≡ space.old.limit }
    ensures changed { Changes space.old space.new }
    ensures full { IfErr result (λ f. Passes f space.old.limit (length (make frozen bytes.items space.old).1.slots)) }
{
    match make_literal(space, frozen, bytes) {
        Ok(text) => Ok(Response::Gives(text)),
        Err(fault) => Err(fault),
    }
}
