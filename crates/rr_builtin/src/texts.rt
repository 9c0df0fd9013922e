//! The methods of texts.

ghost use Rattle.std.specs.Prelude.{◌≡◌, ◌++◌, ℕ, IfOk, IfErr};
ghost use Rattle.std.specs.List.{repeat};
ghost use Rattle.std.specs.Ordering.{nat_cmp};
ghost use Rattle.std.specs.Cmp.Lexicographic.{slice_cmp};
ghost use Rattle.rr_space.specs.Tables.{Below, Table};
ghost use Rattle.rr_builtin.specs.Acts.{IsBuiltWithin, IsBuiltAmong, outcome_of};
ghost use Rattle.rr_builtin.specs.Deeds.{act_of, IsFit, IsDeedAmong};
ghost use Rattle.rr_builtin.specs.Texts.{sum_act, product_act, order_number, is_below, is_above, ordered, unordered, order_outcome, text_operator};

use crate::built::Built;
use crate::deed::Deed;
use crate::kinds::is_text_kind;
use crate::objects::{is_equal, raise, truth};
use crate::problem::Problem;
use rr_base::{ClassId, Fault};
use rr_space::{Ref, Space};
use rr_tree::BinaryOperator;
use std::alloc::{AllocError, Global};
use std::cmp::Ordering;

/// Both texts, the first before the second.
fn joined(alloc: Global, first: &[u8], second: &[u8]) -> Result<Vec<u8>, AllocError>
    ensures { IfOk result (λ text. text.items ≡ first.now ++ second.now) }
{
    let mut text = Vec::with_capacity(alloc, first.len().saturating_add(second.len()))?;
    text.extend_from_slice(first)?;
    text.extend_from_slice(second)?;
    Ok(text)
}

/// A text so many times.
fn repeated(alloc: Global, text: &[u8], count: usize) -> Result<Vec<u8>, AllocError>
    ensures { IfOk result (λ made. made.items ≡ repeat count text.now) }
{
    text.repeat(alloc, count)
}

/// `+`.
fn sum_deed(alloc: Global, space: &Space, text: Ref, operand: Ref) -> Result<Deed, Fault>
    ensures act { IfOk result (λ deed. act_of deed ≡ sum_act text operand space.now) }
    ensures fit { IfOk result (λ deed. IsFit space.now text deed) }
    ensures among { IfOk result (λ deed. (below : Below) → IsDeedAmong below deed) }
    ensures fault { IfErr result (λ f. f ≡ Fault.Memory) }
{
    if is_text_kind(space.kind_of(operand)) {
        let bytes = joined(alloc, space.text_bytes(text), space.text_bytes(operand))?;
        Ok(Deed::Make(bytes))
    } else {
        Ok(raise(Problem::WrongType(space.class_of(operand))))
    }
}

/// `*`.
fn product_deed(alloc: Global, space: &Space, text: Ref, operand: Ref) -> Result<Deed, Fault>
    ensures act { IfOk result (λ deed. act_of deed ≡ product_act text operand space.now) }
    ensures fit { IfOk result (λ deed. IsFit space.now text deed) }
    ensures among { IfOk result (λ deed. (below : Below) → IsDeedAmong below deed) }
    ensures fault { IfErr result (λ f. f ≡ Fault.Memory) }
{
    match operand {
        Ref::Int(count) => {
            if count < 0 {
                return Ok(raise(Problem::Negative));
            }
            let bytes = repeated(alloc, space.text_bytes(text), count as usize)?;
            Ok(Deed::Make(bytes))
        }
        _ => Ok(raise(Problem::WrongType(space.class_of(operand)))),
    }
}

fn order_number(order: Ordering) -> i64
    ensures { result ≡ order_number order }
{
    match order {
        Ordering::Less => -1,
        Ordering::Equal => 0,
        Ordering::Greater => 1,
    }
}

fn is_below(order: Ordering) -> bool
    ensures { result ≡ is_below order }
{
    match order {
        Ordering::Less => true,
        Ordering::Equal => false,
        Ordering::Greater => false,
    }
}

fn is_above(order: Ordering) -> bool
    ensures { result ≡ is_above order }
{
    match order {
        Ordering::Less => false,
        Ordering::Equal => false,
        Ordering::Greater => true,
    }
}

/// An operator of order on values that stand so.
pub(crate) fn ordered(operator: BinaryOperator, order: Ordering) -> Built
    ensures is { outcome_of result ≡ ordered operator order }
    ensures plain { (k : ℕ) (below : Below) → IsBuiltWithin k result × IsBuiltAmong below result }
{
    match operator {
        BinaryOperator::Less => Built::Value(Ref::truth(is_below(order))),
        BinaryOperator::LessOrEqual => Built::Value(Ref::truth(!is_above(order))),
        BinaryOperator::Greater => Built::Value(Ref::truth(is_above(order))),
        BinaryOperator::GreaterOrEqual => Built::Value(Ref::truth(!is_below(order))),
        BinaryOperator::Compare => Built::Value(Ref::Int(order_number(order))),
        _ => Built::Missing,
    }
}

/// An operator of order on values of two classes that have no order.
fn unordered(operator: BinaryOperator, left: ClassId, right: ClassId) -> Built
    ensures is { outcome_of result ≡ unordered operator left right }
    ensures plain { (k : ℕ) (below : Below) → IsBuiltWithin k result × IsBuiltAmong below result }
{
    match operator {
        BinaryOperator::Compare => Built::Value(Ref::Nil),
        _ => Built::Raised(Problem::Incomparable(left, right)),
    }
}

/// How two texts stand to one another, byte by byte.
pub(crate) fn order_of(left: &[u8], right: &[u8]) -> Ordering
    ensures { result ≡ slice_cmp nat_cmp left.now right.now }
{
    left.cmp(right)
}

fn order_outcome(space: &Space, operator: BinaryOperator, text: Ref, operand: Ref) -> Built
    ensures is { outcome_of result ≡ order_outcome operator text operand space.now }
    ensures plain { (k : ℕ) (below : Below) → IsBuiltWithin k result × IsBuiltAmong below result }
{
    if is_text_kind(space.kind_of(operand)) {
        let order = order_of(space.text_bytes(text), space.text_bytes(operand));
        ordered(operator, order)
    } else {
        unordered(operator, ClassId::STRING, space.class_of(operand))
    }
}

/// An operator on a text.
pub(crate) fn text_operator(
    alloc: Global,
    space: &Space,
    operator: BinaryOperator,
    text: Ref,
    operand: Ref,
) -> Result<Deed, Fault>
    ensures act { IfOk result (λ deed. act_of deed ≡ text_operator operator text operand space.now) }
    ensures fit { IfOk result (λ deed. IsFit space.now text deed) }
    ensures among { IfOk result (λ deed. (below : Below) → IsDeedAmong below deed) }
    ensures fault { IfErr result (λ f. f ≡ Fault.Memory) }
{
    match operator {
        BinaryOperator::Add => sum_deed(alloc, space, text, operand),
        BinaryOperator::Multiply => product_deed(alloc, space, text, operand),
        BinaryOperator::Equal => Ok(truth(is_equal(space, text, operand))),
        BinaryOperator::NotEqual => Ok(truth(!is_equal(space, text, operand))),
        _ => Ok(Deed::Answer(order_outcome(space, operator, text, operand))),
    }
}
