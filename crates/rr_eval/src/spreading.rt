//! Arrays that are spread: over the parameters of a block, and by splats.

ghost use Rattle.std.specs.Prelude.{◌≡◌, length, IfOk, IfErr, IfSome, Option, Ok, Err};
ghost use Rattle.std.specs.List.{All};
ghost use Rattle.std.specs.Option.{option_map};
ghost use Rattle.rr_space.specs.Tables.{Below};
ghost use Rattle.rr_space.specs.Kinds.{kind_at};
ghost use Rattle.rr_builtin.specs.Elements.{count_at};
ghost use Rattle.rr_eval.specs.Blocks.{spread_from};
ghost use Rattle.rr_eval.specs.Splats.{own_items, splat_items};
ghost use Rattle.rr_eval.specs.Within.{Reach, reach, IsReached};

use crate::iterating::own;
use crate::problem::Problem;
use rr_builtin::{Problem as BuiltInProblem, Round, item_at};
use rr_space::{Kind, Ref, Space};
use std::alloc::{AllocError, Global};

/// The first elements of an array, at most so many, where each of them that is published is known.
pub fn spread(
    alloc: Global,
    space: &Space,
    array: Ref,
    count: usize,
) -> Result<Option<Vec<Ref>>, AllocError>
    ensures are { IfOk result (λ values. option_map (λ vs. vs.items) values ≡ spread_from space.now array 0 count) }
    ensures within { (clusters : Option Below) → IfOk result (λ values. IfSome values (λ vs. All (IsReached (reach (length space.now.slots) clusters)) vs.items)) }
{
    let mut values = Vec::new(alloc);
    let mut place = 0;
    while place < count {
        match item_at(space, array, place) {
            Round::Item(item) => match own(space, item) {
                Some(value) => values.push(value)?,
                None => return Ok(None),
            },
            Round::Absent => return Ok(Some(values)),
            Round::Moved => return Ok(None),
        }
        place += 1;
    }
    Ok(Some(values))
}

/// The elements of an array, where each of them that is published is known.
fn array_items(
    alloc: Global,
    space: &Space,
    array: Ref,
) -> Result<Result<Vec<Ref>, Problem>, AllocError>
    ensures items { IfOk result (λ r. IfOk r (λ items. own_items (spread_from space.now array 0 (count_at space.now array)) ≡ Ok items.items)) }
    ensures problem { IfOk result (λ r. IfErr r (λ e. own_items (spread_from space.now array 0 (count_at space.now array)) ≡ Err e)) }
    ensures within { (clusters : Option Below) → IfOk result (λ r. IfOk r (λ items. All (IsReached (reach (length space.now.slots) clusters)) items.items)) }
{
    match spread(alloc, space, array, space.arity(array))? {
        Some(items) => Ok(Ok(items)),
        None => Ok(Err(Problem::NotHere)),
    }
}

/// What a splat stands for, by its value, or why it is not spread.
pub fn splat_items(
    alloc: Global,
    space: &Space,
    value: Ref,
) -> Result<Result<Vec<Ref>, Problem>, AllocError>
    ensures items { IfOk result (λ r. IfOk r (λ items. splat_items (kind_at space.now value) space.now value ≡ Ok items.items)) }
    ensures problem { IfOk result (λ r. IfErr r (λ e. splat_items (kind_at space.now value) space.now value ≡ Err e)) }
    ensures within { (clusters : Option Below) → IsReached (reach (length space.now.slots) clusters) value → IfOk result (λ r. IfOk r (λ items. All (IsReached (reach (length space.now.slots) clusters)) items.items)) }
{
    match space.kind_of(value) {
        Kind::Array => array_items(alloc, space, value),
        Kind::Nil => Ok(Ok(Vec::new(alloc))),
        Kind::Hash => {
            let class = space.class_of(value);
            Ok(Err(Problem::BuiltIn(BuiltInProblem::WrongType(class))))
        }
        Kind::Truth
        | Kind::Integer
        | Kind::Symbol
        | Kind::Class
        | Kind::Ractor
        | Kind::Text
        | Kind::Object
        | Kind::Exception
        | Kind::Shell => {
            let mut items = Vec::new(alloc);
            items.push(value)?;
            Ok(Ok(items))
        }
    }
}
