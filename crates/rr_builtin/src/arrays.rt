//! The elements of arrays, and the methods of arrays that make one or put one.

ghost use Rattle.std.specs.Prelude.{◌≡◌, ◌++◌, ◌*◌, ◌+◌, ◌≤◌, ◌<◌, ◌^◌, ℕ, IfOk, IfErr, length, map, IsTrue};
ghost use Rattle.std.specs.List.{All};
ghost use Rattle.rr_space.specs.Tables.{Below};
ghost use Rattle.rr_space.specs.Parts.{IsWithin, value_of};
ghost use Rattle.rr_space.specs.Kinds.{kind_at};
ghost use Rattle.rr_space.specs.Labels.{triples_at};
ghost use Rattle.rr_space.specs.Views.{can_write_at};
ghost use Rattle.rr_text.specs.Keys.{pairs_in};
ghost use Rattle.rr_text.specs.Reads.{IsReadWith};
ghost use Rattle.rr_builtin.specs.Acts.{IsRefAmong, Puts, element_at, nils};
ghost use Rattle.rr_builtin.specs.Deeds.{act_of, IsFit, IsDeedAmong};
ghost use Rattle.rr_builtin.specs.Contents.{unless_frozen};
ghost use Rattle.rr_builtin.specs.Elements.{elements_of, half_of, names_of_hash, values_of_hash};
ghost use Rattle.rr_builtin.specs.Arrays.{array_sum, array_put};

use crate::contents::place_of;
use crate::deed::Deed;
use crate::kinds::is_array_kind;
use crate::objects::raise;
use crate::problem::Problem;
use rr_base::Fault;
use rr_space::{Kind, Ref, Space};
use std::alloc::{AllocError, Global};

/// The value under that place of an object, or nil.
#[inline(always)]
pub(crate) fn element(space: &Space, value: Ref, place: usize) -> Ref
    ensures is { value_of result ≡ element_at space.now value place }
    ensures within { IsWithin (length space.now.slots) result }
    ensures among { (below : Below) → IsReadWith space.now below → IsRefAmong below value → IsRefAmong below result }
{
    match space.part(value, place) {
        Some((_, found)) => found,
        None => Ref::Nil,
    }
}

/// The elements of an array, with memory for so many more.
pub(crate) fn elements(
    alloc: Global,
    space: &Space,
    array: Ref,
    more: usize,
) -> Result<Vec<Ref>, AllocError>
    ensures items { IfOk result (λ items. map value_of items.items ≡ elements_of space.now array) }
    ensures within { IfOk result (λ items. All (IsWithin (length space.now.slots)) items.items) }
    ensures among { IfOk result (λ items. (below : Below) → IsReadWith space.now below → IsRefAmong below array → All (IsRefAmong below) items.items) }
{
    let count = space.arity(array);
    let mut items = Vec::with_capacity(alloc, count.saturating_add(more))?;
    for place in 0..count {
        items.push(element(space, array, place))?;
    }
    Ok(items)
}

/// The key objects of a hash, or with 1 as `offset` its values.
fn every_other(
    alloc: Global,
    space: &Space,
    hash: Ref,
    offset: usize,
) -> Result<Vec<Ref>, AllocError>
    requires { offset < 2 }
    ensures items { IfOk result (λ items. map value_of items.items ≡ map (half_of offset) (pairs_in (triples_at space.now hash))) }
    ensures within { IfOk result (λ items. All (IsWithin (length space.now.slots)) items.items) }
    ensures among { IfOk result (λ items. (below : Below) → IsReadWith space.now below → IsRefAmong below hash → All (IsRefAmong below) items.items) }
{
    let count = space.arity(hash) / 2;
    let mut items = Vec::with_capacity(alloc, count)?;
    for pair in 0..count {
        items.push(element(space, hash, 2 * pair + offset))?;
    }
    Ok(items)
}

/// The key objects of a hash.
pub(crate) fn names(alloc: Global, space: &Space, hash: Ref) -> Result<Vec<Ref>, AllocError>
    ensures items { IfOk result (λ items. map value_of items.items ≡ names_of_hash space.now hash) }
    ensures within { IfOk result (λ items. All (IsWithin (length space.now.slots)) items.items) }
    ensures among { IfOk result (λ items. (below : Below) → IsReadWith space.now below → IsRefAmong below hash → All (IsRefAmong below) items.items) }
{
    every_other(alloc, space, hash, 0)
}

/// The values of a hash.
pub(crate) fn values(alloc: Global, space: &Space, hash: Ref) -> Result<Vec<Ref>, AllocError>
    ensures items { IfOk result (λ items. map value_of items.items ≡ values_of_hash space.now hash) }
    ensures within { IfOk result (λ items. All (IsWithin (length space.now.slots)) items.items) }
    ensures among { IfOk result (λ items. (below : Below) → IsReadWith space.now below → IsRefAmong below hash → All (IsRefAmong below) items.items) }
{
    every_other(alloc, space, hash, 1)
}

/// `+` of arrays.
pub(crate) fn sum_of_arrays(
    alloc: Global,
    space: &Space,
    array: Ref,
    operand: Ref,
) -> Result<Deed, Fault>
    ensures act { IfOk result (λ deed. act_of deed ≡ array_sum array operand space.now) }
    ensures fit { IfOk result (λ deed. IsFit space.now array deed) }
    ensures among { IfOk result (λ deed. (below : Below) → IsReadWith space.now below → IsRefAmong below array → IsRefAmong below operand → IsDeedAmong below deed) }
    ensures fault { IfErr result (λ f. f ≡ Fault.Memory) }
{
    if !is_array_kind(space.kind_of(operand)) {
        return Ok(raise(Problem::WrongType(space.class_of(operand))));
    }
    let mut items = elements(alloc, space, array, space.arity(operand))?;
    let others = elements(alloc, space, operand, 0)?;
    items.extend_from_slice(&others)?;
    Ok(Deed::MakeArray(items))
}

/// Pushes so many nils.
fn push_nils(items: &mut Vec<Ref>, count: usize) -> Result<(), AllocError>
    ensures values { IfOk result (λ _. map value_of items.new.items ≡ map value_of items.old.items ++ nils count) }
    ensures within { (k : ℕ) → All (IsWithin k) items.old.items → IfOk result (λ _. All (IsWithin k) items.new.items) }
    ensures among { (below : Below) → All (IsRefAmong below) items.old.items → IfOk result (λ _. All (IsRefAmong below) items.new.items) }
{
    for _ in 0..count {
        items.push(Ref::Nil)?;
    }
    Ok(())
}

/// A value under a place of an array.
fn placed_deed(
    alloc: Global,
    space: &Space,
    array: Ref,
    place: usize,
    value: Ref,
) -> Result<Deed, Fault>
    requires can { IsTrue (can_write_at space.now array) }
    requires kind { kind_at space.now array ≡ Kind.Array }
    requires value { IsWithin (length space.now.slots) value }
    ensures act { IfOk result (λ deed. act_of deed ≡ Puts place (value_of value)) }
    ensures fit { IfOk result (λ deed. IsFit space.now array deed) }
    ensures among { IfOk result (λ deed. (below : Below) → IsReadWith space.now below → IsRefAmong below array → IsRefAmong below value → IsDeedAmong below deed) }
    ensures fault { IfErr result (λ f. f ≡ Fault.Memory) }
{
    let count = space.arity(array);
    if place <= count {
        return Ok(Deed::Put(place, value));
    }
    let between = place - count;
    let mut items = elements(alloc, space, array, between.saturating_add(1))?;
    push_nils(&mut items, between)?;
    items.push(value)?;
    Ok(Deed::Refill(items, place, value))
}

/// `[]=` of an array.
pub(crate) fn put_deed(
    alloc: Global,
    space: &Space,
    array: Ref,
    index: Ref,
    value: Ref,
) -> Result<Deed, Fault>
    requires kind { kind_at space.now array ≡ Kind.Array }
    requires value { IsWithin (length space.now.slots) value }
    ensures act { IfOk result (λ deed. act_of deed ≡ unless_frozen array space.now (array_put array index value space.now)) }
    ensures fit { IfOk result (λ deed. IsFit space.now array deed) }
    ensures among { IfOk result (λ deed. (below : Below) → IsReadWith space.now below → IsRefAmong below array → IsRefAmong below value → IsDeedAmong below deed) }
    ensures fault { IfErr result (λ f. f ≡ Fault.Memory) }
{
    if !space.can_write(array) {
        return Ok(raise(Problem::Frozen(space.class_of(array))));
    }
    match index {
        Ref::Int(index) => match place_of(index, space.arity(array)) {
            Some(place) => placed_deed(alloc, space, array, place, value),
            None => Ok(raise(Problem::IndexOutOfRange)),
        },
        _ => Ok(raise(Problem::WrongType(space.class_of(index)))),
    }
}
