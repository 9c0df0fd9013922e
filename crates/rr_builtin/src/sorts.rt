//! Arrays in order: of integers alone, or of texts alone.

ghost use Rattle.std.specs.Prelude.{◌≡◌, IfOk, IfErr, Ok, Err, length, map};
ghost use Rattle.std.specs.List.{All};
ghost use Rattle.std.specs.List.Sorted.{IsPermutation};
ghost use Rattle.std.specs.Ordering.{int_cmp, nat_cmp};
ghost use Rattle.std.specs.Cmp.Lexicographic.{slice_cmp};
ghost use Rattle.rr_space.specs.Tables.{Below};
ghost use Rattle.rr_space.specs.Parts.{IsWithin, value_of};
ghost use Rattle.rr_text.specs.Reads.{IsAmong, IsReadWith};
ghost use Rattle.rr_builtin.specs.Acts.{IsRefAmong};
ghost use Rattle.rr_builtin.specs.Deeds.{act_of, IsFit, IsDeedAmong};
ghost use Rattle.rr_builtin.specs.Elements.{elements_of, each_as};
ghost use Rattle.rr_builtin.specs.Sums.{integer_of};
ghost use Rattle.rr_builtin.specs.Sorts.{sorted, is_less, is_text_before, text_of, integer_value, text_value, item_of, incomparable, in_order, sort_act};

use crate::arrays::element;
use crate::deed::Deed;
use crate::kinds::{is_integer_kind, is_text_kind};
use crate::objects::raise;
use crate::problem::Problem;
use crate::sums::integer_of;
use rr_base::Fault;
use rr_space::{Ref, Space};
use std::alloc::{AllocError, Global};
use std::cmp::Ordering;

/// A text, and the value that it is.
#[derive(Clone, Copy)]
pub(crate) struct TextItem<'a> {
    pub(crate) bytes: &'a [u8],
    pub(crate) value: Ref,
}

fn compare_numbers(left: &i64, right: &i64) -> Ordering
    ensures { result ≡ int_cmp left.now right.now }
{
    left.cmp(right)
}

fn compare_texts(left: &TextItem, right: &TextItem) -> Ordering
    ensures { result ≡ slice_cmp nat_cmp left.now.bytes.now right.now.bytes.now }
{
    left.bytes.cmp(&right.bytes)
}

fn sort_numbers(numbers: &mut Vec<i64>) -> Result<(), AllocError>
    ensures { IfOk result (λ _. numbers.new.items ≡ sorted is_less numbers.old.items) }
{
    numbers.sort_by(|left, right| compare_numbers(left, right))
}

fn sort_texts(items: &mut Vec<TextItem>) -> Result<(), AllocError>
    ensures sorted { IfOk result (λ _. map item_of items.new.items ≡ sorted is_text_before (map item_of items.old.items)) }
    ensures permutation { IsPermutation items.old.items items.new.items }
{
    items.sort_by(|left, right| compare_texts(left, right))
}

/// The elements of an array as integers, or the first of them that is none.
fn numbers(alloc: Global, space: &Space, array: Ref) -> Result<Result<Vec<i64>, Ref>, AllocError>
    ensures all { IfOk result (λ r. IfOk r (λ numbers. each_as integer_of (elements_of space.now array) ≡ Ok numbers.items)) }
    ensures other { IfOk result (λ r. IfErr r (λ x. each_as integer_of (elements_of space.now array) ≡ Err (value_of x))) }
    ensures among { IfOk result (λ r. IfErr r (λ x. (below : Below) → IsReadWith space.now below → IsRefAmong below array → IsRefAmong below x)) }
{
    let mut numbers = Vec::with_capacity(alloc, space.arity(array))?;
    for place in 0..space.arity(array) {
        let value = element(space, array, place);
        match integer_of(value) {
            Some(number) => numbers.push(number)?,
            None => return Ok(Err(value)),
        }
    }
    Ok(Ok(numbers))
}

/// The elements of an array as texts, or the first of them that is none.
fn text_items<'a>(
    alloc: Global,
    space: &'a Space,
    array: Ref,
) -> Result<Result<Vec<TextItem<'a>>, Ref>, AllocError>
    ensures all { IfOk result (λ r. IfOk r (λ items. (below : Below) → IsReadWith space.now below → IsAmong below array → each_as (text_of below space.now) (elements_of space.now array) ≡ Ok (map item_of items.items))) }
    ensures other { IfOk result (λ r. IfErr r (λ x. (below : Below) → IsReadWith space.now below → IsAmong below array → each_as (text_of below space.now) (elements_of space.now array) ≡ Err (value_of x))) }
    ensures within { IfOk result (λ r. IfOk r (λ items. All (λ i. IsWithin (length space.now.slots) i.value) items.items)) }
    ensures among { IfOk result (λ r. IfOk r (λ items. (below : Below) → IsReadWith space.now below → IsRefAmong below array → All (λ i. IsRefAmong below i.value) items.items)) }
    ensures other_among { IfOk result (λ r. IfErr r (λ x. (below : Below) → IsReadWith space.now below → IsRefAmong below array → IsRefAmong below x)) }
{
    // No reference leads nowhere, as the clause of the number says.
    let _count = space.len();
    let mut items = Vec::with_capacity(alloc, space.arity(array))?;
    for place in 0..space.arity(array) {
        let value = element(space, array, place);
        if !is_text_kind(space.kind_of(value)) {
            return Ok(Err(value));
        }
        let bytes = space.text_bytes(value);
        items.push(TextItem { bytes, value })?;
    }
    Ok(Ok(items))
}

fn number_refs(alloc: Global, numbers: &[i64]) -> Result<Vec<Ref>, AllocError>
    ensures { IfOk result (λ refs. refs.items ≡ map (λ z. Ref.Int z) numbers.now) }
{
    numbers
        .iter()
        .map(|number| Ref::Int(*number))
        .collect(alloc)
}

fn text_refs(alloc: Global, items: &[TextItem]) -> Result<Vec<Ref>, AllocError>
    ensures { IfOk result (λ refs. refs.items ≡ map (λ i. i.value) items.now) }
{
    items.iter().map(|item| item.value).collect(alloc)
}

/// The exception of an array whose first element has no order with another one.
fn incomparable(space: &Space, first: Ref, other: Ref) -> Deed
    ensures act { (below : Below) → IsReadWith space.now below → IsAmong below first → IsAmong below other → act_of result ≡ incomparable below space.now (value_of first) (value_of other) }
    ensures fit { (value : Ref) → IsFit space.now value result }
    ensures among { (below : Below) → IsDeedAmong below result }
{
    // No reference leads nowhere, as the clause of the number says.
    let _count = space.len();
    raise(Problem::Incomparable(space.class_of(first), space.class_of(other)))
}

/// A new array of the elements in order, which have to be integers as the first is.
fn sorted_numbers(alloc: Global, space: &Space, array: Ref, first: Ref) -> Result<Deed, Fault>
    ensures act { IfOk result (λ deed. (below : Below) → IsReadWith space.now below → IsAmong below array → IsAmong below first
        → act_of deed ≡ in_order below space.now is_less integer_value (value_of first) (each_as integer_of (elements_of space.now array))) }
    ensures fit { IfOk result (λ deed. IsFit space.now array deed) }
    ensures among { IfOk result (λ deed. (below : Below) → IsDeedAmong below deed) }
    ensures fault { IfErr result (λ f. f ≡ Fault.Memory) }
{
    match numbers(alloc, space, array)? {
        Ok(mut numbers) => {
            sort_numbers(&mut numbers)?;
            Ok(Deed::MakeArray(number_refs(alloc, &numbers)?))
        }
        Err(other) => Ok(incomparable(space, first, other)),
    }
}

/// A new array of the elements in order, which have to be texts as the first is.
fn sorted_texts(alloc: Global, space: &Space, array: Ref, first: Ref) -> Result<Deed, Fault>
    ensures act { IfOk result (λ deed. (below : Below) → IsReadWith space.now below → IsAmong below array → IsAmong below first
        → act_of deed ≡ in_order below space.now is_text_before text_value (value_of first) (each_as (text_of below space.now) (elements_of space.now array))) }
    ensures fit { IfOk result (λ deed. IsFit space.now array deed) }
    ensures among { IfOk result (λ deed. (below : Below) → IsReadWith space.now below → IsRefAmong below array → IsDeedAmong below deed) }
    ensures fault { IfErr result (λ f. f ≡ Fault.Memory) }
{
    match text_items(alloc, space, array)? {
        Ok(mut items) => {
            sort_texts(&mut items)?;
            Ok(Deed::MakeArray(text_refs(alloc, &items)?))
        }
        Err(other) => Ok(incomparable(space, first, other)),
    }
}

/// `sort`.
pub(crate) fn sort_deed(alloc: Global, space: &Space, array: Ref) -> Result<Deed, Fault>
    ensures act { IfOk result (λ deed. (below : Below) → IsReadWith space.now below → IsAmong below array → act_of deed ≡ sort_act below array space.now) }
    ensures fit { IfOk result (λ deed. IsFit space.now array deed) }
    ensures among { IfOk result (λ deed. (below : Below) → IsReadWith space.now below → IsRefAmong below array → IsDeedAmong below deed) }
    ensures fault { IfErr result (λ f. f ≡ Fault.Memory) }
{
    // No reference leads nowhere, as the clause of the number says.
    let _count = space.len();
    if space.arity(array) == 0 {
        return Ok(Deed::MakeArray(Vec::new(alloc)));
    }
    let first = element(space, array, 0);
    let kind = space.kind_of(first);
    if is_integer_kind(kind) {
        let deed = sorted_numbers(alloc, space, array, first)?;
        return Ok(deed);
    }
    if is_text_kind(kind) {
        let deed = sorted_texts(alloc, space, array, first)?;
        return Ok(deed);
    }
    Ok(incomparable(space, first, first))
}
