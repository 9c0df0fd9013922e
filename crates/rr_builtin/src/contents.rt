//! The methods of texts, arrays and hashes.

ghost use Rattle.std.specs.Prelude.{◌≡◌, ℕ, ◌≤◌, IfOk, IfErr, length};
ghost use Rattle.rr_space.specs.Tables.{Below, Table};
ghost use Rattle.rr_space.specs.Parts.{IsWithin, value_of};
ghost use Rattle.rr_space.specs.Kinds.{kind_at};
ghost use Rattle.rr_space.specs.Views.{text_at};
ghost use Rattle.rr_space.specs.Labels.{triples_at};
ghost use Rattle.rr_text.specs.Names.{names_of};
ghost use Rattle.rr_text.specs.Reads.{IsAmong, IsReadWith};
ghost use Rattle.rr_builtin.specs.Integers.{given};
ghost use Rattle.rr_builtin.specs.Numbers.{number_given};
ghost use Rattle.rr_builtin.specs.Acts.{Answers, Gives, Pushes, IsRefAmong, IsBuiltWithin, IsBuiltAmong, outcome_of, element_at};
ghost use Rattle.rr_builtin.specs.Deeds.{act_of, IsFit, IsDeedAmong};
ghost use Rattle.rr_builtin.specs.Contents.{size_at, size_act, is_empty, place_of, element_of, indexed, character_of, character_act, unless_frozen, text_append, includes, includes_act, taken, popped, text_content};
ghost use Rattle.rr_builtin.specs.Containers.{array_content, array_method, hash_content, content_act, searched_at, found_act};
ghost use Rattle.std.specs.Prelude.{pos};

use crate::arrays::{names, put_deed, values};
use crate::built::Built;
use crate::characters::{character_at, characters};
use crate::deed::Deed;
use crate::hashes::{hash_delete, hash_has, hash_put, hash_read};
use crate::integer::NumberProblem;
use crate::joins::join_deed;
use crate::kinds::is_text_kind;
use crate::method::ContentMethod;
use crate::numbers::number_given;
use crate::objects::{raise, truth};
use crate::problem::Problem;
use crate::sorts::sort_deed;
use crate::sums::sum_deed;
use memchr::memmem;
use rr_base::Fault;
use rr_space::{Kind, Ref, Space};
use rr_text::{Compared, search};
use rr_tree::Program;
use std::alloc::Global;

#[inline(always)]
fn size_at(space: &Space, kind: Kind, value: Ref) -> usize
    ensures { result ≡ size_at kind space.now value }
{
    match kind {
        Kind::Text => characters(space.text_bytes(value)),
        Kind::Hash => space.arity(value) / 2,
        _ => space.arity(value),
    }
}

/// A number of 64 bits, if it is one.
#[inline(always)]
fn counted(count: usize) -> Result<i64, NumberProblem>
    ensures { result ≡ given (pos count) }
{
    if count < 9_223_372_036_854_775_808 {
        Ok(count as i64)
    } else {
        Err(NumberProblem::OutOfRange)
    }
}

/// What `size` comes to.
#[inline(always)]
pub(crate) fn size_answer(space: &Space, kind: Kind, value: Ref) -> Built
    ensures is { Answers (outcome_of result) ≡ size_act kind value space.now }
    ensures plain { (k : ℕ) (below : Below) → IsBuiltWithin k result × IsBuiltAmong below result }
{
    number_given(counted(size_at(space, kind, value)))
}

fn size_deed(space: &Space, kind: Kind, value: Ref) -> Deed
    ensures act { act_of result ≡ size_act kind value space.now }
    ensures fit { IsFit space.now value result }
    ensures among { (below : Below) → IsDeedAmong below result }
{
    Deed::Answer(size_answer(space, kind, value))
}

fn is_empty(space: &Space, kind: Kind, value: Ref) -> bool
    ensures { result ≡ is_empty kind space.now value }
{
    match kind {
        Kind::Text => space.text_bytes(value).len() == 0,
        _ => space.arity(value) == 0,
    }
}

/// The element of that place, or nil.
#[inline(always)]
pub(crate) fn element_at(space: &Space, array: Ref, place: usize) -> Built
    ensures is { outcome_of result ≡ Gives (element_at space.now array place) }
    ensures within { IsBuiltWithin (length space.now.slots) result }
    ensures among { (below : Below) → IsReadWith space.now below → IsRefAmong below array → IsBuiltAmong below result }
{
    match space.part(array, place) {
        Some((_, value)) => Built::Value(value),
        None => Built::Value(Ref::Nil),
    }
}

/// The place that an index names among so many: a negative one counts from the end.
#[inline(always)]
pub(crate) fn place_of(index: i64, count: usize) -> Option<usize>
    ensures { result ≡ place_of index count }
{
    if index >= 0 {
        return Some(index as usize);
    }
    let behind = (-(index + 1)) as usize;
    if behind < count {
        Some(count - (behind + 1))
    } else {
        None
    }
}

/// `[]` of an array.
fn indexed(space: &Space, array: Ref, index: Ref) -> Built
    ensures is { outcome_of result ≡ indexed array index space.now }
    ensures within { IsBuiltWithin (length space.now.slots) result }
    ensures among { (below : Below) → IsReadWith space.now below → IsRefAmong below array → IsBuiltAmong below result }
{
    match index {
        Ref::Int(index) => match place_of(index, space.arity(array)) {
            Some(place) => element_at(space, array, place),
            None => Built::Value(Ref::Nil),
        },
        _ => Built::Raised(Problem::WrongType(space.class_of(index))),
    }
}

/// The character of a text that an index names.
fn character_of(
    alloc: Global,
    space: &Space,
    text: Ref,
    place: Option<usize>,
) -> Result<Deed, Fault>
    ensures act { IfOk result (λ deed. act_of deed ≡ character_of (text_at space.now text) place) }
    ensures fit { IfOk result (λ deed. IsFit space.now text deed) }
    ensures among { IfOk result (λ deed. (below : Below) → IsDeedAmong below deed) }
    ensures fault { IfErr result (λ f. f ≡ Fault.Memory) }
{
    match place {
        Some(place) => {
            if place < characters(space.text_bytes(text)) {
                let bytes = character_at(alloc, space.text_bytes(text), place)?;
                Ok(Deed::Make(bytes))
            } else {
                Ok(Deed::Answer(Built::Value(Ref::Nil)))
            }
        }
        None => Ok(Deed::Answer(Built::Value(Ref::Nil))),
    }
}

/// `[]` of a text.
fn character_deed(alloc: Global, space: &Space, text: Ref, index: Ref) -> Result<Deed, Fault>
    ensures act { IfOk result (λ deed. act_of deed ≡ character_act text index space.now) }
    ensures fit { IfOk result (λ deed. IsFit space.now text deed) }
    ensures among { IfOk result (λ deed. (below : Below) → IsDeedAmong below deed) }
    ensures fault { IfErr result (λ f. f ≡ Fault.Memory) }
{
    match index {
        Ref::Int(index) => {
            let place = place_of(index, characters(space.text_bytes(text)));
            character_of(alloc, space, text, place)
        }
        _ => Ok(raise(Problem::WrongType(space.class_of(index)))),
    }
}

/// `<<` of a text.
fn text_append(alloc: Global, space: &Space, text: Ref, more: Ref) -> Result<Deed, Fault>
    requires { kind_at space.now text ≡ Kind.Text }
    ensures act { IfOk result (λ deed. act_of deed ≡ unless_frozen text space.now (text_append more space.now)) }
    ensures fit { IfOk result (λ deed. IsFit space.now text deed) }
    ensures among { IfOk result (λ deed. (below : Below) → IsDeedAmong below deed) }
    ensures fault { IfErr result (λ f. f ≡ Fault.Memory) }
{
    if !space.can_write(text) {
        return Ok(raise(Problem::Frozen(space.class_of(text))));
    }
    if is_text_kind(space.kind_of(more)) {
        let bytes = space.text_bytes(more).to_vec(alloc)?;
        Ok(Deed::Append(bytes))
    } else {
        Ok(raise(Problem::WrongType(space.class_of(more))))
    }
}

/// Whether a text stands somewhere in another.
fn includes(text: &[u8], part: &[u8]) -> bool
    ensures { result ≡ includes text.now part.now }
{
    memmem::find(text, part).is_some()
}

/// `include?` of a text.
fn includes_deed(space: &Space, text: Ref, part: Ref) -> Deed
    ensures act { act_of result ≡ includes_act text part space.now }
    ensures fit { IsFit space.now text result }
    ensures among { (below : Below) → IsDeedAmong below result }
{
    if is_text_kind(space.kind_of(part)) {
        truth(includes(space.text_bytes(text), space.text_bytes(part)))
    } else {
        raise(Problem::WrongType(space.class_of(part)))
    }
}

/// `push`, and `<<` of an array.
fn push_deed(space: &Space, array: Ref, value: Ref) -> Deed
    requires kind { kind_at space.now array ≡ Kind.Array }
    requires value { IsWithin (length space.now.slots) value }
    ensures act { act_of result ≡ unless_frozen array space.now (Pushes (value_of value)) }
    ensures fit { IsFit space.now array result }
    ensures among { (below : Below) → IsRefAmong below value → IsDeedAmong below result }
{
    if space.can_write(array) {
        Deed::Push(value)
    } else {
        raise(Problem::Frozen(space.class_of(array)))
    }
}

/// `shift`, which takes the first element.
fn shift_deed(space: &Space, array: Ref) -> Deed
    requires { kind_at space.now array ≡ Kind.Array }
    ensures act { act_of result ≡ taken array 0 space.now }
    ensures fit { IsFit space.now array result }
    ensures among { (below : Below) → IsDeedAmong below result }
{
    if !space.can_write(array) {
        return raise(Problem::Frozen(space.class_of(array)));
    }
    if 0 < space.arity(array) {
        Deed::Take(0)
    } else {
        Deed::Answer(Built::Value(Ref::Nil))
    }
}

/// `pop`, which takes the last element.
fn pop_deed(space: &Space, array: Ref) -> Deed
    requires { kind_at space.now array ≡ Kind.Array }
    ensures act { act_of result ≡ popped array space.now }
    ensures fit { IsFit space.now array result }
    ensures among { (below : Below) → IsDeedAmong below result }
{
    if !space.can_write(array) {
        return raise(Problem::Frozen(space.class_of(array)));
    }
    let count = space.arity(array);
    if 0 < count {
        Deed::Take(count - 1)
    } else {
        Deed::Answer(Built::Value(Ref::Nil))
    }
}

/// A method of texts.
fn text_content(
    alloc: Global,
    space: &Space,
    method: ContentMethod,
    text: Ref,
    argument: Ref,
) -> Result<Deed, Fault>
    requires { kind_at space.now text ≡ Kind.Text }
    ensures act { IfOk result (λ deed. act_of deed ≡ text_content method text argument space.now) }
    ensures fit { IfOk result (λ deed. IsFit space.now text deed) }
    ensures among { IfOk result (λ deed. (below : Below) → IsDeedAmong below deed) }
    ensures fault { IfErr result (λ f. f ≡ Fault.Memory) }
{
    match method {
        ContentMethod::Size => Ok(size_deed(space, Kind::Text, text)),
        ContentMethod::Length => Ok(size_deed(space, Kind::Text, text)),
        ContentMethod::IsEmpty => Ok(truth(is_empty(space, Kind::Text, text))),
        ContentMethod::Append => text_append(alloc, space, text, argument),
        ContentMethod::Includes => Ok(includes_deed(space, text, argument)),
        ContentMethod::At => character_deed(alloc, space, text, argument),
        _ => Ok(Deed::Answer(Built::Missing)),
    }
}

/// A method of arrays.
fn array_content(
    alloc: Global,
    space: &Space,
    method: ContentMethod,
    array: Ref,
    argument: Ref,
    second: Ref,
) -> Result<Deed, Fault>
    requires within { IsWithin (length space.now.slots) array }
    requires kind { kind_at space.now array ≡ Kind.Array }
    requires argument { IsWithin (length space.now.slots) argument }
    requires second { IsWithin (length space.now.slots) second }
    ensures act { IfOk result (λ deed. (below : Below) → IsReadWith space.now below → IsAmong below array → act_of deed ≡ array_content below method array argument second space.now) }
    ensures fit { IfOk result (λ deed. IsFit space.now array deed) }
    ensures among { IfOk result (λ deed. (below : Below) → IsReadWith space.now below → IsRefAmong below array → IsRefAmong below argument → IsRefAmong below second → IsDeedAmong below deed) }
    ensures fault { IfErr result (λ f. f ≡ Fault.Memory) }
{
    match method {
        ContentMethod::Size => Ok(size_deed(space, Kind::Array, array)),
        ContentMethod::Length => Ok(size_deed(space, Kind::Array, array)),
        ContentMethod::IsEmpty => Ok(truth(is_empty(space, Kind::Array, array))),
        ContentMethod::First => Ok(Deed::Answer(element_at(space, array, 0))),
        ContentMethod::Last => {
            let count = space.arity(array);
            Ok(Deed::Answer(element_at(space, array, count.saturating_sub(1))))
        }
        ContentMethod::At => Ok(Deed::Answer(indexed(space, array, argument))),
        ContentMethod::Append => Ok(push_deed(space, array, argument)),
        ContentMethod::Push => Ok(push_deed(space, array, argument)),
        ContentMethod::Pop => Ok(pop_deed(space, array)),
        ContentMethod::Shift => Ok(shift_deed(space, array)),
        ContentMethod::SetAt => put_deed(alloc, space, array, argument, second),
        ContentMethod::Sum => Ok(sum_deed(space, array)),
        ContentMethod::Sort => sort_deed(alloc, space, array),
        _ => Ok(Deed::Answer(Built::Missing)),
    }
}

/// `include?` of an array.
fn included_deed(alloc: Global, space: &Space, array: Ref, value: Ref) -> Result<Deed, Fault>
    ensures act { IfOk result (λ deed. (below : Below) → IsReadWith space.now below → IsAmong below array → IsAmong below value → act_of deed ≡ found_act (searched_at below space.now array value)) }
    ensures fit { IfOk result (λ deed. IsFit space.now array deed) }
    ensures among { IfOk result (λ deed. (below : Below) → IsDeedAmong below deed) }
    ensures fault { IfErr result (λ f. f ≡ Fault.Memory) }
{
    match search(alloc, space, array, value)? {
        Compared::Same => Ok(truth(true)),
        Compared::Differs => Ok(truth(false)),
        Compared::Deep => Ok(raise(Problem::TooDeep)),
        Compared::Shell => Ok(raise(Problem::Moved)),
    }
}

/// A method of arrays, `include?` and `join` among them.
fn array_method(
    alloc: Global,
    space: &Space,
    program: &Program,
    method: ContentMethod,
    array: Ref,
    argument: Ref,
    second: Ref,
) -> Result<Deed, Fault>
    requires within { IsWithin (length space.now.slots) array }
    requires kind { kind_at space.now array ≡ Kind.Array }
    requires argument { IsWithin (length space.now.slots) argument }
    requires second { IsWithin (length space.now.slots) second }
    ensures act { IfOk result (λ deed. (below : Below) → IsReadWith space.now below → IsAmong below array → IsAmong below argument → act_of deed ≡ array_method (names_of program.now) below method array argument second space.now) }
    ensures fit { IfOk result (λ deed. IsFit space.now array deed) }
    ensures among { IfOk result (λ deed. (below : Below) → IsReadWith space.now below → IsRefAmong below array → IsRefAmong below argument → IsRefAmong below second → IsDeedAmong below deed) }
    ensures fault { IfErr result (λ f. f ≡ Fault.Memory) }
{
    match method {
        ContentMethod::Includes => included_deed(alloc, space, array, argument),
        ContentMethod::Join => join_deed(alloc, space, program, array, argument),
        _ => array_content(alloc, space, method, array, argument, second),
    }
}

/// A method of hashes.
fn hash_content(
    alloc: Global,
    space: &Space,
    method: ContentMethod,
    hash: Ref,
    argument: Ref,
    second: Ref,
) -> Result<Deed, Fault>
    requires within { IsWithin (length space.now.slots) hash }
    requires argument { IsWithin (length space.now.slots) argument }
    requires second { IsWithin (length space.now.slots) second }
    requires kind { kind_at space.now hash ≡ Kind.Hash }
    ensures act { IfOk result (λ deed. (below : Below) → IsReadWith space.now below → IsAmong below hash → act_of deed ≡ hash_content below method hash argument second space.now) }
    ensures fit { IfOk result (λ deed. IsFit space.now hash deed) }
    ensures among { IfOk result (λ deed. (below : Below) → IsReadWith space.now below → IsRefAmong below hash → IsRefAmong below argument → IsRefAmong below second → IsDeedAmong below deed) }
    ensures fault { IfErr result (λ f. f ≡ Fault.Memory) }
{
    match method {
        ContentMethod::Size => Ok(size_deed(space, Kind::Hash, hash)),
        ContentMethod::Length => Ok(size_deed(space, Kind::Hash, hash)),
        ContentMethod::IsEmpty => Ok(truth(is_empty(space, Kind::Hash, hash))),
        ContentMethod::At => hash_read(alloc, space, hash, argument),
        ContentMethod::SetAt => hash_put(alloc, space, hash, argument, second),
        ContentMethod::HasKey => hash_has(alloc, space, hash, argument),
        ContentMethod::Delete => hash_delete(alloc, space, hash, argument),
        ContentMethod::Keys => Ok(Deed::MakeArray(names(alloc, space, hash)?)),
        ContentMethod::Values => Ok(Deed::MakeArray(values(alloc, space, hash)?)),
        _ => Ok(Deed::Answer(Built::Missing)),
    }
}

/// A method of texts, arrays and hashes.
pub(crate) fn content_deed(
    alloc: Global,
    space: &Space,
    program: &Program,
    method: ContentMethod,
    value: Ref,
    argument: Ref,
    second: Ref,
) -> Result<Deed, Fault>
    requires receiver { IsWithin (length space.now.slots) value }
    requires argument { IsWithin (length space.now.slots) argument }
    requires second { IsWithin (length space.now.slots) second }
    ensures act { IfOk result (λ deed. (below : Below) → IsReadWith space.now below → IsAmong below value → IsAmong below argument
        → act_of deed ≡ content_act (names_of program.now) below (kind_at space.now value) method value argument second space.now) }
    ensures fit { IfOk result (λ deed. IsFit space.now value deed) }
    ensures among { IfOk result (λ deed. (below : Below) → IsReadWith space.now below → IsRefAmong below value → IsRefAmong below argument → IsRefAmong below second → IsDeedAmong below deed) }
    ensures fault { IfErr result (λ f. f ≡ Fault.Memory) }
{
    match space.kind_of(value) {
        Kind::Text => text_content(alloc, space, method, value, argument),
        Kind::Array => array_method(alloc, space, program, method, value, argument, second),
        Kind::Hash => hash_content(alloc, space, method, value, argument, second),
        _ => Ok(Deed::Answer(Built::Missing)),
    }
}
