//! Calls that are frequent, done at once: no deed is made of them.

ghost use Rattle.std.specs.Prelude.{◌≡◌, ◌⊎◌, IsTrue, length};
ghost use Rattle.std.specs.List.{All};
ghost use Rattle.rr_space.specs.Tables.{Below};
ghost use Rattle.rr_space.specs.Parts.{IsWithin, value_of};
ghost use Rattle.rr_space.specs.Kinds.{kind_at};
ghost use Rattle.rr_space.specs.Views.{can_write_at};
ghost use Rattle.rr_text.specs.Reads.{IsAmong, IsReadWith};
ghost use Rattle.rr_builtin.specs.Acts.{Acts, IsServed, IsRefAmong};
ghost use Rattle.rr_builtin.specs.Calls.{called};
ghost use Rattle.rr_builtin.specs.Contents.{element_of, place_of};
ghost use Rattle.rr_builtin.specs.Deeds.{IsWritableHash};
ghost use Rattle.rr_builtin.specs.Elements.{count_at};

use crate::arrays::element;
use crate::built::Built;
use crate::calls::call_any;
use crate::contents::{place_of, size_answer};
use crate::deed::{push, put_inside};
use crate::hashes::{hash_value, store};
use crate::kinds::{is_array_kind, is_hash};
use crate::method::{BuiltInMethod, ContentMethod};
use rr_base::Fault;
use rr_space::{Kind, Ref, Space};
use rr_tree::Program;
use std::alloc::Global;

/// The element that an index names, or nil.
#[inline(always)]
fn element_named(space: &Space, array: Ref, index: i64) -> Ref
    ensures is { value_of result ≡ element_of space.now array (place_of index (count_at space.now array)) }
    ensures within { IsWithin (length space.now.slots) result }
    ensures among { (below : Below) → IsReadWith space.now below → IsRefAmong below array → IsRefAmong below result }
{
    // The elements are counted for a negative index alone.
    if index >= 0 {
        return element(space, array, index as usize);
    }
    match place_of(index, space.arity(array)) {
        Some(place) => element(space, array, place),
        None => Ref::Nil,
    }
}

/// Whether a value is an array that may be written.
#[inline(always)]
fn is_open_array(space: &Space, value: Ref) -> bool
    ensures array { IsTrue result → kind_at space.now value ≡ Kind.Array }
    ensures open { IsTrue result → IsTrue (can_write_at space.now value) }
{
    is_array_kind(space.kind_of(value)) && space.can_write(value)
}

/// Whether a value is a hash that may be written.
#[inline(always)]
fn is_open_hash(space: &Space, value: Ref) -> bool
    ensures { IsTrue result → IsWritableHash space.now value }
{
    is_hash(space.kind_of(value)) && space.can_write(value)
}

/// `[]`: an element of an array is given at once, and the value of a key of a hash.
#[inline(always)]
fn call_at(
    alloc: Global,
    space: &mut Space,
    program: &Program,
    receiver: Ref,
    arguments: &[Ref],
) -> Result<Built, Fault>
    requires receiver { IsWithin (length space.old.slots) receiver }
    requires arguments { All (IsWithin (length space.old.slots)) arguments.now }
    ensures act { (below : Below) → IsReadWith space.old below → IsAmong below receiver → All (IsRefAmong below) arguments.now
        → Acts below (called program.now below receiver (BuiltInMethod.Content ContentMethod.At) arguments.now) space.old space.new result }
    ensures served { IsServed space.old space.new result }
{
    if let [argument] = arguments {
        match space.kind_of(receiver) {
            Kind::Array => {
                if let Ref::Int(index) = *argument {
                    return Ok(Built::Value(element_named(space, receiver, index)));
                }
            }
            Kind::Hash => return hash_value(alloc, space, receiver, *argument),
            _ => {}
        }
    }
    let method = BuiltInMethod::Content(ContentMethod::At);
    call_any(alloc, space, program, receiver, method, arguments)
}

/// `<<` and `push`: an array that may be written is written at once.
#[inline(always)]
fn call_push(
    alloc: Global,
    space: &mut Space,
    program: &Program,
    receiver: Ref,
    method: ContentMethod,
    arguments: &[Ref],
) -> Result<Built, Fault>
    requires receiver { IsWithin (length space.old.slots) receiver }
    requires arguments { All (IsWithin (length space.old.slots)) arguments.now }
    requires pushes { (method ≡ ContentMethod.Append) ⊎ (method ≡ ContentMethod.Push) }
    ensures act { (below : Below) → IsReadWith space.old below → IsAmong below receiver → All (IsRefAmong below) arguments.now
        → Acts below (called program.now below receiver (BuiltInMethod.Content method) arguments.now) space.old space.new result }
    ensures served { IsServed space.old space.new result }
{
    if let [value] = arguments
        && is_open_array(space, receiver)
    {
        return push(space, receiver, *value);
    }
    let method = BuiltInMethod::Content(method);
    call_any(alloc, space, program, receiver, method, arguments)
}

/// `[]=`: a hash that may be written gets a value at once under a key that needs no new key object.
#[inline(always)]
fn call_put(
    alloc: Global,
    space: &mut Space,
    program: &Program,
    receiver: Ref,
    arguments: &[Ref],
) -> Result<Built, Fault>
    requires receiver { IsWithin (length space.old.slots) receiver }
    requires arguments { All (IsWithin (length space.old.slots)) arguments.now }
    ensures act { (below : Below) → IsReadWith space.old below → IsAmong below receiver → All (IsRefAmong below) arguments.now
        → Acts below (called program.now below receiver (BuiltInMethod.Content ContentMethod.SetAt) arguments.now) space.old space.new result }
    ensures served { IsServed space.old space.new result }
{
    if let [argument, value] = arguments
        && is_open_hash(space, receiver)
    {
        // An unfrozen text gives none here, as a new pair needs a copy of it.
        if let Some(key) = space.key(alloc, *argument)? {
            return store(space, receiver, key, *argument, *value);
        }
    }
    let method = BuiltInMethod::Content(ContentMethod::SetAt);
    call_any(alloc, space, program, receiver, method, arguments)
}

/// `[]=`: an element of an array that may be written gets its value at once.
#[inline(always)]
fn call_set(
    alloc: Global,
    space: &mut Space,
    program: &Program,
    receiver: Ref,
    arguments: &[Ref],
) -> Result<Built, Fault>
    requires receiver { IsWithin (length space.old.slots) receiver }
    requires arguments { All (IsWithin (length space.old.slots)) arguments.now }
    ensures act { (below : Below) → IsReadWith space.old below → IsAmong below receiver → All (IsRefAmong below) arguments.now
        → Acts below (called program.now below receiver (BuiltInMethod.Content ContentMethod.SetAt) arguments.now) space.old space.new result }
    ensures served { IsServed space.old space.new result }
{
    if let [argument, value] = arguments
        && let Ref::Int(index) = *argument
        && is_open_array(space, receiver)
    {
        let count = space.arity(receiver);
        if let Some(place) = place_of(index, count)
            && place < count
        {
            return Ok(put_inside(space, receiver, place, *value));
        }
    }
    call_put(alloc, space, program, receiver, arguments)
}

/// `size` and `length`: what is in an array or a hash is counted at once.
#[inline(always)]
fn call_size(
    alloc: Global,
    space: &mut Space,
    program: &Program,
    receiver: Ref,
    method: ContentMethod,
    arguments: &[Ref],
) -> Result<Built, Fault>
    requires receiver { IsWithin (length space.old.slots) receiver }
    requires arguments { All (IsWithin (length space.old.slots)) arguments.now }
    requires sizes { (method ≡ ContentMethod.Size) ⊎ (method ≡ ContentMethod.Length) }
    ensures act { (below : Below) → IsReadWith space.old below → IsAmong below receiver → All (IsRefAmong below) arguments.now
        → Acts below (called program.now below receiver (BuiltInMethod.Content method) arguments.now) space.old space.new result }
    ensures served { IsServed space.old space.new result }
{
    if arguments.is_empty() {
        match space.kind_of(receiver) {
            Kind::Array => return Ok(size_answer(space, Kind::Array, receiver)),
            Kind::Hash => return Ok(size_answer(space, Kind::Hash, receiver)),
            _ => {}
        }
    }
    let method = BuiltInMethod::Content(method);
    call_any(alloc, space, program, receiver, method, arguments)
}

/// Calls a method of texts, arrays and hashes, a frequent one at once.
#[inline(always)]
pub(crate) fn call_content(
    alloc: Global,
    space: &mut Space,
    program: &Program,
    receiver: Ref,
    method: ContentMethod,
    arguments: &[Ref],
) -> Result<Built, Fault>
    requires receiver { IsWithin (length space.old.slots) receiver }
    requires arguments { All (IsWithin (length space.old.slots)) arguments.now }
    ensures act { (below : Below) → IsReadWith space.old below → IsAmong below receiver → All (IsRefAmong below) arguments.now
        → Acts below (called program.now below receiver (BuiltInMethod.Content method) arguments.now) space.old space.new result }
    ensures served { IsServed space.old space.new result }
{
    match method {
        ContentMethod::At => call_at(alloc, space, program, receiver, arguments),
        ContentMethod::Append => call_push(alloc, space, program, receiver, method, arguments),
        ContentMethod::Push => call_push(alloc, space, program, receiver, method, arguments),
        ContentMethod::SetAt => call_set(alloc, space, program, receiver, arguments),
        ContentMethod::Size => call_size(alloc, space, program, receiver, method, arguments),
        ContentMethod::Length => call_size(alloc, space, program, receiver, method, arguments),
        _ => {
            let method = BuiltInMethod::Content(method);
            call_any(alloc, space, program, receiver, method, arguments)
        }
    }
}
