//! What is done with the receiver of a call.

ghost use Rattle.std.specs.Prelude.{◌≡◌, ◌<◌, ◌≤◌, IsTrue, length, map, List, Ok, Some, IfOk};
ghost use Rattle.std.specs.List.{All};
ghost use Rattle.rr_space.specs.Tables.{Below, HashKey, TextKey};
ghost use Rattle.rr_space.specs.Parts.{IsWithin};
ghost use Rattle.rr_space.specs.Kinds.{kind_at};
ghost use Rattle.rr_space.specs.Labels.{triples_at};
ghost use Rattle.rr_space.specs.Views.{can_write_at, keys_at, key_of, IsFirstAt};
ghost use Rattle.rr_space.specs.Lookups.{key_at};
ghost use Rattle.rr_text.specs.Reads.{IsReadWith};
ghost use Rattle.rr_builtin.specs.Acts.{Acts, IsServed, performed, froze, IsRefAmong, Answers, Makes, Freezes, Appends, Pushes, Takes, MakesArray, Puts, SetsValue, AddsPair, AddsText, TakesPair, MakesObject, IsDone};
ghost use Rattle.rr_builtin.specs.Deeds.{act_of, IsFit, IsDeedAmong, IsRefilled, IsWritableHash, LacksKey, HasPair};
ghost use Rattle.rr_space.specs.Parts.{value_of};

use crate::built::Built;
use crate::news::make_node;
use rr_base::Fault;
use rr_space::{Items, Key, Kind, Node, Ref, Space};
use std::alloc::Global;

/// What is done with the receiver of a call.
#[derive(Drop)]
pub(crate) enum Deed {
    /// Nothing is changed.
    Answer(Built),
    /// A new text.
    Make(Vec<u8>),
    /// The receiver is frozen, and given.
    Freeze,
    /// Bytes come behind those of the receiver, which is given.
    Append(Vec<u8>),
    /// A value comes behind the elements of the receiver, which is given.
    Push(Ref),
    /// An element is taken out of the receiver, and given.
    Take(usize),
    /// A new array.
    MakeArray(Vec<Ref>),
    /// A value is put in the place of an element of the receiver or right behind them, and given.
    Put(usize, Ref),
    /// The pair of the receiver that has the key gets another value, which is given.
    SetValue(Key, usize, Ref),
    /// A pair with this key and key object comes behind those of the receiver, and its value is given.
    AddPair(Key, Ref, Ref),
    /// The same, with a new frozen text of these bytes as the key object.
    AddText(Vec<u8>, Ref),
    /// A pair is taken out of the receiver, and its value given.
    TakePair(usize),
    /// A new object.
    MakeNode(Node),
    /// The receiver gets these elements, so that under the place is the value, which is given.
    Refill(Vec<Ref>, usize, Ref),
}

/// Makes a new text.
fn make(space: &mut Space, bytes: Vec<u8>) -> Result<Built, Fault>
    ensures act { (below : Below) (v : Ref) → IsReadWith space.old below → Acts below (performed (Makes bytes.items) v) space.old space.new result }
    ensures served { IsServed space.old space.new result }
{
    match space.alloc(Node::Text(bytes)) {
        Ok(text) => Ok(Built::Value(text)),
        Err(fault) => Err(fault),
    }
}

/// Freezes an object, and nothing that it leads to; an immediate stays as it is.
fn freeze(space: &mut Space, value: Ref)
    ensures { space.new ≡ froze value space.old }
{
    if space.can_freeze(value) {
        space.freeze(value);
    }
}

/// Puts bytes behind those of a text, which may be written.
fn append(space: &mut Space, text: Ref, bytes: &[u8]) -> Result<Built, Fault>
    requires within { IsWithin (length space.old.slots) text }
    requires can { IsTrue (can_write_at space.old text) }
    requires kind { kind_at space.old text ≡ Kind.Text }
    ensures act { (below : Below) → IsReadWith space.old below → Acts below (performed (Appends bytes.now) text) space.old space.new result }
    ensures served { IsServed space.old space.new result }
{
    match space.append_text(text, bytes) {
        Ok(()) => Ok(Built::Value(text)),
        Err(fault) => Err(fault),
    }
}

/// Puts a value behind the elements of an array, which may be written.
#[inline(always)]
pub(crate) fn push(space: &mut Space, array: Ref, value: Ref) -> Result<Built, Fault>
    requires within { IsWithin (length space.old.slots) array }
    requires can { IsTrue (can_write_at space.old array) }
    requires kind { kind_at space.old array ≡ Kind.Array }
    requires value { IsWithin (length space.old.slots) value }
    ensures act { (below : Below) → IsReadWith space.old below → IsRefAmong below value → Acts below (performed (Pushes (value_of value)) array) space.old space.new result }
    ensures served { IsServed space.old space.new result }
{
    match space.push_element(array, value) {
        Ok(()) => Ok(Built::Value(array)),
        Err(fault) => Err(fault),
    }
}

/// Takes an element out of an array, which may be written.
fn take(space: &mut Space, array: Ref, place: usize) -> Built
    requires can { IsTrue (can_write_at space.old array) }
    requires kind { kind_at space.old array ≡ Kind.Array }
    requires place { place < length (triples_at space.old array) }
    ensures act { (below : Below) → IsReadWith space.old below → IsDone below (performed (Takes place) array space.old) space.old space.new result }
    ensures served { IsServed space.old space.new (Ok result) }
{
    match space.take_element(array, place) {
        Some(taken) => Built::Value(taken),
        None => unreachable!(),
    }
}

/// Makes a new array of these values.
///
/// It is refused with `Memory`, or with `Limit(Slots)` where the space has as many objects as it may. That leaves the objects as
/// they were.
pub fn make_array(space: &mut Space, items: Vec<Ref>) -> Result<Built, Fault>
    requires { All (IsWithin (length space.old.slots)) items.items }
    ensures act { (below : Below) (v : Ref) → IsReadWith space.old below → All (IsRefAmong below) items.items → Acts below (performed (MakesArray (map value_of items.items)) v) space.old space.new result }
    ensures served { IsServed space.old space.new result }
{
    match space.alloc(Node::Array(Items::from_vec(items))) {
        Ok(array) => Ok(Built::Value(array)),
        Err(fault) => Err(fault),
    }
}

/// Puts a value in the place of an element of an array, which may be written.
#[inline(always)]
pub(crate) fn put_inside(space: &mut Space, array: Ref, place: usize, value: Ref) -> Built
    requires can { IsTrue (can_write_at space.old array) }
    requires kind { kind_at space.old array ≡ Kind.Array }
    requires value { IsWithin (length space.old.slots) value }
    requires place { place < length (triples_at space.old array) }
    ensures act { (below : Below) → IsReadWith space.old below → IsRefAmong below value → IsDone below (performed (Puts place (value_of value)) array space.old) space.old space.new result }
    ensures served { IsServed space.old space.new (Ok result) }
{
    space.write_element(array, place, value);
    Built::Value(value)
}

/// Puts a value in the place of an element of an array, which may be written, or right behind the elements.
fn put(space: &mut Space, array: Ref, place: usize, value: Ref) -> Result<Built, Fault>
    requires can { IsTrue (can_write_at space.old array) }
    requires kind { kind_at space.old array ≡ Kind.Array }
    requires value { IsWithin (length space.old.slots) value }
    requires place { place ≤ length (triples_at space.old array) }
    ensures act { (below : Below) → IsReadWith space.old below → IsRefAmong below value → Acts below (performed (Puts place (value_of value)) array) space.old space.new result }
    ensures served { IsServed space.old space.new result }
{
    if place < space.arity(array) {
        return Ok(put_inside(space, array, place, value));
    }
    match space.push_element(array, value) {
        Ok(()) => Ok(Built::Value(value)),
        Err(fault) => Err(fault),
    }
}

/// Gives an array, which may be written, other elements, with a value under a place behind the old ones.
fn refill(space: &mut Space, array: Ref, items: Vec<Ref>, place: usize, value: Ref) -> Built
    requires can { IsTrue (can_write_at space.old array) }
    requires kind { kind_at space.old array ≡ Kind.Array }
    requires value { IsWithin (length space.old.slots) value }
    requires filled { IsRefilled space.old array items.items place value }
    ensures act { (below : Below) → IsReadWith space.old below → All (IsRefAmong below) items.items → IsRefAmong below value → IsDone below (performed (Puts place (value_of value)) array space.old) space.old space.new result }
    ensures served { IsServed space.old space.new (Ok result) }
{
    space.write_elements(array, items);
    Built::Value(value)
}

/// Gives the pair of a hash, which may be written, that has the key another value.
fn set_value(
    space: &mut Space,
    hash: Ref,
    key: Key,
    pair: usize,
    value: Ref,
) -> Result<Built, Fault>
    requires hash { IsWritableHash space.old hash }
    requires value { IsWithin (length space.old.slots) value }
    requires first { (ks : List HashKey) → keys_at space.old hash ≡ Some ks → IsFirstAt ks (key_of key) pair }
    ensures act { (below : Below) → IsReadWith space.old below → IsRefAmong below value → Acts below (performed (SetsValue pair (value_of value)) hash) space.old space.new result }
    ensures served { IsServed space.old space.new result }
{
    // The hash has its keys, as the clause of the number says.
    let _count = space.len();
    match space.write_pair(hash, key, Ref::Nil, value) {
        Ok(()) => Ok(Built::Value(value)),
        Err(fault) => Err(fault),
    }
}

/// Puts a pair behind those of a hash, which may be written and has no such key.
fn add_pair(space: &mut Space, hash: Ref, key: Key, name: Ref, value: Ref) -> Result<Built, Fault>
    requires hash { IsWritableHash space.old hash }
    requires value { IsWithin (length space.old.slots) value }
    requires name { IsWithin (length space.old.slots) name }
    requires named { key_at space.old name ≡ Some (key_of key) }
    requires lacks { LacksKey space.old hash (key_of key) }
    ensures act { (below : Below) → IsReadWith space.old below → IsRefAmong below name → IsRefAmong below value → Acts below (performed (AddsPair (value_of name) (key_of key) (value_of value)) hash) space.old space.new result }
    ensures served { IsServed space.old space.new result }
{
    let _count = space.len();
    match space.write_pair(hash, key, name, value) {
        Ok(()) => Ok(Built::Value(value)),
        Err(fault) => Err(fault),
    }
}

/// Puts a pair behind those of a hash, which may be written and has no such key, with a new frozen text as its key object.
fn add_text(
    alloc: Global,
    space: &mut Space,
    hash: Ref,
    bytes: Vec<u8>,
    value: Ref,
) -> Result<Built, Fault>
    requires hash { IsWritableHash space.old hash }
    requires value { IsWithin (length space.old.slots) value }
    requires lacks { LacksKey space.old hash (TextKey bytes.items) }
    ensures act { (below : Below) → IsReadWith space.old below → IsRefAmong below value → Acts below (performed (AddsText bytes.items (value_of value)) hash) space.old space.new result }
    ensures served { IsServed space.old space.new result }
{
    let _count = space.len();
    match space.write_text_pair(alloc, hash, bytes, value) {
        Ok(()) => Ok(Built::Value(value)),
        Err(fault) => Err(fault),
    }
}

/// Takes a pair out of a hash, which may be written, and gives its value.
fn take_pair(space: &mut Space, hash: Ref, pair: usize) -> Built
    requires hash { IsWritableHash space.old hash }
    requires pair { HasPair space.old hash pair }
    ensures act { (below : Below) → IsReadWith space.old below → IsDone below (performed (TakesPair pair) hash space.old) space.old space.new result }
    ensures served { IsServed space.old space.new (Ok result) }
{
    let _count = space.len();
    match space.delete_pair(hash, pair) {
        Some((_, value)) => Built::Value(value),
        None => unreachable!(),
    }
}

/// Does the deed. A refused growth leaves the objects as they were.
pub(crate) fn perform(
    alloc: Global,
    space: &mut Space,
    receiver: Ref,
    deed: Deed,
) -> Result<Built, Fault>
    requires within { IsWithin (length space.old.slots) receiver }
    requires fit { IsFit space.old receiver deed }
    ensures act { (below : Below) → IsReadWith space.old below → IsRefAmong below receiver → IsDeedAmong below deed
        → Acts below (performed (act_of deed) receiver) space.old space.new result }
    ensures served { IsServed space.old space.new result }
{
    match deed {
        Deed::Answer(built) => Ok(built),
        Deed::Make(bytes) => make(space, bytes),
        Deed::Freeze => {
            freeze(space, receiver);
            Ok(Built::Value(receiver))
        }
        Deed::Append(bytes) => append(space, receiver, &bytes),
        Deed::Push(value) => push(space, receiver, value),
        Deed::Take(place) => Ok(take(space, receiver, place)),
        Deed::MakeArray(items) => make_array(space, items),
        Deed::Put(place, value) => put(space, receiver, place, value),
        Deed::Refill(items, place, value) => Ok(refill(space, receiver, items, place, value)),
        Deed::SetValue(key, pair, value) => set_value(space, receiver, key, pair, value),
        Deed::AddPair(key, name, value) => add_pair(space, receiver, key, name, value),
        Deed::AddText(bytes, value) => add_text(alloc, space, receiver, bytes, value),
        Deed::TakePair(pair) => Ok(take_pair(space, receiver, pair)),
        Deed::MakeNode(node) => make_node(space, node),
    }
}
