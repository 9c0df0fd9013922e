//! What the rounds of an iteration read.

ghost use Rattle.std.specs.Prelude.{◌≡◌, IfOk, IfErr, IsTrue, length};
ghost use Rattle.rr_space.specs.Tables.{Below};
ghost use Rattle.rr_space.specs.Kinds.{kind_at};
ghost use Rattle.rr_space.specs.Views.{key_of};
ghost use Rattle.rr_text.specs.Keys.{pair_with};
ghost use Rattle.rr_text.specs.Reads.{IsAmong, IsReadWith};
ghost use Rattle.rr_builtin.specs.Acts.{Acts, IsServed, MakesArray, IsRefAmong, performed};
ghost use Rattle.rr_builtin.specs.Elements.{names_of_hash};
ghost use Rattle.rr_builtin.specs.Rounds.{read_of, found, element_found, item_at, value_found, pair_at, is_own_hash, IsRoundWithin, IsRoundAmong};

use crate::arrays::{element, names};
use crate::built::Built;
use crate::deed::make_array;
use crate::hashes::key_given;
use crate::kinds::is_hash;
use rr_base::Fault;
use rr_space::{Key, Kind, Ref, Space};
use rr_text::pair_with;
use std::alloc::Global;

/// What a round of an iteration reads.
#[derive(Clone, Copy)]
pub enum Round {
    Item(Ref),
    /// An array has no such place, and a hash no longer the key.
    Absent,
    /// The receiver was moved away.
    Moved,
}

/// What stands at a place of an object.
fn element_found(space: &Space, array: Ref, place: usize) -> Round
    ensures is { read_of result ≡ found (element_found space.now array place) }
    ensures within { IsRoundWithin (length space.now.slots) result }
    ensures among { (below : Below) → IsReadWith space.now below → IsRefAmong below array → IsRoundAmong below result }
{
    match space.part(array, place) {
        Some((_, item)) => Round::Item(item),
        None => Round::Absent,
    }
}

/// The element at a place of an array as it is now: an iteration reads by place as it goes.
pub fn item_at(space: &Space, array: Ref, place: usize) -> Round
    ensures is { read_of result ≡ item_at space.now array place }
    ensures within { IsRoundWithin (length space.now.slots) result }
    ensures among { (below : Below) → IsReadWith space.now below → IsRefAmong below array → IsRoundAmong below result }
{
    match space.kind_of(array) {
        Kind::Shell => Round::Moved,
        Kind::Array => element_found(space, array, place),
        _ => Round::Absent,
    }
}

/// Makes a new array of the key objects of a hash in their order, for an iteration to visit.
///
/// It is refused with `Memory`, or with `Limit(Slots)` where the space has as many objects as it may. That leaves the objects as
/// they were.
pub fn keys_of(alloc: Global, space: &mut Space, hash: Ref) -> Result<Built, Fault>
    ensures act { (below : Below) → IsReadWith space.old below → IsRefAmong below hash
        → Acts below (performed (MakesArray (names_of_hash space.old hash)) hash) space.old space.new result }
    ensures served { IsServed space.old space.new result }
{
    let keys = names(alloc, space, hash)?;
    make_array(space, keys)
}

/// The value of a pair, if there is one.
fn value_found(space: &Space, hash: Ref, pair: Option<usize>) -> Round
    ensures is { read_of result ≡ found (value_found space.now hash pair) }
    ensures within { IsRoundWithin (length space.now.slots) result }
    ensures among { (below : Below) → IsReadWith space.now below → IsRefAmong below hash → IsRoundAmong below result }
{
    match pair {
        Some(pair) => {
            if pair < space.arity(hash) / 2 {
                Round::Item(element(space, hash, 2 * pair + 1))
            } else {
                Round::Absent
            }
        }
        None => Round::Absent,
    }
}

/// The value that a hash has now under a key: an iteration visits the keys that were there at its start and still are.
///
/// It is exact with any clusters among which are all that the space and the hash lead to, and of which no two have one number.
pub fn pair_at(alloc: Global, space: &Space, hash: Ref, key: Ref) -> Result<Round, Fault>
    ensures is { IfOk result (λ round. (below : Below) → IsReadWith space.now below → IsAmong below hash → read_of round ≡ pair_at below space.now hash key) }
    ensures within { IfOk result (λ round. IsRoundWithin (length space.now.slots) round) }
    ensures among { IfOk result (λ round. (below : Below) → IsReadWith space.now below → IsRefAmong below hash → IsRoundAmong below round) }
    ensures fault { IfErr result (λ f. f ≡ Fault.Memory) }
{
    match space.kind_of(hash) {
        Kind::Shell => Ok(Round::Moved),
        Kind::Hash => match key_given(alloc, space, key)? {
            Some(key) => Ok(value_found(space, hash, pair_with(space, hash, &key))),
            None => Ok(Round::Absent),
        },
        _ => Ok(Round::Absent),
    }
}

/// Whether a value is a hash of the space itself, and none that was published.
pub fn is_own_hash(space: &Space, value: Ref) -> bool
    ensures { result ≡ is_own_hash space.now value }
{
    space.can_freeze(value) && is_hash(space.kind_of(value))
}

/// The pair of a hash of the space that has the key.
fn place_of_key(space: &Space, hash: Ref, key: &Key) -> Option<usize>
    requires { IsTrue (is_own_hash space.now hash) }
    ensures { (below : Below) → result ≡ pair_with below space.now hash (key_of key.now) }
{
    // Each slot has its keys, as the clause of the number says.
    let _count = space.len();
    space.find(hash, key)
}

/// The value that a hash of the space has now under a key. It is exact with any clusters, since its keys are the table's own.
pub fn own_pair_at(alloc: Global, space: &Space, hash: Ref, key: Ref) -> Result<Round, Fault>
    requires { IsTrue (is_own_hash space.now hash) }
    ensures is { IfOk result (λ round. (below : Below) → read_of round ≡ pair_at below space.now hash key) }
    ensures within { IfOk result (λ round. IsRoundWithin (length space.now.slots) round) }
    ensures among { IfOk result (λ round. (below : Below) → IsReadWith space.now below → IsRefAmong below hash → IsRoundAmong below round) }
    ensures fault { IfErr result (λ f. f ≡ Fault.Memory) }
{
    match key_given(alloc, space, key)? {
        Some(key) => Ok(value_found(space, hash, place_of_key(space, hash, &key))),
        None => Ok(Round::Absent),
    }
}
