//! Slots of a script that stand for published objects.

ghost use Rattle.std.specs.Prelude.{◌≡◌, ◌<◌, ℕ, [], length, Option, IfOk, IfErr, IfSome};
ghost use Rattle.std.specs.List.{All};
ghost use Rattle.rr_frames.specs.Frames.{list_of};
ghost use Rattle.rr_space.specs.Parts.{value_of};
ghost use Rattle.rr_space.specs.Tables.{Below};
ghost use Rattle.rr_text.specs.Reads.{IsReadWith};
ghost use Rattle.rr_builtin.specs.Acts.{with_array};
ghost use Rattle.rr_builtin.specs.Rounds.{read_of, IsRoundWithin};
ghost use Rattle.rr_eval.specs.Acts.{IsRefusal, Passes};
ghost use Rattle.rr_eval.specs.Responses.{slot_read, is_published, known_slot, known_among, known};
ghost use Rattle.rr_eval.specs.Within.{reach, IsReached};

use rr_base::Fault;
use rr_builtin::{Round, item_at};
use rr_space::{Items, Node, Ref, Space};
use std::alloc::Global;

/// The registry: the array that has, for each cluster by its number, an array of the slots in which its places were. It is the third
/// object of a script.
pub const REGISTRY: Ref = Ref::Local(2);

/// Makes the registry, which is empty. A refused growth leaves the objects as they were.
pub fn make_registry(alloc: Global, space: &mut Space) -> Result<(), Fault>
    ensures made { IfOk result (λ _. space.new ≡ with_array [] space.old) }
    ensures read { (below : Below) → IsReadWith space.old below → IsReadWith space.new below }
    ensures refused { IfErr result IsRefusal }
    ensures full { IfErr result (λ f. Passes f space.old.limit (length (with_array [] space.old).slots)) }
{
    match space.alloc(Node::Array(Items::new(alloc))) {
        Ok(_) => Ok(()),
        Err(fault) => Err(fault),
    }
}

/// The slot that is read, if one is.
fn slot_read(read: Round) -> Option<u32>
    ensures is { result ≡ slot_read (read_of read) }
    ensures within { (k : ℕ) → IsRoundWithin k read → IfSome result (λ slot. slot < k) }
{
    match read {
        Round::Item(Ref::Local(slot)) => Some(slot),
        _ => None,
    }
}

/// Whether a value is the published object of this cluster and place.
fn is_published(cluster: u32, place: u32, value: Ref) -> bool
    ensures { result ≡ is_published cluster place (value_of value) }
{
    match value {
        Ref::Shared(at, other) => other.number() == cluster && at == place,
        _ => false,
    }
}

/// The slot, where it leads to the published object.
fn known_slot(space: &Space, cluster: u32, place: u32, slot: Option<u32>) -> Option<Ref>
    ensures is { result ≡ known_slot space.now cluster place slot }
    ensures within { (clusters : Option Below) → IfSome slot (λ n. n < length space.now.slots) → All (IsReached (reach (length space.now.slots) clusters)) (list_of result) }
{
    match slot {
        Some(slot) => {
            if is_published(cluster, place, space.resolve(Ref::Local(slot))) {
                Some(Ref::Local(slot))
            } else {
                None
            }
        }
        None => None,
    }
}

/// The same, by the array of the cluster.
fn known_among(space: &Space, cluster: u32, place: u32, row: Option<u32>) -> Option<Ref>
    ensures is { result ≡ known_among space.now cluster place row }
    ensures within { (clusters : Option Below) → All (IsReached (reach (length space.now.slots) clusters)) (list_of result) }
{
    match row {
        Some(row) => {
            let read = item_at(space, Ref::Local(row), place as usize);
            known_slot(space, cluster, place, slot_read(read))
        }
        None => None,
    }
}

/// The slot of a script that stands for a published object, where one is known. It is rare that one is asked for.
#[tactic(auto, unfolding(crate::specs::Responses::known))]
#[inline(never)]
pub fn known(space: &Space, cluster: u32, place: u32) -> Option<Ref>
    ensures is { result ≡ known space.now cluster place }
    ensures within { (clusters : Option Below) → All (IsReached (reach (length space.now.slots) clusters)) (list_of result) }
{
    let read = item_at(space, REGISTRY, cluster as usize);
    known_among(space, cluster, place, slot_read(read))
}
