//! Publishing what is shareable of a value.

ghost use Rattle.std.specs.Prelude.{◌≡◌, ◌≤◌, ◌<◌, ◌⊎◌, ℕ, [], List, length, map, slice_set, Contains, IfOk, IfErr};
ghost use Rattle.std.specs.Bool.{OnTrue, OnFalse};
ghost use Rattle.rr_space.specs.Graph.{Object, At, Own, IsFreeOfShells, IsShareable};
ghost use Rattle.rr_space.specs.Moves.{IsPlanned, IsPromoted};
ghost use Rattle.rr_space.specs.Parts.{value_of, below_ref, IsWithin};
ghost use Rattle.rr_space.specs.Tables.{Here, Below, IsRestKept, joined, resolve, space_graph};
ghost use Rattle.rr_space.specs.Views.{IsLedAlso};
ghost use Rattle.rr_store.specs.Stores.{HasEvent};
ghost use Rattle.rr_text.specs.Reads.{IsReadWith};
ghost use Rattle.rr_builtin.specs.Acts.{with_put};
ghost use Rattle.rr_eval.specs.Published.{published};
ghost use Rattle.rr_eval.specs.Responses.{registry_slot};
ghost use Rattle.rr_eval.specs.Publishing.{IsRegistry, Notes, IsPublishedAs, IsPublishing, IsPublishRefusal, IsUnpublished};

use crate::known::REGISTRY;
use rr_base::{Fault, LimitKind};
use rr_share::{Plan, Prepared, prepare, promote};
use rr_space::{Items, Kind, Node, Ref, SlotSet, Space};
use rr_store::StoreState;
use std::alloc::Global;

/// Whether the registry may be written, and has an element for each cluster before the one of this number.
fn has_registry(space: &Space, number: usize) -> bool
    ensures yes { OnTrue result ((o : Object) × IsRegistry number space.now o) }
    ensures no { OnFalse result ((o : Object) → IsRegistry number space.now o → ⊥) }
{
    let registry = REGISTRY;
    space.can_write(registry)
        && space.kind_of(registry) == Kind::Array
        && number <= space.arity(registry)
}

/// References to these slots, in their order.
fn references_to(alloc: Global, places: &SlotSet) -> Result<Vec<Ref>, Fault>
    ensures references { IfOk result (λ slots. slots.items ≡ map Ref.Local places.now) }
    ensures fault { IfErr result (λ fault. fault ≡ Fault.Memory) }
{
    let mut slots = Vec::new(alloc);
    slots.reserve_exact(places.len())?;
    for place in 0..places.len() {
        slots.push(Ref::Local(places.at(place)))?;
    }
    Ok(slots)
}

/// Puts an object of the space into the registry, under this number. A refused growth leaves the objects as they were.
fn put_down(space: &mut Space, number: usize, array: Ref) -> Result<(), Fault>
    requires registry { (o : Object) × IsRegistry number space.old o }
    requires within { IsWithin (length space.old.slots) array }
    requires own { below_ref array ≡ [] }
    ensures slots { IfOk result (λ _. (o : Object) → IsRegistry number space.old o → space.new.slots ≡ slice_set space.old.slots registry_slot (Here (with_put number (value_of array) o))) }
    ensures below { IfOk result (λ _. IsLedAlso [] registry_slot space.old.below space.new.below) }
    ensures keys { space.new.keys ≡ space.old.keys }
    ensures rest { IsRestKept space.old space.new }
    ensures refused { IfErr result (λ _. space.new ≡ space.old) }
    ensures fault { IfErr result (λ fault. fault ≡ Fault.Memory) }
{
    let registry = REGISTRY;
    if number < space.arity(registry) {
        space.write_element(registry, number, array);
        return Ok(());
    }
    match space.push_element(registry, array) {
        Ok(()) => Ok(()),
        Err(fault) => Err(fault),
    }
}

/// Writes down in the registry under which slots the objects of the cluster of this number stand. Where the registry has no
/// place for that, nothing is written.
///
/// A refusal may leave a new array, to which nothing leads.
fn note_places(
    alloc: Global,
    space: &mut Space,
    number: usize,
    places: &SlotSet,
) -> Result<(), Fault>
    requires { (n : ℕ) → Contains places.now n → n < length space.old.slots }
    ensures notes { IfOk result (λ _. Notes number places.now space.old space.new) }
    ensures read { (below : Below) → IsReadWith space.old below → IsReadWith space.new below }
    ensures grows { length space.old.slots ≤ length space.new.slots }
    ensures limit { space.new.limit ≡ space.old.limit }
    ensures unpublished { IsUnpublished space.old space.new }
    ensures fault { IfErr result (λ fault. (fault ≡ Fault.Memory) ⊎ ((fault ≡ Fault.Limit LimitKind.Slots) × (length space.old.slots ≡ space.old.limit))) }
{
    if !has_registry(space, number) {
        return Ok(());
    }
    let slots = references_to(alloc, places)?;
    let array = space.alloc(Node::Array(Items::from_vec(slots)))?;
    match put_down(space, number, array) {
        Ok(()) => Ok(()),
        Err(fault) => Err(fault),
    }
}

/// Publishes the objects of a plan and turns their slots into forwards. It is written down before where they stood, so that
/// nothing is published that is not known.
///
/// A refusal leaves the store as it was, and may leave a new array in the registry.
fn publish_plan(
    alloc: Global,
    space: &mut Space,
    store: &mut StoreState,
    plan: Plan,
) -> Result<(), Fault>
    requires planned { IsPlanned space.old plan.cluster plan.places }
    requires below { (e : ℕ × List Object) → Contains plan.cluster.below e → Contains (joined space.old.below) e }
    requires read { IsReadWith space.old (published store.old) }
    ensures published { IfOk result (λ _. IsPublishedAs plan.cluster plan.places store.old space.old store.new space.new) }
    ensures read { IsReadWith space.new (published store.new) }
    ensures more { (e : ℕ × List Object) → Contains (published store.old) e → Contains (published store.new) e }
    ensures grows { length space.old.slots ≤ length space.new.slots }
    ensures limit { space.new.limit ≡ space.old.limit }
    ensures constants { store.new.constants ≡ store.old.constants }
    ensures room { store.new.limit ≡ store.old.limit }
    ensures kept { IfErr result (λ _. store.new ≡ store.old) }
    ensures unpublished { IfErr result (λ _. IsUnpublished space.old space.new) }
    ensures fault { IfErr result (λ fault. (fault ≡ Fault.Memory) ⊎ (((fault ≡ Fault.Limit LimitKind.Slots) × (length space.old.slots ≡ space.old.limit)) ⊎ ((fault ≡ Fault.HistoryFull) × (HasEvent store.old → ⊥)))) }
{
    let Plan { cluster, places } = plan;
    // With these numbers comes that there are no more objects than can be counted.
    let _slots = space.len();
    let _places = places.len();
    let who = space.owner();
    note_places(alloc, space, store.count(), &places)?;
    match store.publish(alloc, who, cluster) {
        Ok(published) => {
            // With the history comes that each cluster stands under its number.
            let _events = store.history();
            promote(space, places, published);
            Ok(())
        }
        Err((fault, _)) => Err(fault),
    }
}

/// Publishes the shareable objects of the space that a value leads to, in one cluster, and writes down in the registry under
/// which slots they stand. Where there are none, nothing changes.
///
/// A refusal leaves the store as it was, and may leave a new array in the registry.
pub fn publish_shareable(
    alloc: Global,
    space: &mut Space,
    store: &mut StoreState,
    value: Ref,
) -> Result<(), Fault>
    requires read { IsReadWith space.old (published store.old) }
    requires value { IsWithin (length space.old.slots) value }
    ensures published { IfOk result (λ _. IsPublishing store.old space.old (value_of value) store.new space.new) }
    ensures promoted { IfOk result (λ _. IsPromoted space.new (value_of value)) }
    ensures public { IfOk result (λ _. IsShareable (space_graph space.old) (resolve space.old.slots (value_of value)) → (n : ℕ) → resolve space.new.slots (value_of value) ≡ At (Own n) → ⊥) }
    ensures free { IfOk result (λ _. IsFreeOfShells (space_graph space.old) (resolve space.old.slots (value_of value))) }
    ensures read { IsReadWith space.new (published store.new) }
    ensures more { (e : ℕ × List Object) → Contains (published store.old) e → Contains (published store.new) e }
    ensures grows { length space.old.slots ≤ length space.new.slots }
    ensures limit { space.new.limit ≡ space.old.limit }
    ensures constants { store.new.constants ≡ store.old.constants }
    ensures room { store.new.limit ≡ store.old.limit }
    ensures kept { IfErr result (λ _. store.new ≡ store.old) }
    ensures unpublished { IfErr result (λ _. IsUnpublished space.old space.new) }
    ensures shell { IfErr result (λ fault. fault ≡ Fault.HoldsShell → space.new ≡ space.old) }
    ensures fault { IfErr result (λ fault. IsPublishRefusal fault store.old space.old (value_of value)) }
{
    // With the numbers of slots comes that no reference in them leads nowhere.
    let _before = space.len();
    match prepare(alloc, space, value)? {
        Prepared::Found(_) => Ok(()),
        Prepared::Plan(plan) => {
            publish_plan(alloc, space, store, plan)?;
            let _after = space.len();
            Ok(())
        }
    }
}
