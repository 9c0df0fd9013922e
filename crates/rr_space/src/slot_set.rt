//! Slots, each once, in the order in which they were found.

ghost use Rattle.std.specs.Prelude.{◌≡◌, ◌<◌, ◌≤◌, ◌++◌, ◌∷◌, [], nat_eq, length, slice_get, Some, Contains, IsTrue, ◌↔◌, IfErr, IfNone, IfSome, OnErr, OnOk};
ghost use Rattle.indexmap.specs.IndexSet.{insert_key};
ghost use Rattle.std.specs.List.{IsDistinct};
ghost use Rattle.rr_space.specs.Places.{ArePlaced, HasPlaces};

use crate::place_table::PlaceTable;
use rr_base::Fault;
use std::alloc::Global;
use std::marker::Model;

/// So many slots are tried one by one, which costs less than a table.
const FEW: usize = 8;

/// Slots, each once, in the order in which they were found. The place of a slot among them is its name in a message.
#[derive(Drop)]
pub struct SlotSet {
    slots: Vec<u32>,
    /// The places of the slots, once there are more than a few.
    places: PlaceTable,
}

impl Model for SlotSet {
    ghost use Rattle.std.specs.Prelude.{List, ℕ, nat_eq};
    ghost use Rattle.std.specs.List.{IsDistinct};
    ghost use Rattle.rr_space.specs.Places.{ArePlaced};

    ghost Value = { List ℕ };

    ghost view = { λ f. f.slots.items };

    ghost invariant = { λ f. IsDistinct nat_eq f.slots.items × ArePlaced f.slots.items f.places };
}

impl SlotSet {
    /// No slots. Takes no memory.
    pub fn new(alloc: Global) -> SlotSet
        ensures { result ≡ [] }
    {
        SlotSet {
            slots: Vec::new(alloc),
            places: PlaceTable::new(alloc),
        }
    }

    /// How many there are. No slot is there twice.
    pub fn len(&self) -> usize
        ensures len { result ≡ length self.now }
        ensures distinct { IsDistinct nat_eq self.now }
    {
        self.slots.len()
    }

    /// Whether there are none.
    pub fn is_empty(&self) -> bool
        ensures { IsTrue result ↔ self.now ≡ [] }
    {
        self.slots.is_empty()
    }

    /// Whether the slot is there.
    pub fn contains(&self, slot: u32) -> bool
        ensures { IsTrue result ↔ Contains self.now slot }
    {
        self.find(slot).is_some()
    }

    /// The slot at the place `place`.
    pub fn at(&self, place: usize) -> u32
        requires { place < length self.now }
        ensures { slice_get self.now place ≡ Some result }
    {
        self.slots[place]
    }

    /// The place of a slot that is there.
    pub fn place_of(&self, slot: u32) -> usize
        requires { Contains self.now slot }
        ensures { slice_get self.now result ≡ Some slot }
    {
        match self.find(slot) {
            Some(place) => place,
            None => unreachable!(),
        }
    }

    /// Adds a slot behind the others, unless it is there. `Memory` is the only fault, and leaves all as it was.
    pub fn add(&mut self, slot: u32) -> Result<(), Fault>
        ensures added { OnOk result (self.new ≡ insert_key nat_eq self.old slot) }
        ensures refused { OnErr result (self.new ≡ self.old) }
        ensures grows { OnErr result (Contains self.old slot → ⊥) }
        ensures fault { IfErr result (λ e. e ≡ Fault.Memory) }
    {
        if self.contains(slot) {
            return Ok(());
        }
        keep_place(&mut self.places, &self.slots, slot)?;
        self.slots.push(slot)?;
        Ok(())
    }

    /// The place of a slot, if it is there.
    fn find(&self, slot: u32) -> Option<usize>
        ensures some { IfSome result (λ place. slice_get self.now place ≡ Some slot) }
        ensures none { IfNone result (Contains self.now slot → ⊥) }
    {
        if self.slots.len() <= FEW {
            return find_among(&self.slots, slot);
        }
        let place = self.places.get(slot)? as usize;
        if place < self.slots.len() && self.slots[place] == slot {
            Some(place)
        } else {
            None
        }
    }
}

/// The place of a slot among others, which are tried one by one.
fn find_among(slots: &[u32], slot: u32) -> Option<usize>
    ensures some { IfSome result (λ place. slice_get slots.now place ≡ Some slot) }
    ensures none { IfNone result (Contains slots.now slot → ⊥) }
{
    for place in 0..slots.len() {
        if slots[place] == slot {
            return Some(place);
        }
    }
    None
}

/// Keeps the place of a slot that comes behind others, and the places of these where they were few until now.
fn keep_place(places: &mut PlaceTable, slots: &[u32], slot: u32) -> Result<(), Fault>
    requires distinct { IsDistinct nat_eq slots.now }
    requires absent { Contains slots.now slot → ⊥ }
    requires placed { ArePlaced slots.now places.old }
    ensures still { ArePlaced slots.now places.new }
    ensures placed { OnOk result (ArePlaced (slots.now ++ slot ∷ []) places.new) }
    ensures fault { IfErr result (λ e. e ≡ Fault.Memory) }
{
    if slots.len() < FEW {
        return Ok(());
    }
    if slots.len() == FEW {
        keep_places(places, slots)?;
    }
    // There are no more slots than 32 bits count.
    let Ok(place) = u32::try_from(slots.len()) else {
        return Err(Fault::Memory);
    };
    places.set(slot, place)
}

/// Keeps the places of a few slots.
fn keep_places(places: &mut PlaceTable, slots: &[u32]) -> Result<(), Fault>
    requires distinct { IsDistinct nat_eq slots.now }
    requires few { length slots.now ≤ 8 }
    ensures placed { OnOk result (HasPlaces slots.now places.new) }
    ensures fault { IfErr result (λ e. e ≡ Fault.Memory) }
{
    for place in 0..slots.len() {
        let slot = slots[place];
        places.set(slot, place as u32)?;
    }
    Ok(())
}
