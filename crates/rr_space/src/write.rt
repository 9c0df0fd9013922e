//! What changes one object: what stands in its slot, its flag, all its elements, and the parts of an exception.

ghost use Rattle.std.specs.Prelude.{◌≡◌, ◌<◌, ℕ, true, [], List, length, map, Some, slice_get, slice_set, IsTrue};
ghost use Rattle.rr_space.specs.Graph.{Object, Value};
ghost use Rattle.rr_space.specs.Tables.{Here, Led, below_hold, IsRestKept};
ghost use Rattle.rr_space.specs.Sound.{IsHold};
ghost use Rattle.rr_space.specs.Parts.{value_of, places_from, below_parts, AllWithin};
ghost use Rattle.rr_space.specs.Labels.{label_of, is_raised_label, raised_place};
ghost use Rattle.rr_space.specs.Views.{placed_from};
ghost use Rattle.rr_space.specs.Views.{is_whole, is_frozen_here, can_freeze_at, can_write_at, with_held, StandsAt, IsWithin, IsHeldWithin, IsLedBy, IsLedAlso, emptied, node_object, below_node, node_keys, IsNodeWithin};
ghost use Rattle.rr_space.specs.Kinds.{kind_at};

use crate::items::Items;
use crate::kind::Kind;
use crate::label::Label;
use crate::node::{Held, Node};
use crate::refer::{Cluster, Ref};
use crate::replace::replace_at;
use crate::space::Space;

impl Space {
    /// What stands in the slot, with a shell in its place.
    pub(crate) fn take(&mut self, slot: u32) -> Held
        requires { slot < length self.old.slots }
        ensures stood { StandsAt self.old slot result }
        ensures within { IsHeldWithin (length self.old.slots) result }
        ensures rest { self.new ≡ with_held self.old slot Held.Shell }
    {
        replace_at(&mut self.slots, slot as usize, Held::Shell)
    }

    /// Puts something into the slot.
    pub(crate) fn put(&mut self, slot: u32, held: Held)
        requires slot { slot < length self.old.slots }
        requires within { IsHeldWithin (length self.old.slots) held }
        ensures { self.new ≡ with_held self.old slot held }
    {
        replace_at(&mut self.slots, slot as usize, held);
    }

    /// Turns the frozen object of a slot into a forward to its place in a published cluster. Takes no memory.
    /// `can_forward` tells whether the object is frozen.
    pub fn forward(&mut self, slot: u32, place: u32, cluster: &'static Cluster)
        requires slot { slot < length self.old.slots }
        requires frozen { IsTrue (is_frozen_here (slice_get self.old.slots slot)) }
        requires hold { IsHold place cluster.now }
        ensures slots { self.new.slots ≡ slice_set self.old.slots slot (Led cluster.now.number place) }
        ensures below { self.new.below ≡ slice_set self.old.below slot (below_hold cluster.now) }
        ensures keys { self.new.keys ≡ slice_set self.old.keys slot [] }
        ensures rest { IsRestKept self.old self.new }
    {
        self.put(slot, Held::Forward(place, cluster));
    }

    /// Turns the object of a slot into a shell. Takes no memory. `can_freeze` tells whether it is an object of this space
    /// that is none.
    pub fn empty(&mut self, slot: u32)
        requires slot { slot < length self.old.slots }
        requires whole { IsTrue (is_whole (slice_get self.old.slots slot)) }
        ensures slots { self.new.slots ≡ slice_set self.old.slots slot (Here emptied) }
        ensures below { self.new.below ≡ slice_set self.old.below slot [] }
        ensures keys { self.new.keys ≡ slice_set self.old.keys slot [] }
        ensures rest { IsRestKept self.old self.new }
    {
        self.put(slot, Held::Shell);
    }

    /// Puts an object into a slot, in the place of a shell. Takes no memory.
    pub fn restore(&mut self, slot: u32, node: Node, frozen: bool)
        requires slot { slot < length self.old.slots }
        requires shell { slice_get self.old.slots slot ≡ Some (Here emptied) }
        requires within { IsNodeWithin (length self.old.slots) node }
        ensures slots { self.new.slots ≡ slice_set self.old.slots slot (Here (node_object node frozen)) }
        ensures below { self.new.below ≡ slice_set self.old.below slot (below_node node) }
        ensures keys { self.new.keys ≡ slice_set self.old.keys slot (node_keys node) }
        ensures rest { IsRestKept self.old self.new }
    {
        self.put(slot, Held::Whole(frozen, node));
    }

    /// Puts `value` in the place of the message, the cause or the ractor of an exception. `can_write` tells whether
    /// `exception` may be written.
    pub fn write_raised(&mut self, exception: Ref, label: Label, value: Ref)
        requires can { IsTrue (can_write_at self.old exception) }
        requires kind { kind_at self.old exception ≡ Kind.Exception }
        requires label { IsTrue (is_raised_label (label_of label)) }
        requires within { IsWithin (length self.old.slots) value }
        ensures slots { (n : ℕ) (o : Object) → exception ≡ Ref.Local n → slice_get self.old.slots n ≡ Some (Here o)
            → self.new.slots ≡ slice_set self.old.slots n (Here (record o { triples = slice_set o.triples (raised_place (label_of label)) (label_of label, value_of value) })) }
        ensures below { (n : ℕ) → exception ≡ Ref.Local n → IsLedBy value n self.old.below self.new.below }
        ensures keys { self.new.keys ≡ self.old.keys }
        ensures rest { IsRestKept self.old self.new }
    {
        if let Ref::Local(slot) = exception {
            match self.take(slot) {
                Held::Whole(frozen, node) => {
                    let changed = node.with_raised(label, value);
                    self.put(slot, Held::Whole(frozen, changed))
                }
                other => self.put(slot, other),
            }
        }
    }

    /// Freezes one object, and nothing that it leads to. `can_freeze` tells whether it may be.
    pub fn freeze(&mut self, value: Ref)
        requires { IsTrue (can_freeze_at self.old value) }
        ensures slots { (n : ℕ) (o : Object) → value ≡ Ref.Local n → slice_get self.old.slots n ≡ Some (Here o)
            → self.new.slots ≡ slice_set self.old.slots n (Here (record o { frozen = true })) }
        ensures below { self.new.below ≡ self.old.below }
        ensures keys { self.new.keys ≡ self.old.keys }
        ensures rest { IsRestKept self.old self.new }
    {
        if let Ref::Local(slot) = value {
            match self.take(slot) {
                Held::Whole(_, node) => self.put(slot, Held::Whole(true, node)),
                other => self.put(slot, other),
            }
        }
    }

    /// Gives an array other elements. `can_write` tells whether `array` may be written.
    pub fn write_elements(&mut self, array: Ref, items: Vec<Ref>)
        requires can { IsTrue (can_write_at self.old array) }
        requires kind { kind_at self.old array ≡ Kind.Array }
        requires within { AllWithin (length self.old.slots) (places_from 0 items.items) }
        ensures slots { (n : ℕ) (o : Object) → array ≡ Ref.Local n → slice_get self.old.slots n ≡ Some (Here o)
            → (vs : List Value) × (o.triples ≡ placed_from 0 vs) × (self.new.slots ≡ slice_set self.old.slots n (Here (record o { triples = placed_from 0 (map value_of items.items) }))) }
        ensures below { (n : ℕ) → array ≡ Ref.Local n → IsLedAlso (below_parts (places_from 0 items.items)) n self.old.below self.new.below }
        ensures keys { self.new.keys ≡ self.old.keys }
        ensures rest { IsRestKept self.old self.new }
    {
        if let Ref::Local(slot) = array {
            match self.take(slot) {
                Held::Whole(frozen, _) => {
                    let changed = Node::Array(Items::from_vec(items));
                    self.put(slot, Held::Whole(frozen, changed))
                }
                other => self.put(slot, other),
            }
        }
    }
}
