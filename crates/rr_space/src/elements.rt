//! The elements of arrays: what puts one in the place of another or behind the others, and what takes one out.

ghost use Rattle.std.specs.Prelude.{◌≡◌, ◌↔◌, ℕ, ◌<◌, List, [], ◌∷◌, ◌++◌, length, remove, Some, slice_get, slice_set, vec_len, IsTrue, IsSome, IfOk, IfErr, IfSome, IfNone};
ghost use Rattle.rr_space.specs.Graph.{Object, Place, Value};
ghost use Rattle.rr_space.specs.Tables.{Here, IsRestKept};
ghost use Rattle.rr_space.specs.Parts.{value_of};
ghost use Rattle.rr_space.specs.Views.{can_write_at, placed_from, IsKnownTo, IsWithin, IsLedAlso, IsLedBy};
ghost use Rattle.rr_space.specs.Writes.{IsHeldRewritten, IsSlotRewritten, IsElementWritten, IsElementPushed, IsElementTaken};
ghost use Rattle.rr_space.specs.Kinds.{kind_at};
ghost use Rattle.rr_space.specs.Labels.{triples_at};

use crate::kind::Kind;
use crate::node::{Held, Node};
use crate::refer::Ref;
use crate::replace::change_at;
use crate::space::Space;
use rr_base::Fault;

impl Space {
    /// Puts `value` in the place of an element of an array. `can_write` tells whether `array` may be written.
    pub fn write_element(&mut self, array: Ref, place: usize, value: Ref)
        requires can { IsTrue (can_write_at self.old array) }
        requires kind { kind_at self.old array ≡ Kind.Array }
        requires place { place < length (triples_at self.old array) }
        requires within { IsWithin (length self.old.slots) value }
        ensures slots { (n : ℕ) (o : Object) → array ≡ Ref.Local n → slice_get self.old.slots n ≡ Some (Here o)
            → self.new.slots ≡ slice_set self.old.slots n (Here (record o { triples = slice_set o.triples place (Place place, value_of value) })) }
        ensures below { (n : ℕ) → array ≡ Ref.Local n → IsLedBy value n self.old.below self.new.below }
        ensures keys { self.new.keys ≡ self.old.keys }
        ensures rest { IsRestKept self.old self.new }
    {
        if let Ref::Local(slot) = array {
            write_element_at(&mut self.slots, slot as usize, place, value)
        }
    }

    /// Puts `value` behind the elements of an array. `can_write` tells whether `array` may be written.
    ///
    /// Answers `Fault::Memory` where a growth was refused.
    pub fn push_element(&mut self, array: Ref, value: Ref) -> Result<(), Fault>
        requires can { IsTrue (can_write_at self.old array) }
        requires kind { kind_at self.old array ≡ Kind.Array }
        requires within { IsWithin (length self.old.slots) value }
        ensures slots { (n : ℕ) (o : Object) → array ≡ Ref.Local n → slice_get self.old.slots n ≡ Some (Here o)
            → IfOk result (λ _. self.new.slots ≡ slice_set self.old.slots n (Here (record o { triples = o.triples ++ (Place (length o.triples), value_of value) ∷ [] }))) }
        ensures below { (n : ℕ) → array ≡ Ref.Local n → IfOk result (λ _. IsLedBy value n self.old.below self.new.below) }
        ensures keys { self.new.keys ≡ self.old.keys }
        ensures rest { IsRestKept self.old self.new }
        ensures refused { IfErr result (λ _. self.new ≡ self.old) }
        ensures fault { IfErr result (λ e. e ≡ Fault.Memory) }
    {
        match array {
            Ref::Local(slot) => push_element_at(&mut self.slots, slot as usize, value),
            _ => Ok(()),
        }
    }

    /// Takes an element out of an array, and gives it; later ones close up. None where there is no such element.
    /// `can_write` tells whether `array` may be written.
    pub fn take_element(&mut self, array: Ref, place: usize) -> Option<Ref>
        requires can { IsTrue (can_write_at self.old array) }
        requires kind { kind_at self.old array ≡ Kind.Array }
        ensures slots { (n : ℕ) (o : Object) → array ≡ Ref.Local n → slice_get self.old.slots n ≡ Some (Here o)
            → IfSome result (λ r. (vs : List Value) × (o.triples ≡ placed_from 0 vs) × (slice_get vs place ≡ Some (value_of r))
            × (self.new.slots ≡ slice_set self.old.slots n (Here (record o { triples = placed_from 0 (remove vs place) })))) }
        ensures some { IsSome result ↔ (place < length (triples_at self.old array)) }
        ensures below { (n : ℕ) → array ≡ Ref.Local n → IsLedAlso [] n self.old.below self.new.below }
        ensures within { IfSome result (λ r. IsWithin (length self.old.slots) r) }
        ensures known { IfSome result (λ r. IsKnownTo self.old r) }
        ensures keys { self.new.keys ≡ self.old.keys }
        ensures rest { IsRestKept self.old self.new }
        ensures none { IfNone result (self.new ≡ self.old) }
    {
        match array {
            Ref::Local(slot) => take_element_at(&mut self.slots, slot as usize, place),
            _ => None,
        }
    }
}

/// Puts `value` in the place of an element of the array in a slot, which is changed where it lies.
#[inline(always)]
fn write_element_at(slots: &mut Vec<Held>, slot: usize, place: usize, value: Ref)
    requires { slot < vec_len slots.old }
    ensures { IsSlotRewritten (λ a b. IsElementWritten a b place value) slot slots.old.items slots.new.items }
{
    change_at(
        slots,
        slot,
        |held: &mut Held| held.write_element(place, value),
    )
}

/// Puts `value` behind the elements of the array in a slot, which is changed where it lies.
#[inline(always)]
fn push_element_at(slots: &mut Vec<Held>, slot: usize, value: Ref) -> Result<(), Fault>
    requires { slot < vec_len slots.old }
    ensures written { IsSlotRewritten (λ a b. IsElementPushed a b value result) slot slots.old.items slots.new.items }
    ensures fault { IfErr result (λ e. e ≡ Fault.Memory) }
{
    change_at(slots, slot, |held: &mut Held| held.push_element(value))
}

/// Takes an element out of the array in a slot, which is changed where it lies.
#[inline(always)]
fn take_element_at(slots: &mut Vec<Held>, slot: usize, place: usize) -> Option<Ref>
    requires { slot < vec_len slots.old }
    ensures { IsSlotRewritten (λ a b. IsElementTaken a b place result) slot slots.old.items slots.new.items }
{
    change_at(slots, slot, |held: &mut Held| held.take_element(place))
}

impl Held {
    /// Puts `value` in the place of an element, if it is an array that has it.
    #[inline(always)]
    fn write_element(&mut self, place: usize, value: Ref)
        ensures { IsHeldRewritten (λ a b. IsElementWritten a b place value) self.old self.new }
    {
        if let Held::Whole(_, node) = self {
            node.write_element(place, value)
        }
    }

    /// Puts `value` behind the elements of an array, if it is one.
    #[inline(always)]
    fn push_element(&mut self, value: Ref) -> Result<(), Fault>
        ensures written { IsHeldRewritten (λ a b. IsElementPushed a b value result) self.old self.new }
        ensures fault { IfErr result (λ e. e ≡ Fault.Memory) }
    {
        match self {
            Held::Whole(_, node) => node.push_element(value),
            _ => Ok(()),
        }
    }

    /// Takes an element out of an array, if it is one and has it.
    #[inline(always)]
    fn take_element(&mut self, place: usize) -> Option<Ref>
        ensures { IsHeldRewritten (λ a b. IsElementTaken a b place result) self.old self.new }
    {
        match self {
            Held::Whole(_, node) => node.take_element(place),
            _ => None,
        }
    }
}

impl Node {
    /// Puts `value` in the place of an element of an array; leaves the node as it is where it is none or has no such element.
    #[inline(always)]
    fn write_element(&mut self, place: usize, value: Ref)
        ensures { IsElementWritten self.old self.new place value }
    {
        if let Node::Array(items) = self {
            if place < items.len() {
                items.set(place, value);
            }
        }
    }

    /// Puts `value` behind the elements of an array, and says whether there was memory for it; leaves the node as it is
    /// where it is none.
    #[inline(always)]
    fn push_element(&mut self, value: Ref) -> Result<(), Fault>
        ensures written { IsElementPushed self.old self.new value result }
        ensures fault { IfErr result (λ e. e ≡ Fault.Memory) }
    {
        match self {
            Node::Array(items) => items.push(value),
            _ => Ok(()),
        }
    }

    /// Takes an element out of an array, and gives it; leaves the node as it is where it is none or has no such element.
    #[inline(always)]
    fn take_element(&mut self, place: usize) -> Option<Ref>
        ensures { IsElementTaken self.old self.new place result }
    {
        match self {
            Node::Array(items) => match items.get(place) {
                Some(taken) => {
                    items.remove(place);
                    Some(taken)
                }
                None => None,
            },
            _ => None,
        }
    }
}
