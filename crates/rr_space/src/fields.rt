//! The fields of plain objects and of exceptions: what finds one and what sets one.

ghost use Rattle.std.specs.Prelude.{◌≡◌, ℕ, ◌+◌, ◌<◌, ◌⊎◌, [], ◌∷◌, ◌++◌, length, map, Some, slice_get, slice_set, vec_len, Contains, IsTrue, IsOk, IfOk, IfErr, IfSome, IfNone, MatchOption};
ghost use Rattle.rr_space.specs.Graph.{Object, Field};
ghost use Rattle.rr_space.specs.Tables.{Here, IsRestKept};
ghost use Rattle.rr_space.specs.Parts.{value_of, field_part};
ghost use Rattle.rr_space.specs.Views.{can_write_at, IsWithin, IsLedBy};
ghost use Rattle.rr_space.specs.Writes.{IsHeldRewritten, IsSlotRewritten, IsFieldWritten};
ghost use Rattle.rr_space.specs.Views.{IsFirstAt, label_part, field_names};
ghost use Rattle.rr_space.specs.Kinds.{kind_at};

use crate::kind::Kind;
use crate::node::{Held, Node};
use crate::refer::Ref;
use crate::replace::{change_at, replace_at};
use crate::space::Space;
use rr_base::{Fault, Sym};

impl Space {
    /// Sets a field of a plain object or an exception: the first of that name, or a new one behind the others.
    /// `can_write` tells whether `object` may be written.
    ///
    /// Answers `Fault::Memory` where a growth was refused; a field that is there needs none.
    pub fn write_field(&mut self, object: Ref, name: Sym, value: Ref) -> Result<(), Fault>
        requires can { IsTrue (can_write_at self.old object) }
        requires kind { (kind_at self.old object ≡ Kind.Object) ⊎ (kind_at self.old object ≡ Kind.Exception) }
        requires within { IsWithin (length self.old.slots) value }
        ensures present { (n i : ℕ) (o : Object) → object ≡ Ref.Local n → slice_get self.old.slots n ≡ Some (Here o) → IsFirstAt (map label_part o.triples) (Field name.0) i
            → IsOk result × (self.new.slots ≡ slice_set self.old.slots n (Here (record o { triples = slice_set o.triples i (Field name.0, value_of value) }))) }
        ensures absent { (n : ℕ) (o : Object) → object ≡ Ref.Local n → slice_get self.old.slots n ≡ Some (Here o) → (Contains (map label_part o.triples) (Field name.0) → ⊥)
            → IfOk result (λ _. self.new.slots ≡ slice_set self.old.slots n (Here (record o { triples = o.triples ++ (Field name.0, value_of value) ∷ [] }))) }
        ensures below { (n : ℕ) → object ≡ Ref.Local n → IfOk result (λ _. IsLedBy value n self.old.below self.new.below) }
        ensures keys { self.new.keys ≡ self.old.keys }
        ensures rest { IsRestKept self.old self.new }
        ensures refused { IfErr result (λ _. self.new ≡ self.old) }
        ensures fault { IfErr result (λ e. e ≡ Fault.Memory) }
    {
        match object {
            Ref::Local(slot) => write_field_at(&mut self.slots, slot as usize, name, value),
            _ => Ok(()),
        }
    }
}

/// Sets a field of the object in a slot. The object is changed where it lies: to take it out and to put it back would move
/// all of it twice.
#[inline(always)]
fn write_field_at(slots: &mut Vec<Held>, slot: usize, name: Sym, value: Ref) -> Result<(), Fault>
    requires { slot < vec_len slots.old }
    ensures written { IsSlotRewritten (λ a b. IsFieldWritten a b name.0 value result) slot slots.old.items slots.new.items }
    ensures fault { IfErr result (λ e. e ≡ Fault.Memory) }
{
    change_at(slots, slot, |held: &mut Held| held.write_field(name, value))
}

impl Held {
    /// Sets a field of the object, if there is one.
    #[inline(always)]
    fn write_field(&mut self, name: Sym, value: Ref) -> Result<(), Fault>
        ensures written { IsHeldRewritten (λ a b. IsFieldWritten a b name.0 value result) self.old self.new }
        ensures fault { IfErr result (λ e. e ≡ Fault.Memory) }
    {
        match self {
            Held::Whole(_, node) => node.write_field(name, value),
            _ => Ok(()),
        }
    }
}

impl Node {
    /// Puts `value` into a field of a plain object or an exception, and says whether there was memory for it; leaves the
    /// node as it is where it is neither.
    #[inline(always)]
    fn write_field(&mut self, name: Sym, value: Ref) -> Result<(), Fault>
        ensures written { IsFieldWritten self.old self.new name.0 value result }
        ensures fault { IfErr result (λ e. e ≡ Fault.Memory) }
    {
        match self {
            Node::Object(_, fields) => set_field(fields, name, value),
            Node::Exception(_, raised) => set_field(&mut raised.fields, name, value),
            _ => Ok(()),
        }
    }
}

/// Sets the first field of that name, or a new one behind the others.
fn set_field(fields: &mut Vec<(Sym, Ref)>, name: Sym, value: Ref) -> Result<(), Fault>
    ensures present { (i : ℕ) → IsFirstAt (field_names fields.old.items) name.0 i → IsOk result × (fields.new.items ≡ slice_set fields.old.items i (name, value)) }
    ensures absent { (Contains (field_names fields.old.items) name.0 → ⊥) → IfOk result (λ _. fields.new.items ≡ fields.old.items ++ (name, value) ∷ []) }
    ensures refused { IfErr result (λ _. fields.new.items ≡ fields.old.items) }
    ensures fault { IfErr result (λ e. e ≡ Fault.Memory) }
{
    match place_of_field(fields, name) {
        Some(place) => {
            replace_at(fields, place, (name, value));
            Ok(())
        }
        None => {
            fields.push((name, value))?;
            Ok(())
        }
    }
}

/// The value of the first field of that name.
#[inline(always)]
pub(crate) fn field_named(fields: &[(Sym, Ref)], name: Sym) -> Option<Ref>
    ensures some { IfSome result (λ r. (k : ℕ) × IsFirstAt (field_names fields.now) name.0 k × (slice_get (map field_part fields.now) k ≡ Some (Field name.0, r))) }
    ensures none { IfNone result (Contains (field_names fields.now) name.0 → ⊥) }
{
    match place_of_field(fields, name) {
        Some(place) => Some(fields[place].1),
        None => None,
    }
}

/// The place of the first field of that name.
#[inline(always)]
fn place_of_field(fields: &[(Sym, Ref)], name: Sym) -> Option<usize>
    ensures { MatchOption result (Contains (field_names fields.now) name.0 → ⊥) (IsFirstAt (field_names fields.now) name.0) }
{
    for k in 0..fields.len() {
        if fields[k].0 == name {
            return Some(k);
        }
    }
    None
}
