//! What objects lead to, one reference at a time, and when two values are the same.

ghost use Rattle.std.specs.Prelude.{◌≡◌, ◌↔◌, ◌⊎◌, ℕ, List, length, map, slice_get, Contains, IsTrue, IfSome, IfNone};
ghost use Rattle.std.specs.Option.{option_map};
ghost use Rattle.rr_space.specs.Graph.{Object, Value, Field};
ghost use Rattle.rr_space.specs.Parts.{IsWithin, AllWithin};
ghost use Rattle.rr_space.specs.Tables.{below_hold, joined, resolve, outer_objects};
ghost use Rattle.rr_space.specs.Parts.{below_parts, below_ref, field_part, value_of, value_triple};
ghost use Rattle.rr_space.specs.Views.{can_freeze_at, can_write_at, frozen_at, is_frozen_here, IsKnownFrom};
ghost use Rattle.rr_space.specs.Labels.{label_of, labelled_value, triples_at, triples_of, IsFirstUnder, IsPlacedAt, AreLabelsPlaced};

use crate::fields::field_named;
use crate::label::Label;
use crate::node::{Held, Node};
use crate::refer::{Cluster, Ref};
use crate::space::Space;
use rr_base::Sym;

impl Space {
    /// The number of references in the object that `value` leads to; 0 for an immediate. Each but a field has the place that
    /// its label names.
    #[inline(always)]
    pub fn arity(&self, value: Ref) -> usize
        ensures count { result ≡ length (triples_at self.now value) }
        ensures placed { AreLabelsPlaced (triples_at self.now value) }
    {
        match value {
            Ref::Local(slot) => {
                if slot as usize >= self.slots.len() {
                    return 0;
                }
                match &self.slots[slot as usize] {
                    Held::Whole(_, node) => node.arity(),
                    Held::Shell => 0,
                    Held::Forward(place, cluster) => cluster.arity(*place),
                }
            }
            Ref::Shared(place, cluster) => cluster.arity(place),
            _ => 0,
        }
    }

    /// The `k`-th reference in the object that `value` leads to, with its label; none past the last, or for an immediate.
    #[inline(always)]
    pub fn part(&self, value: Ref, k: usize) -> Option<(Label, Ref)>
        ensures part { option_map labelled_value result ≡ slice_get (triples_at self.now value) k }
        ensures within { IfSome result (λ p. IsWithin (length self.now.slots) p.1) }
        ensures known { IfSome result (λ p. IsKnownFrom self.now value p.1) }
    {
        match value {
            Ref::Local(slot) => {
                if slot as usize >= self.slots.len() {
                    return None;
                }
                match &self.slots[slot as usize] {
                    Held::Whole(_, node) => node.part(k),
                    Held::Shell => None,
                    Held::Forward(place, cluster) => part_outside(cluster, *place, k),
                }
            }
            Ref::Shared(place, cluster) => part_outside(cluster, place, k),
            _ => None,
        }
    }

    /// What stands under `label` in the object that `value` leads to, if anything does. A field is looked for, and all else
    /// is where its label says.
    #[inline(always)]
    pub fn read(&self, value: Ref, label: Label) -> Option<Ref>
        ensures some { IfSome result (λ r. Contains (triples_at self.now value) (label_of label, value_of r)) }
        ensures first { IfSome result (λ r. IsFirstUnder (triples_at self.now value) (label_of label) (value_of r)) }
        ensures within { IfSome result (λ r. IsWithin (length self.now.slots) r) }
        ensures known { IfSome result (λ r. IsKnownFrom self.now value r) }
        ensures none { IfNone result ((x : Value) → Contains (triples_at self.now value) (label_of label, x) → ⊥) }
    {
        if let Label::Field(name) = label {
            return self.read_field(value, name);
        }
        match place_of(label) {
            Some(place) => self.read_at(value, label, place),
            None => self.search(value, label),
        }
    }

    /// What stands under a field. A plain object in a slot of this space is the usual one, and its fields are looked
    /// through as they lie, with no label made of each.
    #[inline(always)]
    fn read_field(&self, value: Ref, name: Sym) -> Option<Ref>
        ensures some { IfSome result (λ r. Contains (triples_at self.now value) (Field name.0, value_of r)) }
        ensures first { IfSome result (λ r. IsFirstUnder (triples_at self.now value) (Field name.0) (value_of r)) }
        ensures within { IfSome result (λ r. IsWithin (length self.now.slots) r) }
        ensures known { IfSome result (λ r. IsKnownFrom self.now value r) }
        ensures none { IfNone result ((x : Value) → Contains (triples_at self.now value) (Field name.0, x) → ⊥) }
    {
        match self.own_fields(value) {
            Some(fields) => field_named(fields, name),
            None => self.search(value, Label::Field(name)),
        }
    }

    /// The fields of the plain object in the slot that `value` names; none of anything else.
    #[inline(always)]
    fn own_fields(&self, value: Ref) -> Option<&[(Sym, Ref)]>
        ensures triples { IfSome result (λ fs. triples_at self.now value ≡ map value_triple (map field_part fs.now)) }
        ensures within { IfSome result (λ fs. AllWithin (length self.now.slots) (map field_part fs.now)) }
        ensures known { IfSome result (λ fs. (e : ℕ × List Object) → Contains (below_parts (map field_part fs.now)) e → Contains (joined self.now.below) e) }
    {
        if let Ref::Local(slot) = value {
            if (slot as usize) < self.slots.len() {
                if let Held::Whole(_, Node::Object(_, fields)) = &self.slots[slot as usize] {
                    return Some(fields);
                }
            }
        }
        None
    }

    /// What stands under `label`, which can stand at `place` alone.
    fn read_at(&self, value: Ref, label: Label, place: usize) -> Option<Ref>
        requires { (j : ℕ) → IsPlacedAt (label_of label) j → j ≡ place }
        ensures some { IfSome result (λ r. Contains (triples_at self.now value) (label_of label, value_of r)) }
        ensures first { IfSome result (λ r. IsFirstUnder (triples_at self.now value) (label_of label) (value_of r)) }
        ensures within { IfSome result (λ r. IsWithin (length self.now.slots) r) }
        ensures known { IfSome result (λ r. IsKnownFrom self.now value r) }
        ensures none { IfNone result ((x : Value) → Contains (triples_at self.now value) (label_of label, x) → ⊥) }
    {
        // No label stands anywhere but at its place, as the clause of the number says.
        let _count = self.arity(value);
        match self.part(value, place) {
            Some((at, found)) => { if at == label { Some(found) } else { None } }
            None => None,
        }
    }

    /// What stands under `label`, tried one by one.
    fn search(&self, value: Ref, label: Label) -> Option<Ref>
        ensures some { IfSome result (λ r. Contains (triples_at self.now value) (label_of label, value_of r)) }
        ensures first { IfSome result (λ r. IsFirstUnder (triples_at self.now value) (label_of label) (value_of r)) }
        ensures within { IfSome result (λ r. IsWithin (length self.now.slots) r) }
        ensures known { IfSome result (λ r. IsKnownFrom self.now value r) }
        ensures none { IfNone result ((x : Value) → Contains (triples_at self.now value) (label_of label, x) → ⊥) }
    {
        for k in 0..self.arity(value) {
            if let Some((at, found)) = self.part(value, k) {
                if at == label {
                    return Some(found);
                }
            }
        }
        None
    }

    /// The value itself, or where `value` is a slot that was published since, the published object.
    pub fn resolve(&self, value: Ref) -> Ref
        ensures value { value_of result ≡ resolve self.now.slots (value_of value) }
        ensures within { IsWithin (length self.now.slots) value → IsWithin (length self.now.slots) result }
        ensures below { IsKnownFrom self.now value result }
    {
        match value {
            Ref::Local(slot) => {
                if slot as usize >= self.slots.len() {
                    return value;
                }
                match &self.slots[slot as usize] {
                    Held::Forward(place, cluster) => Ref::Shared(*place, cluster),
                    Held::Whole(_, _) => value,
                    Held::Shell => value,
                }
            }
            _ => value,
        }
    }

    /// Whether the two are one immediate or one object. Objects of equal contents are not the same.
    pub fn same(&self, left: Ref, right: Ref) -> bool
        ensures { IsTrue result ↔ (resolve self.now.slots (value_of left) ≡ resolve self.now.slots (value_of right)) }
    {
        self.resolve(left).name() == self.resolve(right).name()
    }

    /// Whether `value` is an immediate or leads to a frozen object. A shell is not frozen.
    pub fn is_frozen(&self, value: Ref) -> bool
        ensures { result ≡ frozen_at self.now value }
    {
        match value {
            Ref::Local(slot) => match self.slots.get(slot as usize) {
                Some(Held::Whole(frozen, _)) => *frozen,
                Some(Held::Shell) => false,
                Some(Held::Forward(place, cluster)) => cluster.has(*place),
                None => false,
            },
            Ref::Shared(place, cluster) => cluster.has(place),
            _ => true,
        }
    }

    /// Whether `value` is an object of this space that may be frozen: no shell, and not published.
    pub fn can_freeze(&self, value: Ref) -> bool
        ensures { result ≡ can_freeze_at self.now value }
    {
        match value {
            Ref::Local(slot) => matches!(self.slots.get(slot as usize), Some(Held::Whole(_, _))),
            _ => false,
        }
    }

    /// Whether there is a frozen object of this space in the slot, which may become a forward.
    pub fn can_forward(&self, slot: u32) -> bool
        ensures { result ≡ is_frozen_here (slice_get self.now.slots slot) }
    {
        match self.slots.get(slot as usize) {
            Some(Held::Whole(frozen, _)) => *frozen,
            _ => false,
        }
    }

    /// Whether `value` is an object of this space that may be written: no shell, not frozen, and not published.
    pub fn can_write(&self, value: Ref) -> bool
        ensures { result ≡ can_write_at self.now value }
    {
        match value {
            Ref::Local(slot) => matches!(
                self.slots.get(slot as usize),
                Some(Held::Whole(false, _))
            ),
            _ => false,
        }
    }
}

/// The one place at which the label can stand; none for a field, and for a place beyond all numbers.
fn place_of(label: Label) -> Option<usize>
    ensures { IfSome result (λ place. (j : ℕ) → IsPlacedAt (label_of label) j → j ≡ place) }
{
    match label {
        Label::Place(place) => Some(place),
        Label::Key(pair) => pair.checked_mul(2),
        Label::Value(pair) => pair.checked_mul(2)?.checked_add(1),
        Label::Message => Some(0),
        Label::Cause => Some(1),
        Label::Ractor => Some(2),
        Label::Field(_) => None,
    }
}

/// The `k`-th reference in the object under `place`, as it is seen from outside of the cluster.
fn part_outside(cluster: &'static Cluster, place: u32, k: usize) -> Option<(Label, Ref)>
    ensures part { option_map labelled_value result ≡ slice_get (triples_of (slice_get (outer_objects cluster.now) place)) k }
    ensures within { (n : ℕ) → IfSome result (λ p. IsWithin n p.1) }
    ensures below { IfSome result (λ p. (e : ℕ × List Object) → Contains (below_ref p.1) e → Contains (below_hold cluster.now) e) }
{
    let (label, value) = cluster.part(place, k)?;
    Some((label, cluster.outward(value)))
}
