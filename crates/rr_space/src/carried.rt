//! Objects that leave a space as a copy.

ghost use Rattle.std.specs.Prelude.{◌≡◌, ◌≤◌, ◌⊎◌, ◌^◌, ℕ, [], length, List, Some, slice_get, Contains, IsTrue, IfOk, IfErr, OnOk};
ghost use Rattle.std.specs.List.{AllZip};
ghost use Rattle.rr_base.specs.declared.name.Sym.{Sym as SymView};
ghost use Rattle.rr_space.specs.Graph.{Object, Own, At, Label};
ghost use Rattle.rr_space.specs.Graph.{Matches, SameValue, IsAt};
ghost use Rattle.rr_space.specs.Parts.{value_of, below_ref, raised_parts};
ghost use Rattle.rr_space.specs.Tables.{Here, joined, resolve, resolve_object};
ghost use Rattle.rr_space.specs.Views.{below_node, key_of, node_keys, node_parts, is_whole, IsWithin, IsNodeWithin, IsHeadKept};
ghost use Rattle.rr_space.specs.Views.{carried_object, IsKnown, IsCarried, IsCarriedPart, IsCarriedField, IsCarriedEntry};
ghost use Rattle.rr_space.specs.declared.node.Key.{Key as KeyView};
ghost use Rattle.rr_space.specs.declared.refer.Ref.{Ref as RefView};

use crate::items::Items;
use crate::node::{Entries, Held, Key, Node};
use crate::refer::{Raised, Ref};
use crate::slot_set::SlotSet;
use crate::space::Space;
use indexmap::IndexMap;
use rr_base::{Fault, Sym};
use std::alloc::Global;

/// An object on its way from one space to another. A `Ref::Local` in it is a place among the objects that go with it.
#[derive(Drop)]
pub struct Carried {
    pub frozen: bool,
    pub node: Node,
}

impl Space {
    /// The value as those see it who go with it: an object of this space is named by its place among `names`, in which
    /// it stands.
    pub fn carried(&self, value: Ref, names: &SlotSet) -> Ref
        requires known { (m : ℕ) → resolve self.now.slots (value_of value) ≡ At (Own m) → Contains names.now m }
        requires few { length names.now ≤ 2 ^ 32 }
        ensures same { SameValue (IsAt names.now) (resolve self.now.slots (value_of value)) (value_of result) }
        ensures within { IsWithin (length self.now.slots) value → IsWithin (length names.now) result }
        ensures below { (e : ℕ × List Object) → Contains (below_ref result) e → Contains (joined self.now.below) e ⊎ Contains (below_ref value) e }
    {
        match self.resolve(value) {
            Ref::Local(slot) => Ref::Local(names.place_of(slot) as u32),
            other => other,
        }
    }

    /// A copy of the object in `slot`, whose references to objects of this space are their places among `names`.
    /// `Memory` is the only fault.
    pub fn copy_object(&self, alloc: Global, slot: u32, names: &SlotSet) -> Result<Carried, Fault>
        requires whole { IsTrue (is_whole (slice_get self.now.slots slot)) }
        requires known { (o : Object) (l : Label) (m : ℕ) → slice_get self.now.slots slot ≡ Some (Here o) → Contains (resolve_object self.now.slots o).triples (l, At (Own m)) → Contains names.now m }
        requires few { length names.now ≤ 2 ^ 32 }
        ensures matches { IfOk result (λ c. (o : Object) → slice_get self.now.slots slot ≡ Some (Here o) → Matches (IsAt names.now) (resolve_object self.now.slots o) (carried_object c)) }
        ensures within { IfOk result (λ c. IsNodeWithin (length names.now) c.node) }
        ensures below { IfOk result (λ c. (e : ℕ × List Object) → Contains (below_node c.node) e → Contains (joined self.now.below) e) }
        ensures keys { IfOk result (λ c. slice_get self.now.keys slot ≡ Some (node_keys c.node)) }
        ensures fault { IfErr result (λ e. e ≡ Fault.Memory) }
    {
        match &self.slots[slot as usize] {
            Held::Whole(frozen, node) => Ok(Carried {
                frozen: *frozen,
                node: self.carried_node(alloc, node, names)?,
            }),
            _ => unreachable!(),
        }
    }

    /// A copy of the node, with its references as `carried` gives them.
    fn carried_node(&self, alloc: Global, node: &Node, names: &SlotSet) -> Result<Node, Fault>
        requires known { (k : ℕ) (p : Label × RefView) → slice_get (node_parts node.now) k ≡ Some p → IsKnown self.now names.now p.1 }
        requires few { length names.now ≤ 2 ^ 32 }
        ensures parts { IfOk result (λ copy. AllZip (IsCarriedPart self.now names.now) (node_parts node.now) (node_parts copy)) }
        ensures head { IfOk result (λ copy. IsHeadKept node.now copy) }
        ensures fault { IfErr result (λ e. e ≡ Fault.Memory) }
    {
        match node {
            Node::Text(bytes) => Ok(Node::Text(Vec::from_slice(alloc, bytes)?)),
            Node::Array(items) => Ok(Node::Array(self.carried_items(alloc, items, names)?)),
            Node::Hash(entries) => Ok(Node::Hash(self.carried_entries(alloc, entries, names)?)),
            Node::Object(class, fields) => {
                let fields = self.carried_fields(alloc, fields, names)?;
                Ok(Node::Object(*class, fields))
            }
            Node::Exception(class, raised) => {
                let raised = self.carried_raised(alloc, raised, names)?;
                Ok(Node::Exception(*class, raised))
            }
        }
    }

    /// The elements of an array, as `carried` gives them.
    fn carried_items(&self, alloc: Global, items: &Items, names: &SlotSet) -> Result<Items, Fault>
        requires known { (k : ℕ) (r : RefView) → slice_get items.now k ≡ Some r → IsKnown self.now names.now r }
        requires few { length names.now ≤ 2 ^ 32 }
        ensures items { IfOk result (λ copy. AllZip (IsCarried self.now names.now) items.now copy) }
        ensures fault { IfErr result (λ e. e ≡ Fault.Memory) }
    {
        if items.len() > 2 {
            return Ok(Items::from_vec(self.carried_elements(alloc, items, names)?));
        }
        let Some(first) = items.get(0) else {
            return Ok(Items::new(alloc));
        };
        let first = self.carried(first, names);
        match items.get(1) {
            Some(second) => Ok(Items::two(alloc, first, self.carried(second, names))),
            None => Ok(Items::one(alloc, first)),
        }
    }

    /// The elements of an array, as `carried` gives them, in memory of their own.
    fn carried_elements(
        &self,
        alloc: Global,
        items: &Items,
        names: &SlotSet,
    ) -> Result<Vec<Ref>, Fault>
        requires known { (k : ℕ) (r : RefView) → slice_get items.now k ≡ Some r → IsKnown self.now names.now r }
        requires few { length names.now ≤ 2 ^ 32 }
        ensures items { IfOk result (λ copies. AllZip (IsCarried self.now names.now) items.now copies.items) }
        ensures fault { IfErr result (λ e. e ≡ Fault.Memory) }
    {
        let mut copies = Vec::with_capacity(alloc, items.len())?;
        for k in 0..items.len() {
            if let Some(item) = items.get(k) {
                copies.push(self.carried(item, names))?;
            }
        }
        Ok(copies)
    }

    /// The fields, with their values as `carried` gives them.
    fn carried_fields(
        &self,
        alloc: Global,
        fields: &[(Sym, Ref)],
        names: &SlotSet,
    ) -> Result<Vec<(Sym, Ref)>, Fault>
        requires known { (k : ℕ) (f : SymView × RefView) → slice_get fields.now k ≡ Some f → IsKnown self.now names.now f.1 }
        requires few { length names.now ≤ 2 ^ 32 }
        ensures fields { IfOk result (λ copies. AllZip (IsCarriedField self.now names.now) fields.now copies.items) }
        ensures fault { IfErr result (λ e. e ≡ Fault.Memory) }
    {
        let mut copies = Vec::with_capacity(alloc, fields.len())?;
        for field in fields {
            copies.push((field.0, self.carried(field.1, names)))?;
        }
        Ok(copies)
    }

    /// What an exception has beside its class, with the references as `carried` gives them.
    fn carried_raised(
        &self,
        alloc: Global,
        raised: &Raised,
        names: &SlotSet,
    ) -> Result<Box<Raised>, Fault>
        requires known { (k : ℕ) (p : Label × RefView) → slice_get (raised_parts raised.now) k ≡ Some p → IsKnown self.now names.now p.1 }
        requires few { length names.now ≤ 2 ^ 32 }
        ensures parts { IfOk result (λ copy. AllZip (IsCarriedPart self.now names.now) (raised_parts raised.now) (raised_parts copy.value)) }
        ensures fault { IfErr result (λ e. e ≡ Fault.Memory) }
    {
        let fields = self.carried_fields(alloc, &raised.fields, names)?;
        let copy = Raised {
            message: self.carried(raised.message, names),
            cause: self.carried(raised.cause, names),
            ractor: self.carried(raised.ractor, names),
            fields,
        };
        Ok(Box::new(alloc, copy)?)
    }

    /// The pairs of a hash in their order, with their keys, and with the references as `carried` gives them.
    fn carried_entries(
        &self,
        alloc: Global,
        entries: &Entries,
        names: &SlotSet,
    ) -> Result<Box<Entries>, Fault>
        requires known { (k : ℕ) (e : KeyView × (RefView × RefView)) → slice_get entries.now.entries k ≡ Some e → IsKnown self.now names.now e.1.0 × IsKnown self.now names.now e.1.1 }
        requires few { length names.now ≤ 2 ^ 32 }
        ensures entries { IfOk result (λ copy. AllZip (IsCarriedEntry self.now names.now) entries.now.entries copy.value.entries) }
        ensures fault { IfErr result (λ e. e ≡ Fault.Memory) }
    {
        let mut copies = IndexMap::with_capacity(alloc, entries.len())?;
        self.carry_pairs(alloc, entries, names, &mut copies)?;
        Ok(Box::new(alloc, copies)?)
    }

    /// Puts the pairs of a hash into one without pairs.
    fn carry_pairs(
        &self,
        alloc: Global,
        entries: &Entries,
        names: &SlotSet,
        copies: &mut Entries,
    ) -> Result<(), Fault>
        requires known { (k : ℕ) (e : KeyView × (RefView × RefView)) → slice_get entries.now.entries k ≡ Some e → IsKnown self.now names.now e.1.0 × IsKnown self.now names.now e.1.1 }
        requires few { length names.now ≤ 2 ^ 32 }
        requires empty { copies.old.entries ≡ [] }
        ensures entries { OnOk result (AllZip (IsCarriedEntry self.now names.now) entries.now.entries copies.new.entries) }
        ensures fault { IfErr result (λ e. e ≡ Fault.Memory) }
    {
        for k in 0..entries.len() {
            if let Some((key, pair)) = entries.get_index(k) {
                let name = self.carried(pair.0, names);
                let value = self.carried(pair.1, names);
                copies.insert(key.copied(alloc)?, (name, value))?;
            }
        }
        Ok(())
    }
}

impl Key {
    /// The same key, with its bytes in memory of their own.
    fn copied(&self, alloc: Global) -> Result<Key, Fault>
        ensures same { IfOk result (λ copy. key_of copy ≡ key_of self.now) }
        ensures fault { IfErr result (λ e. e ≡ Fault.Memory) }
    {
        match self {
            Key::Nil => Ok(Key::Nil),
            Key::Truth(holds) => Ok(Key::Truth(*holds)),
            Key::Int(number) => Ok(Key::Int(*number)),
            Key::Symbol(symbol) => Ok(Key::Symbol(*symbol)),
            Key::Class(class) => Ok(Key::Class(*class)),
            Key::Ractor(ractor) => Ok(Key::Ractor(*ractor)),
            Key::Text(bytes) => Ok(Key::Text(Vec::from_slice(alloc, bytes)?)),
        }
    }
}
