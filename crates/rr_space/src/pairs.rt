//! The pairs of hashes: which pair a key has, and what sets one and takes one away.

ghost use Rattle.std.specs.Prelude.{◌≡◌, ◌<◌, ◌+◌, ◌*◌, ◌↔◌, ℕ, List, [], ◌∷◌, ◌++◌, length, remove, Some, slice_get, slice_set, Contains, IsTrue, IsOk, IsSome, IfOk, IfErr, IfSome, IfNone, MatchOption, vec_len, ◌≤◌, ◌⊎◌, take};
ghost use Rattle.rr_space.specs.Graph.{Object, Value, KeyAt, ValueAt, At, Own, Label as LabelView};
ghost use Rattle.rr_space.specs.Graph.{hash as hash_kind};
ghost use Rattle.rr_space.specs.Lookups.{frozen_text, IsOneEach, IsPairOf, AreDistinct, key_at, published_object, below_of};
ghost use Rattle.rr_space.specs.Tables.{Here, HashKey, TextKey, IsRestKept, IsBelow};
ghost use Rattle.rr_space.specs.Parts.{value_of, below_ref};
ghost use Rattle.rr_space.specs.Views.{key_of, can_write_at, IsKnownTo, IsWithin, IsLedAlso};
ghost use Rattle.rr_space.specs.Views.{IsFirstAt, paired_from, pair_values, keys_at};
ghost use Rattle.rr_space.specs.Kinds.{kind_at};
ghost use Rattle.rr_space.specs.Writes.{IsHeldRewritten, IsSlotRewritten, IsPairWritten};
ghost use Rattle.rr_space.specs.Labels.{triples_at, IsPairThere};

use crate::kind::Kind;
use crate::node::{Held, Key, Node};
use crate::refer::Ref;
use crate::replace::change_at;
use crate::space::Space;
use rr_base::{Fault, LimitKind};
use std::alloc::Global;

impl Space {
    /// The place of the pair of a hash that has this key, in order of insertion; none where the hash has no such pair. A
    /// published hash of many pairs has an index; one of few is searched pair by pair.
    pub fn find(&self, hash: Ref, key: &Key) -> Option<usize>
        ensures own { (ks : List HashKey) → keys_at self.now hash ≡ Some ks → MatchOption result (Contains ks (key_of key.now) → ⊥) (IsFirstAt ks (key_of key.now)) }
        ensures none { (kind_at self.now hash ≡ Kind.Hash → ⊥) → result ≡ None }
        ensures there { IfSome result (λ i. IsPairThere (triples_at self.now hash) i) }
        ensures distinct { (ks : List HashKey) → keys_at self.now hash ≡ Some ks → AreDistinct ks }
        ensures published { (o : Object) → published_object self.now hash ≡ Some o → o.kind ≡ hash_kind → IsOneEach (below_of self.now hash) → IsPairOf (below_of self.now hash) o.triples (key_of key.now) result }
    {
        match hash {
            Ref::Local(slot) => {
                if slot as usize >= self.slots.len() {
                    return None;
                }
                match &self.slots[slot as usize] {
                    Held::Whole(_, node) => node.place_of(key),
                    Held::Shell => None,
                    Held::Forward(place, cluster) => cluster.find(*place, key),
                }
            }
            Ref::Shared(place, cluster) => cluster.find(place, key),
            _ => None,
        }
    }

    /// Gives `key` the value `value` in a hash: in its pair where the hash has one, and else in a new pair behind the
    /// others, whose key is `name`. `can_write` tells whether `hash` may be written, and `is_key` whether `name` is the key,
    /// which is asked where the hash has no such pair.
    ///
    /// Answers `Fault::Memory` where a growth was refused; a key that is there needs none.
    pub fn write_pair(&mut self, hash: Ref, key: Key, name: Ref, value: Ref) -> Result<(), Fault>
        requires can { IsTrue (can_write_at self.old hash) }
        requires kind { kind_at self.old hash ≡ Kind.Hash }
        requires name { IsWithin (length self.old.slots) name }
        requires named { (ks : List HashKey) → keys_at self.old hash ≡ Some ks → (Contains ks (key_of key) → ⊥) → key_at self.old name ≡ Some (key_of key) }
        requires value { IsWithin (length self.old.slots) value }
        ensures present { (n i : ℕ) (o : Object) (ks : List HashKey) → hash ≡ Ref.Local n → slice_get self.old.slots n ≡ Some (Here o) → slice_get self.old.keys n ≡ Some ks → IsFirstAt ks (key_of key) i
            → IsOk result × (self.new.slots ≡ slice_set self.old.slots n (Here (record o { triples = slice_set o.triples (2 * i + 1) (ValueAt i, value_of value) }))) × (self.new.keys ≡ self.old.keys) }
        ensures absent { (n : ℕ) (o : Object) (ks : List HashKey) → hash ≡ Ref.Local n → slice_get self.old.slots n ≡ Some (Here o) → slice_get self.old.keys n ≡ Some ks → (Contains ks (key_of key) → ⊥)
            → IfOk result (λ _. (self.new.slots ≡ slice_set self.old.slots n (Here (record o { triples = o.triples ++ (KeyAt (length ks), value_of name) ∷ (ValueAt (length ks), value_of value) ∷ [] }))) × (self.new.keys ≡ slice_set self.old.keys n (ks ++ key_of key ∷ []))) }
        ensures below { (n : ℕ) → hash ≡ Ref.Local n → IfOk result (λ _. IsLedAlso (below_ref name ++ below_ref value) n self.old.below self.new.below) }
        ensures rest { IsRestKept self.old self.new }
        ensures refused { IfErr result (λ _. self.new ≡ self.old) }
        ensures fault { IfErr result (λ e. e ≡ Fault.Memory) }
    {
        match hash {
            Ref::Local(slot) => write_pair_at(&mut self.slots, slot as usize, key, name, value),
            _ => Ok(()),
        }
    }

    /// Puts a pair behind those of a hash, whose key is a new frozen text of these bytes. The hash has no such key, and
    /// `can_write` tells whether it may be written.
    ///
    /// Answers `Fault::Limit(LimitKind::Slots)` where the space is full, and `Fault::Memory` where a growth was refused.
    pub fn write_text_pair(
        &mut self,
        alloc: Global,
        hash: Ref,
        bytes: Vec<u8>,
        value: Ref,
    ) -> Result<(), Fault>
        requires can { IsTrue (can_write_at self.old hash) }
        requires kind { kind_at self.old hash ≡ Kind.Hash }
        requires value { IsWithin (length self.old.slots) value }
        requires absent { (ks : List HashKey) → keys_at self.old hash ≡ Some ks → Contains ks (TextKey bytes.items) → ⊥ }
        ensures slots { (n : ℕ) (o : Object) (ks : List HashKey) → hash ≡ Ref.Local n → slice_get self.old.slots n ≡ Some (Here o) → slice_get self.old.keys n ≡ Some ks
            → IfOk result (λ _. (self.new.slots ≡ slice_set self.old.slots n (Here (record o { triples = o.triples ++ (KeyAt (length ks), At (Own (length self.old.slots))) ∷ (ValueAt (length ks), value_of value) ∷ [] })) ++ Here (frozen_text bytes.items) ∷ [])
            × (self.new.keys ≡ slice_set self.old.keys n (ks ++ TextKey bytes.items ∷ []) ++ [] ∷ [])) }
        ensures below { (n : ℕ) → hash ≡ Ref.Local n → IfOk result (λ _. IsLedAlso (below_ref value) n (self.old.below ++ [] ∷ []) self.new.below) }
        ensures rest { IsRestKept self.old self.new }
        ensures refused { IfErr result (λ _. self.new ≡ self.old) }
        ensures fault { IfErr result (λ e. ((e ≡ Fault.Limit LimitKind.Slots) × (length self.old.slots ≡ self.old.limit)) ⊎ (e ≡ Fault.Memory)) }
    {
        let count = self.len();
        let key = Key::Text(Vec::from_slice(alloc, &bytes)?);
        let name = self.alloc_frozen(bytes)?;
        match self.write_pair(hash, key, name, value) {
            Ok(()) => Ok(()),
            Err(fault) => {
                self.forget_behind(count);
                Err(fault)
            }
        }
    }

    /// A new frozen text under the next slot.
    fn alloc_frozen(&mut self, bytes: Vec<u8>) -> Result<Ref, Fault>
        ensures name { IfOk result (λ r. r ≡ Ref.Local (length self.old.slots)) }
        ensures slots { IfOk result (λ _. self.new.slots ≡ self.old.slots ++ Here (frozen_text bytes.items) ∷ []) }
        ensures below { IfOk result (λ _. self.new.below ≡ self.old.below ++ [] ∷ []) }
        ensures keys { IfOk result (λ _. self.new.keys ≡ self.old.keys ++ [] ∷ []) }
        ensures rest { IsRestKept self.old self.new }
        ensures refused { IfErr result (λ _. self.new ≡ self.old) }
        ensures fault { IfErr result (λ e. ((e ≡ Fault.Limit LimitKind.Slots) × (length self.old.slots ≡ self.old.limit)) ⊎ (e ≡ Fault.Memory)) }
    {
        let name = self.alloc(Node::Text(bytes))?;
        self.freeze(name);
        Ok(name)
    }

    /// Takes away what stands behind the first `count` slots, none of which leads there.
    fn forget_behind(&mut self, count: usize)
        requires count { count ≤ length self.old.slots }
        requires apart { (n : ℕ) (o : Object) (l : LabelView) (x : Value) → n < count → slice_get self.old.slots n ≡ Some (Here o) → Contains o.triples (l, x) → IsBelow count x }
        ensures { self.new ≡ record self.old { slots = take count self.old.slots; below = take count self.old.below; keys = take count self.old.keys } }
    {
        self.slots.truncate(count);
    }

    /// Takes the pair under `place` out of a hash, and gives its key and its value; later pairs close up. None where there
    /// is no such pair. `can_write` tells whether `hash` may be written.
    pub fn delete_pair(&mut self, hash: Ref, place: usize) -> Option<(Ref, Ref)>
        requires can { IsTrue (can_write_at self.old hash) }
        requires kind { kind_at self.old hash ≡ Kind.Hash }
        ensures slots { (n : ℕ) (o : Object) → hash ≡ Ref.Local n → slice_get self.old.slots n ≡ Some (Here o)
            → IfSome result (λ p. (ps : List (Value × Value)) × (o.triples ≡ paired_from 0 ps) × (slice_get ps place ≡ Some (pair_values p))
            × (self.new.slots ≡ slice_set self.old.slots n (Here (record o { triples = paired_from 0 (remove ps place) })))) }
        ensures keys { (n : ℕ) (ks : List HashKey) → hash ≡ Ref.Local n → slice_get self.old.keys n ≡ Some ks
            → (IsSome result ↔ (place < length ks)) × (self.new.keys ≡ slice_set self.old.keys n (remove ks place)) }
        ensures below { (n : ℕ) → hash ≡ Ref.Local n → IsLedAlso [] n self.old.below self.new.below }
        ensures within { IfSome result (λ p. IsWithin (length self.old.slots) p.0 × IsWithin (length self.old.slots) p.1) }
        ensures known { IfSome result (λ p. IsKnownTo self.old p.0 × IsKnownTo self.old p.1) }
        ensures rest { IsRestKept self.old self.new }
        ensures none { IfNone result (self.new ≡ self.old) }
    {
        if let Ref::Local(slot) = hash {
            match self.take(slot) {
                Held::Whole(frozen, node) => {
                    let (changed, taken) = node.without_pair(place);
                    self.put(slot, Held::Whole(frozen, changed));
                    return taken;
                }
                other => self.put(slot, other),
            }
        }
        None
    }
}

/// Puts `value` under a key of the hash in a slot, which is changed where it lies.
#[inline(always)]
fn write_pair_at(
    slots: &mut Vec<Held>,
    slot: usize,
    key: Key,
    name: Ref,
    value: Ref,
) -> Result<(), Fault>
    requires { slot < vec_len slots.old }
    ensures written { IsSlotRewritten (λ a b. IsPairWritten a b (key_of key) name value result) slot slots.old.items slots.new.items }
    ensures fault { IfErr result (λ e. e ≡ Fault.Memory) }
{
    change_at(
        slots,
        slot,
        |held: &mut Held| held.write_pair(key, name, value),
    )
}

impl Held {
    /// Puts `value` under a key of a hash, if it is one.
    #[inline(always)]
    fn write_pair(&mut self, key: Key, name: Ref, value: Ref) -> Result<(), Fault>
        ensures written { IsHeldRewritten (λ a b. IsPairWritten a b (key_of key) name value result) self.old self.new }
        ensures fault { IfErr result (λ e. e ≡ Fault.Memory) }
    {
        match self {
            Held::Whole(_, node) => node.write_pair(key, name, value),
            _ => Ok(()),
        }
    }
}
