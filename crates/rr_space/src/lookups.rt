//! The pairs of published hashes, by their keys.

ghost use Rattle.std.specs.Prelude.{◌≡◌, ◌↔◌, ℕ, ◌<◌, List, length, map, slice_get, Some, Contains, IsTrue, IfSome, IfOk, IfErr, None, MatchOption};
ghost use Rattle.std.specs.Option.{option_map};
ghost use Rattle.rr_space.specs.Graph.{Object, Value, hash};
ghost use Rattle.rr_space.specs.Tables.{below_hold, outer_objects, numbered, numbered_triple};
ghost use Rattle.rr_space.specs.Parts.{value_of, value_triple, below_ref, below_parts, pairs_from};
ghost use Rattle.rr_space.specs.Views.{key_of};
ghost use Rattle.rr_space.specs.Lookups.{key_at, key_of_object, key_of_plain, key_of_value, IsOneEach, IsPairOf, IsKeyOfPair};
ghost use Rattle.rr_space.specs.Labels.{IsPairThere, triples_of};
ghost use Rattle.rr_space.specs.Kinds.{object_kind};

use crate::kind::Kind;
use crate::node::Key;
use crate::refer::{Cluster, Ref, Sealed};
use crate::space::Space;
use rr_base::Fault;
use std::alloc::Global;

impl Cluster {
    /// The first pair of the hash under `place` that has this key; none where no such pair is there. A hash of many pairs
    /// has an index.
    pub(crate) fn find(&self, place: u32, key: &Key) -> Option<usize>
        ensures there { IfSome result (λ i. IsPairThere (triples_of (slice_get (outer_objects self.now) place)) i) }
        ensures none { (object_kind (slice_get (outer_objects self.now) place) ≡ Kind.Hash → ⊥) → result ≡ None }
        ensures found { (o : Object) → slice_get (outer_objects self.now) place ≡ Some o → o.kind ≡ hash → IsOneEach (below_hold self.now) → IsPairOf (below_hold self.now) o.triples (key_of key.now) result }
    {
        if (place as usize) < self.nodes.len() {
            if let Sealed::Hash(pairs) = &self.nodes[place as usize] {
                return match self.indexes.get(place as usize) {
                    Some(Some(firsts)) => firsts.get(key).copied(),
                    _ => self.find_among(pairs, key),
                };
            }
        }
        None
    }

    /// The first of these pairs of the cluster that has this key.
    fn find_among(&self, pairs: &[(Ref, Ref)], key: &Key) -> Option<usize>
        ensures there { IfSome result (λ i. i < length pairs.now) }
        ensures found { IsOneEach (below_hold self.now) → ((e : ℕ × List Object) → Contains (below_parts (pairs_from 0 pairs.now)) e → Contains (below_hold self.now) e)
            → MatchOption result ((i : ℕ) → IsKeyOfPair self.now pairs.now (key_of key.now) i → ⊥) (λ i. IsKeyOfPair self.now pairs.now (key_of key.now) i × ((j : ℕ) → j < i → IsKeyOfPair self.now pairs.now (key_of key.now) j → ⊥)) }
    {
        for k in 0..pairs.len() {
            if self.is_key(pairs[k].0, key) {
                return Some(k);
            }
        }
        None
    }

    /// Whether a value of an object of the cluster is this key.
    fn is_key(&self, name: Ref, key: &Key) -> bool
        ensures { IsOneEach (below_hold self.now) → ((e : ℕ × List Object) → Contains (below_ref name) e → Contains (below_hold self.now) e)
            → (IsTrue result ↔ (key_of_value (below_hold self.now) (numbered self.now.number (value_of name)) ≡ Some (key_of key.now))) }
    {
        match name {
            Ref::Local(place) => self.is_text(place, key),
            Ref::Shared(place, cluster) => cluster.is_text(place, key),
            other => match plain_key(other) {
                Some(plain) => plain == *key,
                None => false,
            },
        }
    }

    /// Whether the object under `place` is a text that is this key.
    pub(crate) fn is_text(&self, place: u32, key: &Key) -> bool
        ensures { IsTrue result ↔ (key_of_object (slice_get self.now.own place) ≡ Some (key_of key.now)) }
    {
        match key {
            Key::Text(bytes) => {
                self.kind(place) == Kind::Text && self.text_bytes(place) == bytes.as_slice()
            }
            _ => false,
        }
    }
}

impl Space {
    /// The key that `value` is in a hash: an immediate, or the bytes of the frozen text that it leads to; none where it is
    /// neither. `Memory` is the only fault.
    pub fn key(&self, alloc: Global, value: Ref) -> Result<Option<Key>, Fault>
        ensures key { IfOk result (λ key. option_map key_of key ≡ key_at self.now value) }
        ensures fault { IfErr result (λ e. e ≡ Fault.Memory) }
    {
        match value {
            Ref::Local(_) | Ref::Shared(_, _) => {
                if self.kind_of(value) == Kind::Text && self.is_frozen(value) {
                    Ok(Some(Key::Text(Vec::from_slice(alloc, self.text_bytes(value))?)))
                } else {
                    Ok(None)
                }
            }
            other => Ok(plain_key(other)),
        }
    }

    /// Whether `value` is the key.
    pub fn is_key(&self, value: Ref, key: &Key) -> bool
        ensures { IsTrue result ↔ (key_at self.now value ≡ Some (key_of key.now)) }
    {
        match (value, key) {
            (Ref::Local(_) | Ref::Shared(_, _), Key::Text(bytes)) => {
                self.kind_of(value) == Kind::Text
                    && self.is_frozen(value)
                    && self.text_bytes(value) == bytes.as_slice()
            }
            (Ref::Local(_) | Ref::Shared(_, _), _) => false,
            (other, _) => match plain_key(other) {
                Some(plain) => plain == *key,
                None => false,
            },
        }
    }
}

/// The key that an immediate is.
pub(crate) fn plain_key(value: Ref) -> Option<Key>
    ensures { option_map key_of result ≡ key_of_plain (value_of value) }
{
    match value {
        Ref::Nil => Some(Key::Nil),
        Ref::False => Some(Key::Truth(false)),
        Ref::True => Some(Key::Truth(true)),
        Ref::Int(number) => Some(Key::Int(number)),
        Ref::Symbol(symbol) => Some(Key::Symbol(symbol.0)),
        Ref::Class(class) => Some(Key::Class(class.0)),
        Ref::Ractor(ractor) => Some(Key::Ractor(ractor.0)),
        _ => None,
    }
}
