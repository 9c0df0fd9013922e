//! Indexes of published hashes: which pair is the first that has a key.

ghost use Rattle.std.specs.Prelude.{◌≡◌, ◌<◌, ◌≤◌, ℕ, List, length, map, slice_get, Some, IfOk, IfErr, IsTrue};
ghost use Rattle.std.specs.Option.{option_map};
ghost use Rattle.rr_space.specs.Parts.{sealed_object};
ghost use Rattle.rr_space.specs.Views.{key_of};
ghost use Rattle.rr_space.specs.Indexes.{name_key, IsIndexOf, IsIndexed, AreIndexed, IsKeptFirst};
ghost use Rattle.rr_space.specs.declared.refer.Sealed.{Sealed as SealedView};

use crate::kind::Kind;
use crate::lookups::plain_key;
use crate::node::Key;
use crate::refer::{Ref, Sealed};
use indexmap::IndexMap;
use rr_base::Fault;
use std::alloc::Global;

/// Of each key of a hash the place of the first pair that has it.
pub(crate) type Firsts = IndexMap<Key, usize>;

/// A hash of no more pairs has no index: its pairs are tried one by one.
const FEW: usize = 8;

/// Keeps `place` as that of the key, unless the key has one.
fn keep_first(firsts: &mut Firsts, key: Key, place: usize) -> Result<(), Fault>
    ensures kept { IfOk result (λ _. IsKeptFirst firsts.old.entries firsts.new.entries key place) }
    ensures fault { IfErr result (λ e. e ≡ Fault.Memory) }
{
    if firsts.contains_key(&key) {
        return Ok(());
    }
    firsts.insert(key, place)?;
    Ok(())
}

/// The key that a reference in a cluster of these objects is: an immediate, or the bytes of a text.
fn key_within(alloc: Global, nodes: &[Sealed], name: Ref) -> Result<Option<Key>, Fault>
    ensures key { IfOk result (λ key. option_map key_of key ≡ name_key (map sealed_object nodes.now) name) }
    ensures fault { IfErr result (λ e. e ≡ Fault.Memory) }
{
    match name {
        Ref::Local(place) => text_key(alloc, nodes, place),
        Ref::Shared(place, cluster) => {
            if cluster.kind(place) == Kind::Text {
                let bytes = Vec::from_slice(alloc, cluster.text_bytes(place))?;
                Ok(Some(Key::Text(bytes)))
            } else {
                Ok(None)
            }
        }
        other => Ok(plain_key(other)),
    }
}

/// The key that the text under `place` is.
fn text_key(alloc: Global, nodes: &[Sealed], place: u32) -> Result<Option<Key>, Fault>
    ensures key { IfOk result (λ key. option_map key_of key ≡ name_key (map sealed_object nodes.now) (Ref.Local place)) }
    ensures fault { IfErr result (λ e. e ≡ Fault.Memory) }
{
    if (place as usize) < nodes.len() {
        match &nodes[place as usize] {
            Sealed::Text(bytes) => return Ok(Some(Key::Text(Vec::from_slice(alloc, bytes)?))),
            Sealed::Array(_) => (),
            Sealed::Hash(_) => (),
            Sealed::Object(_, _) => (),
            Sealed::Exception(_, _) => (),
        }
    }
    Ok(None)
}

/// The index of these pairs of a hash among the objects.
fn firsts_of(alloc: Global, nodes: &[Sealed], pairs: &[(Ref, Ref)]) -> Result<Firsts, Fault>
    ensures firsts { IfOk result (λ m. IsIndexOf (map sealed_object nodes.now) pairs.now (length pairs.now) m.entries) }
    ensures fault { IfErr result (λ e. e ≡ Fault.Memory) }
{
    let mut firsts = Firsts::with_capacity(alloc, pairs.len())?;
    for k in 0..pairs.len() {
        if let Some(key) = key_within(alloc, nodes, pairs[k].0)? {
            keep_first(&mut firsts, key, k)?;
        }
    }
    Ok(firsts)
}

/// The index of the object under `place`, where it is a hash of many pairs.
fn index_of(alloc: Global, nodes: &[Sealed], place: usize) -> Result<Option<Box<Firsts>>, Fault>
    requires { place < length nodes.now }
    ensures index { IfOk result (λ index. (s : SealedView) → slice_get nodes.now place ≡ Some s → IsIndexed (λ b. b.value.entries) (map sealed_object nodes.now) s index) }
    ensures fault { IfErr result (λ e. e ≡ Fault.Memory) }
{
    match &nodes[place] {
        Sealed::Hash(pairs) if pairs.len() > FEW => {
            let firsts = firsts_of(alloc, nodes, pairs)?;
            Ok(Some(Box::new(alloc, firsts)?))
        }
        _ => Ok(None),
    }
}

/// Whether some object is a hash of many pairs.
fn has_many_pairs(nodes: &[Sealed]) -> bool
    ensures { IsTrue result → 1 ≤ length nodes.now }
{
    for place in 0..nodes.len() {
        match &nodes[place] {
            Sealed::Hash(pairs) if pairs.len() > FEW => return true,
            _ => (),
        }
    }
    false
}

/// The indexes of the objects of a cluster: one or none for each, and no list at all where none is wanted.
pub(crate) fn indexes_of(alloc: Global, nodes: &[Sealed]) -> Result<Vec<Option<Box<Firsts>>>, Fault>
    ensures indexes { IfOk result (λ indexes. AreIndexed (λ b. b.value.entries) nodes.now indexes.items) }
    ensures grows { IfErr result (λ _. 1 ≤ length nodes.now) }
    ensures fault { IfErr result (λ e. e ≡ Fault.Memory) }
{
    if !has_many_pairs(nodes) {
        return Ok(Vec::new(alloc));
    }
    let mut indexes = Vec::with_capacity(alloc, nodes.len())?;
    for place in 0..nodes.len() {
        indexes.push(index_of(alloc, nodes, place)?)?;
    }
    Ok(indexes)
}
