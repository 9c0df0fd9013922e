//! Copies of frozen objects, in the form that a cluster keeps them in.

ghost use Rattle.std.specs.Prelude.{◌≡◌, ◌≤◌, ◌^◌, ℕ, true, length, map, slice_get, Some, Contains, IfOk, IfErr};
ghost use Rattle.std.specs.List.{AllZip};
ghost use Rattle.rr_space.specs.Graph.{Object, At, Own, Label, shell};
ghost use Rattle.rr_space.specs.Parts.{sealed_object, sealed_parts};
ghost use Rattle.rr_space.specs.Tables.{Here, resolve_object};
ghost use Rattle.rr_space.specs.Views.{entry_pair, node_object, node_parts};
ghost use Rattle.rr_share.specs.Plans.{IsSealedFrom};

use rr_base::Fault;
use rr_space::{Entries, Items, Node, Ref, Sealed, SlotSet, Space};
use std::alloc::Global;

/// The elements of an array.
fn elements(alloc: Global, items: &Items) -> Result<Vec<Ref>, Fault>
    ensures elements { IfOk result (λ elements. elements.items ≡ items.now) }
    ensures fault { IfErr result (λ e. e ≡ Fault.Memory) }
{
    let mut elements = Vec::with_capacity(alloc, items.len())?;
    for k in 0..items.len() {
        match items.get(k) {
            Some(item) => elements.push(item)?,
            None => unreachable!(),
        }
    }
    Ok(elements)
}

/// The names and values of a hash.
fn pairs(alloc: Global, entries: &Entries) -> Result<Vec<(Ref, Ref)>, Fault>
    ensures pairs { IfOk result (λ pairs. pairs.items ≡ map entry_pair entries.now.entries) }
    ensures fault { IfErr result (λ e. e ≡ Fault.Memory) }
{
    let mut pairs = Vec::with_capacity(alloc, entries.len())?;
    for k in 0..entries.len() {
        match entries.get_index(k) {
            Some((_, pair)) => pairs.push(*pair)?,
            None => unreachable!(),
        }
    }
    Ok(pairs)
}

/// The same object, frozen.
fn sealed(alloc: Global, node: Node) -> Result<Sealed, Fault>
    ensures object { IfOk result (λ sealed. sealed_object sealed ≡ node_object node true) }
    ensures parts { IfOk result (λ sealed. sealed_parts sealed ≡ node_parts node) }
    ensures fault { IfErr result (λ e. e ≡ Fault.Memory) }
{
    match node {
        Node::Text(bytes) => Ok(Sealed::Text(bytes)),
        Node::Array(items) => Ok(Sealed::Array(elements(alloc, &items)?)),
        Node::Hash(entries) => Ok(Sealed::Hash(pairs(alloc, &entries)?)),
        Node::Object(class, fields) => Ok(Sealed::Object(class, fields)),
        Node::Exception(class, raised) => Ok(Sealed::Exception(class, raised)),
    }
}

/// Copies of the frozen objects in these slots, in their order.
pub(crate) fn sealed_copies(
    alloc: Global,
    space: &Space,
    names: &SlotSet,
) -> Result<Vec<Sealed>, Fault>
    requires whole { (n : ℕ) → Contains names.now n → (o : Object) × (slice_get space.now.slots n ≡ Some (Here o)) × (o.kind ≡ shell → ⊥) × (o.frozen ≡ true) }
    requires closed { (n m : ℕ) (o : Object) (l : Label) → Contains names.now n → slice_get space.now.slots n ≡ Some (Here o) → Contains (resolve_object space.now.slots o).triples (l, At (Own m)) → Contains names.now m }
    requires few { length names.now ≤ 2 ^ 32 }
    ensures copies { IfOk result (λ copies. AllZip (IsSealedFrom space.now names.now) names.now copies.items) }
    ensures fault { IfErr result (λ e. e ≡ Fault.Memory) }
{
    let mut copies = Vec::with_capacity(alloc, names.len())?;
    for place in 0..names.len() {
        let copy = space.copy_object(alloc, names.at(place), names)?;
        copies.push(sealed(alloc, copy.node)?)?;
    }
    Ok(copies)
}
