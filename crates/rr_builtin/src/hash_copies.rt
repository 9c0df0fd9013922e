//! Copies of hashes: what `dup` makes of them.

ghost use Rattle.std.specs.Prelude.{◌≡◌, ℕ, List, IfOk, IfErr, length, map, Contains};
ghost use Rattle.rr_space.specs.Graph.{Object};
ghost use Rattle.rr_space.specs.Tables.{Below};
ghost use Rattle.rr_space.specs.Parts.{AllWithin, below_parts, pairs_from};
ghost use Rattle.rr_space.specs.Labels.{triples_at};
ghost use Rattle.rr_space.specs.Views.{object_of, node_keys, below_node, entry_pair, IsNodeWithin, AreFieldsDistinct};
ghost use Rattle.rr_text.specs.Reads.{IsAmong, IsReadWith};
ghost use Rattle.rr_builtin.specs.Acts.{IsRefAmong};
ghost use Rattle.rr_builtin.specs.Copies.{AreOwnPairs, pairs_of, hash_copy, hash_copy_keys, with_entry, entry_values};

use crate::arrays::element;
use rr_base::Fault;
use rr_space::{Entries, Key, Node, Ref, Space};
use std::alloc::Global;

/// Puts a pair behind the others, if it has a key that none of them has.
fn add_pair(pairs: &mut Entries, key: Option<Key>, name: Ref, value: Ref) -> Result<(), Fault>
    ensures pairs { IfOk result (λ _. pairs.new.entries ≡ with_entry pairs.old.entries key (name, value)) }
    ensures fault { IfErr result (λ f. f ≡ Fault.Memory) }
{
    match key {
        Some(key) => {
            if pairs.contains_key(&key) {
                return Ok(());
            }
            pairs.insert(key, (name, value))?;
            Ok(())
        }
        None => Ok(()),
    }
}

/// The pairs of a hash, each under the key that its key object is; of those of one key the first.
fn pairs(alloc: Global, space: &Space, hash: Ref) -> Result<Entries, Fault>
    ensures are { IfOk result (λ pairs. (below : Below) → IsReadWith space.now below → IsAmong below hash → map entry_values pairs.entries ≡ pairs_of below space.now hash) }
    ensures within { IfOk result (λ pairs. AllWithin (length space.now.slots) (pairs_from 0 (map entry_pair pairs.entries))) }
    ensures among { IfOk result (λ pairs. (below : Below) → IsReadWith space.now below → IsRefAmong below hash → (e : ℕ × List Object) → Contains (below_parts (pairs_from 0 (map entry_pair pairs.entries))) e → Contains below e) }
    ensures fault { IfErr result (λ f. f ≡ Fault.Memory) }
{
    // No reference leads nowhere, as the clause of the number says.
    let _count = space.len();
    let count = space.arity(hash) / 2;
    let mut pairs = Entries::with_capacity(alloc, count)?;
    for pair in 0..count {
        let name = element(space, hash, 2 * pair);
        let value = element(space, hash, 2 * pair + 1);
        let key = space.key(alloc, name)?;
        add_pair(&mut pairs, key, name, value)?;
    }
    Ok(pairs)
}

/// A hash with the same pairs under the same keys.
pub(crate) fn hash_copy(alloc: Global, space: &Space, hash: Ref) -> Result<Node, Fault>
    ensures is { IfOk result (λ node. (below : Below) → IsReadWith space.now below → IsAmong below hash → object_of node ≡ hash_copy below space.now hash) }
    ensures keys { IfOk result (λ node. (below : Below) → IsReadWith space.now below → IsAmong below hash → node_keys node ≡ hash_copy_keys below space.now hash) }
    ensures whole { IfOk result (λ node. (below : Below) → IsReadWith space.now below → IsAmong below hash → (own : AreOwnPairs below space.now hash)
        → ((object_of node).triples ≡ triples_at space.now hash) × (node_keys node ≡ own.keys)) }
    ensures within { IfOk result (λ node. IsNodeWithin (length space.now.slots) node) }
    ensures among { IfOk result (λ node. (below : Below) → IsReadWith space.now below → IsRefAmong below hash → (e : ℕ × List Object) → Contains (below_node node) e → Contains below e) }
    ensures fields { IfOk result AreFieldsDistinct }
    ensures fault { IfErr result (λ f. f ≡ Fault.Memory) }
{
    let pairs = pairs(alloc, space, hash)?;
    Ok(Node::Hash(Box::new(alloc, pairs)?))
}
