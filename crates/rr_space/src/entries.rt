//! The pairs of the hash that a node may be.

ghost use Rattle.std.specs.Prelude.{◌≡◌, ℕ, ◌+◌, List, ◌++◌, length, map, None, remove, slice_get, Contains, IfErr, IfSome, IfNone, MatchOption, OnOk, OnErr};
ghost use Rattle.rr_space.specs.Graph.{Object, hash};
ghost use Rattle.rr_space.specs.Parts.{below_ref, value_triple};
ghost use Rattle.rr_space.specs.Views.{key_of, entry_pair, node_keys, node_kind, node_pairs, node_parts, below_node, IsWithin, IsNodeWithin, IsBareHeadKept};
ghost use Rattle.rr_space.specs.Views.{IsFirstAt, kept_name};
ghost use Rattle.indexmap.specs.IndexMap.{insert_entry};
ghost use Rattle.std.specs.Map.{lookup};
ghost use Rattle.rr_space.specs.Labels.{IsPairThere};
ghost use Rattle.rr_space.specs.Lookups.{AreDistinct};
ghost use Rattle.rr_space.specs.Writes.{IsPairWritten};
ghost use Rattle.std.specs.Option.{option_map};

use crate::behind::replace_value;
use crate::node::{Key, Node};
use crate::refer::Ref;
use indexmap::IndexMap;
use rr_base::Fault;
use std::hash::Hash;

impl Node {
    /// The place of the pair of a hash that has this key.
    pub(crate) fn place_of(&self, key: &Key) -> Option<usize>
        ensures first { MatchOption result (Contains (node_keys self.now) (key_of key.now) → ⊥) (IsFirstAt (node_keys self.now) (key_of key.now)) }
        ensures there { IfSome result (λ i. IsPairThere (map value_triple (node_parts self.now)) i) }
        ensures none { (node_kind self.now ≡ hash → ⊥) → result ≡ None }
        ensures distinct { AreDistinct (node_keys self.now) }
    {
        match self {
            Node::Hash(entries) => {
                // No two keys are equal, as the length's clause says.
                let _ = entries.len();
                entries.get_index_of(key)
            }
            _ => None,
        }
    }

    /// Puts `value` under a key of a hash, and says whether there was memory for it; leaves the node as it is where it is no
    /// hash.
    #[inline(always)]
    pub(crate) fn write_pair(&mut self, key: Key, name: Ref, value: Ref) -> Result<(), Fault>
        ensures written { IsPairWritten self.old self.new (key_of key) name value result }
        ensures fault { IfErr result (λ e. e ≡ Fault.Memory) }
    {
        match self {
            Node::Hash(entries) => put_pair(entries, key, name, value),
            _ => Ok(()),
        }
    }

    /// The node without a pair of a hash, and that pair; as it is where it is no hash or has no such pair.
    pub(crate) fn without_pair(self, place: usize) -> (Node, Option<(Ref, Ref)>)
        ensures taken { node_kind self ≡ hash → result.1 ≡ slice_get (node_pairs self) place }
        ensures pairs { node_kind self ≡ hash → node_pairs result.0 ≡ remove (node_pairs self) place }
        ensures keys { node_kind self ≡ hash → node_keys result.0 ≡ remove (node_keys self) place }
        ensures none { IfNone result.1 ((node_parts result.0 ≡ node_parts self) × (node_keys result.0 ≡ node_keys self)) }
        ensures head { IsBareHeadKept self result.0 }
        ensures within { (k : ℕ) → IsNodeWithin k self → IsNodeWithin k result.0 × IfSome result.1 (λ p. IsWithin k p.0 × IsWithin k p.1) }
        ensures below { (e : ℕ × List Object) → Contains (below_node result.0) e → Contains (below_node self) e }
        ensures below_taken { IfSome result.1 (λ p. (e : ℕ × List Object) → Contains (below_ref p.0 ++ below_ref p.1) e → Contains (below_node self) e) }
    {
        match self {
            Node::Hash(mut entries) => {
                let taken = without_key(entries.shift_remove_index(place));
                (Node::Hash(entries), taken)
            }
            other => (other, None),
        }
    }
}

/// Sets the value of a key: in its entry, which keeps its place and its name, or in a new entry under `name` behind the
/// others.
fn put_pair<K: Hash + Eq + Drop, R: Copy>(
    entries: &mut IndexMap<K, (R, R)>,
    key: K,
    name: R,
    value: R,
) -> Result<(), Fault>
    ensures entries { OnOk result (entries.new.entries ≡ insert_entry K.eq entries.old.entries key (kept_name (lookup (K.eq key) entries.old.entries) name, value)) }
    ensures refused { OnErr result (entries.new.entries ≡ entries.old.entries) }
    ensures absent { OnErr result (lookup (K.eq key) entries.old.entries ≡ None) }
    ensures fault { IfErr result (λ e. e ≡ Fault.Memory) }
{
    let (index, before) = entries.insert_full(key, (name, value))?;
    match before {
        Some(pair) => replace_value(entries, index, (pair.0, value)),
        None => (),
    }
    Ok(())
}

/// The pair of an entry.
fn without_key(entry: Option<(Key, (Ref, Ref))>) -> Option<(Ref, Ref)>
    ensures { result ≡ option_map entry_pair entry }
{
    match entry {
        Some((_, pair)) => Some(pair),
        None => None,
    }
}
