//! Which pair of a hash has a key.

ghost use Rattle.std.specs.Prelude.{◌≡◌, ◌<◌, ◌+◌, ◌*◌, ◌/◌, IfSome, length, map};
ghost use Rattle.rr_space.specs.Kinds.{kind_at};
ghost use Rattle.rr_space.specs.Labels.{triples_at};
ghost use Rattle.rr_space.specs.Parts.{value_of};
ghost use Rattle.rr_space.specs.Tables.{Below, graph_of, resolve};
ghost use Rattle.rr_space.specs.Views.{key_of};
ghost use Rattle.rr_text.specs.Keys.{key_in, pairs_in, place_among, pair_with};
ghost use Rattle.rr_text.specs.Reads.{IsAmong, IsReadWith};
ghost use Rattle.rr_text.specs.Same.{triples_in};

use crate::beside::value_at;
use rr_space::{Key, Kind, Ref, Space};

/// The first pair of a hash whose key object is the key.
fn pair_by_names(space: &Space, hash: Ref, key: &Key) -> Option<usize>
    ensures is { (below : Below) → IsReadWith space.now below → IsAmong below hash
        → result ≡ place_among (key_of key.now) (map (λ p. key_in (graph_of space.now.slots below) p.0) (pairs_in (triples_in (graph_of space.now.slots below) (resolve space.now.slots (value_of hash))))) }
    ensures there { IfSome result (λ i. 2 * i + 1 < length (triples_at space.now hash)) }
{
    // No reference leads nowhere, as the clause of the number says.
    let _count = space.len();
    for pair in 0..space.arity(hash) / 2 {
        if space.is_key(value_at(space, hash, 2 * pair), key) {
            return Some(pair);
        }
    }
    None
}

/// The pair of a hash that has the key, in order of insertion; none where it has no such pair. A hash of the space is asked
/// by the key, and in a published one the pairs are tried one by one. It is exact with any clusters among which are all that
/// the space and the hash lead to, and of which no two have one number.
pub fn pair_with(space: &Space, hash: Ref, key: &Key) -> Option<usize>
    requires kind { kind_at space.now hash ≡ Kind.Hash }
    ensures is { (below : Below) → IsReadWith space.now below → IsAmong below hash → result ≡ pair_with below space.now hash (key_of key.now) }
    ensures there { IfSome result (λ i. 2 * i + 1 < length (triples_at space.now hash)) }
{
    // Each slot has its keys, as the clause of the number says.
    let _count = space.len();
    if space.can_freeze(hash) {
        space.find(hash, key)
    } else {
        pair_by_names(space, hash, key)
    }
}
