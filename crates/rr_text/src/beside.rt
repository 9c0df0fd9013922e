//! The values of two containers, side by side.

ghost use Rattle.std.specs.Prelude.{◌≡◌, ◌<◌, ◌≤◌, ◌*◌, ◌/◌, ◌+◌, ℕ, IfOk, IfSome, length, map};
ghost use Rattle.std.specs.List.{All, zip};
ghost use Rattle.std.specs.Option.{option_map};
ghost use Rattle.rr_space.specs.Tables.{Below, graph_of, resolve};
ghost use Rattle.rr_space.specs.Kinds.{kind_at};
ghost use Rattle.rr_space.specs.Parts.{value_of};
ghost use Rattle.rr_space.specs.Views.{IsKnownFrom};
ghost use Rattle.rr_space.specs.Labels.{triples_at};
ghost use Rattle.rr_text.specs.Same.{triples_in};
ghost use Rattle.rr_text.specs.Keys.{pairs_in, reading};
ghost use Rattle.rr_text.specs.Comparing.{value_in, values_in, value_under, matches};
ghost use Rattle.rr_text.specs.Reads.{IsAmong, IsReadWith};
ghost use Rattle.rr_text.specs.Beside.{values_of, resolved, IsKnownBeside};

use crate::pairs::pair_with;
use rr_space::{Kind, Ref, Space};
use std::alloc::{AllocError, Global};

/// Two values that are to be compared.
#[derive(Clone, Copy)]
pub(crate) struct Sides {
    pub(crate) left: Ref,
    pub(crate) right: Ref,
}

/// The value under that place of an object, or nil.
pub(crate) fn value_at(space: &Space, object: Ref, place: usize) -> Ref
    ensures is { value_of result ≡ value_in (triples_at space.now object) place }
    ensures known { IsKnownFrom space.now object result }
{
    match space.part(object, place) {
        Some((_, value)) => value,
        None => Ref::Nil,
    }
}

/// The values of two arrays, side by side, which are as long.
pub(crate) fn rows(
    alloc: Global,
    space: &Space,
    left: Ref,
    right: Ref,
) -> Result<Vec<Sides>, AllocError>
    requires { length (triples_at space.now left) ≡ length (triples_at space.now right) }
    ensures sides { IfOk result (λ sides. map values_of sides.items ≡ zip (values_in (triples_at space.now left)) (values_in (triples_at space.now right))) }
    ensures known { IfOk result (λ sides. All (IsKnownBeside space.now left right) sides.items) }
{
    let count = space.arity(left);
    let mut sides = Vec::with_capacity(alloc, count)?;
    for place in 0..count {
        sides.push(Sides {
            left: value_at(space, left, place),
            right: value_at(space, right, place),
        })?;
    }
    Ok(sides)
}

/// The value that a hash has under the key that a value is.
fn value_under(
    alloc: Global,
    space: &Space,
    hash: Ref,
    name: Ref,
) -> Result<Option<Ref>, AllocError>
    requires { kind_at space.now hash ≡ Kind.Hash }
    ensures is { IfOk result (λ found. (below : Below) → IsReadWith space.now below → IsAmong below hash → IsAmong below name
        → option_map (λ x. resolve space.now.slots (value_of x)) found
        ≡ value_under (reading space.now below) (resolve space.now.slots (value_of hash)) (resolve space.now.slots (value_of name))) }
    ensures known { IfOk result (λ found. IfSome found (IsKnownFrom space.now hash)) }
{
    // No reference leads nowhere, as the clause of the number says.
    let _count = space.len();
    let _parts = space.arity(hash);
    let key = match space.key(alloc, name) {
        Ok(key) => key,
        Err(_) => return Err(AllocError),
    };
    match key {
        Some(key) => match pair_with(space, hash, &key) {
            Some(pair) => Ok(Some(value_at(space, hash, 2 * pair + 1))),
            None => Ok(None),
        },
        None => Ok(None),
    }
}

/// The values of the pairs of a hash, each beside that of the other hash under the same key; none where a key is not there.
pub(crate) fn matches(
    alloc: Global,
    space: &Space,
    left: Ref,
    right: Ref,
) -> Result<Option<Vec<Sides>>, AllocError>
    requires { kind_at space.now right ≡ Kind.Hash }
    ensures sides { IfOk result (λ found. (below : Below) → IsReadWith space.now below → IsAmong below left → IsAmong below right
        → option_map (λ sides. map (resolved space.now.slots) sides.items) found
        ≡ matches (value_under (reading space.now below) (resolve space.now.slots (value_of right))) (pairs_in (triples_in (graph_of space.now.slots below) (resolve space.now.slots (value_of left))))) }
    ensures known { IfOk result (λ found. IfSome found (λ sides. All (IsKnownBeside space.now left right) sides.items)) }
{
    // No reference leads nowhere, as the clause of the number says.
    let _count = space.len();
    let count = space.arity(left) / 2;
    let mut sides = Vec::with_capacity(alloc, count)?;
    for pair in 0..count {
        let key = value_at(space, left, 2 * pair);
        match value_under(alloc, space, right, key)? {
            Some(value) => sides.push(Sides {
                left: value_at(space, left, 2 * pair + 1),
                right: value,
            })?,
            None => return Ok(None),
        }
    }
    Ok(Some(sides))
}
