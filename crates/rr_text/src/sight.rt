//! What is found at two values that are compared.

ghost use Rattle.std.specs.Prelude.{◌≡◌, IfOk};
ghost use Rattle.rr_space.specs.Tables.{Below};
ghost use Rattle.rr_space.specs.Kinds.{kind_at};
ghost use Rattle.rr_text.specs.Keys.{reading};
ghost use Rattle.rr_text.specs.Comparing.{look_pair, look_like, decided};
ghost use Rattle.rr_text.specs.Reads.{IsAmong, IsReadWith};
ghost use Rattle.rr_text.specs.Beside.{resolved, look_of, outcome_of, IsSightKnown};
ghost use Rattle.rr_text.specs.declared.likeness.Likeness.TheVariants as likenesses;

use crate::beside::{Sides, matches, rows};
use crate::likeness::{Likeness, is_one, likeness_of};
use rr_space::{Kind, Ref, Space};
use std::alloc::{AllocError, Global};

/// What comparing two values comes to.
#[derive(Clone, Copy, Debug, PartialEq, Eq, Drop)]
pub enum Compared {
    Same,
    Differs,
    /// More containers stand inside one another than may be entered.
    Deep,
    /// It comes to an object that was moved away.
    Shell,
}

/// What is found at two values that are compared.
#[derive(Drop)]
pub(crate) enum Sight {
    Decided(Compared),
    /// They are containers, which are equal where these values in them are.
    Inside(Vec<Sides>),
}

/// What two values are equal or not come to.
pub(crate) fn decided(same: bool) -> Compared
    ensures { outcome_of result ≡ decided same }
{
    if same {
        Compared::Same
    } else {
        Compared::Differs
    }
}

/// The values of two arrays.
fn inside_arrays(alloc: Global, space: &Space, left: Ref, right: Ref) -> Result<Sight, AllocError>
    ensures is { IfOk result (λ sight. (below : Below) → IsReadWith space.now below → IsAmong below left → IsAmong below right
        → look_of space.now.slots (resolved space.now.slots (record { left = left; right = right })) sight
        ≡ look_like (reading space.now below) likenesses.Arrays (resolved space.now.slots (record { left = left; right = right }))) }
    ensures known { IfOk result (IsSightKnown space.now left right) }
{
    // No reference leads nowhere, as the clause of the number says.
    let _count = space.len();
    if space.arity(left) != space.arity(right) {
        return Ok(Sight::Decided(Compared::Differs));
    }
    Ok(Sight::Inside(rows(alloc, space, left, right)?))
}

/// The values of two hashes under the same keys.
fn inside_hashes(alloc: Global, space: &Space, left: Ref, right: Ref) -> Result<Sight, AllocError>
    requires { kind_at space.now right ≡ Kind.Hash }
    ensures is { IfOk result (λ sight. (below : Below) → IsReadWith space.now below → IsAmong below left → IsAmong below right
        → look_of space.now.slots (resolved space.now.slots (record { left = left; right = right })) sight
        ≡ look_like (reading space.now below) likenesses.Hashes (resolved space.now.slots (record { left = left; right = right }))) }
    ensures known { IfOk result (IsSightKnown space.now left right) }
{
    let _count = space.len();
    if space.arity(left) != space.arity(right) {
        return Ok(Sight::Decided(Compared::Differs));
    }
    match matches(alloc, space, left, right)? {
        Some(sides) => Ok(Sight::Inside(sides)),
        None => Ok(Sight::Decided(Compared::Differs)),
    }
}

/// What is found at two values.
pub(crate) fn sight_at(
    alloc: Global,
    space: &Space,
    left: Ref,
    right: Ref,
) -> Result<Sight, AllocError>
    ensures is { IfOk result (λ sight. (below : Below) → IsReadWith space.now below → IsAmong below left → IsAmong below right
        → look_of space.now.slots (resolved space.now.slots (record { left = left; right = right })) sight
        ≡ look_pair (reading space.now below) (resolved space.now.slots (record { left = left; right = right }))) }
    ensures known { IfOk result (IsSightKnown space.now left right) }
{
    let _count = space.len();
    if is_one(space, left, right) {
        return Ok(Sight::Decided(Compared::Same));
    }
    match likeness_of(space.kind_of(left), space.kind_of(right)) {
        Likeness::Moved => Ok(Sight::Decided(Compared::Shell)),
        Likeness::Unlike => Ok(Sight::Decided(Compared::Differs)),
        Likeness::Texts => {
            let same = space.text_bytes(left) == space.text_bytes(right);
            Ok(Sight::Decided(decided(same)))
        }
        Likeness::Arrays => inside_arrays(alloc, space, left, right),
        Likeness::Hashes => inside_hashes(alloc, space, left, right),
    }
}
