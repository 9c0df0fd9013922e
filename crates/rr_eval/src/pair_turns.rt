//! Hashes that an iteration visits, pair by pair.

ghost use Rattle.std.specs.Prelude.{◌≡◌, ◌<◌, ◌-◌, ◌^◌, length, drop, slice_index_or, Option, IfOk, IfErr, IfSome};
ghost use Rattle.std.specs.List.{All};
ghost use Rattle.std.specs.Option.{option_map};
ghost use Rattle.rr_base.specs.declared.fault.Fault.{Fault};
ghost use Rattle.rr_frames.specs.Frames.{list_of};
ghost use Rattle.rr_space.specs.Kinds.{kind_at};
ghost use Rattle.rr_space.specs.Parts.{value_of, IsWithin};
ghost use Rattle.rr_space.specs.Tables.{Below};
ghost use Rattle.rr_space.specs.declared.refer.Ref.{Ref};
ghost use Rattle.rr_builtin.specs.Acts.{element_at};
ghost use Rattle.rr_builtin.specs.Elements.{names_of_hash};
ghost use Rattle.rr_builtin.specs.Rounds.{read_of, found, element_found, IsRoundWithin};
ghost use Rattle.rr_eval.specs.Iterating.{pair_given, pair_read, is_key, is_same_key, pair_published, pair_elsewhere, pair_turn, pairs_ahead, own_values, keys_given};
ghost use Rattle.rr_eval.specs.Within.{Reach, reach, IsReached, IsAheadReached};

use crate::iterating::{Ahead, Visits, own, value_at};
use crate::leaves::is_identical;
use crate::problem::Problem;
use rr_base::Fault;
use rr_builtin::{Problem as BuiltInProblem, Round, is_own_hash, own_pair_at};
use rr_space::{Kind, Ref, Space};
use std::alloc::{AllocError, Global};

/// A turn over a key and its value.
fn pair_given(place: usize, key: Ref, value: Option<Ref>) -> Ahead
    requires { place < 2 ^ 64 - 1 }
    ensures is { result ≡ pair_given place key value }
    ensures within { (k : Reach) → IsReached k key → All (IsReached k) (list_of value) → IsAheadReached k result }
{
    match value {
        Some(value) => Ahead::Another(Some(key), Some(value), Visits::Pairs(place + 1)),
        None => Ahead::Stopped(Problem::NotHere),
    }
}

/// A turn over a key, by what the hash has under it; none where it has nothing.
fn pair_read(space: &Space, place: usize, key: Ref, read: Round) -> Option<Ahead>
    requires { place < 2 ^ 64 - 1 }
    ensures is { result ≡ pair_read space.now place key (read_of read) }
    ensures within { (clusters : Option Below) → IsReached (reach (length space.now.slots) clusters) key → IsRoundWithin (length space.now.slots) read → IfSome result (IsAheadReached (reach (length space.now.slots) clusters)) }
{
    match read {
        Round::Item(value) => Some(pair_given(place, key, own(space, value))),
        Round::Absent => None,
        Round::Moved => Some(Ahead::Stopped(Problem::BuiltIn(BuiltInProblem::Moved))),
    }
}

/// What stands at a place of an object.
fn found_at(space: &Space, value: Ref, place: usize) -> Round
    ensures is { read_of result ≡ found (element_found space.now value place) }
    ensures within { IsRoundWithin (length space.now.slots) result }
{
    match space.part(value, place) {
        Some((_, found)) => Round::Item(found),
        None => Round::Absent,
    }
}

/// Whether it is a key.
fn is_same_key(space: &Space, key: Ref, found: Option<Ref>) -> bool
    ensures { result ≡ is_same_key space.now key found }
{
    match found {
        Some(found) => is_identical(space, key, found),
        None => false,
    }
}

/// Whether what is read is a key.
fn is_key(space: &Space, key: Ref, read: Round) -> bool
    ensures { result ≡ is_key space.now key (read_of read) }
{
    match read {
        Round::Item(value) => is_same_key(space, key, own(space, value)),
        Round::Absent => false,
        Round::Moved => false,
    }
}

/// The turn over a key of a published hash at a place, where there is one.
fn pair_published(space: &Space, hash: Ref, place: usize, key: Ref) -> Option<Ahead>
    requires { place < 2 ^ 63 }
    ensures is { result ≡ pair_published space.now hash place key }
    ensures within { (clusters : Option Below) → IsReached (reach (length space.now.slots) clusters) key → IfSome result (IsAheadReached (reach (length space.now.slots) clusters)) }
{
    let first = 2 * place.saturating_sub(1);
    if is_key(space, key, found_at(space, hash, first)) {
        pair_read(space, place, key, found_at(space, hash, first + 1))
    } else {
        Some(Ahead::Stopped(Problem::NotHere))
    }
}

/// The turn over a key of what is no hash of the space, where there is one.
fn pair_elsewhere(space: &Space, hash: Ref, place: usize, key: Ref) -> Option<Ahead>
    requires { place < 2 ^ 63 }
    ensures is { result ≡ pair_elsewhere (kind_at space.now hash) space.now hash place key }
    ensures within { (clusters : Option Below) → IsReached (reach (length space.now.slots) clusters) key → IfSome result (IsAheadReached (reach (length space.now.slots) clusters)) }
{
    match space.kind_of(hash) {
        Kind::Shell => Some(Ahead::Stopped(Problem::BuiltIn(BuiltInProblem::Moved))),
        Kind::Hash => pair_published(space, hash, place, key),
        _ => Some(Ahead::Stopped(Problem::NotHere)),
    }
}

/// The turn over a key at a place, where there is one.
fn pair_turn(
    alloc: Global,
    space: &Space,
    hash: Ref,
    place: usize,
    key: Ref,
) -> Result<Option<Ahead>, Fault>
    requires { place < 2 ^ 63 }
    ensures is { IfOk result (λ turn. turn ≡ pair_turn space.now hash place key) }
    ensures within { (clusters : Option Below) → IsReached (reach (length space.now.slots) clusters) key → IfOk result (λ turn. IfSome turn (IsAheadReached (reach (length space.now.slots) clusters))) }
    ensures fault { IfErr result (λ f. f ≡ Fault.Memory) }
{
    if is_own_hash(space, hash) {
        let read = own_pair_at(alloc, space, hash, key)?;
        Ok(pair_read(space, place, key, read))
    } else {
        Ok(pair_elsewhere(space, hash, place, key))
    }
}

/// What is ahead of an iteration over a hash, by the values that stand for it: the first key from the place on that the hash has now.
pub fn pairs_ahead(
    alloc: Global,
    space: &Space,
    first: usize,
    stand: &[Ref],
) -> Result<Ahead, Fault>
    ensures is { IfOk result (λ a. a ≡ pairs_ahead space.now (slice_index_or stand.now 0 Ref.Nil) first (drop first stand.now)) }
    ensures within { (clusters : Option Below) → All (IsReached (reach (length space.now.slots) clusters)) stand.now → IfOk result (IsAheadReached (reach (length space.now.slots) clusters)) }
    ensures fault { IfErr result (λ f. f ≡ Fault.Memory) }
{
    let hash = value_at(stand, 0);
    let mut place = first;
    while place < stand.len() {
        match pair_turn(alloc, space, hash, place, stand[place])? {
            Some(ahead) => return Ok(ahead),
            None => place += 1,
        }
    }
    Ok(Ahead::Finished)
}

/// The value under that place of an object, or nil.
fn element(space: &Space, value: Ref, place: usize) -> Ref
    ensures is { value_of result ≡ element_at space.now value place }
    ensures within { IsWithin (length space.now.slots) result }
{
    match space.part(value, place) {
        Some((_, found)) => found,
        None => Ref::Nil,
    }
}

/// The key objects of a hash, where each of them that is published is known.
fn own_keys(alloc: Global, space: &Space, hash: Ref) -> Result<Option<Vec<Ref>>, AllocError>
    ensures are { IfOk result (λ keys. option_map (λ ks. ks.items) keys ≡ own_values space.now (names_of_hash space.now hash)) }
    ensures within { (clusters : Option Below) → IfOk result (λ keys. IfSome keys (λ ks. All (IsReached (reach (length space.now.slots) clusters)) ks.items)) }
{
    let count = space.arity(hash) / 2;
    let mut keys = Vec::with_capacity(alloc, count)?;
    for pair in 0..count {
        match own(space, element(space, hash, 2 * pair)) {
            Some(key) => keys.push(key)?,
            None => return Ok(None),
        }
    }
    Ok(Some(keys))
}

/// The key objects that a hash has now; none where they are not given yet.
pub fn keys_given(alloc: Global, space: &Space, hash: Ref) -> Result<Option<Vec<Ref>>, AllocError>
    ensures are { IfOk result (λ keys. option_map (λ ks. ks.items) keys ≡ keys_given space.now hash) }
    ensures within { (clusters : Option Below) → IfOk result (λ keys. IfSome keys (λ ks. All (IsReached (reach (length space.now.slots) clusters)) ks.items)) }
{
    match space.kind_of(hash) {
        Kind::Hash => own_keys(alloc, space, hash),
        _ => Ok(None),
    }
}
