//! The pairs of hashes by their keys.

ghost use Rattle.std.specs.Prelude.{◌≡◌, List, None, Some, IfOk, IfErr, IfNone, IfSome, length};
ghost use Rattle.std.specs.Option.{option_map};
ghost use Rattle.rr_space.specs.Tables.{Below, HashKey};
ghost use Rattle.rr_space.specs.Parts.{IsWithin};
ghost use Rattle.rr_space.specs.Kinds.{kind_at};
ghost use Rattle.rr_space.specs.Views.{key_of, keys_at, IsFirstAt};
ghost use Rattle.rr_space.specs.Lookups.{key_at};
ghost use Rattle.rr_text.specs.Keys.{pair_with};
ghost use Rattle.rr_text.specs.Reads.{IsAmong, IsReadWith};
ghost use Rattle.rr_builtin.specs.Acts.{Acts, Answers, IsServed, IsRefAmong, IsBuiltWithin, IsBuiltAmong, outcome_of, performed};
ghost use Rattle.rr_builtin.specs.Deeds.{act_of, IsFit, IsDeedAmong, IsWritableHash, LacksKey, HasPair};
ghost use Rattle.rr_builtin.specs.Hashes.{key_given, value_at, stored, hash_read, hash_has, hash_put, hash_delete};

use crate::built::Built;
use crate::contents::element_at;
use crate::deed::Deed;
use crate::kinds::is_text_kind;
use crate::objects::{raise, truth};
use crate::problem::Problem;
use rr_base::Fault;
use rr_space::{Key, Kind, Ref, Space};
use rr_text::pair_with;
use std::alloc::Global;

/// The key that an argument is: an immediate, or the bytes of a text.
pub(crate) fn key_given(alloc: Global, space: &Space, argument: Ref) -> Result<Option<Key>, Fault>
    ensures key { IfOk result (λ key. option_map key_of key ≡ key_given space.now argument) }
    ensures fault { IfErr result (λ f. f ≡ Fault.Memory) }
{
    if is_text_kind(space.kind_of(argument)) {
        let bytes = space.text_bytes(argument).to_vec(alloc)?;
        return Ok(Some(Key::Text(bytes)));
    }
    space.key(alloc, argument)
}

/// The value of a pair, or nil.
#[inline(always)]
fn value_at(space: &Space, hash: Ref, pair: Option<usize>) -> Built
    ensures is { outcome_of result ≡ value_at space.now hash pair }
    ensures within { IsBuiltWithin (length space.now.slots) result }
    ensures among { (below : Below) → IsReadWith space.now below → IsRefAmong below hash → IsBuiltAmong below result }
{
    match pair {
        Some(pair) => {
            if pair < space.arity(hash) / 2 {
                element_at(space, hash, 2 * pair + 1)
            } else {
                Built::Value(Ref::Nil)
            }
        }
        None => Built::Value(Ref::Nil),
    }
}

/// What `[]` of a hash comes to.
pub(crate) fn hash_value(
    alloc: Global,
    space: &Space,
    hash: Ref,
    argument: Ref,
) -> Result<Built, Fault>
    requires within { IsWithin (length space.now.slots) hash }
    requires kind { kind_at space.now hash ≡ Kind.Hash }
    ensures is { IfOk result (λ built. (below : Below) → IsReadWith space.now below → IsAmong below hash → Answers (outcome_of built) ≡ hash_read below hash argument space.now) }
    ensures within { IfOk result (λ built. IsBuiltWithin (length space.now.slots) built) }
    ensures among { IfOk result (λ built. (below : Below) → IsReadWith space.now below → IsRefAmong below hash → IsBuiltAmong below built) }
    ensures fault { IfErr result (λ f. f ≡ Fault.Memory) }
{
    match key_given(alloc, space, argument)? {
        Some(key) => {
            let pair = pair_with(space, hash, &key);
            Ok(value_at(space, hash, pair))
        }
        None => Ok(Built::Raised(Problem::WrongType(space.class_of(argument)))),
    }
}

/// `[]` of a hash.
pub(crate) fn hash_read(
    alloc: Global,
    space: &Space,
    hash: Ref,
    argument: Ref,
) -> Result<Deed, Fault>
    requires within { IsWithin (length space.now.slots) hash }
    requires kind { kind_at space.now hash ≡ Kind.Hash }
    ensures act { IfOk result (λ deed. (below : Below) → IsReadWith space.now below → IsAmong below hash → act_of deed ≡ hash_read below hash argument space.now) }
    ensures fit { IfOk result (λ deed. IsFit space.now hash deed) }
    ensures among { IfOk result (λ deed. (below : Below) → IsReadWith space.now below → IsRefAmong below hash → IsDeedAmong below deed) }
    ensures fault { IfErr result (λ f. f ≡ Fault.Memory) }
{
    Ok(Deed::Answer(hash_value(alloc, space, hash, argument)?))
}

/// `key?`.
pub(crate) fn hash_has(
    alloc: Global,
    space: &Space,
    hash: Ref,
    argument: Ref,
) -> Result<Deed, Fault>
    requires within { IsWithin (length space.now.slots) hash }
    requires kind { kind_at space.now hash ≡ Kind.Hash }
    ensures act { IfOk result (λ deed. (below : Below) → IsReadWith space.now below → IsAmong below hash → act_of deed ≡ hash_has below hash argument space.now) }
    ensures fit { IfOk result (λ deed. IsFit space.now hash deed) }
    ensures among { IfOk result (λ deed. (below : Below) → IsDeedAmong below deed) }
    ensures fault { IfErr result (λ f. f ≡ Fault.Memory) }
{
    match key_given(alloc, space, argument)? {
        Some(key) => Ok(truth(pair_with(space, hash, &key).is_some())),
        None => Ok(raise(Problem::WrongType(space.class_of(argument)))),
    }
}

/// A pair for a key that a hash lacks: an unfrozen text is copied and frozen.
fn new_pair(
    alloc: Global,
    space: &Space,
    hash: Ref,
    key: Key,
    name: Ref,
    value: Ref,
) -> Result<Deed, Fault>
    requires hash { IsWritableHash space.now hash }
    requires name { IsWithin (length space.now.slots) name }
    requires value { IsWithin (length space.now.slots) value }
    requires key { key_given space.now name ≡ Some (key_of key) }
    requires lacks { LacksKey space.now hash (key_of key) }
    ensures act { IfOk result (λ deed. act_of deed ≡ stored (key_of key) None name value space.now) }
    ensures fit { IfOk result (λ deed. IsFit space.now hash deed) }
    ensures among { IfOk result (λ deed. (below : Below) → IsRefAmong below name → IsRefAmong below value → IsDeedAmong below deed) }
    ensures fault { IfErr result (λ f. f ≡ Fault.Memory) }
{
    if space.is_frozen(name) {
        Ok(Deed::AddPair(key, name, value))
    } else {
        let bytes = space.text_bytes(name).to_vec(alloc)?;
        Ok(Deed::AddText(bytes, value))
    }
}

/// `[]=` of a hash.
pub(crate) fn hash_put(
    alloc: Global,
    space: &Space,
    hash: Ref,
    argument: Ref,
    value: Ref,
) -> Result<Deed, Fault>
    requires within { IsWithin (length space.now.slots) hash }
    requires kind { kind_at space.now hash ≡ Kind.Hash }
    requires argument { IsWithin (length space.now.slots) argument }
    requires value { IsWithin (length space.now.slots) value }
    ensures act { IfOk result (λ deed. (below : Below) → IsReadWith space.now below → IsAmong below hash → act_of deed ≡ hash_put below hash argument value space.now) }
    ensures fit { IfOk result (λ deed. IsFit space.now hash deed) }
    ensures among { IfOk result (λ deed. (below : Below) → IsRefAmong below argument → IsRefAmong below value → IsDeedAmong below deed) }
    ensures fault { IfErr result (λ f. f ≡ Fault.Memory) }
{
    if !space.can_write(hash) {
        return Ok(raise(Problem::Frozen(space.class_of(hash))));
    }
    match key_given(alloc, space, argument)? {
        Some(key) => match own_pair(space, hash, &key) {
            Some(pair) => Ok(Deed::SetValue(key, pair, value)),
            None => new_pair(alloc, space, hash, key, argument, value),
        },
        None => Ok(raise(Problem::WrongType(space.class_of(argument)))),
    }
}

/// `delete`.
pub(crate) fn hash_delete(
    alloc: Global,
    space: &Space,
    hash: Ref,
    argument: Ref,
) -> Result<Deed, Fault>
    requires within { IsWithin (length space.now.slots) hash }
    requires kind { kind_at space.now hash ≡ Kind.Hash }
    ensures act { IfOk result (λ deed. (below : Below) → IsReadWith space.now below → IsAmong below hash → act_of deed ≡ hash_delete below hash argument space.now) }
    ensures fit { IfOk result (λ deed. IsFit space.now hash deed) }
    ensures among { IfOk result (λ deed. (below : Below) → IsDeedAmong below deed) }
    ensures fault { IfErr result (λ f. f ≡ Fault.Memory) }
{
    if !space.can_write(hash) {
        return Ok(raise(Problem::Frozen(space.class_of(hash))));
    }
    match key_given(alloc, space, argument)? {
        Some(key) => match own_pair(space, hash, &key) {
            Some(pair) => Ok(Deed::TakePair(pair)),
            None => Ok(Deed::Answer(Built::Value(Ref::Nil))),
        },
        None => Ok(raise(Problem::WrongType(space.class_of(argument)))),
    }
}

/// The pair of a hash of the space, which may be written, that has the key.
fn own_pair(space: &Space, hash: Ref, key: &Key) -> Option<usize>
    requires hash { IsWritableHash space.now hash }
    ensures is { (below : Below) → result ≡ pair_with below space.now hash (key_of key.now) }
    ensures first { IfSome result (λ i. (ks : List HashKey) → keys_at space.now hash ≡ Some ks → IsFirstAt ks (key_of key.now) i) }
    ensures inside { IfSome result (HasPair space.now hash) }
    ensures lacks { IfNone result (LacksKey space.now hash (key_of key.now)) }
{
    let _count = space.len();
    space.find(hash, key)
}

/// Puts a value under a key of a hash, which may be written: in the pair that has the key, or in a new one behind the others,
/// whose key object is this one.
#[inline(always)]
pub(crate) fn store(
    space: &mut Space,
    hash: Ref,
    key: Key,
    name: Ref,
    value: Ref,
) -> Result<Built, Fault>
    requires hash { IsWritableHash space.old hash }
    requires name { IsWithin (length space.old.slots) name }
    requires value { IsWithin (length space.old.slots) value }
    requires named { key_at space.old name ≡ Some (key_of key) }
    ensures act { (below : Below) → IsReadWith space.old below → IsRefAmong below name → IsRefAmong below value
        → Acts below (performed (stored (key_of key) (pair_with below space.old hash (key_of key)) name value space.old) hash) space.old space.new result }
    ensures served { IsServed space.old space.new result }
{
    // The hash has its keys, as the clause of the number says.
    let _count = space.len();
    // The key is looked up once: whether it is there is not asked before.
    match space.write_pair(hash, key, name, value) {
        Ok(()) => Ok(Built::Value(value)),
        Err(fault) => Err(fault),
    }
}
