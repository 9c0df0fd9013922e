//! Steps that change the pairs of a hash.

ghost use Rattle.std.specs.Prelude.{◌≡◌, ◌↔◌, length, IfSome, IfNone, IsTrue, IsSome};
ghost use Rattle.rr_space.specs.Lookups.{key_at};
ghost use Rattle.rr_space.specs.Parts.{IsWithin};
ghost use Rattle.rr_world.specs.Changing.{IsNamedRef};
ghost use Rattle.rr_world.specs.Packing.{named_ref};
ghost use Rattle.rr_world.specs.Pairing.{DeletesPair, HasKeyRef, IsKeyRef, IsWritableHash, MayBePaired, SetsPair};

use crate::outcome::Outcome;
use crate::ractor::Ractor;
use crate::step::Operand;
use rr_space::{Kind, Ref, Space};
use std::alloc::Global;

// Whether the value can be a key of a hash: it is an immediate, or leads to a frozen text.
fn can_be_key(space: &Space, value: Ref) -> bool
    ensures { IsTrue result ↔ IsSome (key_at space.now value) }
{
    match value {
        Ref::Local(_) | Ref::Shared(_, _) => {
            space.kind_of(value) == Kind::Text && space.is_frozen(value)
        }
        _ => true,
    }
}

impl Ractor {
    // The hash that the operand is, where it may be written.
    fn writable_hash(&self, hash: Operand) -> Option<Ref>
        ensures some { IfSome result (λ v. IsWritableHash hash self.now v) }
        ensures none { IfNone result (MayBePaired hash self.now → ⊥) }
    {
        let hash = self.named(hash)?;
        if !self.space.can_write(hash) || self.space.kind_of(hash) != Kind::Hash {
            return None;
        }
        Some(hash)
    }

    // The value that the operand is, where it can be a key.
    fn key_object(&self, key: Operand) -> Option<Ref>
        ensures some { IfSome result (λ v. IsKeyRef key self.now v) }
        ensures none { IfNone result (HasKeyRef key self.now → ⊥) }
    {
        let key = self.named(key)?;
        if can_be_key(&self.space, key) {
            Some(key)
        } else {
            None
        }
    }

    // The hash, the key object and the value that the operands are.
    fn named_pair(&self, hash: Operand, key: Operand, value: Operand) -> Option<(Ref, Ref, Ref)>
        ensures hash { IfSome result (λ p. IsWritableHash hash self.now p.0) }
        ensures key { IfSome result (λ p. IsKeyRef key self.now p.1) }
        ensures value { IfSome result (λ p. named_ref self.now.roots value ≡ Some p.2) }
        ensures within { IfSome result (λ p. IsWithin (length self.now.space.slots) p.2) }
        ensures none { IfNone result (MayBePaired hash self.now → HasKeyRef key self.now → IsNamedRef value self.now → ⊥) }
    {
        let hash = self.writable_hash(hash)?;
        let key = self.key_object(key)?;
        let value = self.named(value)?;
        Some((hash, key, value))
    }

    /// Gives a key a value in a hash.
    pub(crate) fn set_pair(
        &mut self,
        alloc: Global,
        hash: Operand,
        key: Operand,
        value: Operand,
    ) -> Outcome
        ensures { SetsPair hash key value result self.old self.new }
    {
        // With the number of slots comes that each hash has as many keys as pairs.
        let _slots = self.space.len();
        let Some((hash, name, value)) = self.named_pair(hash, key, value) else {
            return Outcome::NotEnabled;
        };
        let key = match self.space.key(alloc, name) {
            Ok(Some(key)) => key,
            Ok(None) => return Outcome::NotEnabled,
            Err(fault) => return Outcome::Refused(fault),
        };
        // With the place comes which pair has the key.
        let _place = self.space.find(hash, &key);
        if let Err(fault) = self.space.write_pair(hash, key, name, value) {
            return Outcome::Refused(fault);
        }
        Outcome::Done
    }

    /// Takes a pair out of a hash.
    pub(crate) fn delete_pair(&mut self, hash: Operand, place: u32) -> Outcome
        ensures { DeletesPair hash place result self.old self.new }
    {
        // With the number of slots comes that each hash has as many keys as pairs.
        let _slots = self.space.len();
        let Some(hash) = self.writable_hash(hash) else {
            return Outcome::NotEnabled;
        };
        let Some(_pair) = self.space.delete_pair(hash, place as usize) else {
            return Outcome::NotEnabled;
        };
        Outcome::Done
    }
}
