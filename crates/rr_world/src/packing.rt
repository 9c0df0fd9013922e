//! Packing a value, where it may be packed.

ghost use Rattle.std.specs.Prelude.{length, IfOk, IfErr, IfSome, IfNone};
ghost use Rattle.rr_space.specs.Parts.{IsWithin};
ghost use Rattle.rr_world.specs.Packing.{IsNotPacked, IsPackedFrom, IsPackRefused};

use rr_base::Fault;
use rr_copy::{Message, can_pack, pack_copy};
use rr_share::reached_objects;
use rr_space::{Ref, Space};
use std::alloc::Global;

/// A copy of what `value` leads to, as a message; none where a shareable object that it leads to is not published.
///
/// The faults are `HoldsShell`, where the value leads to an object that was moved away, and `Memory`.
pub(crate) fn copy_of(alloc: Global, space: &Space, value: Ref) -> Result<Option<Message>, Fault>
    requires { IsWithin (length space.now.slots) value }
    ensures copy { IfOk result (λ packed. IfSome packed (λ message. IsPackedFrom space.now value message)) }
    ensures none { IfOk result (λ packed. IfNone packed (IsNotPacked space.now value)) }
    ensures fault { IfErr result (λ fault. IsPackRefused fault space.now value) }
{
    // With the number of slots comes that no reference in them leads nowhere.
    let _slots = space.len();
    // A shell is told before it is asked whether all that is shareable is published.
    let _found = reached_objects(alloc, space, value)?;
    if !can_pack(alloc, space, value)? {
        return Ok(None);
    }
    let message = pack_copy(alloc, space, value)?;
    // With the size comes what a message keeps.
    let _size = message.size();
    Ok(Some(message))
}
