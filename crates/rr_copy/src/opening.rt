//! Opening a message in a space.

ghost use Rattle.std.specs.Prelude.{◌≡◌, ◌+◌, ◌<◌, ◌≤◌, ◌^◌, ◌⊎◌, ℕ, length, IfOk, IfErr};
ghost use Rattle.rr_space.specs.Graph.{Alike};
ghost use Rattle.rr_space.specs.Tables.{renamed, behind};
ghost use Rattle.rr_space.specs.Moves.{IsOpened};
ghost use Rattle.rr_space.specs.Parts.{value_of, below_ref};
ghost use Rattle.rr_space.specs.Tables.{message_graph, space_graph, resolve};
ghost use Rattle.rr_space.specs.Parts.{IsWithin};
ghost use Rattle.rr_copy.specs.Messages.{size_of, Behind};

use crate::message::Message;
use rr_base::{Fault, LimitKind};
use rr_space::{Ref, Space};

// The value behind the first slots: a place becomes the slot as far behind them.
fn stood_behind(value: Ref, first: u32) -> Ref
    requires { (place : ℕ) → value ≡ Ref.Local place → first + place < 2 ^ 32 }
    ensures value { value_of result ≡ renamed (behind first) (value_of value) }
    ensures below { below_ref result ≡ below_ref value }
    ensures within { (count : ℕ) → IsWithin count value → IsWithin (first + count) result }
{
    match value {
        Ref::Local(place) => Ref::Local(first + place),
        other => other,
    }
}

/// Brings a message's objects into a space, behind those that are there, and answers its root.
///
/// A refusal hands back the very message and leaves the space as it was: `Limit(Slots)` where there would be more slots
/// than there may be, and `Memory` where a growth was refused. A message without objects is always opened.
pub fn open(space: &mut Space, message: Message) -> Result<Ref, (Fault, Message)>
    ensures opened { IfOk result (λ root. IsOpened message space.old space.new (value_of root)) }
    ensures alike { IfOk result (λ root. Alike (message_graph message) message.root (space_graph space.new) (resolve space.new.slots (value_of root)) (Behind message (length space.old.slots))) }
    ensures within { IfOk result (λ root. IsWithin (length space.new.slots) root) }
    ensures below { IfOk result (λ root. below_ref root ≡ message.root_below) }
    ensures back { IfErr result (λ refusal. (refusal.1 ≡ message) × (space.new ≡ space.old)) }
    ensures fault { IfErr result (λ refusal. ((refusal.0 ≡ Fault.Memory) × (length space.old.slots + size_of message ≤ space.old.limit)) ⊎ ((refusal.0 ≡ Fault.Limit LimitKind.Slots) × (space.old.limit < length space.old.slots + size_of message))) }
    ensures grows { IfErr result (λ refusal. 1 ≤ size_of message) }
{
    let Message {
        objects,
        root,
        sender,
        sequence,
    } = message;
    let _limit = space.limit();
    let first = space.len() as u32;
    match space.append(objects) {
        Ok(()) => {
            let _slots = space.len();
            Ok(stood_behind(root, first))
        }
        Err((fault, objects)) => Err((
            fault,
            Message {
                objects,
                root,
                sender,
                sequence,
            },
        )),
    }
}
