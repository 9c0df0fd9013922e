//! Moving a value into the hand, and putting it back.

ghost use Rattle.std.specs.Prelude.{◌≡◌, length, IfOk, IfErr, IfSome, IfNone};
ghost use Rattle.rr_space.specs.Parts.{IsWithin};
ghost use Rattle.rr_move.specs.declared.home.Detached.{Detached as MovedAway};
ghost use Rattle.rr_world.specs.Moving.{Detaches, IsMovedFrom, IsMoveRefused, PutsBackInto};
ghost use Rattle.rr_world.specs.Packing.{IsNotPacked};

use crate::outcome::Outcome;
use crate::ractor::Ractor;
use crate::step::Operand;
use rr_base::Fault;
use rr_copy::{Message, can_pack};
use rr_move::{Hand, Home, detach_found, reattach};
use rr_share::reached_objects;
use rr_space::{Ref, Space};
use std::alloc::Global;

// What `value` leads to, moved out of the space; none where a shareable object that it leads to is not published.
//
// The faults leave the space as it was: `HoldsShell`, where the value leads to an object that was moved away; `Limit(Slots)`,
// where all numbers of messages are used; and `Memory`.
fn moved_out(alloc: Global, space: &mut Space, value: Ref) -> Result<Option<(Message, Home)>, Fault>
    requires { IsWithin (length space.old.slots) value }
    ensures moved { IfOk result (λ moved. IfSome moved (λ parts. (d : MovedAway) × (parts.0 ≡ d.message) × (parts.1 ≡ d.home) × IsMovedFrom space.old value d space.new)) }
    ensures none { IfOk result (λ moved. IfNone moved (IsNotPacked space.old value × (space.new ≡ space.old))) }
    ensures fault { IfErr result (λ fault. IsMoveRefused fault space.old value × (space.new ≡ space.old)) }
{
    // With the number of slots comes that no reference in them leads nowhere.
    let _slots = space.len();
    let found = reached_objects(alloc, space, value)?;
    if !can_pack(alloc, space, value)? {
        return Ok(None);
    }
    let (message, home) = detach_found(alloc, space, value, found)?.message();
    // With the size comes what a message keeps.
    let _size = message.size();
    Ok(Some((message, home)))
}

impl Ractor {
    /// Moves what the value leads to into the empty hand.
    pub(crate) fn detach(&mut self, alloc: Global, operand: Operand) -> Outcome
        ensures { Detaches operand result self.old self.new }
    {
        if !self.hand.is_empty() {
            return Outcome::NotEnabled;
        }
        let Some(value) = self.named(operand) else {
            return Outcome::NotEnabled;
        };
        match moved_out(alloc, &mut self.space, value) {
            Ok(Some((message, home))) => {
                self.hand = Hand::of_message(message, Some(home));
                Outcome::Done
            }
            Ok(None) => Outcome::NotEnabled,
            Err(fault) => Outcome::Refused(fault),
        }
    }

    /// Puts the moved message in the hand back into its home.
    pub(crate) fn put_back(&mut self) -> Outcome
        ensures { PutsBackInto result self.old self.new }
    {
        let Some(moved) = self.hand.take_moved() else {
            return Outcome::NotEnabled;
        };
        reattach(&mut self.space, moved);
        Outcome::Done
    }
}
