//! A message to send.

ghost use Rattle.std.specs.Prelude.{length};
ghost use Rattle.rr_space.specs.Parts.{IsWithin};

use rr_base::{Fault, RactorNo};
use rr_copy::{Message, can_pack, pack_copy};
use rr_space::{Items, Node, Ref, Space};
use std::alloc::Global;
use std::process::Abort;

// The last object of the space, or a number where there is none.
fn last(space: &Space) -> Ref
    ensures { IsWithin (length space.now.slots) result }
{
    match space.len() {
        0 => Ref::Int(7),
        count => Ref::Local(count as u32 - 1),
    }
}

// A space of so many arrays in one another, and a number in the innermost.
fn nested(alloc: Global, sender: RactorNo, size: u32) -> Result<Space, Fault> {
    let mut space = Space::new(alloc, sender, 10);
    for _ in 0..size {
        let inner = last(&space);
        space.alloc(Node::Array(Items::one(alloc, inner)))?;
    }
    Ok(space)
}

// A message of that many objects: arrays in one another, and a number in the innermost.
pub fn message(
    rt: &impl Abort,
    alloc: Global,
    sender: RactorNo,
    size: u32,
) -> Result<Message, Fault> {
    let space = nested(alloc, sender, size)?;
    let value = last(&space);
    assert!(rt; can_pack(alloc, &space, value)?);
    pack_copy(alloc, &space, value)
}
