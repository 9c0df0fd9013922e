//! Moving between two spaces.

ghost use Rattle.std.specs.Prelude.{◌≡◌, ℕ, slice_get, Some, Contains, IfOk};
ghost use Rattle.rr_space.specs.Tables.{Here};
ghost use Rattle.rr_space.specs.Views.{emptied};

use rr_base::RactorNo;
use rr_copy::{Message, can_pack, open};
use rr_move::{Detached, detach};
use rr_space::{Items, Label, Node, Ref, Space};
use std::alloc::Global;
use std::process::Abort;
use std::test::Fail;

// What an object of the space leads to, moved out of it.
pub fn moved(
    rt: &impl Abort,
    alloc: Global,
    space: &mut Space,
    value: Ref,
) -> Result<Detached, Fail>
    ensures { IfOk result (λ d. (n : ℕ) → Contains d.home.slots n → slice_get space.new.slots n ≡ Some (Here emptied)) }
{
    let Ref::Local(slot) = value else {
        return Err(Fail::from("no object of the space"));
    };
    assert!(rt; (slot as usize) < space.len());
    assert!(rt; can_pack(alloc, space, value)?);
    Ok(detach(alloc, space, value)?)
}

// The same as a message, without its home.
pub fn sent(
    rt: &impl Abort,
    alloc: Global,
    space: &mut Space,
    value: Ref,
) -> Result<Message, Fail> {
    Ok(moved(rt, alloc, space, value)?.message().0)
}

pub fn opened(space: &mut Space, message: Message) -> Result<Ref, Fail> {
    match open(space, message) {
        Ok(root) => Ok(root),
        Err(_) => Err(Fail::from("the message was not opened")),
    }
}

// What stands in an object under a label.
pub fn under(space: &Space, value: Ref, label: Label) -> Result<Ref, Fail> {
    match space.read(value, label) {
        Some(found) => Ok(found),
        None => Err(Fail::from("nothing stands there")),
    }
}

// A space with one object, so that what is opened there gets other names.
pub fn other(alloc: Global) -> Result<Space, Fail> {
    let mut space = Space::new(alloc, RactorNo(2), 10);
    space.alloc(Node::Array(Items::new(alloc)))?;
    Ok(space)
}
