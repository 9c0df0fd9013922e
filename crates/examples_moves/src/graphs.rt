//! Graphs that arrive as they were, and leave shells behind.

use crate::spaces::{opened, other, sent, under};
use rr_base::RactorNo;
use rr_copy::Message;
use rr_space::{Entries, Items, Key, Kind, Label, Node, Ref, Space};
use std::alloc::Global;
use std::process::Abort;
use std::test::Fail;

// An array of one text twice, moved out of a space of its own.
fn twice_message(rt: &impl Abort, alloc: Global) -> Result<Message, Fail> {
    let mut space = Space::new(alloc, RactorNo(1), 10);
    let text = space.alloc(Node::Text(b"q".to_vec(alloc)?))?;
    let array = space.alloc(Node::Array(Items::two(alloc, text, text)))?;
    let message = sent(rt, alloc, &mut space, array)?;
    assert!(rt; space.kind_of(array) == Kind::Shell);
    assert!(rt; space.kind_of(text) == Kind::Shell);
    Ok(message)
}

#[test]
fn one_text_under_two_places_is_moved_as_one(rt: HostRuntime) -> Result<(), Fail> {
    let message = twice_message(&rt, rt.alloc())?;
    assert!(rt; message.size() == 2);
    assert!(rt; message.sequence() == 1);
    let mut space = other(rt.alloc())?;
    let root = opened(&mut space, message)?;
    let first = under(&space, root, Label::Place(0))?;
    let second = under(&space, root, Label::Place(1))?;
    assert!(rt; space.same(first, second));
    assert!(rt; space.text_bytes(first) == b"q".as_slice());
    Ok(())
}

// A hash of a text key and an integer key, moved out of a space of its own.
fn hash_message(rt: &impl Abort, alloc: Global) -> Result<Message, Fail> {
    let mut space = Space::new(alloc, RactorNo(1), 10);
    let key = space.alloc(Node::Text(b"key".to_vec(alloc)?))?;
    let mut entries = Entries::new(alloc);
    entries.insert(Key::Text(b"key".to_vec(alloc)?), (key, Ref::Int(1)))?;
    entries.insert(Key::Int(5), (Ref::Int(5), key))?;
    let hash = space.alloc(Node::Hash(Box::new(alloc, entries)?))?;
    sent(rt, alloc, &mut space, hash)
}

#[test]
fn the_keys_of_a_hash_are_found_on_the_other_side(rt: HostRuntime) -> Result<(), Fail> {
    let message = hash_message(&rt, rt.alloc())?;
    let mut space = other(rt.alloc())?;
    let root = opened(&mut space, message)?;
    let key = Key::Text(b"key".to_vec(rt.alloc())?);
    assert!(rt; space.find(root, &key) == Some(0));
    assert!(rt; space.find(root, &Key::Int(5)) == Some(1));
    assert!(rt; space.find(root, &Key::Int(1)).is_none());
    Ok(())
}
