//! What writes leave: the usual path of each call.

use rr_base::{ClassId, RactorNo, Sym};
use rr_space::{Entries, Items, Key, Kind, Node, Ref, Space};
use std::alloc::Global;
use std::process::Abort;
use std::test::Fail;

fn set(space: &mut Space, hash: Ref, key: i64, value: i64) -> Result<(), Fail> {
    if space.can_write(hash) && space.kind_of(hash) == Kind::Hash {
        return Ok(space.write_pair(hash, Key::Int(key), Ref::Int(key), Ref::Int(value))?);
    }
    Err(Fail::from("no hash that may be written"))
}

fn unset(space: &mut Space, hash: Ref, place: usize) -> Option<(Ref, Ref)> {
    if space.can_write(hash) && space.kind_of(hash) == Kind::Hash {
        return space.delete_pair(hash, place);
    }
    None
}

fn push(space: &mut Space, array: Ref, item: i64) -> Result<(), Fail> {
    if space.can_write(array) && space.kind_of(array) == Kind::Array {
        return Ok(space.push_element(array, Ref::Int(item))?);
    }
    Err(Fail::from("no array that may be written"))
}

fn take(space: &mut Space, array: Ref, place: usize) -> Option<Ref> {
    if space.can_write(array) && space.kind_of(array) == Kind::Array {
        return space.take_element(array, place);
    }
    None
}

fn set_field(space: &mut Space, object: Ref, name: Sym, value: i64) -> Result<(), Fail> {
    if space.can_write(object) && space.kind_of(object) == Kind::Object {
        return Ok(space.write_field(object, name, Ref::Int(value))?);
    }
    Err(Fail::from("no object that may be written"))
}

fn append(space: &mut Space, text: Ref, bytes: &[u8]) -> Result<(), Fail> {
    if space.can_write(text) && space.kind_of(text) == Kind::Text {
        return Ok(space.append_text(text, bytes)?);
    }
    Err(Fail::from("no text that may be written"))
}

/// The integers that an object leads to, in order.
fn integers(alloc: Global, space: &Space, value: Ref) -> Result<Vec<i64>, Fail> {
    let mut found = Vec::new(alloc);
    for k in 0..space.arity(value) {
        if let Some((_, Ref::Int(number))) = space.part(value, k) {
            found.push(number)?;
        }
    }
    Ok(found)
}

fn check(
    rt: &impl Abort,
    alloc: Global,
    space: &Space,
    value: Ref,
    wanted: &[i64],
) -> Result<(), Fail> {
    let found = integers(alloc, space, value)?;
    assert!(rt; found.as_slice() == wanted);
    Ok(())
}

#[test]
fn bytes_come_behind_those_that_are_there(rt: HostRuntime) -> Result<(), Fail> {
    let mut space = Space::new(rt.alloc(), RactorNo(1), 10);
    let text = space.alloc(Node::Text(b"ab".to_vec(rt.alloc())?))?;
    for bytes in [b"".as_slice(), b"c".as_slice(), b"de".as_slice()] {
        append(&mut space, text, bytes)?;
    }
    assert!(rt; space.text_bytes(text) == b"abcde".as_slice());
    Ok(())
}

#[test]
fn pairs_keep_the_order_of_insertion(rt: HostRuntime) -> Result<(), Fail> {
    let mut space = Space::new(rt.alloc(), RactorNo(1), 10);
    let entries = Box::new(rt.alloc(), Entries::new(rt.alloc()))?;
    let hash = space.alloc(Node::Hash(entries))?;
    for (key, value) in [(5, 50), (3, 30), (4, 40), (3, 31)] {
        set(&mut space, hash, key, value)?;
    }
    check(&rt, rt.alloc(), &space, hash, &[5, 50, 3, 31, 4, 40])?;
    assert!(rt; unset(&mut space, hash, 0).is_some());
    assert!(rt; unset(&mut space, hash, 2).is_none());
    check(&rt, rt.alloc(), &space, hash, &[3, 31, 4, 40])
}

#[test]
fn elements_close_up(rt: HostRuntime) -> Result<(), Fail> {
    let mut space = Space::new(rt.alloc(), RactorNo(1), 10);
    let array = space.alloc(Node::Array(Items::new(rt.alloc())))?;
    for item in 0..5i64 {
        push(&mut space, array, item)?;
    }
    assert!(rt; take(&mut space, array, 1).is_some());
    assert!(rt; take(&mut space, array, 4).is_none());
    check(&rt, rt.alloc(), &space, array, &[0, 2, 3, 4])
}

/// A new object without fields.
fn object(alloc: Global, space: &mut Space) -> Result<Ref, Fail> {
    Ok(space.alloc(Node::Object(ClassId::ARRAY, Vec::new(alloc)))?)
}

#[test]
fn fields_keep_the_order_of_their_first_writing(rt: HostRuntime) -> Result<(), Fail> {
    let mut space = Space::new(rt.alloc(), RactorNo(1), 10);
    let object = object(rt.alloc(), &mut space)?;
    for (name, value) in [(7, 1), (3, 2), (7, 3)] {
        set_field(&mut space, object, Sym(name), value)?;
    }
    check(&rt, rt.alloc(), &space, object, &[3, 2])
}
