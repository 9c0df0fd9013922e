//! Arrays of few elements.

use crate::spaces::{opened, other, sent};
use rr_base::RactorNo;
use rr_space::{Items, Kind, Node, Ref, Space};
use std::alloc::Global;
use std::process::Abort;
use std::test::Fail;

// Adds an integer to the array in the first slot.
fn push(space: &mut Space, item: i64) -> Result<(), Fail> {
    let array = Ref::Local(0);
    if space.can_write(array) && space.kind_of(array) == Kind::Array {
        return Ok(space.push_element(array, Ref::Int(item))?);
    }
    Err(Fail::from("no array that may be written"))
}

// A space of one array, of the integers from 0 on.
fn array_of(alloc: Global, count: u32) -> Result<Space, Fail> {
    let mut space = Space::new(alloc, RactorNo(1), 10);
    space.alloc(Node::Array(Items::new(alloc)))?;
    for item in 0..count {
        push(&mut space, item as i64)?;
    }
    Ok(space)
}

// Whether the array has the integers from 0 on, and no more.
fn counts(space: &Space, array: Ref, count: u32) -> bool {
    for place in 0..count {
        match space.part(array, place as usize) {
            Some((_, Ref::Int(number))) if number == place as i64 => {}
            _ => return false,
        }
    }
    space.arity(array) == count as usize
}

// Moves an array of the integers from 0 on elsewhere.
fn check_array(rt: &impl Abort, alloc: Global, count: u32) -> Result<(), Fail> {
    let mut here = array_of(alloc, count)?;
    let message = sent(rt, alloc, &mut here, Ref::Local(0))?;
    assert!(rt; message.size() == 1);
    let mut there = other(alloc)?;
    let root = opened(&mut there, message)?;
    assert!(rt; counts(&there, root, count));
    Ok(())
}

#[test]
fn short_arrays_are_moved(rt: HostRuntime) -> Result<(), Fail> {
    for count in 0..4 {
        check_array(&rt, rt.alloc(), count)?;
    }
    Ok(())
}
