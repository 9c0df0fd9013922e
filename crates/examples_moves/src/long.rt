//! A long chain, and a value that is moved many times.

use crate::spaces::{moved, opened, sent};
use rr_base::RactorNo;
use rr_move::reattach;
use rr_space::{Items, Node, Ref, Space};
use std::alloc::Global;
use std::process::Abort;
use std::test::Fail;

const LONG: u32 = 100_000;

// Adds an array of the object before it, or of nil where there is none.
fn wrap(alloc: Global, space: &mut Space) -> Result<(), Fail> {
    let inner = match space.len() {
        0 => Ref::Nil,
        count => Ref::Local(count as u32 - 1),
    };
    space.alloc(Node::Array(Items::one(alloc, inner)))?;
    Ok(())
}

// A space of arrays in one another, with nil in the innermost.
fn chain(alloc: Global) -> Result<Space, Fail> {
    let mut space = Space::new(alloc, RactorNo(1), LONG);
    for _ in 0..LONG {
        wrap(alloc, &mut space)?;
    }
    Ok(space)
}

fn is_chain(space: &Space, chain: Ref) -> bool {
    let mut value = chain;
    for _ in 0..LONG {
        match space.part(value, 0) {
            Some((_, inner)) => value = inner,
            None => return false,
        }
    }
    matches!(value, Ref::Nil)
}

// The chain is moved out of the space, and put back.
fn check_back(rt: &impl Abort, alloc: Global, space: &mut Space, value: Ref) -> Result<(), Fail> {
    let detached = moved(rt, alloc, space, value)?;
    assert!(rt; !is_chain(space, value));
    reattach(space, detached);
    assert!(rt; is_chain(space, value));
    Ok(())
}

#[test]
fn a_long_chain_is_moved_and_put_back(rt: HostRuntime) -> Result<(), Fail> {
    let mut here = chain(rt.alloc())?;
    let message = sent(&rt, rt.alloc(), &mut here, Ref::Local(LONG - 1))?;
    assert!(rt; message.size() == LONG);
    let mut there = Space::new(rt.alloc(), RactorNo(2), LONG);
    let value = opened(&mut there, message)?;
    check_back(&rt, rt.alloc(), &mut there, value)
}

// Takes what is in the first slot out and puts it back.
fn there_and_back(rt: &impl Abort, alloc: Global, space: &mut Space) -> Result<(), Fail> {
    let detached = moved(rt, alloc, space, Ref::Local(0))?;
    reattach(space, detached);
    Ok(())
}

#[test]
fn a_value_is_moved_many_times(rt: HostRuntime) -> Result<(), Fail> {
    let mut space = Space::new(rt.alloc(), RactorNo(1), 10);
    space.alloc(Node::Array(Items::one(rt.alloc(), Ref::Int(7))))?;
    for _ in 0..100_000 {
        there_and_back(&rt, rt.alloc(), &mut space)?;
    }
    assert!(rt; space.next_message() == 100_001);
    assert!(rt; space.arity(Ref::Local(0)) == 1);
    Ok(())
}
