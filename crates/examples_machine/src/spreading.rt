//! An array that is the only argument of the block.

use crate::block::{SECOND, run_block};
use crate::scripts::program_of;
use rr_base::{Fault, Limits};
use rr_eval::make_first;
use rr_space::{Items, Node, Ref, Space};
use rr_store::StoreState;
use std::alloc::Global;
use std::test::Fail;

/// Runs the block of a script with an array of 1 and 2, the fourth object.
fn run_with_array(alloc: Global, script: &str) -> Result<Vec<u8>, Fault> {
    let prepared = program_of(alloc, script)?;
    let store = StoreState::new(alloc, 100);
    let mut space = Space::new(alloc, SECOND, 1000);
    make_first(alloc, &mut space)?;
    let items = Items::from_vec(Vec::from_slice(alloc, &[Ref::Int(1), Ref::Int(2)])?);
    let array = space.alloc(Node::Array(items))?;
    run_block(
        alloc,
        &prepared,
        &store,
        Limits::DEFAULT,
        &mut space,
        &[array],
    )
}

#[test]
fn one_array_is_spread_over_several_parameters(rt: HostRuntime) -> Result<(), Fail> {
    let told = run_with_array(rt.alloc(), "Ractor.new { |a, b| a + b }")
        .ok()
        .ok_or("refused")?;
    assert!(rt; told.as_slice() == b"3".as_slice());
    let told = run_with_array(rt.alloc(), "Ractor.new { |a| a }")
        .ok()
        .ok_or("refused")?;
    assert!(rt; told.as_slice() == b"the fourth object".as_slice());
    Ok(())
}
