//! Small arrays in a space, and one large hash.

use crate::clock::Laps;
use crate::pairs::{insert, look_up, new_hash};
use rr_base::{Fault, RactorNo};
use rr_space::{Items, Label, Node, Ref, Space};
use std::alloc::Global;
use std::io;

const COUNT: u32 = 10_000_000;

const PAIRS: u32 = 1_000_000;

/// Keys that are far apart.
const SCATTERED: u32 = 2_654_435_761;

fn make(alloc: Global, space: &mut Space) -> Result<(), Fault> {
    for k in 0..COUNT {
        let items = Items::two(alloc, Ref::Int(i64::from(k)), Ref::Int(1));
        space.alloc(Node::Array(items))?;
    }
    Ok(())
}

/// The integer in a place of the array in a slot.
fn integer(space: &Space, slot: u32, place: usize) -> i64 {
    match space.part(Ref::Local(slot), place) {
        Some((Label::Place(_), Ref::Int(item))) => item,
        _ => 0,
    }
}

fn sum(space: &Space) -> i64 {
    let mut sum = 0i64;
    for slot in 0..COUNT {
        let both = integer(space, slot, 0).wrapping_add(integer(space, slot, 1));
        sum = sum.wrapping_add(both);
    }
    sum
}

fn measure_arrays(rt: &HostRuntime) -> io::Result<()> {
    let mut space = Space::new(rt.alloc(), RactorNo(1), u32::MAX);
    let mut laps = Laps::begin(rt)?;
    let made = make(rt.alloc(), &mut space).is_ok();
    let making = laps.each(rt, COUNT)?;
    let total = sum(&space);
    let reading = laps.each(rt, COUNT)?;
    println!(rt; "made: {made}, {making} ns each; read: {reading} ns each, sum {total}")
}

fn measure_hash(rt: &HostRuntime) -> io::Result<()> {
    let mut space = Space::new(rt.alloc(), RactorNo(1), u32::MAX);
    let Ok(hash) = new_hash(rt.alloc(), &mut space) else {
        return println!(rt; "no memory for a hash");
    };
    let mut laps = Laps::begin(rt)?;
    let done = insert(&mut space, hash, PAIRS, SCATTERED).is_ok();
    let inserting = laps.each(rt, PAIRS)?;
    let found = look_up(&space, hash, PAIRS, SCATTERED);
    let looking = laps.each(rt, PAIRS)?;
    println!(rt; "pairs: {done}, {inserting} ns each; looked up: {found}, {looking} ns each")
}

pub fn measure(rt: &HostRuntime) -> io::Result<()> {
    measure_arrays(rt)?;
    measure_hash(rt)
}
