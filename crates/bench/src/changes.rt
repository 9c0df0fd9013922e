//! Objects that are written: a text that grows, an array that is emptied from its front, and hashes.

use crate::clock::Laps;
use crate::pairs::{insert, look_up, new_hash};
use rr_base::{Fault, RactorNo};
use rr_share::plan;
use rr_space::{Items, Kind, Node, Published, Ref, Space};
use std::alloc::Global;
use std::io;

const MANY: u32 = 1_000_000;

/// Pairs that are deleted from the front of a hash, where each deletion moves those behind it.
const FEWER: u32 = 20_000;

/// Each key is one more than the one before.
const IN_ORDER: u32 = 1;

fn grow(space: &mut Space, text: Ref, count: u32) -> Result<(), Fault> {
    for _ in 0..count {
        if space.can_write(text) && space.kind_of(text) == Kind::Text {
            space.append_text(text, b"x")?;
        }
    }
    Ok(())
}

fn fill(space: &mut Space, array: Ref) -> Result<(), Fault> {
    for k in 0..MANY {
        if space.can_write(array) && space.kind_of(array) == Kind::Array {
            space.push_element(array, Ref::Int(i64::from(k)))?;
        }
    }
    Ok(())
}

fn shift_all(space: &mut Space, array: Ref) -> u32 {
    let mut shifted = 0u32;
    for _ in 0..MANY {
        if space.can_write(array)
            && space.kind_of(array) == Kind::Array
            && space.take_element(array, 0).is_some()
        {
            shifted = shifted.wrapping_add(1);
        }
    }
    shifted
}

fn delete_all(space: &mut Space, hash: Ref) -> u32 {
    let mut deleted = 0u32;
    for _ in 0..FEWER {
        if space.can_write(hash)
            && space.kind_of(hash) == Kind::Hash
            && space.delete_pair(hash, 0).is_some()
        {
            deleted = deleted.wrapping_add(1);
        }
    }
    deleted
}

/// A space of one frozen hash, of a million integers.
fn frozen_hash(alloc: Global) -> Result<Space, Fault> {
    let mut space = Space::new(alloc, RactorNo(1), u32::MAX);
    let hash = new_hash(alloc, &mut space)?;
    insert(&mut space, hash, MANY, IN_ORDER)?;
    if space.can_freeze(hash) {
        space.freeze(hash);
    }
    Ok(space)
}

/// What a copy of the frozen object in the first slot is known by, once it is published.
fn published(alloc: Global, space: &Space) -> Result<Option<Ref>, Fault> {
    if space.len() == 0 {
        return Ok(None);
    }
    match plan(alloc, space, Ref::Local(0))?.cluster.publish(alloc, 0) {
        Ok(cluster) if cluster.len() == 1 => Ok(Some(Published { cluster }.at(0))),
        _ => Ok(None),
    }
}

fn measure_text(rt: &HostRuntime, space: &mut Space, count: u32) -> io::Result<()> {
    let Ok(text) = space.alloc(Node::Text(Vec::new(rt.alloc()))) else {
        return println!(rt; "no memory");
    };
    let mut laps = Laps::begin(rt)?;
    let done = grow(space, text, count).is_ok();
    let each = laps.each(rt, count)?;
    println!(rt; "a byte behind a text, {count} times: {done}, {each} ns each")
}

fn measure_shift(rt: &HostRuntime, space: &mut Space) -> io::Result<()> {
    let Ok(array) = space.alloc(Node::Array(Items::new(rt.alloc()))) else {
        return println!(rt; "no memory");
    };
    let mut laps = Laps::begin(rt)?;
    let done = fill(space, array).is_ok();
    let pushing = laps.each(rt, MANY)?;
    let shifted = shift_all(space, array);
    let shifting = laps.each(rt, MANY)?;
    println!(rt;
        "elements: {done}, pushed {pushing} ns each; shifted: {shifted}, {shifting} ns each"
    )
}

fn measure_deletes(rt: &HostRuntime, space: &mut Space) -> io::Result<()> {
    let Ok(hash) = new_hash(rt.alloc(), space) else {
        return println!(rt; "no memory");
    };
    let inserted = insert(space, hash, FEWER, IN_ORDER).is_ok();
    let mut laps = Laps::begin(rt)?;
    let deleted = delete_all(space, hash);
    let each = laps.each(rt, FEWER)?;
    println!(rt; "pairs: {inserted}, deleted from the front: {deleted}, {each} ns each")
}

fn measure_published(rt: &HostRuntime) -> io::Result<()> {
    let Ok(space) = frozen_hash(rt.alloc()) else {
        return println!(rt; "no hash");
    };
    let Ok(Some(hash)) = published(rt.alloc(), &space) else {
        return println!(rt; "no published hash");
    };
    let mut laps = Laps::begin(rt)?;
    let found = look_up(&space, hash, MANY, IN_ORDER);
    let each = laps.each(rt, MANY)?;
    println!(rt; "keys of a published hash: {found} found, {each} ns each")
}

pub fn measure(rt: &HostRuntime) -> io::Result<()> {
    let mut space = Space::new(rt.alloc(), RactorNo(1), u32::MAX);
    measure_text(rt, &mut space, MANY)?;
    measure_text(rt, &mut space, 10_000_000)?;
    measure_shift(rt, &mut space)?;
    measure_deletes(rt, &mut space)?;
    measure_published(rt)
}
