//! Values that are planned, moved, opened and put back.

ghost use Rattle.std.specs.Prelude.{length, IfOk, IfSome};
ghost use Rattle.rr_space.specs.Parts.{IsWithin, value_of};
ghost use Rattle.rr_share.specs.Plans.{IsFound};

use crate::clock::Laps;
use rr_base::{Fault, RactorNo};
use rr_copy::open;
use rr_move::{detach_found, reattach};
use rr_share::{Plan, Prepared, deep_freeze, plan, prepare, promote};
use rr_space::{Items, Kind, Node, Published, Ref, SlotSet, Space};
use std::alloc::Global;
use std::io;

const COUNT: u32 = 1_000_000;

/// Texts of 100 KiB.
const TEXTS: u32 = 1_000;

const BYTES: usize = 102_400;

/// How often a small value is moved.
const ROUNDS: u32 = 100_000;

/// Adds an array of two: the object before it, or nil where there is none, and an integer.
fn link(alloc: Global, space: &mut Space, number: u32) -> Result<(), Fault> {
    let before = match space.len() {
        0 => Ref::Nil,
        count => Ref::Local(count as u32 - 1),
    };
    let items = Items::two(alloc, before, Ref::Int(i64::from(number)));
    space.alloc(Node::Array(items))?;
    Ok(())
}

/// A space of arrays of two, each with the one before.
fn chain(alloc: Global) -> Result<Space, Fault> {
    let mut space = Space::new(alloc, RactorNo(1), u32::MAX);
    for k in 0..COUNT {
        link(alloc, &mut space, k)?;
    }
    Ok(space)
}

fn push_text(alloc: Global, space: &mut Space, array: Ref, size: usize) -> Result<(), Fault> {
    let text = space.alloc(Node::Text(Vec::from_elem(alloc, b'x', size)?))?;
    if space.can_write(array) && space.kind_of(array) == Kind::Array {
        space.push_element(array, text)?;
    }
    Ok(())
}

/// An array of so many texts of this size.
fn array_of_texts(alloc: Global, space: &mut Space, texts: u32, size: usize) -> Result<(), Fault> {
    let array = space.alloc(Node::Array(Items::new(alloc)))?;
    for _ in 0..texts {
        push_text(alloc, space, array, size)?;
    }
    Ok(())
}

/// What the object in a slot leads to, where it is there and nothing has to be published before it is moved.
fn search(alloc: Global, space: &Space, slot: u32) -> Result<Option<SlotSet>, Fault>
    ensures found { IfOk result (λ found. IfSome found (λ slots. IsFound space.now (value_of (Ref.Local slot)) slots)) }
    ensures within { IfOk result (λ found. IfSome found (λ _. IsWithin (length space.now.slots) (Ref.Local slot))) }
{
    if slot as usize >= space.len() {
        return Ok(None);
    }
    match prepare(alloc, space, Ref::Local(slot))? {
        Prepared::Found(found) => Ok(Some(found)),
        Prepared::Plan(_) => Ok(None),
    }
}

/// Searches what is in the slot, takes it out and puts it back.
fn measure_back(rt: &HostRuntime, space: &mut Space, slot: u32, count: u32) -> io::Result<()> {
    let mut laps = Laps::begin(rt)?;
    let Ok(Some(found)) = search(rt.alloc(), space, slot) else {
        return println!(rt; "not found");
    };
    let searching = laps.each(rt, count)?;
    let Ok(away) = detach_found(rt.alloc(), space, Ref::Local(slot), found) else {
        return println!(rt; "not taken out");
    };
    let detaching = laps.each(rt, count)?;
    reattach(space, away);
    let reattaching = laps.each(rt, count)?;
    println!(rt;
        "searched: {searching} ns an object; taken out {detaching}, put back {reattaching}"
    )
}

/// Takes what is in the slot out and opens it elsewhere.
fn measure_away(rt: &HostRuntime, space: &mut Space, slot: u32, count: u32) -> io::Result<()> {
    let Ok(Some(found)) = search(rt.alloc(), space, slot) else {
        return println!(rt; "not found");
    };
    let mut laps = Laps::begin(rt)?;
    let Ok(away) = detach_found(rt.alloc(), space, Ref::Local(slot), found) else {
        return println!(rt; "not taken out");
    };
    let detaching = laps.each(rt, count)?;
    let (message, _) = away.message();
    let mut elsewhere = Space::new(rt.alloc(), RactorNo(2), u32::MAX);
    let mut laps = Laps::begin(rt)?;
    let opened = open(&mut elsewhere, message).is_ok();
    let opening = laps.each(rt, count)?;
    println!(rt; "taken out {detaching} ns an object; opened: {opened}, {opening}")
}

/// Searches what is in the slot, takes it out and puts it back, if it is there.
fn there_and_back(alloc: Global, space: &mut Space, slot: u32) -> Result<(), Fault> {
    if let Some(found) = search(alloc, space, slot)? {
        let away = detach_found(alloc, space, Ref::Local(slot), found)?;
        reattach(space, away);
    }
    Ok(())
}

fn go_round(alloc: Global, space: &mut Space, slot: u32) -> Result<(), Fault> {
    for _ in 0..ROUNDS {
        there_and_back(alloc, space, slot)?;
    }
    Ok(())
}

/// Small values out of the space and back, many times: an array of so many texts, which are made for it.
fn measure_small(rt: &HostRuntime, space: &mut Space, texts: u32) -> io::Result<()> {
    let slot = space.len() as u32;
    if array_of_texts(rt.alloc(), space, texts, 8).is_err() {
        return println!(rt; "no memory");
    }
    let mut laps = Laps::begin(rt)?;
    if go_round(rt.alloc(), space, slot).is_err() {
        return println!(rt; "no memory");
    }
    let all = laps.each(rt, ROUNDS)?;
    println!(rt; "an array of {texts} texts there and back: {all} ns")
}

/// Plans a frozen value, publishes it and turns its slots into forwards.
fn measure_published(rt: &HostRuntime, space: &mut Space, value: Ref) -> io::Result<()>
    requires { IsWithin (length space.old.slots) value }
{
    let mut laps = Laps::begin(rt)?;
    let Ok(Plan { cluster, places }) = plan(rt.alloc(), space, value) else {
        return println!(rt; "not planned");
    };
    let planning = laps.each(rt, COUNT)?;
    let count = places.len();
    let Ok(cluster) = cluster.publish(rt.alloc(), 1) else {
        return println!(rt; "not published");
    };
    let mut laps = Laps::begin(rt)?;
    promote(space, places, Published { cluster });
    let promoting = laps.each(rt, COUNT)?;
    println!(rt; "{count} frozen: planned {planning} ns an object, promoted {promoting}")
}

fn measure_texts(rt: &HostRuntime) -> io::Result<()> {
    let mut space = Space::new(rt.alloc(), RactorNo(1), u32::MAX);
    if array_of_texts(rt.alloc(), &mut space, TEXTS, BYTES).is_err() {
        return println!(rt; "no memory");
    }
    println!(rt; "{TEXTS} texts of {BYTES} bytes:")?;
    measure_away(rt, &mut space, 0, TEXTS + 1)
}

fn measure_frozen(rt: &HostRuntime) -> io::Result<()> {
    let Ok(mut space) = chain(rt.alloc()) else {
        return println!(rt; "no memory");
    };
    let last = Ref::Local(COUNT - 1);
    if space.len() != COUNT as usize || deep_freeze(rt.alloc(), &mut space, last).is_err() {
        return println!(rt; "not frozen");
    }
    if space.len() != COUNT as usize {
        return println!(rt; "not kept");
    }
    measure_published(rt, &mut space, last)
}

fn measure_chain(rt: &HostRuntime) -> io::Result<()> {
    let Ok(mut space) = chain(rt.alloc()) else {
        return println!(rt; "no memory");
    };
    println!(rt; "{COUNT} arrays of two:")?;
    measure_back(rt, &mut space, COUNT - 1, COUNT)?;
    measure_away(rt, &mut space, COUNT - 1, COUNT)?;
    measure_small(rt, &mut space, 2)?;
    measure_small(rt, &mut space, 20)
}

pub fn measure(rt: &HostRuntime) -> io::Result<()> {
    measure_chain(rt)?;
    measure_texts(rt)?;
    measure_frozen(rt)
}
