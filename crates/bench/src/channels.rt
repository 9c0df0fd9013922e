//! Messages on their way.

use crate::clock::Laps;
use rr_base::{Fault, RactorNo};
use rr_copy::{can_pack, open, pack_copy};
use rr_inbox::{Front, InboxState};
use rr_space::{Node, Ref, Space};
use std::alloc::Global;
use std::io;

const COUNT: u32 = 1_000_000;

const MEBIBYTE: usize = 1_048_576;

fn pass(alloc: Global, space: &Space) -> Result<u32, Fault> {
    if !can_pack(alloc, space, Ref::Int(7))? {
        return Ok(0);
    }
    let mut inbox = InboxState::new(alloc, u32::MAX)?;
    let mut passed = 0u32;
    for _ in 0..COUNT {
        let message = pack_copy(alloc, space, Ref::Int(7))?;
        let _ = inbox.offer(RactorNo(1), message);
        if let Front::Message(_) = inbox.accept(RactorNo(2)) {
            passed = passed.wrapping_add(1);
        }
    }
    Ok(passed)
}

pub fn measure_inbox(rt: &HostRuntime) -> io::Result<()> {
    let space = Space::new(rt.alloc(), RactorNo(1), 10);
    let mut laps = Laps::begin(rt)?;
    let passed = pass(rt.alloc(), &space).unwrap_or(0);
    let each = laps.each(rt, COUNT)?;
    println!(rt; "{passed} messages, {each} ns each")
}

/// The text in the first slot is copied elsewhere.
fn carry(alloc: Global, from: &Space, to: &mut Space) -> Result<bool, Fault> {
    let text = Ref::Local(0);
    if from.len() == 0 {
        return Ok(false);
    }
    if !can_pack(alloc, from, text)? {
        return Ok(false);
    }
    let message = pack_copy(alloc, from, text)?;
    Ok(open(to, message).is_ok())
}

/// How many bytes one copy has, and how many microseconds it takes.
fn copy(rt: &HostRuntime, bytes: &[u8]) -> io::Result<(usize, u128)> {
    let mut laps = Laps::begin(rt)?;
    let copied = bytes.to_vec(rt.alloc())?.len();
    Ok((copied, laps.each(rt, 1_000)?))
}

pub fn measure_text(rt: &HostRuntime) -> io::Result<()> {
    let bytes = Vec::from_elem(rt.alloc(), b'x', MEBIBYTE)?;
    let (copied, copying) = copy(rt, bytes.as_slice())?;
    let mut from = Space::new(rt.alloc(), RactorNo(1), 10);
    let mut to = Space::new(rt.alloc(), RactorNo(2), 10);
    if from.alloc(Node::Text(bytes)).is_err() {
        return println!(rt; "no memory");
    }
    let mut laps = Laps::begin(rt)?;
    let arrived = carry(rt.alloc(), &from, &mut to).unwrap_or(false);
    let carrying = laps.each(rt, 1_000)?;
    println!(rt;
        "one copy of {copied} bytes: {copying} us; packed and opened: {carrying} us, arrived: {arrived}"
    )
}
