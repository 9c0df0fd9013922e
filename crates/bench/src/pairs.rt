//! Hashes of integers.

use rr_base::Fault;
use rr_space::{Entries, Key, Kind, Node, Ref, Space};
use std::alloc::Global;

pub fn new_hash(alloc: Global, space: &mut Space) -> Result<Ref, Fault> {
    let entries = Box::new(alloc, Entries::new(alloc))?;
    space.alloc(Node::Hash(entries))
}

/// The `k`-th key, where each key is so much more than the one before, in 32 bits.
fn key(k: u32, step: u32) -> i64 {
    i64::from(k.wrapping_mul(step))
}

/// Gives the hash the first `count` keys.
pub fn insert(space: &mut Space, hash: Ref, count: u32, step: u32) -> Result<(), Fault> {
    for k in 0..count {
        let number = key(k, step);
        let (name, key) = (Ref::Int(number), Key::Int(number));
        if space.can_write(hash) && space.kind_of(hash) == Kind::Hash && space.is_key(name, &key) {
            space.write_pair(hash, key, name, Ref::Int(1))?;
        }
    }
    Ok(())
}

/// How many of the first `count` keys the hash has.
pub fn look_up(space: &Space, hash: Ref, count: u32, step: u32) -> u32 {
    let mut found = 0u32;
    for k in 0..count {
        if space.find(hash, &Key::Int(key(k, step))).is_some() {
            found = found.wrapping_add(1);
        }
    }
    found
}
