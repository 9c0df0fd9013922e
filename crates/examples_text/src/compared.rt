//! Equality of arrays and hashes.

use rr_base::RactorNo;
use rr_space::{Cluster, Entries, Items, Key, Kind, Node, Ref, Sealed, Space};
use rr_text::{Compared, compare, compare_within};
use std::alloc::Global;
use std::process::Abort;
use std::test::Fail;

/// An array of the first integers.
fn numbers(alloc: Global, space: &mut Space, count: i64) -> Result<Ref, Fail> {
    let array = space.alloc(Node::Array(Items::new(alloc)))?;
    for number in 0..count {
        if space.can_write(array) && space.kind_of(array) == Kind::Array {
            space.push_element(array, Ref::Int(number))?;
        }
    }
    Ok(array)
}

/// Sets an integer key of a hash.
fn set(space: &mut Space, hash: Ref, key: i64) -> Result<(), Fail> {
    if space.can_write(hash) && space.kind_of(hash) == Kind::Hash {
        return Ok(space.write_pair(hash, Key::Int(key), Ref::Int(key), Ref::True)?);
    }
    Err(Fail::from("no hash that may be written"))
}

/// A hash of these keys, each with the same value.
fn table(alloc: Global, space: &mut Space, keys: &[i64]) -> Result<Ref, Fail> {
    let entries = Box::new(alloc, Entries::new(alloc))?;
    let hash = space.alloc(Node::Hash(entries))?;
    for key in keys {
        set(space, hash, *key)?;
    }
    Ok(hash)
}

/// Sets the key of these bytes in a hash, by a new frozen text.
fn add_text(
    alloc: Global,
    space: &mut Space,
    hash: Ref,
    bytes: &[u8],
    value: i64,
) -> Result<(), Fail> {
    let name = space.alloc(Node::Text(bytes.to_vec(alloc)?))?;
    if space.can_freeze(name) {
        space.freeze(name);
    }
    let key = Key::Text(bytes.to_vec(alloc)?);
    if let Ref::Local(slot) = name
        && (slot as usize) < space.len()
        && space.is_key(name, &key)
        && space.can_write(hash)
        && space.kind_of(hash) == Kind::Hash
    {
        return Ok(space.write_pair(hash, key, name, Ref::Int(value))?);
    }
    Err(Fail::from("no hash that may be written"))
}

/// A hash with a text for each letter as its keys, whose values are the places of the letters in the alphabet.
fn letters(alloc: Global, space: &mut Space, letters: &str) -> Result<Ref, Fail> {
    let entries = Box::new(alloc, Entries::new(alloc))?;
    let hash = space.alloc(Node::Hash(entries))?;
    for letter in letters.bytes() {
        add_text(alloc, space, hash, &[letter], i64::from(letter) - 96)?;
    }
    Ok(hash)
}

/// A published cluster: the text `a`, the text `b`, `{"b" => 2, "a" => 1}`, and `[{"b" => 2, "a" => 1}, "a"]`.
fn published(alloc: Global) -> Result<&'static Cluster, Fail> {
    let mut pairs = Vec::new(alloc);
    pairs.push((Ref::Local(1), Ref::Int(2)))?;
    pairs.push((Ref::Local(0), Ref::Int(1)))?;
    let mut items = Vec::new(alloc);
    items.push(Ref::Local(2))?;
    items.push(Ref::Local(0))?;
    let mut nodes = Vec::new(alloc);
    nodes.push(Sealed::Text(b"a".to_vec(alloc)?))?;
    nodes.push(Sealed::Text(b"b".to_vec(alloc)?))?;
    nodes.push(Sealed::Hash(pairs))?;
    nodes.push(Sealed::Array(items))?;
    match Cluster::new(alloc, nodes)?.publish(alloc, 7) {
        Ok(cluster) => Ok(cluster),
        Err(_) => Err(Fail::from("not published")),
    }
}

/// An array of one element.
pub fn around(alloc: Global, space: &mut Space, element: Ref) -> Result<Ref, Fail> {
    if let Ref::Local(slot) = element
        && (slot as usize) < space.len()
    {
        return Ok(space.alloc(Node::Array(Items::one(alloc, element)))?);
    }
    Err(Fail::from("no element of the space"))
}

/// So many arrays, each the only element of the next; the last of them.
pub fn nested(alloc: Global, space: &mut Space, count: usize) -> Result<Ref, Fail> {
    let mut array = space.alloc(Node::Array(Items::new(alloc)))?;
    for _ in 1..count {
        array = around(alloc, space, array)?;
    }
    Ok(array)
}

/// Two values compare so. Nothing is answered, since each way out of a test is proved with all that was made before it.
fn check(rt: &impl Abort, alloc: Global, space: &Space, left: Ref, right: Ref, wanted: Compared) {
    let found = compare(alloc, space, left, right);
    assert!(rt; matches!(found, Ok(answer) if answer == wanted));
}

/// They compare so where the levels are limited.
fn check_within(
    rt: &impl Abort,
    alloc: Global,
    space: &Space,
    levels: usize,
    left: Ref,
    right: Ref,
    wanted: Compared,
) {
    let found = compare_within(alloc, space, levels, left, right);
    assert!(rt;
        matches!(found, Ok(answer) if answer == wanted),
        "{levels} levels"
    );
}

#[test]
fn arrays_are_compared_by_their_elements(rt: HostRuntime) -> Result<(), Fail> {
    let mut space = Space::new(rt.alloc(), RactorNo(1), 10);
    let empty = numbers(rt.alloc(), &mut space, 0)?;
    let none = numbers(rt.alloc(), &mut space, 0)?;
    let many = numbers(rt.alloc(), &mut space, 100_000)?;
    let as_many = numbers(rt.alloc(), &mut space, 100_000)?;
    let fewer = numbers(rt.alloc(), &mut space, 99_999)?;
    check(&rt, rt.alloc(), &space, empty, none, Compared::Same);
    check(&rt, rt.alloc(), &space, many, as_many, Compared::Same);
    check(&rt, rt.alloc(), &space, many, fewer, Compared::Differs);
    check(&rt, rt.alloc(), &space, empty, Ref::Nil, Compared::Differs);
    Ok(())
}

#[test]
fn hashes_are_compared_whatever_their_order(rt: HostRuntime) -> Result<(), Fail> {
    let mut space = Space::new(rt.alloc(), RactorNo(1), 10);
    let one = table(rt.alloc(), &mut space, &[1, 2, 3])?;
    let other = table(rt.alloc(), &mut space, &[3, 1, 2])?;
    let less = table(rt.alloc(), &mut space, &[3, 1])?;
    let another = table(rt.alloc(), &mut space, &[3, 1, 4])?;
    check(&rt, rt.alloc(), &space, one, other, Compared::Same);
    check(&rt, rt.alloc(), &space, one, less, Compared::Differs);
    check(&rt, rt.alloc(), &space, one, another, Compared::Differs);
    Ok(())
}

#[test]
fn hashes_are_compared_by_the_bytes_of_their_keys(rt: HostRuntime) -> Result<(), Fail> {
    let mut space = Space::new(rt.alloc(), RactorNo(1), 100);
    let one = letters(rt.alloc(), &mut space, "abc")?;
    let other = letters(rt.alloc(), &mut space, "cab")?;
    let another = letters(rt.alloc(), &mut space, "abd")?;
    let less = letters(rt.alloc(), &mut space, "ab")?;
    check(&rt, rt.alloc(), &space, one, other, Compared::Same);
    check(&rt, rt.alloc(), &space, one, another, Compared::Differs);
    check(&rt, rt.alloc(), &space, one, less, Compared::Differs);
    check(&rt, rt.alloc(), &space, less, one, Compared::Differs);
    let numbered = table(rt.alloc(), &mut space, &[97, 98, 99])?;
    check(&rt, rt.alloc(), &space, one, numbered, Compared::Differs);
    Ok(())
}

#[test]
fn published_containers_are_compared_with_own_ones(rt: HostRuntime) -> Result<(), Fail> {
    let cluster = published(rt.alloc())?;
    let mut space = Space::new(rt.alloc(), RactorNo(1), 100);
    let own = letters(rt.alloc(), &mut space, "ab")?;
    let other = letters(rt.alloc(), &mut space, "ac")?;
    let hash = Ref::Shared(2, cluster);
    let array = Ref::Shared(3, cluster);
    check(&rt, rt.alloc(), &space, own, hash, Compared::Same);
    check(&rt, rt.alloc(), &space, hash, own, Compared::Same);
    check(&rt, rt.alloc(), &space, hash, hash, Compared::Same);
    check(&rt, rt.alloc(), &space, other, hash, Compared::Differs);
    check(&rt, rt.alloc(), &space, hash, other, Compared::Differs);
    check(&rt, rt.alloc(), &space, array, hash, Compared::Differs);
    Ok(())
}

#[test]
fn many_levels_are_compared(rt: HostRuntime) -> Result<(), Fail> {
    let mut space = Space::new(rt.alloc(), RactorNo(1), 10_000);
    let one = nested(rt.alloc(), &mut space, 1_000)?;
    let other = nested(rt.alloc(), &mut space, 1_000)?;
    check_within(&rt, rt.alloc(), &space, 1_000, one, other, Compared::Same);
    check_within(&rt, rt.alloc(), &space, 999, one, other, Compared::Deep);
    check_within(&rt, rt.alloc(), &space, 999, one, one, Compared::Same);
    Ok(())
}

#[test]
fn arrays_inside_themselves_are_equal(rt: HostRuntime) -> Result<(), Fail> {
    let mut space = Space::new(rt.alloc(), RactorNo(1), 10);
    let one = numbers(rt.alloc(), &mut space, 1)?;
    let other = numbers(rt.alloc(), &mut space, 1)?;
    if space.can_write(one) && space.kind_of(one) == Kind::Array && space.len() > 1 {
        space.push_element(one, Ref::Local(0))?;
    }
    if space.can_write(other) && space.kind_of(other) == Kind::Array && space.len() > 1 {
        space.push_element(other, Ref::Local(1))?;
    }
    check(&rt, rt.alloc(), &space, one, other, Compared::Same);
    Ok(())
}

#[test]
fn containers_are_compared_so_deep(rt: HostRuntime) -> Result<(), Fail> {
    let mut space = Space::new(rt.alloc(), RactorNo(1), 10);
    let low = space.alloc(Node::Array(Items::new(rt.alloc())))?;
    let one = space.alloc(Node::Array(Items::one(rt.alloc(), low)))?;
    let base = space.alloc(Node::Array(Items::new(rt.alloc())))?;
    let other = space.alloc(Node::Array(Items::one(rt.alloc(), base)))?;
    check_within(&rt, rt.alloc(), &space, 1, one, other, Compared::Deep);
    check_within(&rt, rt.alloc(), &space, 2, one, other, Compared::Same);
    check_within(&rt, rt.alloc(), &space, 0, one, one, Compared::Same);
    Ok(())
}

#[test]
fn what_was_moved_away_is_not_compared(rt: HostRuntime) -> Result<(), Fail> {
    let mut space = Space::new(rt.alloc(), RactorNo(1), 10);
    let gone = space.alloc(Node::Array(Items::new(rt.alloc())))?;
    let one = space.alloc(Node::Array(Items::one(rt.alloc(), gone)))?;
    let other = space.alloc(Node::Array(Items::one(rt.alloc(), Ref::Nil)))?;
    if space.len() > 0 && space.can_freeze(Ref::Local(0)) {
        space.empty(0);
    }
    check(&rt, rt.alloc(), &space, one, other, Compared::Shell);
    check(&rt, rt.alloc(), &space, other, one, Compared::Shell);
    check(&rt, rt.alloc(), &space, one, one, Compared::Same);
    Ok(())
}
