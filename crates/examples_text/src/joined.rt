//! Texts of arrays whose elements are joined.

use crate::compared::{around, nested};
use crate::printed::program;
use rr_base::{Fault, RactorNo, Sym};
use rr_space::{Entries, Items, Key, Kind, Node, Ref, Space};
use rr_text::{Joined, join, join_within};
use std::alloc::Global;
use std::process::Abort;
use std::test::Fail;

fn is(joined: &Joined, wanted: &str) -> bool {
    match joined {
        Joined::Bytes(bytes) => bytes.as_slice() == wanted.as_bytes(),
        Joined::Deep => false,
        Joined::Circular => false,
        Joined::Shell => false,
    }
}

fn joins(
    alloc: Global,
    space: &Space,
    array: Ref,
    separator: &str,
    wanted: &str,
) -> Result<bool, Fault> {
    let program = program(alloc)?;
    let found = join(alloc, space, &program, array, separator.as_bytes())?;
    Ok(is(&found, wanted))
}

/// The elements of an array are joined so. Nothing is answered, since each way out of a test is proved with all that was made
/// before it.
fn check(rt: &impl Abort, alloc: Global, space: &Space, array: Ref, separator: &str, wanted: &str) {
    let joined = joins(alloc, space, array, separator, wanted);
    assert!(rt; matches!(joined, Ok(true)), "{wanted}");
}

/// An array that is not frozen gets one element more.
fn push(space: &mut Space, array: Ref, slot: u32) -> Result<(), Fail> {
    if space.can_write(array)
        && space.kind_of(array) == Kind::Array
        && (slot as usize) < space.len()
    {
        space.push_element(array, Ref::Local(slot))?;
    }
    Ok(())
}

#[test]
fn arrays_in_an_array_are_joined_alike(rt: HostRuntime) -> Result<(), Fail> {
    let mut space = Space::new(rt.alloc(), RactorNo(1), 10);
    let text = space.alloc(Node::Text(b"a".to_vec(rt.alloc())?))?;
    let inner = space.alloc(Node::Array(Items::two(rt.alloc(), Ref::Nil, text)))?;
    let empty = space.alloc(Node::Array(Items::new(rt.alloc())))?;
    let outer = space.alloc(Node::Array(Items::two(rt.alloc(), empty, inner)))?;
    check(&rt, rt.alloc(), &space, outer, "-", "--a");
    check(&rt, rt.alloc(), &space, outer, "", "a");
    check(&rt, rt.alloc(), &space, inner, ", ", ", a");
    check(&rt, rt.alloc(), &space, empty, "-", "");
    Ok(())
}

#[test]
fn an_array_inside_itself_has_no_text(rt: HostRuntime) -> Result<(), Fail> {
    let mut space = Space::new(rt.alloc(), RactorNo(1), 10);
    let program = program(rt.alloc())?;
    let array = space.alloc(Node::Array(Items::one(rt.alloc(), Ref::Int(1))))?;
    push(&mut space, array, 0)?;
    let found = join(rt.alloc(), &space, &program, array, b"-")?;
    assert!(rt; matches!(found, Joined::Circular));
    Ok(())
}

#[test]
fn a_hash_counts_among_the_containers(rt: HostRuntime) -> Result<(), Fail> {
    let mut space = Space::new(rt.alloc(), RactorNo(1), 10);
    let program = program(rt.alloc())?;
    let mut entries = Entries::new(rt.alloc());
    entries.insert(Key::Symbol(0), (Ref::Symbol(Sym(0)), Ref::Int(1)))?;
    let hash = space.alloc(Node::Hash(Box::new(rt.alloc(), entries)?))?;
    let array = space.alloc(Node::Array(Items::two(rt.alloc(), hash, Ref::True)))?;
    check(&rt, rt.alloc(), &space, array, " ", "{name: 1} true");
    let enough = join_within(rt.alloc(), &space, &program, 2, array, b" ")?;
    assert!(rt; is(&enough, "{name: 1} true"));
    let deep = join_within(rt.alloc(), &space, &program, 1, array, b" ")?;
    assert!(rt; matches!(deep, Joined::Deep));
    Ok(())
}

#[test]
fn a_moved_element_has_no_text(rt: HostRuntime) -> Result<(), Fail> {
    let mut space = Space::new(rt.alloc(), RactorNo(1), 10);
    let program = program(rt.alloc())?;
    let moved = space.alloc(Node::Text(b"a".to_vec(rt.alloc())?))?;
    let array = space.alloc(Node::Array(Items::two(rt.alloc(), Ref::Int(1), moved)))?;
    if space.len() > 0 && space.can_freeze(moved) {
        space.empty(0);
    }
    let found = join(rt.alloc(), &space, &program, array, b"-")?;
    assert!(rt; matches!(found, Joined::Shell));
    Ok(())
}

/// So many arrays in one another are joined, and one more is too deep.
#[test]
fn arrays_are_joined_so_deep(rt: HostRuntime) -> Result<(), Fail> {
    let mut space = Space::new(rt.alloc(), RactorNo(1), 110);
    let program = program(rt.alloc())?;
    let array = nested(rt.alloc(), &mut space, 100)?;
    let found = join_within(rt.alloc(), &space, &program, 100, array, b"-")?;
    assert!(rt; is(&found, ""));
    let deeper = around(rt.alloc(), &mut space, array)?;
    let found = join_within(rt.alloc(), &space, &program, 100, deeper, b"-")?;
    assert!(rt; matches!(found, Joined::Deep));
    check(&rt, rt.alloc(), &space, deeper, "-", "");
    Ok(())
}
