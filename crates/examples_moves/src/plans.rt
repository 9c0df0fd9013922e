//! A shareable part, which is published before the rest is moved.

ghost use Rattle.rr_space.specs.Moves.{IsPlanned};

use crate::spaces::{opened, other, sent, under};
use rr_base::RactorNo;
use rr_share::{Plan, plan, promote};
use rr_space::{Items, Kind, Label, Node, Published, Ref, Space};
use std::alloc::Global;
use std::test::Fail;

// A space of a frozen text, and of an array of nil and that text.
fn two_objects(alloc: Global) -> Result<Space, Fail> {
    let mut space = Space::new(alloc, RactorNo(1), 10);
    let text = space.alloc(Node::Text(b"frozen".to_vec(alloc)?))?;
    space.alloc(Node::Array(Items::two(alloc, Ref::Nil, text)))?;
    if space.can_freeze(text) {
        space.freeze(text);
    }
    Ok(space)
}

// The size of a plan that is published and promoted.
fn publish(alloc: Global, space: &mut Space, plan: Plan) -> Result<usize, Fail>
    requires { IsPlanned space.old plan.cluster plan.places }
{
    let Plan { cluster, places } = plan;
    let size = places.len();
    match cluster.publish(alloc, 3) {
        Ok(cluster) => promote(space, places, Published { cluster }),
        Err(_) => return Err(Fail::from("not published")),
    }
    Ok(size)
}

// Publishes what is shareable of the object in a slot, and answers how many objects those are.
fn published(alloc: Global, space: &mut Space, slot: u32) -> Result<usize, Fail> {
    if slot as usize >= space.len() {
        return Err(Fail::from("no object of the space"));
    }
    let planned = plan(alloc, space, Ref::Local(slot))?;
    publish(alloc, space, planned)
}

#[test]
fn a_frozen_part_stays_shared(rt: HostRuntime) -> Result<(), Fail> {
    let mut here = two_objects(rt.alloc())?;
    assert!(rt; published(rt.alloc(), &mut here, 1)? == 1);
    let message = sent(&rt, rt.alloc(), &mut here, Ref::Local(1))?;
    assert!(rt; message.size() == 1);
    assert!(rt; here.kind_of(Ref::Local(1)) == Kind::Shell);
    assert!(rt; here.text_bytes(Ref::Local(0)) == b"frozen".as_slice());
    let mut there = other(rt.alloc())?;
    let root = opened(&mut there, message)?;
    let second = under(&there, root, Label::Place(1))?;
    assert!(rt; there.text_bytes(second) == b"frozen".as_slice());
    assert!(rt; there.len() == 2);
    Ok(())
}
