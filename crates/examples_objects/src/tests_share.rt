//! Small graphs, a long chain, and what a refused growth leaves.

ghost use Rattle.rr_space.specs.Moves.{IsPlanned};

use rr_base::{Fault, RactorNo};
use rr_share::{Plan, deep_freeze, is_shareable, plan, promote, reached, shareable_objects};
use rr_space::{Cluster, Items, Kind, Node, Published, Ref, Sealed, SlotSet, Space};
use std::alloc::Global;
use std::process::Abort;
use std::test::Fail;

/// One graph to a line: what it shows, its slots, the slots that slot 0 leads to as they are met, whether it is
/// shareable, the shareable ones of those slots, and what a deep freeze of it answers.
///
/// A slot is `t`, an open text, or `T`, a frozen one; `s`, a shell; `p`, a published text; `a` or `f`, an open or a frozen
/// array, and the slots that it leads to, or `i` for an integer.
const ROWS: &str = "\
an open text|t|0|no||frozen
a frozen text|T|0|yes|0|frozen
a frozen array of an open text|f1 t|0 1|no||frozen
a frozen array of an integer|fi|0|yes|0|frozen
an array that holds itself|a0|0|no||frozen
a frozen array that holds itself|f0|0|yes|0|frozen
an array of a shell|a1 s|0 1|no||shell
a frozen array of a shell and a frozen text|f12 s T|0 1 2|no|2|shell
a shell|s|0|no||shell
a frozen text and an array of an open one|a123 T t f2|0 1 2 3|no|1|frozen
an open array of a frozen cycle|a1 f2 f1|0 1 2|no|1 2|frozen
a way that ends at an open text|f3 t f1 f2|0 3 2 1|no||frozen
a frozen text met twice|f21 T f1|0 2 1|yes|0 2 1|frozen
a published text in a frozen array|f1 p|0|yes|0|frozen
a published text in an open array|a1 p|0|no||frozen
a published text|p||yes||frozen
a shell that nothing leads to|a s|0|no||frozen
a shell behind two arrays|a1 f2 s|0 1 2|no||shell
the second of two ways is open|f12 T f3 t|0 1 2 3|no|1|frozen
two ways to an open array|f12 f3 f3 a|0 1 2 3|no||frozen
a frozen cycle|f1 f0|0 1|yes|0 1|frozen
an open cycle|a1 a0|0 1|no||frozen
a frozen array that leads back to an open one|f1 a0|0 1|no||frozen
frozen arrays over a frozen text|f1 f2 T|0 1 2|yes|0 1 2|frozen
frozen arrays over an open text|f1 f2 t|0 1 2|no||frozen
a frozen array over a shell|f1 s|0 1|no||shell
an open text beside a frozen array|f t|0|yes|0|frozen
a knot|a11 a0|0 1|no||frozen
one text twice|a11 t|0 1|no||frozen
two equal texts|a12 t t|0 1 2|no||frozen
a long way round|f3 t f0 f2 f1|0 3 2|yes|0 3 2|frozen";

/// A text, or an array that leads to nothing yet.
fn begin(alloc: Global, space: &mut Space, word: &str) -> Result<(), Fail> {
    match word.as_bytes() {
        [b't' | b'T', ..] => space.alloc(Node::Text(b"a".to_vec(alloc)?))?,
        _ => space.alloc(Node::Array(Items::new(alloc)))?,
    };
    Ok(())
}

fn push(space: &mut Space, array: Ref, slot: u32) -> Result<(), Fail> {
    if space.can_write(array)
        && space.kind_of(array) == Kind::Array
        && (slot as usize) < space.len()
    {
        space.push_element(array, Ref::Local(slot))?;
    }
    Ok(())
}

/// Adds what the array of a slot leads to.
fn link(space: &mut Space, slot: u32, word: &str) -> Result<(), Fail> {
    let array = Ref::Local(slot);
    for byte in word.bytes().skip(1) {
        match byte {
            b'i' if space.can_write(array) && space.kind_of(array) == Kind::Array => {
                space.push_element(array, Ref::Int(1))?
            }
            digit => push(space, array, u32::from(digit.wrapping_sub(b'0')))?,
        }
    }
    Ok(())
}

/// Turns a slot into a forward to a published text.
fn publish(alloc: Global, space: &mut Space, slot: u32) -> Result<(), Fail> {
    let mut nodes = Vec::new(alloc);
    nodes.push(Sealed::Text(b"a".to_vec(alloc)?))?;
    let Ok(cluster) = Cluster::new(alloc, nodes)?.publish(alloc, 7) else {
        return Err(Fail::from("not published"));
    };
    let text = Ref::Local(slot);
    if (slot as usize) < space.len() && space.can_freeze(text) && 0 < cluster.len() {
        space.freeze(text);
        if space.can_forward(slot) {
            space.forward(slot, 0, cluster);
        }
    }
    Ok(())
}

/// Freezes, empties or publishes a slot.
fn finish(alloc: Global, space: &mut Space, slot: u32, word: &str) -> Result<(), Fail> {
    let value = Ref::Local(slot);
    match word.as_bytes() {
        [b'f' | b'T', ..] if space.can_freeze(value) => space.freeze(value),
        [b's', ..] if (slot as usize) < space.len() && space.can_freeze(value) => space.empty(slot),
        [b'p', ..] => publish(alloc, space, slot)?,
        _ => (),
    }
    Ok(())
}

fn begin_all(alloc: Global, space: &mut Space, slots: &str) -> Result<(), Fail> {
    for word in slots.split(" ") {
        begin(alloc, space, word)?;
    }
    Ok(())
}

fn link_all(space: &mut Space, slots: &str) -> Result<(), Fail> {
    for (slot, word) in (0u32..10).zip(slots.split(" ")) {
        link(space, slot, word)?;
    }
    Ok(())
}

fn finish_all(alloc: Global, space: &mut Space, slots: &str) -> Result<(), Fail> {
    for (slot, word) in (0u32..10).zip(slots.split(" ")) {
        finish(alloc, space, slot, word)?;
    }
    Ok(())
}

fn space_of(alloc: Global, slots: &str) -> Result<Space, Fail> {
    let mut space = Space::new(alloc, RactorNo(1), 10);
    begin_all(alloc, &mut space, slots)?;
    link_all(&mut space, slots)?;
    finish_all(alloc, &mut space, slots)?;
    Ok(space)
}

/// Whether the set has just the slots of the list, in their order.
fn are(found: &SlotSet, list: &str) -> bool {
    let mut place = 0;
    for digit in list.bytes().step_by(2) {
        if place >= found.len() || found.at(place) != u32::from(digit.wrapping_sub(b'0')) {
            return false;
        }
        place += 1;
    }
    place == found.len()
}

/// What a deep freeze of slot 0 answers, in a word.
fn freeze_first(alloc: Global, space: &mut Space) -> Result<&'static str, Fail> {
    if space.len() == 0 {
        return Err(Fail::from("no slots"));
    }
    match deep_freeze(alloc, space, Ref::Local(0)) {
        Ok(()) => Ok("frozen"),
        Err(Fault::HoldsShell) => Ok("shell"),
        Err(_) => Err(Fail::from("another fault")),
    }
}

#[derive(Drop)]
struct Row<'a> {
    name: &'a str,
    slots: &'a str,
    found: &'a str,
    shareable: &'a str,
    objects: &'a str,
    answer: &'a str,
}

fn parse_row(alloc: Global, line: &str) -> Result<Row<'_>, Fail> {
    let cells: Vec<&str> = line.split("|").collect(alloc)?;
    match cells.as_slice() {
        [name, slots, found, shareable, objects, answer] => Ok(Row {
            name,
            slots,
            found,
            shareable,
            objects,
            answer,
        }),
        _ => Err(Fail::from("a row of another form")),
    }
}

fn check(rt: &impl Abort, holds: bool, what: &str, row: &Row<'_>) {
    assert!(rt; holds, "{what}: {}", row.name);
}

/// What searches of slot 0 answer.
fn check_searches(
    rt: &impl Abort,
    alloc: Global,
    space: &Space,
    row: &Row<'_>,
) -> Result<(), Fail> {
    let root = Ref::Local(0);
    let found = reached(alloc, space, root)?;
    check(rt, are(&found, row.found), "found", row);
    let yes = is_shareable(alloc, space, root)?;
    check(rt, yes == (row.shareable == "yes"), "whether", row);
    let objects = shareable_objects(alloc, space, root)?;
    check(rt, are(&objects, row.objects), "shareable", row);
    Ok(())
}

#[test]
fn small_graphs(rt: HostRuntime) -> Result<(), Fail> {
    for line in ROWS.lines() {
        let row = parse_row(rt.alloc(), line)?;
        let mut space = space_of(rt.alloc(), row.slots)?;
        check_searches(&rt, rt.alloc(), &space, &row)?;
        let answer = freeze_first(rt.alloc(), &mut space)?;
        check(&rt, answer == row.answer, "frozen", &row);
        let yes = is_shareable(rt.alloc(), &space, Ref::Local(0))?;
        check(&rt, yes == (answer == "frozen"), "shareable then", &row);
    }
    Ok(())
}

/// Publishes the cluster of a plan, and turns its slots into forwards.
fn publish_plan(alloc: Global, space: &mut Space, plan: Plan) -> Result<(), Fail>
    requires { IsPlanned space.old plan.cluster plan.places }
{
    let Plan { cluster, places } = plan;
    match cluster.publish(alloc, 3) {
        Ok(cluster) => promote(space, places, Published { cluster }),
        Err(_) => return Err(Fail::from("not published")),
    }
    Ok(())
}

/// Publishes what is shareable of slot 0, and answers a word as for a deep freeze.
fn publish_first(
    rt: &impl Abort,
    alloc: Global,
    space: &mut Space,
    row: &Row<'_>,
) -> Result<&'static str, Fail> {
    if space.len() == 0 {
        return Err(Fail::from("no slots"));
    }
    match plan(alloc, space, Ref::Local(0)) {
        Ok(plan) => {
            check(rt, are(&plan.places, row.objects), "planned", row);
            publish_plan(alloc, space, plan)?;
            Ok("frozen")
        }
        Err(Fault::HoldsShell) => Ok("shell"),
        Err(_) => Err(Fail::from("another fault")),
    }
}

#[test]
fn what_is_planned_is_published(rt: HostRuntime) -> Result<(), Fail> {
    for line in ROWS.lines() {
        let row = parse_row(rt.alloc(), line)?;
        let mut space = space_of(rt.alloc(), row.slots)?;
        let answer = publish_first(&rt, rt.alloc(), &mut space, &row)?;
        check(&rt, answer == row.answer, "published", &row);
        let left = shareable_objects(rt.alloc(), &space, Ref::Local(0))?;
        let none = left.is_empty() || answer == "shell";
        check(&rt, none, "left", &row);
    }
    Ok(())
}

/// Arrays of which each but the first holds the one before it.
fn chain(alloc: Global, count: u32) -> Result<Space, Fail> {
    let mut space = Space::new(alloc, RactorNo(1), count);
    space.alloc(Node::Array(Items::new(alloc)))?;
    for last in 1..count {
        let array = space.alloc(Node::Array(Items::new(alloc)))?;
        push(&mut space, array, last - 1)?;
    }
    Ok(space)
}

fn freeze_last(alloc: Global, space: &mut Space) -> Result<(), Fail> {
    match space.len() {
        0 => Err(Fail::from("no slots")),
        count => Ok(deep_freeze(alloc, space, Ref::Local(count as u32 - 1))?),
    }
}

#[test]
fn a_long_chain_takes_no_stack(rt: HostRuntime) -> Result<(), Fail> {
    let root = Ref::Local(99_999);
    let mut space = chain(rt.alloc(), 100_000)?;
    assert!(rt; shareable_objects(rt.alloc(), &space, root)?.is_empty());
    assert!(rt; reached(rt.alloc(), &space, root)?.len() == 100_000);
    freeze_last(rt.alloc(), &mut space)?;
    assert!(rt; space.is_frozen(Ref::Local(0)));
    assert!(rt; shareable_objects(rt.alloc(), &space, root)?.len() == 100_000);
    Ok(())
}
