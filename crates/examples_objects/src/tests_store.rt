//! Constants and published clusters.

ghost use Rattle.std.specs.Prelude.{◌≡◌, length, IfOk};

use rr_base::{Fault, RactorNo, StoreEvent, Sym};
use rr_space::{Cluster, Published, Ref, Sealed};
use rr_store::{ConstValue, StoreState};
use std::alloc::Global;
use std::process::Abort;
use std::test::Fail;

const MAIN: RactorNo = RactorNo(1);

const OTHER: RactorNo = RactorNo(2);

const A: Sym = Sym(0);

const B: Sym = Sym(1);

// An event as a trace has it, with the number of the name in its place.
fn line(alloc: Global, event: StoreEvent<Sym>) -> Result<String, Fail> {
    let line = match event {
        StoreEvent::Published { number, size, who } => {
            format!(in alloc; "published {number} {size} {}\n", who.0)
        }
        StoreEvent::Shared { name, who } => format!(in alloc; "shared {} {}\n", name.0, who.0),
        StoreEvent::Own { name, who } => format!(in alloc; "own {} {}\n", name.0, who.0),
    };
    Ok(line?)
}

fn check_history(
    rt: &impl Abort,
    alloc: Global,
    store: &StoreState,
    wanted: &str,
) -> Result<(), Fail> {
    let mut told = String::new(alloc);
    for event in store.history() {
        told.push_str(line(alloc, *event)?.as_str())?;
    }
    assert_eq!(rt; told.as_str(), wanted);
    Ok(())
}

fn set(store: &mut StoreState, who: RactorNo, name: Sym, value: i64) -> Result<(), Fault> {
    store.set_const(who, name, ConstValue::Shareable(Ref::Int(value)))
}

fn set_own(store: &mut StoreState, who: RactorNo, name: Sym) -> Result<(), Fault> {
    store.set_const(who, name, ConstValue::Own)
}

// The integer that a constant has; none where it is main's own.
fn integer(store: &StoreState, who: RactorNo, name: Sym) -> Result<Option<i64>, Fault> {
    match store.get_const(who, name)? {
        ConstValue::Shareable(Ref::Int(number)) => Ok(Some(number)),
        _ => Ok(None),
    }
}

#[test]
fn constants_of_main_and_of_others(rt: HostRuntime) -> Result<(), Fail> {
    let mut store = StoreState::new(rt.alloc(), 100);
    set(&mut store, MAIN, A, 3)?;
    set_own(&mut store, MAIN, B)?;
    assert!(rt; integer(&store, OTHER, A)? == Some(3));
    assert!(rt; integer(&store, MAIN, B)?.is_none());
    assert!(rt; integer(&store, OTHER, B) == Err(Fault::NotMain));
    assert!(rt; integer(&store, OTHER, Sym(2)) == Err(Fault::Unknown(Sym(2))));
    assert!(rt; set_own(&mut store, OTHER, A) == Err(Fault::NotShareable));
    set(&mut store, OTHER, B, 4)?;
    set(&mut store, MAIN, A, 5)?;
    assert!(rt; integer(&store, OTHER, A)? == Some(5));
    assert!(rt; integer(&store, OTHER, B)? == Some(4));
    let wanted = "shared 0 1\nown 1 1\nshared 1 2\nshared 0 1\n";
    check_history(&rt, rt.alloc(), &store, wanted)
}

// A cluster of one text.
fn text(alloc: Global, bytes: &[u8]) -> Result<Cluster, Fault>
    ensures { IfOk result (λ cluster. length cluster.own ≡ 1) }
{
    let mut nodes = Vec::new(alloc);
    nodes.push(Sealed::Text(Vec::from_slice(alloc, bytes)?))?;
    Ok(Cluster::new(alloc, nodes)?)
}

fn publish(
    alloc: Global,
    store: &mut StoreState,
    who: RactorNo,
    bytes: &[u8],
) -> Result<Published, Fault> {
    match store.publish(alloc, who, text(alloc, bytes)?) {
        Ok(published) => Ok(published),
        Err((fault, _)) => Err(fault),
    }
}

fn check_text(rt: &impl Abort, store: &StoreState, name: Sym, wanted: &[u8]) -> Result<(), Fail> {
    match store.get_const(OTHER, name)? {
        ConstValue::Shareable(Ref::Shared(place, cluster)) => {
            assert!(rt; cluster.text_bytes(place) == wanted);
            Ok(())
        }
        _ => Err(Fail::from("the constant is no published text")),
    }
}

#[test]
fn clusters_get_the_next_number(rt: HostRuntime) -> Result<(), Fail> {
    let mut store = StoreState::new(rt.alloc(), 3);
    let first = publish(rt.alloc(), &mut store, MAIN, b"first")?;
    let second = publish(rt.alloc(), &mut store, OTHER, b"second")?;
    assert!(rt; first.number() == 0);
    assert!(rt; second.number() == 1);
    assert!(rt; second.cluster.len() == 1);
    store.set_const(MAIN, A, ConstValue::Shareable(second.at(0)))?;
    check_text(&rt, &store, A, b"second")?;
    let refused = publish(rt.alloc(), &mut store, MAIN, b"third");
    assert!(rt; matches!(refused, Err(Fault::HistoryFull)));
    let wanted = "published 0 1 1\npublished 1 1 2\nshared 0 1\n";
    check_history(&rt, rt.alloc(), &store, wanted)
}

#[test]
fn many_constants(rt: HostRuntime) -> Result<(), Fail> {
    let mut store = StoreState::new(rt.alloc(), 1_000_000);
    for k in 0..1000u32 {
        set(&mut store, OTHER, Sym(k * 97), k as i64)?;
    }
    for k in 0..1000u32 {
        assert!(rt; integer(&store, MAIN, Sym(k * 97))? == Some(k as i64));
        assert!(rt; integer(&store, MAIN, Sym(k * 97 + 1)).is_err());
    }
    Ok(())
}
