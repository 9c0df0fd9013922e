//! Ports and their histories.

use crate::lines::tell;
use crate::message::message;
use rr_base::{Fault, PortEvent, RactorNo, Ticket};
use rr_copy::Message;
use rr_port::{Grab, Last, PortState, Settled};
use std::alloc::Global;
use std::process::Abort;
use std::test::Fail;

const TAKER: RactorNo = RactorNo(1);

const OWNER: RactorNo = RactorNo(2);

// An event as a trace has it: what happened, ticket, size, who.
fn tell_event(alloc: Global, text: &mut String, event: PortEvent) -> Result<(), Fail> {
    match event {
        PortEvent::Shown { ticket, size, who } => {
            tell(alloc, text, "shown", &[ticket, size, u32::from(who.0)])
        }
        PortEvent::Grabbed { ticket, size, who } => {
            tell(alloc, text, "grabbed", &[ticket, size, u32::from(who.0)])
        }
        PortEvent::Withdrawn { ticket, size, who } => {
            tell(alloc, text, "withdrawn", &[ticket, size, u32::from(who.0)])
        }
        PortEvent::Last { ticket, size, who } => {
            tell(alloc, text, "last", &[ticket, size, u32::from(who.0)])
        }
        PortEvent::Fault { ticket, size, who } => {
            tell(alloc, text, "fault", &[ticket, size, u32::from(who.0)])
        }
        PortEvent::Refused { size, who } => {
            tell(alloc, text, "refused", &[size, u32::from(who.0)])
        }
        PortEvent::Late { size, who } => tell(alloc, text, "late", &[size, u32::from(who.0)]),
        PortEvent::Closed { who } => tell(alloc, text, "closed", &[u32::from(who.0)]),
    }
}

fn check_history(
    rt: &impl Abort,
    alloc: Global,
    port: &PortState,
    wanted: &str,
) -> Result<(), Fail> {
    let mut told = String::new(alloc);
    for event in port.history() {
        tell_event(alloc, &mut told, *event)?;
    }
    assert_eq!(rt; told.as_str(), wanted);
    Ok(())
}

// The owner shows a message of that size.
fn show(rt: &impl Abort, alloc: Global, port: &mut PortState, size: u32) -> Result<Ticket, Fault> {
    let message = message(rt, alloc, OWNER, size)?;
    assert!(rt; port.is_free());
    match port.show(OWNER, message) {
        Ok(ticket) => Ok(ticket),
        Err((fault, _)) => Err(fault),
    }
}

// The owner leaves a last value or fault.
fn leave(rt: &impl Abort, port: &mut PortState, last: Last) -> Result<Ticket, Fault> {
    assert!(rt; !port.was_given());
    match port.show_last(OWNER, last) {
        Ok(ticket) => Ok(ticket),
        Err((fault, _)) => Err(fault),
    }
}

fn last_value(rt: &impl Abort, alloc: Global, size: u32) -> Result<Last, Fault> {
    Ok(Last::Value(message(rt, alloc, OWNER, size)?))
}

fn last_fault(rt: &impl Abort, alloc: Global, size: u32) -> Result<Last, Fault> {
    Ok(Last::Fault(message(rt, alloc, OWNER, size)?))
}

// What comes out of the port, in a word.
fn grab(port: &mut PortState) -> &'static str {
    match port.grab(TAKER) {
        Grab::Value(_) => "value",
        Grab::LastValue(_) => "last value",
        Grab::LastFault(_) => "last fault",
        Grab::Closed => "closed",
        Grab::Nothing => "nothing",
    }
}

fn withdraw(port: &mut PortState, ticket: Ticket) -> Result<(), Fault> {
    port.withdraw(OWNER, ticket)?;
    Ok(())
}

#[test]
fn shown_grabbed_withdrawn_and_late(rt: HostRuntime) -> Result<(), Fail> {
    let mut port = PortState::new(rt.alloc(), 8)?;
    assert!(rt; show(&rt, rt.alloc(), &mut port, 2)? == 0);
    assert!(rt; port.settle(0) == Settled::Shown);
    assert!(rt; grab(&mut port) == "value");
    assert!(rt; port.settle(0) == Settled::Taken);
    assert!(rt; withdraw(&mut port, 0) == Err(Fault::NotShown));
    assert!(rt; show(&rt, rt.alloc(), &mut port, 1)? == 1);
    assert!(rt; !port.close(OWNER));
    assert!(rt; grab(&mut port) == "closed");
    assert!(rt; port.settle(1) == Settled::Closed);
    withdraw(&mut port, 1)?;
    let last = last_value(&rt, rt.alloc(), 3)?;
    assert!(rt; leave(&rt, &mut port, last) == Err(Fault::Closed));
    let wanted = "shown 0 2 2\ngrabbed 0 2 1\nshown 1 1 2\nclosed 2\nwithdrawn 1 1 2\nlate 3 2\n";
    check_history(&rt, rt.alloc(), &port, wanted)
}

#[test]
fn nothing_is_shown_after_a_last_value(rt: HostRuntime) -> Result<(), Fail> {
    let mut port = PortState::new(rt.alloc(), 8)?;
    let last = last_value(&rt, rt.alloc(), 1)?;
    assert!(rt; leave(&rt, &mut port, last)? == 0);
    assert!(rt; show(&rt, rt.alloc(), &mut port, 2) == Err(Fault::Closed));
    assert!(rt; grab(&mut port) == "last value");
    assert!(rt; grab(&mut port) == "closed");
    let wanted = "last 0 1 2\nrefused 2 2\ngrabbed 0 1 1\n";
    check_history(&rt, rt.alloc(), &port, wanted)
}

#[test]
fn a_last_fault_comes_before_the_shown_message(rt: HostRuntime) -> Result<(), Fail> {
    let mut port = PortState::new(rt.alloc(), 8)?;
    assert!(rt; show(&rt, rt.alloc(), &mut port, 0)? == 0);
    let last = last_fault(&rt, rt.alloc(), 1)?;
    assert!(rt; leave(&rt, &mut port, last)? == 1);
    assert!(rt; grab(&mut port) == "last fault");
    assert!(rt; grab(&mut port) == "closed");
    withdraw(&mut port, 0)?;
    let wanted = "shown 0 0 2\nfault 1 1 2\ngrabbed 1 1 1\nwithdrawn 0 0 2\n";
    check_history(&rt, rt.alloc(), &port, wanted)
}

// A new port, made again where a growth was refused.
fn new_again(rt: &impl Abort, alloc: Global) -> Result<PortState, Fault> {
    match PortState::new(alloc, 8) {
        Ok(port) => Ok(port),
        Err(fault) => {
            assert!(rt; fault == Fault::Memory);
            PortState::new(alloc, 8)
        }
    }
}

// A showing, and where a growth was refused the same once more, with the message that came back.
fn show_again(rt: &impl Abort, port: &mut PortState, message: Message) {
    assert!(rt; port.is_free());
    if let Err((fault, back)) = port.show(OWNER, message) {
        assert!(rt; fault == Fault::Memory);
        assert!(rt; back.size() == 1);
        assert!(rt; port.history().len() == 0);
        assert!(rt; port.is_free());
        assert!(rt; port.show(OWNER, back).is_ok());
    }
}

// A refusal leaves the port and the message. The gate refuses nothing: `rt try --test --fail-alloc N -- a_refused_growth`
// does, for N from 1 on.
#[test]
fn a_refused_growth_leaves_the_port_and_the_message(rt: HostRuntime) -> Result<(), Fail> {
    let mut port = new_again(&rt, rt.alloc())?;
    let Ok(message) = message(&rt, rt.alloc(), OWNER, 1) else {
        return Ok(());
    };
    show_again(&rt, &mut port, message);
    assert!(rt; grab(&mut port) == "value");
    assert!(rt; !port.close(OWNER));
    assert!(rt; port.history().len() == 3);
    Ok(())
}
