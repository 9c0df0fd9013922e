//! Inboxes and their histories.

use crate::lines::tell;
use crate::message::message;
use rr_base::{Fault, InboxEvent, RactorNo, Ticket};
use rr_copy::Message;
use rr_inbox::{Front, InboxState};
use std::alloc::Global;
use std::process::Abort;
use std::test::Fail;

const MAIN: RactorNo = RactorNo(1);

const OTHER: RactorNo = RactorNo(2);

// An event as a trace has it: what happened, ticket, size, who.
fn tell_event(alloc: Global, text: &mut String, event: InboxEvent) -> Result<(), Fail> {
    match event {
        InboxEvent::Offered { ticket, size, who } => {
            tell(alloc, text, "offered", &[ticket, size, u32::from(who.0)])
        }
        InboxEvent::Accepted { ticket, size, who } => {
            tell(alloc, text, "accepted", &[ticket, size, u32::from(who.0)])
        }
        InboxEvent::Refused { size, who } => {
            tell(alloc, text, "refused", &[size, u32::from(who.0)])
        }
        InboxEvent::Closed { who } => tell(alloc, text, "closed", &[u32::from(who.0)]),
    }
}

fn check_history(
    rt: &impl Abort,
    alloc: Global,
    inbox: &InboxState,
    wanted: &str,
) -> Result<(), Fail> {
    let mut told = String::new(alloc);
    for event in inbox.history() {
        tell_event(alloc, &mut told, *event)?;
    }
    assert_eq!(rt; told.as_str(), wanted);
    Ok(())
}

// The main ractor offers a message of that size.
fn offer(
    rt: &impl Abort,
    alloc: Global,
    inbox: &mut InboxState,
    size: u32,
) -> Result<Ticket, Fault> {
    let message = message(rt, alloc, MAIN, size)?;
    match inbox.offer(MAIN, message) {
        Ok(ticket) => Ok(ticket),
        Err((fault, _)) => Err(fault),
    }
}

// The size of the message that the other ractor takes.
fn accept(inbox: &mut InboxState) -> Result<u32, Fail> {
    match inbox.accept(OTHER) {
        Front::Message(message) => Ok(message.size()),
        Front::Empty => Err(Fail::from("no message came")),
        Front::EmptyAndClosed => Err(Fail::from("the inbox is closed")),
    }
}

#[test]
fn two_messages_one_taken_and_one_refused(rt: HostRuntime) -> Result<(), Fail> {
    let mut inbox = InboxState::new(rt.alloc(), 100)?;
    assert!(rt; offer(&rt, rt.alloc(), &mut inbox, 2)? == 0);
    assert!(rt; offer(&rt, rt.alloc(), &mut inbox, 3)? == 1);
    assert!(rt; accept(&mut inbox)? == 2);
    assert!(rt; !inbox.close(OTHER));
    assert!(rt; offer(&rt, rt.alloc(), &mut inbox, 1) == Err(Fault::Closed));
    let wanted = "offered 0 2 1\noffered 1 3 1\naccepted 0 2 2\nclosed 2\nrefused 1 1\n";
    check_history(&rt, rt.alloc(), &inbox, wanted)
}

#[test]
fn a_history_of_four_events(rt: HostRuntime) -> Result<(), Fail> {
    let mut inbox = InboxState::new(rt.alloc(), 4)?;
    assert!(rt; offer(&rt, rt.alloc(), &mut inbox, 0)? == 0);
    assert!(rt; offer(&rt, rt.alloc(), &mut inbox, 0) == Err(Fault::HistoryFull));
    assert!(rt; accept(&mut inbox)? == 0);
    assert!(rt; offer(&rt, rt.alloc(), &mut inbox, 0) == Err(Fault::HistoryFull));
    assert!(rt; !inbox.close(OTHER));
    assert!(rt; inbox.close(OTHER));
    let wanted = "offered 0 0 1\naccepted 0 0 2\nclosed 2\n";
    check_history(&rt, rt.alloc(), &inbox, wanted)
}

// A new inbox, made again where a growth was refused.
fn new_again(rt: &impl Abort, alloc: Global) -> Result<InboxState, Fault> {
    match InboxState::new(alloc, 100) {
        Ok(inbox) => Ok(inbox),
        Err(fault) => {
            assert!(rt; fault == Fault::Memory);
            InboxState::new(alloc, 100)
        }
    }
}

// An offer, and where a growth was refused the same offer once more, with the message that came back.
fn offer_again(rt: &impl Abort, inbox: &mut InboxState, message: Message) {
    let size = message.size();
    let events = inbox.history().len();
    if let Err((fault, back)) = inbox.offer(MAIN, message) {
        assert!(rt; fault == Fault::Memory);
        assert!(rt; back.size() == size);
        assert!(rt; inbox.history().len() == events);
        assert!(rt; inbox.offer(MAIN, back).is_ok());
    }
}

// A refusal leaves the inbox and the message. The gate refuses nothing: `rt try --test --fail-alloc N -- a_refused_growth`
// does, for N from 1 on.
#[test]
fn a_refused_growth_leaves_the_inbox_and_the_message(rt: HostRuntime) -> Result<(), Fail> {
    let mut inbox = new_again(&rt, rt.alloc())?;
    for ticket in 0..6 {
        let size = if ticket == 0 { 1 } else { 0 };
        let Ok(message) = message(&rt, rt.alloc(), MAIN, size) else {
            return Ok(());
        };
        offer_again(&rt, &mut inbox, message);
    }
    assert!(rt; accept(&mut inbox)? == 1);
    for _ in 1..6 {
        assert!(rt; accept(&mut inbox)? == 0);
    }
    assert!(rt; inbox.history().len() == 12);
    Ok(())
}
