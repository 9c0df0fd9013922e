//! The World.

ghost use Rattle.std.specs.Prelude.{◌≡◌, ◌+◌, ◌<◌, ◌≤◌, ℕ, length, None, IfSome, IfNone, IfOk, IfErr};
ghost use Rattle.rr_world.specs.Enabling.{StandsAt};
ghost use Rattle.rr_world.specs.Runs.{HasReading, IsNew, IsRun, IsStep, HasOutcome};
ghost use Rattle.rr_world.specs.Views.{RunsAt};
ghost use Rattle.rr_world.specs.declared.step.Action.TheVariants.{Discard, Offer, Accept, Close, Start, End};

use crate::ractor::Ractor;
use crate::step::{Action, Reply, Step};
use rr_base::{Fault, LimitKind, Limits, RactorNo};
use rr_inbox::{Front, InboxState};
use rr_port::PortState;
use rr_store::StoreState;
use std::alloc::Global;
use std::marker::Model;

/// Ractors with their spaces, roots and hands, and apart from them their inboxes, their ports and the store.
#[derive(Drop)]
pub struct World {
    // By their numbers, the main ractor, which is number 1, first.
    pub(crate) ractors: Vec<Ractor>,
    inboxes: Vec<InboxState>,
    pub(crate) ports: Vec<PortState>,
    pub(crate) store: StoreState,
}

impl Model for World {
    ghost use Rattle.rr_world.specs.Views.{Assembly};

    ghost Value = { Assembly };

    ghost view = { λ w. record { ractors = w.ractors.items; channels = record { inboxes = w.inboxes.items; ports = w.ports.items; store = w.store } } };
}

// The place of a ractor, or of its inbox or port, among so many.
pub(crate) fn place_of(number: RactorNo, count: usize) -> Option<usize>
    ensures found { IfSome result (λ k. StandsAt number k × (k < count)) }
    ensures none { result ≡ None → (k : ℕ) → StandsAt number k → count ≤ k }
{
    let place = (number.0 as usize).checked_sub(1)?;
    if place < count { Some(place) } else { None }
}

impl World {
    /// The main ractor, without objects, and its inbox and its port, empty. `limits` gives the most slots of a space and the most events
    /// of a history, at least 3. `Memory` is the only fault.
    pub fn new(alloc: Global, limits: Limits) -> Result<World, Fault>
        requires { 3 ≤ limits.events }
        ensures made { IfOk result (λ world. IsNew limits world) }
        ensures reading { IfOk result (λ world. HasReading world) }
        ensures fault { IfErr result (λ fault. fault ≡ Fault.Memory) }
    {
        let mut ractors = Vec::new(alloc);
        let mut inboxes = Vec::new(alloc);
        let mut ports = Vec::new(alloc);
        ractors.push(Ractor::new(alloc, RactorNo(1), limits))?;
        inboxes.push(InboxState::new(alloc, limits.events)?)?;
        ports.push(PortState::new(alloc, limits.events)?)?;
        let store = StoreState::new(alloc, limits.events);
        Ok(World {
            ractors,
            inboxes,
            ports,
            store,
        })
    }

    // The message or the plan in the hand goes.
    fn discard(&mut self, who: RactorNo, place: usize) -> Reply
        requires stands { StandsAt who place }
        requires within { place < length self.old.ractors }
        ensures { HasOutcome (record { who = who; action = Discard }) result self.old self.new }
    {
        if !self.ractors[place].clear() {
            return Reply::NotEnabled;
        }
        Reply::Done
    }

    // The message in the hand goes to the end of an inbox.
    fn offer(&mut self, who: RactorNo, place: usize, to: RactorNo, inbox: usize) -> Reply
        requires stands { StandsAt who place }
        requires within { place < length self.old.ractors }
        requires there { StandsAt to inbox }
        requires is_inbox { inbox < length self.old.channels.inboxes }
        ensures { HasOutcome (record { who = who; action = Offer to }) result self.old self.new }
    {
        let Some((message, home)) = self.ractors[place].take() else {
            return Reply::NotEnabled;
        };
        // With the history comes that no message inside has the next ticket.
        let _events = self.inboxes[inbox].history();
        match self.inboxes[inbox].offer(who, message) {
            Ok(ticket) => Reply::Offered(ticket),
            Err((fault, message)) => {
                self.ractors[place].hold(message, home);
                Reply::Refused(fault)
            }
        }
    }

    // The first message of the ractor's inbox comes into its hand.
    fn accept(&mut self, who: RactorNo, place: usize) -> Reply
        requires stands { StandsAt who place }
        requires within { place < length self.old.ractors }
        ensures { HasOutcome (record { who = who; action = Accept }) result self.old self.new }
    {
        if place >= self.inboxes.len() {
            return Reply::NotEnabled;
        }
        if !self.ractors[place].is_free() {
            return Reply::NotEnabled;
        }
        // With the history comes that no two messages inside have one ticket.
        let _events = self.inboxes[place].history();
        match self.inboxes[place].accept(who) {
            Front::Message(message) => {
                self.ractors[place].hold(message, None);
                Reply::Done
            }
            Front::Empty => Reply::Empty,
            Front::EmptyAndClosed => Reply::EmptyAndClosed,
        }
    }

    // An inbox is closed.
    fn close(&mut self, who: RactorNo, place: usize, to: RactorNo, inbox: usize) -> Reply
        requires stands { StandsAt who place }
        requires within { place < length self.old.ractors }
        requires there { StandsAt to inbox }
        requires is_inbox { inbox < length self.old.channels.inboxes }
        ensures { HasOutcome (record { who = who; action = Close to }) result self.old self.new }
    {
        Reply::WasClosed(self.inboxes[inbox].close(who))
    }

    // A ractor starts, and its inbox and its port with it.
    fn start(&mut self, alloc: Global, who: RactorNo, place: usize) -> Reply
        requires stands { StandsAt who place }
        requires within { place < length self.old.ractors }
        ensures { HasOutcome (record { who = who; action = Start }) result self.old self.new }
    {
        let limits = self.ractors[place].limits();
        let count = self.ractors.len();
        if count >= limits.ractors as usize {
            return Reply::Refused(Fault::Limit(LimitKind::Ractors));
        }
        let Ok(inbox) = InboxState::new(alloc, limits.events) else {
            return Reply::Refused(Fault::Memory);
        };
        let Ok(port) = PortState::new(alloc, limits.events) else {
            return Reply::Refused(Fault::Memory);
        };
        if self.ractors.reserve(1).is_err() {
            return Reply::Refused(Fault::Memory);
        }
        if self.inboxes.reserve(1).is_err() {
            return Reply::Refused(Fault::Memory);
        }
        if self.ports.reserve(1).is_err() {
            return Reply::Refused(Fault::Memory);
        }
        let number = RactorNo(count as u32 + 1);
        self.ractors
            .push_reserved(Ractor::new(alloc, number, limits));
        self.inboxes.push_reserved(inbox);
        self.ports.push_reserved(port);
        Reply::Started(number)
    }

    // The ractor ends.
    fn end(&mut self, alloc: Global, who: RactorNo, place: usize) -> Reply
        requires stands { StandsAt who place }
        requires within { place < length self.old.ractors }
        ensures { HasOutcome (record { who = who; action = End }) result self.old self.new }
    {
        self.ractors[place].end(alloc, who);
        Reply::Done
    }

    // The place of a ractor that runs.
    fn running(&self, who: RactorNo) -> Option<usize>
        ensures found { IfSome result (λ k. StandsAt who k × (k < length self.now.ractors) × RunsAt self.now k) }
        ensures none { IfNone result ((k : ℕ) → StandsAt who k → RunsAt self.now k → ⊥) }
    {
        let Some(place) = place_of(who, self.ractors.len()) else {
            return None;
        };
        if self.ractors[place].runs() {
            Some(place)
        } else {
            None
        }
    }

    // A step of a ractor that runs.
    fn make(&mut self, alloc: Global, who: RactorNo, place: usize, action: Action) -> Reply
        requires stands { StandsAt who place }
        requires within { place < length self.old.ractors }
        ensures { HasOutcome (record { who = who; action = action }) result self.old self.new }
    {
        match action {
            Action::Publish => self.publish(alloc, who, place),
            Action::Discard => self.discard(who, place),
            Action::Accept => self.accept(who, place),
            Action::Start => self.start(alloc, who, place),
            Action::End => self.end(alloc, who, place),
            Action::SetConst(name, value) => self.set_const(who, place, name, value),
            Action::SetOwn(name) => self.set_own(who, place, name),
            Action::GetConst(name) => self.get_const(who, place, name),
            Action::Offer(to) => match place_of(to, self.inboxes.len()) {
                Some(inbox) => self.offer(who, place, to, inbox),
                None => Reply::NotEnabled,
            },
            Action::Close(to) => match place_of(to, self.inboxes.len()) {
                Some(inbox) => self.close(who, place, to, inbox),
                None => Reply::NotEnabled,
            },
            Action::ShowLast(kind) => self.show_last(who, place, kind),
            Action::Show => self.show(who, place),
            Action::Withdraw(ticket) => self.withdraw(who, place, ticket),
            Action::Settle(ticket) => self.settle(who, place, ticket),
            Action::Grab(to) => self.grab(who, place, to),
            Action::ClosePort(to) => self.close_port(who, place, to),
            _ => self.act(alloc, who, place, action),
        }
    }

    /// Makes one step.
    pub fn step(&mut self, alloc: Global, step: &Step) -> Reply
        ensures step { IsStep step.now result self.old self.new }
    {
        match self.running(step.who) {
            Some(place) => self.make(alloc, step.who, place, step.action),
            None => Reply::NotEnabled,
        }
    }

    /// Makes each step in turn, and answers what each answered.
    ///
    /// A step's own fault is its reply. `Memory`, where room for the replies was refused, is the only fault; then no step
    /// was made.
    pub fn run_steps(&mut self, alloc: Global, steps: &[Step]) -> Result<Vec<Reply>, Fault>
        ensures run { IfOk result (λ replies. IsRun steps.now replies.items self.old self.new) }
        ensures fault { IfErr result (λ fault. (fault ≡ Fault.Memory) × (self.new ≡ self.old)) }
    {
        let mut replies = Vec::with_capacity(alloc, steps.len())?;
        for step in steps {
            let reply = self.step(alloc, step);
            replies.push_reserved(reply);
        }
        Ok(replies)
    }
}
