//! A walk by chance: each step is made by the World and by a plain model, and the answers are the same.

ghost use Rattle.std.specs.Prelude.{◌≤◌};

use crate::model::{Holder, KINDS, Model, Told, Value, what_it_tells};
use rr_base::{ClassId, Limits, RactorNo, Sym, Ticket};
use rr_space::Label;
use rr_world::{Action, LastKind, NewObject, Operand, RaisedPart, Step, World};
use std::alloc::{AllocError, Global};
use std::process::Abort;
use std::test::Fail;

/// How many steps a walk has.
const STEPS: u32 = 2_000;

/// Few slots or few events, so that each limit is reached on the way.
const FEW_SLOTS: Limits = Limits {
    ractors: 6,
    slots: 12,
    ..Limits::DEFAULT
};

const FEW_EVENTS: Limits = Limits {
    ractors: 6,
    slots: 50,
    events: 8,
    ..Limits::DEFAULT
};

/// Numbers by chance, always the same ones: a linear congruence of 64 bits, of which the upper half is used.
#[derive(Drop)]
struct Dice {
    state: u64,
    // Who showed a message last, and its ticket: chance alone seldom asks after one while it is shown.
    shown: Option<(RactorNo, Ticket)>,
}

impl Dice {
    fn below(&mut self, bound: u32) -> u32 {
        self.state = self
            .state
            .wrapping_mul(6_364_136_223_846_793_005)
            .wrapping_add(1_442_695_040_888_963_407);
        ((self.state >> 33) as u32).checked_rem(bound).unwrap_or(0)
    }

    fn ractor(&mut self) -> RactorNo {
        RactorNo(self.below(8))
    }

    /// One of the first roots, or an immediate.
    fn operand(&mut self) -> Operand {
        match self.below(10) {
            0 => Operand::Int(7),
            1 => Operand::Nil,
            _ => Operand::Root(self.below(30)),
        }
    }

    fn label(&mut self) -> Label {
        match self.below(10) {
            8 => Label::Key(self.below(2) as usize),
            9 => Label::Value(self.below(2) as usize),
            0 => Label::Message,
            1 => Label::Cause,
            2 => Label::Ractor,
            3 | 4 => Label::Field(Sym(self.below(3))),
            _ => Label::Place(self.below(3) as usize),
        }
    }

    fn new_object(&mut self) -> NewObject {
        match self.below(8) {
            0 | 1 => NewObject::Text,
            2 => NewObject::Object(ClassId::OBJECT),
            3 => NewObject::Exception(ClassId::EXCEPTION),
            4 => NewObject::Hash,
            _ => NewObject::Array,
        }
    }

    /// A step on objects.
    fn change(&mut self) -> Action {
        match self.below(10) {
            0 => Action::Freeze(self.operand()),
            1 => Action::Append(self.operand(), b'a'),
            8 => Action::Take(self.operand(), self.below(3)),
            9 => self.other_change(),
            2 => Action::Write(self.operand(), self.below(3), self.operand()),
            3 => Action::SetField(self.operand(), Sym(self.below(3)), self.operand()),
            4 => Action::Read(self.operand(), self.label()),
            5 => Action::Alloc(self.new_object()),
            _ => Action::Push(self.operand(), self.operand()),
        }
    }

    /// A text is cleared, a pair of a hash set or deleted, or a part of an exception set.
    fn other_change(&mut self) -> Action {
        let part = match self.below(10) {
            0 => return Action::Clear(self.operand()),
            4 | 5 | 6 | 7 => {
                return Action::SetPair(self.operand(), self.operand(), self.operand());
            }
            8 => return Action::DeletePair(self.operand(), self.below(2)),
            1 => RaisedPart::Message,
            2 => RaisedPart::Cause,
            _ => RaisedPart::Ractor,
        };
        Action::SetRaised(self.operand(), part, self.operand())
    }

    /// A step on constants.
    fn constant(&mut self) -> Action {
        let name = Sym(self.below(3));
        match self.below(6) {
            0 => Action::SetConst(name, self.operand()),
            1 => Action::SetOwn(name),
            _ => Action::GetConst(name),
        }
    }

    /// A step on ports.
    fn port(&mut self) -> Action {
        match self.below(20) {
            0 if self.below(3) == 0 => Action::ClosePort(self.ractor()),
            0 | 1 => Action::ShowLast(LastKind::Value),
            2 | 3 => Action::ShowLast(LastKind::Fault),
            4 | 5 | 6 | 7 | 8 => Action::Show,
            9 | 10 | 11 => Action::Withdraw(self.below(3)),
            12 | 13 => Action::Settle(self.below(3)),
            _ => Action::Grab(self.ractor()),
        }
    }

    /// A step on plans.
    fn plan(&mut self) -> Action {
        match self.below(4) {
            0 => Action::Publish,
            1 => Action::Promote,
            _ => Action::Plan(self.operand()),
        }
    }

    /// A step on messages and inboxes.
    fn exchange(&mut self) -> Action {
        match self.below(24) {
            0 => Action::Discard,
            1 => Action::Start,
            2 | 16 | 17 | 18 => self.port(),
            3 if self.below(2) == 0 => Action::Close(self.ractor()),
            3 | 4 | 5 => Action::Open,
            6 | 7 | 8 => Action::Accept,
            9 | 10 | 11 => Action::Offer(self.ractor()),
            12 => Action::PutBack,
            13 | 14 => Action::Detach(self.operand()),
            15 | 20 | 21 | 22 | 23 => self.plan(),
            _ => Action::Pack(self.operand()),
        }
    }

    /// A step on what was shown last: by who showed it, or a grab.
    fn about_shown(&mut self) -> Option<Step> {
        let (owner, ticket) = self.shown?;
        let (who, action) = match self.below(12) {
            0 => (owner, Action::ClosePort(owner)),
            1 | 2 | 3 => (owner, Action::Withdraw(ticket)),
            4 | 5 => (self.ractor(), Action::Grab(owner)),
            _ => (owner, Action::Settle(ticket)),
        };
        Some(Step { who, action })
    }

    fn step(&mut self) -> Step {
        if self.below(40) == 0
            && let Some(step) = self.about_shown()
        {
            return step;
        }
        let who = self.ractor();
        let action = match self.below(12) {
            0 if self.below(60) == 0 => Action::End,
            0 => self.constant(),
            1 | 2 | 3 | 4 | 5 => self.change(),
            _ => self.exchange(),
        };
        Step { who, action }
    }
}

/// What a value leads to has one holder, or is in a published cluster.
fn is_held_by(
    model: &Model,
    alloc: Global,
    value: Value,
    holder: Holder,
) -> Result<bool, AllocError> {
    let found = model.reached(alloc, value)?;
    for (object, found) in model.objects.iter().zip(found.iter()) {
        if *found && object.holder != holder && !matches!(object.holder, Holder::Cluster(_)) {
            return Ok(false);
        }
    }
    Ok(true)
}

/// What the roots and the hand of a ractor lead to is its own.
fn is_apart(model: &Model, alloc: Global, who: usize) -> Result<bool, AllocError> {
    let Some(actor) = model.actors.get(who) else {
        return Ok(true);
    };
    for root in &actor.roots {
        if !is_held_by(model, alloc, *root, Holder::Ractor(who))? {
            return Ok(false);
        }
    }
    is_hand_apart(model, alloc, who)
}

/// What the message in the hand of a ractor leads to is its own.
fn is_hand_apart(model: &Model, alloc: Global, who: usize) -> Result<bool, AllocError> {
    match model.hand(who) {
        Some(parcel) => is_held_by(model, alloc, parcel.root, Holder::Hand(who)),
        None => Ok(true),
    }
}

/// What the messages of an inbox lead to is theirs.
fn is_inbox_apart(model: &Model, alloc: Global, place: usize) -> Result<bool, AllocError> {
    let Some(inbox) = model.inboxes.get(place) else {
        return Ok(true);
    };
    for (ticket, parcel) in &inbox.inside {
        if !is_held_by(model, alloc, parcel.root, Holder::Inbox(place, *ticket))? {
            return Ok(false);
        }
    }
    Ok(true)
}

/// What the shown message and the last message of a port lead to is theirs.
fn is_port_apart(model: &Model, alloc: Global, place: usize) -> Result<bool, AllocError> {
    let Some(port) = model.ports.get(place) else {
        return Ok(true);
    };
    if let Some((ticket, parcel)) = port.shown
        && !is_held_by(model, alloc, parcel.root, Holder::Port(place, ticket))?
    {
        return Ok(false);
    }
    match port.last {
        Some((ticket, parcel, _)) => {
            is_held_by(model, alloc, parcel.root, Holder::Port(place, ticket))
        }
        None => Ok(true),
    }
}

/// What is in the hand of the ractor of this number, in its inbox and in its port is theirs, and its last root leads to
/// its own.
fn is_place_apart(model: &Model, alloc: Global, number: RactorNo) -> Result<bool, AllocError> {
    let Some(place) = (number.0 as usize).checked_sub(1) else {
        return Ok(true);
    };
    let Some(actor) = model.actors.get(place) else {
        return Ok(true);
    };
    let root = actor.roots.last().copied().unwrap_or(Value::Nil);
    Ok(
        is_held_by(model, alloc, root, Holder::Ractor(place))?
            && is_hand_apart(model, alloc, place)?
            && is_inbox_apart(model, alloc, place)?
            && is_port_apart(model, alloc, place)?,
    )
}

/// The holders that a step touches are apart.
fn is_touched_apart(model: &Model, alloc: Global, step: &Step) -> Result<bool, AllocError> {
    let other = match step.action {
        Action::Offer(to) | Action::Close(to) | Action::Grab(to) | Action::ClosePort(to) => to,
        _ => step.who,
    };
    Ok(is_place_apart(model, alloc, step.who)? && is_place_apart(model, alloc, other)?)
}

/// No two holders lead to one object: each leads to its own alone.
fn are_apart(model: &Model, alloc: Global) -> Result<bool, AllocError> {
    for who in 0..model.actors.len() {
        if !is_apart(model, alloc, who)?
            || !is_inbox_apart(model, alloc, who)?
            || !is_port_apart(model, alloc, who)?
        {
            return Ok(false);
        }
    }
    Ok(true)
}

/// What a walk is read out by at its end: the labels that it may have put something under.
const LABELS: [Label; 13] = [
    Label::Place(0),
    Label::Place(1),
    Label::Place(2),
    Label::Field(Sym(0)),
    Label::Field(Sym(1)),
    Label::Field(Sym(2)),
    Label::Key(0),
    Label::Value(0),
    Label::Key(1),
    Label::Value(1),
    Label::Message,
    Label::Cause,
    Label::Ractor,
];

/// Reads what stands under each label in the first roots of each ractor, and in what was read so, from both.
fn read_out(
    rt: &impl Abort,
    alloc: Global,
    world: &mut World,
    model: &mut Model,
) -> Result<(), Fail> {
    for who in 1..9 {
        for root in 0..40 {
            for label in LABELS {
                let step = Step {
                    who: RactorNo(who),
                    action: Action::Read(Operand::Root(root), label),
                };
                let reply = world.step(alloc, &step);
                let wanted = model.step(alloc, &step)?;
                assert_eq!(rt; (who, root, what_it_tells(&reply)), (who, root, wanted));
            }
        }
    }
    Ok(())
}

fn walk(
    rt: &impl Abort,
    alloc: Global,
    seed: u64,
    limits: Limits,
    seen: &mut [bool],
) -> Result<(), Fail>
    requires { 3 ≤ limits.events }
{
    let mut dice = Dice {
        state: seed,
        shown: None,
    };
    let mut world = World::new(alloc, limits)?;
    let mut model = Model::new(alloc, limits)?;
    for number in 0..STEPS {
        let step = dice.step();
        let reply = world.step(alloc, &step);
        let wanted = model.step(alloc, &step)?;
        assert_eq!(rt; (number, what_it_tells(&reply)), (number, wanted));
        if let Some(mark) = seen.get_mut(wanted.kind()) {
            *mark = true;
        }
        if let (Action::Show | Action::ShowLast(_), Told::Offered(ticket)) = (step.action, wanted) {
            dice.shown = Some((step.who, ticket));
        }
        assert!(rt; is_touched_apart(&model, alloc, &step)?);
        if number % 100 == 0 {
            assert!(rt; are_apart(&model, alloc)?);
        }
    }
    read_out(rt, alloc, &mut world, &mut model)
}

#[test]
fn the_world_answers_as_the_model_does(rt: HostRuntime) -> Result<(), Fail> {
    let mut seen = [false; KINDS];
    for seed in 1..5 {
        walk(&rt, rt.alloc(), seed, FEW_SLOTS, &mut seen)?;
        walk(&rt, rt.alloc(), seed, FEW_EVENTS, &mut seen)?;
    }
    // Each kind of answer was seen on the way.
    for (kind, seen) in seen.iter().enumerate() {
        assert_eq!(rt; (kind, *seen), (kind, true));
    }
    Ok(())
}
