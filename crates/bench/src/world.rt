//! Many ractors of one World that change their objects and send one another messages.

use crate::clock::per;
use rr_base::{Limits, RactorNo};
use rr_world::{Action, NewObject, Operand, Reply, Step, World};
use std::alloc::Global;
use std::io;
use std::time::Instant;

const RACTORS: u16 = 200;

const STEPS: u32 = 1_000_000;

/// How many of a ractor's roots the steps name.
const ROOTS: u32 = 100;

const LIMITS: Limits = Limits {
    ractors: RACTORS,
    slots: 100_000,
    ..Limits::DEFAULT
};

/// Numbers by chance, always the same ones: a linear congruence of 64 bits, of which the upper half is used.
#[derive(Drop)]
struct Dice(u64);

impl Dice {
    fn below(&mut self, bound: u32) -> u32 {
        self.0 = self
            .0
            .wrapping_mul(6_364_136_223_846_793_005)
            .wrapping_add(1_442_695_040_888_963_407);
        ((self.0 >> 33) as u32).checked_rem(bound).unwrap_or(0)
    }

    fn ractor(&mut self) -> RactorNo {
        RactorNo(self.below(u32::from(RACTORS)).wrapping_add(1))
    }

    fn root(&mut self) -> Operand {
        Operand::Root(self.below(ROOTS))
    }

    /// What is pushed: an integer most often, so that values lead to a few objects each.
    fn element(&mut self) -> Operand {
        match self.below(8) {
            0 => self.root(),
            _ => Operand::Int(7),
        }
    }

    /// A step that makes an object or changes one.
    fn change(&mut self) -> Action {
        match self.below(8) {
            0 => Action::Alloc(NewObject::Text),
            1 => Action::Alloc(NewObject::Array),
            2 => Action::Alloc(NewObject::Hash),
            3 | 4 => Action::Push(self.root(), self.element()),
            5 => Action::SetPair(self.root(), Operand::Int(7), self.element()),
            6 => Action::DeletePair(self.root(), 0),
            _ => Action::Append(self.root(), b'a'),
        }
    }

    /// A step with the hand, an inbox, a port or the store.
    fn send(&mut self) -> Action {
        match self.below(12) {
            0 | 1 => Action::Pack(self.root()),
            2 | 3 => Action::Detach(self.root()),
            4 => Action::Offer(self.ractor()),
            5 => Action::Accept,
            6 => Action::Show,
            7 => Action::Grab(self.ractor()),
            8 => Action::Plan(self.root()),
            9 => Action::Publish,
            10 => Action::Promote,
            _ => Action::Open,
        }
    }

    fn action(&mut self) -> Action {
        match self.below(2) {
            0 => self.change(),
            _ => self.send(),
        }
    }

    fn step(&mut self) -> Step {
        Step {
            who: self.ractor(),
            action: self.action(),
        }
    }
}

/// How many steps were made, were not possible, and were refused.
#[derive(Drop)]
struct Counts {
    made: u32,
    not_enabled: u32,
    refused: u32,
}

impl Counts {
    fn count(&mut self, reply: &Reply) {
        let counter = match reply {
            Reply::NotEnabled => &mut self.not_enabled,
            Reply::Refused(_) => &mut self.refused,
            _ => &mut self.made,
        };
        *counter = counter.wrapping_add(1);
    }
}

/// The main ractor starts all others.
fn start_all(alloc: Global, world: &mut World) {
    let step = Step {
        who: RactorNo(1),
        action: Action::Start,
    };
    for _ in 1..RACTORS {
        let _ = world.step(alloc, &step);
    }
}

fn walk(alloc: Global, world: &mut World) -> Counts {
    let mut dice = Dice(1);
    let mut counts = Counts {
        made: 0,
        not_enabled: 0,
        refused: 0,
    };
    for _ in 0..STEPS {
        let step = dice.step();
        let reply = world.step(alloc, &step);
        counts.count(&reply);
    }
    counts
}

pub fn measure(rt: &HostRuntime) -> io::Result<()> {
    let Ok(mut world) = World::new(rt.alloc(), LIMITS) else {
        return println!(rt; "no memory");
    };
    start_all(rt.alloc(), &mut world);
    let begun = Instant::now(rt)?;
    let Counts {
        made,
        not_enabled,
        refused,
    } = walk(rt.alloc(), &mut world);
    let each = per(begun.elapsed(rt)?, STEPS);
    println!(rt;
        "{RACTORS} ractors, {STEPS} steps: {made} made, {not_enabled} not possible, {refused} refused; {each} ns each"
    )
}
