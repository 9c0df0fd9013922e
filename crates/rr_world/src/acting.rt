//! Steps that a ractor makes by itself: on its objects, its roots and its hand.

ghost use Rattle.std.specs.Prelude.{◌<◌, length};
ghost use Rattle.rr_world.specs.Acting.{ActsByItself, IsByItself};
ghost use Rattle.rr_world.specs.Enabling.{StandsAt};
ghost use Rattle.rr_world.specs.Runs.{HasOutcome};

use crate::outcome::Outcome;
use crate::ractor::Ractor;
use crate::step::{Action, Reply};
use crate::world::World;
use rr_base::RactorNo;
use rr_move::shown_by_moving;
use std::alloc::Global;

impl Ractor {
    // Makes a step that it makes by itself.
    fn act(&mut self, alloc: Global, action: Action) -> Outcome
        requires { IsByItself action }
        ensures { ActsByItself action result self.old self.new }
    {
        match action {
            Action::Alloc(new) => self.alloc(alloc, new),
            Action::Pack(value) => self.pack(alloc, value),
            Action::Detach(value) => self.detach(alloc, value),
            Action::PutBack => self.put_back(),
            Action::Plan(value) => self.plan(alloc, value),
            Action::Promote => self.promote(),
            Action::Open => self.open_held(),
            Action::Freeze(object) => self.freeze(object),
            Action::Append(text, byte) => self.append(text, byte),
            Action::Clear(text) => self.clear_text(alloc, text),
            Action::Push(array, value) => self.push(array, value),
            Action::Write(array, at, value) => self.write(array, at, value),
            Action::Take(array, at) => self.take_element(array, at),
            Action::SetField(object, name, value) => self.set_field(object, name, value),
            Action::SetRaised(exception, part, value) => self.set_raised(exception, part, value),
            Action::SetPair(hash, key, value) => self.set_pair(alloc, hash, key, value),
            Action::DeletePair(hash, at) => self.delete_pair(hash, at),
            Action::Read(object, label) => self.read(object, label),
            _ => Outcome::NotEnabled,
        }
    }
}

impl World {
    /// A ractor makes a step by itself.
    pub(crate) fn act(
        &mut self,
        alloc: Global,
        who: RactorNo,
        place: usize,
        action: Action,
    ) -> Reply
        requires stands { StandsAt who place }
        requires within { place < length self.old.ractors }
        requires alone { IsByItself action }
        ensures { HasOutcome (record { who = who; action = action }) result self.old self.new }
    {
        // By the laws on moves a `Detach` is one, in the whole graph, and a `PutBack` ends one.
        shown_by_moving();
        let ractor = &mut self.ractors[place];
        ractor.act(alloc, action).reply()
    }
}
