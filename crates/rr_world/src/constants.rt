//! Steps on the constants of the store.

ghost use Rattle.std.specs.Prelude.{◌<◌, length};
ghost use Rattle.rr_world.specs.Enabling.{StandsAt};
ghost use Rattle.rr_world.specs.Runs.{HasOutcome};
ghost use Rattle.rr_world.specs.declared.step.Action.TheVariants.{SetConst, SetOwn, GetConst};

use crate::step::{Operand, Reply};
use crate::world::World;
use rr_base::{RactorNo, Sym};
use rr_store::ConstValue;

impl World {
    /// A constant is set to an immediate or a published object.
    pub(crate) fn set_const(
        &mut self,
        who: RactorNo,
        place: usize,
        name: Sym,
        value: Operand,
    ) -> Reply
        requires stands { StandsAt who place }
        requires within { place < length self.old.ractors }
        ensures { HasOutcome (record { who = who; action = SetConst name value }) result self.old self.new }
    {
        if self.ractors[place].has_published() {
            return Reply::NotEnabled;
        }
        let Some(value) = self.ractors[place].public(value) else {
            return Reply::NotEnabled;
        };
        if let Err(fault) = self
            .store
            .set_const(who, name, ConstValue::Shareable(value))
        {
            return Reply::Refused(fault);
        }
        Reply::Done
    }

    /// A constant is set to a value of the main ractor's own.
    pub(crate) fn set_own(&mut self, who: RactorNo, place: usize, name: Sym) -> Reply
        requires stands { StandsAt who place }
        requires within { place < length self.old.ractors }
        ensures { HasOutcome (record { who = who; action = SetOwn name }) result self.old self.new }
    {
        if self.ractors[place].has_published() {
            return Reply::NotEnabled;
        }
        if let Err(fault) = self.store.set_const(who, name, ConstValue::Own) {
            return Reply::Refused(fault);
        }
        Reply::Done
    }

    /// The value of a constant joins the roots.
    pub(crate) fn get_const(&mut self, who: RactorNo, place: usize, name: Sym) -> Reply
        requires stands { StandsAt who place }
        requires within { place < length self.old.ractors }
        ensures { HasOutcome (record { who = who; action = GetConst name }) result self.old self.new }
    {
        match self.store.get_const(who, name) {
            Ok(ConstValue::Shareable(value)) => self.ractors[place].join(value).reply(),
            Ok(ConstValue::Own) => Reply::OfMain,
            Err(fault) => Reply::Refused(fault),
        }
    }
}
