//! The local variables that are known at a place, and the scopes that they belong to.

ghost use Rattle.std.specs.Prelude.{◌≡◌, IfOk, IfSome, OnOk, is_some};
ghost use Rattle.rr_parser.specs.Grammar.Names.{find, seen_from, with_variable, with_loop};
ghost use Rattle.rr_parser.specs.Grammar.Fences.{with_do};
ghost use Rattle.rr_parser.specs.Grammar.Blocks.{inner, with_parameters};
ghost use Rattle.rr_parser.specs.Variables.{known_in};
ghost use Rattle.rr_parser.specs.Meets.{Begins, left_by};

use crate::locals::{Local, Locals};
use crate::refusal::Storage;
use rr_base::Sym;

/// A local variable as it is seen at a place: how many scopes outside it is, and its number there.
#[derive(Clone, Copy, Drop)]
pub(crate) struct Variable {
    pub depth: u32,
    pub slot: u32,
}

/// A scope that is open: its number, how many parameters it has, and what was known before it.
#[derive(Clone, Copy, Drop)]
pub(crate) struct Scope {
    pub number: u32,
    pub parameters: u32,
    pub locals: usize,
    pub level: u32,
    pub count: u32,
    pub in_loop: bool,
}

/// The local variables, those of the scopes outside first.
#[derive(Drop)]
pub(crate) struct Variables {
    pub locals: Locals,
    /// How many scopes are open around the present one.
    pub level: u32,
    /// How many variables the present scope has.
    pub count: u32,
    /// How many scopes were begun.
    pub begun: u32,
    /// Whether the place is in a loop or a block.
    pub in_loop: bool,
    /// Whether the place is in a method.
    pub in_method: bool,
    /// Whether a call takes a block that begins with the word `do`.
    pub takes_do: bool,
}

impl Variables {
    #[inline(always)]
    fn seen(&self, local: Local) -> Variable
        ensures { result ≡ seen_from (known_in self.now) (Some local) }
    {
        Variable {
            depth: self.level.saturating_sub(local.level),
            slot: local.slot,
        }
    }

    /// How the variable of this name is seen, where the name is one.
    #[inline(always)]
    pub fn variable(&self, name: Sym) -> Option<Variable>
        ensures is { is_some result ≡ is_some (find name.0 self.now.locals) }
        ensures seen { IfSome result (λ v. v ≡ seen_from (known_in self.now) (find name.0 self.now.locals)) }
    {
        let local = self.locals.find(name)?;
        Some(self.seen(local))
    }

    /// From here on the name is a new variable of the present scope, and gets the next number.
    fn add(&mut self, name: Sym) -> Result<Variable, Storage>
        ensures known { OnOk result (known_in self.new ≡ with_variable (known_in self.old) name None) }
        ensures seen { IfOk result (λ v. v ≡ seen_from (known_in self.new) (find name.0 self.new.locals)) }
    {
        let slot = self.count;
        let Some(count) = slot.checked_add(1) else {
            return Err(Storage::Slots);
        };
        self.locals.push(Local {
            name,
            level: self.level,
            slot,
        })?;
        self.count = count;
        Ok(Variable { depth: 0, slot })
    }

    /// From here on the name is a local variable: it gets the next number, unless it is one already.
    #[inline(always)]
    pub fn mark(&mut self, name: Sym) -> Result<Variable, Storage>
        ensures known { OnOk result (known_in self.new ≡ with_variable (known_in self.old) name (find name.0 self.old.locals)) }
        ensures seen { IfOk result (λ v. v ≡ seen_from (known_in self.new) (find name.0 self.new.locals)) }
    {
        match self.locals.find(name) {
            Some(local) => Ok(self.seen(local)),
            None => self.add(name),
        }
    }

    pub fn add_parameters(&mut self, names: &[Sym]) -> Result<(), Storage>
        ensures { OnOk result (known_in self.new ≡ with_parameters names.now (known_in self.old)) }
    {
        for name in names {
            self.add(*name)?;
        }
        Ok(())
    }

    /// A scope inside the present one, which has no variables yet.
    fn go_inside(&mut self) -> Result<(), Storage>
        ensures { OnOk result (known_in self.new ≡ inner (known_in self.old)) }
    {
        let Some(begun) = self.begun.checked_add(1) else {
            return Err(Storage::Slots);
        };
        let Some(level) = self.level.checked_add(1) else {
            return Err(Storage::Slots);
        };
        self.begun = begun;
        self.level = level;
        self.count = 0;
        self.in_loop = true;
        Ok(())
    }

    /// Begins a scope inside the present one.
    pub fn begin(&mut self, parameters: &[Sym]) -> Result<Scope, Storage>
        ensures { IfOk result (Begins (known_in self.old) (known_in self.new) parameters.now) }
    {
        let Ok(given) = u32::try_from(parameters.len()) else {
            return Err(Storage::Slots);
        };
        let locals = self.locals.len();
        let level = self.level;
        let count = self.count;
        let in_loop = self.in_loop;
        self.go_inside()?;
        self.add_parameters(parameters)?;
        Ok(Scope {
            number: self.begun,
            parameters: given,
            locals,
            level,
            count,
            in_loop,
        })
    }

    /// Leaves a scope.
    pub fn leave(&mut self, scope: Scope)
        ensures { known_in self.new ≡ left_by scope (known_in self.old) }
    {
        self.locals.truncate(scope.locals);
        self.level = scope.level;
        self.count = scope.count;
        self.in_loop = scope.in_loop;
    }

    /// From here on the place is in a loop, or not.
    pub fn set_loop(&mut self, in_loop: bool)
        ensures { known_in self.new ≡ with_loop in_loop (known_in self.old) }
    {
        self.in_loop = in_loop;
    }

    /// From here on calls take the word `do`, or not.
    pub fn set_do(&mut self, takes_do: bool)
        ensures { known_in self.new ≡ with_do takes_do (known_in self.old) }
    {
        self.takes_do = takes_do;
    }
}
