//! The local variables that are known at a place, each found by its name at once.

ghost use Rattle.std.specs.Prelude.{◌≡◌, ◌-◌, ◌<◌, ◌++◌, ◌∷◌, [], ℕ, None, OnOk, OnErr, length, take, slice_index_or, slice_set, vec_len};
ghost use Rattle.rr_parser.specs.Grammar.Names.{find};

use rr_base::Sym;
use std::alloc::{AllocError, Global};
use std::marker::Model;

/// A local variable: its name, the level of its scope, and its number there.
#[derive(Clone, Copy, Drop)]
pub(crate) struct Local {
    pub name: Sym,
    pub level: u32,
    pub slot: u32,
}

/// The local variables, those of the scopes outside first. A name is that of the last one that has it.
#[derive(Drop)]
pub(crate) struct Locals {
    locals: Vec<Local>,
    // For each of them, the place of the one that it hides.
    hidden: Vec<Option<usize>>,
    // By the number of a name, the place of the last one that has it.
    newest: Vec<Option<usize>>,
}

impl Model for Locals {
    ghost use Rattle.std.specs.Prelude.{List};
    ghost use Rattle.rr_parser.specs.declared.locals.Local.{Local};
    ghost use Rattle.rr_parser.specs.Locals.{IsIndexed};

    ghost Value = { List Local };

    ghost view = { λ s. s.locals.items };

    ghost invariant = { λ s. IsIndexed s.locals.items s.hidden.items s.newest.items };
}

// What the table has for a name.
#[inline(always)]
fn place_of(newest: &[Option<usize>], name: Sym) -> Option<usize>
    ensures { result ≡ slice_index_or newest.now name.0 None }
{
    let index = name.0 as usize;
    if index < newest.len() {
        newest[index]
    } else {
        None
    }
}

// The table has an entry for a name.
fn make_room(newest: &mut Vec<Option<usize>>, name: Sym) -> Result<(), AllocError>
    ensures long { OnOk result (name.0 < length newest.new.items) }
    ensures same { (x : ℕ) → slice_index_or newest.new.items x None ≡ slice_index_or newest.old.items x None }
{
    while newest.len() <= name.0 as usize {
        newest.push(None)?;
    }
    Ok(())
}

impl Locals {
    pub fn new(alloc: Global) -> Locals
        ensures { result ≡ [] }
    {
        Locals {
            locals: Vec::new(alloc),
            hidden: Vec::new(alloc),
            newest: Vec::new(alloc),
        }
    }

    #[inline(always)]
    pub fn len(&self) -> usize
        ensures { result ≡ length self.now }
    {
        self.locals.len()
    }

    /// The last variable of this name.
    #[inline(always)]
    pub fn find(&self, name: Sym) -> Option<Local>
        ensures { result ≡ find name.0 self.now }
    {
        match place_of(self.newest.as_slice(), name) {
            Some(place) if place < self.locals.len() => Some(self.locals[place]),
            _ => None,
        }
    }

    /// One variable more. A refused growth leaves those that are there.
    pub fn push(&mut self, local: Local) -> Result<(), AllocError>
        ensures pushed { OnOk result (self.new ≡ self.old ++ local ∷ []) }
        ensures refused { OnErr result (self.new ≡ self.old) }
    {
        let hidden = place_of(self.newest.as_slice(), local.name);
        let place = self.locals.len();
        self.locals.reserve(1)?;
        self.hidden.reserve(1)?;
        make_room(&mut self.newest, local.name)?;
        self.locals.push_reserved(local);
        self.hidden.push_reserved(hidden);
        self.newest[local.name.0 as usize] = Some(place);
        Ok(())
    }

    // Takes the last one away: what it hid is found again.
    fn pop(&mut self)
        ensures { self.new ≡ take (length self.old - 1) self.old }
    {
        if let Some(local) = self.locals.pop()
            && let Some(hidden) = self.hidden.pop()
        {
            let index = local.name.0 as usize;
            if index < self.newest.len() {
                self.newest[index] = hidden;
            }
        }
    }

    /// Leaves the first ones alone.
    pub fn truncate(&mut self, count: usize)
        ensures { self.new ≡ take count self.old }
    {
        while self.locals.len() > count {
            self.pop();
        }
    }
}
