//! The names of a program, found by their bytes.

ghost use Rattle.std.specs.Prelude.{◌≡◌, IfOk, IfSome};
ghost use Rattle.rr_tree.specs.Methods.{symbol_named, number_in, IsIndexOf};

use crate::program::Program;
use indexmap::IndexMap;
use rr_base::Sym;
use std::alloc::{AllocError, Global};

/// The first name with certain bytes, for all bytes that a program has a name of.
#[derive(Drop)]
pub(crate) struct NameIndex<'p> {
    numbers: IndexMap<&'p [u8], u32>,
}

impl<'p> NameIndex<'p> {
    /// The index of a program. The only fault is want of memory.
    fn of(alloc: Global, program: &'p Program) -> Result<NameIndex<'p>, AllocError>
        ensures { IfOk result (λ index. IsIndexOf program.now index) }
    {
        let mut numbers = IndexMap::new(alloc);
        let mut number = program.symbols.len().min(u32::MAX as usize) as u32;
        // From the last name to the first, so that the first one stays.
        while 0 < number {
            number -= 1;
            numbers.insert(program.symbol_bytes(Sym(number)), number)?;
        }
        Ok(NameIndex { numbers })
    }

    /// The first name with these bytes.
    fn number(&self, program: &Program, bytes: &[u8]) -> Option<Sym>
        requires { IsIndexOf program.now self.now }
        ensures { number_in result ≡ symbol_named program.now bytes.now }
    {
        match self.numbers.get(bytes) {
            Some(number) => Some(Sym(*number)),
            None => None,
        }
    }
}

/// The names of a program by their bytes: the index is made when the first name is looked for.
#[derive(Drop)]
pub(crate) struct Named<'p> {
    index: Option<NameIndex<'p>>,
}

impl<'p> Named<'p> {
    ghost use Rattle.rr_tree.specs.Methods.{IsNamedBy};

    /// Nothing is looked up yet.
    pub(crate) fn new() -> Named<'p>
        ensures { (p : Program) → IsNamedBy p result }
    {
        Named { index: None }
    }

    /// The first name with these bytes. The only fault is want of memory.
    pub(crate) fn find(
        &mut self,
        alloc: Global,
        program: &'p Program,
        bytes: &[u8],
    ) -> Result<Option<Sym>, AllocError>
        requires { IsNamedBy program.now self.old }
        ensures name { IfOk result (λ name. number_in name ≡ symbol_named program.now bytes.now) }
        ensures index { IsNamedBy program.now self.new }
    {
        match &self.index {
            Some(index) => Ok(index.number(program, bytes)),
            None => {
                let index = NameIndex::of(alloc, program)?;
                let name = index.number(program, bytes);
                self.index = Some(index);
                Ok(name)
            }
        }
    }
}
