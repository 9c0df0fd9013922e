//! The bytes of the names of a program.

ghost use Rattle.std.specs.Prelude.{◌≡◌};
ghost use Rattle.rr_base.specs.Classes.{class_id, class_name};
ghost use Rattle.rr_base.specs.declared.class.BuiltInClass.{BuiltInClass};
ghost use Rattle.rr_tree.specs.Names.{symbol_text, class_text, program_class_text};

use crate::program::Program;
use rr_base::{ClassId, Sym};

impl Program {
    /// The bytes of a name; none where the program has no name of this number.
    pub fn symbol_bytes(&self, symbol: Sym) -> &[u8]
        ensures { result.now ≡ symbol_text self.now symbol.0 }
    {
        match self.symbols.get(symbol.0 as usize) {
            Some(bytes) => bytes.as_slice(),
            None => &[],
        }
    }

    /// The name of a class of the program, from 0 on; none where it has no class of this number.
    fn program_class_name(&self, number: u32) -> &[u8]
        ensures { result.now ≡ program_class_text self.now number }
    {
        match self.classes.get(number as usize) {
            Some(class) => self.symbol_bytes(class.name),
            None => &[],
        }
    }

    /// The name of a class, as a script prints it; none where there is no class of this number.
    pub fn class_name(&self, class: ClassId) -> &[u8]
        ensures name { result.now ≡ class_text self.now class.0 }
        // A built-in class has its own name.
        ensures built_in { (c : BuiltInClass) → class_id c ≡ class → result.now ≡ class_name c }
    {
        match class.built_in() {
            Some(built_in) => built_in.name().as_bytes(),
            None => self.program_class_name(class.0 - ClassId::BUILT_IN),
        }
    }
}
