//! The names of symbols and classes, as a program spells them.

ghost use Rattle.std.specs.Prelude.{◌≡◌};
ghost use Rattle.rr_text.specs.Names.{names_of};

use rr_base::{ClassId, Sym};
use rr_tree::Program;

/// The name of a symbol.
pub fn symbol_name(program: &Program, symbol: Sym) -> &[u8]
    ensures { result.now ≡ (names_of program.now).symbol symbol.0 }
{
    program.symbol_bytes(symbol)
}

/// The name of a class.
pub fn class_name(program: &Program, class: ClassId) -> &[u8]
    ensures { result.now ≡ (names_of program.now).class class.0 }
{
    program.class_name(class)
}
