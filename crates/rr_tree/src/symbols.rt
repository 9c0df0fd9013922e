//! Names by their bytes.

ghost use Rattle.std.specs.Prelude.{◌≡◌};
ghost use Rattle.std.specs.Option.{option_map};
ghost use Rattle.rr_base.specs.declared.name.Sym.{Sym as Name};
ghost use Rattle.rr_tree.specs.Methods.{symbol_named};

use crate::program::Program;
use rr_base::Sym;

impl Program {
    /// The first name with these bytes, if the program has one among its first `u32::MAX` names.
    pub fn symbol_named(&self, bytes: &[u8]) -> Option<Sym>
        ensures { option_map (λ (s : Name). s.0) result ≡ symbol_named self.now bytes.now }
    {
        let count = self.symbols.len().min(u32::MAX as usize) as u32;
        for number in 0..count {
            if bytes == self.symbol_bytes(Sym(number)) {
                return Some(Sym(number));
            }
        }
        None
    }
}
