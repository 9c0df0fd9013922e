//! Whole values, each written behind the other.

ghost use Rattle.std.specs.Prelude.{◌≡◌, false, [], IfOk};
ghost use Rattle.rr_space.specs.Parts.{value_of};
ghost use Rattle.rr_space.specs.Tables.{Below, graph_of, resolve};
ghost use Rattle.rr_text.specs.Walk.{Wrote, followed};
ghost use Rattle.rr_text.specs.Forms.{pieced, spelled};
ghost use Rattle.rr_text.specs.Names.{names_of};
ghost use Rattle.rr_text.specs.Ways.{way_of};
ghost use Rattle.rr_text.specs.Frames.{come_to, IsEmptied};
ghost use Rattle.rr_text.specs.Reads.{IsAmong, IsReadWith};

use crate::form::Form;
use crate::walk::{Going, Walk};
use rr_space::{Ref, Space};
use rr_tree::Program;
use std::alloc::AllocError;

impl Walk {
    /// Writes a value behind what was written.
    pub(crate) fn write(
        &mut self,
        space: &Space,
        program: &Program,
        levels: usize,
        form: Form,
        value: Ref,
    ) -> Result<Going, AllocError>
        requires none { self.old.frames.items ≡ [] }
        ensures written { IfOk result (λ going. (below : Below) → IsReadWith space.now below → IsAmong below value
            → followed (Wrote (spelled self.old.out.items)) (pieced (names_of program.now) (graph_of space.now.slots below) (λ _. false) levels (way_of form) (resolve space.now.slots (value_of value)))
            ≡ come_to going (spelled self.new.out.items)) }
        ensures none { IfOk result (λ going. IsEmptied going self.new.frames.items) }
    {
        // No reference in the space leads nowhere, as the clause of the number of slots says.
        let _slots = space.len();
        match self.show(space, program, levels, form, value)? {
            Going::On => (),
            Going::Deep => return Ok(Going::Deep),
            Going::Shell => return Ok(Going::Shell),
        }
        while let Some(top) = self.frames.pop() {
            match self.step(space, program, levels, top)? {
                Going::On => (),
                Going::Deep => return Ok(Going::Deep),
                Going::Shell => return Ok(Going::Shell),
            }
        }
        Ok(Going::On)
    }
}
