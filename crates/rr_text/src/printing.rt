//! The printed text of a value.

ghost use Rattle.std.specs.Prelude.{◌≡◌, IfOk, IfErr};
ghost use Rattle.rr_space.specs.Parts.{value_of};
ghost use Rattle.rr_space.specs.Tables.{Below, graph_of, resolve};
ghost use Rattle.rr_text.specs.Forms.{printed};
ghost use Rattle.rr_text.specs.Names.{names_of};
ghost use Rattle.rr_text.specs.Ways.{way_of, text_of};
ghost use Rattle.rr_text.specs.Reads.{IsAmong, IsReadWith};

use crate::form::{Form, Text};
use crate::walk::{Going, Walk};
use rr_base::{Fault, Limits};
use rr_space::{Ref, Space};
use rr_tree::Program;
use std::alloc::Global;

/// The text of a value: its bytes; `Deep`, where more than 10,000 containers would be begun inside one another; or `Shell`,
/// where it comes to an object that was moved away. What comes first counts. `Memory` is the only fault.
///
/// A container inside itself is written `[...]` or `{...}`. No method of the program is called: a plain object is `#<Foo>`.
/// The text is exact in the graph of the space with any clusters among which are all that the space and the value lead to,
/// and of which no two have one number.
pub fn text(
    alloc: Global,
    space: &Space,
    program: &Program,
    value: Ref,
    form: Form,
) -> Result<Text, Fault>
    ensures text { IfOk result (λ text. (below : Below) → IsReadWith space.now below → IsAmong below value
        → text_of text ≡ printed (names_of program.now) (graph_of space.now.slots below) Limits.DEFAULT.levels (way_of form) (resolve space.now.slots (value_of value))) }
    ensures fault { IfErr result (λ e. e ≡ Fault.Memory) }
{
    let levels = Limits::DEFAULT.levels as usize;
    text_within(alloc, space, program, levels, value, form)
}

/// The text of a value, as `text` gives it, where at most `levels` containers may be begun inside one another.
pub fn text_within(
    alloc: Global,
    space: &Space,
    program: &Program,
    levels: usize,
    value: Ref,
    form: Form,
) -> Result<Text, Fault>
    ensures text { IfOk result (λ text. (below : Below) → IsReadWith space.now below → IsAmong below value
        → text_of text ≡ printed (names_of program.now) (graph_of space.now.slots below) levels (way_of form) (resolve space.now.slots (value_of value))) }
    ensures fault { IfErr result (λ e. e ≡ Fault.Memory) }
{
    let mut walk = Walk::new(alloc);
    match walk.write(space, program, levels, form, value)? {
        Going::On => Ok(Text::Bytes(walk.out)),
        Going::Deep => Ok(Text::Deep),
        Going::Shell => Ok(Text::Shell),
    }
}
