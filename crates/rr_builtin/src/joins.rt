//! `join` of arrays.

ghost use Rattle.std.specs.Prelude.{◌≡◌, IfOk, IfErr};
ghost use Rattle.rr_space.specs.Tables.{Below};
ghost use Rattle.rr_text.specs.Names.{names_of};
ghost use Rattle.rr_text.specs.Reads.{IsAmong, IsReadWith};
ghost use Rattle.rr_builtin.specs.Deeds.{act_of, IsFit, IsDeedAmong};
ghost use Rattle.rr_builtin.specs.Objects.{told};
ghost use Rattle.rr_builtin.specs.Joins.{joined_at, join_by, join_act};

use crate::deed::Deed;
use crate::kinds::is_text_kind;
use crate::objects::raise;
use crate::problem::Problem;
use rr_base::Fault;
use rr_space::{Ref, Space};
use rr_text::{Joined, join};
use rr_tree::Program;
use std::alloc::Global;

/// The text of an array with a separator, as a new object.
fn joined(
    alloc: Global,
    space: &Space,
    program: &Program,
    array: Ref,
    separator: &[u8],
) -> Result<Deed, Fault>
    ensures act { IfOk result (λ deed. (below : Below) → IsReadWith space.now below → IsAmong below array
        → act_of deed ≡ told (joined_at (names_of program.now) below space.now array separator.now)) }
    ensures fit { IfOk result (λ deed. IsFit space.now array deed) }
    ensures among { IfOk result (λ deed. (below : Below) → IsDeedAmong below deed) }
    ensures fault { IfErr result (λ f. f ≡ Fault.Memory) }
{
    match join(alloc, space, program, array, separator)? {
        Joined::Bytes(bytes) => Ok(Deed::Make(bytes)),
        Joined::Deep => Ok(raise(Problem::TooDeep)),
        Joined::Circular => Ok(raise(Problem::Circular)),
        Joined::Shell => Ok(raise(Problem::Moved)),
    }
}

/// The text of an array with what the argument is as the separator.
fn joined_by(
    alloc: Global,
    space: &Space,
    program: &Program,
    array: Ref,
    argument: Ref,
) -> Result<Deed, Fault>
    ensures act { IfOk result (λ deed. (below : Below) → IsReadWith space.now below → IsAmong below array
        → act_of deed ≡ join_by (names_of program.now) below array argument space.now) }
    ensures fit { IfOk result (λ deed. IsFit space.now array deed) }
    ensures among { IfOk result (λ deed. (below : Below) → IsDeedAmong below deed) }
    ensures fault { IfErr result (λ f. f ≡ Fault.Memory) }
{
    if let Ref::Nil = argument {
        return joined(alloc, space, program, array, &[]);
    }
    if is_text_kind(space.kind_of(argument)) {
        joined(alloc, space, program, array, space.text_bytes(argument))
    } else {
        Ok(raise(Problem::WrongType(space.class_of(argument))))
    }
}

/// `join`.
pub(crate) fn join_deed(
    alloc: Global,
    space: &Space,
    program: &Program,
    array: Ref,
    argument: Ref,
) -> Result<Deed, Fault>
    ensures act { IfOk result (λ deed. (below : Below) → IsReadWith space.now below → IsAmong below array
        → act_of deed ≡ join_act (names_of program.now) below array argument space.now) }
    ensures fit { IfOk result (λ deed. IsFit space.now array deed) }
    ensures among { IfOk result (λ deed. (below : Below) → IsDeedAmong below deed) }
    ensures fault { IfErr result (λ f. f ≡ Fault.Memory) }
{
    if space.arity(array) == 0 {
        return Ok(Deed::Make(Vec::new(alloc)));
    }
    joined_by(alloc, space, program, array, argument)
}
