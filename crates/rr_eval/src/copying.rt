//! Frozen copies, as Ractor.make_shareable gives them.

ghost use Rattle.std.specs.Prelude.{◌≡◌, ◌≤◌, ℕ, List, length, Some, Contains, IfOk, IfErr};
ghost use Rattle.rr_space.specs.Graph.{Object};
ghost use Rattle.rr_space.specs.Moves.{IsPromoted};
ghost use Rattle.rr_space.specs.Parts.{value_of, IsWithin};
ghost use Rattle.rr_space.specs.Tables.{Below};
ghost use Rattle.rr_text.specs.Reads.{IsAmong, IsReadWith};
ghost use Rattle.rr_eval.specs.Alone.{IsCopied, IsCopyGiven, CopyExceeds};
ghost use Rattle.rr_eval.specs.Published.{published};
ghost use Rattle.rr_eval.specs.Publishing.{IsFrozenCopy, IsCopyRefusal, IsTooMany};
ghost use Rattle.rr_eval.specs.Serves.{IsLeft, IsRefusedBy};
ghost use Rattle.rr_eval.specs.Within.{reach, IsReached};

use crate::problem::{Problem, Response};
use crate::publishing::publish_shareable;
use rr_base::Fault;
use rr_builtin::Problem as BuiltInProblem;
use rr_copy::{open, pack_copy};
use rr_share::{deep_freeze, is_shareable};
use rr_space::{Ref, Space};
use rr_store::StoreState;
use std::alloc::Global;

/// A copy of what a value leads to, frozen throughout. What is shareable of it is published already, and is not copied.
///
/// A refusal may leave a copy that is not frozen, to which nothing leads.
pub fn copy_frozen(alloc: Global, space: &mut Space, value: Ref) -> Result<Ref, Fault>
    requires promoted { IsPromoted space.old (value_of value) }
    requires within { IsWithin (length space.old.slots) value }
    ensures copied { IfOk result (λ copy. IsFrozenCopy (value_of value) space.old (value_of copy) space.new) }
    ensures within { IfOk result (λ copy. IsWithin (length space.new.slots) copy) }
    ensures read { (below : Below) → IsReadWith space.old below → IsAmong below value → IsReadWith space.new below }
    ensures among { (below : Below) → IsReadWith space.old below → IsAmong below value → IfOk result (λ copy. IsAmong below copy) }
    ensures grows { length space.old.slots ≤ length space.new.slots }
    ensures limit { space.new.limit ≡ space.old.limit }
    ensures shell { IfErr result (λ fault. fault ≡ Fault.HoldsShell → space.new ≡ space.old) }
    ensures fault { IfErr result (λ fault. IsCopyRefusal fault space.old (value_of value)) }
{
    let message = pack_copy(alloc, space, value)?;
    match open(space, message) {
        // A copy leads to no shell, since what it was packed from leads to none: only memory can be wanting.
        Ok(copy) => match deep_freeze(alloc, space, copy) {
            Ok(()) => Ok(copy),
            Err(_) => Err(Fault::Memory),
        },
        Err((fault, _)) => Err(fault),
    }
}

/// A frozen copy of a value, all of which that is shareable is published already.
fn give_copy(
    alloc: Global,
    space: &mut Space,
    store: &StoreState,
    value: Ref,
) -> Result<Response, Fault>
    requires read { IsReadWith space.old (published store.now) }
    requires value { IsReached (reach (length space.old.slots) (Some (published store.now))) value }
    requires promoted { IsPromoted space.old (value_of value) }
    ensures gives { IfOk result (λ r. IsCopied (value_of value) space.old r space.new) }
    ensures left { IfOk result (λ r. IsLeft (published store.now) space.old r space.new) }
    ensures refused { IfErr result (IsRefusedBy (IsTooMany (value_of value) space.old)) }
{
    match copy_frozen(alloc, space, value) {
        Ok(copy) => Ok(Response::Gives(copy)),
        Err(Fault::HoldsShell) => Ok(Response::Fails(Problem::BuiltIn(BuiltInProblem::Moved))),
        Err(Fault::Limit(limit)) => Err(Fault::Limit(limit)),
        Err(_) => Err(Fault::Memory),
    }
}

/// Gives what `Ractor.make_shareable` gives with `copy: true`: a shareable value itself, and else a frozen copy, once all that is
/// shareable of it is published.
///
/// The faults are `Memory`, and `Limit(Slots)` where the space is full or the copy has too many objects.
pub fn shareable_copy(
    alloc: Global,
    space: &mut Space,
    store: &mut StoreState,
    value: Ref,
) -> Result<Response, Fault>
    requires read { IsReadWith space.old (published store.old) }
    requires value { IsReached (reach (length space.old.slots) (Some (published store.old))) value }
    ensures gives { IfOk result (λ r. IsCopyGiven store.old value space.old r space.new store.new) }
    ensures left { IfOk result (λ r. IsLeft (published store.new) space.old r space.new) }
    ensures more { (e : ℕ × List Object) → Contains (published store.old) e → Contains (published store.new) e }
    ensures refused { IfErr result (λ f. IsRefusedBy (CopyExceeds store.old space.old.limit value space.old) f) }
{
    if is_shareable(alloc, space, value)? {
        return Ok(Response::Gives(value));
    }
    match publish_shareable(alloc, space, store, value) {
        Ok(()) => give_copy(alloc, space, store, value),
        Err(Fault::HistoryFull) => Ok(Response::Fails(Problem::HistoryFull)),
        Err(Fault::HoldsShell) => Ok(Response::Fails(Problem::BuiltIn(BuiltInProblem::Moved))),
        Err(Fault::Limit(limit)) => Err(Fault::Limit(limit)),
        Err(_) => Err(Fault::Memory),
    }
}
