//! Constants, as ractors set them in the store.

ghost use Rattle.std.specs.Prelude.{◌≡◌, ◌≤◌, false, ℕ, List, length, Some, Contains, IfOk, IfErr};
ghost use Rattle.rr_space.specs.Graph.{Object, At, Own, IsShareable};
ghost use Rattle.rr_space.specs.Parts.{value_of, IsWithin};
ghost use Rattle.rr_space.specs.Tables.{resolve, space_graph};
ghost use Rattle.rr_store.specs.Answers.{MaySet};
ghost use Rattle.rr_store.specs.Stores.{IsPublic};
ghost use Rattle.rr_text.specs.Reads.{IsReadWith};
ghost use Rattle.rr_eval.specs.Alone.{IsConstantSet, IsFinished, set_reply};
ghost use Rattle.rr_eval.specs.Owners.{owner_of, is_main};
ghost use Rattle.rr_eval.specs.Published.{published};
ghost use Rattle.rr_eval.specs.Serves.{IsLeft, IsReplied, IsRefusedBy};
ghost use Rattle.rr_eval.specs.Within.{reach, IsReached};

use crate::globals::write_global;
use crate::owners::is_main;
use crate::problem::{Problem, Response};
use crate::publishing::publish_shareable;
use rr_base::{Fault, Sym};
use rr_share::is_shareable;
use rr_space::{Ref, Space};
use rr_store::{ConstValue, StoreState};
use std::alloc::Global;

/// The value itself, or the published object that it leads to.
fn public_value(space: &Space, value: Ref) -> Ref
    requires public { (n : ℕ) → resolve space.now.slots (value_of value) ≡ At (Own n) → ⊥ }
    requires within { IsWithin (length space.now.slots) value }
    ensures named { value_of result ≡ resolve space.now.slots (value_of value) }
    ensures public { IsWithin 0 result }
{
    space.resolve(value)
}

/// Keeps the value of a constant that was set in the store, which the main ractor does itself, and gives it. A refused growth leaves the
/// objects as they were.
fn keep_value(
    space: &mut Space,
    store: &StoreState,
    name: Sym,
    value: Ref,
) -> Result<Response, Fault>
    requires read { IsReadWith space.old (published store.now) }
    requires value { IsReached (reach (length space.old.slots) (Some (published store.now))) value }
    ensures kept { IfOk result (λ r. IsReplied (published store.now) (set_reply name value space.old) space.old r space.new) }
    ensures fault { IfErr result (λ f. f ≡ Fault.Memory) }
{
    if !is_main(space) {
        return Ok(Response::Gives(value));
    }
    // With the number of slots comes that an assignment to a variable makes no more of them.
    let _slots = space.len();
    match write_global(space, store, name, value) {
        Ok(response) => Ok(response),
        Err(_) => Err(Fault::Memory),
    }
}

/// Says in the store what a constant has, and gives it its value. A refused growth leaves the objects as they were; the event may
/// stand then.
fn finish_set(
    space: &mut Space,
    store: &mut StoreState,
    name: Sym,
    mark: ConstValue,
    value: Ref,
) -> Result<Response, Fault>
    requires read { IsReadWith space.old (published store.old) }
    requires value { IsReached (reach (length space.old.slots) (Some (published store.old))) value }
    requires public { IsPublic mark }
    requires may { MaySet (owner_of space.old) mark }
    ensures set { IfOk result (λ r. IsFinished store.old name mark value space.old r space.new store.new) }
    ensures left { IfOk result (λ r. IsLeft (published store.new) space.old r space.new) }
    ensures clusters { published store.new ≡ published store.old }
    ensures fault { IfErr result (λ f. f ≡ Fault.Memory) }
{
    match store.set_const(space.owner(), name, mark) {
        Ok(()) => keep_value(space, store, name, value),
        Err(Fault::HistoryFull) => Ok(Response::Fails(Problem::HistoryFull)),
        Err(_) => Err(Fault::Memory),
    }
}

/// Sets a constant to a shareable value: what is the script's own of it is published first.
///
/// The faults are `Memory`, and `Limit(Slots)` where the space is full.
fn set_shared(
    alloc: Global,
    space: &mut Space,
    store: &mut StoreState,
    name: Sym,
    value: Ref,
) -> Result<Response, Fault>
    requires read { IsReadWith space.old (published store.old) }
    requires value { IsReached (reach (length space.old.slots) (Some (published store.old))) value }
    requires shareable { IsShareable (space_graph space.old) (resolve space.old.slots (value_of value)) }
    ensures set { IfOk result (λ r. IsConstantSet store.old name value space.old r space.new store.new) }
    ensures left { IfOk result (λ r. IsLeft (published store.new) space.old r space.new) }
    ensures more { (e : ℕ × List Object) → Contains (published store.old) e → Contains (published store.new) e }
    ensures refused { IfErr result (λ f. IsRefusedBy (space.old.limit ≤ length space.old.slots) f) }
{
    match publish_shareable(alloc, space, store, value) {
        Ok(()) => {
            let public = public_value(space, value);
            match finish_set(space, store, name, ConstValue::Shareable(public), value) {
                Ok(response) => Ok(response),
                Err(_) => Err(Fault::Memory),
            }
        }
        Err(Fault::HistoryFull) => Ok(Response::Fails(Problem::HistoryFull)),
        Err(Fault::Limit(limit)) => Err(Fault::Limit(limit)),
        Err(_) => Err(Fault::Memory),
    }
}

/// Refuses to set a constant to a value that another ractor than the main one would keep itself.
fn refuse_own(
    space: &Space,
    store: &mut StoreState,
    name: Sym,
    value: Ref,
) -> Result<Response, Fault>
    requires other { is_main space.now ≡ false }
    requires unshareable { IsShareable (space_graph space.now) (resolve space.now.slots (value_of value)) → ⊥ }
    ensures set { IfOk result (λ r. IsConstantSet store.old name value space.now r space.now store.new) }
    ensures says { IfOk result (λ r. (x : Ref) → r ≡ Response.Gives x → ⊥) }
    ensures clusters { published store.new ≡ published store.old }
    ensures fault { IfErr result (λ f. f ≡ Fault.Memory) }
{
    match store.set_const(space.owner(), name, ConstValue::Own) {
        Ok(()) => unreachable!(),
        Err(Fault::HistoryFull) => Ok(Response::Fails(Problem::HistoryFull)),
        Err(Fault::NotShareable) => Ok(Response::Fails(Problem::IsolatedConstant(name))),
        Err(_) => Err(Fault::Memory),
    }
}

/// Sets a constant to a value that is not shareable, which only the main ractor does.
fn set_own(
    space: &mut Space,
    store: &mut StoreState,
    name: Sym,
    value: Ref,
) -> Result<Response, Fault>
    requires read { IsReadWith space.old (published store.old) }
    requires value { IsReached (reach (length space.old.slots) (Some (published store.old))) value }
    requires unshareable { IsShareable (space_graph space.old) (resolve space.old.slots (value_of value)) → ⊥ }
    ensures set { IfOk result (λ r. IsConstantSet store.old name value space.old r space.new store.new) }
    ensures left { IfOk result (λ r. IsLeft (published store.new) space.old r space.new) }
    ensures clusters { published store.new ≡ published store.old }
    ensures fault { IfErr result (λ f. f ≡ Fault.Memory) }
{
    if is_main(space) {
        finish_set(space, store, name, ConstValue::Own, value)
    } else {
        refuse_own(space, store, name, value)
    }
}

/// Sets a constant for the ractor whose space it is: to a value that all may have where it is shareable. Any other value is the main
/// ractor's own, and another one that sets a constant to it is refused.
///
/// The faults are `Memory`, and `Limit(Slots)` where the space is full.
pub fn set_constant(
    alloc: Global,
    space: &mut Space,
    store: &mut StoreState,
    name: Sym,
    value: Ref,
) -> Result<Response, Fault>
    requires read { IsReadWith space.old (published store.old) }
    requires value { IsReached (reach (length space.old.slots) (Some (published store.old))) value }
    ensures set { IfOk result (λ r. IsConstantSet store.old name value space.old r space.new store.new) }
    ensures left { IfOk result (λ r. IsLeft (published store.new) space.old r space.new) }
    ensures more { (e : ℕ × List Object) → Contains (published store.old) e → Contains (published store.new) e }
    ensures refused { IfErr result (λ f. IsRefusedBy (space.old.limit ≤ length space.old.slots) f) }
{
    if is_shareable(alloc, space, value)? {
        set_shared(alloc, space, store, name, value)
    } else {
        match set_own(space, store, name, value) {
            Ok(response) => Ok(response),
            Err(_) => Err(Fault::Memory),
        }
    }
}
