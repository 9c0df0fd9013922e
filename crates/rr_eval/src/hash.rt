//! New hashes, as an environment makes them.

ghost use Rattle.std.specs.Prelude.{[], ◌∷◌, length, Some, IfOk, IfErr};
ghost use Rattle.std.specs.List.{All};
ghost use Rattle.rr_text.specs.Reads.{IsReadWith};
ghost use Rattle.rr_eval.specs.declared.call.Callee.{Callee};
ghost use Rattle.rr_eval.specs.Calls.{call_reply};
ghost use Rattle.rr_eval.specs.Published.{published};
ghost use Rattle.rr_eval.specs.Serves.{IsFilled, IsFillingRefused, IsHashMade, IsHashRefused, IsLeft, IsReplied, IsRefused};
ghost use Rattle.rr_eval.specs.Tasks.{empty_reply};
ghost use Rattle.rr_eval.specs.Turns.{context_of};
ghost use Rattle.rr_eval.specs.Within.{reach, IsReached};

use crate::call::{Arguments, Call, Callee};
use crate::problem::{Problem, Response};
use crate::serve::{response_from, serve_method};
use rr_base::Fault;
use rr_builtin::{BuiltInMethod, ContentMethod, make_hash};
use rr_space::{Ref, Space};
use rr_store::StoreState;
use rr_tree::Program;
use std::alloc::Global;

/// A new hash without pairs. A refused growth leaves the objects as they were.
fn new_empty(alloc: Global, space: &mut Space, store: &StoreState) -> Result<Response, Fault>
    requires read { IsReadWith space.old (published store.now) }
    ensures replied { IfOk result (λ r. IsReplied (published store.now) (empty_reply space.old) space.old r space.new) }
    ensures refused { IfErr result (IsRefused (empty_reply space.old) space.old) }
{
    match make_hash(alloc, space) {
        Ok(built) => {
            let _after = space.len();
            Ok(response_from(Problem::NotHere, built))
        }
        Err(fault) => Err(fault),
    }
}

/// Puts a value under a key, as `hash[key] = value` does. A refused growth leaves the objects as they were.
fn put_pair(
    alloc: Global,
    space: &mut Space,
    store: &StoreState,
    program: &Program,
    hash: Ref,
    key: Ref,
    value: Ref,
) -> Result<Response, Fault>
    requires read { IsReadWith space.old (published store.now) }
    requires hash { IsReached (reach (length space.old.slots) (Some (published store.now))) hash }
    requires key { IsReached (reach (length space.old.slots) (Some (published store.now))) key }
    requires value { IsReached (reach (length space.old.slots) (Some (published store.now))) value }
    ensures replied { IfOk result (λ r. IsReplied (published store.now) (call_reply (context_of program.now) hash Callee.SetIndex (key ∷ value ∷ []) space.old) space.old r space.new) }
    ensures refused { IfErr result (IsRefused (call_reply (context_of program.now) hash Callee.SetIndex (key ∷ value ∷ []) space.old) space.old) }
{
    let call = Call {
        receiver: hash,
        callee: Callee::SetIndex,
        arguments: Arguments::Two(key, value),
    };
    let method = Some(BuiltInMethod::Content(ContentMethod::SetAt));
    serve_method(alloc, space, store, program, &call, method)
}

/// Puts pairs of keys and values, which stand by turns, up to one that raises. A refused growth leaves some of them there.
fn fill(
    alloc: Global,
    space: &mut Space,
    store: &StoreState,
    program: &Program,
    hash: Ref,
    values: &[Ref],
) -> Result<Response, Fault>
    requires read { IsReadWith space.old (published store.now) }
    requires hash { IsReached (reach (length space.old.slots) (Some (published store.now))) hash }
    requires reached { All (IsReached (reach (length space.old.slots) (Some (published store.now)))) values.now }
    ensures filled { IfOk result (λ r. IsFilled (context_of program.now) (published store.now) hash values.now space.old r space.new) }
    ensures left { IfOk result (λ r. IsLeft (published store.now) space.old r space.new) }
    ensures refused { IfErr result (IsFillingRefused (context_of program.now) (published store.now) hash values.now space.old) }
{
    let mut rest = values;
    while let [key, value, more @ ..] = rest {
        rest = more;
        match put_pair(alloc, space, store, program, hash, *key, *value) {
            Ok(Response::Gives(_)) => (),
            Ok(Response::Throws(exception)) => return Ok(Response::Throws(exception)),
            Ok(Response::Fails(problem)) => return Ok(Response::Fails(problem)),
            Err(fault) => return Err(fault),
        }
    }
    Ok(Response::Gives(hash))
}

/// A new hash of keys and values, which stand by turns. A refused growth may leave the hash with some of them, to which
/// nothing leads.
pub fn new_hash(
    alloc: Global,
    space: &mut Space,
    store: &StoreState,
    program: &Program,
    values: &[Ref],
) -> Result<Response, Fault>
    requires read { IsReadWith space.old (published store.now) }
    requires reached { All (IsReached (reach (length space.old.slots) (Some (published store.now)))) values.now }
    ensures made { IfOk result (λ r. IsHashMade (context_of program.now) (published store.now) values.now space.old r space.new) }
    ensures left { IfOk result (λ r. IsLeft (published store.now) space.old r space.new) }
    ensures refused { IfErr result (IsHashRefused (context_of program.now) (published store.now) values.now space.old) }
{
    match new_empty(alloc, space, store) {
        Ok(Response::Gives(hash)) => fill(alloc, space, store, program, hash, values),
        Ok(Response::Throws(exception)) => Ok(Response::Throws(exception)),
        Ok(Response::Fails(problem)) => Ok(Response::Fails(problem)),
        Err(fault) => Err(fault),
    }
}
