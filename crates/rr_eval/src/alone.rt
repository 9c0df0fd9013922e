//! The environment of a script that runs alone, with its store.

ghost use Rattle.std.specs.Prelude.{◌≡◌, ℕ, List, [], length, map, Some, Contains, IfOk, IfErr, IfSome};
ghost use Rattle.rr_space.specs.Graph.{Object};
ghost use Rattle.rr_text.specs.Reads.{IsReadWith};
ghost use Rattle.rr_builtin.specs.Methods.{method_named};
ghost use Rattle.rr_eval.specs.Alone.{AloneBy, SpecialExceeds, special_of};
ghost use Rattle.rr_eval.specs.Published.{published};
ghost use Rattle.rr_eval.specs.Context.{Context};
ghost use Rattle.rr_eval.specs.Requests.{asked_of};
ghost use Rattle.rr_eval.specs.RactorMethods.{ractor_method};
ghost use Rattle.rr_eval.specs.declared.call.Callee.{Callee as Called};
ghost use Rattle.rr_eval.specs.declared.call.Arguments.{Arguments as Lists};
ghost use Rattle.rr_eval.specs.declared.call.Task.{Task as Tasks};
ghost use Rattle.rr_eval.specs.declared.request.Request.{Request as Requests};
ghost use Rattle.rr_eval.specs.Runs.{piece_asked};
ghost use Rattle.rr_eval.specs.Serves.{IsLeft, IsRefusedBy};
ghost use Rattle.rr_eval.specs.Turns.{context_of};
ghost use Rattle.rr_eval.specs.Within.{reach, IsRequestReached};

use crate::call::{Arguments, Call, Task};
use crate::copying::shareable_copy;
use crate::fields::write_field;
use crate::print::Served;
use crate::problem::Response;
use crate::ractor_method::lacks_ractor_methods;
use crate::request::Request;
use crate::serve::{serve, serve_call};
use crate::setting::set_constant;
use crate::special::{Special, special_of};
use rr_base::{Fault, Sym};
use rr_builtin::Methods;
use rr_space::{Ref, Space};
use rr_store::StoreState;
use rr_tree::Program;
use std::alloc::Global;

/// Serves a request of a script that runs alone. A refused growth leaves the objects as they were, beside new ones to which nothing
/// leads.
#[cold]
#[inline(never)]
pub fn serve_alone(
    alloc: Global,
    space: &mut Space,
    store: &mut StoreState,
    program: &Program,
    methods: &Methods,
    request: Request,
) -> Result<Served, Fault>
    requires methods { methods.now ≡ map (λ s. method_named s.items) program.now.symbols.items }
    requires read { IsReadWith space.old (published store.old) }
    requires reached { IsRequestReached (reach (length space.old.slots) (Some (published store.old))) request }
    ensures piece { IfOk result (λ served. served.piece.items ≡ piece_asked (context_of program.now) (asked_of space.old request)) }
    ensures replied { IfOk result (λ served. AloneBy (special_of (context_of program.now) (asked_of space.old request) space.old) (context_of program.now) store.old (asked_of space.old request) space.old served.response space.new store.new) }
    ensures left { IfOk result (λ served. IsLeft (published store.new) space.old served.response space.new) }
    ensures more { (e : ℕ × List Object) → Contains (published store.old) e → Contains (published store.new) e }
    ensures refused { IfErr result (λ f. IsRefusedBy (SpecialExceeds (special_of (context_of program.now) (asked_of space.old request) space.old) (context_of program.now) store.old space.old.limit (asked_of space.old request) space.old) f) }
{
    match special_of(program, space, &request) {
        Special::Usual => serve(alloc, space, store, program, methods, request),
        Special::Constant(name, value) => {
            let response = set_constant(alloc, space, store, name, value)?;
            Ok(Served {
                piece: Vec::new(alloc),
                response,
            })
        }
        Special::Copy(value) => {
            let response = shareable_copy(alloc, space, store, value)?;
            Ok(Served {
                piece: Vec::new(alloc),
                response,
            })
        }
    }
}

/// The object, its instance variable and the value that a request assigns, where it assigns one.
#[inline(always)]
pub fn assigned_field(request: &Request) -> Option<(Ref, Sym, Ref)>
    ensures { IfSome result (λ x. request.now ≡ Requests.Do (Tasks.SetField x.1) (Lists.Two x.0 x.2)) }
{
    match request {
        &Request::Do(Task::SetField(name), Arguments::Two(object, value)) => {
            Some((object, name, value))
        }
        _ => None,
    }
}

/// Gives an instance variable of an object a value, as a script asks that runs alone: nothing is printed. A refused growth leaves the
/// objects as they were.
#[inline(always)]
pub fn set_alone(
    space: &mut Space,
    store: &StoreState,
    program: &Program,
    object: Ref,
    name: Sym,
    value: Ref,
) -> Result<Response, Fault>
    requires read { IsReadWith space.old (published store.now) }
    requires reached { IsRequestReached (reach (length space.old.slots) (Some (published store.now))) (Requests.Do (Tasks.SetField name) (Lists.Two object value)) }
    ensures piece { piece_asked (context_of program.now) (asked_of space.old (Requests.Do (Tasks.SetField name) (Lists.Two object value))) ≡ [] }
    ensures replied { IfOk result (λ r. AloneBy (special_of (context_of program.now) (asked_of space.old (Requests.Do (Tasks.SetField name) (Lists.Two object value))) space.old) (context_of program.now) store.now (asked_of space.old (Requests.Do (Tasks.SetField name) (Lists.Two object value))) space.old r space.new store.now) }
    ensures left { IfOk result (λ r. IsLeft (published store.now) space.old r space.new) }
    ensures refused { IfErr result (λ f. IsRefusedBy (SpecialExceeds (special_of (context_of program.now) (asked_of space.old (Requests.Do (Tasks.SetField name) (Lists.Two object value))) space.old) (context_of program.now) store.now space.old.limit (asked_of space.old (Requests.Do (Tasks.SetField name) (Lists.Two object value))) space.old) f) }
{
    write_field(space, store, object, name, value)
}

/// The call that a request is of, where its receiver has no method of Ractor.
#[inline(always)]
pub fn own_call(request: &Request) -> Option<&Call>
    ensures { IfSome result (λ call. (request.now ≡ Requests.Call call.now) × ((c : Context) (callee : Called) → ractor_method c call.now.receiver callee ≡ None)) }
{
    match request {
        Request::Call(call) => {
            if lacks_ractor_methods(call.receiver) {
                Some(call)
            } else {
                None
            }
        }
        _ => None,
    }
}

/// Calls a built-in method of a receiver that has no method of Ractor, as a script asks that runs alone: nothing is printed. A refused
/// growth leaves the objects as they were.
#[inline(always)]
pub fn call_alone(
    alloc: Global,
    space: &mut Space,
    store: &StoreState,
    program: &Program,
    methods: &Methods,
    call: &Call,
) -> Result<Response, Fault>
    requires own { (c : Context) (callee : Called) → ractor_method c call.now.receiver callee ≡ None }
    requires methods { methods.now ≡ map (λ s. method_named s.items) program.now.symbols.items }
    requires read { IsReadWith space.old (published store.now) }
    requires reached { IsRequestReached (reach (length space.old.slots) (Some (published store.now))) (Requests.Call call.now) }
    ensures piece { piece_asked (context_of program.now) (asked_of space.old (Requests.Call call.now)) ≡ [] }
    ensures replied { IfOk result (λ r. AloneBy (special_of (context_of program.now) (asked_of space.old (Requests.Call call.now)) space.old) (context_of program.now) store.now (asked_of space.old (Requests.Call call.now)) space.old r space.new store.now) }
    ensures left { IfOk result (λ r. IsLeft (published store.now) space.old r space.new) }
    ensures refused { IfErr result (λ f. IsRefusedBy (SpecialExceeds (special_of (context_of program.now) (asked_of space.old (Requests.Call call.now)) space.old) (context_of program.now) store.now space.old.limit (asked_of space.old (Requests.Call call.now)) space.old) f) }
{
    serve_call(alloc, space, store, program, methods, call)
}
