//! Calls of methods, as an environment serves them. The store is given for its clusters, among which are all that the space leads to.

ghost use Rattle.std.specs.Prelude.{◌≡◌, [], length, map, Some, Ok, Err, Result, if◌then◌else◌, IfOk, IfErr};
ghost use Rattle.std.specs.List.{All};
ghost use Rattle.rr_space.specs.Parts.{IsWithin};
ghost use Rattle.rr_space.specs.Tables.{Below};
ghost use Rattle.rr_text.specs.Reads.{IsAmong, IsReadWith};
ghost use Rattle.rr_space.specs.Kinds.{kind_at};
ghost use Rattle.rr_builtin.specs.Acts.{Acts, IsRefAmong, Raises, Lacks};
ghost use Rattle.rr_builtin.specs.Kinds.{is_shell_kind};
ghost use Rattle.rr_builtin.specs.Methods.{method_named};
ghost use Rattle.rr_eval.specs.Callees.{method_of};
ghost use Rattle.rr_eval.specs.Context.{Context};
ghost use Rattle.rr_eval.specs.Calls.{sent, call_reply};
ghost use Rattle.rr_eval.specs.declared.call.Task.{Task as Tasks};
ghost use Rattle.rr_eval.specs.Requests.{arguments_of, asked_of};
ghost use Rattle.rr_eval.specs.Published.{published};
ghost use Rattle.rr_eval.specs.Runs.{piece_asked};
ghost use Rattle.rr_eval.specs.Script.{Calls};
ghost use Rattle.rr_eval.specs.Serves.{IsLeft, IsReplied, IsRefused, IsTaskReplied, IsTaskRefused, IsRequestReplied, IsRequestRefused};
ghost use Rattle.rr_eval.specs.Sharing.{called_reply, ractor_method};
ghost use Rattle.rr_eval.specs.Tasks.{piece_of};
ghost use Rattle.rr_text.specs.Forms.{Names};
ghost use Rattle.rr_text.specs.Names.{names_of};
ghost use Rattle.rr_eval.specs.Responses.{receiver_of, response_from};
ghost use Rattle.rr_eval.specs.Turns.{context_of};
ghost use Rattle.rr_eval.specs.Within.{reach, IsReached, IsCallReached, IsRequestReached};

use crate::call::{Arguments, Call, Callee, Task};
use crate::fields::write_field;
use crate::print::{Served, new_array_of, serve_task};
use crate::problem::{Problem, Response};
use crate::ractor_method::ractor_method;
use crate::request::Request;
use crate::sharing::serve_ractor;
use rr_base::{Fault, Sym};
use rr_builtin::{
    Built, BuiltInMethod, ContentMethod, Methods, NumberMethod, Problem as BuiltInProblem,
    Receiver, call, methods_have_names,
};
use rr_space::{Kind, Ref, Space};
use rr_store::StoreState;
use rr_tree::Program;
use std::alloc::Global;

/// The built-in method that is called; none where no method has the name.
#[inline(always)]
pub fn method_of(program: &Program, methods: &Methods, callee: Callee) -> Option<BuiltInMethod>
    requires { methods.now ≡ map (λ s. method_named s.items) program.now.symbols.items }
    ensures { result ≡ method_of (context_of program.now) callee }
{
    methods_have_names();
    match callee {
        Callee::Operator(op) => Some(BuiltInMethod::Operator(op)),
        Callee::Opposite => Some(BuiltInMethod::Number(NumberMethod::Opposite)),
        Callee::Index => Some(BuiltInMethod::Content(ContentMethod::At)),
        Callee::Append => Some(BuiltInMethod::Content(ContentMethod::Append)),
        Callee::SetIndex => Some(BuiltInMethod::Content(ContentMethod::SetAt)),
        Callee::Initialize => None,
        Callee::Setter(_) => None,
        Callee::Name(name) => methods.find(name),
    }
}

/// What a message calls a receiver that has no such method.
#[inline(always)]
pub fn receiver_of(space: &Space, receiver: Ref) -> Receiver
    ensures { result ≡ receiver_of space.now receiver }
{
    match receiver {
        Ref::Nil => Receiver::Nil,
        Ref::False => Receiver::Truth(false),
        Ref::True => Receiver::Truth(true),
        Ref::Class(class) => Receiver::Class(class),
        _ => Receiver::Instance(space.class_of(receiver)),
    }
}

/// What a call that no built-in method answers comes to.
fn unknown(space: &Space, receiver: Ref) -> Built
    ensures { (below : Below) → IsReadWith space.now below → Acts below (λ t. (if is_shell_kind (kind_at t receiver) then Raises BuiltInProblem.Moved else Lacks, t)) space.now space.now (Ok result) }
{
    match space.kind_of(receiver) {
        Kind::Shell => Built::Raised(BuiltInProblem::Moved),
        _ => Built::Missing,
    }
}

/// Calls a method, where there is one. A refused growth leaves the objects as they were.
fn send(
    alloc: Global,
    space: &mut Space,
    program: &Program,
    receiver: Ref,
    method: Option<BuiltInMethod>,
    arguments: &[Ref],
) -> Result<Built, Fault>
    requires receiver { IsWithin (length space.old.slots) receiver }
    requires arguments { All (IsWithin (length space.old.slots)) arguments.now }
    ensures { (below : Below) → IsReadWith space.old below → IsAmong below receiver → All (IsRefAmong below) arguments.now
        → Acts below (sent (context_of program.now) below receiver method arguments.now) space.old space.new result }
{
    match method {
        Some(method) => call(alloc, space, program, receiver, method, arguments),
        None => Ok(unknown(space, receiver)),
    }
}

/// Calls a method with these arguments.
fn send_with(
    alloc: Global,
    space: &mut Space,
    program: &Program,
    receiver: Ref,
    method: Option<BuiltInMethod>,
    arguments: &Arguments,
) -> Result<Built, Fault>
    requires receiver { IsWithin (length space.old.slots) receiver }
    requires arguments { All (IsWithin (length space.old.slots)) (arguments_of arguments.now) }
    ensures { (below : Below) → IsReadWith space.old below → IsAmong below receiver → All (IsRefAmong below) (arguments_of arguments.now)
        → Acts below (sent (context_of program.now) below receiver method (arguments_of arguments.now)) space.old space.new result }
{
    match arguments {
        Arguments::Without => send(alloc, space, program, receiver, method, &[]),
        Arguments::One(first) => send(alloc, space, program, receiver, method, &[*first]),
        Arguments::Two(first, second) => {
            send(alloc, space, program, receiver, method, &[*first, *second])
        }
        Arguments::Many(values) => {
            send(alloc, space, program, receiver, method, values.as_slice())
        }
    }
}

/// What is responded to a call.
#[inline(always)]
pub fn response_from(missing: Problem, built: Built) -> Response
    ensures is { result ≡ response_from missing built }
{
    match built {
        Built::Value(value) => Response::Gives(value),
        Built::Raised(problem) => Response::Fails(Problem::BuiltIn(problem)),
        Built::Missing => Response::Fails(missing),
    }
}

/// Serves a call of a built-in method, where there is one. A refused growth leaves the objects as
/// they were.
pub fn serve_method(
    alloc: Global,
    space: &mut Space,
    store: &StoreState,
    program: &Program,
    call: &Call,
    method: Option<BuiltInMethod>,
) -> Result<Response, Fault>
    requires method { method ≡ method_of (context_of program.now) call.now.callee }
    requires read { IsReadWith space.old (published store.now) }
    requires reached { IsCallReached (reach (length space.old.slots) (Some (published store.now))) call.now }
    ensures replied { IfOk result (λ r. IsReplied (published store.now) (call_reply (context_of program.now) call.now.receiver call.now.callee (arguments_of call.now.arguments) space.old) space.old r space.new) }
    ensures refused { IfErr result (IsRefused (call_reply (context_of program.now) call.now.receiver call.now.callee (arguments_of call.now.arguments) space.old) space.old) }
{
    let receiver = receiver_of(space, call.receiver);
    match send_with(
        alloc,
        space,
        program,
        call.receiver,
        method,
        &call.arguments,
    ) {
        Ok(built) => {
            let _after = space.len();
            let missing = Problem::MissingMethod(call.callee, receiver);
            Ok(response_from(missing, built))
        }
        Err(fault) => Err(fault),
    }
}

/// Serves a call. A refused growth leaves the objects as they were.
#[inline(always)]
pub fn serve_call(
    alloc: Global,
    space: &mut Space,
    store: &StoreState,
    program: &Program,
    methods: &Methods,
    call: &Call,
) -> Result<Response, Fault>
    requires methods { methods.now ≡ map (λ s. method_named s.items) program.now.symbols.items }
    requires read { IsReadWith space.old (published store.now) }
    requires reached { IsCallReached (reach (length space.old.slots) (Some (published store.now))) call.now }
    ensures replied { IfOk result (λ r. IsReplied (published store.now) (call_reply (context_of program.now) call.now.receiver call.now.callee (arguments_of call.now.arguments) space.old) space.old r space.new) }
    ensures refused { IfErr result (IsRefused (call_reply (context_of program.now) call.now.receiver call.now.callee (arguments_of call.now.arguments) space.old) space.old) }
{
    let method = method_of(program, methods, call.callee);
    serve_method(alloc, space, store, program, call, method)
}

/// Serves a call, of a method of Ractor too. A refused growth leaves the objects as they were.
fn serve_called(
    alloc: Global,
    space: &mut Space,
    store: &StoreState,
    program: &Program,
    methods: &Methods,
    call: &Call,
) -> Result<Response, Fault>
    requires methods { methods.now ≡ map (λ s. method_named s.items) program.now.symbols.items }
    requires read { IsReadWith space.old (published store.now) }
    requires reached { IsCallReached (reach (length space.old.slots) (Some (published store.now))) call.now }
    ensures replied { IfOk result (λ r. IsReplied (published store.now) (called_reply (context_of program.now) (ractor_method (context_of program.now) call.now.receiver call.now.callee) call.now.receiver call.now.callee (arguments_of call.now.arguments) space.old) space.old r space.new) }
    ensures refused { IfErr result (IsRefused (called_reply (context_of program.now) (ractor_method (context_of program.now) call.now.receiver call.now.callee) call.now.receiver call.now.callee (arguments_of call.now.arguments) space.old) space.old) }
{
    match ractor_method(program, call.receiver, call.callee) {
        Some(method) => serve_ractor(alloc, space, store, program, method, &call.arguments),
        None => serve_call(alloc, space, store, program, methods, call),
    }
}

/// Makes an array of many values, which are moved into it.
fn serve_array(
    alloc: Global,
    space: &mut Space,
    store: &StoreState,
    items: Vec<Ref>,
) -> Result<Served, Fault>
    requires read { IsReadWith space.old (published store.now) }
    requires reached { All (IsReached (reach (length space.old.slots) (Some (published store.now)))) items.items }
    ensures piece { (names : Names) → IfOk result (λ served. served.piece.items ≡ piece_of Tasks.MakeArray names space.old items.items) }
    ensures replied { (c : Context) → IfOk result (λ served. IsTaskReplied c (published store.now) Tasks.MakeArray items.items space.old served.response space.new) }
    ensures left { IfOk result (λ served. IsLeft (published store.now) space.old served.response space.new) }
    ensures refused { (c : Context) → IfErr result (IsTaskRefused c (published store.now) Tasks.MakeArray items.items space.old) }
{
    let response = new_array_of(space, store, items)?;
    Ok(Served {
        piece: Vec::new(alloc),
        response,
    })
}

/// Does a task with these values.
fn serve_values(
    alloc: Global,
    space: &mut Space,
    store: &StoreState,
    program: &Program,
    task: Task,
    values: Arguments,
) -> Result<Served, Fault>
    requires read { IsReadWith space.old (published store.now) }
    requires reached { All (IsReached (reach (length space.old.slots) (Some (published store.now)))) (arguments_of values) }
    ensures piece { IfOk result (λ served. served.piece.items ≡ piece_of task (names_of program.now) space.old (arguments_of values)) }
    ensures replied { IfOk result (λ served. IsTaskReplied (context_of program.now) (published store.now) task (arguments_of values) space.old served.response space.new) }
    ensures left { IfOk result (λ served. IsLeft (published store.now) space.old served.response space.new) }
    ensures refused { IfErr result (IsTaskRefused (context_of program.now) (published store.now) task (arguments_of values) space.old) }
{
    match values {
        Arguments::Without => serve_task(alloc, space, store, program, task, &[]),
        Arguments::One(first) => serve_task(alloc, space, store, program, task, &[first]),
        Arguments::Two(first, second) => {
            serve_task(alloc, space, store, program, task, &[first, second])
        }
        Arguments::Many(values) => match task {
            Task::MakeArray => serve_array(alloc, space, store, values),
            _ => serve_task(alloc, space, store, program, task, values.as_slice()),
        },
    }
}

/// Serves a request, with the clusters of a store. A refused growth leaves the objects as they were, beside a new hash and some
/// of its keys, to which nothing leads.
pub fn serve(
    alloc: Global,
    space: &mut Space,
    store: &StoreState,
    program: &Program,
    methods: &Methods,
    request: Request,
) -> Result<Served, Fault>
    requires methods { methods.now ≡ map (λ s. method_named s.items) program.now.symbols.items }
    requires read { IsReadWith space.old (published store.now) }
    requires reached { IsRequestReached (reach (length space.old.slots) (Some (published store.now))) request }
    ensures piece { IfOk result (λ served. served.piece.items ≡ piece_asked (context_of program.now) (asked_of space.old request)) }
    ensures replied { IfOk result (λ served. IsRequestReplied (context_of program.now) (published store.now) (asked_of space.old request) space.old served.response space.new) }
    ensures left { IfOk result (λ served. IsLeft (published store.now) space.old served.response space.new) }
    ensures refused { IfErr result (IsRequestRefused (context_of program.now) (published store.now) (asked_of space.old request) space.old) }
{
    match request {
        Request::Do(task, values) => serve_values(alloc, space, store, program, task, values),
        Request::Call(call) => {
            let response = serve_called(alloc, space, store, program, methods, &call)?;
            Ok(Served {
                piece: Vec::new(alloc),
                response,
            })
        }
    }
}
