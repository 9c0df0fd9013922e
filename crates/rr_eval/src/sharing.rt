//! What ractors may share, as a script asks Ractor for it.

ghost use Rattle.std.specs.Prelude.{◌≡◌, ◌↔◌, ◌&&◌, ℕ, [], length, nat_eq, Option, Some, slice_get, IsTrue, IfOk, IfErr};
ghost use Rattle.std.specs.List.{All};
ghost use Rattle.std.specs.Option.{option_map};
ghost use Rattle.rr_base.specs.declared.fault.Fault.{Fault};
ghost use Rattle.rr_space.specs.Graph.{Own, Reaches, IsShareable};
ghost use Rattle.rr_space.specs.Labels.{labelled_value, triples_at};
ghost use Rattle.rr_space.specs.Moves.{IsDeepFrozen};
ghost use Rattle.rr_space.specs.Parts.{value_of, truth_ref};
ghost use Rattle.rr_space.specs.Sound.{IsTableSound};
ghost use Rattle.rr_space.specs.Tables.{Table, resolve, space_graph};
ghost use Rattle.rr_space.specs.declared.refer.Ref.{Ref};
ghost use Rattle.rr_text.specs.Reads.{IsReadWith};
ghost use Rattle.rr_builtin.specs.declared.problem.Problem.{Problem as BuiltInProblem};
ghost use Rattle.rr_eval.specs.declared.problem.Problem.{Problem};
ghost use Rattle.rr_eval.specs.declared.problem.Response.{Response};
ghost use Rattle.rr_eval.specs.Effects.{SaysFailed, said};
ghost use Rattle.rr_eval.specs.Published.{published};
ghost use Rattle.rr_eval.specs.Requests.{arguments_of};
ghost use Rattle.rr_eval.specs.Serves.{IsReplied, IsRefused};
ghost use Rattle.rr_eval.specs.Sharing.{leads, is_shareable, deep_frozen, given_alone, names_copy, is_copy, asks_copy, keyword_reply, frozen_reply, shareable_reply, make_shareable_reply, name_reply, ractor_reply};
ghost use Rattle.rr_eval.specs.Turns.{context_of};
ghost use Rattle.rr_eval.specs.Within.{Reach, reach, IsReached, IsResponseReached};

use crate::call::Arguments;
use crate::owners::{MAIN, is_main};
use crate::problem::{Problem, Response};
use crate::ractor_method::RactorMethod;
use rr_base::Fault;
use rr_builtin::Problem as BuiltInProblem;
use rr_share::{deep_freeze, is_shareable};
use rr_space::{Kind, Label, Ref, Space};
use rr_store::StoreState;
use rr_tree::Program;
use std::alloc::Global;

/// Whether a key is `:copy`.
fn names_copy(program: &Program, key: Ref) -> bool
    ensures { result ≡ names_copy (context_of program.now) (value_of key) }
{
    match key {
        Ref::Symbol(name) => program.symbol_bytes(name) == b"copy".as_slice(),
        Ref::Nil => false,
        Ref::False => false,
        Ref::True => false,
        Ref::Int(_) => false,
        Ref::Class(_) => false,
        Ref::Ractor(_) => false,
        Ref::Local(_) => false,
        Ref::Shared(_, _) => false,
    }
}

/// Whether a key of a hash is `:copy`, where there is one.
fn is_copy(program: &Program, key: Option<(Label, Ref)>) -> bool
    ensures { result ≡ is_copy (context_of program.now) (option_map labelled_value key) }
{
    match key {
        Some((_, key)) => names_copy(program, key),
        None => false,
    }
}

/// Whether a hash has the key `:copy` alone.
pub fn asks_copy(program: &Program, space: &Space, hash: Ref) -> bool
    ensures { result ≡ asks_copy (context_of program.now) space.now hash }
{
    let key = space.part(hash, 0);
    space.arity(hash) == 2 && is_copy(program, key)
}

/// The problem of so many arguments where one is wanted.
fn one_wanted(given: usize) -> Problem
    ensures { result ≡ Problem.BuiltIn (BuiltInProblem.Count given 1 1) }
{
    Problem::BuiltIn(BuiltInProblem::Count {
        given,
        least: 1,
        most: 1,
    })
}

/// Whether ractors may share a value.
fn tell_shareable(alloc: Global, space: &Space, value: Ref) -> Result<Response, Fault>
    ensures is { IfOk result (λ r. r ≡ Response.Gives (truth_ref (is_shareable space.now value))) }
    ensures fault { IfErr result (λ f. f ≡ Fault.Memory) }
{
    let _slots = space.len();
    let yes = is_shareable(alloc, space, value)?;
    Ok(Response::Gives(Ref::truth(yes)))
}

/// Freezes all that a value leads to, and gives the value. A refused growth leaves the objects as they were.
fn make_shareable(
    alloc: Global,
    space: &mut Space,
    store: &StoreState,
    value: Ref,
) -> Result<Response, Fault>
    requires read { IsReadWith space.old (published store.now) }
    requires value { IsReached (reach (length space.old.slots) (Some (published store.now))) value }
    ensures replied { IfOk result (λ r. IsReplied (published store.now) (frozen_reply value space.old) space.old r space.new) }
    ensures fault { IfErr result (λ f. f ≡ Fault.Memory) }
{
    let _before = space.len();
    match deep_freeze(alloc, space, value) {
        Ok(()) => Ok(Response::Gives(value)),
        Err(Fault::HoldsShell) => Ok(Response::Fails(Problem::BuiltIn(BuiltInProblem::Moved))),
        Err(fault) => Err(fault),
    }
}

/// Serves `make_shareable` with a second argument, which asks for no copy. A refused growth leaves the objects as they were.
fn serve_keyword(
    alloc: Global,
    space: &mut Space,
    store: &StoreState,
    program: &Program,
    value: Ref,
    keywords: Ref,
) -> Result<Response, Fault>
    requires read { IsReadWith space.old (published store.now) }
    requires value { IsReached (reach (length space.old.slots) (Some (published store.now))) value }
    ensures replied { IfOk result (λ r. IsReplied (published store.now) (keyword_reply (context_of program.now) value keywords space.old) space.old r space.new) }
    ensures fault { IfErr result (λ f. f ≡ Fault.Memory) }
{
    match space.kind_of(keywords) {
        Kind::Hash => {
            if asks_copy(program, space, keywords) {
                make_shareable(alloc, space, store, value)
            } else {
                Ok(Response::Fails(Problem::UnknownKeyword))
            }
        }
        _ => Ok(Response::Fails(one_wanted(2))),
    }
}

/// Serves `shareable?`.
fn serve_shareable(
    alloc: Global,
    space: &Space,
    store: &StoreState,
    values: &[Ref],
) -> Result<Response, Fault>
    requires read { IsReadWith space.now (published store.now) }
    ensures replied { IfOk result (λ r. IsReplied (published store.now) (shareable_reply values.now space.now) space.now r space.now) }
    ensures fault { IfErr result (λ f. f ≡ Fault.Memory) }
{
    match values {
        [] => Ok(Response::Fails(one_wanted(0))),
        [value] => tell_shareable(alloc, space, *value),
        [_, _, ..] => Ok(Response::Fails(one_wanted(values.len()))),
    }
}

/// Serves `make_shareable`. A refused growth leaves the objects as they were.
fn serve_make_shareable(
    alloc: Global,
    space: &mut Space,
    store: &StoreState,
    program: &Program,
    values: &[Ref],
) -> Result<Response, Fault>
    requires read { IsReadWith space.old (published store.now) }
    requires reached { All (IsReached (reach (length space.old.slots) (Some (published store.now)))) values.now }
    ensures replied { IfOk result (λ r. IsReplied (published store.now) (make_shareable_reply (context_of program.now) values.now space.old) space.old r space.new) }
    ensures fault { IfErr result (λ f. f ≡ Fault.Memory) }
{
    match values {
        [] => Ok(Response::Fails(one_wanted(0))),
        [value] => make_shareable(alloc, space, store, *value),
        [value, keywords] => serve_keyword(alloc, space, store, program, *value, *keywords),
        [_, _, _, ..] => Ok(Response::Fails(one_wanted(values.len()))),
    }
}

/// Gives a value, where there are no arguments.
fn give_alone(value: Ref, values: &[Ref]) -> Response
    ensures is { (t : Table) → given_alone value values.now t ≡ record { said = said result; table = t } }
    ensures within { (k : Reach) → IsReached k value → IsResponseReached k result }
{
    match values {
        [] => Response::Gives(value),
        [_, ..] => Response::Fails(Problem::BuiltIn(BuiltInProblem::Count {
            given: values.len(),
            least: 0,
            most: 0,
        })),
    }
}

/// Gives the name of a ractor, where there are no arguments: the main one has none, and what another one is called is not told yet.
fn give_name(space: &Space, values: &[Ref]) -> Response
    ensures is { name_reply values.now space.now ≡ record { said = said result; table = space.now } }
    ensures within { (k : Reach) → IsResponseReached k result }
{
    if is_main(space) {
        give_alone(Ref::Nil, values)
    } else {
        Response::Fails(Problem::NotHere)
    }
}

/// Serves a method of Ractor. A refused growth leaves the objects as they were.
fn serve_values(
    alloc: Global,
    space: &mut Space,
    store: &StoreState,
    program: &Program,
    method: RactorMethod,
    values: &[Ref],
) -> Result<Response, Fault>
    requires read { IsReadWith space.old (published store.now) }
    requires reached { All (IsReached (reach (length space.old.slots) (Some (published store.now)))) values.now }
    ensures replied { IfOk result (λ r. IsReplied (published store.now) (ractor_reply (context_of program.now) method values.now space.old) space.old r space.new) }
    ensures refused { IfErr result (IsRefused (ractor_reply (context_of program.now) method values.now space.old) space.old) }
{
    match method {
        RactorMethod::IsShareable => serve_shareable(alloc, space, store, values),
        RactorMethod::MakeShareable => serve_make_shareable(alloc, space, store, program, values),
        RactorMethod::Start => Ok(Response::Fails(Problem::NoRactorBlock)),
        RactorMethod::Current => Ok(give_alone(Ref::Ractor(space.owner()), values)),
        RactorMethod::Main => Ok(give_alone(Ref::Ractor(MAIN), values)),
        RactorMethod::IsMain => Ok(give_alone(Ref::truth(is_main(space)), values)),
        RactorMethod::Name => Ok(give_name(space, values)),
        RactorMethod::WithOthers => Ok(Response::Fails(Problem::NoRactors)),
        RactorMethod::Later => Ok(Response::Fails(Problem::NotHere)),
    }
}

/// Serves a method of Ractor with these arguments. A refused growth leaves the objects as they were.
pub fn serve_ractor(
    alloc: Global,
    space: &mut Space,
    store: &StoreState,
    program: &Program,
    method: RactorMethod,
    arguments: &Arguments,
) -> Result<Response, Fault>
    requires read { IsReadWith space.old (published store.now) }
    requires reached { All (IsReached (reach (length space.old.slots) (Some (published store.now)))) (arguments_of arguments.now) }
    ensures replied { IfOk result (λ r. IsReplied (published store.now) (ractor_reply (context_of program.now) method (arguments_of arguments.now) space.old) space.old r space.new) }
    ensures refused { IfErr result (IsRefused (ractor_reply (context_of program.now) method (arguments_of arguments.now) space.old) space.old) }
{
    match arguments {
        Arguments::Without => serve_values(alloc, space, store, program, method, &[]),
        Arguments::One(first) => serve_values(alloc, space, store, program, method, &[*first]),
        Arguments::Two(first, second) => {
            serve_values(alloc, space, store, program, method, &[*first, *second])
        }
        Arguments::Many(values) => {
            serve_values(alloc, space, store, program, method, values.as_slice())
        }
    }
}

/// In each sound table the tests say what they are for: which objects a value leads to, and whether it is shareable; and where all is
/// frozen that a value leads to, that is frozen and nothing else is changed.
pub fn sharing_holds()
    ensures leads { (t : Table) (v : Ref) (n : ℕ) → IsTableSound t.slots t.below → IsTrue (leads t v n) ↔ Reaches (space_graph t) (resolve t.slots (value_of v)) (Own n) }
    ensures shareable { (t : Table) (v : Ref) → IsTableSound t.slots t.below → IsTrue (is_shareable t v) ↔ IsShareable (space_graph t) (resolve t.slots (value_of v)) }
    ensures frozen { (t : Table) (v : Ref) → IsTableSound t.slots t.below → IsDeepFrozen (value_of v) t (deep_frozen v t) }
{}
