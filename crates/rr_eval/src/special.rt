//! Which requests of a script ask something of its store.

ghost use Rattle.std.specs.Prelude.{◌≡◌};
ghost use Rattle.std.specs.Option.{option_map};
ghost use Rattle.rr_space.specs.Labels.{labelled_value};
ghost use Rattle.rr_space.specs.Parts.{value_of};
ghost use Rattle.rr_eval.specs.Alone.{one_in, two_in, is_true, holds, wants_copy, special_set, special_pair, special_called, special_of};
ghost use Rattle.rr_eval.specs.Requests.{arguments_of, asked_of};
ghost use Rattle.rr_eval.specs.Turns.{context_of};

use crate::call::{Arguments, Task};
use crate::ractor_method::{RactorMethod, ractor_method};
use crate::request::Request;
use crate::sharing::asks_copy;
use rr_base::Sym;
use rr_space::{Kind, Label, Ref, Space};
use rr_tree::Program;

/// What a request asks of the store.
#[derive(Clone, Copy)]
pub enum Special {
    /// Nothing.
    Usual,
    /// A constant is set.
    Constant(Sym, Ref),
    /// A shareable copy is made of a value.
    Copy(Ref),
}

/// The only argument, where there is one alone.
fn one_in(arguments: &Arguments) -> Option<Ref>
    ensures { result ≡ one_in (arguments_of arguments.now) }
{
    match arguments {
        Arguments::One(first) => Some(*first),
        Arguments::Many(values) => match values.as_slice() {
            [first] => Some(*first),
            _ => None,
        },
        Arguments::Without => None,
        Arguments::Two(_, _) => None,
    }
}

/// Both arguments, where there are two.
fn two_in(arguments: &Arguments) -> Option<(Ref, Ref)>
    ensures { result ≡ two_in (arguments_of arguments.now) }
{
    match arguments {
        Arguments::Two(first, second) => Some((*first, *second)),
        Arguments::Many(values) => match values.as_slice() {
            [first, second] => Some((*first, *second)),
            _ => None,
        },
        Arguments::Without => None,
        Arguments::One(_) => None,
    }
}

/// Whether a value is true.
fn is_true(value: Ref) -> bool
    ensures { result ≡ is_true (value_of value) }
{
    match value {
        Ref::Nil => false,
        Ref::False => false,
        Ref::True => true,
        Ref::Int(_) => true,
        Ref::Symbol(_) => true,
        Ref::Class(_) => true,
        Ref::Ractor(_) => true,
        Ref::Local(_) => true,
        Ref::Shared(_, _) => true,
    }
}

/// Whether there is a value, and it is true.
fn holds(value: Option<(Label, Ref)>) -> bool
    ensures { result ≡ holds (option_map labelled_value value) }
{
    match value {
        Some((_, value)) => is_true(value),
        None => false,
    }
}

/// Whether keywords ask for a copy.
fn wants_copy(program: &Program, space: &Space, keywords: Ref) -> bool
    ensures { result ≡ wants_copy (context_of program.now) space.now keywords }
{
    let value = space.part(keywords, 1);
    match space.kind_of(keywords) {
        Kind::Hash => asks_copy(program, space, keywords) && holds(value),
        _ => false,
    }
}

/// What an assignment of a value to a constant asks.
fn special_set(name: Sym, value: Option<Ref>) -> Special
    ensures { result ≡ special_set name value }
{
    match value {
        Some(value) => Special::Constant(name, value),
        None => Special::Usual,
    }
}

/// What `make_shareable` asks with these arguments.
fn special_pair(program: &Program, space: &Space, pair: Option<(Ref, Ref)>) -> Special
    ensures { result ≡ special_pair (context_of program.now) pair space.now }
{
    match pair {
        Some((value, keywords)) => {
            if wants_copy(program, space, keywords) {
                Special::Copy(value)
            } else {
                Special::Usual
            }
        }
        None => Special::Usual,
    }
}

/// What a call asks.
fn special_called(
    program: &Program,
    space: &Space,
    method: Option<RactorMethod>,
    arguments: &Arguments,
) -> Special
    ensures { result ≡ special_called (context_of program.now) method (arguments_of arguments.now) space.now }
{
    match method {
        Some(RactorMethod::MakeShareable) => special_pair(program, space, two_in(arguments)),
        _ => Special::Usual,
    }
}

/// What a request asks of the store.
pub fn special_of(program: &Program, space: &Space, request: &Request) -> Special
    ensures { result ≡ special_of (context_of program.now) (asked_of space.now request.now) space.now }
{
    match request {
        Request::Do(Task::SetConstant(name), values) => special_set(*name, one_in(values)),
        Request::Do(_, _) => Special::Usual,
        Request::Call(call) => {
            let method = ractor_method(program, call.receiver, call.callee);
            special_called(program, space, method, &call.arguments)
        }
    }
}
