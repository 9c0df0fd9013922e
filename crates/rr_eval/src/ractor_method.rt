//! The methods of Ractor, and those of a ractor.

ghost use Rattle.std.specs.Prelude.{◌≡◌, None, IsTrue};
ghost use Rattle.rr_eval.specs.declared.call.Callee.{Callee};
ghost use Rattle.rr_eval.specs.Context.{Context};
ghost use Rattle.rr_eval.specs.RactorMethods.{passes_values, other_named, ractor_named, ractor_called, needs_channel, own_named, own_called, ractor_method};
ghost use Rattle.rr_eval.specs.Turns.{context_of};

use crate::call::Callee;
use rr_base::ClassId;
use rr_space::Ref;
use rr_tree::Program;

/// A method of Ractor, or of a ractor.
#[derive(Clone, Copy)]
pub enum RactorMethod {
    /// `shareable?`.
    IsShareable,
    /// `make_shareable`.
    MakeShareable,
    /// `new`.
    Start,
    /// `current`.
    Current,
    /// `main`.
    Main,
    /// `main?`.
    IsMain,
    /// One that needs another ractor, an inbox or a port.
    WithOthers,
    /// `name`, of a ractor.
    Name,
    /// One that is not evaluated yet.
    Later,
}

/// Whether it is the name of a method of Ractor that passes values from ractor to ractor.
fn passes_values(name: &[u8]) -> bool
    ensures { result ≡ passes_values name.now }
{
    name == b"select".as_slice()
        || name == b"receive".as_slice()
        || name == b"recv".as_slice()
        || name == b"receive_if".as_slice()
        || name == b"yield".as_slice()
}

/// The method of Ractor of a name, where it is none of those that start a ractor or tell of values.
fn other_named(name: &[u8]) -> Option<RactorMethod>
    ensures { result ≡ other_named name.now }
{
    if name == b"current".as_slice() {
        return Some(RactorMethod::Current);
    }
    if name == b"main".as_slice() {
        return Some(RactorMethod::Main);
    }
    if passes_values(name) {
        return Some(RactorMethod::WithOthers);
    }
    if name == b"main?".as_slice() {
        return Some(RactorMethod::IsMain);
    }
    if name == b"store_if_absent".as_slice() {
        return Some(RactorMethod::Later);
    }
    None
}

/// The method of Ractor of a name.
fn ractor_named(name: &[u8]) -> Option<RactorMethod>
    ensures { result ≡ ractor_named name.now }
{
    if name == b"shareable?".as_slice() {
        return Some(RactorMethod::IsShareable);
    }
    if name == b"make_shareable".as_slice() {
        return Some(RactorMethod::MakeShareable);
    }
    if name == b"new".as_slice() {
        return Some(RactorMethod::Start);
    }
    other_named(name)
}

/// The method of Ractor that is called by a name, or by brackets.
fn ractor_called(program: &Program, callee: Callee) -> Option<RactorMethod>
    ensures { result ≡ ractor_called (context_of program.now) callee }
{
    match callee {
        Callee::Name(name) => ractor_named(program.symbol_bytes(name)),
        Callee::Index => Some(RactorMethod::Later),
        Callee::SetIndex => Some(RactorMethod::Later),
        Callee::Operator(_) => None,
        Callee::Opposite => None,
        Callee::Append => None,
        Callee::Initialize => None,
        Callee::Setter(_) => None,
    }
}

/// Whether it is the name of a method of a ractor that needs its inbox or its port.
fn needs_channel(name: &[u8]) -> bool
    ensures { result ≡ needs_channel name.now }
{
    name == b"send".as_slice()
        || name == b"take".as_slice()
        || name == b"close_incoming".as_slice()
        || name == b"close_outgoing".as_slice()
}

/// The method of a ractor of a name.
fn own_named(name: &[u8]) -> Option<RactorMethod>
    ensures { result ≡ own_named name.now }
{
    if needs_channel(name) {
        return Some(RactorMethod::WithOthers);
    }
    if name == b"name".as_slice() {
        return Some(RactorMethod::Name);
    }
    None
}

/// The method of a ractor that is called by a name, by `<<` or by brackets.
fn own_called(program: &Program, callee: Callee) -> Option<RactorMethod>
    ensures { result ≡ own_called (context_of program.now) callee }
{
    match callee {
        Callee::Name(name) => own_named(program.symbol_bytes(name)),
        Callee::Append => Some(RactorMethod::WithOthers),
        Callee::Index => Some(RactorMethod::Later),
        Callee::SetIndex => Some(RactorMethod::Later),
        Callee::Operator(_) => None,
        Callee::Opposite => None,
        Callee::Initialize => None,
        Callee::Setter(_) => None,
    }
}

/// The method of Ractor, or of a ractor, that a call calls, where it calls one.
#[tactic(auto, unfolding(crate::specs::RactorMethods::ractor_method))]
#[inline(always)]
pub fn ractor_method(program: &Program, receiver: Ref, callee: Callee) -> Option<RactorMethod>
    ensures { result ≡ ractor_method (context_of program.now) receiver callee }
{
    match receiver {
        Ref::Class(class) => {
            if class.0 == ClassId::RACTOR.0 {
                return ractor_called(program, callee);
            }
            None
        }
        Ref::Ractor(_) => own_called(program, callee),
        Ref::Nil => None,
        Ref::False => None,
        Ref::True => None,
        Ref::Int(_) => None,
        Ref::Symbol(_) => None,
        Ref::Local(_) => None,
        Ref::Shared(_, _) => None,
    }
}

/// Whether a receiver is one that no method of Ractor has: neither a class nor a ractor.
#[tactic(auto, unfolding(crate::specs::RactorMethods::ractor_method))]
#[inline(always)]
pub fn lacks_ractor_methods(receiver: Ref) -> bool
    ensures { IsTrue result → (c : Context) (callee : Callee) → ractor_method c receiver callee ≡ None }
{
    match receiver {
        Ref::Class(_) => false,
        Ref::Ractor(_) => false,
        Ref::Nil => true,
        Ref::False => true,
        Ref::True => true,
        Ref::Int(_) => true,
        Ref::Symbol(_) => true,
        Ref::Local(_) => true,
        Ref::Shared(_, _) => true,
    }
}
