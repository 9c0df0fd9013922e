//! What values say that are asked by the program's `to_s` or `inspect`.

ghost use Rattle.std.specs.Prelude.{◌≡◌, ◌+◌, ◌≤◌, length, take, Option, Some, IfOk};
ghost use Rattle.std.specs.List.{All};
ghost use Rattle.std.specs.Option.{option_map};
ghost use Rattle.rr_base.specs.declared.name.ClassId.{ClassId as ClassNumber};
ghost use Rattle.rr_space.specs.Tables.{Below};
ghost use Rattle.rr_tree.specs.declared.program.Program.{Program};
ghost use Rattle.rr_eval.specs.Heard.{SameThere, IsHeardBy, IsHeardReached, IsOfAsking, still_asked, script_of};
ghost use Rattle.rr_eval.specs.Methods.{Reads};
ghost use Rattle.rr_eval.specs.Prepared.{callable_of};
ghost use Rattle.rr_eval.specs.Speaking.{sayer};
ghost use Rattle.rr_eval.specs.Turns.{context_of};
ghost use Rattle.rr_eval.specs.Within.{reach, IsReached};

use crate::asking::{Asking, hold_printed, may_say, text_in};
use crate::call::Callee;
use crate::fields::read_field;
use crate::frame::{Frame, standing};
use crate::invoke::wrong_count;
use crate::iterating::value_at;
use crate::prepared::{Body, Definition, Prepared, Work};
use crate::problem::{Problem, Response};
use rr_base::{ClassId, Sym};
use rr_space::{Ref, Space};
use std::alloc::AllocError;

/// What a value that is asked comes to.
#[derive(Clone, Copy)]
pub enum Heard {
    /// It says this text, or nothing that counts.
    Said(Option<Ref>),
    /// Its method stands in a class and has statements, which are evaluated first.
    Runs(ClassId, Body),
    /// An exception.
    Fails(Problem),
}

/// What values that are asked one after the other come to.
#[derive(Clone, Copy)]
pub enum Gathered {
    /// Each of them said at once what is printed for it.
    Whole,
    /// The method of the last one that was seen stands in a class and has statements.
    Runs(Asking, ClassId, Body),
    /// An exception.
    Fails(Problem),
}

impl Prepared {
    /// The program's method by which a value is asked.
    fn sayer(&self, space: &Space, name: Sym, value: Ref) -> Option<Definition>
        ensures { option_map (callable_of self.now.program.nodes.items) result ≡ sayer (context_of self.now.program) space.now name value }
    {
        if may_say(space.kind_of(value)) {
            self.method_for(space, value, Callee::Name(name))
        } else {
            None
        }
    }
}

/// What a value says by an instance variable.
fn hear_field(space: &Space, value: Ref, field: Sym) -> Heard
    ensures is { (p : Program) (x : Sym) (class : ClassNumber) → IsHeardBy p space.now (Some (record { class = class; work = Reads field })) x value result }
    ensures within { (clusters : Option Below) → IsHeardReached (reach (length space.now.slots) clusters) result }
{
    match read_field(space, value, field) {
        Response::Gives(said) => Heard::Said(text_in(space, said)),
        Response::Throws(_) => unreachable!(),
        Response::Fails(problem) => Heard::Fails(problem),
    }
}

/// What a value says by a method of the program.
fn hear_method(space: &Space, value: Ref, method: Definition) -> Heard
    ensures is { (p : Program) (x : Sym) → IsHeardBy p space.now (Some (callable_of p.nodes.items method)) x value result }
    ensures within { (clusters : Option Below) → IsHeardReached (reach (length space.now.slots) clusters) result }
{
    match method.work {
        Work::Run(body) => {
            if body.shape.parameters == 0 {
                Heard::Runs(method.class, body)
            } else {
                Heard::Fails(wrong_count(0, body.shape.parameters))
            }
        }
        Work::Read(field) => hear_field(space, value, field),
        Work::Write(_) => Heard::Fails(wrong_count(0, 1)),
        Work::Nothing => Heard::Fails(Problem::NotHere),
    }
}

/// What a value says that is asked.
fn hear(prepared: &Prepared, space: &Space, name: Sym, value: Ref) -> Heard
    ensures is { IsHeardBy prepared.now.program space.now (sayer (context_of prepared.now.program) space.now name value) name value result }
    ensures within { (clusters : Option Below) → IsHeardReached (reach (length space.now.slots) clusters) result }
{
    match prepared.sayer(space, name, value) {
        Some(method) => hear_method(space, value, method),
        None => Heard::Said(None),
    }
}

/// Asks values that stand from a base on, up to one that does not say at once what is printed for it, and holds what is printed for
/// those before behind the values. A refused growth leaves some of it there.
pub fn gather(
    held: &mut Vec<Ref>,
    prepared: &Prepared,
    space: &Space,
    asking: Asking,
) -> Result<Gathered, AllocError>
    requires inside { asking.base + asking.count ≤ length held.old.items }
    ensures goes { IfOk result (λ found. SameThere space.now (still_asked prepared.now.program asking held.old.items) (script_of prepared.now.program asking held.new.items found)) }
    ensures same { IfOk result (IsOfAsking asking) }
    ensures kept { take (length held.old.items) held.new.items ≡ held.old.items }
    ensures within { (clusters : Option Below) → All (IsReached (reach (length space.now.slots) clusters)) held.old.items → All (IsReached (reach (length space.now.slots) clusters)) held.new.items }
{
    let mut seen = asking.seen;
    while seen < asking.count {
        let stand = standing(held, Frame::Asked(asking));
        let value = value_at(stand, seen);
        seen += 1;
        match hear(prepared, space, asking.name, value) {
            Heard::Said(said) => hold_printed(held, asking.saying, value, said)?,
            Heard::Runs(class, body) => {
                return Ok(Gathered::Runs(Asking { seen, ..asking }, class, body));
            }
            Heard::Fails(problem) => return Ok(Gathered::Fails(problem)),
        }
    }
    Ok(Gathered::Whole)
}
