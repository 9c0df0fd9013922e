//! Parts that read what an object holds: an instance variable of `self`, an attribute of an object that a variable holds, a global
//! variable, or a constant. They are evaluated without a frame.

ghost use Rattle.std.specs.Prelude.{◌≡◌, ◌<◌, ◌≤◌, List, [], ◌∷◌, false, true, length, Option, IfSome};
ghost use Rattle.rr_builtin.specs.Fields.{field_at};
ghost use Rattle.rr_parser.specs.Grammar.Names.{is_splat};
ghost use Rattle.rr_space.specs.Tables.{Below};
ghost use Rattle.rr_tree.specs.Tree.{Tree};
ghost use Rattle.rr_eval.specs.declared.call.Callee.{Callee};
ghost use Rattle.rr_eval.specs.declared.call.Target.{Target};
ghost use Rattle.rr_eval.specs.declared.chains.Link.{Link};
ghost use Rattle.rr_eval.specs.Fields.{field_response};
ghost use Rattle.rr_eval.specs.Globals.{globals};
ghost use Rattle.rr_eval.specs.Owners.{is_main};
ghost use Rattle.rr_eval.specs.Rules.{finish};
ghost use Rattle.rr_eval.specs.SimpleParts.{IsApart};
ghost use Rattle.rr_eval.specs.Turns.{context_of};
ghost use Rattle.rr_eval.specs.Usual.{GivesAtOnce, TakesNow};
ghost use Rattle.rr_eval.specs.Views.{view_of};
ghost use Rattle.rr_eval.specs.Within.{reach, IsReached, AreReached};

use crate::constant::constant_of;
use crate::engine::Engine;
use crate::fields::read_field;
use crate::globals::GLOBALS;
use crate::owners::is_main;
use crate::prepared::{Prepared, Work};
use crate::problem::Response;
use crate::simple_parts::ApartPart;
use crate::usual::Quick;
use rr_base::Sym;
use rr_space::{Ref, Space};

/// What an object holds as an instance variable, where that can be read.
#[inline(always)]
fn field_of(space: &Space, object: Ref, name: Sym) -> Option<Ref>
    ensures is { IfSome result (λ v. field_response space.now (field_at space.now object name.0) ≡ Response.Gives v) }
    ensures within { (clusters : Option Below) → IfSome result (IsReached (reach (length space.now.slots) clusters)) }
{
    match read_field(space, object, name) {
        Response::Gives(value) => Some(value),
        _ => None,
    }
}

/// What a global variable holds, where the main ractor reads it and that can be read. It is called, and not compiled in place, for the
/// registers of the readings around it.
#[inline(never)]
fn global_of(space: &Space, name: Sym) -> Option<Ref>
    ensures main { IfSome result (λ _. is_main space.now ≡ true) }
    ensures is { IfSome result (λ v. field_response space.now (field_at space.now globals name.0) ≡ Response.Gives v) }
    ensures within { (clusters : Option Below) → IfSome result (IsReached (reach (length space.now.slots) clusters)) }
{
    if !is_main(space) {
        return None;
    }
    match field_of(space, GLOBALS, name) {
        Some(value) => Some(value),
        None => None,
    }
}

/// What a call without arguments reads, where it finds a method that reads an instance variable.
#[inline(always)]
pub fn attribute_of(prepared: &Prepared, space: &Space, receiver: Ref, name: Sym) -> Option<Ref>
    ensures reads { IfSome result (GivesAtOnce prepared.now.program space.now (finish (context_of prepared.now.program) (Target.Call (Callee.Name name)) (receiver ∷ []))) }
    ensures within { (clusters : Option Below) → IfSome result (IsReached (reach (length space.now.slots) clusters)) }
{
    match prepared.method_of_plain(space, receiver, name) {
        Some(&Some(definition)) => match definition.work {
            Work::Read(field) => field_of(space, receiver, field),
            _ => None,
        },
        _ => None,
    }
}

impl Engine {
    /// What a part reads, and how many steps that takes.
    #[inline(always)]
    pub fn read_apart(&self, prepared: &Prepared, space: &Space, apart: &ApartPart) -> Option<Quick>
        ensures takes { (links : List Link) (tree : Tree) → IsApart prepared.now.program links tree apart.now → IfSome result (λ q. TakesNow prepared.now.program (view_of self.now) space.now tree q.steps q.value) }
        ensures plain { (links : List Link) (tree : Tree) → IsApart prepared.now.program links tree apart.now → IfSome result (λ _. is_splat tree ≡ false) }
        ensures some { IfSome result (λ q. 0 < q.steps) }
        ensures few { IfSome result (λ q. q.steps ≤ 2) }
        ensures within { (clusters : Option Below) → AreReached (reach (length space.now.slots) clusters) (view_of self.now) → IfSome result (λ q. IsReached (reach (length space.now.slots) clusters) q.value) }
    {
        match apart {
            ApartPart::Field(name) => match field_of(space, self.itself(), *name) {
                Some(value) => Some(Quick { value, steps: 1 }),
                None => None,
            },
            ApartPart::Attribute(variable, name) => {
                match attribute_of(prepared, space, self.variable(*variable), *name) {
                    Some(value) => Some(Quick { value, steps: 2 }),
                    None => None,
                }
            }
            ApartPart::Global(name) => match global_of(space, *name) {
                Some(value) => Some(Quick { value, steps: 1 }),
                None => None,
            },
            ApartPart::Constant(name, class) => match constant_of(space, *name, *class) {
                Some(value) => Some(Quick { value, steps: 1 }),
                None => None,
            },
            ApartPart::Chain(_) | ApartPart::Call(_, _) => None,
        }
    }
}
