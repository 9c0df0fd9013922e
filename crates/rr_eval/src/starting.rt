//! `Ractor.new` with a block, in a script on its own.

ghost use Rattle.std.specs.Prelude.{◌≡◌, ◌+◌, ◌*◌, ◌<◌, ◌≤◌, ◌++◌, ℕ, length, map, reverse, IfOk, IfErr, OnOk};
ghost use Rattle.std.specs.Option.{option_map};
ghost use Rattle.rr_base.specs.Classes.{class_id};
ghost use Rattle.rr_base.specs.declared.fault.Fault.{Fault};
ghost use Rattle.rr_frames.specs.Frames.{list_of};
ghost use Rattle.rr_space.specs.Labels.{labelled_value};
ghost use Rattle.rr_tree.specs.Tree.{tree_at};
ghost use Rattle.rr_eval.specs.declared.frame.Control.{Control};
ghost use Rattle.rr_eval.specs.Acts.{Passes};
ghost use Rattle.rr_eval.specs.Basics.{throw};
ghost use Rattle.rr_eval.specs.Changes.{Changes};
ghost use Rattle.rr_eval.specs.Dispatch.{last_of, passed_on};
ghost use Rattle.rr_eval.specs.Frames.{below_of, base_of, stand_of, Nested};
ghost use Rattle.rr_eval.specs.RactorMethods.{ractor_method};
ghost use Rattle.rr_eval.specs.Requests.{Course, Adds};
ghost use Rattle.rr_eval.specs.Script.{objects_of};
ghost use Rattle.rr_eval.specs.Starting.{is_name_key, gives_name, is_name, named_by, named_in, start_problem, refused_block, refused_call, behind_commas, listed_names, outer_text, raise_text, start_rule, with_block_rule};
ghost use Rattle.rr_eval.specs.Turns.{context_of, IsNested, after_values, remaining, remaining_with, Stands, size};
ghost use Rattle.rr_eval.specs.Views.{view_of};
ghost use Rattle.rr_eval.specs.Within.{Reach, AreReached, AreWithin, KeepsReach, KeepsRead};

use crate::call::{Callee, Passing, passed};
use crate::engine::Engine;
use crate::exception::exception_class;
use crate::frame::{Control, Frame, clear, standing};
use crate::iterating::own;
use crate::message::message;
use crate::operator::make_text;
use crate::prepared::Prepared;
use crate::problem::Problem;
use crate::ractor_method::{RactorMethod, ractor_method};
use crate::sending::last_of;
use crate::serve::receiver_of;
use rr_base::{BuiltInClass, Fault, Sym};
use rr_builtin::Problem as BuiltInProblem;
use rr_isolation::isolate;
use rr_space::{Kind, Label, Ref, Space};
use rr_tree::{NodeId, Program};
use std::alloc::{AllocError, Global};

/// Whether it is the key `:name`.
fn is_name_key(program: &Program, key: Option<(Label, Ref)>) -> bool
    ensures { result ≡ is_name_key (context_of program.now) (option_map labelled_value key) }
{
    match key {
        Some((_, Ref::Symbol(name))) => program.symbol_bytes(name) == b"name".as_slice(),
        _ => false,
    }
}

/// Whether a value is a hash that has the key `:name` alone.
fn gives_name(program: &Program, space: &Space, value: Ref) -> bool
    ensures { result ≡ gives_name (context_of program.now) space.now value }
{
    match space.kind_of(value) {
        Kind::Hash => {
            let key = space.part(value, 0);
            space.arity(value) == 2 && is_name_key(program, key)
        }
        _ => false,
    }
}

/// Whether values of a kind are names: texts, and nil.
fn is_name(kind: Kind) -> bool
    ensures { result ≡ is_name kind }
{
    match kind {
        Kind::Text => true,
        Kind::Nil => true,
        _ => false,
    }
}

/// What is raised once a name was looked at.
fn named_by(space: &Space, name: Option<Ref>) -> Problem
    ensures { result ≡ named_by space.now name }
{
    match name {
        Some(name) => {
            if is_name(space.kind_of(name)) {
                Problem::NoRactors
            } else {
                Problem::BuiltIn(BuiltInProblem::WrongType(space.class_of(name)))
            }
        }
        None => Problem::NotHere,
    }
}

/// What is raised once the value of the key `:name` was looked at.
fn named_in(space: &Space, part: Option<(Label, Ref)>) -> Problem
    ensures { result ≡ named_in space.now (option_map labelled_value part) }
{
    match part {
        Some((_, name)) => named_by(space, own(space, name)),
        None => Problem::NoRactors,
    }
}

/// What comes of a start whose last argument this is.
fn start_problem(program: &Program, space: &Space, value: Ref) -> Problem
    ensures { result ≡ start_problem (context_of program.now) space.now value }
{
    if gives_name(program, space, value) {
        named_in(space, space.part(value, 1))
    } else {
        Problem::NoRactors
    }
}

/// Why a call with a block of a method that is none of Ractor is refused: no built-in method but the iterations is given a block yet, and
/// a receiver may have no method of the name.
fn refused_call(prepared: &Prepared, space: &Space, receiver: Ref, callee: Callee) -> Problem
    ensures { result ≡ refused_call (context_of prepared.now.program) space.now receiver callee }
{
    if prepared.has_built_in(space, receiver, callee) {
        Problem::NotHere
    } else {
        Problem::MissingMethod(callee, receiver_of(space, receiver))
    }
}

/// Why a call with a block of what may be a method of Ractor is refused, where one of another method is refused so: for no reason where
/// it is `new`.
fn refused_block(other: Problem, method: Option<RactorMethod>) -> Option<Problem>
    ensures { result ≡ refused_block other method }
{
    match method {
        Some(RactorMethod::Start) => None,
        Some(RactorMethod::WithOthers) => Some(Problem::NoRactors),
        Some(RactorMethod::IsShareable) => Some(Problem::NotHere),
        Some(RactorMethod::MakeShareable) => Some(Problem::NotHere),
        Some(RactorMethod::Current) => Some(Problem::NotHere),
        Some(RactorMethod::Main) => Some(Problem::NotHere),
        Some(RactorMethod::IsMain) => Some(Problem::NotHere),
        Some(RactorMethod::Name) => Some(Problem::NotHere),
        Some(RactorMethod::Later) => Some(Problem::NotHere),
        None => Some(other),
    }
}

/// Writes names, a comma before each.
fn write_others(text: &mut Vec<u8>, program: &Program, names: &[Sym]) -> Result<(), AllocError>
    ensures { OnOk result (text.new.items ≡ text.old.items ++ behind_commas (context_of program.now) (map (λ x. x.0) names.now)) }
{
    for name in names {
        text.extend_from_slice(b", ")?;
        text.extend_from_slice(program.symbol_bytes(*name))?;
    }
    Ok(())
}

/// Writes names, with commas between them.
fn write_names(text: &mut Vec<u8>, program: &Program, names: &[Sym]) -> Result<(), AllocError>
    ensures { OnOk result (text.new.items ≡ text.old.items ++ listed_names (context_of program.now) (map (λ x. x.0) names.now)) }
{
    match names {
        [] => Ok(()),
        [first, others @ ..] => {
            text.extend_from_slice(program.symbol_bytes(*first))?;
            write_others(text, program, others)
        }
    }
}

/// The message that tells the outer names of a block.
fn outer_text(alloc: Global, program: &Program, names: &Vec<Sym>) -> Result<Vec<u8>, AllocError>
    ensures { IfOk result (λ text. text.items ≡ outer_text (context_of program.now) (map (λ x. x.0) names.now.items)) }
{
    let mut text = Vec::from_slice(
        alloc,
        b"can not isolate a Proc because it accesses outer variables (",
    )?;
    write_names(&mut text, program, names.as_slice())?;
    text.extend_from_slice(b").")?;
    Ok(text)
}

/// What is raised for a problem: the class, and the message.
fn told(
    alloc: Global,
    program: &Program,
    problem: Problem,
) -> Result<(BuiltInClass, Vec<u8>), AllocError>
    ensures { IfOk result (λ told. throw (context_of program.now) problem ≡ raise_text (class_id told.0) told.1.items) }
{
    let text = message(alloc, program, problem)?;
    Ok((exception_class(problem), text))
}

/// What is raised at a start with the block of a node, once the block is isolated: the class, and the message. The only fault is want of
/// memory.
#[tactic(auto, unfolding(crate::specs::Starting::start_rule))]
fn refusal(
    alloc: Global,
    program: &Program,
    block: NodeId,
    problem: Problem,
) -> Result<(BuiltInClass, Vec<u8>), Fault>
    ensures told { IfOk result (λ told. start_rule (context_of program.now) (tree_at program.now.nodes.items block) problem ≡ raise_text (class_id told.0) told.1.items) }
    ensures fault { IfErr result (λ f. f ≡ Fault.Memory) }
{
    match isolate(alloc, program, block) {
        Ok(_) => Ok(told(alloc, program, problem)?),
        Err(Fault::UsesOuter(names)) => {
            let text = outer_text(alloc, program, &names)?;
            Ok((BuiltInClass::ArgumentError, text))
        }
        Err(Fault::UsesYield) => Ok(told(alloc, program, Problem::UsesYield)?),
        Err(fault) => Err(fault),
    }
}

impl Engine {
    /// Calls a built-in method of a receiver with a block, with the arguments among the values that stand for a frame and one more.
    #[tactic(auto, unfolding(crate::specs::Within::AreReached, crate::specs::Starting::with_block_rule))]
    pub fn send_with_block(
        &mut self,
        prepared: &Prepared,
        space: &Space,
        receiver: Ref,
        callee: Callee,
        passing: Passing,
        block: NodeId,
        frame: Frame,
        last: Option<Ref>,
    )
        requires base { base_of frame ≤ length self.old.held.items }
        requires nested { Nested (reverse self.old.frames.items) (below_of frame self.old.held.items) }
        ensures goes { (h : Course) (n : ℕ) → after_values prepared.now.program (view_of self.old) space.now frame (with_block_rule (context_of prepared.now.program) (ractor_method (context_of prepared.now.program) receiver callee) callee (tree_at prepared.now.program.nodes.items block) receiver (last_of (passed_on passing (stand_of frame self.old.held.items ++ list_of last)))) h n ≡ remaining_with prepared.now.program (view_of self.new) space.now h n }
        ensures nested { IsNested (view_of self.new) }
        ensures within { (k : Reach) → AreReached k (view_of self.old) → AreReached k (view_of self.new) }
        ensures left { self.new.left ≡ self.old.left }
        ensures size { size (view_of self.new) ≤ 3 * length self.old.frames.items + 4 }
    {
        let other = refused_call(prepared, space, receiver, callee);
        match refused_block(other, ractor_method(&prepared.program, receiver, callee)) {
            Some(problem) => self.refuse(frame, problem),
            None => {
                let (values, last) = passed(passing, standing(&self.held, frame), last);
                let value = last_of(values, last);
                let problem = start_problem(&prepared.program, space, value);
                clear(&mut self.held, frame);
                self.control = Control::Start(block, problem);
            }
        }
    }

    /// Isolates the block of a ractor that would start, and makes the message of what is raised. A refused growth leaves all as it is.
    #[tactic(auto, unfolding(crate::specs::Within::AreReached))]
    #[inline(never)]
    pub fn start(
        &mut self,
        program: &Program,
        space: &mut Space,
        block: NodeId,
        problem: Problem,
    ) -> Result<(), Fault>
        requires control { self.old.control ≡ Control.Start block problem }
        requires nested { IsNested (view_of self.old) }
        requires within { AreWithin (length space.old.slots) (view_of self.old) }
        ensures goes { OnOk result ((h : Course) → remaining program.now (view_of self.old) space.old h ≡ remaining program.now (view_of self.new) space.new h) }
        ensures nested { IsNested (view_of self.new) }
        ensures within { KeepsReach (view_of self.old) space.old (view_of self.new) space.new }
        ensures read { KeepsRead (view_of self.old) space.old space.new }
        ensures left { self.new.left ≡ self.old.left }
        ensures size { OnOk result (size (view_of self.new) < size (view_of self.old)) }
        ensures err { IfErr result (λ f. Stands (view_of self.old) (view_of self.new) space.old space.new f) }
        ensures limit { space.new.limit ≡ space.old.limit }
        ensures changed { Changes space.old space.new }
        ensures full { IfErr result (λ f. (h : Course) → Adds h.world → Passes f space.old.limit (objects_of (remaining program.now (view_of self.old) space.old h))) }
    {
        let (class, text) = refusal(self.alloc, program, block, problem)?;
        match make_text(space, text) {
            Ok(message) => {
                self.control = Control::Raise(class.id(), message);
                Ok(())
            }
            Err(fault) => Err(fault),
        }
    }
}
