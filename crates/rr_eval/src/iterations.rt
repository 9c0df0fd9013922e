//! Calls of the built-in methods that call their block again and again.

ghost use Rattle.std.specs.Prelude.{◌≡◌, ◌+◌, ◌*◌, ◌<◌, ◌≤◌, ℕ, ◌++◌, ◌∷◌, [], length, reverse, slice_index_or, take, drop, vec_capacity, Option, None, Some, IfOk, IfErr, OnOk, OnErr};
ghost use Rattle.std.specs.List.{All};
ghost use Rattle.rr_base.specs.declared.fault.Fault.{Fault};
ghost use Rattle.rr_frames.specs.Frames.{list_of};
ghost use Rattle.rr_space.specs.Tables.{Table, Below};
ghost use Rattle.rr_tree.specs.Tree.{tree_at};
ghost use Rattle.rr_tree.specs.declared.program.Program.{Program};
ghost use Rattle.rr_eval.specs.declared.call_stack.Entry.{Entry};
ghost use Rattle.rr_eval.specs.declared.frame.Control.{Control};
ghost use Rattle.rr_eval.specs.declared.frame.Frame.{Frame};
ghost use Rattle.rr_eval.specs.declared.iterating.Visits.{Visits};
ghost use Rattle.rr_eval.specs.declared.problem.Answer.{Answer};
ghost use Rattle.rr_eval.specs.Begun.{IsBegun};
ghost use Rattle.rr_eval.specs.Blocks.{spreads, shape_in, opened};
ghost use Rattle.rr_eval.specs.Frames.{below_of, base_of, stand_of, iterated, Nested};
ghost use Rattle.rr_eval.specs.Iterating.{turn_of, finished, continued, continued_with, turned, iteration_rule};
ghost use Rattle.rr_eval.specs.Requests.{Course, arguments_of};
ghost use Rattle.rr_eval.specs.Script.{Ret, Evaluate, TurnPart};
ghost use Rattle.rr_eval.specs.Turns.{context_of, code_of, state_of, remaining, remaining_with, IsNested, after_answer, after_values, continuing, Stands, more_of, size, sized};
ghost use Rattle.rr_eval.specs.Variables.{top};
ghost use Rattle.rr_eval.specs.Views.{view_of};
ghost use Rattle.rr_eval.specs.Within.{Reach, reach, AreReached, IsReached, IsAskedReached, IsAnswerReached};

use crate::blocks::{shape_at, spreads};
use crate::call::{Arguments, Task};
use crate::call_stack::Entry;
use crate::engine::{Engine, push_within};
use crate::frame::{Control, Frame, clear, first_standing, standing};
use crate::iterating::{
    Ahead, Iterating, Visits, beginning, kept, left_turn, look_ahead, value_at,
};
use crate::prepared::Prepared;
use crate::problem::{Answer, Problem};
use crate::request::Request;
use crate::spreading::spread;
use rr_base::{Fault, LimitKind, Sym};
use rr_builtin::{Iteration, Problem as BuiltInProblem, is_truthy};
use rr_frames::Shape;
use rr_space::{Ref, Space};
use rr_tree::{NodeId, Program};
use std::alloc::{AllocError, Global};

/// What an iteration kept, without its receiver.
fn gathered(alloc: Global, stand: &[Ref]) -> Result<Arguments, AllocError>
    ensures are { IfOk result (λ values. arguments_of values ≡ drop 1 stand.now) }
    ensures within { (k : Reach) → All (IsReached k) stand.now → IfOk result (λ values. All (IsReached k) (arguments_of values)) }
{
    match stand {
        [] | [_] => Ok(Arguments::Without),
        [_, kept @ ..] => Ok(Arguments::Many(Vec::from_slice(alloc, kept)?)),
    }
}

/// The first of up to two values; nil where there is none.
fn given_array(first: Option<Ref>, last: Option<Ref>) -> Ref
    ensures { result ≡ slice_index_or (list_of first ++ list_of last) 0 Ref.Nil }
{
    match (first, last) {
        (Some(value), _) => value,
        (None, Some(value)) => value,
        (None, None) => Ref::Nil,
    }
}

/// Whether one array is given to several parameters.
#[inline(always)]
pub fn spreads_few(space: &Space, parameters: u32, first: Option<Ref>, last: Option<Ref>) -> bool
    ensures { result ≡ spreads parameters (list_of first ++ list_of last) space.now }
{
    match first {
        Some(value) => spreads(space, parameters, &[value], last),
        None => spreads(space, parameters, &[], last),
    }
}

impl Engine {
    /// Ends an iteration that has no more turns.
    #[tactic(auto, unfolding(crate::specs::Within::AreReached))]
    fn finish_iteration(&mut self, iteration: Iterating) -> Result<Option<Request>, Fault>
        requires room { length self.old.frames.items < vec_capacity self.old.frames }
        requires base { iteration.base ≤ length self.old.held.items }
        requires nested { Nested (reverse self.old.frames.items) (take iteration.base self.old.held.items) }
        ensures goes { IfOk result (λ q. (p : Program) (t : Table) (h : Course) (n : ℕ) → after_values p (view_of self.old) t (Frame.Turned iteration) (finished (context_of p) iteration.visits (drop iteration.base self.old.held.items)) h n ≡ continuing p (view_of self.new) t q h n) }
        ensures nested { OnOk result (IsNested (view_of self.new)) }
        ensures within { (k : Reach) → AreReached k (view_of self.old) → AreReached k (view_of self.new) }
        ensures asks { (k : Reach) → AreReached k (view_of self.old) → IfOk result (IsAskedReached k) }
        ensures pairs { (place : ℕ) → iteration.visits ≡ Visits.Pairs place → IfOk result (λ q. q ≡ None) }
        ensures left { self.new.left ≡ self.old.left }
        ensures err { (t : Table) → IfErr result (λ f. Stands (view_of self.old) (view_of self.new) t t f) }
        ensures size { IfOk result (λ q. sized q (view_of self.new) ≤ 3 * length self.old.frames.items + 4) }
        ensures room { IfErr result (λ _. length self.new.frames.items < vec_capacity self.new.frames) }
        ensures fault { IfErr result (λ f. f ≡ Fault.Memory) }
    {
        let stand = standing(&self.held, Frame::Turned(iteration));
        match iteration.visits {
            Visits::Elements(Iteration::Map | Iteration::Select, _) => {
                let values = gathered(self.alloc, stand)?;
                clear(&mut self.held, Frame::Turned(iteration));
                Ok(Some(Request::Do(Task::MakeArray, values)))
            }
            _ => {
                let receiver = value_at(stand, 0);
                clear(&mut self.held, Frame::Turned(iteration));
                self.control = Control::Give(Answer::Gave(receiver));
                Ok(None)
            }
        }
    }

    /// Evaluates the block of an iteration for a turn, in a frame of its own, whose parameters have up to two values. A refused
    /// growth leaves all as it is.
    #[tactic(auto, unfolding(crate::specs::Within::AreReached))]
    fn enter_turn(
        &mut self,
        iteration: Iterating,
        shape: Shape,
        first: Option<Ref>,
        last: Option<Ref>,
    ) -> Result<(), Fault>
        requires room { length self.old.frames.items < vec_capacity self.old.frames }
        requires base { iteration.base ≤ length self.old.held.items }
        requires nested { Nested (reverse self.old.frames.items) (take iteration.base self.old.held.items) }
        ensures goes { OnOk result ((p : Program) (t : Table) (h : Course) (n : ℕ) → shape_in (Some (tree_at p.nodes.items iteration.block)) ≡ Some shape → after_values p (view_of self.old) t (Frame.Round iteration) (opened (context_of p) (Entry.OfBlock (top self.old.calls.frames)) shape.parameters shape.size (list_of first ++ list_of last) None self.old.calls (Evaluate (TurnPart (iterated (code_of p h.world) iteration (drop iteration.base self.old.held.items))) Ret)) h n ≡ remaining_with p (view_of self.new) t h n) }
        ensures nested { OnOk result (IsNested (view_of self.new)) }
        ensures within { (k : Reach) → AreReached k (view_of self.old) → All (IsReached k) (list_of first ++ list_of last) → AreReached k (view_of self.new) }
        ensures begun { OnOk result (IsBegun self.new.control) }
        ensures left { self.new.left ≡ self.old.left }
        ensures err { (t : Table) → IfErr result (λ f. Stands (view_of self.old) (view_of self.new) t t f) }
        ensures size { OnOk result (size (view_of self.new) ≤ 3 * length self.old.frames.items + 4) }
        ensures room { IfErr result (λ _. length self.new.frames.items < vec_capacity self.new.frames) }
        ensures fault { IfErr result (λ f. f ≡ Fault.Memory) }
    {
        self.blocks.reserve(1)?;
        let home = self.calls.top();
        match self
            .calls
            .push_few(first, last, shape, Entry::OfBlock(home))
        {
            Ok(()) => {
                push_within(&mut self.blocks, None);
                push_within(&mut self.frames, Frame::Round(iteration));
                self.control = Control::Enter(iteration.block);
                Ok(())
            }
            Err(Fault::Limit(LimitKind::Frames)) => {
                self.refuse(
                    Frame::Round(iteration),
                    Problem::BuiltIn(BuiltInProblem::TooDeep),
                );
                Ok(())
            }
            Err(_) => Err(Fault::Memory),
        }
    }

    /// Evaluates the block of an iteration for a turn, in a frame of its own, whose parameters have these values. A refused
    /// growth leaves all as it is.
    #[tactic(auto, unfolding(crate::specs::Within::AreReached))]
    fn enter_turn_spread(
        &mut self,
        iteration: Iterating,
        shape: Shape,
        values: &[Ref],
    ) -> Result<(), Fault>
        requires room { length self.old.frames.items < vec_capacity self.old.frames }
        requires base { iteration.base ≤ length self.old.held.items }
        requires nested { Nested (reverse self.old.frames.items) (take iteration.base self.old.held.items) }
        ensures goes { OnOk result ((p : Program) (t : Table) (h : Course) (n : ℕ) → shape_in (Some (tree_at p.nodes.items iteration.block)) ≡ Some shape → after_values p (view_of self.old) t (Frame.Round iteration) (opened (context_of p) (Entry.OfBlock (top self.old.calls.frames)) shape.parameters shape.size values.now None self.old.calls (Evaluate (TurnPart (iterated (code_of p h.world) iteration (drop iteration.base self.old.held.items))) Ret)) h n ≡ remaining_with p (view_of self.new) t h n) }
        ensures nested { OnOk result (IsNested (view_of self.new)) }
        ensures within { (k : Reach) → AreReached k (view_of self.old) → All (IsReached k) values.now → AreReached k (view_of self.new) }
        ensures begun { OnOk result (IsBegun self.new.control) }
        ensures left { self.new.left ≡ self.old.left }
        ensures err { (t : Table) → IfErr result (λ f. Stands (view_of self.old) (view_of self.new) t t f) }
        ensures size { OnOk result (size (view_of self.new) ≤ 3 * length self.old.frames.items + 4) }
        ensures room { IfErr result (λ _. length self.new.frames.items < vec_capacity self.new.frames) }
        ensures fault { IfErr result (λ f. f ≡ Fault.Memory) }
    {
        self.blocks.reserve(1)?;
        let home = self.calls.top();
        match self.calls.push_all(values, shape, Entry::OfBlock(home)) {
            Ok(()) => {
                push_within(&mut self.blocks, None);
                push_within(&mut self.frames, Frame::Round(iteration));
                self.control = Control::Enter(iteration.block);
                Ok(())
            }
            Err(Fault::Limit(LimitKind::Frames)) => {
                self.refuse(
                    Frame::Round(iteration),
                    Problem::BuiltIn(BuiltInProblem::TooDeep),
                );
                Ok(())
            }
            Err(_) => Err(Fault::Memory),
        }
    }

    /// Calls the block of an iteration for a turn, with up to two values. A refused growth leaves all as it is.
    pub fn call_turn(
        &mut self,
        program: &Program,
        space: &Space,
        iteration: Iterating,
        first: Option<Ref>,
        last: Option<Ref>,
    ) -> Result<(), Fault>
        requires room { length self.old.frames.items < vec_capacity self.old.frames }
        requires base { iteration.base ≤ length self.old.held.items }
        requires nested { Nested (reverse self.old.frames.items) (take iteration.base self.old.held.items) }
        ensures goes { OnOk result ((h : Course) (n : ℕ) → after_values program.now (view_of self.old) space.now (Frame.Round iteration) (turn_of (context_of program.now) (iterated (code_of program.now h.world) iteration (drop iteration.base self.old.held.items)) (shape_in (Some (tree_at program.now.nodes.items iteration.block))) (list_of first ++ list_of last) (state_of program.now (view_of self.old) space.now h).memory) h n ≡ remaining_with program.now (view_of self.new) space.now h n) }
        ensures nested { OnOk result (IsNested (view_of self.new)) }
        ensures within { (clusters : Option Below) → AreReached (reach (length space.now.slots) clusters) (view_of self.old) → All (IsReached (reach (length space.now.slots) clusters)) (list_of first ++ list_of last) → AreReached (reach (length space.now.slots) clusters) (view_of self.new) }
        ensures begun { OnOk result (IsBegun self.new.control) }
        ensures left { self.new.left ≡ self.old.left }
        ensures err { (t : Table) → IfErr result (λ f. Stands (view_of self.old) (view_of self.new) t t f) }
        ensures size { OnOk result (size (view_of self.new) ≤ 3 * length self.old.frames.items + 4) }
        ensures room { IfErr result (λ _. length self.new.frames.items < vec_capacity self.new.frames) }
        ensures fault { IfErr result (λ f. f ≡ Fault.Memory) }
    {
        let Some(shape) = shape_at(program, iteration.block) else {
            self.refuse(Frame::Round(iteration), Problem::NoBlock);
            return Ok(());
        };
        if !spreads_few(space, shape.parameters, first, last) {
            return self.enter_turn(iteration, shape, first, last);
        }
        let array = given_array(first, last);
        match spread(self.alloc, space, array, shape.parameters as usize)? {
            Some(values) => self.enter_turn_spread(iteration, shape, values.as_slice()),
            None => {
                self.refuse(Frame::Round(iteration), Problem::NotHere);
                Ok(())
            }
        }
    }

    /// Goes on with what is ahead of an iteration. A refused growth leaves all as it is.
    #[tactic(auto, unfolding(crate::specs::Within::AreReached))]
    pub fn go_on(
        &mut self,
        program: &Program,
        space: &Space,
        iteration: Iterating,
    ) -> Result<Option<Request>, Fault>
        requires room { length self.old.frames.items < vec_capacity self.old.frames }
        requires base { iteration.base ≤ length self.old.held.items }
        requires nested { Nested (reverse self.old.frames.items) (take iteration.base self.old.held.items) }
        ensures goes { IfOk result (λ q. (h : Course) (n : ℕ) → after_values program.now (view_of self.old) space.now (Frame.Turned iteration) (continued (context_of program.now) (iterated (code_of program.now h.world) iteration (drop iteration.base self.old.held.items))) h n ≡ continuing program.now (view_of self.new) space.now q h n) }
        ensures nested { OnOk result (IsNested (view_of self.new)) }
        ensures within { (clusters : Option Below) → AreReached (reach (length space.now.slots) clusters) (view_of self.old) → AreReached (reach (length space.now.slots) clusters) (view_of self.new) }
        ensures asks { (k : Reach) → AreReached k (view_of self.old) → IfOk result (IsAskedReached k) }
        ensures pairs { (place : ℕ) → iteration.visits ≡ Visits.Pairs place → IfOk result (λ q. q ≡ None) }
        ensures left { self.new.left ≡ self.old.left }
        ensures err { (t : Table) → IfErr result (λ f. Stands (view_of self.old) (view_of self.new) t t f) }
        ensures size { IfOk result (λ q. sized q (view_of self.new) ≤ 3 * length self.old.frames.items + 4) }
        ensures room { IfErr result (λ _. length self.new.frames.items < vec_capacity self.new.frames) }
        ensures fault { IfErr result (λ f. f ≡ Fault.Memory) }
    {
        let stand = standing(&self.held, Frame::Turned(iteration));
        let ahead = look_ahead(self.alloc, space, iteration.visits, stand)?;
        match ahead {
            Ahead::Another(first, last, visits) => {
                let next = Iterating {
                    visits,
                    ..iteration
                };
                match self.take_turn(program, space, next, first, last) {
                    Ok(()) => Ok(None),
                    Err(fault) => Err(fault),
                }
            }
            Ahead::Finished => self.finish_iteration(iteration),
            Ahead::Stopped(problem) => {
                self.refuse(Frame::Turned(iteration), problem);
                Ok(None)
            }
        }
    }

    /// Begins an iteration with the values that stand from a place on: its receiver and its arguments. A refused growth leaves all as
    /// it is.
    fn begin_iteration(
        &mut self,
        prepared: &Prepared,
        space: &Space,
        name: Sym,
        iteration: Iterating,
    ) -> Result<Option<Request>, Fault>
        requires room { length self.old.frames.items < vec_capacity self.old.frames }
        requires base { iteration.base ≤ length self.old.held.items }
        requires nested { Nested (reverse self.old.frames.items) (take iteration.base self.old.held.items) }
        ensures goes { IfOk result (λ q. (h : Course) (n : ℕ) → after_values prepared.now.program (view_of self.old) space.now (Frame.Turned iteration) (iteration_rule (context_of prepared.now.program) name (tree_at prepared.now.program.nodes.items iteration.block) (drop iteration.base self.old.held.items)) h n ≡ continuing prepared.now.program (view_of self.new) space.now q h n) }
        ensures nested { OnOk result (IsNested (view_of self.new)) }
        ensures within { (clusters : Option Below) → AreReached (reach (length space.now.slots) clusters) (view_of self.old) → AreReached (reach (length space.now.slots) clusters) (view_of self.new) }
        ensures asks { (k : Reach) → AreReached k (view_of self.old) → IfOk result (IsAskedReached k) }
        ensures left { self.new.left ≡ self.old.left }
        ensures err { (t : Table) → IfErr result (λ f. Stands (view_of self.old) (view_of self.new) t t f) }
        ensures size { IfOk result (λ q. sized q (view_of self.new) ≤ 3 * length self.old.frames.items + 4) }
        ensures room { IfErr result (λ _. length self.new.frames.items < vec_capacity self.new.frames) }
        ensures fault { IfErr result (λ f. f ≡ Fault.Memory) }
    {
        let stand = standing(&self.held, Frame::Turned(iteration));
        match beginning(space, name, prepared.iteration(name), stand) {
            Ok(visits) => {
                let begun = Iterating {
                    visits,
                    ..iteration
                };
                self.begin_visits(&prepared.program, space, begun)
            }
            Err(problem) => {
                self.refuse(Frame::Turned(iteration), problem);
                Ok(None)
            }
        }
    }

    /// Calls the iteration of a name, which is given the block of a node: the values that stand for a frame and one more are its
    /// receiver and its arguments. A refused growth leaves all as it is.
    #[tactic(auto, unfolding(crate::specs::Within::AreReached))]
    pub fn iterate(
        &mut self,
        prepared: &Prepared,
        space: &Space,
        name: Sym,
        block: NodeId,
        frame: Frame,
        value: Ref,
    ) -> Result<Option<Request>, Fault>
        requires room { length self.old.frames.items < vec_capacity self.old.frames }
        requires base { base_of frame ≤ length self.old.held.items }
        requires nested { Nested (reverse self.old.frames.items) (below_of frame self.old.held.items) }
        ensures goes { IfOk result (λ q. (h : Course) (n : ℕ) → after_values prepared.now.program (view_of self.old) space.now frame (iteration_rule (context_of prepared.now.program) name (tree_at prepared.now.program.nodes.items block) (stand_of frame self.old.held.items ++ value ∷ [])) h n ≡ continuing prepared.now.program (view_of self.new) space.now q h n) }
        ensures nested { OnOk result (IsNested (view_of self.new)) }
        ensures within { (clusters : Option Below) → AreReached (reach (length space.now.slots) clusters) (view_of self.old) → IsReached (reach (length space.now.slots) clusters) value → AreReached (reach (length space.now.slots) clusters) (view_of self.new) }
        ensures asks { (k : Reach) → AreReached k (view_of self.old) → IsReached k value → IfOk result (IsAskedReached k) }
        ensures left { self.new.left ≡ self.old.left }
        ensures err { (t : Table) → IfErr result (λ f. Stands (view_of self.old) (view_of self.new) t t f) }
        ensures size { IfOk result (λ q. sized q (view_of self.new) ≤ 3 * length self.old.frames.items + 4) }
        ensures room { IfErr result (λ _. length self.new.frames.items < vec_capacity self.new.frames) }
        ensures fault { IfErr result (λ f. f ≡ Fault.Memory) }
    {
        let base = first_standing(&self.held, frame);
        let count = self.held.len();
        self.held.push(value)?;
        let iteration = Iterating {
            visits: Visits::Nothing,
            block,
            base,
        };
        match self.begin_iteration(prepared, space, name, iteration) {
            Ok(request) => Ok(request),
            Err(fault) => {
                self.held.truncate(count);
                Err(fault)
            }
        }
    }

    /// Goes on with what is ahead of an iteration, which keeps a value more, where there is one. A refused growth leaves all as it is.
    #[tactic(auto, unfolding(crate::specs::Within::AreReached))]
    fn go_on_with(
        &mut self,
        program: &Program,
        space: &Space,
        iteration: Iterating,
        found: Option<Ref>,
    ) -> Result<Option<Request>, Fault>
        requires room { length self.old.frames.items < vec_capacity self.old.frames }
        requires base { iteration.base ≤ length self.old.held.items }
        requires nested { Nested (reverse self.old.frames.items) (take iteration.base self.old.held.items) }
        ensures goes { IfOk result (λ q. (h : Course) (n : ℕ) → after_values program.now (view_of self.old) space.now (Frame.Turned iteration) (continued (context_of program.now) (iterated (code_of program.now h.world) iteration (drop iteration.base self.old.held.items ++ list_of found))) h n ≡ continuing program.now (view_of self.new) space.now q h n) }
        ensures nested { OnOk result (IsNested (view_of self.new)) }
        ensures within { (clusters : Option Below) → AreReached (reach (length space.now.slots) clusters) (view_of self.old) → All (IsReached (reach (length space.now.slots) clusters)) (list_of found) → AreReached (reach (length space.now.slots) clusters) (view_of self.new) }
        ensures asks { (k : Reach) → AreReached k (view_of self.old) → All (IsReached k) (list_of found) → IfOk result (IsAskedReached k) }
        ensures left { self.new.left ≡ self.old.left }
        ensures err { (t : Table) → IfErr result (λ f. Stands (view_of self.old) (view_of self.new) t t f) }
        ensures size { IfOk result (λ q. sized q (view_of self.new) ≤ 3 * length self.old.frames.items + 4) }
        ensures room { IfErr result (λ _. length self.new.frames.items < vec_capacity self.new.frames) }
        ensures fault { IfErr result (λ f. f ≡ Fault.Memory) }
    {
        let Some(value) = found else {
            return self.go_on(program, space, iteration);
        };
        let count = self.held.len();
        self.held.push(value)?;
        match self.go_on(program, space, iteration) {
            Ok(request) => Ok(request),
            Err(fault) => {
                self.held.truncate(count);
                Err(fault)
            }
        }
    }

    /// Goes on behind a turn that had a value, and whose frame is gone. A refused growth leaves all as it is.
    #[tactic(auto, unfolding(crate::specs::Within::AreReached))]
    pub fn resume_turned(
        &mut self,
        program: &Program,
        space: &Space,
        iteration: Iterating,
        value: Ref,
    ) -> Result<Option<Request>, Fault>
        requires room { length self.old.frames.items < vec_capacity self.old.frames }
        requires base { iteration.base ≤ length self.old.held.items }
        requires nested { Nested (reverse self.old.frames.items) (take iteration.base self.old.held.items) }
        ensures goes { IfOk result (λ q. (h : Course) (n : ℕ) → after_values program.now (view_of self.old) space.now (Frame.Turned iteration) (continued_with (context_of program.now) (iterated (code_of program.now h.world) iteration (drop iteration.base self.old.held.items)) value) h n ≡ continuing program.now (view_of self.new) space.now q h n) }
        ensures nested { OnOk result (IsNested (view_of self.new)) }
        ensures within { (clusters : Option Below) → AreReached (reach (length space.now.slots) clusters) (view_of self.old) → IsReached (reach (length space.now.slots) clusters) value → AreReached (reach (length space.now.slots) clusters) (view_of self.new) }
        ensures asks { (clusters : Option Below) → AreReached (reach (length space.now.slots) clusters) (view_of self.old) → IsReached (reach (length space.now.slots) clusters) value → IfOk result (IsAskedReached (reach (length space.now.slots) clusters)) }
        ensures left { self.new.left ≡ self.old.left }
        ensures err { (t : Table) → IfErr result (λ f. Stands (view_of self.old) (view_of self.new) t t f) }
        ensures size { IfOk result (λ q. sized q (view_of self.new) ≤ 3 * length self.old.frames.items + 4) }
        ensures room { IfErr result (λ _. length self.new.frames.items < vec_capacity self.new.frames) }
        ensures fault { IfErr result (λ f. f ≡ Fault.Memory) }
    {
        let stand = standing(&self.held, Frame::Turned(iteration));
        match kept(space, iteration.visits, value, stand) {
            Ok(found) => self.go_on_with(program, space, iteration, found),
            Err(problem) => {
                self.refuse(Frame::Turned(iteration), problem);
                Ok(None)
            }
        }
    }

    /// Goes on behind a turn of an iteration, which is taken off the stack, and whose frame goes. A refused growth leaves the iteration
    /// behind its turn.
    #[tactic(auto, unfolding(crate::specs::Within::AreReached))]
    pub fn resume_round(
        &mut self,
        program: &Program,
        space: &Space,
        iteration: Iterating,
        value: Ref,
    ) -> Result<Option<Request>, Fault>
        requires control { self.old.control ≡ Control.Give (Answer.Gave value) }
        requires room { length self.old.frames.items < vec_capacity self.old.frames }
        requires base { iteration.base ≤ length self.old.held.items }
        requires nested { Nested (reverse self.old.frames.items) (take iteration.base self.old.held.items) }
        ensures goes { IfOk result (λ q. (h : Course) → after_answer program.now (view_of self.old) space.now (Frame.Round iteration) (Answer.Gave value) h self.old.left ≡ continuing program.now (view_of self.new) space.now q h self.new.left) }
        ensures nested { IsNested (view_of self.new) }
        ensures within { (clusters : Option Below) → AreReached (reach (length space.now.slots) clusters) (view_of self.old) → IsReached (reach (length space.now.slots) clusters) value → AreReached (reach (length space.now.slots) clusters) (view_of self.new) }
        ensures asks { (clusters : Option Below) → AreReached (reach (length space.now.slots) clusters) (view_of self.old) → IsReached (reach (length space.now.slots) clusters) value → IfOk result (IsAskedReached (reach (length space.now.slots) clusters)) }
        ensures left { self.new.left ≡ self.old.left }
        ensures size { IfOk result (λ q. sized q (view_of self.new) ≤ 3 * length self.old.frames.items + 4) }
        ensures fault { IfErr result (λ f. f ≡ Fault.Memory) }
        ensures back { IfErr result (λ _. (h : Course) → after_answer program.now (view_of self.old) space.now (Frame.Round iteration) (Answer.Gave value) h self.old.left ≡ remaining program.now (view_of self.new) space.now h) }
    {
        self.pop_call();
        match self.resume_turned(program, space, iteration, value) {
            Ok(request) => Ok(request),
            Err(fault) => {
                push_within(&mut self.frames, Frame::Turned(iteration));
                Err(fault)
            }
        }
    }

    /// Passes an answer that is no value through a turn of an iteration, whose frame goes: `next` ends the turn, and all else the
    /// iteration.
    #[tactic(auto, unfolding(crate::specs::Within::AreReached))]
    pub fn leave_round(
        &mut self,
        program: &Program,
        space: &Space,
        iteration: Iterating,
        answer: Answer,
    )
        requires passes { (v : Ref) → answer ≡ Answer.Gave v → ⊥ }
        requires room { length self.old.frames.items < vec_capacity self.old.frames }
        requires base { iteration.base ≤ length self.old.held.items }
        requires nested { Nested (reverse self.old.frames.items) (take iteration.base self.old.held.items) }
        ensures goes { (h : Course) (n : ℕ) → after_values program.now (view_of self.old) space.now (Frame.Round iteration) (turned (context_of program.now) (iterated (code_of program.now h.world) iteration (drop iteration.base self.old.held.items)) answer) h n ≡ remaining_with program.now (view_of self.new) space.now h n }
        ensures nested { IsNested (view_of self.new) }
        ensures within { (k : Reach) → AreReached k (view_of self.old) → IsAnswerReached k answer → AreReached k (view_of self.new) }
        ensures left { self.new.left ≡ self.old.left }
        ensures size { size (view_of self.new) ≤ 3 * length self.old.frames.items + 4 + more_of answer }
    {
        let root = self.calls.running().root;
        self.pop_call();
        match answer {
            Answer::Done(value) => {
                push_within(&mut self.frames, Frame::Turned(iteration));
                self.control = Control::Give(Answer::Gave(value));
            }
            _ => {
                clear(&mut self.held, Frame::Round(iteration));
                let left = left_turn(program, space, iteration.visits, root, answer);
                self.control = Control::Give(left);
            }
        }
    }
}
