//! Calls of the program's own methods.

ghost use Rattle.std.specs.Prelude.{◌≡◌, ◌+◌, ◌*◌, ◌<◌, ◌≤◌, ℕ, ◌++◌, length, reverse, vec_capacity, None, Some, IfErr, OnOk, nat_eq, IfSome, IfOk, false, ◌∷◌, [], Option};
ghost use Rattle.rr_eval.specs.Blocks.{invocation};
ghost use Rattle.rr_eval.specs.Begun.{IsBegun};
ghost use Rattle.rr_base.specs.declared.fault.Fault.{Fault};
ghost use Rattle.rr_base.specs.declared.name.ClassId.{ClassId as ClassNumber};
ghost use Rattle.rr_frames.specs.Frames.{list_of};
ghost use Rattle.std.specs.Option.{option_map};
ghost use Rattle.rr_tree.specs.Tree.{tree_at};
ghost use Rattle.rr_space.specs.Tables.{Table, Below};
ghost use Rattle.rr_tree.specs.declared.program.Program.{Program};
ghost use Rattle.std.specs.List.{All};
ghost use Rattle.rr_eval.specs.declared.call_stack.Entry.{Entry};
ghost use Rattle.rr_eval.specs.Methods.{Runs, Reads};
ghost use Rattle.rr_eval.specs.Prepared.{method_of, callable_of, way_in};
ghost use Rattle.rr_eval.specs.Dispatch.{passed_on, run_work, run_method, valued_response, counted, write_rule};
ghost use Rattle.rr_eval.specs.Rules.{throw, framed};
ghost use Rattle.rr_eval.specs.Requests.{Course};
ghost use Rattle.rr_eval.specs.Frames.{below_of, base_of, stand_of, waits_for, Nested};
ghost use Rattle.rr_eval.specs.Turns.{context_of, IsNested, remaining_with, after_values, Stands, size, continuing, sized};
ghost use Rattle.rr_eval.specs.Views.{view_of};
ghost use Rattle.rr_eval.specs.Within.{Reach, AreReached, IsReached, IsEntryReached, IsWayReached, IsAskedReached, reach, IsCallValueReached, IsResponseReached};

use crate::call::{Arguments, Passing, Task, passed};
use crate::call_stack::{CallValue, Entry, Handed, Invocation};
use crate::engine::{Engine, push_within};
use crate::fields::read_field;
use crate::frame::{Control, Frame, clear, standing};
use crate::prepared::{Body, Definition, Work};
use crate::problem::{Problem, Response, value_by};
use crate::request::Request;
use rr_base::{ClassId, Fault, LimitKind, Sym};
use rr_builtin::Problem as BuiltInProblem;
use rr_frames::Shape;
use rr_space::{Ref, Space};
use rr_tree::NodeId;

/// How many arguments there are among these values and one more.
#[inline(always)]
pub fn count_of(passing: Passing, values: &[Ref], last: Option<Ref>) -> usize
    ensures { result ≡ length (passed_on passing (values.now ++ list_of last)) }
{
    let (values, last) = passed(passing, values, last);
    match last {
        Some(_) => values.len() + 1,
        None => values.len(),
    }
}

/// How a method of the program is called.
#[derive(Clone, Copy)]
pub struct Way {
    pub receiver: Ref,
    /// The block that it is given.
    pub handed: Handed,
    /// The node of the block that stands beside the call.
    pub block: Option<NodeId>,
    pub value: CallValue,
}

/// A call of a method that stands in a class.
#[inline(always)]
pub fn invocation(way: Way, class: ClassId, body: Body) -> Invocation
    ensures is { (p : Program) → result ≡ invocation (way_in p.nodes.items way) class (method_of p.nodes.items body) }
    ensures within { (k : Reach) → IsWayReached k way → IsEntryReached k (Entry.OfMethod result) }
{
    Invocation {
        itself: way.receiver,
        name: body.name,
        class,
        parameters: body.shape.parameters,
        block: way.handed,
        value: way.value,
    }
}

/// The problem of so many arguments where others are wanted.
pub fn wrong_count(given: usize, wanted: u32) -> Problem
    ensures { result ≡ Problem.BuiltIn (BuiltInProblem.Count given wanted wanted) }
{
    Problem::BuiltIn(BuiltInProblem::Count {
        given,
        least: wanted as usize,
        most: wanted as usize,
    })
}

/// The argument among these values and one more, where there is one alone.
pub fn single(passing: Passing, values: &[Ref], last: Option<Ref>) -> Option<Ref>
    ensures some { IfSome result (λ v. passed_on passing (values.now ++ list_of last) ≡ v ∷ []) }
    ensures none { result ≡ None → nat_eq (length (passed_on passing (values.now ++ list_of last))) 1 ≡ false }
    ensures within { (k : Reach) → All (IsReached k) values.now → All (IsReached k) (list_of last) → IfSome result (IsReached k) }
{
    match passed(passing, values, last) {
        ([], Some(value)) => Some(value),
        ([value], None) => Some(*value),
        ([], None) => None,
        ([_], Some(_)) => None,
        ([_, _, ..], _) => None,
    }
}

/// What a call comes to that reads an instance variable.
fn valued_response(by: CallValue, response: Response) -> Response
    ensures is { result ≡ valued_response by response }
    ensures within { (k : Reach) → IsCallValueReached k by → IsResponseReached k response → IsResponseReached k result }
{
    match response {
        Response::Gives(value) => Response::Gives(value_by(by, value)),
        Response::Throws(exception) => Response::Throws(exception),
        Response::Fails(problem) => Response::Fails(problem),
    }
}

/// What waits for the answer of a body that has a frame of its own.
#[inline(always)]
pub fn leaving(entry: Entry) -> Frame
    ensures { result ≡ waits_for entry }
{
    match entry {
        Entry::OfMethod(call) => Frame::Back(call.value),
        Entry::OfBlock(_) => Frame::Past,
    }
}

impl Engine {
    /// Raises an exception in the place of what is done with the values that stand for a frame.
    #[tactic(auto, unfolding(crate::specs::Within::AreReached))]
    pub fn refuse(&mut self, frame: Frame, problem: Problem)
        requires base { base_of frame ≤ length self.old.held.items }
        requires nested { Nested (reverse self.old.frames.items) (below_of frame self.old.held.items) }
        ensures goes { (p : Program) (t : Table) (h : Course) (n : ℕ) → after_values p (view_of self.old) t frame (throw (context_of p) problem) h n ≡ remaining_with p (view_of self.new) t h n }
        ensures nested { IsNested (view_of self.new) }
        ensures within { (k : Reach) → AreReached k (view_of self.old) → AreReached k (view_of self.new) }
        ensures left { self.new.left ≡ self.old.left }
        ensures begun { IsBegun self.new.control }
        ensures size { size (view_of self.new) ≤ 3 * length self.old.frames.items + 4 }
    {
        clear(&mut self.held, frame);
        self.control = Control::Throw(problem);
    }

    /// Evaluates a body in a frame of its own, whose parameters have the arguments among the values that stand for a frame and one
    /// more. A refused growth leaves all as it is.
    #[tactic(auto, unfolding(crate::specs::Within::AreReached))]
    #[inline(always)]
    pub fn enter(
        &mut self,
        frame: Frame,
        last: Option<Ref>,
        passing: Passing,
        shape: Shape,
        entry: Entry,
        block: Option<NodeId>,
        body: NodeId,
    ) -> Result<(), Fault>
        requires room { length self.old.frames.items < vec_capacity self.old.frames }
        requires base { base_of frame ≤ length self.old.held.items }
        requires nested { Nested (reverse self.old.frames.items) (below_of frame self.old.held.items) }
        ensures goes { OnOk result ((p : Program) (t : Table) (h : Course) (n : ℕ) → after_values p (view_of self.old) t frame (framed (context_of p) entry shape.parameters shape.size (passed_on passing (stand_of frame self.old.held.items ++ list_of last)) (option_map (tree_at p.nodes.items) block) (tree_at p.nodes.items body) self.old.calls) h n ≡ remaining_with p (view_of self.new) t h n) }
        ensures nested { OnOk result (IsNested (view_of self.new)) }
        ensures within { (k : Reach) → AreReached k (view_of self.old) → IsEntryReached k entry → All (IsReached k) (list_of last) → AreReached k (view_of self.new) }
        ensures left { self.new.left ≡ self.old.left }
        ensures err { (t : Table) → IfErr result (λ f. Stands (view_of self.old) (view_of self.new) t t f) }
        ensures begun { OnOk result (IsBegun self.new.control) }
        ensures size { OnOk result (size (view_of self.new) ≤ 3 * length self.old.frames.items + 4) }
        ensures room { IfErr result (λ _. length self.new.frames.items < vec_capacity self.new.frames) }
        ensures fault { IfErr result (λ f. f ≡ Fault.Memory) }
    {
        self.blocks.reserve(1)?;
        let (values, last) = passed(passing, standing(&self.held, frame), last);
        match self.calls.push(values, last, shape, entry) {
            Ok(()) => {
                push_within(&mut self.blocks, block);
                clear(&mut self.held, frame);
                push_within(&mut self.frames, leaving(entry));
                self.control = Control::Enter(body);
                Ok(())
            }
            Err(Fault::Limit(LimitKind::Frames)) => {
                self.refuse(frame, Problem::BuiltIn(BuiltInProblem::TooDeep));
                Ok(())
            }
            Err(_) => Err(Fault::Memory),
        }
    }

    /// Calls the block at a place, which stands in the frame `home`, with these values in the place of those that stand for a frame. A
    /// refused growth leaves all as it is.
    #[tactic(auto, unfolding(crate::specs::Within::AreReached))]
    pub fn enter_spread(
        &mut self,
        frame: Frame,
        values: &[Ref],
        shape: Shape,
        home: u32,
        body: NodeId,
    ) -> Result<(), Fault>
        requires room { length self.old.frames.items < vec_capacity self.old.frames }
        requires base { base_of frame ≤ length self.old.held.items }
        requires nested { Nested (reverse self.old.frames.items) (below_of frame self.old.held.items) }
        ensures goes { OnOk result ((p : Program) (t : Table) (h : Course) (n : ℕ) → after_values p (view_of self.old) t frame (framed (context_of p) (Entry.OfBlock home) shape.parameters shape.size values.now None (tree_at p.nodes.items body) self.old.calls) h n ≡ remaining_with p (view_of self.new) t h n) }
        ensures nested { OnOk result (IsNested (view_of self.new)) }
        ensures within { (k : Reach) → AreReached k (view_of self.old) → All (IsReached k) values.now → AreReached k (view_of self.new) }
        ensures left { self.new.left ≡ self.old.left }
        ensures err { (t : Table) → IfErr result (λ f. Stands (view_of self.old) (view_of self.new) t t f) }
        ensures size { OnOk result (size (view_of self.new) ≤ 3 * length self.old.frames.items + 4) }
        ensures room { IfErr result (λ _. length self.new.frames.items < vec_capacity self.new.frames) }
        ensures fault { IfErr result (λ f. f ≡ Fault.Memory) }
    {
        self.blocks.reserve(1)?;
        match self.calls.push_all(values, shape, Entry::OfBlock(home)) {
            Ok(()) => {
                push_within(&mut self.blocks, None);
                clear(&mut self.held, frame);
                push_within(&mut self.frames, Frame::Past);
                self.control = Control::Enter(body);
                Ok(())
            }
            Err(Fault::Limit(LimitKind::Frames)) => {
                self.refuse(frame, Problem::BuiltIn(BuiltInProblem::TooDeep));
                Ok(())
            }
            Err(_) => Err(Fault::Memory),
        }
    }

    /// Evaluates the statements of a method, with the arguments among the values that stand for a frame and one more, where they are
    /// as many as it has parameters. A refused growth leaves all as it is.
    #[inline(always)]
    pub fn run_body(
        &mut self,
        class: ClassId,
        body: Body,
        way: Way,
        passing: Passing,
        frame: Frame,
        last: Option<Ref>,
    ) -> Result<(), Fault>
        requires room { length self.old.frames.items < vec_capacity self.old.frames }
        requires base { base_of frame ≤ length self.old.held.items }
        requires nested { Nested (reverse self.old.frames.items) (below_of frame self.old.held.items) }
        ensures goes { OnOk result ((p : Program) (t : Table) (h : Course) (n : ℕ) → after_values p (view_of self.old) t frame (run_work (context_of p) class (Runs (method_of p.nodes.items body)) (way_in p.nodes.items way) (passed_on passing (stand_of frame self.old.held.items ++ list_of last))) h n ≡ remaining_with p (view_of self.new) t h n) }
        ensures nested { OnOk result (IsNested (view_of self.new)) }
        ensures within { (k : Reach) → AreReached k (view_of self.old) → IsWayReached k way → All (IsReached k) (list_of last) → AreReached k (view_of self.new) }
        ensures left { self.new.left ≡ self.old.left }
        ensures err { (t : Table) → IfErr result (λ f. Stands (view_of self.old) (view_of self.new) t t f) }
        ensures begun { OnOk result (IsBegun self.new.control) }
        ensures size { OnOk result (size (view_of self.new) ≤ 3 * length self.old.frames.items + 4) }
        ensures room { IfErr result (λ _. length self.new.frames.items < vec_capacity self.new.frames) }
        ensures fault { IfErr result (λ f. f ≡ Fault.Memory) }
    {
        let given = count_of(passing, standing(&self.held, frame), last);
        if given == body.shape.parameters as usize {
            let entry = Entry::OfMethod(invocation(way, class, body));
            self.enter(
                frame, last, passing, body.shape, entry, way.block, body.node,
            )
        } else {
            self.refuse(frame, wrong_count(given, body.shape.parameters));
            Ok(())
        }
    }

    /// The same, at once where that takes no memory.
    #[inline(always)]
    pub fn run_usual(
        &mut self,
        class: ClassId,
        body: Body,
        way: Way,
        passing: Passing,
        frame: Frame,
        last: Option<Ref>,
    ) -> Result<(), Fault>
        requires room { length self.old.frames.items < vec_capacity self.old.frames }
        requires base { base_of frame ≤ length self.old.held.items }
        requires nested { Nested (reverse self.old.frames.items) (below_of frame self.old.held.items) }
        ensures goes { OnOk result ((p : Program) (t : Table) (h : Course) (n : ℕ) → after_values p (view_of self.old) t frame (run_work (context_of p) class (Runs (method_of p.nodes.items body)) (way_in p.nodes.items way) (passed_on passing (stand_of frame self.old.held.items ++ list_of last))) h n ≡ remaining_with p (view_of self.new) t h n) }
        ensures nested { OnOk result (IsNested (view_of self.new)) }
        ensures within { (k : Reach) → AreReached k (view_of self.old) → IsWayReached k way → All (IsReached k) (list_of last) → AreReached k (view_of self.new) }
        ensures left { self.new.left ≡ self.old.left }
        ensures err { (t : Table) → IfErr result (λ f. Stands (view_of self.old) (view_of self.new) t t f) }
        ensures begun { OnOk result (IsBegun self.new.control) }
        ensures size { OnOk result (size (view_of self.new) ≤ 3 * length self.old.frames.items + 4) }
        ensures room { IfErr result (λ _. length self.new.frames.items < vec_capacity self.new.frames) }
        ensures fault { IfErr result (λ f. f ≡ Fault.Memory) }
    {
        if self.begin_statements(class, body, way, passing, frame, last) {
            return Ok(());
        }
        self.run_body(class, body, way, passing, frame, last)
    }

    /// Reads an instance variable of a receiver, where there are no arguments.
    #[tactic(auto, unfolding(crate::specs::Within::AreReached))]
    fn run_reader(
        &mut self,
        space: &Space,
        name: Sym,
        way: Way,
        passing: Passing,
        frame: Frame,
        last: Option<Ref>,
    )
        requires base { base_of frame ≤ length self.old.held.items }
        requires nested { Nested (reverse self.old.frames.items) (below_of frame self.old.held.items) }
        ensures goes { (p : Program) (class : ClassNumber) (h : Course) (n : ℕ) → after_values p (view_of self.old) space.now frame (run_work (context_of p) class (Reads name) (way_in p.nodes.items way) (passed_on passing (stand_of frame self.old.held.items ++ list_of last))) h n ≡ remaining_with p (view_of self.new) space.now h n }
        ensures nested { IsNested (view_of self.new) }
        ensures within { (clusters : Option Below) → AreReached (reach (length space.now.slots) clusters) (view_of self.old) → IsWayReached (reach (length space.now.slots) clusters) way → AreReached (reach (length space.now.slots) clusters) (view_of self.new) }
        ensures left { self.new.left ≡ self.old.left }
        ensures size { size (view_of self.new) ≤ 3 * length self.old.frames.items + 4 }
    {
        let given = count_of(passing, standing(&self.held, frame), last);
        if given == 0 {
            let held = read_field(space, way.receiver, name);
            clear(&mut self.held, frame);
            self.settle(valued_response(way.value, held));
        } else {
            self.refuse(frame, wrong_count(given, 0));
        }
    }

    /// Asks for an assignment to an instance variable of a receiver, where there is one argument.
    #[tactic(auto, unfolding(crate::specs::Within::AreReached))]
    fn run_writer(
        &mut self,
        name: Sym,
        receiver: Ref,
        passing: Passing,
        frame: Frame,
        last: Option<Ref>,
    ) -> Option<Request>
        requires base { base_of frame ≤ length self.old.held.items }
        requires nested { Nested (reverse self.old.frames.items) (below_of frame self.old.held.items) }
        ensures goes { (p : Program) (t : Table) (h : Course) (n : ℕ) → after_values p (view_of self.old) t frame (counted (context_of p) 1 (passed_on passing (stand_of frame self.old.held.items ++ list_of last)) (write_rule (context_of p) name receiver (passed_on passing (stand_of frame self.old.held.items ++ list_of last)))) h n ≡ continuing p (view_of self.new) t result h n }
        ensures nested { IsNested (view_of self.new) }
        ensures within { (k : Reach) → AreReached k (view_of self.old) → AreReached k (view_of self.new) }
        ensures asks { (k : Reach) → AreReached k (view_of self.old) → IsReached k receiver → All (IsReached k) (list_of last) → IsAskedReached k result }
        ensures left { self.new.left ≡ self.old.left }
        ensures size { sized result (view_of self.new) ≤ 3 * length self.old.frames.items + 4 }
    {
        let stand = standing(&self.held, frame);
        let given = count_of(passing, stand, last);
        match single(passing, stand, last) {
            Some(value) => {
                clear(&mut self.held, frame);
                let values = Arguments::Two(receiver, value);
                Some(Request::Do(Task::SetField(name), values))
            }
            None => {
                self.refuse(frame, wrong_count(given, 1));
                None
            }
        }
    }

    /// Runs a method of the program, with the arguments among the values that stand for a frame and one more. A refused growth leaves
    /// all as it is.
    #[inline(always)]
    pub fn run_method(
        &mut self,
        space: &Space,
        definition: Definition,
        way: Way,
        passing: Passing,
        frame: Frame,
        last: Option<Ref>,
    ) -> Result<Option<Request>, Fault>
        requires room { length self.old.frames.items < vec_capacity self.old.frames }
        requires base { base_of frame ≤ length self.old.held.items }
        requires nested { Nested (reverse self.old.frames.items) (below_of frame self.old.held.items) }
        ensures goes { IfOk result (λ q. (p : Program) (h : Course) (n : ℕ) → after_values p (view_of self.old) space.now frame (run_method (context_of p) (callable_of p.nodes.items definition) (way_in p.nodes.items way) (passed_on passing (stand_of frame self.old.held.items ++ list_of last))) h n ≡ continuing p (view_of self.new) space.now q h n) }
        ensures within { (clusters : Option Below) → AreReached (reach (length space.now.slots) clusters) (view_of self.old) → IsWayReached (reach (length space.now.slots) clusters) way → All (IsReached (reach (length space.now.slots) clusters)) (list_of last) → AreReached (reach (length space.now.slots) clusters) (view_of self.new) }
        ensures asks { (k : Reach) → AreReached k (view_of self.old) → IsWayReached k way → All (IsReached k) (list_of last) → IfOk result (IsAskedReached k) }
        ensures nested { OnOk result (IsNested (view_of self.new)) }
        ensures left { self.new.left ≡ self.old.left }
        ensures err { (t : Table) → IfErr result (λ f. Stands (view_of self.old) (view_of self.new) t t f) }
        ensures size { IfOk result (λ q. sized q (view_of self.new) ≤ 3 * length self.old.frames.items + 4) }
        ensures room { IfErr result (λ _. length self.new.frames.items < vec_capacity self.new.frames) }
        ensures fault { IfErr result (λ f. f ≡ Fault.Memory) }
    {
        match definition.work {
            Work::Run(body) => {
                self.run_body(definition.class, body, way, passing, frame, last)?;
                Ok(None)
            }
            Work::Read(name) => {
                self.run_reader(space, name, way, passing, frame, last);
                Ok(None)
            }
            Work::Write(name) => Ok(self.run_writer(name, way.receiver, passing, frame, last)),
            Work::Nothing => {
                self.refuse(frame, Problem::NotHere);
                Ok(None)
            }
        }
    }
}
