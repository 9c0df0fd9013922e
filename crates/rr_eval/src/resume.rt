//! What a frame does with the answer that it waits for.

ghost use Rattle.std.specs.Prelude.{◌≡◌, ◌+◌, ◌*◌, ◌<◌, ◌≤◌, ℕ, [], ◌∷◌, ◌++◌, length, reverse, take, vec_capacity, Option, IfOk, IfErr, IsTrue, IsFalse, OnOk};
ghost use Rattle.rr_base.specs.declared.fault.Fault.{Fault};
ghost use Rattle.rr_space.specs.Tables.{Table, Below};
ghost use Rattle.rr_tree.specs.declared.program.Program.{Program};
ghost use Rattle.rr_eval.specs.declared.asking.Asking.{Asking};
ghost use Rattle.rr_eval.specs.declared.problem.Answer.{Answer};
ghost use Rattle.rr_eval.specs.declared.frame.Control.{Control};
ghost use Rattle.rr_eval.specs.declared.frame.Frame.{Frame};
ghost use Rattle.rr_eval.specs.declared.iterating.Iterating.{Iterating};
ghost use Rattle.rr_eval.specs.Rules.{operation, finish};
ghost use Rattle.rr_eval.specs.Requests.{Course, arguments_of};
ghost use Rattle.rr_eval.specs.Speaking.{request};
ghost use Rattle.rr_eval.specs.Frames.{resumed, runs_in, below_of, base_of, stand_of, unwind, Nested, IsRareFrame};
ghost use Rattle.rr_eval.specs.Turns.{context_of, code_of, state_of, remaining, IsNested, after_script, after_answer, remaining_with, continuing, Stands, size, sized};
ghost use Rattle.rr_eval.specs.Views.{view_of};
ghost use Rattle.rr_eval.specs.Within.{Reach, reach, IsReached, IsFrameReached, IsAskedReached, AreReached};

use crate::call::{Target, Task, arguments_of};
use crate::call_stack::Variable;
use crate::engine::{Engine, push_within};
use crate::frame::{Control, Frame, clear, standing};
use crate::prepared::Prepared;
use crate::problem::Answer;
use crate::request::Request;
use crate::value::goes_on;
use rr_base::Fault;
use rr_builtin::is_truthy;
use rr_space::{Ref, Space};
use rr_tree::{BinaryOperator, NodeId, Program};

impl Engine {
    /// An operator on an integer and its right operand, where that is an integer that needs no frame and the steps do not stop
    /// before.
    #[inline(always)]
    fn operate_quick(
        &mut self,
        prepared: &Prepared,
        space: &Space,
        op: BinaryOperator,
        left: Ref,
        b: NodeId,
        stop: u64,
    ) -> bool
        requires nested { IsNested (view_of self.old) }
        requires within { stop ≤ self.old.left }
        ensures goes { IsTrue result → (h : Course) → after_answer prepared.now.program (view_of self.old) space.now (Frame.Left op b) (Answer.Gave left) h self.old.left ≡ remaining prepared.now.program (view_of self.new) space.now h }
        ensures nested { IsNested (view_of self.new) }
        ensures within { (clusters : Option Below) → AreReached (reach (length space.now.slots) clusters) (view_of self.old) → AreReached (reach (length space.now.slots) clusters) (view_of self.new) }
        ensures left { stop ≤ self.new.left }
        ensures kept { self.new.left ≤ self.old.left }
        ensures size { IsTrue result → size (view_of self.new) ≤ 3 * length self.old.frames.items + 4 }
        ensures same { IsFalse result → self.new ≡ self.old }
    {
        if let Ref::Int(x) = left
            && let Some(found) = self.quick_soon(prepared, space, b, stop)
            && let Ref::Int(y) = found.value
        {
            self.left -= found.steps;
            self.compute(op, x, y);
            return true;
        }
        false
    }

    /// An operator on two values, where they are integers.
    #[inline(always)]
    pub fn operate_integers(&mut self, op: BinaryOperator, left: Ref, right: Ref) -> bool
        requires nested { IsNested (view_of self.old) }
        ensures goes { IsTrue result → (p : Program) (t : Table) (h : Course) (n : ℕ) → after_script p (view_of self.old) t (operation (context_of p) op left right) h n ≡ remaining_with p (view_of self.new) t h n }
        ensures nested { IsNested (view_of self.new) }
        ensures within { (k : Reach) → AreReached k (view_of self.old) → AreReached k (view_of self.new) }
        ensures left { self.new.left ≡ self.old.left }
        ensures size { IsTrue result → size (view_of self.new) ≤ 3 * length self.old.frames.items + 4 }
        ensures same { IsFalse result → self.new ≡ self.old }
    {
        match (left, right) {
            (Ref::Int(x), Ref::Int(y)) => {
                self.compute(op, x, y);
                true
            }
            _ => false,
        }
    }

    /// Goes on with the body of a loop, or behind the loop, by the value of its condition.
    #[tactic(auto, unfolding(crate::specs::Within::AreReached))]
    #[inline(always)]
    pub fn go_round(&mut self, until: bool, body: NodeId, place: NodeId, condition: Ref)
        requires room { length self.old.frames.items < vec_capacity self.old.frames }
        requires nested { IsNested (view_of self.old) }
        ensures goes { (p : Program) (t : Table) (h : Course) (n : ℕ) → after_script p (view_of self.old) t (resumed (code_of p h.world) (Frame.Condition until body place) [] (Answer.Gave condition)) h n ≡ remaining_with p (view_of self.new) t h n }
        ensures nested { IsNested (view_of self.new) }
        ensures within { (k : Reach) → AreReached k (view_of self.old) → AreReached k (view_of self.new) }
        ensures left { self.new.left ≡ self.old.left }
        ensures size { size (view_of self.new) ≤ 3 * length self.old.frames.items + 4 }
    {
        if goes_on(until, condition) {
            self.enter_above(Frame::Body(place), body);
        } else {
            self.control = Control::Give(Answer::Gave(Ref::Nil));
        }
    }

    /// Goes on behind the left operand of an operator: at once, where the right one needs no frame and both are integers.
    #[tactic(auto, unfolding(crate::specs::Within::AreReached))]
    #[inline(always)]
    pub fn operate_left(
        &mut self,
        prepared: &Prepared,
        space: &Space,
        op: BinaryOperator,
        left: Ref,
        b: NodeId,
        stop: u64,
    )
        requires room { length self.old.frames.items < vec_capacity self.old.frames }
        requires nested { IsNested (view_of self.old) }
        requires within { stop ≤ self.old.left }
        ensures goes { (h : Course) → after_answer prepared.now.program (view_of self.old) space.now (Frame.Left op b) (Answer.Gave left) h self.old.left ≡ remaining prepared.now.program (view_of self.new) space.now h }
        ensures nested { IsNested (view_of self.new) }
        ensures within { (clusters : Option Below) → AreReached (reach (length space.now.slots) clusters) (view_of self.old) → IsReached (reach (length space.now.slots) clusters) left → AreReached (reach (length space.now.slots) clusters) (view_of self.new) }
        ensures left { stop ≤ self.new.left }
        ensures kept { self.new.left ≤ self.old.left }
        ensures size { size (view_of self.new) ≤ 3 * length self.old.frames.items + 4 }
    {
        if !self.operate_quick(prepared, space, op, left, b, stop) {
            self.enter_above(Frame::Right(op, left), b);
        }
    }

    /// Assigns to a local variable.
    #[tactic(auto, unfolding(crate::specs::Within::AreReached))]
    #[inline(always)]
    pub fn store(&mut self, variable: Variable, value: Ref)
        requires nested { IsNested (view_of self.old) }
        ensures goes { (p : Program) (t : Table) (h : Course) (n : ℕ) → after_answer p (view_of self.old) t (Frame.Store variable) (Answer.Gave value) h n ≡ remaining_with p (view_of self.new) t h n }
        ensures nested { IsNested (view_of self.new) }
        ensures within { (k : Reach) → AreReached k (view_of self.old) → IsReached k value → AreReached k (view_of self.new) }
        ensures left { self.new.left ≡ self.old.left }
        ensures size { size (view_of self.new) ≤ 3 * length self.old.frames.items + 4 }
    {
        self.calls.write(variable, value);
        self.give_top(value);
    }

    /// Goes on with one part of a choice, by the value of its condition.
    #[tactic(auto, unfolding(crate::specs::Within::AreReached))]
    #[inline(always)]
    pub fn take_branch(&mut self, yes: NodeId, no: NodeId, condition: Ref)
        requires nested { IsNested (view_of self.old) }
        ensures goes { (p : Program) (t : Table) (h : Course) (n : ℕ) → after_answer p (view_of self.old) t (Frame.Branch yes no) (Answer.Gave condition) h n ≡ remaining_with p (view_of self.new) t h n }
        ensures nested { IsNested (view_of self.new) }
        ensures within { (k : Reach) → AreReached k (view_of self.old) → AreReached k (view_of self.new) }
        ensures left { self.new.left ≡ self.old.left }
        ensures size { size (view_of self.new) ≤ 3 * length self.old.frames.items + 4 }
    {
        self.control
            .enter(if is_truthy(condition) { yes } else { no });
    }

    /// Evaluates the right operand of `&&`, where the left one is true.
    #[tactic(auto, unfolding(crate::specs::Within::AreReached))]
    #[inline(always)]
    fn and_then(&mut self, b: NodeId, value: Ref)
        requires nested { IsNested (view_of self.old) }
        ensures goes { (p : Program) (t : Table) (h : Course) (n : ℕ) → after_answer p (view_of self.old) t (Frame.And b) (Answer.Gave value) h n ≡ remaining_with p (view_of self.new) t h n }
        ensures nested { IsNested (view_of self.new) }
        ensures within { (k : Reach) → AreReached k (view_of self.old) → IsReached k value → AreReached k (view_of self.new) }
        ensures left { self.new.left ≡ self.old.left }
        ensures size { size (view_of self.new) ≤ 3 * length self.old.frames.items + 4 }
    {
        self.control = if is_truthy(value) {
            Control::Enter(b)
        } else {
            Control::Give(Answer::Gave(value))
        };
    }

    /// Evaluates the right operand of `||`, where the left one is not true.
    #[tactic(auto, unfolding(crate::specs::Within::AreReached))]
    #[inline(always)]
    fn or_else(&mut self, b: NodeId, value: Ref)
        requires nested { IsNested (view_of self.old) }
        ensures goes { (p : Program) (t : Table) (h : Course) (n : ℕ) → after_answer p (view_of self.old) t (Frame.Or b) (Answer.Gave value) h n ≡ remaining_with p (view_of self.new) t h n }
        ensures nested { IsNested (view_of self.new) }
        ensures within { (k : Reach) → AreReached k (view_of self.old) → IsReached k value → AreReached k (view_of self.new) }
        ensures left { self.new.left ≡ self.old.left }
        ensures size { size (view_of self.new) ≤ 3 * length self.old.frames.items + 4 }
    {
        self.control = if is_truthy(value) {
            Control::Give(Answer::Gave(value))
        } else {
            Control::Enter(b)
        };
    }

    /// Does what a frame, which is taken off the stack, does with a value, unless that needs the objects or memory.
    #[tactic(auto, unfolding(crate::specs::Within::AreReached))]
    #[inline(always)]
    pub fn resume(
        &mut self,
        prepared: &Prepared,
        space: &Space,
        frame: Frame,
        value: Ref,
        stop: u64,
    ) -> bool
        requires room { length self.old.frames.items < vec_capacity self.old.frames }
        requires base { base_of frame ≤ length self.old.held.items }
        requires nested { Nested (reverse self.old.frames.items) (below_of frame self.old.held.items) }
        requires within { stop ≤ self.old.left }
        ensures goes { IsTrue result → (h : Course) → after_answer prepared.now.program (view_of self.old) space.now frame (Answer.Gave value) h self.old.left ≡ remaining prepared.now.program (view_of self.new) space.now h }
        ensures nested { IsTrue result → IsNested (view_of self.new) }
        ensures within { (clusters : Option Below) → AreReached (reach (length space.now.slots) clusters) (view_of self.old) → IsFrameReached (reach (length space.now.slots) clusters) frame → IsReached (reach (length space.now.slots) clusters) value → AreReached (reach (length space.now.slots) clusters) (view_of self.new) }
        ensures left { stop ≤ self.new.left }
        ensures kept { self.new.left ≤ self.old.left }
        ensures size { IsTrue result → size (view_of self.new) ≤ 3 * length self.old.frames.items + 4 }
        ensures same { IsFalse result → self.new ≡ self.old }
        ensures rare { IsFalse result → IsRareFrame frame }
    {
        match frame {
            Frame::Left(op, b) => self.operate_left(prepared, space, op, value, b, stop),
            Frame::Right(op, left) => return self.operate_integers(op, left, value),
            Frame::Store(variable) => self.store(variable, value),
            Frame::Branch(yes, no) => self.take_branch(yes, no, value),
            Frame::And(b) => self.and_then(b, value),
            Frame::Or(b) => self.or_else(b, value),
            Frame::Not => self.answer(Answer::Gave(Ref::truth(!is_truthy(value)))),
            Frame::Condition(until, body, place) => self.go_round(until, body, place, value),
            Frame::Body(place) => self.control = Control::Enter(place),
            Frame::Rest(end, count) => self.begin(end, count),
            Frame::Break => self.answer(Answer::Broke(value)),
            Frame::Next => self.answer(Answer::Done(value)),
            Frame::Return => self.leave_method(value),
            Frame::Back(by) => self.end_method(by, value),
            Frame::Past => self.end_block(value),
            _ => return false,
        }
        true
    }

    /// Keeps the value of an argument and evaluates the next one.
    #[tactic(auto, unfolding(crate::specs::Within::AreReached))]
    #[inline(always)]
    fn keep(
        &mut self,
        target: Target,
        end: NodeId,
        count: u32,
        base: usize,
        value: Ref,
    ) -> Result<Option<Request>, Fault>
        requires room { length self.old.frames.items < vec_capacity self.old.frames }
        requires some { 0 < count }
        requires base { base ≤ length self.old.held.items }
        requires nested { Nested (reverse self.old.frames.items) (take base self.old.held.items) }
        ensures goes { IfOk result (λ q. (p : Program) (t : Table) (h : Course) (n : ℕ) → after_answer p (view_of self.old) t (Frame.Argument target end count base) (Answer.Gave value) h n ≡ continuing p (view_of self.new) t q h n) }
        ensures nested { OnOk result (IsNested (view_of self.new)) }
        ensures within { (k : Reach) → AreReached k (view_of self.old) → IsReached k value → AreReached k (view_of self.new) }
        ensures asks { (k : Reach) → IfOk result (IsAskedReached k) }
        ensures left { self.new.left ≡ self.old.left }
        ensures err { (t : Table) → IfErr result (λ f. Stands (view_of self.old) (view_of self.new) t t f) }
        ensures size { IfOk result (λ q. sized q (view_of self.new) ≤ 3 * length self.old.frames.items + 4) }
        ensures room { IfErr result (λ _. length self.new.frames.items < vec_capacity self.new.frames) }
        ensures fault { IfErr result (λ f. f ≡ Fault.Memory) }
    {
        self.held.push(value)?;
        push_within(
            &mut self.frames,
            Frame::Argument(target, end, count - 1, base),
        );
        self.control = Control::Enter(end.saturating_sub(count));
        Ok(None)
    }

    /// Asks for a task with the values that stand for a frame, and with one more.
    #[tactic(auto, unfolding(crate::specs::Within::AreReached))]
    pub fn ask(&mut self, task: Task, frame: Frame, value: Ref) -> Result<Option<Request>, Fault>
        requires room { length self.old.frames.items < vec_capacity self.old.frames }
        requires base { base_of frame ≤ length self.old.held.items }
        requires nested { Nested (reverse self.old.frames.items) (below_of frame self.old.held.items) }
        ensures goes { IfOk result (λ q. (p : Program) (t : Table) (h : Course) (n : ℕ) → unwind (code_of p h.world) (reverse self.old.frames.items) (below_of frame self.old.held.items) (runs_in (code_of p h.world) (request (context_of p) task (stand_of frame self.old.held.items ++ value ∷ [])) (state_of p (view_of self.old) t h) n) ≡ continuing p (view_of self.new) t q h n) }
        ensures nested { OnOk result (IsNested (view_of self.new)) }
        ensures within { (k : Reach) → AreReached k (view_of self.old) → AreReached k (view_of self.new) }
        ensures asks { (k : Reach) → AreReached k (view_of self.old) → IsReached k value → IfOk result (IsAskedReached k) }
        ensures left { self.new.left ≡ self.old.left }
        ensures err { (t : Table) → IfErr result (λ f. Stands (view_of self.old) (view_of self.new) t t f) }
        ensures size { IfOk result (λ q. sized q (view_of self.new) ≤ 3 * length self.old.frames.items + 4) }
        ensures room { IfErr result (λ _. length self.new.frames.items < vec_capacity self.new.frames) }
        ensures fault { IfErr result (λ f. f ≡ Fault.Memory) }
    {
        let values = arguments_of(self.alloc, standing(&self.held, frame), value)?;
        clear(&mut self.held, frame);
        Ok(Some(Request::Do(task, values)))
    }

    /// Does what is done with the values that stand for a frame and with one more.
    pub fn finish(
        &mut self,
        prepared: &Prepared,
        space: &Space,
        target: Target,
        frame: Frame,
        value: Ref,
    ) -> Result<Option<Request>, Fault>
        requires room { length self.old.frames.items < vec_capacity self.old.frames }
        requires base { base_of frame ≤ length self.old.held.items }
        requires nested { Nested (reverse self.old.frames.items) (below_of frame self.old.held.items) }
        ensures goes { IfOk result (λ q. (h : Course) (n : ℕ) → unwind (code_of prepared.now.program h.world) (reverse self.old.frames.items) (below_of frame self.old.held.items) (runs_in (code_of prepared.now.program h.world) (finish (context_of prepared.now.program) target (stand_of frame self.old.held.items ++ value ∷ [])) (state_of prepared.now.program (view_of self.old) space.now h) n) ≡ continuing prepared.now.program (view_of self.new) space.now q h n) }
        ensures nested { OnOk result (IsNested (view_of self.new)) }
        ensures within { (clusters : Option Below) → AreReached (reach (length space.now.slots) clusters) (view_of self.old) → IsReached (reach (length space.now.slots) clusters) value → AreReached (reach (length space.now.slots) clusters) (view_of self.new) }
        ensures asks { (clusters : Option Below) → AreReached (reach (length space.now.slots) clusters) (view_of self.old) → IsReached (reach (length space.now.slots) clusters) value → IfOk result (IsAskedReached (reach (length space.now.slots) clusters)) }
        ensures left { self.new.left ≡ self.old.left }
        ensures err { (t : Table) → IfErr result (λ f. Stands (view_of self.old) (view_of self.new) t t f) }
        ensures size { IfOk result (λ q. sized q (view_of self.new) ≤ 3 * length self.old.frames.items + 4) }
        ensures room { IfErr result (λ _. length self.new.frames.items < vec_capacity self.new.frames) }
        ensures fault { IfErr result (λ f. f ≡ Fault.Memory) }
    {
        match target {
            Target::Do(task) => self.finish_task(prepared, space, task, frame, value),
            Target::Call(callee) => self.call_first(prepared, space, callee, frame, value),
            Target::Update(getter, setter, how, part) => {
                self.finish_access(getter, setter, how, part, frame, value)
            }
            Target::Own(name, block) => {
                self.send_itself(prepared, space, name, block, frame, Some(value))
            }
            Target::Super => self.send_super(prepared, space, frame, Some(value)),
            Target::Yield => {
                match self.yield_values(&prepared.program, space, frame, Some(value)) {
                    Ok(()) => Ok(None),
                    Err(fault) => Err(fault),
                }
            }
            Target::Raise => self.raise_first(prepared, space, frame, value),
            Target::Iterate(name, block) => {
                self.send_block(prepared, space, name, block, frame, value)
            }
        }
    }

    /// Goes on with the values for a target.
    #[inline(always)]
    fn resume_values(
        &mut self,
        prepared: &Prepared,
        space: &Space,
        target: Target,
        end: NodeId,
        count: u32,
        base: usize,
        value: Ref,
    ) -> Result<Option<Request>, Fault>
        requires room { length self.old.frames.items < vec_capacity self.old.frames }
        requires base { base ≤ length self.old.held.items }
        requires nested { Nested (reverse self.old.frames.items) (take base self.old.held.items) }
        ensures goes { IfOk result (λ q. (h : Course) (n : ℕ) → after_answer prepared.now.program (view_of self.old) space.now (Frame.Argument target end count base) (Answer.Gave value) h n ≡ continuing prepared.now.program (view_of self.new) space.now q h n) }
        ensures nested { OnOk result (IsNested (view_of self.new)) }
        ensures within { (clusters : Option Below) → AreReached (reach (length space.now.slots) clusters) (view_of self.old) → IsReached (reach (length space.now.slots) clusters) value → AreReached (reach (length space.now.slots) clusters) (view_of self.new) }
        ensures asks { (clusters : Option Below) → AreReached (reach (length space.now.slots) clusters) (view_of self.old) → IsReached (reach (length space.now.slots) clusters) value → IfOk result (IsAskedReached (reach (length space.now.slots) clusters)) }
        ensures left { self.new.left ≡ self.old.left }
        ensures err { (t : Table) → IfErr result (λ f. Stands (view_of self.old) (view_of self.new) t t f) }
        ensures size { IfOk result (λ q. sized q (view_of self.new) ≤ 3 * length self.old.frames.items + 4) }
        ensures room { IfErr result (λ _. length self.new.frames.items < vec_capacity self.new.frames) }
        ensures fault { IfErr result (λ f. f ≡ Fault.Memory) }
    {
        match count {
            0 => self.finish(
                prepared,
                space,
                target,
                Frame::Argument(target, end, 0, base),
                value,
            ),
            _ => self.keep(target, end, count, base, value),
        }
    }

    /// Does what a frame does with a value, where that needs the objects or memory.
    #[inline(always)]
    pub fn resume_value(
        &mut self,
        prepared: &Prepared,
        space: &Space,
        frame: Frame,
        value: Ref,
    ) -> Result<Option<Request>, Fault>
        requires room { length self.old.frames.items < vec_capacity self.old.frames }
        requires base { base_of frame ≤ length self.old.held.items }
        requires nested { Nested (reverse self.old.frames.items) (below_of frame self.old.held.items) }
        requires rare { IsRareFrame frame }
        requires inside { (i : Iterating) → frame ≡ Frame.Round i → ⊥ }
        requires whole { (target : Target) (end count base : ℕ) → frame ≡ Frame.Item target end count base → ⊥ }
        requires unasked { (asking : Asking) → frame ≡ Frame.Asking asking → ⊥ }
        ensures goes { IfOk result (λ q. (h : Course) (n : ℕ) → after_answer prepared.now.program (view_of self.old) space.now frame (Answer.Gave value) h n ≡ continuing prepared.now.program (view_of self.new) space.now q h n) }
        ensures nested { OnOk result (IsNested (view_of self.new)) }
        ensures within { (clusters : Option Below) → AreReached (reach (length space.now.slots) clusters) (view_of self.old) → IsFrameReached (reach (length space.now.slots) clusters) frame → IsReached (reach (length space.now.slots) clusters) value → AreReached (reach (length space.now.slots) clusters) (view_of self.new) }
        ensures asks { (clusters : Option Below) → AreReached (reach (length space.now.slots) clusters) (view_of self.old) → IsFrameReached (reach (length space.now.slots) clusters) frame → IsReached (reach (length space.now.slots) clusters) value → IfOk result (IsAskedReached (reach (length space.now.slots) clusters)) }
        ensures left { self.new.left ≡ self.old.left }
        ensures err { (t : Table) → IfErr result (λ f. Stands (view_of self.old) (view_of self.new) t t f) }
        ensures size { IfOk result (λ q. sized q (view_of self.new) ≤ 3 * length self.old.frames.items + 4) }
        ensures room { IfErr result (λ _. length self.new.frames.items < vec_capacity self.new.frames) }
        ensures fault { IfErr result (λ f. f ≡ Fault.Memory) }
    {
        match frame {
            Frame::Negation => self.negate(prepared, space, value),
            Frame::Right(op, left) => self.operate(prepared, space, op, left, value),
            Frame::SetField(name) => Ok(Some(self.ask_field(name, value))),
            Frame::Argument(target, end, count, base) => {
                self.resume_values(prepared, space, target, end, count, base, value)
            }
            Frame::Receiver(target, end, count, base) => {
                self.resume_receiver(prepared, space, target, end, count, base, value)
            }
            Frame::Key(next, end, count, base) => self.keep_key(next, end, count, base, value),
            Frame::Value(end, count, base) => {
                self.resume_pairs(&prepared.program, end, count, base, value)
            }
            Frame::Asked(asking) => self.resume_asked(prepared, space, asking, value),
            Frame::Element(index, end) => self.keep_receiver(index, end, value),
            Frame::Put(place, base) => self.resume_put(prepared, space, place, base, value),
            Frame::Turned(iteration) => {
                self.resume_turned(&prepared.program, space, iteration, value)
            }
            _ => {
                self.resume_alone(prepared, space, frame, value)?;
                Ok(None)
            }
        }
    }
}
