//! What a turn does most: acts that need neither memory nor the objects, one after the other.

ghost use Rattle.std.specs.Prelude.{◌≡◌, ◌+◌, ◌*◌, ◌<◌, ◌≤◌, ℕ, length, reverse, vec_capacity, Option, IsTrue, IsFalse};
ghost use Rattle.rr_space.specs.Tables.{Table, Below};
ghost use Rattle.rr_tree.specs.declared.program.Program.{Program};
ghost use Rattle.rr_eval.specs.declared.frame.Control.{Control};
ghost use Rattle.rr_eval.specs.declared.frame.Frame.{Frame};
ghost use Rattle.rr_eval.specs.declared.problem.Answer.{Answer};
ghost use Rattle.rr_eval.specs.Frames.{below_of, base_of, Nested, IsRareFrame, IsQuietFrame};
ghost use Rattle.rr_eval.specs.Requests.{Course};
ghost use Rattle.rr_eval.specs.Turns.{IsNested, remaining, remaining_with, after_answer, more_of, power, size};
ghost use Rattle.rr_eval.specs.Usual.{IsTop};
ghost use Rattle.rr_eval.specs.Views.{view_of};
ghost use Rattle.rr_eval.specs.Within.{Reach, reach, IsFrameReached, IsAnswerReached, AreReached};

use crate::call_stack::{CallValue, Variable};
use crate::engine::Engine;
use crate::frame::{Control, Frame};
use crate::iterating::Visits;
use crate::prepared::Prepared;
use crate::problem::Answer;
use rr_builtin::Iteration;
use rr_space::{Ref, Space};
use rr_tree::{BinaryOperator, NodeId, Program};

impl Engine {
    /// Takes the topmost frame, which is this one and gets an answer, off the stack.
    #[tactic(auto, unfolding(crate::specs::Within::AreReached))]
    #[inline(always)]
    pub fn drop_top(&mut self, frame: Frame, answer: Answer)
        requires top { IsTop self.old.frames.items frame }
        requires nested { IsNested (view_of self.old) }
        ensures goes { (p : Program) (t : Table) (h : Course) (n : ℕ) → remaining_with p (record (view_of self.old) { control = Control.Give answer }) t h n ≡ after_answer p (view_of self.new) t frame answer h n }
        ensures nested { Nested (reverse self.new.frames.items) (below_of frame self.new.held.items) }
        ensures held { self.new.held ≡ self.old.held }
        ensures base { base_of frame ≤ length self.new.held.items }
        ensures within { (k : Reach) → AreReached k (view_of self.old) → AreReached k (view_of self.new) }
        ensures frame { (k : Reach) → AreReached k (view_of self.old) → IsFrameReached k frame }
        ensures room { length self.new.frames.items < vec_capacity self.new.frames }
        ensures size { 3 * length self.new.frames.items + 3 ≡ 3 * length self.old.frames.items }
        ensures control { self.new.control ≡ self.old.control }
        ensures left { self.new.left ≡ self.old.left }
    {
        let rest = self.frames.len().saturating_sub(1);
        self.frames.truncate(rest);
    }

    /// Takes the topmost frame, which is this one, off the stack.
    #[tactic(auto, unfolding(crate::specs::Within::AreReached))]
    #[inline(always)]
    pub fn take_top(&mut self, frame: Frame, answer: Answer)
        requires control { self.old.control ≡ Control.Give answer }
        requires top { IsTop self.old.frames.items frame }
        requires nested { IsNested (view_of self.old) }
        ensures goes { (p : Program) (t : Table) (h : Course) → remaining p (view_of self.old) t h ≡ after_answer p (view_of self.new) t frame answer h self.new.left }
        ensures nested { Nested (reverse self.new.frames.items) (below_of frame self.new.held.items) }
        ensures held { self.new.held ≡ self.old.held }
        ensures base { base_of frame ≤ length self.new.held.items }
        ensures within { (k : Reach) → AreReached k (view_of self.old) → AreReached k (view_of self.new) }
        ensures frame { (k : Reach) → AreReached k (view_of self.old) → IsFrameReached k frame }
        ensures given { (k : Reach) → AreReached k (view_of self.old) → IsAnswerReached k answer }
        ensures room { length self.new.frames.items < vec_capacity self.new.frames }
        ensures size { size (view_of self.old) ≡ 3 * length self.new.frames.items + 5 + more_of answer }
        ensures control { self.new.control ≡ self.old.control }
        ensures left { self.new.left ≡ self.old.left }
    {
        self.drop_top(frame, answer);
    }

    /// Goes on behind the left operand of an operator.
    #[inline(always)]
    fn resume_left(
        &mut self,
        prepared: &Prepared,
        space: &Space,
        op: BinaryOperator,
        b: NodeId,
        value: Ref,
        stop: u64,
    )
        requires control { self.old.control ≡ Control.Give (Answer.Gave value) }
        requires top { IsTop self.old.frames.items (Frame.Left op b) }
        requires nested { IsNested (view_of self.old) }
        requires within { stop ≤ self.old.left }
        ensures goes { (h : Course) → remaining prepared.now.program (view_of self.old) space.now h ≡ remaining prepared.now.program (view_of self.new) space.now h }
        ensures nested { IsNested (view_of self.new) }
        ensures within { (clusters : Option Below) → AreReached (reach (length space.now.slots) clusters) (view_of self.old) → AreReached (reach (length space.now.slots) clusters) (view_of self.new) }
        ensures left { stop ≤ self.new.left }
        ensures kept { self.new.left ≤ self.old.left }
        ensures falls { size (view_of self.new) < size (view_of self.old) }
    {
        self.take_top(Frame::Left(op, b), Answer::Gave(value));
        self.operate_left(prepared, space, op, value, b, stop);
    }

    /// Does an operation on two integers.
    #[inline(always)]
    fn resume_right(&mut self, op: BinaryOperator, left: Ref, value: Ref) -> bool
        requires control { self.old.control ≡ Control.Give (Answer.Gave value) }
        requires top { IsTop self.old.frames.items (Frame.Right op left) }
        requires nested { IsNested (view_of self.old) }
        ensures goes { (p : Program) (t : Table) (h : Course) → remaining p (view_of self.old) t h ≡ remaining p (view_of self.new) t h }
        ensures nested { IsNested (view_of self.new) }
        ensures within { (k : Reach) → AreReached k (view_of self.old) → AreReached k (view_of self.new) }
        ensures left { self.new.left ≡ self.old.left }
        ensures falls { IsTrue result → size (view_of self.new) < size (view_of self.old) }
        ensures same { IsFalse result → self.new ≡ self.old }
    {
        match (left, value) {
            (Ref::Int(x), Ref::Int(y)) => {
                self.take_top(Frame::Right(op, left), Answer::Gave(value));
                self.compute(op, x, y);
                true
            }
            _ => false,
        }
    }

    /// Assigns to a local variable.
    #[inline(always)]
    fn resume_store(&mut self, variable: Variable, value: Ref)
        requires control { self.old.control ≡ Control.Give (Answer.Gave value) }
        requires top { IsTop self.old.frames.items (Frame.Store variable) }
        requires nested { IsNested (view_of self.old) }
        ensures goes { (p : Program) (t : Table) (h : Course) → remaining p (view_of self.old) t h ≡ remaining p (view_of self.new) t h }
        ensures nested { IsNested (view_of self.new) }
        ensures within { (k : Reach) → AreReached k (view_of self.old) → AreReached k (view_of self.new) }
        ensures left { self.new.left ≡ self.old.left }
        ensures falls { size (view_of self.new) < size (view_of self.old) }
    {
        self.take_top(Frame::Store(variable), Answer::Gave(value));
        self.store(variable, value);
    }

    /// Goes on with one part of a choice.
    #[inline(always)]
    fn resume_branch(&mut self, yes: NodeId, no: NodeId, value: Ref)
        requires control { self.old.control ≡ Control.Give (Answer.Gave value) }
        requires top { IsTop self.old.frames.items (Frame.Branch yes no) }
        requires nested { IsNested (view_of self.old) }
        ensures goes { (p : Program) (t : Table) (h : Course) → remaining p (view_of self.old) t h ≡ remaining p (view_of self.new) t h }
        ensures nested { IsNested (view_of self.new) }
        ensures within { (k : Reach) → AreReached k (view_of self.old) → AreReached k (view_of self.new) }
        ensures left { self.new.left ≡ self.old.left }
        ensures falls { size (view_of self.new) < size (view_of self.old) }
    {
        self.take_top(Frame::Branch(yes, no), Answer::Gave(value));
        self.take_branch(yes, no, value);
    }

    /// Goes on behind the condition of a loop.
    #[inline(always)]
    fn resume_condition(&mut self, until: bool, body: NodeId, here: NodeId, value: Ref)
        requires control { self.old.control ≡ Control.Give (Answer.Gave value) }
        requires top { IsTop self.old.frames.items (Frame.Condition until body here) }
        requires nested { IsNested (view_of self.old) }
        ensures goes { (p : Program) (t : Table) (h : Course) → remaining p (view_of self.old) t h ≡ remaining p (view_of self.new) t h }
        ensures nested { IsNested (view_of self.new) }
        ensures within { (k : Reach) → AreReached k (view_of self.old) → AreReached k (view_of self.new) }
        ensures left { self.new.left ≡ self.old.left }
        ensures falls { size (view_of self.new) < size (view_of self.old) }
    {
        self.take_top(Frame::Condition(until, body, here), Answer::Gave(value));
        self.go_round(until, body, here, value);
    }

    /// Goes on behind the body of a loop, with its condition at once where the steps do not stop before.
    #[inline(always)]
    fn resume_body(
        &mut self,
        prepared: &Prepared,
        space: &Space,
        here: NodeId,
        value: Ref,
        stop: u64,
    )
        requires control { self.old.control ≡ Control.Give (Answer.Gave value) }
        requires top { IsTop self.old.frames.items (Frame.Body here) }
        requires nested { IsNested (view_of self.old) }
        requires within { stop ≤ self.old.left }
        ensures goes { (h : Course) → remaining prepared.now.program (view_of self.old) space.now h ≡ remaining prepared.now.program (view_of self.new) space.now h }
        ensures nested { IsNested (view_of self.new) }
        ensures within { (clusters : Option Below) → AreReached (reach (length space.now.slots) clusters) (view_of self.old) → AreReached (reach (length space.now.slots) clusters) (view_of self.new) }
        ensures left { stop ≤ self.new.left }
        ensures kept { self.new.left ≤ self.old.left }
        ensures falls { size (view_of self.new) < size (view_of self.old) }
    {
        self.take_top(Frame::Body(here), Answer::Gave(value));
        self.control.enter(here);
        // A loop whose rounds need no frames is begun again as a whole.
        if prepared.straight_from(here).is_some() && self.is_promising(prepared, here) {
            return;
        }
        if self.left > stop {
            self.visit_again(prepared, space, here, stop);
        }
    }

    /// Ends a method.
    #[inline(always)]
    fn resume_back(&mut self, by: CallValue, value: Ref)
        requires control { self.old.control ≡ Control.Give (Answer.Gave value) }
        requires top { IsTop self.old.frames.items (Frame.Back by) }
        requires nested { IsNested (view_of self.old) }
        ensures goes { (p : Program) (t : Table) (h : Course) → remaining p (view_of self.old) t h ≡ remaining p (view_of self.new) t h }
        ensures nested { IsNested (view_of self.new) }
        ensures within { (k : Reach) → AreReached k (view_of self.old) → AreReached k (view_of self.new) }
        ensures left { self.new.left ≡ self.old.left }
        ensures falls { size (view_of self.new) < size (view_of self.old) }
    {
        self.take_top(Frame::Back(by), Answer::Gave(value));
        self.end_method(by, value);
    }

    /// Leaves a method by a `return`.
    #[inline(always)]
    fn resume_return(&mut self, value: Ref)
        requires control { self.old.control ≡ Control.Give (Answer.Gave value) }
        requires top { IsTop self.old.frames.items (Frame.Return) }
        requires nested { IsNested (view_of self.old) }
        ensures goes { (p : Program) (t : Table) (h : Course) → remaining p (view_of self.old) t h ≡ remaining p (view_of self.new) t h }
        ensures nested { IsNested (view_of self.new) }
        ensures within { (k : Reach) → AreReached k (view_of self.old) → AreReached k (view_of self.new) }
        ensures left { self.new.left ≡ self.old.left }
        ensures falls { size (view_of self.new) < size (view_of self.old) }
    {
        self.take_top(Frame::Return, Answer::Gave(value));
        self.leave_method(value);
    }

    /// Goes on behind statements that clauses rescue, where nothing was raised.
    #[inline(always)]
    fn resume_rescue(
        &mut self,
        program: &Program,
        end: NodeId,
        count: u32,
        otherwise: NodeId,
        value: Ref,
    )
        requires control { self.old.control ≡ Control.Give (Answer.Gave value) }
        requires top { IsTop self.old.frames.items (Frame.Rescue end count otherwise) }
        requires nested { IsNested (view_of self.old) }
        ensures goes { (t : Table) (h : Course) → remaining program.now (view_of self.old) t h ≡ remaining program.now (view_of self.new) t h }
        ensures nested { IsNested (view_of self.new) }
        ensures within { (k : Reach) → AreReached k (view_of self.old) → AreReached k (view_of self.new) }
        ensures left { self.new.left ≡ self.old.left }
        ensures falls { size (view_of self.new) < size (view_of self.old) }
    {
        self.take_top(Frame::Rescue(end, count, otherwise), Answer::Gave(value));
        self.go_else(program, otherwise, value);
    }

    /// Ends a block.
    #[inline(always)]
    fn resume_past(&mut self, value: Ref)
        requires control { self.old.control ≡ Control.Give (Answer.Gave value) }
        requires top { IsTop self.old.frames.items (Frame.Past) }
        requires nested { IsNested (view_of self.old) }
        ensures goes { (p : Program) (t : Table) (h : Course) → remaining p (view_of self.old) t h ≡ remaining p (view_of self.new) t h }
        ensures nested { IsNested (view_of self.new) }
        ensures within { (k : Reach) → AreReached k (view_of self.old) → AreReached k (view_of self.new) }
        ensures left { self.new.left ≡ self.old.left }
        ensures falls { size (view_of self.new) < size (view_of self.old) }
    {
        self.take_top(Frame::Past, Answer::Gave(value));
        self.end_block(value);
    }

    /// Gives the topmost frame, which needs neither the objects nor memory, a value.
    #[inline(always)]
    fn resume_plainly(
        &mut self,
        prepared: &Prepared,
        space: &Space,
        frame: Frame,
        value: Ref,
        stop: u64,
    )
        requires control { self.old.control ≡ Control.Give (Answer.Gave value) }
        requires top { IsTop self.old.frames.items frame }
        requires plain { IsRareFrame frame → ⊥ }
        requires nested { IsNested (view_of self.old) }
        requires within { stop ≤ self.old.left }
        ensures goes { (h : Course) → remaining prepared.now.program (view_of self.old) space.now h ≡ remaining prepared.now.program (view_of self.new) space.now h }
        ensures nested { IsNested (view_of self.new) }
        ensures within { (clusters : Option Below) → AreReached (reach (length space.now.slots) clusters) (view_of self.old) → AreReached (reach (length space.now.slots) clusters) (view_of self.new) }
        ensures left { stop ≤ self.new.left }
        ensures kept { self.new.left ≤ self.old.left }
        ensures falls { size (view_of self.new) < size (view_of self.old) }
    {
        self.take_top(frame, Answer::Gave(value));
        match self.resume(prepared, space, frame, value, stop) {
            true => (),
            false => unreachable!(),
        }
    }

    /// Gives the topmost frame, which takes no memory and asks nothing, a value.
    fn resume_silently(&mut self, program: &Program, space: &Space, frame: Frame, value: Ref)
        requires control { self.old.control ≡ Control.Give (Answer.Gave value) }
        requires top { IsTop self.old.frames.items frame }
        requires quiet { IsQuietFrame frame }
        requires nested { IsNested (view_of self.old) }
        ensures goes { (h : Course) → remaining program.now (view_of self.old) space.now h ≡ remaining program.now (view_of self.new) space.now h }
        ensures nested { IsNested (view_of self.new) }
        ensures within { (clusters : Option Below) → AreReached (reach (length space.now.slots) clusters) (view_of self.old) → AreReached (reach (length space.now.slots) clusters) (view_of self.new) }
        ensures left { self.new.left ≡ self.old.left }
        ensures falls { size (view_of self.new) < size (view_of self.old) }
    {
        self.take_top(frame, Answer::Gave(value));
        self.resume_quietly(program, space, frame, value);
    }

    /// Gives the topmost frame, which is none of the most frequent kinds, a value, where that is usual: it answers whether it was done.
    #[cold]
    #[inline(never)]
    fn resume_apart(&mut self, prepared: &Prepared, space: &Space, stop: u64) -> bool
        requires nested { IsNested (view_of self.old) }
        requires within { stop ≤ self.old.left }
        ensures goes { (h : Course) → remaining prepared.now.program (view_of self.old) space.now h ≡ remaining prepared.now.program (view_of self.new) space.now h }
        ensures nested { IsNested (view_of self.new) }
        ensures within { (clusters : Option Below) → AreReached (reach (length space.now.slots) clusters) (view_of self.old) → AreReached (reach (length space.now.slots) clusters) (view_of self.new) }
        ensures left { stop ≤ self.new.left }
        ensures kept { self.new.left ≤ self.old.left }
        ensures falls { IsTrue result → size (view_of self.new) < size (view_of self.old) }
        ensures less { size (view_of self.new) ≤ size (view_of self.old) }
    {
        let Control::Give(Answer::Gave(value)) = self.control else {
            return false;
        };
        let Some(&frame) = self.frames.last() else {
            return false;
        };
        match frame {
            Frame::And(_) | Frame::Or(_) | Frame::Not | Frame::Break | Frame::Next =>
                self.resume_plainly(prepared, space, frame, value, stop),
            Frame::Class(_)
            | Frame::Handling(_)
            | Frame::Ensure(_)
            | Frame::Kept(_)
            | Frame::Assigned(_)
            | Frame::Read(_)
            | Frame::Combine(_) => self.resume_silently(&prepared.program, space, frame, value),
            Frame::Several(end, count, base) => {
                let program = &prepared.program;
                return self.resume_variables(program, space, end, count, base, value);
            }
            Frame::Round(iteration) => {
                return self.resume_kept(&prepared.program, space, iteration, value, stop);
            }
            _ => return false,
        }
        true
    }

    /// Gives the topmost frame a value, where that is usual: it answers whether it was done.
    #[inline(always)]
    fn resume_often(&mut self, prepared: &Prepared, space: &Space, value: Ref, stop: u64) -> bool
        requires control { self.old.control ≡ Control.Give (Answer.Gave value) }
        requires nested { IsNested (view_of self.old) }
        requires within { stop ≤ self.old.left }
        ensures goes { (h : Course) → remaining prepared.now.program (view_of self.old) space.now h ≡ remaining prepared.now.program (view_of self.new) space.now h }
        ensures nested { IsNested (view_of self.new) }
        ensures within { (clusters : Option Below) → AreReached (reach (length space.now.slots) clusters) (view_of self.old) → AreReached (reach (length space.now.slots) clusters) (view_of self.new) }
        ensures left { stop ≤ self.new.left }
        ensures kept { self.new.left ≤ self.old.left }
        ensures falls { IsTrue result → size (view_of self.new) < size (view_of self.old) }
        ensures less { size (view_of self.new) ≤ size (view_of self.old) }
    {
        let program = &prepared.program;
        match self.frames.last() {
            Some(&Frame::Left(op, b)) => self.resume_left(prepared, space, op, b, value, stop),
            Some(&Frame::Right(op, left)) => return self.resume_right(op, left, value),
            Some(&Frame::Store(variable)) => self.resume_store(variable, value),
            Some(&Frame::Branch(yes, no)) => self.resume_branch(yes, no, value),
            Some(&Frame::Condition(until, body, here)) => {
                self.resume_condition(until, body, here, value);
            }
            Some(&Frame::Body(here)) => self.resume_body(prepared, space, here, value, stop),
            Some(&Frame::Rest(end, count)) => self.resume_rest(end, count, value),
            Some(&Frame::Back(by)) => self.resume_back(by, value),
            Some(&Frame::Past) => self.resume_past(value),
            Some(&Frame::Return) => self.resume_return(value),
            Some(&Frame::Rescue(end, count, otherwise)) => {
                self.resume_rescue(program, end, count, otherwise, value);
            }
            Some(&Frame::Round(iteration)) => match iteration.visits {
                Visits::Elements(Iteration::Map, _) | Visits::Elements(Iteration::Select, _) => {
                    return self.resume_apart(prepared, space, stop);
                }
                _ => return self.resume_turn(prepared, space, iteration, value, stop),
            },
            Some(&Frame::SetField(_)) => return false,
            Some(&Frame::Argument(_, _, _, _))
            | Some(&Frame::Receiver(_, _, _, _))
            | Some(&Frame::Item(_, _, _, _)) => return self.resume_parts(prepared, space),
            _ => return self.resume_apart(prepared, space, stop),
        }
        true
    }

    /// Ends a method by a `return`.
    #[inline(always)]
    fn pass_back(&mut self, by: CallValue, value: Ref)
        requires control { self.old.control ≡ Control.Give (Answer.Returned value) }
        requires top { IsTop self.old.frames.items (Frame.Back by) }
        requires nested { IsNested (view_of self.old) }
        ensures goes { (p : Program) (t : Table) (h : Course) → remaining p (view_of self.old) t h ≡ remaining p (view_of self.new) t h }
        ensures nested { IsNested (view_of self.new) }
        ensures within { (k : Reach) → AreReached k (view_of self.old) → AreReached k (view_of self.new) }
        ensures left { self.new.left ≡ self.old.left }
        ensures falls { size (view_of self.new) < size (view_of self.old) }
    {
        self.take_top(Frame::Back(by), Answer::Returned(value));
        self.end_method(by, value);
    }

    /// Passes a `return` over statements, and ends the method whose they are.
    #[inline(always)]
    fn pass_rest(&mut self, end: NodeId, count: u32, value: Ref)
        requires control { self.old.control ≡ Control.Give (Answer.Returned value) }
        requires top { IsTop self.old.frames.items (Frame.Rest end count) }
        requires nested { IsNested (view_of self.old) }
        ensures goes { (p : Program) (t : Table) (h : Course) → remaining p (view_of self.old) t h ≡ remaining p (view_of self.new) t h }
        ensures nested { IsNested (view_of self.new) }
        ensures within { (k : Reach) → AreReached k (view_of self.old) → AreReached k (view_of self.new) }
        ensures left { self.new.left ≡ self.old.left }
        ensures falls { size (view_of self.new) < size (view_of self.old) }
    {
        self.take_top(Frame::Rest(end, count), Answer::Returned(value));
        if let Some(&Frame::Back(by)) = self.frames.last() {
            self.pass_back(by, value);
        }
    }

    /// Passes a `return` through the topmost frame, where that is usual: it answers whether it was done.
    #[inline(always)]
    pub fn pass_often(&mut self, value: Ref) -> bool
        requires control { self.old.control ≡ Control.Give (Answer.Returned value) }
        requires nested { IsNested (view_of self.old) }
        ensures goes { (p : Program) (t : Table) (h : Course) → remaining p (view_of self.old) t h ≡ remaining p (view_of self.new) t h }
        ensures nested { IsNested (view_of self.new) }
        ensures within { (k : Reach) → AreReached k (view_of self.old) → AreReached k (view_of self.new) }
        ensures left { self.new.left ≡ self.old.left }
        ensures less { size (view_of self.new) ≤ size (view_of self.old) }
        ensures falls { IsTrue result → size (view_of self.new) < size (view_of self.old) }
    {
        match self.frames.last() {
            Some(&Frame::Rest(end, count)) => self.pass_rest(end, count, value),
            Some(&Frame::Back(by)) => self.pass_back(by, value),
            _ => return false,
        }
        true
    }

    /// One usual act, where what comes next is one: it answers whether it was done.
    #[inline(always)]
    fn act_often(&mut self, prepared: &Prepared, space: &Space, stop: u64) -> bool
        requires nested { IsNested (view_of self.old) }
        requires within { stop ≤ self.old.left }
        ensures goes { (h : Course) → remaining prepared.now.program (view_of self.old) space.now h ≡ remaining prepared.now.program (view_of self.new) space.now h }
        ensures nested { IsNested (view_of self.new) }
        ensures within { (clusters : Option Below) → AreReached (reach (length space.now.slots) clusters) (view_of self.old) → AreReached (reach (length space.now.slots) clusters) (view_of self.new) }
        ensures left { stop ≤ self.new.left }
        ensures kept { self.new.left ≤ self.old.left }
        ensures falls { power (view_of self.new) + self.old.left ≤ power (view_of self.old) + self.new.left }
        ensures drops { IsTrue result → power (view_of self.new) < power (view_of self.old) }
    {
        // Most of what is given are values: a test tells them before the match does.
        if let Control::Give(Answer::Gave(value)) = self.control {
            return self.resume_often(prepared, space, value, stop);
        }
        match self.control {
            Control::Give(Answer::Returned(value)) => self.pass_often(value),
            Control::Enter(here) => {
                self.left > stop
                    && self.frames.len() < self.frames.capacity()
                    && self.visit_often(prepared, space, here, stop)
            }
            Control::Send(_, _, _) => self.operate_sent(prepared, space, stop),
            _ => false,
        }
    }

    /// Usual acts, up to one that is none, or before which the steps stop.
    pub fn act_usual(&mut self, prepared: &Prepared, space: &Space, stop: u64)
        requires nested { IsNested (view_of self.old) }
        requires within { stop ≤ self.old.left }
        ensures goes { (h : Course) → remaining prepared.now.program (view_of self.old) space.now h ≡ remaining prepared.now.program (view_of self.new) space.now h }
        ensures nested { IsNested (view_of self.new) }
        ensures within { (clusters : Option Below) → AreReached (reach (length space.now.slots) clusters) (view_of self.old) → AreReached (reach (length space.now.slots) clusters) (view_of self.new) }
        ensures left { stop ≤ self.new.left }
        ensures kept { self.new.left ≤ self.old.left }
        ensures falls { power (view_of self.new) + self.old.left ≤ power (view_of self.old) + self.new.left }
    {
        while self.act_often(prepared, space, stop) {}
    }
}
