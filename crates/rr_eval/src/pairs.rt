//! The parts of a new hash and of an assignment to an element, which are evaluated from left to right.

ghost use Rattle.std.specs.Prelude.{◌≡◌, ◌+◌, ◌*◌, ◌<◌, ◌≤◌, ◌^◌, ℕ, [], length, reverse, take, drop, vec_capacity, IfOk, IfErr, OnOk};
ghost use Rattle.rr_base.specs.declared.fault.Fault.{Fault};
ghost use Rattle.rr_space.specs.Tables.{Table};
ghost use Rattle.rr_tree.specs.declared.program.Program.{Program};
ghost use Rattle.rr_tree.specs.Nodes.{trees_before};
ghost use Rattle.rr_eval.specs.declared.call.Target.{Target};
ghost use Rattle.rr_eval.specs.declared.call.Task.{Task};
ghost use Rattle.rr_eval.specs.declared.frame.Frame.{Frame};
ghost use Rattle.rr_eval.specs.declared.problem.Answer.{Answer};
ghost use Rattle.rr_eval.specs.Frames.{Nested};
ghost use Rattle.rr_eval.specs.Requests.{Course};
ghost use Rattle.rr_eval.specs.Rules.{values, finish, pair_parts};
ghost use Rattle.rr_eval.specs.Turns.{context_of, IsNested, after_script, after_answer, after_values, remaining_with, continuing, Stands, size, sized};
ghost use Rattle.rr_eval.specs.Views.{view_of};
ghost use Rattle.rr_eval.specs.Within.{Reach, IsReached, IsAskedReached, AreReached};

use crate::call::{Arguments, Callee, Target, Task};
use crate::engine::{Engine, push_within};
use crate::frame::{Control, Frame};
use crate::nodes::pair_at;
use crate::request::Request;
use rr_base::Fault;
use rr_space::Ref;
use rr_tree::{NodeId, Program};

impl Engine {
    /// Evaluates the key of the first of the last `count` pairs before `end`, whose keys and values come behind those that
    /// stand from `base` on.
    #[tactic(auto, unfolding(crate::specs::Within::AreReached))]
    fn enter_pair(&mut self, program: &Program, end: NodeId, count: u32, base: usize)
        requires room { length self.old.frames.items < vec_capacity self.old.frames }
        requires some { 0 < count }
        requires base { base ≤ length self.old.held.items }
        requires nested { Nested (reverse self.old.frames.items) (take base self.old.held.items) }
        ensures goes { (t : Table) (h : Course) (n : ℕ) → after_values program.now (view_of self.old) t (Frame.Value end count base) (values (pair_parts (trees_before program.now.nodes.items end count)) (drop base self.old.held.items) (finish (context_of program.now) (Target.Do Task.MakeHash))) h n ≡ remaining_with program.now (view_of self.new) t h n }
        ensures nested { IsNested (view_of self.new) }
        ensures within { (k : Reach) → AreReached k (view_of self.old) → AreReached k (view_of self.new) }
        ensures left { self.new.left ≡ self.old.left }
        ensures size { size (view_of self.new) ≤ 3 * length self.old.frames.items + 4 }
    {
        let pair = pair_at(program, end.saturating_sub(count));
        push_within(&mut self.frames, Frame::Key(pair.1, end, count - 1, base));
        self.control = Control::Enter(pair.0);
    }

    /// Evaluates the keys and the values of a new hash: those of the last `count` pairs before `first + count`.
    pub fn open_pairs(
        &mut self,
        program: &Program,
        first: NodeId,
        count: u32,
    ) -> Result<Option<Request>, Fault>
        requires small { first + count < 2 ^ 32 }
        requires nested { IsNested (view_of self.old) }
        ensures goes { IfOk result (λ q. (t : Table) (h : Course) (n : ℕ) → after_script program.now (view_of self.old) t (values (pair_parts (trees_before program.now.nodes.items (first + count) count)) [] (finish (context_of program.now) (Target.Do Task.MakeHash))) h n ≡ continuing program.now (view_of self.new) t q h n) }
        ensures nested { IsNested (view_of self.new) }
        ensures within { (k : Reach) → AreReached k (view_of self.old) → AreReached k (view_of self.new) }
        ensures left { self.new.left ≡ self.old.left }
        ensures asks { (k : Reach) → IfOk result (IsAskedReached k) }
        ensures err { (t : Table) → IfErr result (λ f. Stands (view_of self.old) (view_of self.new) t t f) }
        ensures size { IfOk result (λ q. sized q (view_of self.new) ≤ 3 * length self.old.frames.items + 4) }
        ensures fault { IfErr result (λ f. f ≡ Fault.Memory) }
    {
        match count {
            0 => Ok(Some(Request::Do(Task::MakeHash, Arguments::Without))),
            _ => {
                self.frames.reserve(1)?;
                let base = self.held.len();
                self.enter_pair(program, first + count, count, base);
                Ok(None)
            }
        }
    }

    /// Keeps the key of a pair and evaluates its value.
    #[tactic(auto, unfolding(crate::specs::Within::AreReached))]
    pub fn keep_key(
        &mut self,
        next: NodeId,
        end: NodeId,
        count: u32,
        base: usize,
        value: Ref,
    ) -> Result<Option<Request>, Fault>
        requires room { length self.old.frames.items < vec_capacity self.old.frames }
        requires base { base ≤ length self.old.held.items }
        requires nested { Nested (reverse self.old.frames.items) (take base self.old.held.items) }
        ensures goes { IfOk result (λ q. (p : Program) (t : Table) (h : Course) (n : ℕ) → after_answer p (view_of self.old) t (Frame.Key next end count base) (Answer.Gave value) h n ≡ continuing p (view_of self.new) t q h n) }
        ensures nested { OnOk result (IsNested (view_of self.new)) }
        ensures within { (k : Reach) → AreReached k (view_of self.old) → IsReached k value → AreReached k (view_of self.new) }
        ensures asks { (k : Reach) → IfOk result (IsAskedReached k) }
        ensures left { self.new.left ≡ self.old.left }
        ensures err { (t : Table) → IfErr result (λ f. Stands (view_of self.old) (view_of self.new) t t f) }
        ensures size { IfOk result (λ q. sized q (view_of self.new) ≤ 3 * length self.old.frames.items + 4) }
        ensures room { IfErr result (λ _. length self.new.frames.items < vec_capacity self.new.frames) }
        ensures fault { IfErr result (λ f. f ≡ Fault.Memory) }
    {
        self.held.push(value)?;
        push_within(&mut self.frames, Frame::Value(end, count, base));
        self.control = Control::Enter(next);
        Ok(None)
    }

    /// Keeps the value of a pair and evaluates the key of the next one.
    fn keep_value(
        &mut self,
        program: &Program,
        end: NodeId,
        count: u32,
        base: usize,
        value: Ref,
    ) -> Result<Option<Request>, Fault>
        requires room { length self.old.frames.items < vec_capacity self.old.frames }
        requires some { 0 < count }
        requires base { base ≤ length self.old.held.items }
        requires nested { Nested (reverse self.old.frames.items) (take base self.old.held.items) }
        ensures goes { IfOk result (λ q. (t : Table) (h : Course) (n : ℕ) → after_answer program.now (view_of self.old) t (Frame.Value end count base) (Answer.Gave value) h n ≡ continuing program.now (view_of self.new) t q h n) }
        ensures nested { OnOk result (IsNested (view_of self.new)) }
        ensures within { (k : Reach) → AreReached k (view_of self.old) → IsReached k value → AreReached k (view_of self.new) }
        ensures asks { (k : Reach) → IfOk result (IsAskedReached k) }
        ensures left { self.new.left ≡ self.old.left }
        ensures err { (t : Table) → IfErr result (λ f. Stands (view_of self.old) (view_of self.new) t t f) }
        ensures size { IfOk result (λ q. sized q (view_of self.new) ≤ 3 * length self.old.frames.items + 4) }
        ensures room { IfErr result (λ _. length self.new.frames.items < vec_capacity self.new.frames) }
        ensures fault { IfErr result (λ f. f ≡ Fault.Memory) }
    {
        self.held.push(value)?;
        self.enter_pair(program, end, count, base);
        Ok(None)
    }

    /// Goes on with the pairs of a new hash.
    pub fn resume_pairs(
        &mut self,
        program: &Program,
        end: NodeId,
        count: u32,
        base: usize,
        value: Ref,
    ) -> Result<Option<Request>, Fault>
        requires room { length self.old.frames.items < vec_capacity self.old.frames }
        requires base { base ≤ length self.old.held.items }
        requires nested { Nested (reverse self.old.frames.items) (take base self.old.held.items) }
        ensures goes { IfOk result (λ q. (t : Table) (h : Course) (n : ℕ) → after_answer program.now (view_of self.old) t (Frame.Value end count base) (Answer.Gave value) h n ≡ continuing program.now (view_of self.new) t q h n) }
        ensures nested { OnOk result (IsNested (view_of self.new)) }
        ensures within { (k : Reach) → AreReached k (view_of self.old) → IsReached k value → AreReached k (view_of self.new) }
        ensures asks { (k : Reach) → AreReached k (view_of self.old) → IsReached k value → IfOk result (IsAskedReached k) }
        ensures left { self.new.left ≡ self.old.left }
        ensures err { (t : Table) → IfErr result (λ f. Stands (view_of self.old) (view_of self.new) t t f) }
        ensures size { IfOk result (λ q. sized q (view_of self.new) ≤ 3 * length self.old.frames.items + 4) }
        ensures room { IfErr result (λ _. length self.new.frames.items < vec_capacity self.new.frames) }
        ensures fault { IfErr result (λ f. f ≡ Fault.Memory) }
    {
        match count {
            0 => self.ask(Task::MakeHash, Frame::Value(end, 0, base), value),
            _ => self.keep_value(program, end, count, base, value),
        }
    }

    /// Keeps the receiver of an assignment to an element and evaluates the index.
    #[tactic(auto, unfolding(crate::specs::Within::AreReached))]
    pub fn keep_receiver(
        &mut self,
        index: NodeId,
        end: NodeId,
        value: Ref,
    ) -> Result<Option<Request>, Fault>
        requires room { length self.old.frames.items < vec_capacity self.old.frames }
        requires nested { IsNested (view_of self.old) }
        ensures goes { IfOk result (λ q. (p : Program) (t : Table) (h : Course) (n : ℕ) → after_answer p (view_of self.old) t (Frame.Element index end) (Answer.Gave value) h n ≡ continuing p (view_of self.new) t q h n) }
        ensures nested { OnOk result (IsNested (view_of self.new)) }
        ensures within { (k : Reach) → AreReached k (view_of self.old) → IsReached k value → AreReached k (view_of self.new) }
        ensures asks { (k : Reach) → IfOk result (IsAskedReached k) }
        ensures left { self.new.left ≡ self.old.left }
        ensures err { (t : Table) → IfErr result (λ f. Stands (view_of self.old) (view_of self.new) t t f) }
        ensures size { IfOk result (λ q. sized q (view_of self.new) ≤ 3 * length self.old.frames.items + 4) }
        ensures room { IfErr result (λ _. length self.new.frames.items < vec_capacity self.new.frames) }
        ensures fault { IfErr result (λ f. f ≡ Fault.Memory) }
    {
        let base = self.held.len();
        self.held.push(value)?;
        push_within(
            &mut self.frames,
            Frame::Argument(Target::Call(Callee::SetIndex), end, 1, base),
        );
        self.control = Control::Enter(index);
        Ok(None)
    }
}
