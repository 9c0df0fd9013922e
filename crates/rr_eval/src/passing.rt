//! Answers that are no values, which pass through frames.

ghost use Rattle.std.specs.Prelude.{◌≡◌, ◌+◌, ◌*◌, ◌<◌, ◌≤◌, ℕ, length, reverse, vec_capacity};
ghost use Rattle.rr_space.specs.Tables.{Table};
ghost use Rattle.rr_space.specs.declared.refer.Ref.{Ref};
ghost use Rattle.rr_tree.specs.Tree.{Tree, tree_at};
ghost use Rattle.rr_tree.specs.Nodes.{trees_before};
ghost use Rattle.rr_eval.specs.Rescuing.{rescue_rule};
ghost use Rattle.rr_tree.specs.declared.program.Program.{Program};
ghost use Rattle.rr_eval.specs.declared.frame.Control.{Control};
ghost use Rattle.rr_eval.specs.declared.problem.Answer.{Answer};
ghost use Rattle.rr_eval.specs.Blocks.{left_block, owner_in};
ghost use Rattle.rr_eval.specs.Rules.{in_loop, back, past};
ghost use Rattle.rr_eval.specs.Script.{Script, Ret, Go};
ghost use Rattle.rr_eval.specs.Requests.{Course};
ghost use Rattle.rr_eval.specs.Frames.{below_of, base_of, Nested};
ghost use Rattle.rr_eval.specs.Turns.{context_of, remaining, IsNested, after_script, after_answer, remaining_with, more_of, size, waits};
ghost use Rattle.rr_eval.specs.View.{View};
ghost use Rattle.rr_eval.specs.Views.{view_of};
ghost use Rattle.rr_eval.specs.Within.{Reach, IsAnswerReached, IsControlReached, IsFrameReached, AreReached, IsCallValueReached};

use crate::call_stack::CallValue;
use crate::engine::Engine;
use crate::frame::{Control, Frame, clear};
use crate::problem::{Answer, Problem, passed, returned, valued};
use rr_frames::{Activation, Given};
use rr_space::Space;
use rr_tree::{NodeId, Program};

/// The frame of the method that was given the block which a `yield` in such a frame calls.
fn owner_in(activation: Activation) -> u32
    ensures { result ≡ owner_in activation }
{
    match activation.given {
        Given::Nothing => activation.root,
        Given::Block { block, home: _ } => block,
    }
}

/// What comes when a block has ended so: `owner` is the frame of the method that was given it, and `root` that of the method in which it
/// stands.
fn left_block(owner: u32, root: u32, answer: Answer) -> Control
    ensures goes { (p : Program) (m : View) (t : Table) (h : Course) (n : ℕ) → after_script p m t (left_block (context_of p) owner root answer) h n ≡ remaining_with p (record m { control = result }) t h n }
    ensures within { (k : Reach) → IsAnswerReached k answer → IsControlReached k result }
    ensures waits { waits result ≤ 3 + more_of answer }
{
    match answer {
        Answer::Broke(_) => {
            if owner == 0 {
                Control::Throw(Problem::Jump)
            } else {
                Control::Give(passed(owner, root, answer))
            }
        }
        _ => Control::Give(passed(owner, root, answer)),
    }
}

impl Engine {
    /// Passes an answer that is no value through a part of a loop, whose place is `place`.
    #[tactic(auto, unfolding(crate::specs::Within::AreReached))]
    fn leave_loop(&mut self, place: NodeId, answer: Answer)
        requires control { self.old.control ≡ Control.Give answer }
        requires passes { (v : Ref) → answer ≡ Answer.Gave v → ⊥ }
        requires nested { IsNested (view_of self.old) }
        ensures goes { (p : Program) (next : Ref → Script) (t : Table) (h : Course) (n : ℕ) → after_script p (view_of self.old) t (in_loop (Go (tree_at p.nodes.items place) Ret) next answer) h n ≡ remaining_with p (view_of self.new) t h n }
        ensures nested { IsNested (view_of self.new) }
        ensures within { (k : Reach) → AreReached k (view_of self.old) → IsAnswerReached k answer → AreReached k (view_of self.new) }
        ensures left { self.new.left ≡ self.old.left }
        ensures size { size (view_of self.new) ≤ 3 * length self.old.frames.items + 2 + more_of answer }
    {
        match answer {
            Answer::Broke(value) => self.control = Control::Give(Answer::Gave(value)),
            Answer::Done(_) => self.control = Control::Enter(place),
            _ => (),
        }
    }

    /// Passes an answer that is no value through a method, which ends with it.
    fn leave_back(&mut self, by: CallValue, answer: Answer)
        requires nested { IsNested (view_of self.old) }
        ensures goes { (p : Program) (t : Table) (h : Course) (n : ℕ) → after_script p (view_of self.old) t (back by answer) h n ≡ remaining_with p (view_of self.new) t h n }
        ensures nested { IsNested (view_of self.new) }
        ensures within { (k : Reach) → AreReached k (view_of self.old) → IsCallValueReached k by → IsAnswerReached k answer → AreReached k (view_of self.new) }
        ensures left { self.new.left ≡ self.old.left }
        ensures size { size (view_of self.new) ≤ 3 * length self.old.frames.items + 2 + more_of answer }
    {
        let number = self.calls.top();
        self.drop_frame();
        self.control = Control::Give(valued(by, returned(number, answer)));
    }

    /// Passes an answer that is no value through a block that a `yield` calls, which ends with it.
    fn leave_past(&mut self, answer: Answer)
        requires nested { IsNested (view_of self.old) }
        ensures goes { (p : Program) (t : Table) (h : Course) (n : ℕ) → after_script p (view_of self.old) t (past (context_of p) answer) h n ≡ remaining_with p (view_of self.new) t h n }
        ensures nested { IsNested (view_of self.new) }
        ensures within { (k : Reach) → AreReached k (view_of self.old) → IsAnswerReached k answer → AreReached k (view_of self.new) }
        ensures left { self.new.left ≡ self.old.left }
        ensures size { size (view_of self.new) ≤ 3 * length self.old.frames.items + 3 + more_of answer }
    {
        let root = self.calls.running().root;
        self.drop_frame();
        let owner = owner_in(self.calls.running());
        self.control = left_block(owner, root, answer);
    }

    /// Passes an answer that is no value through statements that clauses rescue, the last `count` ones before `end`.
    #[tactic(auto, unfolding(crate::specs::Within::AreReached))]
    fn leave_rescued(
        &mut self,
        program: &Program,
        space: &Space,
        end: NodeId,
        count: u32,
        answer: Answer,
    )
        requires control { self.old.control ≡ Control.Give answer }
        requires passes { (v : Ref) → answer ≡ Answer.Gave v → ⊥ }
        requires room { length self.old.frames.items < vec_capacity self.old.frames }
        requires nested { IsNested (view_of self.old) }
        ensures goes { (otherwise : Tree) (h : Course) (n : ℕ) → after_script program.now (view_of self.old) space.now (rescue_rule (context_of program.now) (trees_before program.now.nodes.items end count) otherwise answer) h n ≡ remaining_with program.now (view_of self.new) space.now h n }
        ensures nested { IsNested (view_of self.new) }
        ensures within { (k : Reach) → AreReached k (view_of self.old) → IsAnswerReached k answer → AreReached k (view_of self.new) }
        ensures left { self.new.left ≡ self.old.left }
        ensures size { size (view_of self.new) ≤ 3 * length self.old.frames.items + 4 + more_of answer }
    {
        match answer {
            Answer::Raised(exception) => self.try_clauses(program, space, exception, end, count),
            _ => (),
        }
    }

    /// Passes an answer that is no value through a frame, which is taken off the stack: a method ends with it, `break` ends a
    /// loop, `next` begins the loop's next turn, clauses may rescue an exception, and what always follows is evaluated first.
    #[tactic(auto, unfolding(crate::specs::Within::AreReached))]
    #[inline(never)]
    pub fn pass(&mut self, program: &Program, space: &Space, frame: Frame, answer: Answer)
        requires control { self.old.control ≡ Control.Give answer }
        requires passes { (v : Ref) → answer ≡ Answer.Gave v → ⊥ }
        requires room { length self.old.frames.items < vec_capacity self.old.frames }
        requires base { base_of frame ≤ length self.old.held.items }
        requires nested { Nested (reverse self.old.frames.items) (below_of frame self.old.held.items) }
        ensures goes { (h : Course) → after_answer program.now (view_of self.old) space.now frame answer h self.old.left ≡ remaining program.now (view_of self.new) space.now h }
        ensures nested { IsNested (view_of self.new) }
        ensures within { (k : Reach) → AreReached k (view_of self.old) → IsFrameReached k frame → IsAnswerReached k answer → AreReached k (view_of self.new) }
        ensures left { self.new.left ≡ self.old.left }
        ensures size { size (view_of self.new) ≤ 3 * length self.old.frames.items + 4 + more_of answer }
    {
        match frame {
            Frame::Back(by) => self.leave_back(by, answer),
            Frame::Past => self.leave_past(answer),
            Frame::Condition(_, _, place) => self.leave_loop(place, answer),
            Frame::Body(place) => self.leave_loop(place, answer),
            Frame::Rescue(end, count, _) => self.leave_rescued(program, space, end, count, answer),
            Frame::Handling(old) => self.rescuing = old,
            Frame::Ensure(part) => self.enter_above(Frame::Kept(answer), part),
            Frame::Asking(asking) => self.leave_asking(asking, answer),
            Frame::Round(iteration) => self.leave_round(program, space, iteration, answer),
            _ => clear(&mut self.held, frame),
        }
    }
}
