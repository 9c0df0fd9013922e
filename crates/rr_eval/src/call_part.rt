//! Calls with whose value a frame goes on, each of which is a step.

ghost use Rattle.std.specs.Prelude.{◌≡◌, ◌+◌, ◌*◌, ◌-◌, ◌<◌, ◌≤◌, ℕ, length, reverse, vec_capacity, Option, IfOk, IfErr, OnOk};
ghost use Rattle.std.specs.List.{All};
ghost use Rattle.rr_base.specs.declared.fault.Fault.{Fault};
ghost use Rattle.rr_frames.specs.Frames.{list_of};
ghost use Rattle.rr_space.specs.Tables.{Table, Below};
ghost use Rattle.rr_tree.specs.Tree.{tree_at};
ghost use Rattle.rr_tree.specs.declared.program.Program.{Program};
ghost use Rattle.rr_eval.specs.declared.frame.Control.{Control};
ghost use Rattle.rr_eval.specs.Script.{Evaluate, CallPart, Go};
ghost use Rattle.rr_eval.specs.Rules.{part_called};
ghost use Rattle.rr_eval.specs.Requests.{Course};
ghost use Rattle.rr_eval.specs.Frames.{below_of, base_of, stand_of, resumed, Nested};
ghost use Rattle.rr_eval.specs.Turns.{context_of, code_of, IsNested, remaining, after_script, after_values, continuing, Stands, sized, remaining_with, size};
ghost use Rattle.rr_eval.specs.Views.{view_of};
ghost use Rattle.rr_eval.specs.Within.{Reach, reach, IsReached, IsFrameReached, IsAskedReached, AreReached};

use crate::call::{Callee, Passing};
use crate::engine::{Engine, push_within};
use crate::frame::{Control, Frame};
use crate::prepared::Prepared;
use crate::request::Request;
use rr_base::Fault;
use rr_space::{Ref, Space};
use rr_tree::NodeId;

impl Engine {
    /// Calls a receiver with one argument or none: an operator of two integers is done here.
    fn call_part(
        &mut self,
        prepared: &Prepared,
        space: &Space,
        callee: Callee,
        receiver: Ref,
        argument: Option<Ref>,
    ) -> Result<Option<Request>, Fault>
        requires room { length self.old.frames.items < vec_capacity self.old.frames }
        requires nested { IsNested (view_of self.old) }
        ensures goes { IfOk result (λ q. (h : Course) (n : ℕ) → after_script prepared.now.program (view_of self.old) space.now (part_called (context_of prepared.now.program) callee receiver (list_of argument)) h n ≡ continuing prepared.now.program (view_of self.new) space.now q h n) }
        ensures within { (clusters : Option Below) → AreReached (reach (length space.now.slots) clusters) (view_of self.old) → IsReached (reach (length space.now.slots) clusters) receiver → All (IsReached (reach (length space.now.slots) clusters)) (list_of argument) → AreReached (reach (length space.now.slots) clusters) (view_of self.new) }
        ensures asks { (k : Reach) → AreReached k (view_of self.old) → IsReached k receiver → All (IsReached k) (list_of argument) → IfOk result (IsAskedReached k) }
        ensures nested { OnOk result (IsNested (view_of self.new)) }
        ensures left { self.new.left ≡ self.old.left }
        ensures err { (t : Table) → IfErr result (λ f. Stands (view_of self.old) (view_of self.new) t t f) }
        ensures size { IfOk result (λ q. sized q (view_of self.new) ≤ 3 * length self.old.frames.items + 4) }
        ensures fault { IfErr result (λ f. f ≡ Fault.Memory) }
    {
        match argument {
            Some(value) => match callee {
                Callee::Operator(op) => self.operate(prepared, space, op, receiver, value),
                _ => {
                    let frame = Frame::Not;
                    self.send(
                        prepared,
                        space,
                        receiver,
                        callee,
                        Passing::All,
                        None,
                        frame,
                        argument,
                    )
                }
            },
            None => {
                let frame = Frame::Not;
                self.send(
                    prepared,
                    space,
                    receiver,
                    callee,
                    Passing::All,
                    None,
                    frame,
                    argument,
                )
            }
        }
    }

    /// Does a call that comes next, which is one step.
    #[inline(never)]
    pub fn visit_call(
        &mut self,
        prepared: &Prepared,
        space: &Space,
        callee: Callee,
        receiver: Ref,
        argument: Option<Ref>,
    ) -> Result<Option<Request>, Fault>
        requires control { self.old.control ≡ Control.Send callee receiver argument }
        requires some { 0 < self.old.left }
        requires room { length self.old.frames.items < vec_capacity self.old.frames }
        requires nested { IsNested (view_of self.old) }
        ensures goes { IfOk result (λ q. (h : Course) → remaining prepared.now.program (view_of self.old) space.now h ≡ continuing prepared.now.program (view_of self.new) space.now q h self.new.left) }
        ensures nested { IsNested (view_of self.new) }
        ensures within { (clusters : Option Below) → AreReached (reach (length space.now.slots) clusters) (view_of self.old) → AreReached (reach (length space.now.slots) clusters) (view_of self.new) }
        ensures asks { (clusters : Option Below) → AreReached (reach (length space.now.slots) clusters) (view_of self.old) → IfOk result (IsAskedReached (reach (length space.now.slots) clusters)) }
        ensures left { OnOk result (self.new.left + 1 ≡ self.old.left) }
        ensures size { IfOk result (λ q. sized q (view_of self.new) ≤ size (view_of self.old) + 4) }
        ensures err { IfErr result (λ f. Stands (view_of self.old) (view_of self.new) space.now space.now f) }
        ensures fault { IfErr result (λ f. f ≡ Fault.Memory) }
    {
        match self.call_part(prepared, space, callee, receiver, argument) {
            Ok(request) => {
                self.left -= 1;
                Ok(request)
            }
            Err(fault) => Err(fault),
        }
    }

    /// Puts a frame over the values that stand for it, and calls a receiver, with one argument or none, for it.
    #[tactic(auto, unfolding(crate::specs::Within::AreReached))]
    pub fn send_over(&mut self, frame: Frame, callee: Callee, receiver: Ref, argument: Option<Ref>)
        requires room { length self.old.frames.items < vec_capacity self.old.frames }
        requires base { base_of frame ≤ length self.old.held.items }
        requires nested { Nested (reverse self.old.frames.items) (below_of frame self.old.held.items) }
        ensures goes { (p : Program) (t : Table) (h : Course) (n : ℕ) → after_values p (view_of self.old) t frame (Evaluate (CallPart callee receiver (list_of argument)) (resumed (code_of p h.world) frame (stand_of frame self.old.held.items))) h n ≡ remaining_with p (view_of self.new) t h n }
        ensures nested { IsNested (view_of self.new) }
        ensures within { (k : Reach) → AreReached k (view_of self.old) → IsFrameReached k frame → IsReached k receiver → All (IsReached k) (list_of argument) → AreReached k (view_of self.new) }
        ensures left { self.new.left ≡ self.old.left }
        ensures size { size (view_of self.new) ≤ 3 * length self.old.frames.items + 4 }
    {
        push_within(&mut self.frames, frame);
        self.control = Control::Send(callee, receiver, argument);
    }

    /// Puts a frame over the values that stand for it, and evaluates a part for it.
    #[tactic(auto, unfolding(crate::specs::Within::AreReached))]
    pub fn enter_over(&mut self, frame: Frame, part: NodeId)
        requires room { length self.old.frames.items < vec_capacity self.old.frames }
        requires base { base_of frame ≤ length self.old.held.items }
        requires nested { Nested (reverse self.old.frames.items) (below_of frame self.old.held.items) }
        ensures goes { (p : Program) (t : Table) (h : Course) (n : ℕ) → after_values p (view_of self.old) t frame (Go (tree_at p.nodes.items part) (resumed (code_of p h.world) frame (stand_of frame self.old.held.items))) h n ≡ remaining_with p (view_of self.new) t h n }
        ensures nested { IsNested (view_of self.new) }
        ensures within { (k : Reach) → AreReached k (view_of self.old) → IsFrameReached k frame → AreReached k (view_of self.new) }
        ensures left { self.new.left ≡ self.old.left }
        ensures size { size (view_of self.new) ≤ 3 * length self.old.frames.items + 4 }
    {
        push_within(&mut self.frames, frame);
        self.control = Control::Enter(part);
    }
}
