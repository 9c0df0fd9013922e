//! What a frame does with a value, where that needs the objects or memory.

ghost use Rattle.std.specs.Prelude.{◌≡◌, ◌+◌, ◌*◌, ◌<◌, ◌≤◌, ℕ, length, reverse, vec_capacity, Option, IfOk, IfErr};
ghost use Rattle.rr_base.specs.declared.fault.Fault.{Fault};
ghost use Rattle.rr_space.specs.Tables.{Below};
ghost use Rattle.rr_eval.specs.declared.asking.Asking.{Asking};
ghost use Rattle.rr_eval.specs.declared.call.Target.{Target};
ghost use Rattle.rr_eval.specs.declared.problem.Answer.{Answer};
ghost use Rattle.rr_eval.specs.declared.frame.Control.{Control};
ghost use Rattle.rr_eval.specs.declared.frame.Frame.{Frame};
ghost use Rattle.rr_eval.specs.declared.iterating.Iterating.{Iterating};
ghost use Rattle.rr_eval.specs.Requests.{Course};
ghost use Rattle.rr_eval.specs.Frames.{below_of, base_of, Nested, IsRareFrame};
ghost use Rattle.rr_eval.specs.Turns.{remaining, IsNested, after_answer, continuing, sized};
ghost use Rattle.rr_eval.specs.Views.{view_of};
ghost use Rattle.rr_eval.specs.Within.{reach, IsReached, IsFrameReached, IsAskedReached, AreReached};

use crate::engine::{Engine, push_within};
use crate::frame::Frame;
use crate::prepared::Prepared;
use crate::request::Request;
use rr_base::Fault;
use rr_space::{Ref, Space};

impl Engine {
    /// Does what a frame, which is taken off the stack, does with a value, where that needs the objects or memory. A
    /// refused growth puts the frame back.
    #[tactic(auto, unfolding(crate::specs::Within::AreReached))]
    #[inline(always)]
    pub fn resume_other(
        &mut self,
        prepared: &Prepared,
        space: &Space,
        frame: Frame,
        value: Ref,
    ) -> Result<Option<Request>, Fault>
        requires control { self.old.control ≡ Control.Give (Answer.Gave value) }
        requires room { length self.old.frames.items < vec_capacity self.old.frames }
        requires base { base_of frame ≤ length self.old.held.items }
        requires nested { Nested (reverse self.old.frames.items) (below_of frame self.old.held.items) }
        requires rare { IsRareFrame frame }
        requires inside { (i : Iterating) → frame ≡ Frame.Round i → ⊥ }
        requires whole { (target : Target) (end count base : ℕ) → frame ≡ Frame.Item target end count base → ⊥ }
        requires unasked { (asking : Asking) → frame ≡ Frame.Asking asking → ⊥ }
        ensures goes { IfOk result (λ q. (h : Course) → after_answer prepared.now.program (view_of self.old) space.now frame (Answer.Gave value) h self.old.left ≡ continuing prepared.now.program (view_of self.new) space.now q h self.new.left) }
        ensures nested { IsNested (view_of self.new) }
        ensures within { (clusters : Option Below) → AreReached (reach (length space.now.slots) clusters) (view_of self.old) → IsFrameReached (reach (length space.now.slots) clusters) frame → IsReached (reach (length space.now.slots) clusters) value → AreReached (reach (length space.now.slots) clusters) (view_of self.new) }
        ensures asks { (clusters : Option Below) → AreReached (reach (length space.now.slots) clusters) (view_of self.old) → IsFrameReached (reach (length space.now.slots) clusters) frame → IsReached (reach (length space.now.slots) clusters) value → IfOk result (IsAskedReached (reach (length space.now.slots) clusters)) }
        ensures left { self.new.left ≡ self.old.left }
        ensures size { IfOk result (λ q. sized q (view_of self.new) ≤ 3 * length self.old.frames.items + 4) }
        ensures fault { IfErr result (λ f. f ≡ Fault.Memory) }
        ensures back { IfErr result (λ _. (h : Course) → after_answer prepared.now.program (view_of self.old) space.now frame (Answer.Gave value) h self.old.left ≡ remaining prepared.now.program (view_of self.new) space.now h) }
    {
        match self.resume_value(prepared, space, frame, value) {
            Ok(request) => Ok(request),
            Err(fault) => {
                push_within(&mut self.frames, frame);
                Err(fault)
            }
        }
    }

    /// The same of each frame that needs the objects or memory. Behind a turn of an iteration a refused growth leaves the iteration
    /// behind its turn.
    #[tactic(auto, unfolding(crate::specs::Within::AreReached))]
    #[inline(never)]
    pub fn resume_rare(
        &mut self,
        prepared: &Prepared,
        space: &Space,
        frame: Frame,
        value: Ref,
    ) -> Result<Option<Request>, Fault>
        requires control { self.old.control ≡ Control.Give (Answer.Gave value) }
        requires room { length self.old.frames.items < vec_capacity self.old.frames }
        requires base { base_of frame ≤ length self.old.held.items }
        requires nested { Nested (reverse self.old.frames.items) (below_of frame self.old.held.items) }
        requires rare { IsRareFrame frame }
        ensures goes { IfOk result (λ q. (h : Course) → after_answer prepared.now.program (view_of self.old) space.now frame (Answer.Gave value) h self.old.left ≡ continuing prepared.now.program (view_of self.new) space.now q h self.new.left) }
        ensures nested { IsNested (view_of self.new) }
        ensures within { (clusters : Option Below) → AreReached (reach (length space.now.slots) clusters) (view_of self.old) → IsFrameReached (reach (length space.now.slots) clusters) frame → IsReached (reach (length space.now.slots) clusters) value → AreReached (reach (length space.now.slots) clusters) (view_of self.new) }
        ensures asks { (clusters : Option Below) → AreReached (reach (length space.now.slots) clusters) (view_of self.old) → IsFrameReached (reach (length space.now.slots) clusters) frame → IsReached (reach (length space.now.slots) clusters) value → IfOk result (IsAskedReached (reach (length space.now.slots) clusters)) }
        ensures left { self.new.left ≡ self.old.left }
        ensures size { IfOk result (λ q. sized q (view_of self.new) ≤ 3 * length self.old.frames.items + 4) }
        ensures fault { IfErr result (λ f. f ≡ Fault.Memory) }
        ensures back { IfErr result (λ _. (h : Course) → after_answer prepared.now.program (view_of self.old) space.now frame (Answer.Gave value) h self.old.left ≡ remaining prepared.now.program (view_of self.new) space.now h) }
    {
        match frame {
            Frame::Round(iteration) => {
                self.resume_round(&prepared.program, space, iteration, value)
            }
            Frame::Asking(asking) => self.resume_asking(prepared, space, asking, value),
            Frame::Item(target, end, count, base) => {
                self.resume_item(prepared, space, target, end, count, base, value)
            }
            _ => self.resume_other(prepared, space, frame, value),
        }
    }

    /// The same, where an assignment to an instance variable, which is what needs them most often, asks at once.
    #[tactic(auto, unfolding(crate::specs::Within::AreReached))]
    #[inline(always)]
    pub fn resume_any(
        &mut self,
        prepared: &Prepared,
        space: &Space,
        frame: Frame,
        value: Ref,
    ) -> Result<Option<Request>, Fault>
        requires control { self.old.control ≡ Control.Give (Answer.Gave value) }
        requires room { length self.old.frames.items < vec_capacity self.old.frames }
        requires base { base_of frame ≤ length self.old.held.items }
        requires nested { Nested (reverse self.old.frames.items) (below_of frame self.old.held.items) }
        requires rare { IsRareFrame frame }
        ensures goes { IfOk result (λ q. (h : Course) → after_answer prepared.now.program (view_of self.old) space.now frame (Answer.Gave value) h self.old.left ≡ continuing prepared.now.program (view_of self.new) space.now q h self.new.left) }
        ensures nested { IsNested (view_of self.new) }
        ensures within { (clusters : Option Below) → AreReached (reach (length space.now.slots) clusters) (view_of self.old) → IsFrameReached (reach (length space.now.slots) clusters) frame → IsReached (reach (length space.now.slots) clusters) value → AreReached (reach (length space.now.slots) clusters) (view_of self.new) }
        ensures asks { (clusters : Option Below) → AreReached (reach (length space.now.slots) clusters) (view_of self.old) → IsFrameReached (reach (length space.now.slots) clusters) frame → IsReached (reach (length space.now.slots) clusters) value → IfOk result (IsAskedReached (reach (length space.now.slots) clusters)) }
        ensures left { self.new.left ≡ self.old.left }
        ensures size { IfOk result (λ q. sized q (view_of self.new) ≤ 3 * length self.old.frames.items + 4) }
        ensures fault { IfErr result (λ f. f ≡ Fault.Memory) }
        ensures back { IfErr result (λ _. (h : Course) → after_answer prepared.now.program (view_of self.old) space.now frame (Answer.Gave value) h self.old.left ≡ remaining prepared.now.program (view_of self.new) space.now h) }
    {
        match frame {
            Frame::SetField(name) => Ok(Some(self.ask_field(name, value))),
            _ => self.resume_rare(prepared, space, frame, value),
        }
    }
}
