//! What a frame does with a value, where that asks nothing.

ghost use Rattle.std.specs.Prelude.{◌≡◌, ◌+◌, ◌*◌, ◌<◌, ◌≤◌, ℕ, length, reverse, vec_capacity, Option, IfErr, OnOk};
ghost use Rattle.rr_base.specs.declared.fault.Fault.{Fault};
ghost use Rattle.rr_space.specs.Tables.{Table, Below};
ghost use Rattle.rr_eval.specs.declared.problem.Answer.{Answer};
ghost use Rattle.rr_eval.specs.Requests.{Course};
ghost use Rattle.rr_eval.specs.Frames.{below_of, base_of, Nested, IsAloneFrame, IsQuietFrame};
ghost use Rattle.rr_eval.specs.Turns.{IsNested, after_answer, remaining_with, Stands, size};
ghost use Rattle.rr_eval.specs.Views.{view_of};
ghost use Rattle.rr_eval.specs.Within.{reach, IsReached, IsFrameReached, AreReached};

use crate::engine::Engine;
use crate::frame::{Control, Frame};
use crate::prepared::Prepared;
use crate::problem::Answer;
use rr_base::Fault;
use rr_space::{Ref, Space};
use rr_tree::Program;

impl Engine {
    /// Does what a frame does with a value, where that takes no memory either.
    pub fn resume_quietly(&mut self, program: &Program, space: &Space, frame: Frame, value: Ref)
        requires room { length self.old.frames.items < vec_capacity self.old.frames }
        requires base { base_of frame ≤ length self.old.held.items }
        requires nested { Nested (reverse self.old.frames.items) (below_of frame self.old.held.items) }
        requires quiet { IsQuietFrame frame }
        ensures goes { (h : Course) (n : ℕ) → after_answer program.now (view_of self.old) space.now frame (Answer.Gave value) h n ≡ remaining_with program.now (view_of self.new) space.now h n }
        ensures nested { IsNested (view_of self.new) }
        ensures within { (clusters : Option Below) → AreReached (reach (length space.now.slots) clusters) (view_of self.old) → IsFrameReached (reach (length space.now.slots) clusters) frame → IsReached (reach (length space.now.slots) clusters) value → AreReached (reach (length space.now.slots) clusters) (view_of self.new) }
        ensures left { self.new.left ≡ self.old.left }
        ensures size { size (view_of self.new) ≤ 3 * length self.old.frames.items + 4 }
    {
        match frame {
            Frame::Assigned(assigning) => self.assign_next(program, assigning),
            Frame::Read(updating) => self.resume_read(updating, value),
            Frame::Combine(combining) => self.resume_combine(combining, value),
            Frame::Rescue(_, _, otherwise) => self.go_else(program, otherwise, value),
            Frame::Class(trial) => self.resume_class(program, space, trial, value),
            Frame::Handling(old) => {
                self.rescuing = old;
                self.control = Control::Give(Answer::Gave(value));
            }
            Frame::Ensure(part) => self.enter_above(Frame::Kept(Answer::Gave(value)), part),
            Frame::Kept(answer) => self.control = Control::Give(answer),
            _ => unreachable!(),
        }
    }

    /// Does what a frame does with a value, where that asks nothing. A refused growth leaves all as it is.
    pub fn resume_alone(
        &mut self,
        prepared: &Prepared,
        space: &Space,
        frame: Frame,
        value: Ref,
    ) -> Result<(), Fault>
        requires room { length self.old.frames.items < vec_capacity self.old.frames }
        requires base { base_of frame ≤ length self.old.held.items }
        requires nested { Nested (reverse self.old.frames.items) (below_of frame self.old.held.items) }
        requires alone { IsAloneFrame frame }
        ensures goes { OnOk result ((h : Course) (n : ℕ) → after_answer prepared.now.program (view_of self.old) space.now frame (Answer.Gave value) h n ≡ remaining_with prepared.now.program (view_of self.new) space.now h n) }
        ensures nested { OnOk result (IsNested (view_of self.new)) }
        ensures within { (clusters : Option Below) → AreReached (reach (length space.now.slots) clusters) (view_of self.old) → IsFrameReached (reach (length space.now.slots) clusters) frame → IsReached (reach (length space.now.slots) clusters) value → AreReached (reach (length space.now.slots) clusters) (view_of self.new) }
        ensures left { self.new.left ≡ self.old.left }
        ensures err { (t : Table) → IfErr result (λ f. Stands (view_of self.old) (view_of self.new) t t f) }
        ensures size { OnOk result (size (view_of self.new) ≤ 3 * length self.old.frames.items + 4) }
        ensures room { IfErr result (λ _. length self.new.frames.items < vec_capacity self.new.frames) }
        ensures fault { IfErr result (λ f. f ≡ Fault.Memory) }
    {
        match frame {
            Frame::Aim(aiming) => self.resume_aim(&prepared.program, aiming, value),
            Frame::Several(end, count, base) => {
                self.resume_several(&prepared.program, space, end, count, base, value)
            }
            Frame::Paired(iteration) => {
                self.call_turn(&prepared.program, space, iteration, Some(value), None)
            }
            Frame::Initialize(making) => self.initialize(prepared, making, value),
            _ => {
                self.resume_quietly(&prepared.program, space, frame, value);
                Ok(())
            }
        }
    }
}
