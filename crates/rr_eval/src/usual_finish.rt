//! Calls with parts that needed a frame, where they are usual: of a method of the program, or of the block that the method was given, where
//! they take no memory.

ghost use Rattle.std.specs.Prelude.{◌≡◌, ◌+◌, ◌*◌, ◌<◌, ◌≤◌, ℕ, List, [], ◌∷◌, ◌++◌, length, reverse, take, vec_capacity, Option, None, IsTrue, IsFalse};
ghost use Rattle.rr_space.specs.declared.refer.Ref.{Ref};
ghost use Rattle.rr_tree.specs.declared.program.Program.{Program};
ghost use Rattle.rr_space.specs.Tables.{Table, Below};
ghost use Rattle.rr_eval.specs.declared.call.Callee.{Callee as Called};
ghost use Rattle.rr_eval.specs.declared.call.Target.{Target as Aim};
ghost use Rattle.rr_eval.specs.declared.frame.Control.{Control};
ghost use Rattle.rr_eval.specs.declared.frame.Frame.{Frame as Waiting};
ghost use Rattle.rr_eval.specs.declared.problem.Answer.{Answer};
ghost use Rattle.rr_eval.specs.Frames.{below_of, base_of, stand_of, Nested};
ghost use Rattle.rr_eval.specs.Requests.{Course};
ghost use Rattle.rr_eval.specs.Rules.{finish};
ghost use Rattle.rr_eval.specs.Turns.{context_of, IsNested, after_answer, after_values, remaining, remaining_with, size};
ghost use Rattle.rr_eval.specs.Usual.{IsTop};
ghost use Rattle.rr_eval.specs.View.{View};
ghost use Rattle.rr_eval.specs.Views.{view_of};
ghost use Rattle.rr_eval.specs.Within.{Reach, reach, AreReached, IsReached};

use crate::attributes::attribute_of;
use crate::blocks::first_value;
use crate::call::{Callee, Passing, Target};
use crate::engine::{Engine, push_within};
use crate::frame::{Control, Frame, first_standing, standing};
use crate::nodes::is_splat;
use crate::prepared::Prepared;
use crate::problem::Answer;
use crate::updating::{Place, Update, Updating, accessed};
use rr_base::Sym;
use rr_space::{Ref, Space};
use rr_tree::NodeId;

impl Engine {
    /// Calls a method of the program on the first of the values that stand for a frame and of one more, with the others.
    #[inline(always)]
    fn finish_sent(
        &mut self,
        prepared: &Prepared,
        space: &Space,
        name: Sym,
        frame: Frame,
        last: Ref,
    ) -> bool
        requires room { length self.old.frames.items < vec_capacity self.old.frames }
        requires base { base_of frame ≤ length self.old.held.items }
        requires nested { Nested (reverse self.old.frames.items) (below_of frame self.old.held.items) }
        ensures goes { IsTrue result → (h : Course) (n : ℕ) → after_values prepared.now.program (view_of self.old) space.now frame (finish (context_of prepared.now.program) (Aim.Call (Called.Name name)) (stand_of frame self.old.held.items ++ last ∷ [])) h n ≡ remaining_with prepared.now.program (view_of self.new) space.now h n }
        ensures nested { IsTrue result → IsNested (view_of self.new) }
        ensures within { (clusters : Option Below) → AreReached (reach (length space.now.slots) clusters) (view_of self.old) → IsReached (reach (length space.now.slots) clusters) last → AreReached (reach (length space.now.slots) clusters) (view_of self.new) }
        ensures left { self.new.left ≡ self.old.left }
        ensures size { IsTrue result → size (view_of self.new) ≤ 3 * length self.old.frames.items + 4 }
        ensures same { IsFalse result → self.new ≡ self.old }
    {
        let receiver = first_value(standing(&self.held, frame), Some(last));
        let callee = Callee::Name(name);
        let None = prepared.joined_by(space, receiver, callee) else {
            return false;
        };
        let Some(definition) = prepared.method_for(space, receiver, callee) else {
            return false;
        };
        let passing = Passing::BehindReceiver;
        self.begin_sent(space, definition, receiver, passing, frame, Some(last))
    }

    /// Calls a method of the program on `self`, with the values that stand for a frame and one more.
    #[inline(always)]
    fn finish_own(
        &mut self,
        prepared: &Prepared,
        space: &Space,
        name: Sym,
        frame: Frame,
        last: Ref,
    ) -> bool
        requires room { length self.old.frames.items < vec_capacity self.old.frames }
        requires base { base_of frame ≤ length self.old.held.items }
        requires nested { Nested (reverse self.old.frames.items) (below_of frame self.old.held.items) }
        ensures goes { IsTrue result → (h : Course) (n : ℕ) → after_values prepared.now.program (view_of self.old) space.now frame (finish (context_of prepared.now.program) (Aim.Own name None) (stand_of frame self.old.held.items ++ last ∷ [])) h n ≡ remaining_with prepared.now.program (view_of self.new) space.now h n }
        ensures nested { IsTrue result → IsNested (view_of self.new) }
        ensures within { (k : Reach) → AreReached k (view_of self.old) → IsReached k last → AreReached k (view_of self.new) }
        ensures left { self.new.left ≡ self.old.left }
        ensures size { IsTrue result → size (view_of self.new) ≤ 3 * length self.old.frames.items + 4 }
        ensures same { IsFalse result → self.new ≡ self.old }
    {
        match self.own_method(prepared, space, name) {
            Some(definition) => self.begin_method(definition, frame, Some(last)),
            None => false,
        }
    }

    /// Reads what is assigned to, where there is room for one more value: the receiver, and the index where there is one, are the values
    /// that stand for a frame and one more.
    fn finish_update(
        &mut self,
        getter: Callee,
        setter: Callee,
        how: Update,
        part: NodeId,
        frame: Frame,
        last: Ref,
    ) -> bool
        requires room { length self.old.frames.items < vec_capacity self.old.frames }
        requires base { base_of frame ≤ length self.old.held.items }
        requires nested { Nested (reverse self.old.frames.items) (below_of frame self.old.held.items) }
        ensures goes { IsTrue result → (p : Program) (t : Table) (h : Course) (n : ℕ) → after_values p (view_of self.old) t frame (finish (context_of p) (Aim.Update getter setter how part) (stand_of frame self.old.held.items ++ last ∷ [])) h n ≡ remaining_with p (view_of self.new) t h n }
        ensures nested { IsTrue result → IsNested (view_of self.new) }
        ensures within { (k : Reach) → AreReached k (view_of self.old) → IsReached k last → AreReached k (view_of self.new) }
        ensures left { self.new.left ≡ self.old.left }
        ensures size { IsTrue result → size (view_of self.new) ≤ 3 * length self.old.frames.items + 4 }
        ensures same { IsFalse result → self.new ≡ self.old }
    {
        if self.held.len() >= self.held.capacity() {
            return false;
        }
        let Some((receiver, argument)) = accessed(standing(&self.held, frame), last) else {
            return false;
        };
        let base = first_standing(&self.held, frame);
        self.held.push_reserved(last);
        let reading = Frame::Read(Updating {
            place: Place::Sent(setter),
            how,
            value: part,
            base,
        });
        self.send_over(reading, getter, receiver, argument);
        true
    }

    /// Does what is done with the values that stand for a frame and with one more, where that is usual: it answers whether it was done.
    #[inline(always)]
    fn finish_often(
        &mut self,
        prepared: &Prepared,
        space: &Space,
        target: Target,
        frame: Frame,
        last: Ref,
    ) -> bool
        requires room { length self.old.frames.items < vec_capacity self.old.frames }
        requires base { base_of frame ≤ length self.old.held.items }
        requires nested { Nested (reverse self.old.frames.items) (below_of frame self.old.held.items) }
        ensures goes { IsTrue result → (h : Course) (n : ℕ) → after_values prepared.now.program (view_of self.old) space.now frame (finish (context_of prepared.now.program) target (stand_of frame self.old.held.items ++ last ∷ [])) h n ≡ remaining_with prepared.now.program (view_of self.new) space.now h n }
        ensures nested { IsTrue result → IsNested (view_of self.new) }
        ensures within { (clusters : Option Below) → AreReached (reach (length space.now.slots) clusters) (view_of self.old) → IsReached (reach (length space.now.slots) clusters) last → AreReached (reach (length space.now.slots) clusters) (view_of self.new) }
        ensures left { self.new.left ≡ self.old.left }
        ensures size { IsTrue result → size (view_of self.new) ≤ 3 * length self.old.frames.items + 4 }
        ensures same { IsFalse result → self.new ≡ self.old }
    {
        match target {
            Target::Call(Callee::Name(name)) => {
                self.finish_sent(prepared, space, name, frame, last)
            }
            Target::Own(name, None) => self.finish_own(prepared, space, name, frame, last),
            Target::Yield => self.begin_yield(&prepared.program, space, frame, Some(last)),
            Target::Update(getter, setter, how, part) => {
                self.finish_update(getter, setter, how, part, frame, last)
            }
            _ => false,
        }
    }

    /// Keeps a value, for which there is room, and evaluates the next part of a list: it answers whether it was done.
    #[tactic(auto, unfolding(crate::specs::Within::AreReached))]
    #[inline(always)]
    fn keep_often(
        &mut self,
        target: Target,
        end: NodeId,
        count: u32,
        base: usize,
        value: Ref,
    ) -> bool
        requires room { length self.old.frames.items < vec_capacity self.old.frames }
        requires some { 0 < count }
        requires base { base ≤ length self.old.held.items }
        requires nested { Nested (reverse self.old.frames.items) (take base self.old.held.items) }
        ensures goes { IsTrue result → (p : Program) (t : Table) (h : Course) (n : ℕ) → after_answer p (view_of self.old) t (Waiting.Receiver target end count base) (Answer.Gave value) h n ≡ remaining_with p (view_of self.new) t h n }
        ensures nested { IsTrue result → IsNested (view_of self.new) }
        ensures within { (k : Reach) → AreReached k (view_of self.old) → IsReached k value → AreReached k (view_of self.new) }
        ensures left { self.new.left ≡ self.old.left }
        ensures size { IsTrue result → size (view_of self.new) ≤ 3 * length self.old.frames.items + 4 }
        ensures same { IsFalse result → self.new ≡ self.old }
    {
        if self.held.len() >= self.held.capacity() {
            return false;
        }
        self.held.push_reserved(value);
        push_within(&mut self.frames, Frame::Item(target, end, count - 1, base));
        self.control = Control::Enter(end.saturating_sub(count));
        true
    }

    /// Goes on with a value of a list of parts, the last `count` of which before `end` are still to be evaluated, where that is usual: it
    /// answers whether it was done.
    #[inline(always)]
    fn go_next(
        &mut self,
        prepared: &Prepared,
        space: &Space,
        target: Target,
        end: NodeId,
        count: u32,
        base: usize,
        value: Ref,
    ) -> bool
        requires room { length self.old.frames.items < vec_capacity self.old.frames }
        requires base { base ≤ length self.old.held.items }
        requires nested { Nested (reverse self.old.frames.items) (take base self.old.held.items) }
        ensures goes { IsTrue result → (h : Course) (n : ℕ) → after_answer prepared.now.program (view_of self.old) space.now (Waiting.Receiver target end count base) (Answer.Gave value) h n ≡ remaining_with prepared.now.program (view_of self.new) space.now h n }
        ensures nested { IsTrue result → IsNested (view_of self.new) }
        ensures within { (clusters : Option Below) → AreReached (reach (length space.now.slots) clusters) (view_of self.old) → IsReached (reach (length space.now.slots) clusters) value → AreReached (reach (length space.now.slots) clusters) (view_of self.new) }
        ensures left { self.new.left ≡ self.old.left }
        ensures size { IsTrue result → size (view_of self.new) ≤ 3 * length self.old.frames.items + 4 }
        ensures same { IsFalse result → self.new ≡ self.old }
    {
        match count {
            0 => {
                let frame = Frame::Receiver(target, end, 0, base);
                self.finish_often(prepared, space, target, frame, value)
            }
            _ => self.keep_often(target, end, count, base, value),
        }
    }

    /// Gives the topmost frame, which waits for a part of a list that is no splat, its value, where what comes then is usual: it answers
    /// whether it was done.
    #[inline(always)]
    fn resume_next(
        &mut self,
        prepared: &Prepared,
        space: &Space,
        target: Target,
        end: NodeId,
        count: u32,
        base: usize,
        frame: Frame,
        value: Ref,
    ) -> bool
        requires control { self.old.control ≡ Control.Give (Answer.Gave value) }
        requires top { IsTop self.old.frames.items frame }
        requires waits { (m : View) (h : Course) (n : ℕ) → after_answer prepared.now.program m space.now frame (Answer.Gave value) h n ≡ after_answer prepared.now.program m space.now (Waiting.Receiver target end count base) (Answer.Gave value) h n }
        requires below { (held : List Ref) → below_of frame held ≡ take base held }
        requires base { base_of frame ≡ base }
        requires nested { IsNested (view_of self.old) }
        ensures goes { (h : Course) → remaining prepared.now.program (view_of self.old) space.now h ≡ remaining prepared.now.program (view_of self.new) space.now h }
        ensures nested { IsNested (view_of self.new) }
        ensures within { (clusters : Option Below) → AreReached (reach (length space.now.slots) clusters) (view_of self.old) → AreReached (reach (length space.now.slots) clusters) (view_of self.new) }
        ensures left { self.new.left ≡ self.old.left }
        ensures kept { size (view_of self.new) ≤ size (view_of self.old) }
        ensures falls { IsTrue result → size (view_of self.new) < size (view_of self.old) }
    {
        self.take_top(frame, Answer::Gave(value));
        if self.go_next(prepared, space, target, end, count, base, value) {
            return true;
        }
        push_within(&mut self.frames, frame);
        false
    }

    /// Gives the topmost frame, which waits for a part of a list or for the last value of a target, its value, where the part is no splat
    /// and what comes then is usual: it answers whether it was done.
    #[inline(always)]
    fn resume_listed(
        &mut self,
        prepared: &Prepared,
        space: &Space,
        frame: Frame,
        value: Ref,
    ) -> bool
        requires control { self.old.control ≡ Control.Give (Answer.Gave value) }
        requires top { IsTop self.old.frames.items frame }
        requires nested { IsNested (view_of self.old) }
        ensures goes { (h : Course) → remaining prepared.now.program (view_of self.old) space.now h ≡ remaining prepared.now.program (view_of self.new) space.now h }
        ensures nested { IsNested (view_of self.new) }
        ensures within { (clusters : Option Below) → AreReached (reach (length space.now.slots) clusters) (view_of self.old) → AreReached (reach (length space.now.slots) clusters) (view_of self.new) }
        ensures left { self.new.left ≡ self.old.left }
        ensures kept { size (view_of self.new) ≤ size (view_of self.old) }
        ensures falls { IsTrue result → size (view_of self.new) < size (view_of self.old) }
    {
        match frame {
            Frame::Argument(target, end, 0, base) => {
                self.resume_next(prepared, space, target, end, 0, base, frame, value)
            }
            Frame::Receiver(target, end, count, base) => {
                self.resume_next(prepared, space, target, end, count, base, frame, value)
            }
            Frame::Item(target, end, count, base) => {
                let part = end.saturating_sub(count).saturating_sub(1);
                if is_splat(&prepared.program, part) {
                    return false;
                }
                self.resume_next(prepared, space, target, end, count, base, frame, value)
            }
            _ => false,
        }
    }

    /// Gives the topmost frame, behind whose part there is one more, its value, where that is usual: it answers whether it was done.
    #[inline(always)]
    fn resume_one(
        &mut self,
        prepared: &Prepared,
        space: &Space,
        target: Target,
        end: NodeId,
        base: usize,
        value: Ref,
    ) -> bool
        requires control { self.old.control ≡ Control.Give (Answer.Gave value) }
        requires top { IsTop self.old.frames.items (Waiting.Argument target end 1 base) }
        requires nested { IsNested (view_of self.old) }
        ensures goes { (h : Course) → remaining prepared.now.program (view_of self.old) space.now h ≡ remaining prepared.now.program (view_of self.new) space.now h }
        ensures nested { IsNested (view_of self.new) }
        ensures within { (clusters : Option Below) → AreReached (reach (length space.now.slots) clusters) (view_of self.old) → AreReached (reach (length space.now.slots) clusters) (view_of self.new) }
        ensures left { self.new.left ≡ self.old.left }
        ensures kept { size (view_of self.new) ≤ size (view_of self.old) }
        ensures falls { IsTrue result → size (view_of self.new) < size (view_of self.old) }
    {
        // No splat stands between the brackets of an index.
        if is_splat(&prepared.program, end.saturating_sub(1)) {
            return false;
        }
        let frame = Frame::Argument(target, end, 1, base);
        self.resume_next(prepared, space, target, end, 1, base, frame, value)
    }

    /// Gives the topmost frame, which waits for the receiver of a call without arguments, its value, where the call reads an attribute: it
    /// answers whether it was done.
    #[inline(always)]
    fn resume_reading(
        &mut self,
        prepared: &Prepared,
        space: &Space,
        name: Sym,
        end: NodeId,
        base: usize,
        value: Ref,
    ) -> bool
        requires control { self.old.control ≡ Control.Give (Answer.Gave value) }
        requires top { IsTop self.old.frames.items (Waiting.Receiver (Aim.Call (Called.Name name)) end 0 base) }
        requires nested { IsNested (view_of self.old) }
        ensures goes { (h : Course) → remaining prepared.now.program (view_of self.old) space.now h ≡ remaining prepared.now.program (view_of self.new) space.now h }
        ensures nested { IsNested (view_of self.new) }
        ensures within { (clusters : Option Below) → AreReached (reach (length space.now.slots) clusters) (view_of self.old) → AreReached (reach (length space.now.slots) clusters) (view_of self.new) }
        ensures left { self.new.left ≡ self.old.left }
        ensures falls { IsTrue result → size (view_of self.new) < size (view_of self.old) }
        ensures same { IsFalse result → self.new ≡ self.old }
    {
        // No value stands for the frame: the receiver is the first one.
        if self.held.len() != base {
            return false;
        }
        let Some(read) = attribute_of(prepared, space, value, name) else {
            return false;
        };
        let frame = Frame::Receiver(Target::Call(Callee::Name(name)), end, 0, base);
        self.take_top(frame, Answer::Gave(value));
        self.control.give(read);
        true
    }

    /// Gives the topmost frame a value, where it waits for the receiver of a call that reads an attribute: it answers whether it does. The
    /// frame is looked at first where it lies, so that a reader's is not copied.
    #[inline(always)]
    fn resume_reader(&mut self, prepared: &Prepared, space: &Space, value: Ref) -> bool
        requires control { self.old.control ≡ Control.Give (Answer.Gave value) }
        requires nested { IsNested (view_of self.old) }
        ensures goes { (h : Course) → remaining prepared.now.program (view_of self.old) space.now h ≡ remaining prepared.now.program (view_of self.new) space.now h }
        ensures nested { IsNested (view_of self.new) }
        ensures within { (clusters : Option Below) → AreReached (reach (length space.now.slots) clusters) (view_of self.old) → AreReached (reach (length space.now.slots) clusters) (view_of self.new) }
        ensures left { self.new.left ≡ self.old.left }
        ensures falls { IsTrue result → size (view_of self.new) < size (view_of self.old) }
        ensures same { IsFalse result → self.new ≡ self.old }
    {
        match self.frames.last() {
            Some(&Frame::Receiver(target, end, count, base)) => {
                if let Target::Call(Callee::Name(name)) = target
                    && count == 0
                {
                    return self.resume_reading(prepared, space, name, end, base, value);
                }
                false
            }
            _ => false,
        }
    }

    /// Gives the topmost frame a value, where it is such a frame and that is usual: it answers whether it was done.
    #[cold]
    #[inline(never)]
    pub fn resume_parts(&mut self, prepared: &Prepared, space: &Space) -> bool
        requires nested { IsNested (view_of self.old) }
        ensures goes { (h : Course) → remaining prepared.now.program (view_of self.old) space.now h ≡ remaining prepared.now.program (view_of self.new) space.now h }
        ensures nested { IsNested (view_of self.new) }
        ensures within { (clusters : Option Below) → AreReached (reach (length space.now.slots) clusters) (view_of self.old) → AreReached (reach (length space.now.slots) clusters) (view_of self.new) }
        ensures left { self.new.left ≡ self.old.left }
        ensures kept { size (view_of self.new) ≤ size (view_of self.old) }
        ensures falls { IsTrue result → size (view_of self.new) < size (view_of self.old) }
    {
        let Control::Give(Answer::Gave(value)) = self.control else {
            return false;
        };
        if self.resume_reader(prepared, space, value) {
            return true;
        }
        match self.frames.last() {
            Some(&Frame::Argument(target, end, count, base)) => match count {
                1 => self.resume_one(prepared, space, target, end, base, value),
                _ => {
                    let frame = Frame::Argument(target, end, count, base);
                    self.resume_listed(prepared, space, frame, value)
                }
            },
            Some(&Frame::Receiver(target, end, count, base)) => {
                let frame = Frame::Receiver(target, end, count, base);
                self.resume_listed(prepared, space, frame, value)
            }
            Some(&Frame::Item(target, end, count, base)) => {
                let frame = Frame::Item(target, end, count, base);
                self.resume_listed(prepared, space, frame, value)
            }
            _ => false,
        }
    }
}
