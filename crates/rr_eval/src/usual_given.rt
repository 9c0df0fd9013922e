//! Calls of built-in methods whose last value the topmost frame waited for, and assignments to instance variables: they are asked for at
//! once, in front of acts of any kind.

ghost use Rattle.std.specs.Prelude.{◌≡◌, ◌+◌, ◌*◌, ◌<◌, ◌≤◌, ℕ, List, [], ◌∷◌, ◌++◌, length, take, drop, slice_index_or, Option, None, IfSome, IfNone, IsTrue};
ghost use Rattle.std.specs.List.{All};
ghost use Rattle.rr_space.specs.Tables.{Table, Below};
ghost use Rattle.rr_tree.specs.declared.program.Program.{Program};
ghost use Rattle.rr_eval.specs.declared.call.Callee.{Callee as Called};
ghost use Rattle.rr_eval.specs.declared.call.Target.{Target};
ghost use Rattle.rr_eval.specs.declared.frame.Control.{Control};
ghost use Rattle.rr_eval.specs.declared.frame.Frame.{Frame as Waiting};
ghost use Rattle.rr_eval.specs.declared.problem.Answer.{Answer as Answers};
ghost use Rattle.rr_eval.specs.declared.updating.Place.{Place};
ghost use Rattle.rr_eval.specs.Context.{Context};
ghost use Rattle.rr_eval.specs.Dispatch.{operation, send_rule};
ghost use Rattle.rr_eval.specs.Frames.{below_of};
ghost use Rattle.rr_eval.specs.Requests.{Course, arguments_of, asked_of};
ghost use Rattle.rr_eval.specs.Rules.{finish};
ghost use Rattle.rr_eval.specs.Script.{Asked, Calls};
ghost use Rattle.rr_eval.specs.Turns.{context_of, IsNested, remaining, after_answer, after_values, asking_then, power, size, sized};
ghost use Rattle.rr_eval.specs.Usual.{GoesOnAsCall, GoesOnAsking, IsAskedFor, IsTop};
ghost use Rattle.rr_eval.specs.View.{View};
ghost use Rattle.rr_eval.specs.Views.{view_of};
ghost use Rattle.rr_eval.specs.Within.{Reach, reach, IsReached, IsRequestReached, AreReached};

use crate::blocks::first_value;
use crate::call::{Arguments, Call, Callee, Target};
use crate::engine::Engine;
use crate::frame::{Frame, standing};
use crate::nodes::is_splat;
use crate::prepared::Prepared;
use crate::problem::Answer;
use crate::request::Request;
use crate::updating::Place;
use rr_space::{Ref, Space};
use rr_tree::{BinaryOperator, NodeId};

/// The arguments among the values that stand for a call, the first of which is its receiver, and one more, where there are no more than
/// two of them.
#[inline(always)]
fn few_arguments(stand: &[Ref], value: Ref) -> Option<Arguments>
    ensures are { IfSome result (λ a. slice_index_or (stand.now ++ value ∷ []) 0 Ref.Nil ∷ arguments_of a ≡ stand.now ++ value ∷ []) }
    ensures within { (k : Reach) → All (IsReached k) stand.now → IsReached k value → IfSome result (λ a. All (IsReached k) (arguments_of a)) }
{
    match stand {
        [] => Some(Arguments::Without),
        [_] => Some(Arguments::One(value)),
        [_, first] => Some(Arguments::Two(*first, value)),
        _ => None,
    }
}

/// Whether an operator on two values is a call of the first one: they are not two integers.
#[inline(always)]
fn is_called(op: BinaryOperator, left: Ref, right: Ref) -> bool
    ensures { IsTrue result → (c : Context) → operation c op left right ≡ send_rule c (Called.Operator op) None left (right ∷ []) }
{
    match (left, right) {
        (Ref::Int(_), Ref::Int(_)) => false,
        _ => true,
    }
}

impl Engine {
    /// Takes the topmost frame, which waited for this value, off the stack, and the values that stand for it. The steps of what is
    /// evaluated behind it are spent.
    #[inline(always)]
    pub(crate) fn take_waiting(&mut self, frame: Frame, base: usize, value: Ref, steps: u64)
        requires control { self.old.control ≡ Control.Give (Answers.Gave value) }
        requires top { IsTop self.old.frames.items frame }
        requires below { (held : List Ref) → below_of frame held ≡ take base held }
        requires enough { steps ≤ self.old.left }
        requires nested { IsNested (view_of self.old) }
        ensures goes { (p : Program) (t : Table) (callee : Called) (v : Ref) (vs : List Ref) → GoesOnAsCall p (view_of self.old) t frame value steps callee v vs → IsAskedFor (context_of p) t callee v
            → (h : Course) → remaining p (view_of self.old) t h ≡ asking_then p (view_of self.new) t (Calls v callee vs) h }
        ensures asks { (p : Program) (t : Table) (q : Asked) → GoesOnAsking p (view_of self.old) t frame value steps q
            → (h : Course) → remaining p (view_of self.old) t h ≡ asking_then p (view_of self.new) t q h }
        ensures nested { IsNested (view_of self.new) }
        ensures within { (k : Reach) → AreReached k (view_of self.old) → AreReached k (view_of self.new) }
        ensures left { self.new.left + steps ≡ self.old.left }
        ensures size { size (view_of self.old) ≡ 3 * length self.new.frames.items + 5 }
    {
        let rest = self.frames.len().saturating_sub(1);
        self.frames.truncate(rest);
        self.held.truncate(base);
        self.left -= steps;
    }

    /// Asks for a call whose last value the topmost frame waited for, where there are no more than two arguments.
    #[inline(always)]
    fn ask_last(
        &mut self,
        prepared: &Prepared,
        space: &Space,
        callee: Callee,
        base: usize,
        frame: Frame,
        value: Ref,
    ) -> Option<Request>
        requires control { self.old.control ≡ Control.Give (Answers.Gave value) }
        requires top { IsTop self.old.frames.items frame }
        requires waits { (m : View) (h : Course) (n : ℕ) → after_answer prepared.now.program m space.now frame (Answers.Gave value) h n
            ≡ after_values prepared.now.program m space.now frame (finish (context_of prepared.now.program) (Target.Call callee) (drop base m.held ++ value ∷ [])) h n }
        requires below { (held : List Ref) → below_of frame held ≡ take base held }
        requires nested { IsNested (view_of self.old) }
        ensures goes { IfSome result (λ q. (h : Course) → remaining prepared.now.program (view_of self.old) space.now h ≡ asking_then prepared.now.program (view_of self.new) space.now (asked_of space.now q) h) }
        ensures nested { IsNested (view_of self.new) }
        ensures within { (clusters : Option Below) → AreReached (reach (length space.now.slots) clusters) (view_of self.old) → AreReached (reach (length space.now.slots) clusters) (view_of self.new) }
        ensures asks { (clusters : Option Below) → AreReached (reach (length space.now.slots) clusters) (view_of self.old) → IfSome result (IsRequestReached (reach (length space.now.slots) clusters)) }
        ensures left { self.new.left ≡ self.old.left }
        ensures falls { IfSome result (λ q. 9 * self.new.left + sized (Option.Some q) (view_of self.new) < power (view_of self.old)) }
        ensures none { IfNone result (view_of self.new ≡ view_of self.old) }
    {
        if self.held.len() < base {
            return None;
        }
        let stand = standing(
            &self.held,
            Frame::Receiver(Target::Call(callee), 0, 0, base),
        );
        let receiver = first_value(stand, Some(value));
        if !prepared.is_asked_for(space, receiver, callee) {
            return None;
        }
        let Some(arguments) = few_arguments(stand, value) else {
            return None;
        };
        self.take_waiting(frame, base, value, 0);
        Some(Request::Call(Call {
            receiver,
            callee,
            arguments,
        }))
    }

    /// Asks for a call of the receiver that the topmost frame waited for, whose one argument needs no frame.
    #[inline(always)]
    fn ask_next(
        &mut self,
        prepared: &Prepared,
        space: &Space,
        callee: Callee,
        end: NodeId,
        base: usize,
        value: Ref,
        stop: u64,
    ) -> Option<Request>
        requires control { self.old.control ≡ Control.Give (Answers.Gave value) }
        requires top { IsTop self.old.frames.items (Waiting.Argument (Target.Call callee) end 1 base) }
        requires stop { stop ≤ self.old.left }
        requires nested { IsNested (view_of self.old) }
        ensures goes { IfSome result (λ q. (h : Course) → remaining prepared.now.program (view_of self.old) space.now h ≡ asking_then prepared.now.program (view_of self.new) space.now (asked_of space.now q) h) }
        ensures nested { IsNested (view_of self.new) }
        ensures within { (clusters : Option Below) → AreReached (reach (length space.now.slots) clusters) (view_of self.old) → AreReached (reach (length space.now.slots) clusters) (view_of self.new) }
        ensures asks { (clusters : Option Below) → AreReached (reach (length space.now.slots) clusters) (view_of self.old) → IfSome result (IsRequestReached (reach (length space.now.slots) clusters)) }
        ensures left { stop ≤ self.new.left }
        ensures falls { IfSome result (λ q. 9 * self.new.left + sized (Option.Some q) (view_of self.new) < power (view_of self.old)) }
        ensures none { IfNone result (view_of self.new ≡ view_of self.old) }
    {
        if base < self.held.len() || self.left <= stop {
            return None;
        }
        if !prepared.is_asked_for(space, value, callee) {
            return None;
        }
        let Some(last) = self.quick_before(prepared, space, end.saturating_sub(1), stop) else {
            return None;
        };
        let frame = Frame::Argument(Target::Call(callee), end, 1, base);
        let arguments = Arguments::One(last.value);
        self.take_waiting(frame, base, value, last.steps);
        Some(Request::Call(Call {
            receiver: value,
            callee,
            arguments,
        }))
    }

    /// Asks for a call of the left operand of an operator, whose right operand the topmost frame waited for, where they are not two
    /// integers.
    #[inline(always)]
    fn ask_operator(
        &mut self,
        prepared: &Prepared,
        space: &Space,
        op: BinaryOperator,
        left: Ref,
        value: Ref,
    ) -> Option<Request>
        requires control { self.old.control ≡ Control.Give (Answers.Gave value) }
        requires top { IsTop self.old.frames.items (Waiting.Right op left) }
        requires nested { IsNested (view_of self.old) }
        ensures goes { IfSome result (λ q. (h : Course) → remaining prepared.now.program (view_of self.old) space.now h ≡ asking_then prepared.now.program (view_of self.new) space.now (asked_of space.now q) h) }
        ensures nested { IsNested (view_of self.new) }
        ensures within { (clusters : Option Below) → AreReached (reach (length space.now.slots) clusters) (view_of self.old) → AreReached (reach (length space.now.slots) clusters) (view_of self.new) }
        ensures asks { (clusters : Option Below) → AreReached (reach (length space.now.slots) clusters) (view_of self.old) → IfSome result (IsRequestReached (reach (length space.now.slots) clusters)) }
        ensures left { self.new.left ≡ self.old.left }
        ensures falls { IfSome result (λ q. 9 * self.new.left + sized (Option.Some q) (view_of self.new) < power (view_of self.old)) }
        ensures none { IfNone result (view_of self.new ≡ view_of self.old) }
    {
        if !is_called(op, left, value) {
            return None;
        }
        let callee = Callee::Operator(op);
        if !prepared.is_asked_for(space, left, callee) {
            return None;
        }
        self.take_top(Frame::Right(op, left), Answer::Gave(value));
        Some(Request::Call(Call {
            receiver: left,
            callee,
            arguments: Arguments::One(value),
        }))
    }

    /// Asks for a call that assigns to an element or an attribute, whose value the topmost frame waited for.
    #[inline(always)]
    fn ask_put(
        &mut self,
        prepared: &Prepared,
        space: &Space,
        callee: Callee,
        base: usize,
        value: Ref,
    ) -> Option<Request>
        requires control { self.old.control ≡ Control.Give (Answers.Gave value) }
        requires top { IsTop self.old.frames.items (Waiting.Put (Place.Sent callee) base) }
        requires nested { IsNested (view_of self.old) }
        ensures goes { IfSome result (λ q. (h : Course) → remaining prepared.now.program (view_of self.old) space.now h ≡ asking_then prepared.now.program (view_of self.new) space.now (asked_of space.now q) h) }
        ensures nested { IsNested (view_of self.new) }
        ensures within { (clusters : Option Below) → AreReached (reach (length space.now.slots) clusters) (view_of self.old) → AreReached (reach (length space.now.slots) clusters) (view_of self.new) }
        ensures asks { (clusters : Option Below) → AreReached (reach (length space.now.slots) clusters) (view_of self.old) → IfSome result (IsRequestReached (reach (length space.now.slots) clusters)) }
        ensures left { self.new.left ≡ self.old.left }
        ensures falls { IfSome result (λ q. 9 * self.new.left + sized (Option.Some q) (view_of self.new) < power (view_of self.old)) }
        ensures none { IfNone result (view_of self.new ≡ view_of self.old) }
    {
        if self.held.len() < base {
            return None;
        }
        let frame = Frame::Put(Place::Sent(callee), base);
        let stand = standing(&self.held, frame);
        let receiver = first_value(stand, Some(value));
        if !prepared.is_asked_for(space, receiver, callee) {
            return None;
        }
        let Some(arguments) = few_arguments(stand, value) else {
            return None;
        };
        self.take_waiting(frame, base, value, 0);
        Some(Request::Call(Call {
            receiver,
            callee,
            arguments,
        }))
    }

    /// Asks for what the topmost frame asks for now that its value is there: an assignment to an instance variable, or a call of a
    /// built-in method.
    #[inline(always)]
    pub fn ask_given(
        &mut self,
        prepared: &Prepared,
        space: &Space,
        value: Ref,
        stop: u64,
    ) -> Option<Request>
        requires control { self.old.control ≡ Control.Give (Answers.Gave value) }
        requires stop { stop ≤ self.old.left }
        requires nested { IsNested (view_of self.old) }
        ensures goes { IfSome result (λ q. (h : Course) → remaining prepared.now.program (view_of self.old) space.now h ≡ asking_then prepared.now.program (view_of self.new) space.now (asked_of space.now q) h) }
        ensures nested { IsNested (view_of self.new) }
        ensures within { (clusters : Option Below) → AreReached (reach (length space.now.slots) clusters) (view_of self.old) → AreReached (reach (length space.now.slots) clusters) (view_of self.new) }
        ensures asks { (clusters : Option Below) → AreReached (reach (length space.now.slots) clusters) (view_of self.old) → IfSome result (IsRequestReached (reach (length space.now.slots) clusters)) }
        ensures left { stop ≤ self.new.left }
        ensures falls { IfSome result (λ q. 9 * self.new.left + sized (Option.Some q) (view_of self.new) < power (view_of self.old)) }
        ensures none { IfNone result (view_of self.new ≡ view_of self.old) }
    {
        match self.frames.last() {
            Some(&Frame::SetField(name)) => {
                self.take_top(Frame::SetField(name), Answer::Gave(value));
                Some(self.ask_field(name, value))
            }
            Some(&Frame::Right(op, left)) => self.ask_operator(prepared, space, op, left, value),
            // Attributes are asked for with what is asked less often.
            Some(&Frame::Put(Place::Sent(Callee::Setter(_)), _)) => None,
            Some(&Frame::Put(Place::Sent(callee), base)) => {
                self.ask_put(prepared, space, callee, base, value)
            }
            Some(&Frame::Argument(Target::Call(callee), end, 0, base)) => {
                let frame = Frame::Argument(Target::Call(callee), end, 0, base);
                self.ask_last(prepared, space, callee, base, frame, value)
            }
            Some(&Frame::Argument(Target::Call(callee), end, 1, base)) => {
                self.ask_next(prepared, space, callee, end, base, value, stop)
            }
            Some(&Frame::Receiver(Target::Call(callee), end, 0, base)) => {
                let frame = Frame::Receiver(Target::Call(callee), end, 0, base);
                self.ask_last(prepared, space, callee, base, frame, value)
            }
            Some(&Frame::Item(Target::Call(callee), end, 0, base)) => {
                if is_splat(&prepared.program, end.saturating_sub(1)) {
                    return None;
                }
                let frame = Frame::Item(Target::Call(callee), end, 0, base);
                self.ask_last(prepared, space, callee, base, frame, value)
            }
            _ => None,
        }
    }
}
