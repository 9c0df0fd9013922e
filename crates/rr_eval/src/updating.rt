//! Assignments that also read what they assign to, as they go on.

ghost use Rattle.std.specs.Prelude.{◌≡◌, ◌+◌, ◌*◌, ◌<◌, ◌≤◌, ◌∷◌, ◌++◌, [], ℕ, length, reverse, take, drop, vec_capacity, Option, None, IfOk, IfErr, IfSome, OnOk};
ghost use Rattle.std.specs.List.{All};
ghost use Rattle.rr_base.specs.declared.fault.Fault.{Fault};
ghost use Rattle.rr_frames.specs.Frames.{list_of};
ghost use Rattle.rr_space.specs.Tables.{Table, Below};
ghost use Rattle.rr_tree.specs.Tree.{tree_at};
ghost use Rattle.rr_tree.specs.declared.program.Program.{Program};
ghost use Rattle.rr_eval.specs.declared.call.Target.{Target};
ghost use Rattle.rr_eval.specs.declared.problem.Answer.{Answer};
ghost use Rattle.rr_eval.specs.Script.{Ret};
ghost use Rattle.rr_eval.specs.Rules.{finish, write};
ghost use Rattle.rr_eval.specs.Fields.{set_field_rule};
ghost use Rattle.rr_eval.specs.Updating.{put, put_unless};
ghost use Rattle.rr_eval.specs.Requests.{Course, asked_of};
ghost use Rattle.rr_eval.specs.Frames.{below_of, base_of, stand_of, Nested};
ghost use Rattle.rr_eval.specs.Turns.{context_of, IsNested, after_answer, after_values, asking_with, continuing, Stands, sized, remaining_with, size};
ghost use Rattle.rr_eval.specs.Views.{view_of};
ghost use Rattle.rr_eval.specs.Within.{Reach, reach, IsReached, IsRequestReached, IsAskedReached, AreReached};

use crate::call::Callee;
use crate::call_stack::Variable;
use crate::engine::Engine;
use crate::frame::{Control, Frame, clear, first_standing, standing};
use crate::prepared::Prepared;
use crate::problem::{Answer, Problem};
use crate::request::Request;
use rr_base::{Fault, Sym};
use rr_builtin::is_truthy;
use rr_space::{Ref, Space};
use rr_tree::NodeId;

/// What is assigned to.
#[derive(Clone, Copy)]
pub enum Place {
    Variable(Variable),
    /// An instance variable of `self`.
    Field(Sym),
    /// A global variable.
    Global(Sym),
    /// A constant.
    Constant(Sym),
    /// What a call of this assigns to: an element or an attribute.
    Sent(Callee),
}

/// How an assignment makes its value of what is there.
#[derive(Clone, Copy)]
pub enum Update {
    /// An operator or `<<`: a call of what is there with the right side.
    Combine(Callee),
    /// `||=`: the right side, where nil or false is there.
    Or,
    /// `&&=`: the right side, where neither nil nor false is there.
    And,
}

/// An assignment that reads what is there.
#[derive(Clone, Copy)]
pub struct Updating {
    pub place: Place,
    pub how: Update,
    /// The node of the right side.
    pub value: NodeId,
    /// Where the values begin that stand for the place: the receiver, and the index where there is one.
    pub base: usize,
}

/// An assignment that calls what is there with the right side.
#[derive(Clone, Copy)]
pub struct Combining {
    pub place: Place,
    pub callee: Callee,
    pub old: Ref,
    /// Where the values begin that stand for the place.
    pub base: usize,
}

/// The receiver, and the index where there is one; nothing where there are more values.
pub fn accessed(values: &[Ref], last: Ref) -> Option<(Ref, Option<Ref>)>
    ensures are { IfSome result (λ r. values.now ++ last ∷ [] ≡ r.0 ∷ list_of r.1) }
    ensures more { result ≡ None → 2 < length (values.now ++ last ∷ []) }
    ensures within { (k : Reach) → All (IsReached k) values.now → IsReached k last → IfSome result (λ r. IsReached k r.0 × All (IsReached k) (list_of r.1)) }
{
    match values {
        [] => Some((last, None)),
        [receiver] => Some((*receiver, Some(last))),
        _ => None,
    }
}

impl Engine {
    /// Gives a value in the place of what is done with the values that stand for a frame.
    #[tactic(auto, unfolding(crate::specs::Within::AreReached))]
    pub fn give_over(&mut self, frame: Frame, value: Ref)
        requires base { base_of frame ≤ length self.old.held.items }
        requires nested { Nested (reverse self.old.frames.items) (below_of frame self.old.held.items) }
        ensures goes { (p : Program) (t : Table) (h : Course) (n : ℕ) → after_values p (view_of self.old) t frame (Ret (Answer.Gave value)) h n ≡ remaining_with p (view_of self.new) t h n }
        ensures nested { IsNested (view_of self.new) }
        ensures within { (k : Reach) → AreReached k (view_of self.old) → IsReached k value → AreReached k (view_of self.new) }
        ensures left { self.new.left ≡ self.old.left }
        ensures size { size (view_of self.new) ≤ 3 * length self.old.frames.items + 4 }
    {
        clear(&mut self.held, frame);
        self.control = Control::Give(Answer::Gave(value));
    }

    /// Gives what is there where it stays; else the right side is evaluated and assigned.
    fn put_unless(&mut self, there: bool, updating: Updating, old: Ref)
        requires room { length self.old.frames.items < vec_capacity self.old.frames }
        requires base { updating.base ≤ length self.old.held.items }
        requires nested { Nested (reverse self.old.frames.items) (take updating.base self.old.held.items) }
        ensures goes { (p : Program) (t : Table) (h : Course) (n : ℕ) → after_values p (view_of self.old) t (Frame.Read updating) (put_unless there (tree_at p.nodes.items updating.value) (put (context_of p) updating.place (drop updating.base self.old.held.items)) old) h n ≡ remaining_with p (view_of self.new) t h n }
        ensures nested { IsNested (view_of self.new) }
        ensures within { (k : Reach) → AreReached k (view_of self.old) → IsReached k old → AreReached k (view_of self.new) }
        ensures left { self.new.left ≡ self.old.left }
        ensures size { size (view_of self.new) ≤ 3 * length self.old.frames.items + 4 }
    {
        let frame = Frame::Put(updating.place, updating.base);
        if there {
            self.give_over(frame, old);
        } else {
            self.enter_over(frame, updating.value);
        }
    }

    /// Goes on with what an assignment read.
    pub fn resume_read(&mut self, updating: Updating, old: Ref)
        requires room { length self.old.frames.items < vec_capacity self.old.frames }
        requires base { updating.base ≤ length self.old.held.items }
        requires nested { Nested (reverse self.old.frames.items) (take updating.base self.old.held.items) }
        ensures goes { (p : Program) (t : Table) (h : Course) (n : ℕ) → after_answer p (view_of self.old) t (Frame.Read updating) (Answer.Gave old) h n ≡ remaining_with p (view_of self.new) t h n }
        ensures nested { IsNested (view_of self.new) }
        ensures within { (k : Reach) → AreReached k (view_of self.old) → IsReached k old → AreReached k (view_of self.new) }
        ensures left { self.new.left ≡ self.old.left }
        ensures size { size (view_of self.new) ≤ 3 * length self.old.frames.items + 4 }
    {
        match updating.how {
            Update::Combine(callee) => {
                let combining = Combining {
                    place: updating.place,
                    callee,
                    old,
                    base: updating.base,
                };
                self.enter_over(Frame::Combine(combining), updating.value);
            }
            Update::Or => self.put_unless(is_truthy(old), updating, old),
            Update::And => self.put_unless(!is_truthy(old), updating, old),
        }
    }

    /// Calls what an assignment read with the right side, whose value is then assigned.
    pub fn resume_combine(&mut self, combining: Combining, value: Ref)
        requires room { length self.old.frames.items < vec_capacity self.old.frames }
        requires base { combining.base ≤ length self.old.held.items }
        requires nested { Nested (reverse self.old.frames.items) (take combining.base self.old.held.items) }
        ensures goes { (p : Program) (t : Table) (h : Course) (n : ℕ) → after_answer p (view_of self.old) t (Frame.Combine combining) (Answer.Gave value) h n ≡ remaining_with p (view_of self.new) t h n }
        ensures nested { IsNested (view_of self.new) }
        ensures within { (k : Reach) → AreReached k (view_of self.old) → IsReached k combining.old → IsReached k value → AreReached k (view_of self.new) }
        ensures left { self.new.left ≡ self.old.left }
        ensures size { size (view_of self.new) ≤ 3 * length self.old.frames.items + 4 }
    {
        let frame = Frame::Put(combining.place, combining.base);
        self.send_over(frame, combining.callee, combining.old, Some(value));
    }

    /// Gives a variable a value in the place of what is done with the values that stand for a frame.
    #[tactic(auto, unfolding(crate::specs::Within::AreReached))]
    fn put_variable(&mut self, frame: Frame, variable: Variable, value: Ref)
        requires base { base_of frame ≤ length self.old.held.items }
        requires nested { Nested (reverse self.old.frames.items) (below_of frame self.old.held.items) }
        ensures goes { (p : Program) (t : Table) (h : Course) (n : ℕ) → after_values p (view_of self.old) t frame (write variable value) h n ≡ remaining_with p (view_of self.new) t h n }
        ensures nested { IsNested (view_of self.new) }
        ensures within { (k : Reach) → AreReached k (view_of self.old) → IsReached k value → AreReached k (view_of self.new) }
        ensures left { self.new.left ≡ self.old.left }
        ensures size { size (view_of self.new) ≤ 3 * length self.old.frames.items + 4 }
    {
        clear(&mut self.held, frame);
        self.calls.write(variable, value);
        self.control = Control::Give(Answer::Gave(value));
    }

    /// Asks for an assignment to an instance variable of `self` in the place of what is done with the values that stand for a frame.
    #[tactic(auto, unfolding(crate::specs::Within::AreReached))]
    fn put_field(&mut self, frame: Frame, name: Sym, value: Ref) -> Request
        requires base { base_of frame ≤ length self.old.held.items }
        requires nested { Nested (reverse self.old.frames.items) (below_of frame self.old.held.items) }
        ensures goes { (p : Program) (t : Table) (h : Course) (n : ℕ) → after_values p (view_of self.old) t frame (set_field_rule (context_of p) name value) h n ≡ asking_with p (view_of self.new) t (asked_of t result) h n }
        ensures nested { IsNested (view_of self.new) }
        ensures within { (k : Reach) → AreReached k (view_of self.old) → AreReached k (view_of self.new) }
        ensures asks { (k : Reach) → AreReached k (view_of self.old) → IsReached k value → IsRequestReached k result }
        ensures left { self.new.left ≡ self.old.left }
        ensures frames { self.new.frames.items ≡ self.old.frames.items }
    {
        clear(&mut self.held, frame);
        self.ask_field(name, value)
    }

    /// Assigns a value, with the values that stand for what is assigned to.
    pub fn resume_put(
        &mut self,
        prepared: &Prepared,
        space: &Space,
        place: Place,
        base: usize,
        value: Ref,
    ) -> Result<Option<Request>, Fault>
        requires room { length self.old.frames.items < vec_capacity self.old.frames }
        requires base { base ≤ length self.old.held.items }
        requires nested { Nested (reverse self.old.frames.items) (take base self.old.held.items) }
        ensures goes { IfOk result (λ q. (h : Course) (n : ℕ) → after_answer prepared.now.program (view_of self.old) space.now (Frame.Put place base) (Answer.Gave value) h n ≡ continuing prepared.now.program (view_of self.new) space.now q h n) }
        ensures nested { OnOk result (IsNested (view_of self.new)) }
        ensures within { (clusters : Option Below) → AreReached (reach (length space.now.slots) clusters) (view_of self.old) → IsReached (reach (length space.now.slots) clusters) value → AreReached (reach (length space.now.slots) clusters) (view_of self.new) }
        ensures asks { (k : Reach) → AreReached k (view_of self.old) → IsReached k value → IfOk result (IsAskedReached k) }
        ensures left { self.new.left ≡ self.old.left }
        ensures err { (t : Table) → IfErr result (λ f. Stands (view_of self.old) (view_of self.new) t t f) }
        ensures size { IfOk result (λ q. sized q (view_of self.new) ≤ 3 * length self.old.frames.items + 4) }
        ensures room { IfErr result (λ _. length self.new.frames.items < vec_capacity self.new.frames) }
        ensures fault { IfErr result (λ f. f ≡ Fault.Memory) }
    {
        let frame = Frame::Put(place, base);
        match place {
            Place::Variable(variable) => {
                self.put_variable(frame, variable, value);
                Ok(None)
            }
            Place::Field(name) => Ok(Some(self.put_field(frame, name, value))),
            Place::Global(name) => Ok(self.put_global(space, frame, name, value)),
            Place::Constant(name) => Ok(Some(self.put_constant(frame, name, value))),
            Place::Sent(setter) => self.send_first(prepared, space, setter, frame, value),
        }
    }

    /// Reads what is assigned to: the receiver, and the index where there is one, are the values that stand for a frame and one more.
    pub fn finish_access(
        &mut self,
        getter: Callee,
        setter: Callee,
        how: Update,
        part: NodeId,
        frame: Frame,
        value: Ref,
    ) -> Result<Option<Request>, Fault>
        requires room { length self.old.frames.items < vec_capacity self.old.frames }
        requires base { base_of frame ≤ length self.old.held.items }
        requires nested { Nested (reverse self.old.frames.items) (below_of frame self.old.held.items) }
        ensures goes { IfOk result (λ q. (p : Program) (t : Table) (h : Course) (n : ℕ) → after_values p (view_of self.old) t frame (finish (context_of p) (Target.Update getter setter how part) (stand_of frame self.old.held.items ++ value ∷ [])) h n ≡ continuing p (view_of self.new) t q h n) }
        ensures nested { OnOk result (IsNested (view_of self.new)) }
        ensures within { (k : Reach) → AreReached k (view_of self.old) → IsReached k value → AreReached k (view_of self.new) }
        ensures asks { (k : Reach) → IfOk result (IsAskedReached k) }
        ensures left { self.new.left ≡ self.old.left }
        ensures err { (t : Table) → IfErr result (λ f. Stands (view_of self.old) (view_of self.new) t t f) }
        ensures size { IfOk result (λ q. sized q (view_of self.new) ≤ 3 * length self.old.frames.items + 4) }
        ensures room { IfErr result (λ _. length self.new.frames.items < vec_capacity self.new.frames) }
        ensures fault { IfErr result (λ f. f ≡ Fault.Memory) }
    {
        match accessed(standing(&self.held, frame), value) {
            Some((receiver, argument)) => {
                let base = first_standing(&self.held, frame);
                self.held.push(value)?;
                let reading = Frame::Read(Updating {
                    place: Place::Sent(setter),
                    how,
                    value: part,
                    base,
                });
                self.send_over(reading, getter, receiver, argument);
                Ok(None)
            }
            None => {
                self.refuse(frame, Problem::NotHere);
                Ok(None)
            }
        }
    }
}
