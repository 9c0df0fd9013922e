//! Attributes whose methods only read and write an instance variable: an assignment to one is asked for in front of acts of any kind, and
//! one that an operator assigns to is read at once.

ghost use Rattle.std.specs.Prelude.{◌≡◌, ◌+◌, ◌*◌, ◌<◌, ◌≤◌, [], ◌∷◌, length, vec_capacity, Option, Some, IfSome, IfNone, IsTrue, IsFalse};
ghost use Rattle.std.specs.Option.{option_map};
ghost use Rattle.rr_space.specs.Tables.{Below};
ghost use Rattle.rr_tree.specs.Tree.{tree_at};
ghost use Rattle.rr_eval.specs.declared.call.Callee.{Callee as Called};
ghost use Rattle.rr_eval.specs.declared.call.Target.{Target as Aim};
ghost use Rattle.rr_eval.specs.declared.frame.Control.{Control as Controls};
ghost use Rattle.rr_eval.specs.declared.frame.Frame.{Frame as Waiting};
ghost use Rattle.rr_eval.specs.declared.problem.Answer.{Answer as Answers};
ghost use Rattle.rr_eval.specs.declared.updating.Place.{Place as Places};
ghost use Rattle.rr_eval.specs.declared.updating.Update.{Update as Updates};
ghost use Rattle.rr_eval.specs.Methods.{Reads};
ghost use Rattle.rr_eval.specs.Dispatch.{method_for};
ghost use Rattle.rr_eval.specs.Requests.{Course, asked_of};
ghost use Rattle.rr_eval.specs.Rules.{rule, values, finish};
ghost use Rattle.rr_eval.specs.Turns.{context_of, IsNested, remaining, asking_then, power, size, sized};
ghost use Rattle.rr_eval.specs.Usual.{IsTop, WritesField};
ghost use Rattle.rr_eval.specs.Views.{view_of};
ghost use Rattle.rr_eval.specs.Within.{Reach, reach, IsRequestReached, AreReached};

use crate::call::{Arguments, Callee, Task};
use crate::engine::Engine;
use crate::fields::read_field;
use crate::frame::{Control, Frame, standing};
use crate::prepared::{Prepared, Work};
use crate::request::Request;
use crate::updating::{Place, Update, Updating};
use rr_base::Sym;
use rr_space::{Ref, Space};
use rr_tree::{BinaryOperator, NodeId};

impl Prepared {
    /// The instance variable that an assignment to an attribute of an object writes, where it does nothing else.
    fn written_by(&self, space: &Space, receiver: Ref, name: Sym) -> Option<Sym>
        ensures { IfSome result (WritesField (context_of self.now.program) space.now name receiver) }
    {
        let callee = Callee::Setter(name);
        let None = self.joined_by(space, receiver, callee) else {
            return None;
        };
        let Some(definition) = self.method_looked_up(space, receiver, callee) else {
            return None;
        };
        match definition.work {
            Work::Write(field) => Some(field),
            _ => None,
        }
    }

    /// The instance variable that an attribute of an object reads, where it does nothing else.
    fn read_by(&self, space: &Space, receiver: Ref, name: Sym) -> Option<Sym>
        ensures { IfSome result (λ field. option_map (λ f. f.work) (method_for (context_of self.now.program) space.now receiver (Called.Name name)) ≡ Some (Reads field)) }
    {
        let Some(definition) = self.method_for(space, receiver, Callee::Name(name)) else {
            return None;
        };
        match definition.work {
            Work::Read(field) => Some(field),
            _ => None,
        }
    }
}

impl Engine {
    /// Asks for an assignment to an attribute, where its receiver and its value need no frame.
    pub fn ask_attribute(
        &mut self,
        prepared: &Prepared,
        space: &Space,
        here: NodeId,
        name: Sym,
        receiver: NodeId,
        value: NodeId,
        stop: u64,
    ) -> Option<Request>
        requires control { self.old.control ≡ Controls.Enter here }
        requires script { rule (context_of prepared.now.program) (tree_at prepared.now.program.nodes.items here) ≡ values (tree_at prepared.now.program.nodes.items receiver ∷ tree_at prepared.now.program.nodes.items value ∷ []) [] (finish (context_of prepared.now.program) (Aim.Call (Called.Setter name))) }
        requires some { stop < self.old.left }
        requires nested { IsNested (view_of self.old) }
        ensures goes { IfSome result (λ q. (h : Course) → remaining prepared.now.program (view_of self.old) space.now h ≡ asking_then prepared.now.program (view_of self.new) space.now (asked_of space.now q) h) }
        ensures nested { IsNested (view_of self.new) }
        ensures within { (clusters : Option Below) → AreReached (reach (length space.now.slots) clusters) (view_of self.old) → AreReached (reach (length space.now.slots) clusters) (view_of self.new) }
        ensures asks { (clusters : Option Below) → AreReached (reach (length space.now.slots) clusters) (view_of self.old) → IfSome result (IsRequestReached (reach (length space.now.slots) clusters)) }
        ensures left { stop ≤ self.new.left }
        ensures falls { IfSome result (λ q. 9 * self.new.left + sized (Option.Some q) (view_of self.new) < power (view_of self.old)) }
        ensures none { IfNone result (view_of self.new ≡ view_of self.old) }
    {
        let Some(found) = self.quick_before(prepared, space, receiver, stop) else {
            return None;
        };
        let Some(field) = prepared.written_by(space, found.value, name) else {
            return None;
        };
        let before = self.steps_together(stop, found.steps);
        let Some(last) = self.quick_before(prepared, space, value, before) else {
            return None;
        };
        self.left = self.left - found.steps - last.steps - 1;
        let values = Arguments::Two(found.value, last.value);
        Some(Request::Do(Task::SetField(field), values))
    }

    /// Asks for an assignment to an attribute, whose value the topmost frame waited for.
    pub fn put_attribute(
        &mut self,
        prepared: &Prepared,
        space: &Space,
        name: Sym,
        base: usize,
        value: Ref,
    ) -> Option<Request>
        requires control { self.old.control ≡ Controls.Give (Answers.Gave value) }
        requires top { IsTop self.old.frames.items (Waiting.Put (Places.Sent (Called.Setter name)) base) }
        requires nested { IsNested (view_of self.old) }
        ensures goes { IfSome result (λ q. (h : Course) → remaining prepared.now.program (view_of self.old) space.now h ≡ asking_then prepared.now.program (view_of self.new) space.now (asked_of space.now q) h) }
        ensures nested { IsNested (view_of self.new) }
        ensures within { (k : Reach) → AreReached k (view_of self.old) → AreReached k (view_of self.new) }
        ensures asks { (k : Reach) → AreReached k (view_of self.old) → IfSome result (IsRequestReached k) }
        ensures left { self.new.left ≡ self.old.left }
        ensures falls { IfSome result (λ q. 9 * self.new.left + sized (Option.Some q) (view_of self.new) < power (view_of self.old)) }
        ensures none { IfNone result (view_of self.new ≡ view_of self.old) }
    {
        if self.held.len() < base {
            return None;
        }
        let frame = Frame::Put(Place::Sent(Callee::Setter(name)), base);
        let &[receiver] = standing(&self.held, frame) else {
            return None;
        };
        let Some(field) = prepared.written_by(space, receiver, name) else {
            return None;
        };
        self.take_waiting(frame, base, value, 0);
        let values = Arguments::Two(receiver, value);
        Some(Request::Do(Task::SetField(field), values))
    }

    /// Reads an attribute that an operator assigns to, where its receiver needs no frame: it answers whether it does.
    #[inline(always)]
    pub fn update_attribute(
        &mut self,
        prepared: &Prepared,
        space: &Space,
        here: NodeId,
        op: BinaryOperator,
        receiver: NodeId,
        name: Sym,
        part: NodeId,
        stop: u64,
    ) -> bool
        requires control { self.old.control ≡ Controls.Enter here }
        requires script { rule (context_of prepared.now.program) (tree_at prepared.now.program.nodes.items here) ≡ values (tree_at prepared.now.program.nodes.items receiver ∷ []) [] (finish (context_of prepared.now.program) (Aim.Update (Called.Name name) (Called.Setter name) (Updates.Combine (Called.Operator op)) part)) }
        requires some { stop < self.old.left }
        requires room { length self.old.frames.items < vec_capacity self.old.frames }
        requires nested { IsNested (view_of self.old) }
        ensures goes { IsTrue result → (h : Course) → remaining prepared.now.program (view_of self.old) space.now h ≡ remaining prepared.now.program (view_of self.new) space.now h }
        ensures nested { IsNested (view_of self.new) }
        ensures within { (clusters : Option Below) → AreReached (reach (length space.now.slots) clusters) (view_of self.old) → AreReached (reach (length space.now.slots) clusters) (view_of self.new) }
        ensures left { stop ≤ self.new.left }
        ensures kept { self.new.left ≤ self.old.left }
        ensures spends { IsTrue result → self.new.left < self.old.left }
        ensures size { IsTrue result → size (view_of self.new) ≤ 3 * length self.old.frames.items + 4 }
        ensures same { IsFalse result → self.new ≡ self.old }
    {
        if self.held.len() >= self.held.capacity() {
            return false;
        }
        let Some(found) = self.quick_before(prepared, space, receiver, stop) else {
            return false;
        };
        let base = self.held.len();
        self.held.push_reserved(found.value);
        let reading = Frame::Read(Updating {
            place: Place::Sent(Callee::Setter(name)),
            how: Update::Combine(Callee::Operator(op)),
            value: part,
            base,
        });
        self.send_over(reading, Callee::Name(name), found.value, None);
        self.left = self.left - found.steps - 1;
        true
    }

    /// Reads an attribute where a call of its name comes next that does nothing else: it answers whether it did.
    #[cold]
    #[inline(never)]
    pub fn read_sent(
        &mut self,
        prepared: &Prepared,
        space: &Space,
        name: Sym,
        receiver: Ref,
        stop: u64,
    ) -> bool
        requires control { self.old.control ≡ Controls.Send (Called.Name name) receiver Option.None }
        requires within { stop ≤ self.old.left }
        requires nested { IsNested (view_of self.old) }
        ensures goes { (h : Course) → remaining prepared.now.program (view_of self.old) space.now h ≡ remaining prepared.now.program (view_of self.new) space.now h }
        ensures nested { IsNested (view_of self.new) }
        ensures within { (clusters : Option Below) → AreReached (reach (length space.now.slots) clusters) (view_of self.old) → AreReached (reach (length space.now.slots) clusters) (view_of self.new) }
        ensures left { stop ≤ self.new.left }
        ensures kept { self.new.left ≤ self.old.left }
        ensures spends { IsTrue result → self.new.left < self.old.left }
        ensures falls { power (view_of self.new) + self.old.left ≤ power (view_of self.old) + self.new.left }
    {
        if self.left <= stop {
            return false;
        }
        let Some(field) = prepared.read_by(space, receiver, name) else {
            return false;
        };
        self.left -= 1;
        self.settle(read_field(space, receiver, field));
        true
    }
}
