//! Tasks whose values need no frame, or whose last value the topmost frame waited for: they are asked for at once, in front of acts of any
//! kind.

ghost use Rattle.std.specs.Prelude.{◌≡◌, ◌+◌, ◌*◌, ◌<◌, ◌≤◌, ◌^◌, ℕ, List, [], ◌∷◌, ◌++◌, length, take, drop, vec_capacity, Option, IfSome, IfNone, IsTrue};
ghost use Rattle.std.specs.List.{All};
ghost use Rattle.rr_space.specs.Tables.{Below};
ghost use Rattle.rr_space.specs.declared.refer.Ref.{Ref as Reference};
ghost use Rattle.rr_tree.specs.Nodes.{trees_before};
ghost use Rattle.rr_tree.specs.Tree.{tree_at};
ghost use Rattle.rr_eval.specs.declared.call.Target.{Target as Aim};
ghost use Rattle.rr_eval.specs.declared.call.Task.{Task as Tasks};
ghost use Rattle.rr_eval.specs.declared.frame.Control.{Control as Controls};
ghost use Rattle.rr_eval.specs.declared.problem.Answer.{Answer as Answers};
ghost use Rattle.rr_eval.specs.Frames.{below_of, base_of, stand_of};
ghost use Rattle.rr_eval.specs.Requests.{Course, arguments_of, asked_of};
ghost use Rattle.rr_eval.specs.Rules.{rule, values, arguments, finish, key_part, value_part, pair_parts};
ghost use Rattle.rr_eval.specs.Speaking.{request, task_rule};
ghost use Rattle.rr_eval.specs.Turns.{context_of, IsNested, remaining, after_answer, after_values, asking_then, power, sized};
ghost use Rattle.rr_eval.specs.Usual.{IsTop, TakesNow, HoldsMore, ValuesFirst};
ghost use Rattle.rr_eval.specs.View.{View};
ghost use Rattle.rr_eval.specs.Views.{view_of};
ghost use Rattle.rr_eval.specs.Within.{Reach, reach, IsReached, IsRequestReached, AreReached};

use crate::asking::saying_of;
use crate::call::{Arguments, Callee, Target, Task, arguments_of, arguments_with};
use crate::engine::Engine;
use crate::frame::{Control, Frame, standing};
use crate::nodes::{is_splat, pair_at};
use crate::prepared::Prepared;
use crate::problem::Answer;
use crate::quick_parts::QuickParts;
use crate::request::Request;
use crate::updating::Place;
use crate::usual::Quick;
use rr_space::{Ref, Space};
use rr_tree::{Node, NodeId};

impl Prepared {
    /// Whether a task is done with values as they stand: no method of the program is asked first what is printed for them.
    #[inline(always)]
    fn asks_nobody(&self, task: Task) -> bool
        ensures { IsTrue result → (vs : List Reference) → task_rule (context_of self.now.program) task vs ≡ request (context_of self.now.program) task vs }
    {
        match saying_of(task) {
            None => true,
            Some(saying) => match self.symbol_asked(saying) {
                None => true,
                Some(_) => false,
            },
        }
    }
}

impl Engine {
    /// The values that are held from a place on, where no part is still to be evaluated; none too where there is no memory for a list of
    /// them.
    #[inline(always)]
    fn values_from(&self, base: usize, rest: u32) -> Option<Arguments>
        requires base { base ≤ length self.now.held.items }
        ensures all { IfSome result (λ vs. rest ≡ 0) }
        ensures are { IfSome result (λ vs. arguments_of vs ≡ drop base self.now.held.items) }
        ensures within { (k : Reach) → AreReached k (view_of self.now) → IfSome result (λ vs. All (IsReached k) (arguments_of vs)) }
    {
        if rest > 0 {
            return None;
        }
        match arguments_with(self.alloc, &self.held[base..], None) {
            Ok(values) => Some(values),
            Err(_) => None,
        }
    }

    /// Asks for a task with `count` parts from `first` on, where none of them needs a frame.
    fn ask_listed(
        &mut self,
        prepared: &Prepared,
        space: &Space,
        here: NodeId,
        task: Task,
        first: NodeId,
        count: u32,
        stop: u64,
    ) -> Option<Request>
        requires control { self.old.control ≡ Controls.Enter here }
        requires script { rule (context_of prepared.now.program) (tree_at prepared.now.program.nodes.items here) ≡ arguments (context_of prepared.now.program) (trees_before prepared.now.program.nodes.items (first + count) count) [] (finish (context_of prepared.now.program) (Aim.Do task)) }
        requires small { first + count < 2 ^ 32 }
        requires some { stop < self.old.left }
        requires nested { IsNested (view_of self.old) }
        ensures goes { IfSome result (λ q. (h : Course) → remaining prepared.now.program (view_of self.old) space.now h ≡ asking_then prepared.now.program (view_of self.new) space.now (asked_of space.now q) h) }
        ensures nested { IsNested (view_of self.new) }
        ensures within { (clusters : Option Below) → AreReached (reach (length space.now.slots) clusters) (view_of self.old) → AreReached (reach (length space.now.slots) clusters) (view_of self.new) }
        ensures asks { (clusters : Option Below) → AreReached (reach (length space.now.slots) clusters) (view_of self.old) → IfSome result (IsRequestReached (reach (length space.now.slots) clusters)) }
        ensures left { stop ≤ self.new.left }
        ensures falls { IfSome result (λ q. 9 * self.new.left + sized (Option.Some q) (view_of self.new) < power (view_of self.old)) }
        ensures none { IfNone result (view_of self.new ≡ view_of self.old) }
    {
        if !prepared.asks_nobody(task) {
            return None;
        }
        if !self.holds(count) {
            return None;
        }
        let base = self.held.len();
        let parts = self.hold_parts(prepared, space, first + count, count, stop);
        let Some(values) = self.values_from(base, parts.rest) else {
            self.held.truncate(base);
            return None;
        };
        self.held.truncate(base);
        self.left = self.left - parts.steps - 1;
        Some(Request::Do(task, values))
    }

    /// The key and the value of a pair, where they need no frame and the steps do not stop before what follows.
    #[inline(always)]
    fn quick_pair(
        &self,
        prepared: &Prepared,
        space: &Space,
        place: NodeId,
        stop: u64,
    ) -> Option<(Quick, Quick)>
        requires some { stop < self.now.left }
        ensures key { IfSome result (λ pair. TakesNow prepared.now.program (view_of self.now) space.now (key_part (tree_at prepared.now.program.nodes.items place)) pair.0.steps pair.0.value) }
        ensures value { IfSome result (λ pair. TakesNow prepared.now.program (view_of self.now) space.now (value_part (tree_at prepared.now.program.nodes.items place)) pair.1.steps pair.1.value) }
        ensures enough { IfSome result (λ pair. stop + pair.0.steps + pair.1.steps < self.now.left) }
        ensures within { (clusters : Option Below) → AreReached (reach (length space.now.slots) clusters) (view_of self.now) → IfSome result (λ pair. IsReached (reach (length space.now.slots) clusters) pair.0.value × IsReached (reach (length space.now.slots) clusters) pair.1.value) }
    {
        let (key, value) = pair_at(&prepared.program, place);
        let Some(first) = self.quick_before(prepared, space, key, stop) else {
            return None;
        };
        let before = self.steps_together(stop, first.steps);
        let Some(last) = self.quick_before(prepared, space, value, before) else {
            return None;
        };
        Some((first, last))
    }

    /// Evaluates the keys and the values of the last `count` pairs before `end` from the first one on, up to a pair that needs a frame or
    /// before which the steps stop, and holds them, for which there is room.
    #[inline(always)]
    fn hold_pairs(
        &mut self,
        prepared: &Prepared,
        space: &Space,
        end: NodeId,
        count: u32,
        stop: u64,
    ) -> QuickParts
        requires some { stop < self.old.left }
        requires space { length self.old.held.items + 2 * count ≤ vec_capacity self.old.held }
        ensures takes { ValuesFirst prepared.now.program (view_of self.old) space.now (pair_parts (trees_before prepared.now.program.nodes.items end count)) result.steps (drop (length self.old.held.items) self.new.held.items) (pair_parts (trees_before prepared.now.program.nodes.items end result.rest)) }
        ensures grows { length self.old.held.items ≤ length self.new.held.items }
        ensures enough { stop + result.steps < self.old.left }
        ensures holds { HoldsMore (view_of self.old) (view_of self.new) }
        ensures within { (clusters : Option Below) → AreReached (reach (length space.now.slots) clusters) (view_of self.old) → AreReached (reach (length space.now.slots) clusters) (view_of self.new) }
    {
        let mut rest = count;
        let mut steps = 0;
        while rest > 0 {
            let place = end.saturating_sub(rest);
            match self.quick_pair(prepared, space, place, stop + steps) {
                Some((key, value)) => {
                    self.held.push_reserved(key.value);
                    self.held.push_reserved(value.value);
                    steps = steps + key.steps + value.steps;
                    rest -= 1;
                }
                None => return QuickParts { rest, steps },
            }
        }
        QuickParts { rest, steps }
    }

    /// Whether there is room for the keys and the values of so many pairs.
    #[inline(always)]
    fn holds_pairs(&self, count: u32) -> bool
        ensures { IsTrue result → length self.now.held.items + 2 * count ≤ vec_capacity self.now.held }
    {
        self.held.capacity().saturating_sub(self.held.len()) >= 2 * count as usize
    }

    /// Asks for a new hash of `count` pairs from `first` on, where no part of them needs a frame.
    fn ask_pairs(
        &mut self,
        prepared: &Prepared,
        space: &Space,
        here: NodeId,
        first: NodeId,
        count: u32,
        stop: u64,
    ) -> Option<Request>
        requires control { self.old.control ≡ Controls.Enter here }
        requires script { rule (context_of prepared.now.program) (tree_at prepared.now.program.nodes.items here) ≡ values (pair_parts (trees_before prepared.now.program.nodes.items (first + count) count)) [] (finish (context_of prepared.now.program) (Aim.Do Tasks.MakeHash)) }
        requires small { first + count < 2 ^ 32 }
        requires some { stop < self.old.left }
        requires nested { IsNested (view_of self.old) }
        ensures goes { IfSome result (λ q. (h : Course) → remaining prepared.now.program (view_of self.old) space.now h ≡ asking_then prepared.now.program (view_of self.new) space.now (asked_of space.now q) h) }
        ensures nested { IsNested (view_of self.new) }
        ensures within { (clusters : Option Below) → AreReached (reach (length space.now.slots) clusters) (view_of self.old) → AreReached (reach (length space.now.slots) clusters) (view_of self.new) }
        ensures asks { (clusters : Option Below) → AreReached (reach (length space.now.slots) clusters) (view_of self.old) → IfSome result (IsRequestReached (reach (length space.now.slots) clusters)) }
        ensures left { stop ≤ self.new.left }
        ensures falls { IfSome result (λ q. 9 * self.new.left + sized (Option.Some q) (view_of self.new) < power (view_of self.old)) }
        ensures none { IfNone result (view_of self.new ≡ view_of self.old) }
    {
        if !self.holds_pairs(count) {
            return None;
        }
        let base = self.held.len();
        let parts = self.hold_pairs(prepared, space, first + count, count, stop);
        let Some(values) = self.values_from(base, parts.rest) else {
            self.held.truncate(base);
            return None;
        };
        self.held.truncate(base);
        self.left = self.left - parts.steps - 1;
        Some(Request::Do(Task::MakeHash, values))
    }

    /// Asks for an array or a hash that is made of parts, or for an assignment to an attribute, where no part needs a frame.
    #[inline(always)]
    fn ask_made(
        &mut self,
        prepared: &Prepared,
        space: &Space,
        here: NodeId,
        stop: u64,
    ) -> Option<Request>
        requires control { self.old.control ≡ Controls.Enter here }
        requires stop { stop ≤ self.old.left }
        requires nested { IsNested (view_of self.old) }
        ensures goes { IfSome result (λ q. (h : Course) → remaining prepared.now.program (view_of self.old) space.now h ≡ asking_then prepared.now.program (view_of self.new) space.now (asked_of space.now q) h) }
        ensures nested { IsNested (view_of self.new) }
        ensures within { (clusters : Option Below) → AreReached (reach (length space.now.slots) clusters) (view_of self.old) → AreReached (reach (length space.now.slots) clusters) (view_of self.new) }
        ensures asks { (clusters : Option Below) → AreReached (reach (length space.now.slots) clusters) (view_of self.old) → IfSome result (IsRequestReached (reach (length space.now.slots) clusters)) }
        ensures left { stop ≤ self.new.left }
        ensures falls { IfSome result (λ q. 9 * self.new.left + sized (Option.Some q) (view_of self.new) < power (view_of self.old)) }
        ensures none { IfNone result (view_of self.new ≡ view_of self.old) }
    {
        if self.left <= stop {
            return None;
        }
        match prepared.node(here) {
            Some(&Node::Array { first, count }) => {
                self.ask_listed(prepared, space, here, Task::MakeArray, first, count, stop)
            }
            Some(&Node::Hash { first, count }) => {
                self.ask_pairs(prepared, space, here, first, count, stop)
            }
            Some(
                &Node::SetAttribute {
                    receiver,
                    name,
                    value,
                    ..
                },
            ) => self.ask_attribute(prepared, space, here, name, receiver, value, stop),
            _ => None,
        }
    }

    /// Asks for a task whose last value the topmost frame waited for.
    fn ask_done(
        &mut self,
        prepared: &Prepared,
        space: &Space,
        task: Task,
        base: usize,
        frame: Frame,
        value: Ref,
    ) -> Option<Request>
        requires control { self.old.control ≡ Controls.Give (Answers.Gave value) }
        requires top { IsTop self.old.frames.items frame }
        requires waits { (m : View) (h : Course) (n : ℕ) → after_answer prepared.now.program m space.now frame (Answers.Gave value) h n ≡ after_values prepared.now.program m space.now frame (finish (context_of prepared.now.program) (Aim.Do task) (stand_of frame m.held ++ value ∷ [])) h n }
        requires below { (held : List Reference) → below_of frame held ≡ take base held }
        requires base { base_of frame ≡ base }
        requires nested { IsNested (view_of self.old) }
        ensures goes { IfSome result (λ q. (h : Course) → remaining prepared.now.program (view_of self.old) space.now h ≡ asking_then prepared.now.program (view_of self.new) space.now (asked_of space.now q) h) }
        ensures nested { IsNested (view_of self.new) }
        ensures within { (k : Reach) → AreReached k (view_of self.old) → AreReached k (view_of self.new) }
        ensures asks { (k : Reach) → AreReached k (view_of self.old) → IfSome result (IsRequestReached k) }
        ensures left { self.new.left ≡ self.old.left }
        ensures falls { IfSome result (λ q. 9 * self.new.left + sized (Option.Some q) (view_of self.new) < power (view_of self.old)) }
        ensures none { IfNone result (view_of self.new ≡ view_of self.old) }
    {
        if self.held.len() < base || !prepared.asks_nobody(task) {
            return None;
        }
        let Ok(values) = arguments_of(self.alloc, standing(&self.held, frame), value) else {
            return None;
        };
        self.take_waiting(frame, base, value, 0);
        Some(Request::Do(task, values))
    }

    /// Asks for a task, or for an assignment to an attribute, whose last value the topmost frame waited for.
    #[inline(always)]
    fn ask_finished(&mut self, prepared: &Prepared, space: &Space, value: Ref) -> Option<Request>
        requires control { self.old.control ≡ Controls.Give (Answers.Gave value) }
        requires nested { IsNested (view_of self.old) }
        ensures goes { IfSome result (λ q. (h : Course) → remaining prepared.now.program (view_of self.old) space.now h ≡ asking_then prepared.now.program (view_of self.new) space.now (asked_of space.now q) h) }
        ensures nested { IsNested (view_of self.new) }
        ensures within { (k : Reach) → AreReached k (view_of self.old) → AreReached k (view_of self.new) }
        ensures asks { (k : Reach) → AreReached k (view_of self.old) → IfSome result (IsRequestReached k) }
        ensures left { self.new.left ≡ self.old.left }
        ensures falls { IfSome result (λ q. 9 * self.new.left + sized (Option.Some q) (view_of self.new) < power (view_of self.old)) }
        ensures none { IfNone result (view_of self.new ≡ view_of self.old) }
    {
        match self.frames.last() {
            Some(&Frame::Item(Target::Do(task), end, 0, base)) => {
                if is_splat(&prepared.program, end.saturating_sub(1)) {
                    return None;
                }
                let frame = Frame::Item(Target::Do(task), end, 0, base);
                self.ask_done(prepared, space, task, base, frame, value)
            }
            Some(&Frame::Argument(Target::Do(task), end, 0, base)) => {
                let frame = Frame::Argument(Target::Do(task), end, 0, base);
                self.ask_done(prepared, space, task, base, frame, value)
            }
            Some(&Frame::Value(end, 0, base)) => {
                let frame = Frame::Value(end, 0, base);
                self.ask_done(prepared, space, Task::MakeHash, base, frame, value)
            }
            Some(&Frame::Put(Place::Sent(Callee::Setter(name)), base)) => {
                self.put_attribute(prepared, space, name, base, value)
            }
            _ => None,
        }
    }

    /// Whether what comes next is of a kind that is asked for less often.
    #[inline(always)]
    pub fn may_ask(&self, prepared: &Prepared) -> bool {
        match self.control {
            Control::Enter(here) => match prepared.node(here) {
                Some(&Node::Array { .. })
                | Some(&Node::Hash { .. })
                | Some(&Node::SetAttribute { .. }) => true,
                _ => false,
            },
            Control::Give(Answer::Gave(_)) => match self.frames.last() {
                Some(&Frame::Item(_, _, _, _)) | Some(&Frame::Value(_, _, _)) => true,
                Some(&Frame::Put(_, _)) => true,
                _ => false,
            },
            _ => false,
        }
    }

    /// Asks for what is asked less often: a task whose values are there or need no frame, and an assignment to an attribute. It is apart
    /// from what is asked most, which would take longer beside it.
    #[cold]
    #[inline(never)]
    pub fn ask_rarely(&mut self, prepared: &Prepared, space: &Space, stop: u64) -> Option<Request>
        requires nested { IsNested (view_of self.old) }
        requires stop { stop ≤ self.old.left }
        ensures goes { IfSome result (λ q. (h : Course) → remaining prepared.now.program (view_of self.old) space.now h ≡ asking_then prepared.now.program (view_of self.new) space.now (asked_of space.now q) h) }
        ensures nested { IsNested (view_of self.new) }
        ensures within { (clusters : Option Below) → AreReached (reach (length space.now.slots) clusters) (view_of self.old) → AreReached (reach (length space.now.slots) clusters) (view_of self.new) }
        ensures asks { (clusters : Option Below) → AreReached (reach (length space.now.slots) clusters) (view_of self.old) → IfSome result (IsRequestReached (reach (length space.now.slots) clusters)) }
        ensures left { stop ≤ self.new.left }
        ensures falls { IfSome result (λ q. 9 * self.new.left + sized (Option.Some q) (view_of self.new) < power (view_of self.old)) }
        ensures none { IfNone result (view_of self.new ≡ view_of self.old) }
    {
        match self.control {
            Control::Enter(here) => self.ask_made(prepared, space, here, stop),
            Control::Give(Answer::Gave(value)) => self.ask_finished(prepared, space, value),
            _ => None,
        }
    }
}
