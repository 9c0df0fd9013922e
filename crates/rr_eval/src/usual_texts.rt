//! Text literals, alone and among the parts of a list: they are made at once, in front of acts of any kind.

ghost use Rattle.std.specs.Prelude.{◌≡◌, ◌+◌, ◌<◌, ◌≤◌, ◌^◌, [], ◌∷◌, false, length, drop, slice_index_or, vec_capacity, Option, IfSome, IfNone, IsTrue};
ghost use Rattle.rr_parser.specs.Grammar.Names.{is_splat};
ghost use Rattle.rr_space.specs.Tables.{Below};
ghost use Rattle.rr_text.specs.Reads.{IsReadWith};
ghost use Rattle.rr_tree.specs.Nodes.{trees_before};
ghost use Rattle.rr_tree.specs.Tree.{tree_at, sequence, listed};
ghost use Rattle.rr_eval.specs.declared.call.Target.{Target as Aim};
ghost use Rattle.rr_eval.specs.declared.frame.Control.{Control as Controls};
ghost use Rattle.rr_eval.specs.Changes.{Changes};
ghost use Rattle.rr_eval.specs.Operators.{with_literal};
ghost use Rattle.rr_eval.specs.Requests.{Course};
ghost use Rattle.rr_eval.specs.Rules.{rule, arguments, finish};
ghost use Rattle.rr_eval.specs.Turns.{context_of, IsNested, remaining, power};
ghost use Rattle.rr_eval.specs.Usual.{TakesNow, MakesNow, MakeFirst, HoldsMore};
ghost use Rattle.rr_eval.specs.View.{View};
ghost use Rattle.rr_eval.specs.Views.{view_of};
ghost use Rattle.rr_eval.specs.Within.{reach, IsReached, AreReached, AreWithin, KeepsReach, KeepsRead};

use crate::call::{Target, Task};
use crate::engine::{Engine, push_within};
use crate::frame::{Control, Frame};
use crate::open::literal;
use crate::operator::make_literal;
use crate::prepared::Prepared;
use crate::problem::Answer;
use crate::quick_parts::QuickParts;
use crate::usual::Quick;
use rr_space::{Ref, Space};
use rr_tree::{Node, NodeId};
use std::alloc::Global;

impl Prepared {
    /// The only statement of a sequence.
    #[inline(always)]
    fn single_statement(&self, place: NodeId) -> Option<NodeId>
        ensures { IfSome result (λ statement. tree_at self.now.program.nodes.items place ≡ sequence (listed (tree_at self.now.program.nodes.items statement ∷ []))) }
    {
        match self.node(place) {
            Some(&Node::Sequence { first, count: 1 }) => Some(first),
            _ => None,
        }
    }

    /// Makes the text of a literal: none where there is no memory for it.
    #[inline(always)]
    fn made_literal(&self, alloc: Global, space: &mut Space, i: u32) -> Option<Ref>
        ensures name { IfSome result (λ v. v ≡ Ref.Local (length space.old.slots)) }
        ensures made { IfSome result (λ _. space.new ≡ with_literal self.now.program.freezes (slice_index_or (context_of self.now.program).texts i []) space.old) }
        ensures none { IfNone result (space.new ≡ space.old) }
        ensures read { (below : Below) → IsReadWith space.old below → IsReadWith space.new below }
        ensures limit { space.new.limit ≡ space.old.limit }
        ensures changed { Changes space.old space.new }
        ensures within { (clusters : Option Below) → IfSome result (IsReached (reach (length space.new.slots) clusters)) }
    {
        let Ok(text) = literal(alloc, &self.program, i) else {
            return None;
        };
        match make_literal(space, self.program.freezes, text) {
            Ok(value) => Some(value),
            Err(_) => None,
        }
    }

    /// Makes the text of the literal at a place, which takes a step: none where there is no such literal, or no memory for its text.
    #[inline(always)]
    fn made_text(&self, alloc: Global, space: &mut Space, place: NodeId) -> Option<Ref>
        ensures makes { (m : View) → IfSome result (λ v. MakesNow self.now.program m space.old (tree_at self.now.program.nodes.items place) 1 v space.new) }
        ensures plain { IfSome result (λ _. is_splat (tree_at self.now.program.nodes.items place) ≡ false) }
        ensures none { IfNone result (space.new ≡ space.old) }
        ensures read { (below : Below) → IsReadWith space.old below → IsReadWith space.new below }
        ensures limit { space.new.limit ≡ space.old.limit }
        ensures changed { Changes space.old space.new }
        ensures within { (clusters : Option Below) → IfSome result (IsReached (reach (length space.new.slots) clusters)) }
    {
        match self.node(place) {
            Some(&Node::Text(i)) => self.made_literal(alloc, space, i),
            _ => None,
        }
    }
}

impl Engine {
    /// The value of a single statement that needs no frame, as it stands between the braces of a text, where the steps do not stop before
    /// what follows it.
    #[inline(always)]
    fn quick_single(
        &self,
        prepared: &Prepared,
        space: &Space,
        place: NodeId,
        stop: u64,
    ) -> Option<Quick>
        requires some { stop + 1 < self.now.left }
        ensures takes { IfSome result (λ q. TakesNow prepared.now.program (view_of self.now) space.now (tree_at prepared.now.program.nodes.items place) q.steps q.value) }
        ensures plain { IfSome result (λ _. is_splat (tree_at prepared.now.program.nodes.items place) ≡ false) }
        ensures some { IfSome result (λ q. 0 < q.steps) }
        ensures enough { IfSome result (λ q. stop + q.steps < self.now.left) }
        ensures within { (clusters : Option Below) → AreReached (reach (length space.now.slots) clusters) (view_of self.now) → IfSome result (λ q. IsReached (reach (length space.now.slots) clusters) q.value) }
    {
        let Some(statement) = prepared.single_statement(place) else {
            return None;
        };
        let before = self.steps_together(stop, 1);
        match self.quick_before(prepared, space, statement, before) {
            Some(found) => Some(Quick {
                value: found.value,
                steps: found.steps + 1,
            }),
            None => None,
        }
    }

    /// The value of a part that needs no frame, or the text of a literal, where the steps do not stop before the one that follows it.
    #[inline(always)]
    fn part_or_text(
        &self,
        prepared: &Prepared,
        space: &mut Space,
        place: NodeId,
        stop: u64,
    ) -> Option<Quick>
        requires some { stop < self.now.left }
        ensures makes { IfSome result (λ q. MakesNow prepared.now.program (view_of self.now) space.old (tree_at prepared.now.program.nodes.items place) q.steps q.value space.new) }
        ensures plain { IfSome result (λ _. is_splat (tree_at prepared.now.program.nodes.items place) ≡ false) }
        ensures some { IfSome result (λ q. 0 < q.steps) }
        ensures enough { IfSome result (λ q. stop + q.steps < self.now.left) }
        ensures none { IfNone result (space.new ≡ space.old) }
        ensures within { (clusters : Option Below) → AreReached (reach (length space.old.slots) clusters) (view_of self.now) → IfSome result (λ q. IsReached (reach (length space.new.slots) clusters) q.value) }
        ensures read { (below : Below) → IsReadWith space.old below → IsReadWith space.new below }
        ensures limit { space.new.limit ≡ space.old.limit }
        ensures changed { Changes space.old space.new }
    {
        if let Some(found) = self.quick_before(prepared, space, place, stop) {
            return Some(found);
        }
        if self.left - stop <= 1 {
            return None;
        }
        if let Some(found) = self.quick_single(prepared, space, place, stop) {
            return Some(found);
        }
        match prepared.made_text(self.alloc, space, place) {
            Some(value) => Some(Quick { value, steps: 1 }),
            None => None,
        }
    }

    /// Evaluates the last `count` parts before `end` from the first one on, up to one that needs a frame and is no text literal, or before
    /// which the steps stop, and holds their values, for which there is room.
    #[inline(always)]
    fn hold_made(
        &mut self,
        prepared: &Prepared,
        space: &mut Space,
        end: NodeId,
        count: u32,
        stop: u64,
    ) -> QuickParts
        requires some { stop < self.old.left }
        requires space { length self.old.held.items + count ≤ vec_capacity self.old.held }
        ensures makes { MakeFirst prepared.now.program (view_of self.old) space.old (trees_before prepared.now.program.nodes.items end count) result.steps (drop (length self.old.held.items) self.new.held.items) space.new (trees_before prepared.now.program.nodes.items end result.rest) }
        ensures rest { length self.new.held.items + result.rest ≡ length self.old.held.items + count }
        ensures fewer { result.rest ≤ count }
        ensures enough { stop + result.steps < self.old.left }
        ensures holds { HoldsMore (view_of self.old) (view_of self.new) }
        ensures within { KeepsReach (view_of self.old) space.old (view_of self.new) space.new }
        ensures read { (below : Below) → IsReadWith space.old below → IsReadWith space.new below }
        ensures room { vec_capacity self.new.frames ≡ vec_capacity self.old.frames }
        ensures limit { space.new.limit ≡ space.old.limit }
        ensures changed { Changes space.old space.new }
    {
        let mut rest = count;
        let mut steps = 0;
        while rest > 0 {
            let place = end.saturating_sub(rest);
            match self.part_or_text(prepared, space, place, stop + steps) {
                Some(found) => {
                    self.held.push_reserved(found.value);
                    steps += found.steps;
                    rest -= 1;
                }
                None => return QuickParts { rest, steps },
            }
        }
        QuickParts { rest, steps }
    }

    /// Evaluates the parts of a list, the last `count` before `first + count`, with which a task is done: one step, and those of the first
    /// parts that need no frame or are text literals. It answers whether it was done.
    #[cold]
    #[inline(never)]
    fn visit_list(
        &mut self,
        prepared: &Prepared,
        space: &mut Space,
        here: NodeId,
        task: Task,
        first: NodeId,
        count: u32,
        stop: u64,
    ) -> bool
        requires control { self.old.control ≡ Controls.Enter here }
        requires script { rule (context_of prepared.now.program) (tree_at prepared.now.program.nodes.items here) ≡ arguments (context_of prepared.now.program) (trees_before prepared.now.program.nodes.items (first + count) count) [] (finish (context_of prepared.now.program) (Aim.Do task)) }
        requires small { first + count < 2 ^ 32 }
        requires some { stop < self.old.left }
        requires nested { IsNested (view_of self.old) }
        requires within { AreWithin (length space.old.slots) (view_of self.old) }
        ensures goes { (h : Course) → remaining prepared.now.program (view_of self.old) space.old h ≡ remaining prepared.now.program (view_of self.new) space.new h }
        ensures nested { IsNested (view_of self.new) }
        ensures within { KeepsReach (view_of self.old) space.old (view_of self.new) space.new }
        ensures read { KeepsRead (view_of self.old) space.old space.new }
        ensures left { stop ≤ self.new.left }
        ensures spends { IsTrue result → self.new.left < self.old.left }
        ensures kept { self.new.left ≤ self.old.left }
        ensures falls { power (view_of self.new) + self.old.left ≤ power (view_of self.old) + self.new.left }
        ensures limit { space.new.limit ≡ space.old.limit }
        ensures changed { Changes space.old space.new }
    {
        if count == 0 || !self.holds(count) || self.frames.len() >= self.frames.capacity() {
            return false;
        }
        let base = self.held.len();
        let end = first + count;
        let parts = self.hold_made(prepared, space, end, count, stop);
        if parts.rest > 0 {
            self.enter_part(Target::Do(task), end, base, parts);
            return true;
        }
        match self.held.pop() {
            Some(last) => {
                let frame = Frame::Argument(Target::Do(task), end, 0, base);
                push_within(&mut self.frames, frame);
                self.control = Control::Give(Answer::Gave(last));
                self.left = self.left - parts.steps - 1;
                true
            }
            None => unreachable!(),
        }
    }

    /// Makes the text of a literal that is evaluated next: one step. It answers whether it was done.
    #[cold]
    #[inline(never)]
    fn visit_literal(&mut self, prepared: &Prepared, space: &mut Space, here: NodeId) -> bool
        requires control { self.old.control ≡ Controls.Enter here }
        requires some { 0 < self.old.left }
        requires nested { IsNested (view_of self.old) }
        ensures goes { (h : Course) → remaining prepared.now.program (view_of self.old) space.old h ≡ remaining prepared.now.program (view_of self.new) space.new h }
        ensures nested { IsNested (view_of self.new) }
        ensures within { KeepsReach (view_of self.old) space.old (view_of self.new) space.new }
        ensures read { KeepsRead (view_of self.old) space.old space.new }
        ensures left { self.old.left ≤ self.new.left + 1 }
        ensures spends { IsTrue result → self.new.left < self.old.left }
        ensures kept { self.new.left ≤ self.old.left }
        ensures falls { power (view_of self.new) + self.old.left ≤ power (view_of self.old) + self.new.left }
        ensures limit { space.new.limit ≡ space.old.limit }
        ensures changed { Changes space.old space.new }
    {
        match prepared.made_text(self.alloc, space, here) {
            Some(value) => {
                self.control = Control::Give(Answer::Gave(value));
                self.left -= 1;
                true
            }
            None => false,
        }
    }

    /// Evaluates a text literal, or a list of parts with which an array or a text is made, where that comes next: it answers whether it was
    /// done. Where there is no memory for a text, its part is still to be evaluated.
    #[inline(always)]
    pub fn visit_text(&mut self, prepared: &Prepared, space: &mut Space, stop: u64) -> bool
        requires stop { stop ≤ self.old.left }
        requires nested { IsNested (view_of self.old) }
        requires within { AreWithin (length space.old.slots) (view_of self.old) }
        ensures goes { (h : Course) → remaining prepared.now.program (view_of self.old) space.old h ≡ remaining prepared.now.program (view_of self.new) space.new h }
        ensures nested { IsNested (view_of self.new) }
        ensures within { KeepsReach (view_of self.old) space.old (view_of self.new) space.new }
        ensures read { KeepsRead (view_of self.old) space.old space.new }
        ensures left { stop ≤ self.new.left }
        ensures spends { IsTrue result → self.new.left < self.old.left }
        ensures kept { self.new.left ≤ self.old.left }
        ensures falls { power (view_of self.new) + self.old.left ≤ power (view_of self.old) + self.new.left }
        ensures limit { space.new.limit ≡ space.old.limit }
        ensures changed { Changes space.old space.new }
    {
        let Control::Enter(here) = self.control else {
            return false;
        };
        if self.left <= stop {
            return false;
        }
        match prepared.node(here) {
            Some(&Node::Text(_)) => self.visit_literal(prepared, space, here),
            Some(&Node::Interpolation { first, count }) => {
                self.visit_list(prepared, space, here, Task::MakeText, first, count, stop)
            }
            Some(&Node::Array { first, count }) => {
                self.visit_list(prepared, space, here, Task::MakeArray, first, count, stop)
            }
            _ => false,
        }
    }
}
