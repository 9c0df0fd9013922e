//! New objects whose making begins in a usual way: with arguments that need no frame, where they take no memory.

ghost use Rattle.std.specs.Prelude.{◌≡◌, ◌+◌, ◌*◌, ◌<◌, ◌≤◌, ◌^◌, ℕ, [], ◌∷◌, length, reverse, take, vec_capacity, Option, None, Some, IsTrue, IsFalse};
ghost use Rattle.std.specs.Option.{option_map};
ghost use Rattle.rr_space.specs.Tables.{Below, Table};
ghost use Rattle.rr_tree.specs.Nodes.{trees_before};
ghost use Rattle.rr_tree.specs.Tree.{tree_at};
ghost use Rattle.rr_tree.specs.declared.program.Program.{Program};
ghost use Rattle.rr_eval.specs.declared.call.Callee.{Callee as Called};
ghost use Rattle.rr_eval.specs.declared.call.Target.{Target as Aim};
ghost use Rattle.rr_eval.specs.declared.frame.Control.{Control as Controls};
ghost use Rattle.rr_eval.specs.declared.frame.Frame.{Frame as Frames};
ghost use Rattle.rr_eval.specs.Callees.{method_of};
ghost use Rattle.rr_eval.specs.Dispatch.{made_by, made_rule, method_for, passed_on};
ghost use Rattle.rr_eval.specs.Frames.{Nested, stand_of};
ghost use Rattle.rr_eval.specs.Joins.{joined_by};
ghost use Rattle.rr_eval.specs.Requests.{Course};
ghost use Rattle.rr_eval.specs.Rules.{rule, arguments, finish};
ghost use Rattle.rr_eval.specs.Turns.{context_of, IsNested, after_values, remaining, remaining_with, power, size};
ghost use Rattle.rr_eval.specs.Usual.{ComesTo};
ghost use Rattle.rr_eval.specs.Views.{view_of};
ghost use Rattle.rr_eval.specs.Within.{Reach, reach, IsReached, AreReached};

use crate::call::{Callee, Passing, Target};
use crate::engine::{Engine, push_within};
use crate::frame::{Control, Frame, Making};
use crate::prepared::Prepared;
use crate::quick_parts::QuickParts;
use crate::usual::Quick;
use rr_base::{ClassId, Sym};
use rr_space::{Ref, Space};
use rr_tree::NodeId;

impl Engine {
    /// Makes a new object of a class next, which gets the program's `initialize` with the values that are held for it.
    #[tactic(auto, unfolding(crate::specs::Within::AreReached))]
    #[inline(always)]
    fn await_object(&mut self, making: Making)
        requires room { length self.old.frames.items < vec_capacity self.old.frames }
        requires base { making.base ≤ length self.old.held.items }
        requires nested { Nested (reverse self.old.frames.items) (take making.base self.old.held.items) }
        ensures goes { (p : Program) (t : Table) (h : Course) (n : ℕ) → after_values p (view_of self.old) t (Frames.Initialize making) (made_rule (context_of p) making.class Ref.Nil making.raises (option_map (tree_at p.nodes.items) making.block) (passed_on making.passing (stand_of (Frames.Initialize making) self.old.held.items))) h n ≡ remaining_with p (view_of self.new) t h n }
        ensures nested { IsNested (view_of self.new) }
        ensures within { (k : Reach) → AreReached k (view_of self.old) → AreReached k (view_of self.new) }
        ensures left { self.new.left ≡ self.old.left }
        ensures size { size (view_of self.new) ≤ 3 * length self.old.frames.items + 4 }
    {
        push_within(&mut self.frames, Frame::Initialize(making));
        self.control = Control::New(making.class, Ref::Nil);
    }

    /// Begins to make a new object of a class, with `count` parts from `first` on as its arguments: one step, and those of the class
    /// and of the first arguments that need no frame.
    fn make_usual(
        &mut self,
        prepared: &Prepared,
        space: &Space,
        here: NodeId,
        name: Sym,
        class: ClassId,
        found: Quick,
        first: NodeId,
        count: u32,
        stop: u64,
    ) -> bool
        requires control { self.old.control ≡ Controls.Enter here }
        requires comes { ComesTo prepared.now.program (view_of self.old) space.now (rule (context_of prepared.now.program) (tree_at prepared.now.program.nodes.items here)) found.steps (arguments (context_of prepared.now.program) (trees_before prepared.now.program.nodes.items (first + count) count) (found.value ∷ []) (finish (context_of prepared.now.program) (Aim.Call (Called.Name name)))) }
        requires joins { joined_by (context_of prepared.now.program) space.now (Called.Name name) found.value ≡ None }
        requires method { method_for (context_of prepared.now.program) space.now found.value (Called.Name name) ≡ None }
        requires made { made_by (context_of prepared.now.program) (method_of (context_of prepared.now.program) (Called.Name name)) found.value ≡ Some class }
        requires small { first + count < 2 ^ 32 }
        requires enough { stop + found.steps < self.old.left }
        requires value { (clusters : Option Below) → AreReached (reach (length space.now.slots) clusters) (view_of self.old) → IsReached (reach (length space.now.slots) clusters) found.value }
        requires room { length self.old.frames.items < vec_capacity self.old.frames }
        requires nested { IsNested (view_of self.old) }
        ensures goes { IsTrue result → (h : Course) → remaining prepared.now.program (view_of self.old) space.now h ≡ remaining prepared.now.program (view_of self.new) space.now h }
        ensures nested { IsNested (view_of self.new) }
        ensures within { (clusters : Option Below) → AreReached (reach (length space.now.slots) clusters) (view_of self.old) → AreReached (reach (length space.now.slots) clusters) (view_of self.new) }
        ensures left { IsTrue result → stop ≤ self.new.left }
        ensures kept { self.new.left ≤ self.old.left }
        ensures spends { IsTrue result → self.new.left < self.old.left }
        ensures size { IsTrue result → size (view_of self.new) ≤ 3 * length self.old.frames.items + 4 }
        ensures same { IsFalse result → view_of self.new ≡ view_of self.old }
    {
        if !self.holds_more(count) {
            return false;
        }
        let base = self.held.len();
        let end = first + count;
        let target = Target::Call(Callee::Name(name));
        let before = self.steps_together(stop, found.steps);
        let parts = self.hold_receiver(prepared, space, found.value, end, count, before);
        let steps = self.steps_together(found.steps, parts.steps);
        if parts.rest > 0 {
            let rest = parts.rest;
            self.enter_part(target, end, base, QuickParts { rest, steps });
            return true;
        }
        self.await_object(Making {
            class,
            block: None,
            passing: Passing::BehindReceiver,
            base,
            raises: false,
        });
        self.left = self.left - steps - 1;
        true
    }

    /// Begins a call of a class that is evaluated at once, where it makes an object that gets the program's `initialize`.
    #[cold]
    #[inline(never)]
    pub fn send_class(
        &mut self,
        prepared: &Prepared,
        space: &Space,
        here: NodeId,
        name: Sym,
        found: Quick,
        first: NodeId,
        count: u32,
        stop: u64,
    ) -> bool
        requires control { self.old.control ≡ Controls.Enter here }
        requires comes { ComesTo prepared.now.program (view_of self.old) space.now (rule (context_of prepared.now.program) (tree_at prepared.now.program.nodes.items here)) found.steps (arguments (context_of prepared.now.program) (trees_before prepared.now.program.nodes.items (first + count) count) (found.value ∷ []) (finish (context_of prepared.now.program) (Aim.Call (Called.Name name)))) }
        requires small { first + count < 2 ^ 32 }
        requires enough { stop + found.steps < self.old.left }
        requires value { (clusters : Option Below) → AreReached (reach (length space.now.slots) clusters) (view_of self.old) → IsReached (reach (length space.now.slots) clusters) found.value }
        requires room { length self.old.frames.items < vec_capacity self.old.frames }
        requires nested { IsNested (view_of self.old) }
        ensures goes { (h : Course) → remaining prepared.now.program (view_of self.old) space.now h ≡ remaining prepared.now.program (view_of self.new) space.now h }
        ensures nested { IsNested (view_of self.new) }
        ensures within { (clusters : Option Below) → AreReached (reach (length space.now.slots) clusters) (view_of self.old) → AreReached (reach (length space.now.slots) clusters) (view_of self.new) }
        ensures left { stop ≤ self.new.left }
        ensures kept { self.new.left ≤ self.old.left }
        ensures spends { IsTrue result → self.new.left < self.old.left }
        ensures falls { power (view_of self.new) + self.old.left ≤ power (view_of self.old) + self.new.left }
    {
        match prepared.class_made(space, found.value, name) {
            Some(class) => self.make_usual(
                prepared, space, here, name, class, found, first, count, stop,
            ),
            None => false,
        }
    }
}
