//! Calls of a receiver that are usual: of a method of the program, on a receiver and with arguments that need no frame, where they take
//! no memory.

ghost use Rattle.std.specs.Prelude.{◌≡◌, ◌+◌, ◌*◌, ◌<◌, ◌≤◌, ◌^◌, [], ◌∷◌, false, length, vec_capacity, Option, None, Some, IsTrue, IsFalse};
ghost use Rattle.rr_parser.specs.Grammar.Names.{is_splat};
ghost use Rattle.rr_space.specs.Tables.{Below};
ghost use Rattle.rr_tree.specs.Nodes.{trees_before};
ghost use Rattle.rr_tree.specs.Tree.{tree_at};
ghost use Rattle.rr_eval.specs.declared.call.Callee.{Callee as Called};
ghost use Rattle.rr_eval.specs.declared.call.Target.{Target as Aim};
ghost use Rattle.rr_eval.specs.declared.frame.Control.{Control};
ghost use Rattle.rr_eval.specs.Dispatch.{method_for};
ghost use Rattle.rr_eval.specs.Joins.{joined_by};
ghost use Rattle.rr_eval.specs.Prepared.{callable_of};
ghost use Rattle.rr_eval.specs.Requests.{Course};
ghost use Rattle.rr_eval.specs.Rules.{rule, with_value, arguments, finish};
ghost use Rattle.rr_eval.specs.Turns.{context_of, IsNested, remaining, power, size};
ghost use Rattle.rr_eval.specs.Usual.{TakesNow, ComesTo};
ghost use Rattle.rr_eval.specs.Views.{view_of};
ghost use Rattle.rr_eval.specs.Within.{reach, IsReached, AreReached};

use crate::call::{Callee, Passing, Target};
use crate::engine::Engine;
use crate::frame::Frame;
use crate::prepared::{Definition, Prepared};
use crate::quick_parts::QuickParts;
use crate::usual::Quick;
use rr_base::Sym;
use rr_space::{Ref, Space};
use rr_tree::NodeId;

impl Engine {
    /// Whether there is room for so many values and one more.
    #[inline(always)]
    pub(crate) fn holds_more(&self, count: u32) -> bool
        ensures { IsTrue result → length self.now.held.items + count < vec_capacity self.now.held }
    {
        self.held.capacity().saturating_sub(self.held.len()) > count as usize
    }

    /// Calls a method of the program, without arguments, on a receiver that is evaluated at once.
    #[inline(always)]
    fn send_bare(
        &mut self,
        prepared: &Prepared,
        space: &Space,
        here: NodeId,
        name: Sym,
        definition: Definition,
        found: Quick,
        stop: u64,
    ) -> bool
        requires control { self.old.control ≡ Control.Enter here }
        requires comes { ComesTo prepared.now.program (view_of self.old) space.now (rule (context_of prepared.now.program) (tree_at prepared.now.program.nodes.items here)) found.steps (arguments (context_of prepared.now.program) [] (found.value ∷ []) (finish (context_of prepared.now.program) (Aim.Call (Called.Name name)))) }
        requires joins { joined_by (context_of prepared.now.program) space.now (Called.Name name) found.value ≡ None }
        requires method { Some (callable_of prepared.now.program.nodes.items definition) ≡ method_for (context_of prepared.now.program) space.now found.value (Called.Name name) }
        requires few { found.steps ≤ 31 }
        requires enough { stop + found.steps < self.old.left }
        requires value { (clusters : Option Below) → AreReached (reach (length space.now.slots) clusters) (view_of self.old) → IsReached (reach (length space.now.slots) clusters) found.value }
        requires room { length self.old.frames.items < vec_capacity self.old.frames }
        requires nested { IsNested (view_of self.old) }
        ensures goes { IsTrue result → (h : Course) → remaining prepared.now.program (view_of self.old) space.now h ≡ remaining prepared.now.program (view_of self.new) space.now h }
        ensures nested { IsNested (view_of self.new) }
        ensures within { (clusters : Option Below) → AreReached (reach (length space.now.slots) clusters) (view_of self.old) → AreReached (reach (length space.now.slots) clusters) (view_of self.new) }
        ensures left { IsTrue result → stop ≤ self.new.left }
        ensures kept { self.new.left ≤ self.old.left }
        ensures spends { IsTrue result → self.new.left < self.old.left }
        ensures size { IsTrue result → size (view_of self.new) ≤ 3 * length self.old.frames.items + 4 }
        ensures same { IsFalse result → view_of self.new ≡ view_of self.old }
    {
        let passing = Passing::All;
        if self.begin_sent(space, definition, found.value, passing, Frame::Not, None) {
            self.left -= found.steps + 1;
            self.enter_single(&prepared.program, stop);
            return true;
        }
        false
    }

    /// Calls a method of the program on a receiver and with an argument that are evaluated at once.
    #[inline(always)]
    fn send_one(
        &mut self,
        prepared: &Prepared,
        space: &Space,
        here: NodeId,
        name: Sym,
        definition: Definition,
        found: Quick,
        first: NodeId,
        argument: Quick,
        stop: u64,
    ) -> bool
        requires control { self.old.control ≡ Control.Enter here }
        requires comes { ComesTo prepared.now.program (view_of self.old) space.now (rule (context_of prepared.now.program) (tree_at prepared.now.program.nodes.items here)) found.steps (arguments (context_of prepared.now.program) (trees_before prepared.now.program.nodes.items (first + 1) 1) (found.value ∷ []) (finish (context_of prepared.now.program) (Aim.Call (Called.Name name)))) }
        requires joins { joined_by (context_of prepared.now.program) space.now (Called.Name name) found.value ≡ None }
        requires method { Some (callable_of prepared.now.program.nodes.items definition) ≡ method_for (context_of prepared.now.program) space.now found.value (Called.Name name) }
        requires takes { TakesNow prepared.now.program (view_of self.old) space.now (tree_at prepared.now.program.nodes.items first) argument.steps argument.value }
        requires plain { is_splat (tree_at prepared.now.program.nodes.items first) ≡ false }
        requires few { found.steps + argument.steps ≤ 62 }
        requires enough { stop + found.steps + argument.steps < self.old.left }
        requires value { (clusters : Option Below) → AreReached (reach (length space.now.slots) clusters) (view_of self.old) → IsReached (reach (length space.now.slots) clusters) found.value }
        requires last { (clusters : Option Below) → AreReached (reach (length space.now.slots) clusters) (view_of self.old) → IsReached (reach (length space.now.slots) clusters) argument.value }
        requires room { length self.old.frames.items < vec_capacity self.old.frames }
        requires nested { IsNested (view_of self.old) }
        ensures goes { IsTrue result → (h : Course) → remaining prepared.now.program (view_of self.old) space.now h ≡ remaining prepared.now.program (view_of self.new) space.now h }
        ensures nested { IsNested (view_of self.new) }
        ensures within { (clusters : Option Below) → AreReached (reach (length space.now.slots) clusters) (view_of self.old) → AreReached (reach (length space.now.slots) clusters) (view_of self.new) }
        ensures left { IsTrue result → stop ≤ self.new.left }
        ensures kept { self.new.left ≤ self.old.left }
        ensures spends { IsTrue result → self.new.left < self.old.left }
        ensures size { IsTrue result → size (view_of self.new) ≤ 3 * length self.old.frames.items + 4 }
        ensures same { IsFalse result → view_of self.new ≡ view_of self.old }
    {
        let last = Some(argument.value);
        let passing = Passing::All;
        if self.begin_sent(space, definition, found.value, passing, Frame::Not, last) {
            self.left -= found.steps + argument.steps + 1;
            self.enter_single(&prepared.program, stop);
            return true;
        }
        false
    }

    /// Calls a method of the program on a receiver that is evaluated at once, with `count` parts from `first` on as its arguments: one
    /// step, and those of the receiver and of the first arguments that need no frame.
    #[inline(never)]
    fn send_all(
        &mut self,
        prepared: &Prepared,
        space: &Space,
        here: NodeId,
        name: Sym,
        definition: &Definition,
        found: Quick,
        first: NodeId,
        count: u32,
        stop: u64,
    ) -> bool
        requires control { self.old.control ≡ Control.Enter here }
        requires comes { ComesTo prepared.now.program (view_of self.old) space.now (rule (context_of prepared.now.program) (tree_at prepared.now.program.nodes.items here)) found.steps (arguments (context_of prepared.now.program) (trees_before prepared.now.program.nodes.items (first + count) count) (found.value ∷ []) (finish (context_of prepared.now.program) (Aim.Call (Called.Name name)))) }
        requires joins { joined_by (context_of prepared.now.program) space.now (Called.Name name) found.value ≡ None }
        requires method { Some (callable_of prepared.now.program.nodes.items definition.now) ≡ method_for (context_of prepared.now.program) space.now found.value (Called.Name name) }
        requires small { first + count < 2 ^ 32 }
        requires enough { stop + found.steps < self.old.left }
        requires value { (clusters : Option Below) → AreReached (reach (length space.now.slots) clusters) (view_of self.old) → IsReached (reach (length space.now.slots) clusters) found.value }
        requires room { length self.old.frames.items < vec_capacity self.old.frames }
        requires nested { IsNested (view_of self.old) }
        ensures goes { IsTrue result → (h : Course) → remaining prepared.now.program (view_of self.old) space.now h ≡ remaining prepared.now.program (view_of self.new) space.now h }
        ensures nested { IsNested (view_of self.new) }
        ensures within { (clusters : Option Below) → AreReached (reach (length space.now.slots) clusters) (view_of self.old) → AreReached (reach (length space.now.slots) clusters) (view_of self.new) }
        ensures left { IsTrue result → stop ≤ self.new.left }
        ensures kept { self.new.left ≤ self.old.left }
        ensures spends { IsTrue result → self.new.left < self.old.left }
        ensures size { IsTrue result → size (view_of self.new) ≤ 3 * length self.old.frames.items + 4 }
        ensures same { IsFalse result → view_of self.new ≡ view_of self.old }
    {
        if !self.holds_more(count) {
            return false;
        }
        let base = self.held.len();
        let end = first + count;
        let target = Target::Call(Callee::Name(name));
        let before = self.steps_together(stop, found.steps);
        let parts = self.hold_receiver(prepared, space, found.value, end, count, before);
        let steps = self.steps_together(found.steps, parts.steps);
        if parts.rest > 0 {
            let rest = parts.rest;
            self.enter_part(target, end, base, QuickParts { rest, steps });
            return true;
        }
        let frame = Frame::Argument(target, end, 0, base);
        let passing = Passing::BehindReceiver;
        if self.begin_sent(space, *definition, found.value, passing, frame, None) {
            self.left = self.left - steps - 1;
            self.enter_single(&prepared.program, stop);
            return true;
        }
        self.held.truncate(base);
        false
    }

    /// Calls this method of the program on a receiver that is evaluated at once.
    #[inline(always)]
    fn send_with(
        &mut self,
        prepared: &Prepared,
        space: &Space,
        here: NodeId,
        name: Sym,
        definition: &Definition,
        found: Quick,
        first: NodeId,
        count: u32,
        stop: u64,
    ) -> bool
        requires control { self.old.control ≡ Control.Enter here }
        requires comes { ComesTo prepared.now.program (view_of self.old) space.now (rule (context_of prepared.now.program) (tree_at prepared.now.program.nodes.items here)) found.steps (arguments (context_of prepared.now.program) (trees_before prepared.now.program.nodes.items (first + count) count) (found.value ∷ []) (finish (context_of prepared.now.program) (Aim.Call (Called.Name name)))) }
        requires joins { joined_by (context_of prepared.now.program) space.now (Called.Name name) found.value ≡ None }
        requires method { Some (callable_of prepared.now.program.nodes.items definition.now) ≡ method_for (context_of prepared.now.program) space.now found.value (Called.Name name) }
        requires few { found.steps ≤ 31 }
        requires small { first + count < 2 ^ 32 }
        requires enough { stop + found.steps < self.old.left }
        requires value { (clusters : Option Below) → AreReached (reach (length space.now.slots) clusters) (view_of self.old) → IsReached (reach (length space.now.slots) clusters) found.value }
        requires room { length self.old.frames.items < vec_capacity self.old.frames }
        requires nested { IsNested (view_of self.old) }
        ensures goes { (h : Course) → remaining prepared.now.program (view_of self.old) space.now h ≡ remaining prepared.now.program (view_of self.new) space.now h }
        ensures nested { IsNested (view_of self.new) }
        ensures within { (clusters : Option Below) → AreReached (reach (length space.now.slots) clusters) (view_of self.old) → AreReached (reach (length space.now.slots) clusters) (view_of self.new) }
        ensures left { stop ≤ self.new.left }
        ensures kept { self.new.left ≤ self.old.left }
        ensures spends { IsTrue result → self.new.left < self.old.left }
        ensures falls { power (view_of self.new) + self.old.left ≤ power (view_of self.old) + self.new.left }
    {
        if count == 0 {
            return self.send_bare(prepared, space, here, name, *definition, found, stop);
        }
        let before = self.steps_together(stop, found.steps);
        if count == 1
            && let Some(argument) = self.quick_before(prepared, space, first, before)
        {
            return self.send_one(
                prepared,
                space,
                here,
                name,
                *definition,
                found,
                first,
                argument,
                stop,
            );
        }
        self.send_all(
            prepared, space, here, name, definition, found, first, count, stop,
        )
    }

    /// Calls a method of the program on a receiver that is evaluated at once, where its class has one of this name: it is looked up
    /// class by class.
    #[cold]
    #[inline(never)]
    fn send_looked_up(
        &mut self,
        prepared: &Prepared,
        space: &Space,
        here: NodeId,
        name: Sym,
        found: Quick,
        first: NodeId,
        count: u32,
        stop: u64,
    ) -> bool
        requires control { self.old.control ≡ Control.Enter here }
        requires comes { ComesTo prepared.now.program (view_of self.old) space.now (rule (context_of prepared.now.program) (tree_at prepared.now.program.nodes.items here)) found.steps (arguments (context_of prepared.now.program) (trees_before prepared.now.program.nodes.items (first + count) count) (found.value ∷ []) (finish (context_of prepared.now.program) (Aim.Call (Called.Name name)))) }
        requires few { found.steps ≤ 31 }
        requires small { first + count < 2 ^ 32 }
        requires enough { stop + found.steps < self.old.left }
        requires value { (clusters : Option Below) → AreReached (reach (length space.now.slots) clusters) (view_of self.old) → IsReached (reach (length space.now.slots) clusters) found.value }
        requires room { length self.old.frames.items < vec_capacity self.old.frames }
        requires nested { IsNested (view_of self.old) }
        ensures goes { (h : Course) → remaining prepared.now.program (view_of self.old) space.now h ≡ remaining prepared.now.program (view_of self.new) space.now h }
        ensures nested { IsNested (view_of self.new) }
        ensures within { (clusters : Option Below) → AreReached (reach (length space.now.slots) clusters) (view_of self.old) → AreReached (reach (length space.now.slots) clusters) (view_of self.new) }
        ensures left { stop ≤ self.new.left }
        ensures kept { self.new.left ≤ self.old.left }
        ensures spends { IsTrue result → self.new.left < self.old.left }
        ensures falls { power (view_of self.new) + self.old.left ≤ power (view_of self.old) + self.new.left }
    {
        let callee = Callee::Name(name);
        if prepared.joined_by(space, found.value, callee).is_some() {
            return false;
        }
        match prepared.method_looked_up(space, found.value, callee) {
            Some(definition) => self.send_with(
                prepared,
                space,
                here,
                name,
                &definition,
                found,
                first,
                count,
                stop,
            ),
            None => false,
        }
    }

    /// Calls a method of the program on a receiver that is evaluated at once, where its class has one of this name.
    #[cold]
    #[inline(never)]
    fn send_found(
        &mut self,
        prepared: &Prepared,
        space: &Space,
        here: NodeId,
        name: Sym,
        found: Quick,
        first: NodeId,
        count: u32,
        stop: u64,
    ) -> bool
        requires control { self.old.control ≡ Control.Enter here }
        requires comes { ComesTo prepared.now.program (view_of self.old) space.now (rule (context_of prepared.now.program) (tree_at prepared.now.program.nodes.items here)) found.steps (arguments (context_of prepared.now.program) (trees_before prepared.now.program.nodes.items (first + count) count) (found.value ∷ []) (finish (context_of prepared.now.program) (Aim.Call (Called.Name name)))) }
        requires few { found.steps ≤ 31 }
        requires small { first + count < 2 ^ 32 }
        requires enough { stop + found.steps < self.old.left }
        requires value { (clusters : Option Below) → AreReached (reach (length space.now.slots) clusters) (view_of self.old) → IsReached (reach (length space.now.slots) clusters) found.value }
        requires room { length self.old.frames.items < vec_capacity self.old.frames }
        requires nested { IsNested (view_of self.old) }
        ensures goes { (h : Course) → remaining prepared.now.program (view_of self.old) space.now h ≡ remaining prepared.now.program (view_of self.new) space.now h }
        ensures nested { IsNested (view_of self.new) }
        ensures within { (clusters : Option Below) → AreReached (reach (length space.now.slots) clusters) (view_of self.old) → AreReached (reach (length space.now.slots) clusters) (view_of self.new) }
        ensures left { stop ≤ self.new.left }
        ensures kept { self.new.left ≤ self.old.left }
        ensures spends { IsTrue result → self.new.left < self.old.left }
        ensures falls { power (view_of self.new) + self.old.left ≤ power (view_of self.old) + self.new.left }
    {
        match prepared.method_of_plain(space, found.value, name) {
            Some(Some(definition)) => self.send_with(
                prepared, space, here, name, definition, found, first, count, stop,
            ),
            Some(None) => false,
            None => { self.send_looked_up(prepared, space, here, name, found, first, count, stop) }
        }
    }

    /// Calls a method of the program on a receiver that is evaluated at once, where its class has one of this name, or evaluates a
    /// receiver that needs a frame.
    #[inline(always)]
    pub fn send_usual(
        &mut self,
        prepared: &Prepared,
        space: &Space,
        here: NodeId,
        name: Sym,
        receiver: NodeId,
        first: NodeId,
        count: u32,
        stop: u64,
    ) -> bool
        requires control { self.old.control ≡ Control.Enter here }
        requires script { rule (context_of prepared.now.program) (tree_at prepared.now.program.nodes.items here) ≡ with_value (tree_at prepared.now.program.nodes.items receiver) (λ v. arguments (context_of prepared.now.program) (trees_before prepared.now.program.nodes.items (first + count) count) (v ∷ []) (finish (context_of prepared.now.program) (Aim.Call (Called.Name name)))) }
        requires small { first + count < 2 ^ 32 }
        requires some { stop < self.old.left }
        requires room { length self.old.frames.items < vec_capacity self.old.frames }
        requires nested { IsNested (view_of self.old) }
        ensures goes { (h : Course) → remaining prepared.now.program (view_of self.old) space.now h ≡ remaining prepared.now.program (view_of self.new) space.now h }
        ensures nested { IsNested (view_of self.new) }
        ensures within { (clusters : Option Below) → AreReached (reach (length space.now.slots) clusters) (view_of self.old) → AreReached (reach (length space.now.slots) clusters) (view_of self.new) }
        ensures left { stop ≤ self.new.left }
        ensures kept { self.new.left ≤ self.old.left }
        ensures spends { IsTrue result → self.new.left < self.old.left }
        ensures falls { power (view_of self.new) + self.old.left ≤ power (view_of self.old) + self.new.left }
    {
        match self.quick_before(prepared, space, receiver, stop) {
            Some(
                found @ Quick {
                    value: Ref::Class(_),
                    ..
                },
            ) => self.send_class(prepared, space, here, name, found, first, count, stop),
            Some(found) => {
                self.send_found(prepared, space, here, name, found, first, count, stop)
            }
            None => {
                self.open_receiver(Callee::Name(name), receiver, first + count, count);
                self.left -= 1;
                true
            }
        }
    }
}
