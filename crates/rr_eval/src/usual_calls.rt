//! Calls that are usual: of a method of the program on `self`, and of a block by `yield`, with arguments that need no frame, where they
//! take no memory.

ghost use Rattle.std.specs.Prelude.{◌≡◌, ◌+◌, ◌*◌, ◌<◌, ◌≤◌, ◌^◌, [], false, length, vec_capacity, None, Some, IsTrue, IsFalse, Option};
ghost use Rattle.rr_parser.specs.Grammar.Names.{is_splat};
ghost use Rattle.rr_space.specs.Tables.{Below};
ghost use Rattle.rr_tree.specs.Nodes.{trees_before};
ghost use Rattle.rr_tree.specs.Tree.{tree_at};
ghost use Rattle.rr_eval.specs.declared.call.Target.{Target};
ghost use Rattle.rr_eval.specs.declared.frame.Control.{Control};
ghost use Rattle.rr_eval.specs.Prepared.{callable_of};
ghost use Rattle.rr_eval.specs.Requests.{Course};
ghost use Rattle.rr_eval.specs.Rules.{rule, arguments, finish, call_rule, own_method, printing, raises, awaited, bare_rule, asks_block};
ghost use Rattle.rr_eval.specs.Script.{See};
ghost use Rattle.rr_eval.specs.Turns.{context_of, state_of, IsNested, remaining, power, size};
ghost use Rattle.rr_eval.specs.Usual.{TakesNow};
ghost use Rattle.rr_eval.specs.Views.{view_of};
ghost use Rattle.rr_eval.specs.Within.{reach, IsReached, AreReached};

use crate::call::{Callee, Target};
use crate::engine::Engine;
use crate::frame::Frame;
use crate::prepared::{Definition, Prepared};
use crate::usual::Quick;
use rr_base::Sym;
use rr_space::Space;
use rr_tree::NodeId;

impl Engine {
    /// Calls a method of the program on `self`, with an argument that is evaluated at once.
    #[inline(always)]
    fn call_one(
        &mut self,
        prepared: &Prepared,
        space: &Space,
        here: NodeId,
        name: Sym,
        first: NodeId,
        definition: Definition,
        found: Quick,
        stop: u64,
    ) -> bool
        requires control { self.old.control ≡ Control.Enter here }
        requires script { rule (context_of prepared.now.program) (tree_at prepared.now.program.nodes.items here) ≡ See (λ m. call_rule (context_of prepared.now.program) (own_method (context_of prepared.now.program) name.0 m) (printing (context_of prepared.now.program) name.0) (raises (context_of prepared.now.program) name.0) (awaited (context_of prepared.now.program) name.0) name (trees_before prepared.now.program.nodes.items (first + 1) 1)) }
        requires method { (h : Course) → Some (callable_of prepared.now.program.nodes.items definition) ≡ own_method (context_of prepared.now.program) name.0 (state_of prepared.now.program (view_of self.old) space.now h).memory }
        requires takes { TakesNow prepared.now.program (view_of self.old) space.now (tree_at prepared.now.program.nodes.items first) found.steps found.value }
        requires plain { is_splat (tree_at prepared.now.program.nodes.items first) ≡ false }
        requires few { found.steps ≤ 31 }
        requires enough { stop + found.steps < self.old.left }
        requires value { (clusters : Option Below) → AreReached (reach (length space.now.slots) clusters) (view_of self.old) → IsReached (reach (length space.now.slots) clusters) found.value }
        requires room { length self.old.frames.items < vec_capacity self.old.frames }
        requires nested { IsNested (view_of self.old) }
        ensures goes { IsTrue result → (h : Course) → remaining prepared.now.program (view_of self.old) space.now h ≡ remaining prepared.now.program (view_of self.new) space.now h }
        ensures nested { IsNested (view_of self.new) }
        ensures within { (clusters : Option Below) → AreReached (reach (length space.now.slots) clusters) (view_of self.old) → AreReached (reach (length space.now.slots) clusters) (view_of self.new) }
        ensures left { IsTrue result → stop ≤ self.new.left }
        ensures kept { self.new.left ≤ self.old.left }
        ensures spends { IsTrue result → self.new.left < self.old.left }
        ensures size { IsTrue result → size (view_of self.new) ≤ 3 * length self.old.frames.items + 4 }
        ensures same { IsFalse result → view_of self.new ≡ view_of self.old }
    {
        if self.begin_method(definition, Frame::Not, Some(found.value)) {
            self.left -= found.steps + 1;
            return true;
        }
        false
    }

    /// Gives the block of the method that runs a value that is evaluated at once.
    #[inline(always)]
    fn yield_one(
        &mut self,
        prepared: &Prepared,
        space: &Space,
        here: NodeId,
        first: NodeId,
        found: Quick,
        stop: u64,
    ) -> bool
        requires control { self.old.control ≡ Control.Enter here }
        requires script { rule (context_of prepared.now.program) (tree_at prepared.now.program.nodes.items here) ≡ arguments (context_of prepared.now.program) (trees_before prepared.now.program.nodes.items (first + 1) 1) [] (finish (context_of prepared.now.program) Target.Yield) }
        requires takes { TakesNow prepared.now.program (view_of self.old) space.now (tree_at prepared.now.program.nodes.items first) found.steps found.value }
        requires plain { is_splat (tree_at prepared.now.program.nodes.items first) ≡ false }
        requires few { found.steps ≤ 31 }
        requires enough { stop + found.steps < self.old.left }
        requires value { (clusters : Option Below) → AreReached (reach (length space.now.slots) clusters) (view_of self.old) → IsReached (reach (length space.now.slots) clusters) found.value }
        requires room { length self.old.frames.items < vec_capacity self.old.frames }
        requires nested { IsNested (view_of self.old) }
        ensures goes { IsTrue result → (h : Course) → remaining prepared.now.program (view_of self.old) space.now h ≡ remaining prepared.now.program (view_of self.new) space.now h }
        ensures nested { IsNested (view_of self.new) }
        ensures within { (clusters : Option Below) → AreReached (reach (length space.now.slots) clusters) (view_of self.old) → AreReached (reach (length space.now.slots) clusters) (view_of self.new) }
        ensures left { IsTrue result → stop ≤ self.new.left }
        ensures kept { self.new.left ≤ self.old.left }
        ensures spends { IsTrue result → self.new.left < self.old.left }
        ensures size { IsTrue result → size (view_of self.new) ≤ 3 * length self.old.frames.items + 4 }
        ensures same { IsFalse result → view_of self.new ≡ view_of self.old }
    {
        let last = Some(found.value);
        if self.begin_yield(&prepared.program, space, Frame::Not, last) {
            self.left -= found.steps + 1;
            self.enter_body(&prepared.program, stop);
            return true;
        }
        false
    }

    /// Whether there is room for so many values more.
    #[inline(always)]
    pub(crate) fn holds(&self, count: u32) -> bool
        ensures { IsTrue result → length self.now.held.items + count ≤ vec_capacity self.now.held }
    {
        self.held.capacity().saturating_sub(self.held.len()) >= count as usize
    }

    /// Calls a method of the program on `self`, with `count` parts from `first` on as its arguments: one step, and those of the
    /// first arguments that need no frame.
    #[cold]
    #[inline(never)]
    fn call_all(
        &mut self,
        prepared: &Prepared,
        space: &Space,
        here: NodeId,
        name: Sym,
        first: NodeId,
        count: u32,
        definition: &Definition,
        stop: u64,
    ) -> bool
        requires control { self.old.control ≡ Control.Enter here }
        requires script { rule (context_of prepared.now.program) (tree_at prepared.now.program.nodes.items here) ≡ See (λ m. call_rule (context_of prepared.now.program) (own_method (context_of prepared.now.program) name.0 m) (printing (context_of prepared.now.program) name.0) (raises (context_of prepared.now.program) name.0) (awaited (context_of prepared.now.program) name.0) name (trees_before prepared.now.program.nodes.items (first + count) count)) }
        requires method { (h : Course) → Some (callable_of prepared.now.program.nodes.items definition.now) ≡ own_method (context_of prepared.now.program) name.0 (state_of prepared.now.program (view_of self.old) space.now h).memory }
        requires small { first + count < 2 ^ 32 }
        requires some { stop < self.old.left }
        requires room { length self.old.frames.items < vec_capacity self.old.frames }
        requires nested { IsNested (view_of self.old) }
        ensures goes { IsTrue result → (h : Course) → remaining prepared.now.program (view_of self.old) space.now h ≡ remaining prepared.now.program (view_of self.new) space.now h }
        ensures nested { IsNested (view_of self.new) }
        ensures within { (clusters : Option Below) → AreReached (reach (length space.now.slots) clusters) (view_of self.old) → AreReached (reach (length space.now.slots) clusters) (view_of self.new) }
        ensures left { IsTrue result → stop ≤ self.new.left }
        ensures kept { self.new.left ≤ self.old.left }
        ensures spends { IsTrue result → self.new.left < self.old.left }
        ensures size { IsTrue result → size (view_of self.new) ≤ 3 * length self.old.frames.items + 4 }
        ensures same { IsFalse result → view_of self.new ≡ view_of self.old }
    {
        if !self.holds(count) {
            return false;
        }
        let base = self.held.len();
        let end = first + count;
        let parts = self.hold_parts(prepared, space, end, count, stop);
        let target = Target::Own(name, None);
        if parts.rest > 0 {
            self.enter_part(target, end, base, parts);
            return true;
        }
        if self.begin_method(*definition, Frame::Argument(target, end, 0, base), None) {
            self.left = self.left - parts.steps - 1;
            self.enter_single(&prepared.program, stop);
            return true;
        }
        self.held.truncate(base);
        false
    }

    /// Gives the block of the method that runs `count` parts from `first` on: one step, and those of the first parts that need
    /// no frame.
    #[cold]
    #[inline(never)]
    fn yield_all(
        &mut self,
        prepared: &Prepared,
        space: &Space,
        here: NodeId,
        first: NodeId,
        count: u32,
        stop: u64,
    ) -> bool
        requires control { self.old.control ≡ Control.Enter here }
        requires script { rule (context_of prepared.now.program) (tree_at prepared.now.program.nodes.items here) ≡ arguments (context_of prepared.now.program) (trees_before prepared.now.program.nodes.items (first + count) count) [] (finish (context_of prepared.now.program) Target.Yield) }
        requires small { first + count < 2 ^ 32 }
        requires some { stop < self.old.left }
        requires room { length self.old.frames.items < vec_capacity self.old.frames }
        requires nested { IsNested (view_of self.old) }
        ensures goes { IsTrue result → (h : Course) → remaining prepared.now.program (view_of self.old) space.now h ≡ remaining prepared.now.program (view_of self.new) space.now h }
        ensures nested { IsNested (view_of self.new) }
        ensures within { (clusters : Option Below) → AreReached (reach (length space.now.slots) clusters) (view_of self.old) → AreReached (reach (length space.now.slots) clusters) (view_of self.new) }
        ensures left { IsTrue result → stop ≤ self.new.left }
        ensures kept { self.new.left ≤ self.old.left }
        ensures spends { IsTrue result → self.new.left < self.old.left }
        ensures size { IsTrue result → size (view_of self.new) ≤ 3 * length self.old.frames.items + 4 }
        ensures same { IsFalse result → view_of self.new ≡ view_of self.old }
    {
        if !self.holds(count) {
            return false;
        }
        let base = self.held.len();
        let end = first + count;
        let parts = self.hold_parts(prepared, space, end, count, stop);
        let target = Target::Yield;
        if parts.rest > 0 {
            self.enter_part(target, end, base, parts);
            return true;
        }
        let frame = Frame::Argument(target, end, 0, base);
        if self.begin_yield(&prepared.program, space, frame, None) {
            self.left = self.left - parts.steps - 1;
            return true;
        }
        self.held.truncate(base);
        false
    }

    /// Calls this method of the program on `self`.
    #[inline(always)]
    fn call_with(
        &mut self,
        prepared: &Prepared,
        space: &Space,
        here: NodeId,
        name: Sym,
        first: NodeId,
        count: u32,
        definition: &Definition,
        stop: u64,
    ) -> bool
        requires control { self.old.control ≡ Control.Enter here }
        requires script { rule (context_of prepared.now.program) (tree_at prepared.now.program.nodes.items here) ≡ See (λ m. call_rule (context_of prepared.now.program) (own_method (context_of prepared.now.program) name.0 m) (printing (context_of prepared.now.program) name.0) (raises (context_of prepared.now.program) name.0) (awaited (context_of prepared.now.program) name.0) name (trees_before prepared.now.program.nodes.items (first + count) count)) }
        requires method { (h : Course) → Some (callable_of prepared.now.program.nodes.items definition.now) ≡ own_method (context_of prepared.now.program) name.0 (state_of prepared.now.program (view_of self.old) space.now h).memory }
        requires small { first + count < 2 ^ 32 }
        requires some { stop < self.old.left }
        requires room { length self.old.frames.items < vec_capacity self.old.frames }
        requires nested { IsNested (view_of self.old) }
        ensures goes { (h : Course) → remaining prepared.now.program (view_of self.old) space.now h ≡ remaining prepared.now.program (view_of self.new) space.now h }
        ensures nested { IsNested (view_of self.new) }
        ensures within { (clusters : Option Below) → AreReached (reach (length space.now.slots) clusters) (view_of self.old) → AreReached (reach (length space.now.slots) clusters) (view_of self.new) }
        ensures left { stop ≤ self.new.left }
        ensures kept { self.new.left ≤ self.old.left }
        ensures spends { IsTrue result → self.new.left < self.old.left }
        ensures falls { power (view_of self.new) + self.old.left ≤ power (view_of self.old) + self.new.left }
    {
        if count == 1
            && let Some(found) = self.quick_before(prepared, space, first, stop)
        {
            let base = prepared.base_case(name);
            if let Some(base) = base
                && self.call_early(
                    prepared, space, here, name, first, definition, base, found, stop,
                )
            {
                return true;
            }
            if self.call_one(prepared, space, here, name, first, *definition, found, stop) {
                match base {
                    Some(base) => self.enter_behind(prepared, base, stop),
                    None => self.enter_statements(prepared, stop),
                }
                return true;
            }
            return false;
        }
        self.call_all(prepared, space, here, name, first, count, definition, stop)
    }

    /// Calls a method of the program on `self`, which is no plain object of class Object, where its class has one of this name.
    #[cold]
    #[inline(never)]
    fn call_looked_up(
        &mut self,
        prepared: &Prepared,
        space: &Space,
        here: NodeId,
        name: Sym,
        first: NodeId,
        count: u32,
        stop: u64,
    ) -> bool
        requires control { self.old.control ≡ Control.Enter here }
        requires script { rule (context_of prepared.now.program) (tree_at prepared.now.program.nodes.items here) ≡ See (λ m. call_rule (context_of prepared.now.program) (own_method (context_of prepared.now.program) name.0 m) (printing (context_of prepared.now.program) name.0) (raises (context_of prepared.now.program) name.0) (awaited (context_of prepared.now.program) name.0) name (trees_before prepared.now.program.nodes.items (first + count) count)) }
        requires small { first + count < 2 ^ 32 }
        requires some { stop < self.old.left }
        requires room { length self.old.frames.items < vec_capacity self.old.frames }
        requires nested { IsNested (view_of self.old) }
        ensures goes { (h : Course) → remaining prepared.now.program (view_of self.old) space.now h ≡ remaining prepared.now.program (view_of self.new) space.now h }
        ensures nested { IsNested (view_of self.new) }
        ensures within { (clusters : Option Below) → AreReached (reach (length space.now.slots) clusters) (view_of self.old) → AreReached (reach (length space.now.slots) clusters) (view_of self.new) }
        ensures left { stop ≤ self.new.left }
        ensures kept { self.new.left ≤ self.old.left }
        ensures spends { IsTrue result → self.new.left < self.old.left }
        ensures falls { power (view_of self.new) + self.old.left ≤ power (view_of self.old) + self.new.left }
    {
        let receiver = self.itself();
        match prepared.method_looked_up(space, receiver, Callee::Name(name)) {
            Some(definition) => {
                self.call_with(prepared, space, here, name, first, count, &definition, stop)
            }
            None => false,
        }
    }

    /// Calls a method of the program on `self`, where it has one of this name.
    #[inline(always)]
    pub fn call_usual(
        &mut self,
        prepared: &Prepared,
        space: &Space,
        here: NodeId,
        name: Sym,
        first: NodeId,
        count: u32,
        stop: u64,
    ) -> bool
        requires control { self.old.control ≡ Control.Enter here }
        requires script { rule (context_of prepared.now.program) (tree_at prepared.now.program.nodes.items here) ≡ See (λ m. call_rule (context_of prepared.now.program) (own_method (context_of prepared.now.program) name.0 m) (printing (context_of prepared.now.program) name.0) (raises (context_of prepared.now.program) name.0) (awaited (context_of prepared.now.program) name.0) name (trees_before prepared.now.program.nodes.items (first + count) count)) }
        requires small { first + count < 2 ^ 32 }
        requires some { stop < self.old.left }
        requires room { length self.old.frames.items < vec_capacity self.old.frames }
        requires nested { IsNested (view_of self.old) }
        ensures goes { (h : Course) → remaining prepared.now.program (view_of self.old) space.now h ≡ remaining prepared.now.program (view_of self.new) space.now h }
        ensures nested { IsNested (view_of self.new) }
        ensures within { (clusters : Option Below) → AreReached (reach (length space.now.slots) clusters) (view_of self.old) → AreReached (reach (length space.now.slots) clusters) (view_of self.new) }
        ensures left { stop ≤ self.new.left }
        ensures kept { self.new.left ≤ self.old.left }
        ensures spends { IsTrue result → self.new.left < self.old.left }
        ensures falls { power (view_of self.new) + self.old.left ≤ power (view_of self.old) + self.new.left }
    {
        match prepared.method_of_plain(space, self.itself(), name) {
            Some(Some(definition)) => {
                self.call_with(prepared, space, here, name, first, count, definition, stop)
            }
            Some(None) => false,
            None => self.call_looked_up(prepared, space, here, name, first, count, stop),
        }
    }

    /// Calls a method of the program on `self` without arguments, where it has one of this name.
    #[cold]
    #[inline(never)]
    pub fn bare_usual(
        &mut self,
        prepared: &Prepared,
        space: &Space,
        here: NodeId,
        name: Sym,
        stop: u64,
    ) -> bool
        requires control { self.old.control ≡ Control.Enter here }
        requires script { rule (context_of prepared.now.program) (tree_at prepared.now.program.nodes.items here) ≡ See (λ m. bare_rule (context_of prepared.now.program) (own_method (context_of prepared.now.program) name.0 m) (printing (context_of prepared.now.program) name.0) (raises (context_of prepared.now.program) name.0) (asks_block (context_of prepared.now.program) name.0) name) }
        requires some { stop < self.old.left }
        requires room { length self.old.frames.items < vec_capacity self.old.frames }
        requires nested { IsNested (view_of self.old) }
        ensures goes { (h : Course) → remaining prepared.now.program (view_of self.old) space.now h ≡ remaining prepared.now.program (view_of self.new) space.now h }
        ensures nested { IsNested (view_of self.new) }
        ensures within { (clusters : Option Below) → AreReached (reach (length space.now.slots) clusters) (view_of self.old) → AreReached (reach (length space.now.slots) clusters) (view_of self.new) }
        ensures left { stop ≤ self.new.left }
        ensures kept { self.new.left ≤ self.old.left }
        ensures spends { IsTrue result → self.new.left < self.old.left }
        ensures falls { power (view_of self.new) + self.old.left ≤ power (view_of self.old) + self.new.left }
    {
        let Some(definition) = self.own_method(prepared, space, name) else {
            return false;
        };
        if self.begin_method(definition, Frame::Not, None) {
            self.left -= 1;
            return true;
        }
        false
    }

    /// Gives values to the block of the method that runs.
    #[inline(always)]
    pub fn yield_usual(
        &mut self,
        prepared: &Prepared,
        space: &Space,
        here: NodeId,
        first: NodeId,
        count: u32,
        stop: u64,
    ) -> bool
        requires control { self.old.control ≡ Control.Enter here }
        requires script { rule (context_of prepared.now.program) (tree_at prepared.now.program.nodes.items here) ≡ arguments (context_of prepared.now.program) (trees_before prepared.now.program.nodes.items (first + count) count) [] (finish (context_of prepared.now.program) Target.Yield) }
        requires small { first + count < 2 ^ 32 }
        requires some { stop < self.old.left }
        requires room { length self.old.frames.items < vec_capacity self.old.frames }
        requires nested { IsNested (view_of self.old) }
        ensures goes { (h : Course) → remaining prepared.now.program (view_of self.old) space.now h ≡ remaining prepared.now.program (view_of self.new) space.now h }
        ensures nested { IsNested (view_of self.new) }
        ensures within { (clusters : Option Below) → AreReached (reach (length space.now.slots) clusters) (view_of self.old) → AreReached (reach (length space.now.slots) clusters) (view_of self.new) }
        ensures left { stop ≤ self.new.left }
        ensures kept { self.new.left ≤ self.old.left }
        ensures spends { IsTrue result → self.new.left < self.old.left }
        ensures falls { power (view_of self.new) + self.old.left ≤ power (view_of self.old) + self.new.left }
    {
        if count == 1
            && let Some(found) = self.quick_before(prepared, space, first, stop)
        {
            return self.yield_one(prepared, space, here, first, found, stop);
        }
        self.yield_all(prepared, space, here, first, count, stop)
    }
}
