//! Bodies of methods and blocks that begin where that takes no memory.

ghost use Rattle.std.specs.Prelude.{◌≡◌, ◌+◌, ◌*◌, ◌<◌, ◌≤◌, ℕ, ◌++◌, length, reverse, vec_capacity, slice_index_or, Option, None, Some, IsTrue, IsFalse};
ghost use Rattle.std.specs.List.{All};
ghost use Rattle.std.specs.Option.{option_map};
ghost use Rattle.rr_base.specs.declared.name.Sym.{Sym};
ghost use Rattle.rr_frames.specs.Frames.{list_of};
ghost use Rattle.rr_space.specs.Tables.{Table, Below};
ghost use Rattle.rr_tree.specs.Tree.{tree_at};
ghost use Rattle.rr_tree.specs.declared.program.Program.{Program};
ghost use Rattle.rr_eval.specs.declared.call.Callee.{Callee};
ghost use Rattle.rr_eval.specs.Begun.{IsBegun};
ghost use Rattle.rr_eval.specs.Blocks.{running, called, framed, yield_rule};
ghost use Rattle.rr_eval.specs.Dispatch.{passed_on, run_method, run_work, way_of};
ghost use Rattle.rr_eval.specs.Frames.{below_of, base_of, stand_of, Nested};
ghost use Rattle.rr_eval.specs.Methods.{Runs};
ghost use Rattle.rr_eval.specs.Prepared.{callable_of, method_of, way_in};
ghost use Rattle.rr_eval.specs.Requests.{Course};
ghost use Rattle.rr_eval.specs.Turns.{context_of, blocks_of, state_of, IsNested, after_values, remaining_with, size};
ghost use Rattle.rr_eval.specs.Views.{view_of};
ghost use Rattle.rr_eval.specs.Within.{Reach, reach, AreReached, IsReached, IsEntryReached, IsWayReached};

use crate::blocks::{shape_at, spreads};
use crate::call::{Passing, passed};
use crate::call_stack::{CallValue, Entry, Handed};
use crate::engine::{Engine, push_within};
use crate::fields::read_field;
use crate::frame::{Frame, clear, standing};
use crate::invoke::{Way, count_of, invocation, leaving};
use crate::prepared::{Body, Definition, Work};
use rr_base::ClassId;
use rr_frames::{Given, Shape};
use rr_space::{Ref, Space};
use rr_tree::{NodeId, Program};

impl Engine {
    /// Evaluates a body in a frame of its own, whose parameters have the arguments among the values that stand for a frame and one
    /// more, where that takes no memory.
    #[tactic(auto, unfolding(crate::specs::Within::AreReached))]
    #[inline(always)]
    fn begin_body(
        &mut self,
        frame: Frame,
        last: Option<Ref>,
        passing: Passing,
        shape: Shape,
        entry: Entry,
        block: Option<NodeId>,
        body: NodeId,
    ) -> bool
        requires room { length self.old.frames.items < vec_capacity self.old.frames }
        requires base { base_of frame ≤ length self.old.held.items }
        requires nested { Nested (reverse self.old.frames.items) (below_of frame self.old.held.items) }
        ensures goes { IsTrue result → (p : Program) (t : Table) (h : Course) (n : ℕ) → after_values p (view_of self.old) t frame (framed (context_of p) entry shape.parameters shape.size (passed_on passing (stand_of frame self.old.held.items ++ list_of last)) (option_map (tree_at p.nodes.items) block) (tree_at p.nodes.items body) self.old.calls) h n ≡ remaining_with p (view_of self.new) t h n }
        ensures nested { IsTrue result → IsNested (view_of self.new) }
        ensures within { (k : Reach) → AreReached k (view_of self.old) → IsEntryReached k entry → All (IsReached k) (list_of last) → AreReached k (view_of self.new) }
        ensures begun { IsTrue result → IsBegun self.new.control }
        ensures left { self.new.left ≡ self.old.left }
        ensures size { IsTrue result → size (view_of self.new) ≤ 3 * length self.old.frames.items + 4 }
        ensures same { IsFalse result → self.new ≡ self.old }
    {
        if self.blocks.len() >= self.blocks.capacity() {
            return false;
        }
        let (values, last) = passed(passing, standing(&self.held, frame), last);
        if self.calls.push_usual(values, last, shape, entry) {
            push_within(&mut self.blocks, block);
            clear(&mut self.held, frame);
            push_within(&mut self.frames, leaving(entry));
            self.control.enter(body);
            return true;
        }
        false
    }

    /// Evaluates the statements of a method, with the arguments among the values that stand for a frame and one more, where they are
    /// as many as it has parameters and that takes no memory.
    #[inline(always)]
    pub fn begin_statements(
        &mut self,
        class: ClassId,
        body: Body,
        way: Way,
        passing: Passing,
        frame: Frame,
        last: Option<Ref>,
    ) -> bool
        requires room { length self.old.frames.items < vec_capacity self.old.frames }
        requires base { base_of frame ≤ length self.old.held.items }
        requires nested { Nested (reverse self.old.frames.items) (below_of frame self.old.held.items) }
        ensures goes { IsTrue result → (p : Program) (t : Table) (h : Course) (n : ℕ) → after_values p (view_of self.old) t frame (run_work (context_of p) class (Runs (method_of p.nodes.items body)) (way_in p.nodes.items way) (passed_on passing (stand_of frame self.old.held.items ++ list_of last))) h n ≡ remaining_with p (view_of self.new) t h n }
        ensures nested { IsTrue result → IsNested (view_of self.new) }
        ensures within { (k : Reach) → AreReached k (view_of self.old) → IsWayReached k way → All (IsReached k) (list_of last) → AreReached k (view_of self.new) }
        ensures begun { IsTrue result → IsBegun self.new.control }
        ensures left { self.new.left ≡ self.old.left }
        ensures size { IsTrue result → size (view_of self.new) ≤ 3 * length self.old.frames.items + 4 }
        ensures same { IsFalse result → self.new ≡ self.old }
    {
        let given = count_of(passing, standing(&self.held, frame), last);
        if given != body.shape.parameters as usize {
            return false;
        }
        let entry = Entry::OfMethod(invocation(way, class, body));
        self.begin_body(
            frame, last, passing, body.shape, entry, way.block, body.node,
        )
    }

    /// Runs a method of the program on `self`, where it has statements, takes as many arguments, and that takes no memory.
    #[tactic(auto, unfolding(crate::specs::Within::AreReached))]
    #[inline(always)]
    pub fn begin_method(&mut self, definition: Definition, frame: Frame, last: Option<Ref>) -> bool
        requires room { length self.old.frames.items < vec_capacity self.old.frames }
        requires base { base_of frame ≤ length self.old.held.items }
        requires nested { Nested (reverse self.old.frames.items) (below_of frame self.old.held.items) }
        ensures goes { IsTrue result → (p : Program) (name : Sym) (t : Table) (h : Course) (n : ℕ) → after_values p (view_of self.old) t frame (run_method (context_of p) (callable_of p.nodes.items definition) (way_of (Callee.Name name) None (running self.old.calls.frames).itself (stand_of frame self.old.held.items ++ list_of last)) (stand_of frame self.old.held.items ++ list_of last)) h n ≡ remaining_with p (view_of self.new) t h n }
        ensures nested { IsTrue result → IsNested (view_of self.new) }
        ensures within { (k : Reach) → AreReached k (view_of self.old) → All (IsReached k) (list_of last) → AreReached k (view_of self.new) }
        ensures left { self.new.left ≡ self.old.left }
        ensures size { IsTrue result → size (view_of self.new) ≤ 3 * length self.old.frames.items + 4 }
        ensures same { IsFalse result → self.new ≡ self.old }
    {
        let way = Way {
            receiver: self.itself(),
            handed: Handed::Nothing,
            block: None,
            value: CallValue::Method,
        };
        match definition.work {
            Work::Run(body) => {
                let class = definition.class;
                self.begin_statements(class, body, way, Passing::All, frame, last)
            }
            _ => false,
        }
    }

    /// Runs a method of the program on a receiver, with the arguments among the values that stand for a frame and one more, where it
    /// has statements and takes as many, or reads an instance variable, and that takes no memory.
    #[inline(always)]
    pub fn begin_sent(
        &mut self,
        space: &Space,
        definition: Definition,
        receiver: Ref,
        passing: Passing,
        frame: Frame,
        last: Option<Ref>,
    ) -> bool
        requires room { length self.old.frames.items < vec_capacity self.old.frames }
        requires base { base_of frame ≤ length self.old.held.items }
        requires nested { Nested (reverse self.old.frames.items) (below_of frame self.old.held.items) }
        ensures goes { IsTrue result → (p : Program) (name : Sym) (h : Course) (n : ℕ) → after_values p (view_of self.old) space.now frame (run_method (context_of p) (callable_of p.nodes.items definition) (way_of (Callee.Name name) None receiver (passed_on passing (stand_of frame self.old.held.items ++ list_of last))) (passed_on passing (stand_of frame self.old.held.items ++ list_of last))) h n ≡ remaining_with p (view_of self.new) space.now h n }
        ensures nested { IsTrue result → IsNested (view_of self.new) }
        ensures within { (clusters : Option Below) → AreReached (reach (length space.now.slots) clusters) (view_of self.old) → IsReached (reach (length space.now.slots) clusters) receiver → All (IsReached (reach (length space.now.slots) clusters)) (list_of last) → AreReached (reach (length space.now.slots) clusters) (view_of self.new) }
        ensures left { self.new.left ≡ self.old.left }
        ensures size { IsTrue result → size (view_of self.new) ≤ 3 * length self.old.frames.items + 4 }
        ensures same { IsFalse result → self.new ≡ self.old }
    {
        let way = Way {
            receiver,
            handed: Handed::Nothing,
            block: None,
            value: CallValue::Method,
        };
        match definition.work {
            Work::Run(body) => {
                self.begin_statements(definition.class, body, way, passing, frame, last)
            }
            Work::Read(name) => {
                let given = count_of(passing, standing(&self.held, frame), last);
                if given == 0 {
                    let held = read_field(space, receiver, name);
                    clear(&mut self.held, frame);
                    self.settle(held);
                    return true;
                }
                false
            }
            _ => false,
        }
    }

    /// Calls the block that the method was given whose frame has the number, where no array is spread and that takes no memory. The
    /// block stands in the frame `home`.
    #[inline(always)]
    fn begin_block(
        &mut self,
        program: &Program,
        space: &Space,
        number: u32,
        home: u32,
        frame: Frame,
        last: Option<Ref>,
    ) -> bool
        requires room { length self.old.frames.items < vec_capacity self.old.frames }
        requires base { base_of frame ≤ length self.old.held.items }
        requires nested { Nested (reverse self.old.frames.items) (below_of frame self.old.held.items) }
        ensures goes { IsTrue result → (h : Course) (n : ℕ) → after_values program.now (view_of self.old) space.now frame (called (context_of program.now) (slice_index_or (blocks_of program.now.nodes.items self.old.blocks.items) number None) home (stand_of frame self.old.held.items ++ list_of last) (state_of program.now (view_of self.old) space.now h).memory) h n ≡ remaining_with program.now (view_of self.new) space.now h n }
        ensures nested { IsTrue result → IsNested (view_of self.new) }
        ensures within { (k : Reach) → AreReached k (view_of self.old) → All (IsReached k) (list_of last) → AreReached k (view_of self.new) }
        ensures left { self.new.left ≡ self.old.left }
        ensures size { IsTrue result → size (view_of self.new) ≤ 3 * length self.old.frames.items + 4 }
        ensures same { IsFalse result → self.new ≡ self.old }
    {
        let Some(place) = self.block_at(number) else {
            return false;
        };
        let Some(shape) = shape_at(program, place) else {
            return false;
        };
        if spreads(space, shape.parameters, standing(&self.held, frame), last) {
            return false;
        }
        let entry = Entry::OfBlock(home);
        self.begin_body(frame, last, Passing::All, shape, entry, None, place)
    }

    /// Gives the values that stand for a frame and one more to the block of the method that runs, where no array is spread and that
    /// takes no memory.
    #[inline(always)]
    pub fn begin_yield(
        &mut self,
        program: &Program,
        space: &Space,
        frame: Frame,
        last: Option<Ref>,
    ) -> bool
        requires room { length self.old.frames.items < vec_capacity self.old.frames }
        requires base { base_of frame ≤ length self.old.held.items }
        requires nested { Nested (reverse self.old.frames.items) (below_of frame self.old.held.items) }
        ensures goes { IsTrue result → (h : Course) (n : ℕ) → after_values program.now (view_of self.old) space.now frame (yield_rule (context_of program.now) (stand_of frame self.old.held.items ++ list_of last)) h n ≡ remaining_with program.now (view_of self.new) space.now h n }
        ensures nested { IsTrue result → IsNested (view_of self.new) }
        ensures within { (k : Reach) → AreReached k (view_of self.old) → All (IsReached k) (list_of last) → AreReached k (view_of self.new) }
        ensures left { self.new.left ≡ self.old.left }
        ensures size { IsTrue result → size (view_of self.new) ≤ 3 * length self.old.frames.items + 4 }
        ensures same { IsFalse result → self.new ≡ self.old }
    {
        match self.calls.running().given {
            Given::Nothing => false,
            Given::Block { block, home } => {
                self.begin_block(program, space, block, home, frame, last)
            }
        }
    }
}
