//! Blocks, and what `yield` gives them.

ghost use Rattle.std.specs.Prelude.{◌≡◌, ◌+◌, ◌*◌, ◌<◌, ◌≤◌, ◌^◌, ℕ, nat_eq, ◌&&◌, [], ◌∷◌, ◌++◌, length, reverse, vec_capacity, slice_index_or, Option, None, Some, IfOk, IfErr, OnOk};
ghost use Rattle.std.specs.List.{All};
ghost use Rattle.std.specs.Option.{option_map};
ghost use Rattle.rr_base.specs.declared.fault.Fault.{Fault};
ghost use Rattle.rr_frames.specs.Frames.{list_of};
ghost use Rattle.rr_space.specs.Tables.{Table, Below};
ghost use Rattle.rr_space.specs.declared.refer.Ref.{Ref};
ghost use Rattle.rr_tree.specs.Nodes.{trees_before};
ghost use Rattle.rr_tree.specs.Tree.{tree_at};
ghost use Rattle.rr_tree.specs.declared.program.Program.{Program};
ghost use Rattle.rr_eval.specs.Blocks.{spreads, shape_in, called, called_as, yield_rule, without_frame};
ghost use Rattle.rr_eval.specs.Frames.{below_of, base_of, stand_of, Nested};
ghost use Rattle.rr_eval.specs.Requests.{Course};
ghost use Rattle.rr_builtin.specs.Iterations.{iteration_named};
ghost use Rattle.rr_eval.specs.declared.iterating.Visits.{Visits};
ghost use Rattle.rr_eval.specs.Iterating.{continued};
ghost use Rattle.rr_eval.specs.Rules.{arguments, with_value, finish, loops, only_own, block_rule, block_call_rule, own_method, sent_block};
ghost use Rattle.rr_eval.specs.Script.{Script, Do};
ghost use Rattle.rr_eval.specs.Turns.{context_of, blocks_of, state_of, IsNested, after_script, after_values, remaining_with, Stands, size, continuing, sized};
ghost use Rattle.rr_eval.specs.Views.{view_of};
ghost use Rattle.rr_eval.specs.Within.{Reach, reach, AreReached, IsReached, IsAskedReached};

use crate::call::{Passing, Target};
use crate::call_stack::Entry;
use crate::engine::Engine;
use crate::frame::{Control, Frame, standing};
use crate::iterating::{Iterating, Visits, is_loop};
use crate::named::is_only_own;
use crate::nodes::evaluated_node;
use crate::prepared::Prepared;
use crate::problem::Problem;
use crate::request::Request;
use crate::spreading::spread;
use rr_base::{Fault, Sym};
use rr_frames::{Given, Shape};
use rr_space::{Kind, Ref, Space};
use rr_tree::{Node, NodeId, Program};

/// How many parameters and how many variables the block at a place has, where one stands there.
pub fn shape_at(program: &Program, place: NodeId) -> Option<Shape>
    ensures { result ≡ shape_in (Some (tree_at program.now.nodes.items place)) }
{
    match evaluated_node(program, place) {
        Node::Block {
            parameters,
            size,
            ..
        } => Some(Shape { parameters, size }),
        _ => None,
    }
}

/// Whether one array is given to several parameters.
#[inline(always)]
pub fn spreads(space: &Space, parameters: u32, values: &[Ref], last: Option<Ref>) -> bool
    ensures { result ≡ spreads parameters (values.now ++ list_of last) space.now }
{
    match (values, last) {
        ([], Some(value)) => parameters > 1 && matches!(space.kind_of(value), Kind::Array),
        ([value], None) => parameters > 1 && matches!(space.kind_of(*value), Kind::Array),
        ([], None) => false,
        ([_], Some(_)) => false,
        ([_, _, ..], _) => false,
    }
}

/// The first of values, of which the last one stands apart; nil where there is none.
pub fn first_value(values: &[Ref], last: Option<Ref>) -> Ref
    ensures is { result ≡ slice_index_or (values.now ++ list_of last) 0 Ref.Nil }
    ensures within { (k : Reach) → All (IsReached k) values.now → All (IsReached k) (list_of last) → IsReached k result }
{
    match (values, last) {
        ([first, ..], _) => *first,
        ([], Some(value)) => value,
        ([], None) => Ref::Nil,
    }
}

/// Whether a call of a name with so many arguments and a block is one of `loop`.
fn starts_loop(program: &Program, name: Sym, count: u32) -> bool
    ensures { result ≡ (nat_eq count 0 && loops (context_of program.now) name.0) }
{
    count == 0 && is_loop(program.symbol_bytes(name))
}

impl Engine {
    /// The place of the block that the method was given whose frame has the number.
    #[inline(always)]
    pub fn block_at(&self, number: u32) -> Option<NodeId>
        ensures { (p : Program) → option_map (tree_at p.nodes.items) result ≡ slice_index_or (blocks_of p.nodes.items self.now.blocks.items) number None }
    {
        match self.blocks.get(number as usize) {
            Some(block) => *block,
            None => None,
        }
    }

    /// Takes the variables of the frame that runs away, and its block.
    #[tactic(auto, unfolding(crate::specs::Within::AreReached))]
    #[inline(always)]
    pub fn pop_call(&mut self)
        ensures state { (p : Program) (t : Table) (h : Course) → record (state_of p (view_of self.old) t h) { memory = without_frame (state_of p (view_of self.old) t h).memory } ≡ state_of p (view_of self.new) t h }
        ensures within { (k : Reach) → AreReached k (view_of self.old) → AreReached k (view_of self.new) }
        ensures frames { self.new.frames ≡ self.old.frames }
        ensures held { self.new.held ≡ self.old.held }
        ensures control { self.new.control ≡ self.old.control }
        ensures left { self.new.left ≡ self.old.left }
    {
        self.calls.pop();
        let _block = self.blocks.pop();
    }

    /// Takes the frame that runs away.
    #[tactic(auto, unfolding(crate::specs::Within::AreReached))]
    #[inline(always)]
    pub fn drop_frame(&mut self)
        requires nested { IsNested (view_of self.old) }
        ensures goes { (p : Program) (script : Script) (t : Table) (h : Course) (n : ℕ) → after_script p (view_of self.old) t (Do without_frame script) h n ≡ after_script p (view_of self.new) t script h n }
        ensures nested { IsNested (view_of self.new) }
        ensures within { (k : Reach) → AreReached k (view_of self.old) → AreReached k (view_of self.new) }
        ensures frames { self.new.frames ≡ self.old.frames }
        ensures control { self.new.control ≡ self.old.control }
        ensures left { self.new.left ≡ self.old.left }
    {
        self.pop_call();
    }

    /// Calls the block at a place, which stands in the frame `home`, with the values that stand for a frame and with one more.
    /// A refused growth leaves all as it is.
    fn enter_block(
        &mut self,
        space: &Space,
        place: NodeId,
        shape: Shape,
        home: u32,
        frame: Frame,
        last: Option<Ref>,
    ) -> Result<(), Fault>
        requires room { length self.old.frames.items < vec_capacity self.old.frames }
        requires base { base_of frame ≤ length self.old.held.items }
        requires nested { Nested (reverse self.old.frames.items) (below_of frame self.old.held.items) }
        ensures goes { OnOk result ((p : Program) (h : Course) (n : ℕ) → after_values p (view_of self.old) space.now frame (called_as (context_of p) (Some shape) (tree_at p.nodes.items place) home (stand_of frame self.old.held.items ++ list_of last) (state_of p (view_of self.old) space.now h).memory) h n ≡ remaining_with p (view_of self.new) space.now h n) }
        ensures nested { OnOk result (IsNested (view_of self.new)) }
        ensures within { (clusters : Option Below) → AreReached (reach (length space.now.slots) clusters) (view_of self.old) → All (IsReached (reach (length space.now.slots) clusters)) (list_of last) → AreReached (reach (length space.now.slots) clusters) (view_of self.new) }
        ensures left { self.new.left ≡ self.old.left }
        ensures err { (t : Table) → IfErr result (λ f. Stands (view_of self.old) (view_of self.new) t t f) }
        ensures size { OnOk result (size (view_of self.new) ≤ 3 * length self.old.frames.items + 4) }
        ensures room { IfErr result (λ _. length self.new.frames.items < vec_capacity self.new.frames) }
        ensures fault { IfErr result (λ f. f ≡ Fault.Memory) }
    {
        let stand = standing(&self.held, frame);
        if !spreads(space, shape.parameters, stand, last) {
            let entry = Entry::OfBlock(home);
            return self.enter(frame, last, Passing::All, shape, entry, None, place);
        }
        let array = first_value(stand, last);
        match spread(self.alloc, space, array, shape.parameters as usize)? {
            Some(values) => self.enter_spread(frame, values.as_slice(), shape, home, place),
            None => {
                self.refuse(frame, Problem::NotHere);
                Ok(())
            }
        }
    }

    /// Calls the block at a place, where one stands there, as one that stands in the frame `home`.
    pub fn call_at(
        &mut self,
        program: &Program,
        space: &Space,
        place: NodeId,
        home: u32,
        frame: Frame,
        last: Option<Ref>,
    ) -> Result<(), Fault>
        requires room { length self.old.frames.items < vec_capacity self.old.frames }
        requires base { base_of frame ≤ length self.old.held.items }
        requires nested { Nested (reverse self.old.frames.items) (below_of frame self.old.held.items) }
        ensures goes { OnOk result ((h : Course) (n : ℕ) → after_values program.now (view_of self.old) space.now frame (called (context_of program.now) (Some (tree_at program.now.nodes.items place)) home (stand_of frame self.old.held.items ++ list_of last) (state_of program.now (view_of self.old) space.now h).memory) h n ≡ remaining_with program.now (view_of self.new) space.now h n) }
        ensures nested { OnOk result (IsNested (view_of self.new)) }
        ensures within { (clusters : Option Below) → AreReached (reach (length space.now.slots) clusters) (view_of self.old) → All (IsReached (reach (length space.now.slots) clusters)) (list_of last) → AreReached (reach (length space.now.slots) clusters) (view_of self.new) }
        ensures left { self.new.left ≡ self.old.left }
        ensures err { (t : Table) → IfErr result (λ f. Stands (view_of self.old) (view_of self.new) t t f) }
        ensures size { OnOk result (size (view_of self.new) ≤ 3 * length self.old.frames.items + 4) }
        ensures room { IfErr result (λ _. length self.new.frames.items < vec_capacity self.new.frames) }
        ensures fault { IfErr result (λ f. f ≡ Fault.Memory) }
    {
        match shape_at(program, place) {
            Some(shape) => self.enter_block(space, place, shape, home, frame, last),
            None => {
                self.refuse(frame, Problem::NoBlock);
                Ok(())
            }
        }
    }

    /// Calls the block that the method was given whose frame has the number. The block stands in the frame `home`.
    fn call_block(
        &mut self,
        program: &Program,
        space: &Space,
        number: u32,
        home: u32,
        frame: Frame,
        last: Option<Ref>,
    ) -> Result<(), Fault>
        requires room { length self.old.frames.items < vec_capacity self.old.frames }
        requires base { base_of frame ≤ length self.old.held.items }
        requires nested { Nested (reverse self.old.frames.items) (below_of frame self.old.held.items) }
        ensures goes { OnOk result ((h : Course) (n : ℕ) → after_values program.now (view_of self.old) space.now frame (called (context_of program.now) (slice_index_or (blocks_of program.now.nodes.items self.old.blocks.items) number None) home (stand_of frame self.old.held.items ++ list_of last) (state_of program.now (view_of self.old) space.now h).memory) h n ≡ remaining_with program.now (view_of self.new) space.now h n) }
        ensures nested { OnOk result (IsNested (view_of self.new)) }
        ensures within { (clusters : Option Below) → AreReached (reach (length space.now.slots) clusters) (view_of self.old) → All (IsReached (reach (length space.now.slots) clusters)) (list_of last) → AreReached (reach (length space.now.slots) clusters) (view_of self.new) }
        ensures left { self.new.left ≡ self.old.left }
        ensures err { (t : Table) → IfErr result (λ f. Stands (view_of self.old) (view_of self.new) t t f) }
        ensures size { OnOk result (size (view_of self.new) ≤ 3 * length self.old.frames.items + 4) }
        ensures room { IfErr result (λ _. length self.new.frames.items < vec_capacity self.new.frames) }
        ensures fault { IfErr result (λ f. f ≡ Fault.Memory) }
    {
        match self.block_at(number) {
            Some(place) => self.call_at(program, space, place, home, frame, last),
            None => {
                self.refuse(frame, Problem::NoBlock);
                Ok(())
            }
        }
    }

    /// Gives the values that stand for a frame and one more to the block of the method that runs. A refused growth leaves all
    /// as it is.
    pub fn yield_values(
        &mut self,
        program: &Program,
        space: &Space,
        frame: Frame,
        last: Option<Ref>,
    ) -> Result<(), Fault>
        requires room { length self.old.frames.items < vec_capacity self.old.frames }
        requires base { base_of frame ≤ length self.old.held.items }
        requires nested { Nested (reverse self.old.frames.items) (below_of frame self.old.held.items) }
        ensures goes { OnOk result ((h : Course) (n : ℕ) → after_values program.now (view_of self.old) space.now frame (yield_rule (context_of program.now) (stand_of frame self.old.held.items ++ list_of last)) h n ≡ remaining_with program.now (view_of self.new) space.now h n) }
        ensures nested { OnOk result (IsNested (view_of self.new)) }
        ensures within { (clusters : Option Below) → AreReached (reach (length space.now.slots) clusters) (view_of self.old) → All (IsReached (reach (length space.now.slots) clusters)) (list_of last) → AreReached (reach (length space.now.slots) clusters) (view_of self.new) }
        ensures left { self.new.left ≡ self.old.left }
        ensures err { (t : Table) → IfErr result (λ f. Stands (view_of self.old) (view_of self.new) t t f) }
        ensures size { OnOk result (size (view_of self.new) ≤ 3 * length self.old.frames.items + 4) }
        ensures room { IfErr result (λ _. length self.new.frames.items < vec_capacity self.new.frames) }
        ensures fault { IfErr result (λ f. f ≡ Fault.Memory) }
    {
        match self.calls.running().given {
            Given::Nothing => {
                self.refuse(frame, Problem::NoBlock);
                Ok(())
            }
            Given::Block { block, home } => {
                self.call_block(program, space, block, home, frame, last)
            }
        }
    }

    /// Evaluates the values, the last `count` parts before `first + count`, that `yield` gives.
    pub fn open_yield(
        &mut self,
        program: &Program,
        space: &Space,
        first: NodeId,
        count: u32,
    ) -> Result<(), Fault>
        requires small { first + count < 2 ^ 32 }
        requires nested { IsNested (view_of self.old) }
        ensures goes { OnOk result ((h : Course) (n : ℕ) → after_script program.now (view_of self.old) space.now (arguments (context_of program.now) (trees_before program.now.nodes.items (first + count) count) [] (finish (context_of program.now) Target.Yield)) h n ≡ remaining_with program.now (view_of self.new) space.now h n) }
        ensures nested { IsNested (view_of self.new) }
        ensures within { (clusters : Option Below) → AreReached (reach (length space.now.slots) clusters) (view_of self.old) → AreReached (reach (length space.now.slots) clusters) (view_of self.new) }
        ensures left { self.new.left ≡ self.old.left }
        ensures err { (t : Table) → IfErr result (λ f. Stands (view_of self.old) (view_of self.new) t t f) }
        ensures size { OnOk result (size (view_of self.new) ≤ 3 * length self.old.frames.items + 4) }
        ensures fault { IfErr result (λ f. f ≡ Fault.Memory) }
    {
        self.frames.reserve(1)?;
        match count {
            0 => self.yield_values(program, space, Frame::Not, None),
            _ => {
                let frame = Frame::Item(Target::Yield, first + count, count - 1, self.held.len());
                self.enter_above(frame, first);
                Ok(())
            }
        }
    }

    /// Evaluates a call of `loop` with a block.
    #[tactic(auto, unfolding(crate::specs::Within::AreReached))]
    fn open_loop(&mut self, program: &Program, space: &Space, block: NodeId) -> Result<(), Fault>
        requires nested { IsNested (view_of self.old) }
        ensures goes { OnOk result ((h : Course) (n : ℕ) → after_script program.now (view_of self.old) space.now (continued (context_of program.now) (record { visits = Visits.Forever; stand = []; block = tree_at program.now.nodes.items block })) h n ≡ remaining_with program.now (view_of self.new) space.now h n) }
        ensures nested { IsNested (view_of self.new) }
        ensures within { (clusters : Option Below) → AreReached (reach (length space.now.slots) clusters) (view_of self.old) → AreReached (reach (length space.now.slots) clusters) (view_of self.new) }
        ensures left { self.new.left ≡ self.old.left }
        ensures err { (t : Table) → IfErr result (λ f. Stands (view_of self.old) (view_of self.new) t t f) }
        ensures size { OnOk result (size (view_of self.new) ≤ 3 * length self.old.frames.items + 4) }
        ensures fault { IfErr result (λ f. f ≡ Fault.Memory) }
    {
        self.frames.reserve(1)?;
        let iteration = Iterating {
            visits: Visits::Forever,
            block,
            base: self.held.len(),
        };
        self.call_turn(program, space, iteration, None, None)
    }

    /// Evaluates a call with a block of a name: of a method of the program, of `loop`, of another that only `self` has, which takes no
    /// block yet, or of a built-in method of `self`.
    #[tactic(auto, unfolding(crate::specs::Within::AreReached))]
    fn open_block_call(
        &mut self,
        prepared: &Prepared,
        space: &Space,
        name: Sym,
        first: NodeId,
        count: u32,
        block: NodeId,
    ) -> Result<Option<Request>, Fault>
        requires small { first + count < 2 ^ 32 }
        requires nested { IsNested (view_of self.old) }
        ensures goes { IfOk result (λ q. (h : Course) (n : ℕ) → after_script prepared.now.program (view_of self.old) space.now (block_call_rule (context_of prepared.now.program) (own_method (context_of prepared.now.program) name.0 (state_of prepared.now.program (view_of self.old) space.now h).memory) (loops (context_of prepared.now.program) name.0) (only_own (context_of prepared.now.program) name.0) name (trees_before prepared.now.program.nodes.items (first + count) count) (tree_at prepared.now.program.nodes.items block)) h n ≡ continuing prepared.now.program (view_of self.new) space.now q h n) }
        ensures nested { IsNested (view_of self.new) }
        ensures within { (clusters : Option Below) → AreReached (reach (length space.now.slots) clusters) (view_of self.old) → AreReached (reach (length space.now.slots) clusters) (view_of self.new) }
        ensures left { self.new.left ≡ self.old.left }
        ensures err { (t : Table) → IfErr result (λ f. Stands (view_of self.old) (view_of self.new) t t f) }
        ensures asks { (k : Reach) → AreReached k (view_of self.old) → IfOk result (IsAskedReached k) }
        ensures size { IfOk result (λ q. sized q (view_of self.new) ≤ 3 * length self.old.frames.items + 4) }
        ensures fault { IfErr result (λ f. f ≡ Fault.Memory) }
    {
        match self.own_method(prepared, space, name) {
            Some(_) => self.open_own(prepared, space, name, Some(block), first, count),
            None if starts_loop(&prepared.program, name, count) => {
                self.open_loop(&prepared.program, space, block)?;
                Ok(None)
            }
            None if is_only_own(&prepared.program, name) => {
                self.control = Control::Throw(Problem::NotHere);
                Ok(None)
            }
            None => self.open_own(prepared, space, name, Some(block), first, count),
        }
    }

    /// Evaluates the receiver of a call with a block, and then its arguments.
    #[tactic(auto, unfolding(crate::specs::Within::AreReached))]
    fn open_block_send(
        &mut self,
        receiver: NodeId,
        name: Sym,
        first: NodeId,
        count: u32,
        block: NodeId,
    ) -> Result<(), Fault>
        requires small { first + count < 2 ^ 32 }
        requires nested { IsNested (view_of self.old) }
        ensures goes { OnOk result ((p : Program) (t : Table) (h : Course) (n : ℕ) → after_script p (view_of self.old) t (with_value (tree_at p.nodes.items receiver) (λ v. arguments (context_of p) (trees_before p.nodes.items (first + count) count) (v ∷ []) (sent_block (context_of p) name (tree_at p.nodes.items block)))) h n ≡ remaining_with p (view_of self.new) t h n) }
        ensures nested { IsNested (view_of self.new) }
        ensures within { (k : Reach) → AreReached k (view_of self.old) → AreReached k (view_of self.new) }
        ensures left { self.new.left ≡ self.old.left }
        ensures err { (t : Table) → IfErr result (λ f. Stands (view_of self.old) (view_of self.new) t t f) }
        ensures size { OnOk result (size (view_of self.new) ≤ 3 * length self.old.frames.items + 4) }
        ensures fault { IfErr result (λ f. f ≡ Fault.Memory) }
    {
        self.frames.reserve(1)?;
        let target = Target::Iterate(name, block);
        let frame = Frame::Receiver(target, first + count, count, self.held.len());
        self.enter_above(frame, receiver);
        Ok(())
    }

    /// Evaluates a call with a block.
    #[tactic(auto, unfolding(crate::specs::Within::AreReached))]
    pub fn open_block(
        &mut self,
        prepared: &Prepared,
        space: &Space,
        call: NodeId,
        block: NodeId,
    ) -> Result<Option<Request>, Fault>
        requires nested { IsNested (view_of self.old) }
        ensures goes { IfOk result (λ q. (h : Course) (n : ℕ) → after_script prepared.now.program (view_of self.old) space.now (block_rule (context_of prepared.now.program) (tree_at prepared.now.program.nodes.items call) (tree_at prepared.now.program.nodes.items block)) h n ≡ continuing prepared.now.program (view_of self.new) space.now q h n) }
        ensures nested { IsNested (view_of self.new) }
        ensures within { (clusters : Option Below) → AreReached (reach (length space.now.slots) clusters) (view_of self.old) → AreReached (reach (length space.now.slots) clusters) (view_of self.new) }
        ensures left { self.new.left ≡ self.old.left }
        ensures err { (t : Table) → IfErr result (λ f. Stands (view_of self.old) (view_of self.new) t t f) }
        ensures asks { (k : Reach) → AreReached k (view_of self.old) → IfOk result (IsAskedReached k) }
        ensures size { IfOk result (λ q. sized q (view_of self.new) ≤ 3 * length self.old.frames.items + 4) }
        ensures fault { IfErr result (λ f. f ≡ Fault.Memory) }
    {
        match evaluated_node(&prepared.program, call) {
            Node::Call {
                name,
                first,
                count,
                ..
            } => self.open_block_call(prepared, space, name, first, count, block),
            Node::Send {
                receiver,
                name,
                first,
                count,
                ..
            } => {
                self.open_block_send(receiver, name, first, count, block)?;
                Ok(None)
            }
            _ => {
                self.control = Control::Throw(Problem::NotHere);
                Ok(None)
            }
        }
    }
}
