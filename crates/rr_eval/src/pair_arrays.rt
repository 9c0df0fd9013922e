//! Turns over a key and its value as one array, which is made for each of them.

ghost use Rattle.std.specs.Prelude.{◌≡◌, ◌+◌, ◌*◌, ◌<◌, ◌≤◌, ℕ, ◌++◌, ◌∷◌, [], length, reverse, take, drop, vec_capacity, Option, Some, IfOk, IfErr, OnOk};
ghost use Rattle.std.specs.List.{All};
ghost use Rattle.rr_base.specs.declared.fault.Fault.{Fault};
ghost use Rattle.rr_frames.specs.Frames.{list_of};
ghost use Rattle.rr_space.specs.Parts.{IsWithin};
ghost use Rattle.rr_space.specs.Tables.{Table, Below};
ghost use Rattle.rr_text.specs.Reads.{IsReadWith};
ghost use Rattle.rr_tree.specs.Tree.{tree_at};
ghost use Rattle.rr_tree.specs.declared.program.Program.{Program};
ghost use Rattle.rr_builtin.specs.Acts.{IsRefAmong};
ghost use Rattle.rr_eval.specs.declared.frame.Control.{Control};
ghost use Rattle.rr_eval.specs.declared.frame.Frame.{Frame};
ghost use Rattle.rr_eval.specs.Acts.{IsRefusal, Passes};
ghost use Rattle.rr_eval.specs.Blocks.{shape_in};
ghost use Rattle.rr_eval.specs.Changes.{Changes};
ghost use Rattle.rr_eval.specs.Frames.{iterated, Nested};
ghost use Rattle.rr_eval.specs.Iterating.{array_turn, takes_array, or_nil, turn_over};
ghost use Rattle.rr_eval.specs.Pairs.{with_both, paired};
ghost use Rattle.rr_eval.specs.Requests.{Course, Adds};
ghost use Rattle.rr_eval.specs.Script.{objects_of};
ghost use Rattle.rr_eval.specs.Turns.{context_of, code_of, state_of, remaining, remaining_with, IsNested, after_values, Stands, size};
ghost use Rattle.rr_eval.specs.Views.{view_of};
ghost use Rattle.rr_eval.specs.Within.{Reach, reach, AreReached, AreWithin, IsReached, KeepsReach, KeepsRead};

use crate::blocks::shape_at;
use crate::engine::{Engine, push_within};
use crate::frame::{Control, Frame};
use crate::iterating::{Iterating, Visits};
use crate::prepared::Prepared;
use crate::problem::Answer;
use rr_base::Fault;
use rr_space::{Items, Node, Ref, Space};
use rr_tree::{NodeId, Program};
use std::alloc::Global;

/// Whether the block at a place gets a key and its value as one array, where an iteration over a hash goes on so.
fn takes_array(program: &Program, visits: Visits, block: NodeId) -> bool
    ensures { result ≡ takes_array visits (shape_in (Some (tree_at program.now.nodes.items block))) }
{
    match visits {
        Visits::Pairs(_) => match shape_at(program, block) {
            Some(shape) => shape.parameters == 1,
            None => false,
        },
        Visits::Times(_)
        | Visits::Upto(_)
        | Visits::Elements(_, _)
        | Visits::Nothing
        | Visits::Forever => false,
    }
}

/// A value, or nil where there is none.
fn or_nil(value: Option<Ref>) -> Ref
    ensures is { result ≡ or_nil value }
    ensures within { (k : Reach) → All (IsReached k) (list_of value) → IsReached k result }
{
    match value {
        Some(value) => value,
        None => Ref::Nil,
    }
}

/// Makes a new array of two values. A refused growth leaves the objects as they were.
fn make_both(alloc: Global, space: &mut Space, first: Ref, last: Ref) -> Result<Ref, Fault>
    requires first { IsWithin (length space.old.slots) first }
    requires last { IsWithin (length space.old.slots) last }
    ensures name { IfOk result (λ array. array ≡ Ref.Local (length space.old.slots)) }
    ensures made { IfOk result (λ _. space.new ≡ with_both first last space.old) }
    ensures read { (below : Below) → IsReadWith space.old below → IsRefAmong below first → IsRefAmong below last → IsReadWith space.new below }
    ensures kept { IfErr result (λ _. space.new ≡ space.old) }
    ensures refused { IfErr result IsRefusal }
    ensures limit { space.new.limit ≡ space.old.limit }
    ensures changed { Changes space.old space.new }
    ensures full { IfErr result (λ f. Passes f space.old.limit (length (with_both first last space.old).slots)) }
{
    match space.alloc(Node::Array(Items::two(alloc, first, last))) {
        Ok(array) => Ok(array),
        Err(fault) => Err(fault),
    }
}

impl Engine {
    /// Begins to make an array of two values for a turn of an iteration.
    #[tactic(auto, unfolding(crate::specs::Within::AreReached))]
    fn begin_pair(&mut self, iteration: Iterating, first: Ref, last: Ref)
        requires room { length self.old.frames.items < vec_capacity self.old.frames }
        requires base { iteration.base ≤ length self.old.held.items }
        requires nested { Nested (reverse self.old.frames.items) (take iteration.base self.old.held.items) }
        ensures goes { (p : Program) (t : Table) (h : Course) (n : ℕ) → after_values p (view_of self.old) t (Frame.Round iteration) (paired first last (array_turn (context_of p) (iterated (code_of p h.world) iteration (drop iteration.base self.old.held.items)))) h n ≡ remaining_with p (view_of self.new) t h n }
        ensures nested { IsNested (view_of self.new) }
        ensures within { (k : Reach) → AreReached k (view_of self.old) → IsReached k first → IsReached k last → AreReached k (view_of self.new) }
        ensures left { self.new.left ≡ self.old.left }
        ensures size { size (view_of self.new) ≤ 3 * length self.old.frames.items + 4 }
    {
        push_within(&mut self.frames, Frame::Paired(iteration));
        self.control = Control::Pair(first, last);
    }

    /// Calls the block of an iteration for a turn, with up to two values, of which an array is made first where the block gets one. A
    /// refused growth leaves all as it is.
    pub fn take_turn(
        &mut self,
        program: &Program,
        space: &Space,
        iteration: Iterating,
        first: Option<Ref>,
        last: Option<Ref>,
    ) -> Result<(), Fault>
        requires room { length self.old.frames.items < vec_capacity self.old.frames }
        requires base { iteration.base ≤ length self.old.held.items }
        requires nested { Nested (reverse self.old.frames.items) (take iteration.base self.old.held.items) }
        ensures goes { OnOk result ((h : Course) (n : ℕ) → after_values program.now (view_of self.old) space.now (Frame.Round iteration) (turn_over (context_of program.now) (iterated (code_of program.now h.world) iteration (drop iteration.base self.old.held.items)) (takes_array iteration.visits (shape_in (Some (tree_at program.now.nodes.items iteration.block)))) first last (state_of program.now (view_of self.old) space.now h).memory) h n ≡ remaining_with program.now (view_of self.new) space.now h n) }
        ensures nested { OnOk result (IsNested (view_of self.new)) }
        ensures within { (clusters : Option Below) → AreReached (reach (length space.now.slots) clusters) (view_of self.old) → All (IsReached (reach (length space.now.slots) clusters)) (list_of first ++ list_of last) → AreReached (reach (length space.now.slots) clusters) (view_of self.new) }
        ensures left { self.new.left ≡ self.old.left }
        ensures err { (t : Table) → IfErr result (λ f. Stands (view_of self.old) (view_of self.new) t t f) }
        ensures size { OnOk result (size (view_of self.new) ≤ 3 * length self.old.frames.items + 4) }
        ensures room { IfErr result (λ _. length self.new.frames.items < vec_capacity self.new.frames) }
        ensures fault { IfErr result (λ f. f ≡ Fault.Memory) }
    {
        if takes_array(program, iteration.visits, iteration.block) {
            let key = or_nil(first);
            let value = or_nil(last);
            self.begin_pair(iteration, key, value);
            Ok(())
        } else {
            self.call_turn(program, space, iteration, first, last)
        }
    }

    /// Makes an array of two values, and gives it to the frame that waits for it. A refused growth leaves what is still to be done as it
    /// is: an array that is made is not made again.
    #[inline(never)]
    pub fn make_pair(
        &mut self,
        prepared: &Prepared,
        space: &mut Space,
        first: Ref,
        last: Ref,
    ) -> Result<(), Fault>
        requires control { self.old.control ≡ Control.Pair first last }
        requires nested { IsNested (view_of self.old) }
        requires within { AreWithin (length space.old.slots) (view_of self.old) }
        ensures goes { (h : Course) → remaining prepared.now.program (view_of self.old) space.old h ≡ remaining prepared.now.program (view_of self.new) space.new h }
        ensures nested { IsNested (view_of self.new) }
        ensures within { KeepsReach (view_of self.old) space.old (view_of self.new) space.new }
        ensures read { KeepsRead (view_of self.old) space.old space.new }
        ensures left { self.new.left ≡ self.old.left }
        ensures size { OnOk result (size (view_of self.new) < size (view_of self.old)) }
        ensures refusal { IfErr result IsRefusal }
        ensures limit { space.new.limit ≡ space.old.limit }
        ensures changed { Changes space.old space.new }
        ensures full { IfErr result (λ f. (h : Course) → Adds h.world → Passes f space.old.limit (objects_of (remaining prepared.now.program (view_of self.old) space.old h))) }
    {
        let array = match make_both(self.alloc, space, first, last) {
            Ok(array) => array,
            Err(fault) => return Err(fault),
        };
        self.control = Control::Give(Answer::Gave(array));
        match self.frames.pop() {
            Some(frame) => self.give_object(prepared, space, frame, array),
            // A frame waits for each array of two values.
            None => Err(Fault::Memory),
        }
    }
}
