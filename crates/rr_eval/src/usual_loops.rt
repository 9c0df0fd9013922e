//! Rounds of loops whose statements assign to local variables: they are done one after the other, without frames.

ghost use Rattle.std.specs.Prelude.{◌≡◌, ◌+◌, ◌*◌, ◌<◌, ◌≤◌, ◌^◌, ℕ, [], ◌∷◌, ◌++◌, length, vec_capacity, Option, IsTrue, IsFalse};
ghost use Rattle.rr_space.specs.Tables.{Table, Below};
ghost use Rattle.rr_tree.specs.Nodes.{trees_before};
ghost use Rattle.rr_tree.specs.Tree.{tree_at};
ghost use Rattle.rr_tree.specs.declared.node.Node.{Node as Nodes};
ghost use Rattle.rr_tree.specs.declared.program.Program.{Program};
ghost use Rattle.rr_eval.specs.declared.frame.Control.{Control};
ghost use Rattle.rr_eval.specs.declared.frame.Frame.{Frame};
ghost use Rattle.rr_eval.specs.Nodes.{evaluated_tree};
ghost use Rattle.rr_eval.specs.Requests.{Course};
ghost use Rattle.rr_eval.specs.Rules.{statements};
ghost use Rattle.rr_eval.specs.StraightRounds.{Rounded, IsDone, goes_again};
ghost use Rattle.rr_eval.specs.Turns.{IsNested, remaining, remaining_with, after_script, power, size};
ghost use Rattle.rr_eval.specs.View.{View};
ghost use Rattle.rr_eval.specs.Views.{view_of};
ghost use Rattle.rr_eval.specs.Within.{Reach, reach, AreReached};

use crate::call_stack::Variable;
use crate::engine::Engine;
use crate::frame::{Control, Frame};
use crate::prepared::Prepared;
use crate::problem::Answer;
use crate::value::{goes_on, is_object};
use rr_frames::Given;
use rr_space::{Ref, Space};
use rr_tree::{Node, NodeId};

/// How a round of a loop went.
#[derive(Clone, Copy)]
pub enum Round {
    /// All its statements are done, and the loop comes next again.
    Again,
    /// The condition ended the loop.
    Over,
    /// So many of its statements, the last ones, are still to be done.
    Unfinished(u32),
    /// Nothing was done: the steps may not suffice, or the condition needs a frame.
    Stopped,
}

/// More steps than a statement takes, or a condition with what is around it.
const STEPS: u64 = 180;

impl Engine {
    /// One round of a loop, which comes next, where more steps than a number are left. Its body has these statements.
    #[inline(always)]
    fn go_straight(
        &mut self,
        prepared: &Prepared,
        space: &Space,
        here: NodeId,
        until: bool,
        condition: NodeId,
        body: NodeId,
        from: usize,
        first: NodeId,
        count: u32,
        floor: u64,
    ) -> Round
        requires control { self.old.control ≡ Control.Enter here }
        requires tree { tree_at prepared.now.program.nodes.items here ≡ evaluated_tree prepared.now.program.nodes.items (Nodes.Loop until condition body) }
        requires list { tree_at prepared.now.program.nodes.items body ≡ evaluated_tree prepared.now.program.nodes.items (Nodes.Sequence first count) }
        requires small { first + count < 2 ^ 32 }
        requires numbers { from < 2 ^ 32 }
        requires floor { 180 * (count + 1) ≤ floor }
        ensures goes { Rounded prepared.now.program (view_of self.old) space.now here (first + count) result (view_of self.new) }
        ensures within { (clusters : Option Below) → AreReached (reach (length space.now.slots) clusters) (view_of self.old) → AreReached (reach (length space.now.slots) clusters) (view_of self.new) }
        ensures others { self.new ≡ record self.old { calls = self.new.calls; left = self.new.left } }
        ensures enough { floor < self.old.left → floor < self.new.left + 180 * (count + 1) }
        ensures kept { self.new.left ≤ self.old.left }
        ensures spends { IsDone result → self.new.left < self.old.left }
    {
        if self.left <= floor {
            return Round::Stopped;
        }
        let Some(tested) = self.quick(prepared, space, condition) else {
            return Round::Stopped;
        };
        if !goes_on(until, tested.value) {
            self.left -= tested.steps + 1;
            return Round::Over;
        }
        let done = self.do_statements(prepared, space, from, first, count);
        self.left -= done.steps + tested.steps + 2;
        match done.rest {
            0 => Round::Again,
            rest => Round::Unfinished(rest),
        }
    }

    /// Rounds of a loop, which comes next, one after the other, up to one that is not done wholly.
    #[inline(never)]
    fn run_straight(
        &mut self,
        prepared: &Prepared,
        space: &Space,
        here: NodeId,
        until: bool,
        condition: NodeId,
        body: NodeId,
        from: usize,
        first: NodeId,
        count: u32,
        floor: u64,
    ) -> Round
        requires control { self.old.control ≡ Control.Enter here }
        requires tree { tree_at prepared.now.program.nodes.items here ≡ evaluated_tree prepared.now.program.nodes.items (Nodes.Loop until condition body) }
        requires list { tree_at prepared.now.program.nodes.items body ≡ evaluated_tree prepared.now.program.nodes.items (Nodes.Sequence first count) }
        requires small { first + count < 2 ^ 32 }
        requires numbers { from < 2 ^ 32 }
        requires floor { 180 * (count + 1) ≤ floor }
        requires some { floor < self.old.left }
        ensures goes { Rounded prepared.now.program (view_of self.old) space.now here (first + count) result (view_of self.new) }
        ensures within { (clusters : Option Below) → AreReached (reach (length space.now.slots) clusters) (view_of self.old) → AreReached (reach (length space.now.slots) clusters) (view_of self.new) }
        ensures others { self.new ≡ record self.old { calls = self.new.calls; left = self.new.left } }
        ensures enough { floor < self.new.left + 180 * (count + 1) }
        ensures kept { self.new.left ≤ self.old.left }
        ensures spends { IsDone result → self.new.left < self.old.left }
    {
        loop {
            let gone = self.go_straight(
                prepared, space, here, until, condition, body, from, first, count, floor,
            );
            if !goes_again(gone) || self.left <= floor {
                return gone;
            }
        }
    }

    /// Goes on with the last `rest` statements of a loop's body before `end`, over which its frame is put.
    #[tactic(auto, unfolding(crate::specs::Within::AreReached))]
    fn begin_rest(&mut self, here: NodeId, end: NodeId, rest: u32)
        requires room { length self.old.frames.items + 1 < vec_capacity self.old.frames }
        requires nested { IsNested (view_of self.old) }
        ensures goes { (p : Program) (t : Table) (h : Course) (n : ℕ) → after_script p (record (view_of self.old) { frames = self.old.frames.items ++ Frame.Body here ∷ [] }) t (statements (trees_before p.nodes.items end rest)) h n ≡ remaining_with p (view_of self.new) t h n }
        ensures nested { IsNested (view_of self.new) }
        ensures within { (k : Reach) → AreReached k (view_of self.old) → AreReached k (view_of self.new) }
        ensures left { self.new.left ≡ self.old.left }
        ensures size { size (view_of self.new) ≤ 3 * length self.old.frames.items + 7 }
    {
        push_below(&mut self.frames, Frame::Body(here));
        self.begin(end, rest);
    }

    /// Goes on behind rounds of a loop, where the last one was done in part or ended it: it answers whether it was.
    #[inline(always)]
    fn end_straight(&mut self, here: NodeId, end: NodeId, gone: Round) -> bool
        requires room { length self.old.frames.items + 1 < vec_capacity self.old.frames }
        requires nested { IsNested (view_of self.old) }
        ensures goes { (p : Program) (m : View) (t : Table) (h : Course) → Rounded p m t here end gone (view_of self.old) → remaining p m t h ≡ remaining p (view_of self.new) t h }
        ensures done { IsTrue result → IsDone gone }
        ensures same { IsFalse result → self.new ≡ self.old }
        ensures nested { IsNested (view_of self.new) }
        ensures within { (k : Reach) → AreReached k (view_of self.old) → AreReached k (view_of self.new) }
        ensures left { self.new.left ≡ self.old.left }
        ensures size { IsTrue result → size (view_of self.new) ≤ 3 * length self.old.frames.items + 7 }
    {
        match gone {
            Round::Over => {
                self.control = Control::Give(Answer::Gave(Ref::Nil));
                true
            }
            Round::Unfinished(rest) => {
                self.begin_rest(here, end, rest);
                true
            }
            _ => false,
        }
    }

    /// Does rounds of a loop whose statements are those from a number on, as far as there is room for two frames and the steps suffice for
    /// a whole round, and goes on with what is left of one: it answers whether the loop does not come next.
    #[inline(always)]
    fn try_straight(
        &mut self,
        prepared: &Prepared,
        space: &Space,
        here: NodeId,
        until: bool,
        condition: NodeId,
        body: NodeId,
        from: u32,
        stop: u64,
    ) -> bool
        requires control { self.old.control ≡ Control.Enter here }
        requires tree { tree_at prepared.now.program.nodes.items here ≡ evaluated_tree prepared.now.program.nodes.items (Nodes.Loop until condition body) }
        requires some { stop < self.old.left }
        requires nested { IsNested (view_of self.old) }
        ensures goes { (h : Course) → remaining prepared.now.program (view_of self.old) space.now h ≡ remaining prepared.now.program (view_of self.new) space.now h }
        ensures nested { IsNested (view_of self.new) }
        ensures within { (clusters : Option Below) → AreReached (reach (length space.now.slots) clusters) (view_of self.old) → AreReached (reach (length space.now.slots) clusters) (view_of self.new) }
        ensures left { stop < self.new.left }
        ensures kept { self.new.left ≤ self.old.left }
        ensures spends { IsTrue result → self.new.left < self.old.left }
        ensures size { IsTrue result → size (view_of self.new) ≤ 3 * length self.old.frames.items + 7 }
        ensures control { IsFalse result → self.new.control ≡ Control.Enter here }
        ensures frames { IsFalse result → self.new.frames ≡ self.old.frames }
    {
        let Some(&Node::Sequence { first, count }) = prepared.node(body) else {
            return false;
        };
        let round = STEPS * (count as u64 + 1);
        if self.frames.len() + 1 >= self.frames.capacity() || self.left - stop <= round {
            return false;
        }
        let gone = self.run_straight(
            prepared,
            space,
            here,
            until,
            condition,
            body,
            from as usize,
            first,
            count,
            stop + round,
        );
        self.end_straight(here, first + count, gone)
    }

    /// Whether a loop may come to a block whose statements need a frame: its method is given one.
    #[inline(always)]
    fn is_given_other(&self, prepared: &Prepared) -> bool {
        match self.calls.running().given {
            Given::Nothing => false,
            Given::Block { block, .. } => match self.block_at(block) {
                Some(place) => prepared.straight_from(place).is_none(),
                None => true,
            },
        }
    }

    /// Whether the variable to which the first statement of a loop assigns has an object now, so that its next value may be one too.
    #[inline(always)]
    fn assigns_object(&self, prepared: &Prepared, here: NodeId) -> bool {
        if let Some(&Node::Loop { body, .. }) = prepared.node(here)
            && let Some(&Node::Sequence { first, .. }) = prepared.node(body)
            && let Some(&Node::Assign { depth, slot, .. }) = prepared.node(first)
        {
            return is_object(self.variable(Variable { depth, slot }));
        }
        false
    }

    /// Whether a loop whose rounds may need no frames most likely needs none now. It is called, and not compiled in place, for the registers
    /// of the acts around it.
    #[cold]
    #[inline(never)]
    pub fn is_promising(&self, prepared: &Prepared, here: NodeId) -> bool {
        !self.is_given_other(prepared) && !self.assigns_object(prepared, here)
    }

    /// Evaluates a loop: where its statements need no frames, its rounds are done one after the other. It is called, and not compiled in
    /// place, since a loop comes here once for all its rounds most of the time.
    #[cold]
    #[inline(never)]
    pub fn visit_rounds(
        &mut self,
        prepared: &Prepared,
        space: &Space,
        here: NodeId,
        until: bool,
        condition: NodeId,
        body: NodeId,
        stop: u64,
    )
        requires control { self.old.control ≡ Control.Enter here }
        requires tree { tree_at prepared.now.program.nodes.items here ≡ evaluated_tree prepared.now.program.nodes.items (Nodes.Loop until condition body) }
        requires some { stop < self.old.left }
        requires room { length self.old.frames.items < vec_capacity self.old.frames }
        requires nested { IsNested (view_of self.old) }
        ensures goes { (h : Course) → remaining prepared.now.program (view_of self.old) space.now h ≡ remaining prepared.now.program (view_of self.new) space.now h }
        ensures nested { IsNested (view_of self.new) }
        ensures within { (clusters : Option Below) → AreReached (reach (length space.now.slots) clusters) (view_of self.old) → AreReached (reach (length space.now.slots) clusters) (view_of self.new) }
        ensures left { stop ≤ self.new.left }
        ensures spends { self.new.left < self.old.left }
        ensures falls { power (view_of self.new) + self.old.left ≤ power (view_of self.old) + self.new.left }
    {
        if let Some(from) = prepared.straight_from(here)
            && self.is_promising(prepared, here)
            && self.try_straight(prepared, space, here, until, condition, body, from, stop)
        {
            return;
        }
        self.visit_loop(prepared, space, here, until, condition, body, stop);
    }
}

/// Whether the loop comes next again behind a round that was done.
#[inline(always)]
fn goes_again(gone: Round) -> bool
    ensures { result ≡ goes_again gone }
{
    match gone {
        Round::Again => true,
        _ => false,
    }
}

/// One more item, where there is room for another one over it.
#[inline(always)]
fn push_below<T: Drop>(items: &mut Vec<T>, item: T)
    requires { length items.old.items + 1 < vec_capacity items.old }
    ensures pushed { items.new.items ≡ items.old.items ++ item ∷ [] }
    ensures room { length items.new.items < vec_capacity items.new }
{
    items.push_reserved(item);
}
