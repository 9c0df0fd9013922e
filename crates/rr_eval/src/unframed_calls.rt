//! Calls of methods and of blocks that are done without a frame.

ghost use Rattle.std.specs.Prelude.{ℕ, ◌≡◌, ◌+◌, ◌*◌, ◌<◌, ◌≤◌, ◌^◌, ◌∷◌, [], None, take, length, slice_index_or, Option, IfSome, IfNone};
ghost use Rattle.rr_base.specs.declared.name.Sym.{Sym};
ghost use Rattle.rr_space.specs.Tables.{Table, Below};
ghost use Rattle.rr_tree.specs.Nodes.{trees_before};
ghost use Rattle.rr_tree.specs.Tree.{tree_at};
ghost use Rattle.rr_eval.specs.declared.call.Callee.{Callee};
ghost use Rattle.rr_eval.specs.declared.prepared.Work.{Work as Kept};
ghost use Rattle.rr_eval.specs.declared.problem.Answer.{Answer};
ghost use Rattle.rr_eval.specs.Blocks.{running, called};
ghost use Rattle.rr_eval.specs.Dispatch.{run_method, way_of};
ghost use Rattle.rr_eval.specs.Frames.{runs_in};
ghost use Rattle.rr_eval.specs.Prepared.{callable_of};
ghost use Rattle.rr_eval.specs.Requests.{Course};
ghost use Rattle.rr_eval.specs.Script.{Ret, Ended};
ghost use Rattle.rr_eval.specs.StraightRounds.{SetsNow};
ghost use Rattle.rr_eval.specs.Turns.{context_of, code_of, state_of, blocks_of};
ghost use Rattle.rr_eval.specs.Unframed.{AsMany};
ghost use Rattle.rr_eval.specs.Usual.{TakesNow, ComesTo, TakeFirst};
ghost use Rattle.rr_eval.specs.Views.{view_of};
ghost use Rattle.rr_eval.specs.Within.{Reach, reach, IsReached, AreReached};

use crate::call_stack::Variable;
use crate::engine::Engine;
use crate::prepared::{Body, Definition, Prepared, Work};
use crate::simple_parts::{ApartPart, SimplePart};
use crate::usual::{Quick, operated};
use rr_frames::Given;
use rr_space::{Ref, Space};
use rr_tree::{Node, NodeId};

/// The statements that a call of a method with so many arguments runs, where it has as many parameters.
#[inline(always)]
pub fn statements_for(definition: &Definition, count: usize) -> Option<Body>
    ensures runs { IfSome result (λ body. definition.now.work ≡ Kept.Run body) }
    ensures many { IfSome result (λ body. body.shape.parameters ≡ count) }
    ensures fit { IfSome result (λ body. body.shape.parameters ≤ body.shape.size) }
{
    let Work::Run(body) = definition.work else {
        return None;
    };
    if body.shape.parameters as usize != count || body.shape.size < body.shape.parameters {
        return None;
    }
    Some(body)
}

impl Engine {
    /// The steps of up to four parts, the arguments of a call, where none of them needs a frame or a function of its own. Their values are
    /// written down.
    #[inline(always)]
    fn arguments_unframed(
        &self,
        prepared: &Prepared,
        values: &mut [Ref; 4],
        first: NodeId,
        count: u32,
    ) -> Option<u64>
        requires most { count ≤ 4 }
        requires small { first + count < 2 ^ 32 }
        ensures takes { (t : Table) → IfSome result (λ steps. TakeFirst prepared.now.program (view_of self.now) t (trees_before prepared.now.program.nodes.items (first + count) count) steps (take count values.new) []) }
        ensures few { IfSome result (λ steps. steps ≤ 3 * count) }
        ensures size { length values.new ≡ 4 }
    {
        let mut done = 0;
        let mut steps = 0;
        while done < count {
            let found = self.quick_simple(prepared, first + done)?;
            values[done as usize] = found.value;
            steps += found.steps;
            done += 1;
        }
        Some(steps)
    }

    /// The value of a call of a method on `self` with these arguments, where its statements need no frame.
    #[inline(always)]
    fn method_unframed(
        &self,
        prepared: &Prepared,
        definition: &Definition,
        values: &[Ref],
    ) -> Option<Quick>
        ensures comes { IfSome result (λ q. (name : Sym) (t : Table) → ComesTo prepared.now.program (view_of self.now) t (run_method (context_of prepared.now.program) (callable_of prepared.now.program.nodes.items definition.now) (way_of (Callee.Name name) None (running self.now.calls.frames).itself values.now) values.now) q.steps (Ret (Answer.Gave q.value))) }
        ensures few { IfSome result (λ q. q.steps ≤ 131) }
        ensures within { (k : Reach) → IfSome result (λ q. IsReached k q.value) }
    {
        let body = statements_for(definition, values.len())?;
        let Some(&Node::Sequence { first, count }) = prepared.node(body.node) else {
            return None;
        };
        let home = self.calls.next_number()?;
        let found = self.result_unframed(prepared, values, home, first, count)?;
        Some(Quick {
            value: found.value,
            steps: found.steps + 1,
        })
    }

    /// The value of a call of a method of the program on `self`, where its statements need no frame.
    #[inline(always)]
    fn call_unframed(&self, prepared: &Prepared, space: &Space, place: NodeId) -> Option<Quick>
        ensures takes { IfSome result (λ q. TakesNow prepared.now.program (view_of self.now) space.now (tree_at prepared.now.program.nodes.items place) q.steps q.value) }
        ensures few { IfSome result (λ q. q.steps ≤ 144) }
        ensures within { (k : Reach) → IfSome result (λ q. IsReached k q.value) }
    {
        let Some(
            &Node::Call {
                name,
                first,
                count,
                ..
            },
        ) = prepared.node(place)
        else {
            return None;
        };
        if count > 4 {
            return None;
        }
        let Some(Some(definition)) = prepared.method_of_plain(space, self.itself(), name) else {
            return None;
        };
        let mut values = [Ref::Nil; 4];
        let steps = self.arguments_unframed(prepared, &mut values, first, count)?;
        let found = self.method_unframed(prepared, definition, &values[..count as usize])?;
        Some(Quick {
            value: found.value,
            steps: found.steps + steps + 1,
        })
    }

    /// The value of such a call, which may be a chain.
    #[inline(always)]
    fn called(&self, prepared: &Prepared, space: &Space, place: NodeId) -> Option<Quick>
        ensures takes { IfSome result (λ q. TakesNow prepared.now.program (view_of self.now) space.now (tree_at prepared.now.program.nodes.items place) q.steps q.value) }
        ensures few { IfSome result (λ q. q.steps ≤ 144) }
        ensures within { (k : Reach) → AreReached k (view_of self.now) → IfSome result (λ q. IsReached k q.value) }
    {
        match prepared.part(place) {
            Some(&SimplePart::Apart(ApartPart::Call(_, _))) => {
                self.short_call(prepared, space, place)
            }
            _ => self.call_unframed(prepared, space, place),
        }
    }

    /// The value of such a call, or of an operator on one and a part that needs no frame and no function of its own. It is called, and not
    /// compiled in place, for the registers of the statements around it.
    #[inline(never)]
    fn called_value(&self, prepared: &Prepared, space: &Space, place: NodeId) -> Option<Quick>
        ensures takes { IfSome result (λ q. TakesNow prepared.now.program (view_of self.now) space.now (tree_at prepared.now.program.nodes.items place) q.steps q.value) }
        ensures few { IfSome result (λ q. q.steps ≤ 148) }
        ensures within { (k : Reach) → AreReached k (view_of self.now) → IfSome result (λ q. IsReached k q.value) }
    {
        let Some(&Node::Binary(op, left, right)) = prepared.node(place) else {
            return self.called(prepared, space, place);
        };
        let called = self.called(prepared, space, left)?;
        let other = self.quick_simple(prepared, right)?;
        Some(Quick {
            value: operated(op, called.value, other.value)?,
            steps: called.steps + other.steps + 1,
        })
    }

    /// Does the assignment of such a value to a local variable.
    #[inline(always)]
    pub fn do_called(&mut self, prepared: &Prepared, space: &Space, place: NodeId) -> Option<Quick>
        ensures sets { IfSome result (λ q. SetsNow prepared.now.program (view_of self.old) space.now (tree_at prepared.now.program.nodes.items place) q.steps q.value (view_of self.new)) }
        ensures few { IfSome result (λ q. q.steps ≤ 149) }
        ensures within { (k : Reach) → AreReached k (view_of self.old) → AreReached k (view_of self.new) }
        ensures others { self.new ≡ record self.old { calls = self.new.calls } }
        ensures none { IfNone result (self.new ≡ self.old) }
    {
        let Some(
            &Node::Assign {
                depth,
                slot,
                value,
                ..
            },
        ) = prepared.node(place)
        else {
            return None;
        };
        let found = self.called_value(prepared, space, value)?;
        self.calls.write(Variable { depth, slot }, found.value);
        Some(Quick {
            value: found.value,
            steps: found.steps + 1,
        })
    }

    /// Gives a value to the block of the frame with a number, which stands in the frame `home`, where its statements need no frame.
    #[inline(always)]
    fn give_unframed(
        &mut self,
        prepared: &Prepared,
        number: u32,
        home: u32,
        value: Ref,
    ) -> Option<Quick>
        ensures sets { IfSome result (λ q. (t : Table) (h : Course) (n : ℕ) → runs_in (code_of prepared.now.program h.world) (called (context_of prepared.now.program) (slice_index_or (blocks_of prepared.now.program.nodes.items self.old.blocks.items) number None) home (value ∷ []) (state_of prepared.now.program (view_of self.old) t h).memory) (state_of prepared.now.program (view_of self.old) t h) (q.steps + n) ≡ Ended (Answer.Gave q.value) (state_of prepared.now.program (view_of self.new) t h) n) }
        ensures few { IfSome result (λ q. q.steps ≤ 168) }
        ensures within { (k : Reach) → AreReached k (view_of self.old) → AreReached k (view_of self.new) }
        ensures others { self.new ≡ record self.old { calls = self.new.calls } }
        ensures none { IfNone result (self.new ≡ self.old) }
    {
        let place = self.block_at(number)?;
        let Some(
            &Node::Block {
                parameters: 1,
                size,
                ..
            },
        ) = prepared.node(place)
        else {
            return None;
        };
        if size < 1 {
            return None;
        }
        self.calls.next_number()?;
        let done = self.block_unframed(prepared, &[value], home, place)?;
        Some(Quick {
            value: done.value,
            steps: done.steps,
        })
    }

    /// Does the `yield` that stands at a place, of one part that needs no frame and no function of its own, where the statements of the block
    /// need no frame.
    #[inline(never)]
    pub fn do_yield(&mut self, prepared: &Prepared, place: NodeId) -> Option<Quick>
        ensures sets { (t : Table) → IfSome result (λ q. SetsNow prepared.now.program (view_of self.old) t (tree_at prepared.now.program.nodes.items place) q.steps q.value (view_of self.new)) }
        ensures few { IfSome result (λ q. q.steps ≤ 172) }
        ensures within { (k : Reach) → AreReached k (view_of self.old) → AreReached k (view_of self.new) }
        ensures others { self.new ≡ record self.old { calls = self.new.calls } }
        ensures none { IfNone result (self.new ≡ self.old) }
    {
        let Some(&Node::Yield { first, count: 1 }) = prepared.node(place) else {
            return None;
        };
        let given = self.quick_simple(prepared, first)?;
        let Given::Block { block, home } = self.calls.running().given else {
            return None;
        };
        let done = self.give_unframed(prepared, block, home, given.value)?;
        Some(Quick {
            value: done.value,
            steps: done.steps + given.steps + 1,
        })
    }
}
