//! Statements that are done without frames: assignments to local variables, and choices between them.

ghost use Rattle.std.specs.Prelude.{◌≡◌, ◌+◌, ◌*◌, ◌<◌, ◌≤◌, ◌^◌, if◌then◌else◌, List, length, Option, IfSome, IfNone};
ghost use Rattle.rr_builtin.specs.Objects.{is_truthy};
ghost use Rattle.rr_space.specs.Tables.{Table, Below};
ghost use Rattle.rr_tree.specs.Tree.{tree_at};
ghost use Rattle.rr_tree.specs.declared.node.Node.{Node as Nodes};
ghost use Rattle.rr_eval.specs.StraightRounds.{SetsNow, SetFirst};
ghost use Rattle.rr_eval.specs.Usual.{TakesNow};
ghost use Rattle.rr_eval.specs.Views.{view_of};
ghost use Rattle.rr_eval.specs.Within.{Reach, reach, IsReached, AreReached};

use crate::call_stack::Variable;
use crate::engine::Engine;
use crate::prepared::Prepared;
use crate::simple_parts::{ApartPart, SimplePart};
use crate::usual::{Quick, operated};
use rr_builtin::is_truthy;
use rr_space::{Ref, Space};
use rr_tree::{Node, NodeId};

/// How far statements are done.
#[derive(Clone, Copy)]
pub struct DoneStatements {
    /// How many are still to be done, the last ones.
    pub rest: u32,
    /// The steps that the others took.
    pub steps: u64,
    /// The value of the last one of these.
    pub value: Ref,
}

/// A statement that is done.
#[derive(Clone, Copy)]
pub struct Done {
    pub value: Ref,
    pub steps: u64,
    /// The number of the next assignment.
    pub number: usize,
}

impl Engine {
    /// The value of a part that is taken for an integer. Chains are evaluated in place, and not behind a call as elsewhere.
    #[inline(always)]
    fn integer(&self, prepared: &Prepared, space: &Space, place: NodeId) -> Option<Quick>
        ensures takes { IfSome result (λ q. TakesNow prepared.now.program (view_of self.now) space.now (tree_at prepared.now.program.nodes.items place) q.steps q.value) }
        ensures few { IfSome result (λ q. q.steps ≤ 31) }
        ensures within { (clusters : Option Below) → AreReached (reach (length space.now.slots) clusters) (view_of self.now) → IfSome result (λ q. IsReached (reach (length space.now.slots) clusters) q.value) }
    {
        match prepared.part(place) {
            Some(&SimplePart::Apart(ApartPart::Chain(chain))) => {
                self.chained(prepared, space, place, chain)
            }
            _ => self.quick_simple(prepared, place),
        }
    }

    /// Does the statement of a number, which stands at a place, where its value needs no frame.
    #[inline(always)]
    fn do_statement(
        &mut self,
        prepared: &Prepared,
        space: &Space,
        number: usize,
        place: NodeId,
    ) -> Option<Quick>
        ensures sets { IfSome result (λ q. SetsNow prepared.now.program (view_of self.old) space.now (tree_at prepared.now.program.nodes.items place) q.steps q.value (view_of self.new)) }
        ensures few { IfSome result (λ q. q.steps ≤ 34) }
        ensures within { (clusters : Option Below) → AreReached (reach (length space.now.slots) clusters) (view_of self.old) → AreReached (reach (length space.now.slots) clusters) (view_of self.new) }
        ensures others { self.new ≡ record self.old { calls = self.new.calls } }
        ensures none { IfNone result (self.new ≡ self.old) }
    {
        let statement = prepared.straight(number, place)?;
        let found = self.integer(prepared, space, statement.value)?;
        self.calls.write(statement.variable, found.value);
        Some(Quick {
            value: found.value,
            steps: found.steps + statement.steps,
        })
    }

    /// Does the statement that stands at a place, where it is an assignment with an operator to a local variable, and that and the other
    /// operand, which needs no frame and no function of its own, are integers.
    #[inline(always)]
    fn do_update(&mut self, prepared: &Prepared, place: NodeId) -> Option<Quick>
        ensures sets { (t : Table) → IfSome result (λ q. SetsNow prepared.now.program (view_of self.old) t (tree_at prepared.now.program.nodes.items place) q.steps q.value (view_of self.new)) }
        ensures few { IfSome result (λ q. q.steps ≤ 34) }
        ensures within { (k : Reach) → AreReached k (view_of self.old) → AreReached k (view_of self.new) }
        ensures others { self.new ≡ record self.old { calls = self.new.calls } }
        ensures none { IfNone result (self.new ≡ self.old) }
    {
        let Some(&Node::OperatorAssign(op, target, value)) = prepared.node(place) else {
            return None;
        };
        let Some(&Node::Local { depth, slot, .. }) = prepared.node(target) else {
            return None;
        };
        let variable = Variable { depth, slot };
        let other = self.quick_simple(prepared, value)?;
        let total = operated(op, self.variable(variable), other.value)?;
        self.calls.write(variable, total);
        Some(Quick {
            value: total,
            steps: other.steps + 3,
        })
    }

    /// Does the part of a choice that stands at a place alone, where it is an assignment whose value needs no frame.
    #[inline(always)]
    fn do_single(&mut self, prepared: &Prepared, space: &Space, place: NodeId) -> Option<Quick>
        ensures sets { IfSome result (λ q. SetsNow prepared.now.program (view_of self.old) space.now (tree_at prepared.now.program.nodes.items place) q.steps q.value (view_of self.new)) }
        ensures few { IfSome result (λ q. q.steps ≤ 34) }
        ensures within { (clusters : Option Below) → AreReached (reach (length space.now.slots) clusters) (view_of self.old) → AreReached (reach (length space.now.slots) clusters) (view_of self.new) }
        ensures others { self.new ≡ record self.old { calls = self.new.calls } }
        ensures none { IfNone result (self.new ≡ self.old) }
    {
        let Some(
            &Node::Assign {
                depth,
                slot,
                value,
                ..
            },
        ) = prepared.node(place)
        else {
            return self.do_update(prepared, place);
        };
        let found = self.quick(prepared, space, value)?;
        self.calls.write(Variable { depth, slot }, found.value);
        Some(Quick {
            value: found.value,
            steps: found.steps + 1,
        })
    }

    /// Does the part of a choice that stands at a place: nothing, an assignment, or a list of one.
    #[inline(always)]
    fn do_part(&mut self, prepared: &Prepared, space: &Space, place: NodeId) -> Option<Quick>
        ensures sets { IfSome result (λ q. SetsNow prepared.now.program (view_of self.old) space.now (tree_at prepared.now.program.nodes.items place) q.steps q.value (view_of self.new)) }
        ensures few { IfSome result (λ q. q.steps ≤ 35) }
        ensures within { (clusters : Option Below) → AreReached (reach (length space.now.slots) clusters) (view_of self.old) → AreReached (reach (length space.now.slots) clusters) (view_of self.new) }
        ensures others { self.new ≡ record self.old { calls = self.new.calls } }
        ensures none { IfNone result (self.new ≡ self.old) }
    {
        match prepared.node(place) {
            Some(&Node::Nil) => Some(Quick {
                value: Ref::Nil,
                steps: 1,
            }),
            Some(&Node::Sequence { first, count: 1 }) => {
                let done = self.do_single(prepared, space, first)?;
                Some(Quick {
                    value: done.value,
                    steps: done.steps + 1,
                })
            }
            _ => self.do_single(prepared, space, place),
        }
    }

    /// Does the statement that stands at a place, where it is a choice whose condition needs no frame, and the part that is chosen needs
    /// none. It is called, and not compiled in place, for the registers of the statements around it.
    #[cold]
    #[inline(never)]
    fn do_choice(&mut self, prepared: &Prepared, space: &Space, place: NodeId) -> Option<Quick>
        ensures sets { IfSome result (λ q. SetsNow prepared.now.program (view_of self.old) space.now (tree_at prepared.now.program.nodes.items place) q.steps q.value (view_of self.new)) }
        ensures few { IfSome result (λ q. q.steps ≤ 67) }
        ensures within { (clusters : Option Below) → AreReached (reach (length space.now.slots) clusters) (view_of self.old) → AreReached (reach (length space.now.slots) clusters) (view_of self.new) }
        ensures others { self.new ≡ record self.old { calls = self.new.calls } }
        ensures none { IfNone result (self.new ≡ self.old) }
    {
        let Some(&Node::Choose(condition, yes, no)) = prepared.node(place) else {
            return None;
        };
        let tested = self.quick(prepared, space, condition)?;
        let chosen = chosen_part(tested.value, yes, no);
        let done = self.do_part(prepared, space, chosen)?;
        Some(Quick {
            value: done.value,
            steps: tested.steps + done.steps + 1,
        })
    }

    /// Does the statement that stands at a place, where it needs no frame and has no number: an assignment with an operator or of what a
    /// call gives, a choice, or a `yield`.
    #[inline(always)]
    fn do_other(&mut self, prepared: &Prepared, space: &Space, place: NodeId) -> Option<Quick>
        ensures sets { IfSome result (λ q. SetsNow prepared.now.program (view_of self.old) space.now (tree_at prepared.now.program.nodes.items place) q.steps q.value (view_of self.new)) }
        ensures few { IfSome result (λ q. q.steps ≤ 172) }
        ensures within { (clusters : Option Below) → AreReached (reach (length space.now.slots) clusters) (view_of self.old) → AreReached (reach (length space.now.slots) clusters) (view_of self.new) }
        ensures others { self.new ≡ record self.old { calls = self.new.calls } }
        ensures none { IfNone result (self.new ≡ self.old) }
    {
        match prepared.node(place) {
            Some(&Node::Choose(_, _, _)) => self.do_choice(prepared, space, place),
            Some(&Node::Assign { .. }) => self.do_called(prepared, space, place),
            Some(&Node::Yield { .. }) => self.do_yield(prepared, place),
            _ => self.do_update(prepared, place),
        }
    }

    /// Does the statement that stands at a place, where it needs no frame: an assignment, which has a number then, or another one.
    #[inline(always)]
    fn do_next(
        &mut self,
        prepared: &Prepared,
        space: &Space,
        number: usize,
        place: NodeId,
    ) -> Option<Done>
        requires number { number < 2 ^ 40 }
        ensures sets { IfSome result (λ d. SetsNow prepared.now.program (view_of self.old) space.now (tree_at prepared.now.program.nodes.items place) d.steps d.value (view_of self.new)) }
        ensures few { IfSome result (λ d. d.steps ≤ 172) }
        ensures number { IfSome result (λ d. d.number ≤ number + 1) }
        ensures within { (clusters : Option Below) → AreReached (reach (length space.now.slots) clusters) (view_of self.old) → AreReached (reach (length space.now.slots) clusters) (view_of self.new) }
        ensures others { self.new ≡ record self.old { calls = self.new.calls } }
        ensures none { IfNone result (self.new ≡ self.old) }
    {
        if let Some(set) = self.do_statement(prepared, space, number, place) {
            return Some(Done {
                value: set.value,
                steps: set.steps,
                number: number + 1,
            });
        }
        let set = self.do_other(prepared, space, place)?;
        Some(Done {
            value: set.value,
            steps: set.steps,
            number,
        })
    }

    /// Does the `count` statements from `first` on, the assignments among which have the numbers from `from` on, up to one that needs a
    /// frame.
    #[inline(always)]
    pub fn do_statements(
        &mut self,
        prepared: &Prepared,
        space: &Space,
        from: usize,
        first: NodeId,
        count: u32,
    ) -> DoneStatements
        requires small { first + count < 2 ^ 32 }
        requires numbers { from < 2 ^ 32 }
        ensures sets { SetFirst prepared.now.program (view_of self.old) space.now (first + count) count result.rest result.steps result.value (view_of self.new) }
        ensures fewer { result.rest ≤ count }
        ensures few { result.steps ≤ 172 * count }
        ensures within { (clusters : Option Below) → AreReached (reach (length space.now.slots) clusters) (view_of self.old) → AreReached (reach (length space.now.slots) clusters) (view_of self.new) }
        ensures others { self.new ≡ record self.old { calls = self.new.calls } }
    {
        let mut done = 0;
        let mut steps = 0;
        let mut value = Ref::Nil;
        let mut number = from;
        while done < count {
            let Some(set) = self.do_next(prepared, space, number, first + done) else {
                break;
            };
            steps += set.steps;
            value = set.value;
            number = set.number;
            done += 1;
        }
        DoneStatements {
            rest: count - done,
            steps,
            value,
        }
    }
}

/// The part of a choice that a value chooses.
#[inline(always)]
pub fn chosen_part(value: Ref, yes: NodeId, no: NodeId) -> NodeId
    ensures { (ns : List Nodes) → tree_at ns result ≡ (if is_truthy value then tree_at ns yes else tree_at ns no) }
{
    match is_truthy(value) {
        true => yes,
        false => no,
    }
}
