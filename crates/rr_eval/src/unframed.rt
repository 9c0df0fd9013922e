//! Values and statements of a method or block that are evaluated without its frame: the frame would have certain values in its first
//! variables, and lie in the frame with a certain number.

ghost use Rattle.std.specs.Prelude.{◌≡◌, ◌+◌, ◌<◌, ◌≤◌, ◌^◌, ◌∷◌, ◌++◌, [], IfSome, IfNone};
ghost use Rattle.rr_frames.specs.Frames.{Frame as Activated};
ghost use Rattle.rr_tree.specs.Tree.{Tree, binary, tree_at};
ghost use Rattle.rr_eval.specs.SimpleParts.{IsChain};
ghost use Rattle.rr_eval.specs.Unframed.{LiesIn, TakesInside, SetsInside, SetFirstInside, AsMany};
ghost use Rattle.rr_eval.specs.Variables.{read_variable};
ghost use Rattle.rr_eval.specs.Views.{view_of};
ghost use Rattle.rr_eval.specs.Within.{Reach, IsReached, AreReached};

use crate::call_stack::Variable;
use crate::chains::{Chain, Link};
use crate::engine::Engine;
use crate::prepared::Prepared;
use crate::simple_parts::{ApartPart, SimplePart};
use crate::straight_statements::chosen_part;
use crate::usual::{Quick, operated};
use rr_space::Ref;
use rr_tree::{Node, NodeId};

/// The most statements of a body: what is done at once has few steps.
const MOST: u32 = 4;

impl Engine {
    /// The integer that a variable has.
    #[inline(always)]
    fn integer_unframed(&self, values: &[Ref], home: u32, variable: Variable) -> Option<Ref>
        ensures reads { (f : Activated) → LiesIn values.now home f → IfSome result (λ v. read_variable variable (self.now.calls.frames ++ f ∷ []) ≡ v) }
        ensures within { (k : Reach) → IfSome result (IsReached k) }
    {
        match self.calls.read_unframed(values, home, variable)? {
            Ref::Int(z) => Some(Ref::Int(z)),
            _ => None,
        }
    }

    /// The value of an integer, of a variable that has one, or of an operator on two of them.
    #[inline(always)]
    pub fn operand_unframed(
        &self,
        prepared: &Prepared,
        values: &[Ref],
        home: u32,
        place: NodeId,
    ) -> Option<Quick>
        ensures takes { IfSome result (λ q. TakesInside prepared.now.program (view_of self.now) values.now home (tree_at prepared.now.program.nodes.items place) q.steps q.value) }
        ensures few { IfSome result (λ q. q.steps ≤ 3) }
        ensures within { (k : Reach) → IfSome result (λ q. IsReached k q.value) }
    {
        match prepared.part(place) {
            Some(&SimplePart::Variable(variable)) => Some(Quick {
                value: self.integer_unframed(values, home, variable)?,
                steps: 1,
            }),
            Some(&SimplePart::Int(z)) => Some(Quick {
                value: Ref::Int(z),
                steps: 1,
            }),
            Some(&SimplePart::WithInt(op, variable, z)) => {
                let left = self.integer_unframed(values, home, variable)?;
                Some(Quick {
                    value: operated(op, left, Ref::Int(z))?,
                    steps: 3,
                })
            }
            Some(&SimplePart::WithVariable(op, variable, other)) => {
                let left = self.integer_unframed(values, home, variable)?;
                let right = self.integer_unframed(values, home, other)?;
                Some(Quick {
                    value: operated(op, left, right)?,
                    steps: 3,
                })
            }
            _ => None,
        }
    }

    /// The value of a link behind what has a value.
    #[inline(always)]
    fn link_unframed(
        &self,
        prepared: &Prepared,
        values: &[Ref],
        home: u32,
        found: Quick,
        link: Link,
    ) -> Option<Quick>
        requires few { found.steps ≤ 31 }
        ensures takes { IfSome result (λ q. (tree : Tree) → TakesInside prepared.now.program (view_of self.now) values.now home tree found.steps found.value → TakesInside prepared.now.program (view_of self.now) values.now home (binary link.op tree (tree_at prepared.now.program.nodes.items link.right)) q.steps q.value) }
        ensures few { IfSome result (λ q. q.steps ≤ found.steps + 4) }
        ensures within { (k : Reach) → IfSome result (λ q. IsReached k q.value) }
    {
        let right = self.operand_unframed(prepared, values, home, link.right)?;
        Some(Quick {
            value: operated(link.op, found.value, right.value)?,
            steps: found.steps + right.steps + 1,
        })
    }

    /// The value of a chain that ends with the part at a place.
    #[inline(always)]
    fn chain_unframed(
        &self,
        prepared: &Prepared,
        values: &[Ref],
        home: u32,
        place: NodeId,
        chain: Chain,
    ) -> Option<Quick>
        requires { IsChain prepared.now.program prepared.now.simple.links.items chain (tree_at prepared.now.program.nodes.items place) }
        ensures takes { IfSome result (λ q. TakesInside prepared.now.program (view_of self.now) values.now home (tree_at prepared.now.program.nodes.items place) q.steps q.value) }
        ensures few { IfSome result (λ q. q.steps ≤ 31) }
        ensures within { (k : Reach) → IfSome result (λ q. IsReached k q.value) }
    {
        let mut links = prepared.links(chain)?;
        let mut found = self.operand_unframed(prepared, values, home, chain.first)?;
        while let [link, more @ ..] = links {
            let link = *link;
            links = more;
            found = self.link_unframed(prepared, values, home, found, link)?;
        }
        Some(found)
    }

    /// The value of a part that is taken for an integer.
    #[inline(always)]
    pub fn value_unframed(
        &self,
        prepared: &Prepared,
        values: &[Ref],
        home: u32,
        place: NodeId,
    ) -> Option<Quick>
        ensures takes { IfSome result (λ q. TakesInside prepared.now.program (view_of self.now) values.now home (tree_at prepared.now.program.nodes.items place) q.steps q.value) }
        ensures few { IfSome result (λ q. q.steps ≤ 31) }
        ensures within { (k : Reach) → IfSome result (λ q. IsReached k q.value) }
    {
        match prepared.part(place) {
            Some(&SimplePart::Apart(ApartPart::Chain(chain))) => {
                self.chain_unframed(prepared, values, home, place, chain)
            }
            _ => self.operand_unframed(prepared, values, home, place),
        }
    }

    /// Does an assignment to a variable outside of the frame.
    #[inline(always)]
    fn assign_unframed(
        &mut self,
        prepared: &Prepared,
        values: &[Ref],
        home: u32,
        place: NodeId,
    ) -> Option<Quick>
        ensures sets { IfSome result (λ q. SetsInside prepared.now.program (view_of self.old) values.now home (tree_at prepared.now.program.nodes.items place) q.steps q.value (view_of self.new)) }
        ensures few { IfSome result (λ q. q.steps ≤ 34) }
        ensures within { (k : Reach) → AreReached k (view_of self.old) → AreReached k (view_of self.new) }
        ensures value { (k : Reach) → IfSome result (λ q. IsReached k q.value) }
        ensures others { self.new ≡ record self.old { calls = self.new.calls } }
        ensures many { AsMany self.old.calls self.new.calls }
        ensures none { IfNone result (self.new ≡ self.old) }
    {
        let Some(
            &Node::Assign {
                depth,
                slot,
                value,
                ..
            },
        ) = prepared.node(place)
        else {
            return None;
        };
        let found = self.value_unframed(prepared, values, home, value)?;
        match self
            .calls
            .write_unframed(home, Variable { depth, slot }, found.value)
        {
            true => Some(Quick {
                value: found.value,
                steps: found.steps + 1,
            }),
            false => None,
        }
    }

    /// Does an assignment with an operator to a variable outside of the frame.
    #[inline(always)]
    fn update_unframed(
        &mut self,
        prepared: &Prepared,
        values: &[Ref],
        home: u32,
        place: NodeId,
    ) -> Option<Quick>
        ensures sets { IfSome result (λ q. SetsInside prepared.now.program (view_of self.old) values.now home (tree_at prepared.now.program.nodes.items place) q.steps q.value (view_of self.new)) }
        ensures few { IfSome result (λ q. q.steps ≤ 34) }
        ensures within { (k : Reach) → AreReached k (view_of self.old) → AreReached k (view_of self.new) }
        ensures value { (k : Reach) → IfSome result (λ q. IsReached k q.value) }
        ensures others { self.new ≡ record self.old { calls = self.new.calls } }
        ensures many { AsMany self.old.calls self.new.calls }
        ensures none { IfNone result (self.new ≡ self.old) }
    {
        let Some(&Node::OperatorAssign(op, target, value)) = prepared.node(place) else {
            return None;
        };
        let Some(&Node::Local { depth, slot, .. }) = prepared.node(target) else {
            return None;
        };
        let variable = Variable { depth, slot };
        let left = self.integer_unframed(values, home, variable)?;
        let other = self.operand_unframed(prepared, values, home, value)?;
        let total = operated(op, left, other.value)?;
        match self.calls.write_unframed(home, variable, total) {
            true => Some(Quick {
                value: total,
                steps: other.steps + 3,
            }),
            false => None,
        }
    }

    /// Does such an assignment, with an operator or without one.
    #[inline(always)]
    fn single_unframed(
        &mut self,
        prepared: &Prepared,
        values: &[Ref],
        home: u32,
        place: NodeId,
    ) -> Option<Quick>
        ensures sets { IfSome result (λ q. SetsInside prepared.now.program (view_of self.old) values.now home (tree_at prepared.now.program.nodes.items place) q.steps q.value (view_of self.new)) }
        ensures few { IfSome result (λ q. q.steps ≤ 34) }
        ensures within { (k : Reach) → AreReached k (view_of self.old) → AreReached k (view_of self.new) }
        ensures value { (k : Reach) → IfSome result (λ q. IsReached k q.value) }
        ensures others { self.new ≡ record self.old { calls = self.new.calls } }
        ensures many { AsMany self.old.calls self.new.calls }
        ensures none { IfNone result (self.new ≡ self.old) }
    {
        match prepared.node(place) {
            Some(&Node::OperatorAssign(_, _, _)) => {
                self.update_unframed(prepared, values, home, place)
            }
            _ => self.assign_unframed(prepared, values, home, place),
        }
    }

    /// Does a part of a choice: nothing, such an assignment, or a list of one.
    #[inline(always)]
    fn part_unframed(
        &mut self,
        prepared: &Prepared,
        values: &[Ref],
        home: u32,
        place: NodeId,
    ) -> Option<Quick>
        ensures sets { IfSome result (λ q. SetsInside prepared.now.program (view_of self.old) values.now home (tree_at prepared.now.program.nodes.items place) q.steps q.value (view_of self.new)) }
        ensures few { IfSome result (λ q. q.steps ≤ 35) }
        ensures within { (k : Reach) → AreReached k (view_of self.old) → AreReached k (view_of self.new) }
        ensures value { (k : Reach) → IfSome result (λ q. IsReached k q.value) }
        ensures others { self.new ≡ record self.old { calls = self.new.calls } }
        ensures many { AsMany self.old.calls self.new.calls }
        ensures none { IfNone result (self.new ≡ self.old) }
    {
        match prepared.node(place) {
            Some(&Node::Nil) => Some(Quick {
                value: Ref::Nil,
                steps: 1,
            }),
            Some(&Node::Sequence { first, count: 1 }) => {
                let done = self.single_unframed(prepared, values, home, first)?;
                Some(Quick {
                    value: done.value,
                    steps: done.steps + 1,
                })
            }
            _ => self.single_unframed(prepared, values, home, place),
        }
    }

    /// Does a choice between such parts.
    #[inline(always)]
    fn choice_unframed(
        &mut self,
        prepared: &Prepared,
        values: &[Ref],
        home: u32,
        place: NodeId,
    ) -> Option<Quick>
        ensures sets { IfSome result (λ q. SetsInside prepared.now.program (view_of self.old) values.now home (tree_at prepared.now.program.nodes.items place) q.steps q.value (view_of self.new)) }
        ensures few { IfSome result (λ q. q.steps ≤ 67) }
        ensures within { (k : Reach) → AreReached k (view_of self.old) → AreReached k (view_of self.new) }
        ensures value { (k : Reach) → IfSome result (λ q. IsReached k q.value) }
        ensures others { self.new ≡ record self.old { calls = self.new.calls } }
        ensures many { AsMany self.old.calls self.new.calls }
        ensures none { IfNone result (self.new ≡ self.old) }
    {
        let Some(&Node::Choose(condition, yes, no)) = prepared.node(place) else {
            return None;
        };
        let tested = self.value_unframed(prepared, values, home, condition)?;
        let chosen = chosen_part(tested.value, yes, no);
        let done = self.part_unframed(prepared, values, home, chosen)?;
        Some(Quick {
            value: done.value,
            steps: tested.steps + done.steps + 1,
        })
    }

    /// Does a statement: such an assignment, or a choice between them.
    #[inline(always)]
    fn statement_unframed(
        &mut self,
        prepared: &Prepared,
        values: &[Ref],
        home: u32,
        place: NodeId,
    ) -> Option<Quick>
        ensures sets { IfSome result (λ q. SetsInside prepared.now.program (view_of self.old) values.now home (tree_at prepared.now.program.nodes.items place) q.steps q.value (view_of self.new)) }
        ensures few { IfSome result (λ q. q.steps ≤ 67) }
        ensures within { (k : Reach) → AreReached k (view_of self.old) → AreReached k (view_of self.new) }
        ensures value { (k : Reach) → IfSome result (λ q. IsReached k q.value) }
        ensures others { self.new ≡ record self.old { calls = self.new.calls } }
        ensures many { AsMany self.old.calls self.new.calls }
        ensures none { IfNone result (self.new ≡ self.old) }
    {
        match prepared.node(place) {
            Some(&Node::Choose(_, _, _)) => self.choice_unframed(prepared, values, home, place),
            _ => self.single_unframed(prepared, values, home, place),
        }
    }

    /// The steps of a choice that chooses nothing.
    #[inline(always)]
    fn pass_unframed(
        &self,
        prepared: &Prepared,
        values: &[Ref],
        home: u32,
        place: NodeId,
    ) -> Option<u64>
        ensures takes { IfSome result (λ steps. TakesInside prepared.now.program (view_of self.now) values.now home (tree_at prepared.now.program.nodes.items place) steps Ref.Nil) }
        ensures few { IfSome result (λ steps. steps ≤ 33) }
    {
        let Some(&Node::Choose(condition, yes, no)) = prepared.node(place) else {
            return None;
        };
        let tested = self.value_unframed(prepared, values, home, condition)?;
        match prepared.node(chosen_part(tested.value, yes, no)) {
            Some(&Node::Nil) => Some(tested.steps + 2),
            _ => None,
        }
    }

    /// The steps of the first of some statements, all but the last one, where they are choices that choose nothing.
    #[inline(always)]
    fn passes_unframed(
        &self,
        prepared: &Prepared,
        values: &[Ref],
        home: u32,
        first: NodeId,
        count: u32,
    ) -> Option<u64>
        requires some { 0 < count }
        requires few { count ≤ 4 }
        requires small { first + count < 2 ^ 32 }
        ensures passes { IfSome result (λ steps. SetFirstInside prepared.now.program (view_of self.now) values.now home (first + count) count 1 steps Ref.Nil (view_of self.now)) }
        ensures few { IfSome result (λ steps. steps ≤ 99) }
    {
        let mut done = 0;
        let mut steps = 0;
        while done + 1 < count {
            steps += self.pass_unframed(prepared, values, home, first + done)?;
            done += 1;
        }
        Some(steps)
    }

    /// The value of the last one of some statements, where that is taken for an integer and the others are choices that choose nothing.
    #[inline(always)]
    pub fn result_unframed(
        &self,
        prepared: &Prepared,
        values: &[Ref],
        home: u32,
        first: NodeId,
        count: u32,
    ) -> Option<Quick>
        requires small { first + count < 2 ^ 32 }
        ensures takes { IfSome result (λ q. SetFirstInside prepared.now.program (view_of self.now) values.now home (first + count) count 0 q.steps q.value (view_of self.now)) }
        ensures few { IfSome result (λ q. q.steps ≤ 130) }
        ensures within { (k : Reach) → IfSome result (λ q. IsReached k q.value) }
    {
        if count == 0 || count > MOST {
            return None;
        }
        let passed = self.passes_unframed(prepared, values, home, first, count)?;
        let found = self.value_unframed(prepared, values, home, first + (count - 1))?;
        Some(Quick {
            value: found.value,
            steps: passed + found.steps,
        })
    }

    /// Does some statements, all of them or none: the last one is a statement that needs no frame, and the others are choices that choose
    /// nothing.
    #[inline(always)]
    pub fn body_unframed(
        &mut self,
        prepared: &Prepared,
        values: &[Ref],
        home: u32,
        first: NodeId,
        count: u32,
    ) -> Option<Quick>
        requires small { first + count < 2 ^ 32 }
        ensures sets { IfSome result (λ q. SetFirstInside prepared.now.program (view_of self.old) values.now home (first + count) count 0 q.steps q.value (view_of self.new)) }
        ensures few { IfSome result (λ q. q.steps ≤ 166) }
        ensures within { (k : Reach) → AreReached k (view_of self.old) → AreReached k (view_of self.new) }
        ensures value { (k : Reach) → IfSome result (λ q. IsReached k q.value) }
        ensures others { self.new ≡ record self.old { calls = self.new.calls } }
        ensures many { AsMany self.old.calls self.new.calls }
        ensures none { IfNone result (self.new ≡ self.old) }
    {
        if count == 0 || count > MOST {
            return None;
        }
        let passed = self.passes_unframed(prepared, values, home, first, count)?;
        let done = self.statement_unframed(prepared, values, home, first + (count - 1))?;
        Some(Quick {
            value: done.value,
            steps: passed + done.steps,
        })
    }
}
