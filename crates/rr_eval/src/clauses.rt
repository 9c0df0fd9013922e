//! The clauses of a program.

ghost use Rattle.std.specs.Prelude.{◌≡◌, ◌+◌, ◌-◌, ◌<◌, ◌≤◌, ◌⊎◌, ◌^◌, ℕ, true, false, []};
ghost use Rattle.rr_base.specs.declared.name.TheConstants.ClassId.{STANDARD_ERROR};
ghost use Rattle.rr_space.specs.Kinds.{class_at};
ghost use Rattle.rr_space.specs.declared.refer.Ref.{Ref};
ghost use Rattle.rr_tree.specs.Ancestors.{descends};
ghost use Rattle.rr_eval.specs.Frames.{runs_in};
ghost use Rattle.rr_eval.specs.Script.{State, World};
ghost use Rattle.rr_eval.specs.Turns.{context_of, code_of};
ghost use Rattle.rr_tree.specs.Nodes.{trees_before};
ghost use Rattle.rr_tree.specs.Tree.{tree_at};
ghost use Rattle.rr_eval.specs.Basics.{variable_of};
ghost use Rattle.rr_eval.specs.Rescuing.{class_parts, target_part, body_part, tried};

use crate::call_stack::Variable;
use crate::nodes::evaluated_node;
use crate::update::variable_of;
use rr_base::ClassId;
use rr_space::{Ref, Space};
use rr_tree::{Node, NodeId, Program};

/// A clause that rescues: its classes, its variable, where it has one, and its statements.
#[derive(Clone, Copy)]
pub struct Clause {
    pub first: NodeId,
    pub count: u32,
    pub variable: Option<Variable>,
    pub body: NodeId,
}

/// The clause at a place. Another part is one without classes and without a variable.
pub fn clause_at(program: &Program, place: NodeId) -> Clause
    ensures small { result.first + result.count < 2 ^ 32 }
    ensures classes { trees_before program.now.nodes.items (result.first + result.count) result.count ≡ class_parts (tree_at program.now.nodes.items place) }
    ensures target { result.variable ≡ variable_of (target_part (tree_at program.now.nodes.items place)) }
    ensures body { tree_at program.now.nodes.items result.body ≡ body_part (tree_at program.now.nodes.items place) }
{
    match evaluated_node(program, place) {
        Node::Clause {
            first,
            count,
            target,
            body,
        } => Clause {
            first,
            count,
            variable: variable_of(program, target),
            body,
        },
        _ => Clause {
            first: 0,
            count: 0,
            variable: None,
            body: place,
        },
    }
}

/// How many of the last `count` clauses before `end` are left from the first one on that has classes. Those before it take no
/// exception that is not a StandardError.
fn clauses_with_classes(program: &Program, end: NodeId, count: u32) -> u32
    ensures same { (w : World) (e : Ref) (s : State) (n : ℕ) → descends program.now (class_at s.memory.table e).0 STANDARD_ERROR.0 ≡ false → runs_in (code_of program.now w) (tried (context_of program.now) e (trees_before program.now.nodes.items end count)) s n ≡ runs_in (code_of program.now w) (tried (context_of program.now) e (trees_before program.now.nodes.items end result)) s n }
    ensures classes { 0 < result → class_parts (tree_at program.now.nodes.items (end - result)) ≡ [] → ⊥ }
{
    let mut more = count;
    while more > 0 {
        if clause_at(program, end.saturating_sub(more)).count > 0 {
            return more;
        }
        more -= 1;
    }
    0
}

/// How many of the last `count` clauses before `end` are left from the first one on that has classes or takes the exception.
pub fn clauses_left(
    program: &Program,
    space: &Space,
    exception: Ref,
    end: NodeId,
    count: u32,
) -> u32
    ensures same { (w : World) (s : State) (n : ℕ) → s.memory.table ≡ space.now → runs_in (code_of program.now w) (tried (context_of program.now) exception (trees_before program.now.nodes.items end count)) s n ≡ runs_in (code_of program.now w) (tried (context_of program.now) exception (trees_before program.now.nodes.items end result)) s n }
    ensures takes { 0 < result → class_parts (tree_at program.now.nodes.items (end - result)) ≡ [] → descends program.now (class_at space.now exception).0 STANDARD_ERROR.0 ≡ true }
{
    match program.descends(space.class_of(exception), ClassId::STANDARD_ERROR) {
        true => count,
        false => clauses_with_classes(program, end, count),
    }
}
