//! The nodes that are evaluated, read out of the program beforehand.

ghost use Rattle.std.specs.Prelude.{IfOk};
ghost use Rattle.rr_eval.specs.Nodes.{AreEvaluated};

use crate::nodes::evaluated_node;
use rr_tree::{Node, Program};
use std::alloc::{AllocError, Global};

/// The nodes that are evaluated at the places of a program, by these. The only fault is want of memory.
pub fn evaluated_nodes(alloc: Global, program: &Program) -> Result<Vec<Node>, AllocError>
    ensures { IfOk result (λ nodes. AreEvaluated program.now.nodes.items nodes.items) }
{
    let mut nodes = Vec::new(alloc);
    for number in 0..program.nodes.len() {
        let Ok(place) = u32::try_from(number) else {
            return Ok(nodes);
        };
        nodes.push(evaluated_node(program, place))?;
    }
    Ok(nodes)
}
