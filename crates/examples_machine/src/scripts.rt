//! Scripts with the block of a ractor.

use rr_base::Fault;
use rr_eval::Prepared;
use rr_lexer::lex;
use rr_parser::parse;
use rr_tree::{Node, NodeId, Program};
use std::alloc::Global;

/// A program, ready to run.
pub fn program_of(alloc: Global, script: &str) -> Result<Prepared, Fault> {
    let source = script.as_bytes();
    let tokens = lex(alloc, source)?;
    let program = parse(alloc, source, tokens.as_slice())?;
    Ok(Prepared::of(alloc, program)?)
}

/// The node of the block that stands last, inside of no other one: nodes stand after their parts.
pub fn last_block(program: &Program) -> Option<NodeId> {
    let mut last = None;
    let count = u32::try_from(program.nodes.len()).unwrap_or(u32::MAX);
    for place in 0..count {
        if let Node::Block { .. } = program.node(place) {
            last = Some(place);
        }
    }
    last
}
