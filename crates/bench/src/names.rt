//! The outer names of a script's last block.

use crate::clock::Laps;
use crate::reading::{Script, read};
use rr_base::{Fault, Sym};
use rr_isolation::outer_names;
use rr_tree::{BlockId, Node, Program};
use std::alloc::Global;
use std::io;

/// How often the names are looked for.
const ROUNDS: u32 = 5;

/// The last block of a program, which stands in no other one.
fn last_block(program: &Program) -> BlockId {
    let count = u32::try_from(program.nodes.len()).unwrap_or(u32::MAX);
    let mut last = 0;
    for number in 0..count {
        if matches!(program.node(number), Node::Block { .. }) {
            last = number;
        }
    }
    last
}

fn look(alloc: Global, program: &Program, block: BlockId) -> Result<Vec<Sym>, Fault> {
    for _ in 1..ROUNDS {
        outer_names(alloc, program, block)?;
    }
    outer_names(alloc, program, block)
}

pub fn measure(rt: &HostRuntime, file: &str) -> io::Result<()> {
    let Some(Script { program, .. }) = read(rt, file)? else {
        return Ok(());
    };
    let (nodes, block) = (program.nodes.len(), last_block(&program));
    let mut laps = Laps::begin(rt)?;
    let Ok(names) = look(rt.alloc(), &program, block) else {
        return println!(rt; "not enough memory");
    };
    let each = laps.each(rt, ROUNDS)? / 1_000_000;
    let count = names.len();
    println!(rt; "{nodes} nodes, {count} outer names: {each} ms")
}
