//! Outer names, and blocks that a ractor can have.

ghost use Rattle.std.specs.Prelude.{◌≡◌, [], IfErr, IfOk, IsFalse, length, map};
ghost use Rattle.rr_tree.specs.Tree.{tree_at};
ghost use Rattle.rr_isolation.specs.Names.{outer_names, uses_yield, IsTold};
ghost use Rattle.rr_isolation.specs.Outer.{AreOuterNames, IsIsolated, IsRefused};

use crate::order::names_in_order;
use crate::search::search;
use rr_base::{Fault, Sym};
use rr_tree::{BlockId, Program};
use std::alloc::Global;

/// A block that uses no variable of the scopes round it, no `yield` and no `super`.
#[derive(Clone, Copy, Debug, PartialEq, Eq, Drop)]
pub struct Isolated {
    block: BlockId,
}

impl Isolated {
    /// The number of the block.
    pub fn block(self) -> BlockId
        ensures { result ≡ self.block }
    {
        self.block
    }
}

/// The variables of scopes outside that a block uses, blocks in it included: each once, in the order of their first uses.
/// A number that is no block's has none. `Memory` is the only fault.
pub fn outer_names(alloc: Global, program: &Program, block: BlockId) -> Result<Vec<Sym>, Fault>
    ensures names { IfOk result (λ names. AreOuterNames (tree_at program.now.nodes.items block) (map (λ s. s.0) names.items)) }
    ensures fault { IfErr result (λ e. e ≡ Fault.Memory) }
{
    let found = search(alloc, program, block)?;
    names_in_order(alloc, found)
}

/// The block, if a ractor can have it. `UsesOuter` has its outer names where there are any; `UsesYield` says that `yield` or
/// `super` stands in it where there are none; and there is `Memory`.
pub fn isolate(alloc: Global, program: &Program, block: BlockId) -> Result<Isolated, Fault>
    ensures isolated { IfOk result (λ i. (i.block ≡ block) × IsIsolated (tree_at program.now.nodes.items block)) }
    ensures refused { IfErr result (IsRefused (tree_at program.now.nodes.items block)) }
    ensures free { IfOk result (λ _. (outer_names (length program.now.nodes.items) (tree_at program.now.nodes.items block) ≡ []) × IsFalse (uses_yield (length program.now.nodes.items) (tree_at program.now.nodes.items block))) }
    ensures told { IfErr result (IsTold (length program.now.nodes.items) (tree_at program.now.nodes.items block)) }
{
    let found = search(alloc, program, block)?;
    let yields = found.yields;
    let names = names_in_order(alloc, found)?;
    if !names.is_empty() {
        return Err(Fault::UsesOuter(names));
    }
    if yields {
        return Err(Fault::UsesYield);
    }
    Ok(Isolated { block })
}
