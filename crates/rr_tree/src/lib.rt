//! Programs: trees as flat tables.
#![tactic(auto)]

mod ancestors;
mod class;
mod method_table;
mod name_index;
mod names;
mod node;
mod program;
mod symbols;

pub use class::Class;
pub use method_table::{Found, MethodName, MethodTable};
pub use node::{BinaryOperator, BlockId, Node, NodeId, Path, ScopeId};
pub use program::Program;
