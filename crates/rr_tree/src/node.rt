//! Nodes, which name their parts by number.

use rr_base::{ClassId, Sym};

/// The number of a node in its program's table.
pub type NodeId = u32;

/// The number of a block's node.
pub type BlockId = NodeId;

/// The number of a scope among its program's scopes, in the order in which they begin. The scope of the program itself is 0.
pub type ScopeId = u32;

/// An operator of two operands.
#[derive(Clone, Copy, Debug, PartialEq, Eq, Drop)]
pub enum BinaryOperator {
    Add,
    Subtract,
    Multiply,
    Divide,
    Remainder,
    Less,
    LessOrEqual,
    Greater,
    GreaterOrEqual,
    Compare,
    Equal,
    NotEqual,
}

/// The path of a constant: a name, or `Ractor::` and a name.
#[derive(Clone, Copy, Debug, PartialEq, Eq, Drop)]
pub enum Path {
    Plain(Sym),
    Ractor(Sym),
}

/// A node. Its parts stand before it in the table, and so do the items of its list, which stand side by side: `first` is
/// the number of the first item, and `count` says how many there are.
///
/// The target of an assignment with an operator, or of one that has several targets, is written as the expression that
/// reads it: a variable, a field, a global, a constant, an index, or a call with a receiver and no arguments.
#[derive(Clone, Copy, Debug, PartialEq, Eq, Drop)]
pub enum Node {
    Nil,
    Truth(bool),
    Int(i64),
    /// A literal, by its number among the program's texts.
    Text(u32),
    Symbol(Sym),
    /// `self`.
    Itself,
    /// A class, by its name.
    Class(ClassId),
    Constant(Path),
    SetConstant(Sym, NodeId),
    /// A local variable: how many scopes outside it is, its number among the variables there, its name, and how many words
    /// of the source stand behind this use, so that of two uses the one with more behind it stands first.
    Local {
        depth: u32,
        slot: u32,
        name: Sym,
        behind: u32,
    },
    /// An assignment to a local variable, with what `Local` says of it, and the value.
    Assign {
        depth: u32,
        slot: u32,
        name: Sym,
        behind: u32,
        value: NodeId,
    },
    /// An instance variable.
    Field(Sym),
    SetField(Sym, NodeId),
    Global(Sym),
    SetGlobal(Sym, NodeId),
    Array {
        first: NodeId,
        count: u32,
    },
    /// A hash between braces. Its items are pairs.
    Hash {
        first: NodeId,
        count: u32,
    },
    /// Pairs without braces, the last argument of a call.
    Pairs {
        first: NodeId,
        count: u32,
    },
    /// A text literal with parts that are evaluated.
    Interpolation {
        first: NodeId,
        count: u32,
    },
    And(NodeId, NodeId),
    Or(NodeId, NodeId),
    Not(NodeId),
    Negate(NodeId),
    Binary(BinaryOperator, NodeId, NodeId),
    /// `<<`.
    Append(NodeId, NodeId),
    /// Condition, then, else.
    Choose(NodeId, NodeId, NodeId),
    /// `while`, or `until`, which goes on as long as the condition does not hold.
    Loop {
        until: bool,
        condition: NodeId,
        body: NodeId,
    },
    /// Statements.
    Sequence {
        first: NodeId,
        count: u32,
    },
    /// A bare name that is no local variable: a call of `self` without arguments. `site` numbers the program's calls.
    Bare {
        name: Sym,
        site: u32,
    },
    /// A call of `self`.
    Call {
        name: Sym,
        first: NodeId,
        count: u32,
        site: u32,
    },
    Send {
        receiver: NodeId,
        name: Sym,
        first: NodeId,
        count: u32,
        site: u32,
    },
    /// A call, and the block that it is given.
    WithBlock(NodeId, NodeId),
    /// A block: its scope, how many parameters and how many variables it has, and its statements.
    Block {
        scope: ScopeId,
        parameters: u32,
        size: u32,
        body: NodeId,
    },
    Super {
        first: NodeId,
        count: u32,
    },
    /// `super` alone, which passes the present values of the parameters.
    ForwardingSuper,
    Yield {
        first: NodeId,
        count: u32,
    },
    Break(NodeId),
    Next(NodeId),
    Return(NodeId),
    /// Statements, clauses one of which may rescue them, and what follows where nothing was raised.
    Rescue {
        body: NodeId,
        first: NodeId,
        count: u32,
        otherwise: NodeId,
    },
    /// The classes that a clause rescues, StandardError where there are none; the variable for the exception, nil where
    /// there is none; and the statements.
    Clause {
        first: NodeId,
        count: u32,
        target: NodeId,
        body: NodeId,
    },
    /// Statements, and those that always follow.
    Ensure(NodeId, NodeId),
    /// An assignment with an operator: the target, and the right side.
    OperatorAssign(BinaryOperator, NodeId, NodeId),
    /// `<<=`.
    AppendAssign(NodeId, NodeId),
    OrAssign(NodeId, NodeId),
    AndAssign(NodeId, NodeId),
    Index(NodeId, NodeId),
    SetIndex {
        receiver: NodeId,
        index: NodeId,
        value: NodeId,
    },
    SetAttribute {
        receiver: NodeId,
        name: Sym,
        value: NodeId,
        site: u32,
    },
    /// Several targets.
    MultipleAssign {
        first: NodeId,
        count: u32,
        value: NodeId,
    },
    /// An argument whose items are arguments.
    Splat(NodeId),
    /// A key and its value.
    Pair(NodeId, NodeId),
    /// The definition of a method: its name, its scope, how many parameters and how many variables it has, and its
    /// statements.
    Method {
        name: Sym,
        scope: ScopeId,
        parameters: u32,
        size: u32,
        body: NodeId,
    },
    /// The definition of a method that reads an instance variable.
    Reader(Sym),
    /// The definition of a method that writes an instance variable.
    Writer(Sym),
    /// The definition of a class: its name, its superclass, and the definitions in it.
    ClassBody {
        name: Sym,
        superclass: ClassId,
        first: NodeId,
        count: u32,
    },
    /// One part of a list.
    Item(NodeId),
}
