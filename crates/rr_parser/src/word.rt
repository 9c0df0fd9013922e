//! Words: tokens as the grammar sees them, with names and texts by number.

use rr_base::{ClassId, Sym};
use rr_tree::{BinaryOperator, NodeId};

/// What joins two conditions.
#[derive(Clone, Copy, PartialEq, Eq, Drop)]
pub(crate) enum Connective {
    And,
    Or,
}

/// What stands behind a statement and says whether, or how often, it is done.
#[derive(Clone, Copy, Drop)]
pub(crate) enum Modifier {
    If,
    Unless,
    Loop { until: bool },
}

/// What follows an operand and makes another one of it.
#[derive(Clone, Copy, Drop)]
pub(crate) enum Tail {
    /// A call without arguments.
    Send(Sym),
    /// A call with a bracket, behind which its arguments stand.
    Call(Sym),
    /// A bracket, behind which an index stands.
    Index,
}

/// What stands between two operands.
#[derive(Clone, Copy, PartialEq, Eq, Drop)]
pub(crate) enum Infix {
    Binary(BinaryOperator),
    /// `<<`
    Append,
}

/// What leaves a loop, a block or a method.
#[derive(Clone, Copy, PartialEq, Eq, Drop)]
pub(crate) enum Jump {
    Break,
    Next,
    Return,
}

/// What passes arguments on: to the block of the method, or to the method of the superclass.
#[derive(Clone, Copy, PartialEq, Eq, Drop)]
pub(crate) enum Passing {
    Yield,
    Super,
}

/// What begins a command: the name of a call, a jump, or what passes arguments on.
#[derive(Clone, Copy, PartialEq, Eq, Drop)]
pub(crate) enum Head {
    Call(Sym),
    Jump(Jump),
    Passing(Passing),
}

/// What a block stands behind: a call, whose arguments stand in brackets or are none, or a command.
#[derive(Clone, Copy, PartialEq, Eq, Drop)]
pub(crate) enum Behind {
    Call,
    Command(Head),
}

/// What a block stands between: braces, or `do` and `end`.
#[derive(Clone, Copy, Drop)]
pub(crate) enum Fence {
    Brace,
    Do,
}

/// What stands before the `=` of an assignment with an operator.
#[derive(Clone, Copy, PartialEq, Eq, Drop)]
pub(crate) enum Operation {
    Infix(Infix),
    Connective(Connective),
}

/// The sign of an assignment.
#[derive(Clone, Copy, PartialEq, Eq, Drop)]
pub(crate) enum Sign {
    Plain,
    With(Operation),
}

/// What is assigned to, and how, and how many words stand behind the target.
#[derive(Clone, Copy, Drop)]
pub(crate) struct Aim {
    pub target: Target,
    pub sign: Sign,
    pub behind: u32,
}

/// The variable that gets an exception, and how many words stand behind its name.
#[derive(Clone, Copy, Drop)]
pub(crate) struct Caught {
    pub name: Sym,
    pub behind: u32,
}

/// What the name of a constant is before a program sets it.
#[derive(Clone, Copy, PartialEq, Eq, Drop)]
pub(crate) enum Naming {
    /// Free to be set.
    Free,
    /// The name of a built-in class.
    Class,
    /// The name of the class of ractors, behind which another constant may stand.
    Ractor,
    /// The name of a class of the program.
    Opened,
}

/// What the head of a class tells of its superclass.
#[derive(Clone, Copy, PartialEq, Eq, Drop)]
pub(crate) enum Opening {
    /// The class stands below this one.
    Below(ClassId),
    /// No class with the path stands earlier, or the class stands below another one already.
    Unknown,
    /// The path is that of a built-in class below which no class of a program stands.
    Closed,
}

/// What is assigned to.
#[derive(Clone, Copy, Drop)]
pub(crate) enum Target {
    Variable(Sym),
    Field(Sym),
    Global(Sym),
    /// A constant, and what its name is already.
    Constant(Sym, Naming),
}

/// What stands behind an operand and can be assigned to.
#[derive(Clone, Copy, Drop)]
pub(crate) enum Spot {
    Element { receiver: NodeId, index: NodeId },
    Attribute { receiver: NodeId, name: Sym },
}

/// An operand that was read, and how it can be assigned to, if it can.
#[derive(Clone, Copy, Drop)]
pub(crate) struct Reached {
    pub node: NodeId,
    pub spot: Option<Spot>,
}

/// What has members with commas between them.
#[derive(Clone, Copy, Drop)]
pub(crate) enum Listed {
    /// A command, whose arguments no bracket ends.
    Command,
    Call,
    Array,
    Hash,
}

/// What is one construct more that is open.
#[derive(Clone, Copy, Drop)]
pub(crate) enum Part {
    /// Statements, with the bracket behind them.
    Group,
    /// The members of an array, with the bracket behind them.
    Array,
    /// The pairs of a hash, with the brace behind them.
    Hash,
    /// An index, with the bracket behind it.
    Index,
    /// What stands behind `if`, with its `end`.
    Choice,
    /// What stands behind `unless`, with its `end`.
    Unless,
    /// What stands behind `while` or `until`, with its `end`.
    Loop { until: bool },
    /// What stands behind `begin`, with its `end`.
    Begin,
    /// What stands behind a minus.
    Minus,
    /// What stands behind a `!`.
    Bang,
    /// What stands behind `not`.
    Not,
    /// A command that is the argument of a command.
    Command,
    /// One of the two operands between which is chosen.
    Branch,
    /// The parts of a text literal behind its first piece, whose number it has.
    Interpolation(u32),
    /// The parameters of a block and what it holds, with the word that ends it.
    Block(Fence),
    /// What stands behind `def`, with its `end`.
    Definition,
    /// What stands behind the head of a class with this name and this superclass, with its `end`.
    Class(Sym, ClassId),
}

/// What the methods of an attribute do.
#[derive(Clone, Copy, PartialEq, Eq, Drop)]
pub(crate) enum Access {
    /// One reads the instance variable.
    Read,
    /// One writes it.
    Write,
    /// One reads it, and another one writes it.
    Both,
}

/// What a name is told from other names by.
#[derive(Clone, Copy, PartialEq, Eq, Drop)]
pub(crate) enum NameKind {
    Plain,
    /// It ends with `?` or `!`, and is no target.
    Marked,
    /// It stands before attributes, where it is a member of a class.
    Accessor(Access),
}

/// What a word is.
#[derive(Clone, Copy, PartialEq, Eq, Drop)]
pub(crate) enum WordKind {
    /// An integer without a sign.
    Int(u64),
    /// A literal, by its number among the program's texts.
    Text(u32),
    /// The first piece of a literal with parts that are evaluated, by its number among the texts.
    TextHead(u32),
    /// A piece between two such parts.
    TextMiddle(u32),
    /// The last piece.
    TextTail(u32),
    /// A name, and what it is told from other names by.
    Name(Sym, NameKind),
    /// The first word of the name of a method that `def` defines, and how many words more it has.
    MethodName(Sym, u32),
    Nil,
    Truth(bool),
    /// `:name`
    Symbol(Sym),
    /// `name:`, the key of a pair.
    Label(Sym),
    /// A constant, and what its name is there already.
    Constant(Sym, Naming),
    /// An instance variable.
    Field(Sym),
    Global(Sym),
    /// `self`
    Itself,
    Open,
    Close,
    OpenSquare,
    CloseSquare,
    OpenBrace,
    CloseBrace,
    Comma,
    Dot,
    /// `::`
    Path,
    /// `=>`
    Arrow,
    Assign(Sign),
    /// A line end or a `;`.
    Separator,
    If,
    Unless,
    /// `while`, or `until`.
    Loop { until: bool },
    Begin,
    Do,
    Jump(Jump),
    /// `yield`, or `super`.
    Passing(Passing),
    Def,
    /// `class`, and what is told of the superclass.
    Class(Opening),
    Then,
    Elsif,
    Else,
    Rescue,
    Ensure,
    End,
    /// The words `and`, `or` and `not`.
    AndWord,
    OrWord,
    NotWord,
    /// A minus, before an operand or between two.
    Minus,
    /// An operator between two operands, other than the minus.
    Operator(Infix),
    /// `&&`.
    And,
    /// `||`.
    Or,
    /// `!`.
    Bang,
    /// `|`
    Bar,
    /// `?` and `:` of a choice between two operands.
    Question,
    Colon,
    /// A token that no construct has.
    Other,
}

/// A word, which stands for one token.
#[derive(Clone, Copy, Drop)]
pub(crate) struct Word {
    pub kind: WordKind,
    /// Whether anything stands between it and the word before.
    pub blank: bool,
}
