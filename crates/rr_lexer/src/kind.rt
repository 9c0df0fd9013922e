//! The kinds of tokens.

/// A reserved word.
#[derive(Clone, Copy, Debug, PartialEq, Eq, Drop)]
pub enum Keyword {
    And,
    Begin,
    Break,
    Class,
    Def,
    Do,
    Else,
    Elsif,
    End,
    Ensure,
    False,
    If,
    Next,
    Nil,
    Not,
    Or,
    Rescue,
    Return,
    SelfWord,
    SuperWord,
    Then,
    True,
    Unless,
    Until,
    While,
    Yield,
}

/// An operator or a mark. Braces are kinds of their own, since they change what a `}` means.
#[derive(Clone, Copy, Debug, PartialEq, Eq, Drop)]
pub enum Op {
    Plus,
    Minus,
    Star,
    Slash,
    Percent,
    Assign,
    Equal,
    Arrow,
    Bang,
    NotEqual,
    Less,
    LessOrEqual,
    Shift,
    ShiftAssign,
    Compare,
    Greater,
    GreaterOrEqual,
    PlusAssign,
    MinusAssign,
    StarAssign,
    SlashAssign,
    PercentAssign,
    And,
    AndAssign,
    Bar,
    Or,
    OrAssign,
    Question,
    Colon,
    Path,
    Dot,
    Comma,
    Semicolon,
    Open,
    Close,
    OpenSquare,
    CloseSquare,
}

/// What a token is.
#[derive(Clone, Copy, Debug, PartialEq, Eq, Drop)]
pub enum Kind {
    /// A name that begins with a small letter or `_`.
    Name,
    /// A name that begins with a capital letter.
    Constant,
    /// `@name`
    InstanceVariable,
    /// `$name`
    GlobalVariable,
    /// `:name`
    Symbol,
    /// `name:`, with its colon
    Label,
    /// An integer without a sign, at most 9223372036854775808.
    Int,
    Keyword(Keyword),
    Op(Op),
    /// `'...'`
    Single,
    /// `"..."` without interpolation
    Text,
    /// `"...#{`
    Head,
    /// `}...#{`
    Middle,
    /// `}..."`
    Tail,
    OpenBrace,
    CloseBrace,
    LineEnd,
    /// Blanks, comments and joined lines tile the source too, but no list of tokens has them.
    Blank,
    Comment,
    Joined,
}

/// A token, which spells the bytes from `start` up to `end` of its source.
#[derive(Clone, Copy, Debug, PartialEq, Eq, Drop)]
pub struct Token {
    pub start: u32,
    pub end: u32,
    pub kind: Kind,
    /// Whether anything stands between it and the token before: blanks, a comment, or a line end that separates no
    /// statements.
    pub blank: bool,
}
