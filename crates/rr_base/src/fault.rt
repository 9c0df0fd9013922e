//! Why a call did not do what it was asked for.

ghost use Rattle.std.specs.Prelude.{◌≡◌};
ghost use Rattle.rr_base.specs.Names.{syntax_name};

use crate::limits::LimitKind;
use crate::name::Sym;
use std::alloc::{AllocError, AllocFailed};

/// What is wrong at a place of a source.
#[derive(Clone, Copy, Debug, PartialEq, Eq, Drop)]
pub enum SyntaxKind {
    /// A byte that no source may have: broken UTF-8, or a control byte.
    Encoding,
    /// A character that begins no token.
    Character,
    /// A text that is not closed.
    UnterminatedString,
    /// A number that is spelled wrongly or does not fit 64 bits.
    Number,
    /// A token that cannot stand where it stands.
    UnexpectedToken,
    /// The source ends within a construct.
    UnexpectedEnd,
    /// Something of Ruby that this language leaves out.
    LeftOut,
    /// A constant that cannot be set, or a class that cannot be opened, there.
    Constant,
}

impl SyntaxKind {
    /// The words that an error line has for it, as in `line 1, column 6: unterminated string`.
    pub fn name(self) -> &'static str
        ensures { result.now ≡ syntax_name self }
    {
        match self {
            SyntaxKind::Encoding => "encoding",
            SyntaxKind::Character => "character",
            SyntaxKind::UnterminatedString => "unterminated string",
            SyntaxKind::Number => "number",
            SyntaxKind::UnexpectedToken => "unexpected token",
            SyntaxKind::UnexpectedEnd => "unexpected end",
            SyntaxKind::LeftOut => "left out",
            SyntaxKind::Constant => "constant",
        }
    }
}

/// Why a call was refused. After a fault the callee is as it was before the call, unless the call says otherwise.
#[derive(Debug, PartialEq, Eq, Drop)]
pub enum Fault {
    /// The allocator refused a growth.
    Memory,
    /// The source is not of the language. Lines and columns count from 1, columns in bytes.
    Syntax {
        line: u32,
        column: u32,
        kind: SyntaxKind,
    },
    /// A limit was passed.
    Limit(LimitKind),
    /// The channel is closed.
    Closed,
    /// What is sent, yielded or made shareable leads to a moved object.
    HoldsShell,
    /// A constant that only the main ractor may read.
    NotMain,
    /// A value that only the main ractor may set a constant to.
    NotShareable,
    /// No constant has this name.
    Unknown(Sym),
    /// The history of a channel or of the store has no room for another event.
    HistoryFull,
    /// The value is shown no more: it was taken.
    NotShown,
    /// The block of a ractor uses these variables of the scopes round it, in the order of their first use.
    UsesOuter(Vec<Sym>),
    /// The block of a ractor uses `yield` or `super`.
    UsesYield,
    /// The steps of a ractor are spent.
    StepLimit,
    /// The text is no trace; `line` counts from 1.
    BadTrace {
        line: u32,
    },
    /// A share or a message that belongs to another book or another move.
    NotMine,
}

impl From<AllocError> for Fault {
    ghost use Rattle.std.specs.Prelude.{◌≡◌};
    ghost use Rattle.rr_base.specs.declared.fault.Fault.TheVariants.{Memory};

    ghost from_gives = { λ _ e. e ≡ Memory };

    fn from(_e: AllocError) -> Fault {
        Fault::Memory
    }
}

impl<T: Drop> From<AllocFailed<T>> for Fault {
    ghost use Rattle.std.specs.Prelude.{◌≡◌};
    ghost use Rattle.rr_base.specs.declared.fault.Fault.TheVariants.{Memory};

    ghost from_gives = { λ _ e. e ≡ Memory };

    fn from(_e: AllocFailed<T>) -> Fault {
        Fault::Memory
    }
}
