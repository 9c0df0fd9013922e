//! What the next token depends on.

ghost use Rattle.std.specs.Prelude.{◌≡◌, reverse, OnOk};
ghost use Rattle.rr_lexer.specs.Tokens.{initial, is_inside, is_skipped, frames_after, dot_after, next};
ghost use Rattle.rr_lexer.specs.Contexts.{state_of};

use crate::kind::{Kind, Op};
use std::alloc::{AllocFailed, Global};

/// What is open: a brace, or an interpolation.
#[derive(Clone, Copy, Debug, PartialEq, Eq, Drop)]
pub enum Frame {
    Brace,
    Interpolation,
}

/// What the next token depends on.
#[derive(Drop)]
pub struct Context {
    /// What is open, the last one last.
    frames: Vec<Frame>,
    /// Whether `.` is the last token, line ends aside.
    pub after_dot: bool,
    /// Whether a blank, a comment or a joined line stands directly before.
    pub blank: bool,
}

/// Whether no list of tokens has this kind.
pub fn is_skipped(kind: Kind) -> bool
    ensures { result ≡ is_skipped kind }
{
    matches!(kind, Kind::Blank | Kind::Comment | Kind::Joined)
}

fn dot_after(kind: Kind, before: bool) -> bool
    ensures { result ≡ dot_after kind before }
{
    match kind {
        Kind::Op(op) => op == Op::Dot,
        Kind::LineEnd | Kind::Blank | Kind::Comment | Kind::Joined => before,
        _ => false,
    }
}

/// Opens or closes what a token opens or closes.
fn follow_frames(frames: &mut Vec<Frame>, kind: Kind) -> Result<(), AllocFailed<Frame>>
    ensures { OnOk result (reverse frames.new.items ≡ frames_after kind (reverse frames.old.items)) }
{
    match kind {
        Kind::OpenBrace => frames.push(Frame::Brace),
        Kind::Head => frames.push(Frame::Interpolation),
        Kind::CloseBrace | Kind::Tail => {
            let _ = frames.pop();
            Ok(())
        }
        _ => Ok(()),
    }
}

fn is_inside(frames: &[Frame]) -> bool
    ensures { result ≡ is_inside (reverse frames.now) }
{
    match frames {
        [.., Frame::Interpolation] => true,
        _ => false,
    }
}

impl Context {
    /// Where a source begins.
    pub fn new(alloc: Global) -> Context
        ensures { state_of result ≡ initial }
    {
        Context {
            frames: Vec::new(alloc),
            after_dot: false,
            blank: false,
        }
    }

    /// Whether an interpolation is what was opened last.
    pub fn is_inside(&self) -> bool
        ensures { result ≡ is_inside (state_of self.now).frames }
    {
        is_inside(&self.frames)
    }

    /// Goes on behind a token of this kind.
    pub fn follow(&mut self, kind: Kind) -> Result<(), AllocFailed<Frame>>
        ensures { OnOk result (state_of self.new ≡ next kind (state_of self.old)) }
    {
        follow_frames(&mut self.frames, kind)?;
        self.after_dot = dot_after(kind, self.after_dot);
        self.blank = is_skipped(kind);
        Ok(())
    }
}
