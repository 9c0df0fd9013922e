//! A slow reader of tokens, which tries each way that the text of the grammar leaves open.

use crate::classes::{is_access, is_class, is_fitting, last_head};
use crate::productions::{Act, Grammar, Look, Step};
use rr_lexer::{Keyword, Kind, Op, Token, word};
use std::alloc::{AllocError, Global};

/// How many steps a source may take.
const STEPS: u32 = 20_000_000;

/// A token, as the grammar sees it.
#[derive(Clone, Copy)]
pub struct Word<'a> {
    pub kind: Kind,
    pub blank: bool,
    pub text: &'a [u8],
    /// The bit of the first word that is spelled so.
    pub bit: u64,
}

/// What stands before the first word, and behind the last one.
pub const NOTHING: Word<'static> = Word {
    kind: Kind::Blank,
    blank: true,
    text: &[],
    bit: 0,
};

/// What is known at a place.
#[derive(Clone, Copy)]
struct Known {
    /// The bits of the names that are variables, of the constants that were set, and of the classes that were opened.
    variables: u64,
    constants: u64,
    opened: u64,
    in_loop: bool,
    in_method: bool,
    takes_do: bool,
}

/// What is known where the program begins.
const PROGRAM: Known = Known {
    variables: 0,
    constants: 0,
    opened: 0,
    in_loop: false,
    in_method: false,
    takes_do: true,
};

/// Where a production goes on behind its end, or what was known before what began.
#[derive(Clone, Copy)]
struct Frame {
    step: usize,
    known: Known,
    below: Option<usize>,
}

/// Where the reader is: in the grammar, and in the words.
#[derive(Clone, Copy)]
struct State {
    step: usize,
    place: usize,
    known: Known,
    /// The number of the frame that ends first.
    frame: Option<usize>,
    /// Behind the last `begin .. end`.
    begun: usize,
}

#[derive(Drop)]
struct Reader<'a> {
    grammar: &'a Grammar,
    words: Vec<Word<'a>>,
    state: State,
    frames: Vec<Frame>,
    /// The ways that are left to try, each with how many frames there were.
    waiting: Vec<(State, usize)>,
}

fn bit_of(words: &[Word], text: &[u8]) -> u64 {
    let mut bit: u64 = 1;
    for word in words {
        if word.text == text {
            return bit;
        }
        bit = bit.wrapping_mul(2);
    }
    bit
}

/// All texts are of one kind for the grammar, and so are the separators.
fn words_of<'a>(
    alloc: Global,
    source: &'a [u8],
    tokens: &[Token],
) -> Result<Vec<Word<'a>>, AllocError> {
    let mut words = Vec::new(alloc);
    for token in tokens {
        let text = word(source, *token);
        words.push(Word {
            kind: match token.kind {
                Kind::Single => Kind::Text,
                Kind::Op(Op::Semicolon) => Kind::LineEnd,
                kind => kind,
            },
            blank: token.blank,
            text,
            bit: bit_of(words.as_slice(), text),
        })?;
    }
    Ok(words)
}

/// Whether a word begins an operand; `-` and `*` are asked for apart.
fn begins_operand(kind: Kind) -> bool {
    matches!(
        kind,
        Kind::Name
            | Kind::Constant
            | Kind::InstanceVariable
            | Kind::GlobalVariable
            | Kind::Symbol
            | Kind::Label
            | Kind::Int
            | Kind::Text
            | Kind::Head
            | Kind::Op(Op::Open | Op::OpenSquare | Op::Bang)
            | Kind::Keyword(
                Keyword::Begin
                    | Keyword::False
                    | Keyword::Nil
                    | Keyword::SelfWord
                    | Keyword::SuperWord
                    | Keyword::True
                    | Keyword::Yield
            )
    )
}

fn is_sign(kind: Kind) -> bool {
    matches!(kind, Kind::Op(Op::Minus | Op::Star))
}

/// What is known where a method begins.
fn method(known: Known) -> Known {
    Known {
        in_method: true,
        constants: known.constants,
        opened: known.opened,
        ..PROGRAM
    }
}

/// What is known where something of its own begins.
fn begun(act: Act, known: Known) -> Known {
    let (takes_do, in_loop) = match act {
        Act::Method => return method(known),
        Act::Block => (true, true),
        Act::Loop => (false, true),
        Act::Hold => (false, known.in_loop),
        _ => (true, known.in_loop),
    };
    Known {
        takes_do,
        in_loop,
        ..known
    }
}

impl<'a> Reader<'a> {
    fn word(&self, place: usize) -> Word<'a> {
        match self.words.get(place) {
            Some(word) => *word,
            None => NOTHING,
        }
    }

    /// The word that was read last.
    fn last(&self) -> Word<'a> {
        self.word(self.state.place.wrapping_sub(1))
    }

    fn holds(&self, look: Look) -> bool {
        let (place, known) = (self.state.place, self.state.known);
        let (last, next) = (self.last(), self.word(place));
        match look {
            Look::Tight => !next.blank,
            Look::Number => !next.blank && next.kind == Kind::Int,
            Look::Operands => {
                let behind = self.word(place.wrapping_add(1));
                next.blank && (begins_operand(next.kind) || is_sign(next.kind) && !behind.blank)
            }
            Look::Value => {
                begins_operand(next.kind) || is_sign(next.kind) || next.kind == Kind::OpenBrace
            }
            Look::Plain => !matches!(last.text, [.., b'?'] | [.., b'!']),
            Look::Local => known.variables & last.bit != 0,
            Look::Ractor => last.text == b"Ractor".as_slice(),
            Look::Class => is_class(last.text),
            Look::Opened => known.opened & last.bit != 0,
            Look::Constant => known.constants & last.bit != 0,
            Look::Superclass => is_fitting(&self.words, place, known.opened),
            Look::Access => is_access(last.text),
            Look::InLoop => known.in_loop,
            Look::InMethod => known.in_method,
            Look::TakesDo => known.takes_do,
            Look::Begun => self.state.begun == place,
        }
    }

    /// On to the next step, where that holds.
    fn pass(&mut self, holds: bool) -> bool {
        if holds {
            self.state.step = self.state.step.wrapping_add(1);
        }
        holds
    }

    /// Reads a word of this kind.
    fn read(&mut self, kind: Kind) -> bool {
        let comes = self.word(self.state.place).kind == kind;
        if comes {
            self.state.place = self.state.place.wrapping_add(1);
        }
        self.pass(comes)
    }

    /// On to the place that the present one names.
    fn follow(&mut self) {
        if let Some(step) = self.grammar.next.get(self.state.step) {
            self.state.step = *step;
        }
    }

    /// Whether a way may go on with the word that comes.
    fn is_open(&self, way: usize) -> bool {
        match self.grammar.steps.get(way) {
            Some(Step::Token(kind)) => *kind == self.word(self.state.place).kind,
            _ => true,
        }
    }

    /// Each way from here on is left to try.
    fn choose(&mut self, optional: bool) -> Result<(), AllocError> {
        for _ in 0..self.grammar.steps.len() {
            let is_way = matches!(
                self.grammar.steps.get(self.state.step),
                Some(Step::Choose | Step::Try | Step::Bar)
            );
            let mut way = self.state;
            way.step = way.step.wrapping_add(1);
            if (is_way || optional) && self.is_open(way.step) {
                self.waiting.push((way, self.frames.len()))?;
            }
            if !is_way {
                break;
            }
            self.follow();
        }
        Ok(())
    }

    fn push(&mut self) -> Result<(), AllocError> {
        let number = self.frames.len();
        self.frames.push(Frame {
            step: self.state.step,
            known: self.state.known,
            below: self.state.frame,
        })?;
        self.state.frame = Some(number);
        Ok(())
    }

    /// The frame that ends first ends.
    fn pop(&mut self) -> Option<Frame> {
        let frame = *self.frames.get(self.state.frame?)?;
        self.state.frame = frame.below;
        Some(frame)
    }

    /// What began last ends, and the variables made in it stay known or not; constants do.
    fn restore(&mut self, keeps: bool) {
        let last = self.state.known;
        if let Some(frame) = self.pop() {
            self.state.known = frame.known;
            self.state.known.constants = last.constants;
            if keeps {
                self.state.known.variables = last.variables;
            }
        }
    }

    /// The class of the head that was read is opened.
    fn open(&mut self) {
        if let Some(head) = last_head(&self.words, self.state.place) {
            self.state.known.opened |= head.name.bit;
        }
    }

    fn change(&mut self, act: Act) -> Result<(), AllocError> {
        match act {
            Act::Leave => self.restore(false),
            Act::Back => self.restore(true),
            Act::Known => self.state.known.variables |= self.last().bit,
            Act::Constant => self.state.known.constants |= self.last().bit,
            Act::Opened => self.open(),
            Act::Begun => self.state.begun = self.state.place,
            Act::Anew => self.state.known.takes_do = true,
            _ => {
                self.push()?;
                self.state.known = begun(act, self.state.known);
            }
        }
        Ok(())
    }

    /// A production ends.
    fn leave(&mut self) -> bool {
        match self.pop() {
            Some(frame) => {
                self.state.step = frame.step;
                self.pass(true)
            }
            None => false,
        }
    }

    /// Takes the next step, and answers whether there was one.
    fn step(&mut self) -> Result<bool, AllocError> {
        let Some(step) = self.grammar.steps.get(self.state.step) else {
            return Ok(false);
        };
        match *step {
            Step::Choose => {
                self.choose(false)?;
                Ok(false)
            }
            Step::Try => {
                self.choose(true)?;
                Ok(false)
            }
            Step::Bar | Step::Repeat => {
                self.follow();
                Ok(true)
            }
            Step::Close => Ok(self.pass(true)),
            Step::End => Ok(self.leave()),
            Step::Production(begin) => {
                self.push()?;
                self.state.step = begin;
                Ok(true)
            }
            Step::Token(kind) => Ok(self.read(kind)),
            Step::Look(look, wanted) => {
                let holds = self.holds(look) == wanted;
                Ok(self.pass(holds))
            }
            Step::Change(act) => {
                self.change(act)?;
                Ok(self.pass(true))
            }
            Step::Other => Ok(false),
        }
    }

    /// Whether the production of the program ends behind the last word.
    fn is_read(&self) -> bool {
        let ends = matches!(self.grammar.steps.get(self.state.step), Some(Step::End));
        ends && self.state.frame.is_none() && self.state.place == self.words.len()
    }

    /// On with the way that was found last, where one is left.
    fn turn_back(&mut self) -> bool {
        match self.waiting.pop() {
            Some((state, frames)) => {
                self.frames.truncate(frames);
                self.state = state;
                true
            }
            None => false,
        }
    }
}

/// Whether the grammar spells these tokens, or nothing where that took too many steps.
pub fn reads<'a>(
    alloc: Global,
    grammar: &'a Grammar,
    source: &'a [u8],
    tokens: &[Token],
) -> Result<Option<bool>, AllocError> {
    let state = State {
        step: 1,
        place: 0,
        known: PROGRAM,
        frame: None,
        begun: 0,
    };
    let mut reader = Reader {
        grammar,
        words: words_of(alloc, source, tokens)?,
        state,
        frames: Vec::new(alloc),
        waiting: Vec::new(alloc),
    };
    for _ in 0..STEPS {
        if reader.step()? {
            continue;
        }
        if reader.is_read() {
            return Ok(Some(true));
        }
        if !reader.turn_back() {
            return Ok(Some(false));
        }
    }
    Ok(None)
}
