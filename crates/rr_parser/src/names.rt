//! Words from tokens: each name and each text gets its number.

ghost use Rattle.std.specs.Prelude.{◌≡◌, ◌<◌, ◌≤◌, ◌∷◌, [], ◌++◌, ℕ, List, length, map, take, false, None, IfSome, OnSome, IfOk, OnOk, IsTrue};
ghost use Rattle.rr_base.specs.ClassNames.{class_named};
ghost use Rattle.rr_lexer.specs.declared.kind.Token.{Token};
ghost use Rattle.rr_lexer.specs.Contents.{word_of, contents_of, int_value_of, text_body};
ghost use Rattle.rr_parser.specs.Grammar.Calls.{sign_of_kind};
ghost use Rattle.rr_parser.specs.Words.{keyword_kind, op_kind, is_marked, accessor_named, name_kind, naming_of, token_name, with_name, number_of, with_symbol, with_symbol_of, with_text, word_kind, word_kind_of, words_of, symbols_of, texts_of, classes_of};

use crate::method_names::{MethodName, is_def, method_name_at};
use crate::opened::{Opened, is_class_among, told};
use crate::refusal::Storage;
use crate::word::{
    Access, Connective, Infix, Jump, NameKind, Naming, Opening, Operation, Passing, Sign, Word,
    WordKind,
};
use indexmap::IndexSet;
use rr_base::{BuiltInClass, Sym};
use rr_lexer::{Keyword, Kind, Op, Token, int_value, name, text_contents, word};
use rr_tree::{BinaryOperator, Class};
use std::alloc::{AllocError, Global};

/// The words of a source, and what their numbers stand for.
#[derive(Drop)]
pub(crate) struct Words {
    pub words: Vec<Word>,
    pub symbols: Vec<Vec<u8>>,
    pub texts: Vec<Vec<u8>>,
    pub classes: Vec<Class>,
}

fn keyword_kind(keyword: Keyword) -> WordKind
    ensures { result ≡ keyword_kind keyword }
{
    match keyword {
        Keyword::Nil => WordKind::Nil,
        Keyword::True => WordKind::Truth(true),
        Keyword::False => WordKind::Truth(false),
        Keyword::SelfWord => WordKind::Itself,
        Keyword::Begin => WordKind::Begin,
        Keyword::If => WordKind::If,
        Keyword::Unless => WordKind::Unless,
        Keyword::While => WordKind::Loop { until: false },
        Keyword::Until => WordKind::Loop { until: true },
        Keyword::Do => WordKind::Do,
        Keyword::Break => WordKind::Jump(Jump::Break),
        Keyword::Next => WordKind::Jump(Jump::Next),
        Keyword::Return => WordKind::Jump(Jump::Return),
        Keyword::Yield => WordKind::Passing(Passing::Yield),
        Keyword::SuperWord => WordKind::Passing(Passing::Super),
        Keyword::Def => WordKind::Def,
        Keyword::Class => WordKind::Class(Opening::Unknown),
        Keyword::And => WordKind::AndWord,
        Keyword::Or => WordKind::OrWord,
        Keyword::Not => WordKind::NotWord,
        Keyword::Then => WordKind::Then,
        Keyword::Elsif => WordKind::Elsif,
        Keyword::Else => WordKind::Else,
        Keyword::Rescue => WordKind::Rescue,
        Keyword::Ensure => WordKind::Ensure,
        Keyword::End => WordKind::End,
    }
}

/// The sign of an assignment that an operator is, if it is one.
fn sign_of(op: Op) -> Option<Sign>
    ensures { result ≡ sign_of_kind (op_kind op) }
{
    match op {
        Op::Assign => Some(Sign::Plain),
        Op::PlusAssign => Some(Sign::With(Operation::Infix(Infix::Binary(BinaryOperator::Add)))),
        Op::MinusAssign => Some(Sign::With(Operation::Infix(Infix::Binary(
            BinaryOperator::Subtract,
        )))),
        Op::StarAssign => Some(Sign::With(Operation::Infix(Infix::Binary(
            BinaryOperator::Multiply,
        )))),
        Op::SlashAssign => Some(Sign::With(Operation::Infix(Infix::Binary(
            BinaryOperator::Divide,
        )))),
        Op::PercentAssign => Some(Sign::With(Operation::Infix(Infix::Binary(
            BinaryOperator::Remainder,
        )))),
        Op::ShiftAssign => Some(Sign::With(Operation::Infix(Infix::Append))),
        Op::OrAssign => Some(Sign::With(Operation::Connective(Connective::Or))),
        Op::AndAssign => Some(Sign::With(Operation::Connective(Connective::And))),
        _ => None,
    }
}

/// What an operator is that is no sign of an assignment.
fn unsigned_kind(op: Op) -> WordKind
    ensures { sign_of_kind (op_kind op) ≡ None → result ≡ op_kind op }
{
    match op {
        Op::Open => WordKind::Open,
        Op::Close => WordKind::Close,
        Op::OpenSquare => WordKind::OpenSquare,
        Op::CloseSquare => WordKind::CloseSquare,
        Op::Dot => WordKind::Dot,
        Op::Path => WordKind::Path,
        Op::Arrow => WordKind::Arrow,
        Op::Comma => WordKind::Comma,
        Op::Semicolon => WordKind::Separator,
        Op::Minus => WordKind::Minus,
        Op::Plus => WordKind::Operator(Infix::Binary(BinaryOperator::Add)),
        Op::Star => WordKind::Operator(Infix::Binary(BinaryOperator::Multiply)),
        Op::Slash => WordKind::Operator(Infix::Binary(BinaryOperator::Divide)),
        Op::Percent => WordKind::Operator(Infix::Binary(BinaryOperator::Remainder)),
        Op::Less => WordKind::Operator(Infix::Binary(BinaryOperator::Less)),
        Op::LessOrEqual => WordKind::Operator(Infix::Binary(BinaryOperator::LessOrEqual)),
        Op::Greater => WordKind::Operator(Infix::Binary(BinaryOperator::Greater)),
        Op::GreaterOrEqual => WordKind::Operator(Infix::Binary(BinaryOperator::GreaterOrEqual)),
        Op::Compare => WordKind::Operator(Infix::Binary(BinaryOperator::Compare)),
        Op::Equal => WordKind::Operator(Infix::Binary(BinaryOperator::Equal)),
        Op::NotEqual => WordKind::Operator(Infix::Binary(BinaryOperator::NotEqual)),
        Op::Shift => WordKind::Operator(Infix::Append),
        Op::And => WordKind::And,
        Op::Or => WordKind::Or,
        Op::Bang => WordKind::Bang,
        Op::Bar => WordKind::Bar,
        Op::Question => WordKind::Question,
        Op::Colon => WordKind::Colon,
        _ => WordKind::Other,
    }
}

#[tactic(auto, using(crate::proofs::Numbers::assigned_kind))]
fn op_kind(op: Op) -> WordKind
    ensures { result ≡ op_kind op }
{
    match sign_of(op) {
        Some(sign) => WordKind::Assign(sign),
        None => unsigned_kind(op),
    }
}

/// Whether a name ends with `?` or `!`.
fn is_marked(name: &[u8]) -> bool
    ensures { result ≡ is_marked name.now }
{
    matches!(name.last(), Some(b'?' | b'!'))
}

/// What the methods of the attributes do behind a name, if it stands before attributes.
fn accessor_named(name: &[u8]) -> Option<Access>
    ensures { result ≡ accessor_named name.now }
{
    if name == b"attr_reader".as_slice() {
        Some(Access::Read)
    } else if name == b"attr_writer".as_slice() {
        Some(Access::Write)
    } else if name == b"attr_accessor".as_slice() {
        Some(Access::Both)
    } else {
        None
    }
}

/// What a name is told from other names by.
fn name_kind(name: &[u8]) -> NameKind
    ensures { result ≡ name_kind name.now }
{
    if is_marked(name) {
        return NameKind::Marked;
    }
    match accessor_named(name) {
        Some(access) => NameKind::Accessor(access),
        None => NameKind::Plain,
    }
}

/// What the name of a constant is before a program sets it.
fn naming(name: &[u8]) -> Naming
    ensures { result ≡ naming_of (class_named name.now) }
{
    match BuiltInClass::named(name) {
        Some(BuiltInClass::Ractor) => Naming::Ractor,
        Some(_) => Naming::Class,
        None => Naming::Free,
    }
}

/// The names and the texts that have come, each with its number.
#[derive(Drop)]
pub(crate) struct Numbering<'s> {
    pub names: IndexSet<&'s [u8]>,
    pub texts: Vec<Vec<u8>>,
    /// Numbers of names that came lately: most names are found by one of them, with no look into the table.
    recent: [u32; 64],
}

/// Where the number of a name is kept that came lately.
#[inline(always)]
fn recent_place(name: &[u8]) -> usize
    ensures { result < 64 }
{
    match name {
        [first, .., last] => (usize::from(*first) * 5 + usize::from(*last) + name.len() % 64) % 64,
        [only] => usize::from(*only) % 64,
        [] => 0,
    }
}

/// Whether these are the same bytes. Names are short, so that it goes from byte to byte.
#[inline(always)]
fn are_same(one: &[u8], other: &[u8]) -> bool
    ensures { IsTrue result → one.now ≡ other.now }
{
    if one.len() != other.len() {
        return false;
    }
    for i in 0..one.len() {
        if one[i] != other[i] {
            return false;
        }
    }
    true
}

/// How many bytes stand before the first quote, where each of them stands for itself.
#[inline(always)]
fn plain_length(bytes: &[u8]) -> Option<usize>
    ensures within { IfSome result (λ n. n ≤ length bytes.now) }
    ensures plain { IfSome result (λ n. text_body bytes.now false ≡ take n bytes.now) }
{
    for i in 0..bytes.len() {
        let b = bytes[i];
        if b == b'"' {
            return Some(i);
        }
        if b == b'\\' || b == b'#' || b == b'\r' {
            return None;
        }
    }
    None
}

/// The text that a token stands for. Where nothing in it is to be replaced, its bytes are copied at once.
#[inline(always)]
fn contents(alloc: Global, source: &[u8], token: Token) -> Result<Vec<u8>, AllocError>
    ensures { IfOk result (λ t. t.items ≡ contents_of (word_of source.now token)) }
{
    if let [b'"', body @ ..] = word(source, token)
        && let Some(size) = plain_length(body)
    {
        return Vec::from_slice(alloc, &body[..size]);
    }
    text_contents(alloc, source, token)
}

/// The number that a token spells. Most numbers are a digit.
#[inline(always)]
fn spelled(source: &[u8], token: Token) -> Option<u64>
    ensures { result ≡ int_value_of (word_of source.now token) }
{
    match word(source, token) {
        [digit] if b'0' <= *digit && *digit <= b'9' => Some(u64::from(*digit - b'0')),
        _ => int_value(source, token),
    }
}

/// A count as a number.
#[inline(always)]
pub(crate) fn number(count: usize) -> Result<u32, Storage>
    ensures { IfOk result (λ n. n ≡ count) }
{
    match u32::try_from(count) {
        Ok(number) => Ok(number),
        Err(_) => Err(Storage::Slots),
    }
}

impl<'s> Numbering<'s> {
    ghost use Rattle.rr_parser.specs.Numbering.{names_of, texts_held, with_text_of};

    /// The number of a name, by the table.
    #[inline(never)]
    fn looked_up(&mut self, name: &'s [u8]) -> Result<Sym, Storage>
        ensures names { OnOk result (names_of self.new ≡ with_name (names_of self.old) name.now) }
        ensures number { IfOk result (λ x. x ≡ number_of (names_of self.old) name.now) }
        ensures texts { self.new.texts.items ≡ self.old.texts.items }
    {
        let (place, _) = self.names.insert_full(name)?;
        Ok(Sym(number(place)?))
    }

    /// Whether the table has this name under this number.
    #[inline(always)]
    fn has(&self, number: u32, name: &[u8]) -> bool
        ensures known { IsTrue result → with_name (names_of self.now) name.now ≡ names_of self.now }
        ensures number { IsTrue result → number_of (names_of self.now) name.now ≡ record { 0 = number } }
    {
        let index = number as usize;
        index < self.names.len() && are_same(self.names[index], name)
    }

    fn name(&mut self, name: &'s [u8]) -> Result<Sym, Storage>
        ensures names { OnOk result (names_of self.new ≡ with_name (names_of self.old) name.now) }
        ensures number { IfOk result (λ x. x ≡ number_of (names_of self.old) name.now) }
        ensures texts { self.new.texts.items ≡ self.old.texts.items }
    {
        let place = recent_place(name);
        let recent = self.recent[place];
        if self.has(recent, name) {
            return Ok(Sym(recent));
        }
        let number = self.looked_up(name)?;
        self.recent[place] = number.0;
        Ok(number)
    }

    /// The number of the text, or of the piece of one, that a token stands for.
    #[inline(always)]
    fn text(&mut self, alloc: Global, source: &[u8], token: Token) -> Result<u32, Storage>
        ensures texts { OnOk result (texts_held self.new ≡ texts_held self.old ++ contents_of (word_of source.now token) ∷ []) }
        ensures number { IfOk result (λ n. n ≡ length (texts_held self.old)) }
        ensures names { self.new.names.keys ≡ self.old.names.keys }
    {
        let place = number(self.texts.len())?;
        self.texts.push(contents(alloc, source, token)?)?;
        Ok(place)
    }

    /// What a token is as a word.
    fn kind(&mut self, alloc: Global, source: &'s [u8], token: Token) -> Result<WordKind, Storage>
        ensures kind { IfOk result (λ k. k ≡ word_kind source.now (names_of self.old) (length (texts_held self.old)) token token.kind) }
        ensures names { OnOk result (names_of self.new ≡ with_symbol source.now (names_of self.old) token token.kind) }
        ensures texts { OnOk result (texts_held self.new ≡ with_text source.now (texts_held self.old) token token.kind) }
    {
        Ok(match token.kind {
            Kind::Name => {
                let name = name(source, token);
                WordKind::Name(self.name(name)?, name_kind(name))
            }
            Kind::Constant => {
                let name = name(source, token);
                WordKind::Constant(self.name(name)?, naming(name))
            }
            Kind::InstanceVariable => WordKind::Field(self.name(name(source, token))?),
            Kind::GlobalVariable => WordKind::Global(self.name(name(source, token))?),
            Kind::Symbol => WordKind::Symbol(self.name(name(source, token))?),
            Kind::Label => WordKind::Label(self.name(name(source, token))?),
            Kind::Int => match spelled(source, token) {
                Some(value) => WordKind::Int(value),
                None => WordKind::Other,
            },
            Kind::Text | Kind::Single => WordKind::Text(self.text(alloc, source, token)?),
            Kind::Head => WordKind::TextHead(self.text(alloc, source, token)?),
            Kind::Middle => WordKind::TextMiddle(self.text(alloc, source, token)?),
            Kind::Tail => WordKind::TextTail(self.text(alloc, source, token)?),
            Kind::Keyword(keyword) => keyword_kind(keyword),
            Kind::Op(op) => op_kind(op),
            Kind::LineEnd => WordKind::Separator,
            Kind::OpenBrace => WordKind::OpenBrace,
            Kind::CloseBrace => WordKind::CloseBrace,
            _ => WordKind::Other,
        })
    }

    /// The word that begins the name of a method.
    fn method_name(&mut self, source: &'s [u8], method: MethodName) -> Result<WordKind, Storage>
        ensures kind { IfOk result (λ k. k ≡ WordKind.MethodName (number_of (names_of self.old) (token_name source.now method.token method.token.kind)) method.more) }
        ensures names { OnOk result (names_of self.new ≡ with_name (names_of self.old) (token_name source.now method.token method.token.kind)) }
        ensures texts { self.new.texts.items ≡ self.old.texts.items }
    {
        let name = self.name(name(source, method.token))?;
        Ok(WordKind::MethodName(name, method.more))
    }

    /// What a token is as a word, where it may be the first one of a method's name.
    #[inline(always)]
    fn word_kind(
        &mut self,
        alloc: Global,
        source: &'s [u8],
        token: Token,
        method: Option<MethodName>,
    ) -> Result<WordKind, Storage>
        ensures kind { IfOk result (λ k. k ≡ word_kind_of source.now (names_of self.old) (length (texts_held self.old)) token method) }
        ensures names { OnOk result (names_of self.new ≡ with_symbol_of source.now (names_of self.old) token method) }
        ensures texts { OnOk result (texts_held self.new ≡ with_text_of source.now (texts_held self.old) token method) }
    {
        match method {
            Some(method) => self.method_name(source, method),
            None => self.kind(alloc, source, token),
        }
    }
}

fn symbols(alloc: Global, names: &IndexSet<&[u8]>) -> Result<Vec<Vec<u8>>, Storage>
    ensures { IfOk result (λ v. map (λ s. s.items) v.items ≡ map (λ k. k.now) names.now.keys) }
{
    let mut symbols = Vec::new(alloc);
    for i in 0..names.len() {
        let name = names[i];
        symbols.push(Vec::from_slice(alloc, name)?)?;
    }
    Ok(symbols)
}

/// The words of the tokens.
pub(crate) fn read_words(alloc: Global, source: &[u8], tokens: &[Token]) -> Result<Words, Storage>
    ensures words { IfOk result (λ w. w.words.items ≡ words_of source.now tokens.now) }
    ensures symbols { IfOk result (λ w. map (λ s. s.items) w.symbols.items ≡ symbols_of source.now tokens.now) }
    ensures texts { IfOk result (λ w. map (λ s. s.items) w.texts.items ≡ texts_of source.now tokens.now) }
    ensures classes { IfOk result (λ w. w.classes.items ≡ classes_of source.now tokens.now) }
{
    let mut numbering = Numbering {
        names: IndexSet::new(alloc),
        texts: Vec::new(alloc),
        recent: [0; 64],
    };
    let mut words = Vec::with_capacity(alloc, tokens.len())?;
    let mut behind_def = false;
    let mut with_class = false;
    let mut left = tokens;
    while let Some((token, rest)) = left.split_first() {
        let method = method_name_at(behind_def, *token, rest);
        let kind = numbering.word_kind(alloc, source, *token, method)?;
        with_class = is_class_among(with_class, kind);
        words.push_reserved(Word {
            kind,
            blank: token.blank,
        });
        behind_def = is_def(token.kind);
        left = rest;
    }
    let symbols = symbols(alloc, &numbering.names)?;
    let Numbering {
        names: _,
        texts,
        recent: _,
    } = numbering;
    let Opened { words, classes } = told(alloc, &symbols, words, with_class)?;
    Ok(Words {
        words,
        symbols,
        texts,
        classes,
    })
}
