//! Short sources: all lists of a few pieces, and lists by chance.

use rr_lexer::{Token, lex};
use std::alloc::{AllocError, Global};
use std::test::Fail;

/// What short lists are made of, with single blanks between; the empty one makes lists still shorter.
const FEW: &str = " a f 1 - * = . , ( ) [ ] { } \n if do return end";

/// How many ways there are to put a piece, with a blank before it and without.
const WAYS: usize = 40;

/// What lists by chance are made of; what is wanted more often stands there more often.
const PIECES: &str =
    "a a b b f f c? 1 2 't' :s k: @i $g A Ractor Object attr_reader :a :: + - - * * / = = = += ||= == ! < << <=> && \
    || | | ? : . . , , ; ( ( ) ) [ [ ] ] { } \n => \"#{ }\" and not or begin break class def do do else elsif end end ensure \
    if next rescue return self super then unless until while yield nil";

/// Accepted sources, with which the walk begins, each on a line.
const SEEDS: &str = "\
def f(a); a + 1; end
def f a, b; yield a; end
def a=(v); super; end
def []=(a, b); end
def <=> b; super(b) end
begin; a; rescue; 1; else 2; ensure 3; end
begin; rescue A, Ractor::A => f; f end
a, @i, A = b, a
a, b = f 1, 2
a = 1 if b unless f
1 while not b and f or 2
a = b += f 1 do |a| a end
a.b = f[1] ||= 2
a[1] <<= b ? f : 2
A = B ||= 1
a || b && f == 1 < 2 << 3
1 + 2 - 3 * 4 / 5 % -1
a.b *f, k: 1 do end
f a.b c.f 1, *a do end
return a[1].b k: 1 do end
f -1.b f, a.b
a b f, 1 => 2
return 1, *a
f { break 1 }
f { |a, b| next }
f(1, *a, k: 2,) { a }
[1, *a, k: 2,]
{ k: 1, 2 => 3, }
a.b(1) { |b| b }[2]
if a then b elsif f; 1 else 2 end
unless a; b else 1 end
while f do a = 1; break a end
until a; f do b end; end
\"#{a}t#{b; f}t\"
(a = 1; a)[2]
a = 1; a -1
a -1 + !b
a [1][2] - -1
-a.b(1)
!a ? :s : 't'
f do |a| begin; a; rescue; end end
f 1, (b do end) do end
return f 1 do end
while (f do end) do end
a ||= [$g, self, nil, true]
c? 1, @i = 2
f begin 1 end if 2
def f; return [yield 1]; end
class A; end; class A; def f; end; end
class A < TypeError; end; A
class A; attr_accessor :s, :a; def a; attr_reader; end; attr_writer :f; end
class B; end; class A < B; end
class A < Ractor::Error; end
a[1], A, b.c = 2, 3
a[0], a.b = f 1
a, b = a.f 1 do end";

/// The pieces of a text with single blanks between them.
fn pieces(alloc: Global, text: &'static str) -> Result<Vec<&'static str>, AllocError> {
    let mut pieces = Vec::new(alloc);
    for piece in text.split(' ') {
        pieces.push(piece)?;
    }
    Ok(pieces)
}

fn piece(pieces: &[&'static str], number: usize) -> &'static str {
    match pieces.get(number) {
        Some(piece) => *piece,
        None => "",
    }
}

fn copied(alloc: Global, sources: &[Vec<u8>], number: usize) -> Result<Vec<u8>, AllocError> {
    match sources.get(number) {
        Some(source) => source.as_slice().to_vec(alloc),
        None => Ok(Vec::new(alloc)),
    }
}

/// What short lists are made of.
pub fn few(alloc: Global) -> Result<Vec<&'static str>, AllocError> {
    pieces(alloc, FEW)
}

/// The list of this number, of so many pieces.
pub fn list(
    alloc: Global,
    few: &[&'static str],
    count: u32,
    number: usize,
) -> Result<Vec<u8>, AllocError> {
    let mut text = Vec::new(alloc);
    let mut rest = number;
    for _ in 0..count {
        if rest % 2 == 1 {
            text.push(b' ')?;
        }
        text.extend_from_slice(piece(few, rest % WAYS / 2).as_bytes())?;
        rest /= WAYS;
    }
    Ok(text)
}

/// What lists by chance are made of.
pub fn many(alloc: Global) -> Result<Vec<&'static str>, AllocError> {
    pieces(alloc, PIECES)
}

/// The accepted sources with which a walk begins.
pub fn seeds(alloc: Global) -> Result<Vec<Vec<u8>>, AllocError> {
    let mut accepted = Vec::new(alloc);
    for seed in SEEDS.lines() {
        accepted.push(seed.as_bytes().to_vec(alloc)?)?;
    }
    Ok(accepted)
}

/// Numbers by chance, always the same: a linear congruence of 64 bits, of which the upper half is used.
#[derive(Drop)]
pub struct Dice {
    pub state: u64,
}

impl Dice {
    pub fn below(&mut self, bound: usize) -> usize {
        self.state = self
            .state
            .wrapping_mul(6_364_136_223_846_793_005)
            .wrapping_add(1_442_695_040_888_963_407);
        let upper = (self.state >> 33) as usize;
        upper.checked_rem(bound).unwrap_or(0)
    }
}

/// Puts a piece by chance, maybe with a blank before it.
fn put(dice: &mut Dice, pieces: &[&'static str], text: &mut Vec<u8>) -> Result<(), AllocError> {
    if dice.below(2) == 0 {
        text.push(b' ')?;
    }
    let number = dice.below(pieces.len());
    text.extend_from_slice(piece(pieces, number).as_bytes())
}

/// Pieces by chance.
fn joined(alloc: Global, dice: &mut Dice, pieces: &[&'static str]) -> Result<Vec<u8>, AllocError> {
    let mut text = Vec::new(alloc);
    for _ in 0..dice.below(8).saturating_add(5) {
        put(dice, pieces, &mut text)?;
    }
    Ok(text)
}

/// A source in which up to three bytes go and a piece may come.
fn changed(
    alloc: Global,
    dice: &mut Dice,
    pieces: &[&'static str],
    source: &[u8],
) -> Result<Vec<u8>, AllocError> {
    let start = dice.below(source.len()).min(source.len());
    let mut text = source[..start].to_vec(alloc)?;
    if dice.below(4) != 0 {
        put(dice, pieces, &mut text)?;
    }
    let behind = &source[start..];
    let gone = dice.below(4).min(behind.len());
    text.extend_from_slice(&behind[gone..])?;
    Ok(text)
}

/// A source of 5 to 12 tokens, with its tokens: by chance alone, or an accepted one that was changed.
pub fn next(
    alloc: Global,
    dice: &mut Dice,
    pieces: &[&'static str],
    accepted: &[Vec<u8>],
) -> Result<(Vec<u8>, Vec<Token>), Fail> {
    for _ in 0..1_000 {
        let source = match dice.below(4) {
            0 => joined(alloc, dice, pieces)?,
            _ => {
                let old = copied(alloc, accepted, dice.below(accepted.len()))?;
                changed(alloc, dice, pieces, &old)?
            }
        };
        if let Ok(tokens) = lex(alloc, &source)
            && (5..13).contains(&tokens.len())
        {
            return Ok((source, tokens));
        }
    }
    Err("no source of 5 to 12 tokens")?
}

/// Keeps an accepted source in the place of the one of that number, or as a new one.
pub fn keep(accepted: &mut Vec<Vec<u8>>, number: usize, source: Vec<u8>) -> Result<(), AllocError> {
    match accepted.get_mut(number) {
        Some(old) => *old = source,
        None => accepted.push(source)?,
    }
    Ok(())
}
