//! Worked examples: what the outermost block of a source uses from outside.

use rr_base::{Fault, Sym};
use rr_isolation::{isolate, outer_names};
use rr_lexer::lex;
use rr_parser::parse;
use rr_tree::{BlockId, Node, Program};
use std::alloc::{AllocError, Global};
use std::process::Abort;
use std::test::Fail;

/// The program of a source.
fn read(alloc: Global, source: &[u8]) -> Result<Program, Fault> {
    let tokens = lex(alloc, source)?;
    parse(alloc, source, &tokens)
}

/// The last block of a program, which stands in no other one.
fn last_block(program: &Program) -> BlockId {
    let count = u32::try_from(program.nodes.len()).unwrap_or(u32::MAX);
    let mut last = 0;
    for number in 0..count {
        if matches!(program.node(number), Node::Block { .. }) {
            last = number;
        }
    }
    last
}

/// Names as a message has them.
fn joined(alloc: Global, program: &Program, names: &[Sym]) -> Result<String, AllocError> {
    let mut text = String::new(alloc);
    for name in names {
        if !text.is_empty() {
            text.push_str(", ")?;
        }
        text.push_str(str::from_utf8(program.symbol_bytes(*name)).unwrap_or("?"))?;
    }
    Ok(text)
}

/// The outer names of a block, in parentheses.
fn shown_names(alloc: Global, program: &Program, block: BlockId) -> Result<String, AllocError> {
    match outer_names(alloc, program, block) {
        Ok(names) => {
            let text = joined(alloc, program, &names)?;
            format!(in alloc; "({text})")
        }
        Err(_) => Err(AllocError),
    }
}

/// What `isolate` answers.
fn shown_answer(alloc: Global, program: &Program, block: BlockId) -> Result<String, AllocError> {
    match isolate(alloc, program, block) {
        Ok(isolated) if isolated.block() == block => String::from_str(alloc, "isolated"),
        Ok(_) => String::from_str(alloc, "another block"),
        Err(Fault::UsesOuter(names)) => joined(alloc, program, &names),
        Err(Fault::UsesYield) => String::from_str(alloc, "yield"),
        Err(_) => Err(AllocError),
    }
}

/// Both of the last block of a source.
fn shown(alloc: Global, source: &[u8]) -> Result<String, AllocError> {
    match read(alloc, source) {
        Ok(program) => {
            let block = last_block(&program);
            let names = shown_names(alloc, &program, block)?;
            let answer = shown_answer(alloc, &program, block)?;
            format!(in alloc; "{names} {answer}")
        }
        Err(fault) => format!(in alloc; "{fault:?}"),
    }
}

/// The bytes of a row's source, in which `^22` stands for a quotation mark.
fn source_of(alloc: Global, row: &str) -> Result<Vec<u8>, AllocError> {
    let mut pieces = row.split("^22");
    let mut source = pieces.next().unwrap_or("").as_bytes().to_vec(alloc)?;
    for piece in pieces {
        source.push(b'"')?;
        source.extend_from_slice(piece.as_bytes())?;
    }
    Ok(source)
}

fn check_rows(rt: &impl Abort, alloc: Global, rows: &str) -> Result<(), AllocError> {
    for row in rows.lines() {
        let (source, want) = row.split_once(" -> ").unwrap_or((row, ""));
        let bytes = source_of(alloc, source)?;
        assert_eq!(rt;
            shown(alloc, bytes.as_slice())?.as_str(),
            want,
            "at {source}"
        );
    }
    Ok(())
}

/// Sources, with the outer names of their outermost block and whether a ractor can have it.
const BLOCKS: &str = "\
f { } -> () isolated
f { 1 } -> () isolated
a = 1; f { a } -> (a) a
a = 1; b = 2; f { b + a } -> (b, a) b, a
a = 1; b = 2; f { |c| [c].each { |d| b = d + a } } -> (b, a) b, a
a = 1; f { |a| a } -> () isolated
a = 1; f { g { |a| a } } -> () isolated
a = 1; f { g { |a| a }; a } -> (a) a
f { a = 1; a } -> () isolated
f { a = 1; g { a } } -> () isolated
f { a = 1; g { h { a = 2 } } } -> () isolated
f { g { a = 1 }; a } -> () isolated
f { |x| g { |y| h { x + y } } } -> () isolated
a = 1; f { g { h { a } } } -> (a) a
a = 1; f { |x| g { |y| h { x + y + a } } } -> (a) a
a = 1; f { b(a, a); a } -> (a) a
a = 1; b = 2; f { b; a; b; a } -> (b, a) b, a
b = 1; a = 2; f { b; a } -> (b, a) b, a
a = 1; f { a = 2 } -> (a) a
a = 1; f { a += 2 } -> (a) a
a = 1; f { a ||= 2 } -> (a) a
a = 1; f { a &&= 2 } -> (a) a
a = 1; f { a <<= 2 } -> (a) a
a = 1; b = 2; f { a = b } -> (a, b) a, b
a = 1; b = 2; f { a += b } -> (a, b) a, b
e = 1; f { begin; g; rescue => e; h; end } -> (e) e
f { begin; g; rescue => e; e; end } -> () isolated
a = 1; f { begin; a; rescue; 2; ensure; 3; end } -> (a) a
a = 1; b = 2; f { b if a } -> (b, a) b, a
a = 1; b = 2; f { b unless a } -> (b, a) b, a
a = 1; b = 2; f { b while a } -> (b, a) b, a
a = 1; b = 2; f { b until a } -> (b, a) b, a
a = 1; b = 2; f { if b then 1 elsif a then 2 end } -> (b, a) b, a
r = f { r = 1 } -> (r) r
a = 1; f { ^22x#{a}^22 } -> (a) a
a = 1; f { [a] } -> (a) a
a = 1; f { { b: a } } -> (a) a
a = 1; f { g *a } -> (a) a
a = 1; f { a[0] } -> (a) a
a = 1; f { g[0] = a } -> (a) a
a = 1; f { g.h = a } -> (a) a
a = 1; f { @x = a } -> (a) a
a = 1; f { next a } -> (a) a
a = 1; f { break a } -> (a) a
a = 1; f { not a } -> (a) a
a = 1; f { -a } -> (a) a
a = 1; f { 1 ? 2 : a } -> (a) a
def g; a = 1; a; end; f { g } -> () isolated
f { self; @x; g } -> () isolated
def f; g { yield }; end -> () yield
def f; g { h { yield } }; end -> () yield
def f; g { super }; end -> () yield
def f; g { h { super() } }; end -> () yield
def f; yield; g { 1 }; end -> () isolated
def f a; g { yield a }; end -> (a) a
def f a; g { yield; h { a } }; end -> (a) a
def f a; g { super; a }; end -> (a) a
def f a; g { return a }; end -> (a) a
";

#[test]
fn blocks_have_their_outer_names(rt: HostRuntime) -> Result<(), Fail> {
    check_rows(&rt, rt.alloc(), BLOCKS)?;
    Ok(())
}

// A hundred thousand uses of ten names, the last of which is used first.
#[test]
fn many_uses_have_ten_names(rt: HostRuntime) -> Result<(), Fail> {
    let alloc = rt.alloc();
    let mut source = String::new(alloc);
    for digit in '0'..='9' {
        source.push('a')?;
        source.push(digit)?;
        source.push_str(" = 0; ")?;
    }
    source.push_str("f { ")?;
    for _ in 0..10_000 {
        source.push_str("a9; a8; a7; a6; a5; a4; a3; a2; a1; a0; ")?;
    }
    source.push_str("}")?;
    let want = "(a9, a8, a7, a6, a5, a4, a3, a2, a1, a0) a9, a8, a7, a6, a5, a4, a3, a2, a1, a0";
    assert_eq!(rt; shown(alloc, source.as_bytes())?.as_str(), want);
    Ok(())
}

// A number that is no block's has no outer names, and nothing in it yields.
#[test]
fn a_number_of_no_block_has_no_names(rt: HostRuntime) -> Result<(), Fail> {
    let alloc = rt.alloc();
    let program = read(alloc, b"a = 1; f { a }; g(a)")?;
    for number in [program.root, 4_000_000_000] {
        assert_eq!(rt; shown_names(alloc, &program, number)?.as_str(), "()");
        assert_eq!(rt; shown_answer(alloc, &program, number)?.as_str(), "isolated");
    }
    Ok(())
}

// A refusal is `Memory`, and the next call answers. The gate refuses nothing: `rt try --test --fail-alloc N --
// a_refused_growth` does, for N from 1 on.
#[test]
fn a_refused_growth_leaves_the_program(rt: HostRuntime) -> Result<(), Fail> {
    let alloc = rt.alloc();
    let Ok(program) = read(alloc, b"a = 1; b = 2; f { b; a }") else {
        return Ok(());
    };
    let block = last_block(&program);
    let names = match outer_names(alloc, &program, block) {
        Ok(names) => names,
        Err(fault) => {
            assert_eq!(rt; fault, Fault::Memory);
            outer_names(alloc, &program, block)?
        }
    };
    assert_eq!(rt; names.len(), 2);
    match isolate(alloc, &program, block) {
        Err(Fault::UsesOuter(again)) => assert_eq!(rt; again, names),
        Err(Fault::Memory) => assert!(rt; isolate(alloc, &program, block).is_err()),
        _ => assert!(rt; false),
    }
    Ok(())
}
