//! Worked examples: definitions of methods, and what passes arguments on.

use crate::table::{shown_fault, source_of, split_row};
use rr_base::{Fault, LimitKind};
use rr_lexer::lex;
use rr_parser::parse;
use rr_tree::Program;
use std::alloc::{AllocError, Global};
use std::process::Abort;
use std::test::Fail;

/// The program of a source.
fn read(alloc: Global, source: &[u8]) -> Result<Program, Fault> {
    let tokens = lex(alloc, source)?;
    parse(alloc, source, &tokens)
}

/// The nodes of a program, and behind a bar the numbers of its definitions.
fn shown_program(alloc: Global, program: &Program) -> Result<String, AllocError> {
    let mut text = String::new(alloc);
    for node in &program.nodes {
        if !text.is_empty() {
            text.push_str(", ")?;
        }
        let one = format!(in alloc; "{node:?}")?;
        text.push_str(one.as_str())?;
    }
    text.push_str(" |")?;
    for id in &program.definitions {
        let one = format!(in alloc; " {id}")?;
        text.push_str(one.as_str())?;
    }
    Ok(text)
}

/// The same of a source, or its fault.
fn shown(alloc: Global, source: &[u8]) -> Result<String, AllocError> {
    match read(alloc, source) {
        Ok(program) => shown_program(alloc, &program),
        Err(fault) => shown_fault(alloc, &fault),
    }
}

/// Sources with their nodes and definitions.
const SHAPES: &str = "\
1 -> Int(1), Item(0), Sequence { first: 1, count: 1 } |
def f; end -> Sequence { first: 0, count: 0 }, Method { name: Sym(0), scope: 1, parameters: 0, size: 0, body: 0 }, Sequence { first: 2, count: 0 } | 1
;^ndef a?()^nend^n; -> Sequence { first: 0, count: 0 }, Method { name: Sym(0), scope: 1, parameters: 0, size: 0, body: 0 }, Sequence { first: 2, count: 0 } | 1
def f(a, b); c = a; c; end; f 1, 2 -> Local { depth: 0, slot: 0, name: Sym(1), behind: 9 }, Assign { depth: 0, slot: 2, name: Sym(3), behind: 11, value: 0 }, Local { depth: 0, slot: 2, name: Sym(3), behind: 7 }, Item(1), Item(2), Sequence { first: 3, count: 2 }, Method { name: Sym(0), scope: 1, parameters: 2, size: 3, body: 5 }, Int(1), Int(2), Item(7), Item(8), Call { name: Sym(0), first: 9, count: 2, site: 0 }, Item(11), Sequence { first: 12, count: 1 } | 6
x = 1; def f; x; end; x -> Int(1), Assign { depth: 0, slot: 0, name: Sym(0), behind: 11, value: 0 }, Bare { name: Sym(0), site: 0 }, Item(2), Sequence { first: 3, count: 1 }, Method { name: Sym(1), scope: 1, parameters: 0, size: 0, body: 4 }, Local { depth: 0, slot: 0, name: Sym(0), behind: 0 }, Item(1), Item(6), Sequence { first: 7, count: 2 } | 5
def f x; end; x -> Sequence { first: 0, count: 0 }, Method { name: Sym(0), scope: 1, parameters: 1, size: 1, body: 0 }, Bare { name: Sym(1), site: 0 }, Item(2), Sequence { first: 3, count: 1 } | 1
def f a^nyield a^nend -> Local { depth: 0, slot: 0, name: Sym(1), behind: 2 }, Item(0), Yield { first: 1, count: 1 }, Item(2), Sequence { first: 3, count: 1 }, Method { name: Sym(0), scope: 1, parameters: 1, size: 1, body: 4 }, Sequence { first: 6, count: 0 } | 5
def f; yield; yield(); yield(1); yield 1, 2; end -> Yield { first: 0, count: 0 }, Yield { first: 1, count: 0 }, Int(1), Item(2), Yield { first: 3, count: 1 }, Int(1), Int(2), Item(5), Item(6), Yield { first: 7, count: 2 }, Item(0), Item(1), Item(4), Item(9), Sequence { first: 10, count: 4 }, Method { name: Sym(0), scope: 1, parameters: 0, size: 0, body: 14 }, Sequence { first: 16, count: 0 } | 15
def f; super; super(); super 1; end -> ForwardingSuper, Super { first: 1, count: 0 }, Int(1), Item(2), Super { first: 3, count: 1 }, Item(0), Item(1), Item(4), Sequence { first: 5, count: 3 }, Method { name: Sym(0), scope: 1, parameters: 0, size: 0, body: 8 }, Sequence { first: 10, count: 0 } | 9
def f; g { yield }; end -> Call { name: Sym(1), first: 0, count: 0, site: 0 }, Yield { first: 1, count: 0 }, Item(1), Sequence { first: 2, count: 1 }, Block { scope: 2, parameters: 0, size: 0, body: 3 }, WithBlock(0, 4), Item(5), Sequence { first: 6, count: 1 }, Method { name: Sym(0), scope: 1, parameters: 0, size: 0, body: 7 }, Sequence { first: 9, count: 0 } | 8
1; def f; 2; end; 3; def g; end; f { 4 } -> Int(1), Int(2), Item(1), Sequence { first: 2, count: 1 }, Method { name: Sym(0), scope: 1, parameters: 0, size: 0, body: 3 }, Int(3), Sequence { first: 6, count: 0 }, Method { name: Sym(1), scope: 2, parameters: 0, size: 0, body: 6 }, Call { name: Sym(0), first: 8, count: 0, site: 0 }, Int(4), Item(9), Sequence { first: 10, count: 1 }, Block { scope: 3, parameters: 0, size: 0, body: 11 }, WithBlock(8, 12), Item(0), Item(5), Item(13), Sequence { first: 14, count: 3 } | 4 7
def f; puts yield; end -> Yield { first: 0, count: 0 }, Item(0), Call { name: Sym(1), first: 1, count: 1, site: 0 }, Item(2), Sequence { first: 3, count: 1 }, Method { name: Sym(0), scope: 1, parameters: 0, size: 0, body: 4 }, Sequence { first: 6, count: 0 } | 5
def f; yield *a; end -> Bare { name: Sym(1), site: 0 }, Splat(0), Item(1), Yield { first: 2, count: 1 }, Item(3), Sequence { first: 4, count: 1 }, Method { name: Sym(0), scope: 1, parameters: 0, size: 0, body: 5 }, Sequence { first: 7, count: 0 } | 6
def f; puts yield 1; end -> Int(1), Item(0), Yield { first: 1, count: 1 }, Item(2), Call { name: Sym(1), first: 3, count: 1, site: 0 }, Item(4), Sequence { first: 5, count: 1 }, Method { name: Sym(0), scope: 1, parameters: 0, size: 0, body: 6 }, Sequence { first: 8, count: 0 } | 7
def f; yield -1; end -> Int(-1), Item(0), Yield { first: 1, count: 1 }, Item(2), Sequence { first: 3, count: 1 }, Method { name: Sym(0), scope: 1, parameters: 0, size: 0, body: 4 }, Sequence { first: 6, count: 0 } | 5
def f; yield - 1; end -> Yield { first: 0, count: 0 }, Int(1), Binary(Subtract, 0, 1), Item(2), Sequence { first: 3, count: 1 }, Method { name: Sym(0), scope: 1, parameters: 0, size: 0, body: 4 }, Sequence { first: 6, count: 0 } | 5
def f; super [1]; end -> Int(1), Item(0), Array { first: 1, count: 1 }, Item(2), Super { first: 3, count: 1 }, Item(4), Sequence { first: 5, count: 1 }, Method { name: Sym(0), scope: 1, parameters: 0, size: 0, body: 6 }, Sequence { first: 8, count: 0 } | 7
def f; yield[0]; yield(1).b; end -> Yield { first: 0, count: 0 }, Int(0), Index(0, 1), Int(1), Item(3), Yield { first: 4, count: 1 }, Send { receiver: 5, name: Sym(1), first: 6, count: 0, site: 0 }, Item(2), Item(6), Sequence { first: 7, count: 2 }, Method { name: Sym(0), scope: 1, parameters: 0, size: 0, body: 9 }, Sequence { first: 11, count: 0 } | 10
def g; yield f 1 do end; end -> Int(1), Item(0), Call { name: Sym(1), first: 1, count: 1, site: 0 }, Sequence { first: 3, count: 0 }, Block { scope: 2, parameters: 0, size: 0, body: 3 }, WithBlock(2, 4), Item(5), Yield { first: 6, count: 1 }, Item(7), Sequence { first: 8, count: 1 }, Method { name: Sym(0), scope: 1, parameters: 0, size: 0, body: 9 }, Sequence { first: 11, count: 0 } | 10
def f; return 1; end -> Int(1), Return(0), Item(1), Sequence { first: 2, count: 1 }, Method { name: Sym(0), scope: 1, parameters: 0, size: 0, body: 3 }, Sequence { first: 5, count: 0 } | 4
while 1; break; end; def f; end -> Int(1), Nil, Break(1), Item(2), Sequence { first: 3, count: 1 }, Loop { until: false, condition: 0, body: 4 }, Sequence { first: 6, count: 0 }, Method { name: Sym(0), scope: 1, parameters: 0, size: 0, body: 6 }, Item(5), Sequence { first: 8, count: 1 } | 7
def f; 1; rescue; 2; end -> Int(1), Item(0), Sequence { first: 1, count: 1 }, Nil, Int(2), Item(4), Sequence { first: 5, count: 1 }, Clause { first: 7, count: 0, target: 3, body: 6 }, Nil, Item(7), Rescue { body: 2, first: 9, count: 1, otherwise: 8 }, Method { name: Sym(0), scope: 1, parameters: 0, size: 0, body: 10 }, Sequence { first: 12, count: 0 } | 11
def f; rescue A, Ractor::Error => e; e; else 2; ensure 3; end -> Sequence { first: 0, count: 0 }, Constant(Plain(Sym(1))), Constant(Ractor(Sym(3))), Local { depth: 0, slot: 0, name: Sym(4), behind: 10 }, Local { depth: 0, slot: 0, name: Sym(4), behind: 8 }, Item(4), Sequence { first: 5, count: 1 }, Item(1), Item(2), Clause { first: 7, count: 2, target: 3, body: 6 }, Int(2), Item(10), Sequence { first: 11, count: 1 }, Item(9), Rescue { body: 0, first: 13, count: 1, otherwise: 12 }, Int(3), Item(15), Sequence { first: 16, count: 1 }, Ensure(14, 17), Method { name: Sym(0), scope: 1, parameters: 0, size: 1, body: 18 }, Sequence { first: 20, count: 0 } | 19
def f; 1; ensure; 2; end -> Int(1), Item(0), Sequence { first: 1, count: 1 }, Int(2), Item(3), Sequence { first: 4, count: 1 }, Ensure(2, 5), Method { name: Sym(0), scope: 1, parameters: 0, size: 0, body: 6 }, Sequence { first: 8, count: 0 } | 7
def f^n1^nrescue A then 2^nrescue^n3^nend -> Int(1), Item(0), Sequence { first: 1, count: 1 }, Constant(Plain(Sym(1))), Nil, Int(2), Item(5), Sequence { first: 6, count: 1 }, Item(3), Clause { first: 8, count: 1, target: 4, body: 7 }, Nil, Int(3), Item(11), Sequence { first: 12, count: 1 }, Clause { first: 14, count: 0, target: 10, body: 13 }, Nil, Item(9), Item(14), Rescue { body: 2, first: 16, count: 2, otherwise: 15 }, Method { name: Sym(0), scope: 1, parameters: 0, size: 0, body: 18 }, Sequence { first: 20, count: 0 } | 19
def f(e); rescue => e; else; end -> Sequence { first: 0, count: 0 }, Local { depth: 0, slot: 0, name: Sym(1), behind: 4 }, Sequence { first: 2, count: 0 }, Clause { first: 3, count: 0, target: 1, body: 2 }, Sequence { first: 4, count: 0 }, Item(3), Rescue { body: 0, first: 5, count: 1, otherwise: 4 }, Method { name: Sym(0), scope: 1, parameters: 1, size: 1, body: 6 }, Sequence { first: 8, count: 0 } | 7
";

/// Sources that are refused.
const REFUSED: &str = "\
yield -> 1:1 unexpected token
super 1 -> 1:1 unexpected token
f { yield } -> 1:5 unexpected token
def f; end; yield -> 1:13 unexpected token
def f; break; end -> 1:8 unexpected token
while 1; def f; end; end -> 1:10 unexpected token
def f; def g; end; end -> 1:8 unexpected token
f { def g; end } -> 1:5 unexpected token
x = def f; end -> 1:5 unexpected token
def -> 1:4 unexpected end
def 1; end -> 1:5 unexpected token
def f -> 1:6 unexpected end
def f() 1 end -> 1:9 unexpected token
def f(a -> 1:8 unexpected end
def f(a,); end -> 1:9 unexpected token
def f(a?); end -> 1:7 unexpected token
def f(1); end -> 1:7 unexpected token
def f a b; end -> 1:9 unexpected token
def f a,; end -> 1:9 unexpected token
def f; 1 -> 1:9 unexpected end
def f; end 1 -> 1:12 unexpected token
def f; end if 1 -> 1:12 unexpected token
def f; yield 1 2; end -> 1:16 unexpected token
def f; 1 + yield 2; end -> 1:18 unexpected token
def f; yield { 1 }; end -> 1:14 unexpected token
def f; super() { 1 }; end -> 1:16 unexpected token
def f; yield 1 do end; end -> 1:16 unexpected token
def f; super 1 do end; end -> 1:16 unexpected token
def f; yield = 1; end -> 1:14 unexpected token
def f; else 1; end -> 1:8 unexpected token
def f; ensure; rescue; end -> 1:16 unexpected token
def f; ensure; else; end -> 1:16 unexpected token
def f; ensure; ensure; end -> 1:16 unexpected token
def f; rescue; else; else; end -> 1:22 unexpected token
def f; rescue; else; rescue; end -> 1:22 unexpected token
def f; rescue 5; end -> 1:15 unexpected token
def f; rescue a; end -> 1:15 unexpected token
def f; rescue A B; end -> 1:17 unexpected token
def f; rescue A,; end -> 1:17 unexpected token
def f; rescue A, b; end -> 1:18 unexpected token
def f; rescue A => 5; end -> 1:20 unexpected token
def f; rescue A => e f; end -> 1:22 unexpected token
def f; rescue => A; end -> 1:18 unexpected token
def f; rescue => a?; end -> 1:18 unexpected token
def f; rescue Ractor ::Error; end -> 1:22 left out
def f; rescue A::B; end -> 1:16 left out
def f; rescue -> 1:14 unexpected end
def f; rescue; -> 1:15 unexpected end
def f; ensure -> 1:14 unexpected end
";

pub fn check_rows(rt: &impl Abort, alloc: Global, rows: &str) -> Result<(), AllocError> {
    for row in rows.lines() {
        let (source, want) = split_row(row);
        let bytes = source_of(alloc, source)?;
        assert_eq!(rt;
            shown(alloc, bytes.as_slice())?.as_str(),
            want,
            "at {source}"
        );
    }
    Ok(())
}

#[test]
fn definitions_have_their_nodes(rt: HostRuntime) -> Result<(), Fail> {
    check_rows(&rt, rt.alloc(), SHAPES)?;
    Ok(())
}

#[test]
fn definitions_are_refused(rt: HostRuntime) -> Result<(), Fail> {
    check_rows(&rt, rt.alloc(), REFUSED)?;
    Ok(())
}

/// A method whose body is a number in so many brackets.
fn nested_in_a_method(alloc: Global, depth: usize) -> Result<Vec<u8>, AllocError> {
    let mut source = Vec::from_slice(alloc, b"def f; ")?;
    for _ in 0..depth {
        source.push(b'(')?;
    }
    source.push(b'1')?;
    for _ in 0..depth {
        source.push(b')')?;
    }
    source.extend_from_slice(b"; end")?;
    Ok(source)
}

#[test]
fn a_definition_nests(rt: HostRuntime) -> Result<(), Fail> {
    let fits = nested_in_a_method(rt.alloc(), 199)?;
    assert_eq!(rt; read(rt.alloc(), &fits)?.definitions.len(), 1);
    let deeper = nested_in_a_method(rt.alloc(), 200)?;
    assert!(rt;
        matches!(
            read(rt.alloc(), &deeper),
            Err(Fault::Limit(LimitKind::Nesting))
        )
    );
    Ok(())
}

#[test]
fn many_definitions(rt: HostRuntime) -> Result<(), Fail> {
    let mut lines = Vec::from_slice(rt.alloc(), b"a = 0\n")?;
    for _ in 0..20_000 {
        lines.extend_from_slice(b"def f(b)\na = b\nend\n")?;
    }
    assert_eq!(rt; read(rt.alloc(), &lines)?.definitions.len(), 20_000);
    Ok(())
}
