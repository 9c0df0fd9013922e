//! Worked examples: methods with the names of operators and setters.

use crate::table::{shown_fault, source_of, split_row};
use rr_base::Fault;
use rr_lexer::lex;
use rr_parser::parse;
use rr_tree::{Node, Program};
use std::alloc::{AllocError, Global};
use std::process::Abort;
use std::test::Fail;

/// The program of a source.
fn read(alloc: Global, source: &[u8]) -> Result<Program, Fault> {
    let tokens = lex(alloc, source)?;
    parse(alloc, source, &tokens)
}

/// The names of a program, and behind a bar each method with the number of its parameters.
fn shown_program(alloc: Global, program: &Program) -> Result<String, AllocError> {
    let mut text = String::new(alloc);
    for symbol in &program.symbols {
        text.push_str(str::from_utf8(symbol).unwrap_or("?"))?;
        text.push_str(" ")?;
    }
    text.push_str("|")?;
    for id in &program.definitions {
        if let Node::Method {
            name,
            parameters,
            ..
        } = program.node(*id)
        {
            let bytes = program.symbol_bytes(name);
            let spelled = str::from_utf8(bytes).unwrap_or("?");
            let one = format!(in alloc; " {spelled}:{parameters}")?;
            text.push_str(one.as_str())?;
        }
    }
    Ok(text)
}

/// The same of a source, or its fault.
fn shown(alloc: Global, source: &[u8]) -> Result<String, AllocError> {
    match read(alloc, source) {
        Ok(program) => shown_program(alloc, &program),
        Err(fault) => shown_fault(alloc, &fault),
    }
}

/// Sources with their names and methods.
const NAMES: &str = "\
def +(o); end; def - o; end; def *(o)^nend -> + o - * | +:1 -:1 *:1
def /(o); end; def %(o); end; def <<(o); end -> / o % << | /:1 %:1 <<:1
def ==(o); end; def <=>(o); end -> == o <=> | ==:1 <=>:1
def <(o); end; def <=(o); end; def >(o); end; def >=(o); end -> < o <= > >= | <:1 <=:1 >:1 >=:1
def +^n1^nend -> + | +:0
def ==; end -> == | ==:0
def x=(v); end -> x= v | x=:1
def x=(x); x; end; x -> x= x | x=:1
def x= v; end -> x= v | x=:1
def x=^nend -> x= | x=:0
def [](i); end -> [] i | []:1
def []^nend -> [] | []:0
def []=(i, v)^nend -> []= i v | []=:2
def []= i, v^nend -> []= i v | []=:2
def []; end; def []=; end; def x=; end; def x; end -> [] []= x= x | []:0 []=:0 x=:0 x:0
x = 1; def x=(v); end; def x; end -> x x= v | x=:1 x:0
def a?; end; def a!; end; def a=(v); end -> a? a! a= v | a?:0 a!:0 a=:1
a.def == b -> a def b |
a.def [] -> a def |
:x; def x=(v); end; x = 1 -> x x= v | x=:1
";

/// Sources that are refused.
const REFUSED: &str = "\
def !=(o); end -> 1:5 unexpected token
def !; end -> 1:5 unexpected token
def &&(o); end -> 1:5 unexpected token
def = v; end -> 1:5 unexpected token
def +=(o); end -> 1:5 unexpected token
def x =(v); end -> 1:7 unexpected token
def x==(v); end -> 1:6 unexpected token
def x+=(v); end -> 1:6 unexpected token
def [ ](i); end -> 1:5 unexpected token
def [] =(i); end -> 1:8 unexpected token
def [](i)= v; end -> 1:10 unexpected token
def []==(i); end -> 1:7 unexpected token
def [a](i); end -> 1:5 unexpected token
def [ -> 1:5 unexpected token
def ](i); end -> 1:5 unexpected token
def A; end -> 1:5 unexpected token
def A=(v); end -> 1:5 unexpected token
def @a=(v); end -> 1:5 unexpected token
def a?=(v); end -> 1:6 unexpected token
def a? =(v); end -> 1:8 unexpected token
def if; end -> 1:5 unexpected token
def self; end -> 1:5 unexpected token
def^nx=(v); end -> 1:4 unexpected token
def x= -> 1:7 unexpected end
def []= -> 1:8 unexpected end
def == -> 1:7 unexpected end
def x=(v) 1 end -> 1:11 unexpected token
def x=(v); end; x=; 1 -> 1:19 unexpected token
";

fn check_rows(rt: &impl Abort, alloc: Global, rows: &str) -> Result<(), AllocError> {
    for row in rows.lines() {
        let (source, want) = split_row(row);
        let bytes = source_of(alloc, source)?;
        assert_eq!(rt;
            shown(alloc, bytes.as_slice())?.as_str(),
            want,
            "at {source}"
        );
    }
    Ok(())
}

#[test]
fn methods_have_their_names(rt: HostRuntime) -> Result<(), Fail> {
    check_rows(&rt, rt.alloc(), NAMES)?;
    Ok(())
}

#[test]
fn names_of_methods_are_refused(rt: HostRuntime) -> Result<(), Fail> {
    check_rows(&rt, rt.alloc(), REFUSED)?;
    Ok(())
}
