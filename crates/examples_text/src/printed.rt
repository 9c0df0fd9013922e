//! Texts of arrays, hashes and exceptions, in each form.

use rr_base::{ClassId, Fault, RactorNo, Sym};
use rr_space::{Entries, Items, Key, Kind, Node, Raised, Ref, Space};
use rr_text::{Form, Text, text, text_within, write_text};
use rr_tree::Program;
use std::alloc::{AllocError, Global};
use std::process::Abort;
use std::test::Fail;

/// A program with one name.
pub fn program(alloc: Global) -> Result<Program, AllocError> {
    let mut symbols = Vec::new(alloc);
    symbols.push(b"name".to_vec(alloc)?)?;
    Ok(Program {
        nodes: Vec::new(alloc),
        root: 0,
        symbols,
        texts: Vec::new(alloc),
        freezes: false,
        definitions: Vec::new(alloc),
        classes: Vec::new(alloc),
        sites: 0,
    })
}

fn is(text: &Text, wanted: &str) -> bool {
    match text {
        Text::Bytes(bytes) => bytes.as_slice() == wanted.as_bytes(),
        Text::Deep => false,
        Text::Shell => false,
    }
}

fn writes(
    alloc: Global,
    space: &Space,
    value: Ref,
    form: Form,
    wanted: &str,
) -> Result<bool, Fault> {
    let program = program(alloc)?;
    let found = text(alloc, space, &program, value, form)?;
    Ok(is(&found, wanted) && is_behind(alloc, space, &program, value, form, wanted)?)
}

/// Whether the same is written behind other bytes.
fn is_behind(
    alloc: Global,
    space: &Space,
    program: &Program,
    value: Ref,
    form: Form,
    wanted: &str,
) -> Result<bool, Fault> {
    let mut out = b"before ".to_vec(alloc)?;
    let lack = write_text(alloc, space, program, value, form, &mut out)?;
    match out.as_slice().strip_prefix(b"before ".as_slice()) {
        Some(written) => Ok(lack.is_none() && written == wanted.as_bytes()),
        None => Ok(false),
    }
}

/// A value is written so. Nothing is answered, since each way out of a test is proved with all that was made before it.
fn check(rt: &impl Abort, alloc: Global, space: &Space, value: Ref, form: Form, wanted: &str) {
    let written = writes(alloc, space, value, form, wanted);
    assert!(rt; matches!(written, Ok(true)), "{wanted}");
}

fn letters(alloc: Global, space: &mut Space, bytes: &[u8]) -> Result<Ref, Fail> {
    Ok(space.alloc(Node::Text(bytes.to_vec(alloc)?))?)
}

fn exception(alloc: Global, space: &mut Space) -> Result<Ref, Fail> {
    let raised = Raised {
        message: Ref::Nil,
        cause: Ref::Nil,
        ractor: Ref::Nil,
        fields: Vec::new(alloc),
    };
    Ok(space.alloc(Node::Exception(ClassId::TYPE_ERROR, Box::new(alloc, raised)?))?)
}

#[test]
fn immediates_have_their_forms(rt: HostRuntime) {
    let space = Space::new(rt.alloc(), RactorNo(1), 10);
    check(&rt, rt.alloc(), &space, Ref::Nil, Form::Inspect, "nil");
    check(&rt, rt.alloc(), &space, Ref::Nil, Form::Puts, "\n");
    check(&rt, rt.alloc(), &space, Ref::Int(-12), Form::ToS, "-12");
    check(
        &rt,
        rt.alloc(),
        &space,
        Ref::Symbol(Sym(0)),
        Form::Inspect,
        ":name",
    );
    check(
        &rt,
        rt.alloc(),
        &space,
        Ref::Symbol(Sym(0)),
        Form::Puts,
        "name\n",
    );
    check(
        &rt,
        rt.alloc(),
        &space,
        Ref::Class(ClassId::STRING),
        Form::ToS,
        "String",
    );
    check(
        &rt,
        rt.alloc(),
        &space,
        Ref::Ractor(RactorNo(7)),
        Form::ToS,
        "#<Ractor:#7>",
    );
}

#[test]
fn an_array_is_written_in_each_form(rt: HostRuntime) -> Result<(), Fail> {
    let mut space = Space::new(rt.alloc(), RactorNo(1), 10);
    let empty = space.alloc(Node::Array(Items::new(rt.alloc())))?;
    let array = space.alloc(Node::Array(Items::two(rt.alloc(), Ref::Int(1), empty)))?;
    check(&rt, rt.alloc(), &space, array, Form::Inspect, "[1, []]");
    check(&rt, rt.alloc(), &space, array, Form::ToS, "[1, []]");
    check(&rt, rt.alloc(), &space, array, Form::Puts, "1\n\n");
    Ok(())
}

#[test]
fn an_array_is_written_so_deep(rt: HostRuntime) -> Result<(), Fail> {
    let program = program(rt.alloc())?;
    let mut space = Space::new(rt.alloc(), RactorNo(1), 10);
    let empty = space.alloc(Node::Array(Items::new(rt.alloc())))?;
    let array = space.alloc(Node::Array(Items::two(rt.alloc(), Ref::Int(1), empty)))?;
    let deep = text_within(rt.alloc(), &space, &program, 1, array, Form::Inspect)?;
    assert!(rt; matches!(deep, Text::Deep));
    let shallow = text_within(rt.alloc(), &space, &program, 1, array, Form::Puts)?;
    assert!(rt; is(&shallow, "1\n\n"));
    Ok(())
}

#[test]
fn an_array_stands_inside_itself(rt: HostRuntime) -> Result<(), Fail> {
    let mut space = Space::new(rt.alloc(), RactorNo(1), 10);
    let array = space.alloc(Node::Array(Items::one(rt.alloc(), Ref::True)))?;
    if space.can_write(array) && space.kind_of(array) == Kind::Array && space.len() > 0 {
        space.push_element(array, Ref::Local(0))?;
    }
    check(
        &rt,
        rt.alloc(),
        &space,
        array,
        Form::Inspect,
        "[true, [...]]",
    );
    check(&rt, rt.alloc(), &space, array, Form::Puts, "true\n[...]\n");
    Ok(())
}

#[test]
fn texts_are_escaped(rt: HostRuntime) -> Result<(), Fail> {
    let mut space = Space::new(rt.alloc(), RactorNo(1), 10);
    let text = letters(rt.alloc(), &mut space, "a\"#{é# \n".as_bytes())?;
    check(
        &rt,
        rt.alloc(),
        &space,
        text,
        Form::Inspect,
        "\"a\\\"\\#{é# \\n\"",
    );
    check(&rt, rt.alloc(), &space, text, Form::Puts, "a\"#{é# \n");
    Ok(())
}

#[test]
fn a_hash_has_its_keys(rt: HostRuntime) -> Result<(), Fail> {
    let mut space = Space::new(rt.alloc(), RactorNo(1), 10);
    let mut entries = Entries::new(rt.alloc());
    entries.insert(Key::Symbol(0), (Ref::Symbol(Sym(0)), Ref::Int(1)))?;
    entries.insert(Key::Int(2), (Ref::Int(2), Ref::Nil))?;
    let hash = space.alloc(Node::Hash(Box::new(rt.alloc(), entries)?))?;
    check(
        &rt,
        rt.alloc(),
        &space,
        hash,
        Form::Puts,
        "{name: 1, 2 => nil}\n",
    );
    Ok(())
}

#[test]
fn an_exception_has_its_message(rt: HostRuntime) -> Result<(), Fail> {
    let mut space = Space::new(rt.alloc(), RactorNo(1), 10);
    let bare = exception(rt.alloc(), &mut space)?;
    check(&rt, rt.alloc(), &space, bare, Form::ToS, "TypeError");
    check(
        &rt,
        rt.alloc(),
        &space,
        bare,
        Form::Inspect,
        "#<TypeError: TypeError>",
    );
    Ok(())
}
