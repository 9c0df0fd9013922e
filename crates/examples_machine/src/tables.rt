//! What another ractor than the main one does, row by row.

use crate::rows::{Given, check_rows};
use std::test::Fail;

const PLAIN: Given = Given {
    constant: None,
    arguments: 0,
    frames: 100,
};

const GLOBALS: &str = "Ractor.new { $g } => global $g (Ractor::IsolationError)
Ractor.new { $g = 1 } => global $g (Ractor::IsolationError)
Ractor.new { $g += 1 } => global $g (Ractor::IsolationError)
Ractor.new { $g ||= 1 } => global $g (Ractor::IsolationError)
Ractor.new { $g &&= 1 } => global $g (Ractor::IsolationError)
Ractor.new { a, $g = 1 } => global $g (Ractor::IsolationError)
def f; $g; end; Ractor.new { f } => global $g (Ractor::IsolationError)
def f; $g = 1; end; Ractor.new { 1.times { f } } => global $g (Ractor::IsolationError)
Ractor.new { begin; $g = 1; rescue Ractor::IsolationError; 2; end } => 2";

#[test]
fn no_other_ractor_uses_global_variables(rt: HostRuntime) -> Result<(), Fail> {
    check_rows(&rt, rt.alloc(), GLOBALS, PLAIN)
}

const OWN: &str = "Ractor.new { A } => constant A is not shareable (Ractor::IsolationError)
Ractor.new { A ||= 1 } => constant A is not shareable (Ractor::IsolationError)
Ractor.new { A &&= 1 } => constant A is not shareable (Ractor::IsolationError)
Ractor.new { A += 1 } => constant A is not shareable (Ractor::IsolationError)
def f; A; end; Ractor.new { f } => constant A is not shareable (Ractor::IsolationError)
Ractor.new { begin; A; rescue Ractor::IsolationError; 2; end } => 2";

#[test]
fn a_value_of_the_main_ractor_is_not_read(rt: HostRuntime) -> Result<(), Fail> {
    let given = Given {
        constant: Some(true),
        ..PLAIN
    };
    check_rows(&rt, rt.alloc(), OWN, given)
}

const SHARED: &str = "Ractor.new { A } => 3
Ractor.new { A + 1 } => 4
Ractor.new { A ||= 1 } => 3
Ractor.new { A &&= 1 } => 1
Ractor.new { A -= 1 } => 2
Ractor.new { A = 1; 2 } => 2
def f(a); A + a; end; Ractor.new { f 1 } => 4";

#[test]
fn a_shareable_value_is_read(rt: HostRuntime) -> Result<(), Fail> {
    let given = Given {
        constant: Some(false),
        ..PLAIN
    };
    check_rows(&rt, rt.alloc(), SHARED, given)
}

const UNSET: &str = "Ractor.new { A } => uninitialized constant A (NameError)
Ractor.new { A &&= 1 } => uninitialized constant A (NameError)
Ractor.new { A += 1 } => uninitialized constant A (NameError)
Ractor.new { A ||= 3 } => 3
Ractor.new { String } => a class
Ractor.new { Ractor::IsolationError } => a class
class C; end; Ractor.new { C } => a class";

#[test]
fn a_constant_that_was_never_set_is_a_class_or_missing(rt: HostRuntime) -> Result<(), Fail> {
    check_rows(&rt, rt.alloc(), UNSET, PLAIN)
}

const JUMPS: &str = "Ractor.new { break } => jump (LocalJumpError)
Ractor.new { break 1 } => jump (LocalJumpError)
Ractor.new { if true; break; end; 2 } => jump (LocalJumpError)
Ractor.new { begin; break; ensure; 2; end } => jump (LocalJumpError)
Ractor.new { begin; break; rescue LocalJumpError; 2; end } => jump (LocalJumpError)
Ractor.new { return } => jump (LocalJumpError)
Ractor.new { return 1 } => jump (LocalJumpError)
Ractor.new { 3.times { return 1 } } => jump (LocalJumpError)
def f; yield; end; Ractor.new { f { return 1 }; 2 } => jump (LocalJumpError)
def f; Ractor.new { return 1 }; end => jump (LocalJumpError)
Ractor.new { begin; return 1; rescue LocalJumpError; 3; end } => 3";

#[test]
fn a_jump_out_of_the_block_raises(rt: HostRuntime) -> Result<(), Fail> {
    check_rows(&rt, rt.alloc(), JUMPS, PLAIN)
}

const INSIDE: &str = "Ractor.new { 3 } => 3
Ractor.new { } => nil
Ractor.new { next } => nil
Ractor.new { next 3; 4 } => 3
Ractor.new { 5.times { break 3 } } => 3
Ractor.new { loop { break 3 } } => 3
Ractor.new { while true; break; end; 3 } => 3
def f; yield; end; Ractor.new { f { break 3 } } => 3
def f; return 3; end; Ractor.new { f } => 3
def f; 4.times { return 3 }; end; Ractor.new { x = f; x } => 3
def g; a = 1; a; end; Ractor.new { a = 2; g } => 1
def g; a = 1; a; end; Ractor.new { a = 2; g; a } => 2
Ractor.new { self } => the second ractor
def f; self; end; Ractor.new { f } => the second ractor
def f; yield; end; Ractor.new { f { self } } => the second ractor";

#[test]
fn what_stays_in_the_block_has_its_value(rt: HostRuntime) -> Result<(), Fail> {
    check_rows(&rt, rt.alloc(), INSIDE, PLAIN)
}

const ARGUMENTS: &str = "Ractor.new { |a| a } => 1
Ractor.new { |a, b| a + b } => 3
Ractor.new { |a, b, c| c || b } => 2
Ractor.new { |a, b| 2.times { |i| b = b + i }; b } => 3
Ractor.new { 4 } => 4";

#[test]
fn it_is_given_arguments(rt: HostRuntime) -> Result<(), Fail> {
    let given = Given {
        arguments: 2,
        ..PLAIN
    };
    check_rows(&rt, rt.alloc(), ARGUMENTS, given)?;
    let given = Given {
        arguments: 1,
        ..PLAIN
    };
    check_rows(&rt, rt.alloc(), "Ractor.new { |a, b| b || a } => 1", given)
}

const ONE_FRAME: &str = "def f; 4; end; Ractor.new { f } => stack level too deep (SystemStackError)
Ractor.new { 4 } => 4";

#[test]
fn the_block_is_a_frame(rt: HostRuntime) -> Result<(), Fail> {
    let within = |frames| Given { frames, ..PLAIN };
    check_rows(&rt, rt.alloc(), ONE_FRAME, within(1))?;
    check_rows(
        &rt,
        rt.alloc(),
        "def f; 4; end; Ractor.new { f } => 4",
        within(2),
    )?;
    let deep = "Ractor.new { 4 } => stack level too deep (SystemStackError)";
    check_rows(&rt, rt.alloc(), deep, within(0))
}
