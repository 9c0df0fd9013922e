//! `Ractor.new` and the other methods of Ractor in a script on its own, as a table of scripts.

use crate::table::check_rows;
use std::test::Fail;

/// As `RUN` of the rows: what it shows, the script, what it prints, and what is told of the exception that ends it.
const STARTING: &str = "\
variables of outer scopes|a = 1; b = 2; begin; Ractor.new { ^pc^p [c].each { ^pd^p b = d + a } }; rescue ArgumentError => e; puts e.message; end^n|can not isolate a Proc because it accesses outer variables (b, a).^n|
a yield|def f; Ractor.new { yield }; end; begin; f; rescue ArgumentError => e; puts e.message; end^n|can not isolate a Proc because it uses yield.^n|
the class in a variable|a = 1; c = Ractor; begin; c.new { a }; rescue ArgumentError => e; puts e.message; end^n|can not isolate a Proc because it accesses outer variables (a).^n|
an isolated block|def g; 1; end; def f; Ractor.new { self; @x; g }; end; begin; f; rescue Ractor::Error => e; puts e.message; end^n|no ractors here^n|
a name that is no text|begin; Ractor.new(name: 5) { }; rescue TypeError => e; puts e.message; end^n|wrong type Integer^n|
a name|begin; Ractor.new(name: \"a\") { }; rescue Ractor::Error => e; puts e.message; end; Ractor.new(1, 2, name: nil) { ^px, y^p x }^n|no ractors here^n|no ractors here (Ractor::Error)
a hash that is no name|begin; Ractor.new({a: 5}) { ^px^p x }; rescue Ractor::Error => e; puts e.message; end^n|no ractors here^n|
a name among others|begin; Ractor.new({name: 5, a: 1}) { ^px^p x }; rescue Ractor::Error => e; puts e.message; end^n|no ractors here^n|
a name that is an array or a symbol|begin; Ractor.new(name: []) { }; rescue TypeError => e; puts e.message; end; Ractor.new(1, name: :a) { ^px^p x }^n|wrong type Array^n|wrong type Symbol (TypeError)
no block|begin; Ractor.new; rescue ArgumentError => e; puts e.message; end; Ractor.new(1, name: 5)^n|must be called with a block^n|must be called with a block (ArgumentError)
the block is isolated before the name is looked at|a = 1; begin; Ractor.new(name: 5) { a }; rescue ArgumentError => e; puts e.message; end^n|can not isolate a Proc because it accesses outer variables (a).^n|
outer names before a yield|def f; a = 1; Ractor.new { yield a }; end; begin; f; rescue ArgumentError => e; puts e.message; end^n|can not isolate a Proc because it accesses outer variables (a).^n|
a super|class A; def f; end; end; class B < A; def f; Ractor.new { super() }; end; end; begin; B.new.f; rescue ArgumentError => e; puts e.message; end^n|can not isolate a Proc because it uses yield.^n|
the order of first uses|a = 1; b = 2; c = 3; begin; Ractor.new { c; a = b; c; b }; rescue ArgumentError => e; puts e.message; end^n|can not isolate a Proc because it accesses outer variables (c, a, b).^n|
an assignment alone|a = 1; begin; Ractor.new { a = 2 }; rescue ArgumentError => e; puts e.message; end; p a^n|can not isolate a Proc because it accesses outer variables (a).^n1^n|
its own variables and parameters|a = 1; begin; Ractor.new { ^pa^p b = a; [1].each { ^pc^p b += c }; b }; rescue Ractor::Error => e; puts e.message; end^n|no ractors here^n|
a block in a block|x = 1; begin; Ractor.new { [1].each { [2].each { x } } }; rescue ArgumentError => e; puts e.message; end^n|can not isolate a Proc because it accesses outer variables (x).^n|
globals, fields and constants are no variables|$a = 1; @b = 2; C = 3; begin; Ractor.new { $a; @b; C }; rescue Ractor::Error => e; puts e.message; end^n|no ractors here^n|
the arguments come first|begin; Ractor.new((puts 1; 2), (puts 3; 4)) { }; rescue Ractor::Error; puts 5; end^n|1^n3^n5^n|
an argument that raises|begin; Ractor.new(1 / 0) { }; rescue ZeroDivisionError => e; puts e.message; end^n|divided by 0^n|
the block does not run|begin; Ractor.new { puts 1 }; rescue Ractor::Error; end; puts 2^n|2^n|
the class of the exception|begin; Ractor.new { }; rescue => e; p e.class, e; end^n|Ractor::Error^n#<Ractor::Error: no ractors here>^n|
a new of another class with a block|class A; def initialize; yield 3; end; end; A.new { ^px^p p x }; begin; Object.new { 1 }; rescue RuntimeError => e; puts e.message; end^n|3^nnot here yet^n|
this ractor|p Ractor.current, Ractor.main, Ractor.current == Ractor.main, Ractor.main?, Ractor.current.equal?(Ractor.main)^n|#<Ractor:#1>^n#<Ractor:#1>^ntrue^ntrue^ntrue^n|
what it is|r = Ractor.current; p r.class, r.is_a?(Ractor), r.frozen?, r.name, Ractor.shareable?(r)^n|Ractor^ntrue^nfalse^nnil^ntrue^n|
arguments that it does not take|begin; Ractor.current(1); rescue ArgumentError => e; puts e.message; end; Ractor.main?(1, 2)^n|wrong number of arguments (given 1, expected 0)^n|wrong number of arguments (given 2, expected 0) (ArgumentError)
receiving|begin; Ractor.receive; rescue Ractor::Error => e; puts e.message; end; begin; Ractor.recv; rescue Ractor::Error => e; puts e.message; end; Ractor.receive_if { ^pm^p true }^n|no ractors here^nno ractors here^n|no ractors here (Ractor::Error)
yielding and selecting|begin; Ractor.yield 1; rescue Ractor::Error => e; puts e.message; end; begin; Ractor.select(Ractor.current); rescue Ractor::Error => e; puts e.message; end; Ractor.yield(1, move: true)^n|no ractors here^nno ractors here^n|no ractors here (Ractor::Error)
sending to itself|begin; Ractor.current.send(1); rescue Ractor::Error => e; puts e.message; end; begin; Ractor.current << 1; rescue Ractor::Error => e; puts e.message; end; Ractor.current.take^n|no ractors here^nno ractors here^n|no ractors here (Ractor::Error)
closing|begin; Ractor.current.close_incoming; rescue Ractor::Error => e; puts e.message; end; Ractor.current.close_outgoing^n|no ractors here^n|no ractors here (Ractor::Error)
what is not evaluated yet|begin; Ractor.current[:a]; rescue RuntimeError => e; puts e.message; end; begin; Ractor.current[:a] = 1; rescue RuntimeError => e; puts e.message; end; Ractor.store_if_absent(:a) { 1 }^n|not here yet^nnot here yet^n|not here yet (RuntimeError)
what is left out|begin; Ractor.count; rescue NoMethodError => e; puts e.message; end; Ractor.current.foo^n|undefined method 'count' for class Ractor^n|undefined method 'foo' for an instance of Ractor (NoMethodError)
a method of the program of the name|class A; def receive; 1; end; def take; 2; end; end; p A.new.receive, A.new.take^n|1^n2^n|
a top-level method comes behind those of Ractor|def receive; 1; end; def new; 2; end; begin; Ractor.receive; rescue Ractor::Error => e; puts e.message; end; begin; Ractor.new { }; rescue Ractor::Error => e; puts e.message; end; p receive, new, 5.receive^n|no ractors here^nno ractors here^n1^n2^n1^n|
and behind those of a ractor|def take; 1; end; def name; 2; end; begin; Ractor.current.take; rescue Ractor::Error => e; puts e.message; end; p Ractor.current.name, Ractor.take, take^n|no ractors here^nnil^n1^n1^n|
a top-level method of another name|def f; self; end; p Ractor.f, Ractor.current.f^n|Ractor^n#<Ractor:#1>^n|
many outer names|a = 1; b = 1; c = 1; d = 1; e = 1; f = 1; begin; Ractor.new { f; e; d; c; b; a; f }; rescue ArgumentError => x; puts x.message; end^n|can not isolate a Proc because it accesses outer variables (f, e, d, c, b, a).^n|";

#[test]
fn starting_prints_what_is_wanted(rt: HostRuntime) -> Result<(), Fail> {
    check_rows(&rt, rt.alloc(), STARTING)
}
