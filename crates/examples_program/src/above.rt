//! `super`, and classes of exceptions, as a table of scripts.

use crate::table::check_rows;
use std::test::Fail;

/// As `RUN` of the rows: what it shows, the script, what it prints, and what is told of the exception that ends it.
const ROWS: &str = "\
super|class A; def f(x); x + 1; end; end; class B < A; def f(x); super(x * 2) + 10; end; end; p B.new.f(3)^n|17^n|
super alone|class A; def f(x); x + 1; end; end; class B < A; def f(x); x = x * 2; super + 10; end; end; p B.new.f(3)^n|17^n|
super without arguments|class A; def f; 5; end; end; class B < A; def f; super() + 1; end; end; p B.new.f^n|6^n|
super in initialize|class A; def initialize(x); @x = x; end; def x; @x; end; end; class B < A; def initialize(y); super(y + 1); @y = y; end; def y; @y; end; end; b = B.new(1); p b.x, b.y^n|2^n1^n|
super two classes above|class A; def f; [1]; end; end; class B < A; def f; super + [2]; end; end; class C < B; def f; super + [3]; end; end; p C.new.f^n|[1, 2, 3]^n|
super passes the block|class A; def f; yield 4; end; end; class B < A; def f; super; end; end; B.new.f { ^px^p p x }^n|4^n|
super in a block|class A; def f(x); x + 1; end; end; class B < A; def f(x); [1, 2].map { ^py^p super(y) }; end; end; p B.new.f(3)^n|[2, 3]^n|
super to a method of the program|def f; 6; end; class A; def f; super + 1; end; end; p A.new.f^n|7^n|
super to a built-in method|class A; def to_s; super; end; end; puts A.new.to_s^n|#<A>^n|
a class of exceptions|class E < StandardError; end; begin; raise E, \"a\"; rescue E => e; puts e.message, e.class; end^n|a^nE^n|
a class of exceptions with a method|class E < StandardError; def code; 5; end; end; begin; raise E, \"a\"; rescue E => e; puts e.code, e.message; end^n|5^na^n|
a variable of an exception|class E < StandardError; def initialize(x); super(\"m\"); @x = x; end; def x; @x; end; end; begin; raise E.new(3); rescue E => e; puts e.x, e.message; end^n|3^nm^n|
an exception of a class above|class E < StandardError; end; class F < E; end; begin; raise F, \"a\"; rescue E => e; puts e.message, e.class; end^n|a^nF^n|
super with ensure|class A; def f; 1; end; end; class B < A; def f; super; ensure; puts 2; end; end; p B.new.f^n|2^n1^n|
super of an exception's initialize|class E < StandardError; def initialize(n); super(\"n is #{n}\"); @n = n; end; def n; @n; end; end; begin; raise E.new(5); rescue E => e; puts e.message, e.n; end^n|n is 5^n5^n|
super of an exception's initialize without a message|class E < StandardError; def initialize; super(); end; end; puts E.new.message^n|E^n|
super of an exception's initialize gives the exception|class E < StandardError; def initialize(n); p super(\"a\"), super(); end; end; puts E.new(5).message^n|#<E: E>^n#<E: E>^nE^n|
super to an attr_accessor|class A; attr_accessor :x; end; class B < A; def x=(v); super(v * 2); end; end; b = B.new; b.x = 4; p b.x; p(b.x = 5)^n|8^n5^n|
super alone to an attr_writer|class A; attr_reader :y; attr_writer :y; end; class B < A; def y=(v); super; end; end; b = B.new; b.y = 7; p b.y^n|7^n|
super to the last writer of a class|class A; attr_writer :x; def x=(v); @x = v + 1; end; def x; @x; end; end; class B < A; def x=(v); super; end; end; b = B.new; b.x = 7; p b.x^n|8^n|
super to an attr_writer behind a def|class A; def x=(v); @x = v + 1; end; attr_accessor :x; end; class B < A; def x=(v); super; end; end; b = B.new; b.x = 7; p b.x^n|7^n|
super of a writer that no class above has|class A; attr_reader :x; end; class B < A; def x=(v); super; end; end; begin; B.new.x = 1; rescue NoMethodError; p 1; end^n|1^n|
super to an attr_writer with two values|class A; attr_writer :x; end; class B < A; def x=(v); super(v, v); end; end; begin; B.new.x = 1; rescue ArgumentError => e; puts e.message; end^n|wrong number of arguments (given 2, expected 1)^n|
super to an attr_writer on a frozen object|class A; attr_writer :x; end; class B < A; def x=(v); super; end; end; begin; B.new.freeze.x = 1; rescue FrozenError; p 2; end^n|2^n|";

#[test]
fn super_and_exceptions_print_what_is_wanted(rt: HostRuntime) -> Result<(), Fail> {
    check_rows(&rt, rt.alloc(), ROWS)
}
