//! `raise` of classes whose exceptions get the program's `initialize`, as a table of scripts.

use crate::table::check_rows;
use std::test::Fail;

/// As `RUN` of the rows: what it shows, the script, what it prints, and what is told of the exception that ends it.
const RAISED: &str = "\
raise of a class calls its initialize|class A < StandardError; def initialize(x); super(\"a#{x}\"); @x = x; end; def x; @x; end; end; begin; raise A, 5; rescue A => e; puts e.message, e.x; end^n|a5^n5^n|
without an argument|class A < StandardError; def initialize; super(\"fixed\"); end; end; begin; raise A; rescue => e; puts e.message; end; raise A^n|fixed^n|fixed (A)
an initialize above|class A < StandardError; def initialize(x); super(\"a#{x}\"); @x = x; end; def x; @x; end; end; class B < A; end; begin; raise B, 6; rescue A => e; puts e.message, e.class; end^n|a6^nB^n|
one that calls none above it|class D < StandardError; def initialize(a); @a = a; end; def a; @a; end; end; begin; raise D, 1; rescue => e; puts e.message; p e.a; end^n|D^n1^n|
super with a text of the class|class D < StandardError; def initialize(a); super(); end; end; begin; raise D, 1; rescue => e; puts e.message; end^n|D^n|
too many arguments|class C < StandardError; def initialize; super(\"c\"); end; end; begin; raise C, \"t\"; rescue ArgumentError => e; puts e.message; end^n|wrong number of arguments (given 1, expected 0)^n|
too few arguments|class A < StandardError; def initialize(x); super(\"a#{x}\"); @x = x; end; def x; @x; end; end; begin; raise A; rescue ArgumentError => e; puts e.message; end; raise A^n|wrong number of arguments (given 0, expected 1)^n|wrong number of arguments (given 0, expected 1) (ArgumentError)
three values raise as before|class A < StandardError; def initialize(x); super(\"a#{x}\"); @x = x; end; def x; @x; end; end; begin; raise A, 1, 2, 3; rescue ArgumentError => e; puts e.class; end^n|ArgumentError^n|
an initialize that raises|class E < StandardError; def initialize; raise TypeError, \"inside\"; end; end; begin; raise E; rescue => e; puts e.message, e.class; end^n|inside^nTypeError^n|
its cause is the exception that is being rescued|class A < StandardError; def initialize(x); super(\"a#{x}\"); @x = x; end; def x; @x; end; end; begin; begin; raise \"first\"; rescue; raise A, 2; end; rescue => e; puts e.message, e.cause.message; end^n|a2^nfirst^n|
no cause|class A < StandardError; def initialize(x); super(\"a#{x}\"); @x = x; end; def x; @x; end; end; begin; raise A, 2; rescue => e; p e.cause; end; begin; raise A.new(3); rescue => e; p e.cause; end^n|nil^nnil^n|
causes of causes|class A < StandardError; def initialize(x); super(\"a#{x}\"); @x = x; end; def x; @x; end; end; begin; begin; begin; raise A, 1; rescue; raise A, 2; end; rescue; raise A, 3; end; rescue => e; puts e.message, e.cause.message, e.cause.cause.message; p e.cause.cause.cause; end^n|a3^na2^na1^nnil^n|
an initialize that rescues|class F < StandardError; def initialize; begin; raise \"x\"; rescue => e; @e = e.message; end; end; def e; @e; end; end; begin; begin; raise \"y\"; rescue; raise F; end; rescue F => f; puts f.message, f.e, f.cause.message; end^n|F^nx^ny^n|
what initialize gives counts for nothing|class F < StandardError; def initialize(x); super(x); return 7; end; end; begin; raise F, \"m\"; rescue => e; puts e.message; p e.class; end^n|m^nF^n|
a return out of a block of initialize|class H < StandardError; def initialize(x); [1, 2].each { ^py^p return if y == x }; super(\"never\"); end; end; begin; raise H, 2; rescue H => e; puts e.message; end; raise H, 3^n|H^n|never (H)
ensure follows|class A < StandardError; def initialize(x); super(\"a#{x}\"); @x = x; end; def x; @x; end; end; def f(k, x); raise k, x; ensure; puts \"e\"; end; begin; f(A, [1, 2]); rescue => e; puts e.message; end^n|e^na[1, 2]^n|
values of a splat|class A < StandardError; def initialize(x); super(\"a#{x}\"); @x = x; end; def x; @x; end; end; v = [A, 9]; begin; raise *v; rescue A => e; puts e.message; end; begin; raise(*v); rescue => e; p e.x; end^n|a9^n9^n|
in a block and in a loop|class A < StandardError; def initialize(x); super(\"a#{x}\"); @x = x; end; def x; @x; end; end; p [3, 4].map { ^pv^p begin; raise A, v; rescue A => e; e.x + 1; end }; n = 0; while n < 2; n += 1; begin; raise A, n; rescue A; next; end; end; p n^n|[4, 5]^n2^n|
in a method of an object|class A < StandardError; def initialize(x); super(\"a#{x}\"); @x = x; end; def x; @x; end; end; class K; def go(x); raise A, x; end; end; begin; K.new.go(:s); rescue A => e; p e.x; end; K.new.go(nil)^n|:s^n|a (A)
no clause takes it|class A < StandardError; def initialize(x); super(\"a#{x}\"); @x = x; end; def x; @x; end; end; begin; raise A, 1; rescue TypeError; puts \"no\"; end^n||a1 (A)
raised again|class A < StandardError; def initialize(x); super(\"a#{x}\"); @x = x; end; def x; @x; end; end; begin; begin; raise A, 1; rescue => e; raise; end; rescue => f; p f.equal?(e), f.x; end^n|true^n1^n|
a class without initialize|class G < StandardError; end; begin; raise G, \"t\"; rescue => e; puts e.message; end; begin; raise G; rescue => e; puts e.message; end^n|t^nG^n|
a class that is none of exceptions|class G; def initialize; puts \"no\"; end; end; begin; raise G; rescue TypeError => e; puts e.message; end^n|exception class/object expected^n|
an exception with a second value|class A < StandardError; def initialize(x); super(\"a#{x}\"); @x = x; end; def x; @x; end; end; begin; raise A.new(1), 2, 3, 4; rescue ArgumentError => e; puts e.class; end^n|ArgumentError^n|
new in an initialize|class A < StandardError; def initialize(x); super(\"a#{x}\"); @x = x; end; def x; @x; end; end; class B < StandardError; def initialize(x); @in = A.new(x); super(@in.message); end; end; begin; raise B, 8; rescue => e; puts e.message; p e.cause; end^n|a8^nnil^n|
raise in the initialize of another|class A < StandardError; def initialize(x); super(\"a#{x}\"); @x = x; end; def x; @x; end; end; class B < StandardError; def initialize(x); begin; raise A, x; rescue A => e; super(e.message + \"!\"); end; end; end; begin; raise B, 4; rescue B => e; puts e.message; p e.cause; end^n|a4!^nnil^n|
initialize is called once|$n = 0; class C < StandardError; def initialize(x); $n += 1; end; end; begin; raise C, 0; rescue => e; p $n, e.message; end^n|1^n\"C\"^n|
new objects are given still|class O; def initialize(x); @x = x; end; def x; @x; end; end; p O.new(2).x, O.new([3]).x; a = [1].map { ^pv^p O.new(v) }; p a[0].x^n|2^n[3]^n1^n|";

#[test]
fn exceptions_are_initialized(rt: HostRuntime) -> Result<(), Fail> {
    check_rows(&rt, rt.alloc(), RAISED)
}
