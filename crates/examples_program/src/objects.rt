//! New objects, and their `initialize`, as a table of scripts.

use crate::table::check_rows;
use std::test::Fail;

/// As `RUN` of the rows: what it shows, the script, what it prints, and what is told of the exception that ends it.
const ROWS: &str = "\
initialize|class A; def initialize(x); @x = x; end; def x; @x; end; end; p A.new(5).x^n|5^n|
initialize without arguments|class A; def initialize; @x = 1; end; def x; @x; end; end; p A.new.x^n|1^n|
the value of new is the object|class A; def initialize; 5; end; end; p A.new^n|#<A>^n|
return in initialize|class A; def initialize(x); @x = x; return 7 if x == 1; @x = 2; end; def x; @x; end; end; p A.new(1).x, A.new(5).x^n|1^n2^n|
a count of initialize|class A; def initialize(x); end; end; begin; A.new; rescue ArgumentError => e; puts e.message; end^n|wrong number of arguments (given 0, expected 1)^n|
a count of new without initialize|class A; end; begin; A.new(1); rescue ArgumentError => e; puts e.message; end^n|wrong number of arguments (given 1, expected 0)^n|
variables of two objects|class A; def initialize(x); @x = x; end; def x; @x; end; end; a = A.new(1); b = A.new(2); p a.x, b.x, a.x^n|1^n2^n1^n|
initialize is inherited|class A; def initialize(x); @x = x; end; def x; @x; end; end; class B < A; end; p B.new(3).x^n|3^n|
a block to initialize|class A; def initialize; @x = yield; end; def x; @x; end; end; p(A.new { 5 }.x)^n|5^n|
an operator|class V; def initialize(x); @x = x; end; def x; @x; end; def +(o); V.new(@x + o.x); end; end; p((V.new(1) + V.new(2)).x)^n|3^n|
methods call one another on two objects|class A; def initialize(o); @o = o; end; def f(n); n == 0 ? 0 : @o.g(n) + 1; end; end; class B; def g(n); A.new(self).f(n - 1) + 10; end; end; p A.new(B.new).f(3)^n|33^n|
a counter|class C; def initialize; @n = 0; end; def up; @n = @n + 1; self; end; def n; @n; end; end; p C.new.up.up.up.n^n|3^n|
a stack|class S; def initialize; @a = []; end; def push(x); @a << x; self; end; def pop; @a.pop; end; def size; @a.size; end; end; s = S.new.push(1).push(2); p s.pop, s.size^n|2^n1^n|
each of a class|class L; def initialize; @a = [1, 2, 3]; end; def each; @a.each { ^px^p yield x }; end; end; L.new.each { ^px^p p x }^n|1^n2^n3^n|
an object that is an argument|class A; def initialize(x); @x = x; end; def x; @x; end; end; def f(a); a.x + 1; end; p f(A.new(2))^n|3^n|
an iteration in a method of a class|class A; def initialize; @s = 0; end; def f(a); a.each { ^px^p @s = @s + x }; @s; end; end; p A.new.f([1, 2, 3])^n|6^n|
append of the program|class L; def initialize; @a = []; end; def <<(x); @a << x; self; end; def a; @a; end; end; l = L.new; l << 1 << 2; p l.a^n|[1, 2]^n|
an exception in initialize|class A; def initialize; raise \"no\"; end; end; begin; A.new; rescue => e; puts e.message; end^n|no^n|
return out of a block of initialize|class A; def initialize; yield; end; end; def f; A.new { return 4 }; 5; end; p f^n|4^n|
new in an argument|class A; def initialize(x); @x = x; end; def x; @x; end; end; p [A.new(1), A.new(2)].map { ^pa^p a.x }^n|[1, 2]^n|
new in initialize|class B; def initialize(x); @x = x; end; def x; @x; end; end; class A; def initialize; @b = B.new(7); end; def b; @b; end; end; p A.new.b.x^n|7^n|";

#[test]
fn new_objects_print_what_is_wanted(rt: HostRuntime) -> Result<(), Fail> {
    check_rows(&rt, rt.alloc(), ROWS)
}
