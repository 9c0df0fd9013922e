//! Arrays, hashes and texts that are made of parts, assignments to several targets, and attributes that are assigned to, as a table of
//! scripts.

use crate::table::check_rows;
use std::test::Fail;

/// As `RUN` of the rows: what it shows, the script, what it prints, and what is told of the exception that ends it.
const TASKS: &str = "\
arrays of every length|i = 3; p [], [i], [i, :a], [i, nil, true], [1, 2, 3, 4, 5, 6, 7, 8, 9, 10], [i, i * 2, i + 1]^n|[]^n[3]^n[3, :a]^n[3, nil, true]^n[1, 2, 3, 4, 5, 6, 7, 8, 9, 10]^n[3, 6, 4]^n|
arrays with parts that need a frame|def f(x); x + 1; end; a = [f(1), 2]; p a, [1, f(2)], [f(f(1)), f(2), 3], [1, [f(5)], [[]]]^n|[2, 2]^n[1, 3]^n[3, 3, 3]^n[1, [6], [[]]]^n|
arrays are new each time|def a; [1]; end; x = a; y = a; x << 2; p x, y; b = 3.times.map { ^pi^p [i] } if false; c = []; 2.times { ^pi^p d = [i]; d << i; c << d }; p c^n|[1, 2]^n[1]^n[[0, 0], [1, 1]]^n|
parts in order, and one that raises|def t(x); print x; x; end; p [t(1), t(2), t(3)]; begin; p [1, t(4), raise(\"no\"), t(5)]; rescue => e; p e.message; end^n|123[1, 2, 3]^n4\"no\"^n|
splats among parts|a = [1, 2]; p [*a], [*a, 3], [0, *a], [*nil], [*a, *a, *[]], [*1, 2]^n|[1, 2]^n[1, 2, 3]^n[0, 1, 2]^n[]^n[1, 2, 1, 2]^n[1, 2]^n|
hashes|i = 3; p({}, {a: i}, {1 => 2, :b => nil}, {\"k\" => i, i => \"k\"}); h = {a: 1, b: 2, c: 3, d: 4, e: 5}; p h.size, h[:e]^n|{}^n{a: 3}^n{1 => 2, b: nil}^n{\"k\" => 3, 3 => \"k\"}^n5^n5^n|
hashes with parts that need a frame|def t(x); print x; x; end; p({t(1) => t(2), t(3) => 4}, {5 => t(6), 7 => 8}); p({a: {b: [t(9)]}})^n|1236{1 => 2, 3 => 4}^n{5 => 6, 7 => 8}^n9{a: {b: [9]}}^n|
a key twice, and a text as a key|s = \"k\"; h = {s => 1, \"k\" => 2, a: 3, a: 4}; s << \"x\"; p h, s; p h[\"k\"], h[\"kx\"]^n|{\"k\" => 2, a: 4}^n\"kx\"^n2^nnil^n|
texts of parts|i = 3; s = \"b\"; n = nil; p \"#{i}\", \"#{s}\", \"#{n}\", \"a#{i}c\", \"#{i}#{s}\", \"#{:x} #{true} #{[i, s]} #{1 + i}\"^n|\"3\"^n\"b\"^n\"\"^n\"a3c\"^n\"3b\"^n\"x true [3, \\\"b\\\"] 4\"^n|
texts of calls and of texts|def f(x); \"<#{x}>\"; end; p \"#{f(1)}#{f(f(2))}\", \"a#{\"b#{\"c\"}\"}\"; t = \"x\"; u = \"#{t}\"; u << \"y\"; p t, u^n|\"<1><<2>>\"^n\"abc\"^n\"x\"^n\"xy\"^n|
objects that say what they are|class A; def initialize(n); @n = n; end; def to_s; \"A#{@n}\"; end; end; a = A.new(1); p \"#{a}\", \"#{a}#{2}\", \"#{1}#{a}\"; puts a, [a]; class B; def to_s; 5; end; end; p \"#{B.new}\".size > 3^n|\"A1\"^n\"A12\"^n\"1A1\"^nA1^nA1^ntrue^n|
values that are printed behind a call|def f(x); x; end; puts f(1), f(\"a\"); p f(2), f(:b); print f(3), f(nil), 4; puts; puts [f(5), [f(6)]]^n|1^na^n2^n:b^n34^n5^n6^n|
several variables|a, b = 1, 2; p a, b; a, b = b, a; p a, b; a, b, c = a + b, a * b, [a]; p a, b, c^n|1^n2^n2^n1^n3^n2^n[2]^n|
fewer values, more values, and one|a, b = 1; p a, b; a, b = [3]; p a, b; a, b = 4, 5, 6; p a, b; a, b = nil; p a, b; a, b = []; p a, b; a, b = [[7, 8], 9]; p a, b^n|1^nnil^n3^nnil^n4^n5^nnil^nnil^nnil^nnil^n[7, 8]^n9^n|
the value of such an assignment|x = (a, b = 1, 2); p x; y = (a, b = 5); p y, a, b; p((a, b = [3, 4]))^n|[1, 2]^n5^n5^nnil^n[3, 4]^n|
several variables, of calls|def f; [1, 2, 3]; end; a, b = f; p a, b; a, b, c = f, 0; p a, b, c; def g(x); return x, x + 1; end; a, b = g(4); p a, b^n|1^n2^n[1, 2, 3]^n0^nnil^n4^n5^n|
several variables in a loop, of a block and in a method|a, b = 0, 1; 10.times { a, b = b, a + b }; p a, b; def m(n); x, y = n, n; x, y = y - 1, x + 1; [x, y]; end; p m(5); c = 1; [1].each { ^pi^p c, d = i + 1, c; p c, d }; p c^n|55^n89^n[4, 6]^n2^n1^n2^n|
targets of every kind among variables|class A; attr_accessor :n; end; o = A.new; a = [0, 0]; x, a[0], y, o.n, $g = 1, 2, 3, 4, 5; p x, a, y, o.n, $g; a[1], z = z, 7; p a, z^n|1^n[2, 0]^n3^n4^n5^n[2, nil]^n7^n|
a right side that raises leaves all|a, b = 1, 2; begin; a, b = 3, raise(\"no\"); rescue => e; p a, b, e.message; end^n|1^n2^n\"no\"^n|
attributes that are assigned to|class A; attr_accessor :n, :m; attr_writer :w; def w; @w; end; end; o = A.new; o.n = 1; p o.n, (o.m = 2), o.m; o.w = o.n + o.m; p o.w; o.n = o.m = 9; p o.n, o.m^n|1^n2^n2^n3^n9^n9^n|
attributes by methods, of other classes and of parents|class A; def n=(x); p [:set, x]; 5; end; def n; 1; end; end; class B; attr_accessor :n; end; class C < B; end; [A.new, B.new, C.new].each { ^po^p o.n = 2; p o.n }; class D < B; def n=(x); @n = x * 2; end; end; d = D.new; d.n = 4; p d.n; d.n += 1; p d.n^n|[:set, 2]^n1^n2^n2^n8^n18^n|
attributes of frozen objects, and of none|class A; attr_accessor :n; end; o = A.new; o.n = 1; o.freeze; begin; o.n = 2; rescue FrozenError; p o.n; end; begin; o.n += 2; rescue FrozenError; p o.n; end; begin; nil.n = 1; rescue NoMethodError; p 0; end; begin; o.z = 1; rescue NoMethodError; p 2; end^n|1^n1^n0^n2^n|
attributes that an operator assigns to|class A; attr_accessor :n; def initialize(n); @n = n; end; end; o = A.new(5); o.n += 1; o.n *= 2; p o.n, (o.n -= 2); o.n = \"a\"; o.n += \"b\"; p o.n; a = [A.new(1)]; a[0].n += 10; p a[0].n^n|12^n10^n\"ab\"^n11^n|
attributes with parts that need a frame|class A; attr_accessor :n; end; def t(o); print 1; o; end; def v(x); print x; x; end; o = A.new; t(o).n = v(2); t(o).n += v(3); p o.n; o.n = [o.n]; o.n[0] += 1; p o.n^n|12135^n[6]^n|
an attribute of `self`|class A; attr_accessor :n; def go; self.n = 1; self.n += 2; self.n += self.n; n; end; end; p A.new.go^n|6^n|
an attribute that shows the program's operator|class V; attr_reader :x; def initialize(x); @x = x; end; def +(o); V.new(@x + o); end; end; class A; attr_accessor :v; end; a = A.new; a.v = V.new(1); a.v += 5; p a.v.x^n|6^n|";

#[test]
fn tasks_print_what_is_wanted(rt: HostRuntime) -> Result<(), Fail> {
    check_rows(&rt, rt.alloc(), TASKS)
}
