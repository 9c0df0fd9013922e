//! Attributes of objects, as a table of scripts.

use crate::table::check_rows;
use std::test::Fail;

/// As `RUN` of the rows: what it shows, the script, what it prints, and what is told of the exception that ends it.
const ROWS: &str = "\
a reader|class A; attr_reader :x; def initialize; @x = 4; end; end; p A.new.x^n|4^n|
a reader without a value|class A; attr_reader :x; end; p A.new.x^n|nil^n|
a count of a reader|class A; attr_reader :x; end; begin; A.new.x(1); rescue ArgumentError => e; puts e.message; end^n|wrong number of arguments (given 1, expected 0)^n|
a writer|class A; attr_writer :x; def f; @x; end; end; a = A.new; a.x = 5; p a.f^n|5^n|
an accessor|class A; attr_accessor :x, :y; end; a = A.new; a.x = 5; a.y = a.x + 1; p a.x, a.y^n|5^n6^n|
the value of an assignment to an attribute|class A; attr_accessor :x; end; a = A.new; p(a.x = 5)^n|5^n|
the parts of an assignment to an attribute|class A; attr_accessor :x; end; def t(n, v); print n; v; end; a = A.new; t(1, a).x = t(2, 3); p a.x^n|123^n|
a writer on a frozen object|class A; attr_accessor :x; end; a = A.new; a.x = 1; a.freeze; begin; a.x = 2; rescue FrozenError => e; puts e.message; end; p a.x^n|can't modify frozen A^n1^n|
dup of an object|class A; attr_accessor :x; end; a = A.new; a.x = [1]; b = a.dup; b.x << 2; b.x = 3; p a.x, b.x^n|[1, 2]^n3^n|
a linked list|class N; attr_reader :v, :n; def initialize(v, n); @v = v; @n = n; end; end; l = nil; 5.times { ^pi^p l = N.new(i, l) }; s = 0; while l; s = s * 10 + l.v; l = l.n; end; p s^n|43210^n|
a chain of attributes|class A; attr_accessor :n; end; a = A.new; a.n = A.new; a.n.n = 5; p a.n.n^n|5^n|
an attribute of an array's element|class A; attr_accessor :x; end; a = [A.new, A.new]; a[1].x = 4; p a[0].x, a[1].x^n|nil^n4^n|
an accessor and a variable are one|class A; attr_accessor :x; def f; @x = @x + 1; end; end; a = A.new; a.x = 1; a.f; p a.x^n|2^n|
self has an attribute|class A; attr_accessor :x; def f; self.x = 3; x + 1; end; end; p A.new.f^n|4^n|
a comparison of a program|class V; attr_reader :x; def initialize(x); @x = x; end; def <(o); @x < o.x; end; def <=>(o); @x <=> o.x; end; end; a = V.new(1); b = V.new(2); p a < b, b < a, a <=> b^n|true^nfalse^n-1^n|
a tree of objects|class T; attr_reader :l, :r, :v; def initialize(v, l, r); @v = v; @l = l; @r = r; end; def sum; s = @v; s += @l.sum if @l; s += @r.sum if @r; s; end; end; p T.new(1, T.new(2, nil, nil), T.new(3, nil, T.new(4, nil, nil))).sum^n|10^n|";

#[test]
fn attributes_print_what_is_wanted(rt: HostRuntime) -> Result<(), Fail> {
    check_rows(&rt, rt.alloc(), ROWS)
}
