//! Assignments to several targets of each kind, as a table of scripts.

use crate::table::check_rows;
use std::test::Fail;

/// As `RUN` of the rows: what it shows, the script, what it prints, and what is told of the exception that ends it.
const TARGETS: &str = "\
elements|a = [0, 0]; a[0], a[1] = 1, 2; p a^n|[1, 2]^n|
elements that are exchanged|a = [1, 2]; a[0], a[1] = a[1], a[0]; p a^n|[2, 1]^n|
indices before the right side|def t(x); print x; x; end; a = [0]; a[t(0)], a[t(1)] = t(2), t(3); p a^n|0123[2, 3]^n|
receivers and indices by turns|def t(x); print x; x; end; def l; print \"l\"; $l; end; $l = [0]; l[t(0)], l[t(1)] = t(2), t(3); p $l^n|l0l123[2, 3]^n|
attributes|class O; attr_accessor :x, :y; end; o = O.new; o.x, o.y = 1, 2; p o.x, o.y; o.x, o.y = o.y, o.x; p o.x, o.y^n|1^n2^n2^n1^n|
receivers before the right side|class O; attr_accessor :x; end; $o = O.new; def o; print \"o\"; $o; end; o.x, o.x = (print \"r\"; 1), 2; p $o.x^n|oor2^n|
instance variables|@a, @b = 1, 2; p @a, @b; @a, @b = @b, @a; p @a, @b^n|1^n2^n2^n1^n|
global variables|$a, $b = 1, 2; p $a, $b; $a, $b = $b, $a; p $a, $b^n|1^n2^n2^n1^n|
constants|A, B = 1, [2]; p A, B; C, d = A + 1, B; p C, d^n|1^n[2]^n2^n[2]^n|
each kind|class O; attr_accessor :x; end; o, l = O.new, []; o.x, @y, $z, A, b, l[1] = 1, 2, 3, 4, 5, 6; p o.x, @y, $z, A, b, l^n|1^n2^n3^n4^n5^n[nil, 6]^n|
variables among others|l = [0]; a, l[0], b, @c, d = 1, 2, 3, 4, 5; p a, l, b, @c, d^n|1^n[2]^n3^n4^n5^n|
elements of a hash|h = {}; h[:a], h[\"b\"] = 1, 2; p h; h[:a], h[\"b\"] = h[\"b\"], h[:a]; p h^n|{a: 1, \"b\" => 2}^n{a: 2, \"b\" => 1}^n|
elements of elements|a = [[0], [0]]; a[0][0], a[1][0] = 1, 2; p a^n|[[1], [2]]^n|
too few values|a = [1, 2, 3]; a[0], @b, a[1], a[2] = 5, 6; p a, @b^n|[5, nil, nil]^n6^n|
too many values|a = [0]; a[0], @b = 1, 2, 3; p a, @b^n|[1]^n2^n|
one value|a = [0, 0]; a[0], a[1] = 7; p a; a[0], a[1] = nil; p a^n|[7, nil]^n[nil, nil]^n|
one array|a = [0, 0]; b = [1, 2]; a[0], a[1] = b; p a, b; @x, @y = [[3, 4]]; p @x, @y^n|[1, 2]^n[1, 2]^n[3, 4]^nnil^n|
an empty array|@x, @y = 1, 2; @x, @y = []; p @x, @y^n|nil^nnil^n|
what it gives|a = []; x = (a[0], @b = 1, 2); p x; x = (a[0], @b = 7); p x^n|[1, 2]^n7^n|
what a method gives|def f; return 1, 2; end; @a, $b = f; p @a, $b^n|1^n2^n|
one target twice|a = [0]; a[0], a[0] = 1, 2; @b, @b = 3, 4; p a, @b^n|[2]^n4^n|
an index is evaluated before it is assigned to|i = 0; a = [0, 0]; i, a[i] = 1, 9; p i, a^n|1^n[9, 0]^n|
a receiver is evaluated before it is assigned to|a = b = [0]; a, a[0] = [5], 6; p a, b^n|[5]^n[6]^n|
a right side that a setter changes|$r = [1, 2]; class S; def x=(v); $r[1] = 7; end; end; s = S.new; s.x, b = $r; p b, $r^n|2^n[1, 7]^n|
setters of the program|class S; def x=(v); puts \"x #{v}\"; 8; end; def []=(i, v); puts \"#{i} #{v}\"; 9; end; end; s = S.new; x = (s[1], s.x, s[2] = 3, 4, 5); p x^n|1 3^nx 4^n2 5^n[3, 4, 5]^n|
attributes of self|class P; attr_accessor :x, :y; def initialize(x, y); self.x, self.y = x, y; end; end; q = P.new(1, 2); p q.x, q.y^n|1^n2^n|
instance variables of an object|class P; attr_reader :x, :y; def initialize(x, y); @x, @y = x, y; end; def turn; @x, @y = @y, @x; self; end; end; q = P.new(1, 2).turn; p q.x, q.y^n|2^n1^n|
an index that raises|a = [1]; begin; a[raise(\"no\")], @b = 1, 2; rescue => e; p e.message, a, @b; end^n|\"no\"^n[1]^nnil^n|
a receiver that raises|a = [1]; begin; a[0], raise(\"no\").x = (print \"r\"; 2), 3; rescue => e; p e.message, a; end^n|\"no\"^n[1]^n|
a right side that raises|a = [1]; @b = 0; begin; a[0], @b = 2, raise(\"no\"); rescue => e; p e.message, a, @b; end^n|\"no\"^n[1]^n0^n|
a setter that raises|class S; def x=(v); raise \"no\"; end; end; s = S.new; @a = @b = 0; begin; @a, s.x, @b = 1, 2, 3; rescue => e; p e.message, @a, @b; end^n|\"no\"^n1^n0^n|
a frozen array among others|a = [1].freeze; b = [2]; begin; b[0], a[0], b[1] = 7, 8, 9; rescue FrozenError; p a, b; end^n|[1]^n[7]^n|
a setter that is not there|a = [0]; n = nil; begin; a[0], n.x, a[1] = 1, 2, 3; rescue NoMethodError; p a; end^n|[1]^n|
an exception that ends the script|@a, nil.x = 1, 2^n||undefined method 'x=' for nil (NoMethodError)
an index that leaves the loop|a = [0]; while true; a[(break)], b = 1, 2; end; p a, b^n|[0]^nnil^n|
a right side that leaves the method|def f; a = [0]; a[0], a[1] = 1, (return a); end; p f^n|[0]^n|
a right side that ends the turn|h = {}; [1, 2].each { ^px^p h[x], @y = 3, (next) }; p h, @y^n|{}^nnil^n|
in a turn of an iteration|a = [3, 1, 2]; 2.times { ^pi^p a[i], a[i + 1] = a[i + 1], a[i] if a[i] > a[i + 1] }; p a^n|[1, 2, 3]^n|
in a loop|a = [1, 2, 3, 4]; i, j = 0, 3; while i < j do a[i], a[j] = a[j], a[i]; i, j = i + 1, j - 1 end; p a^n|[4, 3, 2, 1]^n|
in one another|a = [0, 0]; b = [0, 0]; a[0], a[1] = (b[0], b[1] = 1, 2); p a, b^n|[1, 2]^n[1, 2]^n|
in an index|a = [5]; b = [0]; b[(a[0], @x = 0, 3; 0)], b[1] = @x, a; p a, b, @x^n|[0]^n[3, [0]]^n3^n|
a splat among the values|a = []; a[0], a[1] = [0, *[1, 2]]; p a^n|[0, 1]^n|";

#[test]
fn targets_print_what_is_wanted(rt: HostRuntime) -> Result<(), Fail> {
    check_rows(&rt, rt.alloc(), TARGETS)
}
