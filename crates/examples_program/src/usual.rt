//! Parts that are evaluated at once, as a table of scripts.

use crate::table::check_rows;
use std::test::Fail;

/// As `RUN` of the rows: what it shows, the script, what it prints, and what is told of the exception that ends it.
const USUAL: &str = "\
a value that raises is not assigned|x = 5; begin; x = 1 / 0; rescue ZeroDivisionError; end; p x^n|5^n|
a condition that raises|begin; if 1 / 0 then p 1 end; rescue ZeroDivisionError => e; puts e.message; end^n|divided by 0^n|
the condition of a loop that raises|i = 0; begin; while 1 / i do p 1 end; rescue ZeroDivisionError; p 2; end^n|2^n|
a condition outside of a block|a = nil; [1].each { if a then p 1 else p 2 end }^n|2^n|
loops that do not begin|while false do p 1 end; until true do p 2 end; p 3^n|3^n|
a loop counts outside of a block|i = 0; 1.times { while i < 3 do i = i + 1 end }; p i^n|3^n|
a text in the place of an integer|def f(a); a + 1; end; begin; f(\"x\"); rescue TypeError; p 4; end^n|4^n|
too few arguments|def f(a, b); end; begin; f(1); rescue ArgumentError => e; puts e.message; end^n|wrong number of arguments (given 1, expected 2)^n|
a method in the place of one that prints|def puts(x); p x + 1; end; puts(3)^n|4^n|
self as an argument|def f(a); a.equal?(self); end; p f(self)^n|true^n|
an argument that raises|def f(a); p 1; end; begin; f(1 / 0); rescue ZeroDivisionError; p 2; end^n|2^n|
a splat is no such argument|def f(a); a; end; b = [7]; p f(*b)^n|7^n|
one array for two parameters|def f; a = [1, 2]; yield a; end; f { ^px, y^p p x + y }^n|3^n|
one integer for two parameters|def f; yield 1; end; f { ^px, y^p p x, y }^n|1^nnil^n|
no block|def f; yield 1; end; begin; f; rescue LocalJumpError => e; puts e.message; end^n|no block^n|
a method too deep in itself|def f(n); f(n + 1); end; begin; f(0); rescue SystemStackError; p 1; end^n|1^n|
a return of an operator|def f(a); return a * 2; p 1; end; p f(4)^n|8^n|
a condition that raises behind a turn|i = 1; begin; while 1 / i > 0 do i = i - 1 end; rescue ZeroDivisionError; p i; end^n|0^n|
a choice without an else|p((if false then 1 end)); def f(n); return 1 if n > 2; end; p f(3), f(1)^n|nil^n1^nnil^n|
a receiver that a call gives|class A; attr_reader :b; def initialize(b); @b = b; end; end; p A.new(A.new(7)).b.b^n|7^n|
a receiver that a call gives, with an argument|class A; def add(a, b); a + b; end; end; def a; A.new; end; p a.add(1, a.add(2, 3))^n|6^n|
an argument that a call gives|def f(a, b); a - b; end; p f(1, f(9, 3))^n|-5^n|
a call without the method, of what a call gives|def f; 3; end; begin; f.none; rescue NoMethodError; p 4; end^n|4^n|
too few arguments, of which a call gives the last|def f(a, b); end; def g; 1; end; begin; f(g); rescue ArgumentError => e; puts e.message; end^n|wrong number of arguments (given 1, expected 2)^n|
a method that needs arguments, of what a call gives|class A; def f(a); end; end; def a; A.new; end; begin; a.f; rescue ArgumentError => e; puts e.message; end^n|wrong number of arguments (given 0, expected 1)^n|
an array that a call gives is joined|class A; def to_s; \"x\"; end; end; def a; [A.new, 1]; end; puts a.join(\"-\"), a.join^n|x-1^nx1^n|
a block is given what a call gives|def f(x); x; end; def g; yield f([1, 2]); end; g { ^pa, b^p p b }; g { ^pa^p p a }^n|2^n[1, 2]^n|
no block for what a call gives|def f(x); x; end; def g; yield f(1); end; begin; g; rescue LocalJumpError => e; puts e.message; end^n|no block^n|
a method in the place of one of all values, of what a call gives|class A; def inspect; \"a\"; end; def to_s; 5; end; end; def a; A.new; end; p a.to_s, a^n|5^na^n|
a method too deep in its argument|def f(n); f(f(n)); end; begin; f(0); rescue SystemStackError; p 1; end^n|1^n|
an integer on the left|x = 5; p 2 * x, 10 - x, 1 < x, 5 == x; p 3 if 4 < x^n|10^n5^ntrue^ntrue^n3^n|
a remainder by zero|x = 7; begin; x = x % 0; rescue ZeroDivisionError => e; puts e.message; end; p x^n|divided by 0^n7^n|
a product out of range|x = 4611686018427387904; y = 1; begin; y = x * 4; rescue RangeError; p 2; end; p y^n|2^n1^n|
an assignment as the last statement|def f; a = 1; b = a + 1; end; p f^n|2^n|
an assignment as a condition|a = 0; if (a = a + 1) > 0 then p a end^n|1^n|
assignments in a block|r = 0; 2.times { ^px^p y = x + 1; r = r + y }; p r^n|3^n|
an assignment before what raises|a = 1; begin; a = 2; raise \"b\"; a = 3; rescue; p a; end^n|2^n|
a return among the statements of a choice|def f(n); if n > 0; a = n; return a * 2; end; 0; end; p f(3), f(0)^n|6^n0^n|
a return out of a loop|def f; i = 0; while true; i = i + 1; return i if i > 2; end; end; p f^n|3^n|
a return out of a begin|def f; begin; return 1; ensure; p 2; end; end; p f^n|2^n1^n|
a return in a block of a method|def f; [1, 2].each { ^px^p return x }; 3; end; p f^n|1^n|
a choice without an else as the last statement|def f(n); x = n; if x > 1 then x end; end; p f(2), f(1)^n|2^nnil^n|
a reader that is given an argument|class A; attr_reader :b; end; a = A.new; begin; a.b(1); rescue ArgumentError => e; puts e.message; end; p a.b^n|wrong number of arguments (given 1, expected 0)^nnil^n|
blocks without statements|def f; yield 1; end; p f { ^px^p }, 2.times { }^n|nil^n2^n|
operators on a variable and an integer|x = -7; p x + 2, x - 2, x * 2, x / 2, x % 2, x < 2, x <= 2, x > 2, x >= 2, x == 2, x != 2, x <=> 2^n|-5^n-9^n-14^n-4^n1^ntrue^ntrue^nfalse^nfalse^nfalse^ntrue^n-1^n|
operators on two variables, one of them outside of a block|s = 7; [2].each { ^px^p p s + x, s - x, s * x, s / x, s % x, s < x, s <= x, s > x, s >= x, s == x, s != x, s <=> x }^n|9^n5^n14^n3^n1^nfalse^nfalse^ntrue^ntrue^nfalse^ntrue^n1^n|
operators on variables of two blocks|a = 1; 1.times { b = 2; 1.times { c = a - b; p c, a + 1, b + 1 } }^n|-1^n2^n3^n|
operators on variables that are texts|a = \"x\"; b = \"y\"; p a + b, a * 2, a == b, a == 2^n|\"xy\"^n\"xx\"^nfalse^nfalse^n|
a quotient by a variable that is zero|a = 4; b = 0; begin; c = a / b; rescue ZeroDivisionError => e; puts e.message; end; p c^n|divided by 0^nnil^n|
a sum of two variables out of range|a = 9223372036854775807; b = 1; begin; a = a + b; rescue RangeError; p 2; end; p a - 1^n|2^n9223372036854775806^n|
a method of its own class, called without a receiver|class A; def f(x); g(x + 1); end; def g(y); y * 2; end; end; p A.new.f(3)^n|8^n|
a method of the program, called in a class|def f(a, b); a - b; end; class A; def g(x); f(x, 1); end; end; p A.new.g(5)^n|4^n|
no method of its own class|class A; def f(x); g(x); end; end; begin; A.new.f(1); rescue NoMethodError; p 2; end^n|2^n|
a method of the class above|class A; attr_reader :b; def f(x); x + @b; end; end; class B < A; def initialize; @b = 3; end; end; p B.new.b, B.new.f(4)^n|3^n7^n|
an attribute that another class has as a method|class A; attr_reader :v; def initialize(v); @v = v; end; end; class B; def v; 5; end; end; a = A.new(1); b = B.new; x = a.v; y = b.v; p x + y^n|6^n|
an attribute that a class below has as a method|class A; attr_reader :v; def initialize; @v = 1; end; end; class B < A; def v; p 0; @v + 1; end; end; a = A.new; b = B.new; x = b.v; y = a.v; p x, y^n|0^n2^n1^n|
an attribute of what has none|class A; attr_reader :v; end; a = 1; begin; x = a.v; rescue NoMethodError; p 2; end; p x^n|2^nnil^n|
an operator on an instance variable that was never set|class A; def f; x = @v; y = @v + 1; end; end; begin; A.new.f; rescue NoMethodError; p 1; end^n|1^n|
operators on instance variables|class A; def initialize; @a = 6; @b = 3; end; def f; @a - @b * 2 + @a / @b; end; end; p A.new.f^n|2^n|
attributes as arguments, as an index and as a condition|class A; attr_reader :v; def initialize(v); @v = v; end; end; def f(a, b); a - b; end; a = A.new(5); b = [7, 8]; c = A.new(1); p f(a.v, c.v), b[c.v]; p 3 if c.v^n|4^n8^n3^n|
literals and a class as arguments|class A; end; def f(a, b, c, d); [a, b, c, d]; end; p f(nil, true, :b, A), f(A, false, self.equal?(self), 1)[1]^n|[nil, true, :b, A]^nfalse^n|
an attribute in a block|class A; attr_reader :v; def initialize; @v = 4; end; end; a = A.new; 2.times { x = a.v; p x; a = A.new }^n|4^n4^n|
three statements in a method of a receiver, and one|class A; def f; x = 1; x = x + 1; x * 2; end; def g; 7; end; end; a = A.new; p a.f, a.g^n|4^n7^n|";

#[test]
fn parts_at_once_print_what_is_wanted(rt: HostRuntime) -> Result<(), Fail> {
    check_rows(&rt, rt.alloc(), USUAL)
}
