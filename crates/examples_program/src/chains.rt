//! Operators one after the other, what ends with an assignment, and readers of what a call gives, as a table of scripts.

use crate::table::check_rows;
use std::test::Fail;

/// As `RUN` of the rows: what it shows, the script, what it prints, and what is told of the exception that ends it.
const CHAINS: &str = "\
operators on integers, one after the other|a = 7; b = 3; p a + b * 3 - a / 2 + b % 2 - 1, a - b - 1, a * b + a * 2, a - 1 + b - 2 + a * 3 - b + 10^n|13^n3^n35^n35^n|
more operators than are done at once|a = 1; p a + 1 + 2 + 3 + 4 + 5 + 6 + 7 + 8 + 9 + 10 + 11, a - 1 - 2 - 3 - 4 - 5 - 6 - 7 - 8 - 9 - 10, a * 2 * 3 * 4 * 5 * 6 * 7 * 8 * 9 * 10^n|67^n-54^n3628800^n|
comparisons at their end|a = 5; i = 4; p a % 2 == 1, i % 2 + 1 == 2, a + i < 10, a + i - 1 > 8, a + i * 2 >= 13, a - 5 != i - 4, a + 1 <=> i^n|true^nfalse^ntrue^nfalse^ntrue^nfalse^n1^n|
conditions|i = 0; s = 0; while i * 2 + 1 < 20; s = s + i if i % 3 == 0; i = i + 1; end; p s, i; p(i + 1 - 2 > 5 ? 1 : 2); until i - 1 - 1 < 0; i = i - 2; end; p i^n|18^n10^n1^n0^n|
operands that need a frame|def f(x); x + 1; end; a = 2; p a + f(1) + 3, f(1) + a + 3, a + 1 + f(2), (a + 1) * (a + 2), a - (a - 1) - (a - 2), a + [1, 2][0] + 5^n|7^n7^n6^n12^n1^n8^n|
variables outside, instance variables, attributes, globals and constants|class A; attr_accessor :n; def initialize; @n = 4; @k = 2; end; def sum(o); @n + @k * 2 - o.n + 1; end; end; N = 3; $g = 6; a = A.new; x = 1; p a.sum(a), a.n + x + a.n - N + $g; [1, 2].each { ^pi^p x = x + i * 2 - N + a.n }; p x; a.n = a.n + 1 + x; p a.n^n|5^n12^n9^n14^n|
values that are no integers|a = \"a\"; b = [1]; p a + \"b\" + \"c\", b + [2] + [3], a * 2 + \"d\"; x = 2; begin; p x + 1 + \"e\"; rescue TypeError => e; puts e.message; end; begin; p x + 1 + nil; rescue TypeError => e; puts e.message; end; y = nil; begin; p x - 1 + y; rescue TypeError => e; puts e.message; end; begin; p y + 1 + x; rescue NoMethodError => e; puts e.message; end^n|\"abc\"^n[1, 2, 3]^n\"aad\"^nwrong type String^nwrong type NilClass^nwrong type NilClass^nundefined method '+' for nil^n|
operators of the program|class A; attr_reader :v; def initialize(v); @v = v; end; def +(o); A.new(@v * 10 + o); end; def -(o); @v - o; end; end; a = A.new(1); x = 2; p (a + x + 3).v, a + x - 4, a - 1 - 2, (a + 1 + 2 + 3 + 4).v^n|123^n8^n-2^n11234^n|
numbers that grow too large|m = 9223372036854775807; p m - 1 + 1; begin; p m + 1 - 1; rescue => e; puts e.class; end; begin; p m - 1 + 1 + 1; rescue => e; puts e.class; end; begin; x = 3; p x * m - m; rescue => e; puts e.class; end; p m / 2 * 2 + 1^n|9223372036854775807^nRangeError^nRangeError^nRangeError^n9223372036854775807^n|
a division by zero in their midst|a = 6; z = 0; begin; p a + 1 + a / z - 2; rescue ZeroDivisionError => e; puts e.message; end; begin; p a - 6 + 1 % z; rescue ZeroDivisionError => e; puts e.message; end; b = 5; begin; b = b + 1 + 2 / z; rescue ZeroDivisionError; end; p b^n|divided by 0^ndivided by 0^n5^n|
what was assigned before they raise|a = 1; b = 2; begin; a = a + b + 1; b = a + b + nil; rescue TypeError; end; p a, b; begin; b = a + 1 - b - \"c\"; rescue TypeError => e; p e.message; end; p a, b^n|4^n2^n\"wrong type String\"^n4^n2^n|
assignments with an operator|a = 1; b = 2; a += b + 1 - 2; p a; a -= a * 2 + 1 - b; p a; i = 0; while i < 5; i += 1; a += i * 2 + 1 - b; end; p a, i^n|2^n-1^n24^n5^n|
arguments, values of yield and of return|def f(a, b); return a + b + 1 if a + b - 1 > 5; a - b - 1; end; def g(x); yield x + 1 + 2, x - 1 - 2; end; a = 3; p f(a + 1 + 1, a - 1), f(a - 1 - 1, a + 1 - 3); g(a) { ^px, y^p p x + y + a, x * y - a * 2 + 1 }^n|8^n-1^n9^n-5^n|
rounds that end with an assignment|i = 0; x = while i < 3; i = i + 1; end; p x, i; j = 5; until j == 0; j -= 1; end; p j; i = 0; while i < 2; j = 0; while j < 2; j = j + 1; end; i = i + 1; end; p i, j; i = 0; y = while true; i = i + 1; break i * 2 if i > 3; end; p y; i = 0; n = 0; while i < 4; i = i + 1; next if i == 2; n = n + i; end; p n^n|nil^n3^n0^n2^n2^n8^n8^n|
a begin that ends with an assignment|x = begin; y = 5; rescue; 0; end; p x, y; x = begin; y = 6; rescue; 0; else; y + 1; end; p x; i = 0; while i < 3; begin; i = i + 1; rescue; p 0; end; end; p i; def f; begin; z = 4; rescue; 5; end; end; p f; x = begin; y = 1; ensure; p 2; end; p x; begin; raise \"a\"; rescue; w = 8; end; p w; def g; z = 9; rescue; 3; end; p g^n|5^n5^n7^n3^n4^n2^n1^n8^n9^n|
a block that ends with an assignment|def f; a = yield 2; b = yield 3; [a, b]; end; s = 1; p f { ^px^p s = s + x }, s; p f { ^px^p s += x }, s; def g; i = 0; while i < 3; i = i + 1; yield i; end; i; end; p g { ^px^p s = s * 2 + x - 1 }, s; t = 0; 3.times { ^pi^p t = t + i * 2 - 1 }; p t, [1, 2].map { ^px^p y = x + 1 + 1 }^n|[3, 6]^n6^n[8, 11]^n11^n3^n92^n3^n[3, 4]^n|
readers of what a call gives|class A; attr_reader :n, :o; def initialize(n, o); @n = n; @o = o; end; def me; self; end; def make(n); A.new(n, self); end; end; a = A.new(1, nil); p a.me.n, a.make(2).n, a.make(2).o.n, a.me.me.o, A.new(5, a).n, A.new(6, A.new(7, nil)).o.n; s = 0; 3.times { ^pi^p s = s + A.new(i, a).n + a.me.n }; p s; begin; a.me.o.n; rescue NoMethodError => e; puts e.message; end; begin; a.me.x; rescue NoMethodError => e; puts e.message; end^n|1^n2^n1^nnil^n5^n7^n6^nundefined method 'n' for nil^nundefined method 'x' for an instance of A^n|
readers under another method, and of what is no plain object|class A; attr_reader :n; def initialize; @n = 1; end; end; class B < A; def n; 2; end; def me; self; end; end; class E < StandardError; attr_reader :n; def initialize(n); super(\"m\"); @n = n; end; def me; self; end; end; p B.new.n, B.new.me.n, E.new(3).n, E.new(4).me.n, A.new.n, [A.new][0].n; begin; raise E.new(5); rescue E => e; p e.me.n, e.n + 1 + e.n; end^n|2^n2^n3^n4^n1^n1^n5^n11^n|";

#[test]
fn chains_print_what_is_wanted(rt: HostRuntime) -> Result<(), Fail> {
    check_rows(&rt, rt.alloc(), CHAINS)
}
