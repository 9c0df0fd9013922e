//! Assignments with an operator, and constants and global variables that are read, as a table of scripts.

use crate::table::check_rows;
use std::test::Fail;

/// As `RUN` of the rows: what it shows, the script, what it prints, and what is told of the exception that ends it.
const UPDATES: &str = "\
each operator|a = 7; a += 3; p a; a -= 4; p a; a *= 5; p a; a /= 4; p a; a %= 4; p a^n|10^n6^n30^n7^n3^n|
the value of such an assignment|a = 1; b = (a += 2); p a, b; p (a *= 3)^n|3^n3^n9^n|
a right side that is a variable, an operator or a call|def f(x); x + 1; end; a = 1; b = 2; a += b; p a; a += b * 3; p a; a += f(a); p a; a -= a; p a^n|3^n9^n19^n0^n|
a variable outside of a block|s = 0; 3.times { ^pi^p s += i; t = i; t += 1; s += t }; p s^n|9^n|
a variable that a method has of the same name|n = 5; def f(n); n += 1; n; end; p f(1), n^n|2^n5^n|
in a loop, with a condition|i = 0; s = 0; while (i += 1) < 5; s += i; end; p i, s^n|5^n10^n|
texts, arrays and symbols|a = \"x\"; b = a; a += \"y\"; p a, b; c = [1]; d = c; c += [2]; p c, d; a *= 3; p a^n|\"xy\"^n\"x\"^n[1, 2]^n[1]^n\"xyxyxy\"^n|
zero, and an integer that grows too large|a = 1; begin; a /= 0; rescue ZeroDivisionError => e; p e.message, a; end; begin; a %= 0; rescue ZeroDivisionError; p a; end^n|\"divided by 0\"^n1^n1^n|
nil and what is no integer|a = nil; begin; a += 1; rescue NoMethodError; p a; end; b = 1; begin; b += nil; rescue TypeError; p b; end; begin; b += \"x\"; rescue TypeError; p b; end^n|nil^n1^n1^n|
an exception on the right side|a = 1; begin; a += raise(\"x\"); rescue => e; p a, e.message; end^n|1^n\"x\"^n|
an operator of the program|class A; attr_reader :n; def initialize(n); @n = n; end; def +(o); A.new(@n + o); end; end; a = A.new(1); b = a; a += 4; p a.n, b.n^n|5^n1^n|
instance variables|class A; def go; @n = 1; @n += 2; @n *= @n; @t = \"a\"; @t += \"b\"; p @n, @t; p (@n -= 1); end; end; A.new.go^n|9^n\"ab\"^n8^n|
an instance variable that is unset, or of a frozen object|class A; def go; @n += 1; end; def set; @m = 1; freeze; @m += 1; end; def m; @m; end; end; begin; A.new.go; rescue NoMethodError; p 1; end; a = A.new; begin; a.set; rescue FrozenError; p a.m; end^n|1^n1^n|
an operator on an instance variable and on a variable that are no integers|class A; def go(t, m); @t = \"a\"; @t += t; @l = [1]; @l += m; @n = 4; @n += @n; begin; @n += t; rescue TypeError; p @t, @l, @n; end; end; end; A.new.go(\"b\", [2])^n|\"ab\"^n[1, 2]^n8^n|
an instance variable gets what a method gives whose name an attribute has|class A; attr_reader :v; def initialize; @v = 1; end; end; class B; def v; 5; end; def take(o); @w = o.v; @w += o.v; end; end; b = B.new; p b.take(A.new), b.take(b)^n|2^n10^n|
instance variables in blocks and loops|class A; def go; @s = 0; 4.times { ^pi^p @s += i }; i = 0; while i < 3; @s += i; i += 1; end; @s; end; end; p A.new.go^n|9^n|
elements of arrays|a = [1, 2]; i = 1; a[0] += 5; a[i] *= 4; a[-1] -= 1; p a; p (a[i - 1] += 1)^n|[6, 7]^n7^n|
elements of hashes|h = {a: 1}; k = \"t\"; h[:a] += 1; h[k] = \"x\"; h[k] += \"y\"; p h[:a], h[\"t\"]; h[3] = [1]; h[3] += [2]; p h[3]^n|2^n\"xy\"^n[1, 2]^n|
an element that is not there|h = {}; begin; h[:a] += 1; rescue NoMethodError; p h; end; a = []; begin; a[2] += 1; rescue NoMethodError; p a; end^n|{}^n[]^n|
an element of a frozen array|a = [1].freeze; begin; a[0] += 1; rescue FrozenError; p a; end^n|[1]^n|
an element whose right side is a call or raises|def f(x); x * 2; end; a = [1]; a[0] += f(4); p a; begin; a[0] += raise(\"no\"); rescue => e; p a, e.message; end; begin; a[0] /= 0; rescue ZeroDivisionError; p a; end^n|[9]^n[9]^n\"no\"^n[9]^n|
parts of an element, evaluated once and in order|def t(x); print x; x; end; a = [5, 6]; a[t(1)] += t(2); p a; def b(a); print 0; a; end; b(a)[t(0)] *= t(3); p a^n|12[5, 8]^n003[15, 8]^n|
elements of elements|a = [[1, 2], [3]]; a[0][1] += a[1][0]; a[1][0] += 1; p a; h = {x: {y: 1}}; h[:x][:y] += 4; p h[:x][:y]^n|[[1, 5], [4]]^n5^n|
methods of a class with such names|class A; def [](i); p [:get, i]; i; end; def []=(i, v); p [:set, i, v]; end; end; a = A.new; a[3] += 4^n|[:get, 3]^n[:set, 3, 7]^n|
attributes|class A; attr_accessor :n; def initialize; @n = 1; end; end; a = A.new; a.n += 5; p a.n; a.n *= a.n; p a.n; p (a.n -= 1)^n|6^n36^n35^n|
attributes by methods|class A; def n; p :get; 2; end; def n=(v); p [:set, v]; end; end; a = A.new; a.n += 5^n|:get^n[:set, 7]^n|
an attribute without a writer|class A; attr_reader :n; def initialize; @n = 1; end; end; a = A.new; begin; a.n += 1; rescue NoMethodError; p a.n; end^n|1^n|
an element of an instance variable|class A; def initialize; @a = [1, 2]; @h = {k: 1}; end; def go; i = 0; @a[i] += 1; @h[:k] += @a[1]; p @a, @h[:k]; end; end; A.new.go^n|[2, 2]^n3^n|
counts in a hash|h = {}; [:a, :b, :a].each { ^pk^p h[k] = 0 if !h.key?(k); h[k] += 1 }; p h[:a], h[:b]^n|2^n1^n|
global variables|$n = 1; $n += 2; p $n, $n * $n; def f; $n + 1; end; p f; 2.times { ^pi^p $n -= i }; p $n, $unset^n|3^n9^n4^n2^nnil^n|
constants of a program|N = 3; M = N + 1; def f(x); x + N * M; end; i = 0; while i < N; i += 1; end; p i, f(N), [N, M]^n|3^n15^n[3, 4]^n|
constants that hold objects|A = [1, 2].freeze; B = {k: 5}.freeze; i = 1; p A[i], A.size, B[:k]; A.each { ^px^p p x + A[0] }^n|2^n2^n5^n2^n3^n|
a constant that is a class|K = String; class P; end; Q = P; p K, Q == P, Q.new.class == P; begin; raise E; rescue NameError; p 1; end^n|String^ntrue^ntrue^n1^n|
built-in classes by their names|begin; raise ArgumentError, \"x\"; rescue ArgumentError => e; p e.class == ArgumentError, e.class; end; p Integer, 1.class == Integer, StandardError == ArgumentError^n|true^nArgumentError^nInteger^ntrue^nfalse^n|
a constant that is missing|begin; p Nope; rescue NameError => e; puts e.message; end; i = 0; begin; i += Nope; rescue NameError; p i; end^n|uninitialized constant Nope^n0^n|
operators on values that are no integers|a = :x; b = nil; p a == :x, a != :x, a == :y, b == nil, b != nil, true == true, \"a\" == \"a\", [1] == [1], \"a\" < \"b\"^n|true^nfalse^nfalse^ntrue^nfalse^ntrue^ntrue^ntrue^ntrue^n|
operators on calls and elements|def f; :x; end; a = [:x, nil]; p f == a[0], a[1] == nil, a[0] == a[1], (f if f == :x), a.first == f^n|true^ntrue^nfalse^n:x^ntrue^n|
an operator that the receiver lacks|begin; :a + 1; rescue NoMethodError; p 1; end; begin; nil < 1; rescue NoMethodError; p 2; end; begin; 1 + nil; rescue TypeError; p 3; end; begin; 1 < :a; rescue ArgumentError; p 4; end^n|1^n2^n3^n4^n|
an equality of the program|class A; def ==(o); p o; 7; end; end; a = A.new; p a == 1, a != 1^n|1^n1^n7^nfalse^n|";

#[test]
fn updates_print_what_is_wanted(rt: HostRuntime) -> Result<(), Fail> {
    check_rows(&rt, rt.alloc(), UPDATES)
}
