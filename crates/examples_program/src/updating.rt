//! Assignments that also read what they assign to, as tables of scripts.

use crate::table::check_rows;
use std::test::Fail;

/// As `RUN` of the rows: what it shows, the script, what it prints, and what is told of the exception that ends it.
const UPDATES: &str = "\
an operator on an instance variable|@a = 1; p(@a += 2); @a *= 5; @a -= 1; @a /= 2; @a %= 4; p @a^n|3^n3^n|
an operator on one that is unset|@a += 1^n||undefined method '+' for nil (NoMethodError)
or-assignment to an instance variable|p(@a ^p^p= 1); p(@a ^p^p= 2); @a = false; @a ^p^p= 3; p @a^n|1^n1^n3^n|
and-assignment to an instance variable|p(@a &&= 1); p @a; @a = 2; @a &&= @a + 1; p @a; p(@a &&= nil); p @a^n|nil^nnil^n3^nnil^nnil^n|
what is not needed is not evaluated|@a = 1; @a ^p^p= (puts 2); @b &&= (puts 3); h = {x: 1}; h[:x] ^p^p= (puts 4); h[:y] &&= (puts 5); p @a, @b, h^n|1^nnil^n{x: 1}^n|
append and assign|a = b = [1]; a <<= 2; p a, b; p a.equal?(b); @c = \"x\"; @c <<= \"y\"; p @c; p(a <<= 3)^n|[1, 2]^n[1, 2]^ntrue^n\"xy\"^n[1, 2, 3]^n|
append to an element|h = {a: [1]}; p(h[:a] <<= 2); p h; c = [[0]]; c[0] <<= 4; p c^n|[1, 2]^n{a: [1, 2]}^n[[0, 4]]^n|
a hash|h = {}; h[:a] ^p^p= 1; h[:a] += 2; p h^n|{a: 3}^n|
an index once|a = [1]; i = 0; a[(i += 1; 0)] += 5; p a, i^n|[6]^n1^n|
a receiver once|def t(x); puts 0; x; end; a = [1]; t(a)[0] += 5; t(a)[1] ^p^p= 7; p a^n|0^n0^n[6, 7]^n|
the value|h = {}; x = (h[:k] ^p^p= 5); y = (h[:k] ^p^p= 6); z = (h[:k] += 1); p x, y, z^n|5^n5^n6^n|
elements of elements|m = [[1, 2], [3]]; m[0][1] += 5; m[1][0] ^p^p= 8; m[1][2] ^p^p= 8; p m^n|[[1, 7], [3, nil, 8]]^n|
the right side stands on the right|a = [1]; a[0] += a[0] += 1; p a; x = 2; x += x *= 3; p x^n|[3]^n8^n|
the order|def t(x); print x; x; end; class O; def [](i); print \"r\"; i; end; def []=(i, v); print \"w\"; 0; end; end; def o; print \"o\"; O.new; end; p(o[t(1)] += t(2)); p(o[t(3)] ^p^p= t(4)); p(o[t(5)] &&= t(6))^n|o1r2w3^no3r3^no5r6w6^n|
an attribute|class A; attr_accessor :n; end; o = A.new; p(o.n ^p^p= 3); p(o.n ^p^p= 4); p(o.n += 1); p(o.n &&= 7); o.n -= 2; p o.n; p(o.n &&= nil); p o.n^n|3^n3^n4^n7^n5^nnil^nnil^n|
an attribute's methods|class A; def n; puts 1; @n; end; def n=(v); puts 2; @n = v; 9; end; end; a = A.new; p(a.n ^p^p= 5); p(a.n += 1)^n|1^n2^n5^n1^n2^n6^n|
append to an attribute|class A; attr_accessor :n; end; o = A.new; o.n = []; o.n <<= 1; o.n <<= 2; p o.n^n|[1, 2]^n|
self's attribute|class A; attr_accessor :n; def f; self.n ^p^p= 1; self.n += 1; @n *= 5; self; end; end; p A.new.f.n^n|10^n|
the operator is the object's|class V; attr_reader :x; def initialize(x); @x = x; end; def +(o); V.new(@x + o); end; def <<(o); @x *= o; self; end; end; v = V.new(1); v += 2; p v.x; a = [v]; a[0] += 4; p a[0].x; a[0] <<= 3; p v.x, a[0].x^n|3^n7^n3^n21^n|
texts|a = [\"x\"]; b = a[0]; a[0] += \"y\"; p a, b; h = {}; h[\"k\"] ^p^p= \"v\"; h[\"k\"] += \"w\"; p h^n|[\"xy\"]^n\"x\"^n{\"k\" => \"vw\"}^n|
an exception in the index|a = [1]; begin; a[1 / 0] += (puts 1; 2); rescue ZeroDivisionError => e; puts e.message; end; p a^n|divided by 0^n[1]^n|
an exception in the receiver|begin; (raise \"a\")[(puts 1)] += (puts 2); rescue => e; puts e.message; end^n|a^n|
an exception in the reading|class A; def [](i); raise \"r\"; end; def []=(i, v); puts 1; end; end; a = A.new; begin; a[0] ^p^p= (puts 2); rescue => e; puts e.message; end^n|r^n|
an exception in the right side|h = {a: 1}; begin; h[:a] += (1 / 0); rescue ZeroDivisionError => e; puts e.message; end; begin; h[:b] ^p^p= (raise \"b\"); rescue => e; puts e.message; end; p h^n|divided by 0^nb^n{a: 1}^n|
an exception in the operator|h = {}; begin; h[:a] += (puts 1; 1); rescue NoMethodError => e; puts e.message; end; p h^n|1^nundefined method '+' for nil^n{}^n|
an exception in the setter|class A; attr_reader :n; def n=(v); raise \"s\"; end; end; a = A.new; begin; a.n ^p^p= (puts 1; 2); rescue => e; puts e.message; end; p a.n^n|1^ns^nnil^n|
no setter|class A; attr_reader :n; end; a = A.new; a.n ^p^p= 1^n||undefined method 'n=' for an instance of A (NoMethodError)
no getter|5.n ^p^p= (puts 1)^n||undefined method 'n' for an instance of Integer (NoMethodError)
a setter that is not needed|class A; def n; 1; end; end; p(A.new.n ^p^p= 2)^n|1^n|
an element of nil|nil[0] ^p^p= 1^n||undefined method '[]' for nil (NoMethodError)
a frozen array|a = [1].freeze; a[0] ^p^p= 2; a[0] += (puts 3; 1)^n|3^n|can't modify frozen Array (FrozenError)
a frozen self|self.freeze; @a ^p^p= (puts 1; 2)^n|1^n|can't modify frozen Object (FrozenError)
break out of the right side|a = [0, 0]; r = [1, 2, 3].each { ^px^p a[0] += (break x if x > 2; x) }; p a, r^n|[3, 0]^n3^n|
next in the right side|a = [0]; p([1, 2].map { ^px^p a[0] += (next 5 if x > 1; x) }); p a^n|[1, 5]^n[1]^n|
return out of the right side|def f(h); h[:a] ^p^p= (return 3 if h; 4); 5; end; h = {}; p f(h), h^n|3^n{}^n|
a counter in a loop|h = {}; i = 0; while i < 7 do h[i % 3] ^p^p= 0; h[i % 3] += i; i += 1 end; p h^n|{0 => 9, 1 => 5, 2 => 7}^n|
in blocks|h = {}; [1, 2, 3].each { ^px^p h[x % 2] ^p^p= []; h[x % 2] <<= x }; p h; @n = 0; 3.times { ^pi^p @n += i }; p @n^n|{1 => [1, 3], 0 => [2]}^n3^n|
a block in the right side|a = [nil]; a[0] ^p^p= [1, 2].map { ^px^p x + 1 }; p a^n|[[2, 3]]^n|
assignments in one another|h = {}; a = [0]; h[a[0] += 1] ^p^p= a[0] += 1; p h, a; x = nil; x ^p^p= h[1] ^p^p= 3; p x^n|{1 => 2}^n[2]^n2^n|
a variable of a variable|x ^p^p= 1; x &&= x + 1; y = x += 1; p x, y; z = nil; p(z &&= 3)^n|3^n3^nnil^n|
in a text and in arguments|h = {}; puts \"#{h[:a] ^p^p= 1} #{h[:a] += 1}\", h[:a] *= 3^n|1 2^n6^n|";

#[test]
fn assignments_that_read_print_what_is_wanted(rt: HostRuntime) -> Result<(), Fail> {
    check_rows(&rt, rt.alloc(), UPDATES)
}
