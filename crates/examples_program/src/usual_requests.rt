//! Calls of built-in methods, whose values need no frame or are there, as a table of scripts.

use crate::table::check_rows;
use std::test::Fail;

/// As `RUN` of the rows: what it shows, the script, what it prints, and what is told of the exception that ends it.
const REQUESTS: &str = "\
elements of an array, by indices of each kind|a = [1, 2, 3]; i = 1; p a[0], a[i], a[i + 1], a[3], a[-1], a[-3], a[-4]^n|1^n2^n3^nnil^n3^n1^nnil^n|
an index that is no integer|a = [1]; b = \"x\"; begin; a[b]; rescue TypeError; p a[0]; end^n|1^n|
values behind an array|a = []; b = 5; a << 1; a << b << b + 1; a.push(7); p a, a.size, a.length^n|[1, 5, 6, 7]^n4^n4^n|
what a push gives|a = [1]; b = a << 2; c = b.push(3); p c.equal?(a), c^n|true^n[1, 2, 3]^n|
a push onto a frozen array|a = [1].freeze; begin; a << 2; rescue FrozenError; p a; end; begin; a.push(2); rescue FrozenError; p a.size; end^n|[1]^n1^n|
elements that are set|a = [1, 2]; i = 0; a[i] = 5; a[1] = i; a[-1] = 9; a[2] = 3; a[5] = 1; p a^n|[5, 9, 3, nil, nil, 1]^n|
an element of a frozen array that is set|a = [1].freeze; begin; a[0] = 2; rescue FrozenError; p a; end^n|[1]^n|
an index too far below|a = [1]; begin; a[-2] = 3; rescue IndexError; p a; end^n|[1]^n|
the value of an assignment to an element|a = [1]; b = (a[0] = 3); p a, b^n|[3]^n3^n|
values of keys|h = {a: 1, 2 => 3}; k = :a; h[k] = h[2]; h[\"x\"] = k; p h[:a], h[\"x\"], h[5], h.size, h.length^n|3^n:a^nnil^n3^n3^n|
a frozen hash|h = {a: 1}.freeze; begin; h[:a] = 2; rescue FrozenError; p h[:a]; end^n|1^n|
a key that is none|h = {a: 1}; k = [1]; begin; h[k]; rescue TypeError; p 2; end^n|2^n|
calls of nil|a = nil; begin; a[0]; rescue NoMethodError; p 1; end; begin; a << 1; rescue NoMethodError; p 2; end; begin; a[0] = 1; rescue NoMethodError; p 3; end; begin; a.size; rescue NoMethodError; p 4; end^n|1^n2^n3^n4^n|
methods of a class with such names|class A; def [](i); i + 1; end; def <<(x); x * 2; end; def []=(i, v); p i, v; end; def size; 7; end; end; a = A.new; p a[1], a << 2, a.size; a[3] = 4^n|2^n4^n7^n3^n4^n|
such a method, called on self|class A; def f(i); self[i]; end; def [](i); i + 5; end; end; p A.new.f(2)^n|7^n|
a method of all values with the name of a built-in one|def size; 3; end; def push(x); 0; end; a = [1]; p a.size, a.push(2)^n|1^n[1, 2]^n|
calls of what calls give|a = [[1, 2], [3]]; i = 1; p a[0][i], a[i][0], a[i].size, a.first.last, [[4]][0][0]^n|2^n3^n1^n2^n4^n|
arguments that calls give|def f(x); x + 1; end; a = [0]; a << f(1); a.push(f(2)); a[f(0)] = f(6); p a, a[f(0)]^n|[0, 7, 3]^n7^n|
values of calls in operators|h = {n: 1}; h[:n] = h[:n] + h[:n] * 2; p h[:n], h.size + h[:n]^n|3^n4^n|
arguments that are spread|a = [1]; a.push(*[4]); i = 0; p a.push(*[i]), a.include?(*[4])^n|[1, 4, 0]^ntrue^n|
parts from left to right|def t(x); print x; x; end; a = [5]; a[t(0)] = t(1); p a, a[t(0)]; p [t(2)].push(t(3))^n|010[1]^n1^n23[2, 3]^n|
an array whose objects are asked|class A; def to_s; \"z\"; end; end; a = [A.new, 1]; s = \"-\"; puts a.join(s), a.join, [a].join(s)^n|z-1^nz1^nz-1^n|
a message and its size|begin; raise \"abc\"; rescue => e; p e.message, e.message.size, e.message[1]; end^n|\"abc\"^n3^n\"b\"^n|
arguments that are too many|a = [1]; begin; a.size(1); rescue ArgumentError => e; puts e.message; end^n|wrong number of arguments (given 1, expected 0)^n|
characters of a text|s = \"ab\"; s << \"c\"; i = 1; p s, s[i], s[-1], s.size, s[5]^n|\"abc\"^n\"b\"^n\"c\"^n3^nnil^n|
a size in a condition|a = []; while a.size < 3; a << a.size; end; p a^n|[0, 1, 2]^n|
methods of integers and symbols|i = 4; k = :ab; p i.even?, i.to_s, k.to_s, i.nil?, k.inspect^n|true^n\"4\"^n\"ab\"^nfalse^n\":ab\"^n|
an element that raises in a method|def f(a); a[\"x\"]; end; begin; f([1]); rescue TypeError; p 1; end^n|1^n|
an element of an attribute|class A; attr_reader :v; def initialize; @v = [7, 8]; end; def f(i); @v[i] = @v[i] + 1; @v << i; end; end; a = A.new; p a.f(1), a.v[1], a.v.size^n|[7, 9, 1]^n9^n3^n|
an array inside itself|a = [1]; a << a; p a[1][1][0], a.size, a^n|1^n2^n[1, [...]]^n|";

#[test]
fn calls_at_once_print_what_is_wanted(rt: HostRuntime) -> Result<(), Fail> {
    check_rows(&rt, rt.alloc(), REQUESTS)
}
