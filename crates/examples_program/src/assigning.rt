//! Assignments with an operator and to elements, and calls of names that no method has, as tables of scripts.
//!
//! As `RUN` of the rows: what it shows, the script, what it prints, and what is told of the exception that ends it.

use crate::table::check_rows;
use std::test::Fail;

const ASSIGNMENTS: &str = "\
adding to a variable|a = 1; a += 2; p a; p(a += 1)^n|3^n4^n|
each operator and an assignment|a = 7; a -= 2; p a; a *= 3; p a; a /= 2; p a; a %= 4; p a^n|5^n15^n7^n3^n|
more behind a text|a = \"x\"; b = a; a += \"y\"; p a, b^n|\"xy\"^n\"x\"^n|
adding to an array|a = [1]; b = a; a += [2]; p a, b^n|[1, 2]^n[1]^n|
adding in a loop|i = 0; s = 0; while i < 10 do s += i; i += 1 end; p i, s^n|10^n45^n|
adding to nothing|a += 1^n||undefined method '+' for nil (NoMethodError)
adding what raises|a = 1; a += 1 / 0^n||divided by 0 (ZeroDivisionError)
adding a text to an integer|a = 1; a += \"b\"^n||wrong type String (TypeError)
the variable is read before the value|a = 1; a += (a = 5); p a^n|6^n|
a sum past 64 bits|a = 9223372036854775807; a += 1^n||integer out of 64 bits (RangeError)
a chain of assignments|a = b = 2; a += b += 3; p a, b^n|7^n5^n|
adding in a method|def f(n)^n  n += 1^n  n *= n^n  n^nend^np f(3)^n|16^n|
adding as a condition|a = 0; puts 1 while (a += 1) < 3; p a^n|1^n1^n3^n|
assigned unless true|a = nil; a ^p^p= 1; p a; a ^p^p= 2; p a; b ^p^p= 3; p b^n|1^n1^n3^n|
assigned if true|a = nil; a &&= 1; p a; a = 2; a &&= a + 1; p a; p(a &&= nil)^n|nil^n3^nnil^n|
what is not needed is not evaluated|a = 1; a ^p^p= (puts 2); a = nil; a &&= (puts 3); p a^n|nil^n|
what an assignment with an operator gives|a = 5; b = (a -= 7); p a, b^n|-2^n-2^n|
a text several times|s = \"ab\"; s += \"c\"; puts s; s *= 2; puts s^n|abc^nabcabc^n|
variables of a method and of the program|def f(n)^n  n += 1^n  n^nend^nn = 4; p f(n), n^n|5^n4^n|
adding nil to an integer|a = 1; puts \"x\"; a += nil; puts \"y\"^n|x^n|wrong type NilClass (TypeError)
assigned unless false|a = false; p(a ^p^p= 2); a = 0; a ^p^p= 2; p a^n|2^n0^n|
false is assigned nothing|a = false; p(a &&= 2)^n|false^n|
a quotient by zero|a = 1; puts a; a /= 0^n|1^n|divided by 0 (ZeroDivisionError)
a value that assigns|a = 2; b = 3; a *= b += 1; p a, b^n|8^n4^n|
assignments in a loop|a = nil; i = 0; while i < 5 do a ^p^p= i; a &&= a + i; i += 1 end; p a^n|10^n|";

const ELEMENTS: &str = "\
an element of an array|a = [1, 2]; a[0] = 3; p a; a[-1] = 4; p a^n|[3, 2]^n[3, 4]^n|
behind the elements of an array|a = [1]; a[1] = 2; a[4] = 5; p a^n|[1, 2, nil, nil, 5]^n|
what an assignment to an element gives|a = []; p(a[0] = 7); b = (a[1] = \"x\"); p b, a^n|7^n\"x\"^n[7, \"x\"]^n|
before the first element|a = [1]; a[-2] = 0^n||index out of range (IndexError)
the receiver, the index and the value in order|a = [0]; (print 1; a)[(print 2; 0)] = (print 3; 9); p a^n|123[9]^n|
a place that is no integer|a = [1]; a[:a] = 2^n||wrong type Symbol (TypeError)
an element of a frozen array|a = [1].freeze; a[0] = 2^n||can't modify frozen Array (FrozenError)
pairs of a hash|h = {}; h[:a] = 1; h[\"b\"] = 2; h[:a] = 3; p h^n|{a: 3, \"b\" => 2}^n|
the key object of a pair stays|h = {}; h[\"k\"] = 1; k = h.keys[0]; h[\"k\"] = 2; p h.keys[0].equal?(k), h^n|true^n{\"k\" => 2}^n|
a value that is no key|h = {}; h[[]] = 1^n||wrong type Array (TypeError)
a chain of elements|a = [0, 0]; a[0] = a[1] = 5; p a^n|[5, 5]^n|
elements of elements|a = [[1], {b: 2}]; a[0][0] = 3; a[1][:b] = 4; p a^n|[[3], {b: 4}]^n|
an element of an integer|a = 1; a[0] = 2^n||undefined method '[]=' for an instance of Integer (NoMethodError)
an element of nil|a = nil; a[0] = (puts 1)^n|1^n|undefined method '[]=' for nil (NoMethodError)
a character of a text|a = \"b\"; a[0] = \"c\"^n||undefined method '[]=' for an instance of String (NoMethodError)
an element whose value raises|a = [1]; puts a[0]; a[0] = 1 / 0; puts 2^n|1^n|divided by 0 (ZeroDivisionError)
an index that raises|a = [1]; a[foo] = (puts 1)^n||undefined local variable or method 'foo' (NameError)
a receiver that raises|foo[(puts 1)] = (puts 2)^n||undefined local variable or method 'foo' (NameError)
an element and an operator|a = [1]; puts 1; p(a[0] += 1)^n|1^n2^n|
an element unless it is there|h = {}; h[:a] ^p^p= 1; p h^n|{a: 1}^n|
a value that reads the receiver|a = [1, 2]; a[a.size] = a.size; p a^n|[1, 2, 2]^n|
an index that a value changes|a = []; i = 0; a[i] = (i = 5); p a, i^n|[5]^n5^n|
a receiver that a value changes|a = [1]; b = a; a[0] = (a = [2]; 3); p a, b^n|[2]^n[3]^n|
pairs in a loop|h = {}; i = 0; while i < 4 do h[i] = i * i; i += 1 end; p h, h.size^n|{0 => 0, 1 => 1, 2 => 4, 3 => 9}^n4^n|
an array as an element of itself|a = [1]; a[0] = a; p a^n|[[...]]^n|
an element under a condition|a = []; a[0] = 1 if a.empty?; a[1] = 2 unless true; p a^n|[1]^n|";

const UNKNOWN: &str = "\
an unknown name with an argument|puts \"a\"; foo 2; puts \"b\"^n|a^n|undefined method 'foo' for an instance of Object (NoMethodError)
the arguments of an unknown name|foo(puts(\"x\"), 1)^n|x^n|undefined method 'foo' for an instance of Object (NoMethodError)
an argument of an unknown name that raises|bar(1 / 0)^n||divided by 0 (ZeroDivisionError)
an unknown name with brackets|foo()^n||undefined method 'foo' for an instance of Object (NoMethodError)
an unknown name in a method|def f(n)^n  puts n^n  g(n, n)^nend^nf(1)^n|1^n|undefined method 'g' for an instance of Object (NoMethodError)
a method that stands behind its call|def f(n); g(n); end; def g(n); n * 2; end; p f(4)^n|8^n|
a name with a mark|a?(1)^n||undefined method 'a?' for an instance of Object (NoMethodError)
a method of every value without a receiver|puts frozen?(), is_a?(Object), nil?()^n|false^ntrue^nfalse^n|
what raises|puts 1; raise \"x\"^n|1^n|x (RuntimeError)";

#[test]
fn assignments_with_an_operator(rt: HostRuntime) -> Result<(), Fail> {
    check_rows(&rt, rt.alloc(), ASSIGNMENTS)
}

#[test]
fn assignments_to_elements(rt: HostRuntime) -> Result<(), Fail> {
    check_rows(&rt, rt.alloc(), ELEMENTS)
}

#[test]
fn calls_of_unknown_names(rt: HostRuntime) -> Result<(), Fail> {
    check_rows(&rt, rt.alloc(), UNKNOWN)
}
