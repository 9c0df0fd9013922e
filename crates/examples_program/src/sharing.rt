//! What ractors may share, as a table of scripts.

use crate::table::check_rows;
use std::test::Fail;

/// As `RUN` of the rows: what it shows, the script, what it prints, and what is told of the exception that ends it.
const SHARING: &str = "\
what is shareable|p Ractor.shareable?(1), Ractor.shareable?(\"a\"), Ractor.shareable?(\"a\".freeze), Ractor.shareable?([1].freeze), Ractor.shareable?([\"a\"].freeze)^n|true^nfalse^ntrue^ntrue^nfalse^n|
immediates and classes|class A; end; p [nil, true, false, :a, -7, A, String, Ractor].map { ^px^p Ractor.shareable?(x) }^n|[true, true, true, true, true, true, true, true]^n|
open objects|class A; end; p [[], {}, \"\", A.new, self].map { ^px^p Ractor.shareable?(x) }^n|[false, false, false, false, false]^n|
a frozen object over an open one|a = [[1].freeze, [2]].freeze; p Ractor.shareable?(a); a[1].freeze; p Ractor.shareable?(a)^n|false^ntrue^n|
fields count|class A; def initialize(x); @x = x; end; end; a = A.new(\"s\").freeze; b = A.new(1).freeze; p Ractor.shareable?(a), Ractor.shareable?(b)^n|false^ntrue^n|
keys and values count|a = {a: \"s\"}.freeze; b = {\"s\" => 1}.freeze; p Ractor.shareable?(a), Ractor.shareable?(b)^n|false^ntrue^n|
asking freezes nothing|a = [[1]]; Ractor.shareable?(a); p a.frozen?, a[0].frozen?^n|false^nfalse^n|
made shareable|a = [[\"x\"]]; p Ractor.make_shareable(a).equal?(a), a.frozen?, a[0][0].frozen?, Ractor.shareable?(a)^n|true^ntrue^ntrue^ntrue^n|
an immediate made shareable|p Ractor.make_shareable(5), Ractor.make_shareable(nil), Ractor.make_shareable(:a)^n|5^nnil^n:a^n|
a hash made shareable|h = {a: [\"x\"], \"b\" => \"y\"}; Ractor.make_shareable(h); p h, h.frozen?, h[:a].frozen?, h[:a][0].frozen?, h[\"b\"].frozen?^n|{a: [\"x\"], \"b\" => \"y\"}^ntrue^ntrue^ntrue^ntrue^n|
an object made shareable|class A; def initialize; @x = [\"s\"]; end; attr_reader :x; end; a = Ractor.make_shareable(A.new); p a.x.frozen?, a.x[0].frozen?^n|true^ntrue^n|
an exception made shareable|m = \"m\"; e = RuntimeError.new(m); Ractor.make_shareable(e); p e.frozen?, m.frozen?^n|true^ntrue^n|
what it does not lead to stays open|a = [1]; b = [2]; c = [a]; Ractor.make_shareable(c); p a.frozen?, b.frozen?^n|true^nfalse^n|
what leads to it stays open|a = [1]; b = [a]; Ractor.make_shareable(a); p a.frozen?, b.frozen?^n|true^nfalse^n|
shared objects are frozen once|a = \"x\"; b = [a, a, [a]]; Ractor.make_shareable(b); p a.frozen?, b[2].frozen?, b^n|true^ntrue^n[\"x\", \"x\", [\"x\"]]^n|
below a frozen object|a = [[1]].freeze; Ractor.make_shareable(a); p a[0].frozen?^n|true^n|
a cycle|a = [1]; a << a; p Ractor.shareable?(a); Ractor.make_shareable(a); p Ractor.shareable?(a), a.frozen?, a^n|false^ntrue^ntrue^n[1, [...]]^n|
two objects that lead to one another|a = []; b = [a]; a << b; Ractor.make_shareable(b); p a.frozen?, b.frozen?, Ractor.shareable?(a)^n|true^ntrue^ntrue^n|
writing to it afterwards|a = Ractor.make_shareable([[1]]); begin; a << 2; rescue FrozenError => e; puts e.message; end; a[0] << 2^n|can't modify frozen Array^n|can't modify frozen Array (FrozenError)
twice|a = [\"x\"]; p Ractor.make_shareable(Ractor.make_shareable(a)).equal?(a)^n|true^n|
self|@a = [\"x\"]; Ractor.make_shareable(self); p @a.frozen?, @a[0].frozen?; $g = 1; A = 2; p $g, A^n|true^ntrue^n1^n2^n|
a global variable and a constant|$g = [[1]]; A = Ractor.make_shareable([\"a\"]); Ractor.make_shareable($g); p $g[0].frozen?, A[0].frozen?; $g = 3; p $g^n|true^ntrue^n3^n|
an unknown keyword|begin; Ractor.make_shareable([], foo: 1); rescue ArgumentError => e; puts e.message; end^n|unknown keyword^n|
several keywords|begin; Ractor.make_shareable([], copy: true, foo: 1); rescue ArgumentError => e; puts e.message; end^n|unknown keyword^n|
too many arguments|begin; Ractor.make_shareable([], 1); rescue ArgumentError => e; puts e.message; end; Ractor.make_shareable(1, 2, 3)^n|wrong number of arguments (given 2, expected 1)^n|wrong number of arguments (given 3, expected 1) (ArgumentError)
no argument|begin; Ractor.make_shareable; rescue ArgumentError => e; puts e.message; end; Ractor.shareable?^n|wrong number of arguments (given 0, expected 1)^n|wrong number of arguments (given 0, expected 1) (ArgumentError)
an argument too many|begin; Ractor.shareable?(1, 2); rescue ArgumentError => e; puts e.message; end^n|wrong number of arguments (given 2, expected 1)^n|
the class Ractor|p Ractor, Ractor.name, Ractor.equal?(Ractor), Ractor == String; r = Ractor; p r.shareable?(1)^n|Ractor^n\"Ractor\"^ntrue^nfalse^ntrue^n|
a method that it has not|Ractor.foo^n||undefined method 'foo' for class Ractor (NoMethodError)
what is not evaluated yet|begin; Ractor[:a]; rescue RuntimeError => e; puts e.message; end; Ractor[:a] = 1^n|not here yet^n|not here yet (RuntimeError)
another receiver|String.shareable?(1)^n||undefined method 'shareable?' for class String (NoMethodError)
a method of the program of the name|class A; def shareable?(x); x + 1; end; end; p A.new.shareable?(1)^n|2^n|
many objects inside one another|a = []; i = 1; while i < 100000; a = [a]; i = i + 1; end; p Ractor.shareable?(a); Ractor.make_shareable(a); p a.frozen?, Ractor.shareable?(a)^n|false^ntrue^ntrue^n|";

#[test]
fn sharing_prints_what_is_wanted(rt: HostRuntime) -> Result<(), Fail> {
    check_rows(&rt, rt.alloc(), SHARING)
}
