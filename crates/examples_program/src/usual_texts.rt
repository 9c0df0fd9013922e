//! Text literals and texts that are made of parts, and calls with a block, as a table of scripts.

use crate::table::check_rows;
use std::test::Fail;

/// As `RUN` of the rows: what it shows, the script, what it prints, and what is told of the exception that ends it.
const TEXTS: &str = "\
literals alone and among parts|s = \"a\"; t = \"b\"; p s, \"\", \"x\" * 2, [\"c\", s, \"d\"], [s, \"e\", 1], \"f\"^n|\"a\"^n\"\"^n\"xx\"^n[\"c\", \"a\", \"d\"]^n[\"a\", \"e\", 1]^n\"f\"^n|
literals are new each time|def f; \"a\"; end; x = f; x << \"b\"; p x, f; a = []; 3.times { a << \"c\" << \"d\" }; p a; l = [1, 2].map { \"e\" }; l[0] << \"f\"; p l^n|\"ab\"^n\"a\"^n[\"c\", \"d\", \"c\", \"d\", \"c\", \"d\"]^n[\"ef\", \"e\"]^n|
texts that begin, go on and end with literals|i = 3; s = \"t\"; p \"a#{i}\", \"#{i}b\", \"a#{i}b\", \"a#{i}b#{s}c\", \"a#{s}#{i}\", \"#{\"a\"}b\", \"a#{nil}b#{:c}d#{1 if false}e\"^n|\"a3\"^n\"3b\"^n\"a3b\"^n\"a3btc\"^n\"at3\"^n\"ab\"^n\"abcde\"^n|
texts whose parts need a frame|def f(x); \"<#{x}>\"; end; a = [1, 2]; p \"a#{f(1)}b\", \"a#{f(1)}#{f(2)}\", \"#{a[0] + a[1]}c\", \"d#{a.size}e#{[f(0)]}\", \"#{f(f(3))}g\"^n|\"a<1>b\"^n\"a<1><2>\"^n\"3c\"^n\"d2e[\\\"<0>\\\"]\"^n\"<<3>>g\"^n|
several statements and none between braces|i = 1; p \"a#{i += 1; i * 2}b#{i}\", \"a#{}b\", \"#{i = 5}#{i}\"^n|\"a4b2\"^n\"ab\"^n\"55\"^n|
arrays of texts and of parts that need a frame|def f(x); x + 1; end; p [\"a\", f(1)], [f(1), \"a\"], [\"a\", f(1), \"b\", f(2)], [\"a\", *[\"b\", \"c\"], \"d\"], [*[], \"e\"]^n|[\"a\", 2]^n[2, \"a\"]^n[\"a\", 2, \"b\", 3]^n[\"a\", \"b\", \"c\", \"d\"]^n[\"e\"]^n|
texts in the order of their parts|def t(x); print x; x; end; p \"a#{t(1)}b#{t(2)}c#{t(3)}\"; p [t(4), \"d\", t(5)]; begin; p \"a#{t(6)}#{raise(\"no\")}#{t(7)}\"; rescue => e; p e.message; end^n|123\"a1b2c3\"^n45[4, \"d\", 5]^n6\"no\"^n|
objects that say what they are, among literals|class A; def to_s; \"A!\"; end; end; class B; def to_s; 3; end; end; a = A.new; p \"x#{a}y\", \"x#{a}#{a}\", [\"#{a}\", \"z\"]; p \"b#{B.new}\".size > 4; class C; def to_s; raise \"c\"; end; end; begin; \"x#{C.new}y\"; rescue => e; p e.message; end^n|\"xA!y\"^n\"xA!A!\"^n[\"A!\", \"z\"]^ntrue^n\"c\"^n|
values of every kind in texts|h = {a: 1}; p \"1#{nil}2#{true}3#{false}4#{-5}5#{:s}6#{String}7#{[1, [nil]]}8#{h}9#{\"t\"}\"; print \"a#{[]}\", \"b#{{}}\"; puts; puts \"a#{1}\", \"b\", [\"c#{2}\", \"d\"]^n|\"12true3false4-55s6String7[1, [nil]]8{a: 1}9t\"^na[]b{}^na1^nb^nc2^nd^n|
literals as arguments and receivers|def f(a, b); \"#{a}-#{b}\"; end; p f(\"x\", \"y\"), f(\"x\", 1), \"a\".size, \"a\" + \"b\", \"ab\"[0], \"a\" == \"a\", {\"k\" => \"v\"}[\"k\"]; h = Hash.new if false; g = {}; g[\"a\"] = \"b\"; p g; raise \"z\" if g.empty?^n|\"x-y\"^n\"x-1\"^n1^n\"ab\"^n\"a\"^ntrue^n\"v\"^n{\"a\" => \"b\"}^n|
long texts|i = 0; s = \"\"; while i < 50; s = \"#{s}#{i},\"; i += 1; end; p s.size; t = \"0123456789\" * 20; p \"#{t}#{t}\".size, \"#{t}x\"[200]^n|140^n400^n\"x\"^n|
literals that a comment freezes|# frozen_string_literal: true^ns = \"a\"; p s.frozen?, \"a#{1}b\".frozen?, \"#{1}\".frozen?; begin; s << \"b\"; rescue FrozenError; p 1; end; p [\"c\"][0].frozen?, \"c#{s}\"^n|true^nfalse^nfalse^n1^ntrue^n\"ca\"^n|
texts that are changed behind|a = \"x\"; b = \"#{a}\"; c = \"#{a}y\"; a << \"z\"; p a, b, c; l = [a, \"#{a}\"]; a << \"w\"; p l^n|\"xz\"^n\"x\"^n\"xy\"^n[\"xzw\", \"xz\"]^n|
iterations of a variable, a literal, an attribute and a call|class A; attr_reader :l; def initialize; @l = [1, 2]; end; def all; @l; end; def go; @l.each { ^px^p p x }; all.map { ^px^p x + 1 }; end; end; a = A.new; l = [3]; l.each { ^px^p p x }; a.l.each { ^px^p p x }; p a.go, 2.times { ^pi^p p i }, [4].map { ^px^p x * 2 }, a.all.select { ^px^p x > 1 }; p 1.times { }^n|3^n1^n2^n1^n2^n0^n1^n[2, 3]^n2^n[8]^n[2]^n1^n|
iterations that end early|p [1, 2, 3].each { ^px^p break x * 10 if x == 2 }; p 5.times { ^pi^p break if i == 1 }; def f(l); l.each { ^px^p return x if x > 1 }; nil; end; p f([1, 2, 3]), f([]); p [1, 2].map { ^px^p next 0 if x == 1; x }^n|20^nnil^n2^nnil^n[0, 2]^n|
iterations in one another|s = 0; 3.times { ^pi^p [1, 2].each { ^pj^p s += i * j } }; p s; p [[1], [2, 3]].map { ^pl^p l.map { ^px^p x + 1 } }; a = [1]; a.each { ^px^p a << 2 if a.size < 3 }; p a^n|9^n[[2], [3, 4]]^n[1, 2, 2]^n|
receivers that raise, and that have no such method|begin; nil.each { }; rescue NoMethodError; p 1; end; begin; 5.each { }; rescue NoMethodError; p 2; end; def r; raise \"r\"; end; begin; r.each { }; rescue => e; p e.message; end; x = nil; begin; x.times { }; rescue NoMethodError => e; puts e.message; end^n|1^n2^n\"r\"^nundefined method 'times' for nil^n|
methods of the program with a block|class A; def each; yield 1; yield 2; self; end; def times; yield; end; end; a = A.new; r = []; a.each { ^px^p r << x }; p r; a.times { p :t }; p a.each { ^px^p break x }; def m; yield 3; end; p m { ^px^p x + 1 }; class B; end; begin; B.new.each { }; rescue NoMethodError; p 0; end^n|[1, 2]^n:t^n1^n4^n0^n|
hashes that are visited|h = {a: 1, b: 2}; h.each { ^pk, v^p p [k, v] }; h.each { ^ppair^p p pair }; {}.each { p 1 }; n = 0; h.each { ^pk, v^p n += v }; p n^n|[:a, 1]^n[:b, 2]^n[:a, 1]^n[:b, 2]^n3^n|";

#[test]
fn texts_and_blocks_print_what_is_wanted(rt: HostRuntime) -> Result<(), Fail> {
    check_rows(&rt, rt.alloc(), TEXTS)
}
