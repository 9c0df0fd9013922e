//! Scripts with hashes, as a table.

use crate::endings::{check_done, check_steps, check_within, of_slots};
use crate::run::repeated;
use crate::table::check_rows;
use std::test::Fail;

/// As `RUN` of the rows: what it shows, the script, what it prints, and what is told of the exception that ends it.
const HASHES: &str = "\
an empty hash|p({})^n|{}^n|
a hash of labels|p({a: 1, b: 2})^n|{a: 1, b: 2}^n|
a hash of arrows|p({1 => 2, \"a\" => :b, nil => true})^n|{1 => 2, \"a\" => :b, nil => true}^n|
labels and arrows|p({a: 1, 2 => 3, b: {}})^n|{a: 1, 2 => 3, b: {}}^n|
a hash over lines and with a last comma|h = {^n  a: 1,^n  b: 2,^n}^np h^n|{a: 1, b: 2}^n|
each key before its value and pairs from left to right|p({(print 1; :a) => (print 2; 3), (print 4; :b) => (print 5; 6)})^n|1245{a: 3, b: 6}^n|
a key that stands twice has its first place and its last value|p({a: 1, b: 2, a: 3})^n|{a: 3, b: 2}^n|
a text as a key is copied|k = \"x\"; h = {k => 1}; k << \"y\"; p h, k^n|{\"x\" => 1}^n\"xy\"^n|
a text as a key is frozen|h = {\"x\" => 1}; p h.keys[0].frozen?, h.keys.first^n|true^n\"x\"^n|
a frozen text as a key is itself|k = \"x\".freeze; h = {k => 1}; p h.keys[0].equal?(k)^n|true^n|
a text that is not frozen stays so|k = \"x\"; h = {k => 1}; p h.keys[0].equal?(k), k.frozen?^n|false^nfalse^n|
a text as a key is copied when all is evaluated|k = \"x\"; h = {k => (k << \"y\"; 1)}; p h^n|{\"xy\" => 1}^n|
two texts of the same bytes are one key|p({\"a\" => 1, \"b\" => 2, \"a\" => 3}.size)^n|2^n|
a text and a symbol are two keys|h = {\"a\" => 1, a: 2}; p h[\"a\"], h[:a]^n|1^n2^n|
a value by its key|h = {a: 1, \"b\" => 2}; p h[:a], h[\"b\"], h[:c], h[nil]^n|1^n2^nnil^nnil^n|
how many pairs|p({a: 1, b: 2}.size, {}.length, {}.empty?, {a: nil}.empty?)^n|2^n0^ntrue^nfalse^n|
the keys and the values|h = {a: 1, \"b\" => [2]}; p h.keys, h.values^n|[:a, \"b\"]^n[1, [2]]^n|
whether a key is there|h = {a: nil}; p h.key?(:a), h.key?(:b)^n|true^nfalse^n|
a pair that is deleted|h = {a: 1, b: 2}; p h.delete(:a), h, h.delete(:a)^n|1^n{b: 2}^nnil^n|
an array as a key|p({[1] => 2})^n||wrong type Array (TypeError)
a hash as a key|p({{} => 1})^n||wrong type Hash (TypeError)
an object as a key|p({Object.new => 1})^n||wrong type Object (TypeError)
all is evaluated before a wrong key raises|p({a: (print 1), [2] => (print 3), b: (print 4)})^n|134|wrong type Array (TypeError)
a key that raises|p({a: (puts 1), 1 / 0 => (puts 2)})^n|1^n|divided by 0 (ZeroDivisionError)
a value that raises|p({a: 1, b: foo, c: (puts 3)})^n||undefined local variable or method 'foo' (NameError)
classes and truths as keys|p({Integer => 1, true => 2, false => 3, -4 => 5})^n|{Integer => 1, true => 2, false => 3, -4 => 5}^n|
each hash literal is a new hash|i = 0; while i < 2 do h = {a: i}; h[:b] = 1; p h; i = i + 1 end^n|{a: 0, b: 1}^n{a: 1, b: 1}^n|
hashes in hashes|p({a: {b: {c: []}}, d: [{e: 1}]})^n|{a: {b: {c: []}}, d: [{e: 1}]}^n|
a hash inside itself|h = {a: 1}; h[:b] = h; p h^n|{a: 1, b: {...}}^n|
equal hashes|p({a: 1, b: 2} == {b: 2, a: 1}, {a: 1} == {a: 2}, {} == {}, {} == [], {a: 1} != {a: 1})^n|true^nfalse^ntrue^nfalse^nfalse^n|
a hash as a condition|if {} then puts 1 else puts 2 end^n|1^n|
texts of hashes|puts({a: 1}.to_s + \"!\", {1 => \"x\"}.inspect)^n|{a: 1}!^n{1 => \"x\"}^n|
lines of hashes|puts({a: 1}, [{b: 2}])^n|{a: 1}^n{b: 2}^n|
printed hashes|print({}, {a: nil}); puts^n|{}{a: nil}^n|
the class of a hash|p({}.class, {}.is_a?(Hash), {}.nil?)^n|Hash^ntrue^nfalse^n|
a hash in a text|h = {a: 1}; puts \"<#{h}>\"^n|<{a: 1}>^n|
a frozen hash|h = {a: 1}.freeze; p h.frozen?; h[:b] = 2^n|true^n|can't modify frozen Hash (FrozenError)
a copy of a hash|h = {a: [1]}; g = h.dup; g[:b] = 2; g[:a] << 3; p h, g^n|{a: [1, 3]}^n{a: [1, 3], b: 2}^n|
a missing method of a hash|p({a: 1}.foo)^n||undefined method 'foo' for an instance of Hash (NoMethodError)
a hash as what a method gives|def f(a, b)^n  h = {a => b, b => a}^n  h^nend^np f(1, :x)^n|{1 => :x, x: 1}^n|
a hash that a method changes|def f(h)^n  h[:b] = 2^nend^nh = {a: 1}; f(h); p h^n|{a: 1, b: 2}^n|
what a call gives as a key|def f(n)^n  n * 2^nend^np({f(1) => f(2), f(3) => f(4)})^n|{2 => 4, 6 => 8}^n|";

const PAIRS: &str = "\
pairs as the last argument|def f(h)^n  h^nend^np f(a: 1, b: 2)^n|{a: 1, b: 2}^n|
pairs behind an argument|def f(a, h)^n  p a, h^nend^nf 1, a: 2, 3 => 4^n|1^n{a: 2, 3 => 4}^n|
pairs count as one argument|def f(a)^n  a^nend^nf 1, b: 2^n||wrong number of arguments (given 2, expected 1) (ArgumentError)
pairs for no argument|def f()^n  1^nend^nf(a: 1)^n||wrong number of arguments (given 1, expected 0) (ArgumentError)
pairs that are printed|puts a: 1; p b: 2^n|{a: 1}^n{b: 2}^n|
pairs in an array|p [1, a: 2, \"b\" => 3]^n|[1, {a: 2, \"b\" => 3}]^n|
pairs make a new hash at each call|def f(h)^n  h[:z] = 1^n  h^nend^ni = 0; while i < 2 do p f(a: i); i += 1 end^n|{a: 0, z: 1}^n{a: 1, z: 1}^n|
pairs as the argument of a method of arrays|a = []; a.push(b: 1); p a^n|[{b: 1}]^n|
arguments before pairs|def f(a, h)^n  h^nend^np f((print 1; 0), (print 2; :k) => (print 3; 4))^n|123{k: 4}^n|
pairs of an unknown name|foo(a: (puts 1))^n|1^n|undefined method 'foo' for an instance of Object (NoMethodError)
a wrong key among pairs|def f(h)^n  puts 1^nend^nf(a: 1, [] => 2)^n||wrong type Array (TypeError)";

#[test]
fn hashes_are_made(rt: HostRuntime) -> Result<(), Fail> {
    check_rows(&rt, rt.alloc(), HASHES)
}

#[test]
fn pairs_without_braces_are_a_hash(rt: HostRuntime) -> Result<(), Fail> {
    check_rows(&rt, rt.alloc(), PAIRS)
}

/// A thousand pairs, by a loop and by a literal.
#[test]
fn a_large_hash(rt: HostRuntime) -> Result<(), Fail> {
    let looped = b"h = {}; i = 0; while i < 1000 do h[i] = i; i = i + 1 end; puts h.size, h[999]\n";
    check_done(&rt, rt.alloc(), looped, "1000\n999\n");
    let literal = repeated(rt.alloc(), b"h = {", b"7 => 8, ", 1000, b"}; p h\n")?;
    check_done(&rt, rt.alloc(), literal.as_slice(), "{7 => 8}\n");
    Ok(())
}

// The script, its statement, the hash, and two keys and values: seven evaluations.
#[test]
fn each_key_and_each_value_is_a_step(rt: HostRuntime) {
    check_steps(&rt, rt.alloc(), b"h = {a: 1, b: 2}\n", 7);
}

// `self`, the objects of the global variables and of what is published, the hash, and for each of its two keys the text and its frozen copy.
#[test]
fn a_hash_at_the_limit_of_slots(rt: HostRuntime) {
    let script = b"h = {\"a\" => 1, \"b\" => 2}; p h.size\n";
    check_within(&rt, rt.alloc(), of_slots(8), script, "2\n", "done");
    for slots in 0..8 {
        check_within(&rt, rt.alloc(), of_slots(slots), script, "", "out of slots");
    }
}
