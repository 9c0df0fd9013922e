//! Scripts with `each` of hashes whose block has one parameter, as a table.

use crate::table::check_rows;
use std::test::Fail;

/// As `RUN` of the rows: what it shows, the script, what it prints, and what is told of the exception that ends it.
const HASH_PAIRS: &str = "\
one parameter|{a: 1, b: 2}.each { ^px^p p x }^n|[:a, 1]^n[:b, 2]^n|
one parameter and no pair|{}.each { ^px^p p x }; p 1^n|1^n|
the value of each|h = {a: 1}; p h.each { ^px^p x }^n|{a: 1}^n|
an array of its own for each turn|a = []; {a: 1, b: 2}.each { ^px^p a << x }; p a, a[0].equal?(a[1])^n|[[:a, 1], [:b, 2]]^nfalse^n|
what a turn adds to its array|h = {a: 1}; h.each { ^px^p x << 5; p x }; p h^n|[:a, 1, 5]^n{a: 1}^n|
keys and values of several kinds|{1 => \"a\", \"b\" => :c, nil => [1], :d => nil}.each { ^px^p p x }^n|[1, \"a\"]^n[\"b\", :c]^n[nil, [1]]^n[:d, nil]^n|
a key that is taken out|h = {a: 1, b: 2, c: 3}; h.each { ^px^p h.delete(:b); p x }^n|[:a, 1]^n[:c, 3]^n|
break|p({a: 1, b: 2}.each { ^px^p break x })^n|[:a, 1]^n|
next|{a: 1, b: 2}.each { ^px^p next if x[0] == :a; p x }^n|[:b, 2]^n|
an exception|begin; {a: 1}.each { ^px^p raise x[0].to_s }; rescue => e; p e; end^n|#<RuntimeError: a>^n|
two parameters|{a: 1, b: 2}.each { ^pk, v^p p k, v }^n|:a^n1^n:b^n2^n|
three parameters|{a: 1}.each { ^pk, v, w^p p k, v, w }^n|:a^n1^nnil^n|
no parameter|{a: 1, b: 2}.each { p 1 }^n|1^n1^n|
the array is taken apart|{a: 1, b: 2}.each { ^px^p k, v = x; p k, v }^n|:a^n1^n:b^n2^n|
in one another|{a: {b: 1}}.each { ^px^p x[1].each { ^py^p p x, y } }^n|[:a, {b: 1}]^n[:b, 1]^n|
in a method|def f(h); h.each { ^px^p return x }; nil; end; p f({a: 1}), f({})^n|[:a, 1]^nnil^n|
values that are held|h = {a: 1}; p [1, [2, h.each { ^px^p x }], 3]^n|[1, [2, {a: 1}], 3]^n|
frozen keys|{\"a\" => 1}.each { ^px^p p x[0].frozen?, x.frozen? }^n|true^nfalse^n|";

#[test]
fn each_of_hashes_gives_pairs(rt: HostRuntime) -> Result<(), Fail> {
    check_rows(&rt, rt.alloc(), HASH_PAIRS)
}
