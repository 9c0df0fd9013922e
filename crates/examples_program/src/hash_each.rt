//! Scripts with `each` of hashes, as a table.

use crate::table::check_rows;
use std::test::Fail;

/// As `RUN` of the rows: what it shows, the script, what it prints, and what is told of the exception that ends it.
const HASH_EACH: &str = "\
each of a hash|{1 => 2, 3 => 4}.each { ^pk, v^p p k, v }^n|1^n2^n3^n4^n|
each of an empty hash|{}.each { ^pk, v^p p 1 }; p 2^n|2^n|
the value of each of a hash|h = {a: 1}; p(h.each { ^pk, v^p 7 }.equal?(h))^n|true^n|
a key that is deleted in each|h = {a: 1, b: 2}; h.each { ^pk, v^p h.delete(:b); p k }; p h^n|:a^n{a: 1}^n|
a key that comes in each|h = {a: 1}; h.each { ^pk, v^p h[:c] = 3 if v == 1; p k }; p h[:a]^n|:a^n1^n|
a value that is changed in each|h = {a: 1, b: 2}; h.each { ^pk, v^p h[:b] = 9; p v }^n|1^n9^n|
a key that is deleted and set again in each|h = {a: 1, b: 2, c: 3}; h.each { ^pk, v^p if k == :a; h.delete(:b); h[:b] = 5; end; p k, v }^n|:a^n1^n:b^n5^n:c^n3^n|
a hash that is cleared key by key in each|h = {a: 1, b: 2, c: 3}; h.each { ^pk, v^p h.delete(:a); h.delete(:b); h.delete(:c); p k }; p h^n|:a^n{}^n|
text keys in each|{\"a\" => 1, \"b\" => [2]}.each { ^pk, v^p p k, v }^n|\"a\"^n1^n\"b\"^n[2]^n|
a text key is one object in each|h = {\"a\" => 1}; h.each { ^pk, v^p p k.frozen?, h[k] }^n|true^n1^n|
nil and false in each of a hash|{nil => false, true => nil}.each { ^pk, v^p p k, v }^n|nil^nfalse^ntrue^nnil^n|
each of a hash without parameters|n = 0; {a: 1, b: 2}.each { n += 1 }; p n^n|2^n|
each of a hash with three parameters|{a: 1}.each { ^pk, v, w^p p k, v, w }^n|:a^n1^nnil^n|
each of a hash with an array as value|{a: [1, 2]}.each { ^pk, v^p p k, v }^n|:a^n[1, 2]^n|
each of a hash with one parameter|{a: 1}.each { ^px^p p x }^n|[:a, 1]^n|
each of a hash in each of a hash|{a: 1, b: 2}.each { ^pk, v^p {c: 3}.each { ^pl, w^p p k, l, v + w } }^n|:a^n:c^n4^n:b^n:c^n5^n|
each of one hash in itself|h = {a: 1, b: 2}; h.each { ^pk, v^p h.each { ^pl, w^p print v, w } }^n|11122122|
each of an array in each of a hash|{a: [1, 2], b: []}.each { ^pk, v^p v.each { ^px^p p k, x } }^n|:a^n1^n:a^n2^n|
next in each of a hash|{a: 1, b: 2, c: 3}.each { ^pk, v^p next if v == 2; p k }^n|:a^n:c^n|
break in each of a hash|p({a: 1, b: 2}.each { ^pk, v^p break k if v == 2 })^n|:b^n|
return out of each of a hash|def f(h); h.each { ^pk, v^p return k if v == 2 }; 9; end; p f({a: 1, b: 2, c: 3})^n|:b^n|
return through ensure out of each of a hash|def f(h); h.each { ^pk, v^p begin; return k; ensure; p v; end }; end; p f({a: 1, b: 2})^n|1^n:a^n|
an exception out of each of a hash|begin; {a: 1, b: 2}.each { ^pk, v^p raise \"a\" if v == 2; p k }; rescue => e; puts e.message; end^n|:a^na^n|
an exception that a turn over a pair rescues|{a: 0, b: 2}.each { ^pk, v^p begin; p 4 / v; rescue; p k; end }^n|:a^n2^n|
values that were held are dropped behind each of a hash|p [1, ({a: 1, b: 2}.each { ^pk, v^p break 7 if v == 2 }), 9]^n|[1, 7, 9]^n|
yield in each of a hash|def f(h); h.each { ^pk, v^p yield v }; end; f({a: 1, b: 2}) { ^px^p print x }^n|12|
each of a hash in a method|def f(h); n = 0; h.each { ^pk, v^p n += v }; n; end; p f({1 => 2, 3 => 4})^n|6^n|
each of a hash with an argument|{a: 1}.each(2) { ^pk, v^p p 1 }^n||wrong number of arguments (given 1, expected 0) (ArgumentError)
each of a frozen hash|h = {a: 1}.freeze; h.each { ^pk, v^p p k, v }^n|:a^n1^n|";

#[test]
fn each_of_hashes_prints_what_is_wanted(rt: HostRuntime) -> Result<(), Fail> {
    check_rows(&rt, rt.alloc(), HASH_EACH)
}
