//! Splats, as a table of scripts.

use crate::table::check_rows;
use std::test::Fail;

/// As `RUN` of the rows: what it shows, the script, what it prints, and what is told of the exception that ends it.
const SPLATS: &str = "\
splats in an array|p [*nil, *[1], *2]^n|[1, 2]^n|
a splat of nothing but nil|p [*nil], [*[]], [*[nil]]^n|[]^n[]^n[nil]^n|
any other value is itself|p [*\"ab\", *:c, *1, *true, *Object]^n|[\"ab\", :c, 1, true, Object]^n|
a splat inside of a splat|p [*[*[1], 2], *[[3]]]^n|[1, 2, [3]]^n|
a new array each time|a = [1]; b = [*a]; b << 2; p a, b^n|[1]^n[1, 2]^n|
an array that is spread before it grows|x = [1]; p [*x, (x << 2; 3)]^n|[1, 3]^n|
parts from left to right|def t(x); print x; x; end; p [*t([1]), t(2), *t([3])]^n|[1]2[3][1, 2, 3]^n|
arguments of a method|def f(a, b, c); p a, b, c; end; f(*[1, 2], 3)^n|1^n2^n3^n|
splats between arguments|def f(a, b); p a, b; end; f(1, *nil, *[2], *[])^n|1^n2^n|
too few by a splat|def f(a, b, c); end; f(*[1, 2])^n||wrong number of arguments (given 2, expected 3) (ArgumentError)
too many by a splat|def f(a); end; f(*[1, 2], *nil)^n||wrong number of arguments (given 2, expected 1) (ArgumentError)
none by a splat|def f(a); end; f(*[])^n||wrong number of arguments (given 0, expected 1) (ArgumentError)
no argument but a splat of nil|def f; 3; end; p f(*nil)^n|3^n|
arguments of what prints|puts *[]; puts(*[1, 2], 3); p(*[[4]]); print(*[\"a\", \"b\"]); print(*nil)^n|^n1^n2^n3^n[4]^nab|
what p gives|x = p(*nil); p x; p(p(*[1]))^n|nil^n1^n1^n|
no hash is spread|p(*{a: 1})^n||wrong type Hash (TypeError)
it is rescued|begin; p 1, *{}; rescue TypeError => e; puts e.message; end^n|wrong type Hash^n|
arguments of a call with a receiver|a = [1]; a.push(*[2]); p a, [a.first(*nil), *a]^n|[1, 2]^n[1, 1, 2]^n|
pairs behind a splat|def f(a, b); p [a, b]; end; f(*[1], b: 2)^n|[1, {b: 2}]^n|
a new object|class A; attr_reader :a, :b; def initialize(a, b); @a = a; @b = b; end; end; o = A.new(*[1, [2]]); p [o.a, *o.b]^n|[1, 2]^n|
arguments of super|class A; def f(a, b); [a, b]; end; end; class B < A; def f(a, b); super(*[b, a]); end; end; p B.new.f(1, 2)^n|[2, 1]^n|
super with a splat of nothing|class A; def f; 1; end; end; class B < A; def f; super(*nil); end; end; p B.new.f^n|1^n|
values of yield|def f; yield *[1, 2]; yield 3, *[4, 5]; yield *nil; end; f { ^pa, b^p p a, b }^n|1^n2^n3^n4^nnil^nnil^n|
one array of yield is spread once more|def f; yield *[[1, 2]]; end; f { ^pa, b^p p a, b }^n|1^n2^n|
arguments of raise|begin; raise *[ArgumentError, \"m\"]; rescue => e; p e; end^n|#<ArgumentError: m>^n|
raise with a splat of nothing|begin; raise \"a\"; rescue; begin; raise *nil; rescue => e; p e; end; end^n|#<RuntimeError: a>^n|
a call with a block|def f(a); yield a; end; f(*[3]) { ^px^p p x }; p [1, 2].map(*nil) { ^px^p x + 1 }^n|3^n[2, 3]^n|
an iteration with too many|[1].each(*[2]) { ^px^p p x }^n||wrong number of arguments (given 1, expected 0) (ArgumentError)
what return gives|def f; return *[1, 2]; end; def g; return *nil; end; def h; return *3; end; p f, g, h^n|[1, 2]^n[]^n[3]^n|
what break and next give|x = while true; break *[1, 2]; end; p x, [1, 2].map { ^px^p next *[x, 1] }^n|[1, 2]^n[[1, 1], [2, 1]]^n|
calls in calls|def f(a); a; end; p f(*[f(*[f(*[7])])])^n|7^n|
in a text and in a hash|p \"#{[*nil]}\", {x: [*[1]]}^n|\"[]\"^n{x: [1]}^n|
a splat that raises|begin; p 1, *raise(\"no\"), (puts \"x\"); rescue => e; p e; end^n|#<RuntimeError: no>^n|
an argument behind a splat that raises|def f(a, b); puts \"f\"; end; begin; f(*[1], raise(\"no\")); rescue => e; p e; end^n|#<RuntimeError: no>^n|
a method that is missing|1.foo(*[1])^n||undefined method 'foo' for an instance of Integer (NoMethodError)
a splat that leaves the loop|while true; x = [1, *(break)]; end; p x^n|nil^n|";

#[test]
fn splats_print_what_is_wanted(rt: HostRuntime) -> Result<(), Fail> {
    check_rows(&rt, rt.alloc(), SPLATS)
}
