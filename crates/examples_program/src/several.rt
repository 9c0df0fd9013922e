//! Assignments to several targets, as a table of scripts.

use crate::table::check_rows;
use std::test::Fail;

/// As `RUN` of the rows: what it shows, the script, what it prints, and what is told of the exception that ends it.
const SEVERAL: &str = "\
two targets|a, b = 1, 2; p a, b^n|1^n2^n|
they are exchanged|a, b = 1, 2; a, b = b, a; p a, b^n|2^n1^n|
one value|a, b = 1; p a, b^n|1^nnil^n|
nil|a, b = 1, 2; a, b = nil; p a, b^n|nil^nnil^n|
one array|a, b = [1, 2, 3]; p a, b^n|1^n2^n|
an empty array|a, b = 1, 2; a, b = []; p a, b^n|nil^nnil^n|
too few values|a, b, c = 1, 2; p a, b, c^n|1^n2^nnil^n|
too many values|a, b = 1, 2, 3; p a, b^n|1^n2^n|
only one array is spread|a, b = [1, 2], 3; p a, b; a, b = [[1, 2]]; p a, b^n|[1, 2]^n3^n[1, 2]^nnil^n|
other values are not spread|a, b = {x: 1}; p a, b; a, b = \"ab\"; p a, b^n|{x: 1}^nnil^n\"ab\"^nnil^n|
what it gives|x = (a, b = 1, 2); p x; x = (a, b = 7); p x^n|[1, 2]^n7^n|
what a method gives|def f; return 1, 2; end; a, b = f; p a, b^n|1^n2^n|
an array that grows later|x = [1, 2]; a, b = x; x << 3; p a, b, x^n|1^n2^n[1, 2, 3]^n|
one target twice|a, a = 1, 2; p a^n|2^n|
targets outside of a block|a = 1; [5].each { ^px^p a, b = x, a; p b }; p a^n|1^n5^n|
targets in a loop|i, j = 0, 10; while i < 3 do i, j = i + 1, j - 1 end; p i, j^n|3^n7^n|
the next of two|def f(n); a, b = 0, 1; n.times { a, b = b, a + b }; a; end; p f(20)^n|6765^n|
a value that raises|a = 1; begin; a, b = 2, raise(\"no\"); rescue => e; p a, b, e; end^n|1^nnil^n#<RuntimeError: no>^n|
a value that leaves the method|def f; a, b = 1, (return 5); end; p f^n|5^n|
a value that leaves the loop|while true; a, b = 1, (break); end; p a^n|nil^n|
a condition|a, b = 1, 2 if false; p a; a, b = 3, 4 unless a; p a, b^n|nil^n3^n4^n|
parameters|def f(a, b); a, b = b, a; [a, b]; end; p f(1, 2)^n|[2, 1]^n|
a splat among the values|a, b = [0, *[1, 2]]; p a, b^n|0^n1^n|";

#[test]
fn several_targets_print_what_is_wanted(rt: HostRuntime) -> Result<(), Fail> {
    check_rows(&rt, rt.alloc(), SEVERAL)
}
