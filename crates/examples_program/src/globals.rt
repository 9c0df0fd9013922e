//! Global variables, as a table of scripts.

use crate::table::check_rows;
use std::test::Fail;

/// As `RUN` of the rows: what it shows, the script, what it prints, and what is told of the exception that ends it.
const GLOBALS: &str = "\
a global variable|$a = 1; p $a; $a = $a + 1; p $a^n|1^n2^n|
one that is unset|p $a; $a = nil; p $a^n|nil^nnil^n|
what an assignment gives|p($a = 3); b = ($a = \"x\"); p b, $a^n|3^n\"x\"^n\"x\"^n|
several of them|$a = 1; $b = 2; $a = 3; p $a, $b, $c^n|3^n2^nnil^n|
a chain of assignments|$a = $b = 1; p $a, $b^n|1^n1^n|
a chain over one object|$a = $b = [1]; $a << 2; p $b, $a.equal?($b)^n|[1, 2]^ntrue^n|
the object that it holds|a = [1]; $a = a; a << 2; p $a; $a << 3; p a, a.equal?($a)^n|[1, 2]^n[1, 2, 3]^ntrue^n|
read in a method|def f; $a; end; $a = 5; p f; $a = 6; p f^n|5^n6^n|
set in a method|def f(x); $a = x; end; p f(7), $a^n|7^n7^n|
set in a block|[1, 2, 3].each { ^px^p $a = x }; p $a^n|3^n|
counted in a block|$a = 0; 5.times { ^pi^p $a = $a + i }; p $a^n|10^n|
in a block that is yielded to|def f; yield; end; f { $a = 4 }; p $a^n|4^n|
in methods of classes|class A; def set(x); $a = x; end; end; class B; def get; $a; end; end; A.new.set(8); p B.new.get^n|8^n|
in `initialize`|$n = 0; class A; def initialize; $n = $n + 1; @n = $n; end; attr_reader :n; end; A.new; p A.new.n, $n^n|2^n2^n|
beside other variables of the name|a = 1; @a = 2; $a = 3; p a, @a, $a^n|1^n2^n3^n|
a field of the name stays unset|$a = 1; p @a; class A; def f; @a; end; end; p A.new.f^n|nil^nnil^n|
under a frozen self|self.freeze; $a = 1; p $a^n|1^n|
the value comes first|$a = 1; $a = (p $a; 2); p $a^n|1^n2^n|
a value that raises leaves it|$a = 1; begin; $a = 1 / 0; rescue ZeroDivisionError; end; p $a^n|1^n|
a value that leaves the method|def f; $a = (return 3); end; p f, $a^n|3^nnil^n|
a condition|$a = 1 unless $a; $a = 2 unless $a; p $a; p 5 if $b^n|1^n|
in a text|$a = 3; puts \"<#{$a}>\"^n|<3>^n|
as an argument and a receiver|$a = 4; puts($a, $a + 1); p [$a, {b: $a}]^n|4^n5^n[4, {b: 4}]^n|
a count in a loop|$i = 0; while $i < 4 do $i = $i + 1 end; p $i^n|4^n|
set before an exception|def f; $a = 1; raise \"no\"; end; begin; f; rescue; end; p $a^n|1^n|
set where it is ensured|begin; 1 / 0; rescue ZeroDivisionError; $a = 1; ensure; $b = 2; end; p $a, $b^n|1^n2^n|
an object of a class|class A; def f; 1; end; end; $a = A.new; p $a.f, $a.class^n|1^nA^n|
a hash that changes|$h = {a: 1}; $h[:b] = 2; p $h^n|{a: 1, b: 2}^n|
many of them|$a = 1; $b = 2; $c = 3; $d = 4; $e = 5; p $e + $d + $c + $b + $a^n|15^n|";

#[test]
fn globals_print_what_is_wanted(rt: HostRuntime) -> Result<(), Fail> {
    check_rows(&rt, rt.alloc(), GLOBALS)
}
