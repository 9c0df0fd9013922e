//! Assignments to global variables and constants that also read them, as a table of scripts.

use crate::table::check_rows;
use std::test::Fail;

/// As `RUN` of the rows: what it shows, the script, what it prints, and what is told of the exception that ends it.
const SETTABLE: &str = "\
a global variable with an operator|$a = 1; $a += 2; p $a; $a *= 5; p $a; $a -= 1; $a /= 2; $a %= 4; p $a^n|3^n15^n3^n|
what it gives|$a = 1; p($a += 2); b = ($a += 1); p b, $a^n|3^n4^n4^n|
one that is unset with an operator|$a += 1^n||undefined method '+' for nil (NoMethodError)
one that is unset with `^p^p=`|$a ^p^p= 1; p $a; $a ^p^p= 2; p $a; $a = false; p($a ^p^p= 3)^n|1^n1^n3^n|
with `&&=`|p($a &&= 1); $a = 1; $a &&= $a + 1; p $a; $a = nil; $a &&= (puts 5); p $a^n|nil^n2^nnil^n|
with `<<=`|$a = 1; begin; $a <<= 2; rescue NoMethodError => e; puts e.message; end; $b = [1]; $b <<= 2; p $b^n|undefined method '<<' for an instance of Integer^n[1, 2]^n|
a text that grows|$s = \"a\"; t = $s; $s += \"b\"; p $s, t; $s <<= \"c\"; p $s^n|\"ab\"^n\"a\"^n\"abc\"^n|
the right side is not evaluated where it is not assigned|$a = 1; $a ^p^p= (puts 5; 2); $b &&= (puts 6; 2); p $a, $b^n|1^nnil^n|
the variable is read before the right side|$a = 1; $a += ($a = 10; 5); p $a^n|6^n|
a right side that raises|$a = 1; begin; $a += 1 / 0; rescue ZeroDivisionError; end; p $a^n|1^n|
in methods and blocks|$n = 0; def f; $n += 1; end; f; 3.times { f; $n += 10 }; p $n^n|34^n|
an operator of the program|class V; def initialize(x); @x = x; end; def x; @x; end; def +(o); V.new(@x + o); end; end; $v = V.new(1); $v += 4; p $v.x^n|5^n|
under a frozen self|self.freeze; $a ^p^p= 1; $a += 1; p $a^n|2^n|
a chain|$a = $b = 1; $a += $b += 2; p $a, $b^n|4^n3^n|
a counter in a loop|$i = 0; $s = 0; while $i < 5; $s += $i; $i += 1; end; p $s, $i^n|10^n5^n|
a constant that was never set|A ^p^p= 1; p A; A ^p^p= 2; p A^n|1^n1^n|
what `^p^p=` of a constant gives|a = (A ^p^p= 4); b = (A ^p^p= 5); p a, b^n|4^n4^n|
a constant that is nil or false|A = nil; A ^p^p= 1; p A; B = false; B ^p^p= 2; p B^n|1^n2^n|
its right side is evaluated only then|A ^p^p= (puts 1; 2); A ^p^p= (puts 3; 4); p A^n|1^n2^n|
a constant with `+=`|A = 1; A += 2; p A; A *= 5; p A^n|3^n15^n|
a constant that was never set, with `+=`|A += 2^n||uninitialized constant A (NameError)
a constant that was never set, with `&&=`|begin; A &&= 2; rescue NameError => e; puts e.message; end^n|uninitialized constant A^n|
a constant with `&&=`|A = 1; A &&= A + 1; p A; B = nil; p(B &&= 3); p B^n|2^nnil^nnil^n|
a constant with `<<=`|A = [1]; b = A; A <<= 2; p A, b.equal?(A)^n|[1, 2]^ntrue^n|
a constant in a condition|A ^p^p= 1 if false; begin; A; rescue NameError => e; puts e.message; end^n|uninitialized constant A^n|
a constant whose right side raises|begin; A ^p^p= 1 / 0; rescue ZeroDivisionError; end; A ^p^p= 3; p A^n|3^n|
beside variables of the name|a = 1; @a = 2; $a = 3; A ^p^p= 4; a += 1; @a += 1; $a += 1; p a, @a, $a, A^n|2^n3^n4^n4^n|
`^p^p=` of other targets is as it was|a ^p^p= 1; @b ^p^p= 2; c = [nil]; c[0] ^p^p= 3; p a, @b, c^n|1^n2^n[3]^n|";

#[test]
fn settable_variables_print_what_is_wanted(rt: HostRuntime) -> Result<(), Fail> {
    check_rows(&rt, rt.alloc(), SETTABLE)
}
