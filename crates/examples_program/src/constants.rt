//! Constants, as a table of scripts.

use crate::table::check_rows;
use std::test::Fail;

/// As `RUN` of the rows: what it shows, the script, what it prints, and what is told of the exception that ends it.
const CONSTANTS: &str = "\
a constant|A = 1; p A; p A + 1^n|1^n2^n|
what an assignment gives|p(A = 3); b = (B = \"x\"); p b, B^n|3^n\"x\"^n\"x\"^n|
the object that it has|A = [1]; a = A; a << 2; p A, A.equal?(a)^n|[1, 2]^ntrue^n|
a frozen object|s = \"q\".freeze; A = s; p A.equal?(s)^n|true^n|
a chain of assignments|A = B = [1]; A << 2; p B^n|[1, 2]^n|
nil is a value|A = nil; p A; B = false; p B^n|nil^nfalse^n|
set twice|A = 1; A = 2; p A^n|2^n|
read before it is set|begin; A; rescue NameError => e; puts e.message; end; A = 1; p A^n|uninitialized constant A^n1^n|
never set|p 1; A^n|1^n|uninitialized constant A (NameError)
one that is missing beside one that is set|A = 1; p A; p B^n|1^n|uninitialized constant B (NameError)
one behind Ractor|A = 1; Ractor::A^n||uninitialized constant A (NameError)
in a method|A = 1; def f; A; end; p f^n|1^n|
in a method that stands before it|def f; A; end; A = 2; p f; A = 3; p f^n|2^n3^n|
in a method before it is set|def f; A; end; begin; f; rescue NameError => e; puts e.message; end^n|uninitialized constant A^n|
in a block|A = 2; p [1, 2].map { ^px^p x * A }^n|[2, 4]^n|
set in a block|[1, 2].each { ^px^p A = x }; p A^n|2^n|
in a method of a class|A = 4; class K; def f; A; end; end; p K.new.f^n|4^n|
a class of the program|class K; end; p K; A = K; p A, A.new.class, A.equal?(K)^n|K^nK^nK^ntrue^n|
a built-in class|p Integer, String; A = Integer; p A, 1.is_a?(A)^n|Integer^nString^nInteger^ntrue^n|
beside a global variable|A = 1; $a = 2; p A, $a^n|1^n2^n|
beside a symbol of the name|A = 1; p :A, A^n|:A^n1^n|
an exception class|A = ZeroDivisionError; begin; 1 / 0; rescue A => e; puts e.class; end^n|ZeroDivisionError^n|
the value comes first|A = 1; A = A + 1; p A^n|2^n|
a value that raises leaves it unset|begin; A = 1 / 0; rescue ZeroDivisionError; end; A^n||uninitialized constant A (NameError)
under a frozen self|self.freeze; A = 1; p A^n|1^n|
in a text|A = 3; puts \"<#{A}>\"^n|<3>^n|
as a key and a value|A = :a; p({A => A})^n|{a: :a}^n|
a condition|A = 1 if true; p A^n|1^n|
many of them|A = 1; B = 2; C = 3; D = 4; p A + B + C + D^n|10^n|";

#[test]
fn constants_print_what_is_wanted(rt: HostRuntime) -> Result<(), Fail> {
    check_rows(&rt, rt.alloc(), CONSTANTS)
}
