//! Scripts that raise exceptions of their own, as a table.

use crate::table::check_rows;
use std::test::Fail;

/// As `RUN` of the rows: what it shows, the script, what it prints, and what is told of the exception that ends it.
const RAISING: &str = "\
raise with a text|raise \"a\"^n||a (RuntimeError)
raise in brackets|raise(\"a\")^n||a (RuntimeError)
raise with a class|raise ArgumentError^n||ArgumentError (ArgumentError)
raise with a class and a text|raise TypeError, \"b\"^n||b (TypeError)
raise with a class in brackets|raise(IndexError, \"b\")^n||b (IndexError)
raise with an exception|raise ArgumentError.new(\"c\")^n||c (ArgumentError)
raise with an exception in a variable|e = NameError.new(\"d\"); puts e.message; raise e^n|d^n|d (NameError)
raise with an exception without a message|raise KeyError^n||uninitialized constant KeyError (NameError)
raise with Exception|raise Exception, \"e\"^n||e (Exception)
raise alone|raise^n||unhandled exception (RuntimeError)
raise alone in brackets|raise()^n||unhandled exception (RuntimeError)
raise with an integer|raise 5^n||exception class/object expected (TypeError)
raise with nil|raise nil^n||exception class/object expected (TypeError)
raise with an array|raise [\"a\"]^n||exception class/object expected (TypeError)
raise with a class of no exceptions|raise String^n||exception class/object expected (TypeError)
raise with a class of no exceptions and a text|raise Object, \"a\"^n||exception class/object expected (TypeError)
raise with a text and a text|raise \"a\", \"b\"^n||exception class/object expected (TypeError)
raise with an exception and a text|raise TypeError.new(\"a\"), \"b\"^n||exception class/object expected (TypeError)
raise with three values|puts 1; raise TypeError, \"a\", 3^n|1^n|wrong number of arguments (given 3, expected 0..2) (ArgumentError)
raise with four values|raise 1, 2, 3, 4^n||wrong number of arguments (given 4, expected 0..2) (ArgumentError)
the values come first|raise (print 1; TypeError), (print 2; \"a\")^n|12|a (TypeError)
an exception in a value|raise TypeError, 1 / 0^n||divided by 0 (ZeroDivisionError)
a message that is no text|raise TypeError, 7^n||TypeError (TypeError)
a message of nil|raise TypeError, nil^n||TypeError (TypeError)
a text that is changed before it is raised|a = \"x\"; a << \"y\"; raise a^n||xy (RuntimeError)
a text with a part that is evaluated|a = 3; raise \"a#{a}b\"^n||a3b (RuntimeError)
raise under a condition|raise \"a\" if false; puts 1; raise \"b\" unless false; puts 2^n|1^n|b (RuntimeError)
raise in a method|def f(a); raise ArgumentError, a if a != nil; 1; end^nputs f(nil); f(\"x\"); puts 2^n|1^n|x (ArgumentError)
raise in a loop|i = 0^nwhile true; i += 1; next if i < 3; raise \"r#{i}\"; end^n||r3 (RuntimeError)
raise in an argument|def f(a, b); 1; end^nf(1, (raise \"a\"))^n||a (RuntimeError)
raise in an array|puts [1, (raise \"a\"), puts(3)]^n||a (RuntimeError)
raise in what a break gives|while true; break (raise \"a\"); end^n||a (RuntimeError)
raise in what is raised|raise (raise \"b\")^n||b (RuntimeError)
a method named raise|def raise(a); print a; 5; end^np raise(\"a\")^n|a5^n|
a method named raise without arguments|def raise; 6; end^np raise, raise()^n|6^n6^n|
a variable named raise|raise = 7; p raise^n|7^n|
an exception as a value|e = RuntimeError.new(\"m\"); p e, e.class, e.cause^n|#<RuntimeError: m>^nRuntimeError^nnil^n|
a class without a text|e = TypeError.new; puts e.message^n|TypeError^n|
what follows is not evaluated|puts 1; raise \"a\"; puts 2^n|1^n|a (RuntimeError)";

#[test]
fn exceptions_are_raised(rt: HostRuntime) -> Result<(), Fail> {
    check_rows(&rt, rt.alloc(), RAISING)
}
