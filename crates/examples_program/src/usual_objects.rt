//! Methods of the program's classes, new objects, and assignments to instance variables, as a table of scripts.

use crate::table::check_rows;
use std::test::Fail;

/// As `RUN` of the rows: what it shows, the script, what it prints, and what is told of the exception that ends it.
const OBJECTS: &str = "\
methods of one name in two classes|class A; def f(x); x; end; end; class B; def f(x); x * 2; end; end; p A.new.f(3), B.new.f(3)^n|3^n6^n|
a method of the program and one of a class, of one name|def f; 1; end; class A; def f; 2; end; end; p f, A.new.f^n|1^n2^n|
a method of a class and one of the program, of one name|class A; def f; 2; end; end; def f; 1; end; p A.new.f, f^n|2^n1^n|
a method that is defined again|class A; def f; 1; end; end; class A; def f; 2; end; end; p A.new.f^n|2^n|
a method that is defined below too|class A; def f; 1; end; end; class B < A; def f; super + 1; end; end; p A.new.f, B.new.f^n|1^n2^n|
a reader and a method of its name|class A; attr_reader :f; def initialize; @f = 1; end; end; class B; def f; 2; end; end; p A.new.f, B.new.f, A.new.f^n|1^n2^n1^n|
a method of all values, of an object of the program|def f(x); x + 1; end; class A; end; p A.new.f(1), 5.f(2)^n|2^n3^n|
no such method|class A; end; class B; def f; end; end; begin; A.new.f; rescue NoMethodError; p 2; end^n|2^n|
too many arguments|class A; def f(x); end; end; begin; A.new.f(1, 2); rescue ArgumentError => e; puts e.message; end^n|wrong number of arguments (given 2, expected 1)^n|
too few arguments of a new object|class A; def initialize(a, b); end; end; begin; A.new(1); rescue ArgumentError => e; puts e.message; end^n|wrong number of arguments (given 1, expected 2)^n|
an initialize of the class above|class A; def initialize(x); @x = x; end; end; class B < A; attr_reader :x; end; p B.new(4).x^n|4^n|
an initialize of two classes|class A; attr_reader :x; def initialize(x); @x = x; end; end; class B < A; def initialize(x); super(x + 1); end; end; p A.new(1).x, B.new(1).x^n|1^n2^n|
an object without an initialize|class A; end; begin; A.new(1); rescue ArgumentError => e; puts e.message; end; p A.new == A.new^n|wrong number of arguments (given 1, expected 0)^nfalse^n|
a splat for a new object|class A; attr_reader :x; def initialize(x, y); @x = x - y; end; end; a = [5, 3]; p A.new(*a).x^n|2^n|
an argument of a new object that a call gives|def f; 6; end; class A; attr_reader :x; def initialize(y, x); @x = x - y; end; end; p A.new(1, f).x^n|5^n|
an argument of a new object that raises|class A; def initialize(x); p 1; end; end; begin; A.new(1 / 0); rescue ZeroDivisionError; p 2; end^n|2^n|
a new object as an argument of one|class A; attr_reader :x; def initialize(x); @x = x; end; end; p A.new(A.new(7)).x.x^n|7^n|
a block of a new object|class A; attr_reader :x; def initialize; @x = yield(2); end; end; a = A.new { ^py^p y + 1 }; p a.x^n|3^n|
a new object of a class that is held|class A; attr_reader :x; def initialize(x); @x = x; end; end; b = A; p b.new(9).x^n|9^n|
a method with the name of new|class A; def new(x); x + 1; end; end; p A.new.new(2)^n|3^n|
no class that makes an object|begin; 5.new; rescue NoMethodError; p 1; end; class A; def initialize; end; end; a = A.new; begin; a.new; rescue NoMethodError; p 2; end^n|1^n2^n|
a new exception of the program|class E < StandardError; def initialize(a); super(a + \"y\"); end; end; begin; raise E.new(\"x\"); rescue E => e; puts e.message; end^n|xy^n|
an initialize too deep in itself|class A; def initialize; A.new; end; end; begin; A.new; rescue SystemStackError; p 1; end^n|1^n|
a return out of an initialize|class A; attr_reader :x; def initialize(x); return if x > 1; @x = x; end; end; p A.new(1).x, A.new(2).x^n|1^nnil^n|
an initialize that raises|class A; def initialize; raise \"a\"; end; end; begin; A.new; rescue => e; puts e.message; end^n|a^n|
an assignment to an instance variable has its value|class A; def f; @a = @b = 3; end; def g; @a + @b; end; end; a = A.new; p a.f, a.g^n|3^n6^n|
an instance variable that is not assigned, since its value raises|class A; attr_reader :x; def f; @x = 1; @x = 1 / 0; end; end; a = A.new; begin; a.f; rescue ZeroDivisionError; p a.x; end^n|1^n|
an instance variable of a frozen object|class A; def f; @x = 1; end; end; a = A.new.freeze; begin; a.f; rescue FrozenError; p 1; end^n|1^n|
an instance variable of the value that a call gives|class A; attr_reader :x; def f; @x = g + 1; end; def g; 4; end; end; a = A.new; p a.f, a.x^n|5^n5^n|
an instance variable as the last value of a choice|class A; def f(n); if n > 0 then @x = n else @x end; end; end; a = A.new; p a.f(0), a.f(2), a.f(0)^n|nil^n2^n2^n|";

#[test]
fn objects_of_the_program_print_what_is_wanted(rt: HostRuntime) -> Result<(), Fail> {
    check_rows(&rt, rt.alloc(), OBJECTS)
}
