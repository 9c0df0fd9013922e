//! Methods of the program's classes, as a table of scripts.

use crate::table::check_rows;
use std::test::Fail;

/// As `RUN` of the rows: what it shows, the script, what it prints, and what is told of the exception that ends it.
const ROWS: &str = "\
a method of a class|class A; def f; 1; end; end; p A.new.f^n|1^n|
a new object|class A; end; p A.new^n|#<A>^n|
a class|class A; end; p A, A.name, A.class^n|A^n\"A\"^nClass^n|
the class of an object|class A; end; p A.new.class, A.new.is_a?(A), A.new.is_a?(Object)^n|A^ntrue^ntrue^n|
a method with arguments|class A; def add(x, y); x + y; end; end; p A.new.add(3, 4)^n|7^n|
a method calls another|class A; def f; g + 1; end; def g; 5; end; end; p A.new.f^n|6^n|
a method calls another with arguments|class A; def f; g(2) * 3; end; def g(x); x + 5; end; end; p A.new.f^n|21^n|
a method calls another on self|class A; def f; self.g; end; def g; 8; end; end; p A.new.f^n|8^n|
a count of a method|class A; def f(x); end; end; begin; A.new.f; rescue ArgumentError => e; puts e.message; end; begin; A.new.f(1, 2); rescue ArgumentError => e; puts e.message; end^n|wrong number of arguments (given 0, expected 1)^nwrong number of arguments (given 2, expected 1)^n|
a method that is missing|class A; end; begin; A.new.g; rescue NoMethodError => e; puts e.message; end^n|undefined method 'g' for an instance of A^n|
a method of another class is missing|class A; def f; 1; end; end; class B; end; begin; B.new.f; rescue NoMethodError => e; puts e.message; end^n|undefined method 'f' for an instance of B^n|
a method that is inherited|class A; def f; 1; end; end; class B < A; end; p B.new.f^n|1^n|
a method that is redefined|class A; def f; 1; end; end; class B < A; def f; 2; end; end; p B.new.f, A.new.f^n|2^n1^n|
a method that stands two classes above|class A; def f; 1; end; end; class B < A; end; class C < B; end; p C.new.f^n|1^n|
the last definition counts|class A; def f; 1; end; def f; 2; end; end; p A.new.f^n|2^n|
a class is opened again|class A; def f; 1; end; end; class A; def g; f + 1; end; end; p A.new.g^n|2^n|
a method of the program on an object|def f; 7; end; class A; end; p A.new.f^n|7^n|
a method of the program on an integer|def double; self * 2; end; p 4.double^n|8^n|
a method of the program on nil|def f; self; end; p nil.f^n|nil^n|
a method of the program in a method of a class|def f; 7; end; class A; def g; f; end; end; p A.new.g^n|7^n|
self of a method of the program|def f; self; end; class A; def g; f; end; end; p A.new.g.class^n|A^n|
a class's method before the program's|def f; 1; end; class A; def f; 2; end; end; p A.new.f, f^n|2^n1^n|
a method of the program before those of Object|def nil?; 7; end; p 5.nil?^n|7^n|
a built-in method before the program's|def abs; 7; end; p(-5.abs)^n|5^n|
a block to a method of a class|class A; def f; yield 1; yield 2; end; end; A.new.f { ^px^p p x }^n|1^n2^n|
a block's value|class A; def f; yield(3) + 1; end; end; p(A.new.f { ^px^p x * 2 })^n|7^n|
a block sees self outside|class A; def f; yield; end; end; class B; def g; A.new.f { self }; end; end; p B.new.g.class^n|B^n|
a block writes self's variable|class A; def f; yield; end; end; class B; def g; @x = 1; A.new.f { @x = @x + 1 }; @x; end; end; p B.new.g^n|2^n|
break out of a method of a class|class A; def f; yield; 5; end; end; p(A.new.f { break 3 })^n|3^n|
return through a method of a class|class A; def f; yield; 5; end; end; def g; A.new.f { return 4 }; 6; end; p g^n|4^n|
next in a block of a method of a class|class A; def f; yield + 1; end; end; p(A.new.f { next 3; 9 })^n|4^n|
block_given? in a method of a class|class A; def f; block_given?; end; end; p A.new.f, A.new.f { }^n|false^ntrue^n|
a writer that is defined|class A; def x=(v); @x = v + 1; 9; end; def x; @x; end; end; a = A.new; p(a.x = 5); p a.x^n|5^n6^n|
a writer that is missing|class A; end; begin; A.new.x = 1; rescue NoMethodError => e; puts e.message; end^n|undefined method 'x=' for an instance of A^n|
equality of objects|class A; end; a = A.new; p a == a, a == A.new, a != A.new^n|true^nfalse^ntrue^n|
a variable of an integer|def f; @a = 1; end; begin; 5.f; rescue FrozenError => e; puts e.message; end^n|can't modify frozen Integer^n|
a variable of an integer is nil|def f; @a; end; p 5.f^n|nil^n|
a variable of a text is nil|def f; @a; end; p \"a\".f^n|nil^n|
a variable of a frozen object|class A; def f; @a = 1; end; end; a = A.new.freeze; begin; a.f; rescue FrozenError => e; puts e.message; end; p a.frozen?^n|can't modify frozen A^ntrue^n|
objects in a container|class A; end; p [A.new, {a: A.new}]^n|[#<A>, {a: #<A>}]^n|
an object as a text|class A; end; puts A.new, A.new.to_s, \"#{A.new}\"^n|#<A>^n#<A>^n#<A>^n|
recursion in a method of a class|class A; def fact(n); n < 2 ? 1 : n * fact(n - 1); end; end; p A.new.fact(10)^n|3628800^n|
too deep a recursion of methods|class A; def f; f; end; end; begin; A.new.f; rescue SystemStackError => e; puts e.message; end^n|stack level too deep^n|
ensure in a method of a class|class A; def f; return 1; ensure; puts 2; end; end; p A.new.f^n|2^n1^n|
rescue in a method of a class|class A; def f; 1 / 0; rescue ZeroDivisionError => e; e.message; end; end; p A.new.f^n|\"divided by 0\"^n|
a method named like one that prints|class A; def p(x); x + 1; end; def f; p 5; end; end; puts A.new.f^n|6^n|
a method named puts|class A; def puts(x); print \"[\", x, \"]\"; end; def f; puts 5; end; end; A.new.f; print \"^n\"^n|[5]^n|
to_s that gives no text|class A; def to_s; 5; end; end; puts A.new.to_s^n|5^n|
a method with a block and arguments|class A; def f(x, y); yield(x, y) + x; end; end; p(A.new.f(1, 2) { ^pa, b^p a * 10 + b })^n|13^n|
a method that is called in a block of another class|class A; def f; yield; end; end; class B; def g; 3; end; def h; A.new.f { g }; end; end; p B.new.h^n|3^n|
an operator on another object raises|class V; end; begin; V.new + 1; rescue NoMethodError => e; puts e.message; end^n|undefined method '+' for an instance of V^n|
a method of the program with arguments on an array|def second(n); self[1] + n; end; p [1, 2].second(5)^n|7^n|
a method of the program on a class|def f; self; end; p Integer.f^n|Integer^n|
a method with ensure calls another|class A; def f; g; ensure; puts 1; end; def g; 2; end; end; p A.new.f^n|1^n2^n|";

#[test]
fn methods_of_objects_print_what_is_wanted(rt: HostRuntime) -> Result<(), Fail> {
    check_rows(&rt, rt.alloc(), ROWS)
}
