//! A program's own `to_s` and `inspect`, as a table of scripts.

use crate::table::check_rows;
use std::test::Fail;

/// As `RUN` of the rows: what it shows, the script, what it prints, and what is told of the exception that ends it.
const SPEAKING: &str = "\
what calls to_s|class A; def to_s; \"x\"; end; end; puts A.new, \"#{A.new}\"; print A.new; p A.new^n|x^nx^nx#<A>^n|
a number counts as absent|class A; def to_s; 5; end; end; puts A.new; p \"#{A.new}\"; print A.new^n|#<A>^n\"#<A>\"^n#<A>|
nil counts as absent|class A; def to_s; end; end; puts A.new^n|#<A>^n|
p calls inspect|class A; def inspect; \"<a>\"; end; end; p A.new; puts A.new^n|<a>^n#<A>^n|
an inspect that gives no text|class A; def inspect; [1]; end; end; p A.new^n|#<A>^n|
p gives its argument|class A; def inspect; \"a\"; end; end; a = A.new; b = p(a); p b.equal?(a)^n|a^ntrue^n|
p gives several in an array|class A; def inspect; \"a\"; end; end; a = A.new; b = p(a, 1, a); puts b.size; puts b[2].equal?(a); p b[1]^n|a^n1^na^n3^ntrue^n1^n|
p inspects texts and prints what was said as it is|class A; def inspect; \"a b\"; end; end; p \"a b\", A.new, nil, :c^n|\"a b\"^na b^nnil^n:c^n|
p of nothing|class A; def inspect; \"a\"; end; end; p p^n|nil^n|
puts of nothing|class A; def to_s; \"a\"; end; end; puts; print; p puts(A.new)^n|^na^nnil^n|
an exception in to_s|class A; def to_s; raise \"no\"; end; end; puts A.new^n||no (RuntimeError)
what raises prints nothing of the others|class A; def to_s; raise \"no\"; end; end; begin; puts 1, A.new, 2; rescue => e; puts e.message; end^n|no^n|
all are asked before anything is printed|class A; def to_s; puts \"in\"; \"a\"; end; end; puts A.new, A.new^n|in^nin^na^na^n|
from left to right|class A; def initialize(n); @n = n; end; def to_s; print @n; \"a#{@n}\"; end; end; puts A.new(1), A.new(2)^n|12a1^na2^n|
arguments are evaluated before they are asked|class A; def to_s; print 1; \"a\"; end; end; puts A.new, (print 0; 5)^n|01a^n5^n|
super of the program's|class A; def to_s; \"a\"; end; end; class B < A; def to_s; super + \"b\"; end; end; puts B.new^n|ab^n|
super of the built-in one|class A; def to_s; super + \"!\"; end; end; puts A.new^n|#<A>!^n|
a frozen text|class A; def to_s; \"l\".freeze; end; end; puts A.new; s = \"#{A.new}\"; p s, s.frozen?^n|l^n\"l\"^nfalse^n|
an inherited one|class A; def to_s; \"a\"; end; end; class B < A; end; puts B.new^n|a^n|
an attribute|class A; def initialize(x); @to_s = x; end; attr_reader :to_s; end; puts A.new(\"t\"), A.new(3), A.new(nil)^n|t^n#<A>^n#<A>^n|
an attribute that p asks|class A; def initialize(x); @inspect = x; end; attr_reader :inspect; end; p A.new(\"t\"), A.new(3)^n|t^n#<A>^n|
a top-level one|class A; end; def to_s; \"top\"; end; puts A.new, 1, \"t\", :s, A, self^n|top^n1^nt^ns^nA^ntop^n|
a top-level one stands behind that of exceptions|def to_s; \"top\"; end; puts RuntimeError.new(\"m\")^n|m^n|
an exception's|class E < StandardError; def to_s; \"e\"; end; end; puts E.new(\"m\"), \"#{E.new}\"; p E.new(\"m\")^n|e^ne^n#<E: m>^n|
an exception's inspect|class E < StandardError; def inspect; \"e\"; end; end; p E.new(\"m\"); puts E.new(\"m\")^n|e^nm^n|
other values between|class A; def to_s; \"x\"; end; end; puts nil, A.new, 1, \"t\", A.new, true^n|^nx^n1^nt^nx^ntrue^n|
parts of a text|class A; def to_s; \"x\"; end; end; puts \"#{A.new}-#{nil}-#{1}-#{A.new}\"^n|x--1-x^n|
a text inside to_s|class A; def to_s; \"a\"; end; end; class B; def to_s; \"<#{A.new}#{A.new}>\"; end; end; puts B.new^n|<aa>^n|
return|class A; def to_s; return \"j\"; end; end; class B; def to_s; [1, 2].each { ^px^p return \"o#{x}\" }; \"no\"; end; end; puts A.new, B.new^n|j^no1^n|
break and next in a block inside|class A; def to_s; a = [1, 2].each { ^px^p break \"b\" }; [3].each { ^px^p next }; a; end; end; puts A.new^n|b^n|
a method that leaves a loop|class A; def to_s; \"a\"; end; end; while true do puts A.new; break end; [1, 2].each { ^px^p puts A.new; break }^n|a^na^n|
rescue and ensure inside|class A; def to_s; begin; raise \"x\"; rescue; \"r\"; ensure; print \"e\"; end; end; end; puts A.new^n|er^n|
parameters|class A; def to_s(x); \"n\"; end; end; begin; puts A.new; rescue ArgumentError => e; puts e.message; end^n|wrong number of arguments (given 0, expected 1)^n|
without end|class A; def to_s; \"#{self}\"; end; end; begin; puts A.new; rescue SystemStackError => e; puts e.message; end^n|stack level too deep^n|
self is the value|class A; def initialize(n); @n = n; end; def to_s; @n = @n + 1; \"n#{@n}\"; end; def show; puts self, self; end; end; a = A.new(1); a.show; puts a^n|n2^nn3^nn4^n|
no block is given|class A; def to_s; if block_given? then \"b\" else \"n\" end; end; end; def f; puts A.new; end; f { 1 }^n|n^n|
a line end|class A; def to_s; \"ab\\n\"; end; def inspect; \"i\\n\"; end; end; puts A.new; p A.new^n|ab^ni^n^n|
its name without a method|puts 1.to_s, nil.inspect, \"#{:a.to_s}\"; p Object.new.inspect^n|1^nnil^na^n\"#<Object>\"^n|
many values|class A; def to_s; \"a\"; end; end; a = A.new; puts a, a, a, 1, a, a, 2, a^n|a^na^na^n1^na^na^n2^na^n|";

#[test]
fn values_say_what_is_printed(rt: HostRuntime) -> Result<(), Fail> {
    check_rows(&rt, rt.alloc(), SPEAKING)
}
