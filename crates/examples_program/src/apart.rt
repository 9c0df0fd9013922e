//! Arrays that `puts` and `join` take apart, the objects in which are asked for their `to_s`, as a table of scripts.

use crate::table::check_rows;
use std::test::Fail;

/// As `RUN` of the rows: what it shows, the script, what it prints, and what is told of the exception that ends it.
const APART: &str = "\
join asks what stands in arrays|class A; def to_s; \"x\"; end; end; puts [A.new, [A.new]].join(\"-\")^n|x-x^n|
puts asks what stands in arrays|class A; def to_s; \"x\"; end; end; puts [A.new, [1, A.new]]^n|x^n1^nx^n|
several arguments|class A; def to_s; \"x\"; end; end; puts [A.new], 2, [[], [nil, A.new]], \"t\\n\"^n|x^n2^n^n^nx^nt^n|
from left to right|class A; def initialize(n); @n = n; end; def to_s; print @n; \"a#{@n}\"; end; end; puts [A.new(1), [A.new(2)]], A.new(3)^n|123a1^na2^na3^n|
join from left to right|class A; def initialize(n); @n = n; end; def to_s; print @n; \"a#{@n}\"; end; end; puts [A.new(1), [A.new(2)], A.new(3)].join(\",\")^n|123a1,a2,a3^n|
one object in two places|class A; def initialize; @n = 0; end; def to_s; @n = @n + 1; \"n#{@n}\"; end; end; a = A.new; puts [a, [a]], [a, a].join(\" \")^n|n3^nn4^nn1 n2^n|
a method that changes the array|class A; def initialize(a); @a = a; end; def to_s; @a << 9; @a[0] = 7; \"x\"; end; end; a = []; a << A.new(a) << 5; puts a; p a^n|x^n5^n[7, 5, 9]^n|
a method that empties the array|class A; def initialize(a); @a = a; end; def to_s; @a.shift; \"x\"; end; end; a = []; a << A.new(a) << A.new(a) << 1; puts a.join(\"-\"), a.size^n|x-x-1^n1^n|
one that raises|class A; def to_s; raise \"no\"; end; end; begin; puts [1, [A.new]]; rescue => e; puts e.message; end^n|no^n|
one that raises under join|class A; def to_s; raise \"no\"; end; end; puts [1, A.new].join(\"-\")^n||no (RuntimeError)
one that gives no text|class A; def to_s; 5; end; end; puts [A.new, [A.new]], [A.new, nil].join(\"-\")^n|#<A>^n#<A>^n#<A>-^n|
an array inside itself|class A; def to_s; \"x\"; end; end; a = [A.new]; a << a; puts a; b = [1]; b << [b, 2]; puts b^n|x^n[...]^n1^n[...]^n2^n|
an array inside itself is not joined|class A; def to_s; \"x\"; end; end; a = [A.new]; a << [a]; begin; a.join; rescue ArgumentError => e; puts e.message; end^n|recursive array join^n|
one array twice|class A; def to_s; \"x\"; end; end; a = [A.new]; puts [a, a], [a, a].join(\"-\")^n|x^nx^nx-x^n|
a text with an array asks nothing|class A; def to_s; \"x\"; end; end; puts \"#{[A.new]}\", [A.new].to_s; print [A.new]; p [A.new]^n|[#<A>]^n[#<A>]^n[#<A>][#<A>]^n|
a hash asks nothing|class A; def to_s; \"x\"; end; end; puts [{a: A.new}, A.new]; puts [{a: A.new}].join^n|{a: #<A>}^nx^n{a: #<A>}^n|
exceptions|class E < StandardError; def to_s; \"e\"; end; end; puts [E.new(\"m\"), RuntimeError.new(\"r\")], [E.new, RuntimeError.new(\"r\")].join(\":\")^n|e^nr^ne:r^n|
a top-level one|class A; end; def to_s; \"top\"; end; puts [A.new, 1, [\"t\", :s, nil]], [A.new, 1, :s].join(\"-\")^n|top^n1^nt^ns^n^ntop-1-s^n|
no separator|class A; def to_s; \"x\"; end; end; puts [A.new, 1, [A.new]].join, [A.new, 2].join(nil)^n|x1x^nx2^n|
empty arrays|class A; def to_s; \"x\"; end; end; puts []; puts [[]], [].join(\"-\"), [[], A.new, []].join(\"-\"), [1, [], [nil, \"a\"]].join(\"-\")^n|^n^n^n-x-^n1---a^n|
a separator that is none|class A; def to_s; \"x\"; end; end; begin; [A.new].join(1); rescue TypeError => e; puts e.message; end; begin; [A.new].join(\"a\", \"b\"); rescue ArgumentError => e; puts e.message; end; puts [].join(1)^n|wrong type Integer^nwrong number of arguments (given 2, expected 0..1)^n^n|
a text that ends with a line end|class A; def to_s; \"x\\n\"; end; end; puts [A.new, A.new], [A.new, 1].join(\"-\")^n|x^nx^nx^n-1^n|
inside to_s|class A; def to_s; \"a\"; end; end; class B; def initialize(l); @l = l; end; def to_s; \"<\" + @l.join(\"^p\") + \">\"; end; end; puts B.new([A.new, B.new([A.new, A.new])])^n|<a^p<a^pa>>^n|
attributes|class A; def initialize(x); @to_s = x; end; attr_reader :to_s; end; puts [A.new(\"t\"), [A.new(3)]], [A.new(\"u\"), A.new(nil)].join(\",\")^n|t^n#<A>^nu,#<A>^n|
return and blocks|class A; def to_s; [1, 2].each { ^px^p return \"o#{x}\" }; \"no\"; end; end; puts [A.new, [A.new]]; [1].each { ^px^p puts [A.new, x].join; break }^n|o1^no1^no11^n|
parameters|class A; def to_s(x); \"n\"; end; end; begin; puts [A.new]; rescue ArgumentError => e; puts e.message; end; begin; [A.new].join; rescue ArgumentError => e; puts e.message; end^n|wrong number of arguments (given 0, expected 1)^nwrong number of arguments (given 0, expected 1)^n|
what is joined is a new text|class A; def to_s; \"x\"; end; end; s = [A.new].join; s << \"y\"; puts s, s.frozen?, [A.new].join.equal?([A.new].join)^n|xy^nfalse^nfalse^n|
splats and joined values of a call|class A; def to_s; \"x\"; end; end; a = [A.new, [A.new]]; puts *a; puts(*a, 1); b = [a.join(\"+\"), a.join(\"-\").size]; puts b^n|x^nx^nx^nx^n1^nx+x^n3^n|
puts of an array gives nil|class A; def to_s; \"x\"; end; end; p puts([A.new])^n|x^nnil^n|
a method named join|class A; def to_s; \"x\"; end; def join(s); \"j\" + s; end; end; puts A.new.join(\"-\"), [A.new.join(\"+\")].join(\"-\")^n|j-^nj+^n|";

#[test]
fn objects_in_arrays_are_asked(rt: HostRuntime) -> Result<(), Fail> {
    check_rows(&rt, rt.alloc(), APART)
}
