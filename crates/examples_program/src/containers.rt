//! Scripts with arrays, and what `puts`, `p` and `print` write of any value, as a table.

use crate::endings::check_done;
use crate::run::repeated;
use crate::table::check_rows;
use std::test::Fail;

/// As `RUN` of the rows: what it shows, the script, what it prints, and what is told of the exception that ends it.
const CONTAINERS: &str = "\
an array|p [1, 2]^n|[1, 2]^n|
an empty array|p []^n|[]^n|
arrays in arrays|p [1, [2, [3, []]], nil]^n|[1, [2, [3, []]], nil]^n|
an array over lines and with a last comma|p [^n  1,^n  2,^n]^n|[1, 2]^n|
elements from left to right|p [(print 1; 2), (print 3; 4)]^n|13[2, 4]^n|
an element that raises|p [1, 1 / 0, (puts 5)]^n||divided by 0 (ZeroDivisionError)
an element by its place|a = [10, 20, 30]; puts a[0], a[-1], a[1]; p a[3], a[-4]^n|10^n30^n20^nnil^nnil^n|
how many elements|a = [1, [2, 3]]; puts a.size, a.length, [].empty?, a.empty?^n|2^n2^ntrue^nfalse^n|
each literal is a new array|i = 0; while i < 2 do a = [1]; a << i; p a; i = i + 1 end^n|[1, 0]^n[1, 1]^n|
an array is changed for all names|a = [1]; b = a; b << 2 << 3; p a, a.equal?(b), a.equal?([1, 2, 3])^n|[1, 2, 3]^ntrue^nfalse^n|
elements pushed and taken|a = []; a.push(1); a.push(\"b\"); p a; p a.pop; p a; p a.shift; p a.pop^n|[1, \"b\"]^n\"b\"^n[1]^n1^nnil^n|
arguments come before what is printed|a = [1]; p a, a.pop, a^n|[]^n1^n[]^n|
the first and the last element|p [1, 2, 3].first, [1, 2, 3].last, [].first, [].last^n|1^n3^nnil^nnil^n|
arrays behind one another|p [1] + [2, 3] + []^n|[1, 2, 3]^n|
the sum and the order|p [3, 1, 2].sum, [3, 1, 2].sort, [\"b\", \"a\"].sort, [].sum^n|6^n[1, 2, 3]^n[\"a\", \"b\"]^n0^n|
a frozen array|a = [1].freeze; p a.frozen?; a << 2^n|true^n|can't modify frozen Array (FrozenError)
an index that is no integer|[1][\"a\"]^n||wrong type String (TypeError)
a missing method of an array|[1].foo^n||undefined method 'foo' for an instance of Array (NoMethodError)
an array and an integer|[1] + 1^n||wrong type Integer (TypeError)
the class of an array|p [].class, [].nil?, [1].is_a?([].class)^n|Array^nfalse^ntrue^n|
an array as a condition|if [] then puts 1 else puts 2 end^n|1^n|
texts of arrays|puts [1, :a, \"b\"].to_s + \"!\", [].inspect^n|[1, :a, \"b\"]!^n[]^n|
an array inside itself|a = [1]; a << a; p a; puts a.inspect^n|[1, [...]]^n[1, [...]]^n|
lines of an array inside itself|a = [1]; a << a; puts a^n|1^n[...]^n|
one array twice is not inside itself|a = [1]; p [a, a]^n|[[1], [1]]^n|
lines of an array|puts [1, [2, [nil, \"x\"]], :y]^n|1^n2^n^nx^ny^n|
lines of nothing|puts []; puts nil; puts [nil]; puts [[], 1]; puts^n|^n^n^n^n1^n^n|
lines of several values|puts [1, 2], 3, \"a^n\", \"\"^n|1^n2^n3^na^n^n|
inspected values|p nil, true, false, 1, -2, :a, \"b\", 1.class^n|nil^ntrue^nfalse^n1^n-2^n:a^n\"b\"^nInteger^n|
inspected texts|p \"a\\\"\\\\\\n\\t\\r\\e\", '#{x}', '#', 'ü✓'^n|\"a\\\"\\\\\\n\\t\\r\\e\"^n\"\\#{x}\"^n\"#\"^n\"ü✓\"^n|
printed without line ends|print 1, nil, :a, \"b^n\", true; print; print \"c\"; puts^n|1ab^ntruec^n|
printed arrays|print [1, \"a\", nil], []; puts^n|[1, \"a\", nil][]^n|
what p gives|puts (p 1) + 1; a = (p 1, \"b\"); p a; p (p)^n|1^n2^n1^n\"b\"^n[1, \"b\"]^nnil^n|
what p gives is the argument itself|a = [1]; b = p(a); puts a.equal?(b)^n|[1]^ntrue^n|
what puts and print give|a = puts(1); b = print(2); c = puts; d = print; p a, b, c, d^n|1^n2^nnil^nnil^nnil^nnil^n|
p without arguments|a = p; b = p(); puts a.nil?, b.nil?^n|true^ntrue^n|
a variable with the name of a call|p = 1; puts p; print = 2; puts print; p(p)^n|1^n2^n1^n|
an argument of a print that raises|print 1, foo^n||undefined local variable or method 'foo' (NameError)
no new integer|p 1.class.new^n||undefined method 'new' for class Integer (NoMethodError)
objects of classes|p Object.new; puts Object.new; print Object.new^n|#<Object>^n#<Object>^n#<Object>|
exceptions as values|e = RuntimeError.new(\"x\"); p e, e.message, e.class; puts e; print StandardError.new^n|#<RuntimeError: x>^n\"x\"^nRuntimeError^nx^nStandardError|
classes as values|p 5.class == Integer, Integer, [].class == Array, nil.is_a?(Object), [Integer, :a]^n|true^nInteger^ntrue^ntrue^n[Integer, :a]^n|
a new exception of each kind|p TypeError.new(\"a\").message, ZeroDivisionError.new.message, NameError.new.class.name^n|\"a\"^n\"ZeroDivisionError\"^n\"NameError\"^n|
the classes of values are constants|p 1.is_a?(Object), \"a\".is_a?(String), [].is_a?(Hash), RuntimeError.new.is_a?(StandardError), Class.class == Class^n|true^ntrue^nfalse^ntrue^ntrue^n|
a constant that was never set|puts 1; puts Foo; puts 2^n|1^n|uninitialized constant Foo (NameError)
classes of Ractor|p Ractor::Error, Ractor::RemoteError, Ractor::MovedError, Ractor::IsolationError, Ractor::ClosedError, Ractor::MovedObject^n|Ractor::Error^nRactor::RemoteError^nRactor::MovedError^nRactor::IsolationError^nRactor::ClosedError^nRactor::MovedObject^n|
a class of Ractor is rescued|begin; raise Ractor::MovedError, \"a\"; rescue Ractor::Error => e; p e, e.class; end^n|#<Ractor::MovedError: a>^nRactor::MovedError^n|
a class of another name in Ractor|Ractor::Errors^n||uninitialized constant Errors (NameError)
a class that Ractor has not|Ractor::StandardError^n||uninitialized constant StandardError (NameError)
a constant whose name begins like a class|Objects^n||uninitialized constant Objects (NameError)
too many arguments for an exception|RuntimeError.new(1, 2)^n||wrong number of arguments (given 2, expected 0..1) (ArgumentError)
an object takes no argument|Object.new(1)^n||wrong number of arguments (given 1, expected 0) (ArgumentError)
no new object of a class of values|Integer.new^n||undefined method 'new' for class Integer (NoMethodError)
equal arrays|p [1, [2, \"a\"]] == [1, [2, \"a\"]], [1] == [2], [1] == [1, 2], [1] != [1], [] == [], [1] == 1^n|true^nfalse^nfalse^nfalse^ntrue^nfalse^n|
an array is equal to itself inside itself|a = [1]; a << a; p a == a, a == [1, 2]^n|true^nfalse^n|
a value in an array|p [1, \"b\"].include?(\"b\"), [[1]].include?([1]), [1].include?(3)^n|true^ntrue^nfalse^n|
an array of texts that change later|a = \"x\"; b = [a, a]; a << \"y\"; p b^n|[\"xy\", \"xy\"]^n|
arrays through a loop|a = []; i = 0; while i < 5 do a << [i, i * i]; i = i + 1 end; p a, a[2][1]^n|[[0, 0], [1, 1], [2, 4], [3, 9], [4, 16]]^n4^n|
arrays as arguments|puts [1, 2].equal?([1, 2]), [1].size.to_s^n|false^n1^n|
a copy of an array|a = [1, [2]]; b = a.dup; b << 3; b[1] << 4; p a, b, b.frozen?^n|[1, [2, 4]]^n[1, [2, 4], 3]^nfalse^n|";

#[test]
fn containers_are_written(rt: HostRuntime) -> Result<(), Fail> {
    check_rows(&rt, rt.alloc(), CONTAINERS)
}

/// A thousand elements, by a loop and by a literal.
#[test]
fn a_large_array(rt: HostRuntime) -> Result<(), Fail> {
    let looped =
        b"a = []; i = 0; while i < 1000 do a << i; i = i + 1 end; puts a.size, a[999], a.sum\n";
    check_done(&rt, rt.alloc(), looped, "1000\n999\n499500\n");
    let shown = b"]; puts a.size, a[999], a.sum\n";
    let literal = repeated(rt.alloc(), b"a = [", b"7, ", 1000, shown)?;
    check_done(&rt, rt.alloc(), literal.as_slice(), "1000\n7\n7000\n");
    Ok(())
}
