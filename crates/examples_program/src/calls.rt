//! Scripts that call built-in methods, as a table.

use crate::table::check_rows;
use std::test::Fail;

/// As `RUN` of the rows: what it shows, the script, what it prints, and what is told of the exception that ends it.
const CALLS: &str = "\
the size of a text|puts \"abc\".size, \"abc\".length, \"\".size^n|3^n3^n0^n|
a size counts characters|puts \"ü✓\".size^n|2^n|
a character by its place|puts \"abc\"[0], \"abc\"[2], \"abc\"[-1], \"ü✓\"[1]^n|a^nc^nc^n✓^n|
no character outside|puts \"abc\"[3] == nil, \"abc\"[-4].nil?^n|true^ntrue^n|
an empty text|puts \"\".empty?, \"a\".empty?^n|true^nfalse^n|
a text several times|puts \"ab\" * 3, \"x\" * 0^n|ababab^n^n|
texts behind a text|a = \"x\"; a << \"y\" << \"z\"; puts a^n|xyz^n|
a text is changed for all names|a = \"x\"; b = a; b << \"y\"; puts a, a.equal?(b)^n|xy^ntrue^n|
only a text behind a text|\"a\" << 1^n||wrong type Integer (TypeError)
a frozen text|a = \"x\".freeze; puts a.frozen?; a << \"y\"^n|true^n|can't modify frozen String (FrozenError)
a frozen literal|# frozen_string_literal: true^na = \"x\"; puts a.frozen?, a.size; a << \"y\"^n|true^n1^n|can't modify frozen String (FrozenError)
a copy of a frozen literal|# frozen_string_literal: true^na = \"x\".dup; a << \"y\"; puts a, a.frozen?, (\"a\" + \"b\").frozen?^n|xy^nfalse^nfalse^n|
a copy is not frozen|a = \"x\".freeze; b = a.dup; b << \"y\"; puts a, b, b.frozen?^n|x^nxy^nfalse^n|
freezing answers the receiver|puts \"abc\".freeze.size^n|3^n|
texts compare by bytes|puts \"a\" < \"b\", \"b\" <= \"a\", \"a\" <=> \"b\", \"a\" <=> \"a\", \"b\" <=> \"a\", \"a\" > \"Z\"^n|true^nfalse^n-1^n0^n1^ntrue^n|
a text does not compare with an integer|puts (\"a\" <=> 1) == nil^n|true^n|
a text below an integer|puts \"a\" < 1^n||comparison of String with Integer failed (ArgumentError)
even, odd and zero|puts 4.even?, 3.odd?, 0.zero?, 3.even?, 4.odd?, 1.zero?^n|true^ntrue^ntrue^nfalse^nfalse^nfalse^n|
the distance from zero|a = -5; puts a.abs, 5.abs, 0.abs^n|5^n5^n0^n|
the least integer has no distance|a = -9223372036854775808; puts a.abs^n||integer out of 64 bits (RangeError)
texts of values|puts 12.to_s + \"a\", nil.to_s + \"b\", true.to_s, :a.to_s + \"c\"^n|12a^nb^ntrue^nac^n|
a text is its own text|a = \"x\"; puts a.to_s.equal?(a)^n|true^n|
inspected values|puts nil.inspect, :a.inspect, \"a\\\"b\\n\".inspect, 1.inspect, false.inspect^n|nil^n:a^n\"a\\\"b\\n\"^n1^nfalse^n|
classes of values|puts 1.class, \"a\".class, nil.class, true.class, false.class, :a.class^n|Integer^nString^nNilClass^nTrueClass^nFalseClass^nSymbol^n|
the class of a class and its name|puts 1.class.class, 1.class.name.size^n|Class^n7^n|
instances of classes|puts 1.is_a?(2.class), 1.is_a?(\"a\".class), \"a\".kind_of?(\"b\".class)^n|true^nfalse^ntrue^n|
an instance of no class|1.is_a?(2)^n||wrong type Integer (TypeError)
nil and the others|puts nil.nil?, false.nil?, 1.nil?^n|true^nfalse^nfalse^n|
what is frozen|puts 1.frozen?, :a.frozen?, nil.frozen?, true.frozen?, \"a\".frozen?, 1.class.frozen?^n|true^ntrue^ntrue^ntrue^nfalse^nfalse^n|
one object or two|a = \"x\"; puts a.equal?(a), a.equal?(\"x\"), 1.equal?(1), :a.equal?(:a)^n|true^nfalse^ntrue^ntrue^n|
equal symbols|puts :a == :a, :a == :b, :a == \"a\", :a != :b^n|true^nfalse^nfalse^ntrue^n|
symbols compare|puts :a <=> :b, :b <=> :a, :a <=> :a, (:a <=> 1) == nil^n|-1^n1^n0^ntrue^n|
symbols have no order signs|puts :a < :b^n||undefined method '<' for an instance of Symbol (NoMethodError)
equal classes|puts 1.class == 2.class, 1.class == \"a\".class, 1.class != nil.class^n|true^nfalse^ntrue^n|
printed symbols and classes|puts :a, 1.class, \"a\".class.to_s^n|a^nInteger^nString^n|
a missing method of a text|puts 1; puts \"a\".foo^n|1^n|undefined method 'foo' for an instance of String (NoMethodError)
a missing method of nil|nil.foo(1)^n||undefined method 'foo' for nil (NoMethodError)
a missing method of true|true.size^n||undefined method 'size' for true (NoMethodError)
a missing method of false|false.foo^n||undefined method 'foo' for false (NoMethodError)
a missing method of a class|1.class.foo^n||undefined method 'foo' for class Integer (NoMethodError)
a missing method of an integer|1.size^n||undefined method 'size' for an instance of Integer (NoMethodError)
a missing method of a symbol|:a.size^n||undefined method 'size' for an instance of Symbol (NoMethodError)
a place of nil|nil[0]^n||undefined method '[]' for nil (NoMethodError)
something behind an integer|1 << 2^n||undefined method '<<' for an instance of Integer (NoMethodError)
an argument too many|\"a\".size(1)^n||wrong number of arguments (given 1, expected 0) (ArgumentError)
an argument too few|\"a\".equal?^n||wrong number of arguments (given 0, expected 1) (ArgumentError)
three arguments for one|1.is_a?(1, 2, 3)^n||wrong number of arguments (given 3, expected 1) (ArgumentError)
five arguments for one|1.is_a?(1, 2, 3, 4, 5)^n||wrong number of arguments (given 5, expected 1) (ArgumentError)
a place that is no integer|\"a\"[\"b\"]^n||wrong type String (TypeError)
the receiver comes before the argument|(puts 1; \"a\").equal?((puts 2; 3))^n|1^n2^n|
arguments from left to right|1.is_a?((puts 1; 2), (puts 3; 4))^n|1^n3^n|wrong number of arguments (given 2, expected 1) (ArgumentError)
an argument that raises|\"a\".foo(b)^n||undefined local variable or method 'b' (NameError)
calls behind one another|puts \"abc\".to_s.size.to_s + \"!\"^n|3!^n|
calls in a loop|i = 0; s = \"\"; while s.size < 5 do s << \"ab\"[i % 2]; i = i + 1 end; puts s^n|ababa^n|
a call in a condition|if \"\".empty? && !nil then puts 1 else puts 2 end^n|1^n|
a call with a block|3.times { ^pi^p puts i }^n|0^n1^n2^n|";

#[test]
fn calls_do_what_is_wanted(rt: HostRuntime) -> Result<(), Fail> {
    check_rows(&rt, rt.alloc(), CALLS)
}
