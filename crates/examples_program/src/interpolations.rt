//! Texts with parts that are evaluated, as a table of scripts.

use crate::table::check_rows;
use std::test::Fail;

/// As `RUN` of the rows: what it shows, the script, what it prints, and what is told of the exception that ends it.
const INTERPOLATIONS: &str = "\
each kind of value|puts \"#{1} #{-2} #{\"b\"} #{:c} #{nil}. #{true} #{false}\"^n|1 -2 b c . true false^n|
an array in a text|puts \"#{[1, \"a\", :b, nil, []]}\"^n|[1, \"a\", :b, nil, []]^n|
a class and an object in a text|puts \"#{Integer} #{Object.new} #{[Object.new]} #{RuntimeError}\"^n|Integer #<Object> [#<Object>] RuntimeError^n|
exceptions in a text|puts \"#{RuntimeError.new(\"x\")} #{TypeError.new}\"^n|x TypeError^n|
a text in a text in a text|a = \"x\"; puts \"#{\"<#{a}#{\"(#{1 + 1})\"}>\"}!\"^n|<x(2)>!^n|
an interpolation without statements|p \"#{}\", \"a#{}b\", \"#{nil}\", \"#{\"\"}\"^n|\"\"^n\"ab\"^n\"\"^n\"\"^n|
the last of several statements|p \"#{1; 2}\", \"#{puts 3; :a}\"^n|3^n\"2\"^n\"a\"^n|
an interpolation alone|p \"#{1}\", \"#{\"a\"}\", \"#{[]}\"^n|\"1\"^n\"a\"^n\"[]\"^n|
interpolations side by side|a = 1; b = \"c\"; p \"#{a}#{b}#{a}\", \"#{a} #{b}\", \"#{a}\\n#{b}\"^n|\"1c1\"^n\"1 c\"^n\"1\\nc\"^n|
parts from left to right|puts \"#{print 1; 2}#{print 3; 4}#{print 5; 6}\"^n|135246^n|
an assignment in a text|puts \"#{a = 5} #{a += 1} #{a}\"; p a^n|5 6 6^n6^n|
a variable before and behind it|a = 1; puts \"#{a}#{a = 2}#{a}\"^n|122^n|
an exception in a text|puts \"a#{1 / 0}b\"^n||divided by 0 (ZeroDivisionError)
what stands behind an exception is not evaluated|puts \"#{puts 1}#{nil + 1}#{puts 2}\"^n|1^n|undefined method '+' for nil (NoMethodError)
a name that is missing in a text|puts 1; puts \"a#{foo}b\"^n|1^n|undefined local variable or method 'foo' (NameError)
a method that is missing in a text|puts \"a#{1.foo}b\"^n||undefined method 'foo' for an instance of Integer (NoMethodError)
what is not evaluated yet in a text|puts \"a#{Ractor[:a]}b\"^n||not here yet (RuntimeError)
a new text each time|a = []; i = 0; while i < 2 do a << \"x#{i}\"; i += 1 end; p a, a[0].equal?(a[1]); i = 0; b = nil; while i < 2 do c = \"#{1}\"; p c.equal?(b); b = c; i += 1 end^n|[\"x0\", \"x1\"]^nfalse^nfalse^nfalse^n|
an interpolated text is not frozen|a = \"x#{1}\"; p a.frozen?; a << \"y\"; p a^n|false^n\"x1y\"^n|
a comment freezes texts without interpolations alone|# frozen_string_literal: true^np \"a\".frozen?, \"#{1}\".frozen?, \"a#{\"b\"}\".frozen?, \"#{\"b\"}\".frozen?^n|true^nfalse^nfalse^nfalse^n|
a text in a text is another one|a = \"x\"; b = \"#{a}\"; p a.equal?(b), a == b; b << \"y\"; p a, b^n|false^ntrue^n\"x\"^n\"xy\"^n|
a text that changes later|a = \"x\"; b = \"<#{a}>\"; a << \"y\"; p b^n|\"<x>\"^n|
a text that a later part changes|a = \"x\"; puts \"#{a}#{a << \"y\"}\"^n|xyxy^n|
what prints in a text|puts \"a#{p 1}b#{puts 2}c#{print 3}d\"^n|1^n2^n3a1bcd^n|
calls in a text|def f(n)^n  \"<#{n}>\"^nend^nputs \"#{f(2)}#{f f(1)}\"^n|<2><<1>>^n|
variables of a method in a text|def f(n)^n  m = n * 2^n  \"#{n} #{m}\"^nend^np f(3), f(\"a\")^n|\"3 6\"^n\"a aa\"^n|
a method ends in a text|def f(n)^n  \"a#{return n}b\"^nend^np f(3)^n|3^n|
an escaped interpolation|puts \"\\#{1}\", '#{1}', \"# {1}\", \"#\"^n|#{1}^n#{1}^n# {1}^n#^n|
an array inside itself in a text|a = [1]; a << a; puts \"#{a}\"^n|[1, [...]]^n|
brackets in an interpolation|puts \"#{if true then \"{\" else \"}\" end}#{[1, 2][1]}\"^n|{2^n|
equal to the same text|p \"a#{1}\" == \"a1\", \"#{1}\" == 1, \"a#{nil}\" == \"a\"^n|true^nfalse^ntrue^n|
methods of an interpolated text|p \"a#{1}b\".size, \"#{12}\"[0], \"#{1}\" + \"#{2}\", \"#{1}\" * 3, \"#{\"b\"}\" <=> \"a#{0}\"^n|3^n\"1\"^n\"12\"^n\"111\"^n1^n|
an interpolated text as an argument|p \"a1b\".include?(\"#{1}b\"), [\"#{1}\", \"x#{nil}y\"]^n|true^n[\"1\", \"xy\"]^n|
an interpolated text as a condition|puts \"yes\" if \"#{nil}\"; puts \"#{true && nil}\".empty?^n|yes^ntrue^n|
an interpolation over lines|puts \"a#{^n1 +^n2^n}b^nc\"^n|a3b^nc^n|
other letters around interpolations|a = \"✓\"; p \"ü#{a}ß\", \"ü#{a}ß\".size^n|\"ü✓ß\"^n3^n|
a text with many parts|a = 0; s = \"#{a += 1}#{a += 1}#{a += 1}#{a += 1}#{a += 1}#{a += 1}#{a += 1}#{a += 1}#{a += 1}\"; p s, a^n|\"123456789\"^n9^n|
an interpolation in a loop|s = \"\"; i = 0; while i < 5 do s = \"#{s}#{i}\"; i += 1 end; p s^n|\"01234\"^n|
an interpolated text in an operator|a = \"x\"; a += \"#{a}!\"; p a; a = nil; a ^p^p= \"#{1}\"; p a^n|\"xx!\"^n\"1\"^n|
the ends of 64 bits in a text|p \"#{9223372036854775807}#{-9223372036854775808}\"^n|\"9223372036854775807-9223372036854775808\"^n|
an operator that raises in a text|p \"#{1 + \"a#{2}\"}\"^n||wrong type String (TypeError)
a text behind an integer|p 1 + \"#{2}\"^n||wrong type String (TypeError)";

#[test]
fn interpolations_make_texts(rt: HostRuntime) -> Result<(), Fail> {
    check_rows(&rt, rt.alloc(), INTERPOLATIONS)
}
