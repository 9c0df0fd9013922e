//! Each built-in method with usual, empty, border and wrong arguments, as tables of scripts.
//!
//! As `RUN` of the rows: what it shows, the script, what it prints, and what is told of the exception that ends it.

use crate::table::check_rows;
use std::test::Fail;

/// Methods of integers.
const INTEGERS: &str = "\
sums of integers|p 1 + 2, -1 + 1, 9223372036854775806 + 1, -9223372036854775807 + -1^n|3^n0^n9223372036854775807^n-9223372036854775808^n|
a sum past the greatest integer|p 9223372036854775807 + 1^n||integer out of 64 bits (RangeError)
a sum past the least integer|p -9223372036854775808 + -1^n||integer out of 64 bits (RangeError)
an integer and a text|1 + \"a\"^n||wrong type String (TypeError)
an integer and nil|1 + nil^n||wrong type NilClass (TypeError)
differences of integers|p 1 - 2, -1 - -1, -9223372036854775807 - 1, 0 - 9223372036854775807^n|-1^n0^n-9223372036854775808^n-9223372036854775807^n|
a difference past the least integer|p -9223372036854775808 - 1^n||integer out of 64 bits (RangeError)
the least integer taken from zero|p 0 - -9223372036854775808^n||integer out of 64 bits (RangeError)
an integer less true|1 - true^n||wrong type TrueClass (TypeError)
products of integers|p 3 * 4, -3 * 4, 0 * -9223372036854775808, 4611686018427387904 * -2, 3037000499 * 3037000499^n|12^n-12^n0^n-9223372036854775808^n9223372030926249001^n|
a product past the greatest integer|p 4611686018427387904 * 2^n||integer out of 64 bits (RangeError)
the least integer times minus one|a = -9223372036854775808; p a * -1^n||integer out of 64 bits (RangeError)
an integer times a text|2 * \"a\"^n||wrong type String (TypeError)
an integer times an array|2 * [1]^n||wrong type Array (TypeError)
quotients round down|p 7 / 2, -7 / 2, 7 / -2, -7 / -2, 0 / 5, -9223372036854775808 / 2^n|3^n-4^n-4^n3^n0^n-4611686018427387904^n|
the least integer by minus one|a = -9223372036854775808; p a / -1^n||integer out of 64 bits (RangeError)
a quotient by zero|1 / 0^n||divided by 0 (ZeroDivisionError)
an integer by a symbol|1 / :a^n||wrong type Symbol (TypeError)
rests have the divisor's sign|p 7 % 3, -7 % 3, 7 % -3, -7 % -3, 6 % 3, -9223372036854775808 % -1^n|1^n2^n-2^n-1^n0^n0^n|
a rest by zero|1 % 0^n||divided by 0 (ZeroDivisionError)
an integer modulo a class|1 % Integer^n||wrong type Class (TypeError)
integers in order|p 1 <=> 2, 2 <=> 1, 1 <=> 1, 1 <=> \"a\", 1 <=> nil^n|-1^n1^n0^nnil^nnil^n|
integers compared|p 1 < 2, 2 < 1, 1 <= 1, 2 <= 1, 1 > 0, 0 > 1, 1 >= 1, 0 >= 1^n|true^nfalse^ntrue^nfalse^ntrue^nfalse^ntrue^nfalse^n|
an integer above nil|1 > nil^n||comparison of Integer with NilClass failed (ArgumentError)
an integer at most an array|1 <= []^n||comparison of Integer with Array failed (ArgumentError)
an integer at least a symbol|1 >= :a^n||comparison of Integer with Symbol failed (ArgumentError)
an integer below true|1 < true^n||comparison of Integer with TrueClass failed (ArgumentError)
equal integers|p 1 == 1, 1 == 2, 1 == \"1\", 1 == nil, 1 != 1, 1 != :a, 0 == false^n|true^nfalse^nfalse^nfalse^nfalse^ntrue^nfalse^n|
the opposite of an integer|a = 5; b = -5; p -a, -b, -0^n|-5^n5^n0^n|
the opposite of the least integer|a = -9223372036854775808; p -a^n||integer out of 64 bits (RangeError)
the opposite of a text|a = \"a\"; -a^n||undefined method '-@' for an instance of String (NoMethodError)
the opposite of nil|a = nil; -a^n||undefined method '-@' for nil (NoMethodError)
distances|p 3.abs, -3.abs, 0.abs, -9223372036854775807.abs^n|3^n3^n0^n9223372036854775807^n|
even and odd of negative integers|p -1.odd?, -2.even?, -1.even?, -2.odd?, -9223372036854775808.even?, 9223372036854775807.odd?^n|true^ntrue^nfalse^nfalse^ntrue^ntrue^n|
the only zero|p 0.zero?, -1.zero?, 9223372036854775807.zero?^n|true^nfalse^nfalse^n|
texts of integers|p 0.to_s, -1.to_s, 9223372036854775807.to_s, -9223372036854775808.to_s, 12.inspect^n|\"0\"^n\"-1\"^n\"9223372036854775807\"^n\"-9223372036854775808\"^n\"12\"^n|
an argument for a distance|1.abs(2)^n||wrong number of arguments (given 1, expected 0) (ArgumentError)
an argument for zero|1.zero?(1)^n||wrong number of arguments (given 1, expected 0) (ArgumentError)
a copy of an integer|p 5.dup, -5.dup.frozen?^n|5^ntrue^n|
an integer is not negated by a bang|p !1, !nil, !false, !0, !\"\", ![]^n|false^ntrue^ntrue^nfalse^nfalse^nfalse^n|";

/// Methods of texts and symbols.
const TEXTS: &str = "\
texts behind one another|p \"a\" + \"b\", \"\" + \"\", \"ü\" + \"✓\"^n|\"ab\"^n\"\"^n\"ü✓\"^n|
a sum is a new text|a = \"a\"; b = a + \"\"; b << \"b\"; p a, b^n|\"a\"^n\"ab\"^n|
a text and an integer|\"a\" + 1^n||wrong type Integer (TypeError)
a text and nil|\"a\" + nil^n||wrong type NilClass (TypeError)
a text and an array|\"a\" + []^n||wrong type Array (TypeError)
a text less a text|\"a\" - \"b\"^n||undefined method '-' for an instance of String (NoMethodError)
a text no times|p \"ab\" * 0, \"ab\" * 1, \"\" * 5^n|\"\"^n\"ab\"^n\"\"^n|
a text times a text|\"a\" * \"b\"^n||wrong type String (TypeError)
a text times less than nothing|\"a\" * -1^n||argument must be non-negative (ArgumentError)
a text times nil|\"a\" * nil^n||wrong type NilClass (TypeError)
a text by two|\"a\" / 2^n||undefined method '/' for an instance of String (NoMethodError)
a text modulo two|\"a\" % 2^n||undefined method '%' for an instance of String (NoMethodError)
behind a text itself|a = \"ab\"; a << a; p a^n|\"abab\"^n|
nothing behind a text|a = \"a\"; a << \"\"; p a, a.size^n|\"a\"^n1^n|
nil behind a text|\"a\" << nil^n||wrong type NilClass (TypeError)
a symbol behind a text|\"a\" << :b^n||wrong type Symbol (TypeError)
a frozen text is asked before what comes behind|\"a\".freeze << 1^n||can't modify frozen String (FrozenError)
texts in order|p \"a\" <=> \"b\", \"b\" <=> \"a\", \"\" <=> \"\", \"\" <=> \"a\", \"a\" <=> \"\", \"ab\" <=> \"a\", \"ü\" <=> \"z\", \"a\" <=> :a^n|-1^n1^n0^n-1^n1^n1^n1^nnil^n|
texts compared|p \"a\" < \"b\", \"a\" < \"a\", \"a\" <= \"a\", \"b\" > \"a\", \"a\" >= \"b\", \"\" < \"a\", \"Z\" < \"a\", \"z\" < \"ü\"^n|true^nfalse^ntrue^ntrue^nfalse^ntrue^ntrue^ntrue^n|
a text above a symbol|\"a\" > :a^n||comparison of String with Symbol failed (ArgumentError)
a text at least nil|\"a\" >= nil^n||comparison of String with NilClass failed (ArgumentError)
a text at most an array|\"a\" <= []^n||comparison of String with Array failed (ArgumentError)
equal texts|p \"a\" == \"a\", \"a\" == \"b\", \"a\" == :a, \"\" == \"\", \"a\" != \"a\", \"ü\" == \"u\", \"a\" == nil^n|true^nfalse^nfalse^ntrue^nfalse^nfalse^nfalse^n|
sizes of texts|p \"\".size, \"a\".size, \"aü\".size, \"✓✓\".length, \"a^nb\".size, \"\\\\\\\"\".size^n|0^n1^n2^n2^n3^n2^n|
an argument for a size|\"a\".length(2)^n||wrong number of arguments (given 1, expected 0) (ArgumentError)
characters of a text|p \"abc\"[0], \"abc\"[1], \"abc\"[2], \"abc\"[3], \"abc\"[-1], \"abc\"[-3], \"abc\"[-4], \"\"[0], \"\"[-1]^n|\"a\"^n\"b\"^n\"c\"^nnil^n\"c\"^n\"a\"^nnil^nnil^nnil^n|
characters that take several bytes|p \"aü✓\"[0], \"aü✓\"[1], \"aü✓\"[2], \"aü✓\"[3], \"aü✓\"[-1], \"aü✓\"[-2]^n|\"a\"^n\"ü\"^n\"✓\"^nnil^n\"✓\"^n\"ü\"^n|
a character far outside|p \"a\"[9223372036854775807], \"a\"[-9223372036854775808]^n|nil^nnil^n|
a character is a new text|a = \"ab\"; b = a[0]; b << \"c\"; p a, b^n|\"ab\"^n\"ac\"^n|
a character by nil|\"a\"[nil]^n||wrong type NilClass (TypeError)
a character by a symbol|\"a\"[:a]^n||wrong type Symbol (TypeError)
empty texts|p \"\".empty?, \" \".empty?, \"^n\".empty?^n|true^nfalse^nfalse^n|
texts within texts|p \"abc\".include?(\"b\"), \"abc\".include?(\"\"), \"\".include?(\"\"), \"\".include?(\"a\"), \"abc\".include?(\"ac\"), \"abc\".include?(\"abc\"), \"abc\".include?(\"abcd\")^n|true^ntrue^ntrue^nfalse^nfalse^ntrue^nfalse^n|
texts within texts that repeat|p \"aaab\".include?(\"aab\"), \"ababac\".include?(\"abac\"), \"a✓ü\".include?(\"✓\"), \"✓\".include?(\"ü\")^n|true^ntrue^ntrue^nfalse^n|
an integer within a text|\"a\".include?(1)^n||wrong type Integer (TypeError)
nil within a text|\"a\".include?(nil)^n||wrong type NilClass (TypeError)
nothing asked of a text|\"a\".include?^n||wrong number of arguments (given 0, expected 1) (ArgumentError)
two things asked of a text|\"a\".include?(\"a\", \"b\")^n||wrong number of arguments (given 2, expected 1) (ArgumentError)
texts are their own texts|a = \"x\"; p a.to_s.equal?(a), a.inspect.equal?(a), a.freeze.equal?(a), a.dup.equal?(a)^n|true^nfalse^ntrue^nfalse^n|
inspected signs|p \"#\", \"#a\", '#{', '#$', '#@', \"\\#\", \"##\", '#{}#{'^n|\"#\"^n\"#a\"^n\"\\#{\"^n\"\\#$\"^n\"\\#@\"^n\"#\"^n\"##\"^n\"\\#{}\\#{\"^n|
inspected controls|p \"^n^t\", \"\\e\", \"\\r\", \"\\s\", \"'\", '\"'^n|\"\\n\\t\"^n\"\\e\"^n\"\\r\"^n\" \"^n\"'\"^n\"\\\"\"^n|
first of a text|\"a\".first^n||undefined method 'first' for an instance of String (NoMethodError)
keys of a text|\"a\".keys^n||undefined method 'keys' for an instance of String (NoMethodError)
a text taken from|\"a\".pop^n||undefined method 'pop' for an instance of String (NoMethodError)
texts of symbols|p :a.to_s, :abc.inspect, :A.to_s, :a.to_s.frozen?^n|\"a\"^n\":abc\"^n\"A\"^nfalse^n|
a text of a symbol is new|a = :a.to_s; a << \"b\"; p a, :a^n|\"ab\"^n:a^n|
symbols in order|p :a <=> :b, :b <=> :a, :a <=> :a, :a <=> \"a\", :a <=> nil, :ab <=> :a^n|-1^n1^n0^nnil^nnil^n1^n|
symbols are equal by name|p :a == :a, :a == :b, :a == \"a\", :a.equal?(:a), :a != :a^n|true^nfalse^nfalse^ntrue^nfalse^n|
a symbol and a symbol|:a + :b^n||undefined method '+' for an instance of Symbol (NoMethodError)
a symbol at most a symbol|:a <= :b^n||undefined method '<=' for an instance of Symbol (NoMethodError)
the size of a symbol|:a.length^n||undefined method 'length' for an instance of Symbol (NoMethodError)";

/// Methods of arrays.
const ARRAYS: &str = "\
elements of an array|a = [1, 2, 3]; p a[0], a[2], a[3], a[-1], a[-3], a[-4], [][0], [][-1]^n|1^n3^nnil^n3^n1^nnil^nnil^nnil^n|
elements far outside|p [1][9223372036854775807], [1][-9223372036854775808]^n|nil^nnil^n|
an element by nil|[1][nil]^n||wrong type NilClass (TypeError)
an element by an array|[1][[0]]^n||wrong type Array (TypeError)
an element by nothing|p [1].first.nil?, [nil].first.nil?, [].last.nil?^n|false^ntrue^ntrue^n|
pushed behind an array|a = []; p a << 1, a.push(2), a << [3] << nil, a^n|[1, 2, [3], nil]^n[1, 2, [3], nil]^n[1, 2, [3], nil]^n[1, 2, [3], nil]^n|
an array pushed into itself|a = []; a.push(a); p a, a[0].equal?(a)^n|[[...]]^ntrue^n|
pushing nothing|[].push^n||wrong number of arguments (given 0, expected 1) (ArgumentError)
pushing two values|[].push(1, 2)^n||wrong number of arguments (given 2, expected 1) (ArgumentError)
pushing on a frozen array|[1].freeze.push(2)^n||can't modify frozen Array (FrozenError)
taken from the end|a = [1, 2, 3]; p a.pop, a, a.pop, a.pop, a.pop, a^n|3^n[]^n2^n1^nnil^n[]^n|
taken from the front|a = [1, 2, 3]; p a.shift, a, a.shift, a.shift, a.shift, a^n|1^n[]^n2^n3^nnil^n[]^n|
taken from both ends|a = [1, 2, 3, 4]; a.shift; a.pop; a << 5; p a, a.size, a[0], a[-1]^n|[2, 3, 5]^n3^n2^n5^n|
taking from a frozen array|[].freeze.pop^n||can't modify frozen Array (FrozenError)
taking the first of a frozen array|[1].freeze.shift^n||can't modify frozen Array (FrozenError)
an argument for a pop|[1].pop(1)^n||wrong number of arguments (given 1, expected 0) (ArgumentError)
arrays joined|a = [1]; b = a + [2]; b << 3; p a, b, [] + [], [[]] + [nil]^n|[1]^n[1, 2, 3]^n[]^n[[], nil]^n|
texts of joined arrays|p [1, nil, :a, \"b\", [2, []], Integer].join(\"-\"), [].join(\"-\"), [1, [], 2].join(\"-\"), [[], []].join(\"-\"), [1, 2].join, [1, [2, [3]]].join, [1, 2].join(nil), [].join(5)^n|\"1--a-b-2--Integer\"^n\"\"^n\"1--2\"^n\"-\"^n\"12\"^n\"123\"^n\"12\"^n\"\"^n|
texts of joined values|p [true, false, nil, -3, \"ü\"].join(\"é\"), [RuntimeError.new(\"m\"), [ArgumentError.new]].join(\" \"), [Object.new].join^n|\"trueéfalseéé-3éü\"^n\"m ArgumentError\"^n\"#<Object>\"^n|
a joined text is a new one|a = [\"x\"]; p a.join.equal?(a[0]), a.freeze.join.frozen?, a.join^n|false^nfalse^n\"x\"^n|
an array joined inside itself|a = [1]; a << [2, a]; p a.join(\"-\")^n||recursive array join (ArgumentError)
a text between elements that is none|[1].join(5)^n||wrong type Integer (TypeError)
two texts between elements|[1].join(\"a\", \"b\")^n||wrong number of arguments (given 2, expected 0..1) (ArgumentError)
a joined text|\"a\".join^n||undefined method 'join' for an instance of String (NoMethodError)
an array and a text|[1] + \"a\"^n||wrong type String (TypeError)
an array and nil|[1] + nil^n||wrong type NilClass (TypeError)
an array less an array|[1] - [1]^n||undefined method '-' for an instance of Array (NoMethodError)
an array twice|[1] * 2^n||undefined method '*' for an instance of Array (NoMethodError)
arrays are not compared|[1] < [2]^n||undefined method '<' for an instance of Array (NoMethodError)
the order of arrays|[1] <=> [2]^n||undefined method '<=>' for an instance of Array (NoMethodError)
values within arrays|p [1, 2].include?(2), [1, 2].include?(3), [].include?(nil), [nil].include?(nil), [\"a\"].include?(\"a\"), [[1]].include?([1]), [1].include?(\"1\")^n|true^nfalse^nfalse^ntrue^ntrue^ntrue^nfalse^n|
a value within an array that holds itself|a = [1]; a << a; p a.include?(1), a.include?(a), a.include?(2)^n|true^ntrue^nfalse^n|
sums of arrays|p [].sum, [1].sum, [1, -1, 5].sum, [9223372036854775807, 1, -1].sum^n|0^n1^n5^n9223372036854775807^n|
a sum of elements past the greatest integer|[9223372036854775807, 1].sum^n||integer out of 64 bits (RangeError)
a sum with a text|[1, \"a\", nil].sum^n||wrong type String (TypeError)
a sum with nil|[nil].sum^n||wrong type NilClass (TypeError)
sorted integers|p [].sort, [1].sort, [3, -1, 2, -9223372036854775808, 2].sort, [2, 1, 3, 1].sort^n|[]^n[1]^n[-9223372036854775808, -1, 2, 2, 3]^n[1, 1, 2, 3]^n|
sorted texts|p [\"b\", \"\", \"ab\", \"a\", \"ü\", \"Z\"].sort, [\"a\"].sort^n|[\"\", \"Z\", \"a\", \"ab\", \"b\", \"ü\"]^n[\"a\"]^n|
sorting leaves the array|a = [2, 1]; b = a.sort; b << 3; p a, b^n|[2, 1]^n[1, 2, 3]^n|
sorting keeps equal texts in order|a = \"x\"; b = \"x\"; c = [a, b].sort; p c[0].equal?(a), c[1].equal?(b)^n|true^ntrue^n|
sorting integers and texts|[2, 1, \"a\", nil].sort^n||comparison of Integer with String failed (ArgumentError)
sorting texts and integers|[\"a\", 1].sort^n||comparison of String with Integer failed (ArgumentError)
sorting nil|[nil].sort^n||comparison of NilClass with NilClass failed (ArgumentError)
sorting arrays|[[2], [1]].sort^n||comparison of Array with Array failed (ArgumentError)
sizes of arrays|p [].size, [nil].size, [[], []].length, [1, 2, 3].empty?, [].empty?, [nil].empty?^n|0^n1^n2^nfalse^ntrue^nfalse^n|
an argument for an array's size|[].size(1)^n||wrong number of arguments (given 1, expected 0) (ArgumentError)
an argument for the first|[1].first(1)^n||wrong number of arguments (given 1, expected 0) (ArgumentError)
equal arrays by what is in them|p [1, 2] == [1, 2], [1, 2] == [2, 1], [] == [], [[]] == [[]], [1] == [1, nil], [\"a\"] == [\"a\"], [1] == 1, [nil] == []^n|true^nfalse^ntrue^ntrue^nfalse^ntrue^nfalse^nfalse^n|
unequal arrays|p [1] != [1], [1] != [2], [1] != nil, [] != []^n|false^ntrue^ntrue^nfalse^n|
arrays that hold themselves are equal|a = []; a << a; b = []; b << b; p a == b, a == [a], a == [1]^n|true^ntrue^nfalse^n|
copies of arrays|a = [1, [2]].freeze; b = a.dup; b << 3; b[1] << 4; p a, b, a.frozen?, b.frozen?, b[1].frozen?^n|[1, [2, 4]]^n[1, [2, 4], 3]^ntrue^nfalse^nfalse^n|
freezing is not deep|a = [[1]].freeze; a[0] << 2; p a, a.frozen?, a[0].frozen?^n|[[1, 2]]^ntrue^nfalse^n|
texts of arrays|p [].to_s, [1, nil, true].inspect, [\"a\", :b].to_s, [[1], []].to_s, [Integer].to_s^n|\"[]\"^n\"[1, nil, true]\"^n\"[\\\"a\\\", :b]\"^n\"[[1], []]\"^n\"[Integer]\"^n|
keys of an array|[1].keys^n||undefined method 'keys' for an instance of Array (NoMethodError)
a missing method of an array's copy|[1].dup.foo^n||undefined method 'foo' for an instance of Array (NoMethodError)";

/// Methods of classes, objects and exceptions.
const CLASSES: &str = "\
names of classes|p Integer.name, String.name, NilClass.name, Class.name, LocalJumpError.to_s, ZeroDivisionError.inspect^n|\"Integer\"^n\"String\"^n\"NilClass\"^n\"Class\"^n\"LocalJumpError\"^n\"ZeroDivisionError\"^n|
classes of all values|p 1.class, \"a\".class, :a.class, nil.class, true.class, false.class, [].class, Integer.class, Object.new.class, TypeError.new.class^n|Integer^nString^nSymbol^nNilClass^nTrueClass^nFalseClass^nArray^nClass^nObject^nTypeError^n|
classes above|p 1.is_a?(Object), nil.is_a?(NilClass), true.is_a?(TrueClass), [].is_a?(Array), Integer.is_a?(Class), Integer.is_a?(Object), 1.is_a?(String), nil.is_a?(FalseClass)^n|true^ntrue^ntrue^ntrue^ntrue^ntrue^nfalse^nfalse^n|
classes above exceptions|e = ZeroDivisionError.new; p e.is_a?(StandardError), e.is_a?(Exception), e.is_a?(Object), e.is_a?(ArgumentError), NoMethodError.new.is_a?(NameError), FrozenError.new.is_a?(RuntimeError)^n|true^ntrue^ntrue^nfalse^ntrue^ntrue^n|
classes beside one another|p SystemStackError.new.is_a?(StandardError), StopIteration.new.is_a?(IndexError), RangeError.new.is_a?(IndexError), NameError.new.is_a?(NoMethodError)^n|false^ntrue^nfalse^nfalse^n|
a kind of nothing|1.kind_of?^n||wrong number of arguments (given 0, expected 1) (ArgumentError)
a kind of nil|1.kind_of?(nil)^n||wrong type NilClass (TypeError)
a kind of a text|1.is_a?(\"Integer\")^n||wrong type String (TypeError)
classes are equal to themselves|p Integer == Integer, Integer != String, Integer.equal?(Integer), Integer == \"Integer\", Object == Object.new^n|true^ntrue^ntrue^nfalse^nfalse^n|
no order of classes|Integer <=> String^n||undefined method '<=>' for class Integer (NoMethodError)
a name of no class|1.name^n||undefined method 'name' for an instance of Integer (NoMethodError)
a new text of a class|String.new^n||undefined method 'new' for class String (NoMethodError)
a new class of a class|Class.new^n||undefined method 'new' for class Class (NoMethodError)
a new array of a class|Array.new^n||undefined method 'new' for class Array (NoMethodError)
a new nil|NilClass.new^n||undefined method 'new' for class NilClass (NoMethodError)
objects are equal to themselves|a = Object.new; b = Object.new; p a == a, a == b, a != b, a.equal?(a), a == nil, a.nil?, a.frozen?^n|true^nfalse^ntrue^ntrue^nfalse^nfalse^nfalse^n|
a copy of an object|a = Object.new; b = a.dup; p a.equal?(b), b.class, b.frozen?, a == b^n|false^nObject^nfalse^nfalse^n|
a copy of a frozen object|a = Object.new.freeze; b = a.dup; p a.frozen?, b.frozen?, b.equal?(a)^n|true^nfalse^nfalse^n|
a copy of an exception|a = ArgumentError.new(\"no\"); b = a.dup; p b, b.message, b.equal?(a), b.cause^n|#<ArgumentError: no>^n\"no\"^nfalse^nnil^n|
a copy of a frozen exception|a = RuntimeError.new(\"x\").freeze; b = a.dup; p a.frozen?, b.frozen?, b.message^n|true^nfalse^n\"x\"^n|
a copy of an object with an argument|Object.new.dup(1)^n||wrong number of arguments (given 1, expected 0) (ArgumentError)
a frozen object|a = Object.new.freeze; p a.frozen?, a.class^n|true^nObject^n|
an object and an object|Object.new + 1^n||undefined method '+' for an instance of Object (NoMethodError)
an object below an object|Object.new < 1^n||undefined method '<' for an instance of Object (NoMethodError)
messages of exceptions|p RuntimeError.new(\"a\").message, RuntimeError.new.message, RuntimeError.new(\"\").message, RuntimeError.new(nil).message, StandardError.new(\"ü\").to_s^n|\"a\"^n\"RuntimeError\"^n\"\"^n\"RuntimeError\"^n\"ü\"^n|
a message is what was given|a = \"a\"; e = RuntimeError.new(a); p e.message, e.to_s, e.inspect, e.cause, e.frozen?^n|\"a\"^n\"a\"^n\"#<RuntimeError: a>\"^nnil^nfalse^n|
exceptions are equal to themselves|a = TypeError.new(\"a\"); p a == a, a == TypeError.new(\"a\"), a.equal?(a), a != a^n|true^nfalse^ntrue^nfalse^n|
a cause of no exception|\"a\".cause^n||undefined method 'cause' for an instance of String (NoMethodError)
a message with an argument|RuntimeError.new(\"a\").message(1)^n||wrong number of arguments (given 1, expected 0) (ArgumentError)
a ractor of a usual exception|RuntimeError.new(\"a\").ractor^n||undefined method 'ractor' for an instance of RuntimeError (NoMethodError)";

/// Methods of all values, and those that nil and its kin have not.
const VALUES: &str = "\
frozen values|p 1.frozen?, nil.frozen?, true.frozen?, :a.frozen?, Integer.frozen?, \"a\".frozen?, [].frozen?, \"a\".freeze.frozen?, [].freeze.frozen?^n|true^ntrue^ntrue^ntrue^nfalse^nfalse^nfalse^ntrue^ntrue^n|
freezing immediates gives them|p 1.freeze, nil.freeze, :a.freeze, true.freeze, Integer.freeze.frozen?^n|1^nnil^n:a^ntrue^nfalse^n|
nil and its texts|p nil.to_s, nil.inspect, nil.nil?, nil == nil, nil == false, nil != nil, nil.dup, nil.class^n|\"\"^n\"nil\"^ntrue^ntrue^nfalse^nfalse^nnil^nNilClass^n|
true and false|p true.to_s, false.inspect, true == true, true == 1, true != false, !true, true.dup, false.nil?^n|\"true\"^n\"false\"^ntrue^nfalse^ntrue^nfalse^ntrue^nfalse^n|
identity of values|p 1.equal?(1), nil.equal?(nil), \"a\".equal?(\"a\"), :a.equal?(:b), [].equal?([]), true.equal?(false)^n|true^ntrue^nfalse^nfalse^nfalse^nfalse^n|
identity of nothing|1.equal?^n||wrong number of arguments (given 0, expected 1) (ArgumentError)
identity of two things|1.equal?(1, 2)^n||wrong number of arguments (given 2, expected 1) (ArgumentError)
a class with an argument|1.class(1)^n||wrong number of arguments (given 1, expected 0) (ArgumentError)
a copy with an argument|\"a\".dup(1)^n||wrong number of arguments (given 1, expected 0) (ArgumentError)
nil and an integer|nil + 1^n||undefined method '+' for nil (NoMethodError)
nil below one|nil < 1^n||undefined method '<' for nil (NoMethodError)
true and one|true + 1^n||undefined method '+' for true (NoMethodError)
the order of nil|nil <=> nil^n||undefined method '<=>' for nil (NoMethodError)
a place of an integer|1[0]^n||undefined method '[]' for an instance of Integer (NoMethodError)
a place of a symbol|:a[0]^n||undefined method '[]' for an instance of Symbol (NoMethodError)
a place of a class|Integer[0]^n||undefined method '[]' for class Integer (NoMethodError)
behind nil|nil << 1^n||undefined method '<<' for nil (NoMethodError)
the size of nil|nil.length^n||undefined method 'length' for nil (NoMethodError)
methods of what methods give|p \"abc\".size.to_s.size, [1, \"ab\"].last.length, 5.class.name[0], [3, 1].sort.first, nil.to_s.empty?^n|1^n2^n\"I\"^n1^ntrue^n|";

#[test]
fn methods_of_integers(rt: HostRuntime) -> Result<(), Fail> {
    check_rows(&rt, rt.alloc(), INTEGERS)
}

#[test]
fn methods_of_texts(rt: HostRuntime) -> Result<(), Fail> {
    check_rows(&rt, rt.alloc(), TEXTS)
}

#[test]
fn methods_of_arrays(rt: HostRuntime) -> Result<(), Fail> {
    check_rows(&rt, rt.alloc(), ARRAYS)
}

#[test]
fn methods_of_classes(rt: HostRuntime) -> Result<(), Fail> {
    check_rows(&rt, rt.alloc(), CLASSES)
}

#[test]
fn methods_of_all_values(rt: HostRuntime) -> Result<(), Fail> {
    check_rows(&rt, rt.alloc(), VALUES)
}
