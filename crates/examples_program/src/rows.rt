//! Worked examples as tables, one to a line.
//!
//! `^n`, `^r` and `^t` stand for LF, CR and a tab, `^m` for a byte order mark, `^e` for the escape character, `^p` for `|`,
//! `^z` and `^d` for the bytes 0x01 and 0x7F, and `^^` for `^`.

/// Scripts that are run: what it shows, the script, what it prints, and what is told of the exception that ends it.
pub const RUN: &str = "\
an empty file|||
division floors|puts 7 / -2, 7 % -2^n|-4^n-1^n|
division floors with the other sign|puts -7 / 2, -7 % 2^n|-4^n1^n|
a sum outside 64 bits|puts 9223372036854775807 + 1^n||integer out of 64 bits (RangeError)
a product outside 64 bits|puts 4611686018427387904 * 2^n||integer out of 64 bits (RangeError)
the least integer has no opposite|a = -9223372036854775808; puts -a^n||integer out of 64 bits (RangeError)
the least integer by minus one|puts -9223372036854775808 / -1^n||integer out of 64 bits (RangeError)
a divisor of zero|puts 1 / 0^n||divided by 0 (ZeroDivisionError)
a modulus of zero|puts 1; puts 1 % 0^n|1^n|divided by 0 (ZeroDivisionError)
if with a text|a = 3; b = \"x\"; if a > 2; puts b; else; puts a; end^n|x^n|
elsif in order|a = 2^nif a == 1 then puts 10 elsif a == 2 then puts 20 elsif a == 2 then puts 30 else puts 40 end^n|20^n|
if without else is nil|a = if false then 1 end; puts a; puts a == nil^n|^ntrue^n|
the value of if|puts (if nil then 1 else 2 end)^n|2^n|
an integer and a text|puts 1 + \"a\"^n||wrong type String (TypeError)
a text and an integer|puts \"a\" + 1^n||wrong type Integer (TypeError)
an integer below a text|puts 1 < \"a\"^n||comparison of Integer with String failed (ArgumentError)
an integer compared with a text|puts 1 <=> \"a\", 1 <=> 2, 2 <=> 2, 3 <=> 2^n|^n-1^n0^n1^n|
a method of nil|puts nil + 1^n||undefined method '+' for nil (NoMethodError)
a method of true|puts true * 2^n||undefined method '*' for true (NoMethodError)
a method of false|puts false < 2^n||undefined method '<' for false (NoMethodError)
a method of a text|puts -\"a\"^n||undefined method '-@' for an instance of String (NoMethodError)
a bare name|puts a^n||undefined local variable or method 'a' (NameError)
a command with another name|puts 1; foo 2^n|1^n|undefined method 'foo' for an instance of Object (NoMethodError)
a call with another name|foo(1)^n||undefined method 'foo' for an instance of Object (NoMethodError)
a bare name with a mark|a?^n||undefined local variable or method 'a?' (NameError)
a part that is not evaluated yet|puts 1; Ractor[:a]^n|1^n|not here yet (RuntimeError)
what does not decide is not evaluated|puts false && a, true ^p^p a, (nil and a), (1 or a)^n|false^ntrue^n^n1^n|
what decides is the value|puts nil ^p^p 7, 1 && 2, (not nil), !0^n|7^n2^ntrue^nfalse^n|
and binds tighter than or|puts true ^p^p false && false, 1 < 2 && 2 < 3^n|true^ntrue^n|
a loop while and a loop until|i = 0^nwhile i < 3 do i = i + 1 end^nuntil i == 0; puts i; i = i - 1; end^n|3^n2^n1^n|
a loop is nil|puts (while false; end) == nil^n|true^n|
modifiers|i = 0^nx = nil^n(i = i + 1; x = i if i == 5) while x == nil^nputs i if i == 5^nputs 0 unless i == 5^ni = i - 1 until i < 2^nputs i^n|5^n1^n|
unless and else|unless 1 > 2; puts 1; else; puts 2; end^nunless true then puts 3 end^n|1^n|
a choice between two|puts (1 < 2 ? \"a\" : \"b\"), (nil ? 1 : 2)^n|a^n2^n|
an exception ends a loop|i = 0^nwhile true; i = i + 1; puts 6 / (3 - i); end^n|3^n6^n|divided by 0 (ZeroDivisionError)
a local of a part that did not run|if false; a = 1; end; puts a^n|^n|
a variable in its own assignment|a = a; puts a^n|^n|
assignments in one another|a = b = c = 4; puts a + b + c^n|12^n|
assignment answers its value|puts (a = 5) + 1, a^n|6^n5^n|
operators group to the left|puts 9 - 4 - 3, 100 / 5 / 2, 2 + 3 * 4, (2 + 3) * 4, 17 % 7 % 2^n|2^n10^n14^n20^n1^n|
comparisons|puts 1 < 2, 2 <= 2, 3 > 4, 4 >= 4, 1 == 1, 1 != 1^n|true^ntrue^nfalse^ntrue^ntrue^nfalse^n|
equality of all values|puts \"a\" == \"a\", \"a\" == \"b\", nil == nil, nil == false, 1 == \"1\", true != nil^n|true^nfalse^ntrue^nfalse^nfalse^ntrue^n|
texts are joined|a = \"x\"; a = a + \"y\" + 'z'; puts a, a + a^n|xyz^nxyzxyz^n|
escapes|puts \"a\\tb\\n\", \"\\\"q\\\\\", 'it\\'s \\n', \"\\e\\s^p\" ^n|a^tb^n\"q\\^nit's \\n^n^e ^p^n|
puts of nothing, nil, and texts with line ends|puts; puts nil; puts \"\"; puts \"a\\n\"; puts \"b\\n\\n\"^n|^n^n^na^nb^n^n|
puts of an empty list|puts(); puts(1, 2); puts (3)^n|^n1^n2^n3^n|
puts is a value|a = puts; puts a == nil^n|^ntrue^n|
numbers in every base|puts 0xFF, 0b101, 0o17, 1_000_000, 0^n|255^n5^n15^n1000000^n0^n|
a minus that joins|puts -1, - 1, 2 -1, 2-1^na = 3^nputs a -1, a - -1^n|-1^n-1^n1^n1^n2^n4^n|
the ends of 64 bits|puts -9223372036854775808, 9223372036854775807^n|-9223372036854775808^n9223372036854775807^n|
separators before, between and behind|;;^n^n puts 1 ;^n ; puts 2;;^n^n|1^n2^n|
comments and joined lines|# first^nputs 1 + \\^n 2 # three^nputs 4 +^n 5^n# last|3^n9^n|
carriage returns and a byte order mark|^mputs 1^r^nputs^t2^r^n|1^n2^n|
statements in brackets|puts (1; 2; 3), (a = 4; a * 2)^nputs ()^n|3^n8^n^n|
a text over two lines|puts \"a^nb\"^n|a^nb^n|
other letters than those of ASCII|puts \"ü✓\"^n|ü✓^n|
output before an exception|puts 1; puts 2; puts nil - 1; puts 3^n|1^n2^n|undefined method '-' for nil (NoMethodError)";

/// Scripts that are refused: what it shows, the script, the line, the column and the kind of the refusal.
pub const REFUSED: &str = "\
an open text|puts \"abc|1|6|unterminated string
an open text on a later line|puts 1^n  a = 'b|2|7|unterminated string
a control byte|puts 1^z^n|1|7|encoding
the byte 127|a = 1^nb = ^d|2|5|encoding
a number out of range|puts 9223372036854775808^n|1|6|number
a number far out of range|puts 92233720368547758080^n|1|6|number
a number with a leading zero|a = 007^n|1|5|number
a character that begins nothing|a = 1 & 2^n|1|7|character
a word that is left out|alias a b^n|1|1|left out
two values side by side|a = 1 2^n|1|7|unexpected token
an operator without its right side|a = 1 +^n|2|1|unexpected end
an open bracket|puts (1^n|2|1|unexpected end
an open if|if 1^nputs 2^n|3|1|unexpected end
a bracket too many|puts 1)^n|1|7|unexpected token
equality does not chain|puts 1 == 2 == 3^n|1|13|unexpected token
a number that is assigned to|1 = 2^n|1|3|unexpected token
an if without its separator|if 1 end^n|1|6|unexpected token
a loop without its end|while true^n|2|1|unexpected end
an end without a beginning|end^n|1|1|unexpected token";
