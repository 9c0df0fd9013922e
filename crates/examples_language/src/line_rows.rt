//! Sources with their tokens, or with the place and the kind of their refusal, one to a line: `SOURCE -> TOKENS`.
//!
//! A token stands as `Name 0..4`, with `_` before one where something stands between it and the token before. In a source
//! `^n`, `^r` and `^t` stand for LF, CR and a tab, and `^` with two hexadecimal digits for the byte of that number.

/// Blanks, comments and lines.
pub const LINES: &str = "\
\x20-> 
\x20^t^r -> 
# -> 
# a -> 
^n -> LineEnd 0..1
^r^n -> LineEnd 0..2
a^r^rb -> Name 0..1, _Name 3..4
#a^r^nb -> _LineEnd 3..4, Name 4..5
a^n^n^nb -> Name 0..1, _LineEnd 3..4, Name 4..5
a # b^nc -> Name 0..1, _LineEnd 5..6, Name 6..7
a^r^nb -> Name 0..1, LineEnd 1..3, Name 3..4
a\\^nb -> Name 0..1, _Name 3..4
a\\^r^nb -> Name 0..1, _Name 4..5
a \\^n^n b -> Name 0..1, _LineEnd 4..5, _Name 6..7
^EF^BB^BFa -> Name 3..4
a;^nb -> Name 0..1, Op(Semicolon) 1..2, LineEnd 2..3, Name 3..4
a =^nb -> Name 0..1, _Op(Assign) 2..3, _Name 4..5
a +=^nb -> Name 0..1, _Op(PlusAssign) 2..4, _Name 5..6
a ||=^nb -> Name 0..1, _Op(OrAssign) 2..5, _Name 6..7
a <<^nb -> Name 0..1, _Op(Shift) 2..4, _Name 5..6
a <=>^nb -> Name 0..1, _Op(Compare) 2..5, _Name 6..7
a &&^nb -> Name 0..1, _Op(And) 2..4, _Name 5..6
a !^nb -> Name 0..1, _Op(Bang) 2..3, _Name 4..5
a ?^nb -> Name 0..1, _Op(Question) 2..3, _Name 4..5
a .^nb -> Name 0..1, _Op(Dot) 2..3, _Name 4..5
a =>^nb -> Name 0..1, _Op(Arrow) 2..4, _Name 5..6
a ,^nb -> Name 0..1, _Op(Comma) 2..3, _Name 4..5
a (^nb -> Name 0..1, _Op(Open) 2..3, _Name 4..5
a [^nb -> Name 0..1, _Op(OpenSquare) 2..3, _Name 4..5
{^na -> OpenBrace 0..1, _Name 2..3
a or^nb -> Name 0..1, _Keyword(Or) 2..4, _Name 5..6
not^na -> Keyword(Not) 0..3, _Name 4..5
a |^nb -> Name 0..1, _Op(Bar) 2..3, LineEnd 3..4, Name 4..5
A::^nB -> Constant 0..1, Op(Path) 1..3, LineEnd 3..4, Constant 4..5
def +^na -> Keyword(Def) 0..3, _Op(Plus) 4..5, LineEnd 5..6, Name 6..7
def a^nb -> Keyword(Def) 0..3, _Name 4..5, LineEnd 5..6, Name 6..7
a^n) -> Name 0..1, _Op(Close) 2..3
a^n] -> Name 0..1, _Op(CloseSquare) 2..3
a^n} -> Name 0..1, _CloseBrace 2..3
a^n.b -> Name 0..1, _Op(Dot) 2..3, Name 3..4
a^n # c^n .if -> Name 0..1, _Op(Dot) 8..9, Name 9..11
a^n.B -> Name 0..1, LineEnd 1..2, Op(Dot) 2..3, Constant 3..4
a if b^n+ c -> Name 0..1, _Keyword(If) 2..4, _Name 5..6, LineEnd 6..7, Op(Plus) 7..8, _Name 9..10
puts \"abc\" -> Name 0..4, _Text 5..10
a.each { |x|^n puts x } -> Name 0..1, Op(Dot) 1..2, Name 2..6, _OpenBrace 7..8, _Op(Bar) 9..10, Name 10..11, Op(Bar) 11..12, LineEnd 12..13, _Name 14..18, _Name 19..20, _CloseBrace 21..22
^EF^BB^BF -> 
^EF^BB^BF^n -> LineEnd 3..4
x +^ny -> Name 0..1, _Op(Plus) 2..3, _Name 4..5
f^n .g -> Name 0..1, _Op(Dot) 3..4, Name 4..5
a -^nb -> Name 0..1, _Op(Minus) 2..3, _Name 4..5
a *^r^nb -> Name 0..1, _Op(Star) 2..3, _Name 5..6
a / # c^nb -> Name 0..1, _Op(Slash) 2..3, _Name 8..9
a %^n^nb -> Name 0..1, _Op(Percent) 2..3, _Name 5..6
a ==^nb -> Name 0..1, _Op(Equal) 2..4, _Name 5..6
a !=^nb -> Name 0..1, _Op(NotEqual) 2..4, _Name 5..6
a >=^nb -> Name 0..1, _Op(GreaterOrEqual) 2..4, _Name 5..6
a <<=^nb -> Name 0..1, _Op(ShiftAssign) 2..5, _Name 6..7
a &&=^nb -> Name 0..1, _Op(AndAssign) 2..5, _Name 6..7
a ||^nb -> Name 0..1, _Op(Or) 2..4, _Name 5..6
a :^nb -> Name 0..1, _Op(Colon) 2..3, _Name 4..5
a and^nb -> Name 0..1, _Keyword(And) 2..5, _Name 6..7
return^na -> Keyword(Return) 0..6, LineEnd 6..7, Name 7..8
if^na -> Keyword(If) 0..2, LineEnd 2..3, Name 3..4
a:^nb -> Label 0..2, LineEnd 2..3, Name 3..4
def -^n-a -> Keyword(Def) 0..3, _Op(Minus) 4..5, LineEnd 5..6, Op(Minus) 6..7, Name 7..8
a - -^nb -> Name 0..1, _Op(Minus) 2..3, _Op(Minus) 4..5, _Name 6..7
def ==^na -> Keyword(Def) 0..3, _Op(Equal) 4..6, LineEnd 6..7, Name 7..8
[^n1,^n2^n] -> Op(OpenSquare) 0..1, _Int 2..3, Op(Comma) 3..4, _Int 5..6, _Op(CloseSquare) 7..8
a^n..b -> Name 0..1, LineEnd 1..2, Op(Dot) 2..3, Op(Dot) 3..4, Name 4..5
a^n\\^n.b -> Name 0..1, _Op(Dot) 4..5, Name 5..6
a # b\\^nc -> Name 0..1, _LineEnd 6..7, Name 7..8
a\\^n\\^nb -> Name 0..1, _Name 5..6
";

/// Names of methods, behind which a line ends, and line ends that stand between tokens as a blank does.
pub const METHODS: &str = "\
def +^na -> Keyword(Def) 0..3, _Op(Plus) 4..5, LineEnd 5..6, Name 6..7
def -^na -> Keyword(Def) 0..3, _Op(Minus) 4..5, LineEnd 5..6, Name 6..7
def *^na -> Keyword(Def) 0..3, _Op(Star) 4..5, LineEnd 5..6, Name 6..7
def /^na -> Keyword(Def) 0..3, _Op(Slash) 4..5, LineEnd 5..6, Name 6..7
def %^na -> Keyword(Def) 0..3, _Op(Percent) 4..5, LineEnd 5..6, Name 6..7
def <<^na -> Keyword(Def) 0..3, _Op(Shift) 4..6, LineEnd 6..7, Name 7..8
def ==^na -> Keyword(Def) 0..3, _Op(Equal) 4..6, LineEnd 6..7, Name 7..8
def <^na -> Keyword(Def) 0..3, _Op(Less) 4..5, LineEnd 5..6, Name 6..7
def <=^na -> Keyword(Def) 0..3, _Op(LessOrEqual) 4..6, LineEnd 6..7, Name 7..8
def >^na -> Keyword(Def) 0..3, _Op(Greater) 4..5, LineEnd 5..6, Name 6..7
def >=^na -> Keyword(Def) 0..3, _Op(GreaterOrEqual) 4..6, LineEnd 6..7, Name 7..8
def <=>^na -> Keyword(Def) 0..3, _Op(Compare) 4..7, LineEnd 7..8, Name 8..9
def []^na -> Keyword(Def) 0..3, _Op(OpenSquare) 4..5, Op(CloseSquare) 5..6, LineEnd 6..7, Name 7..8
def []=^na -> Keyword(Def) 0..3, _Op(OpenSquare) 4..5, Op(CloseSquare) 5..6, Op(Assign) 6..7, LineEnd 7..8, Name 8..9
def x=^na -> Keyword(Def) 0..3, _Name 4..5, Op(Assign) 5..6, LineEnd 6..7, Name 7..8
def x=^r^na -> Keyword(Def) 0..3, _Name 4..5, Op(Assign) 5..6, LineEnd 6..8, Name 8..9
def x= # c^na -> Keyword(Def) 0..3, _Name 4..5, Op(Assign) 5..6, _LineEnd 10..11, Name 11..12
def x=^n^na -> Keyword(Def) 0..3, _Name 4..5, Op(Assign) 5..6, _LineEnd 7..8, Name 8..9
def x=(v)^na -> Keyword(Def) 0..3, _Name 4..5, Op(Assign) 5..6, Op(Open) 6..7, Name 7..8, Op(Close) 8..9, LineEnd 9..10, Name 10..11
def x=(^nv)^na -> Keyword(Def) 0..3, _Name 4..5, Op(Assign) 5..6, Op(Open) 6..7, _Name 8..9, Op(Close) 9..10, LineEnd 10..11, Name 11..12
def [](i)^na -> Keyword(Def) 0..3, _Op(OpenSquare) 4..5, Op(CloseSquare) 5..6, Op(Open) 6..7, Name 7..8, Op(Close) 8..9, LineEnd 9..10, Name 10..11
def x =^na -> Keyword(Def) 0..3, _Name 4..5, _Op(Assign) 6..7, _Name 8..9
def x\\^n=^na -> Keyword(Def) 0..3, _Name 4..5, _Op(Assign) 7..8, _Name 9..10
def [] =^na -> Keyword(Def) 0..3, _Op(OpenSquare) 4..5, Op(CloseSquare) 5..6, _Op(Assign) 7..8, _Name 9..10
def [ ]=^na -> Keyword(Def) 0..3, _Op(OpenSquare) 4..5, _Op(CloseSquare) 6..7, Op(Assign) 7..8, _Name 9..10
def x==^na -> Keyword(Def) 0..3, _Name 4..5, Op(Equal) 5..7, _Name 8..9
def x+=^na -> Keyword(Def) 0..3, _Name 4..5, Op(PlusAssign) 5..7, _Name 8..9
def x y=^na -> Keyword(Def) 0..3, _Name 4..5, _Name 6..7, Op(Assign) 7..8, _Name 9..10
def A=^na -> Keyword(Def) 0..3, _Constant 4..5, Op(Assign) 5..6, _Name 7..8
def x;y=^na -> Keyword(Def) 0..3, _Name 4..5, Op(Semicolon) 5..6, Name 6..7, Op(Assign) 7..8, _Name 9..10
a.def x=^nb -> Name 0..1, Op(Dot) 1..2, Name 2..5, _Name 6..7, Op(Assign) 7..8, _Name 9..10
x=^na -> Name 0..1, Op(Assign) 1..2, _Name 3..4
[]=^na -> Op(OpenSquare) 0..1, Op(CloseSquare) 1..2, Op(Assign) 2..3, _Name 4..5
def^nx=^na -> Keyword(Def) 0..3, LineEnd 3..4, Name 4..5, Op(Assign) 5..6, _Name 7..8
-^n7 -> Op(Minus) 0..1, _Int 2..3
a = -^n9223372036854775808 -> Name 0..1, _Op(Assign) 2..3, _Op(Minus) 4..5, _Int 6..25
f(^n1) -> Name 0..1, Op(Open) 1..2, _Int 3..4, Op(Close) 4..5
a^n^n.b -> Name 0..1, _Op(Dot) 3..4, Name 4..5
^na -> LineEnd 0..1, Name 1..2
^n^na -> _LineEnd 1..2, Name 2..3
^EF^BB^BF^n^na -> _LineEnd 4..5, Name 5..6
";

/// Where and why sources are refused.
pub const REFUSED: &str = "\
puts \"abc -> 1:6 unterminated string
a = \"b\"^n  c^FF \" -> 2:4 encoding
\"^n^00 -> 2:1 encoding
a^7F -> 1:2 encoding
a^1F -> 1:2 encoding
^C3 -> 1:1 encoding
` ^FF -> 1:3 encoding
^C3^A9 -> 1:1 character
a ` -> 1:3 character
a & b -> 1:3 character
a \\ b -> 1:3 character
a ^5E b -> 1:3 character
~ -> 1:1 character
@ -> 1:1 character
@1 -> 1:1 character
@A -> 1:1 character
@@a -> 1:1 character
$1 -> 1:1 character
$! -> 1:1 character
a^C3^A9 -> 1:2 character
\\^r -> 1:1 character
007 -> 1:1 number
00 -> 1:1 number
0_7 -> 1:1 number
9223372036854775809 -> 1:1 number
a^n 0x8000000000000001 -> 2:2 number
0b12 -> 1:1 number
0o18 -> 1:1 number
0b1_2 -> 1:1 number
0b1111111111111111111111111111111111111111111111111111111111111111 -> 1:1 number
1 99999999999999999999 -> 1:3 number
\"\\d\" -> 1:1 left out
\"\\1\" -> 1:1 left out
\"\\A\" -> 1:1 left out
\"#@a\" -> 1:1 left out
\"#$a\" -> 1:1 left out
\"\\^n\" -> 1:1 left out
\"\\^r^n\" -> 1:1 left out
'a -> 1:1 unterminated string
'a\\' -> 1:1 unterminated string
\"a\\\" -> 1:1 unterminated string
\"a#{b} -> 1:6 unterminated string
\"#{a}b#@c\" -> 1:5 left out
\"#{`}\" -> 1:4 character
^n\"#{a}^nb -> 2:5 unterminated string
__END__ -> 1:1 left out
__FILE__ -> 1:1 left out
__LINE__ -> 1:1 left out
__ENCODING__ -> 1:1 left out
BEGIN -> 1:1 left out
END -> 1:1 left out
alias -> 1:1 left out
case -> 1:1 left out
defined? -> 1:1 left out
for -> 1:1 left out
in -> 1:1 left out
module -> 1:1 left out
redo -> 1:1 left out
retry -> 1:1 left out
undef -> 1:1 left out
when -> 1:1 left out
x.y for -> 1:5 left out
^EF^BB^BF` -> 1:4 character
a^r^n` -> 2:1 character
a^r` -> 1:3 character
\"\\u0041\" -> 1:1 left out
\"a\\x41\" -> 1:1 left out
a \"\\C-a\" -> 1:3 left out
\"#{\"\\0\"}\" -> 1:4 left out
a = \"#@a\" -> 1:5 left out
'#@a'^n`a` -> 2:1 character
\"#{\"a -> 1:4 unterminated string
\"#{'a}\" -> 1:4 unterminated string
\"a^n#{b}c^n -> 2:4 unterminated string
a!~b -> 1:3 character
a =~ b -> 1:4 character
a&b -> 1:2 character
f(&b) -> 1:3 character
a&.b -> 1:2 character
a^5Eb -> 1:2 character
$? -> 1:1 character
@@ -> 1:1 character
a^EF^BB^BF -> 1:2 character
^EF^BB -> 1:1 encoding
^80 -> 1:1 encoding
a^BF -> 1:2 encoding
^C0^80 -> 1:1 encoding
^C1^BF -> 1:1 encoding
'^C3' -> 1:2 encoding
^E0^80^80 -> 1:1 encoding
\"^E2^82\" -> 1:2 encoding
^ED^A0^80 -> 1:1 encoding
^F0^80^80^80 -> 1:1 encoding
'^F0^9F^98' -> 1:2 encoding
^F4^90^80^80 -> 1:1 encoding
^F5^80^80^80 -> 1:1 encoding
^FE -> 1:1 encoding
#^n# ^C3^A9^E9 -> 2:5 encoding
";
