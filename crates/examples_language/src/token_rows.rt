//! Sources with their tokens, or with the place and the kind of their refusal, one to a line: `SOURCE -> TOKENS`.
//!
//! A token stands as `Name 0..4`, with `_` before one where something stands between it and the token before. In a source
//! `^n`, `^r` and `^t` stand for LF, CR and a tab, and `^` with two hexadecimal digits for the byte of that number.

/// Names and keywords.
pub const WORDS: &str = "\
a -> Name 0..1
_ -> Name 0..1
_A9z -> Name 0..4
a? -> Name 0..2
a! -> Name 0..2
a?= -> Name 0..1, Op(Question) 1..2, Op(Assign) 2..3
a!=b -> Name 0..1, Op(NotEqual) 1..3, Name 3..4
a?==b -> Name 0..1, Op(Question) 1..2, Op(Equal) 2..4, Name 4..5
a? ?b -> Name 0..2, _Op(Question) 3..4, Name 4..5
a?? -> Name 0..2, Op(Question) 2..3
nil? -> Name 0..4
nil?= -> Keyword(Nil) 0..3, Op(Question) 3..4, Op(Assign) 4..5
if!a -> Name 0..3, Name 3..4
in? -> Name 0..3
when! -> Name 0..5
aB!b -> Name 0..3, Name 3..4
a?:b -> Name 0..2, Symbol 2..4
a?b -> Name 0..2, Name 2..3
defined -> Name 0..7
ifx -> Name 0..3
selfish -> Name 0..7
end_ -> Name 0..4
and -> Keyword(And) 0..3
begin -> Keyword(Begin) 0..5
break -> Keyword(Break) 0..5
class -> Keyword(Class) 0..5
def -> Keyword(Def) 0..3
do -> Keyword(Do) 0..2
else -> Keyword(Else) 0..4
elsif -> Keyword(Elsif) 0..5
end -> Keyword(End) 0..3
ensure -> Keyword(Ensure) 0..6
false -> Keyword(False) 0..5
if -> Keyword(If) 0..2
next -> Keyword(Next) 0..4
nil -> Keyword(Nil) 0..3
not -> Keyword(Not) 0..3
or -> Keyword(Or) 0..2
rescue -> Keyword(Rescue) 0..6
return -> Keyword(Return) 0..6
self -> Keyword(SelfWord) 0..4
super -> Keyword(SuperWord) 0..5
then -> Keyword(Then) 0..4
true -> Keyword(True) 0..4
unless -> Keyword(Unless) 0..6
until -> Keyword(Until) 0..5
while -> Keyword(While) 0..5
yield -> Keyword(Yield) 0..5
a?=1 -> Name 0..1, Op(Question) 1..2, Op(Assign) 2..3, Int 3..4
a? b -> Name 0..2, _Name 3..4
a?.b -> Name 0..2, Op(Dot) 2..3, Name 3..4
a?b:c -> Name 0..2, Label 2..4, Name 4..5
a ?b :c -> Name 0..1, _Op(Question) 2..3, Name 3..4, _Symbol 5..7
a ? b : c -> Name 0..1, _Op(Question) 2..3, _Name 4..5, _Op(Colon) 6..7, _Name 8..9
a ? b: c -> Name 0..1, _Op(Question) 2..3, _Label 4..6, _Name 7..8
?a -> Op(Question) 0..1, Name 1..2
x!=y -> Name 0..1, Op(NotEqual) 1..3, Name 3..4
x ! = y -> Name 0..1, _Op(Bang) 2..3, _Op(Assign) 4..5, _Name 6..7
a!!b -> Name 0..2, Op(Bang) 2..3, Name 3..4
yield? -> Name 0..6
while1 -> Name 0..6
self.a -> Keyword(SelfWord) 0..4, Op(Dot) 4..5, Name 5..6
";

/// What comes behind `.`, constants, variables, symbols and labels.
pub const NAMED: &str = "\
a.class -> Name 0..1, Op(Dot) 1..2, Name 2..7
a. if -> Name 0..1, Op(Dot) 1..2, _Name 3..5
a.^nend -> Name 0..1, Op(Dot) 1..2, _Name 3..6
a.#b^n end -> Name 0..1, Op(Dot) 1..2, _Name 6..9
a.b end -> Name 0..1, Op(Dot) 1..2, Name 2..3, _Keyword(End) 4..7
a.for -> Name 0..1, Op(Dot) 1..2, Name 2..5
a.defined? -> Name 0..1, Op(Dot) 1..2, Name 2..10
a.BEGIN -> Name 0..1, Op(Dot) 1..2, Constant 2..7
a.nil?.if -> Name 0..1, Op(Dot) 1..2, Name 2..6, Op(Dot) 6..7, Name 7..9
a..end -> Name 0..1, Op(Dot) 1..2, Op(Dot) 2..3, Name 3..6
A -> Constant 0..1
Ab_9 -> Constant 0..4
A? -> Constant 0..1, Op(Question) 1..2
A! -> Constant 0..1, Op(Bang) 1..2
Ractor::Error -> Constant 0..6, Op(Path) 6..8, Constant 8..13
BEGINS -> Constant 0..6
END_ -> Constant 0..4
@a -> InstanceVariable 0..2
@_a9  -> InstanceVariable 0..4
@if -> InstanceVariable 0..3
@a? -> InstanceVariable 0..2, Op(Question) 2..3
@a=1 -> InstanceVariable 0..2, Op(Assign) 2..3, Int 3..4
$a -> GlobalVariable 0..2
$stdout! -> GlobalVariable 0..7, Op(Bang) 7..8
:a -> Symbol 0..2
:A1_ -> Symbol 0..4
:if -> Symbol 0..3
:_ -> Symbol 0..2
:a? -> Symbol 0..2, Op(Question) 2..3
a :b -> Name 0..1, _Symbol 2..4
:1 -> Op(Colon) 0..1, Int 1..2
: a -> Op(Colon) 0..1, _Name 2..3
:::a -> Op(Path) 0..2, Symbol 2..4
::a -> Op(Path) 0..2, Name 2..3
:for -> Symbol 0..4
:\"a\" -> Op(Colon) 0..1, Text 1..4
a: -> Label 0..2
a:b -> Label 0..2, Name 2..3
a: 1 -> Label 0..2, _Int 3..4
if: 1 -> Label 0..3, _Int 4..5
for: -> Label 0..4
BEGIN: -> Label 0..6
Ab: -> Label 0..3
a::b -> Name 0..1, Op(Path) 1..3, Name 3..4
A::B -> Constant 0..1, Op(Path) 1..3, Constant 3..4
a:::b -> Name 0..1, Op(Path) 1..3, Symbol 3..5
a : -> Name 0..1, _Op(Colon) 2..3
a.b: 1 -> Name 0..1, Op(Dot) 1..2, Label 2..4, _Int 5..6
{:a=>1} -> OpenBrace 0..1, Symbol 1..3, Op(Arrow) 3..5, Int 5..6, CloseBrace 6..7
{a: 1} -> OpenBrace 0..1, Label 1..3, _Int 4..5, CloseBrace 5..6
a.class.if -> Name 0..1, Op(Dot) 1..2, Name 2..7, Op(Dot) 7..8, Name 8..10
a.self? -> Name 0..1, Op(Dot) 1..2, Name 2..7
a.if=1 -> Name 0..1, Op(Dot) 1..2, Name 2..4, Op(Assign) 4..5, Int 5..6
a.(b) -> Name 0..1, Op(Dot) 1..2, Op(Open) 2..3, Name 3..4, Op(Close) 4..5
a::B -> Name 0..1, Op(Path) 1..3, Constant 3..4
::A -> Op(Path) 0..2, Constant 2..3
@_ -> InstanceVariable 0..2
$_ -> GlobalVariable 0..2
:+ -> Op(Colon) 0..1, Op(Plus) 1..2
:[] -> Op(Colon) 0..1, Op(OpenSquare) 1..2, Op(CloseSquare) 2..3
:@a -> Op(Colon) 0..1, InstanceVariable 1..3
:a=b -> Symbol 0..2, Op(Assign) 2..3, Name 3..4
:a! -> Symbol 0..2, Op(Bang) 2..3
a?: 1 -> Name 0..2, Op(Colon) 2..3, _Int 4..5
\"a\": 1 -> Text 0..3, Op(Colon) 3..4, _Int 5..6
";

/// Numbers and operators.
pub const MARKS: &str = "\
0 -> Int 0..1
10 -> Int 0..2
1_2_3 -> Int 0..5
1__0 -> Int 0..1, Name 1..4
0x1f -> Int 0..4
0xF_f -> Int 0..5
0b101 -> Int 0..5
0o7_7 -> Int 0..5
0X1 -> Int 0..1, Constant 1..3
0b2 -> Int 0..1, Name 1..3
0o8 -> Int 0..1, Name 1..3
0x_1 -> Int 0..1, Name 1..4
0xg -> Int 0..1, Name 1..3
0x1g -> Int 0..3, Name 3..4
1a -> Int 0..1, Name 1..2
1.abs -> Int 0..1, Op(Dot) 1..2, Name 2..5
1.5 -> Int 0..1, Op(Dot) 1..2, Int 2..3
-7 -> Op(Minus) 0..1, Int 1..2
0x8000000000000000 -> Int 0..18
9223372036854775808 -> Int 0..19
0_ -> Int 0..1, Name 1..2
+ -> Op(Plus) 0..1
- -> Op(Minus) 0..1
* -> Op(Star) 0..1
/ -> Op(Slash) 0..1
% -> Op(Percent) 0..1
= -> Op(Assign) 0..1
== -> Op(Equal) 0..2
=> -> Op(Arrow) 0..2
! -> Op(Bang) 0..1
!= -> Op(NotEqual) 0..2
< -> Op(Less) 0..1
<= -> Op(LessOrEqual) 0..2
<< -> Op(Shift) 0..2
<<= -> Op(ShiftAssign) 0..3
<=> -> Op(Compare) 0..3
> -> Op(Greater) 0..1
>= -> Op(GreaterOrEqual) 0..2
+= -> Op(PlusAssign) 0..2
-= -> Op(MinusAssign) 0..2
*= -> Op(StarAssign) 0..2
/= -> Op(SlashAssign) 0..2
%= -> Op(PercentAssign) 0..2
&& -> Op(And) 0..2
&&= -> Op(AndAssign) 0..3
| -> Op(Bar) 0..1
|| -> Op(Or) 0..2
||= -> Op(OrAssign) 0..3
? -> Op(Question) 0..1
: -> Op(Colon) 0..1
:: -> Op(Path) 0..2
. -> Op(Dot) 0..1
, -> Op(Comma) 0..1
; -> Op(Semicolon) 0..1
( -> Op(Open) 0..1
) -> Op(Close) 0..1
[ -> Op(OpenSquare) 0..1
] -> Op(CloseSquare) 0..1
=== -> Op(Equal) 0..2, Op(Assign) 2..3
<=>> -> Op(Compare) 0..3, Op(Greater) 3..4
** -> Op(Star) 0..1, Op(Star) 1..2
||| -> Op(Or) 0..2, Op(Bar) 2..3
>> -> Op(Greater) 0..1, Op(Greater) 1..2
1_000 -> Int 0..5
0xFF_FF -> Int 0..7
0b1 -> Int 0..3
0o7 -> Int 0..3
1_ -> Int 0..1, Name 1..2
0B1 -> Int 0..1, Constant 1..3
0O7 -> Int 0..1, Constant 1..3
0d10 -> Int 0..1, Name 1..4
1e5 -> Int 0..1, Name 1..3
1r -> Int 0..1, Name 1..2
1..2 -> Int 0..1, Op(Dot) 1..2, Op(Dot) 2..3, Int 3..4
9223372036854775807 -> Int 0..19
0x7fff_ffff_ffff_ffff -> Int 0..21
0o1000000000000000000000 -> Int 0..24
a-1 -> Name 0..1, Op(Minus) 1..2, Int 2..3
a -1 -> Name 0..1, _Op(Minus) 2..3, Int 3..4
a - 1 -> Name 0..1, _Op(Minus) 2..3, _Int 4..5
->a -> Op(Minus) 0..1, Op(Greater) 1..2, Name 2..3
a===b -> Name 0..1, Op(Equal) 1..3, Op(Assign) 3..4, Name 4..5
a<=b -> Name 0..1, Op(LessOrEqual) 1..3, Name 3..4
a=>b -> Name 0..1, Op(Arrow) 1..3, Name 3..4
a= >b -> Name 0..1, Op(Assign) 1..2, _Op(Greater) 3..4, Name 4..5
a<<A -> Name 0..1, Op(Shift) 1..3, Constant 3..4
<<A -> Op(Shift) 0..2, Constant 2..3
/a/ -> Op(Slash) 0..1, Name 1..2, Op(Slash) 2..3
%w[a] -> Op(Percent) 0..1, Name 1..2, Op(OpenSquare) 2..3, Name 3..4, Op(CloseSquare) 4..5
a[1] -> Name 0..1, Op(OpenSquare) 1..2, Int 2..3, Op(CloseSquare) 3..4
f(a, b) -> Name 0..1, Op(Open) 1..2, Name 2..3, Op(Comma) 3..4, _Name 5..6, Op(Close) 6..7
";

/// Texts and interpolation.
pub const TEXTS: &str = "\
'' -> Single 0..2
'a^nb' -> Single 0..5
'\\\\' -> Single 0..4
'\\'' -> Single 0..4
'\\n#{a}' -> Single 0..8
\"\" -> Text 0..2
\"a^nb\" -> Text 0..5
\"\\\"\" -> Text 0..4
\"\\\\\" -> Text 0..4
\"\\n\\t\\r\\e\\s\" -> Text 0..12
\"\\#{a}\" -> Text 0..7
\"\\#@a\" -> Text 0..6
\"# #\" -> Text 0..5
\"##\" -> Text 0..4
\"\\_\\-\\ \" -> Text 0..8
\"\\^C3^A9\" -> Text 0..5
\"\\^r\" -> Text 0..4
\"^C3^A9\" -> Text 0..4
\"a\"b -> Text 0..3, Name 3..4
\"a\"\"b\" -> Text 0..3, Text 3..6
\"#{}\" -> Head 0..3, Tail 3..5
\"a#{b}c\" -> Head 0..4, Name 4..5, Tail 5..8
\"#{a}#{b}\" -> Head 0..3, Name 3..4, Middle 4..7, Name 7..8, Tail 8..10
\"#{{}}\" -> Head 0..3, OpenBrace 3..4, CloseBrace 4..5, Tail 5..7
\"#{\"#{a}\"}\" -> Head 0..3, Head 3..6, Name 6..7, Tail 7..9, Tail 9..11
\"#{\"}\"}\" -> Head 0..3, Text 3..6, Tail 6..8
\"#{'}'}\" -> Head 0..3, Single 3..6, Tail 6..8
\"##{a}\" -> Head 0..4, Name 4..5, Tail 5..7
\"#{a -> Head 0..3, Name 3..4
{\"#{a}\"} -> OpenBrace 0..1, Head 1..4, Name 4..5, Tail 5..7, CloseBrace 7..8
\"#{ {a: 1} }\" -> Head 0..3, _OpenBrace 4..5, Label 5..7, _Int 8..9, CloseBrace 9..10, _Tail 11..13
} -> CloseBrace 0..1
{} -> OpenBrace 0..1, CloseBrace 1..2
}}{ -> CloseBrace 0..1, CloseBrace 1..2, OpenBrace 2..3
'it\\'s' -> Single 0..7
'a\\\\' -> Single 0..5
'#{' -> Single 0..4
'\"' -> Single 0..3
'\\u0041' -> Single 0..8
\"'\" -> Text 0..3
\"#\" -> Text 0..3
\"#a\" -> Text 0..4
\"a#\" -> Text 0..4
\"{}\" -> Text 0..4
\"$a@b\" -> Text 0..6
\"\\$\\@\" -> Text 0..6
\"#\\#{\" -> Text 0..6
\"\\#{x}\" -> Text 0..7
\"a^r^nb\" -> Text 0..6
\"^E2^82^AC\" -> Text 0..5
\"^F0^9F^98^80\" -> Text 0..6
\"\\^F0^9F^98^80\" -> Text 0..7
\"a\" \"b\" -> Text 0..3, _Text 4..7
\"\\\\#{a}\" -> Head 0..5, Name 5..6, Tail 6..8
\"#{a}\\#{b}\" -> Head 0..3, Name 3..4, Tail 4..11
\"#{a;b}\" -> Head 0..3, Name 3..4, Op(Semicolon) 4..5, Name 5..6, Tail 6..8
\"#{^n}\" -> Head 0..3, LineEnd 3..4, Tail 4..6
\"#{#}^n}\" -> Head 0..3, _LineEnd 5..6, Tail 6..8
\"a#{\"b#{c}d\"}e\" -> Head 0..4, Head 4..8, Name 8..9, Tail 9..12, Tail 12..15
\"#{\"#{\"#{a}\"}\"}\" -> Head 0..3, Head 3..6, Head 6..9, Name 9..10, Tail 10..12, Tail 12..14, Tail 14..16
\"#{a}\" \"#{b}\" -> Head 0..3, Name 3..4, Tail 4..6, _Head 7..10, Name 10..11, Tail 11..13
\"#{{a: {}}}\" -> Head 0..3, OpenBrace 3..4, Label 4..6, _OpenBrace 7..8, CloseBrace 8..9, CloseBrace 9..10, Tail 10..12
\"#{\"a}\" -> Head 0..3, Text 3..7
";
