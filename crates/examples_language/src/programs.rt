//! Worked examples: the nodes of a source's program, or the place and the kind of its refusal.

use crate::table::{shown_fault, source_of, split_row};
use rr_base::{Fault, LimitKind};
use rr_lexer::lex;
use rr_parser::parse;
use rr_tree::Program;
use std::alloc::{AllocError, Global};
use std::process::Abort;
use std::test::Fail;

/// The program of a source.
fn read(alloc: Global, source: &[u8]) -> Result<Program, Fault> {
    let tokens = lex(alloc, source)?;
    parse(alloc, source, &tokens)
}

/// The nodes of a source's program, or its fault.
fn shown(alloc: Global, source: &[u8]) -> Result<String, AllocError> {
    match read(alloc, source) {
        Ok(program) => {
            let mut text = String::new(alloc);
            for node in &program.nodes {
                if !text.is_empty() {
                    text.push_str(", ")?;
                }
                let one = format!(in alloc; "{node:?}")?;
                text.push_str(one.as_str())?;
            }
            Ok(text)
        }
        Err(fault) => shown_fault(alloc, &fault),
    }
}

/// Sources with their nodes.
const SHAPES: &str = "\
\x20-> Sequence { first: 0, count: 0 }
;^n; -> Sequence { first: 0, count: 0 }
9 - 4 - 3 -> Int(9), Int(4), Binary(Subtract, 0, 1), Int(3), Binary(Subtract, 2, 3), Item(4), Sequence { first: 5, count: 1 }
x -1 -> Int(-1), Item(0), Call { name: Sym(0), first: 1, count: 1, site: 0 }, Item(2), Sequence { first: 3, count: 1 }
x - 1 -> Bare { name: Sym(0), site: 0 }, Int(1), Binary(Subtract, 0, 1), Item(2), Sequence { first: 3, count: 1 }
x = 1; x -1 -> Int(1), Assign { depth: 0, slot: 0, name: Sym(0), behind: 6, value: 0 }, Local { depth: 0, slot: 0, name: Sym(0), behind: 2 }, Int(1), Binary(Subtract, 2, 3), Item(1), Item(4), Sequence { first: 5, count: 2 }
puts -1 -> Int(-1), Item(0), Call { name: Sym(0), first: 1, count: 1, site: 0 }, Item(2), Sequence { first: 3, count: 1 }
puts - 1 -> Bare { name: Sym(0), site: 0 }, Int(1), Binary(Subtract, 0, 1), Item(2), Sequence { first: 3, count: 1 }
puts(1, 2) -> Int(1), Int(2), Item(0), Item(1), Call { name: Sym(0), first: 2, count: 2, site: 0 }, Item(4), Sequence { first: 5, count: 1 }
puts() -> Call { name: Sym(0), first: 0, count: 0, site: 0 }, Item(0), Sequence { first: 1, count: 1 }
foo(bar(), 1) -> Call { name: Sym(1), first: 0, count: 0, site: 0 }, Int(1), Item(0), Item(1), Call { name: Sym(0), first: 2, count: 2, site: 1 }, Item(4), Sequence { first: 5, count: 1 }
puts (1) + 2 -> Int(1), Item(0), Sequence { first: 1, count: 1 }, Int(2), Binary(Add, 2, 3), Item(4), Call { name: Sym(0), first: 5, count: 1, site: 0 }, Item(6), Sequence { first: 7, count: 1 }
a = a -> Local { depth: 0, slot: 0, name: Sym(0), behind: 0 }, Assign { depth: 0, slot: 0, name: Sym(0), behind: 2, value: 0 }, Item(1), Sequence { first: 2, count: 1 }
a = b = nil -> Nil, Assign { depth: 0, slot: 1, name: Sym(1), behind: 2, value: 0 }, Assign { depth: 0, slot: 0, name: Sym(0), behind: 4, value: 1 }, Item(2), Sequence { first: 3, count: 1 }
c; a = b = 1; a = c -> Bare { name: Sym(0), site: 0 }, Int(1), Assign { depth: 0, slot: 1, name: Sym(2), behind: 6, value: 1 }, Assign { depth: 0, slot: 0, name: Sym(1), behind: 8, value: 2 }, Bare { name: Sym(0), site: 1 }, Assign { depth: 0, slot: 0, name: Sym(1), behind: 2, value: 4 }, Item(0), Item(3), Item(5), Sequence { first: 6, count: 3 }
-9223372036854775808 -> Int(-9223372036854775808), Item(0), Sequence { first: 1, count: 1 }
- 1 -> Int(1), Negate(0), Item(1), Sequence { first: 2, count: 1 }
if 1 then 2 end -> Int(1), Int(2), Item(1), Sequence { first: 2, count: 1 }, Nil, Choose(0, 3, 4), Item(5), Sequence { first: 6, count: 1 }
if 1^nthen elsif 3; 4 else 'a' end -> Int(1), Sequence { first: 1, count: 0 }, Int(3), Int(4), Item(3), Sequence { first: 4, count: 1 }, Text(0), Item(6), Sequence { first: 7, count: 1 }, Choose(2, 5, 8), Choose(0, 1, 9), Item(10), Sequence { first: 11, count: 1 }
-7 -> Int(-7), Item(0), Sequence { first: 1, count: 1 }
-^n7 -> Int(7), Negate(0), Item(1), Sequence { first: 2, count: 1 }
- # c^n7 -> Int(7), Negate(0), Item(1), Sequence { first: 2, count: 1 }
1 --^n7 -> Int(1), Int(7), Negate(1), Binary(Subtract, 0, 2), Item(3), Sequence { first: 4, count: 1 }
puts -^n1 -> Bare { name: Sym(0), site: 0 }, Int(1), Binary(Subtract, 0, 1), Item(2), Sequence { first: 3, count: 1 }
a? -> Bare { name: Sym(0), site: 0 }, Item(0), Sequence { first: 1, count: 1 }
a! -1 -> Int(-1), Item(0), Call { name: Sym(0), first: 1, count: 1, site: 0 }, Item(2), Sequence { first: 3, count: 1 }
a = 1; a?; a -> Int(1), Assign { depth: 0, slot: 0, name: Sym(0), behind: 6, value: 0 }, Bare { name: Sym(1), site: 0 }, Local { depth: 0, slot: 0, name: Sym(0), behind: 0 }, Item(1), Item(2), Item(3), Sequence { first: 4, count: 3 }
puts a? -> Bare { name: Sym(1), site: 0 }, Item(0), Call { name: Sym(0), first: 1, count: 1, site: 1 }, Item(2), Sequence { first: 3, count: 1 }
a && b || c -> Bare { name: Sym(0), site: 0 }, Bare { name: Sym(1), site: 1 }, And(0, 1), Bare { name: Sym(2), site: 2 }, Or(2, 3), Item(4), Sequence { first: 5, count: 1 }
a || b && c -> Bare { name: Sym(0), site: 0 }, Bare { name: Sym(1), site: 1 }, Bare { name: Sym(2), site: 2 }, And(1, 2), Or(0, 3), Item(4), Sequence { first: 5, count: 1 }
a = 1 == 2 ||^n3 || 4 -> Int(1), Int(2), Binary(Equal, 0, 1), Int(3), Or(2, 3), Int(4), Or(4, 5), Assign { depth: 0, slot: 0, name: Sym(0), behind: 8, value: 6 }, Item(7), Sequence { first: 8, count: 1 }
puts! 1 -> Int(1), Item(0), Call { name: Sym(0), first: 1, count: 1, site: 0 }, Item(2), Sequence { first: 3, count: 1 }
not a == b -> Bare { name: Sym(0), site: 0 }, Bare { name: Sym(1), site: 1 }, Binary(Equal, 0, 1), Not(2), Item(3), Sequence { first: 4, count: 1 }
!a == b -> Bare { name: Sym(0), site: 0 }, Not(0), Bare { name: Sym(1), site: 1 }, Binary(Equal, 1, 2), Item(3), Sequence { first: 4, count: 1 }
a&&b||c and d -> Bare { name: Sym(0), site: 0 }, Bare { name: Sym(1), site: 1 }, And(0, 1), Bare { name: Sym(2), site: 2 }, Or(2, 3), Bare { name: Sym(3), site: 3 }, And(4, 5), Item(6), Sequence { first: 7, count: 1 }
1 or 2 and not 3 -> Int(1), Int(2), Or(0, 1), Int(3), Not(3), And(2, 4), Item(5), Sequence { first: 6, count: 1 }
a ? b : c -> Bare { name: Sym(0), site: 0 }, Bare { name: Sym(1), site: 1 }, Bare { name: Sym(2), site: 2 }, Choose(0, 1, 2), Item(3), Sequence { first: 4, count: 1 }
1 || 2 ? 3 : 4 ? 5 : 6 -> Int(1), Int(2), Or(0, 1), Int(3), Int(4), Int(5), Int(6), Choose(4, 5, 6), Choose(2, 3, 7), Item(8), Sequence { first: 9, count: 1 }
x = 1 if 2 -> Int(1), Assign { depth: 0, slot: 0, name: Sym(0), behind: 4, value: 0 }, Int(2), Nil, Choose(2, 1, 3), Item(4), Sequence { first: 5, count: 1 }
1 unless 2 while 3 -> Int(1), Int(2), Nil, Choose(1, 2, 0), Int(3), Nil, Loop { until: false, condition: 4, body: 3 }, Item(6), Sequence { first: 7, count: 1 }
1 until 2 and 3 -> Int(1), Int(2), Int(3), And(1, 2), Nil, Loop { until: true, condition: 3, body: 0 }, Item(5), Sequence { first: 6, count: 1 }
while 1 do 2 end -> Int(1), Int(2), Item(1), Sequence { first: 2, count: 1 }, Loop { until: false, condition: 0, body: 3 }, Item(4), Sequence { first: 5, count: 1 }
until 1^n2; end -> Int(1), Int(2), Item(1), Sequence { first: 2, count: 1 }, Loop { until: true, condition: 0, body: 3 }, Item(4), Sequence { first: 5, count: 1 }
unless 1 then 2 else 3 end -> Int(1), Int(2), Item(1), Sequence { first: 2, count: 1 }, Int(3), Item(4), Sequence { first: 5, count: 1 }, Choose(0, 6, 3), Item(7), Sequence { first: 8, count: 1 }
if not 1 then 2 end -> Int(1), Not(0), Int(2), Item(2), Sequence { first: 3, count: 1 }, Nil, Choose(1, 4, 5), Item(6), Sequence { first: 7, count: 1 }
x = y = z 1 -> Int(1), Item(0), Call { name: Sym(2), first: 1, count: 1, site: 0 }, Assign { depth: 0, slot: 1, name: Sym(1), behind: 3, value: 2 }, Assign { depth: 0, slot: 0, name: Sym(0), behind: 5, value: 3 }, Item(4), Sequence { first: 5, count: 1 }
puts puts 1 -> Int(1), Item(0), Call { name: Sym(0), first: 1, count: 1, site: 0 }, Item(2), Call { name: Sym(0), first: 3, count: 1, site: 1 }, Item(4), Sequence { first: 5, count: 1 }
a b c, d -> Bare { name: Sym(2), site: 0 }, Bare { name: Sym(3), site: 1 }, Item(0), Item(1), Call { name: Sym(1), first: 2, count: 2, site: 2 }, Item(4), Call { name: Sym(0), first: 5, count: 1, site: 3 }, Item(6), Sequence { first: 7, count: 1 }
puts !1 -> Int(1), Not(0), Item(1), Call { name: Sym(0), first: 2, count: 1, site: 0 }, Item(3), Sequence { first: 4, count: 1 }
[] -> Array { first: 0, count: 0 }, Item(0), Sequence { first: 1, count: 1 }
[1, 2,] -> Int(1), Int(2), Item(0), Item(1), Array { first: 2, count: 2 }, Item(4), Sequence { first: 5, count: 1 }
foo(1,) -> Int(1), Item(0), Call { name: Sym(0), first: 1, count: 1, site: 0 }, Item(2), Sequence { first: 3, count: 1 }
f(*a) -> Bare { name: Sym(1), site: 0 }, Splat(0), Item(1), Call { name: Sym(0), first: 2, count: 1, site: 1 }, Item(3), Sequence { first: 4, count: 1 }
[1, *b, 2,] -> Int(1), Bare { name: Sym(0), site: 0 }, Splat(1), Int(2), Item(0), Item(2), Item(3), Array { first: 4, count: 3 }, Item(7), Sequence { first: 8, count: 1 }
a.b(* c * d) -> Bare { name: Sym(0), site: 0 }, Bare { name: Sym(2), site: 1 }, Bare { name: Sym(3), site: 2 }, Binary(Multiply, 1, 2), Splat(3), Item(4), Send { receiver: 0, name: Sym(1), first: 5, count: 1, site: 3 }, Item(6), Sequence { first: 7, count: 1 }
puts [*a] -> Bare { name: Sym(1), site: 0 }, Splat(0), Item(1), Array { first: 2, count: 1 }, Item(3), Call { name: Sym(0), first: 4, count: 1, site: 1 }, Item(5), Sequence { first: 6, count: 1 }
[*x = 1] -> Int(1), Assign { depth: 0, slot: 0, name: Sym(0), behind: 3, value: 0 }, Splat(1), Item(2), Array { first: 3, count: 1 }, Item(4), Sequence { first: 5, count: 1 }
f (1), 2 -> Int(1), Item(0), Sequence { first: 1, count: 1 }, Int(2), Item(2), Item(3), Call { name: Sym(0), first: 4, count: 2, site: 0 }, Item(6), Sequence { first: 7, count: 1 }
f(1) { } -> Int(1), Item(0), Call { name: Sym(0), first: 1, count: 1, site: 0 }, Sequence { first: 3, count: 0 }, Block { scope: 1, parameters: 0, size: 0, body: 3 }, WithBlock(2, 4), Item(5), Sequence { first: 6, count: 1 }
puts [1] -> Int(1), Item(0), Array { first: 1, count: 1 }, Item(2), Call { name: Sym(0), first: 3, count: 1, site: 0 }, Item(4), Sequence { first: 5, count: 1 }
puts [1][0] -> Int(1), Item(0), Array { first: 1, count: 1 }, Int(0), Index(2, 3), Item(4), Call { name: Sym(0), first: 5, count: 1, site: 0 }, Item(6), Sequence { first: 7, count: 1 }
a[0] -> Bare { name: Sym(0), site: 0 }, Int(0), Index(0, 1), Item(2), Sequence { first: 3, count: 1 }
:a; self -> Symbol(Sym(0)), Itself, Item(0), Item(1), Sequence { first: 2, count: 2 }
@a = $b = A -> Constant(Plain(Sym(2))), SetGlobal(Sym(1), 0), SetField(Sym(0), 1), Item(2), Sequence { first: 3, count: 1 }
@a + $b -> Field(Sym(0)), Global(Sym(1)), Binary(Add, 0, 1), Item(2), Sequence { first: 3, count: 1 }
{a: 1, 'b' => 2,} -> Int(1), Symbol(Sym(0)), Pair(1, 0), Text(0), Int(2), Pair(3, 4), Item(2), Item(5), Hash { first: 6, count: 2 }, Item(8), Sequence { first: 9, count: 1 }
p({}) -> Hash { first: 0, count: 0 }, Item(0), Call { name: Sym(0), first: 1, count: 1, site: 0 }, Item(2), Sequence { first: 3, count: 1 }
x += 1 -> Int(1), Local { depth: 0, slot: 0, name: Sym(0), behind: 2 }, OperatorAssign(Add, 1, 0), Item(2), Sequence { first: 3, count: 1 }
x = 1; x -= 2 * 3 -> Int(1), Assign { depth: 0, slot: 0, name: Sym(0), behind: 8, value: 0 }, Int(2), Int(3), Binary(Multiply, 2, 3), Local { depth: 0, slot: 0, name: Sym(0), behind: 4 }, OperatorAssign(Subtract, 5, 4), Item(1), Item(6), Sequence { first: 7, count: 2 }
@a ||= $b &&= 1 -> Int(1), Global(Sym(1)), AndAssign(1, 0), Field(Sym(0)), OrAssign(3, 2), Item(4), Sequence { first: 5, count: 1 }
puts x *= 1 -> Int(1), Local { depth: 0, slot: 0, name: Sym(1), behind: 2 }, OperatorAssign(Multiply, 1, 0), Item(2), Call { name: Sym(0), first: 3, count: 1, site: 0 }, Item(4), Sequence { first: 5, count: 1 }
x /= y %= puts 1 -> Int(1), Item(0), Call { name: Sym(2), first: 1, count: 1, site: 0 }, Local { depth: 0, slot: 1, name: Sym(1), behind: 3 }, OperatorAssign(Remainder, 3, 2), Local { depth: 0, slot: 0, name: Sym(0), behind: 5 }, OperatorAssign(Divide, 5, 4), Item(6), Sequence { first: 7, count: 1 }
f { } -> Call { name: Sym(0), first: 0, count: 0, site: 0 }, Sequence { first: 1, count: 0 }, Block { scope: 1, parameters: 0, size: 0, body: 1 }, WithBlock(0, 2), Item(3), Sequence { first: 4, count: 1 }
f(1) { |a, b| a } -> Int(1), Item(0), Call { name: Sym(0), first: 1, count: 1, site: 0 }, Local { depth: 0, slot: 0, name: Sym(1), behind: 1 }, Item(3), Sequence { first: 4, count: 1 }, Block { scope: 1, parameters: 2, size: 2, body: 5 }, WithBlock(2, 6), Item(7), Sequence { first: 8, count: 1 }
x = 1; a.each { |v| y = v; x = y }; y -> Int(1), Assign { depth: 0, slot: 0, name: Sym(0), behind: 20, value: 0 }, Bare { name: Sym(1), site: 0 }, Send { receiver: 2, name: Sym(2), first: 3, count: 0, site: 1 }, Local { depth: 0, slot: 0, name: Sym(3), behind: 7 }, Assign { depth: 0, slot: 1, name: Sym(4), behind: 9, value: 4 }, Local { depth: 0, slot: 1, name: Sym(4), behind: 3 }, Assign { depth: 1, slot: 0, name: Sym(0), behind: 5, value: 6 }, Item(5), Item(7), Sequence { first: 8, count: 2 }, Block { scope: 1, parameters: 1, size: 2, body: 10 }, WithBlock(3, 11), Bare { name: Sym(4), site: 2 }, Item(1), Item(12), Item(13), Sequence { first: 14, count: 3 }
x = 1; f { |x| g { x } }; x -> Int(1), Assign { depth: 0, slot: 0, name: Sym(0), behind: 15, value: 0 }, Call { name: Sym(1), first: 2, count: 0, site: 0 }, Call { name: Sym(2), first: 3, count: 0, site: 1 }, Local { depth: 1, slot: 0, name: Sym(0), behind: 4 }, Item(4), Sequence { first: 5, count: 1 }, Block { scope: 2, parameters: 0, size: 0, body: 6 }, WithBlock(3, 7), Item(8), Sequence { first: 9, count: 1 }, Block { scope: 1, parameters: 1, size: 1, body: 10 }, WithBlock(2, 11), Local { depth: 0, slot: 0, name: Sym(0), behind: 0 }, Item(1), Item(12), Item(13), Sequence { first: 14, count: 3 }
puts f { 1 } -> Call { name: Sym(1), first: 0, count: 0, site: 0 }, Int(1), Item(1), Sequence { first: 2, count: 1 }, Block { scope: 1, parameters: 0, size: 0, body: 3 }, WithBlock(0, 4), Item(5), Call { name: Sym(0), first: 6, count: 1, site: 1 }, Item(7), Sequence { first: 8, count: 1 }
f { 1 }.b[0] -> Call { name: Sym(0), first: 0, count: 0, site: 0 }, Int(1), Item(1), Sequence { first: 2, count: 1 }, Block { scope: 1, parameters: 0, size: 0, body: 3 }, WithBlock(0, 4), Send { receiver: 5, name: Sym(1), first: 6, count: 0, site: 1 }, Int(0), Index(6, 7), Item(8), Sequence { first: 9, count: 1 }
a.b(1) {^n|c|^n2^n} -> Bare { name: Sym(0), site: 0 }, Int(1), Item(1), Send { receiver: 0, name: Sym(1), first: 2, count: 1, site: 1 }, Int(2), Item(4), Sequence { first: 5, count: 1 }, Block { scope: 1, parameters: 1, size: 1, body: 6 }, WithBlock(3, 7), Item(8), Sequence { first: 9, count: 1 }
x = 1; x { x } -> Int(1), Assign { depth: 0, slot: 0, name: Sym(0), behind: 7, value: 0 }, Call { name: Sym(0), first: 2, count: 0, site: 0 }, Local { depth: 1, slot: 0, name: Sym(0), behind: 1 }, Item(3), Sequence { first: 4, count: 1 }, Block { scope: 1, parameters: 0, size: 0, body: 5 }, WithBlock(2, 6), Item(1), Item(7), Sequence { first: 8, count: 2 }
a << 1 << 2 -> Bare { name: Sym(0), site: 0 }, Int(1), Append(0, 1), Int(2), Append(2, 3), Item(4), Sequence { first: 5, count: 1 }
a + 1 << 2 * 3 < 4 -> Bare { name: Sym(0), site: 0 }, Int(1), Binary(Add, 0, 1), Int(2), Int(3), Binary(Multiply, 3, 4), Append(2, 5), Int(4), Binary(Less, 6, 7), Item(8), Sequence { first: 9, count: 1 }
1 << 2 == 3 << 4 -> Int(1), Int(2), Append(0, 1), Int(3), Int(4), Append(3, 4), Binary(Equal, 2, 5), Item(6), Sequence { first: 7, count: 1 }
a <<^n1 -> Bare { name: Sym(0), site: 0 }, Int(1), Append(0, 1), Item(2), Sequence { first: 3, count: 1 }
x <<= 1 -> Int(1), Local { depth: 0, slot: 0, name: Sym(0), behind: 2 }, AppendAssign(1, 0), Item(2), Sequence { first: 3, count: 1 }
@a <<= b += 1 -> Int(1), Local { depth: 0, slot: 0, name: Sym(1), behind: 2 }, OperatorAssign(Add, 1, 0), Field(Sym(0)), AppendAssign(3, 2), Item(4), Sequence { first: 5, count: 1 }
loop { break } -> Call { name: Sym(0), first: 0, count: 0, site: 0 }, Nil, Break(1), Item(2), Sequence { first: 3, count: 1 }, Block { scope: 1, parameters: 0, size: 0, body: 4 }, WithBlock(0, 5), Item(6), Sequence { first: 7, count: 1 }
while 1; break 2; next; end -> Int(1), Int(2), Break(1), Nil, Next(3), Item(2), Item(4), Sequence { first: 5, count: 2 }, Loop { until: false, condition: 0, body: 7 }, Item(8), Sequence { first: 9, count: 1 }
return 1, 2 -> Int(1), Int(2), Item(0), Item(1), Array { first: 2, count: 2 }, Return(4), Item(5), Sequence { first: 6, count: 1 }
return(1) + 1 -> Int(1), Item(0), Sequence { first: 1, count: 1 }, Int(1), Binary(Add, 2, 3), Return(4), Item(5), Sequence { first: 6, count: 1 }
return[1][0] -> Int(1), Item(0), Array { first: 1, count: 1 }, Int(0), Index(2, 3), Return(4), Item(5), Sequence { first: 6, count: 1 }
return - 1 -> Int(1), Negate(0), Return(1), Item(2), Sequence { first: 3, count: 1 }
return -1 -> Int(-1), Return(0), Item(1), Sequence { first: 2, count: 1 }
return if 1 -> Nil, Return(0), Int(1), Nil, Choose(2, 1, 3), Item(4), Sequence { first: 5, count: 1 }
return {a: 1} -> Int(1), Symbol(Sym(0)), Pair(1, 0), Item(2), Hash { first: 3, count: 1 }, Return(4), Item(5), Sequence { first: 6, count: 1 }
1 && return -> Int(1), Nil, Return(1), And(0, 2), Item(3), Sequence { first: 4, count: 1 }
return puts 1 -> Int(1), Item(0), Call { name: Sym(0), first: 1, count: 1, site: 0 }, Return(2), Item(3), Sequence { first: 4, count: 1 }
foo *1 -> Int(1), Splat(0), Item(1), Call { name: Sym(0), first: 2, count: 1, site: 0 }, Item(3), Sequence { first: 4, count: 1 }
foo * 1 -> Bare { name: Sym(0), site: 0 }, Int(1), Binary(Multiply, 0, 1), Item(2), Sequence { first: 3, count: 1 }
foo *a, 1 -> Bare { name: Sym(1), site: 0 }, Splat(0), Int(1), Item(1), Item(2), Call { name: Sym(0), first: 3, count: 2, site: 1 }, Item(5), Sequence { first: 6, count: 1 }
x = 1; x *2 -> Int(1), Assign { depth: 0, slot: 0, name: Sym(0), behind: 6, value: 0 }, Local { depth: 0, slot: 0, name: Sym(0), behind: 2 }, Int(2), Binary(Multiply, 2, 3), Item(1), Item(4), Sequence { first: 5, count: 2 }
return *a -> Bare { name: Sym(0), site: 0 }, Splat(0), Item(1), Array { first: 2, count: 1 }, Return(3), Item(4), Sequence { first: 5, count: 1 }
return *1, 2 -> Int(1), Splat(0), Int(2), Item(1), Item(2), Array { first: 3, count: 2 }, Return(5), Item(6), Sequence { first: 7, count: 1 }
while 1; break *a; end -> Int(1), Bare { name: Sym(0), site: 0 }, Splat(1), Item(2), Array { first: 3, count: 1 }, Break(4), Item(5), Sequence { first: 6, count: 1 }, Loop { until: false, condition: 0, body: 7 }, Item(8), Sequence { first: 9, count: 1 }
x = return 1 -> Int(1), Return(0), Assign { depth: 0, slot: 0, name: Sym(0), behind: 3, value: 1 }, Item(2), Sequence { first: 3, count: 1 }
f do end -> Call { name: Sym(0), first: 0, count: 0, site: 0 }, Sequence { first: 1, count: 0 }, Block { scope: 1, parameters: 0, size: 0, body: 1 }, WithBlock(0, 2), Item(3), Sequence { first: 4, count: 1 }
f do^n1^nend -> Call { name: Sym(0), first: 0, count: 0, site: 0 }, Int(1), Item(1), Sequence { first: 2, count: 1 }, Block { scope: 1, parameters: 0, size: 0, body: 3 }, WithBlock(0, 4), Item(5), Sequence { first: 6, count: 1 }
f 1 do 2 end -> Int(1), Item(0), Call { name: Sym(0), first: 1, count: 1, site: 0 }, Int(2), Item(3), Sequence { first: 4, count: 1 }, Block { scope: 1, parameters: 0, size: 0, body: 5 }, WithBlock(2, 6), Item(7), Sequence { first: 8, count: 1 }
f do |a, b| g { a } end -> Call { name: Sym(0), first: 0, count: 0, site: 0 }, Call { name: Sym(3), first: 1, count: 0, site: 1 }, Local { depth: 1, slot: 0, name: Sym(1), behind: 2 }, Item(2), Sequence { first: 3, count: 1 }, Block { scope: 2, parameters: 0, size: 0, body: 4 }, WithBlock(1, 5), Item(6), Sequence { first: 7, count: 1 }, Block { scope: 1, parameters: 2, size: 2, body: 8 }, WithBlock(0, 9), Item(10), Sequence { first: 11, count: 1 }
f do break end -> Call { name: Sym(0), first: 0, count: 0, site: 0 }, Nil, Break(1), Item(2), Sequence { first: 3, count: 1 }, Block { scope: 1, parameters: 0, size: 0, body: 4 }, WithBlock(0, 5), Item(6), Sequence { first: 7, count: 1 }
a b 1 do end -> Int(1), Item(0), Call { name: Sym(1), first: 1, count: 1, site: 0 }, Item(2), Call { name: Sym(0), first: 3, count: 1, site: 1 }, Sequence { first: 5, count: 0 }, Block { scope: 1, parameters: 0, size: 0, body: 5 }, WithBlock(4, 6), Item(7), Sequence { first: 8, count: 1 }
a b do end -> Bare { name: Sym(1), site: 0 }, Item(0), Call { name: Sym(0), first: 1, count: 1, site: 1 }, Sequence { first: 3, count: 0 }, Block { scope: 1, parameters: 0, size: 0, body: 3 }, WithBlock(2, 4), Item(5), Sequence { first: 6, count: 1 }
a b { } do end -> Call { name: Sym(1), first: 0, count: 0, site: 0 }, Sequence { first: 1, count: 0 }, Block { scope: 1, parameters: 0, size: 0, body: 1 }, WithBlock(0, 2), Item(3), Call { name: Sym(0), first: 4, count: 1, site: 1 }, Sequence { first: 6, count: 0 }, Block { scope: 2, parameters: 0, size: 0, body: 6 }, WithBlock(5, 7), Item(8), Sequence { first: 9, count: 1 }
a (b do end) -> Call { name: Sym(1), first: 0, count: 0, site: 0 }, Sequence { first: 1, count: 0 }, Block { scope: 1, parameters: 0, size: 0, body: 1 }, WithBlock(0, 2), Item(3), Sequence { first: 4, count: 1 }, Item(5), Call { name: Sym(0), first: 6, count: 1, site: 1 }, Item(7), Sequence { first: 8, count: 1 }
a(b do end) -> Call { name: Sym(1), first: 0, count: 0, site: 0 }, Sequence { first: 1, count: 0 }, Block { scope: 1, parameters: 0, size: 0, body: 1 }, WithBlock(0, 2), Item(3), Call { name: Sym(0), first: 4, count: 1, site: 1 }, Item(5), Sequence { first: 6, count: 1 }
a [b do end] -> Call { name: Sym(1), first: 0, count: 0, site: 0 }, Sequence { first: 1, count: 0 }, Block { scope: 1, parameters: 0, size: 0, body: 1 }, WithBlock(0, 2), Item(3), Array { first: 4, count: 1 }, Item(5), Call { name: Sym(0), first: 6, count: 1, site: 1 }, Item(7), Sequence { first: 8, count: 1 }
while f do 1 end -> Bare { name: Sym(0), site: 0 }, Int(1), Item(1), Sequence { first: 2, count: 1 }, Loop { until: false, condition: 0, body: 3 }, Item(4), Sequence { first: 5, count: 1 }
while f g do 1 end -> Bare { name: Sym(1), site: 0 }, Item(0), Call { name: Sym(0), first: 1, count: 1, site: 1 }, Int(1), Item(3), Sequence { first: 4, count: 1 }, Loop { until: false, condition: 2, body: 5 }, Item(6), Sequence { first: 7, count: 1 }
while (f do end) do 1 end -> Call { name: Sym(0), first: 0, count: 0, site: 0 }, Sequence { first: 1, count: 0 }, Block { scope: 1, parameters: 0, size: 0, body: 1 }, WithBlock(0, 2), Item(3), Sequence { first: 4, count: 1 }, Int(1), Item(6), Sequence { first: 7, count: 1 }, Loop { until: false, condition: 5, body: 8 }, Item(9), Sequence { first: 10, count: 1 }
while f; g do end; end -> Bare { name: Sym(0), site: 0 }, Call { name: Sym(1), first: 1, count: 0, site: 1 }, Sequence { first: 2, count: 0 }, Block { scope: 1, parameters: 0, size: 0, body: 2 }, WithBlock(1, 3), Item(4), Sequence { first: 5, count: 1 }, Loop { until: false, condition: 0, body: 6 }, Item(7), Sequence { first: 8, count: 1 }
x = f 1 do end -> Int(1), Item(0), Call { name: Sym(1), first: 1, count: 1, site: 0 }, Sequence { first: 3, count: 0 }, Block { scope: 1, parameters: 0, size: 0, body: 3 }, WithBlock(2, 4), Assign { depth: 0, slot: 0, name: Sym(0), behind: 5, value: 5 }, Item(6), Sequence { first: 7, count: 1 }
return f 1 do end -> Int(1), Item(0), Call { name: Sym(0), first: 1, count: 1, site: 0 }, Sequence { first: 3, count: 0 }, Block { scope: 1, parameters: 0, size: 0, body: 3 }, WithBlock(2, 4), Return(5), Item(6), Sequence { first: 7, count: 1 }
Ractor -> Constant(Plain(Sym(0))), Item(0), Sequence { first: 1, count: 1 }
Ractor::Port -> Constant(Ractor(Sym(1))), Item(0), Sequence { first: 1, count: 1 }
Ractor::Ractor -> Constant(Ractor(Sym(0))), Item(0), Sequence { first: 1, count: 1 }
Ractor::Port.new -> Constant(Ractor(Sym(1))), Send { receiver: 0, name: Sym(2), first: 1, count: 0, site: 0 }, Item(1), Sequence { first: 2, count: 1 }
puts Ractor::Port, Ractor -> Constant(Ractor(Sym(2))), Constant(Plain(Sym(1))), Item(0), Item(1), Call { name: Sym(0), first: 2, count: 2, site: 0 }, Item(4), Sequence { first: 5, count: 1 }
Ractor.new { 1 } -> Constant(Plain(Sym(0))), Send { receiver: 0, name: Sym(1), first: 1, count: 0, site: 0 }, Int(1), Item(2), Sequence { first: 3, count: 1 }, Block { scope: 1, parameters: 0, size: 0, body: 4 }, WithBlock(1, 5), Item(6), Sequence { first: 7, count: 1 }
Ractor.new do 1 end -> Constant(Plain(Sym(0))), Send { receiver: 0, name: Sym(1), first: 1, count: 0, site: 0 }, Int(1), Item(2), Sequence { first: 3, count: 1 }, Block { scope: 1, parameters: 0, size: 0, body: 4 }, WithBlock(1, 5), Item(6), Sequence { first: 7, count: 1 }
1 if f do end -> Int(1), Call { name: Sym(0), first: 1, count: 0, site: 0 }, Sequence { first: 2, count: 0 }, Block { scope: 1, parameters: 0, size: 0, body: 2 }, WithBlock(1, 3), Nil, Choose(4, 0, 5), Item(6), Sequence { first: 7, count: 1 }
f do 1; rescue => x; x; end -> Call { name: Sym(0), first: 0, count: 0, site: 0 }, Int(1), Item(1), Sequence { first: 2, count: 1 }, Local { depth: 0, slot: 0, name: Sym(1), behind: 4 }, Local { depth: 0, slot: 0, name: Sym(1), behind: 2 }, Item(5), Sequence { first: 6, count: 1 }, Clause { first: 8, count: 0, target: 4, body: 7 }, Nil, Item(8), Rescue { body: 3, first: 10, count: 1, otherwise: 9 }, Block { scope: 1, parameters: 0, size: 1, body: 11 }, WithBlock(0, 12), Item(13), Sequence { first: 14, count: 1 }
f 1 do ensure; end -> Int(1), Item(0), Call { name: Sym(0), first: 1, count: 1, site: 0 }, Sequence { first: 3, count: 0 }, Sequence { first: 4, count: 0 }, Ensure(3, 4), Block { scope: 1, parameters: 0, size: 0, body: 5 }, WithBlock(2, 6), Item(7), Sequence { first: 8, count: 1 }
begin 1 end -> Int(1), Item(0), Sequence { first: 1, count: 1 }, Item(2), Sequence { first: 3, count: 1 }
begin; 1; rescue A; 2; ensure; 3; end -> Int(1), Item(0), Sequence { first: 1, count: 1 }, Constant(Plain(Sym(0))), Nil, Int(2), Item(5), Sequence { first: 6, count: 1 }, Item(3), Clause { first: 8, count: 1, target: 4, body: 7 }, Nil, Item(9), Rescue { body: 2, first: 11, count: 1, otherwise: 10 }, Int(3), Item(13), Sequence { first: 14, count: 1 }, Ensure(12, 15), Item(16), Sequence { first: 17, count: 1 }
begin; rescue => e; end; e -> Sequence { first: 0, count: 0 }, Local { depth: 0, slot: 0, name: Sym(0), behind: 4 }, Sequence { first: 2, count: 0 }, Clause { first: 3, count: 0, target: 1, body: 2 }, Nil, Item(3), Rescue { body: 0, first: 5, count: 1, otherwise: 4 }, Local { depth: 0, slot: 0, name: Sym(0), behind: 0 }, Item(6), Item(7), Sequence { first: 8, count: 2 }
puts begin 1 end -> Int(1), Item(0), Sequence { first: 1, count: 1 }, Item(2), Call { name: Sym(0), first: 3, count: 1, site: 0 }, Item(4), Sequence { first: 5, count: 1 }
x = begin 1 end if 2 -> Int(1), Item(0), Sequence { first: 1, count: 1 }, Assign { depth: 0, slot: 0, name: Sym(0), behind: 6, value: 2 }, Int(2), Nil, Choose(4, 3, 5), Item(6), Sequence { first: 7, count: 1 }
begin 1 end.f -> Int(1), Item(0), Sequence { first: 1, count: 1 }, Send { receiver: 2, name: Sym(0), first: 3, count: 0, site: 0 }, Item(3), Sequence { first: 4, count: 1 }
(begin 1 end) while 2 -> Int(1), Item(0), Sequence { first: 1, count: 1 }, Item(2), Sequence { first: 3, count: 1 }, Int(2), Nil, Loop { until: false, condition: 5, body: 4 }, Item(7), Sequence { first: 8, count: 1 }
begin^n1^nend^nwhile 2 do end -> Int(1), Item(0), Sequence { first: 1, count: 1 }, Int(2), Sequence { first: 4, count: 0 }, Loop { until: false, condition: 3, body: 4 }, Item(2), Item(5), Sequence { first: 6, count: 2 }
\"a#{1}b\" -> Int(1), Item(0), Sequence { first: 1, count: 1 }, Text(0), Text(1), Item(3), Item(2), Item(4), Interpolation { first: 5, count: 3 }, Item(8), Sequence { first: 9, count: 1 }
\"#{}\" -> Sequence { first: 0, count: 0 }, Text(0), Text(1), Item(1), Item(0), Item(2), Interpolation { first: 3, count: 3 }, Item(6), Sequence { first: 7, count: 1 }
\"#{1}#{2}\" -> Int(1), Item(0), Sequence { first: 1, count: 1 }, Text(0), Int(2), Item(4), Sequence { first: 5, count: 1 }, Text(1), Text(2), Item(3), Item(2), Item(7), Item(6), Item(8), Interpolation { first: 9, count: 5 }, Item(14), Sequence { first: 15, count: 1 }
puts \"#{x = 1}\"; x -> Int(1), Assign { depth: 0, slot: 0, name: Sym(1), behind: 5, value: 0 }, Item(1), Sequence { first: 2, count: 1 }, Text(0), Text(1), Item(4), Item(3), Item(5), Interpolation { first: 6, count: 3 }, Item(9), Call { name: Sym(0), first: 10, count: 1, site: 0 }, Local { depth: 0, slot: 0, name: Sym(1), behind: 0 }, Item(11), Item(12), Sequence { first: 13, count: 2 }
\"#{\"a#{1}\"}\" -> Int(1), Item(0), Sequence { first: 1, count: 1 }, Text(1), Text(2), Item(3), Item(2), Item(4), Interpolation { first: 5, count: 3 }, Item(8), Sequence { first: 9, count: 1 }, Text(0), Text(3), Item(11), Item(10), Item(12), Interpolation { first: 13, count: 3 }, Item(16), Sequence { first: 17, count: 1 }
while \"#{f do 1 end}\" do end -> Call { name: Sym(0), first: 0, count: 0, site: 0 }, Int(1), Item(1), Sequence { first: 2, count: 1 }, Block { scope: 1, parameters: 0, size: 0, body: 3 }, WithBlock(0, 4), Item(5), Sequence { first: 6, count: 1 }, Text(0), Text(1), Item(8), Item(7), Item(9), Interpolation { first: 10, count: 3 }, Sequence { first: 14, count: 0 }, Loop { until: false, condition: 13, body: 14 }, Item(15), Sequence { first: 16, count: 1 }
\"#{1^n2}\" -> Int(1), Int(2), Item(0), Item(1), Sequence { first: 2, count: 2 }, Text(0), Text(1), Item(5), Item(4), Item(6), Interpolation { first: 7, count: 3 }, Item(10), Sequence { first: 11, count: 1 }
\"a#{1}\".b -> Int(1), Item(0), Sequence { first: 1, count: 1 }, Text(0), Text(1), Item(3), Item(2), Item(4), Interpolation { first: 5, count: 3 }, Send { receiver: 8, name: Sym(0), first: 9, count: 0, site: 0 }, Item(9), Sequence { first: 10, count: 1 }
";

/// Sources that are refused.
const REFUSED: &str = "\
1 2 -> 1:3 unexpected token
a^n  ) -> 2:3 unexpected token
( -> 1:2 unexpected end
if 1 then -> 1:10 unexpected end
if 1 2 end -> 1:6 unexpected token
if 1; else; 2; elsif 3; end -> 1:16 unexpected token
1 + -> 1:4 unexpected end
1 + puts 2 -> 1:10 unexpected token
puts (x = puts 1), y = puts 2 -> 1:29 unexpected token
1 + foo 2 -> 1:9 unexpected token
foo 1 2 -> 1:7 unexpected token
foo(1 -> 1:6 unexpected end
foo(,) -> 1:5 unexpected token
1 += 2 -> 1:3 unexpected token
x += -> 1:5 unexpected end
a? += 1 -> 1:4 unexpected token
foo(1,, 2) -> 1:7 unexpected token
foo 1, -> 1:7 unexpected end
[1 -> 1:3 unexpected end
[,] -> 1:2 unexpected token
[* -> 1:3 unexpected end
[*] -> 1:3 unexpected token
[*puts 1] -> 1:8 unexpected token
f(**a) -> 1:4 unexpected token
*a -> 1:1 unexpected token
(*a) -> 1:2 unexpected token
{*a} -> 1:2 unexpected token
a[*b] -> 1:3 unexpected token
x = 1; x [1] -> 1:10 unexpected token
1 + a.b 2 -> 1:6 unexpected token
a.1 -> 1:2 unexpected token
{a: 1 -> 1:6 unexpected end
{1} -> 1:3 unexpected token
a[] -> 1:3 unexpected token
a[1, 2] -> 1:4 unexpected token
foo = foo 1 -> 1:11 unexpected token
puts (1, 2) -> 1:8 unexpected token
1 == 2 == 3 -> 1:8 unexpected token
1 = 2 -> 1:3 unexpected token
a || x = 1 -> 1:8 unexpected token
a && -> 1:5 unexpected end
while 1 -> 1:8 unexpected end
while 1 end -> 1:9 unexpected token
while 1; 2 -> 1:11 unexpected end
x = not 1 -> 1:5 unexpected token
1 + not 2 -> 1:5 unexpected token
puts not 1 -> 1:6 unexpected token
not -> 1:4 unexpected end
1 and -> 1:6 unexpected end
1 if -> 1:5 unexpected end
1 ? 2 -> 1:6 unexpected end
1 ? 2 ; 3 -> 1:7 unexpected token
a ?b :c -> 1:6 unexpected token
1 unless 2 then 3 -> 1:12 unexpected token
unless 1; 2; elsif 3; end -> 1:14 unexpected token
1, 2 -> 1:2 unexpected token
9223372036854775808 -> 1:1 number
a = - 9223372036854775808 -> 1:7 number
a = -^n9223372036854775808 -> 2:1 number
a? = 1 -> 1:4 unexpected token
a! = 1 -> 1:4 unexpected token
b = a? = 1 -> 1:8 unexpected token
1 { } -> 1:3 unexpected token
f { |a -> 1:7 unexpected end
f { |1| } -> 1:6 unexpected token
f { |a,| } -> 1:8 unexpected token
f { |a?| 1 } -> 1:6 unexpected token
f { |a b| 1 } -> 1:8 unexpected token
f { || } -> 1:5 unexpected token
f { -> 1:4 unexpected end
f { } { } -> 1:7 unexpected token
(f) { } -> 1:5 unexpected token
a[0] { } -> 1:6 unexpected token
f { |a| ) } -> 1:9 unexpected token
f { x = 1 }; x -1; f { |x| x -1 }; x = 2; x [1] -> 1:45 unexpected token
a << -> 1:5 unexpected end
1 < 2 << -> 1:9 unexpected end
a << puts 1 -> 1:11 unexpected token
1 <<= 2 -> 1:3 unexpected token
break -> 1:1 unexpected token
next 1 -> 1:1 unexpected token
while 1; end; break -> 1:15 unexpected token
f { break }; next -> 1:14 unexpected token
1 + return 2 -> 1:12 unexpected token
return 1, -> 1:10 unexpected end
return 1 2 -> 1:10 unexpected token
return (*a) -> 1:9 unexpected token
1 + foo *2 -> 1:9 unexpected token
foo *, 1 -> 1:6 unexpected token
x = *a -> 1:5 unexpected token
f 1 { } -> 1:5 unexpected token
1 do end -> 1:3 unexpected token
f do -> 1:5 unexpected end
f do end end -> 1:10 unexpected token
f do } -> 1:6 unexpected token
f { end -> 1:5 unexpected token
while f do do end -> 1:12 unexpected token
f do |a end -> 1:9 unexpected token
a b 1 do end do end -> 1:14 unexpected token
f 1 do end.c -> 1:11 unexpected token
x = 1 do end -> 1:7 unexpected token
return 1 do end -> 1:10 unexpected token
f do break; end; break -> 1:18 unexpected token
A::B -> 1:2 left out
Ractor::b -> 1:7 left out
Ractor:: -> 1:7 left out
Ractor::Port::A -> 1:13 left out
Ractor ::Port -> 1:8 left out
Ractor:: Port -> 1:7 left out
Ractors::Port -> 1:8 left out
::A -> 1:1 left out
1 + ::A -> 1:5 left out
puts a::b -> 1:7 left out
a.B -> 1:2 left out
a.B(1) -> 1:2 left out
a.b.C = 1 -> 1:4 left out
f(1).A -> 1:5 left out
rescue -> 1:1 unexpected token
1 rescue 2 -> 1:3 unexpected token
ensure -> 1:1 unexpected token
f { rescue; 1 } -> 1:5 unexpected token
(1; rescue; 2) -> 1:5 unexpected token
while 1; rescue; end -> 1:10 unexpected token
if 1; ensure; end -> 1:7 unexpected token
f do else end -> 1:6 unexpected token
f do ensure else end -> 1:13 unexpected token
begin 1 end while 2 -> 1:13 left out
begin 1 end until 2 -> 1:13 left out
x = begin 1 end while 2 -> 1:17 left out
begin -> 1:6 unexpected end
begin 1 -> 1:8 unexpected end
begin 1 } -> 1:9 unexpected token
begin else end -> 1:7 unexpected token
begin rescue => e end -> 1:19 unexpected token
1 begin 2 end -> 1:3 unexpected token
\"#{1 -> 1:5 unexpected end
\"#{1)}\" -> 1:5 unexpected token
\"#{1 2}\" -> 1:6 unexpected token
\"#{else}\" -> 1:4 unexpected token
\"#{break}\" -> 1:4 unexpected token
\"#{def f; end}\" -> 1:4 unexpected token
\"a#{1}\" 2 -> 1:9 unexpected token
";

/// Each source has what stands behind it.
pub fn check_rows(rt: &impl Abort, alloc: Global, rows: &str) -> Result<(), AllocError> {
    for row in rows.lines() {
        let (source, want) = split_row(row);
        let bytes = source_of(alloc, source)?;
        assert_eq!(rt;
            shown(alloc, bytes.as_slice())?.as_str(),
            want,
            "at {source}"
        );
    }
    Ok(())
}

#[test]
fn sources_have_their_nodes(rt: HostRuntime) -> Result<(), Fail> {
    check_rows(&rt, rt.alloc(), SHAPES)?;
    Ok(())
}

#[test]
fn sources_are_refused(rt: HostRuntime) -> Result<(), Fail> {
    check_rows(&rt, rt.alloc(), REFUSED)?;
    Ok(())
}

#[test]
fn names_and_texts(rt: HostRuntime) -> Result<(), Fail> {
    let program = read(rt.alloc(), b"a = \"x\\n\"; puts b, a, 'y'")?;
    assert_eq!(rt; program.symbols.len(), 3);
    assert_eq!(rt; program.symbols[0].as_slice(), b"a".as_slice());
    assert_eq!(rt; program.symbols[1].as_slice(), b"puts".as_slice());
    assert_eq!(rt; program.symbols[2].as_slice(), b"b".as_slice());
    assert_eq!(rt; program.texts.len(), 2);
    assert_eq!(rt; program.texts[0].as_slice(), b"x\n".as_slice());
    assert_eq!(rt; program.texts[1].as_slice(), b"y".as_slice());
    Ok(())
}

#[test]
fn pieces_of_texts(rt: HostRuntime) -> Result<(), Fail> {
    let program = read(rt.alloc(), b"\"a#{'x'}\\n\"; \"#{1}\"")?;
    assert_eq!(rt; program.texts.len(), 5);
    assert_eq!(rt; program.texts[0].as_slice(), b"a".as_slice());
    assert_eq!(rt; program.texts[1].as_slice(), b"x".as_slice());
    assert_eq!(rt; program.texts[2].as_slice(), b"\n".as_slice());
    assert_eq!(rt; program.texts[3].as_slice(), b"".as_slice());
    assert_eq!(rt; program.texts[4].as_slice(), b"".as_slice());
    Ok(())
}

/// A source inside so many brackets.
fn bracketed(alloc: Global, source: &str, count: usize) -> Result<Vec<u8>, AllocError> {
    let mut nested = Vec::new(alloc);
    for _ in 0..count {
        nested.push(b'(')?;
    }
    nested.extend_from_slice(source.as_bytes())?;
    for _ in 0..count {
        nested.push(b')')?;
    }
    Ok(nested)
}

fn is_too_deep(alloc: Global, source: &[u8]) -> bool {
    matches!(read(alloc, source), Err(Fault::Limit(LimitKind::Nesting)))
}

/// How many constructs are open at the deepest place of a source.
const DEPTHS: &str = "\
1 -> 0
-1 -> 0
a = 1 -> 0
a = b = 1 -> 1
a = b = c = 1 -> 2
a = (b = 1) -> 2
(a = 1) -> 1
- - 1 -> 2
puts() -> 1
if 1 then if 2 then 3 end elsif 4 then 5 else 6 end -> 2
!1 -> 1
not not 1 -> 2
puts puts puts 1 -> 2
1 ? 2 : 3 -> 1
1 ? 2 : 3 ? 4 : 5 -> 2
while 1 do 2 end -> 1
unless 1 then 2 else 3 end -> 1
1 and 2 or 3 if 4 unless 5 -> 0
a = b = puts 1 -> 1
a[0] = b[0] = 1 -> 1
a[b[0]] = 1 -> 2
a.b = c.d = e[0] = 1 -> 2
a += b -= 1 -> 1
[[1]] -> 2
[*a] -> 1
f(*[1]) -> 2
a[b[0]] -> 2
{a: 1} -> 1
a.b(c.d(1)) -> 2
a.b.c[0][1] -> 1
f { 1 } -> 1
1 << 2 << 3 -> 0
while 1 do break [1] end -> 2
return puts 1 -> 1
f(1) { g { 2 } } -> 2
a.b { [1] } -> 2
f do 1 end -> 1
f 1 do g { 2 } end -> 2
a b 1 do [1] end -> 2
a.b [1] -> 1
a.b puts 1 -> 1
f a.b 1 -> 1
a.b c.d e.f 1 -> 2
f a[0].b 1 -> 1
return a.b 1 do [1] end -> 3
a.b c do [1] end -> 2
f a: 1 -> 0
f(a: [1]) -> 2
[a: 1] -> 1
f do g do 1 end end -> 2
while f do g do 1 end end -> 2
a, b = 1, 2 -> 0
a, b = 1, c = 2 -> 1
a, b = c = d = 1 -> 2
a, b = puts puts 1 -> 1
a = (b, c = 1) -> 2
a, b = (c, d = 1), 2 -> 2
a[0], b = 1, c = 2 -> 1
a[b[0]], c = 1 -> 2
a, b[c[0]] = 1 -> 2
begin 1 end -> 1
begin begin 1 end; rescue; [2] end -> 2
\"#{1}\" -> 1
\"#{[1]}#{2}\" -> 2
\"#{\"#{1}\"}\" -> 2
";

#[test]
fn nesting_is_counted(rt: HostRuntime) -> Result<(), Fail> {
    for row in DEPTHS.lines() {
        let (source, want) = split_row(row);
        let depth = usize::from_str_radix(want, 10).map_err(|_| "a row without a number")?;
        let fits = bracketed(rt.alloc(), source, 200 - depth.min(200))?;
        let _program = read(rt.alloc(), &fits)?;
        let deeper = bracketed(rt.alloc(), source, 201 - depth.min(200))?;
        assert!(rt; is_too_deep(rt.alloc(), &deeper), "{source}");
    }
    let deepest = bracketed(rt.alloc(), "1", 100_000)?;
    assert!(rt; is_too_deep(rt.alloc(), &deepest));
    Ok(())
}

#[test]
fn long_sources(rt: HostRuntime) -> Result<(), Fail> {
    let mut sum = Vec::from_slice(rt.alloc(), b"puts 1")?;
    for _ in 0..100_000 {
        sum.extend_from_slice(b" + 1")?;
    }
    assert_eq!(rt; read(rt.alloc(), &sum)?.nodes.len(), 200_005);
    let mut lines = Vec::from_slice(rt.alloc(), b"a = 0\n")?;
    for _ in 0..200_000 {
        lines.extend_from_slice(b"a = a + 1\n")?;
    }
    assert_eq!(rt; read(rt.alloc(), &lines)?.nodes.len(), 1_000_004);
    Ok(())
}
