//! Worked examples: commands with a receiver.

use crate::programs::check_rows;
use std::test::Fail;

/// Sources with their nodes.
const SHAPES: &str = "\
a.b -> Bare { name: Sym(0), site: 0 }, Send { receiver: 0, name: Sym(1), first: 1, count: 0, site: 1 }, Item(1), Sequence { first: 2, count: 1 }
a.b(1)^n.c -> Bare { name: Sym(0), site: 0 }, Int(1), Item(1), Send { receiver: 0, name: Sym(1), first: 2, count: 1, site: 1 }, Send { receiver: 3, name: Sym(2), first: 4, count: 0, site: 2 }, Item(4), Sequence { first: 5, count: 1 }
-2.abs -> Int(-2), Send { receiver: 0, name: Sym(0), first: 1, count: 0, site: 0 }, Item(1), Sequence { first: 2, count: 1 }
- 2.abs -> Int(2), Send { receiver: 0, name: Sym(0), first: 1, count: 0, site: 0 }, Negate(1), Item(2), Sequence { first: 3, count: 1 }
!a.b == c -> Bare { name: Sym(0), site: 0 }, Send { receiver: 0, name: Sym(1), first: 1, count: 0, site: 1 }, Not(1), Bare { name: Sym(2), site: 2 }, Binary(Equal, 2, 3), Item(4), Sequence { first: 5, count: 1 }
a.b do |x| x end -> Bare { name: Sym(0), site: 0 }, Send { receiver: 0, name: Sym(1), first: 1, count: 0, site: 1 }, Local { depth: 0, slot: 0, name: Sym(2), behind: 1 }, Item(2), Sequence { first: 3, count: 1 }, Block { scope: 1, parameters: 1, size: 1, body: 4 }, WithBlock(1, 5), Item(6), Sequence { first: 7, count: 1 }
a.b(1) do end.c -> Bare { name: Sym(0), site: 0 }, Int(1), Item(1), Send { receiver: 0, name: Sym(1), first: 2, count: 1, site: 1 }, Sequence { first: 4, count: 0 }, Block { scope: 1, parameters: 0, size: 0, body: 4 }, WithBlock(3, 5), Send { receiver: 6, name: Sym(2), first: 7, count: 0, site: 2 }, Item(7), Sequence { first: 8, count: 1 }
puts a.b do end -> Bare { name: Sym(1), site: 0 }, Send { receiver: 0, name: Sym(2), first: 1, count: 0, site: 1 }, Item(1), Call { name: Sym(0), first: 2, count: 1, site: 2 }, Sequence { first: 4, count: 0 }, Block { scope: 1, parameters: 0, size: 0, body: 4 }, WithBlock(3, 5), Item(6), Sequence { first: 7, count: 1 }
a.push 1 -> Bare { name: Sym(0), site: 0 }, Int(1), Item(1), Send { receiver: 0, name: Sym(1), first: 2, count: 1, site: 1 }, Item(3), Sequence { first: 4, count: 1 }
a.b c, d -> Bare { name: Sym(0), site: 0 }, Bare { name: Sym(2), site: 1 }, Bare { name: Sym(3), site: 2 }, Item(1), Item(2), Send { receiver: 0, name: Sym(1), first: 3, count: 2, site: 3 }, Item(5), Sequence { first: 6, count: 1 }
x = a.b 1 -> Bare { name: Sym(1), site: 0 }, Int(1), Item(1), Send { receiver: 0, name: Sym(2), first: 2, count: 1, site: 1 }, Assign { depth: 0, slot: 0, name: Sym(0), behind: 5, value: 3 }, Item(4), Sequence { first: 5, count: 1 }
a.b c do 1 end -> Bare { name: Sym(0), site: 0 }, Bare { name: Sym(2), site: 1 }, Item(1), Send { receiver: 0, name: Sym(1), first: 2, count: 1, site: 2 }, Int(1), Item(4), Sequence { first: 5, count: 1 }, Block { scope: 1, parameters: 0, size: 0, body: 6 }, WithBlock(3, 7), Item(8), Sequence { first: 9, count: 1 }
x = a.b 1 do end -> Bare { name: Sym(1), site: 0 }, Int(1), Item(1), Send { receiver: 0, name: Sym(2), first: 2, count: 1, site: 1 }, Sequence { first: 4, count: 0 }, Block { scope: 1, parameters: 0, size: 0, body: 4 }, WithBlock(3, 5), Assign { depth: 0, slot: 0, name: Sym(0), behind: 7, value: 6 }, Item(7), Sequence { first: 8, count: 1 }
a.b(1).c 2 -> Bare { name: Sym(0), site: 0 }, Int(1), Item(1), Send { receiver: 0, name: Sym(1), first: 2, count: 1, site: 1 }, Int(2), Item(4), Send { receiver: 3, name: Sym(2), first: 5, count: 1, site: 2 }, Item(6), Sequence { first: 7, count: 1 }
a[0].b 1 -> Bare { name: Sym(0), site: 0 }, Int(0), Index(0, 1), Int(1), Item(3), Send { receiver: 2, name: Sym(1), first: 4, count: 1, site: 1 }, Item(5), Sequence { first: 6, count: 1 }
a.b -1 -> Bare { name: Sym(0), site: 0 }, Int(-1), Item(1), Send { receiver: 0, name: Sym(1), first: 2, count: 1, site: 1 }, Item(3), Sequence { first: 4, count: 1 }
a.b - 1 -> Bare { name: Sym(0), site: 0 }, Send { receiver: 0, name: Sym(1), first: 1, count: 0, site: 1 }, Int(1), Binary(Subtract, 1, 2), Item(3), Sequence { first: 4, count: 1 }
a.b *c -> Bare { name: Sym(0), site: 0 }, Bare { name: Sym(2), site: 1 }, Splat(1), Item(2), Send { receiver: 0, name: Sym(1), first: 3, count: 1, site: 2 }, Item(4), Sequence { first: 5, count: 1 }
a.b [1] -> Bare { name: Sym(0), site: 0 }, Int(1), Item(1), Array { first: 2, count: 1 }, Item(3), Send { receiver: 0, name: Sym(1), first: 4, count: 1, site: 1 }, Item(5), Sequence { first: 6, count: 1 }
a.b (1) + 2 -> Bare { name: Sym(0), site: 0 }, Int(1), Item(1), Sequence { first: 2, count: 1 }, Int(2), Binary(Add, 3, 4), Item(5), Send { receiver: 0, name: Sym(1), first: 6, count: 1, site: 1 }, Item(7), Sequence { first: 8, count: 1 }
a.b puts 1 -> Bare { name: Sym(0), site: 0 }, Int(1), Item(1), Call { name: Sym(2), first: 2, count: 1, site: 1 }, Item(3), Send { receiver: 0, name: Sym(1), first: 4, count: 1, site: 2 }, Item(5), Sequence { first: 6, count: 1 }
a.b = c.d 1 -> Bare { name: Sym(0), site: 0 }, Send { receiver: 0, name: Sym(1), first: 1, count: 0, site: 1 }, Bare { name: Sym(2), site: 2 }, Int(1), Item(3), Send { receiver: 2, name: Sym(3), first: 4, count: 1, site: 3 }, SetAttribute { receiver: 0, name: Sym(1), value: 5, site: 4 }, Item(6), Sequence { first: 7, count: 1 }
not a.b 1 -> Bare { name: Sym(0), site: 0 }, Int(1), Item(1), Send { receiver: 0, name: Sym(1), first: 2, count: 1, site: 1 }, Not(3), Item(4), Sequence { first: 5, count: 1 }
a.b 1 if c.d 2 -> Bare { name: Sym(0), site: 0 }, Int(1), Item(1), Send { receiver: 0, name: Sym(1), first: 2, count: 1, site: 1 }, Bare { name: Sym(2), site: 2 }, Int(2), Item(5), Send { receiver: 4, name: Sym(3), first: 6, count: 1, site: 3 }, Nil, Choose(7, 3, 8), Item(9), Sequence { first: 10, count: 1 }
a.b 1 and c.d 2 -> Bare { name: Sym(0), site: 0 }, Int(1), Item(1), Send { receiver: 0, name: Sym(1), first: 2, count: 1, site: 1 }, Bare { name: Sym(2), site: 2 }, Int(2), Item(5), Send { receiver: 4, name: Sym(3), first: 6, count: 1, site: 3 }, And(3, 7), Item(8), Sequence { first: 9, count: 1 }
x = 1; x.y 2 -> Int(1), Assign { depth: 0, slot: 0, name: Sym(0), behind: 7, value: 0 }, Local { depth: 0, slot: 0, name: Sym(0), behind: 3 }, Int(2), Item(3), Send { receiver: 2, name: Sym(1), first: 4, count: 1, site: 0 }, Item(1), Item(5), Sequence { first: 6, count: 2 }
a.if 1 -> Bare { name: Sym(0), site: 0 }, Int(1), Item(1), Send { receiver: 0, name: Sym(1), first: 2, count: 1, site: 1 }, Item(3), Sequence { first: 4, count: 1 }
A.b 1 -> Constant(Plain(Sym(0))), Int(1), Item(1), Send { receiver: 0, name: Sym(1), first: 2, count: 1, site: 0 }, Item(3), Sequence { first: 4, count: 1 }
a { 1 }.b 2 -> Call { name: Sym(0), first: 0, count: 0, site: 0 }, Int(1), Item(1), Sequence { first: 2, count: 1 }, Block { scope: 1, parameters: 0, size: 0, body: 3 }, WithBlock(0, 4), Int(2), Item(6), Send { receiver: 5, name: Sym(1), first: 7, count: 1, site: 1 }, Item(8), Sequence { first: 9, count: 1 }
f a.b 1 -> Bare { name: Sym(1), site: 0 }, Int(1), Item(1), Send { receiver: 0, name: Sym(2), first: 2, count: 1, site: 1 }, Item(3), Call { name: Sym(0), first: 4, count: 1, site: 2 }, Item(5), Sequence { first: 6, count: 1 }
x = f a.b 1, 2 -> Bare { name: Sym(2), site: 0 }, Int(1), Int(2), Item(1), Item(2), Send { receiver: 0, name: Sym(3), first: 3, count: 2, site: 1 }, Item(5), Call { name: Sym(1), first: 6, count: 1, site: 2 }, Assign { depth: 0, slot: 0, name: Sym(0), behind: 8, value: 7 }, Item(8), Sequence { first: 9, count: 1 }
a.b c.d 1 -> Bare { name: Sym(0), site: 0 }, Bare { name: Sym(2), site: 1 }, Int(1), Item(2), Send { receiver: 1, name: Sym(3), first: 3, count: 1, site: 2 }, Item(4), Send { receiver: 0, name: Sym(1), first: 5, count: 1, site: 3 }, Item(6), Sequence { first: 7, count: 1 }
f a.b c.d 1 -> Bare { name: Sym(1), site: 0 }, Bare { name: Sym(3), site: 1 }, Int(1), Item(2), Send { receiver: 1, name: Sym(4), first: 3, count: 1, site: 2 }, Item(4), Send { receiver: 0, name: Sym(2), first: 5, count: 1, site: 3 }, Item(6), Call { name: Sym(0), first: 7, count: 1, site: 4 }, Item(8), Sequence { first: 9, count: 1 }
f a.b 1 do end -> Bare { name: Sym(1), site: 0 }, Int(1), Item(1), Send { receiver: 0, name: Sym(2), first: 2, count: 1, site: 1 }, Item(3), Call { name: Sym(0), first: 4, count: 1, site: 2 }, Sequence { first: 6, count: 0 }, Block { scope: 1, parameters: 0, size: 0, body: 6 }, WithBlock(5, 7), Item(8), Sequence { first: 9, count: 1 }
return a.b 1 do end -> Bare { name: Sym(0), site: 0 }, Int(1), Item(1), Send { receiver: 0, name: Sym(1), first: 2, count: 1, site: 1 }, Sequence { first: 4, count: 0 }, Block { scope: 1, parameters: 0, size: 0, body: 4 }, WithBlock(3, 5), Return(6), Item(7), Sequence { first: 8, count: 1 }
f -1.b 2 -> Int(-1), Int(2), Item(1), Send { receiver: 0, name: Sym(1), first: 2, count: 1, site: 0 }, Item(3), Call { name: Sym(0), first: 4, count: 1, site: 1 }, Item(5), Sequence { first: 6, count: 1 }
f [1].b 2 -> Int(1), Item(0), Array { first: 1, count: 1 }, Int(2), Item(3), Send { receiver: 2, name: Sym(1), first: 4, count: 1, site: 0 }, Item(5), Call { name: Sym(0), first: 6, count: 1, site: 1 }, Item(7), Sequence { first: 8, count: 1 }
while a.b 1 do 2 end -> Bare { name: Sym(0), site: 0 }, Int(1), Item(1), Send { receiver: 0, name: Sym(1), first: 2, count: 1, site: 1 }, Int(2), Item(4), Sequence { first: 5, count: 1 }, Loop { until: false, condition: 3, body: 6 }, Item(7), Sequence { first: 8, count: 1 }
";

/// Sources that are refused.
const REFUSED: &str = "\
-a.b 1 -> 1:3 unexpected token
!a.b 1 -> 1:3 unexpected token
a.b 1 2 -> 1:7 unexpected token
a.b 1, -> 1:7 unexpected end
a.b 1 { } -> 1:7 unexpected token
a.b 1 = 2 -> 1:7 unexpected token
a.b 1 do -> 1:9 unexpected end
a.b 1 do end.c -> 1:13 unexpected token
a.b c 1 do end do end -> 1:16 unexpected token
f(a.b 1) -> 1:4 unexpected token
f a, b.c 1 -> 1:7 unexpected token
f *a.b 1 -> 1:5 unexpected token
f k: a.b 1 -> 1:7 unexpected token
f -a.b 1 -> 1:5 unexpected token
f x = a.b 1 -> 1:8 unexpected token
f a.b 1 = 2 -> 1:9 unexpected token
f a.b 1 do end do end -> 1:16 unexpected token
[a.b 1] -> 1:3 unexpected token
x = 1 + a.b 2 -> 1:10 unexpected token
a ? b.c 1 : d -> 1:6 unexpected token
f(x = a.b 1) -> 1:8 unexpected token
";

#[test]
fn receivers_have_their_nodes(rt: HostRuntime) -> Result<(), Fail> {
    check_rows(&rt, rt.alloc(), SHAPES)?;
    Ok(())
}

#[test]
fn receivers_are_refused(rt: HostRuntime) -> Result<(), Fail> {
    check_rows(&rt, rt.alloc(), REFUSED)?;
    Ok(())
}
