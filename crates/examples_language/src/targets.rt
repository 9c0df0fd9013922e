//! Worked examples: assignments to elements and attributes.

use crate::programs::check_rows;
use std::test::Fail;

/// Sources with their nodes.
const SHAPES: &str = "\
a[0] = 1 -> Bare { name: Sym(0), site: 0 }, Int(0), Index(0, 1), Int(1), SetIndex { receiver: 0, index: 1, value: 3 }, Item(4), Sequence { first: 5, count: 1 }
a.b = 1 -> Bare { name: Sym(0), site: 0 }, Send { receiver: 0, name: Sym(1), first: 1, count: 0, site: 1 }, Int(1), SetAttribute { receiver: 0, name: Sym(1), value: 2, site: 2 }, Item(3), Sequence { first: 4, count: 1 }
a[0] += 1 -> Bare { name: Sym(0), site: 0 }, Int(0), Index(0, 1), Int(1), OperatorAssign(Add, 2, 3), Item(4), Sequence { first: 5, count: 1 }
a.b ||= 1 -> Bare { name: Sym(0), site: 0 }, Send { receiver: 0, name: Sym(1), first: 1, count: 0, site: 1 }, Int(1), OrAssign(1, 2), Item(3), Sequence { first: 4, count: 1 }
a.b &&= 1 -> Bare { name: Sym(0), site: 0 }, Send { receiver: 0, name: Sym(1), first: 1, count: 0, site: 1 }, Int(1), AndAssign(1, 2), Item(3), Sequence { first: 4, count: 1 }
a[0] = b[1] = 2 -> Bare { name: Sym(0), site: 0 }, Int(0), Index(0, 1), Bare { name: Sym(1), site: 1 }, Int(1), Index(3, 4), Int(2), SetIndex { receiver: 3, index: 4, value: 6 }, SetIndex { receiver: 0, index: 1, value: 7 }, Item(8), Sequence { first: 9, count: 1 }
a.b.c = 1 -> Bare { name: Sym(0), site: 0 }, Send { receiver: 0, name: Sym(1), first: 1, count: 0, site: 1 }, Send { receiver: 1, name: Sym(2), first: 2, count: 0, site: 2 }, Int(1), SetAttribute { receiver: 1, name: Sym(2), value: 3, site: 3 }, Item(4), Sequence { first: 5, count: 1 }
a.b[0] <<= 1 -> Bare { name: Sym(0), site: 0 }, Send { receiver: 0, name: Sym(1), first: 1, count: 0, site: 1 }, Int(0), Index(1, 2), Int(1), AppendAssign(3, 4), Item(5), Sequence { first: 6, count: 1 }
a[0] = puts 1 -> Bare { name: Sym(0), site: 0 }, Int(0), Index(0, 1), Int(1), Item(3), Call { name: Sym(1), first: 4, count: 1, site: 1 }, SetIndex { receiver: 0, index: 1, value: 5 }, Item(6), Sequence { first: 7, count: 1 }
f a[0] = 1 -> Bare { name: Sym(1), site: 0 }, Int(0), Index(0, 1), Int(1), SetIndex { receiver: 0, index: 1, value: 3 }, Item(4), Call { name: Sym(0), first: 5, count: 1, site: 1 }, Item(6), Sequence { first: 7, count: 1 }
[a[0] = 1] -> Bare { name: Sym(0), site: 0 }, Int(0), Index(0, 1), Int(1), SetIndex { receiver: 0, index: 1, value: 3 }, Item(4), Array { first: 5, count: 1 }, Item(6), Sequence { first: 7, count: 1 }
a[0] == 1 -> Bare { name: Sym(0), site: 0 }, Int(0), Index(0, 1), Int(1), Binary(Equal, 2, 3), Item(4), Sequence { first: 5, count: 1 }
a[0] = 1 if b -> Bare { name: Sym(0), site: 0 }, Int(0), Index(0, 1), Int(1), SetIndex { receiver: 0, index: 1, value: 3 }, Bare { name: Sym(1), site: 1 }, Nil, Choose(5, 4, 6), Item(7), Sequence { first: 8, count: 1 }
(a)[0] = 1 -> Bare { name: Sym(0), site: 0 }, Item(0), Sequence { first: 1, count: 1 }, Int(0), Index(2, 3), Int(1), SetIndex { receiver: 2, index: 3, value: 5 }, Item(6), Sequence { first: 7, count: 1 }
@a[0] = 1 -> Field(Sym(0)), Int(0), Index(0, 1), Int(1), SetIndex { receiver: 0, index: 1, value: 3 }, Item(4), Sequence { first: 5, count: 1 }
f { 1 }.b = 2 -> Call { name: Sym(0), first: 0, count: 0, site: 0 }, Int(1), Item(1), Sequence { first: 2, count: 1 }, Block { scope: 1, parameters: 0, size: 0, body: 3 }, WithBlock(0, 4), Send { receiver: 5, name: Sym(1), first: 6, count: 0, site: 1 }, Int(2), SetAttribute { receiver: 5, name: Sym(1), value: 7, site: 2 }, Item(8), Sequence { first: 9, count: 1 }
self.a = 1 -> Itself, Send { receiver: 0, name: Sym(0), first: 1, count: 0, site: 0 }, Int(1), SetAttribute { receiver: 0, name: Sym(0), value: 2, site: 1 }, Item(3), Sequence { first: 4, count: 1 }
a = [1]; a[0] = a[0] + 1 -> Int(1), Item(0), Array { first: 1, count: 1 }, Assign { depth: 0, slot: 0, name: Sym(0), behind: 16, value: 2 }, Local { depth: 0, slot: 0, name: Sym(0), behind: 10 }, Int(0), Index(4, 5), Local { depth: 0, slot: 0, name: Sym(0), behind: 5 }, Int(0), Index(7, 8), Int(1), Binary(Add, 9, 10), SetIndex { receiver: 4, index: 5, value: 11 }, Item(3), Item(12), Sequence { first: 13, count: 2 }
a ? b[0] = 1 : 2 -> Bare { name: Sym(0), site: 0 }, Bare { name: Sym(1), site: 1 }, Int(0), Index(1, 2), Int(1), SetIndex { receiver: 1, index: 2, value: 4 }, Int(2), Choose(0, 5, 6), Item(7), Sequence { first: 8, count: 1 }
";

/// Sources that are refused.
const REFUSED: &str = "\
1 + a[0] = 2 -> 1:10 unexpected token
-a[0] = 1 -> 1:7 unexpected token
!a.b = 1 -> 1:6 unexpected token
a.b() = 1 -> 1:7 unexpected token
a() = 1 -> 1:5 unexpected token
(a[0]) = 1 -> 1:8 unexpected token
a.b { } = 1 -> 1:9 unexpected token
a[0] = -> 1:7 unexpected end
a[0] = 1 = 2 -> 1:10 unexpected token
a[0] + 1 = 2 -> 1:10 unexpected token
f(a[0] = puts 1) -> 1:15 unexpected token
a[0] = not 1 -> 1:8 unexpected token
nil = 1 -> 1:5 unexpected token
";

#[test]
fn targets_have_their_nodes(rt: HostRuntime) -> Result<(), Fail> {
    check_rows(&rt, rt.alloc(), SHAPES)?;
    Ok(())
}

#[test]
fn targets_are_refused(rt: HostRuntime) -> Result<(), Fail> {
    check_rows(&rt, rt.alloc(), REFUSED)?;
    Ok(())
}
