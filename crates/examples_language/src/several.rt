//! Worked examples: assignments to several targets.

use crate::programs::check_rows;
use std::test::Fail;

/// Sources with their nodes.
const SHAPES: &str = "\
a, b = b, a -> Local { depth: 0, slot: 0, name: Sym(0), behind: 6 }, Local { depth: 0, slot: 1, name: Sym(1), behind: 4 }, Local { depth: 0, slot: 1, name: Sym(1), behind: 2 }, Local { depth: 0, slot: 0, name: Sym(0), behind: 0 }, Item(2), Item(3), Array { first: 4, count: 2 }, Item(0), Item(1), MultipleAssign { first: 7, count: 2, value: 6 }, Item(9), Sequence { first: 10, count: 1 }
a, b = x -> Local { depth: 0, slot: 0, name: Sym(0), behind: 4 }, Local { depth: 0, slot: 1, name: Sym(1), behind: 2 }, Bare { name: Sym(2), site: 0 }, Item(0), Item(1), MultipleAssign { first: 3, count: 2, value: 2 }, Item(5), Sequence { first: 6, count: 1 }
a,^nb = -1 -> Local { depth: 0, slot: 0, name: Sym(0), behind: 5 }, Local { depth: 0, slot: 1, name: Sym(1), behind: 3 }, Int(-1), Item(0), Item(1), MultipleAssign { first: 3, count: 2, value: 2 }, Item(5), Sequence { first: 6, count: 1 }
@a, $b, c = 1 if d -> Field(Sym(0)), Global(Sym(1)), Local { depth: 0, slot: 0, name: Sym(2), behind: 4 }, Int(1), Item(0), Item(1), Item(2), MultipleAssign { first: 4, count: 3, value: 3 }, Bare { name: Sym(3), site: 0 }, Nil, Choose(8, 7, 9), Item(10), Sequence { first: 11, count: 1 }
a, b = f 1, 2 -> Local { depth: 0, slot: 0, name: Sym(0), behind: 7 }, Local { depth: 0, slot: 1, name: Sym(1), behind: 5 }, Int(1), Int(2), Item(2), Item(3), Call { name: Sym(2), first: 4, count: 2, site: 0 }, Item(0), Item(1), MultipleAssign { first: 7, count: 2, value: 6 }, Item(9), Sequence { first: 10, count: 1 }
a, b = x.f 1 -> Local { depth: 0, slot: 0, name: Sym(0), behind: 7 }, Local { depth: 0, slot: 1, name: Sym(1), behind: 5 }, Bare { name: Sym(2), site: 0 }, Int(1), Item(3), Send { receiver: 2, name: Sym(3), first: 4, count: 1, site: 1 }, Item(0), Item(1), MultipleAssign { first: 6, count: 2, value: 5 }, Item(8), Sequence { first: 9, count: 1 }
a, b = 1, c = 2 -> Local { depth: 0, slot: 0, name: Sym(0), behind: 8 }, Local { depth: 0, slot: 1, name: Sym(1), behind: 6 }, Int(1), Int(2), Assign { depth: 0, slot: 2, name: Sym(2), behind: 2, value: 3 }, Item(2), Item(4), Array { first: 5, count: 2 }, Item(0), Item(1), MultipleAssign { first: 8, count: 2, value: 7 }, Item(10), Sequence { first: 11, count: 1 }
a, b = c = f -> Local { depth: 0, slot: 0, name: Sym(0), behind: 6 }, Local { depth: 0, slot: 1, name: Sym(1), behind: 4 }, Bare { name: Sym(3), site: 0 }, Assign { depth: 0, slot: 2, name: Sym(2), behind: 2, value: 2 }, Item(0), Item(1), MultipleAssign { first: 4, count: 2, value: 3 }, Item(6), Sequence { first: 7, count: 1 }
a, b = !c -> Local { depth: 0, slot: 0, name: Sym(0), behind: 5 }, Local { depth: 0, slot: 1, name: Sym(1), behind: 3 }, Bare { name: Sym(2), site: 0 }, Not(2), Item(0), Item(1), MultipleAssign { first: 4, count: 2, value: 3 }, Item(6), Sequence { first: 7, count: 1 }
a, b = c[0] = 1, 2 -> Local { depth: 0, slot: 0, name: Sym(0), behind: 11 }, Local { depth: 0, slot: 1, name: Sym(1), behind: 9 }, Bare { name: Sym(2), site: 0 }, Int(0), Index(2, 3), Int(1), SetIndex { receiver: 2, index: 3, value: 5 }, Int(2), Item(6), Item(7), Array { first: 8, count: 2 }, Item(0), Item(1), MultipleAssign { first: 11, count: 2, value: 10 }, Item(13), Sequence { first: 14, count: 1 }
a, b = 1; f { a, c = 2 } -> Local { depth: 0, slot: 0, name: Sym(0), behind: 13 }, Local { depth: 0, slot: 1, name: Sym(1), behind: 11 }, Int(1), Item(0), Item(1), MultipleAssign { first: 3, count: 2, value: 2 }, Call { name: Sym(2), first: 6, count: 0, site: 0 }, Local { depth: 1, slot: 0, name: Sym(0), behind: 5 }, Local { depth: 0, slot: 0, name: Sym(3), behind: 3 }, Int(2), Item(7), Item(8), MultipleAssign { first: 10, count: 2, value: 9 }, Item(12), Sequence { first: 13, count: 1 }, Block { scope: 1, parameters: 0, size: 1, body: 14 }, WithBlock(6, 15), Item(5), Item(16), Sequence { first: 17, count: 2 }
a[0], b.c = 1, 2 -> Bare { name: Sym(0), site: 0 }, Int(0), Index(0, 1), Bare { name: Sym(1), site: 1 }, Send { receiver: 3, name: Sym(2), first: 4, count: 0, site: 2 }, Int(1), Int(2), Item(5), Item(6), Array { first: 7, count: 2 }, Item(2), Item(4), MultipleAssign { first: 10, count: 2, value: 9 }, Item(12), Sequence { first: 13, count: 1 }
a, b[0] = 1 -> Local { depth: 0, slot: 0, name: Sym(0), behind: 7 }, Bare { name: Sym(1), site: 0 }, Int(0), Index(1, 2), Int(1), Item(0), Item(3), MultipleAssign { first: 5, count: 2, value: 4 }, Item(7), Sequence { first: 8, count: 1 }
a[0] and b -> Bare { name: Sym(0), site: 0 }, Int(0), Index(0, 1), Bare { name: Sym(1), site: 1 }, And(2, 3), Item(4), Sequence { first: 5, count: 1 }
a, a = 1 -> Local { depth: 0, slot: 0, name: Sym(0), behind: 4 }, Local { depth: 0, slot: 0, name: Sym(0), behind: 2 }, Int(1), Item(0), Item(1), MultipleAssign { first: 3, count: 2, value: 2 }, Item(5), Sequence { first: 6, count: 1 }
";

/// Sources that are refused.
const REFUSED: &str = "\
a, b = not 1 -> 1:8 unexpected token
a = 1, 2 -> 1:6 unexpected token
a, -> 1:3 unexpected end
a, b -> 1:5 unexpected end
a, b = -> 1:7 unexpected end
a, b = 1, -> 1:10 unexpected end
a, b + 1 -> 1:6 unexpected token
a, b += 1 -> 1:6 unexpected token
a, 1 = 2 -> 1:6 unexpected token
a, *b = 1 -> 1:4 unexpected token
a, b, = 1 -> 1:7 unexpected token
a?, b = 1 -> 1:3 unexpected token
a, b! = 1 -> 1:7 unexpected token
a[0], b -> 1:8 unexpected end
a[0], 1 = 2 -> 1:9 unexpected token
-a[0], b = 1 -> 1:6 unexpected token
not a[0], b = 1 -> 1:9 unexpected token
f(1), a = 2 -> 1:5 unexpected token
a[0], b = 1 and 2 -> 1:13 unexpected token
x = a[0], b = 1 -> 1:9 unexpected token
a.b { }, c = 1 -> 1:8 unexpected token
1, b = 2 -> 1:2 unexpected token
a, b = c, *d -> 1:11 unexpected token
a, b = 1, f 2 -> 1:13 unexpected token
a, b = f 1 do end, 2 -> 1:18 unexpected token
a, b = c = f 1 -> 1:14 unexpected token
a, b = 1 and 2 -> 1:10 unexpected token
not a, b = 1 -> 1:6 unexpected token
x = a, b = 1 -> 1:6 unexpected token
if a, b = 1 then 2 end -> 1:5 unexpected token
1 if a, b = 2 -> 1:7 unexpected token
f(a, b = 1, 2 -> 1:14 unexpected end
";

#[test]
fn several_targets_have_their_nodes(rt: HostRuntime) -> Result<(), Fail> {
    check_rows(&rt, rt.alloc(), SHAPES)?;
    Ok(())
}

#[test]
fn several_targets_are_refused(rt: HostRuntime) -> Result<(), Fail> {
    check_rows(&rt, rt.alloc(), REFUSED)?;
    Ok(())
}
