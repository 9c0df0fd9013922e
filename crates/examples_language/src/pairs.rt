//! Worked examples: pairs without braces, which are the last argument.

use crate::programs::check_rows;
use std::test::Fail;

/// Sources with their nodes.
const SHAPES: &str = "\
f a: 1 -> Int(1), Symbol(Sym(1)), Pair(1, 0), Item(2), Pairs { first: 3, count: 1 }, Item(4), Call { name: Sym(0), first: 5, count: 1, site: 0 }, Item(6), Sequence { first: 7, count: 1 }
f 1, a: 2, 'b' => 3 -> Int(1), Int(2), Symbol(Sym(1)), Pair(2, 1), Text(0), Int(3), Pair(4, 5), Item(3), Item(6), Pairs { first: 7, count: 2 }, Item(0), Item(9), Call { name: Sym(0), first: 10, count: 2, site: 0 }, Item(12), Sequence { first: 13, count: 1 }
f(a: 1, b: 2,) -> Int(1), Symbol(Sym(1)), Pair(1, 0), Int(2), Symbol(Sym(2)), Pair(4, 3), Item(2), Item(5), Pairs { first: 6, count: 2 }, Item(8), Call { name: Sym(0), first: 9, count: 1, site: 0 }, Item(10), Sequence { first: 11, count: 1 }
f(1, 'a' => 2) -> Int(1), Text(0), Int(2), Pair(1, 2), Item(3), Pairs { first: 4, count: 1 }, Item(0), Item(5), Call { name: Sym(0), first: 6, count: 2, site: 0 }, Item(8), Sequence { first: 9, count: 1 }
a.b(c: 1) -> Bare { name: Sym(0), site: 0 }, Int(1), Symbol(Sym(2)), Pair(2, 1), Item(3), Pairs { first: 4, count: 1 }, Item(5), Send { receiver: 0, name: Sym(1), first: 6, count: 1, site: 1 }, Item(7), Sequence { first: 8, count: 1 }
a.b c: 1 -> Bare { name: Sym(0), site: 0 }, Int(1), Symbol(Sym(2)), Pair(2, 1), Item(3), Pairs { first: 4, count: 1 }, Item(5), Send { receiver: 0, name: Sym(1), first: 6, count: 1, site: 1 }, Item(7), Sequence { first: 8, count: 1 }
f *a, b: 1 -> Bare { name: Sym(1), site: 0 }, Splat(0), Int(1), Symbol(Sym(2)), Pair(3, 2), Item(4), Pairs { first: 5, count: 1 }, Item(1), Item(6), Call { name: Sym(0), first: 7, count: 2, site: 1 }, Item(9), Sequence { first: 10, count: 1 }
[1, a: 2] -> Int(1), Int(2), Symbol(Sym(0)), Pair(2, 1), Item(3), Pairs { first: 4, count: 1 }, Item(0), Item(5), Array { first: 6, count: 2 }, Item(8), Sequence { first: 9, count: 1 }
return a: 1 -> Int(1), Symbol(Sym(0)), Pair(1, 0), Item(2), Pairs { first: 3, count: 1 }, Return(4), Item(5), Sequence { first: 6, count: 1 }
f a = 1 => 2 -> Int(1), Assign { depth: 0, slot: 0, name: Sym(1), behind: 4, value: 0 }, Int(2), Pair(1, 2), Item(3), Pairs { first: 4, count: 1 }, Item(5), Call { name: Sym(0), first: 6, count: 1, site: 0 }, Item(7), Sequence { first: 8, count: 1 }
f a: 1 do end -> Int(1), Symbol(Sym(1)), Pair(1, 0), Item(2), Pairs { first: 3, count: 1 }, Item(4), Call { name: Sym(0), first: 5, count: 1, site: 0 }, Sequence { first: 7, count: 0 }, Block { scope: 1, parameters: 0, size: 0, body: 7 }, WithBlock(6, 8), Item(9), Sequence { first: 10, count: 1 }
f a: g { 1 } -> Call { name: Sym(2), first: 0, count: 0, site: 0 }, Int(1), Item(1), Sequence { first: 2, count: 1 }, Block { scope: 1, parameters: 0, size: 0, body: 3 }, WithBlock(0, 4), Symbol(Sym(1)), Pair(6, 5), Item(7), Pairs { first: 8, count: 1 }, Item(9), Call { name: Sym(0), first: 10, count: 1, site: 1 }, Item(11), Sequence { first: 12, count: 1 }
f({a: 1}, b: 2) -> Int(1), Symbol(Sym(1)), Pair(1, 0), Item(2), Hash { first: 3, count: 1 }, Int(2), Symbol(Sym(2)), Pair(6, 5), Item(7), Pairs { first: 8, count: 1 }, Item(4), Item(9), Call { name: Sym(0), first: 10, count: 2, site: 0 }, Item(12), Sequence { first: 13, count: 1 }
";

/// Sources that are refused.
const REFUSED: &str = "\
f(a: 1, 2) -> 1:10 unexpected token
f(a: 1, *b) -> 1:9 unexpected token
f a: 1, 2 -> 1:10 unexpected end
f a: -> 1:5 unexpected end
f(a: ) -> 1:6 unexpected token
f(1 => ) -> 1:8 unexpected token
a[b: 1] -> 1:3 unexpected token
(a: 1) -> 1:2 unexpected token
a: 1 -> 1:1 unexpected token
x = a: 1 -> 1:5 unexpected token
f a: puts 1 -> 1:11 unexpected token
{1 => 2, *a} -> 1:10 unexpected token
f 1 => 2 => 3 -> 1:10 unexpected token
1 + f a: 2 -> 1:7 unexpected token
[a: 1, 2] -> 1:9 unexpected token
";

#[test]
fn pairs_have_their_nodes(rt: HostRuntime) -> Result<(), Fail> {
    check_rows(&rt, rt.alloc(), SHAPES)?;
    Ok(())
}

#[test]
fn pairs_are_refused(rt: HostRuntime) -> Result<(), Fail> {
    check_rows(&rt, rt.alloc(), REFUSED)?;
    Ok(())
}
