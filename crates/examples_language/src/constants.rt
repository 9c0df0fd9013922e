//! Worked examples: assignments to constants.

use crate::programs::check_rows;
use std::test::Fail;

/// Sources with their nodes.
const SHAPES: &str = "\
A = 1 -> Int(1), SetConstant(Sym(0), 0), Item(1), Sequence { first: 2, count: 1 }
A += 1 -> Int(1), Constant(Plain(Sym(0))), OperatorAssign(Add, 1, 0), Item(2), Sequence { first: 3, count: 1 }
A ||= B -> Constant(Plain(Sym(1))), Constant(Plain(Sym(0))), OrAssign(1, 0), Item(2), Sequence { first: 3, count: 1 }
A = B = 1 -> Int(1), SetConstant(Sym(1), 0), SetConstant(Sym(0), 1), Item(2), Sequence { first: 3, count: 1 }
A = f 1 -> Int(1), Item(0), Call { name: Sym(1), first: 1, count: 1, site: 0 }, SetConstant(Sym(0), 2), Item(3), Sequence { first: 4, count: 1 }
f(A = 1) -> Int(1), SetConstant(Sym(1), 0), Item(1), Call { name: Sym(0), first: 2, count: 1, site: 0 }, Item(3), Sequence { first: 4, count: 1 }
A, b = 1 -> Constant(Plain(Sym(0))), Local { depth: 0, slot: 0, name: Sym(1), behind: 2 }, Int(1), Item(0), Item(1), MultipleAssign { first: 3, count: 2, value: 2 }, Item(5), Sequence { first: 6, count: 1 }
f { A = 1 } -> Call { name: Sym(0), first: 0, count: 0, site: 0 }, Int(1), SetConstant(Sym(1), 1), Item(2), Sequence { first: 3, count: 1 }, Block { scope: 1, parameters: 0, size: 0, body: 4 }, WithBlock(0, 5), Item(6), Sequence { first: 7, count: 1 }
Integer == 1 -> Constant(Plain(Sym(0))), Int(1), Binary(Equal, 0, 1), Item(2), Sequence { first: 3, count: 1 }
";

/// Sources that are refused.
const REFUSED: &str = "\
Integer = 1 -> 1:1 constant
Ractor = 1 -> 1:1 constant
a = String ||= 1 -> 1:5 constant
BasicObject, a = 1 -> 1:1 constant
a, Object = 1 -> 1:4 constant
def f; A = 1; end -> 1:8 constant
def f; a { A += 1 }; end -> 1:12 constant
def f; A, b = 1; end -> 1:8 constant
Ractor::Port = 1 -> 1:14 unexpected token
A::B = 1 -> 1:2 left out
x.A = 1 -> 1:2 left out
A = -> 1:4 unexpected end
1 + A = 2 -> 1:7 unexpected token
(A) = 1 -> 1:5 unexpected token
A(1) = 2 -> 1:2 unexpected token
";

#[test]
fn constants_have_their_nodes(rt: HostRuntime) -> Result<(), Fail> {
    check_rows(&rt, rt.alloc(), SHAPES)?;
    Ok(())
}

#[test]
fn constants_are_refused(rt: HostRuntime) -> Result<(), Fail> {
    check_rows(&rt, rt.alloc(), REFUSED)?;
    Ok(())
}
