//! Worked examples: classes.

use crate::methods::check_rows;
use std::test::Fail;

/// Sources with their nodes and definitions.
const SHAPES: &str = "\
class A; end -> ClassBody { name: Sym(0), superclass: ClassId(2), first: 0, count: 0 }, Sequence { first: 1, count: 0 } | 0
class A^n^n;end; 1 -> ClassBody { name: Sym(0), superclass: ClassId(2), first: 0, count: 0 }, Int(1), Item(1), Sequence { first: 2, count: 1 } | 0
class A; def f; end; end -> Sequence { first: 0, count: 0 }, Method { name: Sym(1), scope: 1, parameters: 0, size: 0, body: 0 }, Item(1), ClassBody { name: Sym(0), superclass: ClassId(2), first: 2, count: 1 }, Sequence { first: 4, count: 0 } | 3
class A^n def f; 1; end^n^n def ==(o); end^nend -> Int(1), Item(0), Sequence { first: 1, count: 1 }, Method { name: Sym(1), scope: 1, parameters: 0, size: 0, body: 2 }, Sequence { first: 4, count: 0 }, Method { name: Sym(2), scope: 2, parameters: 1, size: 1, body: 4 }, Item(3), Item(5), ClassBody { name: Sym(0), superclass: ClassId(2), first: 6, count: 2 }, Sequence { first: 9, count: 0 } | 8
1; class A; end; def f; end; 2 -> Int(1), ClassBody { name: Sym(0), superclass: ClassId(2), first: 1, count: 0 }, Sequence { first: 2, count: 0 }, Method { name: Sym(1), scope: 1, parameters: 0, size: 0, body: 2 }, Int(2), Item(0), Item(4), Sequence { first: 5, count: 2 } | 1 3
class A; end; class B; end; class A; def f; end; end -> ClassBody { name: Sym(0), superclass: ClassId(2), first: 0, count: 0 }, ClassBody { name: Sym(1), superclass: ClassId(2), first: 1, count: 0 }, Sequence { first: 2, count: 0 }, Method { name: Sym(2), scope: 1, parameters: 0, size: 0, body: 2 }, Item(3), ClassBody { name: Sym(0), superclass: ClassId(2), first: 4, count: 1 }, Sequence { first: 6, count: 0 } | 0 1 5
x = 1; class A; def f; x; end; end; x -> Int(1), Assign { depth: 0, slot: 0, name: Sym(0), behind: 16, value: 0 }, Bare { name: Sym(0), site: 0 }, Item(2), Sequence { first: 3, count: 1 }, Method { name: Sym(2), scope: 1, parameters: 0, size: 0, body: 4 }, Item(5), ClassBody { name: Sym(1), superclass: ClassId(2), first: 6, count: 1 }, Local { depth: 0, slot: 0, name: Sym(0), behind: 0 }, Item(1), Item(8), Sequence { first: 9, count: 2 } | 7
class A; def f; yield; super; end; end -> Yield { first: 0, count: 0 }, ForwardingSuper, Item(0), Item(1), Sequence { first: 2, count: 2 }, Method { name: Sym(1), scope: 1, parameters: 0, size: 0, body: 4 }, Item(5), ClassBody { name: Sym(0), superclass: ClassId(2), first: 6, count: 1 }, Sequence { first: 8, count: 0 } | 7
class A; end; A -> ClassBody { name: Sym(0), superclass: ClassId(2), first: 0, count: 0 }, Constant(Plain(Sym(0))), Item(1), Sequence { first: 2, count: 1 } | 0
class A; end; B = 1 -> ClassBody { name: Sym(0), superclass: ClassId(2), first: 0, count: 0 }, Int(1), SetConstant(Sym(1), 1), Item(2), Sequence { first: 3, count: 1 } | 0
class A < Object; end -> ClassBody { name: Sym(0), superclass: ClassId(2), first: 0, count: 0 }, Sequence { first: 1, count: 0 } | 0
class A < StandardError^n def f; end^nend -> Sequence { first: 0, count: 0 }, Method { name: Sym(2), scope: 1, parameters: 0, size: 0, body: 0 }, Item(1), ClassBody { name: Sym(0), superclass: ClassId(15), first: 2, count: 1 }, Sequence { first: 4, count: 0 } | 3
class A < Ractor::Error; end -> ClassBody { name: Sym(0), superclass: ClassId(28), first: 0, count: 0 }, Sequence { first: 1, count: 0 } | 0
class A; end; class B < A; end; class C<B; end -> ClassBody { name: Sym(0), superclass: ClassId(2), first: 0, count: 0 }, ClassBody { name: Sym(1), superclass: ClassId(32), first: 1, count: 0 }, ClassBody { name: Sym(2), superclass: ClassId(33), first: 2, count: 0 }, Sequence { first: 3, count: 0 } | 0 1 2
class A < TypeError; end; class A; end; class A < TypeError; end -> ClassBody { name: Sym(0), superclass: ClassId(26), first: 0, count: 0 }, ClassBody { name: Sym(0), superclass: ClassId(26), first: 1, count: 0 }, ClassBody { name: Sym(0), superclass: ClassId(26), first: 2, count: 0 }, Sequence { first: 3, count: 0 } | 0 1 2
class A; attr_reader :a; end -> Reader(Sym(2)), Item(0), ClassBody { name: Sym(0), superclass: ClassId(2), first: 1, count: 1 }, Sequence { first: 3, count: 0 } | 2
class A^n attr_writer :a,^n:b^nend -> Writer(Sym(2)), Writer(Sym(3)), Item(0), Item(1), ClassBody { name: Sym(0), superclass: ClassId(2), first: 2, count: 2 }, Sequence { first: 5, count: 0 } | 4
class A; attr_accessor :a, :b; def f; end; attr_writer :c; end -> Reader(Sym(2)), Writer(Sym(2)), Reader(Sym(3)), Writer(Sym(3)), Sequence { first: 4, count: 0 }, Method { name: Sym(4), scope: 1, parameters: 0, size: 0, body: 4 }, Writer(Sym(6)), Item(0), Item(1), Item(2), Item(3), Item(5), Item(6), ClassBody { name: Sym(0), superclass: ClassId(2), first: 7, count: 6 }, Sequence { first: 14, count: 0 } | 13
class A; attr_reader :attr_writer; attr_writer :attr_writer; end -> Reader(Sym(2)), Writer(Sym(2)), Item(0), Item(1), ClassBody { name: Sym(0), superclass: ClassId(2), first: 2, count: 2 }, Sequence { first: 5, count: 0 } | 4
attr_reader :a -> Symbol(Sym(1)), Item(0), Call { name: Sym(0), first: 1, count: 1, site: 0 }, Item(2), Sequence { first: 3, count: 1 } |
attr_accessor = 1 -> Int(1), Assign { depth: 0, slot: 0, name: Sym(0), behind: 2, value: 0 }, Item(1), Sequence { first: 2, count: 1 } |
class A; def f; attr_reader; end; end -> Bare { name: Sym(2), site: 0 }, Item(0), Sequence { first: 1, count: 1 }, Method { name: Sym(1), scope: 1, parameters: 0, size: 0, body: 2 }, Item(3), ClassBody { name: Sym(0), superclass: ClassId(2), first: 4, count: 1 }, Sequence { first: 6, count: 0 } | 5
class A; def attr_reader(attr_writer); attr_writer; end; end -> Local { depth: 0, slot: 0, name: Sym(2), behind: 4 }, Item(0), Sequence { first: 1, count: 1 }, Method { name: Sym(1), scope: 1, parameters: 1, size: 1, body: 2 }, Item(3), ClassBody { name: Sym(0), superclass: ClassId(2), first: 4, count: 1 }, Sequence { first: 6, count: 0 } | 5
a.class -> Bare { name: Sym(0), site: 0 }, Send { receiver: 0, name: Sym(1), first: 1, count: 0, site: 1 }, Item(1), Sequence { first: 2, count: 1 } |
";

/// Sources that are refused.
const REFUSED: &str = "\
class -> 1:6 unexpected end
class A -> 1:8 unexpected end
class A end -> 1:9 unexpected token
class a; end -> 1:7 unexpected token
class 1; end -> 1:7 unexpected token
class A; -> 1:9 unexpected end
class A; end 1 -> 1:14 unexpected token
class A; 1; end -> 1:10 unexpected token
class A; def f; end end -> 1:21 unexpected token
class A; class B; end; end -> 1:10 unexpected token
class A; B = 1; end -> 1:10 unexpected token
class A, B; end -> 1:8 unexpected token
class Integer; end -> 1:7 left out
class Ractor; end -> 1:7 left out
class Ractor::A; end -> 1:7 left out
class A::B; end -> 1:8 left out
A = 1; class A; end -> 1:1 constant
class A; end; A = 1 -> 1:15 constant
class A; end; A += 1 -> 1:15 constant
class A; end; a, A = 1, 2 -> 1:18 constant
f { A = 1 }; class A; end -> 1:5 constant
def f; class A; end; end -> 1:8 unexpected token
x = class A; end -> 1:5 unexpected token
f { class A; end } -> 1:5 unexpected token
if 1 then class A; end end -> 1:11 unexpected token
class A; end if 1 -> 1:14 unexpected token
class A; yield; end -> 1:10 unexpected token
class A; def f; end; x; end -> 1:22 unexpected token
class A; attr_reader; end -> 1:21 unexpected token
class A; attr_reader a; end -> 1:22 unexpected token
class A; attr_reader 'a'; end -> 1:22 unexpected token
class A; attr_reader :a, ; end -> 1:26 unexpected token
class A; attr_reader :a :b; end -> 1:25 unexpected token
class A; attr_reader(:a); end -> 1:21 unexpected token
class A; attr_reader *a; end -> 1:22 unexpected token
class A; attr_reader? :a; end -> 1:10 unexpected token
class A; attr_readers :a; end -> 1:10 unexpected token
class A; attr :a; end -> 1:10 unexpected token
class A; attr_writer = 1; end -> 1:22 unexpected token
class A; attr_writer :a end -> 1:25 unexpected token
class A; attr_writer :a if 1; end -> 1:25 unexpected token
class A attr_writer :a; end -> 1:9 unexpected token
class A; attr_writer -> 1:21 unexpected end
class A; attr_writer :a -> 1:24 unexpected end
class A < -> 1:10 unexpected end
class A < b; end -> 1:11 unexpected token
class A < B; end -> 1:11 constant
class A < A; end -> 1:11 constant
class B < A; end; class A; end -> 1:11 constant
class A < KeyError; end -> 1:11 constant
class A < Ractor::KeyError; end -> 1:11 constant
class A < Integer; end -> 1:11 left out
class A < Ractor; end -> 1:11 left out
class A < BasicObject; end -> 1:11 left out
class A < Ractor::MovedObject; end -> 1:11 left out
class A < Error; end -> 1:11 constant
class A; end; class A < TypeError; end -> 1:25 constant
class A < TypeError; end; class A < Object; end -> 1:37 constant
class A; end; class A < Integer; end -> 1:25 constant
class A < TypeError end -> 1:21 unexpected token
class A < TypeError, B; end -> 1:20 unexpected token
class A < B::C; end -> 1:11 constant
class Integer < Object; end -> 1:7 left out
";

#[test]
fn classes_have_their_nodes(rt: HostRuntime) -> Result<(), Fail> {
    check_rows(&rt, rt.alloc(), SHAPES)?;
    Ok(())
}

#[test]
fn classes_are_refused(rt: HostRuntime) -> Result<(), Fail> {
    check_rows(&rt, rt.alloc(), REFUSED)?;
    Ok(())
}
