//! Operators of the program's classes, as a table of scripts.

use crate::table::check_rows;
use std::test::Fail;

/// As `RUN` of the rows: what it shows, the script, what it prints, and what is told of the exception that ends it.
const ROWS: &str = "\
all operators|class A; def +(o); 1; end; def -(o); 2; end; def *(o); 3; end; def /(o); 4; end; def %(o); 5; end; def <<(o); 6; end; def <(o); 7; end; def <=(o); 8; end; def >(o); 9; end; def >=(o); 10; end; def <=>(o); 11; end; def [](i); 12; end; end; a = A.new; p a + 1, a - 1, a * 1, a / 1, a % 1, a << 1, a < 1, a <= 1, a > 1, a >= 1, a <=> 1, a[1]^n|1^n2^n3^n4^n5^n6^n7^n8^n9^n10^n11^n12^n|
an index that is assigned|class A; def []=(i, v); @a = [i, v]; 9; end; def a; @a; end; end; a = A.new; p(a[1] = 2); p a.a^n|2^n[1, 2]^n|
equality|class A; def ==(o); true; end; end; p A.new == 1, A.new != 1, [A.new] == [2]^n|true^nfalse^nfalse^n|
an operator of the class above|class V; def +(o); 5; end; end; class W < V; end; p W.new + 1^n|5^n|
equality of the program in a condition|class V; def ==(o); o == 1; end; end; v = V.new; puts \"a\" if v == 1; puts \"b\" unless v != 1; puts \"c\" if v == 2^n|a^nb^n|";

#[test]
fn operators_of_objects_print_what_is_wanted(rt: HostRuntime) -> Result<(), Fail> {
    check_rows(&rt, rt.alloc(), ROWS)
}
