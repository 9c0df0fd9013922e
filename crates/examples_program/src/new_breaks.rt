//! Scripts that leave `new` out of its block, as a table.

use crate::table::check_rows;
use std::test::Fail;

/// As `RUN` of the rows: what it shows, the script, what it prints, and what is told of the exception that ends it.
const NEW_BREAKS: &str = "\
break|class X; def initialize; @a = 1; yield; @a = 2; end; def a; @a; end; end; p(X.new { break 5 })^n|5^n|
break without a value|class X; def initialize; yield; end; end; p(X.new { break })^n|nil^n|
next|class X; def initialize; @a = yield; end; def a; @a; end; end; p(X.new { next 5 }.a)^n|5^n|
return|class X; def initialize; yield; end; end; def f; X.new { return 7 }; 8; end; p f^n|7^n|
break through an ensure of the block|class X; def initialize; yield; end; end; p(X.new { begin; break 4; ensure; puts 1; end })^n|1^n4^n|
break through an ensure of initialize|class X; def initialize; begin; yield; ensure; puts 2; end; end; end; p(X.new { break 3 })^n|2^n3^n|
break behind a super that passes the block on|class X; def initialize; yield; puts 1; end; end; class Z < X; def initialize; super; puts 2; end; end; p(Z.new { break 6 })^n|6^n|
an exception|class E < StandardError; def initialize(x); super(x); yield; end; end; p(E.new(\"a\") { break 9 })^n|9^n|
a return in a block of initialize|class X; def initialize; [1].each { return 5 }; end; def a; 1; end; end; p X.new.a^n|1^n|
a return in initialize|class X; def initialize; return 5; end; def a; 1; end; end; p X.new.a^n|1^n|
a break in a block of initialize|class X; def initialize; @a = [1].each { break 5 }; end; def a; @a; end; end; p X.new.a^n|5^n|
break out of turns|class X; def initialize; [1, 2].each { ^px^p yield x }; end; end; p(X.new { ^px^p break x + 5 })^n|6^n|
break out of a block in the block|class X; def initialize; yield; end; def a; 1; end; end; p(X.new { [1].each { break 2 } }.a)^n|1^n|
break of new in new|class X; def initialize; yield; end; end; p(X.new { break X.new { break 3 } })^n|3^n|
break with several values|class X; def initialize; yield; end; end; p(X.new { break 1, 2 })^n|[1, 2]^n|
break out of a method that super calls|class A; def f; yield; puts 1; end; end; class B < A; def f; super; puts 2; end; end; p(B.new.f { break 6 })^n|6^n|
break out of a block that is passed on twice|class A; def f; yield; puts 1; end; end; class B < A; def f; super; puts 2; end; end; class C < B; def f; super; puts 3; end; end; p(C.new.f { break 6 })^n|6^n|";

#[test]
fn breaks_end_new(rt: HostRuntime) -> Result<(), Fail> {
    check_rows(&rt, rt.alloc(), NEW_BREAKS)
}
