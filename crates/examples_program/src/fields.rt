//! `self` and instance variables, as a table of scripts.

use crate::table::check_rows;
use std::test::Fail;

/// As `RUN` of the rows: what it shows, the script, what it prints, and what is told of the exception that ends it.
const FIELDS: &str = "\
a variable of the program's self|@a = 1; p @a; @a = @a + 1; p @a^n|1^n2^n|
a variable that is unset|p @a; @a = nil; p @a^n|nil^nnil^n|
what an assignment gives|p(@a = 3); b = (@a = \"x\"); p b, @a^n|3^n\"x\"^n\"x\"^n|
several variables|@a = 1; @b = 2; @a = 3; p @a, @b^n|3^n2^n|
a chain of assignments|@a = @b = [1]; @a << 2; p @b; p @a.equal?(@b)^n|[1, 2]^ntrue^n|
self is one object|p self.equal?(self), self.class, self.nil?^n|true^nObject^nfalse^n|
a method has the program's self|def f; @a; end; def g(x); @a = x; end; @a = 5; p f; g(6); p f, @a^n|5^n6^n6^n|
a method of a method|def f; g; end; def g; @a = 7; self; end; p f.equal?(self), @a^n|true^n7^n|
a block has the self of its method|def f; yield; end; @a = 1; f { @a = @a + 1 }; p @a^n|2^n|
an iteration has it too|@a = 0; [1, 2, 3].each { ^px^p @a = @a + x }; 2.times { @a = @a * 2 }; p @a^n|24^n|
a local variable of the name|a = 1; @a = 2; p a, @a^n|1^n2^n|
the value comes first|@a = 1; @a = (p @a; 2); p @a^n|1^n2^n|
a value that raises leaves the variable|@a = 1; begin; @a = 1 / 0; rescue ZeroDivisionError; end; p @a^n|1^n|
a value that leaves the method|def f; @a = (return 3); end; p f, @a^n|3^nnil^n|
a frozen self|@a = 1; self.freeze; begin; @a = 2; rescue FrozenError => e; puts e.message; end; p @a^n|can't modify frozen Object^n1^n|
a frozen self and a new variable|self.freeze; @b = 1^n||can't modify frozen Object (FrozenError)
the value is evaluated before it is refused|self.freeze; @a = (puts 1; 2)^n|1^n|can't modify frozen Object (FrozenError)
a condition|@a = 1 unless @a; @a = 2 unless @a; p @a; p 5 if @b^n|1^n|
in a text|@a = 3; puts \"<#{@a}>\"^n|<3>^n|
as an argument and a receiver|@a = 4; puts(@a, @a + 1); p [@a, {b: @a}]^n|4^n5^n[4, {b: 4}]^n|
a count in a loop|@i = 0; while @i < 4 do @i = @i + 1 end; p @i^n|4^n|
self among values|p self == self, [self].include?(self)^n|true^ntrue^n|";

#[test]
fn fields_print_what_is_wanted(rt: HostRuntime) -> Result<(), Fail> {
    check_rows(&rt, rt.alloc(), FIELDS)
}
