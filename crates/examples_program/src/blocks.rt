//! Scripts with blocks, as a table.

use crate::endings::check_steps;
use crate::table::check_rows;
use std::test::Fail;

/// As `RUN` of the rows: what it shows, the script, what it prints, and what is told of the exception that ends it.
const BLOCKS: &str = "\
a block is called|def f; yield; end; f { puts 1 }^n|1^n|
a block between do and end|def f; yield; end^nf do^nputs 1^nputs 2^nend^n|1^n2^n|
a block is not called|def f; 3; end; p(f { puts 1 })^n|3^n|
a block is called twice|def f; yield; yield; end; f { print 7 }^n|77|
the value of a block|def f; yield; end; p(f { 5 })^n|5^n|
the value of an empty block|def f; yield; end; p(f { })^n|nil^n|
the value of yield in an operator|def f; yield + yield; end; p(f { 4 })^n|8^n|
a value for a block|def f; yield 3; end; f { ^px^p puts x }^n|3^n|
two values for a block|def f; yield 3, 4; end; f { ^px, y^p puts x * y }^n|12^n|
values for a block come first|def f; yield((print 1; 1), (print 2; 2)); end; f { ^px, y^p print 3 }^n|123|
missing values are nil|def f; yield; end; f { ^px^p p x }; def g; yield 1; end; g { ^px, y^p p x, y }^n|nil^n1^nnil^n|
values that are dropped|def f; yield 1, 2, 3; end; f { ^px^p p x }; f { ^px, y^p p y }; f { p 9 }^n|1^n2^n9^n|
one array for one parameter|def f; yield [1, 2]; end; f { ^px^p p x }^n|[1, 2]^n|
an array and a value for two parameters|def f; yield [1], 2; end; f { ^px, y^p p x, y }^n|[1]^n2^n|
pairs for a block|def f; yield a: 1; end; f { ^ph^p p h[:a] }^n|1^n|
a block and arguments|def f(a, b); yield a + b; end; f(1, 2) { ^px^p p x }; f(3, 4) do ^px^p p x; end^n|3^n7^n|
a block behind a command|def f(a); yield a; end^nf 5 do ^px^p^np x^nend^n|5^n|
a call with a block as an argument|def f; yield; end; puts(f { 1 }, f { 2 })^n|1^n2^n|
a count of arguments with a block|def f(a); yield; end; begin; f { 1 }; rescue ArgumentError => e; puts e.message; end^n|wrong number of arguments (given 0, expected 1)^n|
a block reads a variable outside|def f; yield; end; x = 4; f { p x }^n|4^n|
a block sets a variable outside|def f; yield; end; x = 4; f { x = 5 }; p x^n|5^n|
a block counts|def f; yield; yield; yield; end; x = 0; f { x += 1 }; p x^n|3^n|
or-assignment outside|def f; yield; end; x = nil; f { x ^p^p= 6 }; f { x ^p^p= 7 }; p x^n|6^n|
and-assignment outside|def f; yield; end; x = 1; f { x &&= 6 }; y = nil; f { y &&= 7 }; p x, y^n|6^nnil^n|
a variable of a block goes with it|def f; yield; end; f { z = 1; p z }; begin; z; rescue NameError => e; puts e.message; end^n|1^nundefined local variable or method 'z'^n|
a variable of a block begins as nil|def f; yield 1; yield 2; end; f { ^px^p p y if x == 3; y = x; p y }^n|1^n2^n|
a parameter hides a variable|def f; yield 1; end; x = 5; f { ^px^p x += 1; p x }; p x^n|2^n5^n|
a method does not see the caller's variables|def f; x = 1; yield; p x; end; x = 7; f { x += 1 }; p x^n|1^n8^n|
two scopes outside|def f; yield; end; x = 1; f { y = 10; f { x += y; y += 1 }; p y }; p x^n|11^n11^n|
three scopes outside|def f; yield; end; x = 1; f { f { f { x += 1; x *= 5 } } }; p x^n|10^n|
a variable of a method outside|def f; yield; end; def g(a); b = 2; f { a += b; b = 9 }; a * b; end; p g(1)^n|27^n|
a parameter of a block outside|def f(n); yield n; end; f(2) { ^pa^p f(3) { ^pb^p a += b; f(4) { ^pc^p a *= c } }; p a }^n|20^n|
an exception's variable outside|def f; yield; end; e = nil; f { begin; raise \"a\"; rescue => e; end }; puts e.message^n|a^n|
a recursive method with blocks|def f(n); if n == 0 then yield else f(n - 1) { yield } end; end; x = 0; f(50) { x += 1 }; p x^n|1^n|
a recursive method with blocks that see it|def f(n); if n == 0 then yield else f(n - 1) { n += 1; yield n } end; end; f(2) { ^px^p p x }^n|3^n|
each call has its own variables|def f(n); if n == 0 then return 0 end; x = n; g { x += f(n - 1) }; x; end; def g; yield; end; p f(4)^n|10^n|
a block is passed on by yield|def f; yield 1; end; def g; f { ^px^p yield x + 1 }; end; g { ^py^p p y }^n|2^n|
a block is passed on twice|def f; yield 1; end; def g; f { ^px^p yield x + 1 }; end; def h; g { ^px^p yield x * 5 }; end; h { ^py^p p y }^n|10^n|
yield in a block of another method|def f; yield; end; def g; f { f { yield 3 } }; end; g { ^px^p p x }^n|3^n|
no block|def f; yield; end; begin; f; rescue LocalJumpError => e; puts e.message; end^n|no block^n|
no block that nothing rescues|def f; yield 1; end; f^n||no block (LocalJumpError)
a block is not that of the caller|def f; yield; end; def g; f; end; g { 1 }^n||no block (LocalJumpError)
block_given?|def f; block_given?; end; p f, f { 1 }^n|false^ntrue^n|
block_given? in a block|def g; yield; end; def f; g { p block_given? }; end; f; f { 1 }^n|false^ntrue^n|
block_given? of the program|p block_given?^n|false^n|
a method named block_given?|def block_given?; 5; end; p block_given?^n|5^n|
next in a block|def f; p yield; puts 2; end; f { next 1; puts 3 }^n|1^n2^n|
next without a value|def f; p yield; end; f { next }^n|nil^n|
next with several values|def f; p yield; end; f { next 1, 2 }^n|[1, 2]^n|
next by a condition|def f; i = 0; while i < 5; yield i; i += 1; end; end; f { ^px^p next if x % 2 == 0; print x }^n|13|
next in a loop in a block|def f; p yield; end; f { i = 0; while i < 3; i += 1; next; end; i }^n|3^n|
next through ensure|def f; p yield; end; f { begin; next 1; ensure; puts 2; end }^n|2^n1^n|
next out of a clause|def f; p yield; end; f { begin; raise \"a\"; rescue; next 4; end }^n|4^n|
next in an argument|def f; p yield; end; f { puts 1, (next 2) }^n|2^n|
next in a block in a block|def f; yield; end; f { f { next 1 }; puts 2 }^n|2^n|
break out of a block|def f; yield; puts 1; end; p(f { break 2 })^n|2^n|
break without a value|def f; yield; 1; end; p(f { break })^n|nil^n|
break with several values|def f; yield; end; p(f { break 1, 2 })^n|[1, 2]^n|
break through a loop of the method|def f; i = 0; while true; yield i; i += 1; end; end; p(f { ^px^p break x if x == 4 })^n|4^n|
break in a loop in a block|def f; p yield; end; f { while true; break 3; end }^n|3^n|
break through ensure of the method|def f; yield; ensure; puts 1; end; p(f { break 2 })^n|1^n2^n|
break through clauses of the method|def f; begin; yield; rescue Exception; puts 9; end; end; p(f { break 2 })^n|2^n|
break through ensure of the block|def f; yield; end; p(f { begin; break 2; ensure; puts 1; end })^n|1^n2^n|
break in a clause|def f; yield; end; p(f { begin; raise \"a\"; rescue; break 3; end })^n|3^n|
break in ensure|def f; yield; end; p(f { begin; raise \"a\"; ensure; break 3; end })^n|3^n|
break in an argument|def f; [1, yield, 3]; end; p [0, f { break 2 }]^n|[0, 2]^n|
break out of a block in a block|def f; yield; end; p(f { f { break 1 }; 2 })^n|2^n|
break through methods in one another|def f; yield; puts 8; end; def g; f { yield }; puts 9; end; p(g { break 5 })^n|5^n|
break through an exception that is being rescued|def f; begin; raise \"a\"; rescue; yield; end; end; f { break }; begin; raise \"b\"; rescue => e; p e.cause; end^n|nil^n|
return out of a block|def f; yield; puts 1; end; def g; f { return 2 }; puts 3; end; p g^n|2^n|
return without a value out of a block|def f; yield; end; def g; f { return }; 1; end; p g^n|nil^n|
return with several values out of a block|def f; yield; end; def g; f { return 1, 2 }; end; p g^n|[1, 2]^n|
return through blocks in one another|def f; yield; puts 8; end; def g; f { f { f { return 6 } } }; puts 9; end; p g^n|6^n|
return through a block that yields|def f; yield; puts 7; end; def g; f { yield }; puts 8; end; def h; g { return 4 }; puts 9; end; p h^n|4^n|
return through ensure parts|def f; yield; ensure; puts 1; end; def g; begin; f { begin; return 3; ensure; puts 0; end }; ensure; puts 2; end; end; p g^n|0^n1^n2^n3^n|
return in ensure of a method that yields|def f; yield; ensure; return 1; end; def g; f { return 2 }; 3; end; p g^n|3^n|
return through clauses of the method|def f; begin; yield; rescue Exception; puts 9; end; end; def g; f { return 2 }; end; p g^n|2^n|
return through a loop|def f; while true; yield; end; end; def g; i = 0; f { i += 1; return i if i == 5 }; end; p g^n|5^n|
return in a loop in a block|def f; yield; end; def g; f { while true; return 5; end }; end; p g^n|5^n|
return of the right call|def f; yield; end; def g(n); f { return n } if n == 0; g(n - 1); n * 10; end; p g(2)^n|20^n|
return in a block of the program|def f; yield; end; begin; f { return }; rescue LocalJumpError => e; puts e.message; end; puts 1^n|jump^n1^n|
return in a block of the program that nothing rescues|def f; yield; end; puts 1; f { return 2 }; puts 3^n|1^n|jump (LocalJumpError)
return in a block of the program is rescued in it|def f; yield; end; f { begin; return; rescue LocalJumpError; puts 5; end }^n|5^n|
return of a method that a block of the program calls|def f; yield; end; def g; return 5; end; f { p g }^n|5^n|
an exception out of a block|def f; yield; end; begin; f { raise \"a\" }; rescue => e; puts e.message; end^n|a^n|
an exception out of a block that the method rescues|def f; yield; rescue => e; puts e.message; 2; end; p(f { raise \"a\" })^n|a^n2^n|
an exception out of a block through ensure|def f; yield; ensure; puts 1; end; begin; f { raise \"a\" }; rescue => e; puts e.message; end^n|1^na^n|
an exception that a block rescues|def f; p yield; end; f { begin; 1 / 0; rescue; 3; end }^n|3^n|
clauses of a block|def f; p yield; end^nf do^nraise \"a\"^nrescue^n4^nensure^nputs 5^nend^n|5^n4^n|
variables after an exception out of a block|def f; y = 1; yield; end; x = 1; begin; f { x = 2; raise \"a\" }; rescue; p x; end^n|2^n|
blocks in one another to the limit|def f; yield; end; def g; f { g }; end; begin; g; rescue SystemStackError => e; puts e.message; end^n|stack level too deep^n|
values that were held are dropped by break|def f; yield; end; p [1, (f { [2, [3, (break 4)]] }), 5]^n|[1, 4, 5]^n|
a call with a block of a method that is missing|begin; g { 1 }; rescue NoMethodError => e; puts e.message; end^n|undefined method 'g' for an instance of Object^n|
arguments before a method is missing|begin; g(puts(1)) { 2 }; rescue NoMethodError => e; puts e.message; end^n|1^nundefined method 'g' for an instance of Object^n|
a call with a block that a receiver lacks|[[1], nil, Integer, 5].each { ^pv^p begin; v.g(2) do 3 end; rescue NoMethodError => e; puts e.message; end }^n|undefined method 'g' for an instance of Array^nundefined method 'g' for nil^nundefined method 'g' for class Integer^nundefined method 'g' for an instance of Integer^n|
an iteration that self lacks|begin; each { 1 }; rescue NoMethodError => e; puts e.message; end^n|undefined method 'each' for an instance of Object^n|
a block for a built-in method of self|begin; freeze { 1 }; rescue RuntimeError => e; puts e.message; end; begin; puts(1) { 2 }; rescue RuntimeError => e; puts e.message; end^n|not here yet^nnot here yet^n|
one array for two parameters|def f; yield [1, 2]; end; f { ^px, y^p p x, y }^n|1^n2^n|
a short array for two parameters|def f; yield [1]; yield []; end; f { ^px, y^p p x, y }^n|1^nnil^nnil^nnil^n|
a long array for two parameters|def f; yield [1, 2, 3]; end; f { ^px, y^p p x, y }^n|1^n2^n|
an array in an array for two parameters|def f; yield [[1, 2], \"a\"]; end; f { ^px, y^p p x, y }^n|[1, 2]^n\"a\"^n|
one array for one parameter stays|def f; yield [1, 2]; end; f { ^px^p p x }^n|[1, 2]^n|
no array for two parameters|def f; yield 1; yield nil; yield({a: 1}); end; f { ^px, y^p p x, y }^n|1^nnil^nnil^nnil^n{a: 1}^nnil^n|
a changed array for two parameters|def f(a); yield a; a; end; p(f([1, 2]) { ^px, y^p x = 5 })^n|[1, 2]^n|
each over pairs|[[1, 2], [3, 4]].each { ^px, y^p print x, y }^n|1234|
map over pairs|p [[1, 2], [3, 4], [5]].map { ^px, y^p [y, x] }^n|[[2, 1], [4, 3], [nil, 5]]^n|
select over pairs|p [[1, 2], [4, 3]].select { ^px, y^p x > y }^n|[[4, 3]]^n|
each_with_index over pairs|[[1, 2]].each_with_index { ^px, i, z^p p x, i, z }^n|[1, 2]^n0^nnil^n|
pairs to the limit of calls|def f; [[1, 2]].each { ^px, y^p f }; end; begin; f; rescue SystemStackError => e; puts e.message; end^n|stack level too deep^n|";

#[test]
fn blocks_are_called(rt: HostRuntime) -> Result<(), Fail> {
    check_rows(&rt, rt.alloc(), BLOCKS)
}

// A call of a block is a step of its own: there are the list of statements, the call with its block, the list of the method,
// `yield`, the block, its list, and the value in it.
#[test]
fn a_call_of_a_block_is_a_step(rt: HostRuntime) {
    check_steps(&rt, rt.alloc(), b"def f; yield; end\nf { 1 }\n", 7);
}
