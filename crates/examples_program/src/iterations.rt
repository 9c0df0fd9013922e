//! Scripts with iterations, as a table.

use crate::endings::{check_steps, check_within, of_steps};
use crate::table::check_rows;
use std::test::Fail;

/// As `RUN` of the rows: what it shows, the script, what it prints, and what is told of the exception that ends it.
const ITERATIONS: &str = "\
times|3.times { ^pi^p puts i }^n|0^n1^n2^n|
times of none|0.times { puts 1 }; -2.times { puts 2 }; puts 3^n|3^n|
the value of times|p(3.times { 7 })^n|3^n|
times without a parameter|x = 0; 4.times { x += 2 }; p x^n|8^n|
times with two parameters|2.times { ^pi, j^p p i, j }^n|0^nnil^n1^nnil^n|
times in times|2.times { ^pi^p 2.times { ^pj^p print i, j } }^n|00011011|
times between do and end|2.times do ^pi^p^np i^nend^n|0^n1^n|
the receiver of times is evaluated once|def n; print 9; 2; end; n.times { print 1 }^n|911|
upto|1.upto(3) { ^pi^p print i }^n|123|
upto of one|3.upto(3) { ^pi^p print i }; 3.upto(2) { puts 9 }^n|3|
the value of upto|p(1.upto(3) { 7 })^n|1^n|
upto to the greatest integer|9223372036854775806.upto(9223372036854775807) { ^pi^p p i }^n|9223372036854775806^n9223372036854775807^n|
upto from the least integer|x = 0; -9223372036854775808.upto(9223372036854775807) { x += 1; break if x == 3 }; p x^n|3^n|
upto without an integer|1.upto(\"a\") { puts 1 }^n||wrong type String (TypeError)
upto without a bound|1.upto { puts 1 }^n||wrong number of arguments (given 0, expected 1) (ArgumentError)
times with an argument|1.times(2) { puts 1 }^n||wrong number of arguments (given 1, expected 0) (ArgumentError)
times of nil|nil.times { puts 1 }^n||undefined method 'times' for nil (NoMethodError)
times of a text|\"a\".times { puts 1 }^n||undefined method 'times' for an instance of String (NoMethodError)
a bound is evaluated before the turns|1.upto((print 0; 2)) { ^pi^p print i }^n|012|
next in times|3.times { ^pi^p next if i == 1; print i }^n|02|
next in the last turn|p(3.times { ^pi^p next 9 if i == 2 })^n|3^n|
next through ensure in times|2.times { ^pi^p begin; next; ensure; print i; end }^n|01|
break in times|p(5.times { ^pi^p break i * 10 if i == 2 })^n|20^n|
break without a value in times|p(5.times { break })^n|nil^n|
break with several values in times|p(5.times { ^pi^p break i, 1 })^n|[0, 1]^n|
break through ensure in times|p(5.times { ^pi^p begin; break i; ensure; puts 7; end })^n|7^n0^n|
break in times in times|p(2.times { ^pi^p p(2.times { ^pj^p break j + 5 }) })^n|5^n5^n2^n|
break in a loop in times|2.times { ^pi^p while true; break; end; print i }^n|01|
break in upto in a method|def f; 1.upto(9) { ^pi^p break if i == 3; print i }; 5; end; p f^n|125^n|
return out of times|def f; 5.times { ^pi^p return i if i == 3 }; 9; end; p f^n|3^n|
return out of times in times|def f; 5.times { ^pi^p 5.times { ^pj^p return i * 10 + j if i + j == 6 } }; end; p f^n|24^n|
return out of times in a block|def g; yield; puts 9; end; def f; g { 3.times { ^pi^p return i if i == 1 } }; end; p f^n|1^n|
return through ensure out of times|def f; 3.times { begin; return 1; ensure; print 2; end }; ensure; print 3; end; p f^n|231^n|
return in times of the program|1.times { return }^n||jump (LocalJumpError)
an exception out of times|begin; 3.times { ^pi^p raise \"a\" if i == 1; print i }; rescue => e; puts e.message; end^n|0a^n|
an exception that a turn rescues|3.times { ^pi^p begin; 1 / 0 if i == 1; print i; rescue; print 9; end }^n|092|
a StopIteration out of times|begin; 3.times { raise StopIteration, \"a\" }; rescue => e; puts e.message; end^n|a^n|
yield in times|def f; 3.times { ^pi^p yield i }; end; f { ^px^p print x }^n|012|
break of yield in times|def f; 3.times { ^pi^p yield i }; 9; end; p(f { ^px^p break x + 5 if x == 1 })^n|6^n|
next of yield in times|def f; 3.times { ^pi^p print(yield(i)) }; end; f { ^px^p next 7 if x == 1; x }^n|072|
times in a block of a method|def f; yield; yield; end; x = 0; f { 3.times { ^pi^p x += i } }; p x^n|6^n|
a variable of a turn goes with it|2.times { ^pi^p p y if i == 5; y = i; p y }^n|0^n1^n|
times sees variables outside|def f(a); b = 1; a.times { ^pi^p b *= 2 }; b; end; p f(5)^n|32^n|
times in an operator|p 1 + 3.times { } + 2^n|6^n|
times in an argument|p [1, 2.times { 5 }, 3]^n|[1, 2, 3]^n|
turns to the limit of calls|def f; 1.times { f }; end; begin; f; rescue SystemStackError => e; puts e.message; end^n|stack level too deep^n|
loop|i = 0; loop { i += 1; break if i == 3 }; p i^n|3^n|
loop between do and end|i = 0; loop do^ni += 1^nbreak if i == 3^nend^np i^n|3^n|
the value of loop|p loop { break 5 }, loop { break }^n|5^nnil^n|
loop takes a StopIteration|p loop { raise StopIteration, \"x\" }^n|nil^n|
loop takes what is below StopIteration|p loop { raise Ractor::ClosedError, \"x\" }^n|nil^n|
loop takes no other exception|begin; loop { raise IndexError, \"x\" }; rescue => e; puts e.message; end^n|x^n|
a StopIteration of a method that loop calls|def f; raise StopIteration; end; i = 0; loop { i += 1; f if i == 4 }; p i^n|4^n|
a StopIteration passes ensure in loop|loop { begin; raise StopIteration; ensure; puts 1; end }; puts 2^n|1^n2^n|
a StopIteration that is rescued in loop|i = 0; loop { begin; raise StopIteration; rescue StopIteration; i += 1; break if i == 2; end }; p i^n|2^n|
next in loop|i = 0; loop { i += 1; next if i < 3; break }; p i^n|3^n|
return out of loop|def f; i = 0; loop { i += 1; return i if i == 6 }; end; p f^n|6^n|
loop in loop|p loop { loop { raise StopIteration }; break 4 }^n|4^n|
loop in a method of its own name|def loop; yield; yield; end; loop { print 3 }^n|33|
cause behind a loop that was stopped|begin; loop { raise StopIteration }; raise \"a\"; rescue => e; p e.cause; end^n|nil^n|
a call with a block that is no iteration|5.abs { puts 1 }^n||not here yet (RuntimeError)";

/// The same of iterations over arrays.
const ELEMENTS: &str = "\
each|[1, 2].each { ^px^p puts x }^n|1^n2^n|
each of none|[].each { puts 1 }; puts 2^n|2^n|
the value of each|a = [1]; p(a.each { 7 }.equal?(a))^n|true^n|
an array that grows is visited further|x = [3]; x.each { ^pv^p x << v + 1 if v < 6 }; p x^n|[3, 4, 5, 6]^n|
an array that shrinks is visited less|x = [1, 2, 3, 4]; x.each { ^pv^p x.pop; print v }; p x^n|12[1, 2]^n|
elements are read as they are then|x = [1, 2, 3]; x.each { ^pv^p x[2] = 9; print v }^n|129|
the front is taken in each|x = [1, 2, 3]; x.each { ^pv^p x.shift; print v }; p x^n|13[3]^n|
each without a parameter|n = 0; [5, 6].each { n += 1 }; p n^n|2^n|
each in each|[1, 2].each { ^px^p [3, 4].each { ^py^p print x * y, 9 } }^n|39496989|
each over nil and false|[nil, false].each { ^px^p p x }^n|nil^nfalse^n|
each over texts|[\"a\", \"b\"].each { ^pt^p t << \"c\"; print t }^n|acbc|
each over arrays|[[1], [2, 3]].each { ^px^p p x }^n|[1]^n[2, 3]^n|
each_with_index|[4, 5].each_with_index { ^px, i^p p x, i }^n|4^n0^n5^n1^n|
each_with_index with one parameter|[4].each_with_index { ^px^p p x }^n|4^n|
the value of each_with_index|p [4].each_with_index { 9 }^n|[4]^n|
each_with_index over arrays|[[1, 2]].each_with_index { ^px, i^p p x, i }^n|[1, 2]^n0^n|
map|p [1, 2, 3].map { ^px^p x * x }^n|[1, 4, 9]^n|
map of none|p [].map { 1 }^n|[]^n|
map gives a new array|a = [1]; b = a.map { ^px^p x }; b << 2; p a, b^n|[1]^n[1, 2]^n|
map in map|p [1, 2].map { ^px^p [3, 4].map { ^py^p x + y } }^n|[[4, 5], [5, 6]]^n|
map over an array that grows|x = [1]; p x.map { ^pv^p x << 2 if v == 1; v }^n|[1, 2]^n|
next in map|p [1, 2, 3].map { ^px^p next 0 if x == 2; x }^n|[1, 0, 3]^n|
next without a value in map|p [1, 2].map { next }^n|[nil, nil]^n|
next in the last turn of map|p [1].map { next 5 }^n|[5]^n|
break in map|p [1, 2, 3].map { ^px^p break x if x == 2; x }^n|2^n|
select|p [1, 2, 3, 4].select { ^px^p x % 2 == 0 }^n|[2, 4]^n|
select of none|p [1].select { false }, [].select { true }, [1].select { nil }^n|[]^n[]^n[]^n|
select reads the element again behind its turn|x = [1, 2]; p x.select { ^pv^p x[0] = 9; true }^n|[9, 2]^n|
select of an element that is gone|x = [1, 2]; p x.select { ^pv^p x.pop; x.pop; true }^n|[nil]^n|
next in select|p [1, 2, 3].select { ^px^p next false if x == 2; true }^n|[1, 3]^n|
break in select|p [1, 2, 3].select { ^px^p break x if x == 2; true }^n|2^n|
select in map|p [1, 2].map { ^px^p [1, 2, 3].select { ^py^p y > x } }^n|[[2, 3], [3]]^n|
values that were held in map|p [1, [2, 3].map { ^px^p x + 1 }, 9]^n|[1, [3, 4], 9]^n|
values that were held in map are dropped by break|p [1, [2, 3].map { ^px^p break 7 if x == 3; x }, 9]^n|[1, 7, 9]^n|
values that were held in map are dropped by an exception|p [1, (begin; [2, 3].map { ^px^p raise \"a\" if x == 3; x }; rescue; 8; end), 9]^n|[1, 8, 9]^n|
values that were held in select are dropped by return|def f; [1, 2].select { ^px^p return 5 if x == 2; true }; end; p [1, f, 9]^n|[1, 5, 9]^n|
break in each|p([1, 2, 3].each { ^px^p break x if x == 2 })^n|2^n|
next in each|[1, 2, 3].each { ^px^p next if x == 2; print x }^n|13|
return out of each|def f; [1, 2, 3].each { ^px^p return x if x == 2 }; 9; end; p f^n|2^n|
return out of each in each|def f; [1, 2].each { ^px^p [3, 4].each { ^py^p return x * y if y == 4 } }; end; p f^n|4^n|
an exception out of each|begin; [1, 2].each { ^px^p raise \"a\" if x == 2; print x }; rescue => e; puts e.message; end^n|1a^n|
ensure in each|[1, 2].each { ^px^p begin; next if x == 1; print x; ensure; print 0; end }^n|020|
yield in each|def f(a); a.each { ^px^p yield x }; end; f([1, 2]) { ^px^p print x }^n|12|
yield in map|def f(a); a.map { ^px^p yield x }; end; p(f([1, 2]) { ^px^p x + 5 })^n|[6, 7]^n|
break of yield in each|def f(a); a.each { ^px^p yield x }; end; p(f([1, 2]) { ^px^p break x })^n|1^n|
each of a frozen array|[1].freeze.each { ^px^p p x }^n|1^n|
map of a frozen array|a = [1].freeze; p a.map { ^px^p x }.frozen?^n|false^n|
each of nil|nil.each { }^n||undefined method 'each' for nil (NoMethodError)
map of an integer|1.map { }^n||undefined method 'map' for an instance of Integer (NoMethodError)
each with an argument|[1].each(2) { }^n||wrong number of arguments (given 1, expected 0) (ArgumentError)";

#[test]
fn iterations_call_their_blocks(rt: HostRuntime) -> Result<(), Fail> {
    check_rows(&rt, rt.alloc(), ITERATIONS)
}

#[test]
fn iterations_visit_elements(rt: HostRuntime) -> Result<(), Fail> {
    check_rows(&rt, rt.alloc(), ELEMENTS)
}

// The list of statements, the call with its block, and the integer are evaluated once, and each turn has the call of the block, its
// list, and the value in it.
#[test]
fn a_turn_of_an_iteration_is_a_step(rt: HostRuntime) {
    check_steps(&rt, rt.alloc(), b"2.times { 1 }\n", 9);
}

#[test]
fn a_loop_without_an_end_spends_its_steps(rt: HostRuntime) {
    let script = b"puts 1\nloop { }\nputs 2\n";
    check_within(
        &rt,
        rt.alloc(),
        of_steps(1_000),
        script,
        "1\n",
        "out of steps",
    );
}
