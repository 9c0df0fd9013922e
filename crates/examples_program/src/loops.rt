//! Scripts with loops that are left, as a table.

use crate::endings::{check_steps, check_within, of_steps};
use crate::table::check_rows;
use std::test::Fail;

/// As `RUN` of the rows: what it shows, the script, what it prints, and what is told of the exception that ends it.
const LOOPS: &str = "\
break ends a loop|i = 0^nwhile true; i += 1; break if i == 3; end^np i^n|3^n|
break ends a loop until|i = 0^nuntil false; i += 1; break if i == 3; end^np i^n|3^n|
the value of a break|p (while true; break 5; end)^n|5^n|
break alone is nil|p (while true; break; end)^n|nil^n|
break with several values|p (while true; break 1, 2; end)^n|[1, 2]^n|
a loop without break is nil|i = 0^np (until i == 2; i += 1; end)^n|nil^n|
next begins the next turn|i = 0^nwhile i < 4^ni += 1^nnext if i == 2^nprint i^nend^n|134|
next asks the condition again|i = 0^nuntil (print i; i == 2); i += 1; next; puts 9; end^n|012|
the value of a next is dropped|i = 0^np (while i < 2; i += 1; next 7; end)^n|nil^n|
next with several values|i = 0^np (while i < 2; i += 1; next i, (print i); end)^n|12nil^n|
break in the condition|i = 0^np (while (break i if i == 3; true); i += 1; end)^n|3^n|
next in the condition|i = 0^nwhile (i += 1; next if i < 3; i < 5); print i; end^n|34|
break ends the inner loop|i = 0^nwhile i < 2^ni += 1^nj = 0^nwhile true^nj += 1^nbreak if j == i^nend^nprint i, j^nend^n|1122|
next in the inner loop|i = 0^nwhile i < 2^ni += 1^nj = 0^nwhile j < 3^nj += 1^nnext if j == 2^nprint i, j^nend^nend^n|11132123|
break in the condition of the inner loop|i = 0^nwhile i < 3; i += 1; while (break if i == 2; false); end; print i; end^n|123|
a loop in the condition of a loop|i = 0^nwhile (while true; break i < 3; end); print i; i += 1; end^n|012|
a loop as an argument|p 1, (while true; break 2; end), 3^n|1^n2^n3^n|
break in an argument|def f(a, b); 9; end^np (while true; f(1, (break 2)); end)^n|2^n|
break in an argument of a built-in method|a = [1]^np (while true; a.push(3).push((break 2)); end), a^n|2^n[1, 3]^n|
break in an operand|p (while true; 1 + (break 3); end)^n|3^n|
break in a left operand|p (while true; (break 3) + puts(1); end)^n|3^n|
break in an array|p (while true; [1, (break 2), puts(3)]; end)^n|2^n|
break in arrays in one another|p [4, (while true; [1, [2, (break 5)]]; end)]^n|[4, 5]^n|
break in a hash|p (while true; {a: (print 1), b: (break 5), c: puts(3)}; end)^n|15^n|
break in a key of a hash|p (while true; {(break 6) => puts(3)}; end)^n|6^n|
break in a text|p (while true; \"a#{break 4}b\"; end)^n|4^n|
break in what decides|p (while true; (break 1) && puts(2); end), (while true; nil ^p^p (break 3); end), (while true; !(break 4); end)^n|1^n3^n4^n|
break in a condition|p (while true; if (break 8) then puts 1 else puts 2 end; end)^n|8^n|
break in what it gives|p (while true; break (break 6); end)^n|6^n|
next in what a break gives|i = 0^np (while i < 3; i += 1; break (next); end), i^n|nil^n3^n|
break in a return|def f; while true; return (break); end; 2; end^np f^n|2^n|
return in a break|def f; while true; break (return 1); end; 2; end^np f^n|1^n|
break leaves a variable as it is|a = 1^nwhile true; a = (break 2); end^nwhile true; a += (break 3); end^np a^n|1^n|
break leaves an element as it is|a = [1, 2]^nwhile true; a[0] = (break); end^nwhile true; a[(break)] = puts(1); end^np a^n|[1, 2]^n|
a method in a loop|def f(n); while true; break n if n > 1; n += 1; end; end^ni = 0^nwhile i < 2; i += 1; print f(i), f(i + 5); next; end^n|2627|
a method called from a loop that goes on|def f; while true; break 1; end; 2; end^np f^n|2^n|
an exception in a loop|i = 0^nwhile true; i += 1; next if i < 3; puts 1 / 0; end^n||divided by 0 (ZeroDivisionError)
an exception in what a break gives|p (while true; break 1 / 0; end)^n||divided by 0 (ZeroDivisionError)
break out of three loops|i = 0^nwhile true^nwhile true^nwhile true; i += 1; break; end^nbreak if i > 2^nend^nbreak^nend^np i^n|3^n|
statements behind a break|while true; puts 1; break; puts 2; end; puts 3^n|1^n3^n|";

#[test]
fn loops_are_left(rt: HostRuntime) -> Result<(), Fail> {
    check_rows(&rt, rt.alloc(), LOOPS)
}

// The script, the loop, its condition, its statements, `break`, and its nil.
#[test]
fn a_break_and_its_value_are_steps(rt: HostRuntime) {
    check_steps(&rt, rt.alloc(), b"while true; break; end\n", 6);
}

// Each turn spends steps, so that a loop whose condition is always left ends at the limit.
#[test]
fn a_condition_that_is_left_spends_steps(rt: HostRuntime) {
    let script = b"while (next); end\n";
    check_within(&rt, rt.alloc(), of_steps(1_000), script, "", "out of steps");
}
