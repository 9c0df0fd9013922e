//! Scripts with methods of their own, as a table.

use crate::endings::{check_steps, check_within};
use crate::table::check_rows;
use rr_base::Limits;
use std::alloc::{AllocError, Global};
use std::process::Abort;
use std::test::Fail;

/// As `RUN` of the rows: what it shows, the script, what it prints, and what is told of the exception that ends it.
const METHODS: &str = "\
a method without parameters|def f; 1; end^nputs f, f()^n|1^n1^n|
a method with parameters|def add(a, b)^na + b^nend^nputs add(1, 2), (add 3, 4)^n|3^n7^n|
parameters without brackets|def add a, b^na - b^nend^nputs add(1, 2)^n|-1^n|
an empty body is nil|def f; end^np f^n|nil^n|
a definition behind its call|puts f^ndef f; 5; end^n|5^n|
the last definition counts|def f; 1; end^nputs f^ndef f; 2; end^n|2^n|
the first of two stays for other names|def f; 1; end^ndef g; 10; end^ndef f; 2; end^nputs f + g^n|12^n|
fib|def fib(n)^nif n < 2 then n else fib(n - 1) + fib(n - 2) end^nend^nputs fib(15)^n|610^n|
factorial|def fact(n)^nreturn 1 if n == 0^nn * fact(n - 1)^nend^nputs fact(20)^n|2432902008176640000^n|
methods that call one another|def even(n); n == 0 ? true : odd(n - 1); end^ndef odd(n); n == 0 ? false : even(n - 1); end^nputs even(10), odd(7), even(7)^n|true^ntrue^nfalse^n|
three calls in one another|def f(a); a + 1; end^nputs f(f(f(1)))^n|4^n|
arguments from left to right|def t(x); print x; x; end^ndef f(a, b, c); a * 100 + b * 10 + c; end^nputs f(t(1), t(2), t(3))^n|123123^n|
operands from left to right|def t(x); print x; x; end^nputs t(1) - t(2)^n|12-1^n|
the caller's variables stay|def f(a); b = a + 1; a = 7; b; end^na = 1; b = 2^nputs f(10), a, b^n|11^n1^n2^n|
a method does not see the caller's variables|a = 1^ndef f; a; end^nf^n||undefined local variable or method 'a' (NameError)
a variable of each call|def f(n)^nx = n^nf(n - 1) if n > 0^nx^nend^nputs f(3)^n|3^n|
a variable that was not set is nil|def f(c)^nif c; x = 1; end^np x^nend^nf(true); f(false); f(nil)^n|1^nnil^nnil^n|
a parameter with the name of a method|def f; 1; end^ndef g(f); f; end^nputs g(5), f^n|5^n1^n|
a variable with the name of a method|def f; 1; end^nf = 2^nputs f, f()^n|2^n1^n|
return alone is nil|def f; return; 1; end^np f^n|nil^n|
return with a value|def f(a); return a if a > 1; 0; end^nputs f(5), f(1)^n|5^n0^n|
return with several values|def f; return 1, 2; end^np f^n|[1, 2]^n|
return from a loop|def f(n)^ni = 0^nwhile true^nreturn i * 10 if i == n^ni = i + 1^nend^nend^nputs f(4)^n|40^n|
return from loops in one another|def f^ni = 0^nwhile i < 9^nj = 0^nwhile j < 9^nif i + j == 11^nif j > 4^nreturn i, j^nend^nend^nj = j + 1^nend^ni = i + 1^nend^nend^np f^n|[3, 8]^n|
return in an argument|def g(a, b); 1; end^ndef f; g(1, (return 2)); 3; end^nputs f^n|2^n|
return in an operand|def f; 1 + (return 5); end^nputs f^n|5^n|
return in what it gives|def f; return (return 6); end^nputs f^n|6^n|
return in an array|def f; [1, (return 2), puts(3)]; end^np f^n|2^n|
return ends one method|def f; return 1; end^ndef g; x = f; x + 1; end^nputs g^n|2^n|
return outside of methods ends the script|puts 1; return; puts 2^n|1^n|
return with a value outside of methods|puts 1^nif true; return 5; end^nputs 2^n|1^n|
return in a loop outside of methods|i = 0^nwhile true; puts i; i = i + 1; return if i == 2; end^n|0^n1^n|
an argument too many|def f(a); a; end^nf(1, 2)^n||wrong number of arguments (given 2, expected 1) (ArgumentError)
an argument too few|def f(a, b); a; end^nputs 1; f(1)^n|1^n|wrong number of arguments (given 1, expected 2) (ArgumentError)
no argument for one|def f(a); a; end^nf^n||wrong number of arguments (given 0, expected 1) (ArgumentError)
an argument for none|def f; 1; end^nf(1)^n||wrong number of arguments (given 1, expected 0) (ArgumentError)
arguments come before their count|def f(a); a; end^nf((puts 1), (puts 2))^n|1^n2^n|wrong number of arguments (given 2, expected 1) (ArgumentError)
an exception passes through methods|def f(a); 1 / a; end^ndef g(a); f(a); puts 9; end^nputs 0; g(0)^n|0^n|divided by 0 (ZeroDivisionError)
a method with the name of one that prints|def puts(a); print a, a; end^nputs 4^n|44|
a bare name with the name of one that prints|def p; print 7; end^np^n|7|
a command with another name|def f; 1; end^nputs 1; foo 2^n|1^n|undefined method 'foo' for an instance of Object (NoMethodError)
a method without an end|def f(n); f(n + 1); end^nf(0)^n||stack level too deep (SystemStackError)
a bare method without an end|def f; f; end^nf^n||stack level too deep (SystemStackError)
a method that changes an array|def f(a); a << 1; nil; end^nx = []; f(x); f(x); p x^n|[1, 1]^n|
values of every kind|def f(a); a; end^np f(1), f(nil), f(\"a\"), f(:b), f([1, [2]]), f(true), f(Integer)^n|1^nnil^n\"a\"^n:b^n[1, [2]]^ntrue^nInteger^n|
a call in a condition|def f(a); a > 2; end^ni = 0^nwhile !f(i); i = i + 1; end^nputs i^n|3^n|
a call of a built-in method in a method|def f(s); s.size + s[0].size; end^nputs f(\"abc\")^n|4^n|
operators and calls|def f(a); a * 2; end^nputs 1 + f(2) * f(3) - f(4)^n|17^n|
arguments in one another|def t(x); print x; x; end^ndef f(a, b); a + b; end^nputs f(f(t(1), t(2)), f(t(3), t(4)))^n|123410^n|
a definition between statements|puts f(1)^ndef f(a); g(a) + 1; end^nputs f(2)^ndef g(a); a * 10; end^nputs f(3)^n|11^n21^n31^n|
many variables|def f(a)^nb = a + 1; c = b + 1; d = c + 1; e = d + 1^na + b + c + d + e^nend^nputs f(1)^n|15^n|
a method that prints|def f(a); puts a; end^np f(1)^n|1^nnil^n|
a missing name in a method|def f; b; end^nputs 1; f^n|1^n|undefined local variable or method 'b' (NameError)
what decides is not called|def f(a); print a; a; end^np (f(false) && f(1)), (f(3) ^p^p f(2)), !f(4)^n|false34false^n3^nfalse^n|";

#[test]
fn methods_do_what_is_wanted(rt: HostRuntime) -> Result<(), Fail> {
    check_rows(&rt, rt.alloc(), METHODS)
}

// The method calls itself as many times as its argument says, beside the first call.
fn check_depth(rt: &impl Abort, alloc: Global, last: u32, ended: &str) -> Result<(), AllocError> {
    let script = format!(in alloc; "def f(n); n == 0 ? 0 : 1 + f(n - 1); end\nputs f({last})\n")?;
    let printed = format!(in alloc; "{last}\n")?;
    let wanted = if ended == "done" {
        printed.as_str()
    } else {
        ""
    };
    check_within(rt, alloc, Limits::DEFAULT, script.as_bytes(), wanted, ended);
    Ok(())
}

// A frame is one active call of a method. There may be 10,000.
#[test]
fn ten_thousand_calls_may_be_active(rt: HostRuntime) -> Result<(), Fail> {
    check_depth(&rt, rt.alloc(), 9_998, "done")?;
    check_depth(&rt, rt.alloc(), 9_999, "done")?;
    check_depth(&rt, rt.alloc(), 10_000, "raised")?;
    Ok(())
}

#[test]
fn as_many_calls_as_the_limit_says(rt: HostRuntime) {
    let script = b"def f(n); n == 0 ? 0 : f(n - 1); end\nf(2)\n";
    for (frames, ended) in [(0, "raised"), (2, "raised"), (3, "done")] {
        let limits = Limits {
            frames,
            ..Limits::DEFAULT
        };
        check_within(&rt, rt.alloc(), limits, script, "", ended);
    }
}

// The call, its argument, and the body with its one statement; the script and its statement.
#[test]
fn each_part_of_a_call_is_a_step(rt: HostRuntime) {
    check_steps(&rt, rt.alloc(), b"def f(a); a; end\nf(1)\n", 5);
}
