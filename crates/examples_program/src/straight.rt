//! Loops whose statements assign to local variables, which need no frames, as a table of scripts.

use crate::table::check_rows;
use std::test::Fail;

/// As `RUN` of the rows: what it shows, the script, what it prints, and what is told of the exception that ends it.
const LOOPS: &str = "\
integers|i = 0; s = 0; while i < 10; s = s + i * 3 - i / 2; s = s % 1000; i = i + 1; end; p s, i; j = 9; until j <= i - 8; j = j - 1; s = j; end; p s, j^n|115^n10^n2^n2^n|
more rounds than a turn has steps|i = 0; s = 0; while i < 3000; s = s + i; i = i + 1; end; p s, i; while s > 0; s -= i; i += 1; end; p s, i^n|4498500^n3000^n-2403^n4243^n|
what clauses rescue|s = 0; i = 0; while i < 5; begin; s = s + i; rescue; s = 100; end; i = i + 1; end; p s, i; i = 0; while i < 3; begin; s = i; rescue; else; s = s * 2; end; i = i + 1; end; p s^n|10^n5^n4^n|
exceptions that are rescued in a round|i = 0; s = 7; n = 0; while i < 4; begin; s = 12 / i; rescue ZeroDivisionError => e; puts e.message; n = n + 1; end; i = i + 1; end; p s, n; t = \"a\"; i = 0; while i < 3; begin; t = t - i; rescue NoMethodError => e; t = i; end; i = i + 1; end; p t^n|divided by 0^n4^n1^n-3^n|
exceptions behind a loop|i = 3; x = 0; begin; while i > -1; x = 6 / i; i = i - 1; end; rescue => e; puts e.message; end; p x, i; a = nil; begin; while i < 5; i = i + 1; a = a + i; end; rescue NoMethodError => e; puts e.class; end; p a, i^n|divided by 0^n6^n0^nNoMethodError^nnil^n1^n|
an exception that nothing rescues|i = 2; while i >= 0; x = 6 / i; p x; i = i - 1; end^n|3^n6^n|divided by 0 (ZeroDivisionError)
the same in a round without frames|i = 2; x = 9; while i >= 0; x = 6 % i; i = i - 1; end^n||divided by 0 (ZeroDivisionError)
values that are no integers|a = 0; i = 0; b = \"x\"; while i < 3; a = b; b = b + b; i = i + 1; end; p a, b; c = [1]; i = 0; while i < 2; c = c + c; i = i + 1; end; p c; i = 0; while i < 2; d = nil; e = true; f = :g; h = String; i = i + 1; end; p d, e, f, h^n|\"xxxx\"^n\"xxxxxxxx\"^n[1, 1, 1, 1]^nnil^ntrue^n:g^nString^n|
values that become something else|a = 1; i = 0; while i < 4; a = i < 2; b = a == true; i = i + 1; end; p a, b; x = 3; y = \"z\"; i = 0; while i < 3; z = x; x = y; y = z; i = i + 1; end; p x, y, z^n|false^nfalse^n\"z\"^n3^n3^n|
conditions|a = true; i = 0; while a; i = i + 1; a = i < 4; end; p i, a; a = nil; until a; i = i + 1; a = i == 9; end; p i; while nil; i = 0; end; p i; x = while i < 0; i = 1; end; p x; x = until i > 20; i = i + 3; end; p x, i^n|4^nfalse^n9^n9^nnil^nnil^n21^n|
conditions that need a frame|def f(i); i < 3; end; i = 0; while f(i); i = i + 1; end; p i; a = [3]; while i < a[0] + 2; i = i + 1; end; p i; while i < 9 && i > 0; i = i + 1; end; p i^n|3^n5^n9^n|
loops in loops|i = 0; n = 0; while i < 3; j = 0; while j < 4; j = j + 1; n = n + 1; end; i = i + 1; end; p i, j, n; i = 0; while i < 3; i = i + 1; k = 0; while k < i; k = k + 1; end; n = n + k; end; p n^n|3^n4^n12^n18^n|
loops of methods and blocks|def f(n); i = 0; s = 0; while i < n; i = i + 1; s = s + i; end; s; end; p f(10), f(0), f(1); t = 0; 3.times { ^pk^p i = 0; while i < k; t = t + i + k; i = i + 1; end }; p t; def g; yield; end; u = 1; g { i = 0; while i < 5; u = u * 2; i = i + 1; end }; p u^n|55^n0^n1^n6^n32^n|
assignments with an operator|i = 0; s = 0; while i < 5; s += i * 2; s -= 1; i += 1; end; p s, i; x = \"a\"; i = 0; while i < 3; x += \"b\"; i += 1; end; p x; i = 0; n = nil; begin; while i < 3; i += 1; n += i; end; rescue NoMethodError => e; puts e.class; end; p i, n; t = 2; 2.times { i = 0; while i < 3; t *= 2; i += 1; end }; p t^n|15^n5^n\"abbb\"^nNoMethodError^n1^nnil^n128^n|
other statements beside them|i = 0; while true; i = i + 1; break if i > 3; end; p i; n = 0; while i > 0; i = i - 1; next if i == 2; n = n + i; end; p n; i = 0; while i < 2; i = i + 1; print i; end; puts; while i < 6; i = i + 1; if i == 4; n = 0; else; n = n + 1; end; end; p i, n^n|4^n4^n12^n6^n2^n|
variables that a round reads first|z = 5 if nil; i = 0; while i < 3; y = z; z = i; i = i + 1; end; p y, z; i = 0; while i < 0; q = 1; end; p q^n|1^n2^nnil^n|
operators of the program|class A; attr_reader :v; def initialize(v); @v = v; end; def +(o); A.new(@v * 2 + o); end; def <(o); @v < o; end; end; a = A.new(1); i = 0; while i < 3; a = a + i; i = i + 1; end; p a.v; while a < 50; a = a + 1; b = a; end; p b.v^n|12^n51^n|
choices|n = 27; c = 0; while n != 1; if n % 2 == 0; n = n / 2; else; n = n * 3 + 1; end; c += 1; end; p n, c; i = 0; s = 0; while i < 10; s += i if i % 3 == 0; s = s - 1 unless i < 5; i += 1; end; p s, i; i = 0; a = nil; while i < 3; if a; b = a + i; else; a = i; end; i = i + 1; end; p a, b^n|1^n111^n13^n10^n0^n2^n|
parts of choices that need a frame|i = 0; s = 0; while i < 4; if i == 2; puts i; else; s = s + 1; end; i = i + 1; end; p s; i = 0; x = 1; begin; while i < 4; x = x + 1 if i < 9; i = i + 1; x = nil if i == 2; end; rescue => e; p e.class; end; p i, x; i = 0; y = \"a\"; while i < 3; if y == \"aaaa\"; z = 1; else; y = y + y; end; i = i + 1; end; p y, z; i = 0; while i < 3; t = i if t; t = 5 if i == 1; i += 1; end; p t^n|2^n3^nNoMethodError^n2^nnil^n\"aaaa\"^n1^n2^n|
conditions of many operators|d = 2; n = 91; while d * d <= n; d = d + 1; end; p d; i = 0; while i * 2 + 1 < 20 - 3; i += 1; end; p i; until i - 1 * 2 <= 0; i -= 1; end; p i; m = 9223372036854775807; i = 0; begin; while i + m > 0; i += 1; end; rescue RangeError => e; puts e.class; end; p i^n|10^n8^n2^nRangeError^n1^n|";

#[test]
fn loops_without_frames_print_what_is_wanted(rt: HostRuntime) -> Result<(), Fail> {
    check_rows(&rt, rt.alloc(), LOOPS)
}
