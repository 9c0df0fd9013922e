//! Scripts that rescue exceptions, as a table.

use crate::endings::{check_within, of_steps};
use crate::table::check_rows;
use std::test::Fail;

/// As `RUN` of the rows: what it shows, the script, what it prints, and what is told of the exception that ends it.
const RESCUING: &str = "\
a clause without classes|begin; raise \"a\"; rescue; puts 1; end; puts 2^n|1^n2^n|
a clause with a variable|begin; raise \"a\"; rescue => e; puts e.message, e.class; end^n|a^nRuntimeError^n|
the value of a clause|p (begin; raise \"a\"; rescue; 5; end)^n|5^n|
the value of what raised nothing|p (begin; 4; rescue; 5; end)^n|4^n|
an empty clause is nil|p (begin; raise \"a\"; rescue; end)^n|nil^n|
the value of else|p (begin; 4; rescue; 5; else; 6; end)^n|6^n|
an empty else is nil|p (begin; 4; rescue; 5; else; end)^n|nil^n|
else where something was raised|p (begin; raise \"a\"; rescue; 5; else; 6; end)^n|5^n|
an exception in else is not rescued|begin; begin; 1; rescue; puts 2; else; raise \"b\"; end; rescue => e; puts e.message; end^n|b^n|
a class that fits|begin; raise TypeError, \"t\"; rescue TypeError => e; puts e.message; end^n|t^n|
a class above|begin; nil.foo; rescue NameError => e; puts e.message; end^n|undefined method 'foo' for nil^n|
a class below does not fit|begin; raise NameError, \"n\"; rescue NoMethodError; puts 1; end^n||n (NameError)
the first clause that fits|begin; 1 / 0; rescue TypeError; puts 1; rescue ZeroDivisionError; puts 2; rescue; puts 3; end^n|2^n|
the last clause|begin; raise \"a\"; rescue TypeError; puts 1; rescue ZeroDivisionError; puts 2; rescue; puts 3; end^n|3^n|
no clause fits|begin; begin; raise \"a\"; rescue TypeError; puts 1; end; puts 2; rescue; puts 3; end^n|3^n|
several classes|i = 0^nwhile i < 4^nbegin; if i == 0 then 1 / 0 elsif i == 1 then nil + 1 elsif i == 2 then raise \"r\" end; print i; rescue ZeroDivisionError, NoMethodError => e; print e.class; rescue RuntimeError; print 9; end^ni += 1^nend^n|ZeroDivisionErrorNoMethodError93|
a clause without classes takes no SystemStackError|def f; f; end; begin; f; rescue => e; puts 1; rescue SystemStackError => e; puts e.message; end^n|stack level too deep^n|
a clause without classes takes no Exception|begin; raise Exception, \"e\"; rescue; puts 1; end^n||e (Exception)
Exception takes all|begin; raise Exception, \"e\"; rescue Exception => e; puts e.message; end^n|e^n|
a class that is missing|begin; raise \"a\"; rescue Foo; puts 1; end^n||uninitialized constant Foo (NameError)
a class behind one that fits is not evaluated|begin; raise \"a\"; rescue RuntimeError, Foo; puts 1; end^n|1^n|
a class in a clause that is not reached|begin; 1; rescue Foo; puts 1; end; puts 2^n|2^n|
exceptions of built-in methods|begin; 1 + \"a\"; rescue TypeError => e; puts e.message; end; begin; [1].first(2); rescue ArgumentError => e; puts e.message; end^n|wrong type String^nwrong number of arguments (given 1, expected 0)^n|
a name that is missing|begin; foo; rescue NameError => e; puts e.message; end^n|undefined local variable or method 'foo'^n|
statements behind what raised|begin; puts 1; raise \"a\"; puts 2; rescue; puts 3; end^n|1^n3^n|
an exception in an argument|begin; puts 1, (raise \"a\"); rescue; puts 2; end^n|2^n|
values that were held are dropped|p [1, (begin; [2, [3, raise(\"a\")]]; rescue; 4; end), 5]^n|[1, 4, 5]^n|
an exception out of a method|def f(a); 1 / a; end; begin; f(0); rescue => e; puts e.message; end^n|divided by 0^n|
an exception out of methods in one another|def f(a); raise \"d\" if a == 0; f(a - 1); end; x = 1; begin; y = 2; f(50); rescue => e; puts e.message, x, y; end^n|d^n1^n2^n|
clauses of a method|def f(a); 6 / a; rescue ZeroDivisionError; 0; end; puts f(2), f(0)^n|3^n0^n|
else of a method|def f(a); 6 / a; rescue; -1; else; 1; end; puts f(2), f(0)^n|1^n-1^n|
ensure of a method|def f(a); 6 / a; ensure; puts 9; end; puts f(2)^n|9^n3^n|
the value of ensure is dropped|p (begin; 1; ensure; 2; end)^n|1^n|
ensure behind an exception|begin; begin; raise \"a\"; ensure; puts 1; end; rescue => e; puts e.message; end^n|1^na^n|
ensure behind a clause|begin; raise \"a\"; rescue => e; puts e.message; ensure; puts \"z\"; end^n|a^nz^n|
ensure behind an exception in a clause|begin; begin; raise \"a\"; rescue; raise \"b\"; ensure; puts 1; end; rescue => e; puts e.message; end^n|1^nb^n|
ensure behind else|begin; 1; rescue; 2; else; puts 3; ensure; puts 4; end^n|3^n4^n|
ensure behind a return|def f; return 1; ensure; puts 2; end; puts f^n|2^n1^n|
ensure with a return|def f; begin; return 1; ensure; return 2; end; end; p f^n|2^n|
ensure with a return drops an exception|def f; raise \"a\"; ensure; return 3; end; p f^n|3^n|
ensure behind a break|p (while true; begin; break 1; ensure; puts 2; end; end)^n|2^n1^n|
ensure behind a next|i = 0; while i < 2; i += 1; begin; next; ensure; print i; end; end^n|12|
ensure with a break|p (while true; begin; raise \"a\"; ensure; break 4; end; end)^n|4^n|
ensure with a next|i = 0; while i < 2; i += 1; begin; raise \"a\"; ensure; next; end; end; p i^n|2^n|
ensure with an exception|begin; begin; raise \"a\"; ensure; raise \"b\"; end; rescue => e; p e.message, e.cause; end^n|\"b\"^nnil^n|
ensure at the end of a script|begin; puts 1; raise \"a\"; ensure; puts 2; end^n|1^n2^n|a (RuntimeError)
ensure behind a return out of a script|begin; return; ensure; puts 2; end; puts 3^n|2^n|
ensures in one another|def f; begin; begin; return 1; ensure; print 2; end; ensure; print 3; end; ensure; print 4; end; print f^n|2341|
a chain of ensures left by a return|def f(n); begin; return n if n == 0; return f(n - 1); ensure; print n; end; end; f(5)^n|012345|
break out of a clause|p (while true; begin; raise \"a\"; rescue; break 3; end; end)^n|3^n|
return out of a clause|def f; raise \"a\"; rescue; return 3; end; p f^n|3^n|
next out of a clause|i = 0; while i < 3; i += 1; begin; raise \"a\"; rescue; next; end; puts 9; end; p i^n|3^n|
raise again|begin; begin; raise \"a\"; rescue; raise; end; rescue => e; puts e.message; p e.cause; end^n|a^nnil^n|
raise again in a method|def f; raise; end; begin; begin; raise \"a\"; rescue; f; end; rescue => e; puts e.message; end^n|a^n|
raise behind a clause|begin; raise \"a\"; rescue; end; begin; raise; rescue => e; puts e.message; end^n|unhandled exception^n|
raise in a clause of a clause|begin; raise \"a\"; rescue; begin; raise \"b\"; rescue; end; begin; raise; rescue => e; puts e.message; end; end^n|a^n|
raise the exception of a clause|begin; begin; raise \"a\"; rescue => e; raise e; end; rescue => f; puts f.message, f.equal?(e); p f.cause; end^n|a^ntrue^nnil^n|
the cause of an exception|begin; begin; raise \"a\"; rescue; raise TypeError, \"b\"; end; rescue => e; puts e.message, e.cause.message; end^n|b^na^n|
the cause of an exception of a built-in method|begin; begin; raise \"a\"; rescue; 1 / 0; end; rescue => e; p e.message, e.cause; end^n|\"divided by 0\"^n#<RuntimeError: a>^n|
causes of causes|begin; begin; begin; raise \"a\"; rescue; raise \"b\"; end; rescue; raise \"c\"; end; rescue => e; p e.cause.cause, e.cause.cause.cause; end^n|#<RuntimeError: a>^nnil^n|
no cause behind a clause|begin; begin; raise \"a\"; rescue; 1; end; raise \"b\"; rescue => e; p e.cause; end^n|nil^n|
no cause behind a break out of a clause|while true; begin; raise \"a\"; rescue; break; end; end; begin; raise \"b\"; rescue => e; p e.cause; end^n|nil^n|
no cause behind a return out of a clause|def f; raise \"a\"; rescue; return 1; end; f; begin; raise \"b\"; rescue => e; p e.cause; end^n|nil^n|
the variable of a clause stays|begin; raise \"a\"; rescue => e; end; puts e.message^n|a^n|
the variable of a clause that is not reached|begin; 1; rescue => e; end; p e^n|nil^n|
rescue in a loop|i = 0; n = 0; while i < 3; begin; raise \"a\" if i == 1; n += 1; rescue; n += 10; ensure; i += 1; end; end; p n^n|12^n|
a retry by a loop|i = 0; while true; begin; i += 1; raise \"a\" if i < 4; break; rescue; next; end; end; p i^n|4^n|
an exception in a condition|begin; if (raise \"a\") then 1 end; rescue; puts 2; end; begin; while (raise \"b\"); end; rescue; puts 3; end^n|2^n3^n|
raise in a clause with a wrong value|begin; begin; raise \"a\"; rescue; raise 5; end; rescue TypeError => e; puts e.message; p e.cause; end^n|exception class/object expected^n#<RuntimeError: a>^n|
what is not evaluated yet is rescued|begin; Ractor[:a]; rescue => e; puts e.message; end^n|not here yet^n|";

#[test]
fn exceptions_are_rescued(rt: HostRuntime) -> Result<(), Fail> {
    check_rows(&rt, rt.alloc(), RESCUING)
}

// No clause and no `ensure` sees the limit.
#[test]
fn the_step_limit_is_not_rescued(rt: HostRuntime) {
    let script = b"begin; while true; end; rescue Exception; puts 1; ensure; puts 2; end\n";
    check_within(&rt, rt.alloc(), of_steps(1_000), script, "", "out of steps");
}
