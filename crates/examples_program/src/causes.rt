//! Scripts that raise an exception while another one is rescued, as a table.

use crate::table::check_rows;
use std::test::Fail;

/// As `RUN` of the rows: what it shows, the script, what it prints, and what is told of the exception that ends it.
const CAUSES: &str = "\
an exception that is raised while another one is rescued|e = RuntimeError.new(\"e\"); begin; begin; raise \"a\"; rescue; raise e; end; rescue => f; p f.equal?(e), f.cause; end; p e.cause^n|true^n#<RuntimeError: a>^n#<RuntimeError: a>^n|
an exception made in the clause|begin; begin; raise \"a\"; rescue; raise TypeError.new(\"b\"); end; rescue => f; p f, f.cause; end^n|#<TypeError: b>^n#<RuntimeError: a>^n|
the exception that is rescued|begin; begin; raise \"a\"; rescue => e; raise e; end; rescue => f; p f, f.cause; end^n|#<RuntimeError: a>^nnil^n|
one that has a cause|begin; begin; begin; raise \"a\"; rescue; raise \"b\"; end; rescue => e; begin; raise \"c\"; rescue; raise e; end; end; rescue => f; p f, f.cause, f.cause.cause; end^n|#<RuntimeError: b>^n#<RuntimeError: a>^nnil^n|
one that was raised before without a cause|e = RuntimeError.new(\"e\"); begin; raise e; rescue; end; p e.cause; begin; begin; raise \"a\"; rescue; raise e; end; rescue; end; p e.cause^n|nil^n#<RuntimeError: a>^n|
outside of clauses|e = RuntimeError.new(\"e\"); begin; raise e; rescue => f; p f.cause; end^n|nil^n|
behind a clause|e = RuntimeError.new(\"e\"); begin; raise \"a\"; rescue; end; begin; raise e; rescue => f; p f.cause; end^n|nil^n|
its own cause|e = RuntimeError.new(\"e\"); begin; begin; begin; raise e; rescue; raise \"a\"; end; rescue => f; p f.cause.equal?(e); raise e; end; rescue => g; p g.equal?(e), g.cause; end^n|true^ntrue^nnil^n|
a cause of its causes|e = RuntimeError.new(\"e\"); begin; begin; begin; begin; raise e; rescue; raise \"a\"; end; rescue; raise \"b\"; end; rescue; raise e; end; rescue => g; p g.equal?(e), g.cause; end^n|true^nnil^n|
a frozen exception|e = RuntimeError.new(\"e\").freeze; begin; begin; raise \"a\"; rescue; raise e; end; rescue => f; p f.equal?(e), f.cause; end^n|true^nnil^n|
one of the program's|class A < StandardError; def initialize(x); super(\"a#{x}\"); end; end; e = A.new(1); begin; begin; raise \"b\"; rescue; raise e; end; rescue => f; p f.message, f.cause; end^n|\"a1\"^n#<RuntimeError: b>^n|
a second cause is not set|e = RuntimeError.new(\"e\"); begin; raise \"a\"; rescue; begin; raise e; rescue; end; end; begin; raise \"b\"; rescue; begin; raise e; rescue; end; end; p e.cause^n|#<RuntimeError: a>^n|
in a method that a clause calls|def f(e); raise e; end; e = RuntimeError.new(\"e\"); begin; begin; 1 / 0; rescue; f(e); end; rescue => g; p g, g.cause; end^n|#<RuntimeError: e>^n#<ZeroDivisionError: divided by 0>^n|
in a block of a clause|e = RuntimeError.new(\"e\"); begin; begin; raise \"a\"; rescue; [1].each { raise e }; end; rescue => g; p g, g.cause; end^n|#<RuntimeError: e>^n#<RuntimeError: a>^n|
the inner one of two that are rescued|e = RuntimeError.new(\"e\"); begin; begin; raise \"a\"; rescue; begin; raise \"b\"; rescue; raise e; end; end; rescue => g; p g, g.cause, g.cause.cause; end^n|#<RuntimeError: e>^n#<RuntimeError: b>^n#<RuntimeError: a>^n|
a chain of causes of exceptions that were made before|a = RuntimeError.new(\"a\"); b = RuntimeError.new(\"b\"); c = RuntimeError.new(\"c\"); begin; begin; begin; raise a; rescue; raise b; end; rescue; raise c; end; rescue => e; p e, e.cause, e.cause.cause, e.cause.cause.cause; end^n|#<RuntimeError: c>^n#<RuntimeError: b>^n#<RuntimeError: a>^nnil^n|
with an ensure|e = RuntimeError.new(\"e\"); begin; begin; raise \"a\"; rescue; begin; raise e; ensure; p e.cause; end; end; rescue; end^n|#<RuntimeError: a>^n|
a copy keeps the cause|begin; begin; raise \"a\"; rescue; raise TypeError.new(\"b\"); end; rescue => f; p f.dup.cause; end^n|#<RuntimeError: a>^n|";

#[test]
fn an_exception_gets_its_cause(rt: HostRuntime) -> Result<(), Fail> {
    check_rows(&rt, rt.alloc(), CAUSES)
}
