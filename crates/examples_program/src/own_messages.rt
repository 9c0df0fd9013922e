//! Exceptions whose classes have a `message` or a `to_s` of the program, as a table of scripts.

use crate::table::check_rows;
use std::test::Fail;

/// As `RUN` of the rows: what it shows, the script, what it prints, and what is told of the exception that ends it.
const MESSAGES: &str = "\
the program's message is called|class E < StandardError; def message; \"mine\"; end; end; begin; raise E, \"t\"; rescue => e; puts e.message; end^n|mine^n|
it may call the one above|class E < StandardError; def message; super + \"!\"; end; end; begin; raise E, \"t\"; rescue => e; puts e.message; end; begin; raise E; rescue => e; puts e.message; end^n|t!^nE!^n|
what is printed does not ask it|class E < StandardError; def message; \"mine\"; end; end; begin; raise E, \"t\"; rescue => e; puts e, e.to_s, \"#{e}\"; p e; end^n|t^nt^nt^n#<E: t>^n|
the program's to_s is printed|class E < StandardError; def to_s; \"own\"; end; end; begin; raise E, \"t\"; rescue => e; puts e, e.to_s, \"<#{e}>\"; end^n|own^nown^n<own>^n|
no code runs at the end|class E < StandardError; def message; puts 1; \"mine\"; end; def to_s; puts 2; \"own\"; end; end; raise E, \"t\"^n||t (E)
nor for a class without a text|class E < StandardError; def message; puts 1; \"mine\"; end; end; raise E^n||E (E)
an initialize that gives the message|class E < StandardError; def initialize(n); super(\"number #{n}\"); end; def message; \"<\" + super + \">\"; end; end; begin; raise E, 4; rescue => e; puts e.message, e.to_s; end; raise E, 5^n|<number 4>^nnumber 4^n|number 5 (E)
an attribute named message|class E < StandardError; attr_reader :message; def initialize(m); @message = m; end; end; begin; raise E, [1]; rescue => e; p e.message; puts e; end; raise E, 2^n|[1]^nE^n|E (E)";

#[test]
fn own_messages_are_called(rt: HostRuntime) -> Result<(), Fail> {
    check_rows(&rt, rt.alloc(), MESSAGES)
}
