//! What a command line does, with the file's bytes in memory.

ghost use Rattle.std.specs.Prelude.{◌≡◌, ◌+◌, ◌<◌, ◌^◌, ◌↔◌};
ghost use Rattle.rr_eval.specs.Counted.{failures, counted};
ghost use Rattle.ractor.specs.Endings.{Ends};

use crate::statuses::status_of;
use crate::tell::tell;
use crate::words::Line;
use rr_eval::{Counted, run_source_leaving_objects};
use std::alloc::Global;
use std::io::Write;

/// Does what `line` asks for on the `bytes` of its file. What the script prints goes to `output`, one line about what went
/// wrong to `errors`, and the exit status is answered:
///
/// - 0: done
/// - 1: an exception that nobody rescued; the line is `MESSAGE (CLASS)`
/// - 3: the script was refused: `ractor: syntax error, line L, column C: KIND`, or `ractor: limit NAME`
/// - 4: the output could not be written: `ractor: file`
/// - 5: the run stopped for want of memory or of slots: `ractor: memory`, `ractor: limit slots`
/// - 6: the steps are spent: `ractor: step limit`
///
/// An error line that cannot be written changes no status. No command makes a trace so far, so `_trace` stays as it is.
pub fn execute<O: Write + Send, E: Write>(
    alloc: Global,
    line: &Line<'_>,
    bytes: &[u8],
    output: &mut Counted<O>,
    errors: &mut Counted<E>,
    _trace: &mut Vec<u8>,
) -> u8
    requires output_room { failures output.old + 1 < 2 ^ 64 }
    requires errors_room { failures errors.old + 1 < 2 ^ 64 }
    ensures ends { Ends (record { output = counted O.contents output.old; errors = counted E.contents errors.old }) (record { output = counted O.contents output.new; errors = counted E.contents errors.new }) bytes.now result }
    ensures failed { (result ≡ 4) ↔ (failures output.new ≡ failures output.old + 1) }
    ensures trace { _trace.new.items ≡ _trace.old.items }
{
    match line {
        Line::Run { .. } => run_file(alloc, bytes, output, errors),
    }
}

fn run_file<O: Write + Send, E: Write>(
    alloc: Global,
    bytes: &[u8],
    output: &mut Counted<O>,
    errors: &mut Counted<E>,
) -> u8
    requires output_room { failures output.old + 1 < 2 ^ 64 }
    requires errors_room { failures errors.old + 1 < 2 ^ 64 }
    ensures ends { Ends (record { output = counted O.contents output.old; errors = counted E.contents errors.old }) (record { output = counted O.contents output.new; errors = counted E.contents errors.new }) bytes.now result }
    ensures failed { (result ≡ 4) ↔ (failures output.new ≡ failures output.old + 1) }
{
    let ended = run_source_leaving_objects(alloc, bytes, output);
    let _whole = tell(errors, &ended);
    status_of(&ended)
}
