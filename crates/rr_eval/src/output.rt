//! Where the text of a script goes.

ghost use Rattle.std.specs.Prelude.{◌≡◌, ◌+◌, ◌<◌, ◌^◌};
ghost use Rattle.rr_eval.specs.Written.{written_to, Puts};

/// A writer that is asked for one write at a time and counts those that fail.
///
/// Only its `write_once` can raise that count. So code that knows an output by this trait alone answers that a write
/// failed only where one did.
pub trait Output {
    ghost use Rattle.std.specs.Prelude.{◌≡◌, ◌+◌, ◌<◌, ◌≤◌, ◌^◌, ◌==◌, if◌then◌else◌, ℕ, List, Option, length, take};
    ghost use Rattle.std.specs.Io.KnownBytes.{Appends};

    // The bytes that it holds, where they are known.
    ghost contents: { Self → Option (List ℕ) };

    // How many of its writes failed.
    ghost failures: { Self → ℕ };

    /// One write, and how many of the bytes it took. At 0 it failed, and is counted.
    fn write_once(&mut self, bytes: &[u8]) -> usize
        requires some { 0 < length bytes.now }
        requires room { failures self.old + 1 < 2 ^ 64 }
        ensures bound { result ≤ length bytes.now }
        ensures took { Appends (contents self.old) (contents self.new) (take result bytes.now) }
        ensures counted { failures self.new ≡ failures self.old + (if result == 0 then 1 else 0) };
}

/// Writes the whole piece, and answers whether it could. A write that fails ends the call.
pub fn put<O: Output>(output: &mut O, piece: &[u8]) -> bool
    requires { O.failures output.old + 1 < 2 ^ 64 }
    ensures { Puts (written_to O.contents O.failures output.old) (written_to O.contents O.failures output.new) piece.now result }
{
    let mut taken = 0;
    while taken < piece.len() {
        let count = output.write_once(&piece[taken..]);
        if count == 0 {
            return false;
        }
        taken += count;
    }
    true
}
