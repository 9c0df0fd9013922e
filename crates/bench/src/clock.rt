//! Times of one of many.

use std::io;
use std::time::{Duration, Instant};

/// The nanoseconds of each, where `count` of them took this long; `count` is not 0.
pub fn per(taken: Duration, count: u32) -> u128 {
    taken.as_nanos() / u128::from(count.max(1))
}

/// A clock that is read at the end of each piece of work.
#[derive(Drop)]
pub struct Laps {
    begun: Instant,
}

impl Laps {
    pub fn begin(rt: &HostRuntime) -> io::Result<Laps> {
        let begun = Instant::now(rt)?;
        Ok(Laps { begun })
    }

    /// The nanoseconds of each of `count`, which took the time since the clock was read before.
    pub fn each(&mut self, rt: &HostRuntime, count: u32) -> io::Result<u128> {
        let now = Instant::now(rt)?;
        let taken = now.duration_since(self.begun);
        self.begun = now;
        Ok(per(taken, count))
    }
}
