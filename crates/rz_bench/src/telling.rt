//! The clock, and the lines that tell of calls.

use crate::tally::Tally;
use std::alloc::Global;
use std::io;
use std::rt::Clock;
use std::time::Instant;

/// Where lines go and memory comes from, and whether lines tell times.
#[derive(Drop)]
pub struct Teller<'a, R> {
    pub rt: &'a R,
    pub alloc: Global,
    pub times: bool,
}

impl<'a, R: Print + Clock + Drop> Teller<'a, R> {
    pub fn now(&self) -> io::Result<Instant> {
        Instant::now(self.rt)
    }

    /// How many nanoseconds went by since `start`.
    pub fn since(&self, start: Instant) -> io::Result<u128> {
        let time = start.elapsed(self.rt)?;
        Ok(time.as_nanos())
    }

    /// Tells of the calls of one kind that were made since `start`: how many gave the expected answer,
    /// how many another one, and how many microseconds a call took.
    pub fn tell(&self, name: &str, answer: &str, start: Instant, tally: Tally) -> io::Result<()> {
        let nanos = self.since(start)?;
        let expected = tally.expected;
        print!(self.rt; "{name} {expected} {answer}")?;
        let other = tally.other();
        if 0 < other {
            print!(self.rt; ", {other} other")?;
        }
        self.end(nanos / u128::from(tally.calls.max(1)))
    }

    /// Ends a line, with so many nanoseconds in microseconds where times are told.
    pub fn end(&self, nanos: u128) -> io::Result<()> {
        if self.times {
            let micros = nanos / 1000;
            let rest = nanos % 1000;
            print!(self.rt; ", {micros}.{rest:03} us")?;
        }
        println!(self.rt; "")
    }
}
