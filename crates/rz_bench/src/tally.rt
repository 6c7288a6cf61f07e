//! Counts of calls, and an order that goes through all of them far from each other.

ghost use Rattle.std.specs.Prelude.{◌≡◌, ◌+◌, ◌-◌, ◌*◌, ◌%◌, ◌^◌, ◌<◌, ◌≤◌, if◌then◌else◌, min};

/// A step without a common divisor with any smaller count, since it is a prime.
const STEP: u64 = 2_654_435_761;

/// How many calls were made, and how many of them answered as expected.
#[derive(Clone, Copy, Drop)]
pub struct Tally {
    pub calls: u64,
    pub expected: u64,
    ghost within: { expected ≤ calls },
}

impl Tally {
    /// No calls.
    pub fn none() -> Tally
        ensures calls { result.calls ≡ 0 }
        ensures expected { result.expected ≡ 0 }
    {
        Tally {
            calls: 0,
            expected: 0,
        }
    }

    /// One call.
    pub fn of(as_expected: bool) -> Tally
        ensures calls { result.calls ≡ 1 }
        ensures expected { result.expected ≡ (if as_expected then 1 else 0) }
    {
        let expected = if as_expected { 1 } else { 0 };
        Tally { calls: 1, expected }
    }

    /// Counts a call. The counts stay at the last u64.
    pub fn note(&mut self, as_expected: bool)
        ensures calls { self.new.calls ≡ min (self.old.calls + 1) (2 ^ 64 - 1) }
        ensures expected { self.new.expected ≡ (if as_expected then min (self.old.expected + 1) (2 ^ 64 - 1) else self.old.expected) }
    {
        let expected = if as_expected {
            self.expected.saturating_add(1)
        } else {
            self.expected
        };
        *self = Tally {
            calls: self.calls.saturating_add(1),
            expected,
        };
    }

    /// How many calls answered otherwise.
    pub fn other(&self) -> u64
        ensures { result + self.now.expected ≡ self.now.calls }
    {
        self.calls - self.expected
    }
}

/// Which of `count` things a call goes to: `count` calls in a row go to all of them.
pub fn spread(call: u32, count: u32) -> u32
    requires { 1 ≤ count }
    ensures value { result ≡ call * 2654435761 % count }
    ensures within { result < count }
{
    (u64::from(call) * STEP % u64::from(count)) as u32
}
