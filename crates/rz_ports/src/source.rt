//! What bytes come from.
ghost use Rattle.std.specs.Prelude.{◌≡◌, ◌<◌, ◌≤◌, ◌↔◌, [], ℕ, List, length, take, Option, IfOk, IfSome, OnErr};
ghost use Rattle.std.specs.Io.KnownBytes.{Consumes, Keeps};
ghost use Rattle.rz_ports.specs.Counts.{Rises};

use crate::Failed;

/// A stream of bytes that is read a piece at a time.
pub trait Source: Drop {
    /// The bytes that are left to be read, where that is told.
    ghost left: { Self → Option (List ℕ) };

    /// How many faults there were.
    ghost faults: { Self → ℕ };

    /// Moves bytes from the front of what is left to the front of `out`, and gives their number.
    /// It gives 0 exactly at the end, or where `out` is empty. A read that fails moves nothing.
    /// What `out` has behind the bytes that were moved, or after a failure, is left open.
    fn read(&mut self, out: &mut [u8]) -> Result<usize, Failed>
        ensures within { IfOk result (λ n. n ≤ length out.old) }
        ensures moved { IfOk result (λ n. Consumes (left self.old) (left self.new) (take n out.new)) }
        ensures ended { IfOk result (λ n. IfSome (left self.old) (λ bytes. 0 < length out.old → (n ≡ 0 ↔ bytes ≡ []))) }
        ensures failed { OnErr result (Keeps (left self.old) (left self.new)) }
        ensures lasting { faults self.old ≤ faults self.new }
        ensures risen { OnErr result (Rises (faults self.old) (faults self.new)) };
}
