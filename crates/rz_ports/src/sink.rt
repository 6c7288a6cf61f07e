//! What bytes go to.
ghost use Rattle.std.specs.Prelude.{◌<◌, ◌≤◌, ◌⊎◌, ℕ, List, length, take, Option, IfOk, OnErr};
ghost use Rattle.std.specs.Io.KnownBytes.{Appends, Keeps};
ghost use Rattle.rz_ports.specs.Counts.{Rises};

use crate::Failed;

/// A stream of bytes that is written a piece at a time.
pub trait Sink: Drop {
    /// The bytes that were taken, where that is told.
    ghost taken: { Self → Option (List ℕ) };

    /// How many faults there were.
    ghost faults: { Self → ℕ };

    /// Takes bytes from the front of `bytes`, and gives their number. Where it takes none of a
    /// piece that is not empty, that is a fault, whether it gives 0 or [`Failed`]. A write that
    /// fails takes nothing.
    fn write(&mut self, bytes: &[u8]) -> Result<usize, Failed>
        ensures within { IfOk result (λ n. n ≤ length bytes.now) }
        ensures appended { IfOk result (λ n. Appends (taken self.old) (taken self.new) (take n bytes.now)) }
        ensures some { IfOk result (λ n. 0 < length bytes.now → (0 < n) ⊎ Rises (faults self.old) (faults self.new)) }
        ensures failed { OnErr result (Keeps (taken self.old) (taken self.new)) }
        ensures lasting { faults self.old ≤ faults self.new }
        ensures risen { OnErr result (Rises (faults self.old) (faults self.new)) };
}
