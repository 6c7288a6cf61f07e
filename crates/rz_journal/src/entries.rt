//! The list of entries.

ghost use Rattle.std.specs.Prelude.{◌≡◌, ◌↔◌, ◌+◌, ◌-◌, ◌<◌, ◌≤◌, ℕ, List, [], ◌∷◌, length, IsTrue, IsErr, OnOk};
ghost use Rattle.rz_disk.specs.Meter.{Took, Lasts, Rises, HasPasses, faults};
ghost use Rattle.rz_journal.specs.Row.{row_bytes};
ghost use Rattle.rz_journal.specs.Stands.{IsHalfOpen, Either, Becomes, with_last, instead};

use crate::changing::{add, replace};
use crate::shape::{HALF_BYTES, half_at};
use rz_disk::{Disk, Failed};

/// A disk with a list of entries.
#[derive(Drop)]
pub struct Entries<D: Disk> {
    pub(crate) disk: D,
    /// The half that counts.
    pub(crate) half: u8,
    /// How many bytes of it the entries take, with their gates and lengths.
    pub(crate) used: u64,
}

impl<D: Disk> Entries<D> {
    /// Whether an entry whose row has so many bytes, with the shut gate behind it, fits behind the others.
    pub fn has_room(&self, row: u64) -> bool
        requires { self.now.used < 8_388_576 }
        ensures { IsTrue result ↔ (self.now.used + row ≤ 8_388_576) }
    {
        row <= HALF_BYTES - self.used
    }

    /// Adds an entry behind the others. `row` is this entry alone, with a shut gate behind it.
    pub fn append(&mut self, row: &[u8]) -> Result<(), Failed>
        requires open { IsHalfOpen D.tells (D.text self.old.disk) (D.image self.old.disk) self.old.half self.old.used }
        requires some { 1 ≤ length row.now }
        requires room { self.old.used + length row.now ≤ 8_388_576 }

        // On every exit each image stands for the entries from before, or for these and the new one.
        ensures crash { IsTrue D.tells → (entry : List ℕ) → row.now ≡ row_bytes (entry ∷ [])
            → Either (with_last entry) (D.text self.old.disk) (D.image self.new.disk) }

        // And then the text, which is the one image, stands for these and the new one.
        ensures done { OnOk result (IsTrue D.tells → (entry : List ℕ) → row.now ≡ row_bytes (entry ∷ [])
            → Becomes (with_last entry) (D.text self.old.disk) (D.text self.new.disk)) }
        ensures open { OnOk result ((entry : List ℕ) → row.now ≡ row_bytes (entry ∷ [])
            → IsHalfOpen D.tells (D.text self.new.disk) (D.image self.new.disk) self.new.half self.new.used) }
        ensures size { length (D.text self.new.disk) ≡ length (D.text self.old.disk) }
        ensures half { self.new.half ≡ self.old.half }
        ensures used { OnOk result (self.new.used + 1 ≡ self.old.used + length row.now) }
        ensures kept { IsErr result → self.new.used ≡ self.old.used }

        ensures took { Took 4 result (D.meter self.old.disk) (D.meter self.new.disk) }
        ensures meter { Lasts (D.meter self.old.disk) (D.meter self.new.disk) }
        ensures risen { IsErr result → Rises (faults (D.meter self.old.disk)) (faults (D.meter self.new.disk)) }
        ensures own_risen { IsErr result → HasPasses 4 (D.meter self.old.disk) → Rises (D.meter self.old.disk).own (D.meter self.new.disk).own }
    {
        let start = half_at(self.half);
        add(&mut self.disk, start + self.used, row)?;
        self.used += row.len() as u64 - 1;
        Ok(())
    }

    /// Puts other entries in the place of all. `row` is these entries, with a shut gate behind the last.
    pub fn compact(&mut self, row: &[u8]) -> Result<(), Failed>
        requires open { IsHalfOpen D.tells (D.text self.old.disk) (D.image self.old.disk) self.old.half self.old.used }
        requires some { 1 ≤ length row.now }
        requires room { length row.now ≤ 8_388_576 }

        // On every exit each image stands for the entries from before, or for the new ones.
        ensures crash { IsTrue D.tells → (new : List (List ℕ)) → row.now ≡ row_bytes new
            → Either (instead new) (D.text self.old.disk) (D.image self.new.disk) }

        // And then the text, which is the one image, stands for the new ones.
        ensures done { OnOk result (IsTrue D.tells → (new : List (List ℕ)) → row.now ≡ row_bytes new
            → Becomes (instead new) (D.text self.old.disk) (D.text self.new.disk)) }
        ensures open { OnOk result ((new : List (List ℕ)) → row.now ≡ row_bytes new
            → IsHalfOpen D.tells (D.text self.new.disk) (D.image self.new.disk) self.new.half self.new.used) }
        ensures size { length (D.text self.new.disk) ≡ length (D.text self.old.disk) }
        ensures half { OnOk result (self.new.half ≡ 1 - self.old.half) }
        ensures used { OnOk result (self.new.used + 1 ≡ length row.now) }

        ensures took { Took 4 result (D.meter self.old.disk) (D.meter self.new.disk) }
        ensures meter { Lasts (D.meter self.old.disk) (D.meter self.new.disk) }
        ensures risen { IsErr result → Rises (faults (D.meter self.old.disk)) (faults (D.meter self.new.disk)) }
        ensures own_risen { IsErr result → HasPasses 4 (D.meter self.old.disk) → Rises (D.meter self.old.disk).own (D.meter self.new.disk).own }
    {
        replace(&mut self.disk, self.half, row)?;
        self.half = 1 - self.half;
        self.used = row.len() as u64 - 1;
        Ok(())
    }

    /// The disk.
    pub fn into_disk(self) -> D
        ensures { result ≡ self.disk }
    {
        self.disk
    }
}
