//! Opening.
ghost use Rattle.std.specs.Prelude.{◌≡◌, ◌⊎◌, ℕ, length, IsTrue, IsErrOf, OnOk, OnErr, IfOk, IfErr, MatchResult};
ghost use Rattle.rz_disk.specs.Images.{Within};
ghost use Rattle.rz_cells_slots.specs.Counted.{CountedWhere};
ghost use Rattle.rz_cells_slots.specs.Held.{Records};
ghost use Rattle.rz_cells_slots.specs.Shape.{IsGeometry, disk_bytes};
ghost use Rattle.rz_cells_slots.specs.Stands.{StandsFor};
ghost use Rattle.rz_cells_slots.specs.Open.{Finds};
ghost use Rattle.rz_cells_slots.specs.Opening.{NotSize, Refuses, opening_calls};
ghost use Rattle.rz_cells.specs.Open.{AreOpen};

use crate::{Cells, Geometry};
use rz_cells_slots::{CellsMemory, read_disk};
use rz_disk::Disk;
use rz_events::OpenFault;
use std::alloc::Global;

impl<D: Disk> Cells<D> {
    /// Opens a disk that was formatted with this geometry.
    ///
    /// All memory is taken before the disk is looked at.
    pub fn reopen(alloc: Global, geometry: Geometry, disk: D) -> Result<Cells<D>, (D, OpenFault)>
        requires { IsGeometry geometry }
        ensures open { IfOk result AreOpen }
        ensures geometry { IfOk result (λ c. c.geometry ≡ geometry) }

        // The text stands for some records, with the fence that is found.
        ensures stands { IfOk result (λ c. IsTrue D.tells → (held : Records) × StandsFor geometry c.fence (D.text c.disk) held) }

        // The fence and the heads are those of the text.
        ensures found { IfOk result (λ c. IsTrue D.tells → Finds geometry (D.text disk) c.fence c.heads) }

        // Each fault is the first that the text has.
        ensures refused { IfErr result (λ e. IsTrue D.tells → Refuses geometry (D.text disk) e.1) }

        // A wrong size is refused as such also of a disk that does not tell what it holds.
        ensures size { IfErr result (λ e. (have need : ℕ) → e.1 ≡ OpenFault.WrongSize have need → Refuses geometry (D.text disk) (OpenFault.WrongSize have need)) }
        ensures fits { IfErr result (λ e. NotSize e.1 → length (D.text disk) ≡ disk_bytes geometry) }

        // A text that stands for records is refused by want of memory or a failed device call alone.
        ensures exact { IfErr result (λ e. IsTrue D.tells → (fence : ℕ) (held : Records) → StandsFor geometry fence (D.text disk) held → (e.1 ≡ OpenFault.NoMemory) ⊎ (e.1 ≡ OpenFault.DiskFault)) }

        // The disk stays as it is.
        ensures text { MatchResult result (λ c. D.text c.disk ≡ D.text disk) (λ e. D.text e.0 ≡ D.text disk) }
        ensures crash { MatchResult result (λ c. Within (D.image disk) (D.image c.disk)) (λ e. Within (D.image disk) (D.image e.0)) }

        // It takes so many passes where it opens, and none for want of memory or a wrong size.
        ensures meter { MatchResult result (λ c. CountedWhere (opening_calls geometry) result ⊥ (D.meter disk) (D.meter c.disk))
            (λ e. CountedWhere (opening_calls geometry) result (e.1 ≡ OpenFault.DiskFault) (D.meter disk) (D.meter e.0)) }
        ensures no_memory { IfErr result (λ e. e.1 ≡ OpenFault.NoMemory → e.0 ≡ disk) }
        ensures wrong_size { IfErr result (λ e. (have need : ℕ) → e.1 ≡ OpenFault.WrongSize have need → e.0 ≡ disk) }
    {
        let mut disk = disk;
        match read_disk(&mut disk, alloc, &geometry) {
            Ok((fence, room)) => {
                let CellsMemory {
                    gates,
                    heads,
                    buffer,
                } = room;
                Ok(Cells {
                    disk,
                    geometry,
                    fence,
                    gates,
                    heads,
                    buffer,
                })
            }
            Err(fault) => Err((disk, fault)),
        }
    }

    /// Reads the disk anew where it is, as an opening does.
    ///
    /// All memory is taken before the disk is looked at.
    pub fn open_again(&mut self, alloc: Global) -> Result<(), OpenFault>
        ensures open { OnOk result (AreOpen self.new) }
        ensures geometry { self.new.geometry ≡ self.old.geometry }

        // The text stands for some records, with the fence that is found.
        ensures stands { OnOk result (IsTrue D.tells → (held : Records) × StandsFor self.old.geometry self.new.fence (D.text self.new.disk) held) }

        // The fence and the heads are those of the text.
        ensures found { OnOk result (IsTrue D.tells → Finds self.old.geometry (D.text self.old.disk) self.new.fence self.new.heads) }

        // Otherwise what is known of the cells stays.
        ensures kept_fence { OnErr result (self.new.fence ≡ self.old.fence) }
        ensures kept_gates { OnErr result (self.new.gates.items ≡ self.old.gates.items) }
        ensures kept_heads { OnErr result (self.new.heads ≡ self.old.heads) }

        // Each fault is the first that the text has.
        ensures refused { IfErr result (λ e. IsTrue D.tells → Refuses self.old.geometry (D.text self.old.disk) e) }

        // A wrong size is refused as such also of a disk that does not tell what it holds.
        ensures size { IfErr result (λ e. (have need : ℕ) → e ≡ OpenFault.WrongSize have need → Refuses self.old.geometry (D.text self.old.disk) (OpenFault.WrongSize have need)) }
        ensures fits { IfErr result (λ e. NotSize e → length (D.text self.old.disk) ≡ disk_bytes self.old.geometry) }

        // A text that stands for records is refused by want of memory or a failed device call alone.
        ensures exact { IfErr result (λ e. IsTrue D.tells → (fence : ℕ) (held : Records) → StandsFor self.old.geometry fence (D.text self.old.disk) held → (e ≡ OpenFault.NoMemory) ⊎ (e ≡ OpenFault.DiskFault)) }

        // The disk stays as it is.
        ensures text { D.text self.new.disk ≡ D.text self.old.disk }
        ensures crash { Within (D.image self.old.disk) (D.image self.new.disk) }

        // It takes so many passes where it opens, and none for want of memory or a wrong size.
        ensures meter { CountedWhere (opening_calls self.old.geometry) result (IsErrOf result OpenFault.DiskFault) (D.meter self.old.disk) (D.meter self.new.disk) }
        ensures no_memory { IsErrOf result OpenFault.NoMemory → self.new ≡ self.old }
        ensures wrong_size { IfErr result (λ e. (have need : ℕ) → e ≡ OpenFault.WrongSize have need → self.new ≡ self.old) }
    {
        let (fence, room) = read_disk(&mut self.disk, alloc, &self.geometry)?;
        let CellsMemory {
            gates,
            heads,
            buffer,
        } = room;
        self.fence = fence;
        self.gates = gates;
        self.heads = heads;
        self.buffer = buffer;
        Ok(())
    }
}
