//! An old disk carried over onto a new one.
ghost use Rattle.std.specs.Prelude.{◌≡◌, ◌≢◌, ◌⊎◌, ◌+◌, ℕ, List, length, IsTrue, IfOk, IfErr, MatchResult};
ghost use Rattle.mj_angles.specs.Layout.{bsize_of};
ghost use Rattle.rz_disk.specs.Images.{Within};
ghost use Rattle.rz_disk.specs.Meter.{Took, Lasts, Rises, faults};
ghost use Rattle.rz_cells_slots.specs.Counted.{CountedWhere, TookAll};
ghost use Rattle.rz_cells_slots.specs.Held.{Records, count_held};
ghost use Rattle.rz_cells_slots.specs.Shape.{IsGeometry};
ghost use Rattle.rz_cells_slots.specs.Stands.{IsShut, StandsFor};
ghost use Rattle.rz_cells_slots.specs.Opening.{NotSize};
ghost use Rattle.rz_cells_slots.specs.Old.{CarriesOver, HoldsAtMost, OldStandsFor, old_disk_bytes};
ghost use Rattle.rz_cells_slots.specs.OldOpening.{OldRefuses, old_opening_calls};
ghost use Rattle.rz_cells_slots.specs.Copied.{copy_calls};
ghost use Rattle.rz_cells.specs.Open.{AreOpen};

use crate::{Cells, Geometry, MigrateFault};
use rz_cells_slots::{CellsMemory, carry};
use rz_disk::Disk;
use rz_events::OpenFault;
use std::alloc::Global;

impl<D: Disk> Cells<D> {
    /// Carries a disk of version 1 over: makes the new disk anew, with the fence and the records of
    /// the old one, each with a base of 0. The geometry's cells are the cells of the old disk, and the
    /// pairs of the new one. The old disk is only read.
    ///
    /// All memory but that of the new disk's reset is taken before a disk is looked at. The new disk
    /// is not called before the old one is open.
    pub fn migrate(
        alloc: Global,
        geometry: Geometry,
        old: &mut D,
        new: D,
    ) -> Result<Cells<D>, (D, MigrateFault)>
        requires geometry { IsGeometry geometry }
        requires small { bsize_of geometry.layout ≡ 0 }
        ensures open { IfOk result AreOpen }
        ensures geometry { IfOk result (λ c. c.geometry ≡ geometry) }

        // The old text stands for a fence and some records, and the new one for these.
        ensures carried { IfOk result (λ c. IsTrue D.tells → (held : Records) × OldStandsFor geometry c.fence (D.text old.old) held × StandsFor geometry c.fence (D.text c.disk) held) }

        // It stands for no others.
        ensures found { IfOk result (λ c. IsTrue D.tells → (fence : ℕ) (held : Records) → OldStandsFor geometry fence (D.text old.old) held → (fence ≡ c.fence) × StandsFor geometry c.fence (D.text c.disk) held) }

        // On every exit the old disk is as it was, and each image of the new one is one from before, or its header is
        // shut, or it stands for the fence and the records of the old one.
        ensures old_text { D.text old.new ≡ D.text old.old }
        ensures old_images { Within (D.image old.old) (D.image old.new) }
        ensures crash { MatchResult result (λ c. IsTrue D.tells → (t : List ℕ) → D.image c.disk t → CarriesOver geometry (D.text old.old) t)
            (λ e. IsTrue D.tells → (t : List ℕ) → D.image e.0 t → D.image new t ⊎ IsShut t ⊎ CarriesOver geometry (D.text old.old) t) }

        // Each fault of the old disk is the first that its text has.
        ensures refused { IfErr result (λ e. (fault : OpenFault) → e.1 ≡ MigrateFault.Old fault → IsTrue D.tells → OldRefuses geometry (D.text old.old) fault) }

        // A wrong size is refused as such also of a disk that does not tell what it holds.
        ensures size { IfErr result (λ e. (fault : OpenFault) → e.1 ≡ MigrateFault.Old fault → NotSize fault ⊎ OldRefuses geometry (D.text old.old) fault) }
        ensures fits { IfErr result (λ e. (fault : OpenFault) → e.1 ≡ MigrateFault.Old fault → NotSize fault → length (D.text old.old) ≡ old_disk_bytes geometry) }

        // A text that stands for records is refused by a failed device call alone.
        ensures exact { IfErr result (λ e. (fault : OpenFault) → e.1 ≡ MigrateFault.Old fault → IsTrue D.tells → (fence : ℕ) (held : Records) → OldStandsFor geometry fence (D.text old.old) held → fault ≡ OpenFault.DiskFault) }

        // The new disk is not called where the old one does not open.
        ensures untouched { IfErr result (λ e. (fault : OpenFault) → e.1 ≡ MigrateFault.Old fault → fault ≢ OpenFault.DiskFault → e.0 ≡ new) }
        ensures old_meter { Lasts (D.meter old.old) (D.meter old.new) }
        ensures meter { MatchResult result (λ c. Lasts (D.meter new) (D.meter c.disk)) (λ e. Lasts (D.meter new) (D.meter e.0)) }
        ensures old_risen { IfErr result (λ e. e.1 ≡ MigrateFault.Old OpenFault.DiskFault → Rises (faults (D.meter old.old)) (faults (D.meter old.new))) }
        ensures risen { IfErr result (λ e. e.1 ≡ MigrateFault.New → Rises (faults (D.meter new)) (faults (D.meter e.0))) }

        // The old disk takes so many passes as its opening and one for each record, and the new one as many as the copy of
        // these. Where it fails they are no more than for the records that the old disk may hold.
        ensures old_calls { MatchResult result (λ c. CountedWhere (old_opening_calls geometry + count_held c.heads) result ⊥ (D.meter old.old) (D.meter old.new))
            (λ e. (n : ℕ) → HoldsAtMost D.tells geometry (D.text old.old) n → CountedWhere (old_opening_calls geometry + n) result (e.1 ≡ MigrateFault.Old OpenFault.DiskFault) (D.meter old.old) (D.meter old.new)) }
        ensures calls { MatchResult result (λ c. CountedWhere (copy_calls (count_held c.heads)) result ⊥ (D.meter new) (D.meter c.disk))
            (λ e. (n : ℕ) → HoldsAtMost D.tells geometry (D.text old.old) n → CountedWhere (copy_calls n) result (e.1 ≡ MigrateFault.New) (D.meter new) (D.meter e.0)) }

        // An old disk that is refused takes none but those of its opening.
        ensures old_refused { IfErr result (λ e. (fault : OpenFault) → e.1 ≡ MigrateFault.Old fault → fault ≢ OpenFault.DiskFault → Took (old_opening_calls geometry) result (D.meter old.old) (D.meter old.new)) }

        // Want of memory takes no pass of the new disk. It comes before a disk is called, or when the old one is open.
        ensures unspent { IfErr result (λ e. e.1 ≡ MigrateFault.NoMemory → (D.meter e.0).fuse ≡ (D.meter new).fuse) }
        ensures unplanned { IfErr result (λ e. e.1 ≡ MigrateFault.NoMemory → (D.meter e.0).planned ≡ (D.meter new).planned) }
        ensures no_memory { IfErr result (λ e. e.1 ≡ MigrateFault.NoMemory → ((old.new ≡ old.old) × (e.0 ≡ new)) ⊎ TookAll (old_opening_calls geometry) (D.meter old.old) (D.meter old.new)) }
        ensures old_unplanned { IfErr result (λ e. e.1 ≡ MigrateFault.NoMemory → (D.meter old.new).planned ≡ (D.meter old.old).planned) }

        // And a wrong size is told before a disk is called.
        ensures wrong_size { IfErr result (λ e. (have need : ℕ) → e.1 ≡ MigrateFault.Old (OpenFault.WrongSize have need) → old.new ≡ old.old) }
    {
        let mut disk = new;
        match carry(alloc, &geometry, old, &mut disk) {
            Ok((fence, room)) => {
                let CellsMemory {
                    gates,
                    heads,
                    buffer,
                } = room;
                Ok(Cells {
                    disk,
                    geometry,
                    fence,
                    gates,
                    heads,
                    buffer,
                })
            }
            Err(fault) => Err((disk, fault)),
        }
    }
}
