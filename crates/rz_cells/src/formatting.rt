//! Formatting.
ghost use Rattle.std.specs.Prelude.{◌≡◌, ◌⊎◌, ℕ, List, None, IsTrue, IsErrOf, OnOk, OnErr, IfOk, IfErr, MatchResult};
ghost use Rattle.rz_cells_slots.specs.Counted.{CountedWhere};
ghost use Rattle.rz_cells_slots.specs.Held.{in_cell, nothing};
ghost use Rattle.rz_cells_slots.specs.Shape.{IsGeometry};
ghost use Rattle.rz_cells_slots.specs.Stands.{IsShut, StandsFor};
ghost use Rattle.rz_cells.specs.Open.{AreOpen};

use crate::{Cells, FormatFault, Geometry};
use rz_cells_slots::{CellsMemory, blank, empty};
use rz_disk::Disk;
use std::alloc::Global;

impl<D: Disk> Cells<D> {
    /// Makes a disk anew, with this fence and nothing in its cells.
    ///
    /// Want of memory may come before the disk is reset or from its reset.
    pub fn format(
        alloc: Global,
        geometry: Geometry,
        fence: u64,
        disk: D,
    ) -> Result<Cells<D>, (D, FormatFault)>
        requires { IsGeometry geometry }
        ensures open { IfOk result AreOpen }
        ensures geometry { IfOk result (λ c. c.geometry ≡ geometry) }
        ensures fence { IfOk result (λ c. c.fence ≡ fence) }
        ensures heads { IfOk result (λ c. (cell : ℕ) → in_cell c.heads cell ≡ None) }
        ensures nothing { IfOk result (λ c. IsTrue D.tells → StandsFor geometry fence (D.text c.disk) nothing) }

        // Otherwise each image is one from before, or its header is shut, or it stands for nothing with the new fence.
        ensures crash { IfErr result (λ e. IsTrue D.tells → (c : List ℕ) → D.image e.0 c → D.image disk c ⊎ IsShut c ⊎ StandsFor geometry fence c nothing) }

        ensures meter { MatchResult result (λ c. CountedWhere 4 result ⊥ (D.meter disk) (D.meter c.disk))
            (λ e. CountedWhere 4 result (e.1 ≡ FormatFault.DiskFault) (D.meter disk) (D.meter e.0)) }

        // Want of memory takes no pass.
        ensures unspent { IfErr result (λ e. e.1 ≡ FormatFault.NoMemory → (D.meter e.0).fuse ≡ (D.meter disk).fuse) }
        ensures unplanned { IfErr result (λ e. e.1 ≡ FormatFault.NoMemory → (D.meter e.0).planned ≡ (D.meter disk).planned) }
    {
        let mut disk = disk;
        let Ok(room) = CellsMemory::new(alloc, &geometry) else {
            return Err((disk, FormatFault::NoMemory));
        };
        if let Err(fault) = blank(&mut disk, alloc, &geometry, fence) {
            return Err((disk, fault));
        }
        let CellsMemory {
            gates,
            heads,
            buffer,
        } = room;
        Ok(Cells {
            disk,
            geometry,
            fence,
            gates,
            heads,
            buffer,
        })
    }

    /// The cells of a disk that is not looked at, as one with this fence and nothing in its cells. What
    /// stands on it is known once it was made anew, or opened.
    pub fn unopened(alloc: Global, geometry: Geometry, fence: u64, disk: D) -> Result<Cells<D>, D>
        requires { IsGeometry geometry }
        ensures disk { IfOk result (λ c. c.disk ≡ disk) }
        ensures geometry { IfOk result (λ c. c.geometry ≡ geometry) }
        ensures fence { IfOk result (λ c. c.fence ≡ fence) }
        ensures heads { IfOk result (λ c. (cell : ℕ) → in_cell c.heads cell ≡ None) }
        ensures back { IfErr result (λ d. d ≡ disk) }
    {
        let Ok(room) = CellsMemory::new(alloc, &geometry) else {
            return Err(disk);
        };
        let CellsMemory {
            gates,
            heads,
            buffer,
        } = room;
        Ok(Cells {
            disk,
            geometry,
            fence,
            gates,
            heads,
            buffer,
        })
    }

    /// Makes the disk anew where it is, with this fence and nothing in its cells.
    ///
    /// It takes no memory but that of the disk's reset.
    pub fn format_again(&mut self, alloc: Global, fence: u64) -> Result<(), FormatFault>
        ensures open { OnOk result (AreOpen self.new) }
        ensures geometry { self.new.geometry ≡ self.old.geometry }
        ensures fence { OnOk result (self.new.fence ≡ fence) }
        ensures heads { OnOk result ((cell : ℕ) → in_cell self.new.heads cell ≡ None) }
        ensures nothing { OnOk result (IsTrue D.tells → StandsFor self.old.geometry fence (D.text self.new.disk) nothing) }

        // Otherwise each image is one from before, or its header is shut, or it stands for nothing with the new fence.
        ensures crash { OnErr result (IsTrue D.tells → (c : List ℕ) → D.image self.new.disk c → D.image self.old.disk c ⊎ IsShut c ⊎ StandsFor self.old.geometry fence c nothing) }

        // And what is known of the cells stays.
        ensures kept_fence { OnErr result (self.new.fence ≡ self.old.fence) }
        ensures kept_gates { OnErr result (self.new.gates.items ≡ self.old.gates.items) }
        ensures kept_heads { OnErr result (self.new.heads ≡ self.old.heads) }

        ensures meter { CountedWhere 4 result (IsErrOf result FormatFault.DiskFault) (D.meter self.old.disk) (D.meter self.new.disk) }

        // Want of memory takes no pass.
        ensures unspent { IsErrOf result FormatFault.NoMemory → (D.meter self.new.disk).fuse ≡ (D.meter self.old.disk).fuse }
        ensures unplanned { IsErrOf result FormatFault.NoMemory → (D.meter self.new.disk).planned ≡ (D.meter self.old.disk).planned }
    {
        blank(&mut self.disk, alloc, &self.geometry, fence)?;
        self.fence = fence;
        empty(&mut self.gates, &mut self.heads);
        Ok(())
    }
}
