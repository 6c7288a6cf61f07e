//! The cells.
ghost use Rattle.std.specs.Prelude.{◌≡◌, ◌*◌, ◌≤◌, length, take, IsTrue, OnOk, OnErr};
ghost use Rattle.rz_disk.specs.Images.{Within};
ghost use Rattle.rz_disk.specs.Meter.{Passes};
ghost use Rattle.rz_record.specs.Record.{IsValid, bins_of};
ghost use Rattle.rz_cells_slots.specs.Shape.{IsGeometry, slot_of};

use crate::Geometry;
use rz_cells_slots::{Heads, read_bins, spell, switch};
use rz_disk::{Disk, Failed};
use rz_record::{HEAD_BYTES, Head};

/// A device call failed.
#[derive(Clone, Copy, Debug, Drop)]
pub struct DiskFault;

impl From<Failed> for DiskFault {
    fn from(_: Failed) -> Self {
        DiskFault
    }
}

/// The cells of a disk, with the heads of what they hold.
#[derive(Drop)]
pub struct Cells<D: Disk> {
    pub(crate) disk: D,
    pub(crate) geometry: Geometry,
    pub(crate) fence: u64,
    /// The low bit of each is that of the cell's gate.
    pub(crate) gates: Vec<u8>,
    pub(crate) heads: Heads,
    /// Room for a record.
    pub(crate) buffer: Vec<u8>,
    ghost geometry_ok: { IsGeometry geometry },
    ghost gates_fit: { length gates.items ≡ 2 * geometry.cells },
    ghost heads_fit: { length heads ≡ 2 * geometry.cells },
    ghost buffer_fits: { length buffer.items ≡ slot_of geometry },
}

impl<D: Disk> Cells<D> {
    ghost use Rattle.std.specs.Prelude.{◌<◌, ℕ, List, Option, Some, None, drop, slice_set, IfOk, if◌then◌else◌, IsSome, is_ok};
    ghost use Rattle.rz_events.specs.declared.records.Head.{Head};
    ghost use Rattle.rz_disk.specs.Images.{Only};
    ghost use Rattle.rz_disk.specs.Meter.{armed};
    ghost use Rattle.rz_record.specs.Slot.{Rec};
    ghost use Rattle.rz_cells_slots.specs.Held.{Goes, in_cell};
    ghost use Rattle.rz_cells_slots.specs.Stands.{Changes, HoldsCells, MayChange};
    ghost use Rattle.rz_cells_slots.specs.Counted.{Counted};
    ghost use Rattle.rz_cells.specs.Open.{AreOpen};

    /// Keeps a record in a cell, in the place of what the cell holds.
    pub fn put(&mut self, cell: u32, head: &Head, bins: &[u64]) -> Result<(), DiskFault>
        requires cell { cell < 2 * self.old.geometry.cells }
        requires valid { IsValid head.now }
        requires layout { head.now.layout ≡ self.old.geometry.layout }
        requires bins { length bins.now ≡ bins_of head.now }
        requires goes { Goes self.old.heads cell head.now }
        requires open { AreOpen self.old }

        // On every exit each image stands for the records from before, or with the new one.
        ensures crash { IsTrue D.tells → MayChange self.old.geometry self.old.fence (D.text self.old.disk) (D.image self.new.disk)
            self.old.heads cell (Some record { head = head.now; bins = bins.now }) }

        // And then the text, which is the one image, stands for them with the new one.
        ensures done { OnOk result (IsTrue D.tells → Changes self.old.geometry self.old.fence (D.text self.old.disk) (D.text self.new.disk)
            self.old.heads cell (Some record { head = head.now; bins = bins.now })) }
        ensures open { OnOk result (AreOpen self.new) }
        ensures heads { self.new.heads ≡ (if is_ok result then slice_set self.old.heads cell (Some head.now) else self.old.heads) }
        ensures geometry { self.new.geometry ≡ self.old.geometry }
        ensures fence { self.new.fence ≡ self.old.fence }

        ensures meter { Counted 4 result (D.meter self.old.disk) (D.meter self.new.disk) }
    {
        let index = cell as usize;
        let gate = self.gates[index];
        let size = spell(head, bins, &mut self.buffer);
        switch(
            &mut self.disk,
            &self.geometry,
            cell,
            gate,
            &self.buffer[..size],
        )?;
        self.gates[index] = 1 - gate % 2;
        self.heads.set(cell, &Some(*head));
        Ok(())
    }

    /// Empties a cell.
    pub fn clear(&mut self, cell: u32) -> Result<(), DiskFault>
        requires cell { cell < 2 * self.old.geometry.cells }
        requires open { AreOpen self.old }

        // On every exit each image stands for the records from before, or without this one.
        ensures crash { IsTrue D.tells → MayChange self.old.geometry self.old.fence (D.text self.old.disk) (D.image self.new.disk) self.old.heads cell None }

        // And then the text, which is the one image, stands for them without this one.
        ensures done { OnOk result (IsTrue D.tells → Changes self.old.geometry self.old.fence (D.text self.old.disk) (D.text self.new.disk) self.old.heads cell None) }
        ensures open { OnOk result (AreOpen self.new) }
        ensures heads { self.new.heads ≡ (if is_ok result then slice_set self.old.heads cell None else self.old.heads) }
        ensures geometry { self.new.geometry ≡ self.old.geometry }
        ensures fence { self.new.fence ≡ self.old.fence }

        ensures meter { Counted 4 result (D.meter self.old.disk) (D.meter self.new.disk) }
    {
        let index = cell as usize;
        let gate = self.gates[index];
        switch(&mut self.disk, &self.geometry, cell, gate, &[0; 8])?;
        self.gates[index] = 1 - gate % 2;
        self.heads.set(cell, &None);
        Ok(())
    }

    /// Reads the bins of a cell's record into the front of `out`, and answers their number.
    pub fn bins_into(&mut self, cell: u32, out: &mut [u64]) -> Result<usize, DiskFault>
        requires cell { cell < 2 * self.old.geometry.cells }
        requires held { (h : Head) → in_cell self.old.heads cell ≡ Some h → bins_of h ≤ length out.old }
        requires some { IsSome (in_cell self.old.heads cell) }
        requires open { AreOpen self.old }
        ensures count { IfOk result (λ n. (h : Head) → in_cell self.old.heads cell ≡ Some h → n ≡ bins_of h) }
        ensures bins { IfOk result (λ n. IsTrue D.tells → (cells : List (Option Rec)) (r : Rec) → HoldsCells self.old.geometry self.old.fence (D.text self.old.disk) cells
            → in_cell cells cell ≡ Some r → take n out.new ≡ r.bins) }
        ensures rest { IfOk result (λ n. drop n out.new ≡ drop n out.old) }
        ensures err { OnErr result (out.new ≡ out.old) }

        // The cells and the disk stay as they were.
        ensures text { D.text self.new.disk ≡ D.text self.old.disk }
        ensures within { Within (D.image self.old.disk) (D.image self.new.disk) }
        ensures open { AreOpen self.new }
        ensures heads { self.new.heads ≡ self.old.heads }
        ensures geometry { self.new.geometry ≡ self.old.geometry }
        ensures fence { self.new.fence ≡ self.old.fence }
        ensures meter { Passes result (D.meter self.old.disk) (D.meter self.new.disk) }
    {
        let Some(head) = self.heads.get(cell) else {
            unreachable!()
        };
        let count = head.layout.bins_at(head.position);
        let at = self.geometry.slot_at(cell, self.gates[cell as usize] % 2) + HEAD_BYTES as u64;
        read_bins(&mut self.disk, at, &mut self.buffer, &mut out[..count])?;
        Ok(count)
    }

    /// The head of what a cell holds.
    pub fn head(&self, cell: u32) -> Option<Head>
        requires { cell < 2 * self.now.geometry.cells }
        ensures { result ≡ in_cell self.now.heads cell }
    {
        self.heads.get(cell)
    }

    /// How the disk is laid out.
    pub fn geometry(&self) -> Geometry
        ensures { result ≡ self.now.geometry }
    {
        self.geometry
    }

    /// The fence that the disk carries.
    pub fn fence(&self) -> u64
        ensures { result ≡ self.now.fence }
    {
        self.fence
    }

    /// Arms the disk with `Some` passes, or disarms it with `None`.
    pub fn arm(&mut self, passes: Option<u64>)
        ensures text { D.text self.new.disk ≡ D.text self.old.disk }
        ensures within { Within (D.image self.old.disk) (D.image self.new.disk) }
        ensures kept { Within (D.image self.new.disk) (D.image self.old.disk) }
        ensures open { AreOpen self.old → AreOpen self.new }
        ensures meter { D.meter self.new.disk ≡ (if D.has_fuse then armed passes (D.meter self.old.disk) else D.meter self.old.disk) }
        ensures geometry { self.new.geometry ≡ self.old.geometry }
        ensures fence { self.new.fence ≡ self.old.fence }
        ensures gates { self.new.gates.items ≡ self.old.gates.items }
        ensures heads { self.new.heads ≡ self.old.heads }
    {
        self.disk.arm(passes);
    }

    /// Loses what a loss of power may lose of the disk, and keeps all else. `pick` says which image
    /// is left, in the disk's own way.
    pub fn crash(&mut self, pick: u64)
        ensures by_pick { D.picks self.old.disk pick (D.text self.new.disk) }
        ensures left { IsTrue D.tells → D.image self.old.disk (D.text self.new.disk) }
        ensures only { Only (D.text self.new.disk) (D.image self.new.disk) }
        ensures meter { D.meter self.new.disk ≡ D.meter self.old.disk }
        ensures geometry { self.new.geometry ≡ self.old.geometry }
        ensures fence { self.new.fence ≡ self.old.fence }
        ensures gates { self.new.gates.items ≡ self.old.gates.items }
        ensures heads { self.new.heads ≡ self.old.heads }
    {
        self.disk.crash(pick);
    }

    /// The disk.
    pub fn into_disk(self) -> D
        ensures { result ≡ self.disk }
    {
        self.disk
    }
}
