//! The copy of an old disk's records onto a new disk, whose header gate is shut until all are there.
ghost use Rattle.std.specs.Prelude.{◌≡◌, ◌⊎◌, ◌∷◌, ◌+◌, ◌*◌, ◌%◌, ◌<◌, ◌≤◌, ℕ, List, [], Option, Some, None, length, slice_index, IsTrue, IsErr, IsErrOf, OnOk, IfErr};
ghost use Rattle.rz_events.specs.declared.records.Head.{Head};
ghost use Rattle.rz_disk.specs.Images.{Only, Torn, Written};
ghost use Rattle.rz_disk.specs.Meter.{Took, Lasts, Rises, HasPasses, faults};
ghost use Rattle.rz_record.specs.Record.{IsValid};
ghost use Rattle.rz_record.specs.Slot.{Rec, Reads, Spells};
ghost use Rattle.rz_cells_slots.specs.Held.{count_held, in_cell};
ghost use Rattle.rz_cells_slots.specs.Shape.{IsGeometry, disk_bytes, gate_at, slot_at, slot_of};
ghost use Rattle.rz_cells_slots.specs.Stands.{IsShut};
ghost use Rattle.rz_cells_slots.specs.Opening.{OnlyRead};
ghost use Rattle.rz_cells_slots.specs.Old.{old_disk_bytes, old_slot, paired};
ghost use Rattle.rz_cells_slots.specs.OldOpening.{OldKnows};
ghost use Rattle.rz_cells_slots.specs.Copied.{AllShut, CopiesTo, HoldsCopy, IsBlank, PutsRecord, copy_calls};

use crate::formatting::spell_header;
use crate::heads::Heads;
use crate::old::{OLD_HEAD_BYTES, OldCells};
use crate::spelling::{read_bins, spell};
use crate::{Geometry, MigrateFault};
use rz_disk::{Disk, DiskError, Failed, store};
use rz_events::{Head, OpenFault};
use std::alloc::Global;

/// Makes the new disk anew, with what an open old one carries.
pub fn copy<D: Disk>(
    alloc: Global,
    geometry: &Geometry,
    cells: &OldCells,
    old: &mut D,
    new: &mut D,
    buffer: &mut Vec<u8>,
    bins: &mut [u64],
) -> Result<(), MigrateFault>
    requires geometry { IsGeometry geometry.now }
    requires gates { length cells.now.gates.items ≡ geometry.now.cells }
    requires heads { length cells.now.heads.items ≡ geometry.now.cells }
    requires valid { (c : ℕ) (h : Head) → in_cell cells.now.heads.items c ≡ Some h → IsValid h }
    requires layout { (c : ℕ) (h : Head) → in_cell cells.now.heads.items c ≡ Some h → h.layout ≡ geometry.now.layout }
    requires old_size { length (D.text old.old) ≡ old_disk_bytes geometry.now }
    requires known { IsTrue D.tells → OldKnows geometry.now cells.now.gates.items (D.text old.old) }
    requires buffer { length buffer.old.items ≡ slot_of geometry.now }
    requires bins { 48 + 8 * length bins.old ≡ slot_of geometry.now }
    ensures crash { IsTrue D.tells → (t : List ℕ) → D.image new.new t → D.image new.old t ⊎ IsShut t ⊎ HoldsCopy geometry.now cells.now.fence (D.text old.old) cells.now.heads.items t }
    ensures done { OnOk result (IsTrue D.tells → HoldsCopy geometry.now cells.now.fence (D.text old.old) cells.now.heads.items (D.text new.new)) }
    ensures size { OnOk result (length (D.text new.new) ≡ disk_bytes geometry.now) }
    ensures only { OnOk result (Only (D.text new.new) (D.image new.new)) }
    ensures buffer { length buffer.new.items ≡ length buffer.old.items }
    ensures read { OnlyRead (D.text old.old) (D.text old.new) (D.image old.old) (D.image old.new) (D.meter old.old) (D.meter old.new) }
    ensures meter { Lasts (D.meter new.old) (D.meter new.new) }
    ensures faults { IfErr result (λ e. (e ≡ MigrateFault.NoMemory) ⊎ (e ≡ MigrateFault.Old OpenFault.DiskFault) ⊎ (e ≡ MigrateFault.New)) }
    ensures old_risen { IsErrOf result (MigrateFault.Old OpenFault.DiskFault) → Rises (faults (D.meter old.old)) (faults (D.meter old.new)) }
    ensures old_took { Took (count_held cells.now.heads.items) result (D.meter old.old) (D.meter old.new) }
    ensures old_own_risen { IsErrOf result (MigrateFault.Old OpenFault.DiskFault) → HasPasses (count_held cells.now.heads.items) (D.meter old.old) → Rises (D.meter old.old).own (D.meter old.new).own }
    ensures risen { IsErrOf result MigrateFault.New → Rises (faults (D.meter new.old)) (faults (D.meter new.new)) }
    ensures took { Took (copy_calls (count_held cells.now.heads.items)) result (D.meter new.old) (D.meter new.new) }
    ensures own_risen { IsErrOf result MigrateFault.New → HasPasses (copy_calls (count_held cells.now.heads.items)) (D.meter new.old) → Rises (D.meter new.old).own (D.meter new.new).own }
    ensures unspent { IsErrOf result MigrateFault.NoMemory → (D.meter new.new).fuse ≡ (D.meter new.old).fuse }
    ensures unplanned { IsErrOf result MigrateFault.NoMemory → (D.meter new.new).planned ≡ (D.meter new.old).planned }
    ensures old_untouched { IsErrOf result MigrateFault.NoMemory → old.new ≡ old.old }
{
    lay_out(new, alloc, geometry, cells.fence)?;
    copy_records(geometry, cells, old, new, buffer, bins)?;
    let Ok(()) = open_gate(new) else {
        return Err(MigrateFault::New);
    };
    Ok(())
}

/// Makes the disk anew with a header, and leaves its gate shut.
fn lay_out<D: Disk>(
    disk: &mut D,
    alloc: Global,
    geometry: &Geometry,
    fence: u64,
) -> Result<(), MigrateFault>
    requires { IsGeometry geometry.now }
    ensures crash { (c : List ℕ) → D.image disk.new c → D.image disk.old c ⊎ IsShut c }
    ensures shut { OnOk result (AllShut (D.image disk.new)) }
    ensures size { OnOk result (length (D.text disk.new) ≡ disk_bytes geometry.now) }
    ensures blank { OnOk result (IsTrue D.tells → IsBlank geometry.now fence (D.text disk.new)) }
    ensures faults { IfErr result (λ e. (e ≡ MigrateFault.NoMemory) ⊎ (e ≡ MigrateFault.New)) }
    ensures meter { Lasts (D.meter disk.old) (D.meter disk.new) }
    ensures risen { IsErrOf result MigrateFault.New → Rises (faults (D.meter disk.old)) (faults (D.meter disk.new)) }
    ensures took { Took 1 result (D.meter disk.old) (D.meter disk.new) }
    ensures own_risen { IsErrOf result MigrateFault.New → HasPasses 1 (D.meter disk.old) → Rises (D.meter disk.old).own (D.meter disk.new).own }
    ensures unspent { IsErrOf result MigrateFault.NoMemory → (D.meter disk.new).fuse ≡ (D.meter disk.old).fuse }
    ensures unplanned { IsErrOf result MigrateFault.NoMemory → (D.meter disk.new).planned ≡ (D.meter disk.old).planned }
{
    match disk.reset(alloc, geometry.disk_bytes()) {
        Ok(()) => {}
        Err(DiskError::Failed) => return Err(MigrateFault::New),
        Err(DiskError::NoMemory) => return Err(MigrateFault::NoMemory),
    }
    let mut header = [0u8; 32];
    spell_header(geometry, fence, &mut header);
    let Ok(()) = disk.write_at(0, &header) else {
        return Err(MigrateFault::New);
    };
    Ok(())
}

/// Copies all records of an old disk, each into the first cell of its pair.
fn copy_records<D: Disk>(
    geometry: &Geometry,
    cells: &OldCells,
    old: &mut D,
    new: &mut D,
    buffer: &mut Vec<u8>,
    bins: &mut [u64],
) -> Result<(), MigrateFault>
    requires geometry { IsGeometry geometry.now }
    requires gates { length cells.now.gates.items ≡ geometry.now.cells }
    requires heads { length cells.now.heads.items ≡ geometry.now.cells }
    requires valid { (c : ℕ) (h : Head) → in_cell cells.now.heads.items c ≡ Some h → IsValid h }
    requires layout { (c : ℕ) (h : Head) → in_cell cells.now.heads.items c ≡ Some h → h.layout ≡ geometry.now.layout }
    requires old_size { length (D.text old.old) ≡ old_disk_bytes geometry.now }
    requires known { IsTrue D.tells → OldKnows geometry.now cells.now.gates.items (D.text old.old) }
    requires new_size { length (D.text new.old) ≡ disk_bytes geometry.now }
    requires shut { AllShut (D.image new.old) }
    requires blank { IsTrue D.tells → IsBlank geometry.now cells.now.fence (D.text new.old) }
    requires buffer { length buffer.old.items ≡ slot_of geometry.now }
    requires bins { 48 + 8 * length bins.old ≡ slot_of geometry.now }
    ensures copies { OnOk result (IsTrue D.tells → CopiesTo geometry.now cells.now.fence (D.text old.old) cells.now.heads.items (D.text new.new) geometry.now.cells) }
    ensures size { length (D.text new.new) ≡ length (D.text new.old) }
    ensures shut { AllShut (D.image new.new) }
    ensures buffer { length buffer.new.items ≡ length buffer.old.items }
    ensures read { OnlyRead (D.text old.old) (D.text old.new) (D.image old.old) (D.image old.new) (D.meter old.old) (D.meter old.new) }
    ensures meter { Lasts (D.meter new.old) (D.meter new.new) }
    ensures faults { IfErr result (λ e. (e ≡ MigrateFault.Old OpenFault.DiskFault) ⊎ (e ≡ MigrateFault.New)) }
    ensures old_risen { IsErrOf result (MigrateFault.Old OpenFault.DiskFault) → Rises (faults (D.meter old.old)) (faults (D.meter old.new)) }
    ensures old_took { Took (count_held cells.now.heads.items) result (D.meter old.old) (D.meter old.new) }
    ensures old_own_risen { IsErrOf result (MigrateFault.Old OpenFault.DiskFault) → HasPasses (count_held cells.now.heads.items) (D.meter old.old) → Rises (D.meter old.old).own (D.meter old.new).own }
    ensures risen { IsErrOf result MigrateFault.New → Rises (faults (D.meter new.old)) (faults (D.meter new.new)) }
    ensures took { Took (count_held cells.now.heads.items) result (D.meter new.old) (D.meter new.new) }
    ensures own_risen { IsErrOf result MigrateFault.New → HasPasses (count_held cells.now.heads.items) (D.meter new.old) → Rises (D.meter new.old).own (D.meter new.new).own }
{
    for cell in 0..geometry.cells {
        if let Some(head) = cells.heads[cell as usize] {
            let gate = cells.gates[cell as usize];
            copy_record(geometry, cell, gate, &head, old, new, buffer, bins)?;
        }
    }
    Ok(())
}

/// Copies the record in the slot that a gate picks, of which the head is known.
fn copy_record<D: Disk>(
    geometry: &Geometry,
    cell: u32,
    gate: u8,
    head: &Head,
    old: &mut D,
    new: &mut D,
    buffer: &mut Vec<u8>,
    bins: &mut [u64],
) -> Result<(), MigrateFault>
    requires geometry { IsGeometry geometry.now }
    requires cell { cell < geometry.now.cells }
    requires valid { IsValid head.now }
    requires layout { head.now.layout ≡ geometry.now.layout }
    requires old_size { length (D.text old.old) ≡ old_disk_bytes geometry.now }
    requires new_size { length (D.text new.old) ≡ disk_bytes geometry.now }
    requires shut { AllShut (D.image new.old) }
    requires buffer { length buffer.old.items ≡ slot_of geometry.now }
    requires bins { 48 + 8 * length bins.old ≡ slot_of geometry.now }
    ensures copied { OnOk result (IsTrue D.tells → gate % 2 ≡ slice_index (D.text old.old) (gate_at cell) % 2
        → (r : Rec) → Reads (old_slot geometry.now (D.text old.old) cell) (Some r) → r.head ≡ head.now
        → PutsRecord geometry.now (2 * cell) r (D.text new.old) (D.text new.new)) }
    ensures size { length (D.text new.new) ≡ length (D.text new.old) }
    ensures shut { AllShut (D.image new.new) }
    ensures buffer { length buffer.new.items ≡ length buffer.old.items }
    ensures read { OnlyRead (D.text old.old) (D.text old.new) (D.image old.old) (D.image old.new) (D.meter old.old) (D.meter old.new) }
    ensures meter { Lasts (D.meter new.old) (D.meter new.new) }
    ensures faults { IfErr result (λ e. (e ≡ MigrateFault.Old OpenFault.DiskFault) ⊎ (e ≡ MigrateFault.New)) }
    ensures old_risen { IsErrOf result (MigrateFault.Old OpenFault.DiskFault) → Rises (faults (D.meter old.old)) (faults (D.meter old.new)) }
    ensures old_took { Took 1 result (D.meter old.old) (D.meter old.new) }
    ensures old_own_risen { IsErrOf result (MigrateFault.Old OpenFault.DiskFault) → HasPasses 1 (D.meter old.old) → Rises (D.meter old.old).own (D.meter old.new).own }
    ensures risen { IsErrOf result MigrateFault.New → Rises (faults (D.meter new.old)) (faults (D.meter new.new)) }
    ensures took { Took 1 result (D.meter new.old) (D.meter new.new) }
    ensures own_risen { IsErrOf result MigrateFault.New → HasPasses 1 (D.meter new.old) → Rises (D.meter new.old).own (D.meter new.new).own }
{
    let count = head.layout.bins_at(head.position);
    let at = geometry.old_slot_at(cell, gate % 2) + OLD_HEAD_BYTES as u64;
    let Ok(()) = read_bins(old, at, buffer, &mut bins[..count]) else {
        return Err(MigrateFault::Old(OpenFault::DiskFault));
    };
    let size = spell(head, &bins[..count], buffer);
    let Ok(()) = new.write_at(geometry.slot_at(2 * cell, 0), &buffer[..size]) else {
        return Err(MigrateFault::New);
    };
    Ok(())
}

/// Brings all onto the disk, and then opens its header gate.
fn open_gate<D: Disk>(disk: &mut D) -> Result<(), Failed>
    requires size { 64 ≤ length (D.text disk.old) }
    requires shut { AllShut (D.image disk.old) }
    ensures crash { (c : List ℕ) → D.image disk.new c → IsShut c ⊎ Torn 32 1 (D.text disk.old) c }
    ensures size { length (D.text disk.new) ≡ length (D.text disk.old) }
    ensures only { OnOk result (Only (D.text disk.new) (D.image disk.new)) }
    ensures written { OnOk result (IsTrue D.tells → Written 32 (1 ∷ []) (D.text disk.old) (D.text disk.new)) }
    ensures meter { Lasts (D.meter disk.old) (D.meter disk.new) }
    ensures risen { IsErr result → Rises (faults (D.meter disk.old)) (faults (D.meter disk.new)) }
    ensures took { Took 3 result (D.meter disk.old) (D.meter disk.new) }
    ensures own_risen { IsErr result → HasPasses 3 (D.meter disk.old) → Rises (D.meter disk.old).own (D.meter disk.new).own }
{
    disk.sync()?;
    store(disk, 32, &[1])?;
    Ok(())
}

/// Puts each head into the first cell of its pair.
pub fn pair_up(heads: &[Option<Head>], pairs: &mut Heads)
    requires few { length heads.now ≤ 1048576 }
    requires room { length pairs.old ≡ 2 * length heads.now }
    requires empty { (c : ℕ) → in_cell pairs.old c ≡ None }
    ensures { pairs.new ≡ paired heads.now }
{
    for cell in 0..heads.len() {
        pairs.set(2 * cell as u32, &heads[cell]);
    }
}
