//! The records of an old disk brought onto a new one, with what is known of both in memory.
ghost use Rattle.std.specs.Prelude.{◌≡◌, ◌≢◌, ◌⊎◌, ◌+◌, ◌*◌, ◌≤◌, ℕ, List, None, length, slice_index, IsTrue, IsErr, IsErrOf, OnOk, IfOk, IfErr, MatchResult};
ghost use Rattle.std.specs.HashMap.{IsEmpty, spare};
ghost use Rattle.rz_disk.specs.Meter.{Took, Lasts, Rises, faults};
ghost use Rattle.rz_cells_slots.specs.Counted.{CountedWhere, TookAll};
ghost use Rattle.rz_cells_slots.specs.Held.{count_held, in_cell};
ghost use Rattle.rz_cells_slots.specs.Shape.{IsGeometry, slot_of};
ghost use Rattle.rz_cells_slots.specs.Stands.{IsShut};
ghost use Rattle.rz_cells_slots.specs.Open.{IsOpen};
ghost use Rattle.rz_cells_slots.specs.Copied.{HoldsBoth, copy_calls};
ghost use Rattle.rz_cells_slots.specs.Opening.{NotSize, OnlyRead};
ghost use Rattle.rz_cells_slots.specs.Old.{CarriesOver, HoldsAtMost, old_disk_bytes};
ghost use Rattle.rz_cells_slots.specs.OldOpening.{OldRefuses, old_opening_calls};

use crate::Geometry;
use crate::copying::{copy, pair_up};
use crate::judging::Firsts;
use crate::old::{OldCells, open_old};
use crate::room::CellsMemory;
use rz_disk::Disk;
use rz_events::OpenFault;
use std::alloc::{AllocError, Global};
use std::collections::HashMap;

/// Why an old disk was not carried over.
#[derive(Clone, Copy, PartialEq, Eq, Drop)]
pub enum MigrateFault {
    NoMemory,
    /// The old disk was not opened, or a later read of it failed.
    Old(OpenFault),
    /// A call of the new disk failed.
    New,
}

/// The fence, and the gates and heads of all cells of the new disk in new memory.
pub fn carry<D: Disk>(
    alloc: Global,
    geometry: &Geometry,
    old: &mut D,
    new: &mut D,
) -> Result<(u64, CellsMemory), MigrateFault>
    requires { IsGeometry geometry.now }
    ensures open { IfOk result (λ r. IsOpen D.tells (D.text new.new) (D.image new.new) geometry.now r.0 r.1.gates.items r.1.heads) }
    ensures gates { IfOk result (λ r. length r.1.gates.items ≡ 2 * geometry.now.cells) }
    ensures heads { IfOk result (λ r. length r.1.heads ≡ 2 * geometry.now.cells) }
    ensures buffer { IfOk result (λ r. length r.1.buffer.items ≡ slot_of geometry.now) }
    ensures pairs { IfOk result (λ r. IsTrue D.tells → HoldsBoth geometry.now r.0 (D.text old.old) (D.text new.new)) }
    ensures crash { IfErr result (λ e. IsTrue D.tells → (t : List ℕ) → D.image new.new t → D.image new.old t ⊎ IsShut t ⊎ CarriesOver geometry.now (D.text old.old) t) }
    ensures refused { IfErr result (λ e. (fault : OpenFault) → e ≡ MigrateFault.Old fault → (fault ≡ OpenFault.DiskFault) ⊎ (new.new ≡ new.old)) }
    ensures old_fault { IfErr result (λ e. (fault : OpenFault) → e ≡ MigrateFault.Old fault → IsTrue D.tells → OldRefuses geometry.now (D.text old.old) fault) }
    ensures wrong_size { IfErr result (λ e. (fault : OpenFault) → e ≡ MigrateFault.Old fault → NotSize fault ⊎ OldRefuses geometry.now (D.text old.old) fault) }
    ensures fits { IfErr result (λ e. (fault : OpenFault) → e ≡ MigrateFault.Old fault → NotSize fault → length (D.text old.old) ≡ old_disk_bytes geometry.now) }
    ensures read { OnlyRead (D.text old.old) (D.text old.new) (D.image old.old) (D.image old.new) (D.meter old.old) (D.meter old.new) }
    ensures meter { Lasts (D.meter new.old) (D.meter new.new) }
    ensures old_risen { IsErrOf result (MigrateFault.Old OpenFault.DiskFault) → Rises (faults (D.meter old.old)) (faults (D.meter old.new)) }
    ensures risen { IsErrOf result MigrateFault.New → Rises (faults (D.meter new.old)) (faults (D.meter new.new)) }
    ensures old_calls { MatchResult result (λ r. CountedWhere (old_opening_calls geometry.now + count_held r.1.heads) result ⊥ (D.meter old.old) (D.meter old.new))
        (λ e. (n : ℕ) → HoldsAtMost D.tells geometry.now (D.text old.old) n → CountedWhere (old_opening_calls geometry.now + n) result (e ≡ MigrateFault.Old OpenFault.DiskFault) (D.meter old.old) (D.meter old.new)) }
    ensures calls { MatchResult result (λ r. CountedWhere (copy_calls (count_held r.1.heads)) result ⊥ (D.meter new.old) (D.meter new.new))
        (λ e. (n : ℕ) → HoldsAtMost D.tells geometry.now (D.text old.old) n → CountedWhere (copy_calls n) result (e ≡ MigrateFault.New) (D.meter new.old) (D.meter new.new)) }
    ensures unspent { IsErrOf result MigrateFault.NoMemory → (D.meter new.new).fuse ≡ (D.meter new.old).fuse }
    ensures unplanned { IsErrOf result MigrateFault.NoMemory → (D.meter new.new).planned ≡ (D.meter new.old).planned }
    ensures no_memory { IsErrOf result MigrateFault.NoMemory → ((old.new ≡ old.old) × (new.new ≡ new.old)) ⊎ TookAll (old_opening_calls geometry.now) (D.meter old.old) (D.meter old.new) }
    ensures old_unplanned { IsErrOf result MigrateFault.NoMemory → (D.meter old.new).planned ≡ (D.meter old.old).planned }
    ensures old_refused { IfErr result (λ e. (fault : OpenFault) → e ≡ MigrateFault.Old fault → fault ≢ OpenFault.DiskFault → Took (old_opening_calls geometry.now) result (D.meter old.old) (D.meter old.new)) }
    ensures old_untouched { IfErr result (λ e. (have need : ℕ) → e ≡ MigrateFault.Old (OpenFault.WrongSize have need) → old.new ≡ old.old) }
{
    let Ok(reserved) = reserve(alloc, geometry) else {
        return Err(MigrateFault::NoMemory);
    };
    let mut reserved = reserved;
    let carried = carry_into(alloc, geometry, old, new, &mut reserved);
    let Reserved {
        room,
        cells,
        firsts,
        bins,
    } = reserved;
    let fence = cells.fence;
    drop(cells);
    drop(firsts);
    drop(bins);
    match carried {
        Ok(()) => Ok((fence, room)),
        Err(fault) => {
            drop(room);
            Err(fault)
        }
    }
}

/// The same in memory that was taken before.
fn carry_into<D: Disk>(
    alloc: Global,
    geometry: &Geometry,
    old: &mut D,
    new: &mut D,
    reserved: &mut Reserved,
) -> Result<(), MigrateFault>
    requires geometry { IsGeometry geometry.now }
    requires gates { length reserved.old.room.gates.items ≡ 2 * geometry.now.cells }
    requires shut { (c : ℕ) → slice_index reserved.old.room.gates.items c ≡ 0 }
    requires heads { length reserved.old.room.heads ≡ 2 * geometry.now.cells }
    requires empty { (c : ℕ) → in_cell reserved.old.room.heads c ≡ None }
    requires buffer { length reserved.old.room.buffer.items ≡ slot_of geometry.now }
    requires old_gates { length reserved.old.cells.gates.items ≡ geometry.now.cells }
    requires old_heads { length reserved.old.cells.heads.items ≡ geometry.now.cells }
    requires old_empty { (c : ℕ) → in_cell reserved.old.cells.heads.items c ≡ None }
    requires firsts { IsEmpty reserved.old.firsts }
    requires spare { geometry.now.cells ≤ spare reserved.old.firsts }
    requires bins { 48 + 8 * length reserved.old.bins.items ≡ slot_of geometry.now }
    ensures open { OnOk result (IsOpen D.tells (D.text new.new) (D.image new.new) geometry.now reserved.new.cells.fence reserved.new.room.gates.items reserved.new.room.heads) }
    ensures gates { OnOk result (length reserved.new.room.gates.items ≡ 2 * geometry.now.cells) }
    ensures heads { OnOk result (length reserved.new.room.heads ≡ 2 * geometry.now.cells) }
    ensures buffer { OnOk result (length reserved.new.room.buffer.items ≡ slot_of geometry.now) }
    ensures pairs { OnOk result (IsTrue D.tells → HoldsBoth geometry.now reserved.new.cells.fence (D.text old.old) (D.text new.new)) }
    ensures crash { IfErr result (λ e. IsTrue D.tells → (t : List ℕ) → D.image new.new t → D.image new.old t ⊎ IsShut t ⊎ CarriesOver geometry.now (D.text old.old) t) }
    ensures refused { IfErr result (λ e. (fault : OpenFault) → e ≡ MigrateFault.Old fault → (fault ≡ OpenFault.DiskFault) ⊎ (new.new ≡ new.old)) }
    ensures old_fault { IfErr result (λ e. (fault : OpenFault) → e ≡ MigrateFault.Old fault → IsTrue D.tells → OldRefuses geometry.now (D.text old.old) fault) }
    ensures wrong_size { IfErr result (λ e. (fault : OpenFault) → e ≡ MigrateFault.Old fault → NotSize fault ⊎ OldRefuses geometry.now (D.text old.old) fault) }
    ensures fits { IfErr result (λ e. (fault : OpenFault) → e ≡ MigrateFault.Old fault → NotSize fault → length (D.text old.old) ≡ old_disk_bytes geometry.now) }
    ensures read { OnlyRead (D.text old.old) (D.text old.new) (D.image old.old) (D.image old.new) (D.meter old.old) (D.meter old.new) }
    ensures meter { Lasts (D.meter new.old) (D.meter new.new) }
    ensures old_risen { IsErrOf result (MigrateFault.Old OpenFault.DiskFault) → Rises (faults (D.meter old.old)) (faults (D.meter old.new)) }
    ensures risen { IsErrOf result MigrateFault.New → Rises (faults (D.meter new.old)) (faults (D.meter new.new)) }
    ensures old_calls { OnOk result (CountedWhere (old_opening_calls geometry.now + count_held reserved.new.room.heads) result ⊥ (D.meter old.old) (D.meter old.new)) }
    ensures calls { OnOk result (CountedWhere (copy_calls (count_held reserved.new.room.heads)) result ⊥ (D.meter new.old) (D.meter new.new)) }
    ensures old_most { IsErr result → (n : ℕ) → HoldsAtMost D.tells geometry.now (D.text old.old) n → CountedWhere (old_opening_calls geometry.now + n) result (IsErrOf result (MigrateFault.Old OpenFault.DiskFault)) (D.meter old.old) (D.meter old.new) }
    ensures most { IsErr result → (n : ℕ) → HoldsAtMost D.tells geometry.now (D.text old.old) n → CountedWhere (copy_calls n) result (IsErrOf result MigrateFault.New) (D.meter new.old) (D.meter new.new) }
    ensures unspent { IsErrOf result MigrateFault.NoMemory → (D.meter new.new).fuse ≡ (D.meter new.old).fuse }
    ensures unplanned { IsErrOf result MigrateFault.NoMemory → (D.meter new.new).planned ≡ (D.meter new.old).planned }
    ensures old_opened { IsErrOf result MigrateFault.NoMemory → TookAll (old_opening_calls geometry.now) (D.meter old.old) (D.meter old.new) }
    ensures old_refused { IfErr result (λ e. (fault : OpenFault) → e ≡ MigrateFault.Old fault → fault ≢ OpenFault.DiskFault → Took (old_opening_calls geometry.now) result (D.meter old.old) (D.meter old.new)) }
    ensures old_untouched { IfErr result (λ e. (have need : ℕ) → e ≡ MigrateFault.Old (OpenFault.WrongSize have need) → old.new ≡ old.old) }
{
    match open_old(old, geometry, &mut reserved.cells, &mut reserved.firsts) {
        Ok(()) => {}
        Err(fault) => return Err(MigrateFault::Old(fault)),
    }
    copy(
        alloc,
        geometry,
        &reserved.cells,
        old,
        new,
        &mut reserved.room.buffer,
        &mut reserved.bins,
    )?;
    pair_up(&reserved.cells.heads, &mut reserved.room.heads);
    Ok(())
}

/// The memory of a migration.
#[derive(Drop)]
struct Reserved {
    /// Of the new disk.
    room: CellsMemory,
    /// Of the old disk.
    cells: OldCells,
    firsts: Firsts,
    /// Of one record.
    bins: Vec<u64>,
}

fn reserve(alloc: Global, geometry: &Geometry) -> Result<Reserved, AllocError>
    requires { IsGeometry geometry.now }
    ensures gates { IfOk result (λ r. length r.room.gates.items ≡ 2 * geometry.now.cells) }
    ensures shut { IfOk result (λ r. (c : ℕ) → slice_index r.room.gates.items c ≡ 0) }
    ensures heads { IfOk result (λ r. length r.room.heads ≡ 2 * geometry.now.cells) }
    ensures empty { IfOk result (λ r. (c : ℕ) → in_cell r.room.heads c ≡ None) }
    ensures buffer { IfOk result (λ r. length r.room.buffer.items ≡ slot_of geometry.now) }
    ensures old_gates { IfOk result (λ r. length r.cells.gates.items ≡ geometry.now.cells) }
    ensures old_heads { IfOk result (λ r. length r.cells.heads.items ≡ geometry.now.cells) }
    ensures old_empty { IfOk result (λ r. (c : ℕ) → in_cell r.cells.heads.items c ≡ None) }
    ensures firsts { IfOk result (λ r. IsEmpty r.firsts) }
    ensures spare { IfOk result (λ r. geometry.now.cells ≤ spare r.firsts) }
    ensures bins { IfOk result (λ r. 48 + 8 * length r.bins.items ≡ slot_of geometry.now) }
{
    Ok(Reserved {
        room: CellsMemory::new(alloc, geometry)?,
        cells: OldCells::new(alloc, geometry)?,
        firsts: HashMap::with_capacity(alloc, geometry.cells as usize)?,
        bins: Vec::from_elem(alloc, 0, geometry.layout.max_bins())?,
    })
}
