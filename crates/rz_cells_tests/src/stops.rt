//! Stops at each device call of a put, a clear and a formatting, and what is there after a crash.
//!
//! A disk with a failing call loses what that call was to do. A disk under a fuse loses no write, but each
//! later sync. In both a change counts once its gate is written, and a crash decides on a gate that is not
//! synced.
ghost use Rattle.std.specs.Prelude.{◌≡◌, ◌<◌, ℕ, None, IfOk, vec_len};
ghost use Rattle.rz_cells_slots.specs.Held.{in_cell};
ghost use Rattle.rz_cells.specs.Open.{AreOpen};

use crate::damage::{ONE, stamps_of};
use crate::making::{failing_at, left};
use rz_cells::{Cells, FormatFault, OpenFault};
use rz_disk::{Disk, Fused, MemDisk, PlainDisk};
use rz_events::{Head, Key, Layout};
use std::alloc::{AllocError, Global};
use std::process::Abort;
use std::test::Fail;

const RECORD: Head = Head {
    stamp: 5,
    key: Key { fid: 1, block: 2 },
    layout: Layout::L0,
    bsize: 0,
    position: 0,
    length: 4096,
    base: 3,
};

fn words(alloc: Global) -> Result<Vec<u64>, AllocError>
    ensures { IfOk result (λ v. vec_len v ≡ 258) }
{
    vec![in alloc; 9; 258]
}

/// Cells of fence 7 on a disk that is made anew.
fn formatted<D: Disk>(rt: &(impl Abort + AllocGlobal), disk: D) -> Cells<D>
    ensures open { AreOpen result }
    ensures geometry { result.geometry ≡ ONE }
    ensures empty { (cell : ℕ) → in_cell result.heads cell ≡ None }
{
    match Cells::format(rt.alloc(), ONE, 7, disk) {
        Ok(cells) => cells,
        Err(_) => rt.panic("not formatted"),
    }
}

/// Cells with the record in the first one of an empty pair, on a disk that is made anew.
#[tactic(auto, using(rz_cells_slots::proofs::Made::goes_alone), unfolding(rz_record::specs::Record::bins_of))]
fn with_record<D: Disk>(rt: &(impl Abort + AllocGlobal), disk: D) -> Cells<D>
    ensures open { AreOpen result }
    ensures geometry { result.geometry ≡ ONE }
{
    let bins = words(rt.alloc()).expect(rt, "memory");
    let mut cells = formatted(rt, disk);
    let put = cells.put(0, &RECORD, &bins);
    drop(bins);
    put.expect(rt, "a put");
    cells
}

/// The disk of a put into the first cell of an empty pair, which stops.
#[tactic(auto, using(rz_cells_slots::proofs::Made::goes_alone), unfolding(rz_record::specs::Record::bins_of))]
fn stopped_put<D: Disk>(rt: &(impl Abort + AllocGlobal), disk: D, passes: u64) -> D {
    let bins = words(rt.alloc()).expect(rt, "memory");
    let mut cells = formatted(rt, disk);
    cells.arm(Some(passes));
    let has_stopped = cells.put(0, &RECORD, &bins).is_err();
    drop(bins);
    assert!(rt; has_stopped);
    cells.into_disk()
}

/// The disk of a clear of that cell, which stops.
fn stopped_clear<D: Disk>(rt: &(impl Abort + AllocGlobal), disk: D, passes: u64) -> D {
    let mut cells = with_record(rt, disk);
    cells.arm(Some(passes));
    let has_stopped = cells.clear(0).is_err();
    assert!(rt; has_stopped);
    cells.into_disk()
}

/// The disk of a formatting with fence 8, which stops.
fn stopped_format<D: Disk>(rt: &(impl Abort + AllocGlobal), disk: D, passes: u64) -> D {
    let mut disk = with_record(rt, disk).into_disk();
    disk.arm(Some(passes));
    match Cells::format(rt.alloc(), ONE, 8, disk) {
        Err((disk, fault)) => {
            assert!(rt; matches!(fault, FormatFault::DiskFault));
            disk
        }
        Ok(_) => rt.panic("it did not stop"),
    }
}

/// The fence and the stamps of an open disk, or None where the header is shut.
type Found = Option<(u64, [u64; 4])>;

/// What an opening finds after a crash.
fn found<D: Disk>(rt: &(impl Abort + AllocGlobal), disk: D, pick: u64) -> Found {
    let mut disk = disk;
    disk.arm(None);
    disk.crash(pick);
    match Cells::reopen(rt.alloc(), ONE, disk) {
        Ok(cells) => {
            let found = (cells.fence(), stamps_of(&cells));
            drop(cells);
            Some(found)
        }
        Err((disk, fault)) => {
            drop(disk);
            assert!(rt; fault == OpenFault::Unformatted);
            None
        }
    }
}

const PICKS: [u64; 4] = [0, 1, 300, 301];

/// What stands on the disk before and after.
const EMPTY: Found = Some((7, [0, 0, 0, 0]));

const HELD: Found = Some((7, [5, 0, 0, 0]));

const ANEW: Found = Some((8, [0, 0, 0, 0]));

/// A disk whose call of this number fails.
fn failing(rt: &(impl Abort + AllocGlobal), number: u64) -> MemDisk {
    failing_at(rt.alloc(), number).expect(rt, "memory")
}

/// A disk under a fuse.
fn fused(alloc: Global) -> Fused<PlainDisk> {
    Fused::new(PlainDisk::new(alloc))
}

/// The formatting makes the calls 0 to 4 of the disk, and the put the next four.
#[test]
fn a_put_that_stops_is_done_or_not(rt: HostRuntime) -> Result<(), Fail> {
    for pick in PICKS {
        let by_gate = if left(0, 1, 64, pick) % 2 == 1 {
            HELD
        } else {
            EMPTY
        };
        for call in 0..4 {
            let by_fault = found(&rt, stopped_put(&rt, failing(&rt, 5 + call), 0), pick);
            let by_fuse = found(&rt, stopped_put(&rt, fused(rt.alloc()), call), pick);
            let wanted = (
                if call == 3 { by_gate } else { EMPTY },
                if call >= 2 { by_gate } else { EMPTY },
            );
            assert!(rt; (by_fault, by_fuse) == wanted, "call {call}, pick {pick}");
        }
    }
    Ok(())
}

/// The put before it makes the calls 5 to 8.
#[test]
fn a_clear_that_stops_is_done_or_not(rt: HostRuntime) -> Result<(), Fail> {
    for pick in PICKS {
        let by_gate = if left(1, 0, 64, pick) % 2 == 1 {
            HELD
        } else {
            EMPTY
        };
        for call in 0..4 {
            let by_fault = found(&rt, stopped_clear(&rt, failing(&rt, 9 + call), 0), pick);
            let by_fuse = found(&rt, stopped_clear(&rt, fused(rt.alloc()), call), pick);
            let wanted = (
                if call == 3 { by_gate } else { HELD },
                if call >= 2 { by_gate } else { HELD },
            );
            assert!(rt; (by_fault, by_fuse) == wanted, "call {call}, pick {pick}");
        }
    }
    Ok(())
}

/// A reset that fails leaves what was there, and one that is done leaves a shut header.
#[test]
fn a_formatting_that_stops_is_done_or_shut(rt: HostRuntime) -> Result<(), Fail> {
    for pick in PICKS {
        let by_gate = if left(0, 1, 32, pick) % 2 == 1 {
            ANEW
        } else {
            None
        };
        for call in 0..5 {
            let by_fault = found(&rt, stopped_format(&rt, failing(&rt, 9 + call), 0), pick);
            let wanted = match call {
                0 => HELD,
                4 => by_gate,
                _ => None,
            };
            assert!(rt; by_fault == wanted, "call {call}, pick {pick}");
        }
        for passes in 0..4 {
            let by_fuse = found(&rt, stopped_format(&rt, fused(rt.alloc()), passes), pick);
            let wanted = if passes >= 2 { by_gate } else { None };
            assert!(rt; by_fuse == wanted, "passes {passes}, pick {pick}");
        }
    }
    Ok(())
}
