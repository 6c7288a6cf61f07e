//! Two disks of version 1, and migrations of them that stop at each device call.
//!
//! One disk has three cells: the first holds a record in its slot 0, the second one in its slot 1, and the
//! third holds nothing. The other has 64 cells, of which the last holds a record in its slot 1. Bytes that are
//! not looked at are no zeros.
ghost use Rattle.std.specs.Prelude.{◌≡◌};
ghost use Rattle.mj_angles.specs.Layout.{bsize_of};
ghost use Rattle.rz_cells_slots.specs.Shape.{IsGeometry};

use crate::damage::{bad, damaged, twice};
use crate::making::{alter, bytes_of, disk_of, fill, write, zeros};
use rz_cells::{Cells, Geometry, MigrateFault, OpenFault};
use rz_disk::{Disk, Fused, PlainDisk};
use rz_events::{HeaderField, Layout};
use std::alloc::{AllocError, Global};
use std::process::Abort;
use std::test::Fail;

const THREE: Geometry = Geometry {
    layout: Layout::L0,
    bsize: 0,
    node: 1,
    cells: 3,
};

/// Of the old disk: its bytes, and where the picked slots begin.
const OLD_SIZE: usize = 12691;

const OLD_SLOTS: [usize; 3] = [67, 6379, 8483];

/// Of the new disk: its bytes, and where the first slots of the first cells of the pairs begin.
const NEW_SIZE: usize = 25414;

const NEW_SLOTS: [usize; 2] = [70, 8518];

/// The fields of the two heads that are no zeros, up to the base: offset and byte.
const FIRST_FIELDS: [(usize, u8); 4] = [(0, 5), (8, 1), (24, 2), (36, 5)];

const SECOND_FIELDS: [(usize, u8); 4] = [(0, 9), (8, 7), (34, 1), (37, 16)];

fn write_fields(bytes: &mut Vec<u8>, slot: usize, fields: &[(usize, u8)]) {
    for (at, byte) in fields.iter() {
        alter(bytes, slot.saturating_add(*at), *byte);
    }
}

/// A header with fence 3 and an open gate, of so many cells or pairs.
fn write_header(bytes: &mut Vec<u8>, magic: &[u8], cells: u8) {
    write(bytes, 0, magic);
    for (at, byte) in [(10, 1), (12, cells), (16, 3), (32, 1)] {
        alter(bytes, at, byte);
    }
}

fn old_bytes(alloc: Global) -> Result<Vec<u8>, AllocError> {
    let mut bytes = zeros(alloc, OLD_SIZE)?;
    write_header(&mut bytes, b"MJROZO01", 3);
    fill(&mut bytes, 33, 31);
    write(&mut bytes, 64, &[254, 3, 2]);
    fill(&mut bytes, OLD_SLOTS[0] + 40, 8 * 258);
    write_fields(&mut bytes, OLD_SLOTS[0], &FIRST_FIELDS);
    fill(&mut bytes, 2171, 4208);
    fill(&mut bytes, OLD_SLOTS[1] + 40, 8 * 257);
    write_fields(&mut bytes, OLD_SLOTS[1], &SECOND_FIELDS);
    write(&mut bytes, OLD_SLOTS[1] + 2096, &[9; 8]);
    fill(&mut bytes, OLD_SLOTS[2] + 8, 4200);
    Ok(bytes)
}

/// The same fence and records, each with eight zeros behind its head.
fn new_bytes(alloc: Global) -> Result<Vec<u8>, AllocError> {
    let mut bytes = zeros(alloc, NEW_SIZE)?;
    write_header(&mut bytes, b"MJROZO02", 3);
    fill(&mut bytes, NEW_SLOTS[0] + 48, 8 * 258);
    write_fields(&mut bytes, NEW_SLOTS[0], &FIRST_FIELDS);
    fill(&mut bytes, NEW_SLOTS[1] + 48, 8 * 257);
    write_fields(&mut bytes, NEW_SLOTS[1], &SECOND_FIELDS);
    Ok(bytes)
}

const MANY: Geometry = Geometry {
    layout: Layout::L0,
    bsize: 0,
    node: 1,
    cells: 64,
};

/// Where the one record stands: in slot 127 of the old disk and in slot 252 of the new one.
const LAST_OLD_SLOT: usize = 128 + 127 * 2104;

const LAST_NEW_SLOT: usize = 192 + 252 * 2112;

/// The bytes of a record of stamp 5 that are no zeros, and its last bin, which stands `head` bytes and 257
/// bins behind its begin.
fn write_last(bytes: &mut Vec<u8>, slot: usize, head: usize) {
    let last = head.saturating_add(2063);
    write_fields(bytes, slot, &[(0, 5), (8, 1), (36, 5), (last, 7)]);
}

fn many_old_bytes(alloc: Global) -> Result<Vec<u8>, AllocError> {
    let mut bytes = zeros(alloc, 269_440)?;
    write_header(&mut bytes, b"MJROZO01", 64);
    write_last(&mut bytes, LAST_OLD_SLOT, 40);
    alter(&mut bytes, 127, 1);
    Ok(bytes)
}

fn many_new_bytes(alloc: Global) -> Result<Vec<u8>, AllocError> {
    let mut bytes = zeros(alloc, 540_864)?;
    write_header(&mut bytes, b"MJROZO02", 64);
    write_last(&mut bytes, LAST_NEW_SLOT, 48);
    Ok(bytes)
}

/// What comes back of a migration that fails. What it made goes where it does not fail.
fn failed(
    alloc: Global,
    geometry: Geometry,
    old: &mut Fused<PlainDisk>,
    passes: Option<u64>,
) -> Option<(Fused<PlainDisk>, MigrateFault)>
    requires geometry { IsGeometry geometry }
    requires small { bsize_of geometry.layout ≡ 0 }
{
    let mut new = Fused::new(PlainDisk::new(alloc));
    new.arm(passes);
    match Cells::migrate(alloc, geometry, old, new) {
        Ok(cells) => {
            drop(cells);
            None
        }
        Err(back) => Some(back),
    }
}

/// The disk that these bytes are carried over to, and its fence.
fn carried(rt: &(impl Abort + AllocGlobal), bytes: &[u8]) -> (Fused<PlainDisk>, u64) {
    let disk = disk_of(rt.alloc(), bytes).expect(rt, "a disk");
    let mut old = Fused::new(disk);
    let new = Fused::new(PlainDisk::new(rt.alloc()));
    let carried = Cells::migrate(rt.alloc(), THREE, &mut old, new);
    drop(old);
    match carried {
        Ok(cells) => {
            let fence = cells.fence();
            (cells.into_disk(), fence)
        }
        Err(_) => rt.panic("not carried over"),
    }
}

#[test]
fn an_old_disk_is_carried_over(rt: HostRuntime) -> Result<(), Fail> {
    let bytes = old_bytes(rt.alloc()).expect(&rt, "memory");
    let wanted = new_bytes(rt.alloc()).expect(&rt, "memory");
    let (mut new, fence) = carried(&rt, &bytes);
    let found = bytes_of(&rt, &mut new);
    let is_right = fence == 3 && found == wanted;
    drop(new);
    drop(found);
    drop(wanted);
    drop(bytes);
    assert!(rt; is_right);
    Ok(())
}

/// Why these bytes are not carried over. The new disk stays without bytes.
fn refused(rt: &(impl Abort + AllocGlobal), bytes: &[u8]) -> Option<OpenFault> {
    let disk = disk_of(rt.alloc(), bytes).expect(rt, "a disk");
    let mut old = Fused::new(disk);
    let back = failed(rt.alloc(), THREE, &mut old, None);
    drop(old);
    match back {
        None => None,
        Some((new, fault)) => {
            let size = new.size();
            drop(new);
            assert!(rt; size == 0);
            fault_of_old(fault)
        }
    }
}

/// What is wrong with the old disk.
fn fault_of_old(fault: MigrateFault) -> Option<OpenFault> {
    match fault {
        MigrateFault::Old(fault) => Some(fault),
        _ => None,
    }
}

/// Bytes that are altered, and the fault of each: it is found before those above it.
fn faults() -> [(usize, u8, OpenFault); 14] {
    [
        (OLD_SLOTS[2], 1, damaged(2)),
        (OLD_SLOTS[1] + 34, 4, damaged(1)),
        (OLD_SLOTS[0] + 37, 16, damaged(0)),
        (OLD_SLOTS[0] + 35, 1, damaged(0)),
        (OLD_SLOTS[0] + 34, 4, damaged(0)),
        (OLD_SLOTS[0] + 33, 1, damaged(0)),
        (OLD_SLOTS[0] + 32, 1, damaged(0)),
        (24, 1, bad(HeaderField::Reserved, 1)),
        (13, 1, bad(HeaderField::Cells, 259)),
        (10, 2, bad(HeaderField::Node, 2)),
        (9, 1, bad(HeaderField::Bsize, 1)),
        (8, 1, bad(HeaderField::Layout, 1)),
        (0, 0, bad(HeaderField::Magic, 0x3130_4f5a_4f52_4a00)),
        (32, 2, OpenFault::Unformatted),
    ]
}

#[test]
fn an_old_disk_is_refused_for_its_first_fault(rt: HostRuntime) -> Result<(), Fail> {
    let mut all = old_bytes(rt.alloc()).expect(&rt, "memory");
    for (at, byte, fault) in faults() {
        alter(&mut all, at, byte);
        let found = refused(&rt, &all);
        assert!(rt; found == Some(fault), "at {at}");
    }
    drop(all);
    Ok(())
}

#[test]
fn a_key_in_two_old_cells_is_refused(rt: HostRuntime) -> Result<(), Fail> {
    let mut bytes = old_bytes(rt.alloc()).expect(&rt, "memory");
    alter(&mut bytes, OLD_SLOTS[1] + 8, 1);
    let one = refused(&rt, &bytes);
    alter(&mut bytes, OLD_SLOTS[1] + 24, 2);
    let both = refused(&rt, &bytes);
    drop(bytes);
    assert!(rt; (one, both) == (None, Some(twice(0, 1))));
    Ok(())
}

/// Whether a disk opens after a crash. It then has these bytes, whatever its gate's other bits are.
fn opens(
    rt: &(impl Abort + AllocGlobal),
    geometry: Geometry,
    disk: Fused<PlainDisk>,
    pick: u64,
    whole: &[u8],
) -> bool
    requires { IsGeometry geometry }
{
    let mut disk = disk;
    disk.arm(None);
    disk.crash(pick);
    match Cells::reopen(rt.alloc(), geometry, disk) {
        Ok(cells) => {
            let mut disk = cells.into_disk();
            let left = bytes_of(rt, &mut disk);
            drop(disk);
            let is_whole = is_alike(&left, whole);
            drop(left);
            assert!(rt; is_whole);
            true
        }
        Err((disk, fault)) => {
            drop(disk);
            assert!(rt; fault == OpenFault::Unformatted);
            false
        }
    }
}

/// Whether disks have the same bytes, whatever the other bits of their gates are.
fn is_alike(left: &[u8], whole: &[u8]) -> bool {
    left.get(..32) == whole.get(..32) && left.get(33..) == whole.get(33..)
}

/// Whether the new disk opens after a migration that it stops and a crash, or None where it does not stop.
fn stop_of_new(
    rt: &(impl Abort + AllocGlobal),
    geometry: Geometry,
    old: &mut Fused<PlainDisk>,
    whole: &[u8],
    passes: u64,
    pick: u64,
) -> Option<bool>
    requires geometry { IsGeometry geometry }
    requires small { bsize_of geometry.layout ≡ 0 }
{
    let (new, fault) = failed(rt.alloc(), geometry, old, Some(passes))?;
    assert!(rt; fault == MigrateFault::New);
    Some(opens(rt, geometry, new, pick, whole))
}

/// The calls of the new disk: a write of the header and two of records, a sync, a write of the gate
/// and a sync. Whether a crash after the first of them that fails leaves a disk that opens.
fn opens_after(passes: u64, pick: u64) -> bool {
    (passes == 4 || passes == 5) && (pick == 1 || pick == 301)
}

/// An old disk of these bytes.
fn old_disk(rt: &(impl Abort + AllocGlobal), bytes: &[u8]) -> Fused<PlainDisk> {
    Fused::new(disk_of(rt.alloc(), bytes).expect(rt, "a disk"))
}

/// The old disk has to stay as it is.
fn end(rt: &(impl Abort + AllocGlobal), old: Fused<PlainDisk>, bytes: &[u8]) {
    let mut old = old;
    old.arm(None);
    let left = bytes_of(rt, &mut old);
    drop(old);
    let is_same = left.as_slice() == bytes;
    drop(left);
    assert!(rt; is_same);
}

#[test]
fn a_stop_of_the_new_disk_leaves_it_whole_or_shut(rt: HostRuntime) -> Result<(), Fail> {
    let bytes = old_bytes(rt.alloc()).expect(&rt, "memory");
    let whole = new_bytes(rt.alloc()).expect(&rt, "memory");
    let mut old = old_disk(&rt, &bytes);
    for pick in [0, 1, 300, 301] {
        for passes in 0..7 {
            let is_open = stop_of_new(&rt, THREE, &mut old, &whole, passes, pick);
            let wanted = if passes == 6 {
                None
            } else {
                Some(opens_after(passes, pick))
            };
            assert!(rt; is_open == wanted, "passes {passes}, pick {pick}");
        }
    }
    end(&rt, old, &bytes);
    drop(whole);
    drop(bytes);
    Ok(())
}

/// The calls of the new disk: a write of the header and one of the record, a sync, a write of the gate and
/// a sync.
#[test]
fn a_stop_of_a_new_disk_of_64_pairs(rt: HostRuntime) -> Result<(), Fail> {
    let bytes = many_old_bytes(rt.alloc()).expect(&rt, "memory");
    let whole = many_new_bytes(rt.alloc()).expect(&rt, "memory");
    let mut old = old_disk(&rt, &bytes);
    for pick in [0, 1, 301] {
        for passes in 0..6 {
            let is_open = stop_of_new(&rt, MANY, &mut old, &whole, passes, pick);
            let wanted = if passes == 5 {
                None
            } else {
                Some(passes >= 3 && pick != 0)
            };
            assert!(rt; is_open == wanted, "passes {passes}, pick {pick}");
        }
    }
    end(&rt, old, &bytes);
    drop(whole);
    drop(bytes);
    Ok(())
}

/// Whether a migration that the old disk stops leaves bytes on the new one, or None where it does not stop.
/// They must not open.
fn stop_of_old(
    rt: &(impl Abort + AllocGlobal),
    geometry: Geometry,
    old: &mut Fused<PlainDisk>,
    passes: u64,
) -> Option<bool>
    requires geometry { IsGeometry geometry }
    requires small { bsize_of geometry.layout ≡ 0 }
{
    old.arm(Some(passes));
    let (new, fault) = failed(rt.alloc(), geometry, old, None)?;
    assert!(rt; fault == MigrateFault::Old(OpenFault::DiskFault));
    let has_bytes = new.size() > 0;
    if has_bytes {
        assert!(rt; !opens(rt, geometry, new, 1, &[]));
    } else {
        drop(new);
    }
    Some(has_bytes)
}

/// The calls of the old disk: a sync, a read of the header, one of the gates, one for each cell, and one
/// for the bins of each record. The new disk is there before the bins are read.
#[test]
fn a_stop_of_the_old_disk_leaves_it_as_it_is(rt: HostRuntime) -> Result<(), Fail> {
    let bytes = old_bytes(rt.alloc()).expect(&rt, "memory");
    let mut old = old_disk(&rt, &bytes);
    for passes in 0..9 {
        let has_bytes = stop_of_old(&rt, THREE, &mut old, passes);
        let wanted = if passes == 8 { None } else { Some(passes >= 6) };
        assert!(rt; has_bytes == wanted, "passes {passes}");
    }
    end(&rt, old, &bytes);
    drop(bytes);
    Ok(())
}

#[test]
fn a_stop_of_an_old_disk_of_64_cells(rt: HostRuntime) -> Result<(), Fail> {
    let bytes = many_old_bytes(rt.alloc()).expect(&rt, "memory");
    let mut old = old_disk(&rt, &bytes);
    for passes in 0..69 {
        let has_bytes = stop_of_old(&rt, MANY, &mut old, passes);
        let wanted = if passes == 68 {
            None
        } else {
            Some(passes == 67)
        };
        assert!(rt; has_bytes == wanted, "passes {passes}");
    }
    end(&rt, old, &bytes);
    drop(bytes);
    Ok(())
}
