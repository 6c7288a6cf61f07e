//! Disks of which bytes are altered, and the first fault of each.
ghost use Rattle.rz_cells_slots.specs.Shape.{IsGeometry};

use crate::making::{alter, disk_of, fill, write, zeros};
use rz_cells::{Cells, Geometry, OpenFault};
use rz_disk::{Disk, PlainDisk};
use rz_events::{Head, HeaderField, Layout};
use std::alloc::{AllocError, Global};
use std::process::Abort;
use std::test::Fail;

/// One pair of cells of node 1.
pub const ONE: Geometry = Geometry {
    layout: Layout::L0,
    bsize: 0,
    node: 1,
    cells: 1,
};

/// Two pairs.
const TWO: Geometry = Geometry {
    layout: Layout::L0,
    bsize: 0,
    node: 1,
    cells: 2,
};

/// The bytes of a disk of one pair, and of two.
const ONE_SIZE: usize = 8514;

const TWO_SIZE: usize = 16964;

/// Where the picked slots of the two pairs begin.
const SLOTS: [usize; 4] = [68, 6404, 8516, 12740];

/// A formatted disk with these bytes, zeros but for a header with fence 0.
fn blank(alloc: Global, size: usize, pairs: u8) -> Result<Vec<u8>, AllocError> {
    let mut bytes = zeros(alloc, size)?;
    write(&mut bytes, 0, b"MJROZO02");
    alter(&mut bytes, 10, 1);
    alter(&mut bytes, 12, pairs);
    alter(&mut bytes, 32, 1);
    Ok(bytes)
}

/// The stamps of the first four cells, and why the bytes are not opened.
type Opened = ([u64; 4], Option<OpenFault>);

/// Opens a disk of these bytes.
fn opened(rt: &(impl Abort + AllocGlobal), geometry: Geometry, bytes: &[u8]) -> Opened
    requires { IsGeometry geometry }
{
    let disk = disk_of(rt.alloc(), bytes).expect(rt, "a disk");
    reopened(rt.alloc(), geometry, disk)
}

/// Opens a disk. It goes then.
fn reopened(alloc: Global, geometry: Geometry, disk: PlainDisk) -> Opened
    requires { IsGeometry geometry }
{
    match Cells::reopen(alloc, geometry, disk) {
        Ok(cells) => {
            let stamps = stamps_of(&cells);
            drop(cells);
            (stamps, None)
        }
        Err((disk, fault)) => {
            drop(disk);
            ([0; 4], Some(fault))
        }
    }
}

/// The stamps of the first four cells, and 0 for a cell that holds nothing or is not there.
pub fn stamps_of<D: Disk>(cells: &Cells<D>) -> [u64; 4] {
    let count = 2 * cells.geometry().cells;
    let mut stamps = [0; 4];
    for (cell, stamp) in stamps.iter_mut().enumerate() {
        if (cell as u32) < count {
            *stamp = stamp_of(cells.head(cell as u32));
        }
    }
    stamps
}

/// The stamp of a head, or 0.
fn stamp_of(head: Option<Head>) -> u64 {
    match head {
        Some(head) => head.stamp,
        None => 0,
    }
}

pub fn bad(field: HeaderField, value: u64) -> OpenFault {
    OpenFault::BadHeader { field, value }
}

pub fn damaged(cell: u32) -> OpenFault {
    OpenFault::Damaged { cell }
}

pub fn twice(first: u32, second: u32) -> OpenFault {
    OpenFault::Twice { first, second }
}

/// Two bytes that are altered on a blank disk of one pair, and what is told then.
fn blank_rows() -> [(usize, u8, usize, u8, Opened); 10] {
    let magic = bad(HeaderField::Magic, 0x3230_4f5a_4f52_4a00);
    let layout = bad(HeaderField::Layout, 3);
    let reserved = bad(HeaderField::Reserved, 1);
    [
        (0, 0, 32, 0, ([0; 4], Some(OpenFault::Unformatted))),
        (0, b'M', 32, 2, ([0; 4], Some(OpenFault::Unformatted))),
        (0, b'M', 32, 3, ([0; 4], None)),
        (33, 9, 0, 0, ([0; 4], Some(magic))),
        (33, 9, 8, 3, ([0; 4], Some(layout))),
        (33, 9, 24, 1, ([0; 4], Some(reserved))),
        (33, 9, 66, 1, ([1, 0, 0, 0], None)),
        (101, 1, 66, 1, ([0; 4], Some(damaged(0)))),
        (4290, 2, 66, 1, ([1, 2, 0, 0], None)),
        (4290, 1, 66, 1, ([0; 4], Some(twice(0, 1)))),
    ]
}

/// What is told of a copy of these bytes with two of them altered.
fn told(
    rt: &(impl Abort + AllocGlobal),
    good: &[u8],
    first: (usize, u8),
    second: (usize, u8),
) -> Opened {
    let mut bytes = Vec::from_slice(rt.alloc(), good).expect(rt, "memory");
    alter(&mut bytes, first.0, first.1);
    alter(&mut bytes, second.0, second.1);
    let opened = opened(rt, ONE, &bytes);
    drop(bytes);
    opened
}

#[test]
fn a_blank_disk_is_opened_by_what_stands_on_it(rt: HostRuntime) -> Result<(), Fail> {
    let good = blank(rt.alloc(), ONE_SIZE, 1).expect(&rt, "memory");
    for (at, byte, at_too, byte_too, wanted) in blank_rows() {
        let told = told(&rt, &good, (at, byte), (at_too, byte_too));
        assert!(rt; told == wanted, "at {at_too}");
    }
    drop(good);
    Ok(())
}

#[test]
fn a_disk_that_lacks_a_byte_is_refused(rt: HostRuntime) -> Result<(), Fail> {
    let good = blank(rt.alloc(), ONE_SIZE - 1, 1).expect(&rt, "memory");
    let told = opened(&rt, ONE, good.as_slice());
    drop(good);
    let wanted = OpenFault::WrongSize {
        have: 8513,
        need: 8514,
    };
    assert!(rt; told == ([0; 4], Some(wanted)));
    Ok(())
}

/// Two versions of one block in the first pair, one of another in the second, and a cell that is empty
/// before bytes that are not looked at.
fn two_pairs(alloc: Global) -> Result<Vec<u8>, AllocError> {
    let mut bytes = blank(alloc, TWO_SIZE, 2)?;
    fill(&mut bytes, 33, 31);
    write(&mut bytes, 64, &[254, 1, 2, 128]);
    let fields = [
        (SLOTS[0], 5),
        (SLOTS[0] + 8, 1),
        (SLOTS[0] + 24, 2),
        (SLOTS[0] + 36, 5),
        (SLOTS[0] + 40, 4),
        (SLOTS[1], 9),
        (SLOTS[1] + 8, 1),
        (SLOTS[1] + 24, 2),
        (SLOTS[1] + 34, 3),
        (SLOTS[1] + 40, 3),
        (SLOTS[2], 6),
        (SLOTS[2] + 8, 1),
        (SLOTS[2] + 24, 3),
    ];
    for (at, byte) in fields {
        alter(&mut bytes, at, byte);
    }
    fill(&mut bytes, SLOTS[3] + 8, 2104);
    Ok(bytes)
}

/// Bytes that are altered, and the fault of each: an opening finds the last one first.
fn damages() -> [(usize, u8, OpenFault); 20] {
    [
        (SLOTS[3], 1, damaged(3)),
        (SLOTS[2] + 24, 2, twice(0, 2)),
        (SLOTS[2] + 35, 255, damaged(2)),
        (SLOTS[1], 5, twice(0, 1)),
        (SLOTS[1] + 8, 2, damaged(1)),
        (SLOTS[1] + 33, 1, damaged(1)),
        (SLOTS[1] + 32, 1, damaged(1)),
        (SLOTS[0] + 40, 5, damaged(0)),
        (SLOTS[0] + 37, 16, damaged(0)),
        (SLOTS[0] + 35, 1, damaged(0)),
        (SLOTS[0] + 34, 4, damaged(0)),
        (SLOTS[0] + 33, 4, damaged(0)),
        (SLOTS[0] + 32, 3, damaged(0)),
        (31, 1, bad(HeaderField::Reserved, 0x0100_0000_0000_0000)),
        (13, 1, bad(HeaderField::Cells, 258)),
        (10, 2, bad(HeaderField::Node, 2)),
        (9, 1, bad(HeaderField::Bsize, 1)),
        (8, 1, bad(HeaderField::Layout, 1)),
        (0, 0, bad(HeaderField::Magic, 0x3230_4f5a_4f52_4a00)),
        (32, 2, OpenFault::Unformatted),
    ]
}

#[test]
fn a_disk_is_refused_for_its_first_damage(rt: HostRuntime) -> Result<(), Fail> {
    let mut all = two_pairs(rt.alloc()).expect(&rt, "memory");
    let good = opened(&rt, TWO, &all);
    assert!(rt; good == ([5, 9, 6, 0], None));
    for (at, byte, fault) in damages() {
        alter(&mut all, at, byte);
        let told = opened(&rt, TWO, &all);
        assert!(rt; told == ([0; 4], Some(fault)), "at {at}");
    }
    drop(all);
    Ok(())
}
