//! A journal whose parts leave little room in a half.

use crate::answers::Told;
use crate::links::link;
use crate::making::{all_stand, disk_with, is_opened, open, store};
use crate::sample::{HALF_GATE, SECOND_HALF};
use rz_disk::PlainDisk;
use std::alloc::{AllocError, Global};
use std::process::Abort;
use std::test::Fail;

/// The counters, whose last number drawn is 0 and whose last object is 1: 30 bytes.
const COUNTERS: &[u8] = b"\x01\x19\0\0\0\x05\0\0\0\0\0\0\0\0\x01\0\0\0\0\0\0\0\0\0\0\0\0\0\0\0";

/// The root: 46 bytes.
const ROOT: &[u8] =
    b"\x01\x29\0\0\0\x06\0\0\0\0\0\0\0\0\0\0\0\0\0\0\0\0\x01\xed\x01\0\0\0\0\0\0\0\0\0\0\0\0\0\0\0\0\0\0\0\0\0";

/// The file 1 on the nodes 1 to 4: 54 bytes.
const FILE: &[u8] =
    b"\x01\x31\0\0\0\x06\x01\0\0\0\0\0\0\0\0\0\0\0\0\0\0\0\0\xa4\x01\0\0\0\0\0\0\0\0\0\0\0\0\0\0\0\0\x01\0\x04\x01\0\x02\0\x03\0\x04\0\0\0";

/// The names of the file take 282 bytes each, so all parts take 8,388,502 and leave 74.
const NAMES: u32 = 29_746;

/// A call that sets mode and time of the root: 20 bytes.
const SETATTR: &[u8] = b"\x01\x0f\0\0\0\x01\x09\x01\0/\xed\x01\0\0\0\0\0\0\0\0";

/// A digit of a number, where `unit` is 1 for the last one.
fn digit(number: u32, unit: u32) -> u8 {
    match unit {
        0 => b'0',
        _ => b'0' + (number / unit % 10) as u8,
    }
}

/// The name of this number: a slash, its five digits, and 250 bytes more.
fn push_name(row: &mut Vec<u8>, number: u32) -> Result<(), AllocError> {
    row.extend_from_slice(b"\x01\x15\x01\0\0\x07\0\x01\0\0/")?;
    for unit in [10_000, 1000, 100, 10, 1] {
        row.push(digit(number, unit))?;
    }
    row.extend_from_slice(&[b'n'; 250])?;
    row.extend_from_slice(b"\x01\0\0\0\0\0\0\0\0\0\0\0\0\0\0\0")
}

/// All parts.
fn parts(alloc: Global) -> Result<Vec<u8>, AllocError> {
    let mut row = Vec::new(alloc);
    row.extend_from_slice(COUNTERS)?;
    row.extend_from_slice(ROOT)?;
    row.extend_from_slice(FILE)?;
    for number in 0..NAMES {
        push_name(&mut row, number)?;
    }
    Ok(row)
}

/// What is told by a call whose entry and the parts, with all gates, take so many bytes.
fn full(need: u64) -> Told {
    Told::Full {
        need,
        have: 8_388_576,
    }
}

/// Links with a target and a path of so many bytes, and what is told by each. One takes a byte more than the
/// parts leave, one as many and is refused, and one as many and is accepted. Then the parts take 134 bytes more.
fn links() -> [(usize, usize, Told); 6] {
    [
        (31, 32, full(8_388_577)),
        (0, 63, full(8_388_577)),
        (1024, 255, full(8_389_793)),
        (0, 62, Told::Replied),
        (30, 32, Told::Made(2)),
        (1, 2, full(8_388_651)),
    ]
}

/// The disk behind these calls.
fn asked(rt: &(impl Abort + AllocGlobal), disk: PlainDisk) -> PlainDisk {
    let mut journal = open(rt, disk);
    for (target, size, wanted) in links() {
        let told = link(rt, &mut journal, target, size);
        assert!(rt; told == wanted, "{target} and {size}");
    }
    journal.into_disk()
}

/// Where the parts stand in the half in use, the entry is written behind them.
#[test]
fn parts_leave_room_for_an_entry(rt: HostRuntime) -> Result<(), Fail> {
    let row = parts(rt.alloc()).expect(&rt, "memory");
    let disk = disk_with(&rt, row.as_slice());
    drop(row);
    let mut disk = asked(&rt, disk);
    let stand = all_stand(&rt, &mut disk, &[(HALF_GATE, b"\0".as_slice())]);
    let is_opened = is_opened(&rt, disk);
    assert!(rt; stand && is_opened);
    Ok(())
}

/// The parts and a call behind them.
fn parts_and_call(alloc: Global) -> Result<Vec<u8>, AllocError> {
    let mut row = parts(alloc)?;
    row.extend_from_slice(SETATTR)?;
    Ok(row)
}

/// Where a call stands behind the parts, they are written into the other half first.
#[test]
fn parts_and_an_entry_fill_a_half(rt: HostRuntime) -> Result<(), Fail> {
    let last = SECOND_HALF + 8_388_575;
    let row = parts_and_call(rt.alloc()).expect(&rt, "memory");
    let mut disk = disk_with(&rt, row.as_slice());
    drop(row);
    store(&rt, &mut disk, last, b"\xff");
    let mut disk = asked(&rt, disk);
    let rows = [(HALF_GATE, b"\x01".as_slice()), (last, b"\0".as_slice())];
    let stand = all_stand(&rt, &mut disk, &rows);
    let is_opened = is_opened(&rt, disk);
    assert!(rt; stand && is_opened);
    Ok(())
}
