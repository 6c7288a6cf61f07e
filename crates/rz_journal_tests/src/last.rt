//! The last entry and the last gate of a half.

use crate::answers::Told;
use crate::links::link;
use crate::making::{all_stand, disk_with, filling, is_opened, open, opened, store};
use crate::sample::{FIRST_HALF, HALF_GATE, SECOND_HALF};
use rz_disk::PlainDisk;
use rz_journal::JournalFault;
use std::alloc::{AllocError, Global};
use std::process::Abort;
use std::test::Fail;

/// So many entries of 265 bytes leave 266 bytes of a half.
const COUNT: u64 = 31_654;

/// Where they end, and the last byte of the half.
const END: u64 = FIRST_HALF + 8_388_310;

const LAST: u64 = FIRST_HALF + 8_388_575;

/// The entry of a symbolic link with a target of 100 bytes and a path of so many, which is 154 or 155. It
/// takes 265 bytes or 266.
fn link_entry(alloc: Global, size: u8) -> Result<Vec<u8>, AllocError> {
    let mut row = Vec::new(alloc);
    row.extend_from_slice(&[1, size.wrapping_sub(150), 1, 0, 0, 1, 12, 100, 0])?;
    row.extend_from_slice(&[b't'; 100])?;
    row.extend_from_slice(&[size, 0, b'/'])?;
    for _ in 1..size {
        row.push(b's')?;
    }
    Ok(row)
}

/// A disk of the entries alone, whose last byte is not 0.
fn full_disk(rt: &(impl Abort + AllocGlobal)) -> PlainDisk {
    let row = filling(rt.alloc(), COUNT).expect(rt, "memory");
    let mut disk = disk_with(rt, row.as_slice());
    drop(row);
    store(rt, &mut disk, LAST, b"\xff");
    disk
}

/// The disk of a journal that answered the making of such a link.
fn with_link(rt: &(impl Abort + AllocGlobal), size: usize) -> PlainDisk {
    let mut journal = open(rt, full_disk(rt));
    let told = link(rt, &mut journal, 100, size);
    assert!(rt; told == Told::Made(15_828));
    journal.into_disk()
}

/// Compares what stands on a disk that is opened then: the gate of the half, the entry at its place and the last
/// byte of the first half.
fn stands(rt: &(impl Abort + AllocGlobal), size: u8, half: u8, at: u64, last: u8) {
    let entry = link_entry(rt.alloc(), size).expect(rt, "memory");
    let mut disk = with_link(rt, size as usize);
    let halves = [half];
    let lasts = [last];
    let rows = [
        (HALF_GATE, halves.as_slice()),
        (at, entry.as_slice()),
        (LAST, lasts.as_slice()),
    ];
    let stand = all_stand(rt, &mut disk, &rows);
    drop(entry);
    let is_opened = is_opened(rt, disk);
    assert!(rt; stand && is_opened);
}

/// It stands in the half in use, with the last byte for the gate.
#[test]
fn an_entry_fits_to_the_last_byte(rt: HostRuntime) -> Result<(), Fail> {
    stands(&rt, 154, 0, END, 0);
    Ok(())
}

/// It stands in the other half, behind the counters of 30 bytes and the root of 46.
#[test]
fn an_entry_of_a_byte_more_does_not_fit(rt: HostRuntime) -> Result<(), Fail> {
    stands(&rt, 155, 1, SECOND_HALF + 76, 0xff);
    Ok(())
}

/// What is told of the entries with that of such a link and these bytes behind them.
fn told(rt: &(impl Abort + AllocGlobal), size: u8, behind: &[u8]) -> Option<JournalFault> {
    let entry = link_entry(rt.alloc(), size).expect(rt, "memory");
    let row = filling(rt.alloc(), COUNT).expect(rt, "memory");
    let mut disk = disk_with(rt, row.as_slice());
    drop(row);
    store(rt, &mut disk, END, entry.as_slice());
    store(
        rt,
        &mut disk,
        END.saturating_add(entry.len() as u64),
        behind,
    );
    drop(entry);
    let (disk, fault) = opened(rt, disk);
    drop(disk);
    fault
}

/// The entry of this number is damaged.
fn damaged(entry: u64) -> Option<JournalFault> {
    Some(JournalFault::Damaged { entry })
}

/// An entry that leaves no room for the gate behind it is damaged, and so is an open gate at the end.
#[test]
fn the_last_gate_has_room(rt: HostRuntime) -> Result<(), Fail> {
    for (size, behind, wanted) in [
        (154, b"".as_slice(), None),
        (154, b"\x02".as_slice(), None),
        (154, b"\x01".as_slice(), damaged(31_655)),
        (155, b"".as_slice(), damaged(31_654)),
    ] {
        let fault = told(&rt, size, behind);
        assert!(rt; fault == wanted, "{size}");
    }
    Ok(())
}
