//! What a journal writes.

use crate::answers::{ask, has_replied};
use crate::calls::call;
use crate::making::{all_stand, filling, joined, open, store};
use crate::sample::{CALLS, FIRST_HALF, HEADER, PARTS, SECOND_HALF};
use rz_config::Volume;
use rz_disk::{Disk, PlainDisk};
use rz_events::Call;
use rz_journal::Journal;
use std::alloc::{AllocError, Global};
use std::process::Abort;
use std::test::Fail;

/// Asks a journal each of the calls, to which it is to reply.
fn ask_all<D: Disk>(rt: &(impl Abort + AllocGlobal), journal: &mut Journal<D>) {
    for number in 0..13 {
        let call = call(rt.alloc(), number).expect(rt, "memory");
        let told = ask(rt, journal, &call);
        drop(call);
        assert!(rt; has_replied(told));
    }
}

/// A new journal.
fn formatted<D: Disk>(rt: &(impl Abort + AllocGlobal), disk: D) -> Journal<D> {
    let volume = Volume::plain(rt.alloc()).expect(rt, "memory");
    match Journal::format(rt.alloc(), volume, disk) {
        Ok(journal) => journal,
        Err(_) => rt.panic("not formatted"),
    }
}

/// The disk of a new journal that answered all calls.
fn disk_of_calls<D: Disk>(rt: &(impl Abort + AllocGlobal), disk: D) -> D {
    let mut journal = formatted(rt, disk);
    ask_all(rt, &mut journal);
    journal.into_disk()
}

/// The disk of a journal that answered one more call, which enrolls a loss again.
fn disk_of_one_more<D: Disk>(rt: &(impl Abort + AllocGlobal), disk: D) -> D {
    let mut journal = open(rt, disk);
    let told = ask(rt, &mut journal, &Call::Enroll { node: 4, loss: 1 });
    assert!(rt; has_replied(told));
    journal.into_disk()
}

/// These pieces, and others behind them.
fn row_of(alloc: Global, pieces: &[&[u8]], last: &[u8]) -> Result<Vec<u8>, AllocError> {
    let mut row = joined(alloc, pieces)?;
    row.extend_from_slice(last)?;
    Ok(row)
}

#[test]
fn each_call_has_its_bytes(rt: HostRuntime) -> Result<(), Fail> {
    let row = row_of(rt.alloc(), &CALLS, b"\0").expect(&rt, "memory");
    let mut disk = disk_of_calls(&rt, PlainDisk::new(rt.alloc()));
    let rows = [(0, HEADER), (FIRST_HALF, row.as_slice())];
    let stand = all_stand(&rt, &mut disk, &rows);
    drop(disk);
    drop(row);
    assert!(rt; stand);
    Ok(())
}

/// The calls and the filling leave 12 bytes of the half, so the next entry stands behind the parts.
#[test]
fn each_part_has_its_bytes(rt: HostRuntime) -> Result<(), Fail> {
    let last = b"\x01\x0b\0\0\0\x04\x04\0\x01\0\0\0\0\0\0\0\0";
    let row = row_of(rt.alloc(), &PARTS, last).expect(&rt, "memory");
    let filling = filling(rt.alloc(), 31_654).expect(&rt, "memory");
    let mut disk = disk_of_calls(&rt, PlainDisk::new(rt.alloc()));
    store(&rt, &mut disk, FIRST_HALF + 254, filling.as_slice());
    drop(filling);
    let mut disk = disk_of_one_more(&rt, disk);
    let rows = [(32, b"\x01\x01".as_slice()), (SECOND_HALF, row.as_slice())];
    let stand = all_stand(&rt, &mut disk, &rows);
    drop(disk);
    drop(row);
    assert!(rt; stand);
    Ok(())
}
