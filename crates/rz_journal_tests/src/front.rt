//! A disk beside its bytes, worked out by hand.

ghost use Rattle.std.specs.Prelude.{◌≡◌};
ghost use Rattle.rz_journal.specs.Stands.{IsHalfOpen};

use crate::making::all_stand;
use rz_disk::{Disk, PlainDisk};
use rz_journal::{Entries, close_row, push_entry};
use std::alloc::{AllocError, Global};
use std::process::Abort;
use std::test::Fail;

// The front of a disk with the one entry `ab`: the header, whose gate is open and picks the first half,
// and then the entry behind its gate and its length, with a shut gate behind it.
const FRONT: &[u8] =
    b"MJROZJ01\0\0\0\0\0\0\0\0\0\0\0\0\0\0\0\0\0\0\0\0\0\0\0\0\x01\0\0\0\0\0\0\0\0\0\0\0\0\0\0\0\0\0\0\0\0\0\0\0\0\0\0\0\0\0\0\0\x01\x02\0\0\0ab\0";

/// The one entry `ab`.
fn row_of_one(alloc: Global) -> Result<Vec<u8>, AllocError> {
    let mut row = Vec::new(alloc);
    push_entry(b"ab", &mut row)?;
    close_row(&mut row)?;
    Ok(row)
}

/// A disk made anew, without an entry.
fn formatted<D: Disk>(rt: &(impl Abort + AllocGlobal), disk: D) -> Entries<D>
    ensures open { IsHalfOpen D.tells (D.text result.disk) (D.image result.disk) result.half result.used }
    ensures used { result.used ≡ 0 }
{
    match Entries::format(rt.alloc(), disk) {
        Ok(entries) => entries,
        Err(_) => rt.panic("not formatted"),
    }
}

/// A disk made anew, with the one entry `ab`.
fn disk_of_one<D: Disk>(rt: &(impl Abort + AllocGlobal), disk: D) -> D {
    let row = row_of_one(rt.alloc()).expect(rt, "memory");
    let mut entries = formatted(rt, disk);
    let size = row.len() as u64;
    assert!(rt; size > 0 && entries.has_room(size));
    let appended = entries.append(row.as_slice());
    drop(row);
    appended.expect(rt, "an append");
    entries.into_disk()
}

#[test]
fn one_entry_on_a_new_disk(rt: HostRuntime) -> Result<(), Fail> {
    let mut disk = disk_of_one(&rt, PlainDisk::new(rt.alloc()));
    let stands = all_stand(&rt, &mut disk, &[(0, FRONT)]);
    drop(disk);
    assert!(rt; stands);
    Ok(())
}
