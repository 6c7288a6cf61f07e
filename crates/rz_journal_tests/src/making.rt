//! Disks of a journal, made of bytes.

use crate::sample::{FIRST_HALF, HEADER, SIZE};
use rz_config::Volume;
use rz_disk::{Disk, PlainDisk};
use rz_journal::{Journal, JournalFault};
use std::alloc::{AllocError, Global};
use std::process::Abort;

/// Writes bytes and syncs them.
pub fn store<D: Disk>(rt: &impl Abort, disk: &mut D, at: u64, bytes: &[u8]) {
    let size = disk.size();
    assert!(rt; at <= size && bytes.len() as u64 <= size - at);
    disk.write_at(at, bytes).expect(rt, "a write");
    disk.sync().expect(rt, "a sync");
}

/// Whether these bytes stand on a disk.
fn stands<D: Disk>(rt: &(impl Abort + AllocGlobal), disk: &mut D, at: u64, bytes: &[u8]) -> bool {
    let mut there = Vec::from_elem(rt.alloc(), 0u8, bytes.len()).expect(rt, "memory");
    let size = disk.size();
    assert!(rt; at <= size && there.len() as u64 <= size - at);
    disk.read(at, &mut there).expect(rt, "a read");
    let stands = there.as_slice() == bytes;
    drop(there);
    stands
}

/// Whether all of these bytes stand on a disk, each row at its address.
pub fn all_stand<D: Disk>(
    rt: &(impl Abort + AllocGlobal),
    disk: &mut D,
    rows: &[(u64, &[u8])],
) -> bool {
    for (at, bytes) in rows {
        if !stands(rt, disk, *at, bytes) {
            return false;
        }
    }
    true
}

/// Bytes one behind the other.
pub fn joined(alloc: Global, pieces: &[&[u8]]) -> Result<Vec<u8>, AllocError> {
    let mut all = Vec::new(alloc);
    for piece in pieces {
        all.extend_from_slice(piece)?;
    }
    Ok(all)
}

/// Makes a disk anew, formatted and with these bytes at the begin of its first half, by five calls.
pub fn prepare<D: Disk>(rt: &(impl Abort + AllocGlobal), disk: &mut D, bytes: &[u8]) {
    disk.reset(rt.alloc(), SIZE).expect(rt, "a disk");
    store(rt, disk, 0, HEADER);
    store(rt, disk, FIRST_HALF, bytes);
}

/// A formatted disk whose first half begins with these bytes.
pub fn disk_with(rt: &(impl Abort + AllocGlobal), bytes: &[u8]) -> PlainDisk {
    let mut disk = PlainDisk::new(rt.alloc());
    prepare(rt, &mut disk, bytes);
    disk
}

/// The name of the directory that is made and taken away: a slash and 255 bytes.
pub fn long_path(alloc: Global) -> Result<Vec<u8>, AllocError> {
    let mut path = Vec::new(alloc);
    path.push(b'/')?;
    path.extend_from_slice(&[b'n'; 255])?;
    Ok(path)
}

/// The entries of so many calls that make this directory and take it away in turn. Each has 265 bytes: the
/// gate, the length of four, the kind, the number of `mkdir` or `rmdir`, and the path of 256 behind its length
/// of two.
pub fn filling(alloc: Global, count: u64) -> Result<Vec<u8>, AllocError> {
    let path = long_path(alloc)?;
    let mut row = Vec::new(alloc);
    for number in 0..count {
        let front = if number % 2 == 0 {
            b"\x01\x04\x01\0\0\x01\x03\0\x01"
        } else {
            b"\x01\x04\x01\0\0\x01\x02\0\x01"
        };
        row.extend_from_slice(front)?;
        row.extend_from_slice(path.as_slice())?;
    }
    Ok(row)
}

/// Why a disk is not opened, and the disk.
pub fn opened<D: Disk>(rt: &(impl Abort + AllocGlobal), disk: D) -> (D, Option<JournalFault>) {
    let volume = Volume::plain(rt.alloc()).expect(rt, "memory");
    match Journal::reopen(rt.alloc(), volume, disk) {
        Ok(journal) => (journal.into_disk(), None),
        Err((disk, fault)) => (disk, Some(fault)),
    }
}

/// Whether a disk is opened. It goes then.
pub fn is_opened<D: Disk>(rt: &(impl Abort + AllocGlobal), disk: D) -> bool {
    let (disk, fault) = opened(rt, disk);
    drop(disk);
    fault.is_none()
}

/// A journal on a disk that is opened.
pub fn open<D: Disk>(rt: &(impl Abort + AllocGlobal), disk: D) -> Journal<D> {
    let volume = Volume::plain(rt.alloc()).expect(rt, "memory");
    match Journal::reopen(rt.alloc(), volume, disk) {
        Ok(journal) => journal,
        Err(_) => rt.panic("not opened"),
    }
}
