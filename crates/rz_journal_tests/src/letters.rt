//! Entries of a journal, each behind its gate and its length in four bytes. A letter names each.

use crate::making::{disk_with, opened};
use crate::sample::FIRST_HALF;
use rz_disk::PlainDisk;
use rz_journal::JournalFault;
use std::alloc::{AllocError, Global};
use std::process::Abort;

/// The disk of a journal with the entries of these letters.
pub fn disk_of(rt: &(impl Abort + AllocGlobal), letters: &[u8]) -> PlainDisk {
    let row = row_of(rt.alloc(), letters).expect(rt, "memory");
    let disk = disk_with(rt, row.as_slice());
    drop(row);
    disk
}

/// The entries of these letters.
fn row_of(alloc: Global, letters: &[u8]) -> Result<Vec<u8>, AllocError> {
    let mut row = Vec::new(alloc);
    for letter in letters {
        row.extend_from_slice(entry(*letter))?;
    }
    Ok(row)
}

/// The number of the entry of a letter and where it begins, or those of the place behind the last.
pub fn place_of(letters: &[u8], letter: u8) -> (u64, u64) {
    let mut number = 0u64;
    let mut at = FIRST_HALF;
    for other in letters {
        if *other == letter {
            break;
        }
        number = number.saturating_add(1);
        at = at.saturating_add(entry(*other).len() as u64);
    }
    (number, at)
}

/// Opens a disk, and gives it back with the number of the entry that is damaged, or none where it opens.
pub fn damaged(rt: &(impl Abort + AllocGlobal), disk: PlainDisk) -> (PlainDisk, Option<u64>) {
    let (disk, fault) = opened(rt, disk);
    (disk, number_in(fault))
}

/// The number of the damaged entry. A fault of another kind is told as a number that no entry has.
fn number_in(fault: Option<JournalFault>) -> Option<u64> {
    match fault {
        None => None,
        Some(JournalFault::Damaged { entry }) => Some(entry),
        Some(_) => Some(u64::MAX),
    }
}

/// Parts of an export, in their order.
pub const PART_LETTERS: &[u8] = b"CRFLDdfhl0124";

/// Calls that a new store accepts one after the other.
pub const CALL_LETTERS: &[u8] = b"mcbBpeksynurM";

/// The entry of a letter.
pub fn entry(letter: u8) -> &'static [u8] {
    match letter {
        b'a'..=b'z' => call_or_name(letter),
        b'B' | b'M' => call_or_name(letter),
        _ => part(letter),
    }
}

/// The counters, the objects, the blocks and the enrolments.
fn part(letter: u8) -> &'static [u8] {
    match letter {
        // the last number drawn is 4, and object 4 was made last
        b'C' => b"\x01\x19\0\0\0\x05\x04\0\0\0\0\0\0\0\x04\0\0\0\0\0\0\0\0\0\0\0\0\0\0\0",
        // the root: mode 0o755
        b'R' =>
            b"\x01\x29\0\0\0\x06\0\0\0\0\0\0\0\0\0\0\0\0\0\0\0\0\x01\xed\x01\0\0\0\0\0\0\0\0\0\0\0\0\0\0\0\0\0\0\0\0\0",
        // file 2: mode 0o600, time 258, size 8192, cluster 1, on the nodes 1 to 4
        b'F' =>
            b"\x01\x31\0\0\0\x06\x02\0\0\0\0\0\0\0\0\0\0\0\0\0\0\0\0\x80\x01\x02\x01\0\0\0\0\0\0\0\x20\0\0\0\0\0\0\x01\0\x04\x01\0\x02\0\x03\0\x04\0\0\0",
        // link 3: mode 0o777, size 1, to `t`
        b'L' =>
            b"\x01\x2a\0\0\0\x06\x03\0\0\0\0\0\0\0\0\0\0\0\0\0\0\0\x02\xff\x01\0\0\0\0\0\0\0\0\x01\0\0\0\0\0\0\0\0\0\0\x01\0t",
        // directory 4: mode 0o755
        b'D' =>
            b"\x01\x29\0\0\0\x06\x04\0\0\0\0\0\0\0\0\0\0\0\0\0\0\0\x01\xed\x01\0\0\0\0\0\0\0\0\0\0\0\0\0\0\0\0\0\0\0\0\0",
        // block 0 of file 2: begun with stamp 1, nothing published
        b'0' =>
            b"\x01\x22\0\0\0\x08\x02\0\0\0\0\0\0\0\0\0\0\0\0\0\0\0\0\0\0\0\0\0\0\0\x01\0\0\0\0\0\0\0\0",
        // block 1: begun with stamp 2, which is published with mask 7 and 4096 bytes
        b'1' =>
            b"\x01\x30\0\0\0\x08\x02\0\0\0\0\0\0\0\0\0\0\0\0\0\0\0\x01\0\0\0\0\0\0\0\x02\0\0\0\0\0\0\0\x01\x02\0\0\0\0\0\0\0\x07\0\0\x10\0\0",
        // the loss 1 of node 2 with fence 3, and that of node 4 with fence 4
        b'2' => b"\x01\x13\0\0\0\x09\x02\0\x01\0\0\0\0\0\0\0\x03\0\0\0\0\0\0\0",
        b'4' => b"\x01\x13\0\0\0\x09\x04\0\x01\0\0\0\0\0\0\0\x04\0\0\0\0\0\0\0",
        _ => b"",
    }
}

/// The names, and the calls.
fn call_or_name(letter: u8) -> &'static [u8] {
    match letter {
        // the names `/d` of object 4, `/d/f` and `/h` of object 2, and `/l` of object 3
        b'd' => b"\x01\x17\0\0\0\x07\x02\0\0\0/d\x04\0\0\0\0\0\0\0\0\0\0\0\0\0\0\0",
        b'f' => b"\x01\x19\0\0\0\x07\x04\0\0\0/d/f\x02\0\0\0\0\0\0\0\0\0\0\0\0\0\0\0",
        b'h' => b"\x01\x17\0\0\0\x07\x02\0\0\0/h\x02\0\0\0\0\0\0\0\0\0\0\0\0\0\0\0",
        b'l' => b"\x01\x17\0\0\0\x07\x02\0\0\0/l\x03\0\0\0\0\0\0\0\0\0\0\0\0\0\0\0",
        // the directory `/a`, which is object 1, and the file `/a/f`, which is object 2
        b'm' => b"\x01\x06\0\0\0\x01\x03\x02\0/a",
        b'c' => b"\x01\x08\0\0\0\x01\x04\x04\0/a/f",
        // a write of 5 bytes in block 0 of object 2, with stamp 1, and one of 4096 in block 1, with stamp 2
        b'b' => b"\x01\x1d\0\0\0\x02\x02\0\0\0\0\0\0\0\0\0\0\0\0\0\0\0\0\0\0\0\0\0\0\0\x05\0\0\0",
        b'B' => b"\x01\x1d\0\0\0\x02\x02\0\0\0\0\0\0\0\0\0\0\0\0\0\0\0\x01\0\0\0\0\0\0\0\0\x10\0\0",
        // the second is published at the positions 0, 1 and 2
        b'p' =>
            b"\x01\x27\0\0\0\x03\x02\0\0\0\0\0\0\0\0\0\0\0\0\0\0\0\x01\0\0\0\0\0\0\0\x02\0\0\0\0\0\0\0\x07\0\0\x10\0\0",
        // the loss 1 of node 4
        b'e' => b"\x01\x0b\0\0\0\x04\x04\0\x01\0\0\0\0\0\0\0",
        // `/g`, one more name of object 2, and its mode 0o600 and time 258
        b'k' => b"\x01\x0c\0\0\0\x01\x0b\x04\0/a/f\x02\0/g",
        b's' => b"\x01\x10\0\0\0\x01\x09\x02\0/g\x80\x01\x02\x01\0\0\0\0\0\0",
        // the link `/l` to `t`, which is object 3
        b'y' => b"\x01\x09\0\0\0\x01\x0c\x01\0t\x02\0/l",
        // the other name of object 2 becomes `/h`, and the name `/g` goes
        b'n' => b"\x01\x0c\0\0\0\x01\x0a\x04\0/a/f\x02\0/h",
        b'u' => b"\x01\x06\0\0\0\x01\x05\x02\0/g",
        // the directory `/a` goes, and the directory `/d` is made
        b'r' => b"\x01\x06\0\0\0\x01\x02\x02\0/a",
        b'M' => b"\x01\x06\0\0\0\x01\x03\x02\0/d",
        _ => b"",
    }
}
