//! The entries of a half, read.

ghost use Rattle.std.specs.Prelude.{◌≡◌, ◌+◌, ◌%◌, ◌<◌, length, drop, slice_index, IfOk};
ghost use Rattle.byteorder.specs.Endian.{little_number};
ghost use Rattle.rz_journal.specs.Listed.{IsEntryFound};

use crate::{EntryPlace, place_at};
use rz_journal_text::{EntryFault, JournalEntry, read};
use std::alloc::{AllocError, Global};

/// What stands at an address of a half.
#[derive(Drop)]
pub enum EntryFound {
    /// The entries before are all.
    End,
    /// An entry, and the address behind it.
    Entry { entry: JournalEntry, next: usize },
    /// There is no room for an entry, or no entry has the bytes.
    Damaged,
}

/// What stands at an address of a half.
pub fn next_entry(alloc: Global, half: &[u8], at: usize) -> Result<EntryFound, AllocError>
    requires { at < length half.now }
    ensures { IfOk result (IsEntryFound half.now at) }
{
    match place_at(half, at) {
        EntryPlace::End => Ok(EntryFound::End),
        EntryPlace::NoRoom => Ok(EntryFound::Damaged),
        EntryPlace::Entry { count } => entry_there(alloc, half, at, count),
    }
}

// The entry behind an open gate and its length.
fn entry_there(
    alloc: Global,
    half: &[u8],
    at: usize,
    count: usize,
) -> Result<EntryFound, AllocError>
    requires gate { slice_index half.now at % 2 ≡ 1 }
    requires count { little_number 4 (drop (at + 1) half.now) ≡ count }
    requires room { at + (5 + count) < length half.now }
    ensures { IfOk result (IsEntryFound half.now at) }
{
    let from = at + 5;
    let next = from + count;
    match read(alloc, &half[from..next]) {
        Ok(entry) => Ok(EntryFound::Entry { entry, next }),
        Err(fault) => damaged(fault),
    }
}

// A damaged entry, unless memory is wanting.
fn damaged(fault: EntryFault) -> Result<EntryFound, AllocError>
    ensures { IfOk result (λ step. (step ≡ EntryFound.Damaged) × (fault ≡ EntryFault.BadEntry)) }
{
    match fault {
        EntryFault::NoMemory => Err(AllocError),
        EntryFault::BadEntry => Ok(EntryFound::Damaged),
    }
}
