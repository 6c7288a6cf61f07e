//! Entries, written.

ghost use Rattle.std.specs.Prelude.{◌≡◌, ◌++◌, OnOk};
ghost use Rattle.byteorder.specs.Endian.{little_bytes};
ghost use Rattle.rz_journal_text.specs.Spelling.{key_bytes, kind_of, entry_fields, entry_bytes, MayStand, IsEntry};

use crate::JournalEntry;
use crate::calls::write_call;
use crate::numbers::{write_key, write_u16, write_u32, write_u64};
use crate::parts::{part_kind, write_part};
use crate::widths::has_widths;
use rz_events::Key;
use std::alloc::{AllocError, Global};

/// Adds the bytes of an entry at the end. After want of memory, a part of them may stand there.
pub fn write(alloc: Global, entry: &JournalEntry, out: &mut Vec<u8>) -> Result<(), AllocError>
    requires { MayStand entry.now }
    ensures bytes { OnOk result (out.new.items ≡ out.old.items ++ entry_bytes entry.now) }

    // Each number has a value of its field's type, so the bytes are those of this entry alone.
    ensures value { IsEntry entry.now }
{
    has_widths(entry);
    out.push(kind_of(entry))?;
    write_fields(alloc, entry, out)
}

// The kind of an entry.
fn kind_of(entry: &JournalEntry) -> u8
    ensures { result ≡ kind_of entry.now }
{
    match entry {
        JournalEntry::Tree(_) => 1,
        JournalEntry::Begin { .. } => 2,
        JournalEntry::Publish { .. } => 3,
        JournalEntry::Enroll { .. } => 4,
        JournalEntry::Built(part) => part_kind(part),
    }
}

// Adds the fields of an entry.
fn write_fields(alloc: Global, entry: &JournalEntry, out: &mut Vec<u8>) -> Result<(), AllocError>
    requires { MayStand entry.now }
    ensures { OnOk result (out.new.items ≡ out.old.items ++ entry_fields entry.now) }
{
    match entry {
        JournalEntry::Tree(call) => write_call(call, out),
        JournalEntry::Begin { key, bytes } => write_begin(*key, *bytes, out),
        JournalEntry::Publish {
            key,
            stamp,
            mask,
            bytes,
        } => write_publish(*key, *stamp, *mask, *bytes, out),
        JournalEntry::Enroll { node, loss } => write_enroll(*node, *loss, out),
        JournalEntry::Built(part) => write_part(alloc, part, out),
    }
}

// Adds the fields of a begin.
fn write_begin(key: Key, bytes: u32, out: &mut Vec<u8>) -> Result<(), AllocError>
    ensures { OnOk result (out.new.items ≡ out.old.items ++ (key_bytes key ++ little_bytes 4 bytes)) }
{
    write_key(key, out)?;
    write_u32(bytes, out)
}

// Adds the fields of a publish.
fn write_publish(
    key: Key,
    stamp: u64,
    mask: u16,
    bytes: u32,
    out: &mut Vec<u8>,
) -> Result<(), AllocError>
    ensures { OnOk result (out.new.items ≡ out.old.items ++ (key_bytes key ++ (little_bytes 8 stamp ++ (little_bytes 2 mask ++ little_bytes 4 bytes)))) }
{
    write_key(key, out)?;
    write_u64(stamp, out)?;
    write_u16(mask, out)?;
    write_u32(bytes, out)
}

// Adds the fields of an enrolment.
fn write_enroll(node: u16, loss: u64, out: &mut Vec<u8>) -> Result<(), AllocError>
    ensures { OnOk result (out.new.items ≡ out.old.items ++ (little_bytes 2 node ++ little_bytes 8 loss)) }
{
    write_u16(node, out)?;
    write_u64(loss, out)
}
