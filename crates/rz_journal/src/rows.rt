//! Entries as the rows that stand in a half.

ghost use Rattle.std.specs.Prelude.{◌≡◌, ◌++◌, [], ◌∷◌, None, IsSome, IfOk, OnOk, OnErr, MatchOption};
ghost use Rattle.rz_events.specs.Borrowed.{call_of};
ghost use Rattle.rz_journal_text.specs.Spelling.{entry_bytes, MayStand, Spells};
ghost use Rattle.rz_journal.specs.Row.{framed};
ghost use Rattle.rz_export_laws.specs.Whole.{IsWhole};
ghost use Rattle.rz_journal.specs.Kept.{IsRowOf};
ghost use Rattle.rz_journal.specs.Room.{part_entries, IsRow};
ghost use Rattle.rz_journal.specs.Said.{entry_of, HasShortText};

use crate::said::entry_of;
use crate::{close_row, push_entry};
use rz_events::CallRef;
use rz_export::Export;
use rz_journal_text::{JournalEntry, write};
use rz_tree::Part;
use std::alloc::{AllocError, Global};

/// The row of the entry of a call, if it has one, with the shut gate behind it.
pub fn call_row(alloc: Global, call: CallRef<'_>) -> Result<Option<Vec<u8>>, AllocError>
    requires { HasShortText (call_of call) }
    ensures row { IfOk result (λ row. MatchOption row (entry_of (call_of call.entry) ≡ None) (λ row. IsRowOf (call_of call.entry) row.items)) }
    ensures wanted { OnErr result (IsSome (entry_of (call_of call.entry))) }
{
    let Some(entry) = entry_of(alloc, call)? else {
        return Ok(None);
    };
    let row = row_of(alloc, &entry);
    drop(entry);
    Ok(Some(row?))
}

/// The row of one entry, with the shut gate behind it.
fn row_of(alloc: Global, entry: &JournalEntry) -> Result<Vec<u8>, AllocError>
    requires { MayStand entry.now }
    ensures { IfOk result (λ row. IsRow (entry.now ∷ []) row.items) }
{
    let mut row = Vec::new(alloc);
    push_row(alloc, entry, &mut row)?;
    close_row(&mut row)?;
    Ok(row)
}

/// The row of all parts of an export, with the shut gate behind it. Each part is found from the one
/// before it.
pub fn parts_row(alloc: Global, export: &Export) -> Result<Vec<u8>, AllocError>
    requires { IsWhole export.now }
    ensures { IfOk result (λ row. IsRow (part_entries export.now) row.items) }
{
    rz_export_laws::trees::paths_written();
    let mut row = Vec::new(alloc);
    let mut next = export.part_after(None)?;
    for _ in 0..usize::MAX {
        let Some(part) = next else {
            close_row(&mut row)?;
            return Ok(row);
        };
        next = export.part_after(Some(&part))?;
        push_part(alloc, part, &mut row)?;
    }
    // Memory holds no export of so many parts.
    Err(AllocError)
}

// Adds the entry of a part, which goes then.
fn push_part(alloc: Global, part: Part, row: &mut Vec<u8>) -> Result<(), AllocError>
    requires { MayStand (JournalEntry.Built part) }
    ensures row { OnOk result (row.new.items ≡ row.old.items ++ framed (entry_bytes (JournalEntry.Built part))) }
    ensures spelled { OnOk result (Spells (entry_bytes (JournalEntry.Built part)) (JournalEntry.Built part)) }
{
    let entry = JournalEntry::Built(part);
    let pushed = push_row(alloc, &entry, row);
    drop(entry);
    pushed
}

// Adds an entry behind an open gate and its length.
fn push_row(alloc: Global, entry: &JournalEntry, row: &mut Vec<u8>) -> Result<(), AllocError>
    requires { MayStand entry.now }
    ensures row { OnOk result (row.new.items ≡ row.old.items ++ framed (entry_bytes entry.now)) }
    ensures spelled { OnOk result (Spells (entry_bytes entry.now) entry.now) }
{
    let mut bytes = Vec::new(alloc);
    write(alloc, entry, &mut bytes)?;
    if bytes.len() > u32::MAX as usize {
        return Err(AllocError);
    }
    push_entry(bytes.as_slice(), row)?;
    Ok(())
}
