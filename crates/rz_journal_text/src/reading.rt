//! Entries, read.

ghost use Rattle.std.specs.Prelude.{◌≡◌, IfOk};
ghost use Rattle.rz_journal_text.specs.declared.entry.JournalEntry.{JournalEntry};
ghost use Rattle.rz_journal_text.specs.Spelling.{Spells};
ghost use Rattle.rz_journal_text.specs.Fronts.{Gives, IsThis, call_numbered, on_path, on_pair, setattr, tree, begin, publish, enroll, built, fields, entry, whole};

use crate::front::Front;
use crate::part_reading::read_part;
use crate::{EntryFault, JournalEntry};
use rz_events::TreeCall;
use std::alloc::Global;

/// The entry that has these bytes.
pub fn read(alloc: Global, bytes: &[u8]) -> Result<JournalEntry, EntryFault>
    ensures found { IfOk result (Spells bytes.now) }

    // No bytes are those of two entries, and each entry is read.
    ensures exact { (e : JournalEntry) → Spells bytes.now e → IsThis e result }
{
    let mut front = Front::of(bytes);
    read_whole(alloc, &mut front)
}

// The entry at the front, where nothing stands behind it.
#[tactic(auto, unfolding(crate::specs::Fronts::whole))]
fn read_whole(alloc: Global, front: &mut Front) -> Result<JournalEntry, EntryFault>
    ensures { Gives result front.new (whole front.old) }
{
    let entry = read_entry(alloc, front)?;
    if !front.is_empty() {
        drop(entry);
        return Err(EntryFault::BadEntry);
    }
    Ok(entry)
}

// The entry at the front.
#[tactic(auto, unfolding(crate::specs::Fronts::entry))]
fn read_entry(alloc: Global, front: &mut Front) -> Result<JournalEntry, EntryFault>
    ensures { Gives result front.new (entry front.old) }
{
    let kind = front.byte()?;
    read_fields(alloc, kind, front)
}

// The fields of an entry of this kind.
#[tactic(auto, unfolding(crate::specs::Fronts::fields))]
fn read_fields(alloc: Global, kind: u8, front: &mut Front) -> Result<JournalEntry, EntryFault>
    ensures { Gives result front.new (fields kind front.old) }
{
    match kind {
        1 => read_tree(alloc, front),
        2 => read_begin(front),
        3 => read_publish(front),
        4 => read_enroll(front),
        _ => read_built(alloc, kind, front),
    }
}

#[tactic(auto, unfolding(crate::specs::Fronts::built))]
fn read_built(alloc: Global, kind: u8, front: &mut Front) -> Result<JournalEntry, EntryFault>
    ensures { Gives result front.new (built kind front.old) }
{
    Ok(JournalEntry::Built(read_part(alloc, kind, front)?))
}

#[tactic(auto, unfolding(crate::specs::Fronts::begin))]
fn read_begin(front: &mut Front) -> Result<JournalEntry, EntryFault>
    ensures { Gives result front.new (begin front.old) }
{
    let key = front.key()?;
    let bytes = front.u32()?;
    Ok(JournalEntry::Begin { key, bytes })
}

#[tactic(auto, unfolding(crate::specs::Fronts::publish))]
fn read_publish(front: &mut Front) -> Result<JournalEntry, EntryFault>
    ensures { Gives result front.new (publish front.old) }
{
    let key = front.key()?;
    let stamp = front.u64()?;
    let mask = front.u16()?;
    let bytes = front.u32()?;
    Ok(JournalEntry::Publish {
        key,
        stamp,
        mask,
        bytes,
    })
}

#[tactic(auto, unfolding(crate::specs::Fronts::enroll))]
fn read_enroll(front: &mut Front) -> Result<JournalEntry, EntryFault>
    ensures { Gives result front.new (enroll front.old) }
{
    let node = front.u16()?;
    let loss = front.u64()?;
    Ok(JournalEntry::Enroll { node, loss })
}

#[tactic(auto, unfolding(crate::specs::Fronts::tree))]
fn read_tree(alloc: Global, front: &mut Front) -> Result<JournalEntry, EntryFault>
    ensures { Gives result front.new (tree front.old) }
{
    let number = front.byte()?;
    Ok(JournalEntry::Tree(read_call(alloc, number, front)?))
}

// The call with this number among the calls on names.
#[tactic(auto, unfolding(crate::specs::Fronts::call_numbered))]
fn read_call(alloc: Global, number: u8, front: &mut Front) -> Result<TreeCall, EntryFault>
    ensures { Gives result front.new (call_numbered number front.old) }
{
    match number {
        0..=8 => read_on_path(alloc, number, front),
        9 => read_setattr(alloc, front),
        _ => read_on_pair(alloc, number, front),
    }
}

// A call on one path.
#[tactic(auto, unfolding(crate::specs::Fronts::on_path))]
fn read_on_path(alloc: Global, number: u8, front: &mut Front) -> Result<TreeCall, EntryFault>
    ensures { Gives result front.new (on_path number front.old) }
{
    let path = front.text(alloc)?;
    match number {
        0 => Ok(TreeCall::Lookup { path }),
        1 => Ok(TreeCall::Getattr { path }),
        2 => Ok(TreeCall::Rmdir { path }),
        3 => Ok(TreeCall::Mkdir { path }),
        4 => Ok(TreeCall::Create { path }),
        5 => Ok(TreeCall::Unlink { path }),
        6 => Ok(TreeCall::Readlink { path }),
        7 => Ok(TreeCall::Readdir { path }),
        8 => Ok(TreeCall::OpenFile { path }),
        _ => Err(EntryFault::BadEntry),
    }
}

// A call on two texts.
#[tactic(auto, unfolding(crate::specs::Fronts::on_pair))]
fn read_on_pair(alloc: Global, number: u8, front: &mut Front) -> Result<TreeCall, EntryFault>
    ensures { Gives result front.new (on_pair number front.old) }
{
    let one = front.text(alloc)?;
    let two = front.text(alloc)?;
    match number {
        10 => Ok(TreeCall::Rename { path: one, to: two }),
        11 => Ok(TreeCall::Link { path: one, to: two }),
        12 => Ok(TreeCall::Symlink {
            target: one,
            path: two,
        }),
        _ => Err(EntryFault::BadEntry),
    }
}

#[tactic(auto, unfolding(crate::specs::Fronts::setattr))]
fn read_setattr(alloc: Global, front: &mut Front) -> Result<TreeCall, EntryFault>
    ensures { Gives result front.new (setattr front.old) }
{
    let path = front.text(alloc)?;
    let mode = front.u16()?;
    let mtime = front.u64()?;
    Ok(TreeCall::Setattr { path, mode, mtime })
}
