//! The parts of an export, read.

ghost use Rattle.std.specs.Prelude.{◌≡◌, [], ◌<◌};
ghost use Rattle.rz_journal_text.specs.Fronts.{Gives, places, path, kind, published, maybe_published, counters, object, name, block, enrolled, part_of_kind};

use crate::EntryFault;
use crate::front::Front;
use rz_events::{Kind, Places, Published};
use rz_names::{Path, PathError};
use rz_tree::Part;
use std::alloc::Global;

/// The most nodes of a file.
const MOST_PLACES: u8 = 16;

/// The part of an entry with this kind.
#[tactic(auto, unfolding(crate::specs::Fronts::part_of_kind))]
pub fn read_part(alloc: Global, kind: u8, front: &mut Front) -> Result<Part, EntryFault>
    ensures { Gives result front.new (part_of_kind kind front.old) }
{
    match kind {
        5 => read_counters(front),
        6 => read_object(alloc, front),
        7 => read_name(alloc, front),
        8 => read_block(front),
        9 => read_enrolled(front),
        _ => Err(EntryFault::BadEntry),
    }
}

#[tactic(auto, unfolding(crate::specs::Fronts::counters))]
fn read_counters(front: &mut Front) -> Result<Part, EntryFault>
    ensures { Gives result front.new (counters front.old) }
{
    let last = front.u64()?;
    let made = front.u128()?;
    Ok(Part::Counters { last, made })
}

#[tactic(auto, unfolding(crate::specs::Fronts::object))]
fn read_object(alloc: Global, front: &mut Front) -> Result<Part, EntryFault>
    ensures { Gives result front.new (object front.old) }
{
    let fid = front.u128()?;
    let kind = read_kind(front)?;
    let mode = front.u16()?;
    let mtime = front.u64()?;
    let size = front.u64()?;
    let cid = front.u16()?;
    let places = read_places(front)?;
    let target = front.text(alloc)?;
    Ok(Part::Object {
        fid,
        kind,
        mode,
        mtime,
        size,
        cid,
        places,
        target,
    })
}

#[tactic(auto, unfolding(crate::specs::Fronts::kind))]
fn read_kind(front: &mut Front) -> Result<Kind, EntryFault>
    ensures { Gives result front.new (kind front.old) }
{
    match front.byte()? {
        0 => Ok(Kind::File),
        1 => Ok(Kind::Dir),
        2 => Ok(Kind::Link),
        _ => Err(EntryFault::BadEntry),
    }
}

#[tactic(auto, unfolding(crate::specs::Fronts::places))]
fn read_places(front: &mut Front) -> Result<Places, EntryFault>
    ensures { Gives result front.new (places front.old) }
{
    let count = front.byte()?;
    if count > MOST_PLACES {
        return Err(EntryFault::BadEntry);
    }
    let mut places = Places::none();
    for _ in 0..count {
        places.push(front.u16()?);
    }
    Ok(places)
}

#[tactic(auto, unfolding(crate::specs::Fronts::name))]
fn read_name(alloc: Global, front: &mut Front) -> Result<Part, EntryFault>
    ensures { Gives result front.new (name front.old) }
{
    let path = read_path(alloc, front)?;
    let fid = front.u128()?;
    Ok(Part::Name { path, fid })
}

#[tactic(auto, unfolding(crate::specs::Fronts::path))]
fn read_path(alloc: Global, front: &mut Front) -> Result<Path, EntryFault>
    ensures { Gives result front.new (path front.old) }
{
    let count = front.u32()?;
    let text = front.first(count as usize)?;
    match Path::long(alloc, text) {
        Ok(path) => Ok(path),
        Err(PathError::NoMemory) => Err(EntryFault::NoMemory),
        Err(PathError::BadName) => Err(EntryFault::BadEntry),
    }
}

#[tactic(auto, unfolding(crate::specs::Fronts::block))]
fn read_block(front: &mut Front) -> Result<Part, EntryFault>
    ensures { Gives result front.new (block front.old) }
{
    let key = front.key()?;
    let latest = front.u64()?;
    let published = read_maybe_published(front)?;
    Ok(Part::Block {
        key,
        latest,
        published,
    })
}

#[tactic(auto, unfolding(crate::specs::Fronts::maybe_published))]
fn read_maybe_published(front: &mut Front) -> Result<Option<Published>, EntryFault>
    ensures { Gives result front.new (maybe_published front.old) }
{
    match front.byte()? {
        0 => Ok(None),
        1 => Ok(Some(read_published(front)?)),
        _ => Err(EntryFault::BadEntry),
    }
}

#[tactic(auto, unfolding(crate::specs::Fronts::published))]
fn read_published(front: &mut Front) -> Result<Published, EntryFault>
    ensures { Gives result front.new (published front.old) }
{
    let stamp = front.u64()?;
    let mask = front.u16()?;
    let length = front.u32()?;
    Ok(Published {
        stamp,
        mask,
        length,
    })
}

#[tactic(auto, unfolding(crate::specs::Fronts::enrolled))]
fn read_enrolled(front: &mut Front) -> Result<Part, EntryFault>
    ensures { Gives result front.new (enrolled front.old) }
{
    let node = front.u16()?;
    let loss = front.u64()?;
    let fence = front.u64()?;
    Ok(Part::Enrolled { node, loss, fence })
}
