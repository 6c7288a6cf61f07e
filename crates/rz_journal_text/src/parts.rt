//! The parts of an export.

ghost use Rattle.std.specs.Prelude.{◌≡◌, [], ◌++◌, ◌∷◌, OnOk, IfOk};
ghost use Rattle.std.specs.List.{flat_map};
ghost use Rattle.byteorder.specs.Endian.{little_bytes};
ghost use Rattle.rz_journal_text.specs.Spelling.{key_bytes, text_bytes, path_text, path_bytes, places_bytes, published_bytes, maybe_published_bytes, kind_number, part_kind, part_fields, PartMayStand, IsShort, IsSpelled};

use crate::numbers::{write_key, write_text, write_u16, write_u32, write_u64, write_u128};
use rz_events::{Key, Kind, Places, Published, Text};
use rz_names::Path;
use rz_tree::Part;
use std::alloc::{AllocError, Global};

/// The kind of the entry of a part.
pub fn part_kind(part: &Part) -> u8
    ensures { result ≡ part_kind part.now }
{
    match part {
        Part::Counters { .. } => 5,
        Part::Object { .. } => 6,
        Part::Name { .. } => 7,
        Part::Block { .. } => 8,
        Part::Enrolled { .. } => 9,
    }
}

/// Adds the fields of a part.
pub fn write_part(alloc: Global, part: &Part, out: &mut Vec<u8>) -> Result<(), AllocError>
    requires { PartMayStand part.now }
    ensures { OnOk result (out.new.items ≡ out.old.items ++ part_fields part.now) }
{
    match part {
        Part::Counters { last, made } => write_counters(*last, *made, out),
        Part::Object {
            fid,
            kind,
            mode,
            mtime,
            size,
            cid,
            places,
            target,
        } => write_object(*fid, *kind, *mode, *mtime, *size, *cid, places, target, out),
        Part::Name { path, fid } => write_name(alloc, path, *fid, out),
        Part::Block {
            key,
            latest,
            published,
        } => write_block(*key, *latest, published, out),
        Part::Enrolled { node, loss, fence } => write_enrolled(*node, *loss, *fence, out),
    }
}

fn write_counters(last: u64, made: u128, out: &mut Vec<u8>) -> Result<(), AllocError>
    ensures { OnOk result (out.new.items ≡ out.old.items ++ (little_bytes 8 last ++ little_bytes 16 made)) }
{
    write_u64(last, out)?;
    write_u128(made, out)
}

fn write_object(
    fid: u128,
    kind: Kind,
    mode: u16,
    mtime: u64,
    size: u64,
    cid: u16,
    places: &Places,
    target: &Text,
    out: &mut Vec<u8>,
) -> Result<(), AllocError>
    requires { IsShort target.now }
    ensures { OnOk result (out.new.items ≡ out.old.items ++ (little_bytes 16 fid ++ (kind_number kind ∷ (little_bytes 2 mode ++ (little_bytes 8 mtime ++ (little_bytes 8 size ++ (little_bytes 2 cid ++ (places_bytes places.now ++ text_bytes target.now)))))))) }
{
    write_identity(fid, kind, out)?;
    write_attributes(mode, mtime, size, cid, places, target, out)
}

// Adds the number and the kind of an object.
fn write_identity(fid: u128, kind: Kind, out: &mut Vec<u8>) -> Result<(), AllocError>
    ensures { OnOk result (out.new.items ≡ out.old.items ++ (little_bytes 16 fid ++ kind_number kind ∷ [])) }
{
    write_u128(fid, out)?;
    out.push(kind_number(kind))?;
    Ok(())
}

// Adds the fields of an object behind its kind.
fn write_attributes(
    mode: u16,
    mtime: u64,
    size: u64,
    cid: u16,
    places: &Places,
    target: &Text,
    out: &mut Vec<u8>,
) -> Result<(), AllocError>
    requires { IsShort target.now }
    ensures { OnOk result (out.new.items ≡ out.old.items ++ (little_bytes 2 mode ++ (little_bytes 8 mtime ++ (little_bytes 8 size ++ (little_bytes 2 cid ++ (places_bytes places.now ++ text_bytes target.now)))))) }
{
    write_u16(mode, out)?;
    write_u64(mtime, out)?;
    write_content(size, cid, places, target, out)
}

// Adds what an object holds: its size, where it lies, and to what it leads.
fn write_content(
    size: u64,
    cid: u16,
    places: &Places,
    target: &Text,
    out: &mut Vec<u8>,
) -> Result<(), AllocError>
    requires { IsShort target.now }
    ensures { OnOk result (out.new.items ≡ out.old.items ++ (little_bytes 8 size ++ (little_bytes 2 cid ++ (places_bytes places.now ++ text_bytes target.now)))) }
{
    write_u64(size, out)?;
    write_u16(cid, out)?;
    write_places(places, out)?;
    write_text(target, out)
}

fn write_name(alloc: Global, path: &Path, fid: u128, out: &mut Vec<u8>) -> Result<(), AllocError>
    requires { IsSpelled path.now }
    ensures { OnOk result (out.new.items ≡ out.old.items ++ (path_bytes path.now ++ little_bytes 16 fid)) }
{
    write_path(alloc, path, out)?;
    write_u128(fid, out)
}

fn write_block(
    key: Key,
    latest: u64,
    published: &Option<Published>,
    out: &mut Vec<u8>,
) -> Result<(), AllocError>
    ensures { OnOk result (out.new.items ≡ out.old.items ++ (key_bytes key ++ (little_bytes 8 latest ++ maybe_published_bytes published.now))) }
{
    write_key(key, out)?;
    write_u64(latest, out)?;
    write_maybe_published(published, out)
}

fn write_enrolled(node: u16, loss: u64, fence: u64, out: &mut Vec<u8>) -> Result<(), AllocError>
    ensures { OnOk result (out.new.items ≡ out.old.items ++ (little_bytes 2 node ++ (little_bytes 8 loss ++ little_bytes 8 fence))) }
{
    write_u16(node, out)?;
    write_u64(loss, out)?;
    write_u64(fence, out)
}

// The number of a kind of objects.
fn kind_number(kind: Kind) -> u8
    ensures { result ≡ kind_number kind }
{
    match kind {
        Kind::File => 0,
        Kind::Dir => 1,
        Kind::Link => 2,
    }
}

// Adds nodes behind their count.
fn write_places(places: &Places, out: &mut Vec<u8>) -> Result<(), AllocError>
    ensures { OnOk result (out.new.items ≡ out.old.items ++ places_bytes places.now) }
{
    let nodes = places.list();
    out.push(nodes.len() as u8)?;
    for node in nodes {
        write_u16(*node, out)?;
    }
    Ok(())
}

// Adds what is published of a block, or that nothing is.
fn write_maybe_published(published: &Option<Published>, out: &mut Vec<u8>) -> Result<(), AllocError>
    ensures { OnOk result (out.new.items ≡ out.old.items ++ maybe_published_bytes published.now) }
{
    match published {
        None => {
            out.push(0)?;
            Ok(())
        }
        Some(p) => {
            out.push(1)?;
            write_published(*p, out)
        }
    }
}

fn write_published(published: Published, out: &mut Vec<u8>) -> Result<(), AllocError>
    ensures { OnOk result (out.new.items ≡ out.old.items ++ published_bytes published) }
{
    write_u64(published.stamp, out)?;
    write_u16(published.mask, out)?;
    write_u32(published.length, out)
}

// Adds a path behind the length of its text.
fn write_path(alloc: Global, path: &Path, out: &mut Vec<u8>) -> Result<(), AllocError>
    requires { IsSpelled path.now }
    ensures { OnOk result (out.new.items ≡ out.old.items ++ path_bytes path.now) }
{
    let text = path_text(alloc, path)?;
    write_u32(text.len() as u32, out)?;
    out.extend_from_slice(text.as_slice())
}

/// The text of a path: a slash before each name, or alone for the root.
pub fn path_text(alloc: Global, path: &Path) -> Result<Vec<u8>, AllocError>
    ensures { IfOk result (λ text. text.items ≡ path_text path.now) }
{
    let mut text = Vec::new(alloc);
    push_path(path.names(), &mut text)?;
    Ok(text)
}

// Adds the text of a path with these names.
#[tactic(auto, using(crate::proofs::Slashes::slashed_names, crate::proofs::Slashes::no_names))]
fn push_path(names: &[Text], text: &mut Vec<u8>) -> Result<(), AllocError>
    ensures { OnOk result (text.new.items ≡ text.old.items ++ path_text names.now) }
{
    if names.is_empty() {
        text.push(b'/')?;
        return Ok(());
    }
    push_names(names, text)
}

// Adds a slash before each name, and the name.
fn push_names(names: &[Text], text: &mut Vec<u8>) -> Result<(), AllocError>
    ensures { OnOk result (text.new.items ≡ text.old.items ++ flat_map (λ name. 47 ∷ name) names.now) }
{
    for name in names {
        text.push(b'/')?;
        text.extend_from_slice(name.bytes())?;
    }
    Ok(())
}
