//! What is to be found: exports that answered the same calls without a journal.

use crate::making::long_path;
use rz_config::Volume;
use rz_events::{Kind, Published, Text, TreeCall};
use rz_export::Export;
use rz_journal_text::path_text;
use rz_tree::Part;
use std::alloc::{AllocError, Global};

/// All parts of an export, one behind the other: of each a letter for its kind, its numbers, and its text behind
/// its length.
pub fn parts_of(alloc: Global, export: &Export) -> Result<Vec<u8>, AllocError> {
    let mut row = Vec::new(alloc);
    for place in 0..usize::MAX {
        let Some(part) = export.part(place)? else {
            break;
        };
        let pushed = push_part(alloc, &part, &mut row);
        drop(part);
        pushed?;
    }
    Ok(row)
}

fn push_part(alloc: Global, part: &Part, row: &mut Vec<u8>) -> Result<(), AllocError> {
    match part {
        Part::Counters { last, made } => push_numbers(b'c', &[u128::from(*last), *made], row),
        Part::Object {
            fid,
            kind,
            mode,
            mtime,
            size,
            cid,
            places,
            target,
        } => {
            push_numbers(letter_of(*kind), &[*fid, u128::from(*mode)], row)?;
            push_numbers(b't', &[u128::from(*mtime), u128::from(*size)], row)?;
            push_nodes(*cid, places.list(), row)?;
            push_text(target.bytes(), row)
        }
        Part::Name { path, fid } => {
            push_numbers(b'n', &[*fid], row)?;
            push_text(path_text(alloc, path)?.as_slice(), row)
        }
        Part::Block {
            key,
            latest,
            published,
        } => {
            push_numbers(b'b', &[key.fid, u128::from(key.block)], row)?;
            push_stamps(*latest, *published, row)
        }
        Part::Enrolled { node, loss, fence } => push_numbers(
            b'e',
            &[u128::from(*node), u128::from(*loss), u128::from(*fence)],
            row,
        ),
    }
}

fn letter_of(kind: Kind) -> u8 {
    match kind {
        Kind::File => b'f',
        Kind::Dir => b'd',
        Kind::Link => b'l',
    }
}

fn push_numbers(letter: u8, numbers: &[u128], row: &mut Vec<u8>) -> Result<(), AllocError> {
    row.push(letter)?;
    for number in numbers {
        row.extend_from_slice(number.to_le_bytes().as_slice())?;
    }
    Ok(())
}

fn push_text(text: &[u8], row: &mut Vec<u8>) -> Result<(), AllocError> {
    push_numbers(b'x', &[text.len() as u128], row)?;
    row.extend_from_slice(text)
}

/// Adds a cluster and the nodes of a file.
fn push_nodes(cid: u16, nodes: &[u16], row: &mut Vec<u8>) -> Result<(), AllocError> {
    push_numbers(b'p', &[u128::from(cid)], row)?;
    for node in nodes {
        push_numbers(b'p', &[u128::from(*node)], row)?;
    }
    Ok(())
}

/// Adds the newest stamp begun, and what is published.
fn push_stamps(
    latest: u64,
    published: Option<Published>,
    row: &mut Vec<u8>,
) -> Result<(), AllocError> {
    push_numbers(b's', &[u128::from(latest)], row)?;
    if let Some(p) = published {
        push_numbers(
            b's',
            &[
                u128::from(p.stamp),
                u128::from(p.mask),
                u128::from(p.length),
            ],
            row,
        )?;
    }
    Ok(())
}

/// The call that stops.
pub fn last_call(alloc: Global) -> Result<TreeCall, AllocError> {
    let path = Text::from_bytes(alloc, b"/b")?;
    Ok(TreeCall::Mkdir { path })
}

/// Makes the directory in an export where the number of the call is even, and takes it away otherwise.
fn make_or_take_away(alloc: Global, export: &mut Export, number: u64) -> Result<(), AllocError> {
    let path = Text::from_vec(long_path(alloc)?);
    if number % 2 == 0 {
        name(export, TreeCall::Mkdir { path })
    } else {
        name(export, TreeCall::Rmdir { path })
    }
}

/// Asks an export, whatever it replies.
fn name(export: &mut Export, call: TreeCall) -> Result<(), AllocError> {
    let reply = export.name(&call);
    drop(call);
    drop(reply?);
    Ok(())
}

/// The parts of an export that answers so many calls, which make the directory and take it away in turn, and
/// then, if `is_last`, the call that stops.
fn parts_behind(
    alloc: Global,
    export: &mut Export,
    count: u64,
    is_last: bool,
) -> Result<Vec<u8>, AllocError> {
    for number in 0..count {
        make_or_take_away(alloc, export, number)?;
    }
    if is_last {
        name(export, last_call(alloc)?)?;
    }
    parts_of(alloc, export)
}

/// The parts of an export of a new store that answers these.
fn parts_of_new(alloc: Global, count: u64, is_last: bool) -> Result<Vec<u8>, AllocError> {
    let mut export = Export::new(alloc, Volume::plain(alloc)?, 0)?;
    let parts = parts_behind(alloc, &mut export, count, is_last);
    drop(export);
    parts
}

/// The parts after so many calls.
pub fn before(alloc: Global, count: u64) -> Result<Vec<u8>, AllocError> {
    parts_of_new(alloc, count, false)
}

/// The parts after these and the call that stops.
pub fn after(alloc: Global, count: u64) -> Result<Vec<u8>, AllocError> {
    parts_of_new(alloc, count, true)
}
