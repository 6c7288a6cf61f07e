//! Calls whose entries have any number of bytes.

use crate::answers::{Told, ask};
use rz_disk::Disk;
use rz_events::{Call, Text, TreeCall};
use rz_journal::Journal;
use std::alloc::{AllocError, Global};
use std::process::Abort;

/// A path of so many bytes, a slash among them.
fn path(alloc: Global, size: usize) -> Result<Text, AllocError> {
    let mut bytes = Vec::from_elem(alloc, b's', size)?;
    if let Some(first) = bytes.first_mut() {
        *first = b'/';
    }
    Ok(Text::from_vec(bytes))
}

/// Makes a symbolic link with a target of so many bytes and a path of so many. The entry takes 11 bytes
/// more.
fn symlink(alloc: Global, target: usize, size: usize) -> Result<Call, AllocError> {
    let target = Text::from_vec(Vec::from_elem(alloc, b't', target)?);
    let path = path(alloc, size)?;
    Ok(Call::Tree(TreeCall::Symlink { target, path }))
}

/// What a journal answers to the making of such a link.
pub fn link<D: Disk>(
    rt: &(impl Abort + AllocGlobal),
    journal: &mut Journal<D>,
    target: usize,
    size: usize,
) -> Told {
    let call = symlink(rt.alloc(), target, size).expect(rt, "memory");
    let told = ask(rt, journal, &call);
    drop(call);
    told
}
