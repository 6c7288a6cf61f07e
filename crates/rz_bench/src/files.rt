//! Files in directories of 256 names, and blocks that are spread over the files: what fills an export and
//! the export of a journal.

ghost use Rattle.std.specs.Prelude.{◌≡◌, IfOk};
ghost use Rattle.rz_events.specs.declared.export.Call.{Call};

use crate::words::FilesSize;
use rz_config::{Volume, VolumeError};
use rz_events::{Call, Key, Published, Reply, Text, TreeCall, TreeReply};
use std::alloc::{AllocError, Global};

/// The names in a directory.
const NAMES: u32 = 256;

/// The bytes of a block.
const BLOCK: u32 = 4096;

/// The positions that have a write's records: three of the four, in turn.
const MASKS: [u16; 4] = [7, 11, 13, 14];

/// The files that are to be made, and the number of each that was. Block `n` of all blocks stands in
/// file `n % files`.
#[derive(Drop)]
pub struct Files {
    pub size: FilesSize,
    fids: Vec<u128>,
}

/// What a name is given for.
#[derive(Clone, Copy, Drop)]
pub enum NameUse {
    /// To look up a file.
    Lookup,
    /// To make one more file beside a file.
    Create,
    /// To take that one away.
    Unlink,
}

/// The volume that a text describes, or a plain one where it describes none.
pub fn volume(alloc: Global, text: &str) -> Result<Volume, AllocError> {
    match Volume::read(alloc, text) {
        Ok(volume) => Ok(volume),
        Err(error) => {
            let is_refused = matches!(&error, VolumeError::Refused(_));
            drop(error);
            if is_refused {
                Volume::plain(alloc)
            } else {
                Err(AllocError)
            }
        }
    }
}

/// Whether a file is the first one of its directory.
pub fn is_first(file: u32) -> bool {
    file % NAMES == 0
}

/// The call that makes the directory of a file.
pub fn mkdir(alloc: Global, file: u32) -> Result<TreeCall, AllocError> {
    let number = file / NAMES;
    let path = format!(in alloc; "/d{number:03}")?;
    let path = Text::from_vec(path.into_bytes());
    Ok(TreeCall::Mkdir { path })
}

/// The path of a file.
fn path_of(alloc: Global, file: u32) -> Result<Text, AllocError> {
    let number = file / NAMES;
    let name = file % NAMES;
    let path = format!(in alloc; "/d{number:03}/f{name:03}")?;
    Ok(Text::from_vec(path.into_bytes()))
}

/// The path of one more file beside a file.
fn path_beside(alloc: Global, file: u32) -> Result<Text, AllocError> {
    let number = file / NAMES;
    let path = format!(in alloc; "/d{number:03}/more")?;
    Ok(Text::from_vec(path.into_bytes()))
}

/// The call that makes a file.
pub fn create(alloc: Global, file: u32) -> Result<TreeCall, AllocError> {
    let path = path_of(alloc, file)?;
    Ok(TreeCall::Create { path })
}

/// A call on the name of a file, or on that of one more beside it.
pub fn call_of(alloc: Global, kind: NameUse, file: u32) -> Result<TreeCall, AllocError> {
    match kind {
        NameUse::Lookup => Ok(TreeCall::Lookup {
            path: path_of(alloc, file)?,
        }),
        NameUse::Create => Ok(TreeCall::Create {
            path: path_beside(alloc, file)?,
        }),
        NameUse::Unlink => Ok(TreeCall::Unlink {
            path: path_beside(alloc, file)?,
        }),
    }
}

/// What a write publishes of a block.
pub fn published(number: u32, stamp: u64) -> Published
    ensures { result.stamp ≡ stamp }
{
    Published {
        stamp,
        mask: MASKS[(number % 4) as usize],
        length: BLOCK,
    }
}

/// The call that publishes a block.
pub fn publish(key: Key, published: Published) -> Call
    ensures { result ≡ Call.Publish key published.stamp published.mask published.length }
{
    Call::Publish {
        key,
        stamp: published.stamp,
        mask: published.mask,
        length: published.length,
    }
}

/// The number of the file that was made, or 0.
pub fn made(reply: &TreeReply) -> u128 {
    match reply {
        TreeReply::MadeFile(info) => info.fid,
        _ => 0,
    }
}

/// The stamp of a write that was begun.
pub fn stamp_of(reply: &Reply) -> Option<u64> {
    match reply {
        Reply::Begun { stamp, .. } => Some(*stamp),
        _ => None,
    }
}

impl Files {
    /// So many files, of which none was made.
    pub fn none(alloc: Global, size: FilesSize) -> Result<Files, AllocError>
        ensures { IfOk result (λ f. f.size ≡ size) }
    {
        let fids = Vec::with_capacity(alloc, size.files as usize)?;
        Ok(Files { size, fids })
    }

    /// The key of a block.
    pub fn key_of(&self, number: u32) -> Key {
        let file = (number % self.size.files) as usize;
        Key {
            fid: self.fids.get(file).copied().unwrap_or(0),
            block: u64::from(number / self.size.files),
        }
    }

    /// Notes the number of the next file, which was made.
    pub fn note(&mut self, fid: u128) -> Result<(), AllocError>
        ensures { self.new.size ≡ self.old.size }
    {
        self.fids.push(fid)?;
        Ok(())
    }
}
