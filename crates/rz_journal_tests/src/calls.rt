//! The calls whose entries are looked at.

use rz_events::{Call, Key, Text, TreeCall};
use std::alloc::{AllocError, Global};

/// The call of this number.
pub fn call(alloc: Global, number: u8) -> Result<Call, AllocError> {
    match number {
        2 => begin(alloc, 0, 5),
        3 => begin(alloc, 1, 4096),
        4 => Ok(Call::Publish {
            key: Key { fid: 2, block: 1 },
            stamp: 2,
            mask: 7,
            length: 4096,
        }),
        5 => Ok(Call::Enroll { node: 4, loss: 1 }),
        _ => Ok(Call::Tree(tree_call(alloc, number)?)),
    }
}

/// A write of so many bytes in a block of object 2.
fn begin(alloc: Global, block: u64, size: usize) -> Result<Call, AllocError> {
    let text = Text::from_vec(Vec::from_elem(alloc, 7, size)?);
    let key = Key { fid: 2, block };
    Ok(Call::Begin { key, text })
}

/// The call on names of this number.
fn tree_call(alloc: Global, number: u8) -> Result<TreeCall, AllocError> {
    let path = Text::from_bytes(alloc, path_of(number))?;
    match number {
        1 => Ok(TreeCall::Create { path }),
        6 => {
            let to = Text::from_bytes(alloc, b"/g")?;
            Ok(TreeCall::Link { path, to })
        }
        7 => Ok(TreeCall::Setattr {
            path,
            mode: 0o600,
            mtime: 258,
        }),
        8 => {
            let target = Text::from_bytes(alloc, b"t")?;
            Ok(TreeCall::Symlink { target, path })
        }
        9 => {
            let to = Text::from_bytes(alloc, b"/h")?;
            Ok(TreeCall::Rename { path, to })
        }
        10 => Ok(TreeCall::Unlink { path }),
        11 => Ok(TreeCall::Rmdir { path }),
        _ => Ok(TreeCall::Mkdir { path }),
    }
}

/// The path of a call.
fn path_of(number: u8) -> &'static [u8] {
    match number {
        1 | 6 | 9 => b"/a/f",
        7 | 10 => b"/g",
        8 => b"/l",
        12 => b"/d",
        _ => b"/a",
    }
}
