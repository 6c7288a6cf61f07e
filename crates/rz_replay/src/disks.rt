//! The disks of a play.

ghost use Rattle.std.specs.Prelude.{◌≡◌, IfOk, length};

use rz_disk::{FileDisk, PlainDisk};
use std::alloc::{AllocError, Global};
use std::io::{self, ErrorKind};
use std::rt::Files;

/// So many disks in memory, of no bytes yet.
pub fn memory(alloc: Global, count: u16) -> Result<Vec<PlainDisk>, AllocError>
    ensures { IfOk result (λ disks. length disks.items ≡ count) }
{
    let mut disks = Vec::new(alloc);
    for _ in 0..count {
        disks.push(PlainDisk::new(alloc))?;
    }
    Ok(disks)
}

/// The file of the disk with this index in a folder.
fn path_of(alloc: Global, folder: &str, index: u16) -> Result<String, AllocError> {
    format!(in alloc; "{folder}/disk.{index}")
}

/// Why there are no disks in files.
#[derive(Drop)]
pub enum FilesFault {
    NoMemory,
    /// The file of the disk with this index was not opened, for this reason.
    Unopened { index: u16, error: io::Error },
}

impl FilesFault {
    fn of(index: u16, error: io::Error) -> FilesFault {
        if error.kind() == ErrorKind::OutOfMemory {
            return FilesFault::NoMemory;
        }
        FilesFault::Unopened { index, error }
    }
}

/// Which files of a folder are there already. The others are made when their disks are reset.
#[derive(Clone, Copy, Debug, PartialEq, Eq, Drop)]
pub enum Kept {
    /// None.
    Nothing,
    /// The first one, from which no more than reading is wanted.
    Old,
    /// All of them.
    Everything,
}

/// The disk with this index in a folder.
fn file<'a, R: Files>(
    rt: &'a R,
    alloc: Global,
    folder: &str,
    index: u16,
    kept: Kept,
) -> Result<FileDisk<'a, R>, FilesFault> {
    let path = path_of(alloc, folder, index).map_err(|_| FilesFault::NoMemory)?;
    let opened = match kept {
        Kept::Everything => FileDisk::open(rt, alloc, path.as_str()),
        Kept::Old if index == 0 => FileDisk::open_to_read(rt, alloc, path.as_str()),
        _ => return FileDisk::new(rt, alloc, path.as_str()).map_err(|_| FilesFault::NoMemory),
    };
    opened.map_err(|error| FilesFault::of(index, error))
}

/// So many disks in the files `disk.0`, `disk.1` and so on of a folder.
pub fn files<'a, R: Files>(
    rt: &'a R,
    alloc: Global,
    folder: &str,
    kept: Kept,
    count: u16,
) -> Result<Vec<FileDisk<'a, R>>, FilesFault>
    ensures { IfOk result (λ disks. length disks.items ≡ count) }
{
    let mut disks = Vec::new(alloc);
    for index in 0..count {
        let disk = file(rt, alloc, folder, index, kept)?;
        if disks.push(disk).is_err() {
            return Err(FilesFault::NoMemory);
        }
    }
    Ok(disks)
}
