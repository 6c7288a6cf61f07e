//! Where the file of a disk lies, and how it is made anew.

use std::alloc::{AllocError, Global};
use std::fs::{self, OpenFile, OpenOptions};
use std::io::{self, ErrorKind, Write};
use std::path::{Path, PathBuf};
use std::rt::Files;

/// So many zeros are written at a time.
const CHUNK: usize = 65_536;

/// The folder in which the last name of a path stands.
fn folder_of(path: &str) -> &str {
    match Path::new(path).parent() {
        Some(folder) if !folder.as_str().is_empty() => folder.as_str(),
        _ => ".",
    }
}

/// The file that a link names, which is not there yet.
fn named_by<R: Files>(rt: &R, alloc: Global, link: &str) -> io::Result<PathBuf> {
    let name = rt.read_link(alloc, link)?;
    Ok(
        rt.canonicalize(alloc, folder_of(link))?
            .join(alloc, name.as_path())?,
    )
}

/// The file behind a link, or a path that is no link.
fn behind_link<R: Files>(rt: &R, alloc: Global, path: &str) -> io::Result<PathBuf> {
    match fs::symlink_metadata(rt, path) {
        Ok(found) if found.is_symlink() => match rt.canonicalize(alloc, path) {
            Err(error) if error.kind() == ErrorKind::NotFound => named_by(rt, alloc, path),
            found => found,
        },
        _ => Ok(PathBuf::from_str(alloc, path)?),
    }
}

/// Where the bytes of a file lie: behind a link, where its path is one. A link that leads nowhere is
/// given as it is, and no file is made in its place.
pub(crate) fn place_of<R: Files>(rt: &R, alloc: Global, path: &str) -> Result<String, AllocError> {
    match behind_link(rt, alloc, path) {
        Ok(place) => Ok(place.into_string()),
        Err(error) if error.kind() == ErrorKind::OutOfMemory => Err(AllocError),
        Err(_) => String::from_str(alloc, path),
    }
}

/// Fails where something else than a file stands at a path.
fn allow<R: Files>(rt: &R, place: &str) -> io::Result<()> {
    match fs::symlink_metadata(rt, place) {
        Ok(found) if found.is_file() => Ok(()),
        Ok(_) => Err(io::Error::new(ErrorKind::InvalidInput, "not a regular file")),
        Err(error) if error.kind() == ErrorKind::NotFound => Ok(()),
        Err(error) => Err(error),
    }
}

/// Takes away what stands at a path. A link goes, and what is behind it stays.
fn take_away<R: Files>(rt: &R, path: &str) -> io::Result<()> {
    match fs::remove_file(rt, path) {
        Err(error) if error.kind() == ErrorKind::NotFound => Ok(()),
        answer => answer,
    }
}

fn write_zeros<F: Write>(file: &mut F, size: u64) -> io::Result<()> {
    let zeros = [0u8; CHUNK];
    for _ in 0..size / CHUNK as u64 {
        file.write_all(&zeros)?;
    }
    let rest = (size % CHUNK as u64) as usize;
    file.write_all(&zeros[..rest])?;
    file.flush()
}

/// Makes a file of zeros. They are written, so that the room of each byte is taken now and not in a
/// later write.
fn make_zeros<R: Files>(rt: &R, path: &str, size: u64) -> io::Result<R::File> {
    let mut file = OpenOptions::new()
        .read(true)
        .write(true)
        .create_new(true)
        .open(rt, path)?;
    write_zeros(&mut file, size)?;
    file.sync_all()?;
    Ok(file)
}

/// Makes a file of zeros at `draft` and gives it the name `place`.
fn renamed<R: Files>(rt: &R, draft: &str, place: &str, size: u64) -> io::Result<R::File> {
    let file = make_zeros(rt, draft, size)?;
    fs::rename(rt, draft, place)?;
    Ok(file)
}

/// Makes a file of zeros at `draft`, and gives it the name `place` once it is on the disk. Whatever
/// stood at `draft` goes. Where it fails, nothing is left there, and `place` is as before.
pub(crate) fn make<R: Files>(rt: &R, draft: &str, place: &str, size: u64) -> io::Result<R::File> {
    allow(rt, place)?;
    take_away(rt, draft)?;
    let made = renamed(rt, draft, place, size);
    if made.is_err() {
        let _ = fs::remove_file(rt, draft);
    }
    made
}

/// Brings the names of the folder of a file onto the disk.
pub(crate) fn sync_folder<R: Files>(rt: &R, place: &str) -> io::Result<()> {
    fs::open(rt, folder_of(place))?.sync_all()
}
