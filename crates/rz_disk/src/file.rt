//! A disk over a file of the system.
ghost use Rattle.std.specs.Prelude.{◌≡◌, ◌⊎◌, ◌+◌, ◌≤◌, true, false, refl, length, replicate, IfOk, OnOk, OnErr, IsErr, IsErrOf, IsOk, is_ok, is_err, is_some, if◌then◌else◌};
ghost use Rattle.rz_disk.specs.Meter.{one_more};
ghost use Rattle.rz_disk.specs.OverFile.{faults_after, after_call, after_change, file_meter};

use crate::placing::{make, place_of, sync_folder};
use crate::{Disk, DiskError, Failed};
use std::alloc::{AllocError, Global};
use std::fs::{OpenFile, OpenOptions};
use std::io::{self, ErrorKind, Read, Seek, SeekFrom, Write};
use std::marker::Model;
use std::rt::Files;

/// It tells no text, since nobody knows what the system's file holds: of it a contract says which
/// calls may be made, and that each fault is counted. A crash leaves it alone.
///
/// The system may tell of a failed sync once, and let the next one succeed although the bytes are
/// gone. So once a write, a sync or a reset has failed, each call fails until a reset succeeds, or
/// the file is opened anew.
#[derive(Drop)]
pub struct FileDisk<'a, R: Files> {
    rt: &'a R,
    path: String,
    /// Where its bytes lie: behind a link, where the path is one.
    place: String,
    /// Where a reset makes the new file.
    draft: String,
    /// None before the first reset.
    file: Option<R::File>,
    is_read_only: bool,
    has_failed: bool,
    size: u64,
    faults: u64,
    error: Option<io::Error>,
}

impl<'a, R: Files> Model for FileDisk<'a, R> {
    ghost use Rattle.std.specs.Prelude.{is_some};
    ghost use Rattle.rz_disk.specs.OverFile.{OverFile};

    ghost Value = { OverFile };

    ghost view = { λ d. record {
      is_open = is_some d.file;
      is_read_only = d.is_read_only;
      has_failed = d.has_failed;
      size = d.size;
      faults = d.faults;
    } };
}

impl<'a, R: Files> FileDisk<'a, R> {
    /// A disk of no bytes. Nothing is opened before it is reset.
    pub fn new(rt: &'a R, alloc: Global, path: &str) -> Result<FileDisk<'a, R>, AllocError>
        ensures { IfOk result (λ d. d ≡ record {
          is_open = false;
          is_read_only = false;
          has_failed = false;
          size = 0;
          faults = 0;
        }) }
    {
        let place = place_of(rt, alloc, path)?;
        let mut draft = String::from_str(alloc, place.as_str())?;
        draft.push_str(".new")?;
        Ok(FileDisk {
            rt,
            path: String::from_str(alloc, path)?,
            place,
            draft,
            file: None,
            is_read_only: false,
            has_failed: false,
            size: 0,
            faults: 0,
            error: None,
        })
    }

    /// The file at `path`, which stays as it is. It fails only where the system does not open it, or
    /// for memory, by an error of the kind `OutOfMemory`. A file whose length the system does not
    /// tell has no bytes.
    pub fn open(rt: &'a R, alloc: Global, path: &str) -> io::Result<FileDisk<'a, R>>
        ensures open { IfOk result (λ d. d.is_open ≡ true) }
        ensures written { IfOk result (λ d. d.is_read_only ≡ false) }
        ensures fresh { IfOk result (λ d. d.faults ≡ 0) }
        ensures sound { IfOk result (λ d. d.has_failed ≡ false) }
    {
        let mut disk = FileDisk::new(rt, alloc, path)?;
        let file = OpenOptions::new().read(true).write(true).open(rt, path)?;
        disk.size = length_of(&file);
        disk.file = Some(file);
        Ok(disk)
    }

    /// The same, for reading alone: each write and each reset of it fails.
    pub fn open_to_read(rt: &'a R, alloc: Global, path: &str) -> io::Result<FileDisk<'a, R>>
        ensures open { IfOk result (λ d. d.is_open ≡ true) }
        ensures unwritten { IfOk result (λ d. d.is_read_only ≡ true) }
        ensures fresh { IfOk result (λ d. d.faults ≡ 0) }
        ensures sound { IfOk result (λ d. d.has_failed ≡ false) }
    {
        let mut disk = FileDisk::new(rt, alloc, path)?;
        let file = OpenOptions::new().read(true).open(rt, path)?;
        disk.size = length_of(&file);
        disk.file = Some(file);
        disk.is_read_only = true;
        Ok(disk)
    }

    /// `open`, with the error of a disk in the place of the system's.
    pub fn existing(rt: &'a R, alloc: Global, path: &str) -> Result<FileDisk<'a, R>, DiskError>
        ensures open { IfOk result (λ d. d.is_open ≡ true) }
        ensures written { IfOk result (λ d. d.is_read_only ≡ false) }
        ensures fresh { IfOk result (λ d. d.faults ≡ 0) }
        ensures sound { IfOk result (λ d. d.has_failed ≡ false) }
    {
        match FileDisk::open(rt, alloc, path) {
            Ok(disk) => Ok(disk),
            Err(error) => Err(fault_of(&error)),
        }
    }

    /// `open_to_read`, with the error of a disk in the place of the system's.
    pub fn reading(rt: &'a R, alloc: Global, path: &str) -> Result<FileDisk<'a, R>, DiskError>
        ensures open { IfOk result (λ d. d.is_open ≡ true) }
        ensures unwritten { IfOk result (λ d. d.is_read_only ≡ true) }
        ensures fresh { IfOk result (λ d. d.faults ≡ 0) }
        ensures sound { IfOk result (λ d. d.has_failed ≡ false) }
    {
        match FileDisk::open_to_read(rt, alloc, path) {
            Ok(disk) => Ok(disk),
            Err(error) => Err(fault_of(&error)),
        }
    }

    /// The path that it was made with.
    pub fn path(&self) -> &str {
        self.path.as_str()
    }

    /// What the system said of the last call that it failed, if it failed one.
    pub fn last_error(&self) -> Option<io::Error> {
        self.error
    }
}

fn fault_of(error: &io::Error) -> DiskError {
    if error.kind() == ErrorKind::OutOfMemory {
        DiskError::NoMemory
    } else {
        DiskError::Failed
    }
}

fn length_of<F: OpenFile>(file: &F) -> u64 {
    match file.metadata() {
        Ok(metadata) => metadata.len(),
        Err(_) => 0,
    }
}

fn read_from<F: Read + Seek>(file: &mut F, at: u64, out: &mut [u8]) -> io::Result<()> {
    file.seek(SeekFrom::Start(at))?;
    file.read_exact(out)
}

fn write_to<F: Write + Seek>(file: &mut F, at: u64, bytes: &[u8]) -> io::Result<()> {
    file.seek(SeekFrom::Start(at))?;
    file.write_all(bytes)
}

fn bring<F: Write + OpenFile>(file: &mut F) -> io::Result<()> {
    file.flush()?;
    file.sync_data()
}

/// The error of a change of a disk that is for reading alone.
fn unwritten() -> io::Error {
    io::Error::new(
        ErrorKind::ReadOnlyFilesystem,
        "the file is open for reading alone",
    )
}

/// The error that a disk had, once more.
fn again(error: &Option<io::Error>) -> io::Error {
    match error {
        Some(error) => *error,
        None => io::Error::from(ErrorKind::Other),
    }
}

/// Counts a fault where the system's answer is an error, and keeps that.
fn settle(
    answer: io::Result<()>,
    faults: &mut u64,
    kept: &mut Option<io::Error>,
) -> Result<(), Failed>
    ensures same { is_ok result ≡ is_ok answer }
    ensures counted { faults.new ≡ (if is_err result then one_more faults.old else faults.old) }
{
    match answer {
        Ok(()) => Ok(()),
        Err(error) => {
            *faults = faults.saturating_add(1);
            *kept = Some(error);
            Err(Failed)
        }
    }
}

/// The same of a write or a sync, of which a failure is remembered.
fn settle_change(
    answer: io::Result<()>,
    faults: &mut u64,
    kept: &mut Option<io::Error>,
    has_failed: &mut bool,
) -> Result<(), Failed>
    ensures same { is_ok result ≡ is_ok answer }
    ensures counted { faults.new ≡ (if is_err result then one_more faults.old else faults.old) }
    ensures remembered { has_failed.new ≡ (if is_err result then true else has_failed.old) }
{
    let settled = settle(answer, faults, kept);
    *has_failed |= settled.is_err();
    settled
}

impl<'a, R: Files> Disk for FileDisk<'a, R> {
    ghost tells = { false };

    ghost has_fuse = { false };

    ghost text = { λ d. replicate d.size 0 };

    ghost image = { λ d c. ⊥ };

    ghost picks = { λ d pick c. c ≡ replicate d.size 0 };

    ghost meter = { λ d. file_meter d };

    ghost text_is_image = { λ d no. cc };

    ghost no_fuse = { λ d _. refl };

    ghost none_planned = { λ d _. refl };

    fn size(&self) -> u64 {
        self.size
    }

    /// Makes a new file of zeros, and renames it over the old one. Where its path is a link, that stays, and the
    /// file behind it is made anew.
    fn reset(&mut self, _alloc: Global, size: u64) -> Result<(), DiskError>
        ensures open { OnOk result (self.new.is_open ≡ true) }
        ensures stays_open { self.old.is_open ≡ true → self.new.is_open ≡ true }
        ensures size { OnOk result (self.new.size ≡ size) }
        ensures kept { OnErr result ((self.new.size ≡ self.old.size) ⊎ (self.new.size ≡ size)) }
        ensures counted { self.new.faults ≡ faults_after (is_err result) self.old }
        ensures failed { self.new.has_failed ≡ is_err result }
        ensures read_only { self.new.is_read_only ≡ self.old.is_read_only }
        ensures unwritten { self.old.is_read_only ≡ true → IsErr result }
        ensures memory { IsErrOf result DiskError.NoMemory → ⊥ }
    {
        let made = if self.is_read_only {
            Err(unwritten())
        } else {
            make(self.rt, &self.draft, &self.place, size)
        };
        let answer = match made {
            Ok(file) => {
                self.file = Some(file);
                self.size = size;
                sync_folder(self.rt, &self.place)
            }
            Err(error) => Err(error),
        };
        let settled = settle(answer, &mut self.faults, &mut self.error);
        self.has_failed = settled.is_err();
        match settled {
            Ok(()) => Ok(()),
            Err(Failed) => Err(DiskError::Failed),
        }
    }

    fn read(&mut self, at: u64, out: &mut [u8]) -> Result<(), Failed>
        requires { at + length out.old ≤ self.old.size }
        ensures counted { self.new ≡ after_call (is_err result) self.old }
        ensures refused { self.old.is_open ≡ true → self.old.has_failed ≡ true → IsErr result }
        ensures closed { self.old.is_open ≡ false → IsOk result }
    {
        let answer = match &mut self.file {
            None => Ok(()),
            Some(_) if self.has_failed => Err(again(&self.error)),
            Some(file) => read_from(file, at, out),
        };
        settle(answer, &mut self.faults, &mut self.error)
    }

    fn write_at(&mut self, at: u64, bytes: &[u8]) -> Result<(), Failed>
        requires { at + length bytes.now ≤ self.old.size }
        ensures counted { self.new ≡ after_change (is_err result) self.old }
        ensures refused { self.old.is_open ≡ true → self.old.has_failed ≡ true → IsErr result }
        ensures unwritten { self.old.is_open ≡ true → self.old.is_read_only ≡ true → IsErr result }
        ensures closed { self.old.is_open ≡ false → IsOk result }
    {
        let answer = match &mut self.file {
            None => Ok(()),
            Some(_) if self.has_failed => Err(again(&self.error)),
            Some(_) if self.is_read_only => Err(unwritten()),
            Some(file) => write_to(file, at, bytes),
        };
        settle_change(
            answer,
            &mut self.faults,
            &mut self.error,
            &mut self.has_failed,
        )
    }

    fn sync(&mut self) -> Result<(), Failed>
        ensures counted { self.new ≡ after_change (is_err result) self.old }
        ensures refused { self.old.is_open ≡ true → self.old.has_failed ≡ true → IsErr result }
        ensures closed { self.old.is_open ≡ false → IsOk result }
    {
        let answer = match &mut self.file {
            None => Ok(()),
            Some(_) if self.has_failed => Err(again(&self.error)),
            Some(file) => bring(file),
        };
        settle_change(
            answer,
            &mut self.faults,
            &mut self.error,
            &mut self.has_failed,
        )
    }

    fn crash(&mut self, _pick: u64)
        ensures { self.new ≡ self.old }
    {}

    fn arm(&mut self, _passes: Option<u64>)
        ensures { self.new ≡ self.old }
    {}
}
