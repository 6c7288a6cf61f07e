//! A journal that is filled, opened again and written on, and the lines that tell of it.

use crate::counting::{CountingDisk, Written};
use crate::files::Files;
use crate::journals::FilledJournal;
use crate::tally::Tally;
use crate::telling::Teller;
use crate::words::FilesSize;
use std::io;
use std::rt::Clock;
use std::time::Instant;

/// Tells what these calls wrote on the disk.
fn tell_written<R: Print + Clock + Drop>(
    teller: &Teller<R>,
    name: &str,
    written: Written,
    calls: u64,
) -> io::Result<()> {
    let changes = written.changes;
    let bytes = written.bytes / calls.max(1);
    println!(teller.rt; "{name}-changes {changes} of halves")?;
    println!(teller.rt; "{name}-bytes {bytes} a call")
}

/// Fills a journal of this size, if there is to be one, opens it again, and writes on it.
pub fn run_journal<R: Print + Clock + Drop>(
    teller: &Teller<R>,
    size: Option<FilesSize>,
) -> io::Result<()> {
    let Some(size) = size else {
        return Ok(());
    };
    let files = size.files;
    let blocks = size.blocks;
    println!(teller.rt; "journal of {files} files, {blocks} blocks")?;
    let mut journal = FilledJournal::format(teller.alloc, size)?;
    let filled = fill(teller, &mut journal);
    let calls = journal.replies();
    let (mut disk, files) = journal.close();
    let written = disk.take_written();
    match end_of_fill(teller, filled, written, calls) {
        Ok(start) => reopen(teller, disk, files, start),
        Err(error) => {
            drop(disk);
            drop(files);
            Err(error)
        }
    }
}

fn fill<R: Print + Clock + Drop>(
    teller: &Teller<R>,
    journal: &mut FilledJournal,
) -> io::Result<()> {
    let start = teller.now()?;
    teller.tell("create", "accepted", start, journal.create()?)?;
    let start = teller.now()?;
    teller.tell("fill", "accepted", start, journal.fill())
}

/// Tells what a journal wrote that was filled, and answers what time it is then.
fn end_of_fill<R: Print + Clock + Drop>(
    teller: &Teller<R>,
    filled: io::Result<()>,
    written: Written,
    calls: u64,
) -> io::Result<Instant> {
    filled?;
    tell_written(teller, "fill", written, calls)?;
    teller.now()
}

/// Opens a journal that was closed at `start` again, and writes on it.
fn reopen<R: Print + Clock + Drop>(
    teller: &Teller<R>,
    disk: CountingDisk,
    files: Files,
    start: Instant,
) -> io::Result<()> {
    match FilledJournal::reopen(teller.alloc, disk, files)? {
        Some(journal) => write(teller, journal, start),
        None => teller.tell("reopen", "opened", start, Tally::of(false)),
    }
}

/// Tells of a journal that was opened since `start`, and of what is written on it.
fn write<R: Print + Clock + Drop>(
    teller: &Teller<R>,
    journal: FilledJournal,
    start: Instant,
) -> io::Result<()> {
    let mut journal = journal;
    let wrote = renew(teller, &mut journal, start);
    let calls = journal.replies();
    let (mut disk, files) = journal.close();
    let written = disk.take_written();
    drop(disk);
    drop(files);
    wrote?;
    tell_written(teller, "write", written, calls)
}

fn renew<R: Print + Clock + Drop>(
    teller: &Teller<R>,
    journal: &mut FilledJournal,
    start: Instant,
) -> io::Result<()> {
    teller.tell("reopen", "opened", start, Tally::of(true))?;
    let start = teller.now()?;
    let writes = journal.renew(teller.rt)?;
    teller.tell("write", "accepted", start, writes.tally)?;
    if teller.times {
        print!(teller.rt; "longest-write 1 of them")?;
        teller.end(writes.longest)?;
    }
    Ok(())
}
