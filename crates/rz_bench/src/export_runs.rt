//! An export that is filled and called, and the lines that tell of it.

ghost use Rattle.std.specs.Prelude.{◌≡◌, length};

use crate::exports::FilledExport;
use crate::files::NameUse;
use crate::telling::Teller;
use crate::words::FilesSize;
use rz_events::TreeCall;
use std::io;
use std::rt::Clock;
use std::time::Instant;

/// Makes calls on an export of this size, if there is to be one.
pub fn run_export<R: Print + Clock + Drop>(
    teller: &Teller<R>,
    size: Option<FilesSize>,
) -> io::Result<()> {
    let Some(size) = size else {
        return Ok(());
    };
    let files = size.files;
    let blocks = size.blocks;
    println!(teller.rt; "export of {files} files, {blocks} blocks")?;
    let start = teller.now()?;
    let mut export = FilledExport::new(teller.alloc, size)?;
    let ran = run_filled(teller, &mut export, start, size.calls);
    drop(export);
    ran
}

fn run_filled<R: Print + Clock + Drop>(
    teller: &Teller<R>,
    export: &mut FilledExport,
    start: Instant,
    calls: u32,
) -> io::Result<()> {
    teller.tell("create", "accepted", start, export.create()?)?;
    let start = teller.now()?;
    teller.tell("fill", "accepted", start, export.fill()?)?;
    run_blocks(teller, export, calls)?;
    run_lookups(teller, export, calls)?;
    run_rounds(teller, export, calls)
}

fn run_blocks<R: Print + Clock + Drop>(
    teller: &Teller<R>,
    export: &mut FilledExport,
    calls: u32,
) -> io::Result<()> {
    let start = teller.now()?;
    teller.tell("look", "looked", start, export.look(calls))?;
    let start = teller.now()?;
    teller.tell("recheck", "looked", start, export.recheck(calls))?;
    let start = teller.now()?;
    teller.tell("write", "accepted", start, export.renew(calls)?)?;
    let start = teller.now()?;
    teller.tell("next", "listed", start, export.next(calls))?;
    let start = teller.now()?;
    teller.tell("next-of-none", "listed", start, export.next_of_none(calls))?;
    let start = teller.now()?;
    teller.tell("published", "listed", start, export.published(calls))
}

/// Looks up the paths of files, which are made before.
fn run_lookups<R: Print + Clock + Drop>(
    teller: &Teller<R>,
    export: &mut FilledExport,
    calls: u32,
) -> io::Result<()> {
    let lookups = export.calls(NameUse::Lookup, calls)?;
    let ran = time_lookups(teller, export, &lookups);
    drop(lookups);
    ran
}

fn time_lookups<R: Print + Clock + Drop>(
    teller: &Teller<R>,
    export: &mut FilledExport,
    lookups: &[TreeCall],
) -> io::Result<()> {
    let start = teller.now()?;
    teller.tell("lookup", "found", start, export.look_up(lookups)?)
}

/// Makes one more file beside files and takes it away again, by calls that are made before.
fn run_rounds<R: Print + Clock + Drop>(
    teller: &Teller<R>,
    export: &mut FilledExport,
    calls: u32,
) -> io::Result<()> {
    let creates = export.calls(NameUse::Create, calls)?;
    let ran = run_with(teller, export, &creates, calls);
    drop(creates);
    ran
}

/// The same with the calls that make the files.
fn run_with<R: Print + Clock + Drop>(
    teller: &Teller<R>,
    export: &mut FilledExport,
    creates: &[TreeCall],
    calls: u32,
) -> io::Result<()>
    requires { length creates.now ≡ calls }
{
    let unlinks = export.calls(NameUse::Unlink, calls)?;
    let ran = time_rounds(teller, export, creates, &unlinks);
    drop(unlinks);
    ran
}

fn time_rounds<R: Print + Clock + Drop>(
    teller: &Teller<R>,
    export: &mut FilledExport,
    creates: &[TreeCall],
    unlinks: &[TreeCall],
) -> io::Result<()>
    requires { length creates.now ≡ length unlinks.now }
{
    let start = teller.now()?;
    let tally = export.come_and_go(creates, unlinks)?;
    teller.tell("create-unlink", "gone", start, tally)
}
