//! Stops at each device call of a formatting, of an entry and of a change of halves, and what is opened
//! after a crash.
//!
//! A disk with a failing call loses what that call was to do. A disk under a fuse loses no write, but each
//! later sync. In both a change counts once its gate is written, and a crash decides on a gate that is not
//! synced.

use crate::answers::{Told, ask, has_replied};
use crate::exports::{after, before, last_call, parts_of};
use crate::making::{disk_with, filling, open, prepare};
use rz_cells::FormatFault;
use rz_config::Volume;
use rz_disk::{Disk, Fused, MemDisk, PlainDisk};
use rz_events::Call;
use rz_journal::{Journal, JournalFault};
use std::alloc::Global;
use std::process::Abort;
use std::test::Fail;

/// The device calls of an opening.
const OPENING: u64 = 4;

const PICKS: [u64; 4] = [0, 1, 300, 301];

/// So many calls of 265 bytes fill a half, with the gate behind them.
const FILLING: u64 = 31_655;

/// A disk in memory whose call of this number is the one that fails.
fn failing_at(rt: &(impl Abort + AllocGlobal), number: u64) -> MemDisk {
    let fails = vec![in rt.alloc(); number; 1].expect(rt, "memory");
    MemDisk::new(rt.alloc(), fails)
}

/// A disk under a fuse.
fn fused(alloc: Global) -> Fused<PlainDisk> {
    Fused::new(PlainDisk::new(alloc))
}

/// What a journal answers to the call that stops.
fn ask_last<D: Disk>(rt: &(impl Abort + AllocGlobal), journal: &mut Journal<D>) -> Told {
    let call = Call::Tree(last_call(rt.alloc()).expect(rt, "memory"));
    let told = ask(rt, journal, &call);
    drop(call);
    told
}

/// The disk of a journal of these entries whose next call stops. Then it is closed.
fn stopped<D: Disk>(rt: &(impl Abort + AllocGlobal), disk: D, row: &[u8], passes: u64) -> D {
    let mut disk = disk;
    prepare(rt, &mut disk, row);
    disk.arm(Some(passes.saturating_add(OPENING)));
    let mut journal = open(rt, disk);
    let first = ask_last(rt, &mut journal);
    let second = ask_last(rt, &mut journal);
    assert!(rt; first == Told::DiskFault && second == Told::Closed);
    journal.into_disk()
}

/// The disk of a journal of one entry that is formatted anew, which stops.
fn stopped_format<D: Disk>(rt: &(impl Abort + AllocGlobal), disk: D, passes: u64) -> D {
    let mut disk = disk;
    let row = filling(rt.alloc(), 1).expect(rt, "memory");
    prepare(rt, &mut disk, row.as_slice());
    drop(row);
    disk.arm(Some(passes));
    let volume = Volume::plain(rt.alloc()).expect(rt, "memory");
    match Journal::format(rt.alloc(), volume, disk) {
        Err((disk, fault)) => {
            assert!(rt; matches!(fault, FormatFault::DiskFault));
            disk
        }
        Ok(_) => rt.panic("it did not stop"),
    }
}

/// The parts that an opening finds after a crash, or none where the header is shut.
fn found<D: Disk>(rt: &(impl Abort + AllocGlobal), disk: D, pick: u64) -> Vec<u8> {
    let mut disk = disk;
    disk.arm(None);
    disk.crash(pick);
    let volume = Volume::plain(rt.alloc()).expect(rt, "memory");
    match Journal::reopen(rt.alloc(), volume, disk) {
        Ok(journal) => {
            let parts = parts_of(rt.alloc(), journal.export());
            drop(journal);
            parts.expect(rt, "memory")
        }
        Err((disk, fault)) => {
            drop(disk);
            assert!(rt; fault == JournalFault::Unformatted);
            Vec::new(rt.alloc())
        }
    }
}

/// Whether a crash with a pick leaves a gate open that was opened since the last sync.
fn opens(gate_at: u64, pick: u64) -> bool {
    match pick {
        0 => false,
        1 => true,
        _ => pick.wrapping_mul(gate_at.wrapping_add(1)) % 2 == 1,
    }
}

/// The parts that are to be found.
fn either<'a>(is_there: bool, after: &'a [u8], before: &'a [u8]) -> &'a [u8] {
    if is_there { after } else { before }
}

/// What is to be found after a stop, in a call that makes so many device calls: the parts before it, and those
/// after it where the gate is open.
#[derive(Drop)]
struct StoppedEntry<'a> {
    calls: u64,
    is_open: bool,
    before: &'a [u8],
    after: &'a [u8],
}

impl<'a> StoppedEntry<'a> {
    /// The parts that are to be found where so many device calls were made.
    fn wanted(&self, made: u64) -> &'a [u8] {
        either(self.is_open && made >= self.calls, self.after, self.before)
    }
}

/// Whether these parts are found after a crash.
fn is_found<D: Disk>(rt: &(impl Abort + AllocGlobal), disk: D, pick: u64, wanted: &[u8]) -> bool {
    let parts = found(rt, disk, pick);
    let is_found = parts.as_slice() == wanted;
    drop(parts);
    is_found
}

/// Stops at each device call of a call, where it fails and where the fuse is at it.
fn stop_at_each(rt: &(impl Abort + AllocGlobal), row: &[u8], stop: &StoppedEntry<'_>, pick: u64) {
    for call in 0..stop.calls {
        let made = call.saturating_add(1);
        let disk = stopped(rt, failing_at(rt, call.saturating_add(9)), row, 0);
        let by_fault = is_found(rt, disk, pick, stop.wanted(made));
        let disk = stopped(rt, fused(rt.alloc()), row, call);
        let by_fuse = is_found(rt, disk, pick, stop.wanted(made.saturating_add(1)));
        assert!(rt; by_fault && by_fuse, "call {call}, pick {pick}");
    }
}

/// The same behind so many entries, for a call whose gate stands at an address, with each pick.
fn stops(rt: &(impl Abort + AllocGlobal), count: u64, calls: u64, gate_at: u64) {
    let row = filling(rt.alloc(), count).expect(rt, "memory");
    let old = before(rt.alloc(), count).expect(rt, "memory");
    let new = after(rt.alloc(), count).expect(rt, "memory");
    for pick in PICKS {
        let stop = StoppedEntry {
            calls,
            is_open: opens(gate_at, pick),
            before: old.as_slice(),
            after: new.as_slice(),
        };
        stop_at_each(rt, row.as_slice(), &stop, pick);
    }
    drop(new);
    drop(old);
    drop(row);
}

/// Two entries take 530 bytes behind the header.
#[test]
fn an_entry_that_stops_is_there_or_not(rt: HostRuntime) -> Result<(), Fail> {
    stops(&rt, 2, 4, 594);
    Ok(())
}

/// The parts take 404 bytes of the second half: the counters 30, two objects 46 each, and the name 282.
#[test]
fn a_change_of_halves_that_stops_is_done_or_not(rt: HostRuntime) -> Result<(), Fail> {
    stops(&rt, FILLING, 8, 64 + 8_388_576 + 404);
    Ok(())
}

/// The disk of a journal of these entries that replied to the call.
fn replied(rt: &(impl Abort + AllocGlobal), row: &[u8]) -> PlainDisk {
    let mut journal = open(rt, disk_with(rt, row));
    let told = ask_last(rt, &mut journal);
    assert!(rt; has_replied(told));
    journal.into_disk()
}

/// Whatever a crash leaves.
#[test]
fn a_call_that_was_answered_is_there(rt: HostRuntime) -> Result<(), Fail> {
    for count in [2, FILLING] {
        let row = filling(rt.alloc(), count).expect(&rt, "memory");
        let wanted = after(rt.alloc(), count).expect(&rt, "memory");
        for pick in PICKS {
            let disk = replied(&rt, row.as_slice());
            let is_found = is_found(&rt, disk, pick, wanted.as_slice());
            assert!(rt; is_found, "{count} entries, pick {pick}");
        }
        drop(wanted);
        drop(row);
    }
    Ok(())
}

/// The parts that a formatting leaves that fails at a call: a reset that fails leaves what was there, and
/// one that is done leaves a shut header.
fn left<'a>(call: u64, was: &'a [u8], by_gate: &'a [u8]) -> &'a [u8] {
    match call {
        0 => was,
        4 => by_gate,
        _ => b"",
    }
}

#[test]
fn a_formatting_that_fails_is_done_or_shut(rt: HostRuntime) -> Result<(), Fail> {
    let was = before(rt.alloc(), 1).expect(&rt, "memory");
    let anew = before(rt.alloc(), 0).expect(&rt, "memory");
    for pick in PICKS {
        let by_gate = either(opens(32, pick), anew.as_slice(), b"");
        for call in 0..5 {
            let disk = stopped_format(&rt, failing_at(&rt, 5 + call), 0);
            let wanted = left(call, was.as_slice(), by_gate);
            let is_found = is_found(&rt, disk, pick, wanted);
            assert!(rt; is_found, "call {call}, pick {pick}");
        }
    }
    drop(anew);
    drop(was);
    Ok(())
}

#[test]
fn a_formatting_that_stops_is_done_or_shut(rt: HostRuntime) -> Result<(), Fail> {
    let anew = before(rt.alloc(), 0).expect(&rt, "memory");
    for pick in PICKS {
        for passes in 0..4 {
            let disk = stopped_format(&rt, fused(rt.alloc()), passes);
            let is_there = passes >= 2 && opens(32, pick);
            let wanted = either(is_there, anew.as_slice(), b"");
            let is_found = is_found(&rt, disk, pick, wanted);
            assert!(rt; is_found, "passes {passes}, pick {pick}");
        }
    }
    drop(anew);
    Ok(())
}
