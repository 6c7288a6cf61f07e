//! An export that entries make, one after another.

ghost use Rattle.std.specs.Prelude.{◌≡◌, ◌↔◌, ◌<◌, ◌≤◌, length, replicate, Some, true, IsTrue, IsSome, IfOk, IfErr};
ghost use Rattle.rz_events.specs.Borrowed.{call_of};
ghost use Rattle.rz_events.specs.declared.export.Call.{Call};
ghost use Rattle.rz_export_model.specs.Export.{new_export, is_proper, export_reply, export_after};
ghost use Rattle.rz_export.specs.Building.{IsCounters};
ghost use Rattle.rz_journal_text.specs.declared.entry.JournalEntry.{JournalEntry};
ghost use Rattle.rz_journal.specs.Said.{entry_of, call_said, accepts};
ghost use Rattle.rz_journal.specs.Opening.{IsSomeStage, TellsEnd, TellsPart, IsAdded, after_part, MakeExport, StopsAtEntry};

use crate::reading::{EntryFound, next_entry};
use crate::said::{accepts, is_kept};
use rz_config::Volume;
use rz_events::{Call, CallRef, Key, Reply, Text};
use rz_export::Export;
use rz_journal_text::JournalEntry;
use rz_tree::Part;
use std::alloc::{AllocError, Global};

/// Why a journal was not opened again.
#[derive(Clone, Copy, Debug, PartialEq, Eq, Drop)]
pub enum JournalFault {
    NoMemory,
    /// The disk has other bytes than so many.
    WrongSize { have: u64, need: u64 },
    DiskFault,
    /// The header's gate is shut.
    Unformatted,
    /// Other bytes stand before the header's gate than those of a journal.
    BadHeader,
    /// The entry of this number can't be read, or may not stand behind those before it; or the parts
    /// end before it and lack an object or a name.
    Damaged { entry: u64 },
}

/// How far the entries went.
#[derive(Clone, Copy, Drop)]
pub enum ReopenProgress {
    Empty,
    /// The counters alone stand so far.
    Counters,
    /// The counters and the root stand, and maybe more parts.
    Parts,
    /// A call stands behind the parts.
    Calls,
}

/// What the entries so far make.
#[derive(Drop)]
pub struct Rebuilt {
    pub export: Export,
    pub stage: ReopenProgress,
}

impl Rebuilt {
    // Adds the entries of a half to a new export, and gives how many bytes they take; or the number of the
    // first that is damaged.
    fn add_all(&mut self, alloc: Global, half: &[u8]) -> Result<usize, JournalFault>
        requires some { 1 ≤ length half.now }
        requires new { self.old.export ≡ new_export self.old.export.volume 0 }
        requires empty { self.old.stage ≡ ReopenProgress.Empty }
        ensures rebuilt { IfOk result (λ used. MakeExport self.old.export.volume half.now used self.new.export) }
        ensures used { IfOk result (λ used. used < length half.now) }
        ensures stopped { IfErr result (StopsAtEntry self.old.export.volume half.now) }
    {
        let mut at = 0;
        let mut count = 0;
        loop {
            let Ok(step) = next_entry(alloc, half, at) else {
                return Err(JournalFault::NoMemory);
            };
            match step {
                EntryFound::End => {
                    if !self.ends_well() {
                        return Err(JournalFault::Damaged { entry: count });
                    }
                    return Ok(at);
                }
                EntryFound::Damaged => return Err(JournalFault::Damaged { entry: count }),
                EntryFound::Entry { entry, next } => {
                    let Ok(goes) = self.add(alloc, entry) else {
                        return Err(JournalFault::NoMemory);
                    };
                    if !goes {
                        return Err(JournalFault::Damaged { entry: count });
                    }
                    at = next;
                    count += 1;
                }
            }
        }
    }

    // Adds an entry, and tells whether it may stand behind those before it.
    fn add(&mut self, alloc: Global, entry: JournalEntry) -> Result<bool, AllocError>
        requires { IsSomeStage self.old.stage self.old.export }
        ensures { IfOk result (λ goes. IsAdded entry self.old.stage self.old.export goes self.new.stage self.new.export) }
    {
        match entry {
            JournalEntry::Built(part) => self.take_part(part),
            JournalEntry::Tree(call) => self.take_call(Call::Tree(call)),
            JournalEntry::Begin { key, bytes } => self.add_begin(alloc, key, bytes),
            JournalEntry::Publish {
                key,
                stamp,
                mask,
                bytes,
            } => self.take_call(Call::Publish {
                key,
                stamp,
                mask,
                length: bytes,
            }),
            JournalEntry::Enroll { node, loss } => self.take_call(Call::Enroll { node, loss }),
        }
    }

    // Adds a part, and tells whether it may stand behind the entries before it.
    fn add_part(&mut self, part: &Part) -> Result<bool, AllocError>
        requires { IsSomeStage self.old.stage self.old.export }
        ensures { IfOk result (λ goes. IsAdded (JournalEntry.Built part.now) self.old.stage self.old.export goes self.new.stage self.new.export) }
    {
        if !self.lets_follow(part) {
            return Ok(false);
        }
        self.export.add_part(part)?;
        self.stage = after_part(self.stage);
        Ok(true)
    }

    // Adds the begin of a write of so many bytes. More than a block has are refused before any memory
    // is taken for them.
    fn add_begin(&mut self, alloc: Global, key: Key, bytes: u32) -> Result<bool, AllocError>
        ensures { IfOk result (λ goes. IsAdded (JournalEntry.Begin key bytes) self.old.stage self.old.export goes self.new.stage self.new.export) }
    {
        if self.export.layout().block_bytes() < bytes as usize {
            return Ok(false);
        }
        let text = zeros(alloc, bytes)?;
        self.take_call(Call::Begin { key, text })
    }

    // Adds a part, which goes then.
    fn take_part(&mut self, part: Part) -> Result<bool, AllocError>
        requires { IsSomeStage self.old.stage self.old.export }
        ensures { IfOk result (λ goes. IsAdded (JournalEntry.Built part) self.old.stage self.old.export goes self.new.stage self.new.export) }
    {
        let goes = self.add_part(&part);
        drop(part);
        goes
    }

    // Adds a call, which goes then.
    fn take_call(&mut self, call: Call) -> Result<bool, AllocError>
        ensures { IfOk result (λ goes. (e : JournalEntry) → call_said e ≡ Some call → IsAdded e self.old.stage self.old.export goes self.new.stage self.new.export) }
    {
        let goes = self.add_call(call.borrowed());
        drop(call);
        goes
    }

    // Adds a call, and tells whether it may stand behind the entries before it.
    fn add_call(&mut self, call: CallRef<'_>) -> Result<bool, AllocError>
        ensures { IfOk result (λ goes. (e : JournalEntry) → call_said e ≡ Some (call_of call.entry) → IsAdded e self.old.stage self.old.export goes self.new.stage self.new.export) }
    {
        if !self.ends_well() {
            return Ok(false);
        }
        if !self.takes(call) {
            return Ok(false);
        }
        let accepted = ask(&mut self.export, call)?;
        if !accepted {
            return Ok(false);
        }
        self.stage = ReopenProgress::Calls;
        Ok(true)
    }

    // Whether a part may stand behind the entries so far.
    fn lets_follow(&self, part: &Part) -> bool
        ensures { TellsPart self.now.stage self.now.export part.now result }
    {
        match self.stage {
            ReopenProgress::Empty => is_counters(part),
            ReopenProgress::Counters => part.is_root(),
            ReopenProgress::Parts => self.export.allows(part),
            ReopenProgress::Calls => false,
        }
    }

    // Whether the parts so far end well: there are none, or the root is there and each object has a name.
    fn ends_well(&self) -> bool
        ensures { TellsEnd self.now.stage self.now.export result }
    {
        match self.stage {
            ReopenProgress::Empty => true,
            ReopenProgress::Counters => false,
            ReopenProgress::Parts => self.export.is_named(),
            ReopenProgress::Calls => true,
        }
    }

    // Whether a call has an entry, and the export may be asked.
    fn takes(&self, call: CallRef<'_>) -> bool
        ensures { IsTrue result ↔ (IsSome (entry_of (call_of call.entry)) × (is_proper self.now.export (call_of call.entry) ≡ true)) }
    {
        is_kept(call) && self.export.takes_ref(call)
    }
}

/// What the entries of a half make, and how many bytes they take; or the number of the first that is
/// damaged.
pub fn rebuild(alloc: Global, volume: Volume, half: &[u8]) -> Result<(Export, usize), JournalFault>
    requires { 1 ≤ length half.now }
    ensures rebuilt { IfOk result (λ r. MakeExport volume half.now r.1 r.0) }
    ensures used { IfOk result (λ r. r.1 < length half.now) }
    ensures stopped { IfErr result (StopsAtEntry volume half.now) }
{
    let Ok(export) = Export::new(alloc, volume, 0) else {
        return Err(JournalFault::NoMemory);
    };
    let mut so_far = Rebuilt {
        export,
        stage: ReopenProgress::Empty,
    };
    match so_far.add_all(alloc, half) {
        Ok(used) => Ok((so_far.export, used)),
        Err(fault) => {
            drop(so_far);
            Err(fault)
        }
    }
}

// Asks the export, and tells whether it accepts the call.
fn ask(export: &mut Export, call: CallRef<'_>) -> Result<bool, AllocError>
    requires { IsTrue (is_proper export.old (call_of call)) }
    ensures accepted { IfOk result (λ yes. yes ≡ accepts (export_reply export.old (call_of call.entry))) }
    ensures after { IfOk result (λ yes. export.new ≡ export_after export.old (call_of call.entry)) }
{
    let reply = export.answer_ref(call);
    let is_wanting = is_want(&reply);
    let is_accepted = accepts(&reply);
    drop(reply);
    if is_wanting {
        return Err(AllocError);
    }
    Ok(is_accepted)
}

// The stage behind a part more.
fn after_part(stage: ReopenProgress) -> ReopenProgress
    ensures { result ≡ after_part stage }
{
    match stage {
        ReopenProgress::Empty => ReopenProgress::Counters,
        ReopenProgress::Counters | ReopenProgress::Parts | ReopenProgress::Calls =>
            ReopenProgress::Parts,
    }
}

// So many zeros.
fn zeros(alloc: Global, count: u32) -> Result<Text, AllocError>
    ensures { IfOk result (λ text. text ≡ replicate count 0) }
{
    let bytes = Vec::from_elem(alloc, 0, count as usize)?;
    Ok(Text::from_vec(bytes))
}

// Whether a part is the counters.
fn is_counters(part: &Part) -> bool
    ensures { IsTrue result ↔ IsCounters part.now }
{
    match part {
        Part::Counters { .. } => true,
        Part::Object { .. } | Part::Name { .. } | Part::Block { .. } | Part::Enrolled { .. } =>
            false,
    }
}

// Whether memory was wanting.
fn is_want(reply: &Reply) -> bool
    ensures { IsTrue result ↔ (reply.now ≡ Reply.NoMemory) }
{
    match reply {
        Reply::NoMemory => true,
        _ => false,
    }
}
