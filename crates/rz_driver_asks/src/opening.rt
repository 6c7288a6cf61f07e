//! Opens with a lock.
ghost use Rattle.std.specs.Prelude.{◌≡◌, ◌<◌, ◌≤◌, ℕ, None, OnOk, OnErr, IsTrue};
ghost use Rattle.std.specs.FinMap as map;
ghost use Rattle.rz_events.specs.declared.keys.Actor.TheVariants as actor;
ghost use Rattle.rz_events.specs.declared.tree.TreeCall.TheVariants as tree;
ghost use Rattle.rz_metadata.specs.Stands.{CountsFaults, IsJournalOpen, export_in, is_journaled};
ghost use Rattle.rz_operation.specs.Meaning.{path_in};
ghost use Rattle.rz_play.specs.Turns.{lock_on};
ghost use Rattle.rz_operation_model.specs.Ask.{ask_of};
ghost use Rattle.rz_driver_asks.specs.Asked.{KeepsAsked, LeavesAsked};
ghost use Rattle.rz_driver_asks.specs.Locking.{lock_of, Grants, lock_if, IsOpenPart};

use crate::replies::note_names;
use rz_disk::Disk;
use rz_events::{Actor, CallRef, Reply, TreeCall, TreeReply};
use rz_locks::{LockAnswer, LockKind, Locks, Range};
use rz_log::{Halted, Log};
use rz_metadata::Metadata;
use rz_operation::{Ask, Machine};
use std::alloc::Global;

/// Opens the file that a machine asks for, and takes its lock where no held lock conflicts.
pub fn open<D: Disk>(
    alloc: Global,
    by: Actor,
    machine: &mut Machine,
    held: &mut Option<(Range, LockKind)>,
    locks: &mut Locks,
    export: &mut Metadata<D>,
    log: &mut Log,
) -> Result<(), Halted>
    requires tied { (n : ℕ) → by ≡ actor.Client n → map.get locks.old n ≡ lock_of held.old }
    requires room { 0 < log.old.room }
    ensures ok { OnOk result (IsOpenPart by machine.old machine.new (export_in export.old) (export_in export.new) locks.old locks.new held.old held.new log.old.events log.new.events) }
    ensures err { OnErr result (log.new.events ≡ log.old.events) }
    ensures kept { OnOk result (KeepsAsked D.tells D.meter D.image machine.old export.old export.new) }
    ensures left { OnErr result (IsJournalOpen export.old → LeavesAsked D.tells D.meter D.image (ask_of machine.old.layout machine.old.work) export.old export.new) }

    // On every exit.
    ensures counted { IsJournalOpen export.old → (first : ℕ) → CountsFaults D.meter first export.old → CountsFaults D.meter first export.new }
    ensures journal { is_journaled export.new ≡ is_journaled export.old }
    ensures volume { (export_in export.new).volume ≡ (export_in export.old).volume }
{
    let Ask::Lock {
        call,
        exclusive,
        from,
        count,
    } = machine.next()
    else {
        return Err(Halted);
    };
    let Actor::Client(owner) = by else {
        return Err(Halted);
    };
    if held.is_some() || owner == 0 || owner > 64 {
        return Err(Halted);
    }
    if !opens(call) {
        return Err(Halted);
    }
    let copy = call.copy(alloc)?;
    let Ok(reply) = export.reply(CallRef::Tree(call)) else {
        drop(copy);
        return Err(Halted);
    };
    if !machine.takes_locked(&reply) {
        drop(copy);
        drop(reply);
        return Err(Halted);
    }
    match note_names(alloc, by, copy, &reply, log) {
        Ok(()) => {
            let wanted = wanted(&reply, exclusive, from, count);
            let granted = take(locks, owner, wanted, held);
            machine.tell_locked(granted, reply);
            Ok(())
        }
        Err(fault) => {
            drop(reply);
            Err(fault)
        }
    }
}

/// Whether a call opens a file.
fn opens(call: &TreeCall) -> bool
    ensures { IsTrue result → call.now ≡ tree.OpenFile (path_in call.now) }
{
    match call {
        TreeCall::OpenFile { .. } => true,
        _ => false,
    }
}

/// The lock on bytes of the file that was opened, if it was.
fn wanted(reply: &Reply, exclusive: bool, from: u64, count: u64) -> Option<(Range, LockKind)>
    ensures { lock_of result ≡ lock_on reply.now exclusive from count }
{
    let kind = if exclusive {
        LockKind::Exclusive
    } else {
        LockKind::Shared
    };
    match reply {
        Reply::Tree(TreeReply::File(info)) => Some((
            Range {
                fid: info.fid,
                from,
                length: count,
            },
            kind,
        )),
        _ => None,
    }
}

/// Takes a lock, if there is one to take, and answers whether it was granted.
fn take(
    locks: &mut Locks,
    owner: u8,
    wanted: Option<(Range, LockKind)>,
    held: &mut Option<(Range, LockKind)>,
) -> bool
    requires from_one { 1 ≤ owner }
    requires to_last { owner ≤ 64 }
    requires holds_none { map.get locks.old owner ≡ None }
    requires none { held.old ≡ None }
    ensures grants { Grants locks.old owner (lock_of wanted) result locks.new }
    ensures held { lock_of held.new ≡ lock_if result (lock_of wanted) (lock_of held.old) }
{
    let Some((range, kind)) = wanted else {
        return false;
    };
    match locks.take(owner, range, kind) {
        LockAnswer::Granted => {
            *held = Some((range, kind));
            true
        }
        LockAnswer::Busy { .. } => false,
    }
}
