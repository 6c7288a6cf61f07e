//! A worker does its operations, one after another.
ghost use Rattle.std.specs.Prelude.{◌≡◌, OnOk, OnErr};
ghost use Rattle.rz_core.specs.History.{of_actor};
ghost use Rattle.rz_chronicle.specs.Keys.{IsLater};
ghost use Rattle.rz_chronicle.specs.Kinds.{is_honest, volume_in};
ghost use Rattle.rz_show.specs.Shown.{shown_of};
ghost use Rattle.rz_threads_steps.specs.Adding.{PassLasts};
ghost use Rattle.rz_threads_steps.specs.Turned.{AreLost};
ghost use Rattle.rz_threads_worker.specs.Doing.{HasDone, IsSomeDone};
ghost use Rattle.rz_threads_worker.specs.Workers.{IsAllDone, IsWorkerReady, agenda_of};

use crate::worker::Worker;
use rz_disk::Disk;
use rz_link::Link;
use rz_player::Halted;
use rz_shared::Counting;
use rz_threads_steps::{SharedStore, step};
use std::alloc::Global;
use std::sync::Wait;
use std::thread::Threads;

/// Takes a turn: takes up the next operation, where none is in hand, and does what it asks next.
fn take_turn<R: Threads + Wait + Sync, D: Disk, J: Counting, L: Link>(
    rt: &R,
    alloc: Global,
    store: &SharedStore<D, J>,
    worker: &mut Worker<J, L>,
) -> Result<(), Halted>
    requires volume { store.now.volume ≡ volume_in J.kind }
    requires ready { IsWorkerReady J.kind worker.old.pass worker.old.agenda worker.old.bins.items worker.old.shown.items }
    ensures lasts { PassLasts worker.old.pass worker.new.pass }
    ensures lost { AreLost worker.old.pass.actor worker.old.pass.log worker.new.pass.log (L.lost worker.old.link) (L.lost worker.new.link) }
    ensures shown { worker.new.shown.items ≡ shown_of (of_actor worker.old.pass.actor worker.new.pass.log) }
    ensures ready { OnOk result (IsWorkerReady J.kind worker.new.pass worker.new.agenda worker.new.bins.items worker.new.shown.items) }
    ensures done { OnOk result (HasDone (is_honest J.kind) (volume_in J.kind).layout worker.old.pass.actor (agenda_of worker.old.agenda) (agenda_of worker.new.agenda) worker.old.pass.log worker.new.pass.log) }
    ensures begun { OnErr result (IsSomeDone (is_honest J.kind) (volume_in J.kind).layout worker.old.pass.actor (agenda_of worker.old.agenda) worker.old.pass.log worker.new.pass.log) }
{
    rz_block_laws::acting::begins();
    rz_block_laws::acting::scripted();
    let _fit = worker.pass.actor();
    let layout = store.layout();
    worker.agenda.begin_next(rt, alloc, layout)?;
    let number = worker.agenda.number;
    let Some(machine) = &mut worker.agenda.machine else {
        return Err(Halted);
    };
    step(
        rt,
        alloc,
        store,
        &mut worker.pass,
        &mut worker.link,
        number,
        machine,
        &mut worker.bins,
        &mut worker.shown,
    )?;
    Ok(())
}

/// Does all operations of a worker, in their order. Where memory is wanting it stops, and has done the
/// first of them and begun one more.
pub fn work<R: Threads + Wait + Sync, D: Disk, J: Counting, L: Link>(
    rt: &R,
    alloc: Global,
    store: &SharedStore<D, J>,
    worker: &mut Worker<J, L>,
) -> Result<(), Halted>
    requires volume { store.now.volume ≡ volume_in J.kind }
    requires ready { IsWorkerReady J.kind worker.old.pass worker.old.agenda worker.old.bins.items worker.old.shown.items }
    ensures same { (worker.new.pass.actor ≡ worker.old.pass.actor) × (worker.new.pass.keys ≡ worker.old.pass.keys) }
    ensures later { IsLater worker.old.pass.log worker.new.pass.log }
    ensures done { OnOk result (IsAllDone (is_honest J.kind) (volume_in J.kind).layout worker.old.pass.actor (agenda_of worker.old.agenda) worker.old.pass.log worker.new.pass.log) }
    ensures begun { OnErr result (IsSomeDone (is_honest J.kind) (volume_in J.kind).layout worker.old.pass.actor (agenda_of worker.old.agenda) worker.old.pass.log worker.new.pass.log) }
    ensures lost { AreLost worker.old.pass.actor worker.old.pass.log worker.new.pass.log (L.lost worker.old.link) (L.lost worker.new.link) }
    ensures shown { worker.new.shown.items ≡ shown_of (of_actor worker.old.pass.actor worker.new.pass.log) }
{
    for _ in rt.forever() {
        if !worker.agenda.has_work() {
            return Ok(());
        }
        take_turn(rt, alloc, store, worker)?;
    }
    unreachable!()
}
