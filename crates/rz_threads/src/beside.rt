//! Workers at work, each on its thread, and the administrator beside them.
ghost use Rattle.std.specs.Prelude.{◌≡◌, ◌<◌, ◌≤◌, length};
ghost use Rattle.std.specs.List.{AllByRecursion, AllZip};
ghost use Rattle.rz_script.specs.Lines.{AreLines};
ghost use Rattle.rz_chronicle.specs.Kinds.{volume_in};
ghost use Rattle.rz_threads_workers.specs.WorkerPool.{CanWork, HasWorked};
ghost use Rattle.rz_threads.specs.Beside.{HasOrdered};

use crate::administer;
use rz_chronicle::Pass;
use rz_disk::Disk;
use rz_events::Actor;
use rz_link::Link;
use rz_script::Line;
use rz_shared::Counting;
use rz_threads_worker::{SharedStore, work};
use rz_threads_workers::PoolWorker;
use std::alloc::Global;
use std::sync::Wait;
use std::thread::{Threads, for_each_mut, join};

/// A worker does its operations, and notes whether memory was wanting.
#[tactic(auto, using(crate::proofs::Working::all_begun))]
fn work_one<R: Threads + Wait + Sync, D: Disk, J: Counting, L: Link>(
    rt: &R,
    alloc: Global,
    store: &SharedStore<D, J>,
    pool_worker: &mut PoolWorker<J, L>,
)
    requires volume { store.now.volume ≡ volume_in J.kind }
    requires ready { CanWork J.kind pool_worker.old }
    ensures { HasWorked L.lost J.kind pool_worker.old pool_worker.new }
{
    pool_worker.wanting = work(rt, alloc, store, &mut pool_worker.worker).is_err();
}

/// Workers do their operations on so many threads, or fewer. Workers of one thread do theirs one after another, so
/// none may wait for another.
fn work_each<R: Threads + Wait + Sync, D: Disk + Send, J: Counting + Send + Sync, L: Link + Send>(
    rt: &R,
    alloc: Global,
    store: &SharedStore<D, J>,
    threads: usize,
    workers: &mut [PoolWorker<J, L>],
)
    requires threads { 0 < threads }
    requires volume { store.now.volume ≡ volume_in J.kind }
    requires ready { AllByRecursion (CanWork J.kind) workers.old }
    ensures { AllZip (HasWorked L.lost J.kind) workers.old workers.new }
{
    for_each_mut(
        rt,
        workers,
        threads,
        &move |_place: usize, pool_worker: &mut PoolWorker<J, L>|
            requires { (store.now.volume ≡ volume_in J.kind) × CanWork J.kind pool_worker.old }
            ensures { HasWorked L.lost J.kind pool_worker.old pool_worker.new }
        { work_one(rt, alloc, store, pool_worker) },
    );
}

/// Whether a worker has something to do.
fn is_busy<J: Counting, L: Link>(pool_worker: &PoolWorker<J, L>) -> bool {
    !pool_worker.worker.agenda.todo.is_empty()
}

/// How many workers stand before the first that has something to do.
fn idle_before<J: Counting, L: Link>(workers: &[PoolWorker<J, L>]) -> usize
    ensures { result ≤ length workers.now }
{
    for place in 0..workers.len() {
        if is_busy(&workers[place]) {
            return place;
        }
    }
    workers.len()
}

/// How many workers stand up to the last that has something to do.
fn up_to_last<J: Counting, L: Link>(workers: &[PoolWorker<J, L>]) -> usize
    ensures { result ≤ length workers.now }
{
    let mut count = 0;
    for place in 0..workers.len() {
        if is_busy(&workers[place]) {
            count = place + 1;
        }
    }
    count
}

/// All workers do their operations. Each that has something to do is on a thread of its own where one can be made,
/// and so is each that stands between two of these; the others begin none. It comes back when the last of them has
/// stopped.
pub fn work_all<
    R: Threads + Wait + Sync,
    D: Disk + Send,
    J: Counting + Send + Sync,
    L: Link + Send,
>(rt: &R, alloc: Global, store: &SharedStore<D, J>, workers: &mut [PoolWorker<J, L>])
    requires volume { store.now.volume ≡ volume_in J.kind }
    requires ready { AllByRecursion (CanWork J.kind) workers.old }
    ensures { AllZip (HasWorked L.lost J.kind) workers.old workers.new }
{
    let first = idle_before(workers);
    let (idle, rest) = workers.split_at_mut(first);
    let count = up_to_last(rest);
    let (busy, last) = rest.split_at_mut(count);
    work_each(rt, alloc, store, 1, idle);
    work_each(rt, alloc, store, count.max(1), busy);
    work_each(rt, alloc, store, 1, last);
}

/// The same with workers that come by value.
fn worked<R: Threads + Wait + Sync, D: Disk + Send, J: Counting + Send + Sync, L: Link + Send>(
    rt: &R,
    alloc: Global,
    store: &SharedStore<D, J>,
    workers: Vec<PoolWorker<J, L>>,
) -> Vec<PoolWorker<J, L>>
    requires volume { store.now.volume ≡ volume_in J.kind }
    requires ready { AllByRecursion (CanWork J.kind) workers.items }
    ensures { AllZip (HasWorked L.lost J.kind) workers.items result.items }
{
    let mut workers = workers;
    work_all(rt, alloc, store, &mut workers);
    workers
}

/// The administrator carries out its lines. It says whether it came to the end of them.
fn ordered<R: Wait, D: Disk, J: Counting>(
    rt: &R,
    store: &SharedStore<D, J>,
    admin: Pass<J>,
    lines: &[Line],
) -> (Pass<J>, bool)
    requires admin { admin.actor ≡ Actor.Admin }
    requires lines { AreLines (volume_in J.kind) lines.now }
    ensures { HasOrdered J.kind lines.now admin result.0 result.1 }
{
    let mut admin = admin;
    let ended = administer(rt, &store.cluster, &store.book, &mut admin, lines).is_ok();
    (admin, ended)
}

/// The workers do their operations on other threads, and beside them the administrator carries out its lines
/// on this one.
fn side_by_side<
    R: Threads + Wait + Sync,
    D: Disk + Send,
    J: Counting + Send + Sync,
    L: Link + Send,
>(
    rt: &R,
    alloc: Global,
    store: &SharedStore<D, J>,
    workers: Vec<PoolWorker<J, L>>,
    admin: Pass<J>,
    lines: &[Line],
) -> (Vec<PoolWorker<J, L>>, (Pass<J>, bool))
    requires volume { store.now.volume ≡ volume_in J.kind }
    requires ready { AllByRecursion (CanWork J.kind) workers.items }
    requires admin { admin.actor ≡ Actor.Admin }
    requires lines { AreLines (volume_in J.kind) lines.now }
    ensures worked { AllZip (HasWorked L.lost J.kind) workers.items result.0.items }
    ensures ordered { HasOrdered J.kind lines.now admin result.1.0 result.1.1 }
{
    join(
        rt,
        move || -> Vec<PoolWorker<J, L>>
            requires { (store.now.volume ≡ volume_in J.kind) × AllByRecursion (CanWork J.kind) workers.items }
            ensures { AllZip (HasWorked L.lost J.kind) workers.items result.items }
        { worked(rt, alloc, store, workers) },
        move || -> (Pass<J>, bool)
            requires { (admin.actor ≡ Actor.Admin) × AreLines (volume_in J.kind) lines.now }
            ensures { HasOrdered J.kind lines.entry.now admin result.0 result.1 }
        { ordered(rt, store, admin, lines) },
    )
}

/// What comes of the work: the workers, the administrator's pass, and whether it came to the end of its
/// lines.
#[derive(Drop)]
pub struct WorkResult<J: Counting, L: Link> {
    pub workers: Vec<PoolWorker<J, L>>,
    pub admin: Pass<J>,
    pub ended: bool,
}

/// All workers do their operations on threads, and beside them the administrator carries out its lines on
/// the calling thread. It comes back when all have stopped.
pub fn at_work<R: Threads + Wait + Sync, D: Disk + Send, J: Counting + Send + Sync, L: Link + Send>(
    rt: &R,
    alloc: Global,
    store: &SharedStore<D, J>,
    workers: Vec<PoolWorker<J, L>>,
    admin: Pass<J>,
    lines: &[Line],
) -> WorkResult<J, L>
    requires volume { store.now.volume ≡ volume_in J.kind }
    requires ready { AllByRecursion (CanWork J.kind) workers.items }
    requires admin { admin.actor ≡ Actor.Admin }
    requires lines { AreLines (volume_in J.kind) lines.now }
    ensures worked { AllZip (HasWorked L.lost J.kind) workers.items result.workers.items }
    ensures ordered { HasOrdered J.kind lines.now admin result.admin result.ended }
{
    let (workers, (admin, ended)) = side_by_side(rt, alloc, store, workers, admin, lines);
    WorkResult {
        workers,
        admin,
        ended,
    }
}
