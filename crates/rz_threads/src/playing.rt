//! A whole play on threads, and the one log that has all of it.
ghost use Rattle.std.specs.Prelude.{◌≡◌, ◌&&◌, ◌++◌, ◌∷◌, true, map};
ghost use Rattle.std.specs.List.{AllByRecursion, AllZip};
ghost use Rattle.std.specs.Global.{Vec as AVec};
ghost use Rattle.rz_events.specs.declared.events.Event.{Event as AnEvent};
ghost use Rattle.rz_events.specs.declared.events.Word.TheVariants as w;
ghost use Rattle.rz_script.specs.Lines.{AreLines};
ghost use Rattle.rz_play.specs.World.{actors};
ghost use Rattle.rz_chronicle.specs.Keys.{IsLater, sids_of, word_key};
ghost use Rattle.rz_chronicle.specs.Kinds.{HavePlaces, IsFit, volume_in};
ghost use Rattle.rz_chronicle.specs.Rules.{PassView};
ghost use Rattle.rz_threads_workers.specs.Gathered.{PassGoesOn, HoldsPass};
ghost use Rattle.rz_threads_workers.specs.Moves.{HoldsAll};
ghost use Rattle.rz_threads_workers.specs.WorkerPool.{CanWork, actor_of};
ghost use Rattle.rz_threads.specs.Orders.{AreLinesBegun, AreDone, Waits};
ghost use Rattle.rz_threads.specs.Left.{IsDiskLeft};
ghost use Rattle.rz_threads.specs.PlayResult.{HasBegun, HasFinished, HasLost, shown_for};

use crate::beside::{WorkResult, at_work};
use rz_chronicle::{Book, Pass};
use rz_disk::Disk;
use rz_events::{Actor, Event};
use rz_link::Link;
use rz_script::Line;
use rz_shared::{Cluster, Counting};
use rz_threads_worker::SharedStore;
use rz_threads_workers::{Results, WorkerPool, gather_all, have_finished, take_results};
use std::alloc::Global;
use std::sync::Wait;
use std::thread::Threads;

/// Closes the cluster, and hands the front the tokens of the nodes' words and of the export's.
fn settled<D: Disk, J: Counting>(
    book: &Book<J>,
    front: &mut Pass<J>,
    cluster: Cluster<D, J>,
) -> Vec<D>
    ensures goes { PassGoesOn front.old front.new }
    ensures keys { front.new.keys ≡ front.old.keys ++ map word_key (w.Export ∷ map w.Node (sids_of cluster)) }
    ensures disks { AllZip (IsDiskLeft D.meter D.image J.kind J.first front.new.log) (sids_of cluster) result.items }
    ensures fit { IsFit J.kind front.new.log }
{
    let (disks, desk) = cluster.close();
    book.settle(front, desk);
    disks
}

/// What comes back of a store: a pass that has seen all, the book, and the disks.
#[derive(Drop)]
struct Gathered<D: Disk, J: Counting> {
    front: Pass<J>,
    book: Book<J>,
    disks: Vec<D>,
}

/// Gathers the passes of the workers into the administrator's, closes the cluster, and takes over the
/// tokens of its words.
fn gather_up<D: Disk, J: Counting>(
    store: SharedStore<D, J>,
    passes: Vec<Pass<J>>,
    admin: Pass<J>,
) -> Gathered<D, J>
    requires admin { admin.actor ≡ Actor.Admin }
    ensures waits { Waits admin.log result.front.log }
    ensures held { AllByRecursion (HoldsPass result.front) passes.items }
    ensures words { map (λ (p : PassView). p.actor) passes.items ≡ actors → HoldsAll (sids_of store.cluster) result.front.keys }
    ensures book { result.book ≡ store.book }
    ensures disks { AllZip (IsDiskLeft D.meter D.image J.kind J.first result.front.log) (sids_of store.cluster) result.disks.items }
    ensures fit { IsFit J.kind result.front.log }
{
    rz_chronicle::actors_kept();
    rz_threads_workers::held_lasts();
    let _own = admin.actor();
    let SharedStore {
        cluster,
        book,
        volume,
    } = store;
    drop(volume);
    let mut front = admin;
    gather_all(&book, &mut front, passes);
    let disks = settled(&book, &mut front, cluster);
    Gathered { front, book, disks }
}

/// Whether both are so.
fn both(one: bool, other: bool) -> bool
    ensures { result ≡ one && other }
{
    one && other
}

/// What comes of a play: a pass that has seen all of it, the book, the disks in the order of the nodes, the
/// links and the events that are shown in the order of the workers, and whether all operations and all lines
/// were done.
#[derive(Drop)]
pub struct PlayResult<D: Disk, J: Counting, L: Link> {
    pub front: Pass<J>,
    pub book: Book<J>,
    pub disks: Vec<D>,
    pub links: Vec<L>,
    pub shown: Vec<Vec<Event>>,
    pub ended: bool,
}

/// A play: the workers do their operations on threads, beside the administrator's lines. Where memory is
/// wanting for one of them, it stops early, and the others go on. Where the workers are all clients and all
/// rebuilders, the pass then holds the token of each word of the book.
pub fn play<R: Threads + Wait + Sync, D: Disk + Send, J: Counting + Send + Sync, L: Link + Send>(
    rt: &R,
    alloc: Global,
    store: SharedStore<D, J>,
    pool: WorkerPool<J, L>,
    admin: Pass<J>,
    lines: &[Line],
) -> PlayResult<D, J, L>
    requires volume { store.volume ≡ volume_in J.kind }
    requires ready { AllByRecursion (CanWork J.kind) pool.workers.items }
    requires admin { admin.actor ≡ Actor.Admin }
    requires lines { AreLines (volume_in J.kind) lines.now }
    ensures fit { IsFit J.kind result.front.log }
    ensures places { HavePlaces J.kind result.front.log }
    ensures book { result.book ≡ store.book }
    ensures held { map actor_of pool.workers.items ≡ actors → HoldsAll (sids_of store.cluster) result.front.keys }
    ensures begun { AllByRecursion (HasBegun J.kind result.front.log) pool.workers.items }
    ensures finished { result.ended ≡ true → AllByRecursion (HasFinished J.kind result.front.log) pool.workers.items }
    ensures ordered { AreLinesBegun J.kind lines.now admin.log result.front.log }
    ensures orders { result.ended ≡ true → AreDone J.kind lines.now admin.log result.front.log }
    ensures links { AllZip (HasLost L.lost result.front.log) pool.workers.items result.links.items }
    ensures shown { map (λ (s : AVec AnEvent). s.items) result.shown.items ≡ map (shown_for result.front.log) pool.workers.items }
    ensures disks { AllZip (IsDiskLeft D.meter D.image J.kind J.first result.front.log) (sids_of store.cluster) result.disks.items }
{
    let WorkerPool { workers, room } = pool;
    let WorkResult {
        workers,
        admin,
        ended,
    } = at_work(rt, alloc, &store, workers, admin, lines);
    let finished = have_finished(workers.as_slice());
    let ended = both(ended, finished);
    let Results {
        links,
        passes,
        shown,
    } = take_results(workers, room);
    let Gathered { front, book, disks } = gather_up(store, passes, admin);
    let _placed = front.actor();
    PlayResult {
        front,
        book,
        disks,
        links,
        shown,
        ended,
    }
}
