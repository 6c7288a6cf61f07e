//! A script played over a book.
ghost use Rattle.std.specs.Prelude.{◌≡◌, [], length, map};
ghost use Rattle.std.specs.List.{AllZip};
ghost use Rattle.rz_disk.specs.Meter.{faults};
ghost use Rattle.rz_events.specs.declared.keys.Actor.TheVariants as a;
ghost use Rattle.rz_events.specs.declared.events.Word.TheVariants as w;
ghost use Rattle.rz_play.specs.World.{actors};
ghost use Rattle.rz_chronicle.specs.Dealing.{new_pass, new_word_token};
ghost use Rattle.rz_chronicle.specs.Keys.{sids_of};
ghost use Rattle.rz_chronicle.specs.Kinds.{HasEarlierLog, is_honest, kind_of, volume_in};
ghost use Rattle.rz_threads_workers.specs.WorkerPool.{link_of, IsPoolWorker};
ghost use Rattle.rz_request.specs.Requests.{nodes_in};
ghost use Rattle.rz_run.specs.Runs.{PlaysRun};

use crate::laws::true_logs;
use crate::naming::{Named, NewName};
use crate::outcome::Ran;
use crate::setting_up::{Setup, links_of, set_up};
use crate::telling::tell;
use rz_chronicle::{NewBook, read_back};
use rz_disk::Disk;
use rz_link::Link;
use rz_ports::Sink;
use rz_report::refuse_disks;
use rz_request::Status;
use rz_script::Script;
use rz_shared::{Cluster, Counting};
use rz_threads::{PlayResult, play};
use rz_threads_worker::SharedStore;
use std::alloc::Global;
use std::sync::Wait;
use std::thread::Threads;

/// Formats the disks, lets the setup play the script, and tells what came of it.
fn play_setup<
    R: Threads + Wait + Sync,
    O: Sink,
    D: Disk + Send,
    L: Link + Send,
    J: Counting + Send + Sync,
>(
    rt: &R,
    alloc: Global,
    setup: Setup<J, L>,
    script: &Script,
    disks: Vec<D>,
    output: &mut O,
) -> Ran<D, L>
    requires kind { J.kind ≡ kind_of (is_honest J.kind) script.now.volume }
    requires book { setup.book ≡ volume_in J.kind }
    requires admin { setup.admin ≡ new_pass a.Admin }
    requires export { setup.desk.export ≡ new_word_token w.Export }
    requires nodes { setup.desk.nodes.items ≡ map (λ n. new_word_token (w.Node n)) (sids_of (volume_in J.kind)) }
    requires staffed { AllZip (IsPoolWorker J.kind script.now.lines) (map new_pass actors) setup.pool.workers.items }
    requires volume { setup.volume ≡ script.now.volume }
    requires known { setup.known ≡ script.now.volume }
    requires count { length disks.items ≡ nodes_in script.now }
    requires honest { is_honest J.kind ≡ D.tells }
    requires counts { map J.first (sids_of script.now.volume) ≡ map (λ d. faults (D.meter d)) disks.items }
    ensures { PlaysRun D.tells D.meter D.image L.lost script.now (record { old = disks.items; new = result.disks.items }) (record { old = map link_of setup.pool.workers.items; new = result.links.items }) (record { before = O.taken output.old; after = O.taken output.new; old = O.faults output.old; new = O.faults output.new }) result.status }
{
    true_logs();
    read_back();
    let Setup {
        book,
        admin,
        desk,
        pool,
        volume,
        known,
    } = setup;
    match Cluster::new(alloc, volume, disks, &book, desk) {
        Ok(cluster) => {
            let store = SharedStore {
                cluster,
                book,
                volume: known,
            };
            let PlayResult {
                front,
                book,
                disks,
                links,
                shown,
                ended,
            } = play(rt, alloc, store, pool, admin, script.lines());
            let status = tell(rt, alloc, &book, front, shown.as_slice(), ended, output);
            Ran {
                status,
                disks,
                links,
            }
        }
        Err((disks, fault)) => {
            let links = links_of(pool);
            let status = refuse_disks(alloc, fault, output);
            Ran {
                status,
                disks,
                links,
            }
        }
    }
}

/// Plays a script over a new book, whose name says how many faults each disk has counted.
pub(crate) fn play_book<
    J: Counting + Send + Sync,
    R: Threads + Wait + Sync,
    O: Sink,
    D: Disk + Send,
    L: Link + Send,
>(
    rt: &R,
    alloc: Global,
    opened: NewBook,
    script: &Script,
    disks: Vec<D>,
    links: Vec<L>,
    output: &mut O,
) -> Ran<D, L>
    requires named { (opened.seen.book ≡ J.book) × (opened.tokens.counters ≡ J.counters) × (opened.tokens.copy ≡ J.copy) × (opened.tokens.kind ≡ J.kind) }
    requires earlier { HasEarlierLog J.kind J.earlier }
    requires kind { J.kind ≡ kind_of (is_honest J.kind) script.now.volume }
    requires count { length disks.items ≡ nodes_in script.now }
    requires links { length links.items ≡ 80 }
    requires honest { is_honest J.kind ≡ D.tells }
    requires counts { map J.first (sids_of script.now.volume) ≡ map (λ d. faults (D.meter d)) disks.items }
    ensures { PlaysRun D.tells D.meter D.image L.lost script.now (record { old = disks.items; new = result.disks.items }) (record { old = links.items; new = result.links.items }) (record { before = O.taken output.old; after = O.taken output.new; old = O.faults output.old; new = O.faults output.new }) result.status }
{
    read_back();
    match set_up::<J, L>(alloc, opened, script, links) {
        Ok(setup) => play_setup(rt, alloc, setup, script, disks, output),
        Err(links) => Ran {
            status: Status::NO_MEMORY,
            disks,
            links,
        },
    }
}

/// Plays a script over a new book whose name is picked where this is called.
pub(crate) fn play_named<
    K: Named + Send + Sync,
    R: Threads + Wait + Sync,
    O: Sink,
    D: Disk + Send,
    L: Link + Send,
>(
    rt: &R,
    alloc: Global,
    opened: NewBook,
    script: &Script,
    disks: Vec<D>,
    links: Vec<L>,
    output: &mut O,
) -> Ran<D, L>
    requires named { (opened.seen.book ≡ K.book) × (opened.tokens.counters ≡ K.counters) × (opened.tokens.copy ≡ K.copy) × (opened.tokens.kind ≡ K.kind) }
    requires earlier { HasEarlierLog K.kind [] }
    requires kind { K.kind ≡ kind_of (is_honest K.kind) script.now.volume }
    requires count { length disks.items ≡ nodes_in script.now }
    requires links { length links.items ≡ 80 }
    requires honest { is_honest K.kind ≡ D.tells }
    requires counts { map K.first (sids_of script.now.volume) ≡ map (λ d. faults (D.meter d)) disks.items }
    ensures { PlaysRun D.tells D.meter D.image L.lost script.now (record { old = disks.items; new = result.disks.items }) (record { old = links.items; new = result.links.items }) (record { before = O.taken output.old; after = O.taken output.new; old = O.faults output.old; new = O.faults output.new }) result.status }
{
    play_book::<NewName<K>, R, O, D, L>(rt, alloc, opened, script, disks, links, output)
}
