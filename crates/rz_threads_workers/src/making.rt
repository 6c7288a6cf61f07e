//! Workers are made: each gets a link.
ghost use Rattle.std.specs.Prelude.{◌≡◌, ◌≤◌, IfErr, IfOk, length, map};
ghost use Rattle.std.specs.List.{AllByRecursion, AllZip};
ghost use Rattle.std.specs.Vec.{vec_len, vec_capacity};
ghost use Rattle.rz_chronicle.specs.Dealing.{new_pass};
ghost use Rattle.rz_chronicle.specs.Kinds.{volume_in};
ghost use Rattle.rz_script.specs.Lines.{AreLines};
ghost use Rattle.rz_play.specs.World.{actors};
ghost use Rattle.rz_threads_workers.specs.WorkerPool.{link_of, CanJoin, IsRowFor, IsMadeOf, IsNewPass, AreWorkerParts, IsRoomFor, IsPoolWorker};

use crate::pool_worker::{PoolWorker, Results, WorkerPool};
use crate::worker_parts::{WorkerParts, make_parts};
use mj_angles::Layout;
use rz_chronicle::Pass;
use rz_events::Event;
use rz_link::Link;
use rz_script::Line;
use rz_shared::Counting;
use rz_threads_worker::Worker;
use std::alloc::{AllocError, Global};

/// What workers are made of, room for them as workers, and room for what comes back from them.
#[derive(Drop)]
struct PoolParts<J: Counting, L: Link> {
    all_parts: Vec<WorkerParts<J>>,
    workers: Vec<PoolWorker<J, L>>,
    passes: Vec<Pass<J>>,
    shown: Vec<Vec<Event>>,
}

/// Gives each actor what it has to do, and makes room.
fn prepare<J: Counting, L: Link>(
    alloc: Global,
    layout: Layout,
    passes: Vec<Pass<J>>,
    lines: &[Line],
) -> Result<PoolParts<J, L>, AllocError>
    requires layout { layout ≡ (volume_in J.kind).layout }
    requires lines { AreLines (volume_in J.kind) lines.now }
    requires new { AllByRecursion IsNewPass passes.items }
    ensures all_parts { IfOk result (λ o. AllZip (AreWorkerParts J.kind lines.now) passes.items o.all_parts.items) }
    ensures workers { IfOk result (λ o. IsRowFor (length passes.items) o.workers) }
    ensures passes { IfOk result (λ o. IsRowFor (length passes.items) o.passes) }
    ensures shown { IfOk result (λ o. IsRowFor (length passes.items) o.shown) }
{
    let count = passes.len();
    let all_parts = make_parts(alloc, layout, passes, lines)?;
    Ok(PoolParts {
        all_parts,
        workers: Vec::with_capacity(alloc, count)?,
        passes: Vec::with_capacity(alloc, count)?,
        shown: Vec::with_capacity(alloc, count)?,
    })
}

/// A worker with this link.
fn make_worker<J: Counting, L: Link>(
    alloc: Global,
    parts: WorkerParts<J>,
    link: L,
) -> PoolWorker<J, L>
    requires { CanJoin J.kind parts }
    ensures hired { IsMadeOf J.kind parts result }
    ensures link { link_of result ≡ link }
{
    let WorkerParts { pass, todo, bins } = parts;
    PoolWorker {
        worker: Worker::new(alloc, pass, link, todo, bins),
        wanting: false,
    }
}

/// Workers with these links, in the order of both, and the emptied row of the links.
fn make_workers<J: Counting, L: Link>(
    alloc: Global,
    all_parts: Vec<WorkerParts<J>>,
    room: Vec<PoolWorker<J, L>>,
    links: Vec<L>,
) -> (Vec<PoolWorker<J, L>>, Vec<L>)
    requires can { AllByRecursion (CanJoin J.kind) all_parts.items }
    requires room { IsRowFor (length all_parts.items) room }
    requires links { length links.items ≡ length all_parts.items }
    ensures hired { AllZip (IsMadeOf J.kind) all_parts.items result.0.items }
    ensures links { map link_of result.0.items ≡ links.items }
    ensures empty { IsRowFor (length all_parts.items) result.1 }
{
    let mut workers = room;
    let mut links = links;
    links.reverse();
    for parts in all_parts {
        if let Some(link) = links.pop() {
            workers.push_reserved(make_worker(alloc, parts, link));
        } else {
            drop(parts);
        }
    }
    (workers, links)
}

/// Makes a worker of each client and each rebuilder, with the operations that the lines give it and with a
/// link, all in their order. Where memory is wanting the links come back.
pub fn make_pool<J: Counting, L: Link>(
    alloc: Global,
    layout: Layout,
    passes: Vec<Pass<J>>,
    links: Vec<L>,
    lines: &[Line],
) -> Result<WorkerPool<J, L>, Vec<L>>
    requires layout { layout ≡ (volume_in J.kind).layout }
    requires lines { AreLines (volume_in J.kind) lines.now }
    requires passes { passes.items ≡ map new_pass actors }
    requires links { length links.items ≡ 80 }
    ensures staffed { IfOk result (λ s. AllZip (IsPoolWorker J.kind lines.now) passes.items s.workers.items) }
    ensures links { IfOk result (λ s. map link_of s.workers.items ≡ links.items) }
    ensures back { IfErr result (λ back. back ≡ links) }
{
    match prepare(alloc, layout, passes, lines) {
        Ok(offer) => {
            let PoolParts {
                all_parts,
                workers,
                passes,
                shown,
            } = offer;
            let (workers, links) = make_workers(alloc, all_parts, workers, links);
            let room = Results {
                links,
                passes,
                shown,
            };
            Ok(WorkerPool { workers, room })
        }
        Err(_) => Err(links),
    }
}
