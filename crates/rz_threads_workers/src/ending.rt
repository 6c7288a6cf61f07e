//! The end of the work.
ghost use Rattle.std.specs.Prelude.{◌≡◌, false, true, length, map};
ghost use Rattle.std.specs.List.{AllByRecursion};
ghost use Rattle.rz_threads_workers.specs.WorkerPool.{link_of, pass_of, shown_by, IsRoomFor, WantsNothing};

use crate::pool_worker::{PoolWorker, Results};
use rz_link::Link;
use rz_shared::Counting;
use rz_threads_worker::Worker;

/// Whether memory was wanting for none of the workers, so that all came to the end of their operations.
pub fn have_finished<J: Counting, L: Link>(workers: &[PoolWorker<J, L>]) -> bool
    ensures all { result ≡ true → AllByRecursion WantsNothing workers.now }
    ensures some { result ≡ false → ¬ AllByRecursion WantsNothing workers.now }
{
    for pool_worker in workers {
        if pool_worker.wanting {
            return false;
        }
    }
    true
}

/// Takes the links of the workers, their passes and the events that they show, each in the order of the
/// workers.
pub fn take_results<J: Counting, L: Link>(
    workers: Vec<PoolWorker<J, L>>,
    room: Results<J, L>,
) -> Results<J, L>
    requires room { IsRoomFor (length workers.items) room }
    ensures links { result.links.items ≡ map link_of workers.items }
    ensures passes { result.passes.items ≡ map pass_of workers.items }
    ensures shown { result.shown.items ≡ map shown_by workers.items }
{
    let Results {
        mut links,
        mut passes,
        mut shown,
    } = room;
    for pool_worker in workers {
        let PoolWorker { worker, wanting: _ } = pool_worker;
        let Worker {
            pass,
            link,
            agenda,
            bins: _bins,
            shown: events,
        } = worker;
        drop(agenda);
        links.push_reserved(link);
        passes.push_reserved(pass);
        shown.push_reserved(events);
    }
    Results {
        links,
        passes,
        shown,
    }
}
