//! Who works, and the room for what comes back from them.
ghost use Rattle.std.specs.Prelude.{length};
ghost use Rattle.rz_threads_workers.specs.WorkerPool.{IsRoomFor};

use rz_chronicle::Pass;
use rz_events::Event;
use rz_link::Link;
use rz_shared::Counting;
use rz_threads_worker::Worker;

/// A client or a rebuilder at work, and whether memory was wanting when it stopped.
#[derive(Drop)]
pub struct PoolWorker<J: Counting, L: Link> {
    pub worker: Worker<J, L>,
    pub wanting: bool,
}

/// The links of workers, their passes, and the events that they show, each in the order of the workers;
/// or empty rows with room for them.
#[derive(Drop)]
pub struct Results<J: Counting, L: Link> {
    pub links: Vec<L>,
    pub passes: Vec<Pass<J>>,
    pub shown: Vec<Vec<Event>>,
}

/// Workers, and room for what comes back from them.
#[derive(Drop)]
pub struct WorkerPool<J: Counting, L: Link> {
    pub workers: Vec<PoolWorker<J, L>>,
    pub room: Results<J, L>,
    pub ghost fits: { IsRoomFor (length workers.items) room },
}
