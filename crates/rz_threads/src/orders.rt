//! One order of the administrator.
ghost use Rattle.std.specs.Prelude.{◌≡◌, Bool, OnOk, OnErr};
ghost use Rattle.rz_core.specs.NodeRows.{IsNodeOf};
ghost use Rattle.rz_chronicle.specs.Kinds.{IsFit, volume_in};
ghost use Rattle.rz_threads.specs.Orders.{Waits, IsNodeCalled, IsArmingDone, IsAdminAsk, is_want};

use rz_chronicle::{Book, Pass};
use rz_disk::Disk;
use rz_events::{Actor, NodeAnswer, NodeAsk, StartAnswer};
use rz_player::Halted;
use rz_shared::{Cluster, Counting};
use std::sync::Wait;

/// Whether a node was to start and found no memory.
fn wants_memory(answer: &NodeAnswer) -> bool
    ensures { result ≡ is_want answer.now }
{
    matches!(answer, NodeAnswer::Start(StartAnswer::NoMemory))
}

/// Stops or starts a node, or loses its disk. A node that finds no memory to start has no event.
pub(crate) fn order<R: Wait, D: Disk, J: Counting>(
    rt: &R,
    cluster: &Cluster<D, J>,
    book: &Book<J>,
    pass: &mut Pass<J>,
    node: u16,
    ask: &NodeAsk,
) -> Result<(), Halted>
    requires admin { pass.old.actor ≡ Actor.Admin }
    requires node { IsNodeOf (volume_in J.kind) node }
    requires order { IsAdminAsk ask.now }
    ensures same { (pass.new.actor ≡ pass.old.actor) × (pass.new.keys ≡ pass.old.keys) }
    ensures called { OnOk result (IsNodeCalled J.kind node ask.now pass.old.log pass.new.log) }
    ensures idle { OnErr result (Waits pass.old.log pass.new.log) }
    ensures fit { IsFit J.kind pass.new.log }
{
    rz_chronicle::actors_kept();
    let _own = pass.actor();
    let mut bins: [u64; 0] = [];
    let answer = cluster.node_call(rt, book, pass, node, ask, &mut bins);
    if wants_memory(&answer) {
        return Err(Halted);
    }
    Ok(())
}

/// Arms the disk of a node.
pub(crate) fn arm<R: Wait, D: Disk, J: Counting>(
    rt: &R,
    cluster: &Cluster<D, J>,
    book: &Book<J>,
    pass: &mut Pass<J>,
    node: u16,
    passes: u64,
    pick: u64,
)
    requires admin { pass.old.actor ≡ Actor.Admin }
    requires node { IsNodeOf (volume_in J.kind) node }
    ensures same { (pass.new.actor ≡ pass.old.actor) × (pass.new.keys ≡ pass.old.keys) }
    ensures armed { IsArmingDone node passes pick pass.old.log pass.new.log }
    ensures fit { IsFit J.kind pass.new.log }
{
    rz_chronicle::actors_kept();
    let _own = pass.actor();
    cluster.arm(rt, book, pass, node, passes, pick);
}
