//! Rows of what came of the nodes.
ghost use Rattle.std.specs.Prelude.{◌≡◌, ◌≤◌, map, IfOk, length};
ghost use Rattle.std.specs.Vec.{vec_len, vec_capacity};
ghost use Rattle.rz_store_opening.specs.Opening.{arrived_at, arrived_by, missing_in};

use rz_disk::Disk;
use rz_nodes::{Arrival, KnownNode, Missing};
use rz_shared::{Arrived, AwayNode};
use std::alloc::{AllocError, Global};

/// The nodes of a volume, and why each of them is away, if it is.
#[derive(Drop)]
pub(crate) struct Rows<D: Disk> {
    pub nodes: Vec<Arrived<D>>,
    pub missing: Vec<Option<Missing<D>>>,
}

impl<D: Disk> Rows<D> {
    /// Empty rows with room for so many nodes.
    pub(crate) fn with_room(alloc: Global, count: usize) -> Result<Rows<D>, AllocError>
        ensures empty { IfOk result (λ r. (vec_len r.nodes ≡ 0) × (vec_len r.missing ≡ 0)) }
        ensures room { IfOk result (λ r. (count ≤ vec_capacity r.nodes) × (count ≤ vec_capacity r.missing)) }
    {
        let nodes = Vec::with_capacity(alloc, count)?;
        let missing = Vec::with_capacity(alloc, count)?;
        Ok(Rows { nodes, missing })
    }

    /// What came of the disks of these nodes, in their order.
    pub(crate) fn with(self, known: &[KnownNode], arrivals: Vec<Arrival<D>>) -> Rows<D>
        requires empty { (vec_len self.nodes ≡ 0) × (vec_len self.missing ≡ 0) }
        requires room { (length known.now ≤ vec_capacity self.nodes) × (length known.now ≤ vec_capacity self.missing) }
        requires count { length arrivals.items ≡ length known.now }
        ensures nodes { result.nodes.items ≡ arrived_by known.now arrivals.items }
        ensures missing { result.missing.items ≡ map missing_in arrivals.items }
    {
        let Rows {
            mut nodes,
            mut missing,
        } = self;
        let mut arrivals = arrivals;
        while let Some(arrival) = arrivals.pop() {
            let (node, why) = sorted(known[arrivals.len()], arrival);
            nodes.push_reserved(node);
            missing.push_reserved(why);
        }
        nodes.reverse();
        missing.reverse();
        Rows { nodes, missing }
    }
}

/// A node for its lock, and why it is away.
fn sorted<D: Disk>(known: KnownNode, arrival: Arrival<D>) -> (Arrived<D>, Option<Missing<D>>)
    ensures node { result.0 ≡ arrived_at known arrival }
    ensures why { result.1 ≡ missing_in arrival }
{
    match arrival {
        Arrival::Here(server) => (Arrived::Here(server), None),
        Arrival::Away(why) => {
            let away = AwayNode {
                sid: known.node.sid,
                fence: known.fence,
                losses: known.losses,
            };
            (Arrived::Away(away), Some(why))
        }
    }
}
