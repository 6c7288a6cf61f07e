//! Placement: the cluster and the nodes of a new file.
//!
//! [`place`] answers the cluster with the most free cells and those of its nodes that have the most, as
//! `place` of `rz_export_model` defines it. It takes no memory. Its contract does not say whether the
//! cells are free.
#![tactic(auto)]

ghost use Rattle.std.specs.Prelude.{◌≡◌, ◌≤◌, ◌<◌, length};
ghost use Rattle.mj_angles.specs.Layout.{safe_of};
ghost use Rattle.rz_export_model.specs.Place.{place, placed_in};
ghost use Rattle.rz_events.specs.Volume.{nodes_of};
ghost use Rattle.rz_place.specs.Candidates.{IsTold, rooms_of};

use choice::Candidate;
use rz_config::Volume;
use rz_events::Places;

mod choice;
mod order;

/// The first `safe` nodes of a cluster by their free cells.
fn first_nodes(safe: usize, best: Candidate<'_, '_>) -> Places
    requires least { safe ≤ length best.cluster.now.nodes }
    requires most { safe ≤ 16 }
    requires told { IsTold best }
    ensures { result ≡ (placed_in safe (rooms_of best.entry)).places }
{
    let Candidate { cluster, free } = best;
    let rooms = order::in_order(cluster.nodes.as_slice(), free);
    let mut places = Places::none();
    for i in 0..safe {
        let room = rooms[i];
        places.push(room.sid);
    }
    places
}

/// The cluster and the nodes of a new file. `free` has the number of free cells of each node, in the
/// order of the description: the cluster has the most in all, and of several the least number; its
/// nodes stand by their free cells, the most first, and then by their numbers.
pub fn place(volume: &Volume, free: &[u64]) -> (u16, Places)
    requires { length free.now ≡ length (nodes_of volume.now.clusters) }
    ensures cid { result.0 ≡ (place volume.now free.now).cid }
    ensures places { result.1 ≡ (place volume.now free.now).places }
{
    let safe = volume.layout.safe();
    let Some((first, others)) = volume.clusters.as_slice().split_first() else {
        return (0, Places::none());
    };
    let best = choice::best_of(first, others, free);
    let cluster = best.cluster;
    (cluster.cid, first_nodes(safe, best))
}
