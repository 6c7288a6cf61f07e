//! The disks of nodes go back.
ghost use Rattle.std.specs.Prelude.{◌≡◌, ◌+◌, ◌≤◌, ◌++◌, reverse};
ghost use Rattle.std.specs.Vec.{vec_len, vec_capacity};
ghost use Rattle.rz_nodes.specs.Formatted.{disks_of};

use crate::formatting::Server;
use rz_disk::{Disk, Fused};

/// Takes the disks of the nodes out of their fuses, and puts them before those of `home`, which has them
/// the last one first.
pub fn hand_back<D: Disk>(servers: Vec<Server<Fused<D>>>, home: Vec<D>) -> Vec<D>
    requires room { vec_len servers + vec_len home ≤ vec_capacity home }
    ensures { result.items ≡ disks_of servers.items ++ reverse home.items }
{
    let mut servers = servers;
    let mut home = home;
    while let Some(server) = servers.pop() {
        let _back = home.push(server.node.into_disk().into_inner());
    }
    home.reverse();
    home
}
