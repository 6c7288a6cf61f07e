//! A node in the row of a volume's nodes.
ghost use Rattle.rz_driver_nodes.specs.Servers.{IsServerPlace};

use rz_disk::Disk;
use rz_nodes::Server;

/// Where the node of a number stands, if there is one.
pub fn find<D: Disk>(servers: &[Server<D>], sid: u16) -> Option<usize>
    ensures { IsServerPlace servers.now sid result }
{
    for (i, server) in servers.iter().enumerate() {
        if server.sid == sid {
            return Some(i);
        }
    }
    None
}
