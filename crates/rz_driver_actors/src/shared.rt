//! What all actors share.

use rz_disk::Disk;
use rz_locks::Locks;
use rz_log::Log;
use rz_metadata::Metadata;
use rz_nodes::Server;

/// What all actors share: the nodes in the order of the description, the export, which may stand behind a
/// journal, the locks, how many messages the link lost of itself, the log, and room for the bins of a
/// record.
#[derive(Drop)]
pub struct Shared<D: Disk, J: Disk> {
    pub servers: Vec<Server<D>>,
    pub export: Metadata<J>,
    pub locks: Locks,
    pub lost: u64,
    pub log: Log,
    pub bins: Vec<u64>,
}
