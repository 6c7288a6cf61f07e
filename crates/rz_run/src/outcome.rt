//! What comes of a run.
use rz_disk::Disk;
use rz_link::Link;

/// The status of a run, and the disks and the links, each in the order in which they were handed in.
#[derive(Drop)]
pub struct Ran<D: Disk, L: Link> {
    pub status: u8,
    pub disks: Vec<D>,
    pub links: Vec<L>,
}
