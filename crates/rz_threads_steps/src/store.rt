//! What all actors share.
ghost use Rattle.std.specs.Prelude.{◌≡◌};

use mj_angles::Layout;
use rz_chronicle::Book;
use rz_config::Volume;
use rz_disk::Disk;
use rz_shared::{Cluster, Metering};

/// The cluster, the book of its log, and what the volume is.
#[derive(Drop)]
pub struct SharedStore<D: Disk, J: Metering> {
    pub cluster: Cluster<D, J>,
    pub book: Book<J>,
    pub volume: Volume,
}

impl<D: Disk, J: Metering> SharedStore<D, J> {
    /// The layout of the volume.
    pub fn layout(&self) -> Layout
        ensures { result ≡ self.now.volume.layout }
    {
        self.volume.layout
    }
}
