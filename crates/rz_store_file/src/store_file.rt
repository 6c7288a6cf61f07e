//! Descriptions.

ghost use Rattle.std.specs.Prelude.{◌≡◌, ◌<◌, length, map, set, string_bytes};
ghost use Rattle.rz_events.specs.Volume.{nodes_of};
ghost use Rattle.rz_store_file.specs.Described.{checked};

use crate::checking::{check_path, check_paths};
use crate::{DiskPlace, StoreFault};
use rz_config::Volume;
use std::marker::Model;

/// A store that lies in files: its volume, the paths of the nodes' disks in the order of the volume's
/// description, and the path of the journal's disk. Paths begin at the root, and no two are the same.
#[derive(Debug, Drop)]
pub struct StoreFile {
    pub(crate) volume: Volume,
    pub(crate) disks: Vec<String>,
    pub(crate) journal: String,
}

impl Model for StoreFile {
    ghost use Rattle.std.specs.Prelude.{map, string_bytes};
    ghost use Rattle.rz_store_file.specs.Described.{Description, IsDescription};

    ghost Value = { Description };

    ghost view = { λ s. record { volume = s.volume; disks = map string_bytes s.disks.items; journal = string_bytes s.journal } };

    ghost invariant = { λ s. IsDescription (record { volume = s.volume; disks = map string_bytes s.disks.items; journal = string_bytes s.journal }) };
}

impl StoreFile {
    /// The store with this volume and these paths, or their first fault.
    #[tactic(auto, unfolding(crate::specs::Described::checked))]
    pub fn new(volume: Volume, disks: Vec<String>, journal: String) -> Result<StoreFile, StoreFault>
        ensures { result ≡ checked volume (map string_bytes disks.items) (string_bytes journal) }
    {
        let nodes = volume.node_count();
        let paths = disks.len();
        if paths != nodes {
            return Err(StoreFault::WrongCount { paths, nodes });
        }
        check_paths(&disks)?;
        check_path(DiskPlace::Journal, &disks, journal.as_str())?;
        Ok(StoreFile {
            volume,
            disks,
            journal,
        })
    }

    /// The same store with another path for the disk of a node.
    pub fn with_disk(self, node: usize, path: String) -> Result<StoreFile, StoreFault>
        requires { node < length self.disks }
        ensures { result ≡ checked self.volume (set self.disks node (string_bytes path)) self.journal }
    {
        let StoreFile {
            volume,
            mut disks,
            journal,
        } = self;
        disks[node] = path;
        StoreFile::new(volume, disks, journal)
    }

    pub fn volume(&self) -> &Volume
        ensures { result.now ≡ self.now.volume }
    {
        &self.volume
    }

    /// The paths of the nodes' disks, one for each node in the order of the volume's description.
    pub fn disks(&self) -> &[String]
        ensures paths { map string_bytes result.now ≡ self.now.disks }
        ensures count { length result.now ≡ length (nodes_of self.now.volume.clusters) }
    {
        &self.disks
    }

    pub fn journal(&self) -> &str
        ensures { result.now ≡ self.now.journal }
    {
        self.journal.as_str()
    }
}
