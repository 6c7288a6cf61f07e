//! Why a text describes no store.

ghost use Rattle.std.specs.Prelude.{◌≡◌};

use rz_config::VolumeFault;
use rz_events::Text;
use std::alloc::AllocError;

/// Which disk of a store.
#[derive(Clone, Copy, Debug, PartialEq, Eq, Drop)]
pub enum DiskPlace {
    /// That of a node, by its place in the volume's description. They are counted from 0.
    Node(usize),
    Journal,
}

/// The keys of a description.
#[derive(Clone, Copy, Debug, PartialEq, Eq, Drop)]
pub enum StoreKey {
    Volume,
    Disks,
    Journal,
}

/// The first fault of a description.
#[derive(Debug, Drop)]
pub enum StoreFault {
    /// The text is no JSON.
    NotJson,
    /// The value is no object.
    NotObject,
    /// It has a key that is none of those of a description.
    UnknownKey(Text),
    /// It lacks a key.
    Missing(StoreKey),
    /// The volume breaks a rule.
    Volume(VolumeFault),
    /// The paths of the nodes' disks are no list.
    NotList,
    /// A path is no text.
    NotText(DiskPlace),
    /// There are other paths than the volume has nodes.
    WrongCount { paths: usize, nodes: usize },
    /// A path does not begin with `/`.
    NotAbsolute(DiskPlace),
    /// The path stands earlier too.
    Twice(DiskPlace),
}

/// Why no description was read.
#[derive(Debug, Drop)]
pub enum StoreFileError {
    /// There was no memory.
    NoMemory,
    /// The text describes no store.
    Refused(StoreFault),
}

impl From<AllocError> for StoreFileError {
    ghost use Rattle.rz_store_file.specs.declared.fault.StoreFileError.TheVariants.{NoMemory};

    ghost from_gives = { λ _ e. e ≡ NoMemory };

    fn from(_error: AllocError) -> StoreFileError {
        StoreFileError::NoMemory
    }
}

impl From<StoreFault> for StoreFileError {
    ghost use Rattle.rz_store_file.specs.declared.fault.StoreFileError.TheVariants.{Refused};

    ghost from_gives = { λ fault e. e ≡ Refused fault };

    fn from(fault: StoreFault) -> StoreFileError {
        StoreFileError::Refused(fault)
    }
}
