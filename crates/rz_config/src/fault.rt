//! Why a text describes no volume.

ghost use Rattle.std.specs.Prelude.{◌≡◌};

use rz_events::Text;
use std::alloc::AllocError;

/// What is wrong with a description. The causes have the numbers 1 to 10 in this order.
#[derive(Clone, Copy, Debug, PartialEq, Eq)]
pub enum VolumeCause {
    /// The text is no JSON.
    NotJson,
    /// The value is no object.
    NotObject,
    /// An object has a key that is none of its own.
    UnknownKey,
    /// An object lacks a key.
    Missing,
    /// The value is no whole number of 64 bits.
    NotNumber,
    /// The number is none of those allowed, or there is no cluster.
    OutOfRange,
    /// The value is no list.
    NotList,
    /// The number stands earlier too.
    Twice,
    /// A cluster has fewer nodes than a file has positions.
    TooFewNodes,
    /// A list is too long, or the volume has too many nodes.
    TooMany,
}

/// The first fault of a description, and where it stands, as `clusters[0].nodes[3].sid`.
#[derive(Debug, Drop)]
pub struct VolumeFault {
    /// Where the fault stands: `.` for the whole value. A key in it has its raw bytes.
    pub path: Text,
    pub cause: VolumeCause,
}

/// Why no volume was read.
#[derive(Debug, Drop)]
pub enum VolumeError {
    /// There was no memory.
    NoMemory,
    /// The text describes no volume.
    Refused(VolumeFault),
}

impl From<AllocError> for VolumeError {
    ghost use Rattle.rz_config.specs.declared.fault.VolumeError.TheVariants.{NoMemory};

    ghost from_gives = { λ _ e. e ≡ NoMemory };

    fn from(_error: AllocError) -> VolumeError {
        VolumeError::NoMemory
    }
}
