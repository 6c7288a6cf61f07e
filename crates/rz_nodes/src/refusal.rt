//! Why the disks were not opened.
ghost use Rattle.std.specs.Prelude.{◌≡◌};
ghost use Rattle.rz_nodes.specs.Opened.{refusal_at};

use rz_events::OpenFault;

/// Why the disks of a volume were not opened.
#[derive(Clone, Copy, Drop)]
pub enum OpenRefusal {
    NoMemory,
    /// The disk with this index did not open, for the fault with this number.
    Open { index: u64, cause: u8 },
}

/// What ends the opening, where the disk with this index was not opened.
pub(crate) fn refusal_at(fault: OpenFault, index: usize) -> OpenRefusal
    ensures { result ≡ refusal_at fault index }
{
    match fault {
        OpenFault::NoMemory => OpenRefusal::NoMemory,
        _ => OpenRefusal::Open {
            index: index as u64,
            cause: fault.number(),
        },
    }
}
