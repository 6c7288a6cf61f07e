//! Why no node was made.
ghost use Rattle.std.specs.Prelude.{◌≡◌};
ghost use Rattle.rz_nodes.specs.Formatted.{fault_at};

use rz_node::FormatFault;

/// Why the nodes of a volume were not made.
#[derive(Clone, Copy, Drop)]
pub enum DriverFault {
    NoMemory,
    /// The disk with this index failed while it was formatted.
    Disk { index: u64 },
}

/// What ends the making, where the disk with this index was not formatted.
pub(crate) fn fault_at(fault: FormatFault, index: usize) -> DriverFault
    ensures { result ≡ fault_at fault index }
{
    match fault {
        FormatFault::NoMemory => DriverFault::NoMemory,
        FormatFault::DiskFault => DriverFault::Disk {
            index: index as u64,
        },
    }
}
