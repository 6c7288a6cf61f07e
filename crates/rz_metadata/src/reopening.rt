//! Why a journal was not opened again, as a number.
ghost use Rattle.std.specs.Prelude.{◌≡◌};
ghost use Rattle.rz_metadata.specs.Reopened.{journal_fault_number};

use rz_journal::JournalFault;

/// The number of a fault, 1 to 5 in the order of the variants; 0 for want of memory, which has no number.
pub fn fault_number(fault: JournalFault) -> u8
    ensures { result ≡ journal_fault_number fault }
{
    match fault {
        JournalFault::NoMemory => 0,
        JournalFault::WrongSize { .. } => 1,
        JournalFault::DiskFault => 2,
        JournalFault::Unformatted => 3,
        JournalFault::BadHeader => 4,
        JournalFault::Damaged { .. } => 5,
    }
}
