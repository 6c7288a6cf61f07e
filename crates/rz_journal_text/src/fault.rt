//! Why bytes are not read.

use std::alloc::AllocError;

/// Why bytes were not read as an entry.
#[derive(Clone, Copy, Debug, Drop)]
pub enum EntryFault {
    NoMemory,
    /// No entry has these bytes.
    BadEntry,
}

impl From<AllocError> for EntryFault {
    ghost use Rattle.std.specs.Prelude.{◌≡◌};
    ghost use Rattle.rz_journal_text.specs.declared.fault.EntryFault.TheVariants.{NoMemory};

    ghost from_gives = { λ _ e. e ≡ NoMemory };

    fn from(_error: AllocError) -> EntryFault {
        EntryFault::NoMemory
    }
}
