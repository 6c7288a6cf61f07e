//! What came of a migration.
ghost use Rattle.std.specs.Prelude.{◌≡◌, IfOk};
ghost use Rattle.rz_request.specs.Carried.{Stopped, migrated_line};

use crate::{Refusal, Stop};
use rz_cells::{MigrateFault, OpenFault};
use std::alloc::{AllocError, Global};

/// The fence and the number of the records that were carried over.
#[derive(Clone, Copy, Drop)]
pub struct Migrated {
    pub fence: u64,
    pub records: u64,
}

impl Migrated {
    /// The line that is written. The one error is want of memory.
    #[tactic(auto, unfolding(crate::specs::Carried::migrated_line))]
    pub fn line(&self, alloc: Global) -> Result<Vec<u8>, AllocError>
        ensures { IfOk result (λ l. l.items ≡ migrated_line self.now) }
    {
        let fence = self.fence;
        let records = self.records;
        let line = format!(in alloc; "migrated {fence} {records}\n")?;
        Vec::from_slice(alloc, line.as_bytes())
    }
}

/// Why there is nothing to tell: a fault of the old disk with index 0, or of the new one with index 1.
pub fn stopped(fault: MigrateFault) -> Stop
    ensures { Stopped fault result }
{
    match fault {
        MigrateFault::NoMemory => Stop::NoMemory,
        MigrateFault::Old(OpenFault::DiskFault) => Stop::Refused(Refusal::Disk { index: 0 }),
        MigrateFault::Old(fault) => Stop::Refused(Refusal::Old {
            cause: fault.number(),
        }),
        MigrateFault::New => Stop::Refused(Refusal::Disk { index: 1 }),
    }
}
