//! Histories of two clients that use one file at one time, which are legal.

ghost use Rattle.rz_core.specs.Legal.{IsLegal};
ghost use Rattle.rz_examples.specs.Plain.{plain};
ghost use Rattle.rz_examples.specs.Rivals.{moved, revoked, denied_read, denied_write};

/// A read looks one write up and a second write is acknowledged. Too few records of the first one come, so
/// the read looks again, and says that the block moved.
pub fn moved()
    ensures { IsLegal plain moved }
{}

/// A later write of the block begins, and node 1 passes the record of the first one over. The first write
/// is revoked.
pub fn revoked()
    ensures { IsLegal plain revoked }
{}

/// The file goes after a client opened it, and the read is denied.
pub fn denied_read()
    ensures { IsLegal plain denied_read }
{}

/// A write of a block that no file has is denied.
pub fn denied_write()
    ensures { IsLegal plain denied_write }
{}
