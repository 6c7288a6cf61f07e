//! Histories in which something goes wrong, and which are legal.

ghost use Rattle.rz_core.specs.Legal.{IsLegal};
ghost use Rattle.rz_examples.specs.Plain.{plain, small};
ghost use Rattle.rz_examples.specs.Full.{full};
ghost use Rattle.rz_examples.specs.Troubled.{lost_reply, short_write, short_read, unlinked};

/// A node keeps a record and its reply is lost; the write is acknowledged on three other nodes.
pub fn lost_reply()
    ensures { IsLegal plain lost_reply }
{}

/// Two nodes are down, and the write ends with too few.
pub fn short_write()
    ensures { IsLegal plain short_write }
{}

/// One node of four still holds the record, and the read ends with too few.
pub fn short_read()
    ensures { IsLegal plain short_read }
{}

/// A file goes and its records are dropped, though the message to one node is lost.
pub fn unlinked()
    ensures { IsLegal plain unlinked }
{}

/// A node with room for one block is asked to keep a second one, and is full.
pub fn full()
    ensures { IsLegal small full }
{}
