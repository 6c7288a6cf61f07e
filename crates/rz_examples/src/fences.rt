//! Histories of writes while a node gets a new disk, which are legal.

ghost use Rattle.rz_core.specs.Legal.{IsLegal};
ghost use Rattle.rz_examples.specs.Plain.{plain};
ghost use Rattle.rz_examples.specs.Fences.{published_beside, fenced_write, mended_above};

/// The node is enrolled after it kept the record, so the publish is refused. The record goes to another
/// node, and the write is acknowledged there.
pub fn published_beside()
    ensures { IsLegal plain published_beside }
{}

/// The node refuses a record whose stamp is below its fence, and the write is acknowledged on three
/// others.
pub fn fenced_write()
    ensures { IsLegal plain fenced_write }
{}

/// The node keeps a record whose stamp is above its fence while it is rebuilt. A second write is
/// acknowledged, and the rebuilder's refill of it is passed over.
pub fn kept_above_fence()
    ensures { IsLegal plain mended_above }
{}
