//! What a write asks, and how it ends.

ghost use Rattle.rz_block_io_laws.specs.Writes.{AsksInOrder, EndsExactly};

/// A write asks each position once, in ascending order, and each keep has the stamp and the base that
/// were told. A publish names exactly the positions whose nodes have the record, as many as are written.
pub fn asks()
    ensures { AsksInOrder }
{}

/// A write has ended with too few exactly where more positions have failed than there are spare ones,
/// and otherwise exactly with what the export answered.
pub fn ends()
    ensures { EndsExactly }
{}
