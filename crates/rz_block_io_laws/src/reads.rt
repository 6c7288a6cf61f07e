//! What a read asks, and how it ends.

ghost use Rattle.rz_block_io_laws.specs.Reads.{AsksInOrder, EndsExactly};

/// A read looks first. It asks each position once, those of the published mask first in ascending order,
/// then the others in ascending order, for the published stamp. It looks again exactly where all positions
/// were asked and too few records of the stamp came, and it asks nothing after its end.
pub fn asks()
    ensures { AsksInOrder }
{}

/// A read ends with a hole exactly where nothing is published, as denied exactly where it was denied, and
/// as soon as enough records of the published stamp came. Otherwise the second look ends it: with too few
/// where the same stamp is published, and as moved where another one is.
pub fn ends()
    ensures { EndsExactly }
{}
