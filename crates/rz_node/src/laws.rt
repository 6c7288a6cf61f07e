//! What holds of a node's calls.
ghost use Rattle.rz_node.specs.Change.{IsChangeLaw};

/// Where a disk stood for the records that were held before a keep, a refill or a drop, the change of
/// them that the call says is the records that are held afterwards: the new one, and of the old ones
/// those whose stamps are still there.
pub fn change()
    ensures { IsChangeLaw }
{}
