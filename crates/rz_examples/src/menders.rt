//! Histories of rebuilds that end otherwise, which are legal.

ghost use Rattle.rz_core.specs.Legal.{IsLegal};
ghost use Rattle.rz_examples.specs.Plain.{plain};
ghost use Rattle.rz_examples.specs.Menders.{replaced_twice, lost_anew, not_replaced, enrolled_late, lost_again, refilled_late, left_behind};

/// Two rebuilders are given one fence for one loss. One replaces the disk, and the other one is told
/// that the node is not lost.
pub fn replaced_twice()
    ensures { IsLegal plain replaced_twice }
{}

/// The node is lost once more, and the rebuilder of the earlier loss is refused.
pub fn lost_anew()
    ensures { IsLegal plain lost_anew }
{}

/// The new disk fails, and the node stays lost.
pub fn not_replaced()
    ensures { IsLegal plain not_replaced }
{}

/// A loss is enrolled after a greater one of the node, and that is denied.
pub fn enrolled_late()
    ensures { IsLegal plain enrolled_late }
{}

/// A rebuilder has read the block, and the node is lost again by then.
pub fn lost_again()
    ensures { IsLegal plain lost_again }
{}

/// A rebuilder has read the block, and the node has another fence by then.
pub fn refilled_late()
    ensures { IsLegal plain refilled_late }
{}

/// The message with the refill is lost, and the rebuild ends with a block left.
pub fn left_behind()
    ensures { IsLegal plain left_behind }
{}
