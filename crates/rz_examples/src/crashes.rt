//! A history of a node that crashes, which is legal.

ghost use Rattle.rz_core.specs.Legal.{IsLegal};
ghost use Rattle.rz_examples.specs.Plain.{plain};
ghost use Rattle.rz_examples.specs.Crashes.{taken_up};

/// A node crashes while it keeps a record, and its disk does not open at first. A start takes the record
/// up, and a read finds the text with it.
pub fn taken_up()
    ensures { IsLegal plain taken_up }
{}
