//! Histories with a read that goes wrong.

ghost use Rattle.rz_examples.specs.Plain.{plain};
ghost use Rattle.rz_examples.specs.Mistake.{HasMistake};
ghost use Rattle.rz_examples.specs.Mistakes.{other_text, stale_look, older_stamp, joined, from_lost, late_outcome, unseen_move, idle_miss};

/// The text that is found is not that of the write with this stamp.
pub fn text_of_another_write()
    ensures { HasMistake plain other_text }
{}

/// A look is told an older write than the last one that was acknowledged.
pub fn stale_look()
    ensures { HasMistake plain stale_look }
{}

/// A read finds an older write than its look was told.
pub fn older_stamp()
    ensures { HasMistake plain older_stamp }
{}

/// A read joins records of two writes.
pub fn joined_stamps()
    ensures { HasMistake plain joined }
{}

/// A lost node gives a record.
pub fn fetch_from_lost()
    ensures { HasMistake plain from_lost }
{}

/// A read says that another write was published, and has not looked again.
pub fn moved_without_recheck()
    ensures { HasMistake plain unseen_move }
{}

/// A message is lost of an actor that has no operation open.
pub fn idle_miss()
    ensures { HasMistake plain idle_miss }
{}

/// A message is lost after the reader looked again, and its read ends with too few.
pub fn outcome_after_recheck()
    ensures { HasMistake plain late_outcome }
{}
