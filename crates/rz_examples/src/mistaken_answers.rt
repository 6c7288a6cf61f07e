//! Histories with an operation that says an answer it has not come to.

ghost use Rattle.rz_examples.specs.Plain.{plain};
ghost use Rattle.rz_examples.specs.Mistake.{HasMistake};
ghost use Rattle.rz_examples.specs.Answers.{counted_unwritten, fenced_drop, made_by_rebuilder, passed_other, read_elsewhere, skipped};

/// A range that is read answers the bytes of another block than the one that was found.
pub fn bytes_of_another_block()
    ensures { HasMistake plain read_elsewhere }
{}

/// A range that is written counts the bytes of a block that was not acknowledged.
pub fn counted_unwritten()
    ensures { HasMistake plain counted_unwritten }
{}

/// A rebuilder makes a file, as a client does.
pub fn made_by_rebuilder()
    ensures { HasMistake plain made_by_rebuilder }
{}

/// A node is passed over in a drop since it is fenced, and not since it is lost or down.
pub fn drop_passed_for_fence()
    ensures { HasMistake plain fenced_drop }
{}

/// A rebuild says that it is done, and it skipped a block.
pub fn skipped_block()
    ensures { HasMistake plain skipped }
{
    rz_core::one_run();
    rz_safety::rebuilt();
}

/// A rebuild says that it is done, and the node passed over a record of another stamp than the one that
/// was told.
pub fn pass_of_another_stamp()
    ensures { HasMistake plain passed_other }
{
    rz_core::one_run();
    rz_safety::rebuilt();
}
