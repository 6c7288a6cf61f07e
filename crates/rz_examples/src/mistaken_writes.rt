//! Histories with a write that goes wrong.

ghost use Rattle.rz_examples.specs.Plain.{plain};
ghost use Rattle.rz_examples.specs.Mistake.{HasMistake};
ghost use Rattle.rz_examples.specs.Mistakes.{early, thin, drawn_twice, outrun, enrolled_named, under_fence, smaller};

/// A write is published on three nodes after two keeps.
pub fn early_publish()
    ensures { HasMistake plain early }
{}

/// A write is published on two nodes alone.
pub fn thin_publish()
    ensures { HasMistake plain thin }
{}

/// A stamp is drawn twice.
pub fn stamp_twice()
    ensures { HasMistake plain drawn_twice }
{}

/// A write is published though a later one of its block began.
pub fn older_begin()
    ensures { HasMistake plain outrun }
{}

/// A write is published on a node that was enrolled since it kept the record.
pub fn enrolled_node()
    ensures { HasMistake plain enrolled_named }
{}

/// A node keeps a record whose stamp is below its fence.
pub fn keep_below_fence()
    ensures { HasMistake plain under_fence }
{}

/// A node keeps a record of a smaller stamp than it holds.
pub fn smaller_stamp()
    ensures { HasMistake plain smaller }
{}
