//! An actor's operation beside a log that others write too, in a run that may go on after an earlier log.
//!
//! `Acting` says when the machine of an operation is right beside the log that its actor has seen: the
//! actor's own events say how far the operation has come, and what it has in hand is true, the length
//! of a text that it looks for among it. `begins`, `rests`, `goes` and `hears` say that this lasts: from the first
//! turn of an operation on, while others act, and by each turn of its own; `scripted` that the operations of a
//! script may begin. `asks` says that what such an
//! operation asks is proper, and `says` that a text which it found is that of the write.
//!
//! The functions have no code. What each one says is its clause, which is proved of every operation.

ghost use Rattle.rz_events.specs.Volume.{Volume};
ghost use Rattle.rz_block_laws.specs.ActingLaws.{IsAskingLaw, IsBeginningLaw, IsGoingLaw, IsHearingLaw, IsRestingLaw, IsSayingLaw, IsScriptLaw};

/// An operation of a script is one that its actor may do.
pub fn scripted()
    ensures { (v : Volume) → IsScriptLaw v }
{}

/// An operation that its actor may do is right beside the log where it begins.
pub fn begins()
    ensures { (v : Volume) → IsBeginningLaw v }
{
    crate::beginning();
}

/// It is right while others act.
pub fn rests()
    ensures { (v : Volume) → IsRestingLaw v }
{
    rz_core::permanent();
    rz_play_laws::own_kept();
    crate::lasting();
}

/// It is right again after a turn in which no node answered.
pub fn goes()
    ensures { (v : Volume) → IsGoingLaw v }
{
    rz_core::permanent();
    rz_play_laws::own_turn();
    crate::told();
}

/// So is it after the answer of a node, and it goes on as where the records that came fit a block.
pub fn hears()
    ensures { (v : Volume) → IsHearingLaw v }
{
    rz_core::permanent();
    rz_play_laws::own_turn();
    rz_play_laws::own_kept();
    rz_play_laws::own_proper();
    crate::told();
    crate::growing();
    crate::fetched();
}

/// What it asks is proper.
pub fn asks()
    ensures { (v : Volume) → IsAskingLaw v }
{
    rz_play_laws::own_proper();
}

/// A text that it found is that of the write whose stamp it names.
pub fn says()
    ensures { (v : Volume) → IsSayingLaw v }
{
    rz_core::next_run();
}
