//! How a rebuild goes on after an answer, but for the read of its block.

ghost use Rattle.std.specs.Prelude.{◌≡◌, Some, true};
ghost use Rattle.mj_angles.specs.declared.layout.Layout.{Layout};
ghost use Rattle.rz_client_model.specs.declared.reading.ReaderState.{ReaderState};
ghost use Rattle.rz_operation_model.specs.Rebuild.{Probing, Enrolling, Replacing, Refilling, one_more, end_of, after_refill, rebuild_told};
ghost use Rattle.rz_rebuild.specs.Kinds.{IsProbed, IsEnrolled, IsReplaced, IsRefillDone};
ghost use Rattle.rz_rebuild.specs.Inside.{state_of, tally_of, IsStill};

use crate::step::{Copied, RebuildProgress, RebuildStep};
use rz_events::{Key, LeftWhy, RebuildAnswer, RebuildEnd, RefillAnswer, ReplaceAnswer};

/// How a rebuild goes on after its probe.
pub fn after_probe(answer: RebuildAnswer) -> RebuildStep
    requires { IsProbed answer }
    ensures state { (layout : Layout) (r : ReaderState) → state_of r result ≡ rebuild_told layout true Probing answer }
    ensures still { IsStill result }
{
    match answer {
        RebuildAnswer::Probed(None) => RebuildStep::Ended(RebuildEnd::NotLost),
        RebuildAnswer::Probed(Some(loss)) => RebuildStep::Enrolling { loss },
        _ => unreachable!(),
    }
}

/// How a rebuild goes on after its enrolment.
pub fn after_enroll(loss: u64, answer: RebuildAnswer) -> RebuildStep
    requires { IsEnrolled answer }
    ensures state { (layout : Layout) (r : ReaderState) → state_of r result ≡ rebuild_told layout true (Enrolling loss) answer }
    ensures still { IsStill result }
{
    match answer {
        RebuildAnswer::Enrolled { fence } => RebuildStep::Replacing { loss, fence },
        RebuildAnswer::Denied(cause) => RebuildStep::Ended(RebuildEnd::Denied(cause)),
        _ => unreachable!(),
    }
}

/// How a rebuild goes on after its replacement.
pub fn after_replace(loss: u64, fence: u64, answer: RebuildAnswer) -> RebuildStep
    requires { IsReplaced answer }
    ensures state { (layout : Layout) (r : ReaderState) → state_of r result ≡ rebuild_told layout true (Replacing loss fence) answer }
    ensures still { IsStill result }
{
    let RebuildAnswer::Replaced(answer) = answer else {
        unreachable!()
    };
    match answer {
        ReplaceAnswer::Replaced => RebuildStep::Listing(RebuildProgress {
            fence,
            after: None,
            refilled: 0,
            left: 0,
        }),
        ReplaceAnswer::NotLost => RebuildStep::Ended(RebuildEnd::NotLost),
        ReplaceAnswer::OtherLoss { loss: now } => RebuildStep::Ended(RebuildEnd::OtherLoss {
            loss: now,
        }),
        ReplaceAnswer::DiskFault => RebuildStep::Ended(RebuildEnd::DiskFault),
        ReplaceAnswer::NoMemory => RebuildStep::Replacing { loss, fence },
    }
}

/// How a rebuild goes on after the refill of a block.
pub fn after_refill(copied: &Copied, length: u32, answer: RebuildAnswer) -> RebuildStep
    requires { IsRefillDone answer }
    ensures state { (layout : Layout) (r : ReaderState) → state_of r result ≡ rebuild_told layout true (Refilling (tally_of copied.now.tally) copied.now.listed length copied.now.base) answer }
    ensures still { IsStill result }
{
    match answer {
        RebuildAnswer::Refilled(answer) => after_refilled(copied, answer),
        RebuildAnswer::Missed => leaving(copied, LeftWhy::Missed),
        _ => unreachable!(),
    }
}

/// How a rebuild goes on after the node's answer to a refill.
fn after_refilled(copied: &Copied, answer: RefillAnswer) -> RebuildStep
    ensures state { (r : ReaderState) → state_of r result ≡ after_refill (tally_of copied.now.tally) copied.now.listed answer }
    ensures still { IsStill result }
{
    match answer {
        RefillAnswer::Kept => refilled(copied),
        RefillAnswer::Passed { .. } => refilled(copied),
        RefillAnswer::Lost => RebuildStep::Ended(RebuildEnd::LostAgain),
        RefillAnswer::OtherFence { fence } => RebuildStep::Ended(RebuildEnd::OtherFence { fence }),
        RefillAnswer::Down => leaving(copied, LeftWhy::Down),
        RefillAnswer::Full => leaving(copied, LeftWhy::Full),
        RefillAnswer::DiskFault => leaving(copied, LeftWhy::DiskFault),
    }
}

/// The block in hand was refilled.
fn refilled(copied: &Copied) -> RebuildStep
    ensures { result ≡ RebuildStep.Listing (record copied.now.tally { after = Some copied.now.listed.key; refilled = one_more copied.now.tally.refilled }) }
{
    RebuildStep::Listing(RebuildProgress {
        after: Some(copied.listed.key),
        refilled: copied.tally.refilled.saturating_add(1),
        ..copied.tally
    })
}

/// It is said that the block in hand is left.
pub fn leaving(copied: &Copied, why: LeftWhy) -> RebuildStep
    ensures { result ≡ RebuildStep.Leaving copied.now.tally copied.now.listed.key why }
{
    RebuildStep::Leaving {
        tally: copied.tally,
        key: copied.listed.key,
        why,
    }
}

/// How a rebuild goes on once it was said that a block is left.
pub fn after_left(tally: RebuildProgress, key: Key) -> RebuildStep
    ensures { result ≡ RebuildStep.Listing (record tally { after = Some key; left = one_more tally.left }) }
{
    RebuildStep::Listing(RebuildProgress {
        after: Some(key),
        left: tally.left.saturating_add(1),
        ..tally
    })
}

/// How a rebuild ends where no block is left to be rebuilt.
pub fn end_of(tally: &RebuildProgress) -> RebuildEnd
    ensures { result ≡ end_of (tally_of tally.now) }
{
    if tally.left == 0 {
        RebuildEnd::Rebuilt {
            fence: tally.fence,
            refilled: tally.refilled,
        }
    } else {
        RebuildEnd::Left {
            fence: tally.fence,
            refilled: tally.refilled,
            left: tally.left,
        }
    }
}
