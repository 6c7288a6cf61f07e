//! What a scrub finds after a play.

ghost use Rattle.std.specs.Prelude.{◌≡◌, ◌≤◌, ◌^◌, IsTrue, IfOk, length};
ghost use Rattle.rz_player.specs.declared.lines.PlayEnd.TheVariants.{Ended};
ghost use Rattle.rz_report.specs.Scrubs.{FindsRecords, IsScrubbable};

use rz_events::Event;
use rz_player::{LoggedStage, PlayEnd};
use rz_request::Wish;
use rz_scrub_report::{ScrubbedStore, scrub, whole_scrubs};
use std::alloc::{AllocError, Global};

/// Whether there are no more than half of the events that a log of many runs can count.
fn is_short(log: &[Event]) -> bool
    ensures { IsTrue result → length log.now ≤ 2 ^ 62 }
{
    log.len() <= 4_611_686_018_427_387_904
}

/// The lines of what is found of the published blocks, where a scrub is wished for and the play came to
/// its end. Otherwise there are none, and nothing is asked.
pub(crate) fn find<S: LoggedStage + ScrubbedStore>(
    alloc: Global,
    end: PlayEnd,
    wish: Wish,
    stage: &mut S,
) -> Result<Vec<u8>, AllocError>
    requires ready { end ≡ Ended → S.is_ready stage.old }
    requires stage { IsScrubbable S.tells S.volume S.world S.journaled S.is_ready S.holds S.described S.state S.is_open S.gives S.counts S.only_asked }
    ensures { FindsRecords S.tells S.volume S.world S.journaled S.holds S.counts S.only_asked end wish stage.old stage.new (λ p. IfOk result (λ lines. p lines.items)) }
{
    match wish {
        Wish::Replay | Wish::First => Ok(Vec::new(alloc)),
        Wish::Again | Wish::Load { .. } => Ok(Vec::new(alloc)),
        Wish::Scrub => match end {
            PlayEnd::Ended => {
                if is_short(stage.log()) {
                    whole_scrubs::<S>();
                    scrub(alloc, stage)
                } else {
                    Err(AllocError)
                }
            }
            PlayEnd::TooManyTurns => Ok(Vec::new(alloc)),
            PlayEnd::NoMemory | PlayEnd::Journal | PlayEnd::JournalFull => Ok(Vec::new(alloc)),
        },
    }
}
