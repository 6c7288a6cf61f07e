//! Turns of one actor.
ghost use Rattle.std.specs.Prelude.{ℕ, ◌≡◌, ◌≤◌, ◌<◌, ◌+◌, OnOk, OnErr};
ghost use Rattle.rz_script.specs.Lines.{IsActor};
ghost use Rattle.rz_script.specs.declared.line.Line.TheVariants as line;
ghost use Rattle.rz_play.specs.Stops.{JournalRefused, StopsLineOver, most_turns};
ghost use Rattle.rz_player.specs.Behind.{Before, behind};
ghost use Rattle.rz_player.specs.Ends.{StaysTrue, IsCut, IsLinePlayed, IsLogOf, IsTurnRefused, IsTurnTaken, OnCut, OnStop};

use crate::stage::Stage;
use rz_events::Actor;
use rz_link::Link;
use rz_log::Halted;

/// A play has at most so many turns.
pub const MOST_TURNS: u32 = 1_000_000;

/// Why a line was cut off.
#[derive(Clone, Copy, Debug, PartialEq, Eq, Drop)]
pub enum CutCause {
    /// A turn more was called for than a play has.
    TooManyTurns,
    NoMemory,
}

impl From<Halted> for CutCause {
    ghost use Rattle.rz_player.specs.declared.turns.CutCause.TheVariants as cut;

    ghost from_gives = { λ _ cause. cause ≡ cut.NoMemory };

    fn from(_: Halted) -> Self {
        CutCause::NoMemory
    }
}

/// The actor takes a turn, where the play has one more.
pub(crate) fn take_turn<S: Stage, L: Link>(
    stage: &mut S,
    by: Actor,
    link: &mut L,
) -> Result<(), CutCause>
    requires ready { S.is_ready stage.old }
    requires actor { IsActor by }
    requires few { (S.world stage.old).turns ≤ most_turns }
    ensures volume { S.volume stage.new ≡ S.volume stage.old }
    ensures journal { S.journaled stage.new ≡ S.journaled stage.old }
    ensures ready { OnOk result (S.is_ready stage.new) }
    ensures lost { (S.world stage.new).lost + L.lost link.old ≤ (S.world stage.old).lost + L.lost link.new }
    ensures faults { (first : ℕ) → S.counts_on stage.old first → S.counts_on stage.new first }
    ensures held { OnOk result (StaysTrue (S.holds stage.old) (S.holds stage.new)) }
    ensures cut { OnCut result (IsCut (S.cut_off stage.new) (S.holds stage.old) (S.leaves stage.new) (λ c b. IsTurnRefused (S.volume stage.old) by c (behind b.log (S.world stage.old)) (behind b.log (S.world stage.new)))) }
    ensures stopped { OnStop result (S.is_ready stage.new × StaysTrue (S.holds stage.old) (S.holds stage.new)) }
    ensures counted { OnOk result ((S.world stage.old).turns < (S.world stage.new).turns) }
    ensures few { OnOk result ((S.world stage.new).turns ≤ most_turns) }
    ensures taken { (b : Before) → S.holds stage.old b → IsTurnTaken (S.volume stage.old) by S.tells (behind b.log (S.world stage.old)) result (behind b.log (S.world stage.new)) }
{
    if stage.turns() >= MOST_TURNS {
        return Err(CutCause::TooManyTurns);
    }
    stage.turn(by, link)?;
    Ok(())
}

/// The actor takes so many turns.
pub(crate) fn take_turns<S: Stage, L: Link>(
    stage: &mut S,
    by: Actor,
    count: u32,
    link: &mut L,
) -> Result<(), CutCause>
    requires ready { S.is_ready stage.old }
    requires actor { IsActor by }
    requires few { (S.world stage.old).turns ≤ most_turns }
    ensures volume { S.volume stage.new ≡ S.volume stage.old }
    ensures journal { S.journaled stage.new ≡ S.journaled stage.old }
    ensures ready { OnOk result (S.is_ready stage.new) }
    ensures lost { (S.world stage.new).lost + L.lost link.old ≤ (S.world stage.old).lost + L.lost link.new }
    ensures faults { (first : ℕ) → S.counts_on stage.old first → S.counts_on stage.new first }
    ensures held { OnOk result (StaysTrue (S.holds stage.old) (S.holds stage.new)) }
    ensures cut { OnCut result (IsCut (S.cut_off stage.new) (S.holds stage.old) (S.leaves stage.new) (λ c b. IsLogOf (StopsLineOver (S.volume stage.old) (JournalRefused c) (line.Turn by count) S.tells (behind b.log (S.world stage.old))) (behind b.log (S.world stage.new)))) }
    ensures stopped { OnStop result (S.is_ready stage.new × StaysTrue (S.holds stage.old) (S.holds stage.new)) }
    ensures few { OnOk result ((S.world stage.new).turns ≤ most_turns) }
    ensures played { (b : Before) → S.holds stage.old b → IsLinePlayed (S.volume stage.old) (line.Turn by count) S.tells (behind b.log (S.world stage.old)) result (behind b.log (S.world stage.new)) }
{
    for _ in 0..count {
        take_turn(stage, by, link)?;
    }
    Ok(())
}
