//! Rounds, in which each actor that has work takes a turn.
ghost use Rattle.std.specs.Prelude.{ℕ, ◌≡◌, ◌≤◌, ◌+◌, OnOk, OnErr};
ghost use Rattle.std.specs.List.{AllByRecursion};
ghost use Rattle.rz_script.specs.Lines.{IsActor};
ghost use Rattle.rz_script.specs.declared.line.Line.TheVariants as line;
ghost use Rattle.rz_play.specs.World.{actors};
ghost use Rattle.rz_play.specs.Stops.{JournalRefused, StopsLineOver, most_turns};
ghost use Rattle.rz_player.specs.Behind.{Before, behind};
ghost use Rattle.rz_player.specs.Ends.{StaysTrue, CountsTurns, IsCut, IsLinePlayed, IsLogOf, IsRoundPlayed, OnCut, OnStop, StopsAmong};

use crate::stage::Stage;
use crate::turns::{CutCause, take_turn};
use rz_events::Actor;
use rz_link::Link;

/// The actors of a script, in the order of a round.
static ACTORS: [Actor; 80] = [
    Actor::Client(1),
    Actor::Client(2),
    Actor::Client(3),
    Actor::Client(4),
    Actor::Client(5),
    Actor::Client(6),
    Actor::Client(7),
    Actor::Client(8),
    Actor::Client(9),
    Actor::Client(10),
    Actor::Client(11),
    Actor::Client(12),
    Actor::Client(13),
    Actor::Client(14),
    Actor::Client(15),
    Actor::Client(16),
    Actor::Client(17),
    Actor::Client(18),
    Actor::Client(19),
    Actor::Client(20),
    Actor::Client(21),
    Actor::Client(22),
    Actor::Client(23),
    Actor::Client(24),
    Actor::Client(25),
    Actor::Client(26),
    Actor::Client(27),
    Actor::Client(28),
    Actor::Client(29),
    Actor::Client(30),
    Actor::Client(31),
    Actor::Client(32),
    Actor::Client(33),
    Actor::Client(34),
    Actor::Client(35),
    Actor::Client(36),
    Actor::Client(37),
    Actor::Client(38),
    Actor::Client(39),
    Actor::Client(40),
    Actor::Client(41),
    Actor::Client(42),
    Actor::Client(43),
    Actor::Client(44),
    Actor::Client(45),
    Actor::Client(46),
    Actor::Client(47),
    Actor::Client(48),
    Actor::Client(49),
    Actor::Client(50),
    Actor::Client(51),
    Actor::Client(52),
    Actor::Client(53),
    Actor::Client(54),
    Actor::Client(55),
    Actor::Client(56),
    Actor::Client(57),
    Actor::Client(58),
    Actor::Client(59),
    Actor::Client(60),
    Actor::Client(61),
    Actor::Client(62),
    Actor::Client(63),
    Actor::Client(64),
    Actor::Rebuilder(1),
    Actor::Rebuilder(2),
    Actor::Rebuilder(3),
    Actor::Rebuilder(4),
    Actor::Rebuilder(5),
    Actor::Rebuilder(6),
    Actor::Rebuilder(7),
    Actor::Rebuilder(8),
    Actor::Rebuilder(9),
    Actor::Rebuilder(10),
    Actor::Rebuilder(11),
    Actor::Rebuilder(12),
    Actor::Rebuilder(13),
    Actor::Rebuilder(14),
    Actor::Rebuilder(15),
    Actor::Rebuilder(16),
];

/// Each of these that has work takes a turn, one after another. Says whether one did.
fn take_round<S: Stage, L: Link>(
    stage: &mut S,
    actors: &[Actor],
    link: &mut L,
) -> Result<bool, CutCause>
    requires ready { S.is_ready stage.old }
    requires actors { AllByRecursion IsActor actors.now }
    requires few { (S.world stage.old).turns ≤ most_turns }
    ensures volume { S.volume stage.new ≡ S.volume stage.old }
    ensures journal { S.journaled stage.new ≡ S.journaled stage.old }
    ensures ready { OnOk result (S.is_ready stage.new) }
    ensures lost { (S.world stage.new).lost + L.lost link.old ≤ (S.world stage.old).lost + L.lost link.new }
    ensures faults { (first : ℕ) → S.counts_on stage.old first → S.counts_on stage.new first }
    ensures held { OnOk result (StaysTrue (S.holds stage.old) (S.holds stage.new)) }
    ensures cut { OnCut result (IsCut (S.cut_off stage.new) (S.holds stage.old) (S.leaves stage.new) (λ c b. IsLogOf (StopsAmong (S.volume stage.old) (JournalRefused c) actors.now S.tells (behind b.log (S.world stage.old))) (behind b.log (S.world stage.new)))) }
    ensures stopped { OnStop result (S.is_ready stage.new × StaysTrue (S.holds stage.old) (S.holds stage.new)) }
    ensures counted { CountsTurns result (S.world stage.old) (S.world stage.new) }
    ensures few { OnOk result ((S.world stage.new).turns ≤ most_turns) }
    ensures played { (b : Before) → S.holds stage.old b → IsRoundPlayed (S.volume stage.old) actors.now S.tells (behind b.log (S.world stage.old)) result (behind b.log (S.world stage.new)) }
{
    let mut any = false;
    for by in actors {
        if stage.is_busy(*by) {
            take_turn(stage, *by, link)?;
            any = true;
        }
    }
    Ok(any)
}

/// A round of all actors. Says whether one took a turn.
fn play_round<S: Stage, L: Link>(stage: &mut S, link: &mut L) -> Result<bool, CutCause>
    requires ready { S.is_ready stage.old }
    requires few { (S.world stage.old).turns ≤ most_turns }
    ensures volume { S.volume stage.new ≡ S.volume stage.old }
    ensures journal { S.journaled stage.new ≡ S.journaled stage.old }
    ensures ready { OnOk result (S.is_ready stage.new) }
    ensures lost { (S.world stage.new).lost + L.lost link.old ≤ (S.world stage.old).lost + L.lost link.new }
    ensures faults { (first : ℕ) → S.counts_on stage.old first → S.counts_on stage.new first }
    ensures held { OnOk result (StaysTrue (S.holds stage.old) (S.holds stage.new)) }
    ensures cut { OnCut result (IsCut (S.cut_off stage.new) (S.holds stage.old) (S.leaves stage.new) (λ c b. IsLogOf (StopsAmong (S.volume stage.old) (JournalRefused c) actors S.tells (behind b.log (S.world stage.old))) (behind b.log (S.world stage.new)))) }
    ensures stopped { OnStop result (S.is_ready stage.new × StaysTrue (S.holds stage.old) (S.holds stage.new)) }
    ensures counted { CountsTurns result (S.world stage.old) (S.world stage.new) }
    ensures few { OnOk result ((S.world stage.new).turns ≤ most_turns) }
    ensures played { (b : Before) → S.holds stage.old b → IsRoundPlayed (S.volume stage.old) actors S.tells (behind b.log (S.world stage.old)) result (behind b.log (S.world stage.new)) }
{
    take_round(stage, &ACTORS, link)
}

/// So many rounds. After one in which no actor had work, none has any more.
pub(crate) fn play_rounds<S: Stage, L: Link>(
    stage: &mut S,
    count: u32,
    link: &mut L,
) -> Result<(), CutCause>
    requires ready { S.is_ready stage.old }
    requires few { (S.world stage.old).turns ≤ most_turns }
    ensures volume { S.volume stage.new ≡ S.volume stage.old }
    ensures journal { S.journaled stage.new ≡ S.journaled stage.old }
    ensures ready { OnOk result (S.is_ready stage.new) }
    ensures lost { (S.world stage.new).lost + L.lost link.old ≤ (S.world stage.old).lost + L.lost link.new }
    ensures faults { (first : ℕ) → S.counts_on stage.old first → S.counts_on stage.new first }
    ensures held { OnOk result (StaysTrue (S.holds stage.old) (S.holds stage.new)) }
    ensures cut { OnCut result (IsCut (S.cut_off stage.new) (S.holds stage.old) (S.leaves stage.new) (λ c b. IsLogOf (StopsLineOver (S.volume stage.old) (JournalRefused c) (line.Rounds count) S.tells (behind b.log (S.world stage.old))) (behind b.log (S.world stage.new)))) }
    ensures stopped { OnStop result (S.is_ready stage.new × StaysTrue (S.holds stage.old) (S.holds stage.new)) }
    ensures few { OnOk result ((S.world stage.new).turns ≤ most_turns) }
    ensures played { (b : Before) → S.holds stage.old b → IsLinePlayed (S.volume stage.old) (line.Rounds count) S.tells (behind b.log (S.world stage.old)) result (behind b.log (S.world stage.new)) }
{
    for _ in 0..count {
        if !play_round(stage, link)? {
            return Ok(());
        }
    }
    Ok(())
}

/// Rounds until no actor has work.
pub(crate) fn play_to_rest<S: Stage, L: Link>(stage: &mut S, link: &mut L) -> Result<(), CutCause>
    requires ready { S.is_ready stage.old }
    requires few { (S.world stage.old).turns ≤ most_turns }
    ensures volume { S.volume stage.new ≡ S.volume stage.old }
    ensures journal { S.journaled stage.new ≡ S.journaled stage.old }
    ensures ready { OnOk result (S.is_ready stage.new) }
    ensures lost { (S.world stage.new).lost + L.lost link.old ≤ (S.world stage.old).lost + L.lost link.new }
    ensures faults { (first : ℕ) → S.counts_on stage.old first → S.counts_on stage.new first }
    ensures held { OnOk result (StaysTrue (S.holds stage.old) (S.holds stage.new)) }
    ensures cut { OnCut result (IsCut (S.cut_off stage.new) (S.holds stage.old) (S.leaves stage.new) (λ c b. IsLogOf (StopsLineOver (S.volume stage.old) (JournalRefused c) line.Rest S.tells (behind b.log (S.world stage.old))) (behind b.log (S.world stage.new)))) }
    ensures stopped { OnStop result (S.is_ready stage.new × StaysTrue (S.holds stage.old) (S.holds stage.new)) }
    ensures few { OnOk result ((S.world stage.new).turns ≤ most_turns) }
    ensures played { (b : Before) → S.holds stage.old b → IsLinePlayed (S.volume stage.old) line.Rest S.tells (behind b.log (S.world stage.old)) result (behind b.log (S.world stage.new)) }
{
    while play_round(stage, link)? {}
    Ok(())
}
