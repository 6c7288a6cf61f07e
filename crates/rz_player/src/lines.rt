//! The lines of a script, one after another.
ghost use Rattle.std.specs.Prelude.{ℕ, ◌≡◌, ◌≤◌, ◌+◌, ◌-◌, ◌++◌, IsTrue, OnOk, OnErr};
ghost use Rattle.rz_script.specs.Lines.{IsLine, AreLines};
ghost use Rattle.rz_play.specs.Stops.{JournalRefused, StopsLineOver, most_turns};
ghost use Rattle.rz_player.specs.Behind.{Before, behind};
ghost use Rattle.rz_play.specs.Played.{PlaysLinesOver};
ghost use Rattle.rz_player.specs.Ends.{StaysTrue, EndsBy, IsCut, IsEnded, IsEndedOver, IsLinePlayed, IsLogOf, IsStoppedOver, OnCut, OnStop};

use crate::rounds::{play_rounds, play_to_rest};
use crate::stage::Stage;
use crate::turns::{CutCause, take_turns};
use rz_link::Link;
use rz_script::Line;

/// How the play of a script ends.
#[derive(Clone, Copy, Debug, PartialEq, Eq, Drop)]
pub enum PlayEnd {
    /// Every line was played.
    Ended,
    /// A turn more was called for than a play has.
    TooManyTurns,
    NoMemory,
    /// A device call of the journal's disk failed.
    Journal,
    /// The journal had no room for a call.
    JournalFull,
}

/// Plays a line.
fn play_line<S: Stage, L: Link>(stage: &mut S, line: &Line, link: &mut L) -> Result<(), CutCause>
    requires ready { S.is_ready stage.old }
    requires line { IsLine (S.volume stage.old) line.now }
    requires few { (S.world stage.old).turns ≤ most_turns }
    ensures volume { S.volume stage.new ≡ S.volume stage.old }
    ensures journal { S.journaled stage.new ≡ S.journaled stage.old }
    ensures ready { OnOk result (S.is_ready stage.new) }
    ensures few { OnOk result ((S.world stage.new).turns ≤ most_turns) }
    ensures lost { (S.world stage.new).lost + L.lost link.old ≤ (S.world stage.old).lost + L.lost link.new }
    ensures faults { (first : ℕ) → S.counts_on stage.old first → S.counts_on stage.new first }
    ensures held { OnOk result (StaysTrue (S.holds stage.old) (S.holds stage.new)) }
    ensures cut { OnCut result (IsCut (S.cut_off stage.new) (S.holds stage.old) (S.leaves stage.new) (λ c b. IsLogOf (StopsLineOver (S.volume stage.old) (JournalRefused c) line.now S.tells (behind b.log (S.world stage.old))) (behind b.log (S.world stage.new)))) }
    ensures stopped { OnStop result (S.is_ready stage.new × StaysTrue (S.holds stage.old) (S.holds stage.new)) }
    ensures played { (b : Before) → S.holds stage.old b → IsLinePlayed (S.volume stage.old) line.now S.tells (behind b.log (S.world stage.old)) result (behind b.log (S.world stage.new)) }
{
    match line {
        Line::Turn { by, k } => take_turns(stage, *by, *k, link)?,
        Line::Rounds { k } => play_rounds(stage, *k, link)?,
        Line::Rest => play_to_rest(stage, link)?,
        Line::Op { .. }
        | Line::Stop { .. }
        | Line::Start { .. }
        | Line::Lose { .. }
        | Line::Break { .. }
        | Line::Miss { .. } => stage.order(line)?,
    }
    Ok(())
}

/// Plays the lines of a script.
pub fn play<S: Stage, L: Link>(stage: &mut S, lines: &[Line], link: &mut L) -> PlayEnd
    requires ready { S.is_ready stage.old }
    requires lines { AreLines (S.volume stage.old) lines.now }
    requires few { (S.world stage.old).turns ≤ most_turns }
    ensures volume { S.volume stage.new ≡ S.volume stage.old }

    // What is left where a play ended. Where the journal refused a call, it is that of the turn before which the play stopped.
    ensures left { IsCut result (S.holds stage.old) (S.leaves stage.new) (λ c b. IsStoppedOver S.tells (S.volume stage.old) (JournalRefused c) (behind b.log (S.world stage.old)) lines.now ((S.world stage.old).lost + (L.lost link.new - L.lost link.old)) ((S.world stage.new).log ++ b.log)) }
    ensures lost { (S.world stage.new).lost + L.lost link.old ≤ (S.world stage.old).lost + L.lost link.new }
    ensures faults { (first : ℕ) → S.counts_on stage.old first → S.counts_on stage.new first }
    ensures played { (b : Before) → S.holds stage.old b → IsTrue S.tells → IsEnded (S.volume stage.old) (behind b.log (S.world stage.old)) lines.now result ((S.world stage.old).lost + (L.lost link.new - L.lost link.old)) ((S.world stage.new).log ++ b.log) }
    ensures journal { S.journaled stage.new ≡ S.journaled stage.old }

    // Where a turn, a line or an order was not done, the stage says how the play ends.
    ensures cut { EndsBy (S.journaled stage.old) (S.cut_off stage.new) result }

    // Before a turn that is one too many the stage stands between two turns.
    ensures stopped { result ≡ PlayEnd.TooManyTurns → S.is_ready stage.new × StaysTrue (S.holds stage.old) (S.holds stage.new) }

    // After the last line the stage can be played on further.
    ensures ready { result ≡ PlayEnd.Ended → S.is_ready stage.new }
    ensures held { result ≡ PlayEnd.Ended → StaysTrue (S.holds stage.old) (S.holds stage.new) }
    ensures whole { result ≡ PlayEnd.Ended → (b : Before) → S.holds stage.old b → PlaysLinesOver (S.volume stage.old) lines.now S.tells (behind b.log (S.world stage.old)) (behind b.log (S.world stage.new)) }

    // Where a disk does not tell its text, only what a start or a read finds on it is not said.
    ensures over { (b : Before) → S.holds stage.old b → IsEndedOver S.tells (S.volume stage.old) (behind b.log (S.world stage.old)) lines.now result ((S.world stage.old).lost + (L.lost link.new - L.lost link.old)) ((S.world stage.new).log ++ b.log) }
{
    for line in lines {
        match play_line(stage, line, link) {
            Ok(()) => {}
            Err(CutCause::TooManyTurns) => return PlayEnd::TooManyTurns,
            Err(CutCause::NoMemory) => return stage.cut_off(),
        }
    }
    PlayEnd::Ended
}
