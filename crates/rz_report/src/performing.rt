//! The play of a script and what is told of it.

ghost use Rattle.std.specs.Prelude.{◌≡◌, ◌-◌, ◌++◌, ℕ, IsTrue, List, []};
ghost use Rattle.rz_events.specs.Volume.{IsVolume};
ghost use Rattle.rz_events.specs.declared.events.Event.{Event};
ghost use Rattle.rz_node_model.specs.States.{NodeState};
ghost use Rattle.rz_export_model.specs.Export.{Export};
ghost use Rattle.rz_play.specs.Stops.{JournalRefused};
ghost use Rattle.rz_player.specs.Behind.{Before, behind};
ghost use Rattle.rz_player.specs.Ends.{EndsBy, IsStoppedOver};
ghost use Rattle.rz_player.specs.declared.lines.PlayEnd.{PlayEnd};
ghost use Rattle.rz_play.specs.World.{new_world, world_after};
ghost use Rattle.rz_report.specs.Scrubs.{IsScrubbable, LeavesStore};
ghost use Rattle.rz_report.specs.Telling.{PerformsBehind};
ghost use Rattle.rz_report.specs.Told.{IsPlayReported};

use crate::laws::{told_losses, true_logs};
use crate::scrubbing::find;
use crate::telling::tell;
use rz_link::Link;
use rz_player::{LoggedStage, play};
use rz_ports::Sink;
use rz_request::{Status, Wish};
use rz_script::Script;
use rz_scrub_report::ScrubbedStore;
use std::alloc::Global;

/// Plays a script on a stage of its volume on which nothing was played, with messages through this link; and
/// where a scrub is wished for and the play came to its end, asks the nodes for the records of what is
/// published. Writes what is to be told of it, and gives the status. What is said of the play goes behind
/// each log of earlier runs that the stage holds with; its log is true where there is none. Where a journal refused
/// a call, the play stopped before the turn of that call.
pub fn perform<S: LoggedStage + ScrubbedStore, L: Link, O: Sink>(
    alloc: Global,
    wish: Wish,
    script: &Script,
    stage: &mut S,
    link: &mut L,
    output: &mut O,
) -> u8
    requires ready { S.is_ready stage.old }
    requires volume { S.volume stage.old ≡ script.now.volume }
    requires rules { IsVolume script.now.volume }
    requires new { (nodes : ℕ → NodeState) × (export : Export) × (S.world stage.old ≡ world_after nodes export []) }
    requires stage { IsScrubbable S.tells S.volume S.world S.journaled S.is_ready S.holds S.described S.state S.is_open S.gives S.counts S.only_asked }
    requires asked { (s t : S) → S.only_asked s t → (first : ℕ) → S.counts_on s first → S.counts_on t first }
    ensures volume { S.volume stage.new ≡ S.volume stage.old }
    ensures faults { (first : ℕ) → S.counts_on stage.old first → S.counts_on stage.new first }
    ensures journal { S.journaled stage.new ≡ S.journaled stage.old }
    ensures performed { (end : PlayEnd) × (later : List Event) × LeavesStore S.world S.holds S.leaves S.counts S.only_asked
        (λ c b. IsStoppedOver S.tells script.now.volume (JournalRefused c) (behind b.log (S.world stage.old)) script.now.lines (L.lost link.new - L.lost link.old) ((S.world stage.new).log ++ b.log)) end wish stage.old stage.new later
        × EndsBy (S.journaled stage.old) (S.cut_off stage.new) end
        × PerformsBehind (S.holds stage.old) S.tells script.now.volume (S.world stage.old) script.now.lines wish end later (L.lost link.new - L.lost link.old) (S.world stage.new).log (record { before = O.taken output.old; after = O.taken output.new; old = O.faults output.old; new = O.faults output.new }) result }
    ensures told { (b : Before) → S.holds stage.old b → b.log ≡ [] → S.world stage.old ≡ new_world script.now.volume → IsTrue S.tells → IsPlayReported script.now.volume script.now.lines (L.lost link.new - L.lost link.old) (S.world stage.new).log }
{
    true_logs();
    told_losses();
    let end = play(stage, script.lines(), link);
    match find(alloc, end, wish, stage) {
        Ok(found) => tell(alloc, end, wish, &found, stage.log(), output),
        Err(_) => Status::NO_MEMORY,
    }
}
