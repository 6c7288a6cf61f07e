//! What a script is played on.
ghost use Rattle.std.specs.Prelude.{◌≡◌, ◌<◌, ◌≤◌, ◌+◌, ℕ, Bool, Option, None, IsTrue, OnOk, OnErr, reverse};
ghost use Rattle.rz_events.specs.Volume.{Volume};
ghost use Rattle.rz_script.specs.Lines.{IsActor, IsLine};
ghost use Rattle.rz_play.specs.World.{World, has_work};
ghost use Rattle.rz_play.specs.Free.{IsTurnOver};
ghost use Rattle.rz_play.specs.Lines.{PlaysLineOver, TakesNoTurn};
ghost use Rattle.rz_events.specs.declared.export.Call.{Call as ACall};
ghost use Rattle.rz_play.specs.Stops.{HasCause, JournalRefused, most_turns};
ghost use Rattle.rz_player.specs.Behind.{Before, behind};
ghost use Rattle.rz_player.specs.Ends.{StaysTrue, CutsOff, IsCut, TellsOf};
ghost use Rattle.rz_player.specs.Messages.{IsTurnSent};
ghost use Rattle.rz_player.specs.declared.lines.PlayEnd.{PlayEnd as AnEnd};

use crate::lines::PlayEnd;
use rz_events::{Actor, Event};
use rz_link::Link;
use rz_log::Halted;
use rz_script::Line;

/// Nodes, an export and actors that a script is played on.
///
/// A play may go on after earlier runs. The stage's world has the events of this play alone; what is said
/// of a turn goes for the log of those runs and of this play together.
///
/// Where a call was not done, memory is wanting, or the stage's journal did not keep a call; `cut_off` says
/// which. The log then has every event that happened. It is as before the call, and so is the count of the
/// messages that the link lost. The rest may be anything, so nothing more is played then.
pub trait Stage {
    /// Whether its disks tell their texts. What a start or a read finds is said of such disks alone.
    ghost tells: { Bool };

    ghost volume: { Self → Volume };

    /// The world of the play.
    ghost world: { Self → World };

    /// Whether its export stands behind a journal.
    ghost journaled: { Self → Bool };

    /// How a play ends where a turn, a line or an order was not done.
    ghost cut_off: { Self → AnEnd };

    /// What the journal's disk has counted, where it had counted so many faults at first.
    ghost counts_on: { Self → ℕ → Type 0 };

    /// It stands between two turns.
    ghost is_ready: { Self → Type 0 };

    /// What is so of the disks and the log between two turns, where there was this before the first line.
    ghost holds: { Self → Before → Type 0 };

    /// What is so of them where a play ended, cut off or not. The journal refused this call, if one.
    ghost leaves: { Self → Option ACall → Before → Type 0 };

    ghost ends: { (s : Self) → StaysTrue (holds s) (leaves s None) };

    /// How a play ends where a turn, a line or an order was not done: memory is wanting, or the journal did
    /// not keep a call.
    fn cut_off(&self) -> PlayEnd
        ensures value { result ≡ cut_off self.now }
        ensures cause { CutsOff (journaled self.now) result };

    /// How many turns were taken.
    fn turns(&self) -> u32
        ensures { result ≡ (world self.now).turns };

    /// Whether the actor has work.
    fn is_busy(&self, by: Actor) -> bool
        requires ready { is_ready self.now }
        requires actor { IsActor by }
        ensures { result ≡ has_work ((world self.now).agendas by) };

    /// The actor takes a turn. Its messages go through the link.
    fn turn<L: Link>(&mut self, by: Actor, link: &mut L) -> Result<(), Halted>
        requires ready { is_ready self.old }
        requires actor { IsActor by }
        requires few { (world self.old).turns < most_turns }
        ensures volume { volume self.new ≡ volume self.old }
        ensures journal { journaled self.new ≡ journaled self.old }
        ensures ready { OnOk result (is_ready self.new) }
        ensures counted { OnOk result ((world self.new).turns ≡ (world self.old).turns + 1) }
        ensures taken { OnOk result ((b : Before) → holds self.old b → IsTurnOver (volume self.old) by Self.tells (behind b.log (world self.old)) (behind b.log (world self.new))) }
        ensures lost { (world self.new).lost + L.lost link.old ≤ (world self.old).lost + L.lost link.new }

        // The link is asked where the actor sends a message by it, once, and what it says is what comes of the message.
        ensures sent { OnOk result (IsTurnSent L.says (volume self.old) by link.old link.new (world self.old) (world self.new)) }
        ensures faults { (first : ℕ) → counts_on self.old first → counts_on self.new first }
        ensures log { OnErr result (TellsOf (world self.old) (world self.new)) }
        ensures held { OnOk result (StaysTrue (holds self.old) (holds self.new)) }

        // Where the journal refused a call, it is the one of this turn: what the actor asks next.
        ensures left { OnErr result (IsCut (cut_off self.new) (holds self.old) (leaves self.new) (λ c b. HasCause (volume self.old) (JournalRefused c) (world self.old) by)) };

    /// A line is carried out that takes no turn: an operation or a loss is noted for an actor, or a node is
    /// given an order.
    fn order(&mut self, line: &Line) -> Result<(), Halted>
        requires ready { is_ready self.old }
        requires line { IsLine (volume self.old) line.now }
        requires order { TakesNoTurn line.now }
        ensures volume { volume self.new ≡ volume self.old }
        ensures journal { journaled self.new ≡ journaled self.old }
        ensures ready { OnOk result (is_ready self.new) }
        ensures played { OnOk result (PlaysLineOver (volume self.old) line.now Self.tells (world self.old) (world self.new)) }
        ensures lost { (world self.new).lost ≡ (world self.old).lost }
        ensures faults { (first : ℕ) → counts_on self.old first → counts_on self.new first }
        ensures log { OnErr result ((world self.new).log ≡ (world self.old).log) }
        ensures held { OnOk result (StaysTrue (holds self.old) (holds self.new)) }

        // The journal is asked nothing.
        ensures left { OnErr result (IsCut (cut_off self.new) (holds self.old) (leaves self.new) (λ c b. ⊥)) };
}

/// A stage whose log can be read.
pub trait LoggedStage: Stage {
    /// The log, the oldest event first.
    fn log(&self) -> &[Event]
        ensures { result.now ≡ reverse (Self.world self.now).log };
}
