//! The turns of actors.
ghost use Rattle.std.specs.Prelude.{ℕ, ◌≡◌, ◌+◌, ◌<◌, ◌≤◌, OnOk, OnErr};
ghost use Rattle.rz_play.specs.Stops.{HasCause, JournalRefused, most_turns};
ghost use Rattle.rz_play.specs.Free.{IsTurnOver};
ghost use Rattle.rz_play.specs.World.{has_work};
ghost use Rattle.rz_player.specs.Behind.{Before, behind};
ghost use Rattle.rz_player.specs.Ends.{StaysTrue, IsCut};
ghost use Rattle.rz_player.specs.Messages.{IsTurnSent};
ghost use Rattle.rz_metadata.specs.Stands.{is_journaled, refusal_of};
ghost use Rattle.rz_driver.specs.Endings.{end_by};
ghost use Rattle.rz_driver.specs.Worlds.{HasCounted, place_of, world_of, IsDriver, HoldsBetweenTurns, LeavesAtEnd};

use crate::Halted;
use crate::driver::Driver;
use rz_disk::Disk;
use rz_driver_actors::act;
use rz_events::Actor;
use rz_link::Link;

/// Where an actor stands in the row.
pub(crate) fn place(by: Actor) -> Option<usize>
    ensures { result ≡ place_of by }
{
    match by {
        Actor::Client(n) if 1 <= n && n <= 64 => Some(usize::from(n) - 1),
        Actor::Rebuilder(n) if 1 <= n && n <= 16 => Some(usize::from(n) + 63),
        _ => None,
    }
}

impl<D: Disk> Driver<D> {
    /// The actor takes a turn.
    pub(crate) fn take_turn<L: Link>(&mut self, by: Actor, link: &mut L) -> Result<(), Halted>
        requires ready { IsDriver self.old }
        requires few { self.old.turns < most_turns }
        ensures ready { OnOk result (IsDriver self.new) }
        ensures volume { self.new.volume ≡ self.old.volume }
        ensures journal { is_journaled self.new.shared.export ≡ is_journaled self.old.shared.export }
        ensures faults { (first : ℕ) → HasCounted self.old first → HasCounted self.new first }
        ensures counted { OnOk result (self.new.turns ≡ self.old.turns + 1) }
        ensures taken { OnOk result ((b : Before) → HoldsBetweenTurns self.old b → IsTurnOver self.old.volume by D.tells (behind b.log (world_of self.old)) (behind b.log (world_of self.new))) }
        ensures link { self.new.shared.lost + L.lost link.old ≤ self.old.shared.lost + L.lost link.new }
        ensures sent { OnOk result (IsTurnSent L.says self.old.volume by link.old link.new (world_of self.old) (world_of self.new)) }
        ensures log { OnErr result (self.new.shared.log.events ≡ self.old.shared.log.events) }
        ensures lost { OnErr result (self.new.shared.lost ≡ self.old.shared.lost) }
        ensures held { OnOk result (StaysTrue (HoldsBetweenTurns self.old) (HoldsBetweenTurns self.new)) }

        // Where the journal refused a call, it is the one of this turn.
        ensures left { OnErr result (IsCut (end_by (refusal_of self.new.shared.export)) (HoldsBetweenTurns self.old) (LeavesAtEnd self.new) (λ c b. HasCause self.old.volume (JournalRefused c) (world_of self.old) by)) }
    {
        rz_play_laws::own_proper();
        rz_play_laws::working();
        rz_play_laws::turned();
        rz_play_laws::facts_told();
        rz_block_laws::fitting();
        rz_block_laws::lasting();
        rz_restart_laws::told();
        rz_restart_laws::untold();
        let Some(place) = place(by) else {
            return Err(Halted);
        };
        self.shared.log.make_room()?;
        let layout = self.volume.layout;
        let agenda = &mut self.agendas[place];
        agenda.begin_next(self.alloc, layout)?;
        act(self.alloc, layout, by, agenda, &mut self.shared, link)?;
        self.turns += 1;
        Ok(())
    }

    /// Whether the actor has work.
    pub(crate) fn is_at_work(&self, by: Actor) -> bool
        requires ready { IsDriver self.now }
        ensures { result ≡ has_work ((world_of self.now).agendas by) }
    {
        match place(by) {
            Some(place) => self.agendas[place].has_work(),
            None => false,
        }
    }
}
