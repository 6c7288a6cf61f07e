//! The end of a driver: the log and the disks go back.
ghost use Rattle.std.specs.Prelude.{◌≡◌, ◌+◌, ◌≤◌, ◌++◌, ◌^◌, length, reverse, true, ℕ, List, IsTrue, Option, Some, option_to_list};
ghost use Rattle.std.specs.Vec.{vec_len, vec_capacity};
ghost use Rattle.rz_disk.specs.Meter.{Rises, faults};
ghost use Rattle.rz_events.specs.Volume.{nodes_of};
ghost use Rattle.rz_events.specs.declared.export.Call.{Call};
ghost use Rattle.rz_events.specs.declared.events.Event.{Event as AnEvent};
ghost use Rattle.rz_player.specs.Behind.{Before};
ghost use Rattle.rz_metadata.specs.declared.journaled.JournalRefusal.TheVariants.{Failed};
ghost use Rattle.rz_metadata.specs.Stands.{disk_of, is_journaled, refusal_of};
ghost use Rattle.rz_driver.specs.Fetches.{Metered};
ghost use Rattle.rz_driver_nodes.specs.Meters.{AreDisksCounted};
ghost use Rattle.rz_driver.specs.OnlyAsked.{HeldSince};
ghost use Rattle.rz_driver_nodes.specs.Images.{AreDisksImaged};
ghost use Rattle.rz_nodes.specs.Formatted.{disks_of};
ghost use Rattle.rz_driver.specs.Continued.{AreLeft, EndsWhole};
ghost use Rattle.rz_driver.specs.Endings.{EndsAsRefused, StandsForLog};
ghost use Rattle.rz_driver.specs.Journals.{journal_place};
ghost use Rattle.rz_driver.specs.Worlds.{HasCounted, numbers_in, is_known, HoldsBetweenTurns, LeavesAtEnd};

use crate::driver::Driver;
use rz_disk::{Disk, Fused};
use rz_driver_actors::Shared;
use rz_events::Event;
use rz_metadata::JournalRefusal;
use rz_nodes::{Server, hand_back};

impl<D: Disk> Driver<D> {
    /// Why the journal did not keep a call, if there is a journal and it did not.
    pub fn refusal(&self) -> Option<JournalRefusal>
        ensures { result ≡ refusal_of self.now.shared.export }
    {
        self.shared.export.refusal()
    }

    /// The log, the oldest event first, and all disks in their order, that of a journal last. What their images
    /// stand for is told by the whole log: that of this run behind that of earlier runs.
    pub fn close(self) -> (Vec<Event>, Vec<D>)
        ensures log { result.0.items ≡ reverse self.shared.log.events }
        ensures disks { result.1.items ≡ disks_of self.shared.servers.items ++ option_to_list (disk_of self.shared.export) }
        ensures counted { (b : Before) (refused : Option Call) → LeavesAtEnd self refused b → AreDisksCounted D.meter b.counts 0 (numbers_in self) (disks_of self.shared.servers.items) self.shared.log.events }
        ensures imaged { (b : Before) (refused : Option Call) → LeavesAtEnd self refused b → IsTrue D.tells
            → AreDisksImaged D.image self.volume (numbers_in self) (disks_of self.shared.servers.items) (self.shared.log.events ++ b.log) }

        // Where records were asked after the play, the faults are counted with those asks, and the images are told by
        // the log of the play still.
        ensures asked { (h : List AnEvent) (first : ℕ → ℕ) → Metered self h first → AreDisksCounted D.meter first 0 (numbers_in self) (disks_of self.shared.servers.items) h }
        ensures since { (b : Before) → HeldSince self b → IsTrue D.tells → AreDisksImaged D.image self.volume (numbers_in self) (disks_of self.shared.servers.items) (self.shared.log.events ++ b.log) }

        // Between two turns a journal's disk stands for the calls that changed the export of the log.
        ensures stands { (b : Before) (disk : D) → HoldsBetweenTurns self b → disk_of self.shared.export ≡ Some disk → IsTrue D.tells → StandsForLog (D.image disk) self.volume (self.shared.log.events ++ b.log) }

        // Where a play ended, for these still, but where a device call failed for the call that was refused, also for it.
        ensures ends { (b : Before) (refused : Option Call) (disk : D) → LeavesAtEnd self refused b → is_known D.tells b ≡ true → disk_of self.shared.export ≡ Some disk
            → EndsAsRefused (refusal_of self.shared.export) refused D.tells (D.image disk) (b.counts (journal_place self)) (faults (D.meter disk)) self.volume (self.shared.log.events ++ b.log) }

        // There is a disk of each node. Where one of the journal's failed the count of its faults rose, whatever earlier runs
        // there were.
        ensures each { (first : ℕ) → HasCounted self first → length (disks_of self.shared.servers.items) ≡ length (nodes_of self.volume.clusters) }
        ensures risen { (first : ℕ) (disk : D) → HasCounted self first → disk_of self.shared.export ≡ Some disk → refusal_of self.shared.export ≡ Some Failed → Rises first (faults (D.meter disk)) }

        // Where no device call of the journal failed, the disks are what a next run wants: `again` takes the same record.
        ensures left { (b : Before) (refused : Option Call) → EndsWhole self refused b → is_journaled self.shared.export ≡ true → IsTrue D.tells → AreLeft D.image self.volume (self.shared.log.events ++ b.log) result.1.items }
    {
        rz_node_laws::logged::<D>();
        let Driver {
            volume,
            shared,
            agendas,
            home,
            ..
        } = self;
        let Shared {
            servers,
            export,
            log,
            bins,
            ..
        } = shared;
        drop(volume);
        drop(agendas);
        drop(bins);
        let log = log.close();
        let journal = export.into_disk();
        (log, hand_back_with(servers, home, journal))
    }

    /// The log, and the disks of the nodes with this one behind them, if there is one. The rest is let go.
    pub(crate) fn close_with(self, last: Option<D>) -> (Vec<Event>, Vec<D>)
        ensures log { result.0.items ≡ reverse self.shared.log.events }
        ensures short { length self.shared.log.events ≤ 2 ^ 62 + 2 }
        ensures disks { result.1.items ≡ disks_of self.shared.servers.items ++ option_to_list last }
    {
        let Driver {
            volume,
            shared,
            agendas,
            home,
            ..
        } = self;
        let Shared {
            servers,
            export,
            log,
            bins,
            ..
        } = shared;
        drop(volume);
        drop(agendas);
        drop(export);
        drop(bins);
        (log.close(), hand_back_with(servers, home, last))
    }
}

/// The disks of the nodes in their order, and behind them this one, if there is one.
fn hand_back_with<D: Disk>(servers: Vec<Server<Fused<D>>>, home: Vec<D>, last: Option<D>) -> Vec<D>
    requires room { vec_len servers + vec_len home + 1 ≤ vec_capacity home }
    ensures { result.items ≡ disks_of servers.items ++ option_to_list last }
{
    let mut home = home;
    home.clear();
    match last {
        Some(disk) => {
            home.push_reserved(disk);
            hand_back(servers, home)
        }
        None => hand_back(servers, home),
    }
}
