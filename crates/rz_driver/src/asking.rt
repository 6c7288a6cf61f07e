//! What is published after a play, and the records that its nodes give.
ghost use Rattle.std.specs.Prelude.{◌≡◌, ◌≢◌, ◌≤◌, ◌∷◌, ℕ, List, Some, true, drop, length};
ghost use Rattle.mj_angles.specs.Layout.{max_bins_of};
ghost use Rattle.rz_events.specs.declared.keys.Actor.TheVariants.{Admin};
ghost use Rattle.rz_events.specs.declared.events.Event.{Event};
ghost use Rattle.rz_export_model.specs.Export.{published_after};
ghost use Rattle.rz_metadata.specs.Stands.{export_in};
ghost use Rattle.rz_node.specs.Spends.{fetch_used};
ghost use Rattle.rz_node_model.specs.NodeEvents.{fetch_event};
ghost use Rattle.rz_scrub_report.specs.Stores.{AreBinsRead};
ghost use Rattle.rz_driver.specs.Worlds.{IsDriver};
ghost use Rattle.rz_driver_nodes.specs.Fetches.{IsFetch};
ghost use Rattle.rz_driver_nodes.specs.Meters.{CarriesCounts};
ghost use Rattle.rz_driver.specs.Fetches.{GivesOf, Metered};
ghost use Rattle.rz_driver.specs.OnlyAsked.{WasOnlyAsked};

use crate::driver::Driver;
use mj_angles::Layout;
use rz_disk::Disk;
use rz_driver_nodes::fetch_node;
use rz_events::{FetchAnswer, Key, Listed};
use rz_scrub_report::ScrubbedStore;

impl<D: Disk> Driver<D> {
    /// The least published block of a live file above `after`.
    pub fn published(&self, after: Option<Key>) -> Option<Listed>
        ensures { result ≡ published_after (export_in self.now.shared.export) after }
    {
        self.shared.export.published(after)
    }

    /// Asks a node for its record of a key with this stamp. The bins come to the front of `out`. The log stays as it
    /// is: the faults of the disk are those of a log with the event of the call on top. A node that the volume does
    /// not have has no record.
    pub fn fetch(&mut self, node: u16, key: Key, stamp: u64, out: &mut [u64]) -> FetchAnswer
        requires ready { IsDriver self.old }
        requires room { max_bins_of self.old.volume.layout ≤ length out.old }
        ensures fetched { IsFetch key stamp result node self.old.shared.servers.items self.new.shared.servers.items }
        ensures read { AreBinsRead (GivesOf self.old node key) result out.old out.new }
        ensures unread { fetch_used result ≢ Some true → out.new ≡ out.old }

        // Behind the most bins that a record has nothing is written, also where a disk does not tell what it holds.
        ensures behind { drop (max_bins_of self.old.volume.layout) out.new ≡ drop (max_bins_of self.old.volume.layout) out.old }
        ensures asked { WasOnlyAsked self.old self.new }
        ensures ready { IsDriver self.new }
        ensures metered { (position : ℕ) (h : List Event) → CarriesCounts (Metered self.old h) (Metered self.new (fetch_event Admin node key position stamp result ∷ h)) }
    {
        fetch_node(self.shared.servers.as_mut_slice(), node, key, stamp, out)
    }
}

impl<D: Disk> ScrubbedStore for Driver<D> {
    ghost use Rattle.rz_driver.specs.Worlds.{IsDriver};
    ghost use Rattle.rz_driver.specs.Fetches.{GivesOf, Metered, state_of};
    ghost use Rattle.rz_driver.specs.OnlyAsked.{WasOnlyAsked};
    ghost use Rattle.rz_driver.specs.AskedLaws.{asked-itself, asked-then};

    ghost described = { λ d. d.volume };

    ghost state = { λ d h. state_of d h };

    ghost is_open = { λ d. IsDriver d };

    ghost gives = { λ d. GivesOf d };

    ghost counts = { λ d h. Metered d h };

    ghost only_asked = { λ d e. WasOnlyAsked d e };

    ghost itself = { λ d. asked-itself d };

    ghost then = { λ a b c. asked-then a b c };

    fn layout(&self) -> Layout {
        self.volume.layout
    }

    fn published(&self, after: Option<Key>) -> Option<Listed> {
        self.shared.export.published(after)
    }

    fn fetch(&mut self, node: u16, key: Key, stamp: u64, room: &mut [u64]) -> FetchAnswer {
        Driver::fetch(self, node, key, stamp, room)
    }
}
