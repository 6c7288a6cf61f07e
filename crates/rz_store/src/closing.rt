//! A store is let go.
ghost use Rattle.std.specs.Prelude.{◌≡◌, ℕ, None, is_some, IsTrue, IfSome, length};
ghost use Rattle.std.specs.List.{AllZip};
ghost use Rattle.rz_events.specs.Volume.{nodes_of};
ghost use Rattle.rz_restart_laws.specs.Calls.{changing_calls};
ghost use Rattle.rz_restart_laws.specs.Returns.{NewDisk};
ghost use Rattle.rz_store_opening.specs.Opening.{AreLeft};
ghost use Rattle.rz_store_turns.specs.Closed.{IsDiskHere, IsDiskLeft, IsJournalLeft};
ghost use Rattle.rz_store.specs.Opened.{MayOpenAgain};
ghost use Rattle.rz_store.specs.Store.{IfLegal};

use crate::store::Store;
use rz_config::Volume;
use rz_disk::Disk;
use rz_shared::Metering;
use rz_store_turns::ClosedStore;

impl<D: Disk, J: Metering> Store<D, J> {
    /// The volume.
    pub fn volume(&self) -> &Volume
        ensures { result.now ≡ self.now.volume }
    {
        self.sole.volume()
    }

    /// Lets the store go: its disks come back, those of the nodes in the order of the description.
    ///
    /// No device is called. What stands on the disks then stood there before, so it is also what a stop between
    /// any two calls leaves; and a store that is opened on it goes on after the log, and looks the same.
    pub fn close(self) -> ClosedStore<D>
        ensures count { length result.disks.items ≡ length (nodes_of self.volume.clusters) }
        ensures disks { IfLegal J.kind (AllZip (IsDiskLeft D.image self.volume self.log) (nodes_of self.volume.clusters) result.disks.items) }
        ensures journal { IfLegal J.kind (IsTrue D.tells → IfSome result.journal (IsJournalLeft D.image self.volume result.refusal (changing_calls self.log))) }

        // The disk of each node that is up comes back, and that of the journal, if there is one.
        ensures here { IfLegal J.kind (AllZip (IsDiskHere self.log) (nodes_of self.volume.clusters) result.disks.items) }
        ensures journaled { is_some result.journal ≡ is_some J.journal }

        // Where the journal refused nothing, the store may be opened again.
        ensures left { IfLegal J.kind (IsTrue D.tells → result.refusal ≡ None → MayOpenAgain self.volume self.log → (new : ℕ → NewDisk) → IfSome result.journal (AreLeft D.image self.volume self.log new result.disks.items)) }
    {
        self.sole.stands();
        self.sole.close()
    }
}
