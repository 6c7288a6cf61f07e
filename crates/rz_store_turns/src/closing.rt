//! Who acts alone lets the store go.
ghost use Rattle.std.specs.Prelude.{◌≡◌, ◌++◌, IsTrue, IfSome, is_some, length};
ghost use Rattle.std.specs.List.{AllZip};
ghost use Rattle.rz_events.specs.Volume.{nodes_of};
ghost use Rattle.rz_metadata.specs.Stands.{export_in, is_journaled, refusal_of};
ghost use Rattle.rz_restart_laws.specs.Calls.{changing_calls};
ghost use Rattle.rz_chronicle.specs.Kinds.{keeps_legal, volume_in};
ghost use Rattle.rz_shared_locked.specs.LockedExports.{AreMetadataOf, AreTextsOfBytes, faults_of};
ghost use Rattle.rz_store_turns.specs.Closed.{IsDiskHere, IsDiskLeft, IsJournalLeft};
ghost use Rattle.rz_store_turns.specs.Sole.{HoldsAll};

use crate::sole::Sole;
use rz_chronicle::{Book, Pass};
use rz_disk::Disk;
use rz_metadata::{JournalRefusal, Metadata};
use rz_shared::{Closed, Cluster, Metering};
use rz_threads_steps::SharedStore;

/// The disks of a store that was let go.
#[derive(Drop)]
pub struct ClosedStore<D: Disk> {
    /// Those of the nodes, in the order of the description, each where it is here.
    pub disks: Vec<Option<D>>,
    /// That of the journal, if there is one.
    pub journal: Option<D>,
    /// Why the journal did not keep a call, if it did not.
    pub refusal: Option<JournalRefusal>,
}

/// Takes a cluster apart, beside which nobody acts: the disks of its nodes, and the metadata.
fn taken_apart<D: Disk, J: Metering>(
    book: &Book<J>,
    pass: Pass<J>,
    cluster: Cluster<D, J>,
) -> (Vec<Option<D>>, Metadata<D>)
    requires volume { cluster ≡ volume_in J.kind }
    requires tokens { HoldsAll pass.keys }
    ensures count { length result.0.items ≡ length (nodes_of (volume_in J.kind).clusters) }
    ensures disks { IsTrue (keeps_legal J.kind) → AllZip (IsDiskLeft D.image (volume_in J.kind) (pass.log ++ J.earlier)) (nodes_of (volume_in J.kind).clusters) result.0.items }
    ensures here { IsTrue (keeps_legal J.kind) → AllZip (IsDiskHere (pass.log ++ J.earlier)) (nodes_of (volume_in J.kind).clusters) result.0.items }
    ensures volume { (export_in result.1).volume ≡ volume_in J.kind }
    ensures journal { is_journaled result.1 ≡ is_some J.journal }
    ensures texts { IsTrue (keeps_legal J.kind) → AreTextsOfBytes (pass.log ++ J.earlier) }
    ensures metadata { AreMetadataOf (refusal_of result.1) D.tells D.meter D.image (faults_of J.journal) J.kind (pass.log ++ J.earlier) result.1 }
{
    rz_chronicle::added_alone();
    rz_chronicle::words_kept();
    let mut pass = pass;
    let Closed {
        disks,
        metadata,
        desk,
    } = cluster.close_after();
    book.settle(&mut pass, desk);
    let _member = pass.actor();
    (disks, metadata)
}

impl<D: Disk, J: Metering> Sole<D, J> {
    /// Lets the store go: the disks come back, that of each node that is up among them, and that of the journal, if
    /// there is one.
    ///
    /// No device is called. What stands on the disks then stood there before, so it is also what a stop between
    /// any two calls leaves.
    pub fn close(self) -> ClosedStore<D>
        ensures count { length result.disks.items ≡ length (nodes_of (volume_in J.kind).clusters) }
        ensures disks { IsTrue (keeps_legal J.kind) → AllZip (IsDiskLeft D.image (volume_in J.kind) (self.pass.log ++ J.earlier)) (nodes_of (volume_in J.kind).clusters) result.disks.items }
        ensures here { IsTrue (keeps_legal J.kind) → AllZip (IsDiskHere (self.pass.log ++ J.earlier)) (nodes_of (volume_in J.kind).clusters) result.disks.items }
        ensures journaled { is_some result.journal ≡ is_some J.journal }
        ensures journal { IsTrue (keeps_legal J.kind) → IsTrue D.tells → IfSome result.journal (IsJournalLeft D.image (volume_in J.kind) result.refusal (changing_calls (self.pass.log ++ J.earlier))) }

        // Each write of the log began with a text of bytes.
        ensures texts { IsTrue (keeps_legal J.kind) → AreTextsOfBytes (self.pass.log ++ J.earlier) }
    {
        let Sole {
            shared,
            pass,
            bins,
            ..
        } = self;
        drop(bins);
        let SharedStore {
            cluster,
            book,
            volume,
        } = shared;
        drop(volume);
        let (disks, metadata) = taken_apart(&book, pass, cluster);
        let refusal = metadata.refusal();
        ClosedStore {
            disks,
            journal: metadata.into_disk(),
            refusal,
        }
    }
}
