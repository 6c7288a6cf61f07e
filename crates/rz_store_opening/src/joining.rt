//! What was opened is joined into a cluster.
ghost use Rattle.std.specs.Prelude.{◌≡◌, ◌+◌, ℕ, false, IsTrue, IfOk, IfErr, Some};
ghost use Rattle.rz_events.specs.declared.keys.Actor.TheVariants as a;
ghost use Rattle.rz_metadata.specs.Stands.{disk_of};
ghost use Rattle.rz_chronicle.specs.Dealing.{new_pass, ArePasses};
ghost use Rattle.rz_chronicle.specs.Kinds.{HasEarlierLog, keeps_legal, volume_in};
ghost use Rattle.rz_shared_locked.specs.LockedExports.{faults_of};
ghost use Rattle.rz_store_opening.specs.Opening.{IsAfterPast, IsOpenedOnSome, disks_in};

use crate::back::hand_back;
use crate::disks::{OpenedDisks, Unopened};
use rz_chronicle::{Book, Crew, NewBook, Pass};
use rz_config::Volume;
use rz_disk::Disk;
use rz_journal::JournalFault;
use rz_nodes::Missing;
use rz_shared::{Cluster, Metering};
use std::alloc::Global;

/// A store that was opened: its nodes and its metadata behind locks, the book of its further log, a pass for
/// each actor, and why each node is away, if it is, in the order of the description.
#[derive(Drop)]
pub struct Joined<D: Disk, J: Metering> {
    pub cluster: Cluster<D, J>,
    pub book: Book<J>,
    pub admin: Pass<J>,
    pub clients: Vec<Pass<J>>,
    pub rebuilders: Vec<Pass<J>>,
    pub missing: Vec<Option<Missing<D>>>,
}

/// Joins what was opened and its new book, under a name of the book, into a cluster. Where memory is wanting,
/// all disks come back.
pub fn join<J: Metering, D: Disk>(
    alloc: Global,
    volume: &Volume,
    opened: OpenedDisks<D>,
    book: NewBook,
) -> Result<Joined<D, J>, Unopened<D>>
    requires names { (book.seen.book ≡ J.book) × (book.tokens.counters ≡ J.counters) × (book.tokens.copy ≡ J.copy) × (book.tokens.kind ≡ J.kind) }
    requires volume { volume.now ≡ volume_in J.kind }

    // Disks may be away, and the export stands behind a journal.
    requires free { J.fixed ≡ false }
    requires first { (n : ℕ) → J.first n ≡ 0 }

    // In a book that keeps its log legal it goes on after the log of earlier runs, which is the book's earlier log.
    requires opened { IsOpenedOnSome D.tells D.meter D.text D.image volume.now J.journal opened }
    requires earlier { HasEarlierLog J.kind J.earlier }
    requires goes_on { IsTrue (keeps_legal J.kind) → IsAfterPast D.tells D.meter D.text D.image volume.now (faults_of J.journal) J.earlier opened }

    ensures volume { IfOk result (λ j. (j.cluster ≡ volume_in J.kind) × (j.book ≡ volume_in J.kind)) }
    ensures admin { IfOk result (λ j. j.admin ≡ new_pass a.Admin) }
    ensures clients { IfOk result (λ j. ArePasses 64 (λ i. a.Client (i + 1)) j.clients.items) }
    ensures rebuilders { IfOk result (λ j. ArePasses 16 (λ i. a.Rebuilder (i + 1)) j.rebuilders.items) }
    ensures missing { IfOk result (λ j. j.missing ≡ opened.missing) }
    ensures disks { IfErr result (λ e. e.disks.items ≡ disks_in opened.parts.nodes.items opened.missing.items) }
    ensures journal { IfErr result (λ e. disk_of opened.parts.metadata ≡ Some e.journal) }
    ensures want { IfErr result (λ e. e.fault ≡ JournalFault.NoMemory) }
{
    crate::laws::ready::<D>();
    let Ok((book, crew)) = book.named::<J>(alloc) else {
        return Err(hand_back(opened));
    };
    let Crew {
        admin,
        clients,
        rebuilders,
        desk,
    } = crew;
    let OpenedDisks { parts, missing } = opened;
    match Cluster::after(alloc, volume, parts, &book, desk) {
        Ok(cluster) => Ok(Joined {
            cluster,
            book,
            admin,
            clients,
            rebuilders,
            missing,
        }),
        Err(parts) => {
            drop(admin);
            drop(clients);
            drop(rebuilders);
            drop(book);
            Err(hand_back(OpenedDisks { parts, missing }))
        }
    }
}
