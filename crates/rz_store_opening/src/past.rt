//! A store is opened after the runs that left its disks.
ghost use Rattle.std.specs.Prelude.{◌≡◌, ◌≤◌, true, IsTrue, IfOk, IfErr, Some, length};
ghost use Rattle.std.specs.List.{AllZip};
ghost use Rattle.std.specs.Vec.{vec_len, vec_capacity};
ghost use Rattle.rz_disk.specs.Meter.{faults};
ghost use Rattle.rz_events.specs.Volume.{nodes_of};
ghost use Rattle.rz_core.specs.Legal.{IsLegalInRuns};
ghost use Rattle.rz_chronicle.specs.Kinds.{kind_after};
ghost use Rattle.rz_metadata.specs.Stands.{disk_of, is_journaled};
ghost use Rattle.rz_store_opening.specs.Opening.{AreLeft, GoesOnAfter, IsOpenedStore, IsPlaceBack, IsUnopened, disks_in, reopened};

use crate::back::hand_back;
use crate::disks::{OpenedDisks, Unopened, open_disks};
use rz_chronicle::{Beginning, NewBook};
use rz_config::Volume;
use rz_disk::Disk;
use rz_journal::JournalFault;
use std::alloc::Global;
use std::marker::Brand;

/// What whoever opens a store knows of the runs that left its disks: whether anything, their log, which has
/// the newest event first, and the new disks of the nodes that are lost after it. Proofs alone know them, so
/// no program can ask. A call picks them.
pub trait Past {
    ghost use Rattle.std.specs.Prelude.{ℕ, Bool, List};
    ghost use Rattle.rz_events.specs.declared.events.Event.{Event as AnEvent};
    ghost use Rattle.rz_restart_laws.specs.Returns.{NewDisk};

    ghost known: { Bool };

    ghost log: { List AnEvent };

    ghost new: { ℕ → NewDisk };
}

impl Past for Brand {
    ghost use Rattle.std.specs.Prelude.{false, []};
    ghost use Rattle.rz_events.specs.declared.keys.Actor.TheVariants.{Admin};

    ghost known = { false };

    ghost log = { [] };

    ghost new = { λ n. record { by = Admin; fence = 0 } };
}

/// Opens a store on its journal and on what there is of its nodes' disks, in the order of the description, and
/// makes the book of its further log. A disk that is absent, does not open or is stale leaves its node away.
///
/// Nothing is opened, and the disks come back as they came, where the journal does not open or memory is
/// wanting.
pub fn open_after<P: Past, D: Disk>(
    alloc: Global,
    volume: &Volume,
    disks: Vec<Option<D>>,
    journal: D,
) -> Result<(OpenedDisks<D>, NewBook), Unopened<D>>
    requires count { length disks.items ≡ length (nodes_of volume.now.clusters) }

    // Earlier runs with this log left the disks.
    requires left { IsTrue P.known → IsTrue D.tells × AreLeft D.image volume.now P.log P.new disks.items journal }

    ensures opened { IfOk result (λ r. IsOpenedStore D.tells D.meter D.text D.image volume.now disks.items journal r.0) }

    // The book goes on after their log, in which each node that is here was started, and so do the metadata and the nodes.
    ensures kind { IfOk result (λ r. r.1.tokens.kind ≡ kind_after P.known volume.now (reopened volume.now P.new r.0.parts.nodes.items P.log)) }
    ensures goes_on { IfOk result (λ r. IsTrue P.known → GoesOnAfter D.tells D.meter D.text D.image volume.now P.log P.new (faults (D.meter journal)) r.0) }

    ensures back { IfErr result (λ e. AllZip (IsPlaceBack D.meter D.text D.image) disks.items e.disks.items) }
    ensures unopened { IfErr result (λ e. IsUnopened D.tells D.meter D.text D.image volume.now journal e.journal e.fault) }
{
    crate::laws::reopening::<D>();
    match open_disks(alloc, volume, disks, journal) {
        Ok(opened) => with_book::<Brand, D>(alloc, volume, opened),
        Err(unopened) => Err(unopened),
    }
}

/// What was opened, with a new book. The call picks after which log it goes on.
fn with_book<B: Beginning, D: Disk>(
    alloc: Global,
    volume: &Volume,
    opened: OpenedDisks<D>,
) -> Result<(OpenedDisks<D>, NewBook), Unopened<D>>
    requires legal { IsTrue B.honest → IsLegalInRuns volume.now B.earlier }
    requires count { length opened.missing.items ≡ length opened.parts.nodes.items }
    requires empty { vec_len opened.parts.home ≡ 0 }
    requires room { vec_len opened.parts.nodes ≤ vec_capacity opened.parts.home }
    requires journaled { is_journaled opened.parts.metadata ≡ true }
    ensures opened { IfOk result (λ r. r.0 ≡ opened) }
    ensures kind { IfOk result (λ r. r.1.tokens.kind ≡ kind_after B.honest volume.now B.earlier) }
    ensures disks { IfErr result (λ e. e.disks.items ≡ disks_in opened.parts.nodes.items opened.missing.items) }
    ensures journal { IfErr result (λ e. disk_of opened.parts.metadata ≡ Some e.journal) }
    ensures want { IfErr result (λ e. e.fault ≡ JournalFault.NoMemory) }
{
    match NewBook::after::<B>(alloc, volume) {
        Ok(book) => Ok((opened, book)),
        Err(_) => Err(hand_back(opened)),
    }
}
