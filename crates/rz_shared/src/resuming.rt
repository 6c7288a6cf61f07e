//! A cluster of nodes and of metadata that were opened.
ghost use Rattle.std.specs.Prelude.{◌≡◌, ◌≤◌, false, IfOk, IfErr, IsTrue, is_some, length};
ghost use Rattle.std.specs.List.{AllZip};
ghost use Rattle.std.specs.Vec.{vec_len, vec_capacity};
ghost use Rattle.rz_events.specs.declared.events.Word.TheVariants as w;
ghost use Rattle.rz_events.specs.Volume.{nodes_of};
ghost use Rattle.rz_core.specs.History.{facts, of_word};
ghost use Rattle.rz_core.specs.Tied.{IsExport};
ghost use Rattle.rz_metadata.specs.Stands.{export_in, is_journaled, CountsFaults, IsJournalOpen, Stands};
ghost use Rattle.rz_restart_laws.specs.Calls.{changing_calls};
ghost use Rattle.rz_chronicle.specs.Dealing.{new_word_token};
ghost use Rattle.rz_chronicle.specs.Kinds.{keeps_legal, volume_in};
ghost use Rattle.rz_shared_locked.specs.LockedExports.{AreTextsOfBytes, faults_of};
ghost use Rattle.rz_shared.specs.Seating.{IsArrivedReady};

use crate::cluster::Cluster;
use crate::making::empty_rows;
use crate::room::ClosingRoom;
use crate::seating::{Arrived, locked_node_each};
use crate::{LockedExport, Metering};
use rz_chronicle::{Book, Desk};
use rz_config::Volume;
use rz_disk::Disk;
use rz_metadata::Metadata;
use rz_nodes::all_nodes;
use std::alloc::Global;
use std::sync::Mutex;

/// What a store opened: its nodes, in their order, an empty vector with room for their disks, and its
/// metadata.
#[derive(Drop)]
pub struct OpenedParts<D: Disk> {
    pub nodes: Vec<Arrived<D>>,
    pub home: Vec<Option<D>>,
    pub metadata: Metadata<D>,
}

impl<D: Disk, J: Metering> Cluster<D, J> {
    /// Puts the nodes and the metadata that were opened behind locks, in a book over disks that may be away.
    /// In a book that keeps its log legal they are those that the earlier log gives. Where memory is wanting
    /// all of them come back.
    pub fn after(
        alloc: Global,
        volume: &Volume,
        parts: OpenedParts<D>,
        book: &Book<J>,
        desk: Desk<J>,
    ) -> Result<Cluster<D, J>, OpenedParts<D>>
        requires volume { volume.now ≡ volume_in J.kind }
        requires free { J.fixed ≡ false }
        requires ready { AllZip (IsArrivedReady D.tells D.meter D.image J.kind J.earlier J.first) parts.nodes.items desk.nodes.items }
        requires count { length parts.nodes.items ≡ length (nodes_of volume.now.clusters) }
        requires home { (vec_len parts.home ≡ 0) × (vec_len parts.nodes ≤ vec_capacity parts.home) }
        requires word { desk.export ≡ new_word_token w.Export }
        requires of_volume { (export_in parts.metadata).volume ≡ volume_in J.kind }
        requires journal { is_journaled parts.metadata ≡ is_some J.journal }
        requires open { IsJournalOpen parts.metadata }
        requires counted { CountsFaults D.meter (faults_of J.journal) parts.metadata }
        requires tied { IsTrue (keeps_legal J.kind) → IsExport (volume_in J.kind) (facts J.earlier) (of_word w.Export J.earlier) (export_in parts.metadata) }
        requires stands { IsTrue (keeps_legal J.kind) → Stands D.tells D.meter D.image (faults_of J.journal) parts.metadata (changing_calls J.earlier) }
        requires bytes { IsTrue (keeps_legal J.kind) → AreTextsOfBytes J.earlier }
        ensures volume { IfOk result (λ c. c ≡ volume_in J.kind) }
        ensures back { IfErr result (λ p. p ≡ parts) }
    {
        let _ = book;
        let Ok(nodes) = all_nodes(alloc, volume) else {
            drop(desk);
            return Err(parts);
        };
        let Ok((locked_nodes, unlocked)) = empty_rows(alloc, nodes.len()) else {
            drop(nodes);
            drop(desk);
            return Err(parts);
        };
        let OpenedParts {
            nodes: arrived,
            home,
            metadata,
        } = parts;
        let Desk {
            export: export_token,
            nodes: word_tokens,
        } = desk;
        let (locked_nodes, word_tokens) = locked_node_each(
            alloc,
            arrived,
            word_tokens,
            locked_nodes,
        );
        Ok(Cluster {
            layout: volume.layout,
            nodes,
            locked_nodes,
            locked_export: Mutex::new(LockedExport::opened(metadata, export_token)),
            room: Mutex::new(ClosingRoom::of(unlocked, home, Vec::new(alloc), word_tokens)),
        })
    }
}
