//! Room for what the locks of a cluster hold, for when it is handed back.
ghost use Rattle.std.specs.Prelude.{◌≡◌, ◌≤◌, IsTrue, length};
ghost use Rattle.std.specs.Vec.{vec_len, vec_capacity};
ghost use Rattle.rz_events.specs.Volume.{nodes_of};
ghost use Rattle.rz_chronicle.specs.Kinds.{volume_in};

use crate::{LockedNode, Metering};
use rz_chronicle::WordToken;
use rz_disk::{Disk, Fused};
use std::marker::Model;

/// Empty vectors with room for each node of the volume. They stand behind a lock themselves, so that
/// threads can share a cluster.
#[derive(Drop)]
pub(crate) struct ClosingRoom<D: Disk, J: Metering> {
    pub(crate) locked_nodes: Vec<LockedNode<Fused<D>, J>>,
    pub(crate) disks: Vec<Option<D>>,
    /// For the disks alone, where all are here.
    pub(crate) home: Vec<D>,
    pub(crate) word_tokens: Vec<WordToken<J>>,
}

impl<D: Disk, J: Metering> Model for ClosingRoom<D, J> {
    ghost use Rattle.std.specs.Prelude.{◌≡◌, ◌≤◌, IsTrue, length};
    ghost use Rattle.std.specs.Vec.{vec_len, vec_capacity};
    ghost use Rattle.rz_events.specs.Volume.{Volume, nodes_of};
    ghost use Rattle.rz_chronicle.specs.Kinds.{volume_in};

    ghost Value = { Volume };

    ghost view = { λ r. volume_in J.kind };

    ghost invariant = { λ r. (vec_len r.locked_nodes ≡ 0) × (length (nodes_of (volume_in J.kind).clusters) ≤ vec_capacity r.locked_nodes)
        × (vec_len r.disks ≡ 0) × (length (nodes_of (volume_in J.kind).clusters) ≤ vec_capacity r.disks)
        × (vec_len r.home ≡ 0) × (IsTrue J.fixed → length (nodes_of (volume_in J.kind).clusters) ≤ vec_capacity r.home)
        × (vec_len r.word_tokens ≡ 0) × (length (nodes_of (volume_in J.kind).clusters) ≤ vec_capacity r.word_tokens) };
}

impl<D: Disk, J: Metering> ClosingRoom<D, J> {
    /// The room that these vectors give.
    pub(crate) fn of(
        locked_nodes: Vec<LockedNode<Fused<D>, J>>,
        disks: Vec<Option<D>>,
        home: Vec<D>,
        word_tokens: Vec<WordToken<J>>,
    ) -> ClosingRoom<D, J>
        requires locked_nodes { (vec_len locked_nodes ≡ 0) × (length (nodes_of (volume_in J.kind).clusters) ≤ vec_capacity locked_nodes) }
        requires disks { (vec_len disks ≡ 0) × (length (nodes_of (volume_in J.kind).clusters) ≤ vec_capacity disks) }
        requires home { (vec_len home ≡ 0) × (IsTrue J.fixed → length (nodes_of (volume_in J.kind).clusters) ≤ vec_capacity home) }
        requires word_tokens { (vec_len word_tokens ≡ 0) × (length (nodes_of (volume_in J.kind).clusters) ≤ vec_capacity word_tokens) }
    {
        ClosingRoom {
            locked_nodes,
            disks,
            home,
            word_tokens,
        }
    }
}
