//! A node and the calls that use no disk.
ghost use Rattle.std.specs.Prelude.{◌≡◌, ◌⊎◌, ◌*◌, ℕ, Some, None, List, IsTrue, IfOk, IfErr, MatchResult, if◌then◌else◌};
ghost use Rattle.std.specs.FinMap as maps;
ghost use Rattle.rz_disk.specs.Images.{Only, Within};
ghost use Rattle.rz_disk.specs.Meter.{armed};
ghost use Rattle.rz_cells_slots.specs.Counted.{CountedWhere};
ghost use Rattle.rz_cells_slots.specs.Held.{nothing};
ghost use Rattle.rz_cells_slots.specs.Shape.{IsGeometry};
ghost use Rattle.rz_cells_slots.specs.Stands.{IsShut, StandsFor};
ghost use Rattle.rz_node_model.specs.Answers.{IsNodeAnswer};
ghost use Rattle.rz_node_model.specs.Afterwards.{after_answer};
ghost use Rattle.rz_node_model.specs.States.{fresh};
ghost use Rattle.rz_node.specs.View.{lost};

use rz_cells::{Cells, FormatFault, Geometry};
use rz_disk::Disk;
use rz_events::{NodeAnswer, NodeAsk, Phase};
use rz_index::Index;
use rz_node_model::Pending;
use std::alloc::Global;
use std::marker::Model;

/// A storage node.
#[derive(Drop)]
pub struct Node<D: Disk> {
    pub(crate) phase: Phase,
    /// How many disks it lost.
    pub(crate) losses: u64,
    /// The change that a disk fault left undecided.
    pub(crate) undecided: Option<Pending>,
    pub(crate) cells: Cells<D>,
    pub(crate) index: Index,
}

impl<D: Disk> Model for Node<D> {
    ghost use Rattle.rz_node.specs.View.{NodeView, StandsAsNode, state_of, view_code};

    ghost Value = { NodeView D };

    ghost coded = { view_code D.code };

    ghost view = { λ n. record {
      disk = n.cells.disk;
      geometry = n.cells.geometry;
      state = state_of n.phase n.losses n.undecided n.cells.fence n.index.entries n.cells.heads;
    } };

    ghost invariant = { λ n. StandsAsNode D.tells (D.text n.cells.disk) (D.image n.cells.disk) n.phase n.undecided n.cells.geometry n.cells.fence n.cells.gates.items n.cells.heads n.index };
}

impl<D: Disk> Node<D> {
    /// Makes a disk anew, and a node on it that holds nothing.
    ///
    /// Want of memory may come before the disk is reset or from its reset.
    pub fn format(alloc: Global, geometry: Geometry, disk: D) -> Result<Node<D>, (D, FormatFault)>
        requires { IsGeometry geometry }
        ensures state { IfOk result (λ n. n.state ≡ fresh) }
        ensures geometry { IfOk result (λ n. n.geometry ≡ geometry) }
        ensures nothing { IfOk result (λ n. IsTrue D.tells → StandsFor geometry 0 (D.text n.disk) nothing) }
        ensures settled { IfOk result (λ n. Only (D.text n.disk) (D.image n.disk)) }

        // Otherwise each image is one from before, or its header is shut, or it stands for nothing.
        ensures crash { IfErr result (λ e. IsTrue D.tells → (c : List ℕ) → D.image e.0 c → D.image disk c ⊎ IsShut c ⊎ StandsFor geometry 0 c nothing) }

        ensures meter { MatchResult result (λ n. CountedWhere 4 result ⊥ (D.meter disk) (D.meter n.disk))
            (λ e. CountedWhere 4 result (e.1 ≡ FormatFault.DiskFault) (D.meter disk) (D.meter e.0)) }

        // Want of memory takes no pass.
        ensures unspent { IfErr result (λ e. e.1 ≡ FormatFault.NoMemory → (D.meter e.0).fuse ≡ (D.meter disk).fuse) }
        ensures unplanned { IfErr result (λ e. e.1 ≡ FormatFault.NoMemory → (D.meter e.0).planned ≡ (D.meter disk).planned) }
    {
        let Ok(index) = Index::with_room(alloc, geometry.cells) else {
            return Err((disk, FormatFault::NoMemory));
        };
        match Cells::format(alloc, geometry, 0, disk) {
            Ok(cells) => Ok(Node {
                phase: Phase::Up,
                losses: 0,
                undecided: None,
                cells,
                index,
            }),
            Err(fault) => Err(fault),
        }
    }

    /// A node that lost so many disks, with the fence of its last replacement, on a new disk that is not
    /// looked at.
    pub fn lost(
        alloc: Global,
        geometry: Geometry,
        fence: u64,
        losses: u64,
        disk: D,
    ) -> Result<Node<D>, D>
        requires { IsGeometry geometry }
        ensures node { IfOk result (λ n. n ≡ record { disk = disk; geometry = geometry; state = lost fence losses }) }
        ensures back { IfErr result (λ d. d ≡ disk) }
    {
        let Ok(index) = Index::with_room(alloc, geometry.cells) else {
            return Err(disk);
        };
        match Cells::unopened(alloc, geometry, fence, disk) {
            Ok(cells) => Ok(Node {
                phase: Phase::Lost,
                losses,
                undecided: None,
                cells,
                index,
            }),
            Err(disk) => {
                drop(index);
                Err(disk)
            }
        }
    }

    /// Whether it is up, down or lost.
    pub fn phase(&self) -> Phase
        ensures { result ≡ self.now.state.phase }
    {
        self.phase
    }

    /// The stamp up to which it keeps no record.
    pub fn fence(&self) -> u64
        ensures { result ≡ self.now.state.fence }
    {
        self.cells.fence()
    }

    /// How many disks it lost.
    pub fn losses(&self) -> u64
        ensures { result ≡ self.now.state.losses }
    {
        self.losses
    }

    /// How many keys hold records, each in a pair of cells of its own.
    pub fn keys_held(&self) -> u32
        ensures { result ≡ maps.len self.now.state.held }
    {
        match self.phase {
            Phase::Lost => 0,
            Phase::Up | Phase::Down => self.cells.geometry().cells - self.index.free_cells() as u32,
        }
    }

    /// How many disks it lost, where it is lost.
    pub fn probe(&self) -> Option<u64>
        ensures { IsNodeAnswer self.now.geometry.cells self.now.state NodeAsk.Probe (NodeAnswer.Probe result) }
    {
        match self.phase {
            Phase::Lost => Some(self.losses),
            Phase::Up | Phase::Down => None,
        }
    }

    /// Makes an up node down, and answers whether it was up.
    pub fn stop(&mut self) -> bool
        ensures answer { IsNodeAnswer self.old.geometry.cells self.old.state NodeAsk.Stop (NodeAnswer.Stop result) }
        ensures after { self.new ≡ record self.old { state = after_answer NodeAsk.Stop (NodeAnswer.Stop result) self.old.state } }
    {
        match self.phase {
            Phase::Up => {
                self.phase = Phase::Down;
                true
            }
            Phase::Down | Phase::Lost => false,
        }
    }

    /// Loses the disk, and answers how many disks were lost by now. It answers None, and changes
    /// nothing, where the node is lost already or the count cannot rise.
    pub fn lose(&mut self) -> Option<u64>
        ensures answer { IsNodeAnswer self.old.geometry.cells self.old.state NodeAsk.Lose (NodeAnswer.Lose result) }
        ensures after { self.new ≡ record self.old { state = after_answer NodeAsk.Lose (NodeAnswer.Lose result) self.old.state } }
    {
        match self.phase {
            Phase::Lost => None,
            Phase::Up | Phase::Down => {
                let losses = self.losses.checked_add(1)?;
                self.phase = Phase::Lost;
                self.losses = losses;
                self.undecided = None;
                Some(losses)
            }
        }
    }

    /// Loses what a loss of power may lose of the disk of a down node. `pick` says which image is left, in
    /// the disk's own way.
    pub fn crash(&mut self, pick: u64)
        requires down { self.old.state.phase ≡ Phase.Down }
        ensures state { self.new.state ≡ self.old.state }
        ensures geometry { self.new.geometry ≡ self.old.geometry }
        ensures by_pick { D.picks self.old.disk pick (D.text self.new.disk) }
        ensures left { IsTrue D.tells → D.image self.old.disk (D.text self.new.disk) }
        ensures only { Only (D.text self.new.disk) (D.image self.new.disk) }
        ensures meter { D.meter self.new.disk ≡ D.meter self.old.disk }
    {
        self.cells.crash(pick);
    }

    /// Arms the disk with `Some` passes, or disarms it with `None`.
    pub fn arm(&mut self, passes: Option<u64>)
        ensures state { self.new.state ≡ self.old.state }
        ensures geometry { self.new.geometry ≡ self.old.geometry }
        ensures text { D.text self.new.disk ≡ D.text self.old.disk }
        ensures within { Within (D.image self.old.disk) (D.image self.new.disk) }
        ensures kept { Within (D.image self.new.disk) (D.image self.old.disk) }
        ensures meter { D.meter self.new.disk ≡ (if D.has_fuse then armed passes (D.meter self.old.disk) else D.meter self.old.disk) }
    {
        self.cells.arm(passes);
    }

    /// The disk.
    pub fn into_disk(self) -> D
        ensures { result ≡ self.disk }
    {
        self.cells.into_disk()
    }
}
