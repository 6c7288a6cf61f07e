//! Opening a disk: for a new node, or again for one that is down.
ghost use Rattle.std.specs.Prelude.{◌≡◌, ◌⊎◌, ℕ, List, length, Option, IsTrue, IfOk, IfErr, MatchResult};
ghost use Rattle.rz_disk.specs.Images.{Only, Within};
ghost use Rattle.rz_cells_slots.specs.Counted.{CountedWhere};
ghost use Rattle.rz_cells_slots.specs.Held.{Records};
ghost use Rattle.rz_cells_slots.specs.Opening.{NotSize, Refuses, opening_calls};
ghost use Rattle.rz_cells_slots.specs.Shape.{IsGeometry, disk_bytes};
ghost use Rattle.rz_cells_slots.specs.Stands.{StandsFor};
ghost use Rattle.rz_node_model.specs.Afterwards.{after_answer};
ghost use Rattle.rz_node_model.specs.Answers.{IsNodeAnswer};
ghost use Rattle.rz_node_model.specs.Records.{held_of, stamp_of};
ghost use Rattle.rz_node_model.specs.States.{opened};
ghost use Rattle.rz_node_model.specs.Versions.{has_stamp};
ghost use Rattle.rz_events.specs.declared.records.Head.{Head};
ghost use Rattle.rz_node.specs.Change.{IsBranch};
ghost use Rattle.rz_node.specs.Kept.{IsTied, held_by};
ghost use Rattle.rz_node.specs.Opens.{IfStarted, IfTook, UnlessStarted, IfUnopened, TookIs, Opens};
ghost use Rattle.rz_node.specs.HeldOnDisk.{IsHeldOnDisk};
ghost use Rattle.rz_node.specs.DownDisk.{has_taken};

use crate::Node;
use crate::rows::Rows;
use rz_cells::{Cells, Geometry};
use rz_disk::Disk;
use rz_events::{Key, NodeAnswer, NodeAsk, OpenFault, Phase, StartAnswer};
use rz_index::Index;
use rz_node_model::Pending;
use std::alloc::Global;

impl<D: Disk> Node<D> {
    /// Opens a disk that was formatted with this geometry, as a node that lost so many disks.
    ///
    /// All memory is taken before the disk is looked at.
    pub fn reopen(
        alloc: Global,
        geometry: Geometry,
        losses: u64,
        disk: D,
    ) -> Result<Node<D>, (D, OpenFault)>
        requires { IsGeometry geometry }
        ensures state { IfOk result (λ n. n.state ≡ opened losses n.state.fence n.state.held) }
        ensures geometry { IfOk result (λ n. n.geometry ≡ geometry) }

        // The text stands for some records, and what is held is what it stands for.
        ensures stands { IfOk result (λ n. IsTrue D.tells → (records : Records) × StandsFor geometry n.state.fence (D.text n.disk) records) }
        ensures shows { IfOk result (λ n. IsTrue D.tells → (records : Records) → StandsFor geometry n.state.fence (D.text n.disk) records → IsHeldOnDisk n.state.held records) }
        ensures settled { IfOk result (λ n. Only (D.text n.disk) (D.image n.disk)) }

        // No disk of another size opens, whether it tells what it holds or not.
        ensures sized { IfOk result (λ n. length (D.text disk) ≡ disk_bytes geometry) }

        // Each fault is the first that the text has.
        ensures refused { IfErr result (λ e. IsTrue D.tells → Refuses geometry (D.text disk) e.1) }

        // A wrong size is refused as such also of a disk that does not tell what it holds.
        ensures size { IfErr result (λ e. (have need : ℕ) → e.1 ≡ OpenFault.WrongSize have need → Refuses geometry (D.text disk) (OpenFault.WrongSize have need)) }
        ensures fits { IfErr result (λ e. NotSize e.1 → length (D.text disk) ≡ disk_bytes geometry) }

        // A text that stands for records is refused by want of memory or a failed device call alone.
        ensures exact { IfErr result (λ e. IsTrue D.tells → (fence : ℕ) (held : Records) → StandsFor geometry fence (D.text disk) held → (e.1 ≡ OpenFault.NoMemory) ⊎ (e.1 ≡ OpenFault.DiskFault)) }

        // The disk stays as it is.
        ensures text { MatchResult result (λ n. D.text n.disk ≡ D.text disk) (λ e. D.text e.0 ≡ D.text disk) }
        ensures crash { MatchResult result (λ n. Within (D.image disk) (D.image n.disk)) (λ e. Within (D.image disk) (D.image e.0)) }

        // It takes so many passes where it opens, and none for want of memory or a wrong size.
        ensures meter { MatchResult result (λ n. CountedWhere (opening_calls geometry) result ⊥ (D.meter disk) (D.meter n.disk))
            (λ e. CountedWhere (opening_calls geometry) result (e.1 ≡ OpenFault.DiskFault) (D.meter disk) (D.meter e.0)) }
        ensures no_memory { IfErr result (λ e. e.1 ≡ OpenFault.NoMemory → e.0 ≡ disk) }
        ensures wrong_size { IfErr result (λ e. (have need : ℕ) → e.1 ≡ OpenFault.WrongSize have need → e.0 ≡ disk) }
    {
        let Ok(rows) = Rows::with_room(alloc, geometry.cells) else {
            return Err((disk, OpenFault::NoMemory));
        };
        match Cells::reopen(alloc, geometry, disk) {
            Ok(cells) => {
                let index = rows.index_of(&cells);
                Ok(Node {
                    phase: Phase::Up,
                    losses,
                    undecided: None,
                    cells,
                    index,
                })
            }
            Err(fault) => Err(fault),
        }
    }

    /// Opens the disk of a down node again, and answers whether the disk has a change that was left
    /// undecided.
    ///
    /// All memory is taken before the disk is looked at. After any other answer than that it started
    /// the node is as before.
    pub fn start(&mut self, alloc: Global) -> StartAnswer
        ensures answer { IsNodeAnswer self.old.geometry.cells self.old.state NodeAsk.Start (NodeAnswer.Start result) }
        ensures after { IsTrue D.tells → self.new.state ≡ after_answer NodeAsk.Start (NodeAnswer.Start result) self.old.state }

        // Also where the disk does not tell what it holds.
        ensures started { IfStarted result (self.new.state ≡ opened self.old.state.losses self.new.state.fence self.new.state.held) }
        ensures took { TookIs result (has_taken self.old.state.undecided self.new.state.held) }
        ensures unstarted { UnlessStarted result (self.new.state ≡ self.old.state) }

        // A disk that tells is refused by a failed device call alone.
        ensures exact { IfUnopened result (λ cause. IsTrue D.tells → cause ≡ OpenFault.DiskFault) }

        // A wrong size is refused as such also of a disk that does not tell what it holds.
        ensures size { IfUnopened result (λ cause. (have need : ℕ) → cause ≡ OpenFault.WrongSize have need → Refuses self.old.geometry (D.text self.old.disk) (OpenFault.WrongSize have need)) }
        ensures fits { IfUnopened result (λ cause. NotSize cause → length (D.text self.old.disk) ≡ disk_bytes self.old.geometry) }

        // The answer tells which records the text stands for where a change was left undecided.
        ensures branch { IfTook result (λ took. IsTrue D.tells → IsBranch self.old.geometry self.old.state.fence (D.text self.new.disk) self.old.state.undecided self.old.state.held took) }

        // What is held is what the text stands for.
        ensures stands { IfStarted result (IsTrue D.tells → (records : Records) × StandsFor self.new.geometry self.new.state.fence (D.text self.new.disk) records) }
        ensures shows { IfStarted result (IsTrue D.tells → (records : Records) → StandsFor self.new.geometry self.new.state.fence (D.text self.new.disk) records → IsHeldOnDisk self.new.state.held records) }
        ensures settled { IfStarted result (Only (D.text self.new.disk) (D.image self.new.disk)) }

        // The disk stays as it is.
        ensures text { D.text self.new.disk ≡ D.text self.old.disk }
        ensures within { Within (D.image self.old.disk) (D.image self.new.disk) }
        ensures geometry { self.new.geometry ≡ self.old.geometry }
        ensures opens { Opens (opening_calls self.old.geometry) result (D.meter self.old.disk) (D.meter self.new.disk) }

        // It is not looked at where the node is not down, memory is wanting or its size is wrong.
        ensures not_down { result ≡ StartAnswer.NotDown → self.new ≡ self.old }
        ensures no_memory { result ≡ StartAnswer.NoMemory → self.new ≡ self.old }
        ensures wrong_size { IfUnopened result (λ cause. (have need : ℕ) → cause ≡ OpenFault.WrongSize have need → self.new ≡ self.old) }
    {
        match self.phase {
            Phase::Up | Phase::Lost => return StartAnswer::NotDown,
            Phase::Down => {}
        }
        let Ok(rows) = Rows::with_room(alloc, self.cells.geometry().cells) else {
            return StartAnswer::NoMemory;
        };
        match self.cells.open_again(alloc) {
            Ok(()) => {
                self.index = rows.index_of(&self.cells);
                let took = has_taken(&self.index, self.undecided);
                self.phase = Phase::Up;
                self.undecided = None;
                StartAnswer::Started { took }
            }
            Err(cause) => match cause {
                OpenFault::NoMemory => StartAnswer::NoMemory,
                _ => StartAnswer::Unopened(cause),
            },
        }
    }
}

/// Whether an index has a change that was left undecided, if any.
fn has_taken(index: &Index, undecided: Option<Pending>) -> bool
    ensures { (pairs : ℕ) (heads : List (Option Head)) → IsTied pairs heads index.now → result ≡ has_taken undecided (held_by index.now.entries heads) }
{
    match undecided {
        None => false,
        Some(Pending::Keep { key, record } | Pending::Refill { key, record }) => {
            holds(index, key, record.stamp)
        }
        Some(Pending::Drop { key, stamp }) => !holds(index, key, stamp),
    }
}

/// Whether an index has a version of a key with this stamp.
fn holds(index: &Index, key: Key, stamp: u64) -> bool
    ensures { (pairs : ℕ) (heads : List (Option Head)) → IsTied pairs heads index.now → result ≡ has_stamp stamp_of stamp (held_of (held_by index.now.entries heads) key) }
{
    match index.find(key) {
        Some(entry) => entry.versions.side_of(stamp).is_some(),
        None => false,
    }
}
