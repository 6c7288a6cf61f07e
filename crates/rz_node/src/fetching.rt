//! Fetching a record.
ghost use Rattle.std.specs.Prelude.{◌≡◌, ◌≢◌, ◌≤◌, ℕ, Some, None, true, IsTrue, IfSome, is_some, length, drop};
ghost use Rattle.std.specs.Option.{option_map};
ghost use Rattle.mj_angles.specs.Layout.{max_bins_of};
ghost use Rattle.rz_disk.specs.Images.{Within};
ghost use Rattle.rz_client_model.specs.Read.{IsFetched};
ghost use Rattle.rz_node_model.specs.Answers.{IsNodeAnswer};
ghost use Rattle.rz_node_model.specs.Afterwards.{after_answer};
ghost use Rattle.rz_node_model.specs.Records.{record_of, held_of, found};
ghost use Rattle.rz_node.specs.Fetched.{IsFetchedFromDisk, IfHeld};
ghost use Rattle.rz_node.specs.Kept.{IsTied, IsThere, held_by};
ghost use Rattle.rz_node.specs.Spends.{Spends, fetch_used};

use crate::Node;
use rz_cells::{Cells, DiskFault};
use rz_disk::Disk;
use rz_events::{FetchAnswer, Head, Held, Key, NodeAnswer, NodeAsk, Phase};
use rz_index::Index;

impl<D: Disk> Node<D> {
    /// Whether it holds the record of a key with this stamp. A node that is down holds what it held.
    pub fn holds(&self, key: Key, stamp: u64) -> bool
        ensures { result ≡ is_some (found stamp (held_of self.now.state.held key)) }
    {
        match self.phase {
            Phase::Lost => false,
            Phase::Up | Phase::Down => { record_at(&self.index, &self.cells, key, stamp).is_some() }
        }
    }

    /// Reads the bins of the record of a key with this stamp into the front of `out`.
    pub fn fetch_into(&mut self, key: Key, stamp: u64, out: &mut [u64]) -> FetchAnswer
        requires room { max_bins_of self.old.geometry.layout ≤ length out.old }
        ensures answer { (position : ℕ) → IsNodeAnswer self.old.geometry.cells self.old.state (NodeAsk.Fetch key position stamp) (NodeAnswer.Fetch result) }
        ensures after { (position : ℕ) → self.new.state ≡ after_answer (NodeAsk.Fetch key position stamp) (NodeAnswer.Fetch result) self.old.state }

        // What is told of a record is what one of the layout may have, on any disk: a node keeps no other head.
        ensures fetched { IsFetched self.old.geometry.layout result }
        ensures bins { IfHeld result (λ told. IsTrue D.tells → IsFetchedFromDisk self.old.geometry self.old.state.fence (D.text self.old.disk) key told out.old out.new) }
        ensures unread { fetch_used result ≢ Some true → out.new ≡ out.old }

        // Behind the most bins that a record has nothing is written, also where the disk does not tell what it holds.
        ensures rest { drop (max_bins_of self.old.geometry.layout) out.new ≡ drop (max_bins_of self.old.geometry.layout) out.old }

        // The disk keeps what it holds, and is not used where nothing is read.
        ensures same { fetch_used result ≡ None → self.new ≡ self.old }
        ensures geometry { self.new.geometry ≡ self.old.geometry }
        ensures text { D.text self.new.disk ≡ D.text self.old.disk }
        ensures within { Within (D.image self.old.disk) (D.image self.new.disk) }
        ensures spends { Spends 1 (fetch_used result) (D.meter self.old.disk) (D.meter self.new.disk) }
    {
        match self.phase {
            Phase::Lost => return FetchAnswer::Lost,
            Phase::Down => return FetchAnswer::Down,
            Phase::Up => {}
        }
        let Some((cell, head)) = record_at(&self.index, &self.cells, key, stamp) else {
            return FetchAnswer::Nothing;
        };
        let count = head.layout.bins_at(head.position);
        match self.cells.bins_into(cell, &mut out[..count]) {
            Ok(_) => FetchAnswer::Held(Held {
                stamp: head.stamp,
                length: head.length,
                base: head.base,
            }),
            Err(DiskFault) => {
                self.phase = Phase::Down;
                self.undecided = None;
                FetchAnswer::DiskFault
            }
        }
    }
}

/// The cell of the record of a key with this stamp, and its head.
fn record_at<D: Disk>(index: &Index, cells: &Cells<D>, key: Key, stamp: u64) -> Option<(u32, Head)>
    requires { IsTied cells.now.geometry.cells cells.now.heads index.now }
    ensures found { option_map (λ p. record_of p.1) result ≡ found stamp (held_of (held_by index.now.entries cells.now.heads) key) }
    ensures there { IfSome result (λ p. IsThere cells.now.geometry.cells cells.now.heads key p.0 p.1) }
{
    let Some(entry) = index.find(key) else {
        return None;
    };
    let Some(side) = entry.versions.side_of(stamp) else {
        return None;
    };
    let pair = entry.cell;
    let cell = 2 * pair + u32::from(side);
    let Some(head) = cells.head(cell) else {
        unreachable!()
    };
    Some((cell, head))
}
