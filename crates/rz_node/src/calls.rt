//! Any call of a node.
ghost use Rattle.std.specs.Prelude.{◌≡◌, ◌↔◌, ℕ, IsTrue, drop, length};
ghost use Rattle.mj_angles.specs.Layout.{max_bins_of};
ghost use Rattle.rz_disk.specs.Images.{Only, Within};
ghost use Rattle.rz_record.specs.Record.{IsValid};
ghost use Rattle.rz_cells_slots.specs.Held.{Records};
ghost use Rattle.rz_cells_slots.specs.Opening.{NotSize, Refuses, opening_calls};
ghost use Rattle.rz_cells_slots.specs.Shape.{disk_bytes};
ghost use Rattle.rz_cells_slots.specs.Stands.{StandsFor};
ghost use Rattle.rz_node_model.specs.Answers.{IsNodeAnswer};
ghost use Rattle.rz_node_model.specs.Afterwards.{after_answer};
ghost use Rattle.rz_node_model.specs.States.{opened};
ghost use Rattle.rz_node.specs.Calls.{Takes, FitsLayout, IsNoStart, IsReading, IsSettled, IsUnread, IsUnused, IfStart, CountsCall};
ghost use Rattle.rz_node.specs.DownDisk.{has_taken};
ghost use Rattle.rz_node.specs.Fetched.{IsFetchOf};
ghost use Rattle.rz_node.specs.HeldOnDisk.{IsHeldOnDisk};
ghost use Rattle.rz_node.specs.Leaves.{LeavesDisk};
ghost use Rattle.rz_node.specs.Opens.{IfStarted, IfUnopened, TookIs, UnlessStarted};

use crate::Node;
use mj_angles::Layout;
use rz_disk::Disk;
use rz_events::{Head, NodeAnswer, NodeAsk, OpenFault};
use std::alloc::Global;

/// Whether a head is that of a record of this layout.
fn is_head(layout: Layout, head: &Head) -> bool
    ensures { IsTrue result ↔ (IsValid head.now × (head.now.layout ≡ layout)) }
{
    head.layout == layout
        && head.bsize == layout.bsize()
        && head.stamp != 0
        && usize::from(head.position) < layout.safe()
        && head.base < head.stamp
        && head.length as usize <= layout.block_bytes()
}

/// Whether a head and so many bins are those of a record of this layout.
#[tactic(auto, unfolding(rz_record::specs::Record::bins_of))]
pub fn is_record(layout: Layout, head: &Head, bins: &[u64]) -> bool
    ensures { IsTrue result ↔ FitsLayout layout head.now bins.now }
{
    if !is_head(layout, head) {
        return false;
    }
    bins.len() == layout.bins_at(head.position)
}

/// Gives a call to a node. The bins are those of a record that is to be kept, or the room for those of
/// a record that is fetched.
pub fn answer_node<D: Disk>(
    alloc: Global,
    node: &mut Node<D>,
    ask: &NodeAsk,
    bins: &mut [u64],
) -> NodeAnswer
    requires { Takes node.old.geometry.layout ask.now bins.old }
    ensures answer { IsNodeAnswer node.old.geometry.cells node.old.state ask.now result }

    // What a start finds on a disk is said where the disk tells it.
    ensures after { IsTrue D.tells → node.new.state ≡ after_answer ask.now result node.old.state }
    ensures after_call { IsNoStart ask.now → node.new.state ≡ after_answer ask.now result node.old.state }
    ensures geometry { node.new.geometry ≡ node.old.geometry }

    // A record that is told is one of the layout, on any disk.
    ensures fetched { IsFetchOf node.old.geometry.layout result }

    // How a start leaves the state of a node on any disk.
    ensures started { IfStart result (λ a. IfStarted a (node.new.state ≡ opened node.old.state.losses node.new.state.fence node.new.state.held)) }
    ensures took { IfStart result (λ a. TookIs a (has_taken node.old.state.undecided node.new.state.held)) }
    ensures unstarted { IfStart result (λ a. UnlessStarted a (node.new.state ≡ node.old.state)) }

    // A disk that tells is refused by a failed device call alone, and any disk of a wrong size as such.
    ensures exact { IfStart result (λ a. IfUnopened a (λ cause. IsTrue D.tells → cause ≡ OpenFault.DiskFault)) }
    ensures size { IfStart result (λ a. IfUnopened a (λ cause. (have need : ℕ) → cause ≡ OpenFault.WrongSize have need → Refuses node.old.geometry (D.text node.old.disk) (OpenFault.WrongSize have need))) }
    ensures fits { IfStart result (λ a. IfUnopened a (λ cause. NotSize cause → length (D.text node.old.disk) ≡ disk_bytes node.old.geometry)) }

    // What is held after a start is what the text stands for.
    ensures stands { IfStart result (λ a. IfStarted a (IsTrue D.tells → (records : Records) × StandsFor node.new.geometry node.new.state.fence (D.text node.new.disk) records)) }
    ensures shows { IfStart result (λ a. IfStarted a (IsTrue D.tells → (records : Records) → StandsFor node.new.geometry node.new.state.fence (D.text node.new.disk) records → IsHeldOnDisk node.new.state.held records)) }

    // The caller's bins are written where a record was read, and not behind the most bins that one has.
    ensures unread { IsUnread result → bins.new ≡ bins.old }
    ensures rest { drop (max_bins_of node.old.geometry.layout) bins.new ≡ drop (max_bins_of node.old.geometry.layout) bins.old }

    // A call that does not need the disk, or that ends before it, leaves the disk as it is.
    ensures unused { IsUnused result → node.new.disk ≡ node.old.disk }

    // A fetch and a start change no text, and a start or a replacement that went well leaves one image.
    ensures text { IsReading result → D.text node.new.disk ≡ D.text node.old.disk }
    ensures within { IsReading result → Within (D.image node.old.disk) (D.image node.new.disk) }
    ensures settled { IsSettled result → Only (D.text node.new.disk) (D.image node.new.disk) }

    ensures counts { CountsCall (opening_calls node.old.geometry) result (D.meter node.old.disk) (D.meter node.new.disk) }
    ensures leaves { IsTrue D.tells → LeavesDisk node.old.geometry node.old.state ask.now result bins.old bins.new (D.text node.old.disk) (D.text node.new.disk) (D.image node.old.disk) (D.image node.new.disk) }
{
    match ask {
        NodeAsk::Keep(head) => NodeAnswer::Keep(node.keep(head, bins)),
        NodeAsk::Fetch { key, stamp, .. } => {
            NodeAnswer::Fetch(node.fetch_into(*key, *stamp, bins))
        }
        NodeAsk::Refill { fence, head } => NodeAnswer::Refill(node.refill(*fence, head, bins)),
        NodeAsk::Drop { fid } => NodeAnswer::Drop(node.drop_next(*fid)),
        NodeAsk::Probe => NodeAnswer::Probe(node.probe()),
        NodeAsk::Stop => NodeAnswer::Stop(node.stop()),
        NodeAsk::Start => NodeAnswer::Start(node.start(alloc)),
        NodeAsk::Lose => NodeAnswer::Lose(node.lose()),
        NodeAsk::Replace { loss, fence } => {
            NodeAnswer::Replace(node.replace(alloc, *loss, *fence))
        }
    }
}
