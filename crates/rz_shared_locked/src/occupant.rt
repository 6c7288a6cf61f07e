//! Who stands behind the lock of a node.
ghost use Rattle.std.specs.Prelude.{◌≡◌, ◌∷◌, ℕ, IsTrue, List, drop};
ghost use Rattle.mj_angles.specs.Layout.{max_bins_of};
ghost use Rattle.rz_events.specs.declared.keys.Actor.{Actor as AnActor};
ghost use Rattle.rz_events.specs.declared.events.Event.{Event as AnEvent};
ghost use Rattle.rz_events.specs.declared.events.Event.TheVariants as e;
ghost use Rattle.rz_events.specs.declared.events.Word.TheVariants as word;
ghost use Rattle.rz_node_model.specs.States.{NodeState};
ghost use Rattle.rz_node_model.specs.Answers.{IsNodeAnswer};
ghost use Rattle.rz_node_model.specs.Afterwards.{after_answer};
ghost use Rattle.rz_node_model.specs.NodeEvents.{node_event};
ghost use Rattle.rz_node.specs.Calls.{Takes, IsUnread};
ghost use Rattle.rz_play.specs.Faults.{fuse_of};
ghost use Rattle.rz_play.specs.Lines.{noted};
ghost use Rattle.rz_core.specs.History.{Facts, of_word};
ghost use Rattle.rz_core.specs.NodeRows.{cells_of};
ghost use Rattle.rz_core.specs.Tied.{IsOpening};
ghost use Rattle.rz_node_laws.specs.Records.{HandsRecord};
ghost use Rattle.rz_node_laws.specs.Images.{geometry_in};
ghost use Rattle.rz_chronicle.specs.Kinds.{volume_in};
ghost use Rattle.rz_shared_locked.specs.Picks.{pick_of};
ghost use Rattle.rz_shared_locked.specs.LockedNodes.{IsTrueRecord};
ghost use Rattle.rz_shared_locked.specs.Occupants.{IsIn, IsLaidOut, AreImaged, CountsHere, disk_of};

use crate::away::Away;
use crate::serving::serve;
use rz_chronicle::{Naming, WordToken};
use rz_disk::Disk;
use rz_events::{NodeAnswer, NodeAsk};
use rz_node::Node;
use std::alloc::Global;

/// A node on its disk, or what is known of one whose disk is away.
#[derive(Drop)]
pub(crate) enum Occupant<D: Disk> {
    Here(Node<D>),
    Away(Away),
}

impl<D: Disk> Occupant<D> {
    /// What of the node is known also without its disk.
    pub(crate) fn known(&self) -> Away
        ensures { (s : NodeState) → IsIn self.now s → (s.phase ≡ result.phase) × (s.fence ≡ result.fence) × (s.losses ≡ result.losses) }
    {
        match self {
            Occupant::Here(node) => Away {
                phase: node.phase(),
                fence: node.fence(),
                losses: node.losses(),
            },
            Occupant::Away(away) => *away,
        }
    }
}

/// Gives a call to who stands behind the lock of the node with this number, whose word has this token.
/// Before a start the disk loses what a loss of power may lose, by `pick`, and `left` is what the node's
/// events leave its fuse.
pub(crate) fn serve_any<D: Disk, J: Naming>(
    alloc: Global,
    word_token: &WordToken<J>,
    sid: u16,
    pick: u64,
    left: Option<u64>,
    who: &mut Occupant<D>,
    ask: &NodeAsk,
    bins: &mut [u64],
) -> NodeAnswer
    requires fuse { IsTrue D.has_fuse }
    requires laid_out { IsLaidOut (geometry_in (volume_in J.kind) sid) who.old }
    requires takes { Takes (volume_in J.kind).layout ask.now bins.old }
    requires picked { pick ≡ pick_of (of_word (word.Node sid) word_token.now.log) }
    ensures answer { (s : NodeState) → IsIn who.old s → IsNodeAnswer (cells_of (volume_in J.kind) sid) s ask.now result }
    ensures laid_out { IsLaidOut (geometry_in (volume_in J.kind) sid) who.new }
    ensures after { IsTrue D.tells → (s : NodeState) → IsIn who.old s → IsIn who.new (after_answer ask.now result s) }

    // Also where the disk does not tell what it holds, someone is in some state.
    ensures some { (s : NodeState) → IsIn who.old s → (t : NodeState) × IsIn who.new t }

    ensures opening { IsTrue D.tells → IsOpening result }
    ensures imaged { IsTrue D.tells → (f : Facts) → HandsRecord (volume_in J.kind) f sid ask.now bins.old → AreImaged D.image (volume_in J.kind) f sid who.old → AreImaged D.image (volume_in J.kind) f sid who.new }
    ensures read { IsTrue D.tells → (f : Facts) → AreImaged D.image (volume_in J.kind) f sid who.old → IsTrueRecord (volume_in J.kind) f sid ask.now result bins.old bins.new }
    ensures unread { IsUnread result → bins.new ≡ bins.old }
    ensures rest { drop (max_bins_of (volume_in J.kind).layout) bins.new ≡ drop (max_bins_of (volume_in J.kind).layout) bins.old }
    ensures counts { (first : ℕ) (w : List AnEvent) (by : AnActor) → left ≡ fuse_of w → CountsHere D.meter first w who.old → CountsHere D.meter first (noted (node_event by sid ask.now result) w) who.new }
{
    match who {
        Occupant::Here(node) => serve(alloc, word_token, sid, pick, left, node, ask, bins),
        Occupant::Away(away) => away.answer(ask),
    }
}

/// The disk of who stands behind the lock of the node with this number, if it is here.
pub(crate) fn disk_of<D: Disk>(who: Occupant<D>) -> Option<D>
    ensures { result ≡ disk_of who }
{
    match who {
        Occupant::Here(node) => Some(node.into_disk()),
        Occupant::Away(_) => None,
    }
}

/// Arms the disk with so many passes, where it is here.
pub(crate) fn arm_any<D: Disk, J: Naming>(
    word_token: &WordToken<J>,
    sid: u16,
    who: &mut Occupant<D>,
    passes: u64,
)
    requires fuse { IsTrue D.has_fuse }
    requires laid_out { IsLaidOut (geometry_in (volume_in J.kind) sid) who.old }
    ensures laid_out { IsLaidOut (geometry_in (volume_in J.kind) sid) who.new }
    ensures state { (s : NodeState) → IsIn who.old s → IsIn who.new s }
    ensures imaged { (f : Facts) → AreImaged D.image (volume_in J.kind) f sid who.old → AreImaged D.image (volume_in J.kind) f sid who.new }
    ensures counts { (first pick : ℕ) (w : List AnEvent) → CountsHere D.meter first w who.old → CountsHere D.meter first (e.Armed sid passes pick ∷ w) who.new }
{
    let _ = word_token;
    let _ = sid;
    rz_node_laws::fewer::<D>();
    rz_node_laws::armed();
    match who {
        Occupant::Here(node) => node.arm(Some(passes)),
        Occupant::Away(_) => {}
    }
}
