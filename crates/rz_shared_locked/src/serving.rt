//! A call of a node, and what it leaves of the node and of its disk.
ghost use Rattle.std.specs.Prelude.{◌≡◌, ℕ, IsTrue, List, None, drop};
ghost use Rattle.mj_angles.specs.Layout.{max_bins_of};
ghost use Rattle.rz_disk.specs.Meter.{armed};
ghost use Rattle.rz_events.specs.Volume.{Volume};
ghost use Rattle.rz_events.specs.declared.keys.Actor.{Actor as AnActor};
ghost use Rattle.rz_events.specs.declared.events.Event.{Event as AnEvent};
ghost use Rattle.rz_events.specs.declared.events.Word.TheVariants as word;
ghost use Rattle.rz_events.specs.declared.nodes.NodeAsk.TheVariants as ask;
ghost use Rattle.rz_events.specs.declared.nodes.NodeAnswer.TheVariants as answer;
ghost use Rattle.rz_node_model.specs.Answers.{IsNodeAnswer};
ghost use Rattle.rz_node_model.specs.Afterwards.{after_answer, after_start};
ghost use Rattle.rz_node_model.specs.NodeEvents.{node_event, start_event};
ghost use Rattle.rz_cells_slots.specs.Opening.{opening_calls};
ghost use Rattle.rz_node.specs.Opens.{Opens};
ghost use Rattle.rz_play.specs.Faults.{fuse_of};
ghost use Rattle.rz_play.specs.Lines.{noted};
ghost use Rattle.rz_node.specs.Calls.{Takes, IsUnread};
ghost use Rattle.rz_core.specs.History.{Facts, of_word};
ghost use Rattle.rz_core.specs.Tied.{IsOpening};
ghost use Rattle.rz_node_laws.specs.Records.{HandsRecord};
ghost use Rattle.rz_node_laws.specs.Images.{IsImaged};
ghost use Rattle.rz_shared_locked.specs.Counts.{GoesWith, rearmed};
ghost use Rattle.rz_shared_locked.specs.Picks.{pick_of};
ghost use Rattle.rz_shared_locked.specs.LockedNodes.{IsTrueRecord};

use rz_chronicle::{Naming, WordToken};
use rz_disk::Disk;
use rz_events::{NodeAnswer, NodeAsk, Phase, StartAnswer};
use rz_node::{Node, answer_node};
use std::alloc::Global;

/// Gives a call to a node, which has this number and whose word has this token. Before a start the disk
/// loses what a loss of power may lose, by `pick`, and `left` is what the node's events leave its fuse.
pub(crate) fn serve<D: Disk, J: Naming>(
    alloc: Global,
    word_token: &WordToken<J>,
    sid: u16,
    pick: u64,
    left: Option<u64>,
    node: &mut Node<D>,
    ask: &NodeAsk,
    bins: &mut [u64],
) -> NodeAnswer
    requires fuse { IsTrue D.has_fuse }
    requires takes { Takes node.old.geometry.layout ask.now bins.old }
    requires picked { pick ≡ pick_of (of_word (word.Node sid) word_token.now.log) }
    ensures answer { IsNodeAnswer node.old.geometry.cells node.old.state ask.now result }
    ensures geometry { node.new.geometry ≡ node.old.geometry }
    ensures after { IsTrue D.tells → node.new.state ≡ after_answer ask.now result node.old.state }
    ensures opening { IsTrue D.tells → IsOpening result }

    // A node that is down crashes by the pick of the last arming before it starts.
    ensures crashed { ask.now ≡ NodeAsk.Start → node.old.state.phase ≡ Phase.Down → D.picks node.old.disk (pick_of (of_word (word.Node sid) word_token.now.log)) (D.text node.new.disk) }

    ensures imaged { IsTrue D.tells → (v : Volume) (f : Facts) (n : ℕ) → HandsRecord v f n ask.now bins.old → IsImaged v f n node.old.state node.old.geometry (D.image node.old.disk) → IsImaged v f n node.new.state node.new.geometry (D.image node.new.disk) }
    ensures read { IsTrue D.tells → (v : Volume) (f : Facts) (n : ℕ) → IsImaged v f n node.old.state node.old.geometry (D.image node.old.disk) → IsTrueRecord v f n ask.now result bins.old bins.new }
    ensures unread { IsUnread result → bins.new ≡ bins.old }
    ensures rest { drop (max_bins_of node.old.geometry.layout) bins.new ≡ drop (max_bins_of node.old.geometry.layout) bins.old }
    ensures counts { (first n : ℕ) (w : List AnEvent) (by : AnActor) → left ≡ fuse_of w → GoesWith D.meter first w node.old → GoesWith D.meter first (noted (node_event by n ask.now result) w) node.new }
{
    let _ = word_token;
    let _ = sid;
    if matches!(ask, NodeAsk::Start) {
        return NodeAnswer::Start(start(alloc, pick, left, node));
    }
    rz_node_laws::called::<D>();
    rz_node_laws::fetched::<D>();
    rz_node_laws::faults();
    answer_node(alloc, node, ask, bins)
}

/// Starts a node. One that is down first loses what a loss of power may lose of its disk, which is then
/// disarmed. Where memory is wanting that has no event, and so the disk is armed again with what is left.
fn start<D: Disk>(alloc: Global, pick: u64, left: Option<u64>, node: &mut Node<D>) -> StartAnswer
    requires fuse { IsTrue D.has_fuse }
    ensures answer { IsNodeAnswer node.old.geometry.cells node.old.state ask.Start (answer.Start result) }
    ensures geometry { node.new.geometry ≡ node.old.geometry }
    ensures crashed { node.old.state.phase ≡ Phase.Down → D.picks node.old.disk pick (D.text node.new.disk) }
    ensures after { IsTrue D.tells → node.new.state ≡ after_answer ask.Start (answer.Start result) node.old.state }
    ensures exact { IsTrue D.tells → IsOpening (answer.Start result) }
    ensures imaged { IsTrue D.tells → (v : Volume) (f : Facts) (n : ℕ) → IsImaged v f n node.old.state node.old.geometry (D.image node.old.disk) → IsImaged v f n node.new.state node.new.geometry (D.image node.new.disk) }
    ensures counts { (first n : ℕ) (w : List AnEvent) → left ≡ fuse_of w → GoesWith D.meter first w node.old → GoesWith D.meter first (noted (start_event n result) w) node.new }
{
    if node.phase() != Phase::Down {
        return StartAnswer::NotDown;
    }
    rz_node_laws::started();
    lose_power(pick, node);
    let answer = open_disk(alloc, node);
    rearm(left, &answer, node);
    answer
}

/// A node that is down loses what a loss of power may lose of its disk, which is then disarmed.
fn lose_power<D: Disk>(pick: u64, node: &mut Node<D>)
    requires down { node.old.state.phase ≡ Phase.Down }
    requires fuse { IsTrue D.has_fuse }
    ensures state { node.new.state ≡ node.old.state }
    ensures geometry { node.new.geometry ≡ node.old.geometry }
    ensures crashed { D.picks node.old.disk pick (D.text node.new.disk) }
    ensures meter { D.meter node.new.disk ≡ armed None (D.meter node.old.disk) }
    ensures imaged { IsTrue D.tells → (v : Volume) (f : Facts) (n : ℕ) → IsImaged v f n node.old.state node.old.geometry (D.image node.old.disk) → IsImaged v f n node.new.state node.new.geometry (D.image node.new.disk) }
{
    rz_node_laws::crashed::<D>();
    rz_node_laws::fewer::<D>();
    node.crash(pick);
    node.arm(None);
}

/// Opens the disk of a node that is down.
fn open_disk<D: Disk>(alloc: Global, node: &mut Node<D>) -> StartAnswer
    ensures answer { IsNodeAnswer node.old.geometry.cells node.old.state ask.Start (answer.Start result) }
    ensures geometry { node.new.geometry ≡ node.old.geometry }
    ensures text { D.text node.new.disk ≡ D.text node.old.disk }
    ensures after { IsTrue D.tells → node.new.state ≡ after_answer ask.Start (answer.Start result) node.old.state }
    ensures phase { node.new.state.phase ≡ (after_start result node.old.state).phase }
    ensures exact { IsTrue D.tells → IsOpening (answer.Start result) }
    ensures opens { Opens (opening_calls node.old.geometry) result (D.meter node.old.disk) (D.meter node.new.disk) }
    ensures imaged { IsTrue D.tells → (v : Volume) (f : Facts) (n : ℕ) → IsImaged v f n node.old.state node.old.geometry (D.image node.old.disk) → IsImaged v f n node.new.state node.new.geometry (D.image node.new.disk) }
{
    rz_node_laws::called::<D>();
    node.start(alloc)
}

/// After a start that wanted memory the disk is armed with what is left.
fn rearm<D: Disk>(left: Option<u64>, answer: &StartAnswer, node: &mut Node<D>)
    requires fuse { IsTrue D.has_fuse }
    ensures state { node.new.state ≡ node.old.state }
    ensures geometry { node.new.geometry ≡ node.old.geometry }
    ensures text { D.text node.new.disk ≡ D.text node.old.disk }
    ensures meter { D.meter node.new.disk ≡ rearmed answer.now left (D.meter node.old.disk) }
    ensures imaged { IsTrue D.tells → (v : Volume) (f : Facts) (n : ℕ) → IsImaged v f n node.old.state node.old.geometry (D.image node.old.disk) → IsImaged v f n node.new.state node.new.geometry (D.image node.new.disk) }
{
    rz_node_laws::fewer::<D>();
    match answer {
        StartAnswer::NoMemory => node.arm(left),
        StartAnswer::Started { .. } | StartAnswer::NotDown | StartAnswer::Unopened(_) => {}
    }
}
