//! What an operation has in hand of a block: laws beside the log.
//!
//! While an operation reads a block, its machine has the records that nodes gave, and then the block that
//! fits them. `InHand` says when these are the records and the block of the write that is read.
//! `beginning`, `fetched`, `going` and `growing` say that this lasts, as long as the records that nodes
//! give are those of their writes; `fitting` that the records then never fit no block, and `taken` that
//! each answer is one that the machine takes, and `replied` the same of each reply of the export. `handing` says that each record that the machine hands to
//! a node, a writer's or a rebuilder's, is then that of its write. `message` has all of it for one message
//! to a node, with the images of the node's disk. `lasting`, `told` and `heard` say the same of an actor
//! and a log that grows.
//!
//! [`acting`] has what follows for an actor that works beside others: its operation is right from its first
//! turn on, what it asks is proper, and the text that it tells is that of the write.
//!
//! The functions have no code. What each one says is its clause, which is proved of every operation.
#![tactic(auto)]

ghost use Rattle.std.specs.Prelude.{IsTrue};
ghost use Rattle.rz_events.specs.Volume.{Volume, IsVolume};
ghost use Rattle.rz_block_laws.specs.Laws.{IsHandingLaw, IsFetchedLaw, IsGoingLaw, IsGrowingLaw, IsBeginningLaw, IsFittingLaw, IsTakenLaw, IsRepliedLaw, IsMessageLaw};
ghost use Rattle.rz_block_laws.specs.Turns.{IsLastingLaw, IsToldLaw, IsHeardLaw};

pub mod acting;

use rz_disk::Disk;

/// What an operation hands to a node is the record of its write.
pub fn handing()
    ensures { (v : Volume) → IsHandingLaw v }
{
    rz_node_laws::recorded();
}

/// A record that a node gave is that of the write which is read, and the records fit a block.
pub fn fetched()
    ensures { (v : Volume) → IsFetchedLaw v }
{
    rz_node_laws::recorded();
}

/// Whatever else an operation is told, what it has in hand stays true.
pub fn going()
    ensures { (v : Volume) → IsGoingLaw v }
{}

/// It stays true while the log grows.
pub fn growing()
    ensures { (v : Volume) → IsGrowingLaw v }
{}

/// It is true of an operation that begins.
pub fn beginning()
    ensures { (v : Volume) → IsBeginningLaw v }
{}

/// An operation never says that the records which came fit no block.
pub fn fitting()
    ensures { (v : Volume) → IsFittingLaw v }
{}

/// The machine of an operation takes each answer of a node.
pub fn taken()
    ensures { (v : Volume) → IsTakenLaw v }
{}

/// So does it take each reply of the export that a legal log has.
pub fn replied()
    ensures { (v : Volume) → IsVolume v → IsRepliedLaw v }
{
    rz_play_laws::facts_told();
}

/// A message of an operation to a node whose disk tells its text: the images of the disk stay the node's
/// own, and what the operation has in hand stays true.
pub fn message<D: Disk>()
    ensures { IsTrue D.tells → (v : Volume) → IsMessageLaw D.text D.image v }
{
    rz_node_laws::called::<D>();
    rz_node_laws::fetched::<D>();
    rz_play_laws::own_proper();
    handing();
    fetched();
    going();
}

/// What an operation has in hand stays true while others act.
pub fn lasting()
    ensures { (v : Volume) → IsLastingLaw v }
{
    rz_core::permanent();
    growing();
}

/// It is true after the operation was told anything but a record.
pub fn told()
    ensures { (v : Volume) → IsToldLaw v }
{
    rz_core::permanent();
    going();
    growing();
}

/// A message of an actor to a node whose disk tells its text: after the answer the images of the disk are
/// the node's own, the answer is one to what was asked, and what the operation that is told it has in hand
/// is true.
pub fn heard<D: Disk>()
    ensures { IsTrue D.tells → (v : Volume) → IsHeardLaw D.text D.image v }
{
    rz_core::permanent();
    rz_node_laws::fetched::<D>();
    rz_node_laws::longer::<D>();
    rz_play_laws::own_proper();
    taken();
    growing();
    message::<D>();
}
