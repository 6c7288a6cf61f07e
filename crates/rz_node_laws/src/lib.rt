//! What the log says of a node's disk: of its faults, and of what a crash may leave of it. Laws of each call.
//!
//! A node's word, which has its events, is beside the meter of the node's disk. `faults`, `armed` and
//! `started` say that the counts go together whatever the node answers: no more faults of a word are
//! unplanned than the disk counted beside those that its fuse planned, and where it counted none, no
//! event happened for which the fuse let too few passes happen.
//!
//! An image is what a crash may leave of a disk. `Images` says when the images of a node's disk are those
//! of its word: each stands for the node's fence and the records that it holds, and where a change is
//! undecided for these or for those with the change. `fresh`, `called`, `fewer`, `crashed` and `longer`
//! say that this lasts, by the state of the node: whatever the node is asked and answers, as long as each
//! record that it is handed is that of a write of the log. `logged` says it by the log where the state is
//! the log's.
//!
//! So a driver that keeps them beside each node, or a lock, says this of its whole log.
//!
//! `recorded` and `fetched` say which records are those of a write: the ones that a write hands out by its
//! own text, and the ones that nodes give back.
//!
//! What is said of images holds of disks that tell their text.
#![tactic(auto)]

ghost use Rattle.std.specs.Prelude.{IsTrue};
ghost use Rattle.rz_node_laws.specs.Metered.{IsFaultLaw, IsArmLaw, IsStartLaw, IsUnarmedLaw, IsCounted};
ghost use Rattle.rz_node_laws.specs.Laws.{IsFreshLaw, IsCallLaw, IsFewerLaw, IsCrashLaw, IsLongerLaw, IsLogLaw, IsWrittenLaw, IsFetchLaw};

use rz_disk::Disk;

/// A word and a meter go together after any call of a node but a start.
pub fn faults()
    ensures { IsFaultLaw }
{}

/// And after the node's disk was armed.
pub fn armed()
    ensures { IsArmLaw }
{}

/// And after a start, before which the disk was disarmed.
pub fn started()
    ensures { IsStartLaw }
{}

/// They go together at first, where the disk is not armed.
pub fn unarmed()
    ensures { IsUnarmedLaw }
{}

/// Where they go together, the faults of the word are counted.
pub fn counted()
    ensures { IsCounted }
{}

/// A disk of which each image stands for nothing, as one that was formatted, has the images of a new node.
pub fn fresh<D: Disk>()
    ensures { IsFreshLaw D.image }
{}

/// After any call the disk has the images of the node's new state.
pub fn called<D: Disk>()
    ensures { IsTrue D.tells → IsCallLaw D.text D.image }
{
    rz_node::change();
}

/// A disk that has no further images has those of its node.
pub fn fewer<D: Disk>()
    ensures { IsFewerLaw D.image }
{}

/// So has one after a loss of power.
pub fn crashed<D: Disk>()
    ensures { IsCrashLaw D.text D.image }
{}

/// The images of a node's disk stay its own while the log grows by events of others.
pub fn longer<D: Disk>()
    ensures { IsLongerLaw D.image }
{
    rz_core::permanent();
}

/// Where the state of the node is the one that its word gives, the images are those of its word.
pub fn logged<D: Disk>()
    ensures { IsLogLaw D.image }
{}

/// The head and the bins that a write makes of its text are those of its record.
pub fn recorded()
    ensures { IsWrittenLaw }
{}

/// A record that a node gives is that of the write with the stamp that was asked for.
pub fn fetched<D: Disk>()
    ensures { IsTrue D.tells → IsFetchLaw D.text D.image }
{}
