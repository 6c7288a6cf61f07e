//! Laws of the log for whoever stands above it: the driver of a script, threads that act beside one
//! another, and a run that goes on after an earlier one.
//!
//! `Beside` says what stays true when only others act, and what the administrator may do; `Calls`
//! which calls the export can answer; `Losses` which losses of a node the export knows; `Places` where
//! files lie; `Changes` which events change the export. Each law holds of the log of any number of
//! runs, and is a function here whose contract is the law.
#![tactic(auto)]

ghost use Rattle.rz_events.specs.Volume.{Volume};
ghost use Rattle.rz_log_laws.specs.Beside.{IsArming, IsAskKept, IsBeginning, IsCallKept, IsExportKept, IsNodeKept, IsStarting, IsStopping};
ghost use Rattle.rz_log_laws.specs.Calls.{IsUsable};
ghost use Rattle.rz_log_laws.specs.Changes.{AreDeciding, IsBuilt};
ghost use Rattle.rz_log_laws.specs.Losses.{AreLossesEnrolled, AreLossesKnown};
ghost use Rattle.rz_log_laws.specs.Places.{AreLaid};

/// A node on a formatted disk and a new export are those of the empty log.
pub fn beginning()
    ensures { (v : Volume) → IsBeginning v }
{}

/// A node's state that is the log's stays so while the node's word has no event more.
pub fn node_kept()
    ensures { (v : Volume) → IsNodeKept v }
{}

/// The export's state that is the log's stays so while the export's word has no event more.
pub fn export_kept()
    ensures { (v : Volume) → IsExportKept v }
{}

/// What makes a call of a node proper stays while the actor has no event more.
pub fn ask_kept()
    ensures { (v : Volume) → IsAskKept v }
{}

/// What makes a call of the export proper stays while the actor has no event more.
pub fn call_kept()
    ensures { (v : Volume) → IsCallKept v }
{}

/// A node's fuse may be armed at any time, and its state stays that of the log.
pub fn arming()
    ensures { (v : Volume) → IsArming v }
{}

/// After a legal log each node that is up may be stopped.
pub fn stopping()
    ensures { (v : Volume) → IsStopping v }
{}

/// After a legal log each node that is down may be started.
pub fn starting()
    ensures { (v : Volume) → IsStarting v }
{}

/// A call that an actor may make by its own events is one that the export can answer.
pub fn usable()
    ensures { (v : Volume) → IsUsable v }
{}

/// A node that is not lost has lost as many disks as its last enrolment says, or none.
pub fn losses_enrolled()
    ensures { (v : Volume) → AreLossesEnrolled v }
{}

/// The export's state knows the loss of each node's last enrolment.
pub fn losses_known()
    ensures { (v : Volume) → AreLossesKnown v }
{}

/// A file that was made lies on distinct nodes of one cluster, one for each position of the layout.
pub fn laid()
    ensures { (v : Volume) → AreLaid v }
{}

/// Calls that only ask, refused calls, denials, looks and listings leave the export as it is.
pub fn deciding()
    ensures { (v : Volume) → AreDeciding v }
{}

/// A new export that answers the calls that changed the log's export comes to its state.
pub fn built()
    ensures { (v : Volume) → IsBuilt v }
{}
