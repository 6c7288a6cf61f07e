//! How a run goes on after earlier ones: from the log that those left to the log in which its play
//! begins.
//!
//! Of the earlier log it is known that it is legal, that no node is lost after it, and what it left on
//! the disks. Then each node that is up is stopped, and each node is started. `Earlier` says what that
//! makes of the log; `Calls` has the calls that changed the export of a log, for which the journal's
//! disk stands; `Found` says that nodes and an export were opened on the disks which the log left; and
//! `Laws` what follows: the log with the stops and the starts is legal, nodes and export are those that
//! it gives, and a play may go on behind it. `Returns` has earlier logs after which nodes are lost or
//! disks are away, and `Fences` how a disk that a node lost is told from the one in its place.
//!
//! The functions have no code. What each one says is its clause.
#![tactic(auto)]

ghost use Rattle.rz_events.specs.Volume.{Volume, IsVolume};
ghost use Rattle.rz_restart_laws.specs.Fences.{AreFencesGiven, AreFencesKnown, AreStaleTold};
ghost use Rattle.rz_restart_laws.specs.Returns.{MayReplace, MayReturn, MayGoOnWithout};
ghost use Rattle.rz_restart_laws.specs.Laws.{MayRestart, IsFoundLaw, IsExportAgain, MayGoOn, IsSoundAfterwards, IsCallTold, IsNoCall};

use rz_disk::Disk;

/// After an earlier log the nodes that are up may be stopped, and all nodes started, each with its
/// undecided change, where it has one, or without.
pub fn restarting()
    ensures { (v : Volume) → IsVolume v → MayRestart v }
{}

/// After an earlier log each node that is lost may get the new disk that was enrolled for it. Then none
/// is lost.
pub fn replacing()
    ensures { (v : Volume) → IsVolume v → MayReplace v }
{}

/// After an earlier log the nodes that are up may be stopped, and those be started whose disks are here.
/// They are up then, and the others down.
pub fn returning()
    ensures { (v : Volume) → IsVolume v → MayReturn v }
{}

/// Nodes that were opened on the disks which are here, and an export that was opened, are those of the
/// earlier log with all nodes stopped and these nodes started.
pub fn goes_on_without()
    ensures { (v : Volume) → IsVolume v → MayGoOnWithout v }
{
    returning();
    exported();
    rz_log_laws::losses_enrolled();
    rz_log_laws::losses_known();
}

/// A node that is not lost has the fence that was given last for it.
pub fn fences_given()
    ensures { (v : Volume) → AreFencesGiven v }
{
    rz_log_laws::losses_enrolled();
}

/// The export knows that fence.
pub fn fences_known()
    ensures { (v : Volume) → AreFencesKnown v }
{
    rz_log_laws::losses_known();
}

/// A disk that a node lost is told from the one in its place: its fence is lower.
pub fn stale_told()
    ensures { (v : Volume) → AreStaleTold v }
{
    rz_log_laws::losses_enrolled();
}

/// A node that was opened on a disk which the log left: what a crash may leave of that disk is what the
/// node holds.
pub fn found<D: Disk>()
    ensures { IsFoundLaw D.image }
{}

/// A new export that answers the calls which changed the log's export comes to its state.
pub fn exported()
    ensures { (v : Volume) → IsExportAgain v }
{
    rz_log_laws::built();
}

/// Nodes and export that were opened on the disks which an earlier log left are those of that log with
/// the nodes stopped and started, and a play may go on behind it.
pub fn goes_on()
    ensures { (v : Volume) → IsVolume v → MayGoOn v }
{
    restarting();
    exported();
    rz_log_laws::beginning();
    rz_log_laws::losses_enrolled();
    rz_log_laws::losses_known();
}

/// The log of a play that went on so is legal behind the earlier log, and both together are sound.
pub fn afterwards()
    ensures { (v : Volume) → IsSoundAfterwards v }
{
    rz_play_laws::facts_told();
    rz_core::next_run();
    rz_safety::sound();
    rz_safety::answering();
    rz_safety::written();
    rz_safety::rebuilt();
}

/// The event of the export's reply to a call adds that call to those that changed the export, where it
/// changed it.
pub fn told()
    ensures { (v : Volume) → IsCallTold v }
{}

/// Events of other words add none.
pub fn untold()
    ensures { (v : Volume) → IsNoCall v }
{}
