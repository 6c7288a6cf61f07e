//! From the disks that earlier runs left to the log in which a store goes on.
ghost use Rattle.rz_store_opening.specs.Opened.{IsOpenedLaw, IsReadyLaw};
ghost use Rattle.rz_store_opening.specs.Opening.{AreHandedBack, IsReopeningLaw};

use rz_disk::Disk;

/// A node that was opened on a disk whose text stands for what a log says of it is one that was opened after
/// that log.
pub fn opened<D: Disk>()
    ensures { IsOpenedLaw D.tells D.meter D.text D.image }
{}

/// A node that was opened on a disk which earlier runs left may go behind its lock, in a book that goes on
/// after their log with the nodes stopped and those started whose disks are here.
pub fn ready<D: Disk>()
    ensures { IsReadyLaw D.tells D.meter D.text D.image }
{
    rz_restart_laws::found::<D>();
}

/// The nodes that were opened, each on a disk under the fence that the export knows, and the export are those
/// of the log in which the store goes on; and each other node is down in it, as the export knows it.
pub fn reopening<D: Disk>()
    ensures { IsReopeningLaw D.tells D.meter D.text D.image }
{
    rz_restart_laws::replacing();
    rz_restart_laws::returning();
    rz_restart_laws::goes_on_without();
    rz_restart_laws::fences_given();
    rz_restart_laws::fences_known();
    rz_restart_laws::stale_told();
    rz_restart_laws::exported();
    rz_log_laws::losses_enrolled();
    rz_log_laws::losses_known();
}

/// What was opened goes back: each disk in its place, as it came.
pub fn handed_back<D: Disk>()
    ensures { AreHandedBack D.tells D.meter D.text D.image }
{}
