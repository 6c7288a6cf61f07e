//! Laws without code: when a replay that goes on after earlier runs comes to its end, and what a scrub finds.

ghost use Rattle.rz_replay.specs.Clear.{ResumeCompletes};
ghost use Rattle.rz_replay.specs.Untouched.{IsUntouchedLaw};

use rz_disk::Disk;

/// Over disks that tell their texts, as earlier runs left them, it comes to its end where all disks open, no
/// turn too many is called for, the journal's disk neither fails nor is full, and neither the source nor the
/// sink fails. Want of memory is the one other answer.
pub fn completes_again<D: Disk>()
    ensures { ResumeCompletes ⟦<D as Disk>⟧ }
{
    rz_report::completes_again();
}

/// Between two turns, over disks that tell their texts, what the nodes of a published block tell of its
/// record, and give of it, are the projections of one block: of the text with which the write of the
/// published stamp began. So no line of a scrub then says that a record is altered.
pub fn untouched<D: Disk>()
    ensures { IsUntouchedLaw ⟦<D as Disk>⟧ }
{
    rz_log_laws::laid();
    rz_node_laws::fetched::<D>();
}
