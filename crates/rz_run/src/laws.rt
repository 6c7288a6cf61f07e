//! Laws without code: what the log of an honest book says is true, and when a run comes to its end.
ghost use Rattle.std.specs.Prelude.{List};
ghost use Rattle.rz_events.specs.Volume.{Volume as AVolume};
ghost use Rattle.rz_events.specs.declared.events.Event.{Event as AnEvent};
ghost use Rattle.rz_core.specs.Legal.{IsLegal};
ghost use Rattle.rz_run.specs.Clear.{RunCompletes};
ghost use Rattle.rz_run.specs.Done.{IsTrueLog};

use rz_disk::Disk;
use rz_link::Link;

/// A legal log is sound: what is proved of the logs of any number of runs holds of it.
pub(crate) fn true_logs()
    ensures { (v : AVolume) (h : List AnEvent) → IsLegal v h → IsTrueLog v h }
{
    rz_core::one_run();
    rz_safety::sound();
    rz_safety::answering();
    rz_safety::written();
    rz_safety::rebuilt();
}

/// A run that returns has come to its end where nothing stands in its way: the words and the source ask for
/// a script within the limits, there is a disk for each node, and neither the source, nor the sink, nor a
/// disk while it is formatted counts a fault. Want of memory is the one other answer.
pub fn completes<D: Disk, L: Link>()
    ensures { RunCompletes D.tells D.meter D.image L.lost }
{}
