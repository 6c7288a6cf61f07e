//! What is written of a play.
ghost use Rattle.std.specs.Prelude.{◌≡◌, ◌⊎◌, length, true};
ghost use Rattle.rz_chronicle.specs.Keys.{sids_of};
ghost use Rattle.rz_threads_workers.specs.Moves.{HoldsAll};
ghost use Rattle.rz_show.specs.RunText.{AreShownOf, run_text};
ghost use Rattle.rz_report.specs.Output.{Ends, Lacks, Sunk};

use rz_chronicle::{Book, Naming, Pass};
use rz_events::Event;
use rz_ports::Sink;
use rz_report::finish;
use rz_request::Status;
use rz_show::show_run;
use rz_threads_workers::count_all;
use std::alloc::Global;
use std::sync::Wait;

/// Writes the text of the log that a pass has seen, of which these are the events that are shown, and gives
/// the status.
fn tell_log<R: Wait, J: Naming, O: Sink>(
    rt: &R,
    alloc: Global,
    book: &Book<J>,
    front: Pass<J>,
    shown: &[Vec<Event>],
    output: &mut O,
) -> u8
    requires held { HoldsAll (sids_of book.now) front.keys }
    requires shown { AreShownOf shown.now front.log }
    ensures { let sink : Sunk = record { before = O.taken output.old; after = O.taken output.new; old = O.faults output.old; new = O.faults output.new } in Ends sink 0 (run_text front.log (length front.log)) result ⊎ Lacks sink result }
{
    let mut front = front;
    let events = count_all(rt, book, &mut front);
    match show_run(alloc, shown, events) {
        Ok(text) => finish(output, Status::DONE, &text),
        Err(_) => Status::NO_MEMORY,
    }
}

/// Writes the text of a play that came to its end. Where memory was wanting for someone, nothing is written.
pub(crate) fn tell<R: Wait, J: Naming, O: Sink>(
    rt: &R,
    alloc: Global,
    book: &Book<J>,
    front: Pass<J>,
    shown: &[Vec<Event>],
    ended: bool,
    output: &mut O,
) -> u8
    requires held { HoldsAll (sids_of book.now) front.keys }
    requires shown { AreShownOf shown.now front.log }
    ensures { let sink : Sunk = record { before = O.taken output.old; after = O.taken output.new; old = O.faults output.old; new = O.faults output.new } in ((ended ≡ true) × Ends sink 0 (run_text front.log (length front.log)) result) ⊎ Lacks sink result }
{
    if ended {
        tell_log(rt, alloc, book, front, shown, output)
    } else {
        Status::NO_MEMORY
    }
}
