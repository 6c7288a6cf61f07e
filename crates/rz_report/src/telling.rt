//! What is written of a play, and of a refusal.

ghost use Rattle.std.specs.Prelude.{◌≡◌, ◌⊎◌, IfOk};
ghost use Rattle.rz_report.specs.Output.{Lacks, Sunk};
ghost use Rattle.rz_report.specs.Telling.{TellsUnformatted, TellsRefusal, Says, SaysSoFar, Stops, text_so_far, text_told};

use crate::output::finish;
use crate::summary;
use rz_events::Event;
use rz_nodes::DriverFault;
use rz_player::PlayEnd;
use rz_ports::Sink;
use rz_request::{Refusal, Status, Stop, Wish};
use rz_show::show;
use std::alloc::{AllocError, Global};

/// What is printed of the log of a whole play, of which a scrub found these lines.
fn text_told(alloc: Global, wish: Wish, found: &[u8], log: &[Event]) -> Result<Vec<u8>, AllocError>
    ensures { IfOk result (λ t. t.items ≡ text_told wish found.now log.now) }
{
    match wish {
        Wish::Replay | Wish::First | Wish::Again => show(alloc, log, true),
        Wish::Load { seed } => summary(alloc, seed, log),
        Wish::Scrub => {
            let mut text = show(alloc, log, true)?;
            text.extend_from_slice(found)?;
            Ok(text)
        }
    }
}

/// What is printed of a play that was cut off for this refusal: the text so far, and its line.
fn text_so_far(alloc: Global, why: &Refusal, log: &[Event]) -> Result<Vec<u8>, AllocError>
    ensures { IfOk result (λ t. t.items ≡ text_so_far why.now log.now) }
{
    let mut text = show(alloc, log, false)?;
    let line = why.line(alloc)?;
    text.extend_from_slice(&line)?;
    Ok(text)
}

/// Writes the text of a play that was cut off for this refusal, and gives the status.
fn tell_cut<O: Sink>(alloc: Global, why: &Refusal, log: &[Event], output: &mut O) -> u8
    ensures { let sink : Sunk = record { before = O.taken output.old; after = O.taken output.new; old = O.faults output.old; new = O.faults output.new } in SaysSoFar why.now log.now sink result ⊎ Lacks sink result }
{
    match text_so_far(alloc, why, log) {
        Ok(text) => finish(output, why.status(), &text),
        Err(_) => Status::NO_MEMORY,
    }
}

/// Writes what is to be told of a play, of which a scrub found these lines, and gives the status.
pub(crate) fn tell<O: Sink>(
    alloc: Global,
    end: PlayEnd,
    wish: Wish,
    found: &[u8],
    log: &[Event],
    output: &mut O,
) -> u8
    ensures { let sink : Sunk = record { before = O.taken output.old; after = O.taken output.new; old = O.faults output.old; new = O.faults output.new } in Says end wish found.now log.now sink result ⊎ Lacks sink result }
{
    match end {
        PlayEnd::Ended => match text_told(alloc, wish, found, log) {
            Ok(text) => finish(output, Status::DONE, &text),
            Err(_) => Status::NO_MEMORY,
        },
        PlayEnd::TooManyTurns => tell_cut(alloc, &Refusal::Turns, log, output),
        PlayEnd::Journal => tell_cut(alloc, &Refusal::Journal, log, output),
        PlayEnd::JournalFull => tell_cut(alloc, &Refusal::Full, log, output),
        PlayEnd::NoMemory => Status::NO_MEMORY,
    }
}

/// Writes the line of a refusal, and gives the status.
pub fn refuse<O: Sink>(alloc: Global, refusal: &Refusal, output: &mut O) -> u8
    ensures { TellsRefusal refusal.now (record { before = O.taken output.old; after = O.taken output.new; old = O.faults output.old; new = O.faults output.new }) result }
{
    match refusal.line(alloc) {
        Ok(line) => finish(output, refusal.status(), &line),
        Err(_) => Status::NO_MEMORY,
    }
}

/// Writes why the disks were not formatted, and gives the status.
pub fn refuse_disks<O: Sink>(alloc: Global, fault: DriverFault, output: &mut O) -> u8
    ensures { TellsUnformatted fault (record { before = O.taken output.old; after = O.taken output.new; old = O.faults output.old; new = O.faults output.new }) result }
{
    match fault {
        DriverFault::NoMemory => Status::NO_MEMORY,
        DriverFault::Disk { index } => refuse(alloc, &Refusal::Disk { index }, output),
    }
}

/// Writes what is to be told where there is nothing to play, and gives the status.
pub fn stop<O: Sink>(alloc: Global, stop: &Stop, output: &mut O) -> u8
    ensures { Stops stop.now (record { before = O.taken output.old; after = O.taken output.new; old = O.faults output.old; new = O.faults output.new }) result }
{
    match stop {
        Stop::NoMemory => Status::NO_MEMORY,
        Stop::Source => Status::SOURCE,
        Stop::Refused(refusal) => refuse(alloc, refusal, output),
    }
}
