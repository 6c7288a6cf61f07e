//! Words of an actor's own.
ghost use Rattle.std.specs.Prelude.{◌≡◌, ◌<◌, IfOk, OnErr};
ghost use Rattle.rz_driver_asks.specs.Parts.{IsSayPart};

use rz_events::{Actor, Event};
use rz_log::{Halted, Log};
use rz_operation::{Ask, Machine, Saying};
use std::alloc::Global;

/// Says what a machine is about to say, and answers whether that was the answer of its operation.
///
/// The text that is noted is the one that the machine has in hand.
pub fn say(
    alloc: Global,
    by: Actor,
    number: u32,
    machine: &mut Machine,
    log: &mut Log,
) -> Result<bool, Halted>
    requires room { 0 < log.old.room }
    ensures ok { IfOk result (λ done. IsSayPart by number done machine.old machine.new log.old.events log.new.events) }
    ensures err { OnErr result (log.new.events ≡ log.old.events) }
{
    match machine.next() {
        Ask::Say(Saying::Got { key, part, mark }) => {
            let end = machine.read_end(alloc, mark)?;
            log.note(Event::Got {
                by,
                number,
                key,
                part,
                end,
            });
            machine.tell_said();
            Ok(false)
        }
        Ask::Say(Saying::Gave { key, part, end }) => {
            log.note(Event::Gave {
                by,
                number,
                key,
                part,
                end,
            });
            machine.tell_said();
            Ok(false)
        }
        Ask::Say(Saying::Left { key, why }) => {
            log.note(Event::Left { by, key, why });
            machine.tell_said();
            Ok(false)
        }
        Ask::Say(Saying::Done(_)) => {
            let answer = machine.finish();
            log.note(Event::Done { by, number, answer });
            Ok(true)
        }
        Ask::Export(_) | Ask::Lock { .. } | Ask::Node { .. } | Ask::Rest => Err(Halted),
    }
}
