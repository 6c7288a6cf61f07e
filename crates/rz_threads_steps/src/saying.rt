//! Words of an actor's own.
ghost use Rattle.std.specs.Prelude.{◌≡◌, IfOk, OnOk, OnErr};
ghost use Rattle.rz_core.specs.History.{of_actor};
ghost use Rattle.rz_play.specs.Faults.{missed};
ghost use Rattle.rz_chronicle.specs.Kinds.{volume_in};
ghost use Rattle.rz_show.specs.Shown.{shown_of};
ghost use Rattle.rz_threads_steps.specs.Acted.{IsWorkRight, HasActed, IsStopped};
ghost use Rattle.rz_threads_steps.specs.Adding.{PassLasts};
ghost use Rattle.rz_threads_steps.specs.Saying.{IsSayingDone};

use crate::adding::add_own;
use crate::showing::{Shows, show};
use crate::store::SharedStore;
use rz_chronicle::Pass;
use rz_disk::Disk;
use rz_events::{Actor, Event};
use rz_operation::{Ask, Machine, Saying};
use rz_player::Halted;
use rz_shared::Metering;
use std::alloc::Global;

/// The event of what a machine is about to say, which it has then said.
fn said(alloc: Global, by: Actor, number: u32, machine: &mut Machine) -> Result<Event, Halted>
    ensures said { IfOk result (IsSayingDone by number machine.old machine.new) }
    ensures kept { OnErr result (machine.new ≡ machine.old) }
{
    match machine.next() {
        Ask::Say(Saying::Got { key, part, mark }) => {
            let end = machine.read_end(alloc, mark)?;
            machine.tell_said();
            Ok(Event::Got {
                by,
                number,
                key,
                part,
                end,
            })
        }
        Ask::Say(Saying::Gave { key, part, end }) => {
            machine.tell_said();
            Ok(Event::Gave {
                by,
                number,
                key,
                part,
                end,
            })
        }
        Ask::Say(Saying::Left { key, why }) => {
            machine.tell_said();
            Ok(Event::Left { by, key, why })
        }
        Ask::Say(Saying::Done(_)) => {
            let answer = machine.finish();
            Ok(Event::Done { by, number, answer })
        }
        Ask::Export(_) | Ask::Lock { .. } | Ask::Node { .. } | Ask::Rest => Err(Halted),
    }
}

/// Says what a machine is about to say, and tells it so. Its event may be one that is shown.
pub(crate) fn say<D: Disk, J: Metering, S: Shows>(
    alloc: Global,
    store: &SharedStore<D, J>,
    pass: &mut Pass<J>,
    number: u32,
    machine: &mut Machine,
    shown: &mut S,
) -> Result<(), Halted>
    requires volume { store.now.volume ≡ volume_in J.kind }
    requires actor { ¬ (pass.old.actor ≡ Actor.Admin) }
    requires right { IsWorkRight J.kind J.earlier pass.old number machine.old }
    requires shows { S.has shown.old (shown_of (of_actor pass.old.actor pass.old.log)) }
    ensures lasts { PassLasts pass.old pass.new }
    ensures quiet { missed (of_actor pass.old.actor pass.new.log) ≡ missed (of_actor pass.old.actor pass.old.log) }
    ensures shows { S.has shown.new (shown_of (of_actor pass.old.actor pass.new.log)) }
    ensures acted { OnOk result (HasActed J.kind J.earlier number pass.old pass.new machine.old machine.new) }
    ensures stopped { OnErr result (IsStopped J.kind number pass.old pass.new machine.old) }
    ensures kept { OnErr result (machine.new ≡ machine.old) }
{
    rz_block_laws::acting::asks();
    rz_block_laws::acting::says();
    rz_block_laws::acting::goes();
    rz_chronicle::one_rule();
    rz_chronicle::roomy();
    let by = pass.actor();
    if !pass.has_room_after() {
        return Err(Halted);
    }
    shown.make_room()?;
    let event = said(alloc, by, number, machine)?;
    add_own(store, pass, &event);
    show(event, shown);
    Ok(())
}
