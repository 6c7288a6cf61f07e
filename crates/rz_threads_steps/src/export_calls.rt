//! Calls of the export that an operation asks for.
ghost use Rattle.std.specs.Prelude.{◌≡◌, ℕ, IfOk, OnOk, OnErr};
ghost use Rattle.rz_events.specs.Borrowed.{call_of};
ghost use Rattle.rz_operation_model.specs.Ask.{ask_of, AskExport};
ghost use Rattle.rz_core.specs.History.{of_actor};
ghost use Rattle.rz_play.specs.Faults.{missed};
ghost use Rattle.rz_chronicle.specs.Kinds.{volume_in};
ghost use Rattle.rz_show.specs.Shown.{shown_of};
ghost use Rattle.rz_threads_steps.specs.Acted.{IsWorkRight, HasActed, IsStopped};
ghost use Rattle.rz_threads_steps.specs.Adding.{PassLasts};
ghost use Rattle.rz_threads_steps.specs.Opening.{IsOpenCall};

use crate::adding::call_export;
use crate::showing::{Shows, show_opening};
use crate::store::SharedStore;
use rz_chronicle::Pass;
use rz_disk::Disk;
use rz_events::{Actor, CallRef, TreeCall};
use rz_operation::{Ask, Machine};
use rz_player::Halted;
use rz_shared::Metering;
use std::alloc::{AllocError, Global};
use std::sync::Wait;

/// The call of the export that a machine asks for.
fn next_call(machine: &Machine) -> Result<CallRef<'_>, Halted>
    ensures { IfOk result (λ c. ask_of machine.now.layout machine.now.work ≡ AskExport (call_of c)) }
{
    match machine.next() {
        Ask::Export(ask) => Ok(ask),
        _ => Err(Halted),
    }
}

/// The call of an open, in new memory: it is shown once a file answers it. No other call is.
fn opening_in(alloc: Global, call: CallRef<'_>) -> Result<Option<TreeCall>, AllocError>
    ensures { IfOk result (λ opening. IsOpenCall (call_of call.entry) opening) }
{
    let CallRef::Tree(call) = call else {
        return Ok(None);
    };
    match call {
        TreeCall::OpenFile { .. } => Ok(Some(call.copy(alloc)?)),
        _ => Ok(None),
    }
}

/// Asks the export what a machine asks of it, and tells the machine the reply. An open that was granted a
/// file is shown.
pub(crate) fn ask_export<R: Wait, D: Disk, J: Metering, S: Shows>(
    rt: &R,
    alloc: Global,
    store: &SharedStore<D, J>,
    pass: &mut Pass<J>,
    machine: &mut Machine,
    shown: &mut S,
) -> Result<(), Halted>
    requires volume { store.now.volume ≡ volume_in J.kind }
    requires actor { ¬ (pass.old.actor ≡ Actor.Admin) }
    requires right { (number : ℕ) × IsWorkRight J.kind J.earlier pass.old number machine.old }
    requires shows { S.has shown.old (shown_of (of_actor pass.old.actor pass.old.log)) }
    ensures lasts { PassLasts pass.old pass.new }
    ensures quiet { missed (of_actor pass.old.actor pass.new.log) ≡ missed (of_actor pass.old.actor pass.old.log) }
    ensures shows { S.has shown.new (shown_of (of_actor pass.old.actor pass.new.log)) }
    ensures acted { OnOk result ((number : ℕ) → IsWorkRight J.kind J.earlier pass.old number machine.old → HasActed J.kind J.earlier number pass.old pass.new machine.old machine.new) }
    ensures stopped { OnErr result ((number : ℕ) → IsStopped J.kind number pass.old pass.new machine.old) }
    ensures kept { OnErr result (machine.new ≡ machine.old) }
{
    rz_block_laws::acting::asks();
    rz_block_laws::acting::goes();
    let by = pass.actor();
    shown.make_room()?;
    let call = next_call(machine)?;
    let opening = opening_in(alloc, call)?;
    let reply = call_export(rt, store, pass, call)?;
    let takes = machine.takes_reply(&reply);
    show_opening(by, call, opening, &reply, shown);
    if !takes {
        drop(reply);
        return Err(Halted);
    }
    machine.tell_reply(reply);
    Ok(())
}
