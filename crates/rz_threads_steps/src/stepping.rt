//! One turn of an operation.
ghost use Rattle.std.specs.Prelude.{◌≡◌, ◌≤◌, None, OnOk, OnErr, length};
ghost use Rattle.mj_angles.specs.Layout.{max_bins_of};
ghost use Rattle.rz_operation_model.specs.Ask.{ask_of};
ghost use Rattle.rz_core.specs.History.{of_actor};
ghost use Rattle.rz_player.specs.Messages.{IsAskSent};
ghost use Rattle.rz_chronicle.specs.Kinds.{volume_in};
ghost use Rattle.rz_show.specs.Shown.{shown_of};
ghost use Rattle.rz_threads_steps.specs.Acted.{IsWorkRight, HasActed, IsStopped};
ghost use Rattle.rz_threads_steps.specs.Adding.{PassLasts};
ghost use Rattle.rz_threads_steps.specs.Turned.{AreLost};

use crate::export_calls::ask_export;
use crate::saying::say;
use crate::sending::message;
use crate::showing::Shows;
use crate::store::SharedStore;
use rz_chronicle::Pass;
use rz_disk::Disk;
use rz_events::Actor;
use rz_link::Link;
use rz_operation::{AskKind, Machine};
use rz_player::Halted;
use rz_shared::Metering;
use std::alloc::Global;
use std::sync::Wait;

/// Does what an operation asks next, and tells it what came of it. An operation that rests asks nothing,
/// and one that wants bytes of a file locked is none for threads: neither takes a turn. Where memory is
/// wanting the turn is cut off, and the operation stands where it stood.
pub fn step<R: Wait, D: Disk, J: Metering, L: Link, S: Shows>(
    rt: &R,
    alloc: Global,
    store: &SharedStore<D, J>,
    pass: &mut Pass<J>,
    link: &mut L,
    number: u32,
    machine: &mut Machine,
    bins: &mut [u64],
    shown: &mut S,
) -> Result<(), Halted>
    requires volume { store.now.volume ≡ volume_in J.kind }
    requires actor { ¬ (pass.old.actor ≡ Actor.Admin) }
    requires layout { machine.old.layout ≡ (volume_in J.kind).layout }
    requires right { IsWorkRight J.kind J.earlier pass.old number machine.old }
    requires room { max_bins_of (volume_in J.kind).layout ≤ length bins.old }
    requires shows { S.has shown.old (shown_of (of_actor pass.old.actor pass.old.log)) }
    ensures lasts { PassLasts pass.old pass.new }
    ensures sent { OnOk result (IsAskSent L.says (ask_of machine.old.layout machine.old.work) None pass.old.actor link.old link.new (of_actor pass.old.actor pass.old.log) (of_actor pass.old.actor pass.new.log)) }
    ensures lost { AreLost pass.old.actor pass.old.log pass.new.log (L.lost link.old) (L.lost link.new) }
    ensures shows { S.has shown.new (shown_of (of_actor pass.old.actor pass.new.log)) }
    ensures acted { OnOk result (HasActed J.kind J.earlier number pass.old pass.new machine.old machine.new) }
    ensures stopped { OnErr result (IsStopped J.kind number pass.old pass.new machine.old) }
    ensures kept { OnErr result (machine.new ≡ machine.old) }
{
    match machine.ask_kind() {
        AskKind::Rest | AskKind::Lock => Err(Halted),
        AskKind::Export => ask_export(rt, alloc, store, pass, machine, shown),
        AskKind::Node { node, ask } => message(rt, store, pass, link, node, machine, ask, bins),
        AskKind::Say => say(alloc, store, pass, number, machine, shown),
    }
}
