//! Turns of an operation, beside which nobody acts.
ghost use Rattle.std.specs.Prelude.{◌≡◌, ◌≤◌, true, false, IsTrue, OnOk, OnErr, length};
ghost use Rattle.mj_angles.specs.Layout.{max_bins_of};
ghost use Rattle.rz_operation_model.specs.Ask.{ask_of};
ghost use Rattle.rz_core.specs.History.{facts};
ghost use Rattle.rz_block_laws.specs.Acting.{AreBytes};
ghost use Rattle.rz_chronicle.specs.Holds.{HasAllActors};
ghost use Rattle.rz_chronicle.specs.Kinds.{keeps_legal, volume_in};
ghost use Rattle.rz_threads_steps.specs.Acted.{IsWorkRight};
ghost use Rattle.rz_contents.specs.Files.{is_word};
ghost use Rattle.rz_store_turns.specs.Runs.{GoesAlone, HasRun, HasTurned};

use rz_chronicle::Pass;
use rz_disk::Disk;
use rz_events::Actor;
use rz_link::PlainLink;
use rz_operation::{Ask, Machine};
use rz_shared::Metering;
use rz_threads_steps::{Halted, SharedStore, Unshown, step};
use std::alloc::Global;
use std::sync::Wait;

/// Whether an operation is about to say a word.
pub(crate) fn is_at_word(machine: &Machine) -> bool
    ensures { result ≡ is_word (ask_of machine.now.layout machine.now.work) }
{
    matches!(machine.next(), Ask::Say(_))
}

/// One turn. Where it is cut off the operation is as it was, and nothing was added over a book that keeps its
/// log legal.
pub(crate) fn take_turn<R: Wait, D: Disk, J: Metering>(
    rt: &R,
    alloc: Global,
    shared: &SharedStore<D, J>,
    pass: &mut Pass<J>,
    number: u32,
    machine: &mut Machine,
    bins: &mut [u64],
) -> Result<(), Halted>
    requires volume { shared.now.volume ≡ volume_in J.kind }
    requires actor { ¬ (pass.old.actor ≡ Actor.Admin) }
    requires all { HasAllActors pass.old.keys }
    requires layout { machine.old.layout ≡ (volume_in J.kind).layout }
    requires right { IsWorkRight J.kind J.earlier pass.old number machine.old }
    requires room { max_bins_of (volume_in J.kind).layout ≤ length bins.old }
    requires texts { IsTrue (keeps_legal J.kind) → AreBytes (facts J.earlier) }
    ensures alone { GoesAlone pass.old pass.new }
    ensures turned { OnOk result (HasTurned J.kind number pass.old pass.new machine.old machine.new) }
    ensures stopped { OnErr result (HasRun J.kind number pass.old pass.new machine.old machine.new) }
    ensures still { OnErr result (IsTrue (keeps_legal J.kind) → pass.new.log ≡ pass.old.log) }
    ensures kept { OnErr result (machine.new ≡ machine.old) }
    ensures layout { machine.new.layout ≡ machine.old.layout }
    ensures right { IsWorkRight J.kind J.earlier pass.new number machine.new }
{
    let mut link = PlainLink::new();
    let mut shown = Unshown;
    step(
        rt, alloc, shared, pass, &mut link, number, machine, bins, &mut shown,
    )
}

/// Turns until the operation is about to say a word.
pub(crate) fn take_turns<R: Wait, D: Disk, J: Metering>(
    rt: &R,
    alloc: Global,
    shared: &SharedStore<D, J>,
    pass: &mut Pass<J>,
    number: u32,
    machine: &mut Machine,
    bins: &mut [u64],
) -> Result<(), Halted>
    requires volume { shared.now.volume ≡ volume_in J.kind }
    requires actor { ¬ (pass.old.actor ≡ Actor.Admin) }
    requires all { HasAllActors pass.old.keys }
    requires layout { machine.old.layout ≡ (volume_in J.kind).layout }
    requires right { IsWorkRight J.kind J.earlier pass.old number machine.old }
    requires room { max_bins_of (volume_in J.kind).layout ≤ length bins.old }
    requires texts { IsTrue (keeps_legal J.kind) → AreBytes (facts J.earlier) }
    ensures alone { GoesAlone pass.old pass.new }
    ensures ran { HasRun J.kind number pass.old pass.new machine.old machine.new }
    ensures layout { machine.new.layout ≡ machine.old.layout }
    ensures right { IsWorkRight J.kind J.earlier pass.new number machine.new }
    ensures word { OnOk result (is_word (ask_of machine.new.layout machine.new.work) ≡ true) }
    ensures silent { OnErr result (is_word (ask_of machine.new.layout machine.new.work) ≡ false) }
{
    for _ in rt.forever() {
        if is_at_word(machine) {
            return Ok(());
        }
        take_turn(rt, alloc, shared, pass, number, machine, bins)?;
    }
    unreachable!()
}
