//! The passes of all actors are gathered, when a store is made of what was opened.
ghost use Rattle.std.specs.Prelude.{◌≡◌, ◌≤◌, ◌+◌, [], IsTrue, length};
ghost use Rattle.std.specs.List.{AllByRecursion};
ghost use Rattle.mj_angles.specs.Layout.{max_bins_of};
ghost use Rattle.rz_events.specs.declared.keys.Actor.TheVariants as a;
ghost use Rattle.rz_core.specs.History.{facts};
ghost use Rattle.rz_block_laws.specs.Acting.{AreBytes};
ghost use Rattle.rz_chronicle.specs.Dealing.{new_pass, ArePasses};
ghost use Rattle.rz_chronicle.specs.Kinds.{keeps_legal, volume_in};
ghost use Rattle.rz_chronicle.specs.Rules.{PassView};
ghost use Rattle.rz_store_turns.specs.Sole.{HoldsAll};
ghost use Rattle.rz_store_turns.specs.Joined.{HasDoneNothing, HasGathered};

use crate::sole::Sole;
use rz_chronicle::{Book, Naming, Pass};
use rz_disk::Disk;
use rz_shared::Metering;
use rz_threads_steps::SharedStore;
use std::alloc::Global;

/// Gathers the passes of actors that have done nothing.
fn gather_idle<J: Naming>(book: &Book<J>, front: &mut Pass<J>, passes: Vec<Pass<J>>)
    requires front { HasDoneNothing front.old }
    requires passes { AllByRecursion (λ (p : PassView). p.log ≡ []) passes.items }
    ensures { HasGathered front.old passes.items front.new }
{
    for pass in passes {
        book.gather(front, pass);
    }
}

/// The pass of the administrator with the tokens of all clients and rebuilders, before anybody did anything.
fn gather_up<J: Naming>(
    book: &Book<J>,
    admin: Pass<J>,
    clients: Vec<Pass<J>>,
    rebuilders: Vec<Pass<J>>,
) -> Pass<J>
    requires admin { admin ≡ new_pass a.Admin }
    requires clients { ArePasses 64 (λ i. a.Client (i + 1)) clients.items }
    requires rebuilders { ArePasses 16 (λ i. a.Rebuilder (i + 1)) rebuilders.items }
    ensures log { result.log ≡ [] }
    ensures tokens { HoldsAll result.keys }
{
    rz_chronicle::added_alone();
    let mut front = admin;
    gather_idle(book, &mut front, clients);
    gather_idle(book, &mut front, rebuilders);
    let _member = front.actor();
    front
}

impl<D: Disk, J: Metering> Sole<D, J> {
    /// Takes the passes of all actors, which have done nothing yet. `bins` is room for the record of a block.
    pub fn join(
        alloc: Global,
        shared: SharedStore<D, J>,
        admin: Pass<J>,
        clients: Vec<Pass<J>>,
        rebuilders: Vec<Pass<J>>,
        bins: Vec<u64>,
    ) -> Sole<D, J>
        requires volume { shared.volume ≡ volume_in J.kind }
        requires cluster { shared.cluster ≡ volume_in J.kind }
        requires admin { admin ≡ new_pass a.Admin }
        requires clients { ArePasses 64 (λ i. a.Client (i + 1)) clients.items }
        requires rebuilders { ArePasses 16 (λ i. a.Rebuilder (i + 1)) rebuilders.items }
        requires room { max_bins_of (volume_in J.kind).layout ≤ length bins.items }
        requires texts { IsTrue (keeps_legal J.kind) → AreBytes (facts J.earlier) }
        ensures log { result.pass.log ≡ [] }
        ensures first { (result.number ≡ 0) × (result.client ≡ 1) × (result.rebuilder ≡ 1) }
    {
        let pass = gather_up(&shared.book, admin, clients, rebuilders);
        Sole::new(alloc, shared, pass, bins)
    }
}
