//! A store in hand is made of what was opened.
ghost use Rattle.std.specs.Prelude.{◌≡◌, ◌+◌, IsTrue, IfOk, IfErr};
ghost use Rattle.rz_events.specs.declared.keys.Actor.TheVariants as a;
ghost use Rattle.rz_chronicle.specs.Dealing.{new_pass, ArePasses};
ghost use Rattle.rz_chronicle.specs.Kinds.{keeps_legal, volume_in};
ghost use Rattle.rz_shared_locked.specs.LockedExports.{AreTextsOfBytes};
ghost use Rattle.rz_store.specs.Opened.{IsSeenAgain};

use crate::store::Store;
use rz_config::Volume;
use rz_disk::Disk;
use rz_nodes::Missing;
use rz_shared::Metering;
use rz_store_opening::Joined;
use rz_store_turns::Sole;
use rz_threads_steps::SharedStore;
use std::alloc::Global;

/// Users see in a store that was opened after a log what they saw after that log.
pub fn seen_again<D: Disk>()
    ensures { IsSeenAgain D.tells D.meter D.text D.image }
{}

impl<D: Disk, J: Metering> Store<D, J> {
    /// Takes what was joined, and goes on after the earlier log of its book; nobody else acts on it. Beside it
    /// comes why each node is away, if it is, in the order of the description. Where memory is wanting, what was
    /// joined comes back as it is.
    pub fn join(
        alloc: Global,
        volume: &Volume,
        joined: Joined<D, J>,
    ) -> Result<(Store<D, J>, Vec<Option<Missing<D>>>), Joined<D, J>>
        requires volume { volume.now ≡ volume_in J.kind }
        requires cluster { joined.cluster ≡ volume_in J.kind }
        requires admin { joined.admin ≡ new_pass a.Admin }
        requires clients { ArePasses 64 (λ i. a.Client (i + 1)) joined.clients.items }
        requires rebuilders { ArePasses 16 (λ i. a.Rebuilder (i + 1)) joined.rebuilders.items }
        requires texts { IsTrue (keeps_legal J.kind) → AreTextsOfBytes J.earlier }
        ensures volume { IfOk result (λ r. r.0.volume ≡ volume.now) }
        ensures log { IfOk result (λ r. r.0.log ≡ J.earlier) }
        ensures missing { IfOk result (λ r. r.1 ≡ joined.missing) }
        ensures back { IfErr result (λ j. j ≡ joined) }
    {
        let Ok(copy) = volume.copy(alloc) else {
            return Err(joined);
        };
        let Ok(bins) = Vec::from_elem(alloc, 0, volume.layout.max_bins()) else {
            drop(copy);
            return Err(joined);
        };
        let Joined {
            cluster,
            book,
            admin,
            clients,
            rebuilders,
            missing,
        } = joined;
        let shared = SharedStore {
            cluster,
            book,
            volume: copy,
        };
        let sole = Sole::join(alloc, shared, admin, clients, rebuilders, bins);
        Ok((Store { sole }, missing))
    }
}
