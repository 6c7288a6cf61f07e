//! Who acts alone.
ghost use Rattle.std.specs.Prelude.{◌≡◌, ◌≤◌, ◌++◌, [], IsTrue, length};
ghost use Rattle.mj_angles.specs.Layout.{max_bins_of};
ghost use Rattle.rz_core.specs.History.{facts};
ghost use Rattle.rz_core.specs.Legal.{IsLegalAfter, IsLegalInRuns};
ghost use Rattle.rz_block_laws.specs.Acting.{AreBytes};
ghost use Rattle.rz_chronicle.specs.Kinds.{keeps_legal, volume_in};
ghost use Rattle.rz_store_turns.specs.Sole.{HoldsAll};

use mj_angles::Layout;
use rz_chronicle::Pass;
use rz_config::Volume;
use rz_disk::Disk;
use rz_metadata::JournalRefusal;
use rz_shared::Metering;
use rz_threads_steps::SharedStore;
use std::alloc::Global;
use std::marker::Model;
use std::sync::Wait;

/// What stops whatever is asked.
#[derive(Clone, Copy, Debug, PartialEq, Eq, Drop)]
pub enum Stop {
    /// Memory is wanting.
    NoMemory,
    /// The journal has no room for a change. No change is kept more, until the store is opened again.
    JournalFull,
    /// The journal's disk failed. No change is kept more, until the store is opened again.
    JournalFailed,
    /// Operations were cut off so often that nobody is left who could do another one, until the store is opened
    /// again.
    Spent,
}

/// Who acts alone on a cluster, with the tokens of all actors.
#[derive(Drop)]
pub struct Sole<D: Disk, J: Metering> {
    pub(crate) alloc: Global,
    pub(crate) shared: SharedStore<D, J>,
    pub(crate) pass: Pass<J>,
    pub(crate) number: u32,
    pub(crate) client: u8,
    pub(crate) rebuilder: u8,
    pub(crate) bins: Vec<u64>,
}

impl<D: Disk, J: Metering> Model for Sole<D, J> {
    ghost use Rattle.rz_store_turns.specs.Sole.{SoleView, IsSole};

    ghost Value = { SoleView };

    ghost view = { λ s. record { pass = s.pass; number = s.number; client = s.client; rebuilder = s.rebuilder } };

    ghost invariant = { λ s. IsSole J.kind J.earlier s.shared.volume s.shared.cluster (record { pass = s.pass; number = s.number; client = s.client; rebuilder = s.rebuilder }) s.bins.items };
}

impl<D: Disk, J: Metering> Sole<D, J> {
    /// It has done nothing yet. `bins` is room for the record of a block.
    pub fn new(
        alloc: Global,
        shared: SharedStore<D, J>,
        pass: Pass<J>,
        bins: Vec<u64>,
    ) -> Sole<D, J>
        requires volume { shared.volume ≡ volume_in J.kind }
        requires cluster { shared.cluster ≡ volume_in J.kind }
        requires fresh { pass.log ≡ [] }
        requires tokens { HoldsAll pass.keys }
        requires room { max_bins_of (volume_in J.kind).layout ≤ length bins.items }
        requires texts { IsTrue (keeps_legal J.kind) → AreBytes (facts J.earlier) }
        ensures { result ≡ record { pass = pass; number = 0; client = 1; rebuilder = 1 } }
    {
        Sole {
            alloc,
            shared,
            pass,
            number: 0,
            client: 1,
            rebuilder: 1,
            bins,
        }
    }

    /// Where it takes memory.
    pub fn alloc(&self) -> Global {
        self.alloc
    }

    /// The volume.
    pub fn volume(&self) -> &Volume
        ensures { result.now ≡ volume_in J.kind }
    {
        &self.shared.volume
    }

    /// The layout of the volume.
    pub fn layout(&self) -> Layout
        ensures { result ≡ (volume_in J.kind).layout }
    {
        self.shared.layout()
    }

    // Why a turn was cut off.
    pub(crate) fn stop<R: Wait>(&self, rt: &R) -> Stop {
        match self.shared.cluster.refusal(rt) {
            Some(JournalRefusal::Full) => Stop::JournalFull,
            Some(JournalRefusal::Failed) => Stop::JournalFailed,
            None => Stop::NoMemory,
        }
    }

    /// The log of this run, behind which the earlier one stands, is legal where the book keeps it so.
    pub fn stands(&self)
        ensures after { IsTrue (keeps_legal J.kind) → IsLegalAfter (volume_in J.kind) J.earlier self.now.pass.log }
        ensures legal { IsTrue (keeps_legal J.kind) → IsLegalInRuns (volume_in J.kind) (self.now.pass.log ++ J.earlier) }
    {
        rz_chronicle::one_rule();
        rz_core::next_run();
        let _by = self.pass.actor();
    }
}
