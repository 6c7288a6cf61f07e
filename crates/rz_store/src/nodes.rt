//! Nodes: one is started again, or gets a new disk.
ghost use Rattle.std.specs.Prelude.{◌≡◌, ◌==◌, ◌↔◌, false, Some, is_some, IsTrue, IfSome, IfNone, OnOk, OnErr, IfOk, IfErr};
ghost use Rattle.std.specs.List.{find};
ghost use Rattle.rz_core.specs.NodeRows.{IsNodeOf};
ghost use Rattle.rz_chronicle.specs.Keys.{IsLater};
ghost use Rattle.rz_store_turns.specs.Telling.{AreMissing};
ghost use Rattle.rz_store.specs.Store.{IfLegal, LooksSame};
ghost use Rattle.rz_store.specs.Nodes.{spec_in, phase_in, IsRoomOf, start_told, HasStarted, IsStartCause, rebuild_told, swap_told, HasRefilled, IsRebuildCause, HasReplaced, IsReplaceCause, IsUnreplaced};

use crate::faults::{ReplaceFault, StartFault};
use crate::store::Store;
use rz_config::Volume;
use rz_disk::Disk;
use rz_events::{NodeSpec, Phase, RebuildEnd, StartAnswer};
use rz_journal::HALF_BYTES;
use rz_shared::{Metering, SwapFault};
use rz_store_turns::Stop;
use std::sync::Wait;

/// A node has a new disk: so many blocks were refilled on it, and so many left, since their records are wanting. A
/// count stands still at 2^64 - 1.
#[derive(Clone, Copy, Drop)]
pub struct Rebuilt {
    pub refilled: u64,
    pub left: u64,
}

/// How much room a node has: so many pairs of cells, each for the records of one key, of which so many are used.
#[derive(Clone, Copy, Drop)]
pub struct NodeRoom {
    pub pairs: u32,
    pub used: u32,
}

/// How much room the journal has: so many bytes, of which its entries take so many.
#[derive(Clone, Copy, Drop)]
pub struct JournalRoom {
    pub bytes: u64,
    pub used: u64,
}

/// The node of a number, among these.
fn find_in(nodes: &[NodeSpec], number: u16) -> Option<NodeSpec>
    ensures { result ≡ find (λ n. n.sid == number) nodes.now }
{
    nodes.iter().copied().find(|n| n.sid == number)
}

/// The node of a number.
fn find_node(volume: &Volume, number: u16) -> Option<NodeSpec>
    ensures { result ≡ spec_in volume.now number }
{
    for cluster in &volume.clusters {
        if let Some(node) = find_in(cluster.nodes.as_slice(), number) {
            return Some(node);
        }
    }
    None
}

/// Whether a node has this number.
fn has_node(volume: &Volume, number: u16) -> bool
    ensures { IsTrue result ↔ IsNodeOf volume.now number }
{
    find_node(volume, number).is_some()
}

/// What is told of a start that was answered so.
fn start_told(answer: StartAnswer) -> Result<(), StartFault>
    ensures { result ≡ start_told answer }
{
    match answer {
        StartAnswer::Started { .. } => Ok(()),
        StartAnswer::NotDown => Err(StartFault::NotDown),
        StartAnswer::NoMemory => Err(StartFault::NoMemory),
        StartAnswer::Unopened(fault) => Err(StartFault::Unopened(fault)),
    }
}

/// What is told of a rebuild that ended so.
fn rebuild_told(ended: Result<RebuildEnd, Stop>) -> Result<Rebuilt, ReplaceFault>
    ensures { result ≡ rebuild_told ended }
{
    match ended {
        Ok(RebuildEnd::Rebuilt { refilled, .. }) => Ok(Rebuilt { refilled, left: 0 }),
        Ok(RebuildEnd::Left { refilled, left, .. }) => Ok(Rebuilt { refilled, left }),
        Ok(end) => Err(ReplaceFault::Ended(end)),
        Err(why) => Err(ReplaceFault::Stopped(why)),
    }
}

/// What is told of a disk that was not taken.
fn swap_told(fault: SwapFault) -> ReplaceFault
    ensures { result ≡ swap_told fault }
{
    match fault {
        SwapFault::NoMemory => ReplaceFault::NoMemory,
        SwapFault::LossesSpent => ReplaceFault::LossesSpent,
    }
}

impl<D: Disk, J: Metering> Store<D, J> {
    /// How much room a node has. Nothing is told of one whose disk is away, and of a number that no node has.
    pub fn room<R: Wait>(&mut self, rt: &R, node: u16) -> Option<NodeRoom>
        ensures room { IfSome result (λ room. IfLegal J.kind (IsRoomOf self.old node room)) }
        ensures away { IfNone result (IfLegal J.kind (IsNodeOf self.old.volume node → ¬ (phase_in self.old node ≡ Phase.Up))) }
        ensures same { self.new ≡ self.old }
    {
        let Some(spec) = find_node(self.sole.volume(), node) else {
            return None;
        };
        let Some(used) = self.sole.keys_held(rt, node) else {
            return None;
        };
        Some(NodeRoom {
            pairs: spec.cells,
            used,
        })
    }

    /// Of how many published blocks of live files a node lacks the record, though their published masks name it, or
    /// 2^64 - 1 where there are more. Nothing is told of a node whose disk is away, and of a number that no node has.
    /// The journal may stop it.
    pub fn missing<R: Wait>(&mut self, rt: &R, node: u16) -> Result<Option<u64>, Stop>
        ensures counted { IfOk result (λ told. IfSome told (λ count. IfLegal J.kind (AreMissing self.old.volume self.old.log node count))) }
        ensures away { IfOk result (λ told. IfNone told (IfLegal J.kind (IsNodeOf self.old.volume node → ¬ (phase_in self.old node ≡ Phase.Up)))) }
        ensures refused { OnErr result (IsTrue (is_some J.journal)) }
        ensures same { self.new ≡ self.old }
    {
        if !has_node(self.sole.volume(), node) {
            return Ok(None);
        }
        self.sole.missing(rt, node)
    }

    /// How much room the journal has, if there is one.
    pub fn journal_room<R: Wait>(&self, rt: &R) -> Option<JournalRoom>
        ensures here { is_some result ≡ is_some J.journal }
        ensures bytes { IfSome result (λ room. room.bytes ≡ 8_388_576) }
    {
        let Some(used) = self.sole.journal_used(rt) else {
            return None;
        };
        Some(JournalRoom {
            bytes: HALF_BYTES,
            used,
        })
    }

    /// Starts a node that is down: its disk failed in a call, or did not open.
    pub fn start<R: Wait>(&mut self, rt: &R, node: u16) -> Result<(), StartFault>
        ensures started { OnOk result (IfLegal J.kind (HasStarted self.old node self.new)) }
        ensures cause { IfErr result (λ f. IfLegal J.kind (IsStartCause self.old node f)) }
        ensures same { IfLegal J.kind (LooksSame self.old self.new) }
        ensures later { IfLegal J.kind (IsLater self.old.log self.new.log) }
        ensures volume { self.new.volume ≡ self.old.volume }
    {
        rz_contents::still();
        if !has_node(self.sole.volume(), node) {
            return Err(StartFault::NoSuchNode);
        }
        start_told(self.sole.start(rt, node))
    }

    // Rebuilds a node whose disk is lost.
    fn rebuild<R: Wait>(&mut self, rt: &R, node: u16) -> Result<Rebuilt, ReplaceFault>
        requires node { IsNodeOf self.old.volume node }
        ensures refilled { IfOk result (λ told. IfLegal J.kind (HasRefilled self.old node told self.new)) }
        ensures cause { IfErr result (λ f. IfLegal J.kind (IsRebuildCause self.old node f self.new)) }
        ensures taken { IfErr result (λ f. ¬ IsUnreplaced f) }
        ensures same { IfLegal J.kind (LooksSame self.old self.new) }
        ensures later { IfLegal J.kind (IsLater self.old.log self.new.log) }
        ensures volume { self.new.volume ≡ self.old.volume }
    {
        rz_contents::still();
        rebuild_told(self.sole.rebuild(rt, node))
    }

    /// Puts a new disk into the place of a node's, which is made anew and filled again with all that the node is to
    /// hold. The old disk comes back, if it is here; its records are not read.
    ///
    /// It may be the node's own disk. Where it ends in the middle, the node has the new disk and gaps that nobody
    /// tells of, and it is to be replaced once more.
    pub fn replace<R: Wait>(
        &mut self,
        rt: &R,
        node: u16,
        disk: D,
    ) -> (Option<D>, Result<Rebuilt, ReplaceFault>)
        requires free { J.fixed ≡ false }
        ensures replaced { IfOk result.1 (λ told. IfLegal J.kind (HasReplaced self.old node told self.new)) }
        ensures cause { IfErr result.1 (λ f. IfLegal J.kind (IsReplaceCause self.old node f self.new)) }
        ensures back { IfErr result.1 (λ f. IsUnreplaced f → (result.0 ≡ Some disk) × (self.new.log ≡ self.old.log)) }
        ensures same { IfLegal J.kind (LooksSame self.old self.new) }
        ensures later { IfLegal J.kind (IsLater self.old.log self.new.log) }
        ensures volume { self.new.volume ≡ self.old.volume }
    {
        rz_contents::still();
        if !has_node(self.sole.volume(), node) {
            return (Some(disk), Err(ReplaceFault::NoSuchNode));
        }
        match self.sole.swap(rt, node, disk) {
            Ok(swap) => (swap.disk, self.rebuild(rt, node)),
            Err((disk, fault)) => (Some(disk), Err(swap_told(fault))),
        }
    }
}
