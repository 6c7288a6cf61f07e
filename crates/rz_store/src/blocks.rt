//! Single blocks.
ghost use Rattle.std.specs.Prelude.{◌≡◌, ◌≤◌, IfOk, IfErr, OnOk, OnErr, length, Option};
ghost use Rattle.mj_angles.specs.Layout.{block_bytes_of};
ghost use Rattle.rz_events.specs.declared.operations.Datum.TheVariants as datum;
ghost use Rattle.rz_events.specs.declared.operations.Operation.TheVariants as operation;
ghost use Rattle.rz_operation.specs.Machine.{text_of};
ghost use Rattle.rz_operation_model.specs.Ask.{ask_of};
ghost use Rattle.rz_chronicle.specs.Keys.{IsLater};
ghost use Rattle.rz_store.specs.Store.{IfLegal, LooksSame, HasPut, HasPublished, HasRenewed, HasGot};
ghost use Rattle.rz_store.specs.Causes.{IsReadCause, IsWriteCause, WasCause};
ghost use Rattle.rz_store.specs.Outcomes.{end_told, put_told, write_denied, read_denied, told_by, IsGetTold};

use crate::faults::{ReadFault, WriteFault};
use crate::store::Store;
use rz_disk::Disk;
use rz_events::{Answer, Datum, Denial, Operation, ReadEnd, Text, WriteEnd};
use rz_operation::{Ask, Machine, Saying};
use rz_shared::Metering;
use rz_store_turns::{Performed, Stop};
use std::alloc::{AllocError, Global};
use std::sync::Wait;

/// The put of a block, in new memory.
fn put_of(alloc: Global, path: &str, block: u64, bytes: &[u8]) -> Result<Operation, AllocError>
    ensures { IfOk result (λ op. op ≡ operation.Put path.now block (datum.Bytes bytes.now)) }
{
    Ok(Operation::Put {
        path: Text::from_bytes(alloc, path.as_bytes())?,
        block,
        datum: Datum::Bytes(Text::from_bytes(alloc, bytes)?),
    })
}

/// The get of a block, in new memory.
fn get_of(alloc: Global, path: &str, block: u64) -> Result<Operation, AllocError>
    ensures { IfOk result (λ op. op ≡ operation.Get path.now block) }
{
    let path = Text::from_bytes(alloc, path.as_bytes())?;
    Ok(Operation::Get { path, block })
}

/// Why a block is not written whose write was denied.
fn write_denied(why: Denial) -> WriteFault
    ensures { result ≡ write_denied why }
{
    match why {
        Denial::BlockTooFar => WriteFault::TooFar,
        Denial::StampsSpent => WriteFault::StampsSpent,
        Denial::UnknownFile | Denial::OldLoss { .. } => WriteFault::Disturbed,
    }
}

/// What a write tells that ended so.
fn end_told(end: WriteEnd) -> Result<(), WriteFault>
    ensures { result ≡ end_told end }
{
    match end {
        WriteEnd::Acked { .. } => Ok(()),
        WriteEnd::TooFew { why } => Err(WriteFault::TooFew(why)),
        WriteEnd::Denied(why) => Err(write_denied(why)),
        WriteEnd::Revoked { .. } => Err(WriteFault::Disturbed),
    }
}

/// What a put tells that is about to say its last word.
fn put_told(machine: &Machine) -> Result<(), WriteFault>
    ensures { result ≡ put_told (ask_of machine.now.layout machine.now.work) }
{
    match machine.next() {
        Ask::Say(Saying::Gave { end, .. }) => end_told(end),
        Ask::Say(Saying::Done(answer)) => match answer {
            Answer::Refused(fault) => Err(WriteFault::Names(*fault)),
            _ => Err(WriteFault::Disturbed),
        },
        _ => Err(WriteFault::Disturbed),
    }
}

/// Why a block is not read whose read was denied.
fn read_denied(why: Denial) -> ReadFault
    ensures { result ≡ read_denied why }
{
    match why {
        Denial::BlockTooFar => ReadFault::TooFar,
        Denial::StampsSpent | Denial::UnknownFile | Denial::OldLoss { .. } => ReadFault::Disturbed,
    }
}

/// What a read tells that ended so.
fn told_by(end: ReadEnd) -> Result<Option<Text>, ReadFault>
    ensures { result ≡ told_by end }
{
    match end {
        ReadEnd::Found { text, .. } => Ok(Some(text)),
        ReadEnd::Hole => Ok(None),
        ReadEnd::TooFew { seen } => Err(ReadFault::TooFew(seen)),
        ReadEnd::Inconsistent => Err(ReadFault::Altered),
        ReadEnd::Denied(why) => Err(read_denied(why)),
        ReadEnd::Moved { .. } => Err(ReadFault::Disturbed),
    }
}

/// What a get tells that is about to say its last word.
fn get_told(alloc: Global, machine: &Machine) -> Result<Option<Text>, ReadFault>
    ensures { IsGetTold (text_of machine.now) (ask_of machine.now.layout machine.now.work) result }
{
    match machine.next() {
        Ask::Say(Saying::Got { mark, .. }) => match machine.read_end(alloc, mark) {
            Ok(end) => told_by(end),
            Err(_) => Err(ReadFault::Stopped(Stop::NoMemory)),
        },
        Ask::Say(Saying::Done(answer)) => match answer {
            Answer::Refused(fault) => Err(ReadFault::Names(*fault)),
            _ => Err(ReadFault::Disturbed),
        },
        _ => Err(ReadFault::Disturbed),
    }
}

impl<D: Disk, J: Metering> Store<D, J> {
    /// Writes a block of the file at a path: it contains these bytes then, and nothing behind them. Where it
    /// answers an error nothing is changed.
    pub fn put<R: Wait>(
        &mut self,
        rt: &R,
        path: &str,
        block: u64,
        bytes: &[u8],
    ) -> Result<(), WriteFault>
        requires short { length bytes.now ≤ block_bytes_of self.old.volume.layout }
        ensures done { OnOk result (IfLegal J.kind (HasPut self.old path.now block bytes.now self.new)) }
        ensures kept { OnErr result (IfLegal J.kind (LooksSame self.old self.new)) }
        ensures published { OnOk result (IfLegal J.kind (HasPublished self.old path.now block self.new)) }
        ensures cause { IfErr result (λ f. IfLegal J.kind (IsWriteCause self.old path.now block f)) }
        ensures later { IfLegal J.kind (IsLater self.old.log self.new.log) }
        ensures volume { self.new.volume ≡ self.old.volume }
    {
        rz_contents::leads_to_block();
        rz_contents::put_watched();
        rz_contents::puts_caused();
        rz_contents::still();
        let op = put_of(self.sole.alloc(), path, block, bytes)?;
        let performed = self.sole.perform(rt, op)?;
        let Performed { machine, stopped } = performed;
        if let Some(why) = stopped {
            self.sole.end(machine);
            return Err(WriteFault::Stopped(why));
        }
        let told = put_told(&machine);
        let _said = self.sole.conclude(rt, machine);
        told
    }

    /// What a block of the file at a path contains, in new memory: nothing where it was never written.
    pub fn get<R: Wait>(
        &mut self,
        rt: &R,
        path: &str,
        block: u64,
    ) -> Result<Option<Text>, ReadFault>
        ensures told { IfOk result (λ text. IfLegal J.kind (HasGot self.old path.now block text)) }
        ensures same { IfLegal J.kind (LooksSame self.old self.new) }
        ensures cause { IfErr result (λ f. IfLegal J.kind (IsReadCause self.old path.now block f)) }
        ensures later { IfLegal J.kind (IsLater self.old.log self.new.log) }
        ensures volume { self.new.volume ≡ self.old.volume }
    {
        rz_contents::leads_to_block();
        rz_contents::get_watched();
        rz_contents::get_alone();
        rz_contents::gets_caused();
        rz_contents::still();
        let op = get_of(self.sole.alloc(), path, block)?;
        let performed = self.sole.perform(rt, op)?;
        let Performed { machine, stopped } = performed;
        if let Some(why) = stopped {
            self.sole.end(machine);
            return Err(ReadFault::Stopped(why));
        }
        let told = get_told(self.sole.alloc(), &machine);
        self.sole.conclude(rt, machine)?;
        told
    }

    /// Writes a block of the file at a path anew, with the text that it contains: each node that is up and is to have
    /// a record of it gets one. A block that contains none is left. Users see no difference.
    pub fn repair<R: Wait>(&mut self, rt: &R, path: &str, block: u64) -> Result<(), WriteFault>
        ensures done { OnOk result (IfLegal J.kind (HasRenewed self.old path.now block self.new)) }
        ensures same { IfLegal J.kind (LooksSame self.old self.new) }
        ensures cause { IfErr result (λ f. IfLegal J.kind (WasCause (λ s. IsWriteCause s path.now block f) self.old self.new)) }
        ensures later { IfLegal J.kind (IsLater self.old.log self.new.log) }
        ensures volume { self.new.volume ≡ self.old.volume }
    {
        rz_contents::covered();
        self.sole.stands();
        let size = self.sole.layout().block_bytes();
        let Some(text) = self.get(rt, path, block)? else {
            return Ok(());
        };
        let bytes = text.bytes();
        if bytes.len() > size {
            return Err(WriteFault::Disturbed);
        }
        self.put(rt, path, block, bytes)
    }
}
