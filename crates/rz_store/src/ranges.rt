//! Ranges of bytes.
ghost use Rattle.std.specs.Prelude.{◌≡◌, ◌≤◌, ◌<◌, ◌+◌, ◌-◌, ◌/◌, ◌%◌, IfOk, IfErr, OnOk, OnErr, length, take, drop, min, ℕ, unwrap_or, []};
ghost use Rattle.mj_angles.specs.Layout.{block_bytes_of};
ghost use Rattle.rz_export_model.specs.Tree.{Found};
ghost use Rattle.rz_contents.specs.Files.{IsFileAt};
ghost use Rattle.rz_store.specs.Store.{IfLegal, LooksSame, model_in, HasWritten, HasRead, IsUpTo, HasPart};
ghost use Rattle.rz_chronicle.specs.Keys.{IsLater};
ghost use Rattle.rz_store.specs.Causes.{IsReadCause, IsWriteCause, WasCause, IsBlockOf};

use crate::faults::{NameFault, ReadFault, WriteFault};
use crate::store::Store;
use crate::texts::{fill_from, patched};
use mj_angles::Layout;
use rz_disk::Disk;
use rz_events::{Kind, Text, TreeFault};
use rz_shared::Metering;
use std::sync::Wait;

/// A write that was not ended: so many bytes at the front are written, and no other byte is changed.
#[derive(Clone, Copy, Drop)]
pub struct ShortWrite {
    pub written: usize,
    pub cause: WriteFault,
}

/// The bytes of a block that may contain none.
fn bytes_in(text: &Option<Text>) -> &[u8]
    ensures { result.now ≡ unwrap_or text.now [] }
{
    match text {
        Some(text) => text.bytes(),
        None => &[],
    }
}

/// The place in its block of a byte of a file.
fn place_in(layout: Layout, offset: u64) -> usize
    ensures { result ≡ offset % block_bytes_of layout }
{
    (offset % layout.block_bytes() as u64) as usize
}

/// How many of the bytes from an offset on lie in the block of the first.
fn count_in(layout: Layout, offset: u64, left: usize) -> usize
    ensures { result ≡ min (block_bytes_of layout - offset % block_bytes_of layout) left }
{
    left.min(layout.block_bytes() - place_in(layout, offset))
}

/// How many of the bytes from an offset on lie before an end.
fn count_to(end: u64, offset: u64, room: usize) -> usize
    ensures { result ≡ min room (end - offset) }
{
    end.saturating_sub(offset).min(room as u64) as usize
}

impl<D: Disk, J: Metering> Store<D, J> {
    // Writes bytes of one block.
    fn write_part<R: Wait>(
        &mut self,
        rt: &R,
        path: &str,
        offset: u64,
        bytes: &[u8],
    ) -> Result<(), WriteFault>
        requires some { 0 < length bytes.now }
        requires part { offset % block_bytes_of self.old.volume.layout + length bytes.now ≤ block_bytes_of self.old.volume.layout }
        ensures done { OnOk result (IfLegal J.kind (HasWritten self.old path.now offset bytes.now self.new)) }
        ensures kept { OnErr result (IfLegal J.kind (LooksSame self.old self.new)) }
        ensures cause { IfErr result (λ f. IfLegal J.kind (WasCause (λ s. IsWriteCause s path.now (offset / block_bytes_of self.old.volume.layout) f) self.old self.new)) }
        ensures later { IfLegal J.kind (IsLater self.old.log self.new.log) }
        ensures volume { self.new.volume ≡ self.old.volume }
    {
        rz_contents::covered();
        rz_contents::writes_patch();
        self.sole.stands();
        let layout = self.sole.layout();
        let size = layout.block_bytes();
        let block = offset / size as u64;
        let from = place_in(layout, offset);
        if bytes.len() == size {
            return self.put(rt, path, block, bytes);
        }
        let text = self.get(rt, path, block)?;
        let text = bytes_in(&text);
        if text.len() > size {
            return Err(WriteFault::Disturbed);
        }
        let whole = patched(self.sole.alloc(), text, from, bytes)?;
        self.put(rt, path, block, &whole)
    }

    /// Writes bytes of the file at a path, from an offset on, block by block.
    pub fn write<R: Wait>(
        &mut self,
        rt: &R,
        path: &str,
        offset: u64,
        bytes: &[u8],
    ) -> Result<(), ShortWrite>
        requires range { offset + length bytes.now ≤ 4294967296 }
        ensures done { OnOk result (IfLegal J.kind (IsUpTo self.old path.now offset (length bytes.now) bytes.now self.new)) }
        ensures part { IfErr result (λ e. IfLegal J.kind (IsUpTo self.old path.now offset e.written bytes.now self.new)) }
        ensures cause { IfErr result (λ e. IfLegal J.kind (WasCause (λ s. IsWriteCause s path.now ((offset + e.written) / block_bytes_of self.old.volume.layout) e.cause) self.old self.new)) }
        ensures later { IfLegal J.kind (IsLater self.old.log self.new.log) }
        ensures volume { self.new.volume ≡ self.old.volume }
    {
        rz_contents::writes_together();
        let layout = self.sole.layout();
        let mut at: usize = 0;
        while at < bytes.len() {
            let next = offset + at as u64;
            let count = count_in(layout, next, bytes.len() - at);
            if let Err(cause) = self.write_part(rt, path, next, &bytes[at..at + count]) {
                return Err(ShortWrite { written: at, cause });
            }
            at += count;
        }
        Ok(())
    }

    // The size of the file at a path.
    fn size_of<R: Wait>(&mut self, rt: &R, path: &str) -> Result<u64, ReadFault>
        ensures told { IfOk result (λ size. IfLegal J.kind ((file : Found) × IsFileAt (model_in self.old).names path.now file × (file.object.size ≡ size))) }
        ensures same { IfLegal J.kind (LooksSame self.old self.new) }
        ensures cause { IfErr result (λ f. IfLegal J.kind ((block : ℕ) → IsReadCause self.old path.now block f)) }
        ensures later { IfLegal J.kind (IsLater self.old.log self.new.log) }
        ensures volume { self.new.volume ≡ self.old.volume }
    {
        match self.stat(rt, path) {
            Ok(attr) => match attr.kind {
                Kind::File => Ok(attr.size),
                Kind::Dir => Err(ReadFault::Names(TreeFault::IsDir)),
                Kind::Link => Err(ReadFault::Names(TreeFault::IsLink)),
            },
            Err(NameFault::Names(fault)) => Err(ReadFault::Names(fault)),
            Err(NameFault::Disturbed) => Err(ReadFault::Disturbed),
            Err(NameFault::Stopped(why)) => Err(ReadFault::Stopped(why)),
        }
    }

    // Reads bytes of one block.
    fn read_part<R: Wait>(
        &mut self,
        rt: &R,
        path: &str,
        offset: u64,
        out: &mut [u8],
    ) -> Result<(), ReadFault>
        requires part { offset % block_bytes_of self.old.volume.layout + length out.old ≤ block_bytes_of self.old.volume.layout }
        ensures gives { OnOk result (IfLegal J.kind (HasPart self.old path.now offset out.new)) }
        ensures length { length out.new ≡ length out.old }
        ensures same { IfLegal J.kind (LooksSame self.old self.new) }
        ensures cause { IfErr result (λ f. IfLegal J.kind (IsReadCause self.old path.now (offset / block_bytes_of self.old.volume.layout) f)) }
        ensures later { IfLegal J.kind (IsLater self.old.log self.new.log) }
        ensures volume { self.new.volume ≡ self.old.volume }
    {
        rz_contents::reads_text();
        let layout = self.sole.layout();
        let block = offset / layout.block_bytes() as u64;
        let text = self.get(rt, path, block)?;
        fill_from(bytes_in(&text), place_in(layout, offset), out);
        Ok(())
    }

    /// Reads bytes of the file at a path, from an offset on, until `out` is full or the file ends, and tells
    /// how many. What lies before the file's end and was never written reads as zeros.
    pub fn read<R: Wait>(
        &mut self,
        rt: &R,
        path: &str,
        offset: u64,
        out: &mut [u8],
    ) -> Result<usize, ReadFault>
        ensures some { IfOk result (λ n. n ≤ length out.old) }
        ensures gives { IfOk result (λ n. IfLegal J.kind (HasRead self.old path.now offset (length out.old) (take n out.new))) }
        ensures rest { IfOk result (λ n. drop n out.new ≡ drop n out.old) }
        ensures length { length out.new ≡ length out.old }
        ensures same { IfLegal J.kind (LooksSame self.old self.new) }
        ensures cause { IfErr result (λ f. IfLegal J.kind ((block : ℕ) × IsBlockOf self.old.volume.layout offset (length out.old) block × WasCause (λ s. IsReadCause s path.now block f) self.old self.new)) }
        ensures later { IfLegal J.kind (IsLater self.old.log self.new.log) }
        ensures volume { self.new.volume ≡ self.old.volume }
    {
        rz_contents::reads_together();
        let layout = self.sole.layout();
        let size = self.size_of(rt, path)?;
        let wanted = count_to(size, offset, out.len());
        let mut at: usize = 0;
        while at < wanted {
            let next = offset + at as u64;
            let count = count_in(layout, next, wanted - at);
            self.read_part(rt, path, next, &mut out[at..at + count])?;
            at += count;
        }
        Ok(wanted)
    }
}
