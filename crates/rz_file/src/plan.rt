//! The write or the read of a range that waits for its file.

ghost use Rattle.std.specs.Prelude.{◌≡◌, ◌≤◌, ◌<◌, ◌+◌, ◌*◌, ◌^◌, IfOk, length, vec_len, vec_capacity};
ghost use Rattle.mj_angles.specs.Layout.{safe_of, block_bytes_of};
ghost use Rattle.rz_batch.specs.Batch.{batch_of};
ghost use Rattle.rz_operation_model.specs.Work.{WriteBytes, ReadBytes};
ghost use Rattle.rz_file.specs.Machine.{begun, count_in, is_write, machine_with, offset_in};
ghost use Rattle.rz_file.specs.Ranges.{from_first_block};

use crate::FileMachine;
use crate::block_writer::BlockWriter;
use crate::machine::begin;
use crate::range::{RangeProgress, from_first_block};
use crate::span::{Aim, Span};
use mj_angles::Layout;
use rz_batch::Batch;
use rz_events::{FileInfo, Places};
use rz_reader::Reader;
use std::alloc::{AllocError, Global};
use std::marker::Model;
use std::thread::Threads;

/// The write or the read of a range that waits for its file, with all the memory that it needs.
#[derive(Drop)]
pub struct FilePlan {
    layout: Layout,
    offset: u64,
    count: u64,
    span: Span,
    reader: Reader,
    writer: BlockWriter,
}

impl Model for FilePlan {
    ghost use Rattle.rz_file.specs.Machine.{FilePlanView};

    ghost Value = { FilePlanView };

    ghost use Rattle.rz_file.specs.Inside.{plan_in, IsFilePlan};

    ghost view = { λ p. record { layout = p.layout; plan = plan_in p.span.aim p.offset p.span.bytes.items p.count } };

    ghost invariant = { λ p. IsFilePlan p.layout p.offset p.count p.span p.reader p.writer };
}

impl FilePlan {
    /// The write of these bytes from an offset on.
    pub fn write(
        alloc: Global,
        layout: Layout,
        offset: u64,
        bytes: Vec<u8>,
    ) -> Result<FilePlan, AllocError>
        requires { offset + vec_len bytes < 2 ^ 64 }
        ensures { IfOk result (λ p. p ≡ record { layout = layout; plan = WriteBytes offset bytes.items }) }
    {
        let batch = Batch::forward(alloc, layout, from_first_block(layout, offset, &bytes))?;
        FilePlan::with_batch(alloc, layout, offset, bytes, batch)
    }

    /// The same, where the bins of whole blocks are made in as many threads as there are processors.
    pub fn write_par(
        rt: &(impl Threads + Sync),
        alloc: Global,
        layout: Layout,
        offset: u64,
        bytes: Vec<u8>,
    ) -> Result<FilePlan, AllocError>
        requires { offset + vec_len bytes < 2 ^ 64 }
        ensures { IfOk result (λ p. p ≡ record { layout = layout; plan = WriteBytes offset bytes.items }) }
    {
        let whole = from_first_block(layout, offset, &bytes);
        let batch = Batch::forward_par(rt, alloc, layout, whole)?;
        FilePlan::with_batch(alloc, layout, offset, bytes, batch)
    }

    /// The write of bytes, with the bins of the blocks that they cover whole.
    fn with_batch(
        alloc: Global,
        layout: Layout,
        offset: u64,
        bytes: Vec<u8>,
        batch: Batch,
    ) -> Result<FilePlan, AllocError>
        requires fits { offset + vec_len bytes < 2 ^ 64 }
        requires batch { batch ≡ batch_of layout (from_first_block layout offset bytes.items) }
        ensures { IfOk result (λ p. p ≡ record { layout = layout; plan = WriteBytes offset bytes.items }) }
    {
        let info = blank(layout);
        let count = bytes.len() as u64;
        let span = with_buffers(alloc, layout, Aim::Giving, bytes, batch)?;
        let reader = Reader::start(alloc, layout, &info, 0)?;
        let writer = BlockWriter::start(alloc, layout, &info)?;
        Ok(FilePlan {
            layout,
            offset,
            count,
            span,
            reader,
            writer,
        })
    }

    /// The read of so many bytes from an offset on.
    pub fn read(
        alloc: Global,
        layout: Layout,
        offset: u64,
        count: u64,
    ) -> Result<FilePlan, AllocError>
        ensures { IfOk result (λ p. p ≡ record { layout = layout; plan = ReadBytes offset count }) }
    {
        let info = blank(layout);
        let bytes = Vec::with_capacity(alloc, count as usize)?;
        let batch = Batch::forward(alloc, layout, b"")?;
        let span = with_buffers(alloc, layout, Aim::Taking, bytes, batch)?;
        let reader = Reader::start(alloc, layout, &info, 0)?;
        let writer = BlockWriter::start_bare(alloc, layout, &info)?;
        Ok(FilePlan {
            layout,
            offset,
            count,
            span,
            reader,
            writer,
        })
    }

    /// Where the range begins.
    pub fn offset(&self) -> u64
        ensures { result ≡ offset_in self.now.plan }
    {
        self.offset
    }

    /// So many bytes are written, or are to be read.
    pub fn count(&self) -> u64
        ensures { result ≡ count_in self.now.plan }
    {
        self.count
    }

    /// Whether bytes are written.
    pub fn is_write(&self) -> bool
        ensures { result ≡ is_write self.now.plan }
    {
        matches!(self.span.aim, Aim::Giving)
    }

    /// The write or the read of the range in this file.
    pub fn open(self, info: &FileInfo) -> FileMachine
        requires { length info.now.places ≡ safe_of self.layout }
        ensures { result ≡ machine_with self.layout (begun self.layout info.now self.plan) }
    {
        let size = match self.span.aim {
            Aim::Taking => self.count.min(info.size.saturating_sub(self.offset)),
            Aim::Giving => self.count,
        };
        let FilePlan {
            layout,
            offset,
            count: _,
            mut span,
            reader,
            writer,
        } = self;
        span.range = RangeProgress {
            info: *info,
            offset,
            size,
            done: 0,
        };
        begin(layout, span, reader, writer)
    }
}

/// A range that waits for its file, with room for the texts of a block.
fn with_buffers(
    alloc: Global,
    layout: Layout,
    aim: Aim,
    bytes: Vec<u8>,
    batch: Batch,
) -> Result<Span, AllocError>
    ensures aim { IfOk result (λ s. s.aim ≡ aim) }
    ensures bytes { IfOk result (λ s. s.bytes ≡ bytes) }
    ensures batch { IfOk result (λ s. s.batch ≡ batch) }
    ensures found { IfOk result (λ s. vec_len s.found ≡ block_bytes_of layout) }
    ensures text { IfOk result (λ s. 2 * block_bytes_of layout ≤ vec_capacity s.text) }
{
    let range = RangeProgress {
        info: blank(layout),
        offset: 0,
        size: 0,
        done: 0,
    };
    let text = Vec::with_capacity(alloc, 2 * layout.block_bytes())?;
    let found = vec![in alloc; 0u8; layout.block_bytes()]?;
    Ok(Span {
        range,
        aim,
        bytes,
        batch,
        text,
        found,
    })
}

/// A file that has a node for each position, for a machine that waits for its file.
fn blank(layout: Layout) -> FileInfo
    ensures { length result.places ≡ safe_of layout }
{
    let mut places = Places::none();
    for i in 0..layout.safe() {
        places.push(i as u16);
    }
    FileInfo {
        fid: 0,
        cid: 0,
        places,
        size: 0,
    }
}
