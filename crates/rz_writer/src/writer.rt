//! The write of a block.

ghost use Rattle.std.specs.Prelude.{◌≡◌, ◌≤◌, ◌<◌, IfOk, IfSome, IsOk, IsSome, length};
ghost use Rattle.mj_angles.specs.Layout.{block_bytes_of};
ghost use Rattle.rz_client_model.specs.Write.{IsWrite, IsWriterAnswer, writer_ask, writer_told, writer_end, writer_start};
ghost use Rattle.rz_writer.specs.Machine.{machine_with, bare_machine, key_in, block_of, HasPlaces, IsAskOf, HasBins, AreBins, IsCountOf};

use crate::sheet::{Sheet, prepare, reload};
use crate::steps;
use mj_angles::Layout;
use rz_client_model::{WriteStage, WriterState};
use rz_events::{FileInfo, Key, WriteEnd, WriterAnswer, WriterAsk};
use std::alloc::{AllocError, Global};
use std::marker::Model;

/// The write of a block of a file.
///
/// Contracts see the state of the write, and the block whose projections are sent. A bare writer has no
/// block, and gives no bins.
#[derive(Drop)]
pub struct Writer {
    state: WriterState,
    sheet: Option<Sheet>,
}

impl Model for Writer {
    ghost use Rattle.rz_writer.specs.Machine.{Machine};

    ghost Value = { Machine };

    ghost use Rattle.rz_writer.specs.Sheets.{machine_of, IsWriter};

    ghost view = { λ w. machine_of w.state w.sheet };

    ghost invariant = { λ w. IsWriter w.state w.sheet };
}

impl Writer {
    /// The write of `text` into a block of the file, with all the memory that it needs.
    pub fn start(
        alloc: Global,
        layout: Layout,
        info: &FileInfo,
        block: u64,
        text: &[u8],
    ) -> Result<Writer, AllocError>
        requires places { HasPlaces layout info.now }
        requires fits { length text.now ≤ block_bytes_of layout }
        ensures { IfOk result (λ w. w ≡ machine_with layout info.now block text.now) }
    {
        let sheet = Some(Sheet::new(alloc, layout, text)?);
        let state = begun(layout, info, block, text.len() as u32);
        Ok(Writer { state, sheet })
    }

    /// The write of a text of this length, with the same asks and ends and without bins.
    pub fn start_bare(
        _alloc: Global,
        layout: Layout,
        info: &FileInfo,
        block: u64,
        length: u32,
    ) -> Result<Writer, AllocError>
        requires places { HasPlaces layout info.now }
        requires fits { length ≤ block_bytes_of layout }
        ensures machine { IfOk result (λ w. w ≡ bare_machine layout info.now block length) }

        // It takes no memory.
        ensures made { IsOk result }
    {
        let state = begun(layout, info, block, length);
        Ok(Writer { state, sheet: None })
    }

    /// What the write asks next.
    pub fn next(&self) -> WriterAsk
        ensures value { result ≡ writer_ask self.now.state }
        ensures place { IsAskOf self.now.state.layout result }
    {
        steps::ask(&self.state)
    }

    /// The bins of the position that the write asks a node to keep.
    pub fn bins(&self) -> &[u64]
        requires { HasBins self.now }
        ensures bins { AreBins self.now result.now }
        ensures count { IsCountOf self.now.state.layout (writer_ask self.now.state) result.now }
    {
        let WriterAsk::Keep { position, .. } = steps::ask(&self.state) else {
            unreachable!()
        };
        let Some(sheet) = &self.sheet else {
            unreachable!()
        };
        &sheet.bins[..self.state.layout.bins_at(position)]
    }

    /// Takes the answer to what was asked.
    pub fn tell(&mut self, answer: WriterAnswer)
        requires { IsWriterAnswer (writer_ask self.old.state) answer }
        ensures { self.new ≡ record self.old { state = writer_told self.old.state answer } }
    {
        let stage = steps::after_answer(&self.state, answer);
        self.state.stage = stage;
        prepare(self.state.layout, steps::ask(&self.state), &mut self.sheet);
    }

    /// How far the write has come.
    pub fn state(&self) -> &WriterState
        ensures value { result.now ≡ self.now.state }
        ensures write { IsWrite self.now.state }
    {
        &self.state
    }

    /// How the write ended, once it has.
    pub fn end(&self) -> Option<WriteEnd>
        ensures { result ≡ writer_end self.now.state }
    {
        match &self.state.stage {
            WriteStage::Ended(end) => Some(*end),
            _ => None,
        }
    }

    /// Begins to write another text into a block of a file of the same layout.
    pub fn again(&mut self, info: &FileInfo, block: u64, text: &[u8])
        requires whole { IsSome self.old.block }
        requires places { HasPlaces self.old.state.layout info.now }
        requires fits { length text.now ≤ block_bytes_of self.old.state.layout }
        ensures { self.new ≡ machine_with self.old.state.layout info.now block text.now }
    {
        self.state = begun(self.state.layout, info, block, text.len() as u32);
        reload(self.state.layout, &mut self.sheet, text);
    }

    /// Begins to write another text, of this length, without bins.
    pub fn again_bare(&mut self, info: &FileInfo, block: u64, length: u32)
        requires places { HasPlaces self.old.state.layout info.now }
        requires fits { length ≤ block_bytes_of self.old.state.layout }
        ensures { self.new ≡ bare_machine self.old.state.layout info.now block length }
    {
        self.state = begun(self.state.layout, info, block, length);
        self.sheet = None;
    }
}

/// The write of a text of this length, of which nothing was asked yet.
fn begun(layout: Layout, info: &FileInfo, block: u64, length: u32) -> WriterState
    requires places { HasPlaces layout info.now }
    requires fits { length ≤ block_bytes_of layout }
    ensures value { result ≡ writer_start layout (key_in info.now block) info.now.places length }
    ensures write { IsWrite result }
{
    WriterState {
        layout,
        key: Key {
            fid: info.fid,
            block,
        },
        places: info.places,
        length,
        stage: WriteStage::Beginning,
    }
}
