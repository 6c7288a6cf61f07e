//! The write of the block in hand.

ghost use Rattle.std.specs.Prelude.{◌≡◌, ◌≤◌, IfOk, IsSome, None, Some, length};
ghost use Rattle.mj_angles.specs.Layout.{block_bytes_of};
ghost use Rattle.rz_client_model.specs.Write.{IsWrite, IsWriterAnswer, writer_ask, writer_told, writer_end, writer_start};
ghost use Rattle.rz_writer.specs.Machine.{AreBinsFor, HasBinsFor, HasPlaces, IsAskOf, IsCountOf, key_in};
ghost use Rattle.rz_file.specs.Writing.{own_write};

use mj_angles::Layout;
use rz_client_model::WriterState;
use rz_events::{FileInfo, WriteEnd, WriterAnswer, WriterAsk};
use rz_writer::Writer;
use std::alloc::{AllocError, Global};
use std::marker::Model;

/// The write of the block in hand.
///
/// Contracts see how far it has come; the block whose bins it makes itself, which it does not have where a
/// range is only read; and the place of the block in a batch, where its bins stand there.
#[derive(Drop)]
pub struct BlockWriter {
    layout: Layout,
    /// The write of a text, with its bins.
    own: Writer,
    /// The write of a block of the batch.
    bare: Writer,
    place: Option<usize>,
}

impl Model for BlockWriter {
    ghost use Rattle.rz_file.specs.Writing.{AreWriters, BlockWrite, write_of};

    ghost Value = { BlockWrite };

    ghost view = { λ w. write_of w.layout w.place w.own w.bare };

    ghost invariant = { λ w. AreWriters w.layout w.own w.bare };
}

impl BlockWriter {
    /// A writer of the blocks of a file like this one.
    pub fn start(alloc: Global, layout: Layout, info: &FileInfo) -> Result<BlockWriter, AllocError>
        requires { HasPlaces layout info.now }
        ensures layout { IfOk result (λ w. w.layout ≡ layout) }
        ensures own { IfOk result (λ w. IsSome w.own) }
    {
        let own = Writer::start(alloc, layout, info, 0, b"")?;
        BlockWriter::with(alloc, layout, info, own)
    }

    /// One that gives no bins of its own.
    pub fn start_bare(
        alloc: Global,
        layout: Layout,
        info: &FileInfo,
    ) -> Result<BlockWriter, AllocError>
        requires { HasPlaces layout info.now }
        ensures { IfOk result (λ w. w.layout ≡ layout) }
    {
        let own = Writer::start_bare(alloc, layout, info, 0, 0)?;
        BlockWriter::with(alloc, layout, info, own)
    }

    /// One that makes its own bins, if any, in this writer.
    fn with(
        alloc: Global,
        layout: Layout,
        info: &FileInfo,
        own: Writer,
    ) -> Result<BlockWriter, AllocError>
        requires places { HasPlaces layout info.now }
        requires layout { own.state.layout ≡ layout }
        ensures layout { IfOk result (λ w. w.layout ≡ layout) }
        ensures own { IfOk result (λ w. w.own ≡ own.block) }
    {
        let bare = Writer::start_bare(alloc, layout, info, 0, 0)?;
        Ok(BlockWriter {
            layout,
            own,
            bare,
            place: None,
        })
    }

    /// The one of the two writers that is under way.
    fn hand(&self) -> &Writer
        ensures { result.now.state ≡ self.now.state }
    {
        match self.place {
            Some(_) => &self.bare,
            None => &self.own,
        }
    }

    /// What the write asks next.
    pub fn next(&self) -> WriterAsk
        ensures value { result ≡ writer_ask self.now.state }
        ensures place { IsAskOf self.now.state.layout result }
    {
        self.hand().next()
    }

    /// The place of the block in the batch, where its bins stand there.
    pub fn place(&self) -> Option<usize>
        ensures { result ≡ self.now.place }
    {
        self.place
    }

    /// The bins of its own block at the position that it asks a node to keep.
    pub fn own_bins(&self) -> &[u64]
        requires here { self.now.place ≡ None }
        requires has { HasBinsFor (writer_ask self.now.state) self.now.own }
        ensures bins { AreBinsFor self.now.layout (writer_ask self.now.state) self.now.own result.now }
        ensures count { IsCountOf self.now.layout (writer_ask self.now.state) result.now }
    {
        self.own.bins()
    }

    /// Takes the answer to what was asked.
    pub fn tell(&mut self, answer: WriterAnswer)
        requires { IsWriterAnswer (writer_ask self.old.state) answer }
        ensures { self.new ≡ record self.old { state = writer_told self.old.state answer } }
    {
        match self.place {
            Some(_) => self.bare.tell(answer),
            None => self.own.tell(answer),
        }
    }

    /// How far the write has come.
    pub fn state(&self) -> &WriterState
        ensures value { result.now ≡ self.now.state }
        ensures write { IsWrite self.now.state }
    {
        self.hand().state()
    }

    /// How the write ended, once it has.
    pub fn end(&self) -> Option<WriteEnd>
        ensures { result ≡ writer_end self.now.state }
    {
        self.hand().end()
    }

    /// Begins to write another text, with bins of its own.
    pub fn again(&mut self, info: &FileInfo, block: u64, text: &[u8])
        requires own { IsSome self.old.own }
        requires places { HasPlaces self.old.layout info.now }
        requires fits { length text.now ≤ block_bytes_of self.old.layout }
        ensures { self.new ≡ own_write self.old.layout info.now block text.now }
    {
        self.own.again(info, block, text);
        self.place = None;
    }

    /// Begins to write the block at this place in the batch, with a text of this length.
    pub fn again_at(&mut self, info: &FileInfo, block: u64, length: u32, place: usize)
        requires places { HasPlaces self.old.layout info.now }
        requires fits { length ≤ block_bytes_of self.old.layout }
        ensures { self.new ≡ record self.old { state = writer_start self.old.layout (key_in info.now block) info.now.places length; place = Some place } }
    {
        self.bare.again_bare(info, block, length);
        self.place = Some(place);
    }
}
