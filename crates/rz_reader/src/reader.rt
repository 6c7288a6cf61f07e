//! The read of a block.

ghost use Rattle.std.specs.Prelude.{◌≡◌, ◌≤◌, ◌<◌, ◌*◌, ℕ, List, Some, All, IfOk, IsSome, IsSomeAnd, length, take};
ghost use Rattle.mj_angles.specs.Layout.{safe_of, inverse_of, cols_of, block_bytes_of, bins_at_of, angle_of};
ghost use Rattle.mj_forward.specs.Forward.{projection_of};
ghost use Rattle.rz_words.specs.Grid.{bytes_from, grid_from_bytes};
ghost use Rattle.rz_client_model.specs.Read.{IsReaderAnswer, reader_ask, reader_end, reader_start, next_position};
ghost use Rattle.rz_reader.specs.Machine.{machine_for, pairs_at, block_at, pairs_with, pairs_after, IsStageAfter, IsStateAfter, IsBlockOf, IsAskOf, HasBins, HasFound, HasIfFound, IsShortIfFound};
ghost use Rattle.rz_reader.specs.Inside.{IsFetching, IsStage};

use crate::seen::{next_position, with_record};
use crate::steps;
use crate::steps::Record;
use mj_angles::Layout;
use mj_forward::project;
use mj_inverse::Work;
use rz_client_model::{ReadStage, ReaderState};
use rz_events::{FileInfo, Key, ReadMark, ReaderAnswer, ReaderAsk};
use rz_words::Block;
use std::alloc::{AllocError, Global};
use std::marker::Model;

/// The read of a block of a file.
///
/// Contracts see the state of the read; the angles and bins of the records of the published stamp, while
/// they are fetched; and the block that fits them, once it is found.
#[derive(Drop)]
pub struct Reader {
    state: ReaderState,
    work: Work,
    block: Block,
}

impl Model for Reader {
    ghost use Rattle.rz_reader.specs.Machine.{Machine};

    ghost Value = { Machine };

    ghost use Rattle.rz_reader.specs.Inside.{machine_of, IsReader};

    ghost view = { λ r. machine_of r.state r.work r.block };

    ghost invariant = { λ r. IsReader r.state r.work r.block };
}

impl Reader {
    /// The read of a block of the file, with all the memory that it needs.
    pub fn start(
        alloc: Global,
        layout: Layout,
        info: &FileInfo,
        block: u64,
    ) -> Result<Reader, AllocError>
        requires { length info.now.places ≡ safe_of layout }
        ensures { IfOk result (λ r. r ≡ machine_for layout info.now block) }
    {
        let state = begun(layout, info, block);
        let work = Work::new(alloc, layout.inverse(), layout.cols())?;
        let block = Block::zero(alloc, layout.inverse(), layout.cols())?;
        Ok(Reader { state, work, block })
    }

    /// What the read asks next.
    pub fn next(&self) -> ReaderAsk
        ensures value { result ≡ reader_ask self.now.state }
        ensures place { IsAskOf self.now.state.layout result }
    {
        steps::ask(&self.state)
    }

    /// Takes the answer to what was asked, and with a record the bins of its position.
    pub fn tell(&mut self, answer: ReaderAnswer, bins: &[u64])
        requires asked { IsReaderAnswer self.old.state.layout (reader_ask self.old.state) answer }
        requires bins { HasBins self.old.state.layout (reader_ask self.old.state) answer bins.now }
        ensures state { IsStateAfter self.old answer bins.now self.new.state }
        ensures pairs { self.new.pairs ≡ pairs_at self.new.state.stage (pairs_after self.old answer bins.now) }
        ensures block { IsBlockOf self.old.state.layout (pairs_after self.old answer bins.now) self.new.state.stage self.new.block }
    {
        let layout = self.state.layout;
        if let Some(fetched) = steps::record_of(&self.state.stage, answer) {
            let stage = after_record(layout, fetched, bins, &mut self.work, &mut self.block);
            self.state.stage = stage;
            return;
        }
        let stage = steps::after_other(&self.state, answer);
        self.state.stage = stage;
    }

    /// How far the read has come.
    pub fn state(&self) -> &ReaderState
        ensures value { result.now ≡ self.now.state }
        ensures found { HasIfFound self.now.state.stage self.now.block }
        ensures short { IsShortIfFound self.now.state.layout self.now.state.stage }
    {
        &self.state
    }

    /// How the read ended, once it has.
    pub fn end(&self) -> Option<ReadMark>
        ensures { result ≡ reader_end self.now.state }
    {
        match &self.state.stage {
            ReadStage::Ended(end) => Some(*end),
            _ => None,
        }
    }

    /// Begins to read another block of a file of the same layout.
    pub fn again(&mut self, info: &FileInfo, block: u64)
        requires { length info.now.places ≡ safe_of self.old.state.layout }
        ensures { self.new ≡ machine_for self.old.state.layout info.now block }
    {
        self.state = begun(self.state.layout, info, block);
        self.work.clear();
    }

    /// Writes the bins of the block that was found at a position, as many as `out` has.
    pub fn bins_into(&self, position: u8, out: &mut [u64])
        requires found { IsSome self.now.block }
        requires place { position < safe_of self.now.state.layout }
        requires room { length out.old ≡ bins_at_of self.now.state.layout position }
        ensures { IsSomeAnd self.now.block (λ g. out.new ≡ projection_of g (angle_of self.now.state.layout position)) }
    {
        project_at(self.state.layout, position, &self.block, out);
    }

    /// Writes the text that was found, whose length `out` has.
    pub fn text_into(&self, out: &mut [u8])
        requires { HasFound (reader_end self.now.state) (length out.old) }
        ensures bytes { IsSomeAnd self.now.block (λ g. out.new ≡ take (length out.old) (bytes_from g.words)) }

        // The text whose block was found comes back.
        ensures text { (text : List ℕ) → All (λ b. b < 256) text → length text ≡ length out.old →
            self.now.block ≡ Some (grid_from_bytes (inverse_of self.now.state.layout) (cols_of self.now.state.layout) text) → out.new ≡ text }
    {
        self.block.to_bytes_into(out);
    }
}

/// Projects a block at a position.
fn project_at(layout: Layout, position: u8, block: &Block, out: &mut [u64])
    requires place { position < safe_of layout }
    requires rows { block.now.rows ≡ inverse_of layout }
    requires cols { block.now.cols ≡ cols_of layout }
    requires room { length out.old ≡ bins_at_of layout position }
    ensures { out.new ≡ projection_of block.now (angle_of layout position) }
{
    let _count = layout.bins_at(position);
    project(block, layout.angle(position), out);
}

/// The read of a block of which nothing was asked yet.
fn begun(layout: Layout, info: &FileInfo, block: u64) -> ReaderState
    ensures { result ≡ reader_start layout (record { fid = info.now.fid; block = block }) info.now.places }
{
    ReaderState {
        layout,
        key: Key {
            fid: info.fid,
            block,
        },
        places: info.places,
        stage: ReadStage::Looking,
    }
}

/// How far the read has come after a record of the published stamp.
fn after_record(
    layout: Layout,
    fetched: Record,
    bins: &[u64],
    work: &mut Work,
    block: &mut Block,
) -> ReadStage
    requires fetching { IsFetching layout work.old.pairs fetched.fetches }
    requires some { 0 < fetched.fetches.left }
    requires short { fetched.length ≤ block_bytes_of layout }
    requires work_rows { work.old.rows ≡ inverse_of layout }
    requires work_cols { work.old.cols ≡ cols_of layout }
    requires rows { block.old.rows ≡ inverse_of layout }
    requires cols { block.old.cols ≡ cols_of layout }
    requires bins { bins_at_of layout (next_position fetched.fetches) ≤ length bins.now }
    ensures state { IsStageAfter layout (pairs_with layout work.old.pairs fetched bins.now) fetched result }
    ensures pairs { pairs_at result work.new.pairs ≡ pairs_at result (pairs_with layout work.old.pairs fetched bins.now) }
    ensures block { IsBlockOf layout (pairs_with layout work.old.pairs fetched bins.now) result (block_at result block.new) }
    ensures stage { IsStage layout work.new.pairs result }
    ensures work_rows { work.new.rows ≡ inverse_of layout }
    ensures work_cols { work.new.cols ≡ cols_of layout }
    ensures rows { block.new.rows ≡ inverse_of layout }
    ensures cols { block.new.cols ≡ cols_of layout }
{
    let position = next_position(layout, &fetched.fetches);
    work.add(layout.angle(position), &bins[..layout.bins_at(position)]);
    let fetches = with_record(layout, fetched.fetches, fetched.length);
    if (fetches.given as usize) < layout.inverse() {
        return ReadStage::Fetching(fetches);
    }
    let end = match work.solve(block) {
        Ok(()) => ReadMark::Found {
            stamp: fetches.stamp,
            length: fetches.length,
        },
        Err(_) => ReadMark::Inconsistent,
    };
    ReadStage::Ended(end)
}
