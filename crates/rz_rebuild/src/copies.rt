//! The read of a block that is rebuilt.

ghost use Rattle.std.specs.Prelude.{◌≡◌, ◌<◌, ℕ, List, [], None, true};
ghost use Rattle.mj_inverse.specs.Fits.{Pair};
ghost use Rattle.rz_client_model.specs.Read.{IsFetched, reader_ask, reader_end, reader_told};
ghost use Rattle.rz_reader.specs.Machine.{IsBlockOf, pairs_at};
ghost use Rattle.rz_reader.specs.Told.{IsOtherTold, IsFetchedInto};
ghost use Rattle.rz_operation_model.specs.Rebuild.{Going, IsNextAnswer, IsListed, IsRebuildAnswer, IsFetchingStamp, after_next, after_read, reader_of, base_after, ask_to_copy};
ghost use Rattle.rz_rebuild.specs.Machine.{FitsIfEnough, IsBlockIn, ComeWith, pairs_in};
ghost use Rattle.rz_rebuild.specs.Inside.{IsRebuildStep, IsListedRead, IsCopied, machine_of, state_of, tally_of, pairs_of, block_in_step, step_after};
ghost use Rattle.rz_rebuild.specs.Copies.{IsFetchAsk, IsCopyTold};

use crate::answers::{end_of, leaving};
use crate::step::{Copied, RebuildProgress, RebuildStep};
use mj_angles::Layout;
use rz_client_model::ReadStage;
use rz_events::{FetchAnswer, FileInfo, LeftWhy, Listed, ReadMark, ReaderAnswer, RebuildAnswer};
use rz_reader::Reader;

/// How a rebuild goes on with the next block, or without one.
pub fn after_next(
    layout: Layout,
    node: u16,
    tally: RebuildProgress,
    listed: Option<Listed>,
    reader: &mut Reader,
) -> RebuildStep
    requires layout { reader.old.state.layout ≡ layout }
    requires listed { IsNextAnswer layout node listed }
    ensures state { state_of reader.new.state result ≡ after_next layout (tally_of tally) listed }
    ensures inside { IsRebuildStep layout node reader.new result }
    ensures layout { reader.new.state.layout ≡ layout }
    ensures pairs { pairs_of result reader.new.pairs ≡ [] }
    ensures block { block_in_step result reader.new.block ≡ None }
{
    match listed {
        None => RebuildStep::Ended(end_of(&tally)),
        Some(listed) => {
            begin_copy(reader, &listed);
            RebuildStep::Copying(Copied {
                tally,
                listed,
                base: 0,
            })
        }
    }
}

/// The read of a listed block, whose listing is its look.
fn begin_copy(reader: &mut Reader, listed: &Listed)
    requires { (n : ℕ) × IsListed reader.old.state.layout n listed.now }
    ensures state { reader.new.state ≡ reader_of reader.old.state.layout listed.now }
    ensures pairs { reader.new.pairs ≡ [] }
    ensures block { reader.new.block ≡ None }
{
    let info = FileInfo {
        fid: listed.key.fid,
        ..listed.info
    };
    reader.again(&info, listed.key.block);
    reader.tell(ReaderAnswer::Looked(Some(listed.published)), &[]);
}

/// How a rebuild goes on after an answer to the read of its block.
pub fn after_copy(
    layout: Layout,
    node: u16,
    copied: &Copied,
    answer: RebuildAnswer,
    bins: &[u64],
    reader: &mut Reader,
) -> RebuildStep
    requires layout { reader.old.state.layout ≡ layout }
    requires step { IsRebuildStep layout node reader.old (RebuildStep.Copying copied.now) }
    requires asked { IsRebuildAnswer layout node (ask_to_copy copied.now.listed.key (reader_ask reader.old.state)) answer }
    requires bins { ComeWith layout (ask_to_copy copied.now.listed.key (reader_ask reader.old.state)) answer bins.now }
    ensures goes { FitsIfEnough (machine_of layout node reader.old (RebuildStep.Copying copied.now)) answer bins.now (machine_of layout node reader.new result) }
    ensures inside { IsRebuildStep layout node reader.new result }
    ensures layout { reader.new.state.layout ≡ layout }
{
    match answer {
        RebuildAnswer::Fetched(answer) => after_fetched(layout, node, copied, answer, bins, reader),
        RebuildAnswer::Missed => after_other(layout, node, copied, ReaderAnswer::Missed, reader),
        RebuildAnswer::Rechecked(published) => {
            after_other(
                layout,
                node,
                copied,
                ReaderAnswer::Looked(published),
                reader,
            )
        }
        RebuildAnswer::Denied(cause) => {
            after_other(layout, node, copied, ReaderAnswer::Denied(cause), reader)
        }
        _ => unreachable!(),
    }
}

/// How a rebuild goes on after the fetch of a record.
fn after_fetched(
    layout: Layout,
    node: u16,
    copied: &Copied,
    answer: FetchAnswer,
    bins: &[u64],
    reader: &mut Reader,
) -> RebuildStep
    requires layout { reader.old.state.layout ≡ layout }
    requires step { IsRebuildStep layout node reader.old (RebuildStep.Copying copied.now) }
    requires asked { IsFetchAsk layout answer bins.now (reader_ask reader.old.state) }
    ensures goes { FitsIfEnough (machine_of layout node reader.old (RebuildStep.Copying copied.now)) (RebuildAnswer.Fetched answer) bins.now (machine_of layout node reader.new result) }
    ensures inside { IsRebuildStep layout node reader.new result }
    ensures layout { reader.new.state.layout ≡ layout }
{
    let base = base_after(
        layout,
        copied.listed.published.stamp,
        &reader.state().stage,
        copied.base,
        answer,
    );
    tell_fetch(reader, answer, bins);
    after_read(layout, node, Copied { base, ..*copied }, reader)
}

/// Tells the read what a node answered to its fetch.
fn tell_fetch(reader: &mut Reader, answer: FetchAnswer, bins: &[u64])
    requires asked { IsFetchAsk reader.old.state.layout answer bins.now (reader_ask reader.old.state) }
    ensures told { IsFetchedInto reader.old answer bins.now reader.new }
    ensures stamp { (stamp : ℕ) → IsFetchingStamp stamp reader.old.state.stage → IsListedRead stamp reader.new.state.stage }
{
    reader.tell(ReaderAnswer::Fetched(answer), bins);
}

/// How a rebuild goes on after another answer to the read of its block.
fn after_other(
    layout: Layout,
    node: u16,
    copied: &Copied,
    answer: ReaderAnswer,
    reader: &mut Reader,
) -> RebuildStep
    requires layout { reader.old.state.layout ≡ layout }
    requires step { IsRebuildStep layout node reader.old (RebuildStep.Copying copied.now) }
    requires asked { IsOtherTold layout (reader_ask reader.old.state) answer }
    ensures goes { IsCopyTold reader.old (machine_of layout node reader.old (RebuildStep.Copying copied.now)) copied.now answer (machine_of layout node reader.new result) }
    ensures inside { IsRebuildStep layout node reader.new result }
    ensures layout { reader.new.state.layout ≡ layout }
{
    tell_other(reader, answer);
    after_read(layout, node, *copied, reader)
}

/// Tells the read another answer.
fn tell_other(reader: &mut Reader, answer: ReaderAnswer)
    requires asked { IsOtherTold reader.old.state.layout (reader_ask reader.old.state) answer }
    ensures state { reader.new.state ≡ reader_told true reader.old.state answer }
    ensures pairs { reader.new.pairs ≡ pairs_at reader.new.state.stage reader.old.pairs }
    ensures block { IsBlockOf reader.old.state.layout reader.old.pairs reader.new.state.stage reader.new.block }
    ensures stamp { (stamp : ℕ) → IsFetchingStamp stamp reader.old.state.stage → IsListedRead stamp reader.new.state.stage }
{
    reader.tell(answer, &[]);
}

/// The base that the first record of the stamp told.
fn base_after(layout: Layout, stamp: u64, stage: &ReadStage, base: u64, answer: FetchAnswer) -> u64
    requires fetched { IsFetched layout answer }
    requires below { base < stamp }
    requires stamp { IsFetchingStamp stamp stage.now }
    ensures value { result ≡ base_after stage.now base answer }
    ensures below { result < stamp }
{
    let ReadStage::Fetching(fetches) = stage else {
        return base;
    };
    let FetchAnswer::Held(held) = answer else {
        return base;
    };
    if fetches.given == 0 && held.stamp == fetches.stamp {
        held.base
    } else {
        base
    }
}

/// How a rebuild goes on as the read of its block stands.
fn after_read(layout: Layout, node: u16, copied: Copied, reader: &Reader) -> RebuildStep
    requires layout { reader.now.state.layout ≡ layout }
    requires copied { IsCopied layout node copied }
    requires read { IsListedRead copied.listed.published.stamp reader.now.state.stage }
    ensures state { state_of reader.now.state result ≡ Going (after_read (tally_of copied.tally) copied.listed copied.base reader.now.state (reader_end reader.now.state)) }
    ensures inside { IsRebuildStep layout node reader.now result }
    ensures pairs { (had : List Pair) → reader.now.pairs ≡ pairs_at reader.now.state.stage had → pairs_of result reader.now.pairs ≡ pairs_in (state_of reader.now.state result) had }
    ensures block { (had : List Pair) → IsBlockOf layout had reader.now.state.stage reader.now.block → IsBlockIn layout had (state_of reader.now.state result) (block_in_step result reader.now.block) }
{
    match &reader.state().stage {
        ReadStage::Looking => unreachable!(),
        ReadStage::Fetching(_) => RebuildStep::Copying(copied),
        ReadStage::Ended(mark) => after_mark(copied, *mark),
    }
}

/// How a rebuild goes on after the read of its block.
fn after_mark(copied: Copied, mark: ReadMark) -> RebuildStep
    ensures { result ≡ step_after copied mark }
{
    match mark {
        ReadMark::Found { length, .. } => RebuildStep::Refilling { copied, length },
        ReadMark::TooFew { .. } => leaving(&copied, LeftWhy::TooFew),
        ReadMark::Moved { .. } => RebuildStep::Listing(copied.tally),
        ReadMark::Denied(cause) => leaving(&copied, LeftWhy::Denied(cause)),
        ReadMark::Inconsistent => leaving(&copied, LeftWhy::Inconsistent),
        ReadMark::Hole => RebuildStep::Listing(copied.tally),
    }
}
