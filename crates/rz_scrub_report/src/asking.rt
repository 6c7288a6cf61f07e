//! The records of a block, as its nodes give them.

ghost use Rattle.std.specs.Prelude.{◌≡◌, None, IfOk, length, take};
ghost use Rattle.std.specs.Vec.{vec_len};
ghost use Rattle.mj_angles.specs.Layout.{safe_of, inverse_of, cols_of, bins_at_of, max_bins_of};
ghost use Rattle.rz_scrub.specs.Records.{bins_at, no_records, with_bins};
ghost use Rattle.rz_scrub_report.specs.Asks.{AreAsked, IsRecordAsked, AreRecordsFound};
ghost use Rattle.rz_scrub_report.specs.Findings.{IsFinding};
ghost use Rattle.rz_scrub_report.specs.Stores.{HasAsked};

use crate::finding::{Finding, finding_of};
use crate::store::ScrubbedStore;
use mj_angles::Layout;
use rz_events::{FetchAnswer, Listed};
use rz_scrub::Scrub;
use rz_words::Block;
use std::alloc::{AllocError, Global};

/// Judges one block after another: the records that came of it, and the room for them.
#[derive(Drop)]
pub(crate) struct BlockJudge {
    layout: Layout,
    scrub: Scrub,
    block: Block,
    room: Vec<u64>,
    ghost scrubs: { scrub.layout ≡ layout },
    ghost places: { length scrub.bins ≡ safe_of layout },
    ghost rows: { block.rows ≡ inverse_of layout },
    ghost cols: { block.cols ≡ cols_of layout },
    ghost full: { vec_len room ≡ max_bins_of layout },
}

impl BlockJudge {
    pub(crate) fn new(alloc: Global, layout: Layout) -> Result<BlockJudge, AllocError>
        ensures { IfOk result (λ d. d.layout ≡ layout) }
    {
        let scrub = Scrub::start(alloc, layout)?;
        let block = Block::zero(alloc, layout.inverse(), layout.cols())?;
        let room = vec![in alloc; 0u64; layout.max_bins()]?;
        Ok(BlockJudge {
            layout,
            scrub,
            block,
            room,
        })
    }

    /// Forgets all records.
    fn clear(&mut self)
        ensures layout { self.new.layout ≡ self.old.layout }
        ensures bare { self.new.scrub ≡ no_records self.old.layout }
    {
        self.scrub.clear();
    }

    /// Adds the bins in front of the room as the record at a position that has none yet. At a position that
    /// the layout does not have nothing is added.
    fn add(&mut self, position: u8)
        requires bare { bins_at self.old.scrub position ≡ None }
        ensures layout { self.new.layout ≡ self.old.layout }
        ensures added { self.new.scrub ≡ with_bins self.old.scrub position (take (bins_at_of self.old.layout position) self.old.room.items) }
    {
        if (position as usize) < self.layout.safe() {
            let count = self.layout.bins_at(position);
            self.scrub.add(position, &self.room[..count]);
        }
    }

    /// What is found of the records.
    fn finding(&mut self) -> Finding
        ensures layout { self.new.layout ≡ self.old.layout }
        ensures finding { IsFinding self.old.scrub result }
    {
        finding_of(self.layout, &mut self.scrub, &mut self.block)
    }
}

/// Asks one node of a block for its record, and adds what it gives.
fn ask<S: ScrubbedStore>(
    store: &mut S,
    judge: &mut BlockJudge,
    listed: &Listed,
    position: u8,
    node: u16,
)
    requires ready { S.is_open store.old }
    requires layout { (S.described store.old).layout ≡ judge.old.layout }
    requires bare { bins_at judge.old.scrub position ≡ None }
    ensures judge { judge.new.layout ≡ judge.old.layout }
    ensures asked { HasAsked S.is_open S.described S.gives S.state S.counts S.only_asked store.old store.new (λ w next. IsRecordAsked (S.gives store.old) listed.now position node w next judge.old.scrub judge.new.scrub) }
{
    let stamp = listed.published.stamp;
    let answer = store.fetch(node, listed.key, stamp, &mut judge.room);
    if let FetchAnswer::Held(_) = answer {
        judge.add(position);
    }
}

/// Asks each node of a block for its record.
fn gather<S: ScrubbedStore>(store: &mut S, judge: &mut BlockJudge, listed: &Listed)
    requires ready { S.is_open store.old }
    requires layout { (S.described store.old).layout ≡ judge.old.layout }
    requires bare { judge.old.scrub ≡ no_records judge.old.layout }
    ensures judge { judge.new.layout ≡ judge.old.layout }
    ensures asked { HasAsked S.is_open S.described S.gives S.state S.counts S.only_asked store.old store.new (λ w next. AreAsked (S.gives store.old) listed.now 0 listed.now.info.places w next (no_records judge.old.layout) judge.new.scrub) }
{
    let nodes = listed.info.places.list();
    for (i, node) in nodes.iter().enumerate() {
        ask(store, judge, listed, i as u8, *node);
    }
}

/// Asks the nodes of a block, and judges what they give.
pub(crate) fn find<S: ScrubbedStore>(
    store: &mut S,
    judge: &mut BlockJudge,
    listed: &Listed,
) -> Finding
    requires ready { S.is_open store.old }
    requires layout { (S.described store.old).layout ≡ judge.old.layout }
    ensures judge { judge.new.layout ≡ judge.old.layout }
    ensures found { HasAsked S.is_open S.described S.gives S.state S.counts S.only_asked store.old store.new (λ w next. AreRecordsFound judge.old.layout (S.gives store.old) listed.now w result next) }
{
    judge.clear();
    gather(store, judge, listed);
    judge.finding()
}
