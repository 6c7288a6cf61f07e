//! The rebuild of a node.

ghost use Rattle.std.specs.Prelude.{◌≡◌, ◌↔◌, IfOk, IsTrue, ℕ, List, length};
ghost use Rattle.mj_angles.specs.Layout.{safe_of, max_bins_of};
ghost use Rattle.rz_operation_model.specs.Rebuild.{IsRebuildAnswer};
ghost use Rattle.rz_rebuild.specs.Machine.{machine_for, ask_in, end_in, IsUnderWay, IsAskOf, ComeWith, FitsIfEnough, IsRefillAsked, AreBins, IsCountFor};
ghost use Rattle.rz_rebuild.specs.Kinds.{IsListingAnswer};
ghost use Rattle.rz_rebuild.specs.Inside.{IsRebuildStep, IsProjected, machine_of, state_of};

use crate::answers::{after_enroll, after_left, after_probe, after_refill, after_replace};
use crate::asks::{ask, position_of};
use crate::copies::{after_copy, after_next};
use crate::step::{RebuildProgress, RebuildStep};
use mj_angles::Layout;
use rz_events::{FileInfo, Places, RebuildAnswer, RebuildAsk, RebuildEnd};
use rz_reader::Reader;
use std::alloc::{AllocError, Global};
use std::marker::Model;

/// The rebuild of a node.
///
/// Contracts see the layout and the node, and how far the rebuild has come; the angles and bins of the
/// records of the block in hand, while they are fetched; and the block that fits them, while it is
/// refilled.
#[derive(Drop)]
pub struct Rebuilder {
    layout: Layout,
    node: u16,
    step: RebuildStep,
    reader: Reader,
    bins: Vec<u64>,
}

impl Model for Rebuilder {
    ghost use Rattle.rz_rebuild.specs.Machine.{Machine};

    ghost Value = { Machine };

    ghost use Rattle.rz_rebuild.specs.Inside.{machine_of, IsRebuilder};

    ghost view = { λ r. machine_of r.layout r.node r.reader r.step };

    ghost invariant = { λ r. IsRebuilder r.layout r.node r.step r.reader r.bins.items };
}

impl Rebuilder {
    /// The rebuild of a node, with all the memory that it needs.
    pub fn start(alloc: Global, layout: Layout, node: u16) -> Result<Rebuilder, AllocError>
        ensures { IfOk result (λ r. r ≡ machine_for layout node) }
    {
        let reader = Reader::start(alloc, layout, &blank(layout), 0)?;
        let bins = vec![in alloc; 0u64; layout.max_bins()]?;
        Ok(Rebuilder {
            layout,
            node,
            step: RebuildStep::Probing,
            reader,
            bins,
        })
    }

    /// What the rebuild asks next.
    pub fn next(&self) -> RebuildAsk
        ensures value { result ≡ ask_in self.now.node self.now.state }
        ensures under_way { IsUnderWay self.now.layout self.now.node self.now.state }
        ensures place { IsAskOf self.now.layout result }
    {
        ask(self.node, &self.step, &self.reader)
    }

    /// The bins of the record that the node is to have as a refill.
    pub fn bins(&self) -> &[u64]
        requires { IsRefillAsked (ask_in self.now.node self.now.state) }
        ensures bins { AreBins self.now result.now }
        ensures count { IsCountFor self.now.layout (ask_in self.now.node self.now.state) result.now }
    {
        let RebuildStep::Refilling { copied, .. } = &self.step else {
            unreachable!()
        };
        let position = position_of(self.node, &copied.listed);
        &self.bins[..self.layout.bins_at(position)]
    }

    /// Takes the answer to what was asked, and with a record the bins of its position.
    pub fn tell(&mut self, answer: RebuildAnswer, bins: &[u64])
        requires asked { IsRebuildAnswer self.old.layout self.old.node (ask_in self.old.node self.old.state) answer }
        requires bins { ComeWith self.old.layout (ask_in self.old.node self.old.state) answer bins.now }
        ensures answered { FitsIfEnough self.old answer bins.now self.new }
        ensures layout { self.new.layout ≡ self.old.layout }
        ensures node { self.new.node ≡ self.old.node }
    {
        self.step = after(
            self.layout,
            self.node,
            &self.step,
            answer,
            bins,
            &mut self.reader,
        );
        prepare(
            self.layout,
            self.node,
            &self.step,
            &self.reader,
            &mut self.bins,
        );
    }

    /// How the rebuild ended, once it has.
    pub fn end(&self) -> Option<RebuildEnd>
        ensures { result ≡ end_in self.now.state }
    {
        match &self.step {
            RebuildStep::Ended(end) => Some(*end),
            _ => None,
        }
    }
}

/// How a rebuild goes on after the answer to what it asked.
fn after(
    layout: Layout,
    node: u16,
    step: &RebuildStep,
    answer: RebuildAnswer,
    bins: &[u64],
    reader: &mut Reader,
) -> RebuildStep
    requires layout { reader.old.state.layout ≡ layout }
    requires step { IsRebuildStep layout node reader.old step.now }
    requires asked { IsRebuildAnswer layout node (ask_in node (state_of reader.old.state step.now)) answer }
    requires bins { ComeWith layout (ask_in node (state_of reader.old.state step.now)) answer bins.now }
    ensures goes { FitsIfEnough (machine_of layout node reader.old step.now) answer bins.now (machine_of layout node reader.new result) }
    ensures inside { IsRebuildStep layout node reader.new result }
    ensures layout { reader.new.state.layout ≡ layout }
{
    match step {
        RebuildStep::Probing => after_probe(answer),
        RebuildStep::Enrolling { loss } => after_enroll(*loss, answer),
        RebuildStep::Replacing { loss, fence } => after_replace(*loss, *fence, answer),
        RebuildStep::Listing(tally) => after_listing(layout, node, *tally, answer, reader),
        RebuildStep::Copying(copied) => after_copy(layout, node, copied, answer, bins, reader),
        RebuildStep::Refilling { copied, length } => after_refill(copied, *length, answer),
        RebuildStep::Leaving { tally, key, .. } => after_left(*tally, *key),
        RebuildStep::Ended(_) => unreachable!(),
    }
}

/// How a rebuild goes on after the answer to which block is next.
fn after_listing(
    layout: Layout,
    node: u16,
    tally: RebuildProgress,
    answer: RebuildAnswer,
    reader: &mut Reader,
) -> RebuildStep
    requires layout { reader.old.state.layout ≡ layout }
    requires asked { IsListingAnswer layout node answer }
    ensures goes { (bins : List ℕ) → FitsIfEnough (machine_of layout node reader.old (RebuildStep.Listing tally)) answer bins (machine_of layout node reader.new result) }
    ensures inside { IsRebuildStep layout node reader.new result }
    ensures layout { reader.new.state.layout ≡ layout }
{
    let RebuildAnswer::Listed(listed) = answer else {
        unreachable!()
    };
    after_next(layout, node, tally, listed, reader)
}

/// Projects the block in hand at the position of the node, where it is to have it as a refill.
fn prepare(layout: Layout, node: u16, step: &RebuildStep, reader: &Reader, bins: &mut [u64])
    requires layout { reader.now.state.layout ≡ layout }
    requires step { IsRebuildStep layout node reader.now step.now }
    requires room { length bins.old ≡ max_bins_of layout }
    ensures { IsProjected layout node step.now reader.now.block bins.new }
{
    let RebuildStep::Refilling { copied, .. } = step else {
        return;
    };
    let position = position_of(node, &copied.listed);
    let count = layout.bins_at(position);
    reader.bins_into(position, &mut bins[..count]);
}

/// A file that has a node for each position, for a read of which nothing was asked yet.
fn blank(layout: Layout) -> FileInfo
    ensures { length result.places ≡ safe_of layout }
{
    let mut places = Places::none();
    for i in 0..layout.safe() {
        places.push(i as u16);
    }
    FileInfo {
        fid: 0,
        cid: 0,
        places,
        size: 0,
    }
}
