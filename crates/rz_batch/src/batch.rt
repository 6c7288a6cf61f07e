//! Batches.

ghost use Rattle.std.specs.Prelude.{◌≡◌, ◌≤◌, ◌<◌, ◌*◌, ◌+◌, ◌/◌, [], ℕ, List, All, IfOk, length, map, slice_range, slice_index_or};
ghost use Rattle.rz_words.specs.Grid.{grid_from_bytes};
ghost use Rattle.mj_angles.specs.declared.layout.Layout.{Layout};
ghost use Rattle.mj_angles.specs.Layout.{inverse_of, safe_of, cols_of, angle_of, bins_at_of, block_bytes_of};
ghost use Rattle.mj_forward.specs.Forward.{projection_of, start_of};
ghost use Rattle.rz_batch.specs.Batch.{batch_of, block_at, parts_of, projections_of, IsProjected};

use mj_angles::Layout;
use mj_forward::project_all;
use rayon::prelude::*;
use rz_words::Block;
use std::alloc::{AllocError, Global};
use std::marker::Model;
use std::thread::Threads;

/// The bins of many blocks at all positions of a layout.
///
/// Contracts see the layout, and of each block its bins at each position.
#[derive(Drop)]
pub struct Batch {
    layout: Layout,
    blocks: Vec<Vec<u64>>,
}

impl Model for Batch {
    ghost use Rattle.std.specs.Prelude.{◌≡◌, All, length, map};
    ghost use Rattle.mj_angles.specs.Layout.{safe_of};
    ghost use Rattle.mj_forward.specs.Forward.{start_of};
    ghost use Rattle.rz_batch.specs.Batch.{Projections, parts_of};

    ghost Value = { Projections };

    ghost view = { λ b. record { layout = b.layout; blocks = map (λ v. parts_of b.layout v.items) b.blocks.items } };

    ghost invariant = { λ b. All (λ v. length v.items ≡ start_of b.layout (safe_of b.layout)) b.blocks.items };
}

impl Batch {
    /// The projections of every whole block of `bytes`.
    pub fn forward(alloc: Global, layout: Layout, bytes: &[u8]) -> Result<Batch, AllocError>
        ensures { IfOk result (λ b. b ≡ batch_of layout bytes.now) }
    {
        let size = layout.block_bytes();
        let mut blocks = Vec::with_capacity(alloc, bytes.len() / size)?;
        for i in 0..bytes.len() / size {
            blocks.push(projections(alloc, layout, bytes, i)?)?;
        }
        Ok(Batch { layout, blocks })
    }

    /// The same in as many threads as there are processors.
    pub fn forward_par(
        rt: &(impl Threads + Sync),
        alloc: Global,
        layout: Layout,
        bytes: &[u8],
    ) -> Result<Batch, AllocError>
        ensures { IfOk result (λ b. b ≡ batch_of layout bytes.now) }
    {
        let blocks = project_in_threads(rt, alloc, layout, bytes)?;
        Ok(Batch { layout, blocks })
    }

    /// The layout.
    pub fn layout(&self) -> Layout
        ensures { result ≡ self.now.layout }
    {
        self.layout
    }

    /// How many blocks there are.
    pub fn len(&self) -> usize
        ensures { result ≡ length self.now.blocks }
    {
        self.blocks.len()
    }

    /// The bins of a block at a position.
    pub fn bins(&self, block: usize, position: u8) -> &[u64]
        requires block { block < length self.now.blocks }
        requires position { position < safe_of self.now.layout }
        ensures value { result.now ≡ slice_index_or (slice_index_or self.now.blocks block []) position [] }
        ensures projection { (y : Layout) (bytes : List ℕ) → self.now ≡ batch_of y bytes →
            result.now ≡ projection_of (block_at y bytes block) (angle_of y position) }
        ensures count { length result.now ≡ bins_at_of self.now.layout position }
    {
        part_at(&self.blocks[block], self.layout, position)
    }
}

/// The bins at a position, of those at all positions.
fn part_at(bins: &[u64], layout: Layout, position: u8) -> &[u64]
    requires position { position < safe_of layout }
    requires all { length bins.now ≡ start_of layout (safe_of layout) }
    ensures part { result.now ≡ slice_range bins.now (start_of layout position) (start_of layout position + bins_at_of layout position) }
    ensures count { length result.now ≡ bins_at_of layout position }
{
    let from = start_of(layout, position);
    let to = from + layout.bins_at(position);
    &bins[from..to]
}

/// Where the bins at a position begin.
fn start_of(layout: Layout, position: u8) -> usize
    requires { position ≤ safe_of layout }
    ensures value { result ≡ start_of layout position }
    ensures few { result ≤ 2104 * position }
{
    let mut start = 0;
    for j in 0..position {
        start += layout.bins_at(j);
    }
    start
}

/// The bins of block number `i` at all positions, one after the other.
fn projections(
    alloc: Global,
    layout: Layout,
    bytes: &[u8],
    i: usize,
) -> Result<Vec<u64>, AllocError>
    requires { i < length bytes.now / block_bytes_of layout }
    ensures { IfOk result (λ v. IsProjected layout bytes.now i v.items) }
{
    let size = layout.block_bytes();
    projections_of_one(alloc, layout, &bytes[i * size..i * size + size])
}

/// The bins of the block of these bytes at all positions, one after the other.
fn projections_of_one(alloc: Global, layout: Layout, bytes: &[u8]) -> Result<Vec<u64>, AllocError>
    requires { length bytes.now ≡ block_bytes_of layout }
    ensures parts { IfOk result (λ v. parts_of layout v.items ≡ projections_of layout (grid_from_bytes (inverse_of layout) (cols_of layout) bytes.now)) }
    ensures len { IfOk result (λ v. length v.items ≡ start_of layout (safe_of layout)) }
{
    let positions = layout.safe() as u8;
    let block = Block::from_bytes(alloc, layout.inverse(), layout.cols(), bytes)?;
    let mut bins = vec![in alloc; 0u64; start_of(layout, positions)]?;
    project_all(layout, block.words(), positions, 0, &mut bins);
    Ok(bins)
}

/// The bins of every whole block, each in a list of its own.
fn project_in_threads(
    rt: &(impl Threads + Sync),
    alloc: Global,
    layout: Layout,
    bytes: &[u8],
) -> Result<Vec<Vec<u64>>, AllocError>
    ensures parts { IfOk result (λ v. map (λ b. parts_of layout b.items) v.items ≡ (batch_of layout bytes.now).blocks) }
    ensures lens { IfOk result (λ v. All (λ b. length b.items ≡ start_of layout (safe_of layout)) v.items) }
{
    let count = bytes.len() / layout.block_bytes();
    (0..count)
        .into_par_iter()
        .with_min_len(8)
        .map(
            |i: usize| -> Result<Vec<u64>, AllocError>
                requires { i < length bytes.now / block_bytes_of layout }
                ensures { IfOk result (λ v. IsProjected layout bytes.entry.now i v.items) }
            { projections(alloc, layout, bytes, i) },
        )
        .collect::<Result<Vec<Vec<u64>>, AllocError>>(rt, alloc)?
}
