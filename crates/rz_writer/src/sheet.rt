//! The block of a write, and the bins of the position that is asked.

ghost use Rattle.std.specs.Prelude.{◌≡◌, ◌<◌, ◌≤◌, IfOk, IfSome, length, take};
ghost use Rattle.std.specs.Option.{option_map};
ghost use Rattle.mj_angles.specs.Layout.{inverse_of, safe_of, cols_of, angle_of, block_bytes_of, bins_at_of, max_bins_of};
ghost use Rattle.mj_forward.specs.Forward.{projection_of};
ghost use Rattle.rz_writer.specs.Machine.{block_of, IsAskOf};
ghost use Rattle.rz_writer.specs.Sheets.{IsSheet, IsProjected, block_in};

use mj_angles::Layout;
use mj_forward::project;
use rz_events::WriterAsk;
use rz_words::Block;
use std::alloc::{AllocError, Global};

/// A block, and room for the projection of one position.
#[derive(Drop)]
pub struct Sheet {
    pub block: Block,
    pub bins: Vec<u64>,
}

impl Sheet {
    /// The block of a text, with room for the bins of any position.
    pub fn new(alloc: Global, layout: Layout, text: &[u8]) -> Result<Sheet, AllocError>
        requires { length text.now ≤ block_bytes_of layout }
        ensures sheet { IfOk result (λ s. IsSheet layout s) }
        ensures block { IfOk result (λ s. s.block ≡ block_of layout text.now) }
    {
        let block = Block::from_bytes(alloc, layout.inverse(), layout.cols(), text)?;
        let bins = vec![in alloc; 0u64; layout.max_bins()]?;
        Ok(Sheet { block, bins })
    }
}

/// Projects the block at a position into the first of the bins.
pub fn project_at(layout: Layout, position: u8, block: &Block, bins: &mut [u64])
    requires place { position < safe_of layout }
    requires rows { block.now.rows ≡ inverse_of layout }
    requires cols { block.now.cols ≡ cols_of layout }
    requires room { length bins.old ≡ max_bins_of layout }
    ensures { take (bins_at_of layout position) bins.new ≡ projection_of block.now (angle_of layout position) }
{
    let count = layout.bins_at(position);
    project(block, layout.angle(position), &mut bins[..count]);
}

/// Replaces the block by that of another text.
pub fn reload(layout: Layout, sheet: &mut Option<Sheet>, text: &[u8])
    requires sheet { IfSome sheet.old (IsSheet layout) }
    requires fits { length text.now ≤ block_bytes_of layout }
    ensures sheet { IfSome sheet.new (IsSheet layout) }
    ensures block { block_in sheet.new ≡ option_map (λ _. block_of layout text.now) (block_in sheet.old) }
{
    if let Some(sheet) = sheet {
        sheet.block.load(text);
    }
}

/// Projects the block for what the write asks.
pub fn prepare(layout: Layout, ask: WriterAsk, sheet: &mut Option<Sheet>)
    requires place { IsAskOf layout ask }
    requires sheet { IfSome sheet.old (IsSheet layout) }
    ensures sheet { IfSome sheet.new (IsSheet layout) }
    ensures ready { IfSome sheet.new (IsProjected layout ask) }
    ensures block { block_in sheet.new ≡ block_in sheet.old }
{
    let WriterAsk::Keep { position, .. } = ask else {
        return;
    };
    if let Some(sheet) = sheet {
        project_at(layout, position, &sheet.block, &mut sheet.bins);
    }
}
