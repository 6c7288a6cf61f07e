//! A range of bytes of a file.

ghost use Rattle.std.specs.Prelude.{◌≡◌, ◌≤◌, ◌<◌, ◌+◌, ◌*◌, length, true};
ghost use Rattle.mj_angles.specs.Layout.{block_bytes_of};
ghost use Rattle.rz_operation_model.specs.Ranges.{key_in, start_in, count_in, is_whole};
ghost use Rattle.rz_file.specs.Ranges.{bare, from_first_block, lead_of, InRange};

use mj_angles::Layout;
use rz_events::{FileInfo, Key};

/// A range of bytes of a file, of which so many are done.
#[derive(Clone, Copy, Drop)]
pub struct RangeProgress {
    pub info: FileInfo,
    pub offset: u64,
    pub size: u64,
    pub done: u64,
}

impl RangeProgress {
    /// The block in hand.
    pub fn key(&self, layout: Layout) -> Key
        requires { InRange self.now }
        ensures { result ≡ key_in layout (bare self.now) }
    {
        Key {
            fid: self.info.fid,
            block: (self.offset + self.done) / layout.block_bytes() as u64,
        }
    }

    /// Where in the block the range goes on.
    pub fn start(&self, layout: Layout) -> usize
        requires { InRange self.now }
        ensures value { result ≡ start_in layout (bare self.now) }
        ensures within { result < block_bytes_of layout }
    {
        ((self.offset + self.done) % layout.block_bytes() as u64) as usize
    }

    /// So many bytes of the range lie in the block.
    pub fn count(&self, layout: Layout) -> usize
        requires { InRange self.now }
        ensures value { result ≡ count_in layout (bare self.now) }
        ensures within { start_in layout (bare self.now) + result ≤ block_bytes_of layout }
        ensures left { self.now.done + result ≤ self.now.size }
    {
        let room = (layout.block_bytes() - self.start(layout)) as u64;
        room.min(self.size - self.done) as usize
    }

    /// Whether the range covers the block whole.
    pub fn is_whole(&self, layout: Layout) -> bool
        requires { InRange self.now }
        ensures { result ≡ is_whole layout (bare self.now) }
    {
        self.start(layout) == 0 && self.count(layout) == layout.block_bytes()
    }

    /// The place of the block in hand among the blocks that begin in the range, where the range covers it
    /// whole.
    pub fn place(&self, layout: Layout) -> usize
        requires range { InRange self.now }
        requires whole { is_whole layout (bare self.now) ≡ true }
        ensures at { lead_of layout self.now.offset + result * block_bytes_of layout ≡ self.now.done }
        ensures ends { self.now.done + block_bytes_of layout ≤ self.now.size }
    {
        (self.done as usize - lead(layout, self.offset)) / layout.block_bytes()
    }
}

/// So many bytes of a range come before the first block that begins in it.
fn lead(layout: Layout, offset: u64) -> usize
    ensures { result ≡ lead_of layout offset }
{
    let size = layout.block_bytes() as u64;
    ((size - offset % size) % size) as usize
}

/// The bytes of a range from the first block on that begins in it.
pub fn from_first_block(layout: Layout, offset: u64, bytes: &[u8]) -> &[u8]
    ensures { result.now ≡ from_first_block layout offset bytes.now }
{
    let lead = lead(layout, offset);
    if lead < bytes.len() {
        &bytes[lead..]
    } else {
        &[]
    }
}
