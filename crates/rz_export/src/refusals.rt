//! Why calls are denied, and which calls the export takes.

ghost use Rattle.std.specs.Prelude.{◌≡◌, ◌≤◌, ◌&&◌, ◌||◌, nat_le, is_none, is_some, length, IsSome};
ghost use Rattle.std.specs.FinMap as maps;
ghost use Rattle.mj_angles.specs.Layout.{block_bytes_of};
ghost use Rattle.rz_events.specs.Borrowed.{call_of};
ghost use Rattle.rz_events.specs.declared.export.Call.{Call};
ghost use Rattle.rz_export_model.specs.Tree.{file_of};
ghost use Rattle.rz_export_model.specs.Export.{no_begin, no_look, too_far, spent, barred, is_mask, is_proper, is_ready};

use crate::export::Export;
use crate::nodes::has_bit;
use mj_angles::Layout;
use rz_events::{Call, CallRef, Denial, Key, Published, Reply};

/// A file has so many blocks.
pub const FILE_BLOCKS: u64 = 1_048_576;

impl Export {
    /// Whether the conditions of `answer` hold of a call: texts, lengths, masks, stamps and nodes are
    /// those of the volume, and a publish is one of a block that was begun.
    pub fn takes(&self, call: &Call) -> bool
        ensures { result ≡ is_proper self.now call.now }
    {
        self.takes_ref(call.borrowed())
    }

    /// Whether the conditions of `answer_ref` hold of a borrowed call, which are the same.
    pub fn takes_ref(&self, call: CallRef<'_>) -> bool
        ensures { result ≡ is_proper self.now (call_of call.entry) }
    {
        match call {
            CallRef::Tree(_) => true,
            CallRef::Begin { text, .. } => text.len() <= self.layout().block_bytes(),
            CallRef::Publish { key, published } => self.takes_publish(key, published),
            CallRef::Look { .. } => true,
            CallRef::Enroll { node, .. } => self.is_node(node),
            CallRef::Next { .. } => true,
            CallRef::Recheck { .. } => true,
        }
    }

    // Whether the conditions of a publish hold.
    fn takes_publish(&self, key: Key, published: Published) -> bool
        ensures { result ≡ is_proper self.now (Call.Publish key published.stamp published.mask published.length) }
    {
        let layout = self.layout();
        is_mask(layout, published.mask)
            && published.length as usize <= layout.block_bytes()
            && 1 <= published.stamp
            && published.stamp <= self.last()
            && self.is_ready(key)
    }

    // Whether a block was begun, where its file is live.
    fn is_ready(&self, key: Key) -> bool
        ensures { result ≡ is_ready self.now key }
    {
        self.file(key.fid).is_none() || self.is_begun(key)
    }

    // Why a block can't be looked at.
    pub(crate) fn no_look(&self, key: Key) -> Option<Denial>
        ensures { result ≡ no_look self.now key }
    {
        if self.file(key.fid).is_none() {
            return Some(Denial::UnknownFile);
        }
        too_far(key)
    }

    // Why no number can be drawn.
    pub(crate) fn spent(&self) -> Option<Denial>
        ensures { result ≡ spent self.now }
    {
        if self.last() == u64::MAX {
            return Some(Denial::StampsSpent);
        }
        None
    }

    // Why a write of a live file's block can't begin.
    pub(crate) fn no_begin(&self, key: Key) -> Option<Denial>
        requires { IsSome (file_of self.now.tree key.fid) }
        ensures { result ≡ no_begin self.now key }
    {
        match too_far(key) {
            Some(why) => Some(why),
            None => self.spent(),
        }
    }

    // The least position of the mask whose node was enrolled above the stamp, with its fence.
    pub(crate) fn barred(&self, places: &[u16], mask: u16, stamp: u64) -> Option<Reply>
        requires { length places.now ≤ 16 }
        ensures { result ≡ barred self.now mask stamp 0 places.now }
    {
        for (i, node) in places.iter().enumerate() {
            let fence = self.fence(*node);
            if has_bit(mask, i) && stamp < fence {
                let position = i as u8;
                return Some(Reply::Enrolled { position, fence });
            }
        }
        None
    }
}

/// Why a block is past the end of every file.
fn too_far(key: Key) -> Option<Denial>
    ensures { result ≡ too_far key }
{
    if FILE_BLOCKS <= key.block {
        return Some(Denial::BlockTooFar);
    }
    None
}

/// Whether a mask names as many positions as a write stores, all of them the layout's.
pub fn is_mask(layout: Layout, mask: u16) -> bool
    ensures { result ≡ is_mask layout mask }
{
    mask.count_ones() as usize == layout.forward() && u32::from(mask) < 1u32 << layout.safe()
}
