//! The calls on blocks: begin, publish, look and recheck, and the enrolment of nodes.

ghost use Rattle.std.specs.Prelude.{ℕ, ◌≡◌, ◌≤◌, ◌+◌, ◌*◌, [], true, None, Some, IfOk, OnOk, OnErr, IsSome, IsTrue, is_some, map};
ghost use Rattle.std.specs.FinMap as maps;
ghost use Rattle.mj_angles.specs.Layout.{block_bytes_of};
ghost use Rattle.rz_events.specs.declared.export.Call.{Call};
ghost use Rattle.rz_events.specs.declared.keys.Key.{Key};
ghost use Rattle.rz_blocks.specs.Marks.{is_marked, has_room};
ghost use Rattle.rz_export_model.specs.Tree.{Tree, file_of};
ghost use Rattle.rz_export_model.specs.Export.{no_begin, no_publish, prepared, export_reply, export_after, after_begin, after_publish, published_stamp, is_proper, is_node, is_ready, new_fence, spent};
ghost use Rattle.rz_export.specs.Kept.{with_fence, AreRoomy};

use crate::export::Export;
use crate::lists::{make_room, remark};
use crate::nodes::{Enrolment, enroll, recount};
use rz_blocks::{Blocks, Marks};
use rz_events::{Denial, FileInfo, Key, Published, Reply};
use std::alloc::AllocError;

impl Export {
    /// Begins a write of a block: a new stamp, and the stamp that is published. Memory is taken only
    /// where the begin is not denied.
    pub fn begin(&mut self, key: Key) -> Result<Reply, AllocError>
        ensures reply { IfOk result (λ r. r ≡ export_reply self.old (Call.Begin key [])) }
        ensures ok { OnOk result (self.new ≡ export_after self.old (Call.Begin key [])) }
        ensures err { OnErr result (self.new ≡ self.old) }
        ensures undenied { OnErr result (no_begin self.old key ≡ None) }
    {
        let Some(info) = self.file(key.fid) else {
            return Ok(Reply::Denied(Denial::UnknownFile));
        };
        if let Some(why) = self.no_begin(key) {
            return Ok(Reply::Denied(why));
        }
        let base = self.base(key);
        let stamp = self.start(key, &info)?;
        Ok(Reply::Begun { stamp, base })
    }

    /// Publishes a block, where its write is the newest one and none of its nodes was enrolled since.
    pub fn publish(&mut self, key: Key, published: Published) -> Reply
        requires { IsTrue (is_proper self.old (Call.Publish key published.stamp published.mask published.length)) }
        ensures reply { result ≡ export_reply self.old (Call.Publish key published.stamp published.mask published.length) }
        ensures state { self.new ≡ export_after self.old (Call.Publish key published.stamp published.mask published.length) }
    {
        let Some(info) = self.file(key.fid) else {
            return Reply::Denied(Denial::UnknownFile);
        };
        if let Some(reply) = self.superseded(key, &info, published) {
            return reply;
        }
        self.accept(key, &info, published);
        Reply::Accepted
    }

    /// What is published of a block.
    pub fn look(&self, key: Key) -> Reply
        ensures { result ≡ export_reply self.now (Call.Look key) }
    {
        match self.no_look(key) {
            Some(why) => Reply::Denied(why),
            None => Reply::Looked(self.published_of(key)),
        }
    }

    /// What is published of a block, told once more.
    pub fn recheck(&self, key: Key) -> Reply
        ensures { result ≡ export_reply self.now (Call.Recheck key) }
    {
        self.look(key)
    }

    /// Enrolls the loss of a node's disk, and gives the fence of this loss.
    pub fn enroll(&mut self, node: u16, loss: u64) -> Reply
        requires { IsTrue (is_node self.old node) }
        ensures reply { result ≡ export_reply self.old (Call.Enroll node loss) }
        ensures state { self.new ≡ export_after self.old (Call.Enroll node loss) }
    {
        match self.enrolment(node) {
            Some(had) if loss < had.loss => Reply::Denied(Denial::OldLoss { kept: had.loss }),
            Some(had) if loss == had.loss => Reply::Fence { fence: had.fence },
            _ => self.draw(node, loss),
        }
    }

    // The stamp that is published, or 0.
    fn base(&self, key: Key) -> u64
        ensures { result ≡ published_stamp self.now.blocks key }
    {
        match self.published_of(key) {
            None => 0,
            Some(published) => published.stamp,
        }
    }

    // Draws a stamp for a block of a live file, and makes it the newest begun. The memory that a
    // publish will need is taken here.
    fn start(&mut self, key: Key, info: &FileInfo) -> Result<u64, AllocError>
        requires live { file_of self.old.tree key.fid ≡ Some info.now }
        requires may { no_begin self.old key ≡ None }
        ensures number { IfOk result (λ stamp. stamp ≡ self.old.last + 1) }
        ensures ok { OnOk result (self.new ≡ after_begin self.old key) }
        ensures err { OnErr result (self.new ≡ self.old) }
    {
        prepare(&mut self.blocks, &mut self.listed, info.places.list(), key)?;
        self.last += 1;
        self.blocks.begin(key, self.last);
        Ok(self.last)
    }

    // Why a publish of a live file's block is not accepted.
    fn superseded(&self, key: Key, info: &FileInfo, published: Published) -> Option<Reply>
        requires { file_of self.now.tree key.fid ≡ Some info.now }
        ensures { result ≡ no_publish self.now key published.stamp published.mask }
    {
        let later = self.latest(key);
        if published.stamp < later {
            return Some(Reply::Revoked { later });
        }
        self.barred(info.places.list(), published.mask, published.stamp)
    }

    // Publishes a block of a live file.
    fn accept(&mut self, key: Key, info: &FileInfo, published: Published)
        requires live { file_of self.old.tree key.fid ≡ Some info.now }
        requires begun { IsSome (maps.get self.old.blocks key) }
        requires fits { published.length ≤ block_bytes_of self.old.volume.layout }
        ensures { self.new ≡ after_publish self.old key published }
    {
        // The number of all blocks fits a word, and so the number of those on a node does.
        let _count = self.blocks.len();
        let size = self.end_of(key, published.length);
        self.tree.grow(key.fid, size);
        let before = self.blocks.look(key);
        self.blocks.publish(key, published);
        let after = self.blocks.look(key);
        let places = info.places.list();
        recount(self.nodes.as_mut_slice(), places, before, after);
        remark(&mut self.listed, places, key, before, after);
    }

    // The size of a file that ends with so many bytes of this block.
    fn end_of(&self, key: Key, bytes: u32) -> u64
        requires begun { IsSome (maps.get self.now.blocks key) }
        requires fits { bytes ≤ block_bytes_of self.now.volume.layout }
        ensures { result ≡ key.block * block_bytes_of self.now.volume.layout + bytes }
    {
        let _ = &self.blocks;
        key.block * self.layout().block_bytes() as u64 + u64::from(bytes)
    }

    // Draws a fence for a loss of a node.
    fn draw(&mut self, node: u16, loss: u64) -> Reply
        requires { IsTrue (is_node self.old node) }
        ensures reply { result ≡ new_fence self.old }
        ensures state { self.new ≡ with_fence self.old node loss }
    {
        if let Some(why) = self.spent() {
            return Reply::Denied(why);
        }
        self.last += 1;
        let fence = self.last;
        enroll(self.nodes.as_mut_slice(), node, Enrolment { loss, fence });
        Reply::Fence { fence }
    }
}

/// Makes the entry of a block, and room for its mark in the lists of these nodes. A block that was begun
/// has both, and is only looked up. Room that was made before an error stays.
fn prepare(
    blocks: &mut Blocks,
    listed: &mut Marks,
    places: &[u16],
    key: Key,
) -> Result<(), AllocError>
    ensures ok { OnOk result (blocks.new ≡ prepared blocks.old key) }
    ensures err { OnErr result (blocks.new ≡ blocks.old) }
    ensures marks { (l : ℕ) (q : Key) → is_marked listed.new l q ≡ is_marked listed.old l q }
    ensures kept { (l : ℕ) (q : Key) → has_room listed.old l q ≡ true → has_room listed.new l q ≡ true }
    ensures room { OnOk result (maps.get blocks.old key ≡ None → AreRoomy listed.new places.now key) }
{
    if 0 < blocks.latest(key) {
        return Ok(());
    }
    make_room(listed, places, key)?;
    blocks.prepare(key)
}
