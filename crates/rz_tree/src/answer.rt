//! Every call on the tree.

ghost use Rattle.std.specs.Prelude.{◌≡◌, IfOk, OnOk, OnErr};
ghost use Rattle.rz_export_model.specs.TreeCalls.{reply_to, tree_after};

use crate::tree::Tree;
use rz_events::{Places, TreeCall, TreeReply};
use std::alloc::AllocError;

impl Tree {
    /// Answers a call. A new file gets the cluster and the places.
    pub fn answer(
        &mut self,
        call: &TreeCall,
        cid: u16,
        places: &Places,
    ) -> Result<TreeReply, AllocError>
        ensures reply { IfOk result (λ r. r ≡ reply_to self.old cid places.now call.now) }
        ensures ok { OnOk result (self.new ≡ tree_after self.old cid places.now call.now) }
        ensures err { OnErr result (self.new ≡ self.old) }
    {
        match call {
            TreeCall::Lookup { path } => self.look_up(path),
            TreeCall::Getattr { path } => self.attributes(path),
            TreeCall::Setattr { path, mode, mtime } => self.set_attributes(path, *mode, *mtime),
            TreeCall::Mkdir { path } => self.make_directory(path),
            TreeCall::Create { path } => self.create(path, cid, places),
            TreeCall::Symlink { target, path } => self.symlink(target, path),
            TreeCall::Rmdir { path } => self.remove_directory(path),
            TreeCall::Unlink { path } => self.unlink(path),
            TreeCall::Link { path, to } => self.link(path, to),
            TreeCall::Rename { path, to } => self.rename(path, to),
            TreeCall::Readlink { path } => self.read_link(path),
            TreeCall::Readdir { path } => self.list(path),
            TreeCall::OpenFile { path } => self.open_file(path),
        }
    }
}
