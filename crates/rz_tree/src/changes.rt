//! Calls that change attributes, or add or take away a name.

ghost use Rattle.std.specs.Prelude.{◌≡◌, ◌==◌, ◌&&◌, ◌<◌, false, [], Some, None, IfOk, OnOk, OnErr, IsTrue};
ghost use Rattle.std.specs.FinMap as maps;
ghost use Rattle.std.specs.Option.{option_map};
ghost use Rattle.rz_export_model.specs.Firsts.{given_if};
ghost use Rattle.rz_export_model.specs.Paths.{is_root};
ghost use Rattle.rz_export_model.specs.Refusals.{walk};
ghost use Rattle.rz_export_model.specs.Tree.{names_under, paths_to, found_at, fid_at, is_at, is_dir, is_file, info_of, with_object};
ghost use Rattle.rz_export_model.specs.TreeCalls.{reply_to, tree_after, with_name, without_name};
ghost use Rattle.rz_events.specs.declared.tree.TreeCall.{TreeCall};
ghost use Rattle.rz_tree.specs.Calls.{proper_path_of};
ghost use Rattle.rz_tree.specs.Inodes.{found_of};

use crate::inodes::Inode;
use crate::looks::read;
use crate::tree::Tree;
use rz_events::{FileInfo, Kind, Text, TreeFault, TreeReply};
use rz_names::Path;
use std::alloc::{AllocError, Global};

impl Tree {
    /// Sets the mode and the time of the object at a path.
    pub fn set_attributes(
        &mut self,
        text: &Text,
        mode: u16,
        mtime: u64,
    ) -> Result<TreeReply, AllocError>
        ensures reply { IfOk result (λ r. r ≡ reply_to self.old 0 [] (TreeCall.Setattr text.now mode mtime)) }
        ensures ok { OnOk result (self.new ≡ tree_after self.old 0 [] (TreeCall.Setattr text.now mode mtime)) }
        ensures err { OnErr result (self.new ≡ self.old) }
    {
        let Some(path) = read(self.alloc, text)? else {
            return Ok(TreeReply::Refused(TreeFault::BadName));
        };
        match self.object_at(&path) {
            Err(fault) => Ok(TreeReply::Refused(fault)),
            Ok((fid, _)) => {
                self.change_attributes(fid, mode, mtime);
                Ok(TreeReply::Plain)
            }
        }
    }

    /// Gives the object at a path one more path.
    pub fn link(&mut self, text: &Text, to: &Text) -> Result<TreeReply, AllocError>
        ensures reply { IfOk result (λ r. r ≡ reply_to self.old 0 [] (TreeCall.Link text.now to.now)) }
        ensures ok { OnOk result (self.new ≡ tree_after self.old 0 [] (TreeCall.Link text.now to.now)) }
        ensures err { OnErr result (self.new ≡ self.old) }
    {
        let Some(path) = read_below(self.alloc, text)? else {
            return Ok(TreeReply::Refused(TreeFault::BadName));
        };
        let Some(to) = read_below(self.alloc, to)? else {
            return Ok(TreeReply::Refused(TreeFault::BadName));
        };
        match self.linkable_at(&path, &to) {
            Err(fault) => Ok(TreeReply::Refused(fault)),
            Ok((fid, inode)) => {
                let links = inode.links;
                self.add_name(&to, fid, links)?;
                Ok(TreeReply::Plain)
            }
        }
    }

    /// Takes a path to a file or a symbolic link away.
    pub fn unlink(&mut self, text: &Text) -> Result<TreeReply, AllocError>
        ensures reply { IfOk result (λ r. r ≡ reply_to self.old 0 [] (TreeCall.Unlink text.now)) }
        ensures ok { OnOk result (self.new ≡ tree_after self.old 0 [] (TreeCall.Unlink text.now)) }
        ensures err { OnErr result (self.new ≡ self.old) }
    {
        let Some(path) = read_below(self.alloc, text)? else {
            return Ok(TreeReply::Refused(TreeFault::BadName));
        };
        match self.leaf_at(&path) {
            Err(fault) => Ok(TreeReply::Refused(fault)),
            Ok((fid, inode)) => {
                let gone = last_file(fid, inode);
                self.take_name(&path, fid);
                Ok(TreeReply::Gone(gone))
            }
        }
    }

    /// Takes an empty directory away.
    pub fn remove_directory(&mut self, text: &Text) -> Result<TreeReply, AllocError>
        ensures reply { IfOk result (λ r. r ≡ reply_to self.old 0 [] (TreeCall.Rmdir text.now)) }
        ensures ok { OnOk result (self.new ≡ tree_after self.old 0 [] (TreeCall.Rmdir text.now)) }
        ensures err { OnErr result (self.new ≡ self.old) }
    {
        let Some(path) = read_below(self.alloc, text)? else {
            return Ok(TreeReply::Refused(TreeFault::BadName));
        };
        match self.empty_directory_at(&path) {
            Err(fault) => Ok(TreeReply::Refused(fault)),
            Ok((fid, _)) => {
                self.take_name(&path, fid);
                Ok(TreeReply::Plain)
            }
        }
    }

    // Sets the mode and the time of an object.
    fn change_attributes(&mut self, fid: u128, mode: u16, mtime: u64)
        ensures { self.new ≡ with_object self.old fid (λ o. record o { mode = mode; mtime = mtime }) }
    {
        self.inodes.set_attributes(fid, mode, mtime);
    }

    // Adds a path, where nothing stands, to an object that is no directory and has these links.
    fn add_name(&mut self, to: &Path, fid: u128, links: u32) -> Result<(), AllocError>
        requires leaf { option_map (λ o. is_dir o.kind) (maps.get self.old.objects fid) ≡ Some false }
        requires count { links ≡ paths_to self.old.names fid }
        requires few { links < 65535 }
        requires walked { walk self.old to.now ≡ None }
        requires absent { found_at self.old to.now ≡ None }
        requires below { is_root to.now ≡ false }
        ensures ok { OnOk result (self.new ≡ with_name self.old to.now fid) }
        ensures err { OnErr result (self.new ≡ self.old) }
    {
        self.names.add(to, fid)?;
        self.inodes.set_links(fid, links + 1);
        Ok(())
    }

    // Takes away an object's path that is no full directory's, and with its last path the object.
    fn take_name(&mut self, path: &Path, fid: u128)
        requires there { fid_at self.old path.now ≡ Some fid }
        requires below { is_root path.now ≡ false }
        requires last { IsTrue (is_at self.old path.now is_dir) → names_under self.old.names path.now ≡ [] }
        ensures { self.new ≡ without_name self.old path.now }
    {
        self.names.remove(path);
        self.inodes.release(fid);
    }
}

/// An object, where it is a file and one path alone leads to it.
pub fn last_file(fid: u128, inode: &Inode) -> Option<FileInfo>
    ensures { result ≡ given_if (is_file inode.now.kind && (inode.now.links == 1)) (info_of (found_of fid inode.now)) }
{
    match inode.kind {
        Kind::File if inode.links == 1 => Some(inode.info(fid)),
        _ => None,
    }
}

/// The path of a call that is not the root's, where its text spells one.
pub fn read_below(alloc: Global, text: &Text) -> Result<Option<Path>, AllocError>
    ensures { IfOk result (λ path. path ≡ proper_path_of text.now) }
{
    match read(alloc, text)? {
        Some(path) if !path.names().is_empty() => Ok(Some(path)),
        _ => Ok(None),
    }
}
