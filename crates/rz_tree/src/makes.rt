//! Calls that make an object.

ghost use Rattle.std.specs.Prelude.{◌≡◌, ◌+◌, ◌∷◌, [], None, IfOk, OnOk, OnErr};
ghost use Rattle.rz_export_model.specs.Firsts.{first_of};
ghost use Rattle.rz_export_model.specs.Refusals.{bad_target, can_not_make};
ghost use Rattle.rz_export_model.specs.Tree.{new_file, new_link};
ghost use Rattle.rz_export_model.specs.TreeCalls.{reply_to, tree_after, with_new};
ghost use Rattle.rz_events.specs.declared.tree.TreeCall.{TreeCall};
ghost use Rattle.rz_tree.specs.Inodes.{object_of};

use crate::inodes::Inode;
use crate::looks::read;
use crate::tree::{Tree, new_directory};
use rz_events::{FileInfo, Kind, Places, Text, TreeFault, TreeReply};
use rz_names::Path;
use std::alloc::{AllocError, Global};

/// The most bytes of the target of a symbolic link.
const MOST_BYTES: usize = 1024;

/// The mode of a new file.
const FILE_MODE: u16 = 0o644;

/// The mode of a new symbolic link.
const LINK_MODE: u16 = 0o777;

impl Tree {
    /// Makes a directory.
    pub fn make_directory(&mut self, text: &Text) -> Result<TreeReply, AllocError>
        ensures reply { IfOk result (λ r. r ≡ reply_to self.old 0 [] (TreeCall.Mkdir text.now)) }
        ensures ok { OnOk result (self.new ≡ tree_after self.old 0 [] (TreeCall.Mkdir text.now)) }
        ensures err { OnErr result (self.new ≡ self.old) }
    {
        let Some(path) = read(self.alloc, text)? else {
            return Ok(TreeReply::Refused(TreeFault::BadName));
        };
        if let Some(fault) = self.no_place(&path) {
            return Ok(TreeReply::Refused(fault));
        }
        let fid = self.add(&path, new_directory(self.alloc))?;
        Ok(TreeReply::Made { fid })
    }

    /// Makes a file with these places in a cluster.
    pub fn create(
        &mut self,
        text: &Text,
        cid: u16,
        places: &Places,
    ) -> Result<TreeReply, AllocError>
        ensures reply { IfOk result (λ r. r ≡ reply_to self.old cid places.now (TreeCall.Create text.now)) }
        ensures ok { OnOk result (self.new ≡ tree_after self.old cid places.now (TreeCall.Create text.now)) }
        ensures err { OnErr result (self.new ≡ self.old) }
    {
        let Some(path) = read(self.alloc, text)? else {
            return Ok(TreeReply::Refused(TreeFault::BadName));
        };
        if let Some(fault) = self.no_place(&path) {
            return Ok(TreeReply::Refused(fault));
        }
        let fid = self.add(&path, new_file(self.alloc, cid, *places))?;
        Ok(TreeReply::MadeFile(FileInfo {
            fid,
            cid,
            places: *places,
            size: 0,
        }))
    }

    /// Makes a symbolic link to a target of 1 to 1024 bytes.
    pub fn symlink(&mut self, target: &Text, text: &Text) -> Result<TreeReply, AllocError>
        ensures reply { IfOk result (λ r. r ≡ reply_to self.old 0 [] (TreeCall.Symlink target.now text.now)) }
        ensures ok { OnOk result (self.new ≡ tree_after self.old 0 [] (TreeCall.Symlink target.now text.now)) }
        ensures err { OnErr result (self.new ≡ self.old) }
    {
        let Some(path) = read(self.alloc, text)? else {
            return Ok(TreeReply::Refused(TreeFault::BadName));
        };
        if let Some(fault) = self.no_symlink(target, &path) {
            return Ok(TreeReply::Refused(fault));
        }
        let fid = self.add(&path, new_link(target.copy(self.alloc)?))?;
        Ok(TreeReply::Made { fid })
    }

    // Why no symbolic link can be made.
    fn no_symlink(&self, target: &Text, path: &Path) -> Option<TreeFault>
        ensures { result ≡ first_of (bad_target target.now ∷ can_not_make self.now path.now) }
    {
        if let Some(fault) = bad_target(target) {
            return Some(fault);
        }
        self.no_place(path)
    }

    // Adds an object under the next number at a path where one may be made.
    fn add(&mut self, path: &Path, inode: Inode) -> Result<u128, AllocError>
        requires free { first_of (can_not_make self.old path.now) ≡ None }
        requires one { inode.links ≡ 1 }
        ensures number { IfOk result (λ fid. fid ≡ self.old.made + 1) }
        ensures ok { OnOk result (self.new ≡ with_new self.old path.now (object_of inode)) }
        ensures err { OnErr result (self.new ≡ self.old) }
    {
        let fid = self.made + 1;
        self.inodes.add(fid, inode)?;
        match self.names.add(path, fid) {
            Ok(()) => {
                self.made = fid;
                Ok(fid)
            }
            Err(error) => {
                self.inodes.remove(fid);
                Err(error)
            }
        }
    }
}

// Why no symbolic link has this target.
fn bad_target(target: &Text) -> Option<TreeFault>
    ensures { result ≡ bad_target target.now }
{
    let length = target.bytes().len();
    if length == 0 || length > MOST_BYTES {
        return Some(TreeFault::BadName);
    }
    None
}

// A new file.
fn new_file(alloc: Global, cid: u16, places: Places) -> Inode
    ensures object { object_of result ≡ new_file cid places }
    ensures links { result.links ≡ 1 }
{
    let target = Text::from_vec(Vec::new(alloc));
    Inode {
        cid,
        places,
        ..Inode::new(Kind::File, FILE_MODE, target)
    }
}

// A new symbolic link.
fn new_link(target: Text) -> Inode
    ensures object { object_of result ≡ new_link target }
    ensures links { result.links ≡ 1 }
{
    Inode::new(Kind::Link, LINK_MODE, target)
}
