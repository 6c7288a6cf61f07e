//! Calls that change nothing.

ghost use Rattle.std.specs.Prelude.{◌≡◌, [], IfOk};
ghost use Rattle.rz_export_model.specs.Paths.{path_of};
ghost use Rattle.rz_export_model.specs.Tree.{names_under};
ghost use Rattle.rz_export_model.specs.TreeCalls.{reply_to};
ghost use Rattle.rz_events.specs.declared.tree.TreeCall.{TreeCall};

use crate::tree::Tree;
use rz_events::{Listing, Text, TreeFault, TreeReply};
use rz_names::{Path, PathError};
use std::alloc::{AllocError, Global};

impl Tree {
    /// The number and the kind of the object at a path.
    pub fn look_up(&self, text: &Text) -> Result<TreeReply, AllocError>
        ensures { IfOk result (λ r. r ≡ reply_to self.now 0 [] (TreeCall.Lookup text.now)) }
    {
        let Some(path) = read(self.alloc, text)? else {
            return Ok(TreeReply::Refused(TreeFault::BadName));
        };
        match self.object_at(&path) {
            Err(fault) => Ok(TreeReply::Refused(fault)),
            Ok((fid, inode)) => Ok(TreeReply::Found {
                fid,
                kind: inode.kind,
            }),
        }
    }

    /// The attributes of the object at a path.
    pub fn attributes(&self, text: &Text) -> Result<TreeReply, AllocError>
        ensures { IfOk result (λ r. r ≡ reply_to self.now 0 [] (TreeCall.Getattr text.now)) }
    {
        let Some(path) = read(self.alloc, text)? else {
            return Ok(TreeReply::Refused(TreeFault::BadName));
        };
        match self.object_at(&path) {
            Err(fault) => Ok(TreeReply::Refused(fault)),
            Ok((fid, inode)) => Ok(TreeReply::Attr(inode.attributes(fid))),
        }
    }

    /// The file at a path.
    pub fn open_file(&self, text: &Text) -> Result<TreeReply, AllocError>
        ensures { IfOk result (λ r. r ≡ reply_to self.now 0 [] (TreeCall.OpenFile text.now)) }
    {
        let Some(path) = read(self.alloc, text)? else {
            return Ok(TreeReply::Refused(TreeFault::BadName));
        };
        match self.file_at(&path) {
            Err(fault) => Ok(TreeReply::Refused(fault)),
            Ok((fid, inode)) => Ok(TreeReply::File(inode.info(fid))),
        }
    }

    /// The target of the symbolic link at a path.
    pub fn read_link(&self, text: &Text) -> Result<TreeReply, AllocError>
        ensures { IfOk result (λ r. r ≡ reply_to self.now 0 [] (TreeCall.Readlink text.now)) }
    {
        let Some(path) = read(self.alloc, text)? else {
            return Ok(TreeReply::Refused(TreeFault::BadName));
        };
        match self.link_at(&path) {
            Err(fault) => Ok(TreeReply::Refused(fault)),
            Ok((_, inode)) => Ok(TreeReply::Target(inode.target.copy(self.alloc)?)),
        }
    }

    /// The names in the directory at a path, in byte order.
    pub fn list(&self, text: &Text) -> Result<TreeReply, AllocError>
        ensures { IfOk result (λ r. r ≡ reply_to self.now 0 [] (TreeCall.Readdir text.now)) }
    {
        let Some(path) = read(self.alloc, text)? else {
            return Ok(TreeReply::Refused(TreeFault::BadName));
        };
        if let Err(fault) = self.directory_at(&path) {
            return Ok(TreeReply::Refused(fault));
        }
        Ok(TreeReply::Names(self.listing(&path)?))
    }

    // The names right under a path.
    fn listing(&self, path: &Path) -> Result<Listing, AllocError>
        ensures { IfOk result (λ names. names ≡ names_under self.now.names path.now) }
    {
        let mut names = Vec::new(self.alloc);
        let mut last: Option<&Text> = None;
        while let Some(name) = self.names.child(path, last) {
            names
                .push(name.copy(self.alloc)?)
                .map_err(AllocError::from)?;
            last = Some(name);
        }
        Ok(Listing::of(names))
    }
}

/// The path of a call, where its text spells one.
pub fn read(alloc: Global, text: &Text) -> Result<Option<Path>, AllocError>
    ensures { IfOk result (λ path. path ≡ path_of text.now) }
{
    match Path::read(alloc, text.bytes()) {
        Ok(path) => Ok(Some(path)),
        Err(PathError::BadName) => Ok(None),
        Err(PathError::NoMemory) => Err(AllocError),
    }
}
