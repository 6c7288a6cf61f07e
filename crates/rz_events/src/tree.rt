//! The calls of the tree of names, and the export's replies to them.

ghost use Rattle.std.specs.Prelude.{◌≡◌, IfOk};
ghost use Rattle.rz_events.specs.Calls.{path_of};

use crate::{Attr, FileInfo, Kind, Listing, Text};
use std::alloc::{AllocError, Global};

/// A call on the tree. A path in a call is its text, which the export reads.
#[derive(Drop)]
pub enum TreeCall {
    Lookup { path: Text },
    Getattr { path: Text },
    Rmdir { path: Text },
    Mkdir { path: Text },
    Create { path: Text },
    Unlink { path: Text },
    Readlink { path: Text },
    Readdir { path: Text },
    OpenFile { path: Text },
    Setattr { path: Text, mode: u16, mtime: u64 },
    Rename { path: Text, to: Text },
    Link { path: Text, to: Text },
    Symlink { target: Text, path: Text },
}

impl TreeCall {
    /// An equal call.
    pub fn copy(&self, alloc: Global) -> Result<TreeCall, AllocError>
        ensures { IfOk result (λ c. c ≡ self.now) }
    {
        let path = self.path().copy(alloc)?;
        Ok(match self {
            TreeCall::Lookup { .. } => TreeCall::Lookup { path },
            TreeCall::Getattr { .. } => TreeCall::Getattr { path },
            TreeCall::Rmdir { .. } => TreeCall::Rmdir { path },
            TreeCall::Mkdir { .. } => TreeCall::Mkdir { path },
            TreeCall::Create { .. } => TreeCall::Create { path },
            TreeCall::Unlink { .. } => TreeCall::Unlink { path },
            TreeCall::Readlink { .. } => TreeCall::Readlink { path },
            TreeCall::Readdir { .. } => TreeCall::Readdir { path },
            TreeCall::OpenFile { .. } => TreeCall::OpenFile { path },
            TreeCall::Setattr { mode, mtime, .. } => TreeCall::Setattr {
                path,
                mode: *mode,
                mtime: *mtime,
            },
            TreeCall::Rename { to, .. } => TreeCall::Rename {
                path,
                to: to.copy(alloc)?,
            },
            TreeCall::Link { to, .. } => TreeCall::Link {
                path,
                to: to.copy(alloc)?,
            },
            TreeCall::Symlink { target, .. } => TreeCall::Symlink {
                target: target.copy(alloc)?,
                path,
            },
        })
    }

    /// The path of the object that the call is about.
    fn path(&self) -> &Text
        ensures { result.now ≡ path_of self.now }
    {
        match self {
            TreeCall::Lookup { path } => path,
            TreeCall::Getattr { path } => path,
            TreeCall::Rmdir { path } => path,
            TreeCall::Mkdir { path } => path,
            TreeCall::Create { path } => path,
            TreeCall::Unlink { path } => path,
            TreeCall::Readlink { path } => path,
            TreeCall::Readdir { path } => path,
            TreeCall::OpenFile { path } => path,
            TreeCall::Setattr { path, .. } => path,
            TreeCall::Rename { path, .. } => path,
            TreeCall::Link { path, .. } => path,
            TreeCall::Symlink { path, .. } => path,
        }
    }
}

/// A reply to a call on the tree.
#[derive(Drop)]
pub enum TreeReply {
    /// A directory or a symbolic link was made.
    Made { fid: u128 },
    /// A file was made.
    MadeFile(FileInfo),
    Found { fid: u128, kind: Kind },
    Attr(Attr),
    Plain,
    /// A name went, and with it the file that had no other name.
    Gone(Option<FileInfo>),
    Names(Listing),
    Target(Text),
    File(FileInfo),
    Refused(TreeFault),
}

impl TreeReply {
    /// An equal reply.
    pub fn copy(&self, alloc: Global) -> Result<TreeReply, AllocError>
        ensures { IfOk result (λ r. r ≡ self.now) }
    {
        Ok(match self {
            TreeReply::Made { fid } => TreeReply::Made { fid: *fid },
            TreeReply::MadeFile(info) => TreeReply::MadeFile(*info),
            TreeReply::Found { fid, kind } => TreeReply::Found {
                fid: *fid,
                kind: *kind,
            },
            TreeReply::Attr(attr) => TreeReply::Attr(*attr),
            TreeReply::Plain => TreeReply::Plain,
            TreeReply::Gone(file) => TreeReply::Gone(*file),
            TreeReply::Names(names) => TreeReply::Names(names.copy(alloc)?),
            TreeReply::Target(target) => TreeReply::Target(target.copy(alloc)?),
            TreeReply::File(info) => TreeReply::File(*info),
            TreeReply::Refused(fault) => TreeReply::Refused(*fault),
        })
    }
}

/// Why a call on the tree was refused.
#[derive(Clone, Copy, Drop)]
pub enum TreeFault {
    NoEntry,
    NotDir,
    IsDir,
    Exists,
    NotEmpty,
    IntoItself,
    BadName,
    TooManyLinks,
    TooManyFiles,
    NotLink,
    IsLink,
}
