//! The tree, its files, and what stands at a path.

ghost use Rattle.std.specs.Prelude.{◌≡◌, ◌≤◌, length, take, IfOk, IsSome, IfSome};
ghost use Rattle.std.specs.Option.{option_map};
ghost use Rattle.rz_export_model.specs.Tree.{empty_tree, file_of, file_after, grown, found_at, links_of, new_dir};
ghost use Rattle.rz_tree.specs.Inodes.{object_of, found_of};

use crate::inodes::{Inode, Inodes};
use rz_events::{FileInfo, Kind, Text};
use rz_names::{NameMap, Path};
use std::alloc::{AllocError, Global};
use std::marker::Model;

/// The number of the root.
pub const ROOT: u128 = 0;

/// The mode of a new directory.
pub const DIRECTORY_MODE: u16 = 0o755;

/// The names of a volume, and the objects to which they lead.
#[derive(Drop)]
pub struct Tree {
    pub(crate) alloc: Global,
    pub(crate) names: NameMap,
    pub(crate) inodes: Inodes,
    pub(crate) made: u128,
}

impl Model for Tree {
    ghost use Rattle.rz_export_model.specs.Tree as model;
    ghost use Rattle.rz_export_model.specs.Codes.{tree_code};
    ghost use Rattle.rz_tree.specs.Trees.{tree_of, IsKept};

    ghost Value = { model.Tree };

    ghost coded = { tree_code };

    ghost view = { λ t. tree_of t.names t.inodes t.made };

    ghost invariant = { λ t. IsKept t.names t.inodes t.made };
}

impl Tree {
    /// The tree of the root alone, a directory.
    pub fn new(alloc: Global) -> Result<Tree, AllocError>
        ensures { IfOk result (λ t. t ≡ empty_tree) }
    {
        let mut inodes = Inodes::new(alloc);
        inodes.add(ROOT, new_directory(alloc))?;
        Ok(Tree {
            alloc,
            names: NameMap::new(alloc),
            inodes,
            made: ROOT,
        })
    }

    /// The number of the object that was made last, or 0.
    pub fn made(&self) -> u128
        ensures { result ≡ self.now.made }
    {
        self.made
    }

    /// The live file of this number.
    pub fn file(&self, fid: u128) -> Option<FileInfo>
        ensures { result ≡ file_of self.now fid }
    {
        let inode = self.inodes.get(fid)?;
        match inode.kind {
            Kind::File => Some(inode.info(fid)),
            _ => None,
        }
    }

    /// The live file of the least greater number.
    pub fn file_after(&self, fid: u128) -> Option<FileInfo>
        ensures { result ≡ file_after self.now fid }
    {
        self.inodes.file_past(fid)
    }

    /// Raises the size of a file that is live to `size`, where this is greater.
    pub fn grow(&mut self, fid: u128, size: u64)
        requires { IsSome (file_of self.old fid) }
        ensures { self.new ≡ grown self.old fid size }
    {
        self.inodes.raise_size(fid, size);
    }

    // The object at the first `count` names of a path, with its number.
    pub(crate) fn found_front(&self, path: &Path, count: usize) -> Option<(u128, &Inode)>
        requires { count ≤ length path.now }
        ensures found { option_map (λ p. found_of p.0 p.1.now) result ≡ found_at self.now (take count path.now) }
        ensures links { IfSome result (λ p. p.1.now.links ≡ links_of self.now (found_of p.0 p.1.now)) }
    {
        let fid = self.names.find(path, count)?;
        let inode = self.inodes.get(fid)?;
        Some((fid, inode))
    }

    // The object at a path, with its number.
    pub(crate) fn found(&self, path: &Path) -> Option<(u128, &Inode)>
        ensures found { option_map (λ p. found_of p.0 p.1.now) result ≡ found_at self.now path.now }
        ensures links { IfSome result (λ p. p.1.now.links ≡ links_of self.now (found_of p.0 p.1.now)) }
    {
        self.found_front(path, path.names().len())
    }
}

/// A new directory.
pub fn new_directory(alloc: Global) -> Inode
    ensures object { object_of result ≡ new_dir }
    ensures links { result.links ≡ 1 }
{
    let target = Text::from_vec(Vec::new(alloc));
    Inode::new(Kind::Dir, DIRECTORY_MODE, target)
}
