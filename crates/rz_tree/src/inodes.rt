//! Objects by their numbers, each with the count of the paths that lead to it.

ghost use Rattle.std.specs.Prelude.{◌≡◌, [], length, None, OnOk, OnErr};
ghost use Rattle.std.specs.Option.{option_copied, option_map};
ghost use Rattle.std.specs.List.{slice_get};
ghost use Rattle.std.specs.FinMap as maps;
ghost use Rattle.rz_export_model.specs.Tree.{info_of, is_dir};
ghost use Rattle.rz_names.specs.Names.{is_behind};
ghost use Rattle.rz_tree.specs.Inodes.{object_of, found_of, attr_kept, with_attributes, with_size_of, greater_of, with_links, changed_at, released, file_past, are_linked, first_past, IsStartPast};

use rz_events::{Attr, FileInfo, Kind, Places, Text};
use std::alloc::{AllocError, Global};
use std::collections::{BTreeMap, BTreeSet};
use std::marker::Model;
use std::ops::Bound;

/// A file, a directory or a symbolic link, with the count of the paths that lead to it.
#[derive(Drop)]
pub struct Inode {
    pub kind: Kind,
    pub mode: u16,
    pub mtime: u64,
    pub target: Text,
    pub size: u64,
    pub cid: u16,
    pub places: Places,
    pub links: u32,
}

impl Inode {
    /// An object as long as its target, which lies on no node and to which one path leads.
    pub fn new(kind: Kind, mode: u16, target: Text) -> Inode
        ensures object { object_of result ≡ record { kind = kind; mode = mode; mtime = 0; target = target; size = length target; cid = 0; places = [] } }
        ensures links { result.links ≡ 1 }
    {
        let size = target.bytes().len() as u64;
        Inode {
            kind,
            mode,
            mtime: 0,
            target,
            size,
            cid: 0,
            places: Places::none(),
            links: 1,
        }
    }

    /// What a client learns of the file of this number.
    pub fn info(&self, fid: u128) -> FileInfo
        ensures { result ≡ info_of (found_of fid self.now) }
    {
        FileInfo {
            fid,
            cid: self.cid,
            places: self.places,
            size: self.size,
        }
    }

    /// The attributes of the object of this number.
    pub fn attributes(&self, fid: u128) -> Attr
        ensures { result ≡ attr_kept fid self.now }
    {
        Attr {
            fid,
            kind: self.kind,
            mode: self.mode,
            mtime: self.mtime,
            links: self.links,
            size: self.size,
        }
    }
}

/// The objects of a tree, by their numbers.
///
/// The numbers of the files stand in a set of their own too, so that the next file is found without
/// passing over the directories and links between.
#[derive(Drop)]
pub struct Inodes {
    entries: BTreeMap<u128, Inode>,
    files: BTreeSet<u128>,
}

impl Model for Inodes {
    ghost use Rattle.std.specs.FinMap as maps;
    ghost use Rattle.std.specs.Ordering.{nat_cmp};
    ghost use Rattle.std.specs.Coded.{coded_ℕ};
    ghost use Rattle.rz_tree.specs.declared.inodes.Inode.{Inode};
    ghost use Rattle.rz_tree.specs.contracts.inodes.Inode as inode;

    ghost Value = { maps.FinMap nat_cmp Inode };

    ghost coded = { maps.code coded_ℕ inode.the_row.coded };

    ghost use Rattle.rz_tree.specs.Inodes.{AreFilesOf};

    ghost view = { λ o. maps.from_entries o.entries.entries };

    ghost invariant = { λ o. AreFilesOf (maps.from_entries o.entries.entries) o.files };
}

impl Inodes {
    /// No objects.
    pub fn new(alloc: Global) -> Inodes
        ensures { result ≡ maps.empty }
    {
        Inodes {
            entries: BTreeMap::new(alloc),
            files: BTreeSet::new(alloc),
        }
    }

    /// How many objects there are.
    pub fn len(&self) -> usize
        ensures { result ≡ maps.len self.now }
    {
        self.entries.len()
    }

    /// The object of a number.
    pub fn get(&self, fid: u128) -> Option<&Inode>
        ensures { option_copied result ≡ maps.get self.now fid }
    {
        self.entries.get(&fid)
    }

    /// The object at a place in the order of the numbers, with its number. Those before it are passed
    /// over one by one.
    pub fn nth(&self, at: usize) -> Option<(u128, &Inode)>
        ensures { option_map (λ p. (p.0, p.1.now)) result ≡ slice_get (maps.entries self.now) at }
    {
        let (fid, inode) = self.entries.iter().nth(at)?;
        Some((*fid, inode))
    }

    /// The object with the least number past the given one, or the first one, with its number. It is
    /// found in logarithmic time.
    pub fn after(&self, fid: Option<u128>) -> Option<(u128, &Inode)>
        ensures { option_map (λ p. (p.0, p.1.now)) result ≡ first_past fid (maps.entries self.now) }
    {
        let past = (start_past(fid), Bound::Unbounded);
        match self.entries.range(past).next() {
            None => None,
            Some((fid, inode)) => Some((*fid, inode)),
        }
    }

    /// The file with the least greater number.
    pub fn file_past(&self, fid: u128) -> Option<FileInfo>
        ensures { result ≡ file_past self.now fid }
    {
        let past = (Bound::Excluded(fid), Bound::Unbounded);
        let number = *self.files.range(past).next()?;
        let inode = self.get(number)?;
        Some(inode.info(number))
    }

    /// Whether a number stands behind those of all objects.
    pub fn is_behind(&self, fid: u128) -> bool
        ensures { result ≡ is_behind self.now fid }
    {
        let rest = (Bound::Included(fid), Bound::Unbounded);
        match self.entries.range(rest).next() {
            None => true,
            Some(_) => false,
        }
    }

    /// Whether some path leads to each object.
    pub fn are_linked(&self) -> bool
        ensures { result ≡ are_linked (maps.entries self.now) }
    {
        for (_, inode) in self.entries.range((Bound::Included(0), Bound::Unbounded)) {
            if inode.links == 0 {
                return false;
            }
        }
        true
    }

    /// Adds an object under a number that has none.
    pub fn add(&mut self, fid: u128, inode: Inode) -> Result<(), AllocError>
        requires { maps.get self.old fid ≡ None }
        ensures ok { OnOk result (self.new ≡ maps.insert self.old fid inode) }
        ensures err { OnErr result (self.new ≡ self.old) }
    {
        let kind = inode.kind;
        self.entries.insert(fid, inode)?;
        let Kind::File = kind else {
            return Ok(());
        };
        match self.files.insert(fid) {
            Ok(_) => Ok(()),
            Err(error) => {
                self.entries.remove(&fid);
                Err(AllocError::from(error))
            }
        }
    }

    /// Takes the object of a number away, where it has one.
    pub fn remove(&mut self, fid: u128)
        ensures { self.new ≡ maps.remove self.old fid }
    {
        self.entries.remove(&fid);
        self.files.remove(&fid);
    }

    /// Sets the mode and the time of an object.
    pub fn set_attributes(&mut self, fid: u128, mode: u16, mtime: u64)
        ensures { self.new ≡ changed_at self.old fid (with_attributes mode mtime) }
    {
        if let Some(inode) = self.entries.get_mut(&fid) {
            inode.mode = mode;
            inode.mtime = mtime;
        }
    }

    /// Raises the size of an object, where the new one is greater.
    pub fn raise_size(&mut self, fid: u128, size: u64)
        ensures { self.new ≡ changed_at self.old fid (with_size_of size) }
    {
        if let Some(inode) = self.entries.get_mut(&fid) {
            inode.size = greater(inode.size, size);
        }
    }

    /// How many paths lead to an object.
    pub fn links(&self, fid: u128) -> Option<u32>
        ensures { result ≡ option_map (λ i. i.links) (maps.get self.now fid) }
    {
        let inode = self.get(fid)?;
        Some(inode.links)
    }

    /// One path less leads to an object; with the last one it goes.
    pub fn release(&mut self, fid: u128)
        ensures { self.new ≡ released self.old fid }
    {
        match self.links(fid) {
            None => {}
            Some(1) => self.remove(fid),
            Some(links) => self.set_links(fid, links.saturating_sub(1)),
        }
    }

    /// Sets how many paths lead to an object.
    pub fn set_links(&mut self, fid: u128, links: u32)
        ensures { self.new ≡ changed_at self.old fid (with_links links) }
    {
        if let Some(inode) = self.entries.get_mut(&fid) {
            inode.links = links;
        }
    }
}

// The first bound of the numbers past the given one.
fn start_past(after: Option<u128>) -> Bound<u128>
    ensures { IsStartPast result after }
{
    match after {
        None => Bound::Unbounded,
        Some(after) => Bound::Excluded(after),
    }
}

// The greater of two sizes.
fn greater(had: u64, size: u64) -> u64
    ensures { result ≡ greater_of had size }
{
    if had < size { size } else { had }
}

/// Whether a kind is that of directories.
pub fn is_directory(kind: Kind) -> bool
    ensures { result ≡ is_dir kind }
{
    match kind {
        Kind::Dir => true,
        Kind::File | Kind::Link => false,
    }
}
