//! The parts that a tree is made of, one by one.

ghost use Rattle.std.specs.Prelude.{◌≡◌, ◌+◌, ◌<◌, length, IfOk, MatchOption};
ghost use Rattle.std.specs.List.{slice_get};
ghost use Rattle.std.specs.Option.{option_map};
ghost use Rattle.std.specs.FinMap as maps;
ghost use Rattle.rz_names.specs.Names.{below_root};
ghost use Rattle.rz_tree.specs.Inodes.{object_of};
ghost use Rattle.rz_tree.specs.Parts.{object_part, name_part, tree_parts, after_object, after_name};

use crate::inodes::Inode;
use crate::tree::Tree;
use rz_events::{Key, Kind, Places, Published, Text};
use rz_names::Path;
use std::alloc::{AllocError, Global};

/// A part of what an export knows. All its parts together are the export.
#[derive(Drop)]
pub enum Part {
    /// The last number drawn, and the number of the object that was made last.
    Counters {
        last: u64,
        made: u128,
    },
    /// An object: `places` and `cid` are those of a file, and `target` is that of a symbolic link.
    Object {
        fid: u128,
        kind: Kind,
        mode: u16,
        mtime: u64,
        size: u64,
        cid: u16,
        places: Places,
        target: Text,
    },
    /// A path other than the root's, and the number of the object to which it leads.
    Name {
        path: Path,
        fid: u128,
    },
    /// A block that was begun: the newest stamp begun, and what is published.
    Block {
        key: Key,
        latest: u64,
        published: Option<Published>,
    },
    /// The greatest loss of a node that was enrolled, and its fence.
    Enrolled {
        node: u16,
        loss: u64,
        fence: u64,
    },
}

impl Tree {
    /// The part at a place: first come the objects by their numbers, then the names by their paths.
    pub fn part(&self, i: usize) -> Result<Option<Part>, AllocError>
        ensures { IfOk result (λ part. part ≡ slice_get (tree_parts self.now) i) }
    {
        let objects = self.inodes.len();
        if i < objects {
            return self.object_part(i);
        }
        self.name_part(i - objects)
    }

    /// How far a place is behind the last part, or none where a part stands at it.
    pub fn past_parts(&self, i: usize) -> Option<usize>
        ensures { MatchOption result
            (i < length (tree_parts self.now))
            (λ past. i ≡ length (tree_parts self.now) + past) }
    {
        let objects = self.inodes.len();
        if i < objects {
            return None;
        }
        let past_objects = i - objects;
        let names = self.names.count();
        if past_objects < names {
            return None;
        }
        Some(past_objects - names)
    }

    /// The object with the least number past the given one, or the first one. Where there is none, it
    /// is the first name. Either is found in logarithmic time.
    pub fn part_after_object(&self, fid: Option<u128>) -> Result<Option<Part>, AllocError>
        ensures { IfOk result (λ part. part ≡ after_object self.now fid) }
    {
        match self.inodes.after(fid) {
            None => self.name_part(0),
            Some((fid, inode)) => Ok(Some(object_part(self.alloc, fid, inode)?)),
        }
    }

    /// The name of the least path above the given one, found in logarithmic time.
    pub fn part_after_name(&self, path: &Path) -> Result<Option<Part>, AllocError>
        ensures { IfOk result (λ part. part ≡ after_name self.now path.now) }
    {
        Ok(name_part(self.names.after(Some(path))?))
    }

    // The object at a place in the order of the numbers.
    fn object_part(&self, i: usize) -> Result<Option<Part>, AllocError>
        ensures { IfOk result (λ part. part ≡ option_map object_part (slice_get (maps.entries self.now.objects) i)) }
    {
        match self.inodes.nth(i) {
            None => Ok(None),
            Some((fid, inode)) => Ok(Some(object_part(self.alloc, fid, inode)?)),
        }
    }

    // The name at a place in the order of the paths.
    fn name_part(&self, i: usize) -> Result<Option<Part>, AllocError>
        ensures { IfOk result (λ part. part ≡ option_map name_part (slice_get (below_root self.now.names) i)) }
    {
        Ok(name_part(self.names.nth(i)?))
    }
}

// The part of an object, with a copy of its target.
fn object_part(alloc: Global, fid: u128, inode: &Inode) -> Result<Part, AllocError>
    ensures { IfOk result (λ part. part ≡ object_part (fid, object_of inode.now)) }
{
    Ok(Part::Object {
        fid,
        kind: inode.kind,
        mode: inode.mode,
        mtime: inode.mtime,
        size: inode.size,
        cid: inode.cid,
        places: inode.places,
        target: inode.target.copy(alloc)?,
    })
}

// The part of a name, where there is one.
fn name_part(name: Option<(Path, u128)>) -> Option<Part>
    ensures { result ≡ option_map name_part name }
{
    let (path, fid) = name?;
    Some(Part::Name { path, fid })
}
