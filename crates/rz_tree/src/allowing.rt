//! Which part of a tree may come next.

ghost use Rattle.std.specs.Prelude.{◌≡◌, ◌==◌, ◌↔◌, ◌&&◌, nat_le, nat_lt, length, IsTrue};
ghost use Rattle.std.specs.FinMap as maps;
ghost use Rattle.rz_export_model.specs.Tree.{is_dir};
ghost use Rattle.rz_names.specs.Names.{below_root, is_behind};
ghost use Rattle.rz_tree.specs.Added.{most_names, AreNamed, IsRootPart, MayBeNext};
ghost use Rattle.rz_tree.specs.Allowed.{fits_kind, is_next_number, stands_under, may_be_named, is_next_name};

use crate::faults::{MOST_LINKS, MOST_OBJECTS};
use crate::inodes::is_directory;
use crate::parts::Part;
use crate::tree::{ROOT, Tree};
use rz_events::{Kind, Places, Text};
use rz_names::Path;

impl Tree {
    /// Whether an object or a name may be added as the next part. Counters stand before all objects,
    /// and blocks and enrolments are no parts of a tree, so that none of these may.
    pub fn allows(&self, part: &Part) -> bool
        ensures { IsTrue result ↔ MayBeNext self.now part.now }
    {
        match part {
            Part::Counters { .. } => false,
            Part::Object {
                fid,
                kind,
                size,
                cid,
                places,
                target,
                ..
            } => self.allows_object(*fid, *kind, *size, *cid, places, target),
            Part::Name { path, fid } => self.allows_name(path, *fid),
            Part::Block { .. } => false,
            Part::Enrolled { .. } => false,
        }
    }

    /// Whether each object has a name.
    pub fn is_named(&self) -> bool
        ensures { IsTrue result ↔ AreNamed self.now }
    {
        self.inodes.are_linked()
    }

    // Whether this object may be next.
    fn allows_object(
        &self,
        fid: u128,
        kind: Kind,
        size: u64,
        cid: u16,
        places: &Places,
        target: &Text,
    ) -> bool
        ensures { result ≡ (is_next_number self.now fid && fits_kind kind size cid places.now target.now) }
    {
        self.allows_number(fid) && fits_kind(kind, size, cid, places, target)
    }

    // Whether the next object may have this number.
    fn allows_number(&self, fid: u128) -> bool
        ensures { result ≡ is_next_number self.now fid }
    {
        self.is_behind_objects(fid)
            && self.is_given(fid)
            && self.has_few_objects()
            && self.is_nameless()
    }

    // Whether the next name may be this path to the object of this number.
    fn allows_name(&self, path: &Path, fid: u128) -> bool
        ensures { result ≡ is_next_name self.now path.now fid }
    {
        path.is_spelled()
            && self.is_behind_names(path)
            && self.stands_under(path)
            && 1 <= fid
            && self.may_be_named(fid)
    }

    // Whether a number stands behind those of all objects.
    fn is_behind_objects(&self, fid: u128) -> bool
        ensures { result ≡ is_behind self.now.objects fid }
    {
        self.inodes.is_behind(fid)
    }

    // Whether a number was given to an object.
    fn is_given(&self, fid: u128) -> bool
        ensures { result ≡ nat_le fid self.now.made }
    {
        fid <= self.made
    }

    // Whether one object more is not too many.
    fn has_few_objects(&self) -> bool
        ensures { result ≡ nat_le (maps.len self.now.objects) 65536 }
    {
        self.inodes.len() <= MOST_OBJECTS
    }

    // Whether there is no path but the root's.
    fn is_nameless(&self) -> bool
        ensures { result ≡ (length (below_root self.now.names) == 0) }
    {
        self.names.count() == 0
    }

    // Whether a path stands behind all others.
    fn is_behind_names(&self, path: &Path) -> bool
        ensures { result ≡ is_behind self.now.names path.now }
    {
        self.names.is_behind(path)
    }

    // Whether a path has a name and stands right under a directory.
    fn stands_under(&self, path: &Path) -> bool
        ensures { result ≡ stands_under self.now path.now }
    {
        let count = path.names().len();
        if count == 0 {
            return false;
        }
        self.no_directory(path, count - 1).is_none()
    }

    // Whether the object of a number is there, and may have one more name.
    fn may_be_named(&self, fid: u128) -> bool
        ensures { result ≡ may_be_named self.now fid }
    {
        match self.inodes.get(fid) {
            None => false,
            Some(inode) => inode.links < most_names(inode.kind),
        }
    }
}

impl Part {
    /// Whether it is the root, as it comes before all other objects.
    pub fn is_root(&self) -> bool
        ensures { IsTrue result ↔ IsRootPart self.now }
    {
        match self {
            Part::Counters { .. } => false,
            Part::Object {
                fid,
                kind,
                size,
                cid,
                places,
                target,
                ..
            } => is_root_object(*fid, *kind, *size, *cid, places, target),
            Part::Name { .. } => false,
            Part::Block { .. } => false,
            Part::Enrolled { .. } => false,
        }
    }
}

// Whether this is the root: a directory under its number.
fn is_root_object(
    fid: u128,
    kind: Kind,
    size: u64,
    cid: u16,
    places: &Places,
    target: &Text,
) -> bool
    ensures { result ≡ ((fid == 0) && is_dir kind && fits_kind kind size cid places.now target.now) }
{
    fid == ROOT && is_directory(kind) && fits_kind(kind, size, cid, places, target)
}

// The most names that an object of a kind has.
fn most_names(kind: Kind) -> u32
    ensures { result ≡ most_names kind }
{
    match kind {
        Kind::Dir => 1,
        Kind::File | Kind::Link => MOST_LINKS,
    }
}

// Whether these are the size, the place and the target of an object of a kind.
fn fits_kind(kind: Kind, size: u64, cid: u16, places: &Places, target: &Text) -> bool
    ensures { result ≡ fits_kind kind size cid places.now target.now }
{
    let bytes = target.bytes().len();
    let nowhere = cid == 0 && places.list().is_empty();
    match kind {
        Kind::File => bytes == 0,
        Kind::Dir => size == 0 && bytes == 0 && nowhere,
        Kind::Link => 1 <= bytes && bytes <= 1024 && size == bytes as u64 && nowhere,
    }
}
