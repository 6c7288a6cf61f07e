//! Why calls are refused, in the order in which the reasons count.

ghost use Rattle.std.specs.Prelude.{◌≡◌, ◌-◌, ◌^◌, ◌≤◌, ◌||◌, ◌∷◌, [], Some, IfOk, nat_lt, nat_le, length, take};
ghost use Rattle.std.specs.Result.{result_err};
ghost use Rattle.std.specs.FinMap as maps;
ghost use Rattle.rz_export_model.specs.Firsts.{first_of, given_if};
ghost use Rattle.rz_export_model.specs.Tree.{found_at, links_of};
ghost use Rattle.rz_export_model.specs.Refusals.{walk, absent, present, no_directory, not_dir, dir, link, not_link, not_empty, too_many_links, can_not_make};
ghost use Rattle.rz_tree.specs.Inodes.{found_of};

use crate::inodes::Inode;
use crate::tree::Tree;
use rz_events::{Kind, TreeFault};
use rz_names::Path;

/// The most objects besides the root.
pub const MOST_OBJECTS: usize = 65536;

/// The most paths that lead to one object.
pub const MOST_LINKS: u32 = 65535;

impl Tree {
    // Along the names before the last, the first that is absent or no directory.
    pub(crate) fn walk(&self, path: &Path) -> Option<TreeFault>
        ensures { result ≡ walk self.now path.now }
    {
        for count in 1..path.names().len() {
            if let Some(fault) = self.no_directory(path, count) {
                return Some(fault);
            }
        }
        None
    }

    // Why the first `count` names of a path are no directory's.
    pub(crate) fn no_directory(&self, path: &Path, count: usize) -> Option<TreeFault>
        requires { count ≤ length path.now }
        ensures { result ≡ no_directory self.now (take count path.now) }
    {
        match self.found_front(path, count) {
            None => Some(TreeFault::NoEntry),
            Some((_, inode)) => match inode.kind {
                Kind::Dir => None,
                Kind::File | Kind::Link => Some(TreeFault::NotDir),
            },
        }
    }

    // The object at a path with its number, or why there is none.
    pub(crate) fn object_at(&self, path: &Path) -> Result<(u128, &Inode), TreeFault>
        ensures found { IfOk result (λ p. Some (found_of p.0 p.1.now) ≡ found_at self.now path.now) }
        ensures links { IfOk result (λ p. p.1.now.links ≡ links_of self.now (found_of p.0 p.1.now)) }
        ensures fault { result_err result ≡ first_of (walk self.now path.now ∷ absent self.now path.now ∷ []) }
    {
        if let Some(fault) = self.walk(path) {
            return Err(fault);
        }
        match self.found(path) {
            None => Err(TreeFault::NoEntry),
            Some(found) => Ok(found),
        }
    }

    // The file at a path with its number, or why there is none.
    pub(crate) fn file_at(&self, path: &Path) -> Result<(u128, &Inode), TreeFault>
        ensures found { IfOk result (λ p. Some (found_of p.0 p.1.now) ≡ found_at self.now path.now) }
        ensures fault { result_err result ≡ first_of (walk self.now path.now ∷ absent self.now path.now ∷ dir self.now path.now ∷ link self.now path.now ∷ []) }
    {
        let (fid, inode) = self.object_at(path)?;
        match inode.kind {
            Kind::File => Ok((fid, inode)),
            Kind::Dir => Err(TreeFault::IsDir),
            Kind::Link => Err(TreeFault::IsLink),
        }
    }

    // The symbolic link at a path with its number, or why there is none.
    pub(crate) fn link_at(&self, path: &Path) -> Result<(u128, &Inode), TreeFault>
        ensures found { IfOk result (λ p. Some (found_of p.0 p.1.now) ≡ found_at self.now path.now) }
        ensures fault { result_err result ≡ first_of (walk self.now path.now ∷ absent self.now path.now ∷ not_link self.now path.now ∷ []) }
    {
        let (fid, inode) = self.object_at(path)?;
        match inode.kind {
            Kind::Link => Ok((fid, inode)),
            Kind::File | Kind::Dir => Err(TreeFault::NotLink),
        }
    }

    // The file or symbolic link at a path with its number, or why there is none.
    pub(crate) fn leaf_at(&self, path: &Path) -> Result<(u128, &Inode), TreeFault>
        ensures found { IfOk result (λ p. Some (found_of p.0 p.1.now) ≡ found_at self.now path.now) }
        ensures links { IfOk result (λ p. p.1.now.links ≡ links_of self.now (found_of p.0 p.1.now)) }
        ensures fault { result_err result ≡ first_of (walk self.now path.now ∷ absent self.now path.now ∷ dir self.now path.now ∷ []) }
    {
        let (fid, inode) = self.object_at(path)?;
        match inode.kind {
            Kind::Dir => Err(TreeFault::IsDir),
            Kind::File | Kind::Link => Ok((fid, inode)),
        }
    }

    // The directory at a path with its number, or why there is none.
    pub(crate) fn directory_at(&self, path: &Path) -> Result<(u128, &Inode), TreeFault>
        ensures found { IfOk result (λ p. Some (found_of p.0 p.1.now) ≡ found_at self.now path.now) }
        ensures fault { result_err result ≡ first_of (walk self.now path.now ∷ absent self.now path.now ∷ not_dir self.now path.now ∷ []) }
    {
        let (fid, inode) = self.object_at(path)?;
        match inode.kind {
            Kind::Dir => Ok((fid, inode)),
            Kind::File | Kind::Link => Err(TreeFault::NotDir),
        }
    }

    // The empty directory at a path with its number, or why there is none.
    pub(crate) fn empty_directory_at(&self, path: &Path) -> Result<(u128, &Inode), TreeFault>
        ensures found { IfOk result (λ p. Some (found_of p.0 p.1.now) ≡ found_at self.now path.now) }
        ensures fault { result_err result ≡ first_of (walk self.now path.now ∷ absent self.now path.now ∷ not_dir self.now path.now ∷ not_empty self.now path.now ∷ []) }
    {
        let found = self.directory_at(path)?;
        match self.not_empty(path) {
            None => Ok(found),
            Some(fault) => Err(fault),
        }
    }

    // The object at a path with its number, or why `to` can't be one more path of it.
    pub(crate) fn linkable_at(&self, path: &Path, to: &Path) -> Result<(u128, &Inode), TreeFault>
        ensures found { IfOk result (λ p. Some (found_of p.0 p.1.now) ≡ found_at self.now path.now) }
        ensures links { IfOk result (λ p. p.1.now.links ≡ links_of self.now (found_of p.0 p.1.now)) }
        ensures fault { result_err result ≡ first_of (walk self.now path.now ∷ absent self.now path.now ∷ dir self.now path.now ∷ walk self.now to.now ∷ present self.now to.now ∷ too_many_links self.now path.now ∷ []) }
    {
        let found = self.leaf_at(path)?;
        if let Some(fault) = self.walk(to) {
            return Err(fault);
        }
        if self.found(to).is_some() {
            return Err(TreeFault::Exists);
        }
        match too_many(found.1.links) {
            None => Ok(found),
            Some(fault) => Err(fault),
        }
    }

    // Why no object can be made at a path.
    pub(crate) fn no_place(&self, path: &Path) -> Option<TreeFault>
        ensures { result ≡ first_of (can_not_make self.now path.now) }
    {
        if path.names().is_empty() {
            return Some(TreeFault::Exists);
        }
        if let Some(fault) = self.walk(path) {
            return Some(fault);
        }
        if self.found(path).is_some() {
            return Some(TreeFault::Exists);
        }
        if self.is_full() {
            return Some(TreeFault::TooManyFiles);
        }
        None
    }

    // Whether no further object can be made.
    fn is_full(&self) -> bool
        ensures { result ≡ (nat_lt 65536 (maps.len self.now.objects) || nat_le (2 ^ 128 - 1) self.now.made) }
    {
        self.inodes.len() > MOST_OBJECTS || is_last(self.made)
    }

    // Whether there are names right under a path.
    pub(crate) fn not_empty(&self, path: &Path) -> Option<TreeFault>
        ensures { result ≡ not_empty self.now path.now }
    {
        match self.names.child(path, None) {
            Some(_) => Some(TreeFault::NotEmpty),
            None => None,
        }
    }
}

// Whether no number follows.
fn is_last(number: u128) -> bool
    ensures { result ≡ nat_le (2 ^ 128 - 1) number }
{
    number >= u128::MAX
}

// Whether an object may have no more paths.
fn too_many(links: u32) -> Option<TreeFault>
    ensures { result ≡ given_if (nat_le 65535 links) TreeFault.TooManyLinks }
{
    if links >= MOST_LINKS {
        return Some(TreeFault::TooManyLinks);
    }
    None
}
