//! A rename.

ghost use Rattle.std.specs.Prelude.{◌≡◌, ◌&&◌, ◌∷◌, false, [], Some, None, IfOk, IfSome, OnOk, OnErr};
ghost use Rattle.std.specs.Option.{option_map};
ghost use Rattle.std.specs.Result.{result_err};
ghost use Rattle.rz_export_model.specs.Firsts.{first_of, given_if};
ghost use Rattle.rz_export_model.specs.Paths.{Path, is_root, is_below};
ghost use Rattle.rz_export_model.specs.Tree.{found_at, fid_at, links_of, is_dir};
ghost use Rattle.rz_export_model.specs.Refusals.{walk, absent, into_itself, not_replaceable, is_same_object};
ghost use Rattle.rz_export_model.specs.TreeCalls.{reply_to, tree_after, renamed};
ghost use Rattle.rz_events.specs.declared.tree.TreeCall.{TreeCall};
ghost use Rattle.rz_tree.specs.Inodes.{found_of};

use crate::changes::{last_file, read_below};
use crate::inodes::{Inode, is_directory};
use crate::tree::Tree;
use rz_events::{Kind, Text, TreeFault, TreeReply};
use rz_names::Path;
use std::alloc::AllocError;

impl Tree {
    /// Moves a path, and all paths below it, to another; what stood there goes.
    pub fn rename(&mut self, text: &Text, to: &Text) -> Result<TreeReply, AllocError>
        ensures reply { IfOk result (λ r. r ≡ reply_to self.old 0 [] (TreeCall.Rename text.now to.now)) }
        ensures ok { OnOk result (self.new ≡ tree_after self.old 0 [] (TreeCall.Rename text.now to.now)) }
        ensures err { OnErr result (self.new ≡ self.old) }
    {
        let Some(path) = read_below(self.alloc, text)? else {
            return Ok(TreeReply::Refused(TreeFault::BadName));
        };
        let Some(to) = read_below(self.alloc, to)? else {
            return Ok(TreeReply::Refused(TreeFault::BadName));
        };
        match self.movable_at(&path, &to) {
            Err(fault) => Ok(TreeReply::Refused(fault)),
            Ok((_, None)) => {
                self.move_names(&path, &to, None)?;
                Ok(TreeReply::Gone(None))
            }
            Ok((fid, Some((other, _)))) if fid == other => Ok(TreeReply::Gone(None)),
            Ok((_, Some((other, inode)))) => {
                let gone = last_file(other, inode);
                self.move_names(&path, &to, Some(other))?;
                Ok(TreeReply::Gone(gone))
            }
        }
    }

    // Moves a path, and all paths below it, where nothing forbids it and `to` is no path of its object.
    // The number of what stands at `to`, if anything does, is `replaced`.
    fn move_names(
        &mut self,
        path: &Path,
        to: &Path,
        replaced: Option<u128>,
    ) -> Result<(), AllocError>
        requires free { first_of (walk self.old path.now ∷ absent self.old path.now ∷ into_itself self.old path.now to.now ∷ walk self.old to.now ∷ not_replaceable self.old path.now to.now ∷ []) ≡ None }
        requires two { is_same_object self.old path.now to.now ≡ false }
        requires there { replaced ≡ fid_at self.old to.now }
        requires from { is_root path.now ≡ false }
        requires below { is_root to.now ≡ false }
        ensures ok { OnOk result (self.new ≡ renamed self.old path.now to.now) }
        ensures err { OnErr result (self.new ≡ self.old) }
    {
        self.names.rename(path, to)?;
        if let Some(fid) = replaced {
            self.inodes.release(fid);
        }
        Ok(())
    }

    // The number of the object at a path, with what stands at `to`, or why the path can't be moved there.
    fn movable_at(
        &self,
        path: &Path,
        to: &Path,
    ) -> Result<(u128, Option<(u128, &Inode)>), TreeFault>
        ensures number { IfOk result (λ m. fid_at self.now path.now ≡ Some m.0) }
        ensures found { IfOk result (λ m. option_map (λ p. found_of p.0 p.1.now) m.1 ≡ found_at self.now to.now) }
        ensures links { IfOk result (λ m. IfSome m.1 (λ p. p.1.now.links ≡ links_of self.now (found_of p.0 p.1.now))) }
        ensures fault { result_err result ≡ first_of (walk self.now path.now ∷ absent self.now path.now ∷ into_itself self.now path.now to.now ∷ walk self.now to.now ∷ not_replaceable self.now path.now to.now ∷ []) }
    {
        let (fid, inode) = self.object_at(path)?;
        if let Some(fault) = into_itself(inode.kind, path, to) {
            return Err(fault);
        }
        if let Some(fault) = self.walk(to) {
            return Err(fault);
        }
        let found = self.found(to);
        match self.not_replaceable(fid, inode, to, found) {
            None => Ok((fid, found)),
            Some(fault) => Err(fault),
        }
    }

    // Why what was found at `to` can't be replaced by an object.
    fn not_replaceable(
        &self,
        fid: u128,
        inode: &Inode,
        to: &Path,
        found: Option<(u128, &Inode)>,
    ) -> Option<TreeFault>
        requires { option_map (λ p. found_of p.0 p.1.now) found ≡ found_at self.now to.now }
        ensures { (path : Path) → Some (found_of fid inode.now) ≡ found_at self.now path → result ≡ not_replaceable self.now path to.now }
    {
        let (other, target) = found?;
        if fid == other {
            return None;
        }
        match (inode.kind, target.kind) {
            (Kind::Dir, Kind::Dir) => self.not_empty(to),
            (Kind::Dir, _) => Some(TreeFault::NotDir),
            (_, Kind::Dir) => Some(TreeFault::IsDir),
            _ => None,
        }
    }
}

// Whether an object of this kind would be moved below itself.
fn into_itself(kind: Kind, path: &Path, to: &Path) -> Option<TreeFault>
    ensures { result ≡ given_if (is_dir kind && is_below path.now to.now) TreeFault.IntoItself }
{
    if is_directory(kind) && to.starts_with(path) && path.names().len() < to.names().len() {
        return Some(TreeFault::IntoItself);
    }
    None
}
