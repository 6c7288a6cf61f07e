//! The map from paths to numbers.

ghost use Rattle.std.specs.Prelude.{◌≡◌, ◌≤◌, [], length, take, None, IfOk, OnOk, OnErr, IsSome, IsTrue, false};
ghost use Rattle.std.specs.Option.{option_copied, unwrap_or};
ghost use Rattle.std.specs.FinMap as maps;
ghost use Rattle.rz_export_model.specs.Paths.{above, is_root, begins_with};
ghost use Rattle.rz_export_model.specs.Tree.{names_under, moved};
ghost use Rattle.std.specs.List.{slice_get};
ghost use Rattle.rz_names.specs.Names.{root_alone, next_name, entry_after, below_root, is_behind};

use crate::Path;
use crate::entries::{
    PathEntry, moved_entries, number_at, place_above, place_after, place_of, put_block,
    remove_block, remove_one,
};
use crate::order::starts_with;
use rz_events::Text;
use rz_sequence::Sequence;
use std::alloc::{AllocError, Global};
use std::marker::Model;

/// The number of the root.
const ROOT: u128 = 0;

/// A map from paths to numbers of objects, which always holds the root with number 0.
///
/// The entries but the root's are kept in one sequence in the order of their paths, so that all paths
/// below a directory stand together, and a search goes down the sequence's tree.
#[derive(Drop)]
pub struct NameMap {
    alloc: Global,
    entries: Sequence<PathEntry>,
}

impl Model for NameMap {
    ghost use Rattle.std.specs.Prelude.{ℕ};
    ghost use Rattle.std.specs.FinMap as maps;
    ghost use Rattle.std.specs.Coded.{coded_ℕ};
    ghost use Rattle.rz_export_model.specs.Paths.{path_cmp, coded_path};
    ghost use Rattle.rz_names.specs.Names.{with_root, IsNameMap};

    ghost Value = { maps.FinMap path_cmp ℕ };

    ghost coded = { maps.code coded_path coded_ℕ };

    ghost view = { λ m. maps.from_sorted (with_root m.entries) };

    ghost invariant = { λ m. IsNameMap m.entries };
}

impl NameMap {
    /// The map of the root alone.
    pub fn new(alloc: Global) -> NameMap
        ensures { result ≡ root_alone }
    {
        NameMap {
            alloc,
            entries: Sequence::new(),
        }
    }

    /// The number at the first `count` names of a path.
    pub fn find(&self, path: &Path, count: usize) -> Option<u128>
        requires { count ≤ length path.now }
        ensures { result ≡ maps.get self.now (take count path.now) }
    {
        let entries = &self.entries;
        if count == 0 {
            return Some(ROOT);
        }
        number_at(entries, &path.names()[..count])
    }

    /// The least name right under a path, above `after` where this is given.
    pub fn child(&self, path: &Path, after: Option<&Text>) -> Option<&Text>
        ensures { option_copied result ≡ next_name self.now path.now (option_copied after.entry) }
    {
        let at = place_after(&self.entries, path.names(), after);
        match self.entries.get(at) {
            None => None,
            Some(found) => {
                if !starts_with(path.names(), found.names()) {
                    return None;
                }
                found.names().get(path.names().len())
            }
        }
    }

    /// Adds a path with its number.
    pub fn add(&mut self, path: &Path, fid: u128) -> Result<(), AllocError>
        requires absent { maps.get self.old path.now ≡ None }
        requires parent { IsSome (maps.get self.old (above path.now)) }
        ensures ok { OnOk result (self.new ≡ maps.insert self.old path.now fid) }
        ensures err { OnErr result (self.new ≡ self.old) }
    {
        let at = place_of(&self.entries, path.names());
        let path = path.copy(self.alloc)?;
        self.entries
            .insert(self.alloc, at, PathEntry::new(path, fid))?;
        Ok(())
    }

    /// Removes a path that has no name below it.
    pub fn remove(&mut self, path: &Path)
        requires there { IsSome (maps.get self.old path.now) }
        requires not_root { is_root path.now ≡ false }
        requires last { names_under self.old path.now ≡ [] }
        ensures { self.new ≡ maps.remove self.old path.now }
    {
        let at = place_of(&self.entries, path.names());
        self.entries.remove(at);
    }

    /// Takes `to` away where it is there, and moves `path` and all paths below it to `to`.
    pub fn rename(&mut self, path: &Path, to: &Path) -> Result<(), AllocError>
        requires away { begins_with path.now to.now ≡ false }
        requires not_root { is_root to.now ≡ false }
        requires last { names_under self.old to.now ≡ [] }
        requires parent { IsSome (maps.get self.old (above to.now)) }
        ensures ok { OnOk result (self.new ≡ moved path.now to.now (maps.remove self.old to.now)) }
        ensures err { OnErr result (self.new ≡ self.old) }
    {
        // all memory is taken here, before anything changes
        let moved = moved_entries(self.alloc, &self.entries, path.names(), to.names())?;
        remove_block(&mut self.entries, path.names());
        remove_one(&mut self.entries, to.names());
        let at = place_of(&self.entries, to.names());
        put_block(&mut self.entries, at, moved);
        Ok(())
    }

    /// The least path above the given one, or above the root's, with its number.
    pub fn after(&self, path: Option<&Path>) -> Result<Option<(Path, u128)>, AllocError>
        ensures { IfOk result (λ found. found ≡ entry_after self.now (unwrap_or (option_copied path.entry) [])) }
    {
        let at = place_above(&self.entries, names_of(path));
        match self.entries.get(at) {
            None => Ok(None),
            Some(found) => Ok(Some((found.path().copy(self.alloc)?, found.fid()))),
        }
    }

    /// Whether a path stands behind all that are there.
    pub fn is_behind(&self, path: &Path) -> bool
        ensures { result ≡ is_behind self.now path.now }
    {
        let entries = &self.entries;
        let count = path.names().len();
        if count == 0 {
            return false;
        }
        let before = place_of(entries, path.names());
        let all = entries.len();
        before == all
    }

    /// How many paths there are below the root's.
    pub fn count(&self) -> usize
        ensures { result ≡ length (below_root self.now) }
    {
        self.entries.len()
    }

    /// The path at a place in the order of all paths below the root's, with its number.
    pub fn nth(&self, at: usize) -> Result<Option<(Path, u128)>, AllocError>
        ensures { IfOk result (λ found. found ≡ slice_get (below_root self.now) at) }
    {
        match self.entries.get(at) {
            None => Ok(None),
            Some(entry) => Ok(Some((entry.path().copy(self.alloc)?, entry.fid()))),
        }
    }
}

// The names of a path, or of the root where none is given.
fn names_of(path: Option<&Path>) -> &[Text]
    ensures { result.now ≡ unwrap_or (option_copied path.entry) [] }
{
    match path {
        None => &[],
        Some(path) => path.names(),
    }
}
