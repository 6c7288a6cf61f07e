//! Paths, and how they are read from their text.

ghost use Rattle.std.specs.Prelude.{◌≡◌, ◌++◌, drop, IfOk, OnOk};
ghost use Rattle.std.specs.List.{list_all};
ghost use Rattle.rz_export_model.specs.Paths.{path_of, long_path_of, is_name, is_dots, parts_of, all_names, begins_with};
ghost use Rattle.rz_names.specs.Reads.{Reads};

use crate::order;
use rz_events::Text;
use std::alloc::{AllocError, Global};
use std::marker::Model;

/// The most names of a path in a call.
const MOST_NAMES: usize = 64;

/// The most bytes of a name.
const MOST_BYTES: usize = 255;

/// The way from the root to an object, name by name. The root's path has no names.
#[derive(Debug, Drop)]
pub struct Path {
    names: Vec<Text>,
}

impl Model for Path {
    ghost use Rattle.std.specs.Prelude.{List, ℕ};

    ghost Value = { List (List ℕ) };

    ghost view = { λ p. p.names.items };
}

/// Why a text was not read.
#[derive(Clone, Copy, Debug, PartialEq, Eq, Drop)]
pub enum PathError {
    NoMemory,
    /// The text spells no path.
    BadName,
}

impl From<AllocError> for PathError {
    ghost use Rattle.std.specs.Prelude.{◌≡◌};
    ghost use Rattle.rz_names.specs.declared.path.PathError.TheVariants.{NoMemory};

    ghost from_gives = { λ _ e. e ≡ NoMemory };

    fn from(_: AllocError) -> PathError {
        PathError::NoMemory
    }
}

impl Path {
    /// Reads the path of a call: `/` alone, or a slash before each of at most 64 names.
    pub fn read(alloc: Global, text: &[u8]) -> Result<Path, PathError>
        ensures { Reads (path_of text.now) result }
    {
        let path = Path::long(alloc, text)?;
        if path.names.len() > MOST_NAMES {
            return Err(PathError::BadName);
        }
        Ok(path)
    }

    /// Reads a path of any number of names.
    pub fn long(alloc: Global, text: &[u8]) -> Result<Path, PathError>
        ensures { Reads (long_path_of text.now) result }
    {
        match text {
            [b'/'] => Ok(Path {
                names: Vec::new(alloc),
            }),
            [b'/', rest @ ..] => names_between(alloc, rest),
            _ => Err(PathError::BadName),
        }
    }

    /// The names, from the root on.
    pub fn names(&self) -> &[Text]
        ensures { result.now ≡ self.now }
    {
        self.names.as_slice()
    }

    /// Whether each name is one that a text can spell.
    pub fn is_spelled(&self) -> bool
        ensures { result ≡ list_all is_name self.now }
    {
        are_good_names(self.names())
    }

    /// Whether it begins with all names of another.
    pub fn starts_with(&self, front: &Path) -> bool
        ensures { result ≡ begins_with front.now self.now }
    {
        order::starts_with(front.names(), self.names())
    }

    /// A path of the same names.
    pub fn copy(&self, alloc: Global) -> Result<Path, AllocError>
        ensures { IfOk result (λ p. p ≡ self.now) }
    {
        Path::joined(alloc, &[], self.names(), 0)
    }

    // The names of `front`, and then those of `rest` past the first `skipped`.
    pub(crate) fn joined(
        alloc: Global,
        front: &[Text],
        rest: &[Text],
        skipped: usize,
    ) -> Result<Path, AllocError>
        ensures { IfOk result (λ p. p ≡ front.now ++ drop skipped rest.now) }
    {
        let mut names = Vec::new(alloc);
        push_copies(alloc, &mut names, front)?;
        push_copies(alloc, &mut names, rest.get(skipped..).unwrap_or(&[]))?;
        Ok(Path { names })
    }
}

// Adds copies of names at the end.
fn push_copies(alloc: Global, names: &mut Vec<Text>, more: &[Text]) -> Result<(), AllocError>
    ensures { OnOk result (names.new.items ≡ names.old.items ++ more.now) }
{
    for name in more {
        names.push(name.copy(alloc)?).map_err(AllocError::from)?;
    }
    Ok(())
}

// The names between slashes.
fn names_between(alloc: Global, text: &[u8]) -> Result<Path, PathError>
    ensures { Reads (all_names (parts_of text.now)) result }
{
    let mut names = Vec::new(alloc);
    for part in text.split(|b| *b == b'/') {
        if !is_good_name(part) {
            return Err(PathError::BadName);
        }
        names
            .push(Text::from_bytes(alloc, part)?)
            .map_err(AllocError::from)?;
    }
    Ok(Path { names })
}

// Whether all these are names.
fn are_good_names(names: &[Text]) -> bool
    ensures { result ≡ list_all is_name names.now }
{
    match names {
        [] => true,
        [name, rest @ ..] => is_good_name(name.bytes()) && are_good_names(rest),
    }
}

// Whether a part between slashes is a name.
fn is_good_name(part: &[u8]) -> bool
    ensures { result ≡ is_name part.now }
{
    if part.is_empty() {
        return false;
    }
    if part.len() > MOST_BYTES {
        return false;
    }
    if part.contains(&0) {
        return false;
    }
    !is_one_of_the_dots(part)
}

// Whether a name is `.` or `..`.
fn is_one_of_the_dots(name: &[u8]) -> bool
    ensures { result ≡ is_dots name.now }
{
    if name.cmp(b".".as_slice()).is_eq() {
        return true;
    }
    name.cmp(b"..".as_slice()).is_eq()
}
