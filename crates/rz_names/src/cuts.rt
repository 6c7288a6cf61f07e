//! Cuts of paths in order: which of them stand before a place.

ghost use Rattle.std.specs.Prelude.{◌≡◌};
ghost use Rattle.std.specs.Option.{option_copied};
ghost use Rattle.rz_names.specs.Cuts.{passes};
ghost use Rattle.rz_names.specs.Names.{is_up_to};

use crate::order::{compare, starts_with};
use rz_events::Text;
use std::cmp::Ordering;

/// A place among paths in order, told by those that stand before it.
#[derive(Clone, Copy)]
pub enum PathCut<'a> {
    /// Behind those that stand before a path.
    Before(&'a [Text]),
    /// Behind those that are at most a path, or below it by a name that is not after the given one.
    Reached(&'a [Text], Option<&'a Text>),
    /// Behind those that are at most a path, or begin with it.
    Within(&'a [Text]),
    /// Behind those that are not after a path.
    UpTo(&'a [Text]),
}

impl PathCut<'_> {
    /// Whether a path stands before the place.
    pub fn is_passed(&self, path: &[Text]) -> bool
        ensures { result ≡ passes self.now path.now }
    {
        match self {
            PathCut::Before(names) => compare(names, path).is_gt(),
            PathCut::Reached(names, after) => reaches(names, *after, path),
            PathCut::Within(names) => !compare(names, path).is_lt() || starts_with(names, path),
            PathCut::UpTo(names) => !compare(names, path).is_lt(),
        }
    }
}

// Whether a path is at most `names`, or below it by a name that is not after `after`.
fn reaches(names: &[Text], after: Option<&Text>, path: &[Text]) -> bool
    ensures { result ≡ is_up_to names.now (option_copied after.entry) path.now }
{
    match names {
        [] => match path {
            [] => true,
            [name, ..] => match after {
                None => false,
                Some(after) => !after.bytes().cmp(name.bytes()).is_lt(),
            },
        },
        [name, names @ ..] => match path {
            [] => true,
            [next, path @ ..] => match next.bytes().cmp(name.bytes()) {
                Ordering::Less => true,
                Ordering::Equal => reaches(names, after, path),
                Ordering::Greater => false,
            },
        },
    }
}
