//! What each test compares by.
use std::fmt::Debug;
use std::process::Abort;

/// Stops where what was found at a place is not what is wanted there.
pub fn compare<T: PartialEq + Debug, P: Debug + Drop>(
    rt: &impl Abort,
    found: &T,
    wanted: &T,
    place: P,
) {
    assert!(rt;
        found == wanted,
        "at {place:?}: {found:?} in place of {wanted:?}"
    );
}
