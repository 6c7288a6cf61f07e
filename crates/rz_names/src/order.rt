//! Paths compared name by name.

ghost use Rattle.std.specs.Prelude.{◌≡◌};
ghost use Rattle.rz_export_model.specs.Paths.{path_cmp, begins_with};

use rz_events::Text;
use std::cmp::Ordering;

/// The order of two paths: name by name in byte order, a prefix first.
pub fn compare(a: &[Text], b: &[Text]) -> Ordering
    ensures { result ≡ path_cmp a.now b.now }
{
    match a {
        [] => {
            if b.is_empty() {
                Ordering::Equal
            } else {
                Ordering::Less
            }
        }
        [x, xs @ ..] => match b {
            [] => Ordering::Greater,
            [y, ys @ ..] => match x.bytes().cmp(y.bytes()) {
                Ordering::Equal => compare(xs, ys),
                differs => differs,
            },
        },
    }
}

/// Whether a path begins with all names of another.
pub fn starts_with(front: &[Text], path: &[Text]) -> bool
    ensures { result ≡ begins_with front.now path.now }
{
    match front {
        [] => true,
        [x, xs @ ..] => match path {
            [] => false,
            [y, ys @ ..] => x.bytes().cmp(y.bytes()).is_eq() && starts_with(xs, ys),
        },
    }
}
