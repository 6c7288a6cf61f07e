//! The rules of paths.

ghost use Rattle.std.specs.Prelude.{◌≡◌, [], bytes_eq, map, string_bytes};
ghost use Rattle.std.specs.List.{list_any};
ghost use Rattle.rz_store_file.specs.Described.{is_absolute, new_path, new_paths};

use crate::{DiskPlace, StoreFault};

fn is_absolute(path: &str) -> bool
    ensures { result ≡ is_absolute path.now }
{
    path.as_bytes().first() == Some(&b'/')
}

/// Whether a path is one of these.
fn has_path(paths: &[String], path: &str) -> bool
    ensures { result ≡ list_any (λ p. bytes_eq (string_bytes p) path.now) paths.now }
{
    paths.iter().any(|p| p.as_str() == path)
}

/// A path begins at the root, and is none of those before it.
#[tactic(auto, using(crate::proofs::Paths::has_path_map), unfolding(crate::specs::Described::new_path))]
pub fn check_path(place: DiskPlace, before: &[String], path: &str) -> Result<(), StoreFault>
    ensures { result ≡ new_path place (map string_bytes before.now) path.now }
{
    if !is_absolute(path) {
        return Err(StoreFault::NotAbsolute(place));
    }
    if has_path(before, path) {
        return Err(StoreFault::Twice(place));
    }
    Ok(())
}

/// So does each of the nodes' paths.
#[tactic(auto, unfolding(crate::specs::Described::new_paths))]
pub fn check_paths(paths: &[String]) -> Result<(), StoreFault>
    ensures { result ≡ new_paths 0 [] (map string_bytes paths.now) }
{
    for i in 0..paths.len() {
        check_path(DiskPlace::Node(i), &paths[..i], paths[i].as_str())?;
    }
    Ok(())
}
