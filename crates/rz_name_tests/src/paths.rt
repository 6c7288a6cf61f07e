//! Paths are read and copied, and names added and renamed, with ample memory.

ghost use Rattle.std.specs.Prelude.{◌≡◌, ◌∷◌, [], Some};
ghost use Rattle.rz_export_model.specs.Paths.{path_of};
ghost use Rattle.rz_names.specs.Names.{root_alone};

use rz_names::{NameMap, Path};
use std::alloc::AllocError;
use std::process::Abort;
use std::test::Fail;

#[test]
fn a_long_path_is_copied(rt: HostRuntime) -> Result<(), Fail> {
    let path = Path::long(rt.alloc(), b"/a/b").expect(&rt, "a path");
    let copy = path.copy(rt.alloc()).expect(&rt, "memory");
    drop(path);
    let count = copy.names().len();
    drop(copy);
    assert!(rt; count == 2);
    Ok(())
}

// The path of one name of one byte.
fn short_path(rt: &(impl Abort + AllocGlobal), name: u8) -> Path
    requires { path_of (47 ∷ name ∷ []) ≡ Some ((name ∷ []) ∷ []) }
    ensures { result ≡ (name ∷ []) ∷ [] }
{
    Path::read(rt.alloc(), &[b'/', name]).expect(rt, "a path")
}

// Adds the name `a` and makes it `b`.
fn add_and_rename(map: &mut NameMap, old: &Path, new: &Path) -> Result<(), AllocError>
    requires map { map.old ≡ root_alone }
    requires old { old.now ≡ (97 ∷ []) ∷ [] }
    requires new { new.now ≡ (98 ∷ []) ∷ [] }
{
    map.add(old, 1)?;
    map.rename(old, new)
}

#[test]
fn a_name_is_added_and_renamed(rt: HostRuntime) -> Result<(), Fail> {
    let mut map = NameMap::new(rt.alloc());
    let old = short_path(&rt, b'a');
    let new = short_path(&rt, b'b');
    let renamed = add_and_rename(&mut map, &old, &new);
    let first = map.after(None).expect(&rt, "memory");
    let is_there = first.is_some();
    drop(first);
    drop(new);
    drop(old);
    drop(map);
    assert!(rt; renamed.is_ok() && is_there);
    Ok(())
}
