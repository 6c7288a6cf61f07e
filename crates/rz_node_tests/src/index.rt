//! An index gets its room, with ample memory.

use rz_index::Index;
use std::test::Fail;

#[test]
fn an_index_gets_its_room(rt: HostRuntime) -> Result<(), Fail> {
    let index = Index::with_room(rt.alloc(), 3).expect(&rt, "memory");
    let free = index.free_cell();
    drop(index);
    assert!(rt; free == Some(0));
    Ok(())
}
