//! A key is prepared, with ample memory.

use rz_blocks::Blocks;
use rz_events::Key;
use std::test::Fail;

#[test]
fn a_key_is_prepared(rt: HostRuntime) -> Result<(), Fail> {
    let mut blocks = Blocks::new(rt.alloc());
    let prepared = blocks.prepare(Key { fid: 2, block: 7 });
    drop(blocks);
    assert!(rt; prepared.is_ok());
    Ok(())
}
