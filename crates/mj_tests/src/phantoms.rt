//! Blocks that are not zero and whose bins at some angles are.

use mj_forward::project;
use mj_katz::{phantom, two_blocks_equal};
use std::test::Fail;

#[test]
fn two_angles(rt: HostRuntime) -> Result<(), Fail> {
    let block = phantom(rt.alloc(), &[0, 1], 3, 2).expect(&rt, "memory");
    let mut straight = [9u64; 2];
    project(&block, 0, &mut straight);
    let mut slanted = [9u64; 4];
    project(&block, 1, &mut slanted);
    two_blocks_equal(&block, &block, &[0, 1, 2]);
    let has_words = block.words() == [0u64, 1, 1, 1, 1, 0].as_slice();
    drop(block);
    assert!(rt; has_words && straight == [0; 2] && slanted == [0; 4]);
    Ok(())
}

#[test]
fn negative_angle(rt: HostRuntime) -> Result<(), Fail> {
    let block = phantom(rt.alloc(), &[-2], 2, 3).expect(&rt, "memory");
    let has_words = block.words() == [1u64, 0, 0, 0, 0, 1].as_slice();
    drop(block);
    assert!(rt; has_words);
    Ok(())
}
