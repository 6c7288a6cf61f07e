//! Projections that were worked out apart from the code.

ghost use Rattle.std.specs.Prelude.{◌≡◌, ◌≤◌, unsigned_abs, vec_len, IfOk};
ghost use Rattle.rz_words.specs.Grid.{IsShape};
ghost use Rattle.mj_angles.specs.Projection.{bins as bin_count};

use mj_angles::{bins, row_start};
use mj_forward::project;
use rz_words::Block;
use std::alloc::{AllocError, Global};
use std::process::Abort;
use std::test::Fail;

/// Compares the projection of a block.
fn compare(rt: &(impl Abort + AllocGlobal), block: &Block, p: i32, want: &[u64])
    requires { unsigned_abs p ≤ 16 }
{
    let count = bins(p, block.rows(), block.cols());
    let mut out = vec![in rt.alloc(); 9u64; count].expect(rt, "memory");
    project(block, p, &mut out);
    assert_eq!(rt; (p, out.as_slice()), (p, want));
    drop(out);
}

/// Three columns with the rows 1, 2, 4 and 8, 16, 32.
fn three_columns(alloc: Global) -> Result<Block, AllocError> {
    let words = vec![in alloc; 1u64, 2, 4, 8, 16, 32]?;
    Ok(Block::from_words(2, 3, words))
}

#[test]
fn signs_and_offsets(rt: HostRuntime) -> Result<(), Fail> {
    let block = three_columns(rt.alloc()).expect(&rt, "memory");
    compare(&rt, &block, 1, &[1, 10, 20, 32]);
    compare(&rt, &block, -1, &[8, 17, 34, 4]);
    compare(&rt, &block, 0, &[9, 18, 36]);
    compare(&rt, &block, -2, &[8, 16, 33, 2, 4]);
    drop(block);
    Ok(())
}

/// The bins of the block at the angle `p`, added up word by word.
fn sums(alloc: Global, block: &Block, p: i32) -> Result<Vec<u64>, AllocError>
    requires { unsigned_abs p ≤ 16 }
    ensures { IfOk result (λ v. vec_len v ≡ bin_count p block.now.rows block.now.cols) }
{
    let rows = block.rows();
    let cols = block.cols();
    let mut sums = vec![in alloc; 0u64; bins(p, rows, cols)]?;
    for l in 0..rows {
        let start = row_start(p, rows, l);
        for k in 0..cols {
            sums[start + k] ^= block.get(k, l);
        }
    }
    Ok(sums)
}

/// A block whose words look like noise.
fn noise(alloc: Global, rows: usize, cols: usize) -> Result<Block, AllocError>
    requires { IsShape rows cols }
{
    let mut words = vec![in alloc; 0u64; rows * cols]?;
    let mut state = 1u64;
    for word in words.iter_mut() {
        state = state
            .wrapping_mul(6_364_136_223_846_793_005)
            .wrapping_add(1_442_695_040_888_963_407);
        *word = state;
    }
    Ok(Block::from_words(rows, cols, words))
}

/// Blocks that are too narrow for vectors, and blocks that are not.
#[test]
fn sums_over_all_words(rt: HostRuntime) -> Result<(), Fail> {
    for (rows, cols) in [(1, 1), (3, 2), (16, 3), (2, 20), (4, 37), (8, 64), (8, 72)] {
        let block = noise(rt.alloc(), rows, cols).expect(&rt, "memory");
        for p in [0, 1, -1, 2, -3, 7, -8, 16, -16] {
            let want = sums(rt.alloc(), &block, p).expect(&rt, "memory");
            compare(&rt, &block, p, &want);
            drop(want);
        }
        drop(block);
    }
    Ok(())
}
