//! Blocks that come back from their projections, and bins that no block has.

ghost use Rattle.std.specs.Prelude.{◌≡◌, ◌≤◌, ◌<◌, ◌*◌, length, vec_len, IfOk};
ghost use Rattle.mj_angles.specs.Layout.{bins_at_of};
ghost use Rattle.mj_angles.specs.declared.layout.Layout.TheVariants.{L2};
ghost use Rattle.mj_inverse.specs.Fits.{empty_search};

use mj_angles::Layout;
use mj_forward::project;
use mj_inverse::{Inconsistent, Work, WorkEight};
use rz_words::Block;
use std::alloc::{AllocError, Global};
use std::process::Abort;
use std::test::Fail;

/// Solves, and compares whether a block was found.
fn solves(rt: &impl Abort, work: &mut Work, out: &mut Block, want: Result<(), Inconsistent>)
    requires full { length work.old.pairs ≡ work.old.rows }
    requires rows { out.old.rows ≡ work.old.rows }
    requires cols { out.old.cols ≡ work.old.cols }
    ensures rows { out.new.rows ≡ out.old.rows }
    ensures cols { out.new.cols ≡ out.old.cols }
    ensures clear { work.new ≡ empty_search work.old.rows work.old.cols }
{
    assert_eq!(rt; work.solve(out), want);
}

pub fn has_words(rt: &impl Abort, block: &Block, words: &[u64]) {
    assert_eq!(rt; block.words(), words);
}

#[test]
fn one_column(rt: HostRuntime) -> Result<(), Fail> {
    let mut work = Work::new(rt.alloc(), 2, 1).expect(&rt, "memory");
    let mut block = Block::zero(rt.alloc(), 2, 1).expect(&rt, "memory");
    work.add(0, &[5]);
    work.add(1, &[1, 2]);
    solves(&rt, &mut work, &mut block, Err(Inconsistent));
    work.add(0, &[3]);
    work.add(1, &[1, 2]);
    solves(&rt, &mut work, &mut block, Ok(()));
    has_words(&rt, &block, &[1, 2]);
    drop(block);
    drop(work);
    Ok(())
}

/// The block of layout 2 in which word `j` is `j + 1`.
fn counted(alloc: Global) -> Result<Block, AllocError>
    ensures rows { IfOk result (λ b. b.rows ≡ 8) }
    ensures cols { IfOk result (λ b. b.cols ≡ 64) }
{
    let mut words = vec![in alloc; 0u64; 512]?;
    let mut next = 1u64;
    for word in words.iter_mut() {
        *word = next;
        next = next.wrapping_add(1);
    }
    Ok(Block::from_words(8, 64, words))
}

/// The bins of a block of layout 2 at a position.
fn bins_at(alloc: Global, block: &Block, position: u8) -> Result<Vec<u64>, AllocError>
    requires rows { block.now.rows ≡ 8 }
    requires cols { block.now.cols ≡ 64 }
    requires position { position < 16 }
    ensures { IfOk result (λ v. vec_len v ≡ bins_at_of L2 position) }
{
    let p = Layout::L2.angle(position);
    let mut all = vec![in alloc; 0u64; Layout::L2.bins_at(position)]?;
    project(block, p, &mut all);
    Ok(all)
}

/// Adds the projections at eight positions of layout 2, of which this is the first. Its first bin is
/// altered by `flip`.
fn add_from(rt: &(impl Abort + AllocGlobal), work: &mut Work, block: &Block, first: u8, flip: u64)
    requires empty { work.old ≡ empty_search 8 64 }
    requires rows { block.now.rows ≡ 8 }
    requires cols { block.now.cols ≡ 64 }
    requires first { first ≤ 8 }
    ensures rows { work.new.rows ≡ 8 }
    ensures cols { work.new.cols ≡ 64 }
    ensures pairs { length work.new.pairs ≡ 8 }
{
    for i in 0..8u8 {
        let mut all = bins_at(rt.alloc(), block, first + i).expect(rt, "memory");
        if i == 0 {
            all[0] ^= flip;
        }
        work.add(Layout::L2.angle(first + i), &all);
        drop(all);
    }
}

/// Checks that the projections at these eight positions give the block back, and that one bit refuses them.
fn comes_back(rt: &(impl Abort + AllocGlobal), block: &Block, first: u8)
    requires rows { block.now.rows ≡ 8 }
    requires cols { block.now.cols ≡ 64 }
    requires first { first ≤ 8 }
{
    let mut work = Work::new(rt.alloc(), 8, 64).expect(rt, "memory");
    let mut out = Block::zero(rt.alloc(), 8, 64).expect(rt, "memory");
    add_from(rt, &mut work, block, first, 0);
    solves(rt, &mut work, &mut out, Ok(()));
    has_words(rt, &out, block.words());
    add_from(rt, &mut work, block, first, 1);
    solves(rt, &mut work, &mut out, Err(Inconsistent));
    drop(out);
    drop(work);
}

/// The widest angles of layout 2, on the left and on the right.
#[test]
fn extremes(rt: HostRuntime) -> Result<(), Fail> {
    let block = counted(rt.alloc()).expect(&rt, "memory");
    comes_back(&rt, &block, 0);
    comes_back(&rt, &block, 8);
    drop(block);
    Ok(())
}

/// One bit of one bin of block 3 of eight is altered.
#[test]
fn one_of_eight(rt: HostRuntime) -> Result<(), Fail> {
    let mut work = WorkEight::new(rt.alloc(), 2, 256).expect(&rt, "memory");
    let mut bins = vec![in rt.alloc(); 0u64; 2064].expect(&rt, "memory");
    let mut out = vec![in rt.alloc(); 9u64; 4096].expect(&rt, "memory");
    bins[3] = 1;
    work.add(-2, &bins);
    work.add(-1, &bins[8..]);
    let failed = work.solve(&mut out);
    let last = out[4095];
    drop(out);
    drop(bins);
    drop(work);
    assert_eq!(rt; (failed, last), (8, 0));
    Ok(())
}

/// Each word eight times: the words of eight equal blocks, side by side.
fn eightfold(alloc: Global, words: &[u64]) -> Result<Vec<u64>, AllocError>
    requires { length words.now ≤ 4096 }
    ensures { IfOk result (λ v. vec_len v ≡ 8 * length words.now) }
{
    let mut all = vec![in alloc; 0u64; 8 * words.len()]?;
    for i in 0..all.len() {
        all[i] = words[i / 8];
    }
    Ok(all)
}

/// Adds the projections of eight copies of a block at eight positions of layout 2, of which this is the first.
fn add_copies(rt: &(impl Abort + AllocGlobal), work: &mut WorkEight, block: &Block, first: u8)
    requires empty { work.old ≡ empty_search 8 64 }
    requires rows { block.now.rows ≡ 8 }
    requires cols { block.now.cols ≡ 64 }
    requires first { first ≤ 8 }
    ensures rows { work.new.rows ≡ 8 }
    ensures cols { work.new.cols ≡ 64 }
    ensures pairs { length work.new.pairs ≡ 8 }
{
    for i in 0..8u8 {
        let bins = bins_at(rt.alloc(), block, first + i).expect(rt, "memory");
        let all = eightfold(rt.alloc(), &bins).expect(rt, "memory");
        drop(bins);
        work.add(Layout::L2.angle(first + i), &all);
        drop(all);
    }
}

/// Eight copies of a block come back from their projections side by side.
#[test]
fn eight_copies(rt: HostRuntime) -> Result<(), Fail> {
    let block = counted(rt.alloc()).expect(&rt, "memory");
    let wanted = eightfold(rt.alloc(), block.words()).expect(&rt, "memory");
    let mut work = WorkEight::new(rt.alloc(), 8, 64).expect(&rt, "memory");
    let mut out = vec![in rt.alloc(); 0u64; 4096].expect(&rt, "memory");
    add_copies(&rt, &mut work, &block, 0);
    let failed = work.solve(&mut out);
    drop(work);
    drop(block);
    let are_back = out == wanted;
    drop(out);
    drop(wanted);
    assert!(rt; failed == 0 && are_back);
    Ok(())
}
