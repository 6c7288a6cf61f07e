//! Verdicts on blocks some of whose records were altered.

ghost use Rattle.std.specs.Prelude.{◌≡◌, ◌≤◌, ◌<◌, IfOk, length};
ghost use Rattle.mj_angles.specs.Layout.{inverse_of, cols_of, safe_of};

use crate::inversions::has_words;
use mj_angles::Layout;
use mj_forward::project;
use rz_scrub::{Scrub, Verdict};
use rz_words::Block;
use std::alloc::{AllocError, Global};
use std::process::Abort;
use std::test::Fail;

/// Adds the projection of a block at a position that has no record yet, with `flip` in its first bin.
fn add_altered(
    rt: &(impl Abort + AllocGlobal),
    scrub: &mut Scrub,
    block: &Block,
    layout: Layout,
    position: u8,
    flip: u64,
)
    requires layout { scrub.old.layout ≡ layout }
    requires rows { block.now.rows ≡ inverse_of layout }
    requires cols { block.now.cols ≡ cols_of layout }
    requires position { position < safe_of layout }
    ensures { scrub.new.layout ≡ layout }
{
    let mut bins = vec![in rt.alloc(); 0u64; layout.bins_at(position)].expect(rt, "memory");
    project(block, layout.angle(position), &mut bins);
    bins[0] ^= flip;
    if !scrub.has(position) {
        scrub.add(position, &bins);
    }
    drop(bins);
}

/// The verdict on the records of a block at the first `count` positions, where those at the positions
/// `altered` have another first bin. There is none of too few records.
fn verdict_on(
    rt: &(impl Abort + AllocGlobal),
    scrub: &mut Scrub,
    block: &Block,
    layout: Layout,
    count: u8,
    altered: &[u8],
) -> Option<Verdict>
    requires layout { scrub.old.layout ≡ layout }
    requires rows { block.now.rows ≡ inverse_of layout }
    requires cols { block.now.cols ≡ cols_of layout }
    requires count { count ≤ safe_of layout }
    ensures { scrub.new.layout ≡ layout }
{
    scrub.clear();
    for position in 0..count {
        let flip = u64::from(altered.contains(&position));
        add_altered(rt, scrub, block, layout, position, flip);
    }
    if scrub.added() < layout.inverse() {
        return None;
    }
    let mut out = Block::zero(rt.alloc(), layout.inverse(), layout.cols()).expect(rt, "memory");
    let verdict = scrub.judge(&mut out);
    if verdict != Verdict::Unsure {
        has_words(rt, &out, block.words());
    }
    drop(out);
    Some(verdict)
}

/// Compares that verdict.
fn judges(
    rt: &(impl Abort + AllocGlobal),
    scrub: &mut Scrub,
    block: &Block,
    layout: Layout,
    count: u8,
    altered: &[u8],
    want: Verdict,
)
    requires layout { scrub.old.layout ≡ layout }
    requires rows { block.now.rows ≡ inverse_of layout }
    requires cols { block.now.cols ≡ cols_of layout }
    requires count { count ≤ safe_of layout }
    ensures { scrub.new.layout ≡ layout }
{
    let found = verdict_on(rt, scrub, block, layout, count, altered);
    assert_eq!(rt; (altered.len(), found), (altered.len(), Some(want)));
}

/// Six records of a block of zeros, of which one is altered, and then two.
#[test]
fn one_and_two_of_six(rt: HostRuntime) -> Result<(), Fail> {
    let layout = Layout::L1;
    let zeros = Block::zero(rt.alloc(), layout.inverse(), layout.cols()).expect(&rt, "memory");
    let mut scrub = Scrub::start(rt.alloc(), layout).expect(&rt, "memory");
    let one = Verdict::Altered { mask: 4 };
    judges(&rt, &mut scrub, &zeros, layout, 6, &[2], one);
    judges(&rt, &mut scrub, &zeros, layout, 6, &[2, 3], Verdict::Unsure);
    drop(scrub);
    drop(zeros);
    Ok(())
}

/// The block of a layout in which word `j` is `j + 1`.
fn counted(alloc: Global, layout: Layout) -> Result<Block, AllocError>
    ensures rows { IfOk result (λ b. b.rows ≡ inverse_of layout) }
    ensures cols { IfOk result (λ b. b.cols ≡ cols_of layout) }
{
    let mut words = vec![in alloc; 0u64; layout.inverse() * layout.cols()]?;
    let mut next = 1u64;
    for word in words.iter_mut() {
        *word = next;
        next = next.wrapping_add(1);
    }
    Ok(Block::from_words(layout.inverse(), layout.cols(), words))
}

/// Alters so many records of a block, at every second position, where all positions have one.
///
/// The bins of each altered record have another sum, the same for all of them. So a block fits none but
/// those, or none of them, and past the reach there is none that fits enough.
fn alters(rt: &(impl Abort + AllocGlobal), layout: Layout, wants: &[Verdict])
    requires { length wants.now ≤ 6 }
{
    let altered = [0u8, 2, 4, 6, 8];
    let all = layout.safe() as u8;
    let block = counted(rt.alloc(), layout).expect(rt, "memory");
    let mut scrub = Scrub::start(rt.alloc(), layout).expect(rt, "memory");
    for (number, want) in wants.iter().enumerate() {
        let altered = &altered[..number];
        judges(rt, &mut scrub, &block, layout, all, altered, *want);
    }
    drop(scrub);
    drop(block);
}

/// For each layout one altered record after the other, up to the reach and one past it.
#[test]
fn up_to_the_reach(rt: HostRuntime) -> Result<(), Fail> {
    let one = Verdict::Altered { mask: 0b1 };
    let two = Verdict::Altered { mask: 0b101 };
    let three = Verdict::Altered { mask: 0b10101 };
    let four = Verdict::Altered { mask: 0b1010101 };
    alters(&rt, Layout::L0, &[Verdict::Clean, one, Verdict::Unsure]);
    alters(
        &rt,
        Layout::L1,
        &[Verdict::Clean, one, two, Verdict::Unsure],
    );
    let wants = [Verdict::Clean, one, two, three, four, Verdict::Unsure];
    alters(&rt, Layout::L2, &wants);
    Ok(())
}
