//! A block whose records stand on the disks of nodes, some of which read a bit of their record wrong.
ghost use Rattle.std.specs.Prelude.{◌≡◌, ◌<◌, IfOk, length, vec_len};
ghost use Rattle.rz_cells_slots.specs.Shape.{IsGeometry};
ghost use Rattle.mj_angles.specs.Layout.{inverse_of, cols_of, safe_of, bins_at_of, max_bins_of};

use crate::nodes::KEY;
use mj_angles::Layout;
use mj_forward::project;
use rz_disk::{PlainDisk, RotDisk};
use rz_node::{FetchAnswer, Geometry, Head, KeepAnswer, Node};
use rz_scrub::{Scrub, Verdict};
use rz_words::Block;
use std::alloc::{AllocError, Global};
use std::process::Abort;
use std::test::Fail;

/// A node on a disk that flips bits of a byte.
fn rotten(
    rt: &(impl Abort + AllocGlobal),
    geometry: Geometry,
    at: u64,
    flips: u8,
) -> Node<RotDisk<PlainDisk>>
    requires { IsGeometry geometry }
    ensures { result.geometry ≡ geometry }
{
    match Node::format(
        rt.alloc(),
        geometry,
        RotDisk::new(PlainDisk::new(rt.alloc()), at, flips),
    ) {
        Ok(node) => node,
        Err(_) => rt.panic("not formatted"),
    }
}

/// What a node gives back of a record's bins, where its disk flips bits of a byte of the first bin. The
/// first record of a disk of one pair stands in slot 1, so behind 66 bytes and a slot of 48 bytes and the
/// most bins.
#[tactic(auto, unfolding(rz_record::specs::Record::bins_of))]
fn fetched(
    rt: &(impl Abort + AllocGlobal),
    layout: Layout,
    position: u8,
    bins: &[u64],
    flips: u8,
) -> Vec<u64>
    requires position { position < safe_of layout }
    requires bins { length bins.now ≡ bins_at_of layout position }
    ensures { vec_len result ≡ max_bins_of layout }
{
    let geometry = Geometry {
        layout,
        bsize: layout.bsize(),
        node: 1,
        cells: 1,
    };
    let head = Head {
        stamp: 1,
        key: KEY,
        layout,
        bsize: layout.bsize(),
        position,
        length: 5,
        base: 0,
    };
    let at = 66 + (48 + 8 * layout.max_bins() as u64) + 48;
    let mut out = vec![in rt.alloc(); 0u64; layout.max_bins()].expect(rt, "memory");
    let mut node = rotten(rt, geometry, at, flips);
    let kept = node.keep(&head, bins);
    let answer = node.fetch_into(KEY, 1, &mut out);
    drop(node);
    assert!(rt; kept == KeepAnswer::Kept && matches!(answer, FetchAnswer::Held(_)));
    out
}

/// Adds what a node gives back of the projection of a block at a position.
fn add_fetched(
    rt: &(impl Abort + AllocGlobal),
    scrub: &mut Scrub,
    block: &Block,
    layout: Layout,
    position: u8,
    flips: u8,
)
    requires layout { scrub.old.layout ≡ layout }
    requires rows { block.now.rows ≡ inverse_of layout }
    requires cols { block.now.cols ≡ cols_of layout }
    requires position { position < safe_of layout }
    ensures { scrub.new.layout ≡ layout }
{
    let count = layout.bins_at(position);
    let mut bins = vec![in rt.alloc(); 0u64; count].expect(rt, "memory");
    project(block, layout.angle(position), &mut bins);
    let fetched = fetched(rt, layout, position, &bins, flips);
    drop(bins);
    if !scrub.has(position) {
        scrub.add(position, &fetched[..count]);
    }
    drop(fetched);
}

/// The block of a layout in which word `j` is `j + 1`.
fn counted(alloc: Global, layout: Layout) -> Result<Block, AllocError>
    ensures rows { IfOk result (λ b. b.rows ≡ inverse_of layout) }
    ensures cols { IfOk result (λ b. b.cols ≡ cols_of layout) }
{
    let mut words = vec![in alloc; 0u64; layout.inverse() * layout.cols()]?;
    let mut next = 1u64;
    for word in words.iter_mut() {
        *word = next;
        next = next.wrapping_add(1);
    }
    Ok(Block::from_words(layout.inverse(), layout.cols(), words))
}

/// The verdict on that block where the nodes at these positions read a bit of the first bin wrong.
///
/// Their bins have another sum, the same for all of them. So a block fits none but those, or none of them,
/// and past the reach there is none that fits enough.
fn verdict_on(rt: &(impl Abort + AllocGlobal), layout: Layout, altered: &[u8]) -> Verdict {
    let block = counted(rt.alloc(), layout).expect(rt, "memory");
    let mut scrub = Scrub::start(rt.alloc(), layout).expect(rt, "memory");
    for position in 0..layout.safe() as u8 {
        let flips = if altered.contains(&position) { 0x80 } else { 0 };
        add_fetched(rt, &mut scrub, &block, layout, position, flips);
    }
    assert!(rt; scrub.added() >= layout.inverse());
    let mut out = Block::zero(rt.alloc(), layout.inverse(), layout.cols()).expect(rt, "memory");
    let verdict = scrub.judge(&mut out);
    drop(scrub);
    let is_found = out.words() == block.words();
    drop(out);
    drop(block);
    assert!(rt; is_found || verdict == Verdict::Unsure);
    verdict
}

/// A layout, the positions that read wrong, and what is found.
type Row = (Layout, &'static [u8], Verdict);

/// The reach is 1, 2 and 4.
const WITHIN: [Row; 6] = [
    (Layout::L0, &[], Verdict::Clean),
    (Layout::L0, &[3], Verdict::Altered { mask: 0x8 }),
    (Layout::L1, &[5], Verdict::Altered { mask: 0x20 }),
    (Layout::L1, &[1, 6], Verdict::Altered { mask: 0x42 }),
    (Layout::L2, &[9], Verdict::Altered { mask: 0x200 }),
    (
        Layout::L2,
        &[1, 6, 10, 15],
        Verdict::Altered { mask: 0x8442 },
    ),
];

const PAST: [Row; 3] = [
    (Layout::L0, &[1, 2], Verdict::Unsure),
    (Layout::L1, &[0, 3, 6], Verdict::Unsure),
    (Layout::L2, &[1, 4, 6, 10, 15], Verdict::Unsure),
];

/// Compares what is found.
fn judges(rt: &(impl Abort + AllocGlobal), rows: &[Row]) {
    for (layout, altered, wanted) in rows {
        let verdict = verdict_on(rt, *layout, altered);
        assert!(rt; verdict == *wanted, "{altered:?}");
    }
}

#[test]
fn rot_is_named_up_to_the_reach(rt: HostRuntime) -> Result<(), Fail> {
    judges(&rt, &WITHIN);
    Ok(())
}

#[test]
fn rot_past_the_reach_is_not_named(rt: HostRuntime) -> Result<(), Fail> {
    judges(&rt, &PAST);
    Ok(())
}
