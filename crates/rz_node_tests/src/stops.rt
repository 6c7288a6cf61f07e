//! Stops at each device call of a node's changes and of a replacement, and what is there after a crash.
//!
//! A disk with a failing call loses what that call was to do. A disk under a fuse loses no write, but each
//! later sync. In both a change counts once its gate is written, and a crash decides on a gate that is not
//! synced.
ghost use Rattle.std.specs.Prelude.{◌≡◌};
ghost use Rattle.mj_angles.specs.declared.layout.Layout.TheVariants.{L0};
ghost use Rattle.rz_record.specs.Record.{IsValid};

use crate::nodes::{KEY, ONE, formatted, words};
use rz_disk::{Disk, Fused, MemDisk, PlainDisk};
use rz_events::Layout;
use rz_node::{
    DropAnswer, FetchAnswer, Head, KeepAnswer, Node, OpenFault, Phase, RefillAnswer, ReplaceAnswer,
    StartAnswer,
};
use std::alloc::Global;
use std::process::Abort;
use std::test::Fail;

/// The version of the block with stamp `number + 1`, made on the one before it.
fn version(number: u8) -> Head
    ensures valid { IsValid result }
    ensures layout { result.layout ≡ L0 }
    ensures position { result.position ≡ 0 }
{
    let base = u64::from(number);
    Head {
        stamp: base + 1,
        key: KEY,
        layout: Layout::L0,
        bsize: 0,
        position: 0,
        length: 4096,
        base,
    }
}

/// Keeps a version, whose bins are all its stamp, and answers whether no device call failed.
#[tactic(auto, unfolding(rz_record::specs::Record::bins_of))]
fn keeps<D: Disk>(rt: &(impl Abort + AllocGlobal), node: &mut Node<D>, number: u8) -> bool
    requires { node.old.geometry ≡ ONE }
    ensures { node.new.geometry ≡ node.old.geometry }
{
    let head = version(number);
    let bins = words(rt.alloc(), head.stamp).expect(rt, "memory");
    let answer = node.keep(&head, &bins);
    drop(bins);
    match answer {
        KeepAnswer::Kept => true,
        KeepAnswer::DiskFault => false,
        _ => rt.panic("not kept"),
    }
}

/// Refills a version, likewise.
#[tactic(auto, unfolding(rz_record::specs::Record::bins_of))]
fn refills<D: Disk>(rt: &(impl Abort + AllocGlobal), node: &mut Node<D>, number: u8) -> bool
    requires { node.old.geometry ≡ ONE }
    ensures { node.new.geometry ≡ node.old.geometry }
{
    let head = version(number);
    let bins = words(rt.alloc(), head.stamp).expect(rt, "memory");
    let answer = node.refill(0, &head, &bins);
    drop(bins);
    match answer {
        RefillAnswer::Kept => true,
        RefillAnswer::DiskFault => false,
        _ => rt.panic("not refilled"),
    }
}

/// Whether a node gives back the version of a stamp, and then its bins.
fn is_held<D: Disk>(rt: &(impl Abort + AllocGlobal), node: &mut Node<D>, stamp: u64) -> bool
    requires { node.old.geometry ≡ ONE }
    ensures { node.new.geometry ≡ node.old.geometry }
{
    let mut out = words(rt.alloc(), 77).expect(rt, "memory");
    let answer = node.fetch_into(KEY, stamp, &mut out);
    let bins = words(rt.alloc(), stamp).expect(rt, "memory");
    let are_its = out == bins;
    drop(bins);
    drop(out);
    match answer {
        FetchAnswer::Held(_) => {
            assert!(rt; are_its);
            true
        }
        FetchAnswer::Nothing => false,
        _ => rt.panic("not fetched"),
    }
}

/// Which of the first three versions a node gives back.
fn held<D: Disk>(rt: &(impl Abort + AllocGlobal), node: &mut Node<D>) -> [bool; 3]
    requires { node.old.geometry ≡ ONE }
    ensures { node.new.geometry ≡ node.old.geometry }
{
    let first = is_held(rt, node, 1);
    let second = is_held(rt, node, 2);
    let third = is_held(rt, node, 3);
    [first, second, third]
}

#[derive(Clone, Copy)]
enum Change {
    Keep,
    Refill,
    Drop,
}

/// A change of a node that was asked to keep the first so many versions, the address of the gate that it
/// flips and what stood there, and which versions are held before and after.
struct Stop {
    earlier: u8,
    change: Change,
    gate_at: u64,
    gate: u8,
    before: [bool; 3],
    after: [bool; 3],
}

const NONE: [bool; 3] = [false; 3];

const FIRST: [bool; 3] = [true, false, false];

const SECOND: [bool; 3] = [false, true, false];

const TWO: [bool; 3] = [true, true, false];

const LATER: [bool; 3] = [false, true, true];

/// The gates of the cells stand at 64 and 65. The third version takes the place of the first, since it was
/// made on the second.
const ROWS: [Stop; 5] = [
    Stop {
        earlier: 0,
        change: Change::Keep,
        gate_at: 64,
        gate: 0,
        before: NONE,
        after: FIRST,
    },
    Stop {
        earlier: 1,
        change: Change::Keep,
        gate_at: 65,
        gate: 0,
        before: FIRST,
        after: TWO,
    },
    Stop {
        earlier: 2,
        change: Change::Keep,
        gate_at: 64,
        gate: 1,
        before: TWO,
        after: LATER,
    },
    Stop {
        earlier: 1,
        change: Change::Refill,
        gate_at: 65,
        gate: 0,
        before: FIRST,
        after: TWO,
    },
    Stop {
        earlier: 2,
        change: Change::Drop,
        gate_at: 64,
        gate: 1,
        before: TWO,
        after: SECOND,
    },
];

/// Keeps the first so many versions, two at most.
fn keep_earlier<D: Disk>(rt: &(impl Abort + AllocGlobal), node: &mut Node<D>, earlier: u8)
    requires { node.old.geometry ≡ ONE }
    ensures { node.new.geometry ≡ node.old.geometry }
{
    let is_first = earlier == 0 || keeps(rt, node, 0);
    let is_second = earlier <= 1 || keeps(rt, node, 1);
    assert!(rt; is_first && is_second);
}

/// Whether a change is done.
fn does<D: Disk>(rt: &(impl Abort + AllocGlobal), node: &mut Node<D>, row: &Stop) -> bool
    requires { node.old.geometry ≡ ONE }
    ensures { node.new.geometry ≡ node.old.geometry }
{
    match row.change {
        Change::Keep => keeps(rt, node, row.earlier),
        Change::Refill => refills(rt, node, row.earlier),
        Change::Drop => !matches!(
            node.drop_next(1),
            DropAnswer::DiskFault { block: 2, stamp: 1 }
        ),
    }
}

/// Whether the change is there after a crash and a start, and which versions are held then.
type Found = (bool, [bool; 3]);

/// What a node finds after a crash and a start.
fn started<D: Disk>(rt: &(impl Abort + AllocGlobal), node: &mut Node<D>, pick: u64) -> Found
    requires { node.old.geometry ≡ ONE }
{
    assert!(rt; node.phase() == Phase::Down);
    node.crash(pick);
    match node.start(rt.alloc()) {
        StartAnswer::Started { took } => (took, held(rt, node)),
        _ => rt.panic("not started"),
    }
}

/// What is found after a change that stopped.
fn found<D: Disk>(
    rt: &(impl Abort + AllocGlobal),
    disk: D,
    row: &Stop,
    passes: u64,
    pick: u64,
) -> Found {
    let mut node = formatted(rt, disk);
    keep_earlier(rt, &mut node, row.earlier);
    node.arm(Some(passes));
    let is_done = does(rt, &mut node, row);
    node.arm(None);
    let found = started(rt, &mut node, pick);
    drop(node);
    assert!(rt; !is_done);
    found
}

/// What a crash with a pick leaves of a byte that was written since the last sync.
fn left(old: u8, new: u8, at: u64, pick: u64) -> u8 {
    match pick {
        0 => old,
        1 => new,
        _ => (pick.wrapping_mul(at.wrapping_add(1)) % 256) as u8,
    }
}

/// A disk in memory whose call of this number is the one that fails.
fn failing_at(rt: &(impl Abort + AllocGlobal), number: u64) -> MemDisk {
    let fails = vec![in rt.alloc(); number; 1].expect(rt, "memory");
    MemDisk::new(rt.alloc(), fails)
}

/// A disk under a fuse.
fn fused(alloc: Global) -> Fused<PlainDisk> {
    Fused::new(PlainDisk::new(alloc))
}

const PICKS: [u64; 4] = [0, 1, 300, 301];

/// What is to be found of a change.
fn wanted(row: &Stop, took: bool) -> Found {
    (took, if took { row.after } else { row.before })
}

/// A formatting makes the calls 0 to 4 of its disk, and each change that is done the next four.
#[test]
fn a_change_that_stops_is_done_or_not(rt: HostRuntime) -> Result<(), Fail> {
    for row in &ROWS {
        let begin = 5 + 4 * u64::from(row.earlier);
        for pick in PICKS {
            let is_flipped = left(row.gate, 1 - row.gate % 2, row.gate_at, pick) % 2
                != row.gate % 2;
            for call in 0..4 {
                let by_fault = found(&rt, failing_at(&rt, begin + call), row, 0, pick);
                let by_fuse = found(&rt, fused(rt.alloc()), row, call, pick);
                let failed = wanted(row, is_flipped && call == 3);
                let blown = wanted(row, is_flipped && call >= 2);
                assert!(rt;
                    (by_fault, by_fuse) == (failed, blown),
                    "call {call}, pick {pick}"
                );
            }
        }
    }
    Ok(())
}

/// A lost node after a replacement with fence 7 that stopped. It held the first version.
fn lost<D: Disk>(rt: &(impl Abort + AllocGlobal), disk: D, passes: u64) -> Node<D>
    ensures { result.geometry ≡ ONE }
{
    let mut node = formatted(rt, disk);
    let is_kept = keeps(rt, &mut node, 0);
    let loss = node.lose();
    node.arm(Some(passes));
    let answer = node.replace(rt.alloc(), 1, 7);
    let probed = node.probe();
    node.arm(None);
    assert!(rt; is_kept && (loss, probed) == (Some(1), Some(1)));
    assert!(rt; answer == ReplaceAnswer::DiskFault);
    node
}

/// The fence of a disk and which versions are held, or None where its header is shut.
type Left = Option<(u64, [bool; 3])>;

/// What a node has: its fence refuses the first version, or else that version is held.
#[tactic(auto, unfolding(rz_record::specs::Record::bins_of))]
fn seen<D: Disk>(rt: &(impl Abort + AllocGlobal), node: &mut Node<D>) -> Left
    requires { node.old.geometry ≡ ONE }
    ensures { node.new.geometry ≡ node.old.geometry }
{
    let bins = words(rt.alloc(), 1).expect(rt, "memory");
    let answer = node.keep(&version(0), &bins);
    drop(bins);
    let fence = match answer {
        KeepAnswer::Fenced { fence } => fence,
        KeepAnswer::Passed { held: 1 } => 0,
        _ => rt.panic("neither fenced nor passed"),
    };
    Some((fence, held(rt, node)))
}

/// What is found on the disk of a node after a crash.
fn left_by<D: Disk>(rt: &(impl Abort + AllocGlobal), node: Node<D>, pick: u64) -> Left {
    let mut disk = node.into_disk();
    disk.crash(pick);
    match Node::reopen(rt.alloc(), ONE, 1, disk) {
        Ok(node) => {
            let mut node = node;
            let seen = seen(rt, &mut node);
            drop(node);
            seen
        }
        Err((disk, fault)) => {
            drop(disk);
            assert!(rt; fault == OpenFault::Unformatted);
            None
        }
    }
}

/// Before the replacement and after it.
const WAS: Left = Some((0, [true, false, false]));

const ANEW: Left = Some((7, [false, false, false]));

/// A reset that fails leaves what was there, and one that is done leaves a shut header.
#[test]
fn a_replacement_that_stops_is_done_or_shut(rt: HostRuntime) -> Result<(), Fail> {
    for pick in PICKS {
        let by_gate = if left(0, 1, 32, pick) % 2 == 1 {
            ANEW
        } else {
            None
        };
        for (call, wanted) in [WAS, None, None, None, by_gate].iter().enumerate() {
            let node = lost(&rt, failing_at(&rt, 9 + call as u64), 0);
            let found = left_by(&rt, node, pick);
            assert!(rt; found == *wanted, "call {call}, pick {pick}");
        }
        for (passes, wanted) in [None, None, by_gate, by_gate].iter().enumerate() {
            let node = lost(&rt, fused(rt.alloc()), passes as u64);
            let found = left_by(&rt, node, pick);
            assert!(rt; found == *wanted, "passes {passes}, pick {pick}");
        }
    }
    Ok(())
}

#[test]
fn a_second_replacement_is_done(rt: HostRuntime) -> Result<(), Fail> {
    for passes in 0..4 {
        let mut node = lost(&rt, fused(rt.alloc()), passes);
        let answer = node.replace(rt.alloc(), 1, 7);
        let seen = seen(&rt, &mut node);
        drop(node);
        assert!(rt;
            answer == ReplaceAnswer::Replaced && seen == ANEW,
            "passes {passes}"
        );
    }
    Ok(())
}
