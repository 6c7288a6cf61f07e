//! Rebuilds as tables of what is asked and answered.

ghost use Rattle.std.specs.Prelude.{◌≡◌, ◌<◌, IsTrue};
ghost use Rattle.mj_angles.specs.declared.layout.Layout.TheVariants.{L0};
ghost use Rattle.rz_events.specs.declared.machines.RebuildAnswer.{RebuildAnswer as AnAnswer};
ghost use Rattle.rz_operation_model.specs.Rebuild.{IsNextAnswer, IsRebuildAnswer};
ghost use Rattle.rz_rebuild.specs.Machine.{ComeWith};

use crate::reads::can_be_told;
use mj_angles::Layout;
use rz_events::{
    Denial, FetchAnswer, FileInfo, Held, Key, LeftWhy, Listed, Places, Published, RebuildAnswer,
    RebuildAsk, RebuildEnd, RefillAnswer, ReplaceAnswer,
};
use rz_rebuild::{Rebuilder, position_of};
use std::process::Abort;
use std::test::Fail;

/// Room for the bins of any position.
const ROOM: usize = 568;

/// Where the words 0 of the first two rows fall, by position: the text has 1 there, and 2.
const FIRST: [usize; 4] = [2, 1, 0, 0];

const SECOND: [usize; 4] = [0, 0, 0, 1];

/// As `FIRST`, but no block has the bins of both position 0 and position 1.
const WRONG: [usize; 4] = [2, 0, 0, 0];

/// Whether the block can be listed for node 12.
fn can_be_listed(listed: &Option<Listed>) -> bool
    ensures { IsTrue result → IsNextAnswer L0 12 listed.now }
{
    let Some(listed) = listed else {
        return true;
    };
    let places = listed.info.places.list().len();
    places == 4 && position_of(12, listed) < 4 && can_be_told(Some(listed.published))
}

/// Whether the answer belongs to what was asked.
fn belongs(ask: RebuildAsk, answer: &RebuildAnswer) -> bool
    ensures { IsTrue result → IsRebuildAnswer L0 12 ask answer.now }
{
    match (ask, answer) {
        (RebuildAsk::Probe, RebuildAnswer::Probed(_)) => true,
        (RebuildAsk::Enroll { .. }, RebuildAnswer::Enrolled { .. }) => true,
        (RebuildAsk::Enroll { .. }, RebuildAnswer::Denied(_)) => true,
        (RebuildAsk::Replace { .. }, RebuildAnswer::Replaced(_)) => true,
        (RebuildAsk::Next { .. }, RebuildAnswer::Listed(listed)) => can_be_listed(listed),
        (RebuildAsk::Fetch { .. }, RebuildAnswer::Fetched(FetchAnswer::Held(held))) => {
            held.base < held.stamp && held.length as usize <= Layout::L0.block_bytes()
        }
        (RebuildAsk::Fetch { .. }, RebuildAnswer::Fetched(FetchAnswer::Nothing)) => true,
        (RebuildAsk::Fetch { .. }, RebuildAnswer::Missed) => true,
        (RebuildAsk::Recheck { .. }, RebuildAnswer::Rechecked(published)) => {
            can_be_told(*published)
        }
        (RebuildAsk::Recheck { .. }, RebuildAnswer::Denied(_)) => true,
        (RebuildAsk::Refill { .. }, RebuildAnswer::Refilled(_)) => true,
        (RebuildAsk::Refill { .. }, RebuildAnswer::Missed) => true,
        (RebuildAsk::Left { .. }, RebuildAnswer::Noted) => true,
        _ => false,
    }
}

/// Whether these are enough bins for what was asked.
fn are_enough(ask: RebuildAsk, bins: &[u64]) -> bool
    ensures { (answer : AnAnswer) → IsTrue result → ComeWith L0 ask answer bins.now }
{
    match ask {
        RebuildAsk::Fetch { position, .. } => {
            position < 4 && Layout::L0.bins_at(position) <= bins.len()
        }
        _ => true,
    }
}

/// Compares what is asked, and answers it; a record has the bins of the text.
fn step(
    rt: &impl Abort,
    rebuilder: &mut Rebuilder,
    first: &[usize; 4],
    ask: RebuildAsk,
    answer: RebuildAnswer,
)
    requires layout { rebuilder.old.layout ≡ L0 }
    requires node { rebuilder.old.node ≡ 12 }
    ensures layout { rebuilder.new.layout ≡ L0 }
    ensures node { rebuilder.new.node ≡ 12 }
{
    let is_ended = rebuilder.end().is_some();
    let asked = rebuilder.next();
    assert!(rt; !is_ended && asked == ask, "before {ask:?}");
    let mut bins = [0u64; ROOM];
    if let RebuildAsk::Fetch { position, .. } = asked {
        assert!(rt; position < 4);
        let (first, second) = (first[position as usize], SECOND[position as usize]);
        assert!(rt; first < ROOM && second < ROOM);
        bins[first] |= 1;
        bins[second] |= 2;
    }
    assert!(rt;
        belongs(asked, &answer) && are_enough(asked, &bins),
        "no answer to {asked:?}"
    );
    rebuilder.tell(answer, &bins);
}

fn key(block: u64) -> Key {
    Key { fid: 5, block }
}

/// The block is one of a file of which the node has position 2, and is published at the others.
fn listed(block: u64) -> RebuildAnswer {
    let mut places = Places::none();
    places.push(10);
    places.push(11);
    places.push(12);
    places.push(13);
    RebuildAnswer::Listed(Some(Listed {
        key: key(block),
        info: FileInfo {
            fid: 5,
            cid: 1,
            places,
            size: 9000,
        },
        published: published(9),
    }))
}

fn published(stamp: u64) -> Published {
    Published {
        stamp,
        mask: 0b1011,
        length: 2049,
    }
}

fn held(stamp: u64, base: u64) -> RebuildAnswer {
    RebuildAnswer::Fetched(FetchAnswer::Held(Held {
        stamp,
        length: 2049,
        base,
    }))
}

fn nothing() -> RebuildAnswer {
    RebuildAnswer::Fetched(FetchAnswer::Nothing)
}

fn fetch(block: u64, position: u8) -> RebuildAsk
    requires { position < 4 }
{
    RebuildAsk::Fetch {
        key: key(block),
        position,
        node: 10 + u16::from(position),
        stamp: 9,
    }
}

fn refill(block: u64) -> RebuildAsk {
    RebuildAsk::Refill {
        fence: 5,
        key: key(block),
        stamp: 9,
        length: 2049,
        position: 2,
        base: 4,
    }
}

const NONE: RebuildAnswer = RebuildAnswer::Listed(None);

const NEXT: RebuildAsk = RebuildAsk::Next { after: None };

const ENROLL: RebuildAsk = RebuildAsk::Enroll { loss: 7 };

const REPLACE: RebuildAsk = RebuildAsk::Replace { loss: 7, fence: 5 };

fn next_after(block: u64) -> RebuildAsk {
    RebuildAsk::Next {
        after: Some(key(block)),
    }
}

/// The rebuild of node 12, whose loss 7 is enrolled under fence 5, up to its first listing.
fn begin(rt: &(impl Abort + AllocGlobal)) -> Rebuilder
    ensures layout { result.layout ≡ L0 }
    ensures node { result.node ≡ 12 }
{
    let mut rebuilder = Rebuilder::start(rt.alloc(), Layout::L0, 12).expect(rt, "memory");
    let probed = RebuildAnswer::Probed(Some(7));
    step(rt, &mut rebuilder, &FIRST, RebuildAsk::Probe, probed);
    let fence = RebuildAnswer::Enrolled { fence: 5 };
    step(rt, &mut rebuilder, &FIRST, ENROLL, fence);
    let replaced = RebuildAnswer::Replaced(ReplaceAnswer::Replaced);
    step(rt, &mut rebuilder, &FIRST, REPLACE, replaced);
    rebuilder
}

/// The block is listed, and both records that give it back come.
fn copy(
    rt: &impl Abort,
    rebuilder: &mut Rebuilder,
    first: &[usize; 4],
    after: RebuildAsk,
    block: u64,
)
    requires layout { rebuilder.old.layout ≡ L0 }
    requires node { rebuilder.old.node ≡ 12 }
    ensures layout { rebuilder.new.layout ≡ L0 }
    ensures node { rebuilder.new.node ≡ 12 }
{
    step(rt, rebuilder, first, after, listed(block));
    step(rt, rebuilder, first, fetch(block, 0), held(9, 4));
    step(rt, rebuilder, first, fetch(block, 1), held(9, 3));
}

fn check_end(rt: &impl Abort, rebuilder: &Rebuilder, end: RebuildEnd) {
    let asked = rebuilder.next();
    let found = rebuilder.end();
    assert!(rt; asked == RebuildAsk::End && found == Some(end), "{end:?}");
}

#[test]
fn two_blocks(rt: HostRuntime) -> Result<(), Fail> {
    let mut rebuilder = begin(&rt);
    copy(&rt, &mut rebuilder, &FIRST, NEXT, 3);
    let asked = rebuilder.next();
    assert!(rt; matches!(asked, RebuildAsk::Refill { .. }));
    let bins = rebuilder.bins();
    assert!(rt; bins.len() > 1 && bins[0] == 3 && bins[1] == 0);
    let kept = RebuildAnswer::Refilled(RefillAnswer::Kept);
    step(&rt, &mut rebuilder, &FIRST, refill(3), kept);
    copy(&rt, &mut rebuilder, &FIRST, next_after(3), 4);
    let passed = RebuildAnswer::Refilled(RefillAnswer::Passed { held: 12 });
    step(&rt, &mut rebuilder, &FIRST, refill(4), passed);
    step(&rt, &mut rebuilder, &FIRST, next_after(4), NONE);
    let end = RebuildEnd::Rebuilt {
        fence: 5,
        refilled: 2,
    };
    check_end(&rt, &rebuilder, end);
    drop(rebuilder);
    Ok(())
}

#[test]
fn moved(rt: HostRuntime) -> Result<(), Fail> {
    let mut rebuilder = begin(&rt);
    unanswered(&rt, &mut rebuilder);
    let later = RebuildAnswer::Rechecked(Some(published(11)));
    step(&rt, &mut rebuilder, &FIRST, RECHECK, later);
    step(&rt, &mut rebuilder, &FIRST, NEXT, NONE);
    let end = RebuildEnd::Rebuilt {
        fence: 5,
        refilled: 0,
    };
    check_end(&rt, &rebuilder, end);
    drop(rebuilder);
    Ok(())
}

const RECHECK: RebuildAsk = RebuildAsk::Recheck {
    key: Key { fid: 5, block: 3 },
};

/// Block 3 is listed, and no position has a record of its stamp.
fn unanswered(rt: &impl Abort, rebuilder: &mut Rebuilder)
    requires layout { rebuilder.old.layout ≡ L0 }
    requires node { rebuilder.old.node ≡ 12 }
    ensures layout { rebuilder.new.layout ≡ L0 }
    ensures node { rebuilder.new.node ≡ 12 }
{
    step(rt, rebuilder, &FIRST, NEXT, listed(3));
    step(rt, rebuilder, &FIRST, fetch(3, 0), nothing());
    step(rt, rebuilder, &FIRST, fetch(3, 1), held(8, 4));
    step(rt, rebuilder, &FIRST, fetch(3, 3), RebuildAnswer::Missed);
    step(rt, rebuilder, &FIRST, fetch(3, 2), nothing());
}

/// Block 3 is left for this cause, and no other block is listed.
fn leave(rt: &impl Abort, rebuilder: &mut Rebuilder, why: LeftWhy)
    requires layout { rebuilder.old.layout ≡ L0 }
    requires node { rebuilder.old.node ≡ 12 }
    ensures layout { rebuilder.new.layout ≡ L0 }
    ensures node { rebuilder.new.node ≡ 12 }
{
    let asked = RebuildAsk::Left { key: key(3), why };
    step(rt, rebuilder, &FIRST, asked, RebuildAnswer::Noted);
    step(rt, rebuilder, &FIRST, next_after(3), NONE);
    let end = RebuildEnd::Left {
        fence: 5,
        refilled: 0,
        left: 1,
    };
    check_end(rt, rebuilder, end);
}

/// Block 3 is left unread for this cause, which the recheck shows.
fn is_left_unread(rt: &(impl Abort + AllocGlobal), answer: RebuildAnswer, why: LeftWhy) {
    let mut rebuilder = begin(rt);
    unanswered(rt, &mut rebuilder);
    step(rt, &mut rebuilder, &FIRST, RECHECK, answer);
    leave(rt, &mut rebuilder, why);
    drop(rebuilder);
}

#[test]
fn left_unread(rt: HostRuntime) -> Result<(), Fail> {
    let why = Denial::UnknownFile;
    let same = RebuildAnswer::Rechecked(Some(published(9)));
    is_left_unread(&rt, same, LeftWhy::TooFew);
    is_left_unread(&rt, RebuildAnswer::Denied(why), LeftWhy::Denied(why));
    let mut rebuilder = begin(&rt);
    copy(&rt, &mut rebuilder, &WRONG, NEXT, 3);
    leave(&rt, &mut rebuilder, LeftWhy::Inconsistent);
    drop(rebuilder);
    Ok(())
}

/// Block 3 is left unfilled for this cause.
fn is_left_unfilled(rt: &(impl Abort + AllocGlobal), answer: RebuildAnswer, why: LeftWhy) {
    let mut rebuilder = begin(rt);
    copy(rt, &mut rebuilder, &FIRST, NEXT, 3);
    step(rt, &mut rebuilder, &FIRST, refill(3), answer);
    leave(rt, &mut rebuilder, why);
    drop(rebuilder);
}

#[test]
fn left_unfilled(rt: HostRuntime) -> Result<(), Fail> {
    is_left_unfilled(&rt, RebuildAnswer::Missed, LeftWhy::Missed);
    let down = RebuildAnswer::Refilled(RefillAnswer::Down);
    is_left_unfilled(&rt, down, LeftWhy::Down);
    let full = RebuildAnswer::Refilled(RefillAnswer::Full);
    is_left_unfilled(&rt, full, LeftWhy::Full);
    let fault = RebuildAnswer::Refilled(RefillAnswer::DiskFault);
    is_left_unfilled(&rt, fault, LeftWhy::DiskFault);
    Ok(())
}

/// A refill ends the rebuild.
fn is_refused(rt: &(impl Abort + AllocGlobal), answer: RefillAnswer, end: RebuildEnd) {
    let mut rebuilder = begin(rt);
    copy(rt, &mut rebuilder, &FIRST, NEXT, 3);
    let answer = RebuildAnswer::Refilled(answer);
    step(rt, &mut rebuilder, &FIRST, refill(3), answer);
    check_end(rt, &rebuilder, end);
    drop(rebuilder);
}

#[test]
fn refused(rt: HostRuntime) -> Result<(), Fail> {
    is_refused(&rt, RefillAnswer::Lost, RebuildEnd::LostAgain);
    is_refused(
        &rt,
        RefillAnswer::OtherFence { fence: 6 },
        RebuildEnd::OtherFence { fence: 6 },
    );
    Ok(())
}

/// A rebuild ends at one of its first three asks.
fn is_early(
    rt: &(impl Abort + AllocGlobal),
    ask: RebuildAsk,
    answer: RebuildAnswer,
    end: RebuildEnd,
) {
    let mut rebuilder = Rebuilder::start(rt.alloc(), Layout::L0, 12).expect(rt, "memory");
    if ask != RebuildAsk::Probe {
        let probed = RebuildAnswer::Probed(Some(7));
        step(rt, &mut rebuilder, &FIRST, RebuildAsk::Probe, probed);
    }
    if ask == REPLACE {
        let fence = RebuildAnswer::Enrolled { fence: 5 };
        step(rt, &mut rebuilder, &FIRST, ENROLL, fence);
    }
    step(rt, &mut rebuilder, &FIRST, ask, answer);
    check_end(rt, &rebuilder, end);
    drop(rebuilder);
}

#[test]
fn early(rt: HostRuntime) -> Result<(), Fail> {
    let none = RebuildAnswer::Probed(None);
    is_early(&rt, RebuildAsk::Probe, none, RebuildEnd::NotLost);
    let old = Denial::OldLoss { kept: 8 };
    let denied = RebuildAnswer::Denied(old);
    is_early(&rt, ENROLL, denied, RebuildEnd::Denied(old));
    let not_lost = RebuildAnswer::Replaced(ReplaceAnswer::NotLost);
    is_early(&rt, REPLACE, not_lost, RebuildEnd::NotLost);
    let other = RebuildAnswer::Replaced(ReplaceAnswer::OtherLoss { loss: 8 });
    is_early(&rt, REPLACE, other, RebuildEnd::OtherLoss { loss: 8 });
    let fault = RebuildAnswer::Replaced(ReplaceAnswer::DiskFault);
    is_early(&rt, REPLACE, fault, RebuildEnd::DiskFault);
    Ok(())
}
