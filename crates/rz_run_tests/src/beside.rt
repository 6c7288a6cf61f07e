//! Eight clients at work beside a rebuilder, with lost messages and lost disks, often, each time with other
//! messages lost.
ghost use Rattle.std.specs.Prelude.{◌≡◌, length};

use crate::checker::first_wrong;
use crate::clock::{Clock, ClockDisk, ClockLink};
use crate::reading::{Printed, are_rebuilt, is_in_time, read_back};
use crate::stage::{play, push};
use crate::workload::script;
use rz_disk::PlainDisk;
use rz_link::{MemLink, Sent};
use std::process::Abort;
use std::test::Fail;

const LINE: &str = "rozo run --disks 18";

/// How often all of it is done.
const RUNS: u64 = 20;

/// So many messages go out between two strokes of the clock.
const MESSAGES: u64 = 150;

/// How often the clock has struck when all losses have come.
const STROKES: u64 = 3;

/// The links of clients stand before this one.
const FIRST_REBUILDER: u64 = 64;

/// The messages that a client's link loses, of about fifteen each one. In each run and for each client they
/// are others.
fn losses(rt: &(impl Abort + AllocGlobal), run: u64, number: u64) -> Vec<(u64, Sent)> {
    let mut losses = Vec::new(rt.alloc());
    let count = if number >= FIRST_REBUILDER { 0 } else { 40 };
    let mut next = run.wrapping_mul(7).wrapping_add(number.wrapping_mul(3)) % 11;
    for place in 0u64..count {
        let lost = if place % 2 == 0 {
            Sent::RequestLost
        } else {
            Sent::ReplyLost
        };
        push(rt, &mut losses, (next, lost));
        let step = run.wrapping_add(number).wrapping_add(place) % 13;
        next = next.wrapping_add(9).wrapping_add(step);
    }
    losses
}

/// A link for each client and each rebuilder.
fn links<'a>(
    rt: &(impl Abort + AllocGlobal),
    clock: &'a Clock,
    run: u64,
) -> Vec<ClockLink<'a, MemLink>>
    ensures { length result.items ≡ 80 }
{
    let mut links = Vec::new(rt.alloc());
    for number in 0u64..80 {
        let link = MemLink::new(losses(rt, run, number));
        push(rt, &mut links, ClockLink::new(link, clock, 0));
    }
    links
}

/// Eighteen disks in memory. The last but one is made once more when all losses have come.
fn disks<'a>(rt: &(impl Abort + AllocGlobal), clock: &'a Clock) -> Vec<ClockDisk<'a, PlainDisk>> {
    let mut disks = Vec::new(rt.alloc());
    for number in 0u64..18 {
        let strokes = if number == 16 { STROKES } else { 0 };
        let disk = PlainDisk::new(rt.alloc());
        push(rt, &mut disks, ClockDisk::new(disk, clock, strokes));
    }
    disks
}

/// What a text shows: the first operation that no store could have answered so, and whether the rebuilder
/// came after the first loss. Where a node was not rebuilt, the operation is nobody's.
#[derive(Clone, Copy)]
struct Judged {
    wrong: Option<(u64, u64)>,
    in_time: bool,
}

/// What the lines of the actors show.
fn shown_by(printed: &Printed) -> Judged {
    let in_time = is_in_time(&printed.rebuilds);
    let wrong = if in_time && !are_rebuilt(&printed.rebuilds) {
        Some((0, 0))
    } else {
        first_wrong(&printed.all)
    };
    Judged { wrong, in_time }
}

fn judge(rt: &(impl Abort + AllocGlobal), text: &str) -> Judged {
    let printed = read_back(rt, text);
    let judged = shown_by(&printed);
    drop(printed);
    judged
}

#[test]
fn each_of_many_runs_could_be_that_of_a_store(rt: HostRuntime) -> Result<(), Fail> {
    let script = script(&rt);
    let mut in_time = 0u64;
    for run in 0..RUNS {
        let clock = Clock::new(MESSAGES);
        let disks = disks(&rt, &clock);
        let links = links(&rt, &clock, run);
        let text = play(&rt, LINE, &script, disks, links);
        let judged = judge(&rt, &text);
        assert!(rt; judged.wrong.is_none(), "run {run}: {text}");
        drop(text);
        in_time = in_time.saturating_add(u64::from(judged.in_time));
    }
    drop(script);
    // The rebuilder seldom comes before the first loss.
    assert!(rt; in_time >= RUNS / 2);
    Ok(())
}
