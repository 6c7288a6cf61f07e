//! Runs of one client, of which the whole text is known.
ghost use Rattle.std.specs.Prelude.{◌≡◌, length};

use crate::clock::{Clock, ClockDisk, ClockLink};
use crate::stage::{play, play_over, push};
use rz_disk::{PlainDisk, RotDisk};
use rz_link::{MemLink, PlainLink, Sent};
use std::process::Abort;
use std::sync::Wait;
use std::test::Fail;
use std::thread::Threads;

const LINE: &str = "rozo run --disks 4";

/// Links of which the first client's loses the message with this number so.
fn links(rt: &(impl Abort + AllocGlobal), number: u64, lost: Sent) -> Vec<MemLink>
    ensures { length result.items ≡ 80 }
{
    let mut links = Vec::new(rt.alloc());
    for place in 0u64..80 {
        let mut losses = Vec::new(rt.alloc());
        if place == 0 {
            push(rt, &mut losses, (number, lost));
        }
        push(rt, &mut links, MemLink::new(losses));
    }
    links
}

/// Four disks in memory.
fn disks(rt: &(impl Abort + AllocGlobal)) -> Vec<PlainDisk> {
    let mut disks = Vec::new(rt.alloc());
    for _ in 0..4 {
        push(rt, &mut disks, PlainDisk::new(rt.alloc()));
    }
    disks
}

/// Whether this is what is printed where the client's link loses the message with this number so.
fn is_told<R: Threads + Wait + Abort + AllocGlobal + Sync>(
    rt: &R,
    script: &str,
    number: u64,
    lost: Sent,
    told: &str,
) -> bool {
    let text = play(rt, LINE, script, disks(rt), links(rt, number, lost));
    let is_told = text.as_str() == told;
    drop(text);
    is_told
}

const WRITTEN: &str = "op c1 create /f\nop c1 put /f 0 t:hello\n";

/// The first node has no event of the write.
const LOST_REQUEST: &str = "c1 1 created 00000000-0000-0000-0000-000000000001
c1 2 acked 1 0111
end 10
";

#[test]
fn a_request_is_lost(rt: HostRuntime) -> Result<(), Fail> {
    assert!(rt; is_told(&rt, WRITTEN, 0, Sent::RequestLost, LOST_REQUEST));
    Ok(())
}

/// The first node has one.
const LOST_REPLY: &str = "c1 1 created 00000000-0000-0000-0000-000000000001
c1 2 acked 1 0111
end 11
";

#[test]
fn a_reply_is_lost(rt: HostRuntime) -> Result<(), Fail> {
    assert!(rt; is_told(&rt, WRITTEN, 0, Sent::ReplyLost, LOST_REPLY));
    Ok(())
}

const READ: &str = "op c1 create /f\nop c1 put /f 0 t:hello\nop c1 get /f 0\n";

/// Three keeps go before the fetches, and a third node is asked.
const LOST_FETCH: &str = "c1 1 created 00000000-0000-0000-0000-000000000001
c1 2 acked 1 1110
c1 3 data 1 5 x:68656c6c6f
end 15
";

#[test]
fn a_fetch_is_lost(rt: HostRuntime) -> Result<(), Fail> {
    assert!(rt; is_told(&rt, READ, 3, Sent::RequestLost, LOST_FETCH));
    Ok(())
}

const UNLINKED: &str = "op c1 create /f\nop c1 put /f 0 t:hello\nop c1 unlink /f\n";

/// The first node has dropped its version. Of the other three, two drop theirs, and the last has none.
const LOST_DROP: &str = "c1 1 created 00000000-0000-0000-0000-000000000001
c1 2 acked 1 1110
c1 3 done
end 16
";

#[test]
fn a_drop_is_lost(rt: HostRuntime) -> Result<(), Fail> {
    assert!(rt; is_told(&rt, UNLINKED, 3, Sent::ReplyLost, LOST_DROP));
    Ok(())
}

/// Four disks, of which the first reads a byte of its first record wrong.
fn rotten(rt: &(impl Abort + AllocGlobal)) -> Vec<RotDisk<PlainDisk>> {
    let mut disks = Vec::new(rt.alloc());
    for at in [2368, u64::MAX, u64::MAX, u64::MAX] {
        push(
            rt,
            &mut disks,
            RotDisk::new(PlainDisk::new(rt.alloc()), at, 1),
        );
    }
    disks
}

const REWRITTEN: &str =
    "op c1 create /f\nop c1 put /f 0 t:hello\nop c1 get /f 0\nop c1 put /f 0 t:again\n";

/// The record of node 1 fits no block with that of node 2: the read says so, and the client goes on.
const ALTERED: &str = "c1 1 created 00000000-0000-0000-0000-000000000001
c1 2 acked 1 1110
c1 3 inconsistent
c1 4 acked 2 1110
end 21
";

#[test]
fn an_altered_bin_is_noticed(rt: HostRuntime) -> Result<(), Fail> {
    let links = links(&rt, u64::MAX, Sent::Through);
    let text = play_over(&rt, LINE, REWRITTEN, rotten(&rt), links, false);
    let is_told = text.as_str() == ALTERED;
    drop(text);
    assert!(rt; is_told);
    Ok(())
}

/// One disk is lost, and another fails at its first call. The rebuilder finds that its node lost nothing.
const FAULTS: &str = "lose n1
break n2 0 0
stop n4
start n4
op c1 create /f
op c1 put /f 0 t:hello
op c1 get /f 0
op r1 rebuild n3
";

/// Two of four nodes are left, which is one too few, so no other is asked. Four events are the administrator's,
/// two the rebuilder's.
const FAULTS_TOLD: &str = "c1 1 created 00000000-0000-0000-0000-000000000001
c1 2 toofew lx--
c1 3 hole
r1 1 notlost
end 16
";

/// Links that carry nothing before the clock has struck once.
fn late_links<'a>(
    rt: &(impl Abort + AllocGlobal),
    clock: &'a Clock,
) -> Vec<ClockLink<'a, PlainLink>>
    ensures { length result.items ≡ 80 }
{
    let mut links = Vec::new(rt.alloc());
    for _ in 0u64..80 {
        push(rt, &mut links, ClockLink::new(PlainLink::new(), clock, 1));
    }
    links
}

/// Four disks in memory, at whose crash the clock strikes.
fn clock_disks<'a>(
    rt: &(impl Abort + AllocGlobal),
    clock: &'a Clock,
) -> Vec<ClockDisk<'a, PlainDisk>> {
    let mut disks = Vec::new(rt.alloc());
    for _ in 0..4 {
        let disk = PlainDisk::new(rt.alloc());
        push(rt, &mut disks, ClockDisk::new(disk, clock, 0));
    }
    disks
}

#[test]
fn a_disk_is_lost_and_another_fails(rt: HostRuntime) -> Result<(), Fail> {
    let clock = Clock::new(0);
    let disks = clock_disks(&rt, &clock);
    let links = late_links(&rt, &clock);
    let text = play(&rt, LINE, FAULTS, disks, links);
    let is_told = text.as_str() == FAULTS_TOLD;
    drop(text);
    assert!(rt; is_told);
    Ok(())
}
