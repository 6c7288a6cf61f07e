//! What is told where the disk of a journal fails in a play, where a link loses a message or a reply, and where a
//! byte of a record is read wrong.

use super::playing::{FIRST, disks_on, play, play_over, push};
use rz_disk::{PlainDisk, RotDisk};
use rz_link::{MemLink, Sent};
use rz_test_disks::Power;
use std::process::Abort;
use std::test::Fail;

const WRITTEN: &str = "op c1 create /f\nop c1 put /f 0 t:hello\nrest\n";

const FAILED: &str = "c1 1 created 00000000-0000-0000-0000-000000000001\nrefused journal\n";

/// The journal's disk fails from its call 10 on, within the second call that changes the export.
#[test]
fn the_journal_fails(rt: HostRuntime) -> Result<(), Fail> {
    let power = Power::until(10);
    let lasting = Power::until(u64::MAX);
    let mut disks = disks_on(&rt, 4, &power, &lasting);
    let (status, text) = play(&rt, FIRST, WRITTEN, &mut disks);
    drop(disks);
    let is_told = text.as_str() == FAILED;
    drop(text);
    assert!(rt; status == 14 && is_told);
    Ok(())
}

/// Four disks, of which the first reads the byte at this address wrong. The last address is on no disk.
fn rotten(rt: &(impl Abort + AllocGlobal), at: u64) -> Vec<RotDisk<PlainDisk>> {
    let mut disks = Vec::new(rt.alloc());
    for at in [at, u64::MAX, u64::MAX, u64::MAX] {
        push(
            rt,
            &mut disks,
            RotDisk::new(PlainDisk::new(rt.alloc()), at, 1),
        );
    }
    disks
}

/// Plays a script over four disks, and tells whether it ends well with this text. The link loses the message
/// with this number, without a line of the script.
fn is_told(
    rt: &(impl Abort + AllocGlobal),
    script: &str,
    number: u64,
    lost: Sent,
    told: &str,
) -> bool {
    let mut disks = rotten(rt, u64::MAX);
    let list = vec![in rt.alloc(); (number, lost)].expect(rt, "memory");
    let link = MemLink::new(list);
    let (status, text) = play_over(rt, "rozo replay --disks 4", script, &mut disks, link);
    drop(disks);
    let is_told = text.as_str() == told;
    drop(text);
    status == 0 && is_told
}

const LOST_REPLY: &str = "c1 1 created 00000000-0000-0000-0000-000000000001
c1 2 acked 1 0111
end 11
";

#[test]
fn the_reply_to_the_first_keep_is_lost(rt: HostRuntime) -> Result<(), Fail> {
    assert!(rt; is_told(&rt, WRITTEN, 0, Sent::ReplyLost, LOST_REPLY));
    Ok(())
}

/// The node has no event of it.
const LOST_REQUEST: &str = "c1 1 created 00000000-0000-0000-0000-000000000001
c1 2 acked 1 0111
end 10
";

#[test]
fn the_request_of_the_first_keep_is_lost(rt: HostRuntime) -> Result<(), Fail> {
    assert!(rt; is_told(&rt, WRITTEN, 0, Sent::RequestLost, LOST_REQUEST));
    Ok(())
}

const READ: &str = "op c1 create /f\nop c1 put /f 0 t:hello\nop c1 get /f 0\nrest\n";

/// Three keeps go before the fetches, and a third node is asked.
const LOST_FETCH: &str = "c1 1 created 00000000-0000-0000-0000-000000000001
c1 2 acked 1 1110
c1 3 data 1 5 x:68656c6c6f
end 15
";

#[test]
fn the_request_of_the_first_fetch_is_lost(rt: HostRuntime) -> Result<(), Fail> {
    assert!(rt; is_told(&rt, READ, 3, Sent::RequestLost, LOST_FETCH));
    Ok(())
}

const UNLINKED: &str = "op c1 create /f\nop c1 put /f 0 t:hello\nop c1 unlink /f\nrest\n";

/// The first node has dropped its version. Of the other three, two drop theirs, and the last has none.
const LOST_DROP: &str = "c1 1 created 00000000-0000-0000-0000-000000000001
c1 2 acked 1 1110
c1 3 done
end 16
";

#[test]
fn the_reply_to_the_first_drop_is_lost(rt: HostRuntime) -> Result<(), Fail> {
    assert!(rt; is_told(&rt, UNLINKED, 3, Sent::ReplyLost, LOST_DROP));
    Ok(())
}

const UNSURE: &str = "c1 1 created 00000000-0000-0000-0000-000000000001
c1 2 acked 1 1110
end 9
scrub 00000000-0000-0000-0000-000000000001 0 unsure
";

/// A byte of node 1's record.
#[test]
fn a_scrub_reads_a_byte_wrong(rt: HostRuntime) -> Result<(), Fail> {
    let mut disks = rotten(&rt, 2368);
    let (status, text) = play(&rt, "rozo scrub --disks 4", WRITTEN, &mut disks);
    drop(disks);
    let is_told = text.as_str() == UNSURE;
    drop(text);
    assert!(rt; status == 0 && is_told);
    Ok(())
}

/// The record of node 1 fits no block with that of node 2: the read says so, and the play goes on.
const ALTERED: &str = "c1 1 created 00000000-0000-0000-0000-000000000001
c1 2 acked 1 1110
c1 3 inconsistent
c1 4 acked 2 1110
end 21
";

#[test]
fn an_altered_bin_is_noticed(rt: HostRuntime) -> Result<(), Fail> {
    let mut disks = rotten(&rt, 2368);
    let script =
        "op c1 create /f\nop c1 put /f 0 t:hello\nop c1 get /f 0\nop c1 put /f 0 t:again\nrest\n";
    let (status, text) = play(&rt, "rozo replay --disks 4", script, &mut disks);
    drop(disks);
    let is_told = text.as_str() == ALTERED;
    drop(text);
    assert!(rt; status == 0 && is_told);
    Ok(())
}

const LEFT: &str = "c1 1 created 00000000-0000-0000-0000-000000000001
c1 2 acked 1 1110
r1 1 left 2 0 1
end 20
";

/// The rebuild of node 2 leaves the block.
#[test]
fn a_rebuild_leaves_an_altered_block(rt: HostRuntime) -> Result<(), Fail> {
    let mut disks = rotten(&rt, 2368);
    let script = "op c1 create /f\nop c1 put /f 0 t:hello\nrest\nlose n2\nop r1 rebuild n2\nrest\n";
    let (status, text) = play(&rt, "rozo replay --disks 4", script, &mut disks);
    drop(disks);
    let is_told = text.as_str() == LEFT;
    drop(text);
    assert!(rt; status == 0 && is_told);
    Ok(())
}
