//! Writes of two clients that go to two nodes are under way at one time. One lock round the whole cluster, or
//! one thread for all actors, would let none of them meet another. Those of one client never meet.
use crate::stage::{play, push};
use rz_disk::PlainDisk;
use rz_link::PlainLink;
use rz_test_disks::{MeetDisk, Meeting};
use std::process::Abort;
use std::sync::Wait;
use std::test::Fail;
use std::thread::Threads;

/// Four disks whose writes may meet.
fn four<'a>(rt: &(impl Abort + AllocGlobal), meeting: &'a Meeting) -> Vec<MeetDisk<'a, PlainDisk>> {
    let mut disks = Vec::new(rt.alloc());
    for _ in 0..4 {
        push(
            rt,
            &mut disks,
            MeetDisk::new(PlainDisk::new(rt.alloc()), meeting),
        );
    }
    disks
}

/// How many lines say that a write was acknowledged by the first three nodes.
fn acked(text: &str) -> u64 {
    let mut count = 0u64;
    for line in text.split('\n') {
        if line.contains(" acked ") && line.ends_with(" 1110") {
            count = count.saturating_add(1);
        }
    }
    count
}

/// How many writes of a script the first three nodes acknowledged, and whether two writes met.
fn played<R: Threads + Wait + Abort + AllocGlobal + Sync>(rt: &R, script: &str) -> (u64, bool) {
    let meeting = Meeting::new();
    let links = vec![in rt.alloc(); PlainLink::new(); 80].expect(rt, "memory");
    let disks = four(rt, &meeting);
    let text = play(rt, "rozo run --disks 4", script, disks, links);
    let count = acked(&text);
    drop(text);
    (count, meeting.met())
}

#[test]
fn writes_of_two_clients_meet(rt: HostRuntime) -> Result<(), Fail> {
    let script = "op c1 create /a\nop c1 put /a 0 t:x\nop c2 create /b\nop c2 put /b 0 t:y\n";
    let told = played(&rt, script);
    assert_eq!(rt; told, (2, true));
    Ok(())
}

#[test]
fn writes_of_one_client_do_not_meet(rt: HostRuntime) -> Result<(), Fail> {
    let told = played(&rt, "op c1 create /a\nop c1 put /a 0 t:x\n");
    assert_eq!(rt; told, (1, false));
    Ok(())
}
