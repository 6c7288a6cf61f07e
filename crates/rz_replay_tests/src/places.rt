//! A failure at each place: a source that fails after each byte, a sink without room for each byte, and each call of
//! each disk.

use super::playing::{behind, play, play_streams, push, source_of};
use rz_disk::{Disk, MemDisk, PlainDisk};
use rz_link::MemLink;
use rz_ports::MemSource;
use rz_replay::memory;
use std::process::Abort;
use std::test::Fail;

const REPLAY: &str = "rozo replay --disks 4";

const ORDINARY: &str = "op c1 create /f\nop c1 put /f 0 t:hello\nop c1 get /f 0\nrest\n";

const TOLD: &str = "c1 1 created 00000000-0000-0000-0000-000000000001
c1 2 acked 1 1110
c1 3 data 1 5 x:68656c6c6f
end 14
";

/// The disks of four nodes.
fn plain_disks(rt: &(impl Abort + AllocGlobal)) -> Vec<PlainDisk> {
    memory(rt.alloc(), 4).expect(rt, "memory")
}

/// A source of these bytes, which fails where they are at their end.
fn failing_source(rt: &(impl Abort + AllocGlobal), bytes: &[u8]) -> MemSource {
    let read = u64::from(!bytes.is_empty());
    let fails = vec![in rt.alloc(); read].expect(rt, "memory");
    MemSource::new(
        Vec::from_slice(rt.alloc(), bytes).expect(rt, "memory"),
        fails,
    )
}

#[test]
fn the_source_fails_after_each_byte(rt: HostRuntime) -> Result<(), Fail> {
    for bytes in 0..ORDINARY.len() {
        let input = failing_source(&rt, &ORDINARY.as_bytes()[..bytes]);
        let mut disks = plain_disks(&rt);
        let link = MemLink::new(Vec::new(rt.alloc()));
        let (status, text) = play_streams(&rt, REPLAY, input, 4096, &mut disks, link);
        drop(disks);
        let is_empty = text.is_empty();
        drop(text);
        assert!(rt; status == 4 && is_empty, "after {bytes} bytes");
    }
    Ok(())
}

#[test]
fn the_sink_has_no_room_for_each_byte(rt: HostRuntime) -> Result<(), Fail> {
    for room in 0..TOLD.len() {
        let input = source_of(&rt, ORDINARY);
        let mut disks = plain_disks(&rt);
        let link = MemLink::new(Vec::new(rt.alloc()));
        let (status, text) = play_streams(&rt, REPLAY, input, room, &mut disks, link);
        drop(disks);
        let is_front = text.as_bytes() == &TOLD.as_bytes()[..room];
        drop(text);
        assert!(rt; status == 5 && is_front, "{room} bytes");
    }
    Ok(())
}

const LOST: &str = "op c1 create /f
op c1 put /f 0 t:hello
rest
lose n1
op r1 rebuild n1
turn r1 3
op c1 get /f 0
turn c1 6
lose n2
op c1 get /f 0
turn c1 8
";

/// What is told where no call fails.
const UNFAILED: &str = "c1 1 created 00000000-0000-0000-0000-000000000001
c1 2 acked 1 1110
c1 3 data 1 5 x:68656c6c6f
c1 4 toofew nlsn
end 28
";

/// More calls than a disk is called for in this script.
const CALLS: u64 = 32;

/// Four disks, of which one fails at this call.
fn disks_but(rt: &(impl Abort + AllocGlobal), failing: u64, call: u64) -> Vec<MemDisk> {
    let mut disks = Vec::new(rt.alloc());
    for disk in 0..4u64 {
        let fails = if disk == failing { call } else { u64::MAX };
        let list = vec![in rt.alloc(); fails].expect(rt, "memory");
        push(rt, &mut disks, MemDisk::new(rt.alloc(), list));
    }
    disks
}

/// Whether a line tells no other block than the one that was written.
fn is_right(line: &str) -> bool {
    !line.contains(" data ") || line.ends_with(" data 1 5 x:68656c6c6f")
}

/// A byte of a disk, one call of which may fail.
fn byte_at(disk: &mut MemDisk, at: u64) -> u8 {
    let mut byte = [0u8];
    if at < disk.size() && disk.read(at, &mut byte).is_err() {
        let _ = disk.read(at, &mut byte);
    }
    byte[0]
}

/// Whether the disks have the record of stamp 1 wherever a text says that the write was acknowledged with it, also after a
/// crash that leaves nothing of what waits for a sync. The first two disks are lost later on. The first gate picks slot 1.
fn are_held(disks: &mut Vec<MemDisk>, text: &str) -> bool {
    let mask = behind(text, "c1 2 acked 1 ").as_bytes();
    let mut are_held = true;
    for (node, disk) in disks.iter_mut().enumerate() {
        if node >= 2 && mask.get(node) == Some(&b'1') {
            disk.crash(0);
            are_held = are_held && byte_at(disk, 64) == 1 && byte_at(disk, 2304) == 1;
        }
    }
    are_held
}

#[test]
fn each_call_of_each_disk_fails(rt: HostRuntime) -> Result<(), Fail> {
    for disk in 0..4u64 {
        for call in 0..=CALLS {
            let mut disks = disks_but(&rt, disk, call);
            let (status, text) = play(&rt, REPLAY, LOST, &mut disks);
            let are_held = are_held(&mut disks, text.as_str());
            drop(disks);
            let is_refused = status == 11 && text.starts_with("refused disk ");
            let is_played = status == 0 && text.contains("\nend ");
            let is_right = text.lines().all(is_right);
            let is_whole = call < CALLS || text.as_str() == UNFAILED;
            drop(text);
            assert!(rt;
                (is_refused || is_played) && are_held && is_right && is_whole,
                "disk {disk}, call {call}"
            );
        }
    }
    Ok(())
}
