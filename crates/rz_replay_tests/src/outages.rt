//! A loss of power at each call of a disk, and at each call of all disks: what the next play reads.

use super::playing::{ALL, DISKS, FIRST, behind, disks_on, play};
use rz_disk::Disk;
use rz_test_disks::Power;
use std::process::Abort;
use std::test::Fail;

/// Each of them writes the blocks of a file of its own.
const CLIENTS: [u64; 2] = [1, 2];

/// A file's blocks, which its client writes in turn.
const BLOCKS: u64 = 3;

/// The number of a client's last operation. The first makes the file, in two turns, and each of the others
/// writes a block, in seven: so the two clients take 200 turns.
const LAST: u64 = 15;

/// The script that is stopped. A client's operation writes its own number.
const WRITING: &str = "op c1 create /f1
op c1 put /f1 2 x:0102
op c1 put /f1 0 x:0103
op c1 put /f1 1 x:0104
op c1 put /f1 2 x:0105
op c1 put /f1 0 x:0106
op c1 put /f1 1 x:0107
op c1 put /f1 2 x:0108
op c1 put /f1 0 x:0109
op c1 put /f1 1 x:0110
op c1 put /f1 2 x:0111
op c1 put /f1 0 x:0112
op c1 put /f1 1 x:0113
op c1 put /f1 2 x:0114
op c1 put /f1 0 x:0115
op c2 create /f2
op c2 put /f2 2 x:0202
op c2 put /f2 0 x:0203
op c2 put /f2 1 x:0204
op c2 put /f2 2 x:0205
op c2 put /f2 0 x:0206
op c2 put /f2 1 x:0207
op c2 put /f2 2 x:0208
op c2 put /f2 0 x:0209
op c2 put /f2 1 x:0210
op c2 put /f2 2 x:0211
op c2 put /f2 0 x:0212
op c2 put /f2 1 x:0213
op c2 put /f2 2 x:0214
op c2 put /f2 0 x:0215
rest
";

/// The script that is played after it.
const READING: &str = "op c1 get /f1 0
op c1 get /f1 1
op c1 get /f1 2
op c2 get /f2 0
op c2 get /f2 1
op c2 get /f2 2
rest
";

/// What the disks are called for in a play of which nothing is stopped: five calls to format each, four for
/// each of the 84 records on the nodes, and four for each of the 58 calls that change the metadata.
const CALLS: u64 = 593;

/// A crash keeps none of the bytes that wait for a sync, all of them, or each third.
const PICKS: [u64; 3] = [0, 1, 3];

/// What was told of a client's operation of this number. It is empty where nothing was.
fn words_on<'t>(
    rt: &(impl Abort + AllocGlobal),
    text: &'t str,
    client: u64,
    number: u64,
) -> &'t str {
    let start = format!(in rt.alloc(); "c{client} {number} ").expect(rt, "memory");
    let words = behind(text, start.as_str());
    drop(start);
    words
}

/// Whether words end with the text that a client's operation of this number writes.
fn is_text_of(rt: &(impl Abort + AllocGlobal), words: &str, client: u64, number: u64) -> bool {
    let text = format!(in rt.alloc(); "x:0{client}{number:02}").expect(rt, "memory");
    let is_it = words.ends_with(text.as_str());
    drop(text);
    is_it
}

/// The last write of a block that was acknowledged to its client, 0 where none was; and the client's first
/// operation of which nothing was told.
fn known(rt: &(impl Abort + AllocGlobal), before: &str, client: u64, block: u64) -> (u64, u64) {
    let mut acked = 0u64;
    let mut in_hand = 1u64;
    for number in 1..=LAST {
        let words = words_on(rt, before, client, number);
        if words.starts_with("acked ") && number % BLOCKS == block {
            acked = number;
        }
        if !words.is_empty() {
            in_hand = number.saturating_add(1);
        }
    }
    (acked, in_hand)
}

/// Whether a client's read of a block is right: it found the write that was acknowledged last, or the one in
/// hand; or none was, and it found no block, or no file that was in hand itself.
fn is_right(
    rt: &(impl Abort + AllocGlobal),
    before: &str,
    after: &str,
    client: u64,
    block: u64,
) -> bool {
    let (acked, in_hand) = known(rt, before, client, block);
    let words = words_on(rt, after, client, block.saturating_add(1));
    if !words.starts_with("data ") {
        let is_hole = words == "hole" || in_hand == 1 && words == "refused NoEntry";
        return acked == 0 && is_hole;
    }
    is_text_of(rt, words, client, acked)
        || in_hand % BLOCKS == block && is_text_of(rt, words, client, in_hand)
}

/// Whether all that was read after an outage is right.
fn are_right(rt: &(impl Abort + AllocGlobal), before: &str, after: &str) -> bool {
    let mut are_right = true;
    for client in CLIENTS {
        for block in 0..BLOCKS {
            are_right = is_right(rt, before, after, client, block) && are_right;
        }
    }
    are_right
}

/// Plays up to the call of a disk, or of `ALL`, at which the power goes, and a crash that keeps this of the
/// bytes that waited; and then plays again. Answers whether the power went, which it did not where the play
/// makes fewer calls.
fn is_met(rt: &(impl Abort + AllocGlobal), disk: u64, call: u64, pick: u64) -> bool {
    let power = Power::until(call);
    let lasting = Power::until(u64::MAX);
    let mut disks = disks_on(rt, disk, &power, &lasting);
    let (first, before) = play(rt, FIRST, WRITING, &mut disks);
    let is_met = power.is_gone();
    power.restore();
    for disk in disks.iter_mut() {
        disk.crash(pick);
    }
    let (again, after) = play(rt, "rozo again --disks 5", READING, &mut disks);
    drop(disks);
    // A disk that was not formatted to its end does not open.
    let is_unopened = first == 11 && again == 16;
    let has_played = again == 0 && matches!(first, 0 | 11 | 14);
    let is_right = is_unopened || has_played && are_right(rt, before.as_str(), after.as_str());
    assert!(rt;
        is_right,
        "disk {disk}, call {call}, pick {pick}: {before}{after}"
    );
    drop(before);
    drop(after);
    is_met
}

/// Tries an outage at each call of a disk, or of `ALL`, and gives the number of these calls.
fn calls_of(rt: &(impl Abort + AllocGlobal), disk: u64, pick: u64) -> u64 {
    let mut calls = 0u64;
    let mut goes_on = true;
    for call in 0..=CALLS {
        goes_on = goes_on && is_met(rt, disk, call, pick);
        calls = calls.saturating_add(u64::from(goes_on));
    }
    calls
}

#[test]
fn one_disk_stops(rt: HostRuntime) -> Result<(), Fail> {
    for pick in PICKS {
        let mut calls = 0u64;
        for disk in 0..DISKS {
            calls = calls.saturating_add(calls_of(&rt, disk, pick));
        }
        assert_eq!(rt; calls, CALLS);
    }
    Ok(())
}

#[test]
fn all_disks_stop_together(rt: HostRuntime) -> Result<(), Fail> {
    for pick in PICKS {
        assert_eq!(rt; calls_of(&rt, ALL, pick), CALLS);
    }
    Ok(())
}
