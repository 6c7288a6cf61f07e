//! One byte of an entry is altered, so that one rule is broken or all are kept.

use crate::letters::{CALL_LETTERS, PART_LETTERS, damaged, disk_of, entry, place_of};
use crate::making::store;
use rz_disk::PlainDisk;
use std::process::Abort;
use std::test::Fail;

/// An entry, the place of a byte in it, another byte there, and what is told then: the entry that is
/// damaged, `!` for the place behind the last, or a point where the journal opens.
type Rule = (u8, usize, u8, u8);

/// What is told of a disk with another byte at an address. The disk is then as it was.
fn told(
    rt: &(impl Abort + AllocGlobal),
    disk: PlainDisk,
    at: u64,
    was: u8,
    byte: u8,
) -> (PlainDisk, Option<u64>) {
    let mut disk = disk;
    store(rt, &mut disk, at, &[byte]);
    let (back, found) = damaged(rt, disk);
    let mut disk = back;
    store(rt, &mut disk, at, &[was]);
    (disk, found)
}

/// Compares what is told by the rules, on the disk of a journal of these letters.
fn keep(rt: &(impl Abort + AllocGlobal), letters: &[u8], rules: &[Rule]) {
    let mut disk = disk_of(rt, letters);
    for (letter, place, byte, wanted) in rules {
        let was = entry(*letter).get(*place).copied().expect(rt, "a place");
        let (_, start) = place_of(letters, *letter);
        let at = start.saturating_add(*place as u64);
        let (back, found) = told(rt, disk, at, was, *byte);
        disk = back;
        let is_told = found == number_of(letters, *wanted);
        assert!(rt; is_told, "entry {letter}, place {place}");
    }
    drop(disk);
}

/// The number of the entry of a letter, or none for a point.
fn number_of(letters: &[u8], letter: u8) -> Option<u64> {
    if letter == b'.' {
        return None;
    }
    let (number, _) = place_of(letters, letter);
    Some(number)
}

/// The last number drawn, and the object made last.
const COUNTERS: [Rule; 8] = [
    (b'C', 0, 254, b'.'),
    (b'C', 5, 10, b'C'),
    (b'C', 6, 0, b'0'),
    (b'C', 6, 1, b'1'),
    (b'C', 6, 2, b'2'),
    (b'C', 6, 3, b'4'),
    (b'C', 14, 3, b'D'),
    (b'C', 14, 255, b'.'),
];

/// Numbers, kinds, sizes, clusters, places and targets of objects.
const OBJECTS: [Rule; 26] = [
    (b'R', 6, 1, b'R'),
    (b'R', 22, 0, b'R'),
    (b'R', 22, 2, b'R'),
    (b'R', 24, 255, b'.'),
    (b'R', 33, 1, b'R'),
    (b'R', 41, 1, b'R'),
    (b'F', 6, 0, b'F'),
    (b'F', 6, 5, b'F'),
    (b'F', 22, 1, b'F'),
    (b'F', 22, 3, b'F'),
    // a size of 7936, of 4,278,198,272 and of 2^32 + 8192
    (b'F', 34, 31, b'1'),
    (b'F', 36, 255, b'.'),
    (b'F', 37, 1, b'F'),
    (b'F', 41, 0, b'F'),
    (b'F', 41, 2, b'F'),
    (b'F', 43, 3, b'F'),
    (b'F', 44, 2, b'F'),
    (b'F', 44, 5, b'F'),
    (b'L', 6, 2, b'L'),
    (b'L', 22, 0, b'L'),
    (b'L', 22, 1, b'L'),
    (b'L', 33, 2, b'L'),
    (b'L', 41, 1, b'L'),
    (b'L', 46, 0, b'.'),
    (b'D', 6, 3, b'D'),
    (b'D', 33, 1, b'D'),
];

/// Paths, their order, and the objects to which they lead.
const NAMES: [Rule; 20] = [
    (b'd', 10, b'd', b'd'),
    (b'd', 11, 0, b'd'),
    (b'd', 11, b'.', b'd'),
    (b'd', 11, b'/', b'd'),
    (b'd', 12, 0, b'd'),
    (b'd', 12, 5, b'd'),
    // `/d` is no directory
    (b'd', 12, 2, b'f'),
    (b'd', 12, 3, b'f'),
    (b'd', 11, b'e', b'f'),
    (b'f', 11, b'c', b'f'),
    (b'f', 11, b'e', b'f'),
    (b'f', 12, b'x', b'.'),
    (b'f', 13, b'.', b'f'),
    // a directory with two names, and a link with two
    (b'f', 14, 4, b'f'),
    (b'f', 14, 3, b'.'),
    (b'h', 12, 3, b'.'),
    (b'l', 11, b'h', b'l'),
    (b'l', 11, b'z', b'.'),
    (b'l', 12, 4, b'l'),
    // no name leads to the link
    (b'l', 12, 2, b'!'),
];

/// Keys, stamps, masks and lengths.
const BLOCKS: [Rule; 24] = [
    (b'0', 6, 0, b'0'),
    (b'0', 6, 3, b'0'),
    (b'0', 6, 4, b'0'),
    (b'0', 6, 9, b'0'),
    (b'0', 22, 1, b'1'),
    // block 1,048,576
    (b'0', 24, 16, b'0'),
    (b'0', 30, 0, b'0'),
    (b'0', 30, 4, b'.'),
    (b'0', 30, 5, b'0'),
    (b'0', 38, 2, b'0'),
    (b'1', 22, 0, b'1'),
    (b'1', 22, 2, b'1'),
    (b'1', 30, 1, b'.'),
    (b'1', 38, 0, b'1'),
    (b'1', 39, 0, b'1'),
    (b'1', 39, 4, b'.'),
    (b'1', 39, 5, b'1'),
    (b'1', 47, 3, b'1'),
    (b'1', 47, 14, b'.'),
    (b'1', 47, 15, b'1'),
    (b'1', 47, 19, b'1'),
    (b'1', 49, 1, b'1'),
    (b'1', 50, 0, b'.'),
    (b'1', 52, 1, b'1'),
];

/// Nodes and fences.
const ENROLMENTS: [Rule; 9] = [
    (b'2', 6, 0, b'2'),
    (b'2', 6, 5, b'2'),
    (b'2', 6, 4, b'4'),
    (b'2', 8, 255, b'.'),
    (b'2', 16, 0, b'2'),
    (b'2', 16, 5, b'2'),
    (b'4', 6, 1, b'4'),
    (b'4', 6, 3, b'.'),
    (b'4', 16, 3, b'.'),
];

/// Calls on names.
const TREE_CALLS: [Rule; 27] = [
    // the calls that only look, and one past the last
    (b'm', 6, 0, b'm'),
    (b'm', 6, 1, b'm'),
    (b'u', 6, 6, b'u'),
    (b'u', 6, 7, b'u'),
    (b'u', 6, 8, b'u'),
    (b'm', 6, 13, b'm'),
    // other calls with the same fields
    (b'm', 6, 2, b'm'),
    (b'm', 6, 4, b'c'),
    (b'c', 6, 3, b'b'),
    (b'k', 6, 10, b'n'),
    (b'n', 6, 11, b'r'),
    (b'u', 6, 2, b'u'),
    (b'r', 6, 5, b'r'),
    // other names
    (b'm', 10, b'b', b'c'),
    (b'c', 10, b'x', b'c'),
    (b'c', 11, b'x', b'k'),
    (b'k', 12, b'x', b'k'),
    (b'k', 16, b'a', b'k'),
    (b's', 10, b'x', b's'),
    (b'y', 13, b'g', b'y'),
    (b'n', 12, b'x', b'n'),
    (b'n', 16, b'a', b'n'),
    (b'n', 16, b'g', b'r'),
    (b'n', 16, b'l', b'.'),
    (b'u', 10, b'a', b'u'),
    (b'r', 10, b'h', b'r'),
    (b'M', 10, b'h', b'M'),
];

/// Calls on blocks and nodes, and what stands before each entry.
const OTHER_CALLS: [Rule; 26] = [
    (b'b', 6, 1, b'b'),
    (b'b', 6, 9, b'b'),
    (b'b', 22, 1, b'.'),
    (b'b', 24, 16, b'b'),
    (b'b', 30, 0, b'.'),
    (b'b', 31, 16, b'b'),
    (b'B', 22, 0, b'p'),
    (b'B', 30, 1, b'B'),
    (b'p', 6, 1, b'p'),
    (b'p', 22, 0, b'.'),
    (b'p', 22, 2, b'p'),
    (b'p', 30, 0, b'p'),
    (b'p', 30, 1, b'p'),
    (b'p', 30, 3, b'p'),
    (b'p', 38, 3, b'p'),
    (b'p', 38, 11, b'.'),
    (b'p', 38, 15, b'p'),
    (b'p', 38, 19, b'p'),
    (b'p', 40, 1, b'p'),
    (b'e', 6, 5, b'e'),
    (b'e', 8, 0, b'.'),
    (b'M', 0, 0, b'.'),
    (b'M', 0, 3, b'.'),
    (b'M', 1, 5, b'M'),
    (b'M', 1, 7, b'M'),
    (b'M', 4, 255, b'M'),
];

/// A file on the nodes 1 to 4, a write with stamp 2, a loss of node 4 with fence 3, and the publish.
const BEHIND_A_LOSS: &[u8] = b"mcbBep";

const LOSSES: [Rule; 4] = [
    (b'e', 6, 3, b'p'),
    (b'p', 38, 11, b'p'),
    (b'p', 38, 13, b'p'),
    (b'p', 38, 7, b'.'),
];

/// The loss 1 of a node, where a loss is enrolled.
const TWO_LOSSES: &[u8] = b"CR4e";

const OLD_LOSSES: [Rule; 4] = [
    (b'4', 8, 0, b'.'),
    (b'4', 8, 2, b'e'),
    (b'e', 8, 0, b'e'),
    (b'e', 6, 3, b'.'),
];

#[test]
fn parts_keep_their_rules(rt: HostRuntime) -> Result<(), Fail> {
    keep(&rt, PART_LETTERS, &COUNTERS);
    keep(&rt, PART_LETTERS, &OBJECTS);
    keep(&rt, PART_LETTERS, &NAMES);
    keep(&rt, PART_LETTERS, &BLOCKS);
    keep(&rt, PART_LETTERS, &ENROLMENTS);
    Ok(())
}

#[test]
fn calls_are_accepted(rt: HostRuntime) -> Result<(), Fail> {
    keep(&rt, CALL_LETTERS, &TREE_CALLS);
    keep(&rt, CALL_LETTERS, &OTHER_CALLS);
    keep(&rt, BEHIND_A_LOSS, &LOSSES);
    keep(&rt, TWO_LOSSES, &OLD_LOSSES);
    Ok(())
}
