//! Whole journals: which entries may stand behind which.

use crate::letters::{CALL_LETTERS, PART_LETTERS, damaged, disk_of};
use std::process::Abort;
use std::test::Fail;

/// Journals that open.
const OPEN: [&[u8]; 18] = [
    b"",
    CALL_LETTERS,
    PART_LETTERS,
    b"CR",
    b"CRDd",
    b"CRFh",
    b"CRFLhl",
    b"CRFDdf",
    b"CRFh0",
    b"CRFh1",
    b"CRFh01",
    b"CR2",
    b"CR24",
    b"CRFh024",
    b"m",
    b"CRm",
    b"CRFhm",
    b"CR2e",
];

/// Journals that do not, and the place of the entry that is told.
const DAMAGED: [(&[u8], u64); 34] = [
    // no counters first, or counters again
    (b"R", 0),
    (b"D", 0),
    (b"d", 0),
    (b"0", 0),
    (b"2", 0),
    (b"RC", 0),
    (b"CC", 1),
    (b"CRC", 2),
    // no root first, or the root again
    (b"C", 1),
    (b"CF", 1),
    (b"Ch", 1),
    (b"C0", 1),
    (b"C2", 1),
    (b"CRR", 2),
    (b"CRDdR", 4),
    // an object without a name
    (b"CRD", 3),
    (b"CRFLh", 5),
    (b"CRFLl", 5),
    // names, blocks and enrolments of what is not there
    (b"CRd", 2),
    (b"CRFhl", 4),
    (b"CRFf", 3),
    (b"CR0", 2),
    // one kind in the midst of another, or out of order
    (b"CRDFdh", 3),
    (b"CRDdF", 4),
    (b"CRDdd", 4),
    (b"CRF0h", 4),
    (b"CRFh10", 5),
    (b"CR42", 3),
    (b"CR2D", 3),
    // a part behind a call, and a call before the parts are all there
    (b"mC", 1),
    (b"CRmD", 3),
    (b"Cm", 1),
    (b"CRDm", 3),
    // a call again
    (b"mm", 1),
];

/// The number of the entry that is damaged in a journal of these letters, or none where it opens.
fn damaged_in(rt: &(impl Abort + AllocGlobal), letters: &[u8]) -> Option<u64> {
    let (disk, found) = damaged(rt, disk_of(rt, letters));
    drop(disk);
    found
}

#[test]
fn these_open(rt: HostRuntime) -> Result<(), Fail> {
    for letters in OPEN {
        let found = damaged_in(&rt, letters);
        assert!(rt; found.is_none(), "journal {letters:?}");
    }
    Ok(())
}

#[test]
fn these_are_damaged(rt: HostRuntime) -> Result<(), Fail> {
    for (letters, place) in DAMAGED {
        let found = damaged_in(&rt, letters);
        assert!(rt; found == Some(place), "journal {letters:?}");
    }
    Ok(())
}
