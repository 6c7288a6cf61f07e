//! Entries beside their bytes, worked out by hand.
ghost use Rattle.rz_journal_text.specs.Spelling.{MayStand};

use rz_events::{Key, Text, TreeCall};
use rz_journal_text::{EntryFault, JournalEntry, read, write};
use std::alloc::Global;
use std::process::Abort;
use std::test::Fail;

// The bytes that are written of an entry, which goes then.
fn written(rt: &(impl Abort + AllocGlobal), entry: JournalEntry) -> Vec<u8>
    requires { MayStand entry }
{
    let mut bytes = Vec::new(rt.alloc());
    let written = write(rt.alloc(), &entry, &mut bytes);
    drop(entry);
    written.expect(rt, "memory");
    bytes
}

// Compares the bytes of an entry.
fn is_written(rt: &(impl Abort + AllocGlobal), entry: JournalEntry, wanted: &[u8])
    requires { MayStand entry }
{
    let bytes = written(rt, entry);
    let is_right = bytes.as_slice() == wanted;
    drop(bytes);
    assert!(rt; is_right, "{wanted:?}");
}

#[test]
fn a_rename(rt: HostRuntime) -> Result<(), Fail> {
    let path = Text::from_bytes(rt.alloc(), b"/a").expect(&rt, "memory");
    let to = Text::from_bytes(rt.alloc(), b"/bc").expect(&rt, "memory");
    let entry = JournalEntry::Tree(TreeCall::Rename { path, to });
    is_written(&rt, entry, b"\x01\x0a\x02\x00/a\x03\x00/bc");
    Ok(())
}

#[test]
fn a_publish(rt: HostRuntime) -> Result<(), Fail> {
    let entry = JournalEntry::Publish {
        key: Key { fid: 258, block: 3 },
        stamp: 4,
        mask: 0b101,
        bytes: 513,
    };
    is_written(
        &rt,
        entry,
        b"\x03\x02\x01\0\0\0\0\0\0\0\0\0\0\0\0\0\0\x03\0\0\0\0\0\0\0\x04\0\0\0\0\0\0\0\x05\0\x01\x02\0\0",
    );
    Ok(())
}

// One entry of each kind, with both forms of a published block.
const ENTRIES: [&[u8]; 11] = [
    // `symlink`, with the target `t` and the path `/l`
    b"\x01\x0c\x01\0t\x02\0/l",
    // a begin of 7 bytes in block 3 of file 2
    b"\x02\x02\0\0\0\0\0\0\0\0\0\0\0\0\0\0\0\x03\0\0\0\0\0\0\0\x07\0\0\0",
    // a publish in block 0 of file 2: stamp 8, mask 7, 6 bytes
    b"\x03\x02\0\0\0\0\0\0\0\0\0\0\0\0\0\0\0\0\0\0\0\0\0\0\0\x08\0\0\0\0\0\0\0\x07\0\x06\0\0\0",
    // the loss 2 of node 7
    b"\x04\x07\0\x02\0\0\0\0\0\0\0",
    // the last number drawn is 9, and the last object made 4
    b"\x05\x09\0\0\0\0\0\0\0\x04\0\0\0\0\0\0\0\0\0\0\0\0\0\0\0",
    // file 2: mode 420, time 5, size 6, cluster 1, on the nodes 3 and 260
    b"\x06\x02\0\0\0\0\0\0\0\0\0\0\0\0\0\0\0\0\xa4\x01\x05\0\0\0\0\0\0\0\x06\0\0\0\0\0\0\0\x01\0\x02\x03\0\x04\x01\0\0",
    // link 3: mode 511, time 5, size 1, to `t`
    b"\x06\x03\0\0\0\0\0\0\0\0\0\0\0\0\0\0\0\x02\xff\x01\x05\0\0\0\0\0\0\0\x01\0\0\0\0\0\0\0\0\0\0\x01\0t",
    // the name `/a/b` of object 2
    b"\x07\x04\0\0\0/a/b\x02\0\0\0\0\0\0\0\0\0\0\0\0\0\0\0",
    // block 1 of file 2: begun with 9, nothing published
    b"\x08\x02\0\0\0\0\0\0\0\0\0\0\0\0\0\0\0\x01\0\0\0\0\0\0\0\x09\0\0\0\0\0\0\0\0",
    // and with stamp 8, mask 7 and 6 bytes published
    b"\x08\x02\0\0\0\0\0\0\0\0\0\0\0\0\0\0\0\x01\0\0\0\0\0\0\0\x09\0\0\0\0\0\0\0\x01\x08\0\0\0\0\0\0\0\x07\0\x06\0\0\0",
    // the loss 1 of node 3, with fence 5
    b"\x09\x03\0\x01\0\0\0\0\0\0\0\x05\0\0\0\0\0\0\0",
];

#[test]
fn each_kind_is_read_and_written_again(rt: HostRuntime) -> Result<(), Fail> {
    for bytes in ENTRIES {
        let entry = read(rt.alloc(), bytes).expect(&rt, "an entry");
        is_written(&rt, entry, bytes);
    }
    Ok(())
}

// Bytes of no entry.
const DAMAGED: [&[u8]; 11] = [
    // nothing, no kind, and a kind past the last
    b"",
    b"\0",
    b"\x0a",
    // a call past the last, a text that is cut off, and bytes behind a call
    b"\x01\x0d\x01\0/",
    b"\x01\x03\x03\0/a",
    b"\x01\x03\x02\0/a\0",
    // an enrolment that is cut off
    b"\x04\x07\0\x02\0\0\0\0\0\0",
    // an object of no kind
    b"\x06\x03\0\0\0\0\0\0\0\0\0\0\0\0\0\0\0\x03\xff\x01\x05\0\0\0\0\0\0\0\x01\0\0\0\0\0\0\0\0\0\0\x01\0t",
    // names without a slash before them, and with one behind them
    b"\x07\x02\0\0\0ab\x02\0\0\0\0\0\0\0\0\0\0\0\0\0\0\0",
    b"\x07\x02\0\0\0a/\x02\0\0\0\0\0\0\0\0\0\0\0\0\0\0\0",
    // neither nothing nor something published
    b"\x08\x02\0\0\0\0\0\0\0\0\0\0\0\0\0\0\0\x01\0\0\0\0\0\0\0\x09\0\0\0\0\0\0\0\x02",
];

// Whether bytes are refused as those of no entry.
fn is_bad(alloc: Global, bytes: &[u8]) -> bool {
    match read(alloc, bytes) {
        Ok(entry) => {
            drop(entry);
            false
        }
        Err(fault) => matches!(fault, EntryFault::BadEntry),
    }
}

#[test]
fn damaged_entries_are_refused(rt: HostRuntime) -> Result<(), Fail> {
    for bytes in DAMAGED {
        let is_bad = is_bad(rt.alloc(), bytes);
        assert!(rt; is_bad, "{bytes:?}");
    }
    Ok(())
}
