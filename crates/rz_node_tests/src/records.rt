//! The record of a small file's first write, and each refusal.
ghost use Rattle.std.specs.Prelude.{◌≡◌, IfOk, vec_len};

use rz_events::{Key, Layout};
use rz_record::{Field, Head, RecordFault, decode_into, encode_into, head_of};
use std::alloc::{AllocError, Global};
use std::process::Abort;
use std::test::Fail;

const FIRST: Head = Head {
    stamp: 1,
    key: Key { fid: 1, block: 0 },
    layout: Layout::L0,
    bsize: 0,
    position: 0,
    length: 5,
    base: 0,
};

fn zeros(alloc: Global, size: usize) -> Result<Vec<u8>, AllocError>
    ensures { IfOk result (λ v. vec_len v ≡ size) }
{
    vec![in alloc; 0u8; size]
}

fn words(alloc: Global, size: usize, word: u64) -> Result<Vec<u64>, AllocError>
    ensures { IfOk result (λ v. vec_len v ≡ size) }
{
    vec![in alloc; word; size]
}

fn alter(bytes: &mut Vec<u8>, at: usize, byte: u8) {
    if at < bytes.len() {
        bytes[at] = byte;
    }
}

fn front(bytes: &[u8], size: usize) -> &[u8] {
    &bytes[..size.min(bytes.len())]
}

/// The first write's record at position 0.
#[tactic(auto, unfolding(rz_record::specs::Record::bins_of))]
fn spelled(alloc: Global) -> Result<Vec<u8>, AllocError> {
    let mut bins = words(alloc, 258, 0)?;
    bins[2] = u64::from_le_bytes(*b"hello\0\0\0");
    let mut out = zeros(alloc, 2112)?;
    encode_into(&FIRST, &bins, &mut out);
    Ok(out)
}

#[test]
fn writes_the_first_record(rt: HostRuntime) -> Result<(), Fail> {
    let out = spelled(rt.alloc()).expect(&rt, "memory");
    let mut want = zeros(rt.alloc(), 2112).expect(&rt, "memory");
    alter(&mut want, 0, 1);
    alter(&mut want, 8, 1);
    alter(&mut want, 36, 5);
    for (i, byte) in b"hello".iter().enumerate() {
        alter(&mut want, 64 + i, *byte);
    }
    let is_right = out == want;
    drop(want);
    drop(out);
    assert!(rt; is_right);
    Ok(())
}

fn bad(field: Field, value: u64) -> RecordFault {
    RecordFault::BadField { field, value }
}

/// Bytes with which a field is wrong, and the fault of each: it is found before those above it.
fn wrong_fields() -> [(usize, u8, RecordFault); 7] {
    [
        (40, 1, bad(Field::Base, 1)),
        (37, 16, bad(Field::Length, 4101)),
        (35, 1, bad(Field::Reserved, 1)),
        (34, 4, bad(Field::Position, 4)),
        (33, 4, bad(Field::Bsize, 4)),
        (32, 3, bad(Field::Layout, 3)),
        (0, 0, RecordFault::Empty),
    ]
}

/// What is wrong with the head of these bytes.
fn fault_of(bytes: &[u8]) -> Option<RecordFault> {
    head_of(bytes).err()
}

#[test]
fn refuses_in_order(rt: HostRuntime) -> Result<(), Fail> {
    let mut all = spelled(rt.alloc()).expect(&rt, "memory");
    let good = fault_of(&all);
    assert!(rt; good.is_none());
    for (at, byte, fault) in wrong_fields() {
        alter(&mut all, at, byte);
        let found = fault_of(&all);
        assert!(rt; found == Some(fault), "before later ones, at {at}");
    }
    let found = fault_of(front(&all, 47));
    drop(all);
    assert!(rt; found == Some(RecordFault::Short { have: 47, need: 48 }));
    Ok(())
}

/// Reads a record into more words than it has, all of them 7, and gives some of them.
#[tactic(auto, using(rz_record::proofs::Codec::few_bins))]
fn read(rt: &(impl Abort + AllocGlobal), bytes: &[u8]) -> (Result<Head, RecordFault>, [u64; 4]) {
    let mut bins = words(rt.alloc(), 2050, 7).expect(rt, "memory");
    let head = decode_into(bytes, &mut bins);
    let some = [bins[1], bins[2], bins[257], bins[258]];
    drop(bins);
    (head, some)
}

#[test]
fn reads_it_again(rt: HostRuntime) -> Result<(), Fail> {
    let out = spelled(rt.alloc()).expect(&rt, "memory");
    let whole = read(&rt, &out);
    let short = read(&rt, front(&out, 2111));
    drop(out);
    assert!(rt; whole == (Ok(FIRST), [0, 0x6f_6c6c_6568, 0, 7]));
    let fault = RecordFault::Short {
        have: 2111,
        need: 2112,
    };
    assert!(rt; short == (Err(fault), [7; 4]));
    Ok(())
}
