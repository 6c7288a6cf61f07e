//! A journal with an entry of each kind, written out by hand: the calls, and the parts that take their
//! place. Each entry stands behind its gate and its length in four bytes.

/// The front of a formatted disk whose first half counts.
pub const HEADER: &[u8] =
    b"MJROZJ01\0\0\0\0\0\0\0\0\0\0\0\0\0\0\0\0\0\0\0\0\0\0\0\0\x01\0\0\0\0\0\0\0\0\0\0\0\0\0\0\0\0\0\0\0\0\0\0\0\0\0\0\0\0\0\0\0";

/// The size of a disk.
pub const SIZE: u64 = 16_777_216;

/// Where the halves begin.
pub const FIRST_HALF: u64 = 64;

pub const SECOND_HALF: u64 = 8_388_640;

/// The byte that picks the half.
pub const HALF_GATE: u64 = 33;

/// Calls that a new store accepts one after the other. They take 254 bytes.
pub const CALLS: [&[u8]; 13] = [
    // the directory `/a`, which is object 1
    b"\x01\x06\0\0\0\x01\x03\x02\0/a",
    // the file `/a/f`, which is object 2
    b"\x01\x08\0\0\0\x01\x04\x04\0/a/f",
    // a write of 5 bytes begins in block 0 of object 2, with stamp 1
    b"\x01\x1d\0\0\0\x02\x02\0\0\0\0\0\0\0\0\0\0\0\0\0\0\0\0\0\0\0\0\0\0\0\x05\0\0\0",
    // and one of 4096 bytes in block 1, with stamp 2
    b"\x01\x1d\0\0\0\x02\x02\0\0\0\0\0\0\0\0\0\0\0\0\0\0\0\x01\0\0\0\0\0\0\0\0\x10\0\0",
    // the second is published at the positions 0, 1 and 2
    b"\x01\x27\0\0\0\x03\x02\0\0\0\0\0\0\0\0\0\0\0\0\0\0\0\x01\0\0\0\0\0\0\0\x02\0\0\0\0\0\0\0\x07\0\0\x10\0\0",
    // the loss 1 of node 4, with fence 3
    b"\x01\x0b\0\0\0\x04\x04\0\x01\0\0\0\0\0\0\0",
    // `/g`, one more name of object 2
    b"\x01\x0c\0\0\0\x01\x0b\x04\0/a/f\x02\0/g",
    // its mode 0o600 and its time 258
    b"\x01\x10\0\0\0\x01\x09\x02\0/g\x80\x01\x02\x01\0\0\0\0\0\0",
    // the link `/l` to `t`, which is object 3
    b"\x01\x09\0\0\0\x01\x0c\x01\0t\x02\0/l",
    // the other name of object 2 becomes `/h`
    b"\x01\x0c\0\0\0\x01\x0a\x04\0/a/f\x02\0/h",
    // the name `/g` goes
    b"\x01\x06\0\0\0\x01\x05\x02\0/g",
    // the directory `/a` goes
    b"\x01\x06\0\0\0\x01\x02\x02\0/a",
    // the directory `/d`, which is object 4
    b"\x01\x06\0\0\0\x01\x03\x02\0/d",
];

/// The parts behind these calls and 15,827 directories that were made and taken away. They take 423 bytes.
pub const PARTS: [&[u8]; 11] = [
    // the last number drawn is 3, and object 15831 was made last
    b"\x01\x19\0\0\0\x05\x03\0\0\0\0\0\0\0\xd7\x3d\0\0\0\0\0\0\0\0\0\0\0\0\0\0",
    // the root: mode 0o755
    b"\x01\x29\0\0\0\x06\0\0\0\0\0\0\0\0\0\0\0\0\0\0\0\0\x01\xed\x01\0\0\0\0\0\0\0\0\0\0\0\0\0\0\0\0\0\0\0\0\0",
    // file 2: mode 0o600, time 258, size 8192, cluster 1, on the nodes 1 to 4
    b"\x01\x31\0\0\0\x06\x02\0\0\0\0\0\0\0\0\0\0\0\0\0\0\0\0\x80\x01\x02\x01\0\0\0\0\0\0\0\x20\0\0\0\0\0\0\x01\0\x04\x01\0\x02\0\x03\0\x04\0\0\0",
    // link 3: mode 0o777, size 1, to `t`
    b"\x01\x2a\0\0\0\x06\x03\0\0\0\0\0\0\0\0\0\0\0\0\0\0\0\x02\xff\x01\0\0\0\0\0\0\0\0\x01\0\0\0\0\0\0\0\0\0\0\x01\0t",
    // directory 4: mode 0o755
    b"\x01\x29\0\0\0\x06\x04\0\0\0\0\0\0\0\0\0\0\0\0\0\0\0\x01\xed\x01\0\0\0\0\0\0\0\0\0\0\0\0\0\0\0\0\0\0\0\0\0",
    // the names of the objects 4, 2 and 3
    b"\x01\x17\0\0\0\x07\x02\0\0\0/d\x04\0\0\0\0\0\0\0\0\0\0\0\0\0\0\0",
    b"\x01\x17\0\0\0\x07\x02\0\0\0/h\x02\0\0\0\0\0\0\0\0\0\0\0\0\0\0\0",
    b"\x01\x17\0\0\0\x07\x02\0\0\0/l\x03\0\0\0\0\0\0\0\0\0\0\0\0\0\0\0",
    // block 0 of file 2: begun with stamp 1, nothing published
    b"\x01\x22\0\0\0\x08\x02\0\0\0\0\0\0\0\0\0\0\0\0\0\0\0\0\0\0\0\0\0\0\0\x01\0\0\0\0\0\0\0\0",
    // block 1: begun with stamp 2, which is published with mask 7 and 4096 bytes
    b"\x01\x30\0\0\0\x08\x02\0\0\0\0\0\0\0\0\0\0\0\0\0\0\0\x01\0\0\0\0\0\0\0\x02\0\0\0\0\0\0\0\x01\x02\0\0\0\0\0\0\0\x07\0\0\x10\0\0",
    // the loss 1 of node 4, with fence 3
    b"\x01\x13\0\0\0\x09\x04\0\x01\0\0\0\0\0\0\0\x03\0\0\0\0\0\0\0",
];
