//! Writing.
ghost use Rattle.std.specs.Prelude.{◌≡◌, ◌≤◌, ◌<◌, ◌++◌, ℕ, List, length, slice_index};
ghost use Rattle.rz_record.specs.Record.{IsValid, IsHead, IsRecord, bins_of, record_bytes};

use crate::HEAD_BYTES;
use crate::fields::{put_u32, put_u64, put_u128};
use byteorder::{ByteOrder, LittleEndian};
use rz_events::Head;

/// Writes the record of a head and bins. Whatever follows its bytes, they are read as this record.
pub fn encode_into(head: &Head, bins: &[u64], out: &mut [u8])
    requires valid { IsValid head.now }
    requires bins { length bins.now ≡ bins_of head.now }
    requires room { length out.old ≡ record_bytes head.now }
    ensures record { IsRecord out.new head.now bins.now }
    ensures front { (more : List ℕ) → IsRecord (out.new ++ more) head.now bins.now }

    // There is no other spelling.
    ensures one_spelling { (other : List ℕ) → ((i : ℕ) → slice_index other i < 256) → length other ≡ record_bytes head.now → IsRecord other head.now bins.now → other ≡ out.new }
{
    encode_head(head, out);
    LittleEndian::write_u64_into(bins, &mut out[HEAD_BYTES..]);
}

fn encode_head(head: &Head, out: &mut [u8])
    requires valid { IsValid head.now }
    requires room { 48 ≤ length out.old }
    ensures { IsHead out.new head.now }
{
    put_u64(out, 0, head.stamp);
    put_u128(out, 8, head.key.fid);
    put_u64(out, 24, head.key.block);
    out[32] = head.layout.number();
    out[33] = head.bsize;
    out[34] = head.position;
    out[35] = 0;
    put_u32(out, 36, head.length);
    put_u64(out, 40, head.base);
}
