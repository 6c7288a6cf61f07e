//! Reading.
ghost use Rattle.std.specs.Prelude.{◌≡◌, ◌≤◌, List, ℕ, Ok, length, take, drop, IfOk, IfErr, OnErr};
ghost use Rattle.mj_angles.specs.Layout.{max_bins_of};
ghost use Rattle.rz_events.specs.declared.records.Head.{Head};
ghost use Rattle.rz_record.specs.Record.{IsHead, IsRecord, bins_of};
ghost use Rattle.rz_record.specs.Refused.{HeadRefused, RecordRefused};

use crate::fields::{u32_at, u64_at, u128_at};
use crate::{Field, HEAD_BYTES, RecordFault};
use byteorder::{ByteOrder, LittleEndian};
use rz_events::{Head, Key, Layout};

/// The head that the bytes begin with.
pub fn head_of(bytes: &[u8]) -> Result<Head, RecordFault>
    ensures ok { IfOk result (IsHead bytes.now) }
    ensures err { IfErr result (HeadRefused bytes.now) }

    // No bytes begin with two heads, and each head is read.
    ensures exact { (h : Head) → IsHead bytes.now h → result ≡ Ok h }
{
    if bytes.len() < HEAD_BYTES {
        return Err(RecordFault::Short {
            have: bytes.len(),
            need: HEAD_BYTES,
        });
    }
    let stamp = u64_at(bytes, 0);
    if stamp == 0 {
        return Err(RecordFault::Empty);
    }
    let number = bytes[32];
    if number > 2 {
        return Err(bad(Field::Layout, number.into()));
    }
    let bsize = bytes[33];
    let Some(layout) = Layout::of(number, bsize) else {
        return Err(bad(Field::Bsize, bsize.into()));
    };
    let position = bytes[34];
    if usize::from(position) >= layout.safe() {
        return Err(bad(Field::Position, position.into()));
    }
    let reserved = bytes[35];
    if reserved != 0 {
        return Err(bad(Field::Reserved, reserved.into()));
    }
    let length = u32_at(bytes, 36);
    if length as usize > layout.block_bytes() {
        return Err(bad(Field::Length, length.into()));
    }
    let base = u64_at(bytes, 40);
    if base >= stamp {
        return Err(bad(Field::Base, base));
    }
    Ok(Head {
        stamp,
        key: Key {
            fid: u128_at(bytes, 8),
            block: u64_at(bytes, 24),
        },
        layout,
        bsize,
        position,
        length,
        base,
    })
}

fn bad(field: Field, value: u64) -> RecordFault
    ensures { result ≡ RecordFault.BadField field value }
{
    RecordFault::BadField { field, value }
}

/// The record that the bytes begin with: its head, and its bins in the front of `bins`. The other
/// bins stay.
pub fn decode_into(bytes: &[u8], bins: &mut [u64]) -> Result<Head, RecordFault>
    requires room { (h : Head) → IsHead bytes.now h → max_bins_of h.layout ≤ length bins.old }
    ensures ok { IfOk result (λ h. IsRecord bytes.now h (take (bins_of h) bins.new)) }
    ensures rest { IfOk result (λ h. drop (bins_of h) bins.new ≡ drop (bins_of h) bins.old) }
    ensures err { IfErr result (RecordRefused bytes.now) }
    ensures same { OnErr result (bins.new ≡ bins.old) }

    // No bytes begin with two records, and each record is read.
    ensures exact { (h : Head) (b : List ℕ) → IsRecord bytes.now h b → (result ≡ Ok h) × (take (bins_of h) bins.new ≡ b) }
{
    let head = head_of(bytes)?;
    let count = head.layout.bins_at(head.position);
    let need = HEAD_BYTES + 8 * count;
    if bytes.len() < need {
        return Err(RecordFault::Short {
            have: bytes.len(),
            need,
        });
    }
    LittleEndian::read_u64_into(&bytes[HEAD_BYTES..need], &mut bins[..count]);
    Ok(head)
}
