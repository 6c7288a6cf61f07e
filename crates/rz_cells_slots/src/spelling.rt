//! Records spelled, and bins read.
ghost use Rattle.std.specs.Prelude.{◌≡◌, ◌+◌, ◌*◌, ◌≤◌, length, take, drop, IsTrue, OnOk, OnErr};
ghost use Rattle.byteorder.specs.Endian.{IsRead, little_number};
ghost use Rattle.rz_disk.specs.Images.{Within, window};
ghost use Rattle.rz_disk.specs.Meter.{Passes};
ghost use Rattle.rz_record.specs.Record.{IsRecord, IsValid, bins_of, record_bytes};

use byteorder::{ByteOrder, LittleEndian};
use rz_disk::{Disk, Failed};
use rz_record::{HEAD_BYTES, Head, encode_into};

/// Writes a record into the front of a buffer, and answers its size. What stands behind it stays.
pub fn spell(head: &Head, bins: &[u64], buffer: &mut Vec<u8>) -> usize
    requires valid { IsValid head.now }
    requires bins { length bins.now ≡ bins_of head.now }
    requires room { record_bytes head.now ≤ length buffer.old.items }
    ensures size { result ≡ record_bytes head.now }
    ensures record { IsRecord (take result buffer.new.items) head.now bins.now }
    ensures behind { drop result buffer.new.items ≡ drop result buffer.old.items }
    ensures length { length buffer.new.items ≡ length buffer.old.items }
{
    spell_into(head, bins, buffer)
}

fn spell_into(head: &Head, bins: &[u64], out: &mut [u8]) -> usize
    requires valid { IsValid head.now }
    requires bins { length bins.now ≡ bins_of head.now }
    requires room { record_bytes head.now ≤ length out.old }
    ensures size { result ≡ record_bytes head.now }
    ensures record { IsRecord (take result out.new) head.now bins.now }
    ensures behind { drop result out.new ≡ drop result out.old }
{
    let size = HEAD_BYTES + 8 * bins.len();
    encode_into(head, bins, &mut out[..size]);
    size
}

/// Reads so many bins from an address on.
pub fn read_bins<D: Disk>(
    disk: &mut D,
    at: u64,
    buffer: &mut Vec<u8>,
    out: &mut [u64],
) -> Result<(), Failed>
    requires range { at + 8 * length out.old ≤ length (D.text disk.old) }
    requires room { 8 * length out.old ≤ length buffer.old.items }
    ensures gives { OnOk result (IsTrue D.tells → IsRead little_number 8 (window at (8 * length out.old) (D.text disk.old)) out.new) }
    ensures err { OnErr result (out.new ≡ out.old) }
    ensures buffer { length buffer.new.items ≡ length buffer.old.items }
    ensures text { D.text disk.new ≡ D.text disk.old }
    ensures within { Within (D.image disk.old) (D.image disk.new) }
    ensures meter { Passes result (D.meter disk.old) (D.meter disk.new) }
{
    let bytes = &mut buffer[..8 * out.len()];
    disk.read(at, bytes)?;
    LittleEndian::read_u64_into(bytes, out);
    Ok(())
}
