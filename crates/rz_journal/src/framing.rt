//! Entries as they stand on the disk, in memory.

ghost use Rattle.std.specs.Prelude.{◌≡◌, ◌++◌, ◌∷◌, [], ◌<◌, ◌^◌, length, OnOk};
ghost use Rattle.byteorder.specs.Endian.{little_bytes};
ghost use Rattle.rz_journal.specs.Row.{framed};

use std::alloc::AllocError;

/// Adds an entry behind an open gate and its length.
pub fn push_entry(entry: &[u8], row: &mut Vec<u8>) -> Result<(), AllocError>
    requires { length entry.now < 2 ^ 32 }
    ensures { OnOk result (row.new.items ≡ row.old.items ++ framed entry.now) }
{
    row.push(1)?;
    row.extend_from_slice((entry.len() as u32).to_le_bytes().as_slice())?;
    row.extend_from_slice(entry)
}

/// Adds the shut gate behind the last entry.
pub fn close_row(row: &mut Vec<u8>) -> Result<(), AllocError>
    ensures { OnOk result (row.new.items ≡ row.old.items ++ 0 ∷ []) }
{
    row.push(0)?;
    Ok(())
}
