//! Numbers, texts and keys.

ghost use Rattle.std.specs.Prelude.{◌≡◌, ◌++◌, OnOk};
ghost use Rattle.byteorder.specs.Endian.{little_bytes};
ghost use Rattle.rz_journal_text.specs.Spelling.{text_bytes, key_bytes, IsShort};

use rz_events::{Key, Text};
use std::alloc::AllocError;

/// Adds a text behind its length.
pub fn write_text(text: &Text, out: &mut Vec<u8>) -> Result<(), AllocError>
    requires { IsShort text.now }
    ensures { OnOk result (out.new.items ≡ out.old.items ++ text_bytes text.now) }
{
    write_u16(text.bytes().len() as u16, out)?;
    out.extend_from_slice(text.bytes())
}

/// Adds the file and the number of a block.
pub fn write_key(key: Key, out: &mut Vec<u8>) -> Result<(), AllocError>
    ensures { OnOk result (out.new.items ≡ out.old.items ++ key_bytes key) }
{
    write_u128(key.fid, out)?;
    write_u64(key.block, out)
}

/// Adds a number of 2 bytes.
pub fn write_u16(number: u16, out: &mut Vec<u8>) -> Result<(), AllocError>
    ensures { OnOk result (out.new.items ≡ out.old.items ++ little_bytes 2 number) }
{
    out.extend_from_slice(number.to_le_bytes().as_slice())
}

/// Adds a number of 4 bytes.
pub fn write_u32(number: u32, out: &mut Vec<u8>) -> Result<(), AllocError>
    ensures { OnOk result (out.new.items ≡ out.old.items ++ little_bytes 4 number) }
{
    out.extend_from_slice(number.to_le_bytes().as_slice())
}

/// Adds a number of 8 bytes.
pub fn write_u64(number: u64, out: &mut Vec<u8>) -> Result<(), AllocError>
    ensures { OnOk result (out.new.items ≡ out.old.items ++ little_bytes 8 number) }
{
    out.extend_from_slice(number.to_le_bytes().as_slice())
}

/// Adds a number of 16 bytes.
pub fn write_u128(number: u128, out: &mut Vec<u8>) -> Result<(), AllocError>
    ensures { OnOk result (out.new.items ≡ out.old.items ++ little_bytes 16 number) }
{
    out.extend_from_slice(number.to_le_bytes().as_slice())
}
