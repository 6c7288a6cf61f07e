//! Numbers at their places in bytes.
ghost use Rattle.std.specs.Prelude.{◌≡◌, ◌+◌, ◌≤◌, length, take, drop};
ghost use Rattle.rz_record.specs.Fields.{number_at};

use byteorder::{ByteOrder, LittleEndian};

/// The number in 2 bytes.
#[tactic(auto, unfolding(crate::specs::Fields::number_at))]
pub fn u16_at(bytes: &[u8], at: usize) -> u16
    requires { at + 2 ≤ length bytes.now }
    ensures { result ≡ number_at at 2 bytes.now }
{
    LittleEndian::read_u16(&bytes[at..])
}

/// The number in 4 bytes.
#[tactic(auto, unfolding(crate::specs::Fields::number_at))]
pub fn u32_at(bytes: &[u8], at: usize) -> u32
    requires { at + 4 ≤ length bytes.now }
    ensures { result ≡ number_at at 4 bytes.now }
{
    LittleEndian::read_u32(&bytes[at..])
}

/// The number in 8 bytes.
#[tactic(auto, unfolding(crate::specs::Fields::number_at))]
pub fn u64_at(bytes: &[u8], at: usize) -> u64
    requires { at + 8 ≤ length bytes.now }
    ensures { result ≡ number_at at 8 bytes.now }
{
    LittleEndian::read_u64(&bytes[at..])
}

/// The number in 16 bytes.
#[tactic(auto, unfolding(crate::specs::Fields::number_at))]
pub fn u128_at(bytes: &[u8], at: usize) -> u128
    requires { at + 16 ≤ length bytes.now }
    ensures { result ≡ number_at at 16 bytes.now }
{
    LittleEndian::read_u128(&bytes[at..])
}

/// Writes 2 bytes. What stands before and behind them stays.
pub fn put_u16(bytes: &mut [u8], at: usize, value: u16)
    requires { at + 2 ≤ length bytes.old }
    ensures there { number_at at 2 bytes.new ≡ value }
    ensures front { take at bytes.new ≡ take at bytes.old }
    ensures behind { drop (at + 2) bytes.new ≡ drop (at + 2) bytes.old }
{
    LittleEndian::write_u16(&mut bytes[at..], value);
}

/// Writes 4 bytes. What stands before and behind them stays.
pub fn put_u32(bytes: &mut [u8], at: usize, value: u32)
    requires { at + 4 ≤ length bytes.old }
    ensures there { number_at at 4 bytes.new ≡ value }
    ensures front { take at bytes.new ≡ take at bytes.old }
    ensures behind { drop (at + 4) bytes.new ≡ drop (at + 4) bytes.old }
{
    LittleEndian::write_u32(&mut bytes[at..], value);
}

/// Writes 8 bytes. What stands before and behind them stays.
pub fn put_u64(bytes: &mut [u8], at: usize, value: u64)
    requires { at + 8 ≤ length bytes.old }
    ensures there { number_at at 8 bytes.new ≡ value }
    ensures front { take at bytes.new ≡ take at bytes.old }
    ensures behind { drop (at + 8) bytes.new ≡ drop (at + 8) bytes.old }
{
    LittleEndian::write_u64(&mut bytes[at..], value);
}

/// Writes 16 bytes. What stands before and behind them stays.
pub fn put_u128(bytes: &mut [u8], at: usize, value: u128)
    requires { at + 16 ≤ length bytes.old }
    ensures there { number_at at 16 bytes.new ≡ value }
    ensures front { take at bytes.new ≡ take at bytes.old }
    ensures behind { drop (at + 16) bytes.new ≡ drop (at + 16) bytes.old }
{
    LittleEndian::write_u128(&mut bytes[at..], value);
}
