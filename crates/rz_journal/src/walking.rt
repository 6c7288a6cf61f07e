//! The entries of a half, one by one.

ghost use Rattle.std.specs.Prelude.{◌<◌, length};
ghost use Rattle.rz_journal.specs.Walk.{IsEntryPlace};

use byteorder::{ByteOrder, LittleEndian};

/// What stands at an address of a half.
#[derive(Clone, Copy, Drop)]
pub enum EntryPlace {
    /// A shut gate: the entries before it are all.
    End,
    /// An open gate, and an entry of so many bytes five bytes behind it.
    Entry { count: usize },
    /// An open gate, whose entry leaves no room for the gate behind it.
    NoRoom,
}

/// What stands at an address of a half.
pub fn place_at(half: &[u8], at: usize) -> EntryPlace
    requires { at < length half.now }
    ensures { IsEntryPlace half.now at result }
{
    if half[at] % 2 == 0 {
        return EntryPlace::End;
    }
    let behind = half.len() - at;
    if behind <= 5 {
        return EntryPlace::NoRoom;
    }
    let count = LittleEndian::read_u32(&half[at + 1..]) as usize;
    if behind - 5 <= count {
        return EntryPlace::NoRoom;
    }
    EntryPlace::Entry { count }
}
