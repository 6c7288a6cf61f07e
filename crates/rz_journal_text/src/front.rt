//! Numbers and texts at the front of bytes.

ghost use Rattle.std.specs.Prelude.{◌≡◌, ◌↔◌, [], length, IfOk, IsTrue};
ghost use Rattle.rz_journal_text.specs.Fronts.{Gives, GivesBytes, first, byte, number, text, key};

use crate::EntryFault;
use byteorder::{ByteOrder, LittleEndian};
use rz_events::{Key, Text};
use std::alloc::Global;
use std::marker::Model;

/// Bytes that are still to be read.
#[derive(Drop)]
pub struct Front<'a> {
    rest: &'a [u8],
}

impl<'a> Model for Front<'a> {
    ghost use Rattle.std.specs.Prelude.{List, ℕ};

    ghost Value = { List ℕ };

    ghost view = { λ f. f.rest.now };
}

impl<'a> Front<'a> {
    /// All bytes.
    pub fn of(bytes: &'a [u8]) -> Front<'a>
        ensures { result ≡ bytes.now }
    {
        Front { rest: bytes }
    }

    /// The next byte.
    #[tactic(auto, unfolding(crate::specs::Fronts::byte))]
    pub fn byte(&mut self) -> Result<u8, EntryFault>
        ensures { Gives result self.new (byte self.old) }
    {
        match self.rest {
            [] => Err(EntryFault::BadEntry),
            [byte, rest @ ..] => {
                self.rest = rest;
                Ok(*byte)
            }
        }
    }

    /// So many bytes.
    #[tactic(auto, unfolding(crate::specs::Fronts::first))]
    pub fn first(&mut self, count: usize) -> Result<&'a [u8], EntryFault>
        ensures found { GivesBytes result self.new (first count self.old) }
        ensures count { IfOk result (λ bytes. length bytes.now ≡ count) }
    {
        if self.rest.len() < count {
            return Err(EntryFault::BadEntry);
        }
        let (front, rest) = self.rest.split_at(count);
        self.rest = rest;
        Ok(front)
    }

    /// A number of 2 bytes.
    #[tactic(auto, unfolding(crate::specs::Fronts::number))]
    pub fn u16(&mut self) -> Result<u16, EntryFault>
        ensures { Gives result self.new (number 2 self.old) }
    {
        Ok(LittleEndian::read_u16(self.first(2)?))
    }

    /// A number of 4 bytes.
    #[tactic(auto, unfolding(crate::specs::Fronts::number))]
    pub fn u32(&mut self) -> Result<u32, EntryFault>
        ensures { Gives result self.new (number 4 self.old) }
    {
        Ok(LittleEndian::read_u32(self.first(4)?))
    }

    /// A number of 8 bytes.
    #[tactic(auto, unfolding(crate::specs::Fronts::number))]
    pub fn u64(&mut self) -> Result<u64, EntryFault>
        ensures { Gives result self.new (number 8 self.old) }
    {
        Ok(LittleEndian::read_u64(self.first(8)?))
    }

    /// A number of 16 bytes.
    #[tactic(auto, unfolding(crate::specs::Fronts::number))]
    pub fn u128(&mut self) -> Result<u128, EntryFault>
        ensures { Gives result self.new (number 16 self.old) }
    {
        Ok(LittleEndian::read_u128(self.first(16)?))
    }

    /// A text behind its length.
    #[tactic(auto, unfolding(crate::specs::Fronts::text))]
    pub fn text(&mut self, alloc: Global) -> Result<Text, EntryFault>
        ensures { Gives result self.new (text self.old) }
    {
        let count = self.u16()?;
        Ok(Text::from_bytes(alloc, self.first(count.into())?)?)
    }

    /// The file and the number of a block.
    #[tactic(auto, unfolding(crate::specs::Fronts::key))]
    pub fn key(&mut self) -> Result<Key, EntryFault>
        ensures { Gives result self.new (key self.old) }
    {
        let fid = self.u128()?;
        let block = self.u64()?;
        Ok(Key { fid, block })
    }

    /// Whether nothing is left.
    pub fn is_empty(&self) -> bool
        ensures { IsTrue result ↔ (self.now ≡ []) }
    {
        self.rest.is_empty()
    }
}
