//! An entry in few bytes.

ghost use Rattle.std.specs.Prelude.{◌≡◌, is_some};
ghost use Rattle.rz_events.specs.Keys.{key_cmp};
ghost use Rattle.rz_index.specs.Packing.{side};

use crate::index::Entry;
use rz_events::Key;
use rz_versions::{Version, Versions};
use std::cmp::Ordering;
use std::marker::Model;

/// So many numbers has one half of a file's number.
const HALF: u128 = 1 << 64;

/// An entry, and the height of the node on which it stands. In halves of the file's number and with
/// nothing between its fields, it takes 64 bytes.
#[derive(Drop)]
pub struct Packed {
    fid_high: u64,
    fid_low: u64,
    block: u64,
    zero_stamp: u64,
    zero_base: u64,
    one_stamp: u64,
    one_base: u64,
    cell: u32,
    has_zero: bool,
    has_one: bool,
    height: u8,
}

impl Model for Packed {
    ghost use Rattle.std.specs.Prelude.{◌+◌, ◌*◌, ◌^◌};
    ghost use Rattle.rz_index.specs.declared.index.Entry.{Entry};
    ghost use Rattle.rz_versions.specs.Sides.{Differ, version_stamp};
    ghost use Rattle.rz_index.specs.Packing.{side};

    ghost Value = { Entry };

    ghost view = { λ p. record {
      key = record { fid = p.fid_high * 2 ^ 64 + p.fid_low; block = p.block };
      cell = p.cell;
      versions = record { zero = side p.has_zero p.zero_stamp p.zero_base; one = side p.has_one p.one_stamp p.one_base };
    } };

    ghost invariant = { λ p. Differ version_stamp (side p.has_zero p.zero_stamp p.zero_base) (side p.has_one p.one_stamp p.one_base) };
}

impl Packed {
    /// An entry on a node of a height.
    pub fn new(entry: &Entry, height: u8) -> Packed
        ensures { result ≡ entry.now }
    {
        let (zero, one) = entry.versions.both_sides();
        let (zero_stamp, zero_base) = numbers(zero);
        let (one_stamp, one_base) = numbers(one);
        Packed {
            fid_high: (entry.key.fid / HALF) as u64,
            fid_low: (entry.key.fid % HALF) as u64,
            block: entry.key.block,
            zero_stamp,
            zero_base,
            one_stamp,
            one_base,
            cell: entry.cell,
            has_zero: zero.is_some(),
            has_one: one.is_some(),
            height,
        }
    }

    /// The entry.
    pub fn entry(&self) -> Entry
        ensures { result ≡ self.now }
    {
        Entry {
            key: self.key(),
            cell: self.cell,
            versions: Versions::of_sides(
                version(self.has_zero, self.zero_stamp, self.zero_base),
                version(self.has_one, self.one_stamp, self.one_base),
            ),
        }
    }

    /// The entry's key.
    pub fn key(&self) -> Key
        ensures { result ≡ self.now.key }
    {
        Key {
            fid: self.fid(),
            block: self.block,
        }
    }

    /// The number of the entry's file.
    pub fn fid(&self) -> u128
        ensures { result ≡ self.now.key.fid }
    {
        self.fid_high as u128 * HALF + self.fid_low as u128
    }

    /// How a key stands to the entry's.
    pub fn compare(&self, key: Key) -> Ordering
        ensures { result ≡ key_cmp key self.now.key }
    {
        key.cmp(&self.key())
    }

    /// The height of its node. Only time rests on it, so no clause tells it.
    pub fn height(&self) -> u8 {
        self.height
    }

    /// Sets the height of its node.
    pub fn set_height(&mut self, height: u8)
        ensures { self.new ≡ self.old }
    {
        self.height = height;
    }
}

// The stamp and the base of a version, or zeros.
fn numbers(version: Option<Version>) -> (u64, u64)
    ensures { side (is_some version) result.0 result.1 ≡ version }
{
    match version {
        Some(version) => (version.stamp, version.base),
        None => (0, 0),
    }
}

// The version of these numbers, where there is one.
fn version(is_there: bool, stamp: u64, base: u64) -> Option<Version>
    ensures { result ≡ side is_there stamp base }
{
    if is_there {
        Some(Version { stamp, base })
    } else {
        None
    }
}
