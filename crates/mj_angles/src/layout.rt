//! The twelve layouts.

ghost use Rattle.std.specs.Prelude.{◌≡◌, ◌≤◌, ◌<◌, ◌*◌, ◌+◌, ◌-◌, ◌↔◌, ℕ, unsigned_abs, IsSome};
ghost use Rattle.mj_angles.specs.Layout.{number_of, bsize_of, inverse_of, forward_of, safe_of, block_bytes_of, cols_of, angle_of, bins_at_of, max_bins_of};

use crate::bins;

/// How a block is cut into projections.
///
/// The first digit is the layout's number. The digit after `B` is the byte of the block size, from
/// 0 to 3 for 4096, 8192, 16384 or 32768 bytes; the values without one have byte 0.
#[derive(Clone, Copy, PartialEq, Eq, Debug)]
pub enum Layout {
    /// Any 2 of 4 projections give back a block of 4096 bytes.
    L0,
    /// Any 4 of 8 projections give back a block of 4096 bytes.
    L1,
    /// Any 8 of 16 projections give back a block of 4096 bytes.
    L2,
    /// Layout 0 with blocks of 8192 bytes.
    L0B1,
    /// Layout 0 with blocks of 16384 bytes.
    L0B2,
    /// Layout 0 with blocks of 32768 bytes.
    L0B3,
    /// Layout 1 with blocks of 8192 bytes.
    L1B1,
    /// Layout 1 with blocks of 16384 bytes.
    L1B2,
    /// Layout 1 with blocks of 32768 bytes.
    L1B3,
    /// Layout 2 with blocks of 8192 bytes.
    L2B1,
    /// Layout 2 with blocks of 16384 bytes.
    L2B2,
    /// Layout 2 with blocks of 32768 bytes.
    L2B3,
}

impl Layout {
    /// The layout with this number, 0 to 2, and this byte of the block size, 0 to 3.
    pub fn of(number: u8, bsize: u8) -> Option<Layout>
        ensures found { IsSome result ↔ ((number < 3) × (bsize < 4)) }
        ensures value { (y : Layout) → (result ≡ Some y) ↔ ((number_of y ≡ number) × (bsize_of y ≡ bsize)) }
    {
        match (number, bsize) {
            (0, 0) => Some(Layout::L0),
            (0, 1) => Some(Layout::L0B1),
            (0, 2) => Some(Layout::L0B2),
            (0, 3) => Some(Layout::L0B3),
            (1, 0) => Some(Layout::L1),
            (1, 1) => Some(Layout::L1B1),
            (1, 2) => Some(Layout::L1B2),
            (1, 3) => Some(Layout::L1B3),
            (2, 0) => Some(Layout::L2),
            (2, 1) => Some(Layout::L2B1),
            (2, 2) => Some(Layout::L2B2),
            (2, 3) => Some(Layout::L2B3),
            _ => None,
        }
    }

    /// The layout's number, 0 to 2.
    pub fn number(self) -> u8
        ensures value { result ≡ number_of self }
        ensures few { result < 3 }
    {
        match self {
            Layout::L0 | Layout::L0B1 | Layout::L0B2 | Layout::L0B3 => 0,
            Layout::L1 | Layout::L1B1 | Layout::L1B2 | Layout::L1B3 => 1,
            Layout::L2 | Layout::L2B1 | Layout::L2B2 | Layout::L2B3 => 2,
        }
    }

    /// The byte of the block size, 0 to 3.
    pub fn bsize(self) -> u8
        ensures value { result ≡ bsize_of self }
        ensures few { result < 4 }
    {
        match self {
            Layout::L0 | Layout::L1 | Layout::L2 => 0,
            Layout::L0B1 | Layout::L1B1 | Layout::L2B1 => 1,
            Layout::L0B2 | Layout::L1B2 | Layout::L2B2 => 2,
            Layout::L0B3 | Layout::L1B3 | Layout::L2B3 => 3,
        }
    }

    /// So many projections give the block back. A block has this many rows.
    pub fn inverse(self) -> usize
        ensures value { result ≡ inverse_of self }
        ensures least { 2 ≤ result }
        ensures most { result ≤ 8 }
    {
        match self {
            Layout::L0 | Layout::L0B1 | Layout::L0B2 | Layout::L0B3 => 2,
            Layout::L1 | Layout::L1B1 | Layout::L1B2 | Layout::L1B3 => 4,
            Layout::L2 | Layout::L2B1 | Layout::L2B2 | Layout::L2B3 => 8,
        }
    }

    /// So many projections are written.
    pub fn forward(self) -> usize
        ensures value { result ≡ forward_of self }
        ensures more { inverse_of self < result }
        ensures most { result ≤ 12 }
    {
        match self {
            Layout::L0 | Layout::L0B1 | Layout::L0B2 | Layout::L0B3 => 3,
            Layout::L1 | Layout::L1B1 | Layout::L1B2 | Layout::L1B3 => 6,
            Layout::L2 | Layout::L2B1 | Layout::L2B2 | Layout::L2B3 => 12,
        }
    }

    /// So many positions there are. Two sets of `forward` positions share `inverse` of them.
    pub fn safe(self) -> usize
        ensures value { result ≡ safe_of self }
        ensures more { forward_of self < result }
        ensures quorum { result < forward_of self + inverse_of self }
        ensures most { result ≤ 16 }
    {
        2 * self.inverse()
    }

    /// The bytes of a block.
    pub fn block_bytes(self) -> usize
        ensures value { result ≡ block_bytes_of self }
        ensures least { 4096 ≤ result }
        ensures most { result ≤ 32768 }
    {
        4096 << self.bsize()
    }

    /// The columns of a block, each with a word of 8 bytes in each row.
    pub fn cols(self) -> usize
        ensures value { result ≡ cols_of self }
        ensures whole { 8 * (inverse_of self * result) ≡ block_bytes_of self }
        ensures least { 64 ≤ result }
        ensures most { result ≤ 2048 }
    {
        self.block_bytes() / (8 * self.inverse())
    }

    /// The angle of the projection at a position.
    pub fn angle(self, position: u8) -> i32
        requires { position < safe_of self }
        ensures value { result ≡ angle_of self position }
        ensures small { unsigned_abs result ≤ 8 }
        ensures distinct { (other : ℕ) → angle_of self other ≡ result → other ≡ position }
    {
        i32::from(position) - (self.safe() / 2) as i32
    }

    /// How many bins the projection at a position has.
    pub fn bins_at(self, position: u8) -> usize
        requires { position < safe_of self }
        ensures value { result ≡ bins_at_of self position }
        ensures least { cols_of self ≤ result }
        ensures within { result ≤ max_bins_of self }
    {
        bins(self.angle(position), self.inverse(), self.cols())
    }

    /// The most bins that a projection has. It is the one at position 0.
    pub fn max_bins(self) -> usize
        ensures value { result ≡ max_bins_of self }
        ensures first { result ≡ bins_at_of self 0 }
        ensures greatest { (position : ℕ) → position < safe_of self → bins_at_of self position ≤ result }
        ensures more { cols_of self < result }
        ensures most { result ≤ 2104 }
    {
        self.bins_at(0)
    }
}
