//! How a disk is laid out.
ghost use Rattle.std.specs.Prelude.{◌≡◌, ◌+◌, ◌*◌, ◌^◌, ◌<◌, ◌≤◌};
ghost use Rattle.rz_cells_slots.specs.Stands.{magic_of};

use rz_events::Layout;

/// The bytes of the header.
pub const HEADER_BYTES: u64 = 64;

/// The forms of a disk: one cell where there is now a pair, and pairs.
#[derive(Clone, Copy, Drop)]
pub enum DiskVersion {
    One,
    Two,
}

impl DiskVersion {
    /// The text MJROZO01, or MJROZO02, as a number.
    #[tactic(auto, using(crate::proofs::Magic::magic_is, crate::proofs::Magic::old_magic_is))]
    pub fn magic(self) -> u64
        ensures { result ≡ magic_of self }
    {
        match self {
            DiskVersion::One => 0x3130_4f5a_4f52_4a4d,
            DiskVersion::Two => 0x3230_4f5a_4f52_4a4d,
        }
    }
}

/// The layout of a node's records, the node, and its pairs of cells, 1 to 1,048,576.
#[derive(Clone, Copy, PartialEq, Eq, Drop)]
pub struct Geometry {
    pub layout: Layout,
    /// The byte of the block size, which is the layout's own.
    pub bsize: u8,
    pub node: u16,
    /// Pairs of cells: cells `2 * c` and `2 * c + 1` are pair `c`.
    pub cells: u32,
}

impl Geometry {
    ghost use Rattle.rz_cells_slots.specs.Shape.{IsGeometry, disk_bytes, slot_at, slot_of};

    /// The bytes of a slot, which has room for any record of the layout.
    #[tactic(auto, unfolding(rz_record::specs::Record::slot_bytes))]
    pub(crate) fn slot_bytes(&self) -> u64
        ensures value { result ≡ slot_of self.now }
        ensures some { 48 ≤ result }
        ensures few { result ≤ 16880 }
    {
        48 + 8 * self.layout.max_bins() as u64
    }

    /// The bytes of the disk.
    pub(crate) fn disk_bytes(&self) -> u64
        requires { IsGeometry self.now }
        ensures value { result ≡ disk_bytes self.now }
        ensures few { result < 2 ^ 40 }
    {
        let cells = u64::from(self.cells);
        HEADER_BYTES + 2 * cells + 4 * cells * self.slot_bytes()
    }

    /// Where slot `i` of a cell begins.
    pub fn slot_at(&self, cell: u32, i: u8) -> u64
        requires geometry { IsGeometry self.now }
        requires cell { cell < 2 * self.now.cells }
        requires slot { i < 2 }
        ensures value { result ≡ slot_at self.now cell i }
        ensures within { result + slot_of self.now ≤ disk_bytes self.now }
        ensures few { result + slot_of self.now < 2 ^ 41 }
    {
        let slot = 2 * cell as u64 + i as u64;
        HEADER_BYTES + 2 * self.cells as u64 + slot * self.slot_bytes()
    }
}
