//! Where things stand on the disk.

ghost use Rattle.std.specs.Prelude.{◌≡◌, ◌<◌};
ghost use Rattle.rz_journal.specs.Stands.{disk_bytes, half_at, half_bytes, header_bytes};

/// The bytes of a half.
pub const HALF_BYTES: u64 = 8_388_576;

/// Where the byte stands that picks the half.
pub const HALF_GATE: u64 = 33;

/// The bytes of the disk.
#[tactic(auto, unfolding(crate::specs::Stands::disk_bytes))]
pub fn disk_bytes() -> u64
    ensures { result ≡ disk_bytes }
{
    16_777_216
}

/// The bytes of a half.
#[tactic(auto, unfolding(crate::specs::Stands::half_bytes))]
pub fn half_bytes() -> u64
    ensures { result ≡ half_bytes }
{
    8_388_576
}

/// Where a half begins.
pub fn half_at(half: u8) -> u64
    requires { half < 2 }
    ensures { result ≡ half_at half }
{
    64 + u64::from(half) * HALF_BYTES
}

/// What stands before the header's gate.
pub fn header() -> [u8; 32]
    ensures { result ≡ header_bytes }
{
    *b"MJROZJ01\0\0\0\0\0\0\0\0\0\0\0\0\0\0\0\0\0\0\0\0\0\0\0\0"
}
