//! Disks made of bytes.
ghost use Rattle.std.specs.Prelude.{◌≡◌, ◌<◌, IfOk, vec_len};

use rz_disk::{Disk, DiskError, MemDisk, PlainDisk};
use std::alloc::{AllocError, Global};
use std::process::Abort;

pub fn zeros(alloc: Global, size: usize) -> Result<Vec<u8>, AllocError>
    ensures { IfOk result (λ v. vec_len v ≡ size) }
{
    vec![in alloc; 0u8; size]
}

/// Puts a byte where there is room for it.
pub fn alter(bytes: &mut Vec<u8>, at: usize, byte: u8) {
    if at < bytes.len() {
        bytes[at] = byte;
    }
}

/// Puts bytes where there is room for them.
pub fn write(bytes: &mut Vec<u8>, at: usize, part: &[u8])
    requires { at < 100000 }
{
    for (i, byte) in part.iter().enumerate() {
        alter(bytes, at + i, *byte);
    }
}

/// So many bytes, of which no two neighbours are alike.
pub fn fill(bytes: &mut Vec<u8>, at: usize, count: usize)
    requires at { at < 100000 }
    requires count { count < 100000 }
{
    for i in 0..count {
        alter(bytes, at + i, (i % 251) as u8);
    }
}

/// A disk that holds these bytes, all synced.
pub fn disk_of(alloc: Global, bytes: &[u8]) -> Result<PlainDisk, DiskError> {
    let mut disk = PlainDisk::new(alloc);
    disk.reset(alloc, bytes.len() as u64)?;
    disk.write_at(0, bytes).map_err(|_| DiskError::Failed)?;
    disk.sync().map_err(|_| DiskError::Failed)?;
    Ok(disk)
}

/// A disk in memory whose call of this number is the one that fails.
pub fn failing_at(alloc: Global, number: u64) -> Result<MemDisk, AllocError> {
    let fails = vec![in alloc; number; 1]?;
    Ok(MemDisk::new(alloc, fails))
}

/// What a crash with a pick leaves of a byte that was written since the last sync.
pub fn left(old: u8, new: u8, at: u64, pick: u64) -> u8 {
    match pick {
        0 => old,
        1 => new,
        _ => (pick.wrapping_mul(at.wrapping_add(1)) % 256) as u8,
    }
}

/// What a disk reads.
pub fn bytes_of<D: Disk>(rt: &(impl Abort + AllocGlobal), disk: &mut D) -> Vec<u8> {
    let mut bytes = zeros(rt.alloc(), disk.size() as usize).expect(rt, "memory");
    assert!(rt; bytes.len() as u64 == disk.size());
    disk.read(0, &mut bytes).expect(rt, "a disk that reads");
    bytes
}
