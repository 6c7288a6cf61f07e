//! How large the disks of nodes get.

ghost use Rattle.std.specs.Prelude.{◌≡◌, ◌≤◌, ◌<◌, ◌+◌, ◌⊎◌, None, IfSome};
ghost use Rattle.rz_config.specs.Sizes.{disk_bytes_of};

use rz_events::Layout;

/// The most pairs of cells that a node may have whose disk has at most so many bytes.
pub fn cells_within(layout: Layout, bytes: u64) -> Option<u32>
    ensures some { IfSome result (λ cells. (1 ≤ cells) × (cells ≤ 1048576)) }
    ensures within { IfSome result (λ cells. disk_bytes_of layout cells ≤ bytes) }
    ensures most { IfSome result (λ cells. (cells ≡ 1048576) ⊎ (bytes < disk_bytes_of layout (cells + 1))) }
    ensures none { result ≡ None → bytes < disk_bytes_of layout 1 }
{
    let slot = 48 + 8 * layout.max_bins() as u64;
    let pair = 2 + 4 * slot;
    let cells = bytes.checked_sub(64)? / pair;
    if cells == 0 {
        return None;
    }
    Some(cells.min(1_048_576) as u32)
}
