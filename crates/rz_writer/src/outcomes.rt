//! What came of each position.

ghost use Rattle.std.specs.Prelude.{◌≡◌};
ghost use Rattle.rz_client_model.specs.Write.{why_of, is_kept, mask_of};

use rz_events::{KeepAnswer, Why};

/// What comes of a position whose node answered so.
pub fn why_of(answer: KeepAnswer) -> Why
    ensures { result ≡ why_of answer }
{
    match answer {
        KeepAnswer::Kept => Why::Kept,
        KeepAnswer::Passed { .. } => Why::Passed,
        KeepAnswer::Lost => Why::Lost,
        KeepAnswer::Down => Why::Down,
        KeepAnswer::Fenced { .. } => Why::Fenced,
        KeepAnswer::Full => Why::Full,
        KeepAnswer::DiskFault => Why::DiskFault,
    }
}

/// Whether the node has the record, or newer ones in its place.
pub fn is_kept(why: Why) -> bool
    ensures { result ≡ is_kept why }
{
    matches!(why, Why::Kept | Why::Passed)
}

/// The positions whose nodes have the record: bit `i` is position `i`.
pub fn mask_of(why: &[Why; 16]) -> u16
    ensures { result ≡ mask_of why.now }
{
    let mut mask = 0;
    for i in (0..16).rev() {
        mask = 2 * mask + u16::from(is_kept(why[i]));
    }
    mask
}
