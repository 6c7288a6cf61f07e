//! What came of each position, and which position comes next.

ghost use Rattle.std.specs.Prelude.{◌≡◌, ◌<◌, ◌≤◌, ◌^◌, ℕ};
ghost use Rattle.std.specs.Int.{bit_at};
ghost use Rattle.mj_angles.specs.Layout.{safe_of};
ghost use Rattle.rz_client_model.specs.Read.{seen_of, next_position, with_seen, with_record, none_fetched};

use mj_angles::Layout;
use rz_client_model::Fetches;
use rz_events::{FetchAnswer, Published, Seen};

/// What comes of a position whose node answered so.
pub fn seen_of(answer: FetchAnswer) -> Seen
    ensures { result ≡ seen_of answer }
{
    match answer {
        FetchAnswer::Held(_) => Seen::Held,
        FetchAnswer::Nothing => Seen::Nothing,
        FetchAnswer::Lost => Seen::Lost,
        FetchAnswer::Down => Seen::Down,
        FetchAnswer::DiskFault => Seen::DiskFault,
    }
}

/// No position was asked yet.
pub fn none_fetched(layout: Layout, published: Published) -> Fetches
    ensures { result ≡ none_fetched layout published }
{
    Fetches {
        stamp: published.stamp,
        mask: published.mask,
        left: ((1u32 << layout.safe()) - 1) as u16,
        given: 0,
        length: 0,
        seen: [Seen::NotAsked; 16],
    }
}

/// The position that comes next, of those that are left.
pub fn next_position(layout: Layout, fetches: &Fetches) -> u8
    requires some { 0 < fetches.now.left }
    requires few { fetches.now.left < 2 ^ safe_of layout }
    ensures value { result ≡ next_position fetches.now }
    ensures within { result < safe_of layout }
    ensures left { bit_at fetches.now.left result ≡ 1 }
{
    let published = fetches.left & fetches.mask;
    let candidates = if published == 0 {
        fetches.left
    } else {
        published
    };
    candidates.trailing_zeros() as u8
}

/// The fetches after the next position was asked, of which this came.
pub fn with_seen(layout: Layout, mut fetches: Fetches, seen: Seen) -> Fetches
    requires some { 0 < fetches.left }
    requires few { fetches.left < 2 ^ safe_of layout }
    ensures value { result ≡ with_seen fetches seen }
    ensures left { bit_at fetches.left (next_position fetches) ≡ 1 }
    ensures within { next_position fetches < safe_of layout }
{
    let position = next_position(layout, &fetches);
    fetches.left ^= 1 << position;
    fetches.seen[position as usize] = seen;
    fetches
}

/// The fetches after the next position gave a record of the published stamp.
pub fn with_record(layout: Layout, mut fetches: Fetches, length: u32) -> Fetches
    requires some { 0 < fetches.left }
    requires few { fetches.left < 2 ^ safe_of layout }
    requires fewer { fetches.given < 8 }
    ensures value { result ≡ with_record fetches length }
    ensures left { bit_at fetches.left (next_position fetches) ≡ 1 }
    ensures within { next_position fetches < safe_of layout }
{
    let position = next_position(layout, &fetches);
    if fetches.given == 0 {
        fetches.length = length;
    }
    fetches.left ^= 1 << position;
    fetches.seen[position as usize] = Seen::Held;
    fetches.given += 1;
    fetches
}
