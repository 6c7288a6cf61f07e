//! Room for finding blocks.

ghost use Rattle.std.specs.Prelude.{◌≡◌, ◌≤◌, ◌*◌, ℕ};
ghost use Rattle.mj_angles.specs.Layout.{inverse_of, cols_of, max_bins_of};
ghost use Rattle.mj_inverse.specs.Padded.{width_of};
ghost use Rattle.mj_c.specs.Layouts.{four_frame_of, four_room_of, reach_of, room_of, rows_room_of};

use mj_angles::Layout;
use mj_inverse::Frame;
use mj_inverse_four::Frame as FourFrame;

/// Where the words of eight blocks stand.
pub fn frame_of(layout: Layout) -> Frame
    ensures rows { result.rows ≡ inverse_of layout }
    ensures cols { result.cols ≡ cols_of layout }
    ensures reach { result.reach ≡ reach_of layout }
    ensures least { 8 ≤ result.reach }
    ensures few { result.reach ≤ 56 }
{
    Frame {
        rows: layout.inverse(),
        cols: layout.cols(),
        reach: 8 * (layout.inverse() - 1),
    }
}

/// How many words they take.
pub fn rows_room(layout: Layout) -> usize
    ensures value { result ≡ rows_room_of layout }
    ensures few { result ≤ 138240 }
{
    let frame = frame_of(layout);
    8 * (frame.rows * frame.width())
}

/// How many words of room find any number of blocks.
pub fn room_words(layout: Layout) -> usize
    ensures value { result ≡ room_of layout }
    ensures few { result ≤ 300000 }
{
    8 * (layout.inverse() * layout.max_bins()) + rows_room(layout)
}

/// Where the words of four blocks stand.
pub fn four_frame(layout: Layout) -> FourFrame
    ensures value { result ≡ four_frame_of layout }
{
    FourFrame {
        rows: layout.inverse(),
        cols: layout.cols(),
        reach: 8 * (layout.inverse() - 1),
    }
}

/// How many words they take.
pub fn four_room(layout: Layout) -> usize
    ensures value { result ≡ four_room_of layout }
    ensures few { result ≤ room_of layout }
{
    four_frame(layout).room()
}
