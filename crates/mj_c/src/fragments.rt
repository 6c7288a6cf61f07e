//! Inversions of many blocks by their fragments, four blocks at a time.

ghost use Rattle.std.specs.Prelude.{◌≡◌, ◌<◌, ◌≤◌, ◌+◌, ◌-◌, ◌*◌, ◌^◌, ℕ, true, map, nat_lt, length, slice_index};
ghost use Rattle.std.specs.List.{list_all};
ghost use Rattle.mj_angles.specs.Layout.{inverse_of, cols_of, safe_of, angle_of};
ghost use Rattle.mj_inverse_four.specs.Fragments.{AreThere, fragment_search};
ghost use Rattle.mj_c.specs.Layouts.{IsKnown, part_of, room_of, words_of};
ghost use Rattle.mj_c.specs.Answers.{is_ascending_from};

use crate::eight::write_angles;
use crate::group::solve_group;
use crate::room::four_room;
use mj_angles::Layout;
use mj_inverse_four::Group;

/// Looks for as many blocks as `lost` has bytes.
pub fn find_in(
    layout: Layout,
    positions: &[u32],
    parts: &[&[u64]],
    strides: &[usize],
    out: &mut [u64],
    lost: &mut [u8],
    room: &mut [u64],
)
    requires positions { list_all (λ i. nat_lt i (safe_of layout)) positions.now ≡ true }
    requires ascending { is_ascending_from 0 positions.now ≡ true }
    requires count { length positions.now ≡ inverse_of layout }
    requires there { 0 < length lost.old → AreThere (inverse_of layout) (cols_of layout) (map (angle_of layout) positions.now) parts.now strides.now (length lost.old - 1) }
    requires out { length out.old ≡ length lost.old * words_of layout }
    requires room { room_of layout ≤ length room.old }
    ensures known { (i : ℕ) → i < length lost.old →
        IsKnown layout (fragment_search (inverse_of layout) (cols_of layout) (map (angle_of layout) positions.now) parts.now strides.now i) (part_of layout out.old i) (part_of layout out.new i) (slice_index lost.new i) }
{
    let words = layout.inverse() * layout.cols();
    let mut first = 0;
    'groups: while first < lost.len() {
        let count = group_size(lost.len() - first);
        let places = &mut out[first * words..first * words + count * words];
        let bytes = &mut lost[first..first + count];
        let group = Group { first, count };
        find_group(
            layout, positions, parts, strides, group, places, bytes, room,
        );
        first += count;
    }
}

/// How many of so many blocks are looked for together.
pub fn group_size(left: usize) -> usize
    requires some { 0 < left }
    ensures some { 0 < result }
    ensures few { result ≤ 4 }
    ensures within { result ≤ left }
{
    left.min(4)
}

/// Looks for the blocks of a group.
fn find_group(
    layout: Layout,
    positions: &[u32],
    parts: &[&[u64]],
    strides: &[usize],
    group: Group,
    out: &mut [u64],
    lost: &mut [u8],
    room: &mut [u64],
)
    requires positions { list_all (λ i. nat_lt i (safe_of layout)) positions.now ≡ true }
    requires ascending { is_ascending_from 0 positions.now ≡ true }
    requires positions_count { length positions.now ≡ inverse_of layout }
    requires there { AreThere (inverse_of layout) (cols_of layout) (map (angle_of layout) positions.now) parts.now strides.now (group.first + (group.count - 1)) }
    requires few_blocks { group.first < 2 ^ 62 }
    requires some { 0 < group.count }
    requires few { group.count ≤ 4 }
    requires count { group.count ≡ length lost.old }
    requires out { length out.old ≡ length lost.old * words_of layout }
    requires room { room_of layout ≤ length room.old }
    ensures known { (i : ℕ) → i < length lost.old →
        IsKnown layout (fragment_search (inverse_of layout) (cols_of layout) (map (angle_of layout) positions.now) parts.now strides.now (group.first + i)) (part_of layout out.old i) (part_of layout out.new i) (slice_index lost.new i) }
{
    let mut angles = [0i32; 8];
    let angles = &mut angles[..positions.len()];
    write_angles(layout, positions, angles);
    let grid = &mut room[..four_room(layout)];
    solve_group(layout, angles, parts, strides, group, grid, out, lost);
}
