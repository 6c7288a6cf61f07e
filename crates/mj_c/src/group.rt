//! Up to four blocks that are looked for together.

ghost use Rattle.std.specs.Prelude.{◌≡◌, ◌≤◌, ◌<◌, ◌+◌, ◌-◌, ◌*◌, ◌/◌, ◌%◌, ◌^◌, ℕ, length, slice_index};
ghost use Rattle.mj_angles.specs.Layout.{inverse_of, cols_of};
ghost use Rattle.mj_inverse_four.specs.Fragments.{AreAngles, AreThere, fragment_search};
ghost use Rattle.mj_inverse_four.specs.Rows.{IsTaken};
ghost use Rattle.mj_c.specs.Layouts.{IsDealt, IsDone, IsKnown, four_room_of, part_of, reach_of, words_of};

use crate::room::four_frame;
use mj_angles::Layout;
use mj_inverse_four::{Group, find_four, take_four, take_one};

/// Looks for the blocks of a group by their fragments, and writes their words one block after the other. The byte of a
/// block that has no words becomes 1, and its place stays as it was.
pub fn solve_group(
    layout: Layout,
    angles: &[i32],
    parts: &[&[u64]],
    strides: &[usize],
    group: Group,
    grid: &mut [u64],
    out: &mut [u64],
    lost: &mut [u8],
)
    requires angles { AreAngles (inverse_of layout) (reach_of layout) angles.now }
    requires there { AreThere (inverse_of layout) (cols_of layout) angles.now parts.now strides.now (group.first + (group.count - 1)) }
    requires few_blocks { group.first < 2 ^ 62 }
    requires some { 0 < group.count }
    requires few { group.count ≤ 4 }
    requires count { group.count ≡ length lost.old }
    requires grid { length grid.old ≡ four_room_of layout }
    requires room { length out.old ≡ length lost.old * words_of layout }
    ensures known { (i : ℕ) → i < length lost.old →
        IsKnown layout (fragment_search (inverse_of layout) (cols_of layout) angles.now parts.now strides.now (group.first + i)) (part_of layout out.old i) (part_of layout out.new i) (slice_index lost.new i) }
{
    let answer = find_four(angles, parts, strides, group, four_frame(layout), grid);
    take_all(layout, answer, grid, out, lost);
}

/// Writes the words of those blocks whose bit is 0.
fn take_all(layout: Layout, answer: u8, grid: &[u64], out: &mut [u64], lost: &mut [u8])
    requires grid { length grid.now ≡ four_room_of layout }
    requires few { length lost.old ≤ 4 }
    requires room { length out.old ≡ length lost.old * words_of layout }
    ensures { IsDone layout (λ i new byte. IsDealt layout grid.now answer out.old i new byte) (length lost.old) (length lost.old) out.old out.new lost.new }
{
    if answer == 0 && lost.len() == 4 {
        take_whole(layout, answer, grid, out, lost);
    } else {
        take_each(layout, answer, grid, out, lost);
    }
}

/// The same where all four have words.
fn take_whole(layout: Layout, answer: u8, grid: &[u64], out: &mut [u64], lost: &mut [u8])
    requires grid { length grid.now ≡ four_room_of layout }
    requires zero { answer ≡ 0 }
    requires four { length lost.old ≡ 4 }
    requires room { length out.old ≡ 4 * words_of layout }
    ensures { IsDone layout (λ i new byte. IsDealt layout grid.now answer out.old i new byte) (length lost.old) (length lost.old) out.old out.new lost.new }
{
    take_four(grid, four_frame(layout), out);
    clear(lost);
}

/// Makes all bytes zero.
fn clear(lost: &mut [u8])
    ensures { (i : ℕ) → slice_index lost.new i ≡ 0 }
{
    lost.fill(0);
}

/// The same block by block.
fn take_each(layout: Layout, answer: u8, grid: &[u64], out: &mut [u64], lost: &mut [u8])
    requires grid { length grid.now ≡ four_room_of layout }
    requires few { length lost.old ≤ 4 }
    requires room { length out.old ≡ length lost.old * words_of layout }
    ensures { IsDone layout (λ i new byte. IsDealt layout grid.now answer out.old i new byte) (length lost.old) (length lost.old) out.old out.new lost.new }
{
    let words = layout.inverse() * layout.cols();
    for i in 0..lost.len() {
        let place = &mut out[i * words..i * words + words];
        lost[i] = take_or_leave(layout, answer, i, grid, place);
    }
}

/// Writes the words of block `i` if its bit is 0, and answers the bit.
fn take_or_leave(layout: Layout, answer: u8, i: usize, grid: &[u64], out: &mut [u64]) -> u8
    requires grid { length grid.now ≡ four_room_of layout }
    requires few { i < 4 }
    requires room { length out.old ≡ words_of layout }
    ensures bit { result ≡ answer / 2 ^ i % 2 }
    ensures taken { result ≡ 0 → IsTaken (inverse_of layout) (cols_of layout) (reach_of layout) grid.now i out.new }
    ensures kept { result ≡ 1 → out.new ≡ out.old }
{
    let lost = (answer >> i) % 2;
    if lost == 0 {
        take_one(grid, i, four_frame(layout), out);
    }
    lost
}
