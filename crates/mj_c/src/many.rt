//! Inversions of many blocks in the same room.

ghost use Rattle.std.specs.Prelude.{◌≡◌, ◌≢◌, ◌⊎◌, ◌<◌, ◌≤◌, ◌+◌, ◌*◌, ◌/◌, ◌==◌, ℕ, List, true, false, nat_lt, length, IfSome};
ghost use Rattle.std.specs.List.{list_all, sum_by};
ghost use Rattle.mj_angles.specs.Layout.{inverse_of, cols_of, safe_of, bins_at_of};
ghost use Rattle.rz_words.specs.Grid.{Grid};
ghost use Rattle.mj_inverse.specs.Fits.{IsFound, empty_search};
ghost use Rattle.mj_c.specs.Layouts.{layout_at, words_of, search_at, IsAnswered};
ghost use Rattle.mj_c.specs.Answers.{many_refusal, is_ascending_from};

use crate::Answer;
use crate::inverse::{are_positions, find_one, is_ascending, total_bins};
use crate::layouts::layout_of;
use mj_angles::Layout;
use mj_inverse::Work;
use std::alloc::Global;

/// Tests everything, and looks for as many blocks as `out` has room for.
pub fn solve_many_at(
    alloc: Global,
    layout: u32,
    positions: &[u32],
    bins: &[u64],
    out: &mut [u64],
) -> Answer
    ensures refused { let refusal = many_refusal (layout_at layout) positions.now (length bins.now) (length out.old) in
        refusal ≢ Answer.Done → result ≡ refusal }
    ensures tried { many_refusal (layout_at layout) positions.now (length bins.now) (length out.old) ≡ Answer.Done →
        (result ≡ Answer.Done) ⊎ (result ≡ Answer.Inconsistent) ⊎ (result ≡ Answer.NoMemory) }
    ensures done { result ≡ Answer.Done → IfSome (layout_at layout)
        (λ y. (i : ℕ) → i < length out.old / words_of y → IsAnswered y positions.now bins.now out.new i) }
    ensures none { result ≡ Answer.Inconsistent → IfSome (layout_at layout)
        (λ y. (i : ℕ) × (i < length out.old / words_of y) × ((g : Grid) → ¬ IsFound (search_at y positions.now bins.now i) g)) }
    ensures unchanged { result ≢ Answer.Done → result ≢ Answer.Inconsistent → out.new ≡ out.old }
{
    let Some(layout) = layout_of(layout) else {
        return Answer::BadLayout;
    };
    if !are_positions(layout, positions) {
        return Answer::BadPosition;
    }
    if !is_ascending(layout, positions) {
        return Answer::NotAscending;
    }
    let words = layout.inverse() * layout.cols();
    let blocks = out.len() / words;
    if positions.len() != layout.inverse() || !is_product(out.len(), blocks, words) {
        return Answer::BadLength;
    }
    if !is_product(bins.len(), blocks, total_bins(layout, positions)) {
        return Answer::BadLength;
    }
    find_many(alloc, layout, positions, blocks, bins, out)
}

/// Whether `n` is `a` times `b`.
pub fn is_product(n: usize, a: usize, b: usize) -> bool
    ensures { result ≡ (n == a * b) }
{
    match a.checked_mul(b) {
        Some(product) => n == product,
        None => false,
    }
}

/// Takes room for one block, and looks for so many.
fn find_many(
    alloc: Global,
    layout: Layout,
    positions: &[u32],
    blocks: usize,
    bins: &[u64],
    out: &mut [u64],
) -> Answer
    requires positions { list_all (λ i. nat_lt i (safe_of layout)) positions.now ≡ true }
    requires ascending { is_ascending_from 0 positions.now ≡ true }
    requires count { length positions.now ≡ inverse_of layout }
    requires bins { length bins.now ≡ blocks * sum_by (bins_at_of layout) positions.now }
    requires room { length out.old ≡ blocks * words_of layout }
    ensures tried { (result ≡ Answer.Done) ⊎ (result ≡ Answer.Inconsistent) ⊎ (result ≡ Answer.NoMemory) }
    ensures done { result ≡ Answer.Done → (i : ℕ) → i < blocks → IsAnswered layout positions.now bins.now out.new i }
    ensures none { result ≡ Answer.Inconsistent → (i : ℕ) × (i < blocks) × ((g : Grid) → ¬ IsFound (search_at layout positions.now bins.now i) g) }
    ensures unchanged { result ≢ Answer.Done → result ≢ Answer.Inconsistent → out.new ≡ out.old }
{
    let rows = layout.inverse();
    let cols = layout.cols();
    let Ok(mut work) = Work::new(alloc, rows, cols) else {
        return Answer::NoMemory;
    };
    if find_each(&mut work, layout, positions, blocks, bins, out) {
        Answer::Done
    } else {
        Answer::Inconsistent
    }
}

/// Looks for so many blocks, and stops at the first that is not found.
fn find_each(
    work: &mut Work,
    layout: Layout,
    positions: &[u32],
    blocks: usize,
    bins: &[u64],
    out: &mut [u64],
) -> bool
    requires empty { work.old ≡ empty_search (inverse_of layout) (cols_of layout) }
    requires positions { list_all (λ i. nat_lt i (safe_of layout)) positions.now ≡ true }
    requires ascending { is_ascending_from 0 positions.now ≡ true }
    requires count { length positions.now ≡ inverse_of layout }
    requires bins { length bins.now ≡ blocks * sum_by (bins_at_of layout) positions.now }
    requires room { length out.old ≡ blocks * words_of layout }
    ensures found { result ≡ true → (i : ℕ) → i < blocks → IsAnswered layout positions.now bins.now out.new i }
    ensures none { result ≡ false → (i : ℕ) × (i < blocks) × ((g : Grid) → ¬ IsFound (search_at layout positions.now bins.now i) g) }
    ensures empty { work.new ≡ empty_search (inverse_of layout) (cols_of layout) }
{
    let each = total_bins(layout, positions);
    let words = layout.inverse() * layout.cols();
    for i in 0..blocks {
        let given = &bins[i * each..i * each + each];
        let room = &mut out[i * words..i * words + words];
        if !find_one(work, layout, positions, given, room) {
            return false;
        }
    }
    true
}
