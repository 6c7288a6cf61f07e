//! The running sum, and a sum place by place.

ghost use Rattle.std.specs.Prelude.{◌≡◌, ◌≤◌, ◌<◌, ◌+◌, ◌-◌, ℕ, length, slice_index, bit_xor, vec_len, vec_capacity};

use rz_lanes::xor_into;
use std::simd::prelude::*;

/// Adds to the words from `from` to `to` those from `at` on in `by`, and then to each of them the one `step`
/// words before it, in rising order; the first `step` of them have none before them.
pub fn run_within(
    words: &mut Vec<u64>,
    from: usize,
    to: usize,
    by: &Vec<u64>,
    at: usize,
    step: usize,
)
    requires order { from ≤ to }
    requires within { to ≤ vec_len words.old }
    requires by { at + (to - from) ≤ vec_len by.now }
    requires step { 0 < step }
    ensures first { (k : ℕ) → from + k < to → k < step → slice_index words.new.items (from + k) ≡ bit_xor (slice_index words.old.items (from + k)) (slice_index by.now.items (at + k)) }
    ensures next { (k : ℕ) → from + (k + step) < to → slice_index words.new.items (from + (k + step)) ≡
        bit_xor (bit_xor (slice_index words.old.items (from + (k + step))) (slice_index by.now.items (at + (k + step)))) (slice_index words.new.items (from + k)) }
    ensures below { (t : ℕ) → t < from → slice_index words.new.items t ≡ slice_index words.old.items t }
    ensures above { (t : ℕ) → to ≤ t → slice_index words.new.items t ≡ slice_index words.old.items t }
    ensures len { vec_len words.new ≡ vec_len words.old }
    ensures capacity { vec_capacity words.new ≡ vec_capacity words.old }
{
    run(&mut words[from..to], &by[at..at + (to - from)], step);
}

/// Adds the words from `at` to `end` of `by` to those from `from` on in `words`.
pub fn add_within(words: &mut Vec<u64>, from: usize, by: &Vec<u64>, at: usize, end: usize)
    requires order { at ≤ end }
    requires by { end ≤ vec_len by.now }
    requires within { from + (end - at) ≤ vec_len words.old }
    ensures inside { (k : ℕ) → at + k < end → slice_index words.new.items (from + k) ≡ bit_xor (slice_index words.old.items (from + k)) (slice_index by.now.items (at + k)) }
    ensures below { (t : ℕ) → t < from → slice_index words.new.items t ≡ slice_index words.old.items t }
    ensures above { (t : ℕ) → from + (end - at) ≤ t → slice_index words.new.items t ≡ slice_index words.old.items t }
    ensures len { vec_len words.new ≡ vec_len words.old }
    ensures capacity { vec_capacity words.new ≡ vec_capacity words.old }
{
    xor_into(&mut words[from..from + (end - at)], &by[at..end]);
}

/// Adds `d` to `c`, and then to each word of `c` the word `step` places before it, in rising order.
fn run(c: &mut [u64], d: &[u64], step: usize)
    requires same { length c.old ≡ length d.now }
    requires step { 0 < step }
    ensures first { (k : ℕ) → k < length d.now → k < step → slice_index c.new k ≡ bit_xor (slice_index c.old k) (slice_index d.now k) }
    ensures next { (k : ℕ) → k + step < length d.now →
        slice_index c.new (k + step) ≡ bit_xor (bit_xor (slice_index c.old (k + step)) (slice_index d.now (k + step))) (slice_index c.new k) }
{
    match step {
        1 => run_one(c, d),
        2 => run_two(c, d),
        3 => run_columns::<2, 1>(c, d, step),
        4 => run_columns::<2, 2>(c, d, step),
        5 => run_columns::<4, 1>(c, d, step),
        6 => run_columns::<4, 2>(c, d, step),
        7 | 8 => run_columns::<4, 4>(c, d, step),
        9 => run_columns::<8, 1>(c, d, step),
        10 => run_columns::<8, 2>(c, d, step),
        11 | 12 => run_columns::<8, 4>(c, d, step),
        13..=16 => run_columns::<8, 8>(c, d, step),
        _ => run_rows(c, d, step),
    }
}

/// `run` by one place, four words at a time. Three vectors keep what was made of the four before.
fn run_one(c: &mut [u64], d: &[u64])
    requires { length c.old ≡ length d.now }
    ensures first { (k : ℕ) → k < length d.now → k < 1 → slice_index c.new k ≡ bit_xor (slice_index c.old k) (slice_index d.now k) }
    ensures next { (k : ℕ) → k + 1 < length d.now →
        slice_index c.new (k + 1) ≡ bit_xor (bit_xor (slice_index c.old (k + 1)) (slice_index d.now (k + 1))) (slice_index c.new k) }
{
    let mut words = u64x4::splat(0);
    let mut pairs = u64x4::splat(0);
    let mut last = u64x4::splat(0);
    let mut place = 0;
    'fours: while c.len() - place >= 4 {
        let new_words = u64x4::from_slice(&c[place..]) ^ u64x4::from_slice(&d[place..]);
        let new_pairs = pair_up(words, new_words);
        last = four_more(pairs, new_pairs, last);
        last.copy_to_slice(&mut c[place..]);
        words = new_words;
        pairs = new_pairs;
        place += 4;
    }
    'rest: for t in place..c.len() {
        let before = word_before(c, t, 1);
        c[t] = c[t] ^ d[t] ^ before;
    }
}

/// `run` by two places, four words at a time. Two vectors keep what was made of the four before.
fn run_two(c: &mut [u64], d: &[u64])
    requires { length c.old ≡ length d.now }
    ensures first { (k : ℕ) → k < length d.now → k < 2 → slice_index c.new k ≡ bit_xor (slice_index c.old k) (slice_index d.now k) }
    ensures next { (k : ℕ) → k + 2 < length d.now →
        slice_index c.new (k + 2) ≡ bit_xor (bit_xor (slice_index c.old (k + 2)) (slice_index d.now (k + 2))) (slice_index c.new k) }
{
    let mut words = u64x4::splat(0);
    let mut last = u64x4::splat(0);
    let mut place = 0;
    'fours: while c.len() - place >= 4 {
        let new_words = u64x4::from_slice(&c[place..]) ^ u64x4::from_slice(&d[place..]);
        last = four_more(words, new_words, last);
        last.copy_to_slice(&mut c[place..]);
        words = new_words;
        place += 4;
    }
    'rest: for t in place..c.len() {
        let before = word_before(c, t, 2);
        c[t] = c[t] ^ d[t] ^ before;
    }
}

/// Adds to each of four words the one before it, of which the first is the last of four others.
#[inline(always)]
fn pair_up(before: u64x4, words: u64x4) -> u64x4
    ensures first { slice_index result 0 ≡ bit_xor (slice_index words 0) (slice_index before 3) }
    ensures second { slice_index result 1 ≡ bit_xor (slice_index words 1) (slice_index words 0) }
    ensures third { slice_index result 2 ≡ bit_xor (slice_index words 2) (slice_index words 1) }
    ensures fourth { slice_index result 3 ≡ bit_xor (slice_index words 3) (slice_index words 2) }
{
    words ^ before.shuffle(words, [3, 4, 5, 6])
}

/// Adds to each of four sums the one two places before it, and what became of the one four places before.
#[inline(always)]
fn four_more(before: u64x4, sums: u64x4, last: u64x4) -> u64x4
    ensures first { slice_index result 0 ≡ bit_xor (bit_xor (slice_index sums 0) (slice_index before 2)) (slice_index last 0) }
    ensures second { slice_index result 1 ≡ bit_xor (bit_xor (slice_index sums 1) (slice_index before 3)) (slice_index last 1) }
    ensures third { slice_index result 2 ≡ bit_xor (bit_xor (slice_index sums 2) (slice_index sums 0)) (slice_index last 2) }
    ensures fourth { slice_index result 3 ≡ bit_xor (bit_xor (slice_index sums 3) (slice_index sums 1)) (slice_index last 3) }
{
    sums ^ before.shuffle(sums, [2, 3, 4, 5]) ^ last
}

/// `run` by at most `A + B` places. Two vectors keep the words that were written last: the first `A` of them,
/// and the last `B`.
fn run_columns<const A: usize, const B: usize>(c: &mut [u64], d: &[u64], step: usize)
    requires same { length c.old ≡ length d.now }
    requires some { 0 < A }
    requires first { A ≤ step }
    requires last { B ≤ step }
    requires all { step ≤ A + B }
    ensures first { (k : ℕ) → k < length d.now → k < step → slice_index c.new k ≡ bit_xor (slice_index c.old k) (slice_index d.now k) }
    ensures next { (k : ℕ) → k + step < length d.now →
        slice_index c.new (k + step) ≡ bit_xor (bit_xor (slice_index c.old (k + step)) (slice_index d.now (k + step))) (slice_index c.new k) }
{
    let mut front = Simd::<u64, A>::splat(0);
    let mut back = Simd::<u64, B>::splat(0);
    let mut at = 0;
    'rows: while c.len() - at >= step {
        let behind = at + (step - B);
        let near = Simd::<u64, A>::from_slice(&c[at..]) ^ Simd::<u64, A>::from_slice(&d[at..]);
        let far = Simd::<u64, B>::from_slice(&c[behind..])
            ^ Simd::<u64, B>::from_slice(&d[behind..]);
        front = near ^ front;
        back = far ^ back;
        front.copy_to_slice(&mut c[at..]);
        back.copy_to_slice(&mut c[behind..]);
        at += step;
    }
    'rest: for t in at..c.len() {
        let before = word_before(c, t, step);
        c[t] = c[t] ^ d[t] ^ before;
    }
}

/// The word `step` places before place `t`, or zero where there is none.
fn word_before(c: &[u64], t: usize, step: usize) -> u64
    requires { t < length c.now }
    ensures start { t < step → result ≡ 0 }
    ensures back { (k : ℕ) → k + step ≡ t → result ≡ slice_index c.now k }
{
    if t < step { 0 } else { c[t - step] }
}

/// `run` by more places, row by row of `step` words.
fn run_rows(c: &mut [u64], d: &[u64], step: usize)
    requires same { length c.old ≡ length d.now }
    requires step { 0 < step }
    ensures first { (k : ℕ) → k < length d.now → k < step → slice_index c.new k ≡ bit_xor (slice_index c.old k) (slice_index d.now k) }
    ensures next { (k : ℕ) → k + step < length d.now →
        slice_index c.new (k + step) ≡ bit_xor (bit_xor (slice_index c.old (k + step)) (slice_index d.now (k + step))) (slice_index c.new k) }
{
    xor_into(c, d);
    let mut at = step;
    while at < c.len() {
        let end = if c.len() - at < step {
            c.len()
        } else {
            at + step
        };
        add_row(c, at, end, step);
        at = end;
    }
}

/// Adds to the words from `at` to `end` those that stand `step` places before them.
fn add_row(c: &mut [u64], at: usize, end: usize, step: usize)
    requires low { step ≤ at }
    requires order { at ≤ end }
    requires short { end ≤ at + step }
    requires within { end ≤ length c.old }
    ensures inside { (k : ℕ) → at ≤ k + step → k + step < end → slice_index c.new (k + step) ≡ bit_xor (slice_index c.old (k + step)) (slice_index c.old k) }
    ensures below { (k : ℕ) → k < at → slice_index c.new k ≡ slice_index c.old k }
    ensures above { (k : ℕ) → end ≤ k → slice_index c.new k ≡ slice_index c.old k }
{
    let (before, now) = c.split_at_mut(at);
    xor_into(&mut now[..end - at], &before[at - step..end - step]);
}
