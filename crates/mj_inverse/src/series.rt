//! A projection, or what is left of one.

ghost use Rattle.std.specs.Prelude.{IfOk, ◌≡◌, ◌≢◌, ◌≤◌, ◌<◌, ◌+◌, ◌-◌, ◌*◌, ℕ, length, vec_capacity, slice_index, slice_range, unsigned_abs, min, max, true};
ghost use Rattle.mj_inverse_sums.specs.Polynomials.{plus, raised, times, IsFinite};
ghost use Rattle.mj_inverse.specs.Rows.{cut};
ghost use Rattle.rz_words.specs.Grid.{IsShape};
ghost use Rattle.mj_angles.specs.Projection.{bins as bin_count};
ghost use Rattle.mj_angles.proofs.Order.{lifted};
ghost use Rattle.mj_inverse.specs.Store.{IsSpare, IsGiven};
ghost use Rattle.mj_inverse.specs.Series.{seq, IsSeries, IsNext, IsUnmarked, IsBlank, IsSpread, IsTrimmed, KeepsRoom, Meet};

use crate::ends::{are_zero, end_of_used, first_used, padded_end};
use mj_inverse_sums::{add_within, add_zeros, give_words, put_words, run_within, take_rest};
use std::alloc::{AllocError, Global};

/// The words of a sequence: place `origin` of the list holds its word number 0.
#[derive(Drop)]
pub struct Series {
    /// The angle of the projection.
    pub direction: i32,
    /// The angle, raised so that it is none below zero.
    pub angle: usize,
    pub origin: usize,
    /// All words before this place are zero.
    pub from: usize,
    /// All words from this place on are zero.
    pub to: usize,
    /// So many places there are now.
    pub room: usize,
    pub words: Vec<u64>,
}

/// The angle, raised by 16.
fn lifted_angle(p: i32) -> usize
    requires { unsigned_abs p ≤ 16 }
    ensures value { result ≡ lifted 16 p }
    ensures small { result ≤ 32 }
{
    (p + 16) as usize
}

impl Series {
    /// Blank, with room for a projection of a block of this size, and for what becomes of it.
    pub fn new(alloc: Global, rows: usize, cols: usize, unit: usize) -> Result<Series, AllocError>
        requires shape { IsShape rows cols }
        requires few { unit ≤ 8 }
        ensures { IfOk result (IsSpare unit rows cols) }
    {
        let words = Vec::with_capacity(alloc, unit * (cols + 64 * rows))?;
        Ok(Series {
            direction: 0,
            angle: 0,
            origin: 0,
            from: 0,
            to: 0,
            room: 0,
            words,
        })
    }

    /// Adds `by`, and divides by what the two angles differ in. Marks the blocks where something remains.
    pub fn divide_out(&mut self, by: &Series, unit: usize, bad: &mut [u64])
        requires meet { Meet unit self.old by.now }
        requires differ { self.old.angle ≢ by.now.angle }
        requires blocks { length bad.old ≡ unit }
        ensures next { IsNext unit by.now self.old self.new }
        ensures exact { (j : ℕ) → j < unit → IsUnmarked bad.new j → IsUnmarked bad.old j ×
            (plus (seq unit j self.old) (seq unit j by.now) ≡ times self.old.angle by.now.angle (seq unit j self.new)) }
        ensures divides { (j : ℕ) (h : ℕ → ℕ) → j < unit → IsUnmarked bad.old j → IsFinite h →
            plus (seq unit j self.old) (seq unit j by.now) ≡ times self.old.angle by.now.angle h → IsUnmarked bad.new j }
    {
        let down = self.angle.min(by.angle);
        let step = self.angle.max(by.angle) - down;
        let start = self.origin + down;
        let from = self.from.min(self.origin + (by.from - by.origin));
        let to = self.to.max(self.origin + (by.to - by.origin));
        let at = by.origin + (from - self.origin);
        run_within(
            &mut self.words,
            unit * from,
            unit * to,
            &by.words,
            unit * at,
            unit * step,
        );
        let first = from.max(start);
        let end = to.saturating_sub(step).max(start);
        let far = to.max(end);
        let last = padded_end(end, far, self.room);
        take_rest(&mut self.words, unit, from, first, bad);
        take_rest(&mut self.words, unit, end, last, bad);
        self.origin = start;
        self.from = first.min(end);
        self.to = end;
    }

    /// Leaves out the places at both ends that have no word but zero. What is made of the rows later is as
    /// much shorter.
    pub fn trim(&mut self, unit: usize)
        requires { IsSeries unit self.old }
        ensures { IsTrimmed unit self.old self.new }
    {
        let from = first_used(&self.words, unit, self.from, self.to);
        let to = end_of_used(&self.words, unit, from, self.to);
        self.from = from;
        self.to = to;
    }

    /// Adds `other`, moved up by `up` places.
    pub fn add_raised(&mut self, other: &Series, up: usize, unit: usize)
        requires is { IsSeries unit self.old }
        requires other { IsSeries unit other.now }
        requires low { other.now.origin ≤ other.now.from }
        requires room { self.old.origin + up + other.now.to ≤ other.now.origin + self.old.room }
        ensures is { IsSeries unit self.new }
        ensures angle { self.new.angle ≡ self.old.angle }
        ensures room { self.new.room ≡ self.old.room }
        ensures capacity { KeepsRoom self.old self.new }
        ensures origin { self.new.origin ≡ self.old.origin }
        ensures from { self.new.from ≡ min self.old.from (self.old.origin + up + (other.now.from - other.now.origin)) }
        ensures to { self.new.to ≡ max self.old.to (self.old.origin + up + (other.now.to - other.now.origin)) }
        ensures sum { (j : ℕ) → j < unit → seq unit j self.new ≡ plus (seq unit j self.old) (raised up (seq unit j other.now)) }
    {
        let from = self.origin + up + (other.from - other.origin);
        let to = from + (other.to - other.from);
        let most = other.room.min(other.from + (self.room - from));
        let end = padded_end(other.from, other.to, most);
        add_within(
            &mut self.words,
            unit * from,
            &other.words,
            unit * other.from,
            unit * end,
        );
        self.from = self.from.min(from);
        self.to = self.to.max(to);
    }

    /// Whether no words are other than zero but those of each block from number `at` on, which are `cols`.
    pub fn is_row(&self, at: usize, cols: usize, unit: usize) -> bool
        requires is { IsSeries unit self.now }
        requires low { self.now.origin ≤ self.now.from }
        requires room { self.now.origin + at + cols ≤ self.now.room }
        ensures row { result ≡ true → (j : ℕ) → j < unit → (w : ℕ → ℕ) × (seq unit j self.now ≡ raised at (cut cols w)) }
        ensures fits { ((j : ℕ) → j < unit → (w : ℕ → ℕ) × (seq unit j self.now ≡ raised at (cut cols w))) → result ≡ true }
    {
        let start = self.origin + at;
        let end = start + cols;
        let before = are_zero(&self.words, unit, self.from.min(start), start);
        let behind = are_zero(&self.words, unit, end, self.to.max(end));
        before && behind
    }

    /// Writes the words from number `at` on into `out`, and forgets all words.
    pub fn give_row(&mut self, at: usize, cols: usize, unit: usize, out: &mut [u64])
        requires is { IsSeries unit self.old }
        requires room { self.old.origin + at + cols ≤ self.old.room }
        requires out { length out.old ≡ unit * cols }
        ensures blank { IsBlank self.new }
        ensures capacity { KeepsRoom self.old self.new }
        ensures row { (j : ℕ) (w : ℕ → ℕ) → j < unit → seq unit j self.old ≡ raised at (cut cols w) →
            seq unit j self.old ≡ raised at (cut cols (λ k. slice_index out.new (unit * k + j))) }
    {
        let start = self.origin + at;
        let end = start + cols;
        give_words(&mut self.words, unit * start, unit * end, out);
    }

    /// Takes the bins of a projection at the angle `p`.
    pub fn put(&mut self, p: i32, rows: usize, cols: usize, unit: usize, bins: &[u64])
        requires spare { IsSpare unit rows cols self.old }
        requires some { 0 < unit }
        requires shape { IsShape rows cols }
        requires small { unsigned_abs p ≤ 16 }
        requires size { length bins.now ≡ unit * bin_count p rows cols }
        ensures given { IsGiven unit rows cols self.new }
        ensures direction { self.new.direction ≡ p }
        ensures bins { slice_range self.new.words.items (unit * self.new.from) (unit * self.new.to) ≡ bins.now }
    {
        let from = 16 * rows - mj_angles::offset(p, rows);
        let to = from + mj_angles::bins(p, rows, cols);
        put_words(&mut self.words, unit * from, bins);
        self.direction = p;
        self.angle = lifted_angle(p);
        self.origin = 0;
        self.from = from;
        self.to = to;
        self.room = to;
    }

    /// Makes places until there are `room`.
    pub fn spread(&mut self, unit: usize, room: usize)
        requires is { IsSeries unit self.old }
        requires more { self.old.room ≤ room }
        requires capacity { unit * room ≤ vec_capacity self.old.words }
        ensures spread { IsSpread unit self.old self.new }
        ensures room { self.new.room ≡ room }
    {
        add_zeros(&mut self.words, unit * room);
        self.room = room;
    }

    /// Forgets all words.
    pub fn wipe(&mut self)
        ensures blank { IsBlank self.new }
        ensures capacity { KeepsRoom self.old self.new }
    {
        self.words.clear();
    }
}
