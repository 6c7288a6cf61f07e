//! What the disks in memory keep: the text, what the last sync left of it, and a mark for each byte
//! that was written since.
//!
//! Room for all of it is reserved when a disk is reset, and no byte is touched before it is written, so
//! that the system gives memory for what is used alone, and a write takes none.
ghost use Rattle.std.specs.Prelude.{◌≡◌, ◌+◌, ◌-◌, ◌≤◌, ◌<◌, ℕ, true, false, List, [], length, replicate, slice_index, slice_index_or, vec_capacity, IfOk};
ghost use Rattle.rz_disk.specs.Images.{window, Written};
ghost use Rattle.rz_disk.specs.Stored.{settled, Writes, Marked, Picked, picked_byte, padded, patched};

use std::alloc::{AllocError, Global};
use std::marker::Model;

#[derive(Drop)]
pub(crate) struct Medium {
    size: usize,
    /// Up to the greatest address that was written. The bytes behind are zeros.
    text: Vec<u8>,
    /// Where the range begins that holds all bytes written since the last sync.
    from: usize,
    /// What the last sync left of that range.
    synced: Vec<u8>,
    /// Which bytes of that range were written since.
    marks: Vec<bool>,
}

impl Model for Medium {
    ghost use Rattle.std.specs.Prelude.{◌≤◌, false, replicate, vec_capacity};
    ghost use Rattle.rz_disk.specs.Stored.{Stored, IsHeld, padded, patched};

    ghost Value = { Stored };

    ghost view = { λ m. record {
      text = padded m.size m.text.items;
      synced = padded m.size (patched m.from m.synced.items m.text.items);
      marks = patched m.from m.marks.items (replicate m.size false);
    } };

    ghost invariant = { λ m. IsHeld m.size m.text.items m.from m.synced.items m.marks.items
        × (m.size ≤ vec_capacity m.text)
        × (m.size ≤ vec_capacity m.synced)
        × (m.size ≤ vec_capacity m.marks) };
}

impl Medium {
    pub(crate) fn new(alloc: Global) -> Medium
        ensures { result ≡ settled [] }
    {
        Medium {
            size: 0,
            text: Vec::new(alloc),
            from: 0,
            synced: Vec::new(alloc),
            marks: Vec::new(alloc),
        }
    }

    pub(crate) fn zeros(alloc: Global, size: u64) -> Result<Medium, AllocError>
        ensures { IfOk result (λ m. m ≡ settled (replicate size 0)) }
    {
        let size = size as usize;
        Ok(Medium {
            size,
            text: Vec::with_capacity(alloc, size)?,
            from: 0,
            synced: Vec::with_capacity(alloc, size)?,
            marks: Vec::with_capacity(alloc, size)?,
        })
    }

    pub(crate) fn len(&self) -> u64
        ensures { result ≡ length self.now.text }
    {
        self.size as u64
    }

    pub(crate) fn read(&self, at: u64, out: &mut [u8])
        requires { at + length out.old ≤ length self.now.text }
        ensures { out.new ≡ window at (length out.old) self.now.text }
    {
        copy_out(&self.text, at as usize, out);
    }

    pub(crate) fn write(&mut self, at: u64, bytes: &[u8])
        requires { at + length bytes.now ≤ length self.old.text }
        ensures { Writes at bytes.now self.old self.new }
    {
        if bytes.is_empty() {
            return;
        }
        let start = at as usize;
        prove!(start <= self.size);
        let end = start + bytes.len();
        grow(&mut self.text, end);
        begin_at(
            &mut self.from,
            &mut self.synced,
            &mut self.marks,
            &self.text,
            start,
        );
        reach(
            self.from,
            &mut self.synced,
            &mut self.marks,
            &self.text,
            end,
        );
        overwrite(&mut self.text, start, bytes);
        mark(&mut self.marks, start - self.from, bytes.len());
    }

    pub(crate) fn sync(&mut self)
        ensures { self.new ≡ settled self.old.text }
    {
        self.synced.clear();
        self.marks.clear();
    }

    pub(crate) fn crash(&mut self, pick: u64)
        ensures left { Picked pick self.old.synced self.old.marks self.old.text self.new.text }
        ensures settled { self.new ≡ settled self.new.text }
    {
        lose(&mut self.text, &self.synced, &self.marks, self.from, pick);
        self.sync();
    }
}

/// Copies the bytes from `at` on out. Behind the text are zeros.
fn copy_out(text: &Vec<u8>, at: usize, out: &mut [u8])
    ensures size { length out.new ≡ length out.old }
    ensures there { (i : ℕ) → i < length out.old → at + i < length text.now.items
        → slice_index out.new i ≡ slice_index text.now.items (at + i) }
    ensures behind { (i : ℕ) → i < length out.old → length text.now.items ≤ at + i
        → slice_index out.new i ≡ 0 }
{
    let start = at.min(text.len());
    let count = out.len().min(text.len() - start);
    out[..count].copy_from_slice(&text[start..start + count]);
    out[count..].fill(0);
}

/// Makes the text reach an address.
fn grow(text: &mut Vec<u8>, end: usize)
    requires { end ≤ vec_capacity text.old }
    ensures reaches { end ≤ length text.new.items }
    ensures longer { length text.old.items ≤ length text.new.items }
    ensures bounded { (size : ℕ) → end ≤ size → length text.old.items ≤ size
        → length text.new.items ≤ size }
    ensures same { (size : ℕ) → length text.new.items ≤ size
        → padded size text.new.items ≡ padded size text.old.items }
    ensures grown { text.new.items ≡ padded (length text.new.items) text.old.items }
    ensures capacity { vec_capacity text.old ≤ vec_capacity text.new }
{
    if text.len() < end {
        let _ = text.resize(end, 0);
    }
}

/// Takes the bytes `at..to` of a text over, behind those that are there.
fn take_behind(part: &mut Vec<u8>, text: &Vec<u8>, at: usize, to: usize)
    requires ordered { at ≤ to }
    requires fits { to ≤ length text.now.items }
    requires room { length part.old.items + (to - at) ≤ vec_capacity part.old }
    ensures size { length part.new.items ≡ length part.old.items + (to - at) }
    ensures old { (i : ℕ) → i < length part.old.items
        → slice_index part.new.items i ≡ slice_index part.old.items i }
    ensures taken { (i : ℕ) → i < to - at
        → slice_index part.new.items (length part.old.items + i)
        ≡ slice_index text.now.items (at + i) }
    ensures capacity { vec_capacity part.old ≤ vec_capacity part.new }
{
    let _ = part.extend_from_slice(&text[at..to]);
}

/// The same, before those that are there.
fn take_before(part: &mut Vec<u8>, text: &Vec<u8>, at: usize, to: usize)
    requires ordered { at ≤ to }
    requires fits { to ≤ length text.now.items }
    requires room { length part.old.items + (to - at) ≤ vec_capacity part.old }
    ensures size { length part.new.items ≡ length part.old.items + (to - at) }
    ensures old { (i : ℕ) → i < length part.old.items
        → slice_index part.new.items (to - at + i) ≡ slice_index part.old.items i }
    ensures taken { (i : ℕ) → i < to - at
        → slice_index part.new.items i ≡ slice_index text.now.items (at + i) }
    ensures capacity { vec_capacity part.old ≤ vec_capacity part.new }
{
    take_behind(part, text, at, to);
    part.rotate_right(to - at);
}

/// Puts so many bytes without a mark behind the others.
fn unmark_behind(marks: &mut Vec<bool>, n: usize)
    requires room { length marks.old.items + n ≤ vec_capacity marks.old }
    ensures size { length marks.new.items ≡ length marks.old.items + n }
    ensures old { (i : ℕ) → i < length marks.old.items
        → slice_index_or marks.new.items i false ≡ slice_index_or marks.old.items i false }
    ensures unmarked { (i : ℕ) → i < n
        → slice_index_or marks.new.items (length marks.old.items + i) false ≡ false }
    ensures capacity { vec_capacity marks.old ≤ vec_capacity marks.new }
{
    let _ = marks.resize(marks.len() + n, false);
}

/// The same, before the others.
fn unmark_before(marks: &mut Vec<bool>, n: usize)
    requires room { length marks.old.items + n ≤ vec_capacity marks.old }
    ensures size { length marks.new.items ≡ length marks.old.items + n }
    ensures old { (i : ℕ) → i < length marks.old.items
        → slice_index_or marks.new.items (n + i) false ≡ slice_index_or marks.old.items i false }
    ensures unmarked { (i : ℕ) → i < n → slice_index_or marks.new.items i false ≡ false }
    ensures capacity { vec_capacity marks.old ≤ vec_capacity marks.new }
{
    unmark_behind(marks, n);
    marks.rotate_right(n);
}

/// Makes the range begin at an address, where it begins behind it. An empty one begins there.
fn begin_at(
    from: &mut usize,
    synced: &mut Vec<u8>,
    marks: &mut Vec<bool>,
    text: &Vec<u8>,
    start: usize,
)
    requires one_length { length marks.old.items ≡ length synced.old.items }
    requires fits { from.old + length synced.old.items ≤ length text.now.items }
    requires start { start ≤ length text.now.items }
    requires room { length text.now.items ≤ vec_capacity synced.old }
    requires room_of_marks { length text.now.items ≤ vec_capacity marks.old }
    ensures begins { from.new ≤ start }
    ensures fits { from.new + length synced.new.items ≤ length text.now.items }
    ensures one_length { length marks.new.items ≡ length synced.new.items }
    ensures synced { patched from.new synced.new.items text.now.items
        ≡ patched from.old synced.old.items text.now.items }
    ensures marks { (size : ℕ) → length text.now.items ≤ size
        → patched from.new marks.new.items (replicate size false)
        ≡ patched from.old marks.old.items (replicate size false) }
    ensures capacity { vec_capacity synced.old ≤ vec_capacity synced.new }
    ensures capacity_of_marks { vec_capacity marks.old ≤ vec_capacity marks.new }
{
    if marks.is_empty() {
        *from = start;
    } else if start < *from {
        take_before(synced, text, start, *from);
        unmark_before(marks, *from - start);
        *from = start;
    }
}

/// Makes the range reach an address.
fn reach(from: usize, synced: &mut Vec<u8>, marks: &mut Vec<bool>, text: &Vec<u8>, end: usize)
    requires one_length { length marks.old.items ≡ length synced.old.items }
    requires fits { from + length synced.old.items ≤ length text.now.items }
    requires end { end ≤ length text.now.items }
    requires room { length text.now.items ≤ vec_capacity synced.old }
    requires room_of_marks { length text.now.items ≤ vec_capacity marks.old }
    ensures ends { end ≤ from + length synced.new.items }
    ensures fits { from + length synced.new.items ≤ length text.now.items }
    ensures one_length { length marks.new.items ≡ length synced.new.items }
    ensures synced { patched from synced.new.items text.now.items
        ≡ patched from synced.old.items text.now.items }
    ensures marks { (size : ℕ) → length text.now.items ≤ size
        → patched from marks.new.items (replicate size false)
        ≡ patched from marks.old.items (replicate size false) }
    ensures capacity { vec_capacity synced.old ≤ vec_capacity synced.new }
    ensures capacity_of_marks { vec_capacity marks.old ≤ vec_capacity marks.new }
{
    let to = from + synced.len();
    if end <= to {
        return;
    }
    take_behind(synced, text, to, end);
    unmark_behind(marks, end - to);
}

fn overwrite(text: &mut Vec<u8>, at: usize, bytes: &[u8])
    requires { at + length bytes.now ≤ length text.old.items }
    ensures written { Written at bytes.now text.old.items text.new.items }
    ensures capacity { vec_capacity text.new ≡ vec_capacity text.old }
{
    text[at..at + bytes.len()].copy_from_slice(bytes);
}

fn mark(marks: &mut Vec<bool>, at: usize, n: usize)
    requires { at + n ≤ length marks.old.items }
    ensures marked { Marked true at n marks.old.items marks.new.items }
    ensures capacity { vec_capacity marks.new ≡ vec_capacity marks.old }
{
    marks[at..at + n].fill(true);
}

/// Changes the marked bytes of a range as a crash does.
fn lose(text: &mut Vec<u8>, synced: &Vec<u8>, marks: &Vec<bool>, from: usize, pick: u64)
    requires one_length { length marks.now.items ≡ length synced.now.items }
    requires fits { from + length synced.now.items ≤ length text.old.items }
    ensures size { length text.new.items ≡ length text.old.items }
    ensures marked { (i : ℕ) → slice_index_or marks.now.items i false ≡ true
        → slice_index text.new.items (from + i)
        ≡ picked_byte pick (from + i) (slice_index synced.now.items i)
        (slice_index text.old.items (from + i)) }
    ensures unmarked { (i : ℕ) → slice_index_or marks.now.items i false ≡ false
        → slice_index text.new.items (from + i) ≡ slice_index text.old.items (from + i) }
    ensures below { (i : ℕ) → i < from
        → slice_index text.new.items i ≡ slice_index text.old.items i }
    ensures capacity { vec_capacity text.new ≡ vec_capacity text.old }
{
    for i in 0..marks.len() {
        if marks[i] {
            text[from + i] = picked(pick, from + i, synced[i], text[from + i]);
        }
    }
}

fn picked(pick: u64, at: usize, old: u8, new: u8) -> u8
    ensures { result ≡ picked_byte pick at old new }
{
    match pick {
        0 => old,
        1 => new,
        _ => (pick.wrapping_mul(at as u64).wrapping_add(pick) % 256) as u8,
    }
}
