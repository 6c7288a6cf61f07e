//! The heads of cells, in little room.
ghost use Rattle.std.specs.Prelude.{◌≡◌, ◌*◌, ◌<◌, ℕ, IfOk, Some, None, length, slice_set};
ghost use Rattle.rz_events.specs.declared.keys.Key.{Key};
ghost use Rattle.rz_events.specs.declared.records.Head.{Head};
ghost use Rattle.rz_cells_slots.specs.Held.{in_cell};
ghost use Rattle.rz_cells_slots.specs.Packed.{FitsPair, head_at, key_in, one_in, zero_in};

use rz_events::{Head, Key, Layout};
use std::alloc::{AllocError, Global};
use std::marker::Model;
use std::mem::size_of;

/// So many numbers has one half of a file's number.
const HALF: u128 = 1 << 64;

/// A head without its key, or that there is none. It takes 24 bytes: two numbers of 8, one of 4, and four of 1.
#[derive(Clone, Copy, Drop)]
pub struct Slot {
    pub stamp: u64,
    pub base: u64,
    pub length: u32,
    pub layout: Layout,
    pub bsize: u8,
    pub position: u8,
    pub is_held: bool,
}

/// The heads of two cells, which have one key. It takes 72 bytes: the key 24 and each slot 24. The file's number is in
/// halves, since a `u128` stands at a multiple of 16 bytes, and a pair would take 80.
#[derive(Clone, Copy, Drop)]
pub struct Pair {
    pub fid_high: u64,
    pub fid_low: u64,
    pub block: u64,
    pub zero: Slot,
    pub one: Slot,
}

const _: () = prove!(size_of::<Pair>() == 72);

const EMPTY: Slot = Slot {
    stamp: 0,
    base: 0,
    length: 0,
    layout: Layout::L0,
    bsize: 0,
    position: 0,
    is_held: false,
};

const FREE: Pair = Pair {
    fid_high: 0,
    fid_low: 0,
    block: 0,
    zero: EMPTY,
    one: EMPTY,
};

/// The heads of the cells of a disk, 36 bytes for each cell. To a contract they are a list.
#[derive(Drop)]
pub struct Heads {
    pairs: Vec<Pair>,
}

impl Model for Heads {
    ghost use Rattle.std.specs.Prelude.{List, Option};
    ghost use Rattle.std.specs.Coded.{coded_list, coded_option};
    ghost use Rattle.rz_events.specs.declared.records.Head.{Head};
    ghost use Rattle.rz_events.specs.contracts.records.Head as records;
    ghost use Rattle.rz_cells_slots.specs.Packed.{heads_in};

    ghost Value = { List (Option Head) };

    ghost coded = { coded_list (coded_option records.the_row.coded) };

    ghost view = { λ h. heads_in h.pairs.items };
}

impl Heads {
    /// The heads of so many pairs of cells, which are empty.
    pub fn new(alloc: Global, pairs: u32) -> Result<Heads, AllocError>
        ensures count { IfOk result (λ h. length h ≡ 2 * pairs) }
        ensures empty { IfOk result (λ h. (c : ℕ) → in_cell h c ≡ None) }
    {
        Ok(Heads {
            pairs: Vec::from_elem(alloc, FREE, pairs as usize)?,
        })
    }

    /// The head in a cell.
    pub fn get(&self, cell: u32) -> Option<Head>
        requires { cell < length self.now }
        ensures { result ≡ in_cell self.now cell }
    {
        let pair = &self.pairs[cell as usize / 2];
        if cell % 2 == 0 {
            head_of(key_of(pair), &pair.zero)
        } else {
            head_of(key_of(pair), &pair.one)
        }
    }

    /// Puts a head into a cell, or none, beside an empty cell or one with the same key.
    pub fn set(&mut self, cell: u32, head: &Option<Head>)
        requires cell { cell < length self.old }
        requires key { FitsPair self.old cell head.now }
        ensures { self.new ≡ slice_set self.old cell head.now }
    {
        let index = cell as usize / 2;
        if cell % 2 == 0 {
            let pair = with_zero(&self.pairs[index], head);
            self.pairs[index] = pair;
        } else {
            let pair = with_one(&self.pairs[index], head);
            self.pairs[index] = pair;
        }
    }

    /// Empties all cells.
    pub fn clear(&mut self)
        ensures count { length self.new ≡ length self.old }
        ensures empty { (c : ℕ) → in_cell self.new c ≡ None }
    {
        self.pairs.fill(FREE);
    }
}

/// The pair with another head in its first cell, or with none there.
fn with_zero(pair: &Pair, head: &Option<Head>) -> Pair
    requires { (h k : Head) → head.now ≡ Some h → one_in pair.now ≡ Some k → k.key ≡ h.key }
    ensures zero { zero_in result ≡ head.now }
    ensures one { one_in result ≡ one_in pair.now }
{
    pair_of(key_beside(pair, head), slot_of(head), pair.one)
}

/// The pair with another head in its second cell, or with none there.
fn with_one(pair: &Pair, head: &Option<Head>) -> Pair
    requires { (h k : Head) → head.now ≡ Some h → zero_in pair.now ≡ Some k → k.key ≡ h.key }
    ensures zero { zero_in result ≡ zero_in pair.now }
    ensures one { one_in result ≡ head.now }
{
    pair_of(key_beside(pair, head), pair.zero, slot_of(head))
}

fn pair_of(key: Key, zero: Slot, one: Slot) -> Pair
    ensures key { key_in result ≡ key }
    ensures zero { result.zero ≡ zero }
    ensures one { result.one ≡ one }
{
    Pair {
        fid_high: (key.fid / HALF) as u64,
        fid_low: (key.fid % HALF) as u64,
        block: key.block,
        zero,
        one,
    }
}

fn key_of(pair: &Pair) -> Key
    ensures { result ≡ key_in pair.now }
{
    Key {
        fid: pair.fid_high as u128 * HALF + pair.fid_low as u128,
        block: pair.block,
    }
}

/// The head's key, or without a head the pair's.
fn key_beside(pair: &Pair, head: &Option<Head>) -> Key
    ensures some { (h : Head) → head.now ≡ Some h → result ≡ h.key }
    ensures none { head.now ≡ None → result ≡ key_in pair.now }
{
    match head {
        Some(head) => head.key,
        None => key_of(pair),
    }
}

/// What a slot says under its pair's key.
fn head_of(key: Key, slot: &Slot) -> Option<Head>
    ensures { result ≡ head_at key slot.now }
{
    if slot.is_held {
        Some(Head {
            stamp: slot.stamp,
            key,
            layout: slot.layout,
            bsize: slot.bsize,
            position: slot.position,
            length: slot.length,
            base: slot.base,
        })
    } else {
        None
    }
}

/// A head without its key, or that there is none.
fn slot_of(head: &Option<Head>) -> Slot
    ensures some { (h : Head) → head.now ≡ Some h → head_at h.key result ≡ head.now }
    ensures none { (key : Key) → head.now ≡ None → head_at key result ≡ head.now }
{
    match head {
        Some(head) => Slot {
            stamp: head.stamp,
            base: head.base,
            length: head.length,
            layout: head.layout,
            bsize: head.bsize,
            position: head.position,
            is_held: true,
        },
        None => EMPTY,
    }
}
