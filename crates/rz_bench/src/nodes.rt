//! A storage node with a key on each of its pairs.

ghost use Rattle.std.specs.Prelude.{◌≡◌, ◌+◌, ◌<◌, ◌≤◌, IfOk, length};
ghost use Rattle.mj_angles.specs.declared.layout.Layout.TheVariants.{L0};
ghost use Rattle.rz_record.specs.Record.{IsValid, bins_of};

use crate::blank::Blank;
use crate::tally::{Tally, spread};
use rz_events::Layout;
use rz_node::{DropAnswer, FetchAnswer, Geometry, Head, KeepAnswer, Key, Node, RefillAnswer};
use std::alloc::{AllocError, Global};

/// As many bins as a record of layout 0 has at position 0, and at most.
const BINS: [u64; 258] = [7; 258];

/// The stamp with which each key is kept first.
const FIRST: u64 = 1;

/// A node over a disk that keeps nothing.
#[derive(Drop)]
pub struct FullNode {
    node: Node<Blank>,
    pairs: u32,
    ghost layout: { node.geometry.layout ≡ L0 },
    ghost some: { 1 ≤ pairs },
}

/// The key of this number, which is the one block of its file.
fn key_of(number: u32) -> Key
    ensures { result ≡ record { fid = number + 1; block = 0 } }
{
    Key {
        fid: u128::from(number) + 1,
        block: 0,
    }
}

/// A head at position 0 of layout 0.
#[tactic(auto, unfolding(rz_record::specs::Record::bins_of))]
fn head_of(number: u32, stamp: u64) -> Head
    requires { 1 ≤ stamp }
    ensures valid { IsValid result }
    ensures stamp { result.stamp ≡ stamp }
    ensures key { result.key ≡ record { fid = number + 1; block = 0 } }
    ensures layout { result.layout ≡ L0 }
    ensures bins { bins_of result ≡ 258 }
{
    Head {
        stamp,
        key: key_of(number),
        layout: Layout::L0,
        bsize: 0,
        position: 0,
        length: 4096,
        base: 0,
    }
}

impl FullNode {
    /// A node of layout 0 with so many pairs, which holds nothing.
    pub fn format(alloc: Global, pairs: u32) -> Result<FullNode, AllocError>
        requires some { 1 ≤ pairs }
        requires few { pairs ≤ 1048576 }
    {
        let geometry = Geometry {
            layout: Layout::L0,
            bsize: 0,
            node: 1,
            cells: pairs,
        };
        match Node::format(alloc, geometry, Blank::new()) {
            Ok(node) => Ok(FullNode { node, pairs }),
            Err(_) => Err(AllocError),
        }
    }

    fn keep(&mut self, number: u32, stamp: u64) -> KeepAnswer
        requires { 1 ≤ stamp }
    {
        let head = head_of(number, stamp);
        self.node.keep(&head, &BINS)
    }

    /// Keeps a record of a new key on each pair.
    pub fn fill(&mut self) -> Tally
        ensures { result.calls ≡ self.old.pairs }
    {
        let pairs = self.pairs;
        let mut tally = Tally::none();
        for number in 0..pairs {
            let answer = self.keep(number, FIRST);
            tally.note(matches!(answer, KeepAnswer::Kept));
        }
        tally
    }

    /// Keeps records of keys for which no pair is left.
    pub fn overfill(&mut self, calls: u32) -> Tally
        ensures { result.calls ≡ calls }
    {
        let mut tally = Tally::none();
        for call in 0..calls {
            let answer = self.keep(self.pairs.saturating_add(call), FIRST);
            tally.note(matches!(answer, KeepAnswer::Full));
        }
        tally
    }

    /// Drops the one record of a key, and keeps it anew.
    pub fn drop_and_keep(&mut self, calls: u32) -> Tally
        ensures { result.calls ≡ calls }
    {
        let mut tally = Tally::none();
        for call in 0..calls {
            let number = spread(call, self.pairs);
            let gone = self.node.drop_next(key_of(number).fid);
            let back = self.keep(number, FIRST);
            tally.note(
                matches!(gone, DropAnswer::Dropped { more: false, .. })
                    && matches!(back, KeepAnswer::Kept),
            );
        }
        tally
    }

    /// Fetches records with their first stamp.
    pub fn fetch(&mut self, calls: u32) -> Tally
        ensures { result.calls ≡ calls }
    {
        let mut tally = Tally::none();
        let mut bins = BINS;
        for call in 0..calls {
            let key = key_of(spread(call, self.pairs));
            let answer = self.node.fetch_into(key, FIRST, &mut bins);
            tally.note(matches!(answer, FetchAnswer::Held(_)));
        }
        tally
    }

    /// Refills records that are held.
    pub fn refill(&mut self, calls: u32) -> Tally
        ensures { result.calls ≡ calls }
    {
        let mut tally = Tally::none();
        for call in 0..calls {
            let head = head_of(spread(call, self.pairs), FIRST);
            let answer = self.node.refill(0, &head, &BINS);
            tally.note(matches!(answer, RefillAnswer::Passed { held: FIRST }));
        }
        tally
    }

    /// Keeps newer records of keys that are held, each with a stamp of its own.
    pub fn renew(&mut self, calls: u32) -> Tally
        ensures { result.calls ≡ calls }
    {
        let mut tally = Tally::none();
        for call in 0..calls {
            let number = spread(call, self.pairs);
            let answer = self.keep(number, FIRST + 1 + u64::from(call));
            tally.note(matches!(answer, KeepAnswer::Kept));
        }
        tally
    }
}
