//! The sequence.

ghost use Rattle.std.specs.Prelude.{ℕ, suc, ◌≡◌, ◌+◌, ◌-◌, ◌^◌, ◌<◌, ◌≤◌, true, false, [], ◌∷◌, ◌++◌, take, drop, length, Some, OnOk, OnErr, MatchOption};
ghost use Rattle.std.specs.List.{list_any, slice_get};
ghost use Rattle.std.specs.Option.{option_copied, option_map};

use crate::mark::Mark;
use std::alloc::{AllocError, Global};
use std::fmt::{Debug, Formatter};
use std::marker::Model;
use std::{fmt, mem};

/// A list of items.
#[cycle(sequence)]
#[derive(Drop)]
pub struct Sequence<T: Mark> {
    root: Option<Box<TreeNode<T>>>,
}

// An item with those before and behind it.
#[cycle(sequence)]
#[derive(Drop)]
struct TreeNode<T: Mark> {
    left: Sequence<T>,
    item: T,
    right: Sequence<T>,
    len: usize,
    height: u8,
    marked: bool,
}

impl<T: Mark> Model for Sequence<T> {
    ghost use Rattle.std.specs.Prelude.{List, length, ◌+◌, ◌*◌};
    ghost use Rattle.rz_sequence.specs.Trees.{items_of};
    ghost use Rattle.std.proofs.Common.{arith};

    ghost Value = { List T };

    ghost view = { λ s. items_of s.root };

    ghost size = { λ items. 2 * length items + 1 };

    ghost size_decreases = { λ a h. Prim.grind arith };
}

impl<T: Mark> Model for TreeNode<T> {
    ghost use Rattle.std.specs.Prelude.{◌≡◌, List, length, ◌∷◌, ◌++◌, ◌*◌};
    ghost use Rattle.std.specs.List.{list_any};
    ghost use Rattle.rz_sequence.specs.Trees.{IsRight};

    ghost Value = { List T };

    ghost view = { λ t. t.left ++ t.item ∷ t.right };

    ghost invariant = { λ t. IsRight T.is_marked t.left t.item t.right t.len t.marked };

    ghost size = { λ items. 2 * length items };

    ghost use Rattle.std.proofs.Common.{arith, length-append};

    ghost size_decreases = { λ a h. Prim.grind (arith, length-append) };
}

/// An item in the middle, with those before and behind it.
#[derive(Drop)]
pub struct Fork<'a, T: Mark> {
    pub left: &'a Sequence<T>,
    pub item: &'a T,
    pub right: &'a Sequence<T>,
}

impl<T: Mark> Sequence<T> {
    /// No items.
    pub fn new() -> Sequence<T>
        ensures { result ≡ [] }
    {
        Sequence { root: None }
    }

    /// How many items there are.
    pub fn len(&self) -> usize
        ensures { result ≡ length self.now }
    {
        match &self.root {
            None => 0,
            Some(node) => {
                let node: &TreeNode<T> = node;
                node.len
            }
        }
    }

    // Whether an item is marked.
    fn marked(&self) -> bool
        ensures { result ≡ list_any T.is_marked self.now }
    {
        match &self.root {
            None => false,
            Some(node) => {
                let node: &TreeNode<T> = node;
                node.marked
            }
        }
    }

    // How many nodes stand on the longest way down. Only time rests on it, so no clause tells it.
    fn height(&self) -> u8 {
        match &self.root {
            None => 0,
            Some(node) => {
                let node: &TreeNode<T> = node;
                node.height
            }
        }
    }

    /// An item in the middle, with those before and behind it.
    pub fn fork(&self) -> Option<Fork<'_, T>>
        ensures { MatchOption result (self.now ≡ []) (λ f. self.now ≡ f.left.now ++ f.item.now ∷ f.right.now) }
    {
        match &self.root {
            None => None,
            Some(node) => {
                let node: &TreeNode<T> = node;
                Some(Fork {
                    left: &node.left,
                    item: &node.item,
                    right: &node.right,
                })
            }
        }
    }

    /// The item at a place.
    pub fn get(&self, at: usize) -> Option<&T>
        ensures { option_copied result ≡ slice_get self.now at }
    {
        let fork = self.fork()?;
        let before = fork.left.len();
        if at < before {
            fork.left.get(at)
        } else if at == before {
            Some(fork.item)
        } else {
            fork.right.get(at - before - 1)
        }
    }

    /// The first place from `from` on whose item is marked.
    pub fn next_marked(&self, from: usize) -> Option<usize>
        ensures { MatchOption result
            (list_any T.is_marked (drop from self.now) ≡ false)
            (λ i. (from ≤ i) × (option_map T.is_marked (slice_get self.now i) ≡ Some true) × (list_any T.is_marked (take (i - from) (drop from self.now)) ≡ false)) }
    {
        if from >= self.len() || !self.marked() {
            return None;
        }
        let fork = self.fork()?;
        let before = fork.left.len();
        if let Some(place) = fork.left.next_marked(from) {
            return Some(place);
        }
        if from <= before && fork.item.is_marked() {
            return Some(before);
        }
        let place = fork.right.next_marked(from.saturating_sub(before + 1))?;
        Some(before + 1 + place)
    }

    /// Puts an item in at a place, before the item that stands there.
    ///
    /// # Errors
    ///
    /// Where memory runs out, or there are `usize::MAX` items already. The sequence is then as it was, and
    /// the item is let go.
    pub fn insert(&mut self, alloc: Global, at: usize, item: T) -> Result<(), AllocError>
        requires place { at ≤ length self.old }
        ensures ok { OnOk result (self.new ≡ take at self.old ++ item ∷ drop at self.old) }
        ensures err { OnErr result (self.new ≡ self.old) }
    {
        if self.len() == usize::MAX {
            return Err(AllocError);
        }
        let middle = Box::new(alloc, TreeNode::leaf(item))?;
        let (before, behind) = mem::replace(self, Sequence::new()).split(at);
        *self = joined(before, middle, behind);
        Ok(())
    }

    /// Takes the item at a place out.
    pub fn remove(&mut self, at: usize)
        requires place { at < length self.old }
        ensures { self.new ≡ take at self.old ++ drop (suc at) self.old }
    {
        let (front, rest) = mem::replace(self, Sequence::new()).split(at);
        *self = merged(front, rest.without_first());
    }

    /// Puts an item in the place of another.
    #[cycle(replace)]
    pub fn replace(&mut self, at: usize, item: T)
        requires place { at < length self.old }
        ensures { self.new ≡ take at self.old ++ item ∷ drop (suc at) self.old }
    {
        if let Some(node) = &mut self.root {
            let node: &mut TreeNode<T> = node;
            node.replace(at, item);
        }
    }

    /// Cuts off the items from a place on, and gives them.
    pub fn split_off(&mut self, at: usize) -> Sequence<T>
        requires place { at ≤ length self.old }
        ensures front { self.new ≡ take at self.old }
        ensures back { result ≡ drop at self.old }
    {
        let (front, back) = mem::replace(self, Sequence::new()).split(at);
        *self = front;
        back
    }

    /// Adds the items of another sequence behind its own.
    pub fn append(&mut self, tail: Sequence<T>)
        requires fits { length self.old + length tail < 2 ^ 64 }
        ensures { self.new ≡ self.old ++ tail }
    {
        let front = mem::replace(self, Sequence::new());
        *self = merged(front, tail);
    }

    // Takes the topmost node off.
    fn expose(self) -> Option<SequenceParts<T>>
        ensures { MatchOption result (self ≡ [])
            (λ p. (self ≡ p.left ++ p.middle.value ++ p.right) × (length p.middle.value ≡ 1) × (length self < 2 ^ 64)) }
    {
        let mut middle = self.root?;
        let (left, right) = middle.unlink();
        Some(SequenceParts {
            left,
            middle,
            right,
        })
    }

    // The items before a place, and those from it on.
    fn split(self, at: usize) -> (Sequence<T>, Sequence<T>)
        requires place { at ≤ length self }
        ensures front { result.0 ≡ take at self }
        ensures back { result.1 ≡ drop at self }
        ensures fits { length self < 2 ^ 64 }
    {
        let Some(parts) = self.expose() else {
            return (Sequence::new(), Sequence::new());
        };
        let before = parts.left.len();
        if at <= before {
            let (front, back) = parts.left.split(at);
            (front, joined(back, parts.middle, parts.right))
        } else {
            let (front, back) = parts.right.split(at - before - 1);
            (joined(parts.left, parts.middle, front), back)
        }
    }

    // The items but the first.
    fn without_first(self) -> Sequence<T>
        ensures { result ≡ drop 1 self }
    {
        match self.split_first() {
            None => Sequence::new(),
            Some((_first, rest)) => rest,
        }
    }

    // The first item, and the others.
    fn split_first(self) -> Option<(Box<TreeNode<T>>, Sequence<T>)>
        ensures { MatchOption result (self ≡ []) (λ p. (self ≡ p.0.value ++ p.1) × (length p.0.value ≡ 1)) }
    {
        let parts = self.expose()?;
        match parts.left.split_first() {
            None => Some((parts.middle, parts.right)),
            Some((first, rest)) => Some((first, balanced(rest, parts.middle, parts.right))),
        }
    }
}

// The topmost node by itself, and what stood below it.
#[derive(Drop)]
struct SequenceParts<T: Mark> {
    left: Sequence<T>,
    middle: Box<TreeNode<T>>,
    right: Sequence<T>,
}

impl<T: Mark> TreeNode<T> {
    // A node with nothing below it.
    fn leaf(item: T) -> TreeNode<T>
        ensures { result ≡ item ∷ [] }
    {
        let marked = item.is_marked();
        TreeNode {
            left: Sequence::new(),
            item,
            right: Sequence::new(),
            len: 1,
            height: 1,
            marked,
        }
    }

    // Takes off what stands below.
    fn unlink(&mut self) -> (Sequence<T>, Sequence<T>)
        ensures all { self.old ≡ result.0 ++ self.new ++ result.1 }
        ensures one { length self.new ≡ 1 }
        ensures fits { length self.old < 2 ^ 64 }
    {
        let left = mem::replace(&mut self.left, Sequence::new());
        let right = mem::replace(&mut self.right, Sequence::new());
        self.len = 1;
        self.height = 1;
        self.marked = self.item.is_marked();
        (left, right)
    }

    // Puts two sides below a node of one item.
    fn link(&mut self, left: Sequence<T>, right: Sequence<T>)
        requires one { length self.old ≡ 1 }
        requires fits { length left + 1 + length right < 2 ^ 64 }
        ensures { self.new ≡ left ++ self.old ++ right }
    {
        self.len = left.len() + 1 + right.len();
        self.height = left.height().max(right.height()).saturating_add(1);
        self.marked = left.marked() || self.item.is_marked() || right.marked();
        self.left = left;
        self.right = right;
    }

    // Puts an item in the place of another.
    #[cycle(replace)]
    fn replace(&mut self, at: usize, item: T)
        requires place { at < length self.old }
        ensures { self.new ≡ take at self.old ++ item ∷ drop (suc at) self.old }
    {
        let before = self.left.len();
        if at < before {
            self.left.replace(at, item);
        } else if at == before {
            self.item = item;
        } else {
            self.right.replace(at - before - 1, item);
        }
        self.marked = self.left.marked() || self.item.is_marked() || self.right.marked();
    }
}

// The sequence with these sides.
fn linked<T: Mark>(
    left: Sequence<T>,
    mut middle: Box<TreeNode<T>>,
    right: Sequence<T>,
) -> Sequence<T>
    requires one { length middle.value ≡ 1 }
    requires fits { length left + 1 + length right < 2 ^ 64 }
    ensures { result ≡ left ++ middle.value ++ right }
{
    middle.link(left, right);
    Sequence { root: Some(middle) }
}

// The same where one side may be two levels higher than the other.
fn balanced<T: Mark>(left: Sequence<T>, middle: Box<TreeNode<T>>, right: Sequence<T>) -> Sequence<T>
    requires one { length middle.value ≡ 1 }
    requires fits { length left + 1 + length right < 2 ^ 64 }
    ensures { result ≡ left ++ middle.value ++ right }
{
    if is_higher(&left, &right) {
        rotated_right(left, middle, right)
    } else if is_higher(&right, &left) {
        rotated_left(left, middle, right)
    } else {
        linked(left, middle, right)
    }
}

// Whether a side is so much higher than the other that the node above them may not stand so.
fn is_higher<T: Mark>(side: &Sequence<T>, other: &Sequence<T>) -> bool {
    side.height() > other.height().saturating_add(1)
}

// The same where the left side is two levels higher.
fn rotated_right<T: Mark>(
    left: Sequence<T>,
    middle: Box<TreeNode<T>>,
    right: Sequence<T>,
) -> Sequence<T>
    requires one { length middle.value ≡ 1 }
    requires fits { length left + 1 + length right < 2 ^ 64 }
    ensures { result ≡ left ++ middle.value ++ right }
{
    let Some(outer) = left.expose() else {
        return linked(Sequence::new(), middle, right);
    };
    if outer.left.height() >= outer.right.height() {
        return linked(outer.left, outer.middle, linked(outer.right, middle, right));
    }
    match outer.right.expose() {
        None => linked(
            outer.left,
            outer.middle,
            linked(Sequence::new(), middle, right),
        ),
        Some(inner) => linked(
            linked(outer.left, outer.middle, inner.left),
            inner.middle,
            linked(inner.right, middle, right),
        ),
    }
}

// The same where the right side is two levels higher.
fn rotated_left<T: Mark>(
    left: Sequence<T>,
    middle: Box<TreeNode<T>>,
    right: Sequence<T>,
) -> Sequence<T>
    requires one { length middle.value ≡ 1 }
    requires fits { length left + 1 + length right < 2 ^ 64 }
    ensures { result ≡ left ++ middle.value ++ right }
{
    let Some(outer) = right.expose() else {
        return linked(left, middle, Sequence::new());
    };
    if outer.right.height() >= outer.left.height() {
        return linked(linked(left, middle, outer.left), outer.middle, outer.right);
    }
    match outer.left.expose() {
        None => linked(
            linked(left, middle, Sequence::new()),
            outer.middle,
            outer.right,
        ),
        Some(inner) => linked(
            linked(left, middle, inner.left),
            inner.middle,
            linked(inner.right, outer.middle, outer.right),
        ),
    }
}

// The same whatever the heights: it goes down the higher side.
fn joined<T: Mark>(left: Sequence<T>, middle: Box<TreeNode<T>>, right: Sequence<T>) -> Sequence<T>
    requires one { length middle.value ≡ 1 }
    requires fits { length left + 1 + length right < 2 ^ 64 }
    ensures { result ≡ left ++ middle.value ++ right }
{
    if is_higher(&left, &right) {
        match left.expose() {
            None => linked(Sequence::new(), middle, right),
            Some(top) => balanced(top.left, top.middle, joined(top.right, middle, right)),
        }
    } else if is_higher(&right, &left) {
        match right.expose() {
            None => linked(left, middle, Sequence::new()),
            Some(top) => balanced(joined(left, middle, top.left), top.middle, top.right),
        }
    } else {
        linked(left, middle, right)
    }
}

// One sequence behind the other.
fn merged<T: Mark>(front: Sequence<T>, back: Sequence<T>) -> Sequence<T>
    requires fits { length front + length back < 2 ^ 64 }
    ensures { result ≡ front ++ back }
{
    match back.split_first() {
        None => front,
        Some((first, rest)) => joined(front, first, rest),
    }
}

impl<T: Mark> Debug for Sequence<T> {
    fn fmt<W: fmt::Write>(&self, f: &mut Formatter<W>) -> fmt::Result {
        f.write_str("Sequence")
    }
}
