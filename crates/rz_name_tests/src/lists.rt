//! Trees of beads are low.

use rz_sequence::{Mark, Sequence};
use std::alloc::{AllocError, Global};
use std::test::Fail;

// A bead, which may be marked.
#[derive(Clone, Copy)]
struct Bead {
    marked: bool,
}

impl Mark for Bead {
    ghost is_marked = { λ b. b.marked };

    fn is_marked(&self) -> bool {
        self.marked
    }
}

// How many items stand on the longest way down.
fn depth<T: Mark>(items: &Sequence<T>) -> usize {
    match items.fork() {
        None => 0,
        Some(fork) => depth(fork.left).max(depth(fork.right)).saturating_add(1),
    }
}

// Puts 500 beads into each of two trees: at the front, and here and there.
fn string(
    alloc: Global,
    first: &mut Sequence<Bead>,
    last: &mut Sequence<Bead>,
) -> Result<(), AllocError> {
    for number in 0u16..500 {
        let bead = Bead {
            marked: number % 64 == 0,
        };
        first.insert(alloc, 0, bead)?;
        let at = last.len().min(usize::from(number) * 389 % 500);
        last.insert(alloc, at, bead)?;
    }
    Ok(())
}

// Whether trees of 1000 and of 70 beads are as low as balanced ones: the two behind one another, and the first
// ones cut off.
fn are_low(first: &mut Sequence<Bead>, last: &mut Sequence<Bead>) -> bool {
    if first.len() != 500 || last.len() != 500 {
        return false;
    }
    first.append(last.split_off(0));
    if first.len() != 1000 {
        return false;
    }
    let whole = depth(first) <= 14;
    drop(first.split_off(70));
    whole && depth(first) <= 8
}

#[test]
fn trees_are_low(rt: HostRuntime) -> Result<(), Fail> {
    let mut first = Sequence::new();
    let mut last = Sequence::new();
    let strung = string(rt.alloc(), &mut first, &mut last);
    let low = are_low(&mut first, &mut last);
    drop(first);
    drop(last);
    assert!(rt; strung.is_ok() && low);
    Ok(())
}
