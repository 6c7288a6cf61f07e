//! How many events the log has.
ghost use Rattle.std.specs.Prelude.{◌≡◌, ◌+◌, length};
ghost use Rattle.rz_chronicle.specs.Keys.{sids_of};
ghost use Rattle.rz_chronicle.specs.Kinds.{IsFit};
ghost use Rattle.rz_threads_workers.specs.Gathered.{PassGoesOn};
ghost use Rattle.rz_threads_workers.specs.Moves.{HoldsAll};

use rz_chronicle::{Book, Naming, Pass};
use std::sync::Wait;

/// How many words a book has.
const WORDS: u16 = 338;

/// Gives no number, ever.
fn endless<R: Wait>(rt: &R) -> u64
    ensures never { ⊥ }
{
    for _ in rt.forever() {}
    unreachable!()
}

/// The sum of two numbers. It does not return where that is too large.
fn sum_of<R: Wait>(rt: &R, one: u64, other: u64) -> u64
    ensures { result ≡ one + other }
{
    match one.checked_add(other) {
        Some(sum) => sum,
        None => endless(rt),
    }
}

/// How many events the log has. Each is of one word of the book, and of no other. The pass holds the token
/// of each word, so that no event comes while it counts. It does not return where there are too many to be
/// counted.
pub fn count_all<R: Wait, J: Naming>(rt: &R, book: &Book<J>, pass: &mut Pass<J>) -> u64
    requires held { HoldsAll (sids_of book.now) pass.old.keys }
    ensures goes { PassGoesOn pass.old pass.new }
    ensures count { result ≡ length pass.new.log }
    ensures old { result ≡ length pass.old.log }
    ensures fit { IsFit J.kind pass.new.log }
{
    let mut sum = 0;
    for place in 0..WORDS {
        let count = book.count(pass, place);
        sum = sum_of(rt, sum, count);
    }
    book.stands();
    let _placed = pass.actor();
    sum
}
