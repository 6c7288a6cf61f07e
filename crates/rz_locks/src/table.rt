//! The locks that are held.
ghost use Rattle.std.specs.Prelude.{◌≡◌, ◌≢◌, ◌<◌, ◌≤◌, ℕ, None, Some, length, slice_set, IfNone, IfSome};
ghost use Rattle.rz_locks.specs.Places.{IsInTheWay};

use crate::conflict::Lock;
use crate::{LockAnswer, LockKind, Range};
use std::marker::Model;

/// How many owners there are. They are numbered from 1.
const OWNERS: usize = 64;

/// The locks that the owners 1 to 64 hold, at most one each.
#[derive(Drop)]
pub struct Locks {
    /// By owner, owner 1 first.
    places: [Option<Lock>; OWNERS],
}

impl Model for Locks {
    ghost use Rattle.std.specs.FinMap as map;
    ghost use Rattle.std.specs.Coded.{coded_ℕ};
    ghost use Rattle.rz_locks.specs.contracts.conflict.Lock as lock;
    ghost use Rattle.rz_locks.specs.Held.{Held, IsApart};
    ghost use Rattle.rz_locks.specs.Places.{by_owner};

    ghost Value = { Held };

    ghost coded = { map.code coded_ℕ lock.the_row.coded };

    ghost view = { λ l. by_owner l.places };

    ghost invariant = { λ l. IsApart (by_owner l.places) };
}

impl Locks {
    ghost use Rattle.std.specs.FinMap as map;
    ghost use Rattle.rz_locks.specs.Held.{Answers, IsApart};

    /// Locks of which none is held.
    pub fn new() -> Self
        ensures { result ≡ map.empty }
    {
        Locks {
            places: [None; OWNERS],
        }
    }

    /// Asks for a lock for an owner from 1 to 64 who holds none. It is granted where no held lock
    /// conflicts with it.
    pub fn take(&mut self, owner: u8, range: Range, kind: LockKind) -> LockAnswer
        requires from_one { 1 ≤ owner }
        requires to_last { owner ≤ 64 }
        requires holds_none { map.get self.old owner ≡ None }
        ensures answer { Answers self.old (record { range = range; kind = kind }) result }
        ensures granted { result ≡ LockAnswer.Granted → self.new ≡ map.insert self.old owner (record { range = range; kind = kind }) }
        ensures busy { result ≢ LockAnswer.Granted → self.new ≡ self.old }
        ensures apart { IsApart self.new }
    {
        let lock = Lock { range, kind };
        match first_in_the_way(&self.places, &lock) {
            Some(place) => LockAnswer::Busy {
                owner: place as u8 + 1,
            },
            None => {
                self.places[usize::from(owner) - 1] = Some(lock);
                LockAnswer::Granted
            }
        }
    }

    /// Takes away the lock that the owner holds, if there is one.
    pub fn release(&mut self, owner: u8)
        ensures after { self.new ≡ map.remove self.old owner }
        ensures apart { IsApart self.new }
    {
        if owner >= 1 && usize::from(owner) <= OWNERS {
            self.places[usize::from(owner) - 1] = None;
        }
    }
}

/// The first place whose lock conflicts with this one.
fn first_in_the_way(places: &[Option<Lock>], lock: &Lock) -> Option<usize>
    ensures found { IfSome result (λ place. place < length places.now) }
    ensures blocks { IfSome result (IsInTheWay places.now lock.now) }
    ensures least { IfSome result (λ place. (k : ℕ) → k < place → ¬ IsInTheWay places.now lock.now k) }
    ensures free { IfNone result ((k : ℕ) → ¬ IsInTheWay places.now lock.now k) }
{
    for (place, held) in places.iter().enumerate() {
        if let Some(held) = held {
            if held.conflicts(lock) {
                return Some(place);
            }
        }
    }
    None
}
