//! What a fuse has left, by the events of its node.
ghost use Rattle.std.specs.Prelude.{◌≡◌, List, Option, ◌∷◌};
ghost use Rattle.rz_events.specs.declared.events.Event.{Event as AnEvent};
ghost use Rattle.rz_play.specs.Faults.{passes as passes_of, less as less_of, fuse_of};
ghost use Rattle.rz_play.specs.Lines.{noted};

use rz_chronicle::Naming;
use rz_events::{Event, Why};
use std::marker::Brand;

/// The name of a book, with the faults that the disk of each node had counted when it came under its lock;
/// those of the journal's disk, if the export stands behind a journal; and whether each node has its one disk
/// all the time.
pub trait Metering: Naming {
    ghost use Rattle.std.specs.Prelude.{ℕ, Bool, Option};

    ghost first: { ℕ → ℕ };

    ghost journal: { Option ℕ };

    ghost fixed: { Bool };
}

impl Metering for Brand {
    ghost use Rattle.std.specs.Prelude.{true, None};

    ghost first = { λ n. 0 };

    ghost journal = { None };

    ghost fixed = { true };
}

/// The name of a book whose log begins anew, over disks that are all here and stay, and whose export is in
/// memory alone.
pub trait Counting: Metering {
    ghost use Rattle.std.specs.Prelude.{◌≡◌, [], true, None};

    ghost anew: { Self.earlier ≡ [] };

    ghost whole: { Self.fixed ≡ true };

    ghost unkept: { Self.journal ≡ None };
}

impl Counting for Brand {
    ghost use Rattle.std.specs.Prelude.{refl};

    ghost anew = { refl };

    ghost whole = { refl };

    ghost unkept = { refl };
}

/// So many passes of the disk are spent by an event.
fn passes(event: &Event) -> u64
    ensures { result ≡ passes_of event.now }
{
    match event {
        Event::Did { .. } | Event::Replace { .. } | Event::Broke { .. } => 4,
        Event::Refused {
            why: Why::DiskFault,
            ..
        } => 4,
        Event::Fetch {
            answer: Some(_),
            ..
        } => 1,
        _ => 0,
    }
}

/// The passes that the fuse still lets happen after an event, or none where the disk is not armed.
fn left_after(left: Option<u64>, event: &Event) -> Option<u64>
    ensures { (w : List AnEvent) → left ≡ fuse_of w → result ≡ fuse_of (event.now ∷ w) }
{
    match event {
        Event::Armed { k, .. } => Some(*k),
        Event::Start { .. } | Event::Unopened { .. } => None,
        _ => less(left, passes(event)),
    }
}

/// So many passes less, where the disk is armed.
fn less(left: Option<u64>, spent: u64) -> Option<u64>
    ensures { result ≡ less_of spent left }
{
    match left {
        Some(left) => Some(left.saturating_sub(spent)),
        None => None,
    }
}

/// The same after an answer that may have no event.
pub(crate) fn left_with(left: Option<u64>, event: &Option<Event>) -> Option<u64>
    ensures { (w : List AnEvent) → left ≡ fuse_of w → result ≡ fuse_of (noted event.now w) }
{
    match event {
        Some(event) => left_after(left, event),
        None => left,
    }
}
