//! Whether some store could have answered all clients so, in plain code.
use crate::told::{Deed, End, Place, Told, Write};
use std::test::*;

/// How many nodes take a write, and how many a read needs.
const FORWARD: u64 = 6;

const INVERSE: u64 = 4;

/// The latest stamp that a client learns from an end.
fn learned(end: End) -> u64 {
    match end {
        End::Acked { stamp } => stamp,
        End::Data { stamp, .. } => stamp,
        End::Moved { now, .. } => now,
        _ => 0,
    }
}

/// The latest stamp of any block that a client knew before one of its operations.
fn latest(all: &[Told], by: Write) -> u64 {
    let mut most = 0;
    for told in all {
        if told.client == by.client && told.number < by.number {
            most = learned(told.end).max(most);
        }
    }
    most
}

/// The latest stamp of a block that a client knew by itself before one of its operations.
fn known(all: &[Told], by: Write, place: Place) -> u64 {
    let mut most = 0;
    for told in all {
        if told.client == by.client && told.number < by.number && told.place == place {
            most = learned(told.end).max(most);
        }
    }
    most
}

/// The same, with what the writers of what it had read knew before they wrote.
fn known_of_all(all: &[Told], by: Write, place: Place) -> u64 {
    let mut most = known(all, by, place);
    for told in all {
        if let End::Data { write, .. } = told.end {
            if told.client == by.client && told.number < by.number {
                most = known(all, write, place).max(most);
            }
        }
    }
    most
}

/// How many files were made under a name.
fn makers(all: &[Told], place: Place) -> u64 {
    let mut count = 0u64;
    for told in all {
        if told.place == place && matches!(told.end, End::Created) {
            count = count.saturating_add(1);
        }
    }
    count
}

/// Whether an operation was a write that was acknowledged with a stamp.
fn has_acked(told: &Told, stamp: u64) -> bool {
    match told.end {
        End::Acked { stamp: its } => its == stamp,
        _ => false,
    }
}

/// How many writes were acknowledged with a stamp.
fn acked(all: &[Told], stamp: u64) -> u64 {
    let mut count = 0u64;
    for told in all {
        if has_acked(told, stamp) {
            count = count.saturating_add(1);
        }
    }
    count
}

/// Whether a write of a block was acknowledged with a stamp.
fn is_acked(all: &[Told], place: Place, stamp: u64) -> bool {
    for told in all {
        if told.place == place && has_acked(told, stamp) {
            return true;
        }
    }
    false
}

/// Whether this write of a block was acknowledged with this stamp.
fn is_written(all: &[Told], place: Place, write: Write, stamp: u64) -> bool {
    for told in all {
        if told.client == write.client && told.number == write.number {
            return told.place == place && has_acked(told, stamp);
        }
    }
    false
}

/// Of all who make one file, one does.
fn is_made(all: &[Told], told: &Told) -> bool {
    match told.end {
        End::Created => makers(all, told.place) == 1,
        End::Exists => makers(all, told.place) == 1,
        _ => false,
    }
}

/// A write has a stamp of its own, later than all that its client knew. One that was too late was so on a
/// block that others write.
fn is_put(all: &[Told], told: &Told, by: Write) -> bool {
    match told.end {
        End::Acked { stamp } => acked(all, stamp) == 1 && stamp > latest(all, by),
        End::Revoked { later } => told.place.owner == 0 && later > known(all, by, told.place),
        End::TooFew { good } => good < FORWARD,
        _ => false,
    }
}

/// A read finds what some write wrote that was not made after it, and none older than what its client knew.
fn is_got(all: &[Told], told: &Told, by: Write) -> bool {
    let known = known_of_all(all, by, told.place);
    match told.end {
        End::Data { stamp, write } => {
            stamp >= known
                && is_written(all, told.place, write, stamp)
                && (write.client != by.client || write.number < by.number)
        }
        End::Hole => known == 0,
        End::Moved { was, now } => {
            told.place.owner == 0
                && was >= known
                && now > was
                && is_acked(all, told.place, was)
                && is_acked(all, told.place, now)
        }
        End::TooFew { good } => good < INVERSE,
        _ => false,
    }
}

fn is_right(all: &[Told], told: &Told) -> bool {
    let by = Write {
        client: told.client,
        number: told.number,
    };
    match told.deed {
        Deed::Create => is_made(all, told),
        Deed::Put => is_put(all, told, by),
        Deed::Get => is_got(all, told, by),
    }
}

/// The first operation that no store could have answered so, if there is one: its client and its number.
pub fn first_wrong(all: &[Told]) -> Option<(u64, u64)> {
    for told in all {
        if !is_right(all, told) {
            return Some((told.client, told.number));
        }
    }
    None
}

/// A client's write of the one block that both write.
fn put(client: u64, number: u64, stamp: u64) -> Told {
    told(client, number, Deed::Put, 's', End::Acked { stamp })
}

/// A client's read of it, which found the first write of a client with a stamp.
fn got(client: u64, number: u64, stamp: u64, of: u64) -> Told {
    let write = Write {
        client: of,
        number: 1,
    };
    told(client, number, Deed::Get, 's', End::Data { stamp, write })
}

/// An operation on the first block of a file that all share.
fn told(client: u64, number: u64, deed: Deed, file: char, end: End) -> Told {
    let place = Place {
        owner: 0,
        file,
        block: 0,
    };
    Told {
        client,
        number,
        deed,
        place,
        end,
    }
}

#[test]
fn the_checker_refuses_what_no_store_answers(rt: HostRuntime) -> Result<(), Fail> {
    let one = put(1, 1, 1);
    let two = put(2, 1, 2);
    // Each finds the later of two writes.
    let both = first_wrong(&[one, got(1, 2, 2, 2), two, got(2, 2, 2, 2)]);
    // The first reads before the second writes.
    let before = first_wrong(&[one, got(1, 2, 1, 1), two, got(2, 2, 2, 2)]);
    // The second finds what is older than what it wrote.
    let older = first_wrong(&[one, got(1, 2, 1, 1), two, got(2, 2, 1, 1)]);
    // A text with the stamp of another one.
    let other = first_wrong(&[one, got(1, 2, 2, 1), two, got(2, 2, 2, 2)]);
    // Both have one stamp.
    let same = first_wrong(&[one, got(1, 2, 1, 1), put(2, 1, 1), got(2, 2, 1, 2)]);
    // It was read before it was written.
    let early = first_wrong(&[got(1, 0, 1, 1), one, two, got(2, 2, 2, 2)]);
    assert_eq!(rt; (both, before), (None, None));
    assert_eq!(rt; (older, other), (Some((2, 2)), Some((1, 2))));
    assert_eq!(rt; (same, early), (Some((1, 1)), Some((1, 0))));
    Ok(())
}

#[test]
fn the_checker_knows_what_a_writer_knew(rt: HostRuntime) -> Result<(), Fail> {
    let one = put(1, 1, 1);
    let two = put(2, 1, 2);
    let told_of_two = told(2, 3, Deed::Put, 't', End::Acked { stamp: 3 });
    let write = Write {
        client: 2,
        number: 3,
    };
    let heard = told(1, 2, Deed::Get, 't', End::Data { stamp: 3, write });
    // The second wrote after its own first write, and that is what the first has read; so it knows of that
    // one too.
    let newer = first_wrong(&[heard, got(1, 3, 2, 2), two, told_of_two]);
    let alone = first_wrong(&[one, heard, got(1, 3, 1, 1), told_of_two]);
    let older = first_wrong(&[one, heard, got(1, 3, 1, 1), two, told_of_two]);
    assert_eq!(rt; (newer, alone, older), (None, None, Some((1, 3))));
    Ok(())
}
