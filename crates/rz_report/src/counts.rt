//! How many events of a log there are of each kind.

ghost use Rattle.std.specs.Prelude.{◌≡◌, ◌≤◌, ◌-◌, ◌^◌};
ghost use Rattle.rz_report.specs.Summary.{AreBelow, counts_of as counts_in, noted, one_if as one_where};

use crate::kinds::{is_acked, is_found, is_get, is_left, is_put, is_rebuilt, is_too_few};
use rz_events::Event;

/// The counts of a log.
#[derive(Clone, Copy)]
pub struct Counts {
    pub puts: usize,
    pub acked: usize,
    pub gets: usize,
    pub found: usize,
    pub too_few: usize,
    pub rebuilt: usize,
    pub left: usize,
}

/// One where something is so, and else nothing.
fn one_if(so: bool) -> usize
    ensures value { result ≡ one_where so }
    ensures small { result ≤ 1 }
{
    if so { 1 } else { 0 }
}

/// The counts with one event more.
fn note(counts: &Counts, event: &Event) -> Counts
    requires { AreBelow counts.now (2 ^ 64 - 1) }
    ensures { result ≡ noted counts.now event.now }
{
    Counts {
        puts: counts.puts + one_if(is_put(event)),
        acked: counts.acked + one_if(is_acked(event)),
        gets: counts.gets + one_if(is_get(event)),
        found: counts.found + one_if(is_found(event)),
        too_few: counts.too_few + one_if(is_too_few(event)),
        rebuilt: counts.rebuilt + one_if(is_rebuilt(event)),
        left: counts.left + one_if(is_left(event)),
    }
}

/// The counts of a log.
pub fn counts_of(log: &[Event]) -> Counts
    ensures { result ≡ counts_in log.now }
{
    let mut counts = Counts {
        puts: 0,
        acked: 0,
        gets: 0,
        found: 0,
        too_few: 0,
        rebuilt: 0,
        left: 0,
    };
    'events: for event in log {
        counts = note(&counts, event);
    }
    counts
}
