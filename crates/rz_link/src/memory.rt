//! A link that loses what a list says.
ghost use Rattle.std.specs.Prelude.{◌≡◌, ◌≢◌, ◌+◌, ◌-◌, ◌^◌, ◌<◌, ◌≤◌, ◌==◌, find, min};
ghost use Rattle.rz_link.specs.Listed.{listed};

use crate::{Link, Sent};
use std::marker::Model;

/// A link that loses the sends that a list names.
#[derive(Drop)]
pub struct MemLink {
    entries: Vec<(u64, Sent)>,
    made: u64,
    lost: u64,
}

impl Model for MemLink {
    ghost use Rattle.std.specs.Prelude.{◌≤◌};
    ghost use Rattle.rz_link.specs.Journey.{Journey};

    ghost Value = { Journey };

    ghost view = { λ l. record { entries = l.entries.items; made = l.made; lost = l.lost } };

    ghost invariant = { λ l. l.lost ≤ l.made };
}

impl MemLink {
    /// A link on which the send with a listed number, counted from 0, fares as its entry says, and
    /// every other goes through. Of entries with one number the first decides, and an entry may say
    /// [`Sent::Through`]. Sends are counted up to `u64::MAX`, and from that number on all go through.
    pub fn new(lost: Vec<(u64, Sent)>) -> Self
        ensures { result ≡ record { entries = lost.items; made = 0; lost = 0 } }
    {
        MemLink {
            entries: lost,
            made: 0,
            lost: 0,
        }
    }
}

/// The first entry with this number.
fn entry_at(entries: &[(u64, Sent)], number: u64) -> Option<(u64, Sent)>
    ensures { result ≡ find (λ entry. entry.0 == number) entries.now }
{
    entries.iter().copied().find(|entry| entry.0 == number)
}

/// How the list says that the send with this number fares.
fn fate(entries: &[(u64, Sent)], number: u64) -> Sent
    ensures { result ≡ listed entries.now number }
{
    match entry_at(entries, number) {
        Some((_, sent)) => sent,
        None => Sent::Through,
    }
}

impl Link for MemLink {
    ghost use Rattle.rz_link.specs.Journey.{fares, after_send};

    ghost lost = { λ journey. journey.lost };

    ghost says = { λ journey node sent new. (sent ≡ fares journey) × (new ≡ after_send journey) };

    fn send(&mut self, _node: u16) -> Sent
        ensures answer { result ≡ fares self.old }
        ensures after { self.new ≡ after_send self.old }
    {
        if self.made == u64::MAX {
            return Sent::Through;
        }
        let sent = fate(&self.entries, self.made);
        self.made += 1;
        if sent != Sent::Through {
            self.lost += 1;
        }
        sent
    }
}
