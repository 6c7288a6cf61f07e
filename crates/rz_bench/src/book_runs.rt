//! Clients that add events to a book, and the line that tells of them.
ghost use Rattle.std.specs.Prelude.{◌≡◌, ◌≤◌, false, length, IfOk};
ghost use Rattle.rz_config.specs.Plain.{plain_volume};
ghost use Rattle.rz_chronicle.specs.Kinds.{HasEarlierLog, kind_of};

use crate::telling::Teller;
use crate::threads::add_all;
use crate::words::BookSize;
use rz_chronicle::{Book, Naming, NewBook, Pass, read_back, read_back_after};
use rz_config::Volume;
use std::alloc::{AllocError, Global};
use std::io;
use std::marker::Brand;
use std::rt::Clock;
use std::thread::Threads;

/// How many events the words of the clients have.
fn events<J: Naming>(book: &Book<J>, pass: &mut Pass<J>) -> u64 {
    let mut sum = 0u64;
    for word in 257..321 {
        sum = sum.saturating_add(book.count(pass, word));
    }
    sum
}

/// Tells how many events there are, and how many microseconds one took its thread.
fn tell<R: Print + Clock + Drop>(
    teller: &Teller<R>,
    size: BookSize,
    nanos: u128,
    events: u64,
) -> io::Result<()> {
    let threads = size.threads;
    print!(teller.rt; "{threads} threads, {events} events")?;
    teller.end(nanos / u128::from(size.events.max(1)))
}

/// The clients add their events, and the book is asked how many it has.
fn run_clients<J: Naming + Send + Sync, R: Threads + Print + Clock + Sync + Drop>(
    teller: &Teller<R>,
    book: &Book<J>,
    passes: &mut [Pass<J>],
    front: &mut Pass<J>,
    size: BookSize,
) -> io::Result<()>
    requires kind { J.kind ≡ kind_of false plain_volume }
    requires some { 1 ≤ length passes.old }
{
    let start = teller.now()?;
    add_all(teller.rt, book, passes, size.events);
    let nanos = teller.since(start)?;
    tell(teller, size, nanos, events(book, front))
}

fn run_in<J: Naming + Send + Sync, R: Threads + Print + Clock + Sync + Drop>(
    teller: &Teller<R>,
    opened: NewBook,
    size: BookSize,
) -> io::Result<()>
    requires named { (opened.seen.book ≡ J.book) × (opened.tokens.counters ≡ J.counters) × (opened.tokens.copy ≡ J.copy) × (opened.tokens.kind ≡ J.kind) }
    requires kind { J.kind ≡ kind_of false plain_volume }
    requires earlier { HasEarlierLog J.kind J.earlier }
{
    let (book, mut crew) = opened.named::<J>(teller.alloc)?;
    let ran = run_clients(
        teller,
        &book,
        &mut crew.clients[..size.threads],
        &mut crew.admin,
        size,
    );
    drop(crew);
    drop(book);
    ran
}

/// Opens a book of a plain volume.
fn open(alloc: Global) -> Result<NewBook, AllocError>
    ensures { IfOk result (λ o. o.tokens.kind ≡ kind_of false plain_volume) }
{
    let volume = Volume::plain(alloc)?;
    let opened = NewBook::start(alloc, &volume, false);
    drop(volume);
    opened
}

/// Lets clients add events to a book, if there is to be one.
pub fn run_book<R: Threads + Print + Clock + Sync + Drop>(
    teller: &Teller<R>,
    size: Option<BookSize>,
) -> io::Result<()> {
    let Some(size) = size else {
        return Ok(());
    };
    let opened = open(teller.alloc)?;
    read_back_after();
    run_in::<Brand, _>(teller, opened, size)
}
