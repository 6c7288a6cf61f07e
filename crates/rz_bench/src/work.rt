//! What one thread does: it adds events to the log, one after another.
ghost use Rattle.std.specs.Prelude.{◌≡◌, false};
ghost use Rattle.rz_events.specs.declared.events.Word.TheVariants as w;
ghost use Rattle.rz_events.specs.Events.{word_of, by_of};
ghost use Rattle.rz_config.specs.Plain.{plain_volume};
ghost use Rattle.rz_chronicle.specs.Kinds.{kind_of};

use rz_chronicle::{Book, Naming, Pass};
use rz_events::{Actor, Event};

/// An event of an actor's own word.
fn missed(by: Actor) -> Event
    ensures word { word_of result ≡ w.Own by }
    ensures by { by_of result ≡ by }
{
    Event::Missed {
        by,
        node: 1,
        reply: false,
    }
}

/// Adds an event of the pass's own word so many times, while there is room.
fn add<J: Naming>(book: &Book<J>, pass: &mut Pass<J>, event: &Event, count: u64)
    requires kind { J.kind ≡ kind_of false plain_volume }
    requires word { word_of event.now ≡ w.Own pass.old.actor }
    requires by { by_of event.now ≡ pass.old.actor }
{
    for _ in 0..count {
        if !pass.room() {
            return;
        }
        book.finish(pass, event);
    }
}

// Without it the end of an event has a case for each of its variants in the proof of whoever has it.
fn let_go(event: Event) {
    let _ = event;
}

/// Adds so many events of the pass's own word.
pub fn add_own<J: Naming>(book: &Book<J>, pass: &mut Pass<J>, count: u64)
    requires kind { J.kind ≡ kind_of false plain_volume }
{
    let event = missed(pass.actor());
    add(book, pass, &event, count);
    let_go(event);
}
