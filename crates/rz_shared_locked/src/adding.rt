//! The event of an answer is added to the log.
ghost use Rattle.std.specs.Prelude.{◌≡◌, ◌+◌, ◌<◌, ◌^◌, ◌∷◌, IfSome};
ghost use Rattle.rz_events.specs.Events.{word_of, by_of};
ghost use Rattle.rz_chronicle.specs.Keys.{count_at, word_key};
ghost use Rattle.rz_chronicle.specs.Kinds.{IsFit, IsFitAfter};
ghost use Rattle.rz_shared_locked.specs.Adding.{AddsEvent, MayBeNext};

use crate::counting::Metering;
use rz_chronicle::{Book, Itself, Pass, WordToken};
use rz_events::Event;

/// Adds the event of an answer, if it has one. The pass and the word_token have entered.
pub(crate) fn add<J: Metering>(
    book: &Book<J>,
    pass: &mut Pass<J>,
    word_token: &mut WordToken<J>,
    event: Option<Event>,
)
    requires one { word_token.old.log ≡ pass.old.log }
    requires its { IfSome event (λ x. (word_of x ≡ word_token.old.word) × (by_of x ≡ pass.old.actor)) }
    requires legal { IfSome event (λ x. MayBeNext J.kind J.earlier pass.old.log x) }
    requires room { count_at (word_key word_token.old.word) word_token.old.log + 1 < 2 ^ 64 }
    ensures same { (pass.new.actor ≡ pass.old.actor) × (pass.new.keys ≡ pass.old.keys) × (word_token.new.word ≡ word_token.old.word) }
    ensures one { word_token.new.log ≡ pass.new.log }
    ensures adds { AddsEvent (word_key word_token.old.word ∷ pass.old.keys) pass.old.log event pass.new.log }
    ensures fit { IsFit J.kind pass.new.log }
    ensures after { IsFitAfter J.kind pass.new.log }
{
    rz_chronicle::one_rule();
    let _by = pass.actor();
    match &event {
        Some(event) => book.commit::<Event, Itself>(pass, word_token, event),
        None => {}
    }
    drop(event);
    let _seen = pass.actor();
}
