//! The chronicle: one log that all threads share, to which each call and each act adds one event.
//!
//! A [`Book`] has a word for the export, for each node and for each actor, which counts that owner's
//! events. Whoever holds the token of a word alone moves it: an actor by its [`Pass`], a caller under a
//! lock by the lock's [`WordToken`] beside its own pass. So an event is added by one exchange that is always
//! won, and no call of a book waits or takes memory. The log itself takes no memory: it is what proofs
//! know of the words.
//!
//! The book is of a volume, and honest or not: an honest one keeps its log legal. Its log begins anew, or
//! goes on after an earlier one, and is then legal after that: what passes and word_tokens see are the events
//! since. Each event is by an actor that has a word in the book. Which book a pass, a word_token or a desk belongs
//! to is the type parameter `J`, which each program picks once.
//!
//! In reading order: `kinds`, `places`, `told`, `tokens`, `steps`, `passes`, `book`, `dealer`, `start`, `laws`.
#![tactic(auto)]

mod book;
mod dealer;
mod kinds;
mod laws;
mod passes;
mod places;
mod start;
mod steps;
mod tokens;
mod told;

pub use book::Book;
pub use kinds::{Beginning, read_back, read_back_after};
pub use laws::{
    actors_kept, added_alone, begins_anew, local_after, one_rule, roomy, words_counted, words_kept,
};
pub use passes::{Desk, Naming, Pass, WordToken};
pub use start::{Crew, NewBook};
pub use tokens::{Asks, Itself};
