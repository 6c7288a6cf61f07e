//! What callers hold: a pass for each actor, and a token for each word that many callers move.
ghost use Rattle.std.specs.Prelude.{◌≡◌, ◌+◌, ◌<◌, ◌^◌, [], ◌∷◌, IsTrue, ◌↔◌, Some};
ghost use Rattle.rz_events.specs.declared.events.Word.TheVariants as w;
ghost use Rattle.rz_chronicle.specs.Keys.{count_at, word_key, actor_key, rows, IsOneOf, IsMember, own_keys, owner, sids_of};
ghost use Rattle.rz_chronicle.specs.Kinds.{Fits, HavePlaces, HasEarlierLog, IsFit, IsFitAfter, volume_in};
ghost use Rattle.rz_chronicle.specs.Holds.{IsShared};

use crate::tokens::{Law, Tokens};
use crate::told::Told;
use logbook::Seen;
use rz_events::{Actor, Event};
use std::marker::{Brand, Model, PhantomData};

/// Which book it is, of which kind, and after which earlier log it goes on, which has the newest event
/// first. Each call of a program picks it.
pub trait Naming {
    ghost use Rattle.std.specs.Prelude.{ℕ, List};
    ghost use Rattle.logbook.specs.Pages.{Book};
    ghost use Rattle.rz_events.specs.declared.events.Event.{Event as AnEvent};

    ghost book: { Book };

    ghost counters: { ℕ };

    ghost copy: { ℕ };

    ghost kind: { List ℕ };

    ghost earlier: { List AnEvent };
}

impl Naming for Brand {
    ghost use Rattle.std.specs.Prelude.{[]};

    ghost book = { record { number = 0; log_name = 0; cells_name = 0 } };

    ghost counters = { 0 };

    ghost copy = { 0 };

    ghost kind = { [] };

    ghost earlier = { [] };
}

/// What an actor has seen of the log, with the tokens of its own events and of its own word.
#[derive(Drop)]
pub struct Pass<J: Naming> {
    pub(crate) actor: Actor,
    pub(crate) moved: u64,
    pub(crate) tokens: Option<Tokens>,
    pub(crate) seen: Seen<Event, Told, Law>,
    pub(crate) of: PhantomData<J>,
}

impl<J: Naming> Model for Pass<J> {
    ghost use Rattle.std.specs.Prelude.{◌≡◌, ◌<◌, ◌∷◌, IsSomeAnd};
    ghost use Rattle.rz_events.specs.declared.events.Word.TheVariants as w;
    ghost use Rattle.rz_chronicle.specs.Keys.{count_at, word_key, IsMember};
    ghost use Rattle.rz_chronicle.specs.Kinds.{history, HavePlaces, HasEarlierLog, Fits};
    ghost use Rattle.rz_chronicle.specs.Holds.{keys_in, AreTokens, AreTokensOf};
    ghost use Rattle.rz_chronicle.specs.Rules.{PassView};

    ghost Value = { PassView };

    ghost view = { λ p. record { actor = p.actor; log = history p.seen.log; keys = keys_in p.tokens } };

    ghost invariant = { λ p. (p.seen.book ≡ J.book) × (p.seen.names ≡ J.counters ∷ J.copy ∷ J.kind)
        × IsSomeAnd p.tokens (λ h. AreTokens J.counters J.copy J.kind p.seen.log h × AreTokensOf p.actor h.held)
        × (p.moved ≡ count_at (word_key (w.Own p.actor)) p.seen.log)
        × IsMember p.actor
        × Fits J.kind (history p.seen.log)
        × HavePlaces J.kind (history p.seen.log)
        × HasEarlierLog J.kind J.earlier };
}

impl<J: Naming> Pass<J> {
    // The pass of an actor that has done nothing yet.
    pub(crate) fn of_tokens(actor: Actor, tokens: Tokens, seen: Seen<Event, Told, Law>) -> Pass<J>
        requires seen { (seen.book ≡ J.book) × (seen.names ≡ J.counters ∷ J.copy ∷ J.kind) × (seen.log ≡ []) }
        requires names { (tokens.counters ≡ J.counters) × (tokens.copy ≡ J.copy) × (tokens.kind ≡ J.kind) × (tokens.log ≡ []) }
        requires held { tokens.held ≡ (word_key (w.Own actor), 0) ∷ (actor_key actor, 0) ∷ [] }
        requires member { IsMember actor }
        requires earlier { HasEarlierLog J.kind J.earlier }
        requires fit { Fits J.kind [] }
        ensures { result ≡ record { actor = actor; log = []; keys = own_keys actor } }
    {
        Pass {
            actor,
            moved: 0,
            tokens: Some(tokens),
            seen,
            of: PhantomData,
        }
    }

    /// Whose it is. A pass holds the tokens of its actor's events and of its own word. Each event that it
    /// has seen is by an actor of the book, and of a word of the book.
    pub fn actor(&self) -> Actor
        ensures value { result ≡ self.now.actor }
        ensures member { IsMember self.now.actor }
        ensures own { IsOneOf (actor_key self.now.actor) self.now.keys }
        ensures word { IsOneOf (word_key (w.Own self.now.actor)) self.now.keys }
        ensures fit { IsFit J.kind self.now.log }
        ensures after { IsFitAfter J.kind self.now.log }
        ensures earlier { HasEarlierLog J.kind J.earlier }
        ensures places { HavePlaces J.kind self.now.log }
    {
        self.actor
    }

    /// Whether its word can move once more.
    pub fn room(&self) -> bool
        ensures { IsTrue result ↔ (count_at (word_key (w.Own self.now.actor)) self.now.log + 1 < 2 ^ 64) }
    {
        self.moved < u64::MAX
    }

    /// Whether its word can move once more, and have room behind any earlier log.
    pub fn has_room_after(&self) -> bool
        ensures { IsTrue result ↔ (count_at (word_key (w.Own self.now.actor)) self.now.log + 1 < 2 ^ 62) }
    {
        self.moved < (1 << 62) - 1
    }
}

/// The token of a word that is moved under a lock, with the log in which it moved last.
#[derive(Drop)]
pub struct WordToken<J: Naming> {
    pub(crate) word: rz_events::Word,
    pub(crate) place: u16,
    pub(crate) moved: u64,
    pub(crate) tokens: Option<Tokens>,
    pub(crate) seen: Seen<Event, Told, Law>,
    pub(crate) of: PhantomData<J>,
}

impl<J: Naming> Model for WordToken<J> {
    ghost use Rattle.std.specs.Prelude.{◌≡◌, ◌<◌, [], ◌∷◌, IsSomeAnd, Some};
    ghost use Rattle.rz_chronicle.specs.Keys.{word_key, owner, sids_of, rows};
    ghost use Rattle.rz_chronicle.specs.Kinds.{history, HasEarlierLog, Fits, volume_in};
    ghost use Rattle.rz_chronicle.specs.Holds.{AreTokens, IsShared};
    ghost use Rattle.rz_chronicle.specs.Rules.{WordTokenView};

    ghost Value = { WordTokenView };

    ghost view = { λ p. record { word = p.word; log = history p.seen.log } };

    ghost invariant = { λ p. (p.seen.book ≡ J.book) × (p.seen.names ≡ J.counters ∷ J.copy ∷ J.kind)
        × IsSomeAnd p.tokens (λ h. AreTokens J.counters J.copy J.kind p.seen.log h × (h.held ≡ (word_key p.word, p.moved) ∷ []))
        × (owner (sids_of (volume_in J.kind)) p.place ≡ Some p.word)
        × IsShared p.word
        × Fits J.kind (history p.seen.log)
        × (p.place < 338)
        × (word_key p.word < rows)
        × HasEarlierLog J.kind J.earlier };
}

impl<J: Naming> WordToken<J> {
    // The token of a word that has no event yet.
    pub(crate) fn of_tokens(
        word: rz_events::Word,
        place: u16,
        tokens: Tokens,
        seen: Seen<Event, Told, Law>,
    ) -> WordToken<J>
        requires seen { (seen.book ≡ J.book) × (seen.names ≡ J.counters ∷ J.copy ∷ J.kind) × (seen.log ≡ []) }
        requires names { (tokens.counters ≡ J.counters) × (tokens.copy ≡ J.copy) × (tokens.kind ≡ J.kind) × (tokens.log ≡ []) }
        requires held { tokens.held ≡ (word_key word, 0) ∷ [] }
        requires place { (place < 338) × (owner (sids_of (volume_in J.kind)) place ≡ Some word) }
        requires word { IsShared word × (word_key word < rows) }
        requires earlier { HasEarlierLog J.kind J.earlier }
        requires fit { Fits J.kind [] }
        ensures { result ≡ record { word = word; log = [] } }
    {
        WordToken {
            word,
            place,
            moved: 0,
            tokens: Some(tokens),
            seen,
            of: PhantomData,
        }
    }

    /// Whether its word can move once more.
    pub fn room(&self) -> bool
        ensures room { IsTrue result ↔ (count_at (word_key self.now.word) self.now.log + 1 < 2 ^ 64) }
        ensures fit { IsFit J.kind self.now.log }
        ensures after { IsFitAfter J.kind self.now.log }
        ensures earlier { HasEarlierLog J.kind J.earlier }
    {
        self.moved < u64::MAX
    }

    /// Whether its word can move once more, and have room behind any earlier log.
    pub fn has_room_after(&self) -> bool
        ensures { IsTrue result ↔ (count_at (word_key self.now.word) self.now.log + 1 < 2 ^ 62) }
    {
        self.moved < (1 << 62) - 1
    }
}

/// The tokens of a book: the export's, and those of the nodes in the order of the description.
#[derive(Drop)]
pub struct Desk<J: Naming> {
    pub export: WordToken<J>,
    pub nodes: Vec<WordToken<J>>,
}
