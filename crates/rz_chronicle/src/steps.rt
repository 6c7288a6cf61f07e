//! Steps on the words: one exchange or one load each.
ghost use Rattle.std.specs.Prelude.{◌≡◌, ◌+◌, ◌<◌, ◌^◌, ◌++◌, [], ◌∷◌, true};
ghost use Rattle.rz_events.specs.declared.events.Word.{Word as AWord};
ghost use mathlib.Core.List.{IsPrefix};
ghost use Rattle.rz_events.specs.Events.{word_of as word_at, by_of};
ghost use Rattle.rz_chronicle.specs.Keys.{count_at, word_key, actor_key, IsInRow, rows};
ghost use Rattle.rz_chronicle.specs.Kinds.{HasPlace, HavePlaces, Fits, MayFit, history};
ghost use Rattle.rz_chronicle.specs.Tokens.{AllInRow, AreKeysApart, Covers, HasCount, IsHolding, EndsOnEvent, Agree, at, counts};
ghost use Rattle.rz_chronicle.specs.Holds.{AreOfOne, AreTokensRight, Commits, keys};

use crate::laws::local_after;
use crate::tokens::{Asks, Law, Mine, Tokens};
use crate::told::Told;
use logbook::{Play, Seen, Word};
use rz_events::Event;

/// A step that adds an event, or finds that the word has moved.
pub struct Add;

impl Play<Event, Told> for Add {
    ghost use Rattle.rz_chronicle.specs.Rules.{Adds};

    ghost then = { Adds };
}

/// A step that looks.
pub struct Look;

impl Play<Event, Told> for Look {
    ghost use Rattle.rz_chronicle.specs.Rules.{Looks};

    ghost then = { Looks };
}

/// Adds the event of a value. The token of the word is among the tokens, so that nobody else moves it, and the
/// exchange is won.
pub fn append<X, N: Asks<X>>(
    word: &Word<Event, Told, Law>,
    seen: &mut Seen<Event, Told, Law>,
    tokens: Tokens,
    moved: u64,
    about: &X,
) -> Tokens
    requires word { (word.now.tracked ≡ true) × (word.now.key ≡ word_key (word_at (N.event about.now))) × IsInRow (N.event about.now) }
    requires book { seen.old.book ≡ word.now.book }
    requires names { seen.old.names ≡ tokens.counters ∷ tokens.copy ∷ tokens.kind }
    requires held { AreTokensRight tokens × Covers tokens.held (N.event about.now) }
    requires legal { MayFit tokens.kind (history tokens.log) (N.event about.now) }
    requires place { HasPlace tokens.kind (N.event about.now) }
    requires count { HasCount tokens.held (word_key (word_at (N.event about.now))) moved }
    requires room { moved + 1 < 2 ^ 64 }
    ensures book { (seen.new.book ≡ seen.old.book) × (seen.new.names ≡ seen.old.names) }
    ensures tokens { (result.counters ≡ tokens.counters) × (result.copy ≡ tokens.copy) × (result.kind ≡ tokens.kind) }
    ensures held { (result.held ≡ at (counts seen.new.log) tokens.held) × (result.log ≡ seen.new.log) }
    ensures ends { EndsOnEvent tokens.held seen.old.log (N.event about.now) seen.new.log }
    ensures fit { Fits tokens.kind (history seen.new.log) }
    ensures places { HavePlaces tokens.kind (history seen.new.log) }
{
    rz_core::local();
    local_after();
    let mut offer = tokens.offer::<X, N>(about);
    let mut pen = seen.no_pen();
    let _found = word.compare_exchange::<Add, Mine>(moved, moved + 1, seen, &mut offer, &mut pen);
    Tokens::back(offer.into_gain())
}

/// Looks at the log as it is, in which the counts of the tokens are right, and says how often a word has moved
/// there.
pub fn view(
    word: &Word<Event, Told, Law>,
    seen: &mut Seen<Event, Told, Law>,
    tokens: Tokens,
) -> (Tokens, u64)
    requires word { (word.now.tracked ≡ true) × (word.now.key < rows) }
    requires key { (w : AWord) × (word.now.key ≡ word_key w) }
    requires book { seen.old.book ≡ word.now.book }
    requires names { seen.old.names ≡ tokens.counters ∷ tokens.copy ∷ tokens.kind }
    requires held { AllInRow tokens.held }
    ensures book { (seen.new.book ≡ seen.old.book) × (seen.new.names ≡ seen.old.names) }
    ensures tokens { (result.0.counters ≡ tokens.counters) × (result.0.copy ≡ tokens.copy) × (result.0.kind ≡ tokens.kind) }
    ensures held { (result.0.held ≡ at (counts seen.new.log) tokens.held) × (result.0.log ≡ seen.new.log) }
    ensures agree { Agree (counts seen.new.log) tokens.held }
    ensures apart { AreKeysApart tokens.held }
    ensures seen { IsPrefix seen.old.log seen.new.log }
    ensures fit { Fits tokens.kind (history seen.new.log) }
    ensures places { HavePlaces tokens.kind (history seen.new.log) }
    ensures count { result.1 ≡ count_at word.now.key seen.new.log }
{
    let mut offer = tokens.look();
    let found = word.load::<Look, Mine>(seen, &mut offer);
    (Tokens::back(offer.into_gain()), found)
}

/// Looks at the log as it is, in which the counts of both are right: `its` has the token of one
/// word.
pub fn view_both(
    word: &Word<Event, Told, Law>,
    seen: &mut Seen<Event, Told, Law>,
    its: Tokens,
    mine: Tokens,
    key: u64,
    moved: u64,
) -> (Tokens, Tokens)
    requires word { (word.now.tracked ≡ true) × (word.now.key < rows) }
    requires key { (w : AWord) × (word.now.key ≡ word_key w) }
    requires book { seen.old.book ≡ word.now.book }
    requires names { seen.old.names ≡ mine.counters ∷ mine.copy ∷ mine.kind }
    requires one { AreOfOne its mine }
    requires held { AllInRow mine.held × AllInRow its.held }
    requires its { its.held ≡ (key, moved) ∷ [] }
    ensures book { (seen.new.book ≡ seen.old.book) × (seen.new.names ≡ seen.old.names) }
    ensures one { AreOfOne result.0 mine × AreOfOne result.1 mine }
    ensures mine { (result.1.held ≡ at (counts seen.new.log) mine.held) × (result.1.log ≡ seen.new.log) }
    ensures its { (result.0.held ≡ (key, moved) ∷ []) × (result.0.log ≡ seen.new.log) }
    ensures agree { Agree (counts seen.new.log) mine.held × (count_at key seen.new.log ≡ moved) }
    ensures seen { IsPrefix seen.old.log seen.new.log }
    ensures fit { Fits mine.kind (history seen.new.log) }
    ensures places { HavePlaces mine.kind (history seen.new.log) }
{
    let (tokens, _) = view(word, seen, its.join(mine));
    tokens.parted(key)
}

/// Adds the event of a value, of a word that `its` has the token of, by an actor that `mine` has the
/// token of.
pub fn append_both<X, N: Asks<X>>(
    word: &Word<Event, Told, Law>,
    seen: &mut Seen<Event, Told, Law>,
    its: Tokens,
    mine: Tokens,
    key: u64,
    moved: u64,
    about: &X,
) -> (Tokens, Tokens)
    requires word { (word.now.tracked ≡ true) × (word.now.key ≡ key) × (word_key (word_at (N.event about.now)) ≡ key) × IsInRow (N.event about.now) }
    requires book { seen.old.book ≡ word.now.book }
    requires names { seen.old.names ≡ mine.counters ∷ mine.copy ∷ mine.kind }
    requires one { AreOfOne its mine }
    requires mine { AreTokensRight mine × IsHolding (actor_key (by_of (N.event about.now))) mine.held × (mine.log ≡ seen.old.log) }
    requires its { (its.held ≡ (key, moved) ∷ []) × (its.log ≡ mine.log) × (count_at key mine.log ≡ moved) }
    requires legal { MayFit mine.kind (history mine.log) (N.event about.now) }
    requires place { HasPlace mine.kind (N.event about.now) }
    requires room { moved + 1 < 2 ^ 64 }
    ensures book { (seen.new.book ≡ seen.old.book) × (seen.new.names ≡ seen.old.names) }
    ensures one { AreOfOne result.0 mine × AreOfOne result.1 mine }
    ensures mine { (result.1.held ≡ at (counts seen.new.log) mine.held) × (result.1.log ≡ seen.new.log) }
    ensures its { (result.0.held ≡ (key, moved + 1) ∷ []) × (result.0.log ≡ seen.new.log) }
    ensures count { count_at key seen.new.log ≡ moved + 1 }
    ensures commits { Commits (key ∷ keys mine.held) (history mine.log) (N.event about.now) (history seen.new.log) }
    ensures fit { Fits mine.kind (history seen.new.log) }
    ensures places { HavePlaces mine.kind (history seen.new.log) }
{
    let tokens = append::<X, N>(word, seen, its.join(mine), moved, about);
    tokens.parted(key)
}
