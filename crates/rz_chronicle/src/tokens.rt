//! Tokens: the right to add events, without bytes.
ghost use Rattle.std.specs.Prelude.{◌≡◌, ◌<◌, ℕ, [], ◌∷◌, ◌++◌, List, None, length};
ghost use Rattle.rz_events.specs.declared.events.Event.{Event as AnEvent};
ghost use Rattle.rz_chronicle.specs.Keys.{rows};
ghost use Rattle.rz_chronicle.specs.Kinds.{HasPlace, HavePlaces, Fits, history, kind_after};
ghost use Rattle.rz_chronicle.specs.Tokens.{AllInRow, AreKeysApart, Covers, KeepsBookKind, Agree, IsHolding, at, counts, notes, held_in, mark, zeros, without, count_in};

use crate::kinds::Beginning;
use crate::told::Told;
use logbook::{Gain, Gained, Offer, Rule, Start};
use rz_config::Volume;
use rz_events::Event;
use std::marker::{Model, PhantomData};

/// The rule of a book: each word is the number of its events.
pub struct Law;

impl Rule<Event, Told> for Law {
    ghost use Rattle.std.specs.Prelude.{[]};
    ghost use Rattle.rz_chronicle.specs.Tokens.{kept};
    ghost use Rattle.rz_chronicle.specs.Rules.{AreCellsCounted, IsMove};

    ghost holds = { λ cells log. AreCellsCounted cells log };

    ghost first = { [] };

    ghost hinted = { λ n log. Unit {0} };

    ghost shows = { λ log. log };

    ghost keeps = { kept };

    ghost moves = { IsMove };
}

/// What a step gains: the tokens at the log after it.
pub struct Mine;

impl Gain<Event, Told> for Mine {
    ghost use Rattle.rz_chronicle.specs.Tokens.{gained, held_in};

    ghost after = { λ names about answer. gained names (held_in about) answer.before answer.log };
}

/// Which event a value stands for. So an event can be added without making one, which may take memory.
pub trait Asks<X> {
    ghost event: { X → AnEvent };
}

/// An event stands for itself.
pub struct Itself;

impl Asks<Event> for Itself {
    ghost event = { λ x. x };
}

/// Tokens: how many events some words and actors have in the log. Nobody else can add one.
#[derive(Drop)]
pub struct Tokens {
    marker: PhantomData<()>,
    pub ghost counters: { ℕ },
    pub ghost copy: { ℕ },
    pub ghost kind: { List ℕ },
    pub ghost held: { List (ℕ × ℕ) },
    pub ghost log: { List AnEvent },
}

impl Model for Tokens {
    ghost use Rattle.rz_chronicle.specs.Tokens.{tokens_own};

    ghost also_owns = { λ h. tokens_own h.counters h.copy h.held h.log };
}

/// What callers keep at the start, and the tokens of all words and actors.
pub fn begin<B: Beginning>(volume: &Volume) -> (Start<Event, Told, Law>, Tokens)
    requires { Fits (kind_after B.honest volume.now B.earlier) [] }
    ensures { (result.0.names ≡ result.1.counters ∷ result.1.copy ∷ result.1.kind) × (result.0.shown ≡ []) × (result.1.kind ≡ kind_after B.honest volume.now B.earlier) × (result.1.held ≡ zeros 0 rows) × (result.1.log ≡ []) }
{
    let _ = volume;
    (
        Start {
            marker: PhantomData,
        },
        Tokens {
            marker: PhantomData,
        },
    )
}

impl Tokens {
    /// An update that adds the event of a value.
    pub fn offer<X, N: Asks<X>>(self, about: &X) -> Offer<Event, Told, Law, Mine>
        requires { AllInRow self.held × Covers self.held (N.event about.now) × KeepsBookKind self.kind self.held self.log (N.event about.now) × HasPlace self.kind (N.event about.now) }
        ensures { (result.names ≡ self.counters ∷ self.copy ∷ self.kind) × (result.ask ≡ N.event about.now) × (result.about ≡ notes self.held) × (result.state ≡ None) }
    {
        let Self { marker: _ } = self;
        Offer {
            marker: PhantomData,
        }
    }

    /// An update that adds nothing.
    pub fn look(self) -> Offer<Event, Told, Law, Mine>
        requires { AllInRow self.held }
        ensures { (result.names ≡ self.counters ∷ self.copy ∷ self.kind) × (result.ask ≡ mark) × (result.about ≡ notes self.held) × (result.state ≡ None) }
    {
        let Self { marker: _ } = self;
        Offer {
            marker: PhantomData,
        }
    }

    /// The tokens after the step.
    pub fn back(gained: Gained<Event, Told, Mine>) -> Tokens
        requires { (n : ℕ × (ℕ × List ℕ)) × (gained.names ≡ n.0 ∷ n.1.0 ∷ n.1.1) }
        ensures { (result.counters ∷ result.copy ∷ result.kind ≡ gained.names) × (result.held ≡ at (counts gained.answer.log) (held_in gained.about)) × (result.log ≡ gained.answer.log) × Agree (counts gained.answer.before) (held_in gained.about) × Fits result.kind (history gained.answer.log) × AreKeysApart (held_in gained.about) × HavePlaces result.kind (history gained.answer.log) }
    {
        let Gained { marker: _ } = gained;
        Tokens {
            marker: PhantomData,
        }
    }

    /// The tokens of both, with the log of the first.
    pub fn join(self, other: Tokens) -> Tokens
        requires { (other.counters ≡ self.counters) × (other.copy ≡ self.copy) }
        ensures { (result.counters ≡ self.counters) × (result.copy ≡ self.copy) × (result.kind ≡ self.kind) × (result.held ≡ self.held ++ other.held) × (result.log ≡ self.log) }
    {
        let Self { marker: _ } = self;
        let Self { marker: _ } = other;
        Tokens {
            marker: PhantomData,
        }
    }

    /// The token of a key, and the others.
    pub fn parted(self, key: u64) -> (Tokens, Tokens)
        requires { IsHolding key self.held }
        ensures { (result.0.counters ≡ self.counters) × (result.0.copy ≡ self.copy) × (result.0.kind ≡ self.kind) × (result.0.log ≡ self.log) × (result.1.counters ≡ self.counters) × (result.1.copy ≡ self.copy) × (result.1.kind ≡ self.kind) × (result.1.log ≡ self.log) × (result.0.held ≡ (key, count_in key self.held) ∷ []) × (result.1.held ≡ without key self.held) }
    {
        let Self { marker: _ } = self;
        let _ = key;
        (
            Tokens {
                marker: PhantomData,
            },
            Tokens {
                marker: PhantomData,
            },
        )
    }
}

unsafe impl Send for Tokens {}
