//! The dealing out of a new book's tokens.
ghost use Rattle.std.specs.Prelude.{◌≡◌, ◌≢◌, ◌+◌, ◌<◌, ◌≤◌, [], ◌∷◌, ℕ, map, length, nat_eq, IfOk, Some};
ghost use Rattle.std.specs.List.{IsDistinct};
ghost use Rattle.rz_events.specs.declared.keys.Actor.TheVariants as a;
ghost use Rattle.rz_events.specs.declared.events.Word.TheVariants as w;
ghost use Rattle.rz_chronicle.specs.Keys.{word_key, actor_key, owner, sids_of, rows, IsMember};
ghost use Rattle.rz_chronicle.specs.Kinds.{volume_in};
ghost use Rattle.rz_chronicle.specs.Tokens.{without, IsHolding};
ghost use Rattle.rz_chronicle.specs.Holds.{IsShared};
ghost use Rattle.rz_chronicle.specs.Dealing.{new_pass, new_word_token, ArePasses};

use crate::passes::{Naming, Pass, WordToken};
use crate::places::key_of;
use crate::tokens::{Law, Tokens};
use crate::told::Told;
use logbook::Seen;
use rz_events::{Actor, CLIENTS, Event, REBUILDERS, Word};
use std::alloc::{AllocError, Global};
use std::marker::{Model, PhantomData};

/// Tokens of a book with an empty log that were not dealt out yet.
#[derive(Drop)]
pub struct Dealer<J: Naming> {
    pub(crate) tokens: Tokens,
    pub(crate) seen: Seen<Event, Told, Law>,
    pub(crate) of: PhantomData<J>,
}

impl<J: Naming> Model for Dealer<J> {
    ghost use Rattle.std.specs.Prelude.{◌≡◌, ℕ, List, [], ◌∷◌};
    ghost use Rattle.std.specs.List.{AllByRecursion};
    ghost use Rattle.rz_chronicle.specs.Kinds.{Fits, HasEarlierLog};

    ghost Value = { List (ℕ × ℕ) };

    ghost view = { λ d. d.tokens.held };

    ghost invariant = { λ d. (d.seen.book ≡ J.book) × (d.seen.names ≡ J.counters ∷ J.copy ∷ J.kind) × (d.seen.log ≡ [])
        × (d.tokens.counters ≡ J.counters) × (d.tokens.copy ≡ J.copy) × (d.tokens.kind ≡ J.kind) × (d.tokens.log ≡ [])
        × AllByRecursion (λ x. x.1 ≡ 0) d.tokens.held
        × HasEarlierLog J.kind J.earlier
        × Fits J.kind [] };
}

impl<J: Naming> Dealer<J> {
    // The token of a key, and the others.
    fn one(self, key: u64) -> (Tokens, Dealer<J>)
        requires { IsHolding key self }
        ensures names { (result.0.counters ≡ J.counters) × (result.0.copy ≡ J.copy) × (result.0.kind ≡ J.kind) × (result.0.log ≡ []) }
        ensures held { result.0.held ≡ (key, 0) ∷ [] }
        ensures rest { result.1 ≡ without key self }
    {
        let Dealer { tokens, seen, of } = self;
        let (one, tokens) = tokens.parted(key);
        (one, Dealer { tokens, seen, of })
    }

    /// The token of a word.
    pub fn word_token(self, word: Word, place: u16) -> (WordToken<J>, Dealer<J>)
        requires held { IsHolding (word_key word) self }
        requires place { (place < 338) × (owner (sids_of (volume_in J.kind)) place ≡ Some word) }
        requires shared { IsShared word }
        ensures word_token { result.0 ≡ new_word_token word }
        ensures rest { (k : ℕ) → IsHolding k self → k ≢ word_key word → IsHolding k result.1 }
    {
        let (tokens, dealer) = self.one(key_of(&word));
        let seen = dealer.seen.again();
        (WordToken::of_tokens(word, place, tokens, seen), dealer)
    }

    /// The pass of an actor, which has seen nothing.
    pub fn pass(self, actor: Actor) -> (Pass<J>, Dealer<J>)
        requires member { IsMember actor }
        requires held { IsHolding (word_key (w.Own actor)) self × IsHolding (actor_key actor) self }
        ensures pass { result.0 ≡ new_pass actor }
        ensures rest { (k : ℕ) → IsHolding k self → k ≢ word_key (w.Own actor) → k ≢ actor_key actor → IsHolding k result.1 }
    {
        let key = key_of(&Word::Own(actor));
        let (own, dealer) = self.one(key);
        let (by, dealer) = dealer.one(key + 1);
        let seen = dealer.seen.again();
        (Pass::of_tokens(actor, own.join(by), seen), dealer)
    }
}

/// The tokens of these nodes.
pub fn word_tokens<J: Naming>(
    alloc: Global,
    dealer: Dealer<J>,
    nodes: &[u16],
) -> Result<(Vec<WordToken<J>>, Dealer<J>), AllocError>
    requires nodes { (nodes.now ≡ sids_of (volume_in J.kind)) × IsDistinct nat_eq nodes.now × (length nodes.now ≤ 256) }
    requires held { (n : ℕ) → word_key (w.Node n) < rows → IsHolding (word_key (w.Node n)) dealer }
    ensures word_tokens { IfOk result (λ r. r.0.items ≡ map (λ n. new_word_token (w.Node n)) nodes.now) }
    ensures rest { IfOk result (λ r. (k : ℕ) → IsHolding k dealer → ((n : ℕ) → k ≢ word_key (w.Node n)) → IsHolding k r.1) }
{
    let mut dealer = dealer;
    let mut word_tokens = Vec::with_capacity(alloc, nodes.len())?;
    for i in 0..nodes.len() {
        let (word_token, rest) = dealer.word_token(Word::Node(nodes[i]), i as u16 + 1);
        dealer = rest;
        word_tokens.push(word_token)?;
    }
    Ok((word_tokens, dealer))
}

/// The passes of the clients, 1 to 64.
pub fn clients<J: Naming>(
    alloc: Global,
    dealer: Dealer<J>,
) -> Result<(Vec<Pass<J>>, Dealer<J>), AllocError>
    requires { (c : ℕ) → c < 65 → IsHolding (word_key (w.Own (a.Client c))) dealer × IsHolding (actor_key (a.Client c)) dealer }
    ensures clients { IfOk result (λ r. ArePasses 64 (λ i. a.Client (i + 1)) r.0.items) }
    ensures rest { IfOk result (λ r. (k : ℕ) → IsHolding k dealer → ((c : ℕ) → k ≢ word_key (w.Own (a.Client c))) → ((c : ℕ) → k ≢ actor_key (a.Client c)) → IsHolding k r.1) }
{
    let mut dealer = dealer;
    let mut clients = Vec::with_capacity(alloc, CLIENTS as usize)?;
    for i in 0..CLIENTS {
        let (pass, rest) = dealer.pass(Actor::Client(i + 1));
        dealer = rest;
        clients.push(pass)?;
    }
    Ok((clients, dealer))
}

/// The passes of the rebuilders, 1 to 16.
pub fn rebuilders<J: Naming>(
    alloc: Global,
    dealer: Dealer<J>,
) -> Result<(Vec<Pass<J>>, Dealer<J>), AllocError>
    requires { (c : ℕ) → c < 17 → IsHolding (word_key (w.Own (a.Rebuilder c))) dealer × IsHolding (actor_key (a.Rebuilder c)) dealer }
    ensures { IfOk result (λ r. ArePasses 16 (λ i. a.Rebuilder (i + 1)) r.0.items) }
{
    let mut dealer = dealer;
    let mut rebuilders = Vec::with_capacity(alloc, REBUILDERS as usize)?;
    for i in 0..REBUILDERS {
        let (pass, rest) = dealer.pass(Actor::Rebuilder(i + 1));
        dealer = rest;
        rebuilders.push(pass)?;
    }
    Ok((rebuilders, dealer))
}
