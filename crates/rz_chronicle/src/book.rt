//! The book: one log to which each call and each act adds one event. No call waits for another.
ghost use Rattle.std.specs.Prelude.{◌≡◌, ◌+◌, ◌<◌, ◌^◌, ◌++◌, [], ◌∷◌, length, map, nat_eq, Some};
ghost use Rattle.std.specs.List.{AllByRecursion, IsDistinct};
ghost use Rattle.rz_events.specs.declared.events.Word.{Word as AWord};
ghost use Rattle.rz_events.specs.declared.events.Word.TheVariants as w;
ghost use Rattle.rz_events.specs.Events.{word_of as word_at, by_of};
ghost use Rattle.rz_chronicle.specs.Keys.{count_at, word_key, actor_key, rows, owner, key_at, moves_of, sids_of, IsLater, IsMember, IsOneOf, StandApart};
ghost use Rattle.rz_chronicle.specs.Kinds.{IsFit, MayCome, MayComeAfter, history, volume_in};
ghost use Rattle.rz_chronicle.specs.Rules.{named, AreBookWords};
ghost use Rattle.rz_chronicle.specs.Holds.{Commits, Stays, AreTokens, IsWordSettled, keys};

use crate::passes::{Desk, Naming, Pass, WordToken};
use crate::places::{key_of, owner_at, place_of};
use crate::steps::{append, append_both, view, view_both};
use crate::tokens::{Asks, Itself, Law, Tokens};
use crate::told::Told;
use logbook::{Seen, Word};
use rz_events::{Actor, Event};
use std::marker::{Model, PhantomData};

/// The words that all threads share.
#[derive(Drop)]
pub struct Book<J: Naming> {
    words: Vec<Word<Event, Told, Law>>,
    nodes: Vec<u16>,
    of: PhantomData<J>,
}

impl<J: Naming> Model for Book<J> {
    ghost use Rattle.std.specs.Prelude.{◌≡◌, length, nat_eq};
    ghost use Rattle.std.specs.List.{IsDistinct};
    ghost use Rattle.rz_events.specs.Volume.{Volume};
    ghost use Rattle.rz_chronicle.specs.Keys.{sids_of};
    ghost use Rattle.rz_chronicle.specs.Kinds.{volume_in};
    ghost use Rattle.rz_chronicle.specs.Rules.{AreBookWords};

    ghost Value = { Volume };

    ghost view = { λ b. volume_in J.kind };

    ghost invariant = { λ b. (b.nodes.items ≡ sids_of (volume_in J.kind)) × (length b.words.items ≡ 338)
        × AreBookWords J.book (sids_of (volume_in J.kind)) b.words.items
        × IsDistinct nat_eq b.nodes.items };
}

impl<J: Naming> Book<J> {
    // The book of these words.
    pub(crate) fn of_words(words: Vec<Word<Event, Told, Law>>, nodes: Vec<u16>) -> Book<J>
        requires nodes { nodes.items ≡ sids_of (volume_in J.kind) }
        requires distinct { IsDistinct nat_eq nodes.items }
        requires words { (length words.items ≡ 338) × AreBookWords J.book nodes.items words.items }
        ensures { result ≡ volume_in J.kind }
    {
        Book {
            words,
            nodes,
            of: PhantomData,
        }
    }

    fn row(&self, place: u16) -> &Word<Event, Told, Law>
        requires { place < 338 }
        ensures { result.now ≡ named J.book (key_at (sids_of (volume_in J.kind)) place) }
    {
        &self.words[place as usize]
    }

    /// Adds an event of the caller's own word. It waits for nobody.
    #[tactic(auto, using(crate::proofs::Histories::count_history))]
    pub fn finish(&self, pass: &mut Pass<J>, event: &Event)
        requires word { word_at event.now ≡ w.Own pass.old.actor }
        requires actor { by_of event.now ≡ pass.old.actor }
        requires legal { MayCome J.kind pass.old.log event.now }
        requires after { MayComeAfter J.kind pass.old.log event.now }
        requires room { count_at (word_key (w.Own pass.old.actor)) pass.old.log + 1 < 2 ^ 64 }
        ensures same { (pass.new.actor ≡ pass.old.actor) × (pass.new.keys ≡ pass.old.keys) }
        ensures commits { Commits pass.old.keys pass.old.log event.now pass.new.log }
        ensures fit { IsFit J.kind pass.new.log }
    {
        if let Some(tokens) = pass.tokens.take() {
            let word = self.row(place_of(pass.actor));
            let tokens = append::<Event, Itself>(word, &mut pass.seen, tokens, pass.moved, event);
            pass.tokens = Some(tokens);
            pass.moved += 1;
        }
    }

    /// Lets a pass and the token of a word see one log, which has what both have seen. The caller is under
    /// the word's lock.
    pub fn enter(&self, pass: &mut Pass<J>, word_token: &mut WordToken<J>)
        ensures same { (pass.new.actor ≡ pass.old.actor) × (pass.new.keys ≡ pass.old.keys) × (word_token.new.word ≡ word_token.old.word) }
        ensures one { word_token.new.log ≡ pass.new.log }
        ensures later { IsLater pass.old.log pass.new.log × IsLater word_token.old.log pass.new.log }
        ensures stays { Stays pass.old.keys pass.old.log pass.new.log }
        ensures serves { Stays (word_key word_token.old.word ∷ []) word_token.old.log pass.new.log }
        ensures fit { IsFit J.kind pass.new.log }
    {
        if let Some(mine) = pass.tokens.take() {
            if let Some(its) = word_token.tokens.take() {
                pass.seen.learn(&word_token.seen);
                let word = self.row(word_token.place);
                let key = key_of(&word_token.word);
                let (its, mine) = view_both(word, &mut pass.seen, its, mine, key, word_token.moved);
                word_token.seen = pass.seen.again();
                word_token.tokens = Some(its);
                pass.tokens = Some(mine);
            }
        }
    }

    /// Adds the event of a value, of the word whose token the caller holds too, under the word's lock. The
    /// two have entered.
    #[tactic(auto, using(crate::proofs::Histories::count_history))]
    pub fn commit<X, N: Asks<X>>(
        &self,
        pass: &mut Pass<J>,
        word_token: &mut WordToken<J>,
        about: &X,
    )
        requires one { word_token.old.log ≡ pass.old.log }
        requires word { word_at (N.event about.now) ≡ word_token.old.word }
        requires actor { by_of (N.event about.now) ≡ pass.old.actor }
        requires legal { MayCome J.kind pass.old.log (N.event about.now) }
        requires after { MayComeAfter J.kind pass.old.log (N.event about.now) }
        requires room { count_at (word_key word_token.old.word) word_token.old.log + 1 < 2 ^ 64 }
        ensures same { (pass.new.actor ≡ pass.old.actor) × (pass.new.keys ≡ pass.old.keys) × (word_token.new.word ≡ word_token.old.word) }
        ensures one { word_token.new.log ≡ pass.new.log }
        ensures commits { Commits (word_key word_token.old.word ∷ pass.old.keys) pass.old.log (N.event about.now) pass.new.log }
        ensures fit { IsFit J.kind pass.new.log }
    {
        if let Some(mine) = pass.tokens.take() {
            if let Some(its) = word_token.tokens.take() {
                let word = self.row(word_token.place);
                let key = key_of(&word_token.word);
                let moved = word_token.moved;
                let (its, mine) = append_both::<X, N>(
                    word,
                    &mut pass.seen,
                    its,
                    mine,
                    key,
                    moved,
                    about,
                );
                word_token.seen = pass.seen.again();
                word_token.tokens = Some(its);
                word_token.moved += 1;
                pass.tokens = Some(mine);
            }
        }
    }

    /// Lets `pass` see what `other` has seen.
    pub fn meet(&self, pass: &mut Pass<J>, other: &Pass<J>)
        ensures same { (pass.new.actor ≡ pass.old.actor) × (pass.new.keys ≡ pass.old.keys) }
        ensures later { IsLater pass.old.log pass.new.log × IsLater other.now.log pass.new.log }
        ensures stays { Stays pass.old.keys pass.old.log pass.new.log }
        ensures fit { IsFit J.kind pass.new.log }
    {
        if let Some(tokens) = pass.tokens.take() {
            pass.seen.learn(&other.seen);
            let word = self.row(place_of(pass.actor));
            let (tokens, _) = view(word, &mut pass.seen, tokens);
            pass.tokens = Some(tokens);
        }
    }

    // Lets `front` see a log and gives it the tokens that were kept with it. No token was held by two.
    fn absorb(&self, front: &mut Pass<J>, theirs: Tokens, seen: &Seen<Event, Told, Law>)
        requires book { seen.now.book ≡ J.book }
        requires theirs { AreTokens J.counters J.copy J.kind seen.now.log theirs }
        ensures same { (front.new.actor ≡ front.old.actor) × (front.new.keys ≡ front.old.keys ++ keys theirs.held) }
        ensures later { IsLater front.old.log front.new.log × IsLater (history seen.now.log) front.new.log }
        ensures stays { Stays front.old.keys front.old.log front.new.log }
        ensures gathers { Stays (keys theirs.held) (history seen.now.log) front.new.log }
        ensures apart { IsDistinct nat_eq front.new.keys }
        ensures fit { IsFit J.kind front.new.log }
    {
        if let Some(mine) = front.tokens.take() {
            front.seen.learn(seen);
            let word = self.row(place_of(front.actor));
            let (tokens, _) = view(word, &mut front.seen, mine.join(theirs));
            front.tokens = Some(tokens);
        }
    }

    /// Lets `front` see what `other` has seen, and hands it the tokens of `other`.
    pub fn gather(&self, front: &mut Pass<J>, other: Pass<J>)
        ensures same { (front.new.actor ≡ front.old.actor) × (front.new.keys ≡ front.old.keys ++ other.keys) }
        ensures later { IsLater front.old.log front.new.log × IsLater other.log front.new.log }
        ensures stays { Stays front.old.keys front.old.log front.new.log }
        ensures gathers { Stays other.keys other.log front.new.log }
        ensures apart { IsDistinct nat_eq front.new.keys }
        ensures fit { IsFit J.kind front.new.log }
    {
        let Pass {
            actor: _,
            moved: _,
            tokens,
            seen,
            of: _,
        } = other;
        if let Some(theirs) = tokens {
            self.absorb(front, theirs, &seen);
        }
    }

    // Lets `front` see what a word's events are, and hands it the word's token.
    fn settle_one(&self, front: &mut Pass<J>, word_token: WordToken<J>)
        ensures same { (front.new.actor ≡ front.old.actor) × (front.new.keys ≡ front.old.keys ++ word_key word_token.word ∷ []) }
        ensures later { IsLater front.old.log front.new.log }
        ensures stays { Stays front.old.keys front.old.log front.new.log }
        ensures settles { IsWordSettled word_token front.new.log }
        ensures apart { IsDistinct nat_eq front.new.keys }
        ensures fit { IsFit J.kind front.new.log }
    {
        let WordToken {
            word: _,
            place: _,
            moved: _,
            tokens,
            seen,
            of: _,
        } = word_token;
        if let Some(theirs) = tokens {
            self.absorb(front, theirs, &seen);
        }
    }

    /// Lets `front` see the events of the export's and of the nodes' words, and hands it their tokens.
    pub fn settle(&self, front: &mut Pass<J>, desk: Desk<J>)
        ensures same { (front.new.actor ≡ front.old.actor) × (front.new.keys ≡ front.old.keys ++ map (λ p. word_key p.word) (desk.export ∷ desk.nodes.items)) }
        ensures later { IsLater front.old.log front.new.log }
        ensures stays { Stays front.old.keys front.old.log front.new.log }
        ensures settles { AllByRecursion (λ p. IsWordSettled p front.new.log) (desk.export ∷ desk.nodes.items) }
        ensures apart { IsDistinct nat_eq front.new.keys }
        ensures fit { IsFit J.kind front.new.log }
    {
        let Desk { export, nodes } = desk;
        self.settle_one(front, export);
        'nodes: for word_token in nodes {
            self.settle_one(front, word_token);
        }
    }

    // How often the word at a place has moved, in the log that the pass has then seen.
    #[tactic(auto, using(crate::proofs::Histories::count_history))]
    fn load(&self, pass: &mut Pass<J>, place: u16) -> u64
        requires place { place < 338 }
        requires owner { (v : AWord) × (owner (sids_of (volume_in J.kind)) place ≡ Some v) × (word_key v < rows) }
        ensures same { (pass.new.actor ≡ pass.old.actor) × (pass.new.keys ≡ pass.old.keys) }
        ensures later { IsLater pass.old.log pass.new.log }
        ensures stays { Stays pass.old.keys pass.old.log pass.new.log }
        ensures count { result ≡ moves_of (owner (sids_of (volume_in J.kind)) place) pass.new.log }
        ensures fit { IsFit J.kind pass.new.log }
    {
        match pass.tokens.take() {
            Some(tokens) => {
                let word = self.row(place);
                let (tokens, found) = view(word, &mut pass.seen, tokens);
                pass.tokens = Some(tokens);
                found
            }
            None => 0,
        }
    }

    /// Lets a pass act as another of the actors whose tokens it holds.
    #[tactic(auto, using(crate::proofs::Histories::count_history))]
    pub fn turn_to(&self, pass: &mut Pass<J>, actor: Actor)
        requires member { IsMember actor }
        requires held { IsOneOf (word_key (w.Own actor)) pass.old.keys × IsOneOf (actor_key actor) pass.old.keys }
        ensures same { (pass.new.actor ≡ actor) × (pass.new.keys ≡ pass.old.keys) }
        ensures later { IsLater pass.old.log pass.new.log }
        ensures stays { Stays pass.old.keys pass.old.log pass.new.log }
        ensures fit { IsFit J.kind pass.new.log }
    {
        let moved = self.load(pass, place_of(actor));
        pass.actor = actor;
        pass.moved = moved;
    }

    /// No word stands at two places of the book, which is of its kind's volume.
    pub fn stands(&self)
        ensures volume { self.now ≡ volume_in J.kind }
        ensures apart { StandApart (sids_of self.now) }
    {
        let _nodes = self.nodes.len();
    }

    /// How many events the owner of a word has of it, in the log that the pass has then seen. The words
    /// are the export's, those of the nodes in the order of the description from 1 on, of the clients from
    /// 257, of the rebuilders from 321, and the administrator's, 337.
    pub fn count(&self, pass: &mut Pass<J>, word: u16) -> u64
        requires { word < 338 }
        ensures same { (pass.new.actor ≡ pass.old.actor) × (pass.new.keys ≡ pass.old.keys) }
        ensures later { IsLater pass.old.log pass.new.log }
        ensures stays { Stays pass.old.keys pass.old.log pass.new.log }
        ensures count { result ≡ moves_of (owner (sids_of self.now) word) pass.new.log }
        ensures fit { IsFit J.kind pass.new.log }
    {
        match owner_at(self.nodes.as_slice(), word) {
            Some(owner) => {
                let _key = key_of(&owner);
                self.load(pass, word)
            }
            None => {
                let _member = pass.actor();
                0
            }
        }
    }
}
