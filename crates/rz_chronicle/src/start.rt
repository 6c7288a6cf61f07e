//! How a book is made, and what it deals out.
ghost use Rattle.std.specs.Prelude.{◌≡◌, ◌+◌, ◌≤◌, ◌++◌, [], ◌∷◌, map, length, nat_eq, IsTrue, OnOk, IfOk};
ghost use Rattle.std.specs.List.{IsDistinct};
ghost use Rattle.std.proofs.lemmas.Map.Keys.{IsDistinct-prop};
ghost use Rattle.logbook.specs.Pages.{Book as ABook};
ghost use Rattle.rz_events.specs.declared.files.NodeSpec.{NodeSpec as ANodeSpec};
ghost use Rattle.rz_events.specs.declared.keys.Actor.TheVariants as a;
ghost use Rattle.rz_events.specs.declared.events.Word.TheVariants as w;
ghost use Rattle.rz_events.specs.Volume.{nodes_of};
ghost use Rattle.rz_chronicle.specs.Keys.{rows, sids_of};
ghost use Rattle.rz_core.specs.Legal.{IsLegalInRuns};
ghost use Rattle.rz_chronicle.specs.Kinds.{goes_on, kind_of, kind_after, volume_in, HasEarlierLog};
ghost use Rattle.rz_chronicle.specs.Tokens.{zeros};
ghost use Rattle.rz_chronicle.specs.Rules.{AreBookWords};
ghost use Rattle.rz_chronicle.specs.Dealing.{new_pass, new_word_token, ArePasses, AreFresh};

use crate::book::Book;
use crate::dealer::{Dealer, clients, rebuilders, word_tokens};
use crate::kinds::{Beginning, read_back_after};
use crate::passes::{Desk, Naming, Pass};
use crate::places::{WORDS, key_at};
use crate::tokens::{Law, Tokens, begin};
use crate::told::Told;
use logbook::{Opening, Pen, Pens, Seen, Word};
use rz_config::{ClusterSpec, NodeSpec, Volume};
use rz_events::{Actor, Event};
use std::alloc::{AllocError, Global};
use std::marker::{Brand, PhantomData};

/// The empty log.
pub struct Empty;

impl Opening<Empty, Event> for Empty {
    ghost use Rattle.std.specs.Prelude.{[]};

    ghost log = { λ count about. [] };
}

/// How many keys there are.
#[tactic(auto, unfolding(crate::specs::Keys::rows))]
fn key_count() -> usize
    ensures { result ≡ rows }
{
    262_144
}

/// Adds the numbers of these nodes.
fn add_numbers(numbers: &mut Vec<u16>, nodes: &[NodeSpec]) -> Result<(), AllocError>
    ensures { OnOk result (numbers.new.items ≡ numbers.old.items ++ map (λ (n : ANodeSpec). n.sid) nodes.now) }
{
    for node in nodes {
        numbers.push(node.sid)?;
    }
    Ok(())
}

/// The nodes of a cluster.
fn nodes_in(cluster: &ClusterSpec) -> &[NodeSpec]
    ensures { result.now ≡ cluster.now.nodes }
{
    cluster.nodes.as_slice()
}

/// The numbers of the nodes of these clusters.
fn numbers(alloc: Global, clusters: &[ClusterSpec]) -> Result<Vec<u16>, AllocError>
    ensures { IfOk result (λ ns. ns.items ≡ map (λ (n : ANodeSpec). n.sid) (nodes_of clusters.now)) }
{
    let mut numbers = Vec::new(alloc);
    for cluster in clusters {
        add_numbers(&mut numbers, nodes_in(cluster))?;
    }
    Ok(numbers)
}

/// The rights to make a word for each key. They have no bytes, so that this list takes no memory.
fn all_pens(alloc: Global, pens: Pens, count: usize) -> Result<Vec<Pen>, AllocError>
    requires { (pens.next ≡ 0) × (pens.left ≡ count) }
    ensures { IfOk result (λ ps. (length ps.items ≡ count) × AreFresh pens.book ps.items) }
{
    let mut pens = pens;
    let mut all = Vec::new(alloc);
    'keys: for key in 0..count {
        let _ = key;
        all.push(pens.take())?;
    }
    Ok(all)
}

/// The words of a book of these nodes, by their places.
fn words(
    alloc: Global,
    pens: Vec<Pen>,
    nodes: &[u16],
) -> Result<Vec<Word<Event, Told, Law>>, AllocError>
    requires pens { (length pens.items ≡ rows) × ((b : ABook) × AreFresh b pens.items) }
    requires nodes { IsDistinct nat_eq nodes.now }
    ensures { (b : ABook) → AreFresh b pens.items → IfOk result (λ ws. (length ws.items ≡ 338) × AreBookWords b nodes.now ws.items) }
{
    let mut pens = pens;
    let mut words = Vec::with_capacity(alloc, WORDS as usize)?;
    for place in 0..WORDS {
        let key = key_at(nodes, place) as usize;
        words.push(Word::tracked(0, &mut pens[key]))?;
    }
    Ok(words)
}

/// A new book with an empty log, which has no name yet.
#[derive(Drop)]
pub struct NewBook {
    words: Vec<Word<Event, Told, Law>>,
    nodes: Vec<u16>,
    pub seen: Seen<Event, Told, Law>,
    pub tokens: Tokens,
    ghost long: { length words.items ≡ 338 },
    ghost are: { AreBookWords seen.book nodes.items words.items },
    ghost few: { length nodes.items ≤ 256 },
    ghost distinct: { IsDistinct nat_eq nodes.items } by { IsDistinct-prop nat_eq nodes.items },
    ghost numbers: { nodes.items ≡ sids_of (volume_in tokens.kind) },
    ghost names: { seen.names ≡ tokens.counters ∷ tokens.copy ∷ tokens.kind },
    ghost empty: { seen.log ≡ [] },
    ghost all: { tokens.held ≡ zeros 0 rows },
    ghost none: { tokens.log ≡ [] },
}

/// What a new book deals out: a pass for the administrator, for each of 64 clients and of 16
/// rebuilders, and the tokens of the other words.
#[derive(Drop)]
pub struct Crew<J: Naming> {
    pub admin: Pass<J>,
    pub clients: Vec<Pass<J>>,
    pub rebuilders: Vec<Pass<J>>,
    pub desk: Desk<J>,
}

impl NewBook {
    /// A new book of this volume, honest or not, whose log begins anew. It takes all the memory that the
    /// book will ever need but that of its crew's lists.
    pub fn start(alloc: Global, volume: &Volume, honest: bool) -> Result<NewBook, AllocError>
        ensures { IfOk result (λ o. o.tokens.kind ≡ kind_of honest volume.now) }
    {
        NewBook::anew::<Brand>(alloc, volume, honest)
    }

    // The same, whose log the call picks: it begins anew.
    fn anew<B: Beginning>(
        alloc: Global,
        volume: &Volume,
        honest: bool,
    ) -> Result<NewBook, AllocError>
        requires honest { B.honest ≡ honest }
        requires empty { B.earlier ≡ [] }
        ensures { IfOk result (λ o. o.tokens.kind ≡ kind_of honest volume.now) }
    {
        let _ = honest;
        NewBook::after::<B>(alloc, volume)
    }

    /// A new book of this volume, honest or not, whose log goes on after an earlier one: the call picks
    /// both. The earlier log takes no memory.
    pub fn after<B: Beginning>(alloc: Global, volume: &Volume) -> Result<NewBook, AllocError>
        requires { IsTrue B.honest → IsLegalInRuns volume.now B.earlier }
        ensures { IfOk result (λ o. o.tokens.kind ≡ kind_after B.honest volume.now B.earlier) }
    {
        let nodes = numbers(alloc, volume.clusters.as_slice())?;
        let _few = volume.node_count();
        read_back_after();
        let (start, tokens) = begin::<B>(volume);
        let count = key_count();
        let (seen, pens) = Seen::open_row::<Empty, Empty>(&Empty, start, count);
        let pens = all_pens(alloc, pens, count)?;
        let words = words(alloc, pens, nodes.as_slice())?;
        Ok(NewBook {
            words,
            nodes,
            seen,
            tokens,
        })
    }

    /// The book under a name, and its crew.
    pub fn named<J: Naming>(self, alloc: Global) -> Result<(Book<J>, Crew<J>), AllocError>
        requires names { (self.seen.book ≡ J.book) × (self.tokens.counters ≡ J.counters) × (self.tokens.copy ≡ J.copy) × (self.tokens.kind ≡ J.kind) }
        requires earlier { HasEarlierLog J.kind J.earlier }
        requires legal { IsTrue (goes_on J.kind) → IsLegalInRuns (volume_in J.kind) J.earlier }
        ensures book { IfOk result (λ r. r.0 ≡ volume_in J.kind) }
        ensures admin { IfOk result (λ r. r.1.admin ≡ new_pass a.Admin) }
        ensures clients { IfOk result (λ r. ArePasses 64 (λ i. a.Client (i + 1)) r.1.clients.items) }
        ensures rebuilders { IfOk result (λ r. ArePasses 16 (λ i. a.Rebuilder (i + 1)) r.1.rebuilders.items) }
        ensures export { IfOk result (λ r. r.1.desk.export ≡ new_word_token w.Export) }
        ensures nodes { IfOk result (λ r. r.1.desk.nodes.items ≡ map (λ n. new_word_token (w.Node n)) (sids_of (volume_in J.kind))) }
    {
        let NewBook {
            words,
            nodes,
            seen,
            tokens,
        } = self;
        let dealer = Dealer {
            tokens,
            seen,
            of: PhantomData,
        };
        let (export, dealer) = dealer.word_token(rz_events::Word::Export, 0);
        let (word_tokens, dealer) = word_tokens(alloc, dealer, nodes.as_slice())?;
        let (admin, dealer) = dealer.pass(Actor::Admin);
        let (clients, dealer) = clients(alloc, dealer)?;
        let (rebuilders, _) = rebuilders(alloc, dealer)?;
        let desk = Desk {
            export,
            nodes: word_tokens,
        };
        let crew = Crew {
            admin,
            clients,
            rebuilders,
            desk,
        };
        Ok((Book::of_words(words, nodes), crew))
    }
}
