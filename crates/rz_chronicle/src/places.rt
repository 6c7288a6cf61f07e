//! Where the words of a book stand, and the keys that number them.
ghost use Rattle.std.specs.Prelude.{◌≡◌, ◌<◌, ℕ, List, Some};
ghost use Rattle.rz_events.specs.declared.events.Word.TheVariants as w;
ghost use Rattle.rz_chronicle.specs.Keys as keys;
ghost use Rattle.rz_chronicle.specs.Keys.{word_key, number, rows, IsMember};

use rz_events::{Actor, CLIENTS, REBUILDERS, Word};

/// Where the words of the nodes end, those of the clients, and those of the rebuilders. The export's stands
/// at 0.
const NODES_END: u16 = 256;

const CLIENTS_END: u16 = NODES_END + CLIENTS as u16;

const REBUILDERS_END: u16 = CLIENTS_END + REBUILDERS as u16;

/// How many words a book has: the administrator's is the last.
pub const WORDS: u16 = REBUILDERS_END + 2;

/// The number of a word.
#[tactic(auto, unfolding(crate::specs::Keys::rows))]
pub fn key_of(word: &Word) -> u64
    ensures value { result ≡ word_key word.now }
    ensures low { result < rows }
{
    match *word {
        Word::Export => 0,
        Word::Node(node) => 4 * u64::from(node) + 1,
        Word::Own(by) => 4 * number_of(by) + 2,
    }
}

fn number_of(by: Actor) -> u64
    ensures value { result ≡ number by }
    ensures small { result < 1000 }
{
    match by {
        Actor::Client(client) => 3 * u64::from(client),
        Actor::Rebuilder(rebuilder) => 3 * u64::from(rebuilder) + 1,
        Actor::Admin => 2,
    }
}

/// Whose word stands at a place, in a book of these nodes.
pub fn owner_at(nodes: &[u16], place: u16) -> Option<Word>
    requires { place < 338 }
    ensures { result ≡ keys.owner nodes.now place }
{
    if place == 0 {
        Some(Word::Export)
    } else if place <= NODES_END {
        nodes.get(place as usize - 1).map(|node| Word::Node(*node))
    } else if place <= CLIENTS_END {
        Some(Word::Own(Actor::Client((place - NODES_END) as u8)))
    } else if place <= REBUILDERS_END {
        Some(Word::Own(Actor::Rebuilder((place - CLIENTS_END) as u8)))
    } else {
        Some(Word::Own(Actor::Admin))
    }
}

/// The key of the word at a place, or a number that is no word's key at one that is nobody's.
#[tactic(auto, unfolding(crate::specs::Keys::rows))]
pub fn key_at(nodes: &[u16], place: u16) -> u64
    requires { place < 338 }
    ensures value { result ≡ keys.key_at nodes.now place }
    ensures low { result < rows }
{
    match owner_at(nodes, place) {
        Some(word) => key_of(&word),
        None => 4 * u64::from(place),
    }
}

/// Where the own word of an actor stands.
pub fn place_of(by: Actor) -> u16
    requires { IsMember by }
    ensures place { result < 338 }
    ensures owner { (sids : List ℕ) → keys.owner sids result ≡ Some (w.Own by) }
{
    match by {
        Actor::Client(client) => NODES_END + u16::from(client),
        Actor::Rebuilder(rebuilder) => CLIENTS_END + u16::from(rebuilder),
        Actor::Admin => REBUILDERS_END + 1,
    }
}
