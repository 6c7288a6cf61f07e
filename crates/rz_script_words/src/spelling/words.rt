//! The words, each added to what was written before.

ghost use Rattle.std.specs.Prelude.{◌≡◌, ◌∷◌, ◌++◌, OnOk};
ghost use Rattle.std.specs.Fmt.{decimal};
ghost use Rattle.rz_script_words.specs.Words.{actor_word, hex_word, node_word};

use rz_events::Actor;
use std::alloc::{AllocError, Global};

/// Adds the digits of a number.
pub fn push_digits(alloc: Global, out: &mut Vec<u8>, number: u64) -> Result<(), AllocError>
    ensures { OnOk result (out.new.items ≡ out.old.items ++ decimal number) }
{
    let digits = format!(in alloc; "{number}")?;
    out.extend_from_slice(digits.as_bytes())
}

/// Adds the word of an actor.
#[tactic(auto, unfolding(crate::specs::Words::actor_word))]
pub fn push_actor(alloc: Global, out: &mut Vec<u8>, actor: Actor) -> Result<(), AllocError>
    ensures { OnOk result (out.new.items ≡ out.old.items ++ actor_word actor) }
{
    match actor {
        Actor::Client(number) => {
            out.extend_from_slice(b"c")?;
            push_digits(alloc, out, u64::from(number))
        }
        Actor::Rebuilder(number) => {
            out.extend_from_slice(b"r")?;
            push_digits(alloc, out, u64::from(number))
        }
        Actor::Admin => out.extend_from_slice(b"admin"),
    }
}

/// Adds the word of a node.
#[tactic(auto, unfolding(crate::specs::Words::node_word))]
pub fn push_node(alloc: Global, out: &mut Vec<u8>, node: u16) -> Result<(), AllocError>
    ensures { OnOk result (out.new.items ≡ out.old.items ++ node_word node) }
{
    out.extend_from_slice(b"n")?;
    push_digits(alloc, out, u64::from(node))
}

/// Adds the word of some bytes, which has all of them.
#[tactic(auto, unfolding(crate::specs::Words::hex_word))]
pub fn push_hex(alloc: Global, out: &mut Vec<u8>, bytes: &[u8]) -> Result<(), AllocError>
    ensures { OnOk result (out.new.items ≡ out.old.items ++ hex_word bytes.now) }
{
    let digits = hex::encode(alloc, bytes)?;
    out.extend_from_slice(b"x:")?;
    out.extend_from_slice(digits.as_bytes())
}

/// Adds a word after a space.
pub fn push_word(out: &mut Vec<u8>, word: &[u8]) -> Result<(), AllocError>
    ensures { OnOk result (out.new.items ≡ out.old.items ++ 32 ∷ word.now) }
{
    out.push(b' ')?;
    out.extend_from_slice(word)
}

/// Adds a number after a space.
pub fn push_number(alloc: Global, out: &mut Vec<u8>, number: u64) -> Result<(), AllocError>
    ensures { OnOk result (out.new.items ≡ out.old.items ++ 32 ∷ decimal number) }
{
    out.push(b' ')?;
    push_digits(alloc, out, number)
}
