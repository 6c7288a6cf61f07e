//! The words of a script's lines: how numbers, actors, nodes and data are spelled, what each word says, and
//! the operations that words make.
//!
//! `specs/Words` spells the words that a script and a printed log write alike; `specs/Numerals` says which
//! number a word of decimal digits is. `specs/Grammar` says what a word means, and what the words after the
//! first word of an operation mean, or their first cause ([`ScriptCause`]). A function that takes memory
//! answers the same, or that there is none ([`LineError`]). Which words of the line a function leaves, also
//! where it fails, `specs/Left` says. Which lines the words make, `rz_script` says.
//!
//! In reading order: `spelling`, `fault`, `form`, `words`, `judges`, `verbs`, `operations`.
#![tactic(auto)]

mod fault;
mod form;
pub mod judges;
mod operations;
mod spelling;
mod verbs;
mod words;

pub use fault::{LineError, ScriptCause};
pub use form::Form;
pub use operations::read_operands;
pub use spelling::{
    push_actor, push_digits, push_hex, push_node, push_number, push_word, read_number,
};
pub use verbs::{PairVerb, PathVerb, Verb, read_verb};
pub use words::{Words, cut, rest_of};
