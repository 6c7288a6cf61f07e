//! Scripts: the language in which the store is driven.
//!
//! A [`Script`] is seen as its volume and the list of its lines; every line keeps the limits that
//! `specs/Lines` names. `specs/Grammar` says line by line what a text means, or its first fault;
//! [`Script::read`] answers exactly that, in each of the three forms. `specs/Spelling` is the one
//! spelling that [`Script::print`] gives. `specs/Weights` says what a script weighs. The contracts do
//! not say what a script does to a store. Its words, and the operations that they make, are those of
//! `rz_script_words`; the words that a printed log writes alike are passed on from there.
//!
//! In reading order: `fault`, `line`, `script`, `weights`, `keywords`, `lines`, `reading`, `printing`.
#![tactic(auto)]

mod fault;
mod keywords;
mod line;
mod lines;
mod printing;
mod reading;
mod script;
mod weights;

pub use fault::ScriptError;
pub use line::Line;
pub use rz_config::{Volume, VolumeFault};
pub use rz_events::{Actor, Datum, Operation, Text, TreeCall};
pub use rz_script_words::{
    Form, ScriptCause, push_actor, push_digits, push_hex, push_node, push_number, push_word,
    read_number,
};
pub use script::Script;
