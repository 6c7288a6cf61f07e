//! The types that every part of the store shares: keys, places, records, the calls of a node and of
//! the export with their answers, what the machines of clients and rebuilders ask, and the events of
//! the log.
//!
//! A contract sees `Text`, `Listing` and `Places` as lists, and every other type as its fields. What
//! the types mean to each other, such as which answer a node gives, is said by the crates above.
//! This crate says who did an event and whose word it moves.
//!
//! In reading order: `keys`, `texts`, `files`, `records`, `nodes`, `tree`, `export`, `ends`,
//! `machines`, `operations`, `events`.
#![tactic(auto)]

pub use mj_angles::Layout;

mod ends;
mod events;
mod export;
mod files;
mod keys;
mod machines;
mod nodes;
mod operations;
mod records;
mod texts;
mod tree;

pub use ends::{Denial, LeftWhy, ReadEnd, ReadMark, RebuildEnd, Seen, Why, WriteEnd};
pub use events::{Answer, Event, Word, actor_of, word_of};
pub use export::{Asked, Call, CallRef, Reply};
pub use files::{Attr, FileInfo, Kind, Listed, NodeSpec, Places, Published};
pub use keys::{Actor, CLIENTS, Key, REBUILDERS};
pub use machines::{
    FileAnswer, FileAsk, FileEnd, ReaderAnswer, ReaderAsk, RebuildAnswer, RebuildAsk, WriterAnswer,
    WriterAsk,
};
pub use nodes::{
    DropAnswer, FetchAnswer, HeaderField, KeepAnswer, NodeAnswer, NodeAsk, OpenFault, Phase,
    RefillAnswer, ReplaceAnswer, StartAnswer,
};
pub use operations::{Datum, Operation};
pub use records::{Change, Head, Held};
pub use texts::{Listing, Text};
pub use tree::{TreeCall, TreeFault, TreeReply};
