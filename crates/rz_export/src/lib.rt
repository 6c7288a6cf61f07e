//! The metadata server of a volume: names, published blocks, leases and fences.
//!
//! A contract sees an `Export` as the model of the same name: the volume, the tree of names and
//! objects, the map from keys to what is begun and published of them, the last enrolment of each node,
//! and the last number drawn. Each call has the one reply of the model for that state, and leaves the
//! model's next state. Only want of memory is an answer beside it, and then nothing changes. What a
//! caller did at the nodes before is not asked here.
//!
//! In reading order: `nodes`, `lists`, `export`, `refusals`, `blocks`, `listings`, `releases`,
//! `calls`, `enrolments`, `parts`, `homes`, `allowing`, `building`.
#![tactic(auto)]

mod allowing;
mod blocks;
mod building;
mod calls;
mod enrolments;
mod export;
mod homes;
mod listings;
mod lists;
mod nodes;
mod parts;
mod refusals;
mod releases;

pub use export::Export;
