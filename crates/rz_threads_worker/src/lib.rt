//! One client or rebuilder at work beside others: its operations, step by step, and the laws of its turns.
//!
//! A [`Worker`] is one actor at work over a [`SharedStore`], which all actors share: [`work`] does its operations in
//! order, each turn with its events, and stops only where they are done or memory is wanting. Where an answer is
//! none to what was asked, which no store over an honest book gives, it stops as for want of memory. A long
//! write makes its bins in as many threads as there are processors.
//!
//! `laws` says what turns make of an actor's operations, one after another.
//!
//! In reading order: `worker_agenda`, `worker`, `working`, `laws`.
#![tactic(auto)]

mod laws;
mod worker;
mod worker_agenda;
mod working;

pub use laws::{cut_off, in_order, turned};
pub use rz_player::Halted;
pub use rz_threads_steps::SharedStore;
pub use worker::Worker;
pub use worker_agenda::Agenda;
pub use working::work;
