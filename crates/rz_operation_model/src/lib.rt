//! The model of an actor's operations: what each kind of operation asks next, and how it goes on after an
//! answer. The driver of a script and the threads of a running store run this one machine.
//!
//! Definitions alone stand here. `Ranges` has the range of bytes that is written or read; `Files` goes
//! through its blocks, and `Rebuild` has the rebuild of a node, each as a machine of its own. `Work` has
//! what an actor is about to do, `Ask` what it asks then, `Steps` how it goes on, and `Turns` the events
//! of one turn. The writes and reads of single blocks are those of `rz_client_model`. Nothing is said here
//! of which answer comes.
#![tactic(auto)]
