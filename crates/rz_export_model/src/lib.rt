//! What the export answers: definitions over plain data, which the crates of names, trees, blocks and
//! the export meet, and which the log cites.
//!
//! `specs/Paths` has paths and how the text of a call is read as one. `specs/Tree` has the state of
//! the names: a map from paths to numbers of objects, and one from these numbers to objects.
//! `specs/Refusals` says which fault of a call on the tree comes first, `specs/TreeCalls` what the
//! call answers and what it leaves. `specs/Place` says where the projections of a new file go.
//! `specs/Export` has the whole export: its reply to each call and its state after it.
//! `specs/ExportEvents` says which event of the log an answer is.
//!
//! This crate has no code. It says nothing of how the maps are kept, and nothing of what a caller did
//! at the nodes before.
#![tactic(auto)]
