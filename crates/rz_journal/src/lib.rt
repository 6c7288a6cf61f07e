//! The journal of an export.
//!
//! `specs/Said` says which calls a journal keeps and what its entries say. `specs/JournalText` says for
//! which list of accepted calls the text of a journal's disk stands.
//!
//! `Journal` is an export whose accepted calls stand on a disk. Its contract says what each call answers,
//! and that on every exit each image of the disk stands for the calls accepted before, or for these and
//! the present one. `entry_of` gives the entry of a call. `reopen` gives the export that the entries of the
//! disk make, or the first that is damaged.
//!
//! Below it a list of entries stands on a disk, which a stop at any call leaves whole. The disk has a header and
//! two halves. A byte of the header picks the half that counts. There an entry stands behind a gate byte and its
//! length in four bytes, little-endian; the first gate with a low bit of 0 ends the list. An entry is added behind
//! its gate, which is then opened; a new list is written into the other half, which is then picked. Either change
//! is one bit that a stop leaves as it was or as it is to be. The contracts of [`Half`] say what text stands for
//! which list, and that after each call, on every exit, each image of the disk stands for the list from before or
//! for the new one. An entry is any bytes there.
//!
//! In reading order: a half in `shape`, `framing`, `entries`, `changing`, `formatting`, `walking`, `half_opening`;
//! the journal in `said`, `rows`, `room`, `keeping`, `journal`, `reading`, `rebuilding`, `opening`.
#![tactic(auto)]

mod changing;
mod entries;
mod formatting;
mod framing;
mod half_opening;
mod journal;
mod keeping;
mod opening;
mod reading;
mod rebuilding;
mod room;
mod rows;
mod said;
mod shape;
mod walking;

pub use entries::Entries;
pub use framing::{close_row, push_entry};
pub use half_opening::{Half, HalfFault};
pub use journal::{Journal, JournalReply};
pub use rebuilding::JournalFault;
pub use said::entry_of;
pub use shape::HALF_BYTES;
pub use walking::{EntryPlace, place_at};
