//! What a journal answers.

use rz_disk::Disk;
use rz_events::{Call, Reply, TreeReply};
use rz_journal::{Journal, JournalReply};
use std::process::Abort;

/// What a journal answers.
#[derive(Clone, Copy, PartialEq, Eq, Drop)]
pub enum Told {
    /// The object of this number was made.
    Made(u128),
    /// Another reply of the export.
    Replied,
    Full { need: u64, have: u64 },
    DiskFault,
    Closed,
}

/// What a journal answers to a call, which its export is to take.
pub fn ask<D: Disk>(rt: &impl Abort, journal: &mut Journal<D>, call: &Call) -> Told {
    assert!(rt; journal.export().takes(call));
    let reply = journal.answer(call);
    let told = told_by(&reply);
    drop(reply);
    told
}

/// Whether a journal replied to a call.
pub fn has_replied(told: Told) -> bool {
    matches!(told, Told::Made(_) | Told::Replied)
}

fn told_by(reply: &JournalReply) -> Told {
    match reply {
        JournalReply::Reply(Reply::Tree(TreeReply::Made { fid })) => Told::Made(*fid),
        JournalReply::Reply(_) => Told::Replied,
        JournalReply::Full { need, have } => Told::Full {
            need: *need,
            have: *have,
        },
        JournalReply::DiskFault => Told::DiskFault,
        JournalReply::Closed => Told::Closed,
    }
}
