//! What operations came to, in words.

ghost use Rattle.std.specs.Prelude.{◌≡◌, ◌≤◌, [], ◌∷◌, ◌++◌, OnOk, codes, length};
ghost use Rattle.std.specs.Fmt.{decimal};
ghost use Rattle.rz_show.specs.Words.{bytes_word, spaced};
ghost use Rattle.rz_show.specs.Ends.{answer_words, attr_words, denial_name, fault_name, read_words, rebuild_words, write_words};

use crate::outcomes::{push_mask, push_seen, push_why};
use crate::words::{kind_name, push_bytes, push_octal, push_uuid};
use rz_events::{Answer, Attr, Denial, Listing, ReadEnd, RebuildEnd, TreeFault, WriteEnd};
use rz_script::{push_number, push_word};
use std::alloc::{AllocError, Global};

/// The name of a denial.
#[tactic(auto, unfolding(crate::specs::Ends::denial_name))]
fn denial_name(denial: Denial) -> &'static str
    ensures { result.now ≡ denial_name denial }
{
    match denial {
        Denial::UnknownFile => "UnknownFile",
        Denial::BlockTooFar => "BlockTooFar",
        Denial::StampsSpent => "StampsSpent",
        Denial::OldLoss { .. } => "OldLoss",
    }
}

/// The name of a refusal of a call on the tree.
#[tactic(auto, unfolding(crate::specs::Ends::fault_name))]
fn fault_name(fault: TreeFault) -> &'static str
    ensures { result.now ≡ fault_name fault }
{
    match fault {
        TreeFault::NoEntry => "NoEntry",
        TreeFault::NotDir => "NotDir",
        TreeFault::IsDir => "IsDir",
        TreeFault::Exists => "Exists",
        TreeFault::NotEmpty => "NotEmpty",
        TreeFault::IntoItself => "IntoItself",
        TreeFault::BadName => "BadName",
        TreeFault::TooManyLinks => "TooManyLinks",
        TreeFault::TooManyFiles => "TooManyFiles",
        TreeFault::NotLink => "NotLink",
        TreeFault::IsLink => "IsLink",
    }
}

/// Adds a refusal with its name.
fn push_refused(out: &mut Vec<u8>, name: &str) -> Result<(), AllocError>
    ensures { OnOk result (out.new.items ≡ out.old.items ++ spaced (codes "refused" ∷ name.now ∷ [])) }
{
    push_word(out, b"refused")?;
    push_word(out, name.as_bytes())
}

/// Adds the end of the write of a block.
#[tactic(auto, unfolding(crate::specs::Ends::write_words))]
pub fn push_write(
    alloc: Global,
    out: &mut Vec<u8>,
    positions: u8,
    end: &WriteEnd,
) -> Result<(), AllocError>
    requires { positions ≤ 16 }
    ensures { OnOk result (out.new.items ≡ out.old.items ++ spaced (write_words positions end.now)) }
{
    match end {
        WriteEnd::Acked { stamp, mask } => {
            push_word(out, b"acked")?;
            push_number(alloc, out, *stamp)?;
            push_mask(out, positions, *mask)
        }
        WriteEnd::TooFew { why } => {
            push_word(out, b"toofew")?;
            push_why(out, positions, why)
        }
        WriteEnd::Denied(denial) => push_refused(out, denial_name(*denial)),
        WriteEnd::Revoked { later } => {
            push_word(out, b"revoked")?;
            push_number(alloc, out, *later)
        }
    }
}

/// Adds the text that a read found, with its stamp and its length.
fn push_found(alloc: Global, out: &mut Vec<u8>, stamp: u64, bytes: &[u8]) -> Result<(), AllocError>
    ensures { OnOk result (out.new.items ≡ out.old.items ++ spaced (codes "data" ∷ decimal stamp ∷ decimal (length bytes.now) ∷ bytes_word bytes.now ∷ [])) }
{
    push_word(out, b"data")?;
    push_number(alloc, out, stamp)?;
    push_number(alloc, out, bytes.len() as u64)?;
    push_bytes(alloc, out, bytes)
}

/// Adds the end of the read of a block.
#[tactic(auto, unfolding(crate::specs::Ends::read_words))]
pub fn push_read(
    alloc: Global,
    out: &mut Vec<u8>,
    positions: u8,
    end: &ReadEnd,
) -> Result<(), AllocError>
    requires { positions ≤ 16 }
    ensures { OnOk result (out.new.items ≡ out.old.items ++ spaced (read_words positions end.now)) }
{
    match end {
        ReadEnd::Found { stamp, text } => push_found(alloc, out, *stamp, text.bytes()),
        ReadEnd::Hole => push_word(out, b"hole"),
        ReadEnd::TooFew { seen } => {
            push_word(out, b"toofew")?;
            push_seen(out, positions, seen)
        }
        ReadEnd::Inconsistent => push_word(out, b"inconsistent"),
        ReadEnd::Denied(denial) => push_refused(out, denial_name(*denial)),
        ReadEnd::Moved { was, now } => {
            push_word(out, b"moved")?;
            push_number(alloc, out, *was)?;
            push_number(alloc, out, *now)
        }
    }
}

/// Adds the end of the rebuild of a node.
#[tactic(auto, unfolding(crate::specs::Ends::rebuild_words))]
fn push_rebuild(alloc: Global, out: &mut Vec<u8>, end: &RebuildEnd) -> Result<(), AllocError>
    ensures { OnOk result (out.new.items ≡ out.old.items ++ spaced (rebuild_words end.now)) }
{
    match end {
        RebuildEnd::Rebuilt { fence, refilled } => {
            push_word(out, b"rebuilt")?;
            push_number(alloc, out, *fence)?;
            push_number(alloc, out, *refilled)
        }
        RebuildEnd::Left {
            fence,
            refilled,
            left,
        } => {
            push_word(out, b"left")?;
            push_number(alloc, out, *fence)?;
            push_number(alloc, out, *refilled)?;
            push_number(alloc, out, *left)
        }
        RebuildEnd::NotLost => push_word(out, b"notlost"),
        RebuildEnd::OtherLoss { loss } => {
            push_word(out, b"otherloss")?;
            push_number(alloc, out, *loss)
        }
        RebuildEnd::OtherFence { fence } => {
            push_word(out, b"otherfence")?;
            push_number(alloc, out, *fence)
        }
        RebuildEnd::LostAgain => push_word(out, b"lostagain"),
        RebuildEnd::DiskFault => push_word(out, b"diskfault"),
        RebuildEnd::Denied(denial) => push_refused(out, denial_name(*denial)),
    }
}

/// Adds the attributes of an object, the mode in octal.
#[tactic(auto, unfolding(crate::specs::Ends::attr_words))]
fn push_attr(alloc: Global, out: &mut Vec<u8>, attr: &Attr) -> Result<(), AllocError>
    ensures { OnOk result (out.new.items ≡ out.old.items ++ spaced (attr_words attr.now)) }
{
    push_word(out, b"attr")?;
    push_word(out, kind_name(attr.kind).as_bytes())?;
    push_octal(alloc, out, attr.mode)?;
    push_number(alloc, out, attr.mtime)?;
    push_number(alloc, out, u64::from(attr.links))?;
    push_number(alloc, out, attr.size)?;
    push_uuid(alloc, out, attr.fid)
}

/// Adds the names in a directory after their number.
fn push_names(alloc: Global, out: &mut Vec<u8>, listing: &Listing) -> Result<(), AllocError>
    ensures { OnOk result (out.new.items ≡ out.old.items ++ spaced (codes "names" ∷ decimal (length listing.now) ∷ listing.now)) }
{
    let names = listing.names();
    push_word(out, b"names")?;
    push_number(alloc, out, names.len() as u64)?;
    for name in names {
        push_word(out, name.bytes())?;
    }
    Ok(())
}

/// Adds a word, a number of bytes, and nothing more.
fn push_count(alloc: Global, out: &mut Vec<u8>, word: &[u8], bytes: u64) -> Result<(), AllocError>
    ensures { OnOk result (out.new.items ≡ out.old.items ++ spaced (word.now ∷ decimal bytes ∷ [])) }
{
    push_word(out, word)?;
    push_number(alloc, out, bytes)
}

/// Adds the answer of an operation.
#[tactic(auto, unfolding(crate::specs::Ends::answer_words))]
pub fn push_answer(
    alloc: Global,
    out: &mut Vec<u8>,
    positions: u8,
    answer: &Answer,
) -> Result<(), AllocError>
    requires { positions ≤ 16 }
    ensures { OnOk result (out.new.items ≡ out.old.items ++ spaced (answer_words positions answer.now)) }
{
    match answer {
        Answer::Created { fid } => {
            push_word(out, b"created")?;
            push_uuid(alloc, out, *fid)
        }
        Answer::Plain => push_word(out, b"done"),
        Answer::Found { kind, fid } => {
            push_word(out, b"found")?;
            push_word(out, kind_name(*kind).as_bytes())?;
            push_uuid(alloc, out, *fid)
        }
        Answer::Attr(attr) => push_attr(alloc, out, attr),
        Answer::Names(names) => push_names(alloc, out, names),
        Answer::Target(text) => {
            push_word(out, b"target")?;
            push_word(out, text.bytes())
        }
        Answer::Wrote { bytes } => push_count(alloc, out, b"wrote", *bytes),
        Answer::Read(text) => {
            let bytes = text.bytes();
            push_count(alloc, out, b"read", bytes.len() as u64)?;
            push_bytes(alloc, out, bytes)
        }
        Answer::ShortWrite { bytes, end } => {
            push_count(alloc, out, b"short", *bytes)?;
            push_write(alloc, out, positions, end)
        }
        Answer::ShortRead { bytes, end } => {
            push_count(alloc, out, b"short", *bytes)?;
            push_read(alloc, out, positions, end)
        }
        Answer::Rebuild(end) => push_rebuild(alloc, out, end),
        Answer::Refused(fault) => push_refused(out, fault_name(*fault)),
    }
}
