//! The line.

ghost use Rattle.std.specs.Prelude.{◌≡◌, ◌++◌, IfOk, OnOk, string_bytes, true};
ghost use Rattle.hex.specs.Hex.{encode_lower};
ghost use Rattle.sha2.specs.Sha256.{sha256};
ghost use Rattle.rz_show.specs.Text.{text_of};
ghost use Rattle.rz_report.specs.Summary.{counted, line, summary_of};

use crate::counts::{Counts, counts_of};
use rz_events::Event;
use rz_show::show;
use sha2::{Digest, Sha256};
use std::alloc::{AllocError, Global};

/// The digest of the text of a log, in hexadecimal.
fn digest_of(alloc: Global, log: &[Event]) -> Result<String, AllocError>
    ensures { IfOk result (λ t. string_bytes t ≡ encode_lower (sha256 (text_of log.now true))) }
{
    let text = show(alloc, log, true)?;
    let digest = Sha256::digest(text.as_slice());
    hex::encode(alloc, digest.as_slice())
}

/// Adds a word and its number.
#[tactic(auto, unfolding(crate::specs::Summary::counted))]
fn push_count(alloc: Global, out: &mut Vec<u8>, word: &str, number: usize) -> Result<(), AllocError>
    ensures { OnOk result (out.new.items ≡ out.old.items ++ counted word.now number) }
{
    let text = format!(in alloc; " {word} {number}")?;
    out.extend_from_slice(text.as_bytes())
}

/// The words of the line.
#[tactic(auto, unfolding(crate::specs::Summary::line))]
fn line_of(alloc: Global, seed: u64, counts: &Counts, digest: &str) -> Result<Vec<u8>, AllocError>
    ensures { IfOk result (λ l. l.items ≡ line seed counts.now digest.now) }
{
    let head = format!(in alloc; "load {seed}")?;
    let mut out = Vec::from_slice(alloc, head.as_bytes())?;
    push_count(alloc, &mut out, "puts", counts.puts)?;
    push_count(alloc, &mut out, "acked", counts.acked)?;
    push_count(alloc, &mut out, "gets", counts.gets)?;
    push_count(alloc, &mut out, "data", counts.found)?;
    push_count(alloc, &mut out, "toofew", counts.too_few)?;
    push_count(alloc, &mut out, "rebuilt", counts.rebuilt)?;
    push_count(alloc, &mut out, "left", counts.left)?;
    out.extend_from_slice(b" sha256 ")?;
    out.extend_from_slice(digest.as_bytes())?;
    out.extend_from_slice(b"\n")?;
    Ok(out)
}

/// The line of a log of the workload of a seed. The one error is want of memory.
pub fn summary(alloc: Global, seed: u64, log: &[Event]) -> Result<Vec<u8>, AllocError>
    ensures { IfOk result (λ l. l.items ≡ summary_of seed log.now) }
{
    let digest = digest_of(alloc, log)?;
    line_of(alloc, seed, &counts_of(log), digest.as_str())
}
