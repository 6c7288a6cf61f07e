//! The line of a finding.

ghost use Rattle.std.specs.Prelude.{◌≡◌, ◌++◌, OnOk};
ghost use Rattle.rz_show.specs.Words.{spaced};
ghost use Rattle.rz_scrub_report.specs.Lines.{finding_words, line_of, verdict_words};

use crate::finding::Finding;
use mj_angles::Layout;
use rz_events::Key;
use rz_script::{push_number, push_word};
use rz_scrub::Verdict;
use rz_show::{push_mask, push_uuid};
use std::alloc::{AllocError, Global};

/// Adds the words of a verdict.
#[tactic(auto, unfolding(crate::specs::Lines::verdict_words))]
fn push_verdict(out: &mut Vec<u8>, layout: Layout, verdict: Verdict) -> Result<(), AllocError>
    ensures { OnOk result (out.new.items ≡ out.old.items ++ spaced (verdict_words layout verdict)) }
{
    match verdict {
        Verdict::Clean => push_word(out, b"clean"),
        Verdict::Altered { mask } => {
            push_word(out, b"altered")?;
            push_mask(out, layout.safe() as u8, mask)
        }
        Verdict::Unsure => push_word(out, b"unsure"),
    }
}

/// Adds the words of a finding.
#[tactic(auto, unfolding(crate::specs::Lines::finding_words))]
fn push_finding(out: &mut Vec<u8>, layout: Layout, finding: Finding) -> Result<(), AllocError>
    ensures { OnOk result (out.new.items ≡ out.old.items ++ spaced (finding_words layout finding)) }
{
    match finding {
        Finding::Few => push_word(out, b"few"),
        Finding::Judged(verdict) => push_verdict(out, layout, verdict),
    }
}

/// Adds the line of what is found of a block of this layout.
#[tactic(auto, unfolding(crate::specs::Lines::line_of))]
pub fn push_line(
    alloc: Global,
    out: &mut Vec<u8>,
    layout: Layout,
    key: Key,
    finding: Finding,
) -> Result<(), AllocError>
    ensures { OnOk result (out.new.items ≡ out.old.items ++ line_of layout key finding) }
{
    out.extend_from_slice(b"scrub")?;
    push_uuid(alloc, out, key.fid)?;
    push_number(alloc, out, key.block)?;
    push_finding(out, layout, finding)?;
    out.extend_from_slice(b"\n")
}
