//! What is found of a block's records.

ghost use Rattle.std.specs.Prelude.{◌≡◌};
ghost use Rattle.mj_angles.specs.Layout.{inverse_of, cols_of};
ghost use Rattle.rz_scrub_report.specs.Findings.{IsFinding};

use mj_angles::Layout;
use rz_scrub::{Scrub, Verdict};
use rz_words::Block;

/// What is found of a published block.
#[derive(Clone, Copy, Debug, PartialEq, Eq)]
pub enum Finding {
    /// Fewer nodes gave a record than give the block back.
    Few,
    /// As many did, or more, and the verdict is on all that came.
    Judged(Verdict),
}

/// What is found of the records that were added. The records stay. `block` is room for a block of the
/// layout, and has any words afterwards.
pub(crate) fn finding_of(layout: Layout, scrub: &mut Scrub, block: &mut Block) -> Finding
    requires layout { scrub.old.layout ≡ layout }
    requires rows { block.old.rows ≡ inverse_of layout }
    requires cols { block.old.cols ≡ cols_of layout }
    ensures finding { IsFinding scrub.old result }
    ensures kept { scrub.new ≡ scrub.old }
    ensures rows { block.new.rows ≡ block.old.rows }
    ensures cols { block.new.cols ≡ block.old.cols }
{
    if scrub.added() < layout.inverse() {
        return Finding::Few;
    }
    Finding::Judged(scrub.judge(block))
}
