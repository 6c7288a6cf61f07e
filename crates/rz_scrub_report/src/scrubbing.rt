//! The scrub of a store.

ghost use Rattle.std.specs.Prelude.{IfOk};
ghost use Rattle.rz_scrub_report.specs.Scrubs.{IsScrubbed};
ghost use Rattle.rz_scrub_report.specs.Stores.{HasAsked};

use crate::asking::{BlockJudge, find};
use crate::line::push_line;
use crate::store::ScrubbedStore;
use std::alloc::{AllocError, Global};

/// The lines of what is found of each published block of a live file, in the order of their keys. Each
/// node of a block is asked once for its record of the published stamp, and nothing is written back.
pub fn scrub<S: ScrubbedStore>(alloc: Global, store: &mut S) -> Result<Vec<u8>, AllocError>
    requires { S.is_open store.old }
    ensures { HasAsked S.is_open S.described S.gives S.state S.counts S.only_asked store.old store.new (λ w next. IfOk result (λ text. IsScrubbed (S.described store.old).layout (S.gives store.old) w text.items next)) }
{
    let layout = store.layout();
    let mut judge = BlockJudge::new(alloc, layout)?;
    let mut text = Vec::new(alloc);
    let mut after = None;
    'blocks: while let Some(listed) = store.published(after) {
        let finding = find(store, &mut judge, &listed);
        push_line(alloc, &mut text, layout, listed.key, finding)?;
        after = Some(listed.key);
    }
    Ok(text)
}
