//! The text of a run.

ghost use Rattle.std.specs.Prelude.{◌≡◌, ◌++◌, [], IfOk, OnOk};
ghost use Rattle.rz_show.specs.Text.{lines};
ghost use Rattle.rz_show.specs.RunText.{shown_text, IsRunText};

use crate::{push_end, show};
use rz_events::Event;
use std::alloc::{AllocError, Global};

/// Adds the lines of an actor's events, the oldest event first.
fn push_own(alloc: Global, out: &mut Vec<u8>, own: &[Event]) -> Result<(), AllocError>
    ensures { OnOk result (out.new.items ≡ out.old.items ++ lines [] own.now) }
{
    let text = show(alloc, own, false)?;
    out.extend_from_slice(text.as_slice())
}

/// The text of a run, from the events of each actor that are shown, the clients first and then the
/// rebuilders, and from the number of all events in the log.
///
/// The one error is want of memory. Each event is read once.
pub fn show_run(alloc: Global, shown: &[Vec<Event>], events: u64) -> Result<Vec<u8>, AllocError>
    ensures exact { IfOk result (λ text. text.items ≡ shown_text shown.now events) }
    ensures run { IfOk result (λ text. IsRunText shown.now events text.items) }
{
    let mut out = Vec::new(alloc);
    for own in shown {
        push_own(alloc, &mut out, own)?;
    }
    push_end(alloc, &mut out, events)?;
    Ok(out)
}
