//! What a rebuild asks.

ghost use Rattle.std.specs.Prelude.{◌≡◌};
ghost use Rattle.rz_operation_model.specs.Rebuild.{position_of, ask_to_copy};
ghost use Rattle.mj_angles.specs.declared.layout.Layout.{Layout};
ghost use Rattle.rz_reader.specs.Machine.{IsAskOf as IsReaderAskOf};
ghost use Rattle.rz_rebuild.specs.Machine.{ask_in, IsAskOf};
ghost use Rattle.rz_rebuild.specs.Inside.{state_of};

use crate::step::{Copied, RebuildStep};
use rz_events::{Key, Listed, ReaderAsk, RebuildAsk};
use rz_reader::Reader;

/// The position of a node among those of a block's file.
pub fn position_of(node: u16, listed: &Listed) -> u8
    ensures { result ≡ position_of node listed.now }
{
    let places = listed.info.places.list();
    for i in 0..places.len() {
        if places[i] == node {
            return i as u8;
        }
    }
    places.len() as u8
}

/// What a rebuild asks next.
pub fn ask(node: u16, step: &RebuildStep, reader: &Reader) -> RebuildAsk
    ensures value { result ≡ ask_in node (state_of reader.now.state step.now) }
    ensures place { IsAskOf reader.now.state.layout result }
{
    match step {
        RebuildStep::Probing => RebuildAsk::Probe,
        RebuildStep::Enrolling { loss } => RebuildAsk::Enroll { loss: *loss },
        RebuildStep::Replacing { loss, fence } => RebuildAsk::Replace {
            loss: *loss,
            fence: *fence,
        },
        RebuildStep::Listing(tally) => RebuildAsk::Next { after: tally.after },
        RebuildStep::Copying(copied) => ask_to_copy(copied.listed.key, reader.next()),
        RebuildStep::Refilling { copied, length } => refill_ask(node, copied, *length),
        RebuildStep::Leaving { key, why, .. } => RebuildAsk::Left {
            key: *key,
            why: *why,
        },
        RebuildStep::Ended(_) => RebuildAsk::End,
    }
}

/// What the read of a block asks, which has its look already, in what was listed.
fn ask_to_copy(key: Key, ask: ReaderAsk) -> RebuildAsk
    ensures value { result ≡ ask_to_copy key ask }
    ensures place { (layout : Layout) → IsReaderAskOf layout ask → IsAskOf layout result }
{
    match ask {
        ReaderAsk::Look => RebuildAsk::End,
        ReaderAsk::Fetch {
            position,
            node,
            stamp,
        } => RebuildAsk::Fetch {
            key,
            position,
            node,
            stamp,
        },
        ReaderAsk::Recheck => RebuildAsk::Recheck { key },
        ReaderAsk::End => RebuildAsk::End,
    }
}

/// The node is to have a record of this length as a refill.
fn refill_ask(node: u16, copied: &Copied, length: u32) -> RebuildAsk
    ensures { result ≡ RebuildAsk.Refill copied.now.tally.fence copied.now.listed.key copied.now.listed.published.stamp length (position_of node copied.now.listed) copied.now.base }
{
    RebuildAsk::Refill {
        fence: copied.tally.fence,
        key: copied.listed.key,
        stamp: copied.listed.published.stamp,
        length,
        position: position_of(node, &copied.listed),
        base: copied.base,
    }
}
