//! What a read asks, and how far it has come after an answer.

ghost use Rattle.std.specs.Prelude.{◌≡◌, ◌≤◌, ◌<◌, ◌^◌, Bool, List, [], None, length};
ghost use Rattle.mj_angles.specs.Layout.{safe_of, inverse_of, block_bytes_of};
ghost use Rattle.rz_client_model.specs.Read.{IsReaderAnswer, reader_ask, ask_at, after_answer, after_look, after_recheck};
ghost use Rattle.rz_client_model.specs.declared.reading.ReadStage.TheVariants.{Looking};
ghost use Rattle.mj_inverse.specs.Fits.{Pair};
ghost use Rattle.rz_reader.specs.Fetched.{record_in};
ghost use Rattle.rz_reader.specs.Machine.{IsAskOf};
ghost use Rattle.rz_reader.specs.Inside.{IsStage, IsFetching, HasFewLeft};

use crate::seen::{next_position, none_fetched, seen_of, with_seen};
use mj_angles::Layout;
use rz_client_model::{Fetches, ReadStage, ReaderState};
use rz_events::{FetchAnswer, Published, ReadMark, ReaderAnswer, ReaderAsk, Seen};

/// A record of the published stamp that came: what was fetched before it, and the length that it told.
#[derive(Clone, Copy, Drop)]
pub struct Record {
    pub fetches: Fetches,
    pub length: u32,
}

/// What the read asks next.
pub fn ask(state: &ReaderState) -> ReaderAsk
    requires places { length state.now.places ≡ safe_of state.now.layout }
    requires few { HasFewLeft state.now.layout state.now.stage }
    ensures value { result ≡ reader_ask state.now }
    ensures place { IsAskOf state.now.layout result }
{
    match &state.stage {
        ReadStage::Looking => ReaderAsk::Look,
        ReadStage::Fetching(fetches) => ask_of(state, fetches),
        ReadStage::Ended(_) => ReaderAsk::End,
    }
}

/// A fetch from the next position, or the recheck once all were asked.
fn ask_of(state: &ReaderState, fetches: &Fetches) -> ReaderAsk
    requires places { length state.now.places ≡ safe_of state.now.layout }
    requires few { fetches.now.left < 2 ^ safe_of state.now.layout }
    ensures value { result ≡ ask_at state.now (ReadStage.Fetching fetches.now) }
    ensures place { IsAskOf state.now.layout result }
{
    if fetches.left == 0 {
        return ReaderAsk::Recheck;
    }
    let position = next_position(state.layout, fetches);
    ReaderAsk::Fetch {
        position,
        node: state.places.list()[position as usize],
        stamp: fetches.stamp,
    }
}

/// The record of the published stamp, where the answer is one.
pub fn record_of(stage: &ReadStage, answer: ReaderAnswer) -> Option<Record>
    ensures { result ≡ record_in stage.now answer }
{
    let ReadStage::Fetching(fetches) = stage else {
        return None;
    };
    let ReaderAnswer::Fetched(FetchAnswer::Held(held)) = answer else {
        return None;
    };
    if held.stamp != fetches.stamp {
        return None;
    }
    Some(Record {
        fetches: *fetches,
        length: held.length,
    })
}

/// How far the read has come after an answer that is no record of the published stamp.
pub fn after_other(state: &ReaderState, answer: ReaderAnswer) -> ReadStage
    requires few { HasFewLeft state.now.layout state.now.stage }
    requires asked { IsReaderAnswer state.now.layout (reader_ask state.now) answer }
    requires other { record_in state.now.stage answer ≡ None }
    ensures value { (fits : Bool) → result ≡ after_answer state.now.layout fits state.now.stage answer }
    ensures kept { (pairs : List Pair) → IsStage state.now.layout pairs state.now.stage → IsStage state.now.layout pairs result }
{
    match &state.stage {
        ReadStage::Looking => after_looking(state.layout, answer),
        ReadStage::Fetching(fetches) => after_fetching(state, *fetches, answer),
        ReadStage::Ended(end) => ReadStage::Ended(*end),
    }
}

/// How far the read has come after the answer to its look.
fn after_looking(layout: Layout, answer: ReaderAnswer) -> ReadStage
    ensures value { (fits : Bool) → result ≡ after_answer layout fits Looking answer }
    ensures first { IsStage layout [] result }
{
    match answer {
        ReaderAnswer::Looked(None) => ReadStage::Ended(ReadMark::Hole),
        ReaderAnswer::Looked(Some(published)) => {
            ReadStage::Fetching(none_fetched(layout, published))
        }
        ReaderAnswer::Denied(denial) => ReadStage::Ended(ReadMark::Denied(denial)),
        _ => ReadStage::Looking,
    }
}

/// How far the read has come after the answer to a fetch that gave no record of the published stamp, or
/// to the recheck.
fn after_fetching(state: &ReaderState, fetches: Fetches, answer: ReaderAnswer) -> ReadStage
    requires few { fetches.left < 2 ^ safe_of state.now.layout }
    requires asked { IsReaderAnswer state.now.layout (ask_at state.now (ReadStage.Fetching fetches)) answer }
    requires other { record_in (ReadStage.Fetching fetches) answer ≡ None }
    ensures value { (fits : Bool) → result ≡ after_answer state.now.layout fits (ReadStage.Fetching fetches) answer }
    ensures kept { (pairs : List Pair) → IsFetching state.now.layout pairs fetches → IsStage state.now.layout pairs result }
{
    match answer {
        ReaderAnswer::Fetched(answer) => {
            ReadStage::Fetching(with_seen(state.layout, fetches, seen_of(answer)))
        }
        ReaderAnswer::Missed => {
            ReadStage::Fetching(with_seen(state.layout, fetches, Seen::Missed))
        }
        ReaderAnswer::Looked(published) => after_recheck(fetches, published),
        ReaderAnswer::Denied(denial) => ReadStage::Ended(ReadMark::Denied(denial)),
    }
}

/// How the read ends where too few positions gave a record of the stamp: another one was published since,
/// or not.
fn after_recheck(fetches: Fetches, published: Option<Published>) -> ReadStage
    ensures { result ≡ after_recheck fetches published }
{
    let now = match published {
        Some(published) => published.stamp,
        None => 0,
    };
    let seen = fetches.seen;
    let end = if now == fetches.stamp {
        ReadMark::TooFew { seen }
    } else {
        ReadMark::Moved {
            was: fetches.stamp,
            now,
        }
    };
    ReadStage::Ended(end)
}
