//! What a write asks, and how far it has come after an answer.

ghost use Rattle.std.specs.Prelude.{◌≡◌, ◌≤◌, ◌<◌, ◌+◌, length};
ghost use Rattle.mj_angles.specs.Layout.{forward_of, safe_of};
ghost use Rattle.rz_client_model.specs.Write.{IsWrite, IsWithin, IsWriterAnswer, IsBeginAnswer, writer_ask, ask_at, after_answer, after_keep, after_enrolled, unless_too_few, none_sent};
ghost use Rattle.rz_client_model.specs.declared.writing.WriteStage.TheVariants.{Beginning};
ghost use Rattle.rz_writer.specs.Machine.{IsAskOf};

use crate::outcomes::{is_kept, mask_of, why_of};
use mj_angles::Layout;
use rz_client_model::{SentRecords, WriteStage, WriterState};
use rz_events::{Why, WriteEnd, WriterAnswer, WriterAsk};

/// What the write asks next.
pub fn ask(state: &WriterState) -> WriterAsk
    requires { IsWrite state.now }
    ensures value { result ≡ writer_ask state.now }
    ensures place { IsAskOf state.now.layout result }
{
    match &state.stage {
        WriteStage::Beginning => WriterAsk::Begin {
            length: state.length,
        },
        WriteStage::Sending(sent) => ask_of(state, sent),
        WriteStage::Ended(_) => WriterAsk::End,
    }
}

/// A keep at the next position, or the publish once enough nodes have the record.
fn ask_of(state: &WriterState, sent: &SentRecords) -> WriterAsk
    requires places { length state.now.places ≡ safe_of state.now.layout }
    requires within { IsWithin state.now.layout (WriteStage.Sending sent.now) }
    ensures value { result ≡ ask_at state.now (WriteStage.Sending sent.now) }
    ensures place { IsAskOf state.now.layout result }
{
    if (sent.kept as usize) < state.layout.forward() {
        let position = sent.kept + sent.failed;
        WriterAsk::Keep {
            position,
            node: state.places.list()[position as usize],
            stamp: sent.stamp,
            base: sent.base,
        }
    } else {
        WriterAsk::Publish {
            stamp: sent.stamp,
            mask: mask_of(&sent.why),
        }
    }
}

/// How far the write has come after an answer to what it asked.
pub fn after_answer(state: &WriterState, answer: WriterAnswer) -> WriteStage
    requires write { IsWrite state.now }
    requires asked { IsWriterAnswer (writer_ask state.now) answer }
    ensures value { result ≡ after_answer state.now.layout state.now.stage answer }
    ensures within { IsWithin state.now.layout result }
{
    match &state.stage {
        WriteStage::Beginning => after_begin(state.layout, answer),
        WriteStage::Sending(sent) => after_sent(state, *sent, answer),
        WriteStage::Ended(end) => WriteStage::Ended(*end),
    }
}

/// How far the write has come after the answer to its begin.
fn after_begin(layout: Layout, answer: WriterAnswer) -> WriteStage
    requires { IsBeginAnswer answer }
    ensures value { result ≡ after_answer layout Beginning answer }
    ensures within { IsWithin layout result }
{
    match answer {
        WriterAnswer::Begun { stamp, base } => WriteStage::Sending(none_sent(stamp, base)),
        WriterAnswer::Denied(denial) => WriteStage::Ended(WriteEnd::Denied(denial)),
        _ => WriteStage::Beginning,
    }
}

/// No record was sent yet.
fn none_sent(stamp: u64, base: u64) -> SentRecords
    ensures { result ≡ none_sent stamp base }
{
    SentRecords {
        stamp,
        base,
        kept: 0,
        failed: 0,
        why: [Why::NotAsked; 16],
    }
}

/// How far the write has come after the answer to a keep or a publish.
fn after_sent(state: &WriterState, sent: SentRecords, answer: WriterAnswer) -> WriteStage
    requires within { IsWithin state.now.layout (WriteStage.Sending sent) }
    requires asked { IsWriterAnswer (ask_at state.now (WriteStage.Sending sent)) answer }
    ensures value { result ≡ after_answer state.now.layout (WriteStage.Sending sent) answer }
    ensures within { IsWithin state.now.layout result }
{
    match answer {
        WriterAnswer::Begun { .. } => WriteStage::Sending(sent),
        WriterAnswer::Denied(denial) => WriteStage::Ended(WriteEnd::Denied(denial)),
        WriterAnswer::Kept(answer) => after_keep(state.layout, sent, why_of(answer)),
        WriterAnswer::Missed => after_keep(state.layout, sent, Why::Missed),
        WriterAnswer::Accepted => WriteStage::Ended(WriteEnd::Acked {
            stamp: sent.stamp,
            mask: mask_of(&sent.why),
        }),
        WriterAnswer::Enrolled { position, .. } => after_enrolled(state.layout, sent, position),
        WriterAnswer::Revoked { later } => WriteStage::Ended(WriteEnd::Revoked { later }),
    }
}

/// How far the write has come once it knows what came of the next position.
fn after_keep(layout: Layout, mut sent: SentRecords, why: Why) -> WriteStage
    requires more { sent.kept < forward_of layout }
    requires spare { sent.failed + forward_of layout ≤ safe_of layout }
    requires base { sent.base < sent.stamp }
    ensures value { result ≡ after_keep layout sent why }
    ensures within { IsWithin layout result }
{
    sent.why[(sent.kept + sent.failed) as usize] = why;
    if is_kept(why) {
        sent.kept += 1;
        WriteStage::Sending(sent)
    } else {
        sent.failed += 1;
        unless_too_few(layout, sent)
    }
}

/// How far the write has come once a position of its mask has failed after all.
fn after_enrolled(layout: Layout, mut sent: SentRecords, position: u8) -> WriteStage
    requires some { 0 < sent.kept }
    requires few { sent.kept ≤ forward_of layout }
    requires spare { sent.failed + forward_of layout ≤ safe_of layout }
    requires place { position < 16 }
    requires base { sent.base < sent.stamp }
    ensures value { result ≡ after_enrolled layout sent position }
    ensures within { IsWithin layout result }
{
    sent.why[position as usize] = Why::Enrolled;
    sent.kept -= 1;
    sent.failed += 1;
    unless_too_few(layout, sent)
}

/// The end of a write of which more positions have failed than there are spare ones.
fn unless_too_few(layout: Layout, sent: SentRecords) -> WriteStage
    requires few { sent.kept ≤ forward_of layout }
    requires base { sent.base < sent.stamp }
    ensures value { result ≡ unless_too_few layout sent }
    ensures within { IsWithin layout result }
{
    if layout.safe() - layout.forward() < sent.failed as usize {
        let why = sent.why;
        WriteStage::Ended(WriteEnd::TooFew { why })
    } else {
        WriteStage::Sending(sent)
    }
}
