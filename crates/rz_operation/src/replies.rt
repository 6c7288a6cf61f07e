//! How an operation goes on after an answer.

ghost use Rattle.std.specs.Prelude.{◌≡◌};
ghost use Rattle.rz_operation_model.specs.Ask.{ask_of};
ghost use Rattle.rz_operation_model.specs.Steps.{Replied, Locked, Missed, Noted};
ghost use Rattle.rz_operation_states.specs.Answers.{IsReply, IsLockReply, IsAnswer, ComeWith, MayMiss, IsPartSaid, IsWorkAfter, FitsIfEnough, IsDropGiven, IsKeepGiven, IsTreeReply};
ghost use Rattle.rz_operation_states.specs.Machine.{text_of};
ghost use Rattle.rz_operation_states.specs.Inside.{IsOperationState, IsDoneStage, IsAnswerIn, machine_of, work_of};

use crate::begins::{after_call, after_locked, after_open};
use mj_angles::Layout;
use rz_events::{
    Answer, DropAnswer, KeepAnswer, NodeAnswer, ReaderAnswer, Reply, TreeReply, WriterAnswer,
};
use rz_operation_states::OperationState;
use rz_operation_states::blocks::{fetch_answer, tell_fetch, tell_keep, tell_reader, tell_writer};
use rz_operation_states::drops::{after_drop, dropped};
use rz_operation_states::ranges::{range_answered, range_missed, range_replied, range_said};
use rz_operation_states::rebuilds::{
    rebuild_answered, rebuild_missed, rebuild_replied, rebuild_said,
};

/// How the operation goes on after a reply of the export.
pub fn after_reply(layout: Layout, stage: OperationState, reply: Reply) -> OperationState
    requires inside { IsOperationState layout stage }
    requires asked { IsReply layout (ask_of layout (work_of stage)) reply }
    ensures goes { IsWorkAfter (machine_of layout stage) (machine_of layout stage).pairs (Replied reply) (machine_of layout result) }
    ensures inside { IsOperationState layout result }
{
    match stage {
        OperationState::Calling(call) => {
            drop(call);
            after_call(tree_reply(layout, reply))
        }
        OperationState::Opening { call, plan } => {
            drop(call);
            let answer = tree_reply(layout, reply);
            let next = after_open(layout, plan, &answer);
            drop(answer);
            next
        }
        OperationState::Writing { mut writer, text } => {
            tell_writer(&mut writer, &reply);
            drop(reply);
            OperationState::Writing { writer, text }
        }
        OperationState::Reading(mut reader) => {
            tell_reader(&mut reader, &reply);
            drop(reply);
            OperationState::Reading(reader)
        }
        OperationState::Ranging(file) => {
            let next = range_replied(layout, file, &reply);
            drop(reply);
            next
        }
        OperationState::Locking { .. } => unreachable!(),
        OperationState::Rebuilding { node, rebuilder } => {
            let next = rebuild_replied(layout, node, rebuilder, &reply);
            drop(reply);
            next
        }
        OperationState::Dropping { .. } => unreachable!(),
        OperationState::Ending(_) => unreachable!(),
        OperationState::Over => unreachable!(),
    }
}

/// How the operation goes on after its file was opened and a lock was granted or not.
pub fn after_lock(
    layout: Layout,
    stage: OperationState,
    granted: bool,
    reply: Reply,
) -> OperationState
    requires inside { IsOperationState layout stage }
    requires asked { IsLockReply layout (ask_of layout (work_of stage)) reply }
    ensures goes { IsWorkAfter (machine_of layout stage) (machine_of layout stage).pairs (Locked granted reply) (machine_of layout result) }
    ensures inside { IsOperationState layout result }
{
    match stage {
        OperationState::Locking { call, plan } => {
            let answer = tree_reply(layout, reply);
            let next = after_locked(layout, call, plan, granted, &answer);
            drop(answer);
            next
        }
        OperationState::Calling(_) => unreachable!(),
        OperationState::Dropping { .. } => unreachable!(),
        OperationState::Opening { .. } => unreachable!(),
        OperationState::Writing { .. } => unreachable!(),
        OperationState::Reading(_) => unreachable!(),
        OperationState::Ranging(_) => unreachable!(),
        OperationState::Rebuilding { .. } => unreachable!(),
        OperationState::Ending(_) => unreachable!(),
        OperationState::Over => unreachable!(),
    }
}

/// How the operation goes on after the answer of a node, with the bins that came with it.
pub fn after_answer(
    layout: Layout,
    stage: OperationState,
    answer: NodeAnswer,
    bins: &[u64],
) -> OperationState
    requires inside { IsOperationState layout stage }
    requires asked { IsAnswer layout (ask_of layout (work_of stage)) answer }
    requires bins { ComeWith layout (ask_of layout (work_of stage)) answer bins.now }
    ensures goes { FitsIfEnough (machine_of layout stage) answer bins.now (machine_of layout result) }
    ensures inside { IsOperationState layout result }
{
    match stage {
        OperationState::Writing { mut writer, text } => {
            tell_keep(&mut writer, keep_answer(answer));
            OperationState::Writing { writer, text }
        }
        OperationState::Reading(mut reader) => {
            tell_fetch(&mut reader, fetch_answer(answer), bins);
            OperationState::Reading(reader)
        }
        OperationState::Ranging(file) => range_answered(layout, file, answer, bins),
        OperationState::Locking { .. } => unreachable!(),
        OperationState::Dropping { fid, places, done } => after_drop(
            fid,
            places,
            done,
            drop_answer(answer),
        ),
        OperationState::Rebuilding { node, rebuilder } => {
            rebuild_answered(layout, node, rebuilder, answer, bins)
        }
        OperationState::Calling(_) => unreachable!(),
        OperationState::Opening { .. } => unreachable!(),
        OperationState::Ending(_) => unreachable!(),
        OperationState::Over => unreachable!(),
    }
}

/// How the operation goes on after a message to a node, or its answer, was lost.
pub fn after_miss(layout: Layout, stage: OperationState) -> OperationState
    requires inside { IsOperationState layout stage }
    requires asked { MayMiss (ask_of layout (work_of stage)) }
    ensures goes { IsWorkAfter (machine_of layout stage) (machine_of layout stage).pairs Missed (machine_of layout result) }
    ensures inside { IsOperationState layout result }
{
    match stage {
        OperationState::Writing { mut writer, text } => {
            writer.tell(WriterAnswer::Missed);
            OperationState::Writing { writer, text }
        }
        OperationState::Reading(mut reader) => {
            reader.tell(ReaderAnswer::Missed, &[]);
            OperationState::Reading(reader)
        }
        OperationState::Ranging(file) => range_missed(layout, file),
        OperationState::Locking { .. } => unreachable!(),
        OperationState::Dropping { fid, places, done } => dropped(fid, places, done),
        OperationState::Rebuilding { node, rebuilder } => rebuild_missed(layout, node, rebuilder),
        OperationState::Calling(_) => unreachable!(),
        OperationState::Opening { .. } => unreachable!(),
        OperationState::Ending(_) => unreachable!(),
        OperationState::Over => unreachable!(),
    }
}

/// How the operation goes on after the end of its block was said.
pub fn after_said(layout: Layout, stage: OperationState) -> OperationState
    requires inside { IsOperationState layout stage }
    requires asked { IsPartSaid (ask_of layout (work_of stage)) }
    ensures goes { IsWorkAfter (machine_of layout stage) (machine_of layout stage).pairs (Noted (text_of (machine_of layout stage))) (machine_of layout result) }
    ensures inside { IsOperationState layout result }
{
    match stage {
        OperationState::Writing { writer, text } => {
            drop(writer);
            drop(text);
            OperationState::Over
        }
        OperationState::Reading(reader) => {
            drop(reader);
            OperationState::Over
        }
        OperationState::Ranging(file) => range_said(layout, file),
        OperationState::Locking { .. } => unreachable!(),
        OperationState::Rebuilding { node, rebuilder } => rebuild_said(layout, node, rebuilder),
        OperationState::Dropping { .. } => unreachable!(),
        OperationState::Calling(_) => unreachable!(),
        OperationState::Opening { .. } => unreachable!(),
        OperationState::Ending(_) => unreachable!(),
        OperationState::Over => unreachable!(),
    }
}

/// The answer that is said.
pub fn answer_in(stage: OperationState) -> Answer
    requires { IsDoneStage stage }
    ensures { IsAnswerIn stage result }
{
    match stage {
        OperationState::Ending(answer) => answer,
        OperationState::Rebuilding { .. } => unreachable!(),
        OperationState::Dropping { .. } => unreachable!(),
        OperationState::Writing { .. } => unreachable!(),
        OperationState::Reading(_) => unreachable!(),
        OperationState::Ranging(_) => unreachable!(),
        OperationState::Locking { .. } => unreachable!(),
        OperationState::Calling(_) => unreachable!(),
        OperationState::Opening { .. } => unreachable!(),
        OperationState::Over => unreachable!(),
    }
}

/// The answer to a keep.
fn keep_answer(answer: NodeAnswer) -> KeepAnswer
    requires { IsKeepGiven answer }
    ensures { NodeAnswer.Keep result ≡ answer }
{
    let NodeAnswer::Keep(answer) = answer else {
        unreachable!()
    };
    answer
}

/// The answer to a drop.
fn drop_answer(answer: NodeAnswer) -> DropAnswer
    requires { IsDropGiven answer }
    ensures { NodeAnswer.Drop result ≡ answer }
{
    let NodeAnswer::Drop(answer) = answer else {
        unreachable!()
    };
    answer
}

/// The reply to a call on names.
fn tree_reply(layout: Layout, reply: Reply) -> TreeReply
    requires { IsTreeReply layout reply }
    ensures { Reply.Tree result ≡ reply }
{
    let Reply::Tree(answer) = reply else {
        unreachable!()
    };
    answer
}
