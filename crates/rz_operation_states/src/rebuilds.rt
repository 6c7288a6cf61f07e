//! The rebuild of a node: what it asks, and what it is told.

ghost use Rattle.std.specs.Prelude.{◌≡◌};
ghost use Rattle.rz_operation_model.specs.Ask.{ask_of, rebuild_asks};
ghost use Rattle.rz_operation_model.specs.Steps.{Replied, Missed, Noted, in_rebuild};
ghost use Rattle.rz_operation_states.specs.Meaning.{meaning_of};
ghost use Rattle.rz_operation_states.specs.Machine.{text_of};
ghost use Rattle.rz_operation_states.specs.Records.{HasHead};
ghost use Rattle.rz_operation_states.specs.Answers.{IsReply, IsAnswer, ComeWith, MayMiss, IsPartSaid, IsWorkAfter, FitsIfEnough};
ghost use Rattle.rz_operation_states.specs.Told.{rebuild_reply, rebuild_answer};
ghost use Rattle.rz_operation_states.specs.Inside.{IsOperationState, IsNodeRebuild, IsRebuildState, machine_of, work_of};

use crate::ask::{Ask, Saying};
use crate::stage::OperationState;
use mj_angles::Layout;
use rz_events::{Answer, CallRef, Head, NodeAnswer, NodeAsk, RebuildAnswer, RebuildAsk, Reply};
use rz_rebuild::Rebuilder;

/// What an operation asks that rebuilds a node.
fn rebuild_ask(layout: Layout, node: u16, ask: RebuildAsk) -> Ask<'static>
    ensures { meaning_of result ≡ rebuild_asks layout node ask }
{
    match ask {
        RebuildAsk::Probe => Ask::Node {
            node,
            ask: NodeAsk::Probe,
        },
        RebuildAsk::Enroll { loss } => Ask::Export(CallRef::Enroll { node, loss }),
        RebuildAsk::Replace { loss, fence } => Ask::Node {
            node,
            ask: NodeAsk::Replace { loss, fence },
        },
        RebuildAsk::Next { after } => Ask::Export(CallRef::Next { node, after }),
        RebuildAsk::Fetch {
            key,
            position,
            node,
            stamp,
        } => Ask::Node {
            node,
            ask: NodeAsk::Fetch {
                key,
                position,
                stamp,
            },
        },
        RebuildAsk::Refill {
            fence,
            key,
            stamp,
            length,
            position,
            base,
        } => Ask::Node {
            node,
            ask: NodeAsk::Refill {
                fence,
                head: Head {
                    stamp,
                    key,
                    layout,
                    bsize: layout.bsize(),
                    position,
                    length,
                    base,
                },
            },
        },
        RebuildAsk::Recheck { key } => Ask::Export(CallRef::Recheck { key }),
        RebuildAsk::Left { key, why } => Ask::Say(Saying::Left { key, why }),
        RebuildAsk::End => Ask::Rest,
    }
}

/// What an operation asks whose rebuild is under way.
pub fn rebuilder_ask(layout: Layout, node: u16, rebuilder: &Rebuilder) -> Ask<'static>
    requires { IsNodeRebuild layout node rebuilder.now }
    ensures value { meaning_of result ≡ ask_of layout (in_rebuild node rebuilder.now.state) }
    ensures head { HasHead layout (ask_of layout (in_rebuild node rebuilder.now.state)) }
{
    rebuild_ask(layout, node, rebuilder.next())
}

/// What a rebuild is told by a reply of the export.
fn reply_told(reply: &Reply) -> Option<RebuildAnswer>
    ensures { result ≡ rebuild_reply reply.now }
{
    match reply {
        Reply::Fence { fence } => Some(RebuildAnswer::Enrolled { fence: *fence }),
        Reply::Denied(why) => Some(RebuildAnswer::Denied(*why)),
        Reply::Listed(listed) => Some(RebuildAnswer::Listed(*listed)),
        Reply::Looked(published) => Some(RebuildAnswer::Rechecked(*published)),
        _ => None,
    }
}

/// What a rebuild is told by the answer of a node.
fn answer_told(answer: NodeAnswer) -> Option<RebuildAnswer>
    ensures { result ≡ rebuild_answer answer }
{
    match answer {
        NodeAnswer::Probe(loss) => Some(RebuildAnswer::Probed(loss)),
        NodeAnswer::Replace(answer) => Some(RebuildAnswer::Replaced(answer)),
        NodeAnswer::Fetch(answer) => Some(RebuildAnswer::Fetched(answer)),
        NodeAnswer::Refill(answer) => Some(RebuildAnswer::Refilled(answer)),
        _ => None,
    }
}

/// What becomes of a rebuild: its end is the answer.
fn settled(node: u16, rebuilder: Rebuilder) -> OperationState
    ensures { IsRebuildState node rebuilder rebuilder.state result }
{
    match rebuilder.end() {
        Some(end) => {
            drop(rebuilder);
            OperationState::Ending(Answer::Rebuild(end))
        }
        None => OperationState::Rebuilding { node, rebuilder },
    }
}

/// How the operation goes on after a reply of the export.
pub fn rebuild_replied(
    layout: Layout,
    node: u16,
    mut rebuilder: Rebuilder,
    reply: &Reply,
) -> OperationState
    requires inside { IsNodeRebuild layout node rebuilder }
    requires asked { IsReply layout (ask_of layout (work_of (OperationState.Rebuilding node rebuilder))) reply.now }
    ensures goes { IsWorkAfter (machine_of layout (OperationState.Rebuilding node rebuilder)) rebuilder.pairs (Replied reply.now) (machine_of layout result) }
    ensures inside { IsOperationState layout result }
{
    let Some(answer) = reply_told(reply) else {
        unreachable!()
    };
    rebuilder.tell(answer, &[]);
    settled(node, rebuilder)
}

/// How the operation goes on after the answer of a node, with the bins that came with it.
pub fn rebuild_answered(
    layout: Layout,
    node: u16,
    mut rebuilder: Rebuilder,
    answer: NodeAnswer,
    bins: &[u64],
) -> OperationState
    requires inside { IsNodeRebuild layout node rebuilder }
    requires asked { IsAnswer layout (ask_of layout (work_of (OperationState.Rebuilding node rebuilder))) answer }
    requires bins { ComeWith layout (ask_of layout (work_of (OperationState.Rebuilding node rebuilder))) answer bins.now }
    ensures goes { FitsIfEnough (machine_of layout (OperationState.Rebuilding node rebuilder)) answer bins.now (machine_of layout result) }
    ensures inside { IsOperationState layout result }
{
    let Some(told) = answer_told(answer) else {
        unreachable!()
    };
    rebuilder.tell(told, bins);
    settled(node, rebuilder)
}

/// How the operation goes on after a message to a node, or its answer, was lost.
pub fn rebuild_missed(layout: Layout, node: u16, mut rebuilder: Rebuilder) -> OperationState
    requires inside { IsNodeRebuild layout node rebuilder }
    requires asked { MayMiss (ask_of layout (work_of (OperationState.Rebuilding node rebuilder))) }
    ensures goes { IsWorkAfter (machine_of layout (OperationState.Rebuilding node rebuilder)) rebuilder.pairs Missed (machine_of layout result) }
    ensures inside { IsOperationState layout result }
{
    rebuilder.tell(RebuildAnswer::Missed, &[]);
    settled(node, rebuilder)
}

/// How the operation goes on once it was said that a block was left.
pub fn rebuild_said(layout: Layout, node: u16, mut rebuilder: Rebuilder) -> OperationState
    requires inside { IsNodeRebuild layout node rebuilder }
    requires asked { IsPartSaid (ask_of layout (work_of (OperationState.Rebuilding node rebuilder))) }
    ensures goes { IsWorkAfter (machine_of layout (OperationState.Rebuilding node rebuilder)) rebuilder.pairs (Noted (text_of (machine_of layout (OperationState.Rebuilding node rebuilder)))) (machine_of layout result) }
    ensures inside { IsOperationState layout result }
{
    rebuilder.tell(RebuildAnswer::Noted, &[]);
    settled(node, rebuilder)
}
