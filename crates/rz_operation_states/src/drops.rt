//! The drops of a file that has no name left.

ghost use Rattle.std.specs.Prelude.{◌≡◌, ◌<◌, ◌≤◌, ◌+◌, length, drop, slice_index};
ghost use Rattle.rz_operation_model.specs.Ask.{AskNode};
ghost use Rattle.rz_events.specs.declared.nodes.NodeAsk.TheVariants as ask;
ghost use Rattle.rz_operation_model.specs.Steps.{after_drop, drop_at};
ghost use Rattle.rz_operation_states.specs.Meaning.{meaning_of};
ghost use Rattle.rz_operation_states.specs.Inside.{HasNoBlock, work_of};

use crate::ask::Ask;
use crate::stage::OperationState;
use rz_events::{Answer, DropAnswer, NodeAsk, Places};

/// What the drops of a file ask.
pub fn drop_ask(fid: u128, places: &Places, done: u8) -> Ask<'static>
    requires { done < length places.now }
    ensures { meaning_of result ≡ AskNode (slice_index places.now done) (ask.Drop fid) }
{
    Ask::Node {
        node: places.list()[done as usize],
        ask: NodeAsk::Drop { fid },
    }
}

/// How the drops go on after a node's answer.
pub fn after_drop(fid: u128, places: Places, done: u8, answer: DropAnswer) -> OperationState
    requires { done < length places }
    ensures work { work_of result ≡ after_drop fid (slice_index places done) (drop (done + 1) places) answer }
    ensures quiet { HasNoBlock result }
{
    match answer {
        DropAnswer::Dropped { more: true, .. } => dropping(fid, places, done),
        DropAnswer::Dropped { more: false, .. } => dropped(fid, places, done),
        DropAnswer::Nothing => dropped(fid, places, done),
        DropAnswer::Lost => dropped(fid, places, done),
        DropAnswer::Down => dropped(fid, places, done),
        DropAnswer::DiskFault { .. } => dropped(fid, places, done),
    }
}

/// One node more is done.
pub fn dropped(fid: u128, places: Places, done: u8) -> OperationState
    requires { done < length places }
    ensures work { work_of result ≡ drop_at fid (drop (done + 1) places) }
    ensures quiet { HasNoBlock result }
{
    if usize::from(done) + 1 < places.list().len() {
        dropping(fid, places, done + 1)
    } else {
        OperationState::Ending(Answer::Plain)
    }
}

/// The drops of a file, of which so many nodes are done.
pub fn dropping(fid: u128, places: Places, done: u8) -> OperationState
    requires { done ≤ length places }
    ensures work { work_of result ≡ drop_at fid (drop done places) }
    ensures quiet { HasNoBlock result }
{
    if (done as usize) < places.list().len() {
        OperationState::Dropping { fid, places, done }
    } else {
        OperationState::Ending(Answer::Plain)
    }
}
