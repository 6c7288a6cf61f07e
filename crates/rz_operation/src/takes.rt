//! Whether an answer belongs to what was asked, tested at run time for whoever does not know it otherwise.

ghost use Rattle.std.specs.Prelude.{◌≡◌, ◌<◌, ◌↔◌, IsTrue};
ghost use Rattle.std.specs.Int.{bit_at};
ghost use Rattle.rz_client_model.specs.Read.{IsTold, IsFetched};
ghost use Rattle.rz_operation_model.specs.Rebuild.{IsNextAnswer};
ghost use Rattle.rz_events.specs.Borrowed.{call_of};
ghost use Rattle.rz_operation_states.specs.Meaning.{meaning_of};
ghost use Rattle.rz_operation_states.specs.Answers.{IsReply, IsReplyTo, IsLockReply, IsTreeReply, IsBeginReply, IsPublishReply, IsLookReply, IsEnrollReply, IsNextReply, IsAnswer, IsAnswerTo};

use mj_angles::Layout;
use rz_events::{CallRef, FetchAnswer, Listed, NodeAnswer, NodeAsk, Published, Reply, TreeReply};
use rz_operation_states::Ask;
use rz_rebuild::position_of;

/// Whether this is a reply to what was asked of the export.
pub fn is_reply(layout: Layout, ask: &Ask<'_>, reply: &Reply) -> bool
    ensures { IsTrue result ↔ IsReply layout (meaning_of ask.now) reply.now }
{
    match ask {
        Ask::Export(ask) => is_reply_to(layout, ask, reply),
        _ => false,
    }
}

/// Whether this is a reply to an open with a lock.
pub fn is_lock_reply(layout: Layout, ask: &Ask<'_>, reply: &Reply) -> bool
    ensures { IsTrue result ↔ IsLockReply layout (meaning_of ask.now) reply.now }
{
    match ask {
        Ask::Lock { .. } => is_tree_reply(layout, reply),
        _ => false,
    }
}

/// Whether this is an answer to what was asked of a node.
pub fn is_answer(layout: Layout, ask: &Ask<'_>, answer: &NodeAnswer) -> bool
    ensures { IsTrue result ↔ IsAnswer layout (meaning_of ask.now) answer.now }
{
    match ask {
        Ask::Node { ask, .. } => is_answer_to(layout, ask, answer),
        _ => false,
    }
}

/// Whether this is a reply to a call.
fn is_reply_to(layout: Layout, ask: &CallRef<'_>, reply: &Reply) -> bool
    ensures { IsTrue result ↔ IsReplyTo layout (call_of ask.now) reply.now }
{
    match ask {
        CallRef::Tree(_) => is_tree_reply(layout, reply),
        CallRef::Begin { .. } => is_begin_reply(reply),
        CallRef::Publish { published, .. } => is_publish_reply(published.mask, reply),
        CallRef::Look { .. } => is_look_reply(layout, reply),
        CallRef::Recheck { .. } => is_look_reply(layout, reply),
        CallRef::Enroll { .. } => matches!(reply, Reply::Fence { .. } | Reply::Denied(_)),
        CallRef::Next { node, .. } => is_next_reply(layout, *node, reply),
    }
}

/// Whether this is a reply to a call on names: a file has a node for each position.
fn is_tree_reply(layout: Layout, reply: &Reply) -> bool
    ensures { IsTrue result ↔ IsTreeReply layout reply.now }
{
    match reply {
        Reply::Tree(TreeReply::File(info)) => info.places.list().len() == layout.safe(),
        Reply::Tree(_) => true,
        _ => false,
    }
}

/// Whether this is a reply to a begin: the base is below the stamp.
fn is_begin_reply(reply: &Reply) -> bool
    ensures { IsTrue result ↔ IsBeginReply reply.now }
{
    match reply {
        Reply::Begun { stamp, base } => base < stamp,
        Reply::Denied(_) => true,
        _ => false,
    }
}

/// Whether this is a reply to a publish: an enrolled position is one of the mask.
fn is_publish_reply(mask: u16, reply: &Reply) -> bool
    ensures { IsTrue result ↔ IsPublishReply mask reply.now }
{
    match reply {
        Reply::Accepted => true,
        Reply::Enrolled { position, .. } => has_bit(mask, *position),
        Reply::Denied(_) => true,
        Reply::Revoked { .. } => true,
        _ => false,
    }
}

/// Whether this is a reply to a look or a recheck.
fn is_look_reply(layout: Layout, reply: &Reply) -> bool
    ensures { IsTrue result ↔ IsLookReply layout reply.now }
{
    match reply {
        Reply::Looked(published) => is_told(layout, *published),
        Reply::Denied(_) => true,
        _ => false,
    }
}

/// Whether this is a reply to which block is next for a node.
fn is_next_reply(layout: Layout, node: u16, reply: &Reply) -> bool
    ensures { IsTrue result ↔ IsNextReply layout node reply.now }
{
    match reply {
        Reply::Listed(listed) => is_listed(layout, node, listed),
        _ => false,
    }
}

/// Whether a block can be listed for a node: it has a position of the block's file.
fn is_listed(layout: Layout, node: u16, listed: &Option<Listed>) -> bool
    ensures { IsTrue result ↔ IsNextAnswer layout node listed.now }
{
    let Some(listed) = listed else {
        return true;
    };
    let safe = layout.safe();
    let places = listed.info.places.list().len();
    places == safe
        && (position_of(node, listed) as usize) < safe
        && is_told(layout, Some(listed.published))
}

/// Whether what is told as published can be.
fn is_told(layout: Layout, published: Option<Published>) -> bool
    ensures { IsTrue result ↔ IsTold layout published }
{
    let Some(published) = published else {
        return true;
    };
    let positions = 1u32 << layout.safe();
    let length = published.length as usize;
    published.stamp > 0 && u32::from(published.mask) < positions && length <= layout.block_bytes()
}

/// Whether a mask names a position.
#[tactic(auto, using(std::proofs::lemmas::Nat::Bits::shr_and_one))]
fn has_bit(mask: u16, position: u8) -> bool
    ensures { IsTrue result ↔ ((position < 16) × (bit_at mask position ≡ 1)) }
{
    position < 16 && (mask >> position) & 1 == 1
}

/// Whether this is an answer to a call of a node.
fn is_answer_to(layout: Layout, ask: &NodeAsk, answer: &NodeAnswer) -> bool
    ensures { IsTrue result ↔ IsAnswerTo layout ask.now answer.now }
{
    match (ask, answer) {
        (NodeAsk::Keep(_), NodeAnswer::Keep(_)) => true,
        (NodeAsk::Fetch { .. }, NodeAnswer::Fetch(answer)) => is_fetched(layout, answer),
        (NodeAsk::Refill { .. }, NodeAnswer::Refill(_)) => true,
        (NodeAsk::Drop { .. }, NodeAnswer::Drop(_)) => true,
        (NodeAsk::Probe, NodeAnswer::Probe(_)) => true,
        (NodeAsk::Replace { .. }, NodeAnswer::Replace(_)) => true,
        _ => false,
    }
}

/// Whether this can be fetched.
fn is_fetched(layout: Layout, answer: &FetchAnswer) -> bool
    ensures { IsTrue result ↔ IsFetched layout answer.now }
{
    match answer {
        FetchAnswer::Held(held) => {
            held.base < held.stamp && held.length as usize <= layout.block_bytes()
        }
        _ => true,
    }
}
