//! An export in memory.
ghost use Rattle.std.specs.Prelude.{◌≡◌, IsTrue, IfOk, OnOk, OnErr};
ghost use Rattle.rz_export_model.specs.Export.{export_reply, export_after, is_proper};
ghost use Rattle.rz_export.specs.Calls.{MayWant};
ghost use Rattle.rz_events.specs.Borrowed.{call_of};
ghost use Rattle.rz_metadata.specs.Stands.{wants_memory};

use rz_events::{CallRef, Reply};
use rz_export::Export;

/// There is no reply: memory is wanting, or the export does not take the call, or its journal did not
/// keep it.
#[derive(Clone, Copy, Debug, PartialEq, Eq, Drop)]
pub struct NoReply;

/// The reply of an export in memory.
pub(crate) fn reply_to(export: &mut Export, ask: CallRef<'_>) -> Result<Reply, NoReply>
    ensures reply { IfOk result (λ r. r ≡ export_reply export.old (call_of ask.entry)) }
    ensures after { OnOk result (export.new ≡ export_after export.old (call_of ask.entry)) }
    ensures err { OnErr result (export.new ≡ export.old) }
    ensures wanting { OnErr result (IsTrue (is_proper export.old (call_of ask.entry)) → MayWant export.old (call_of ask.entry)) }
{
    if !export.takes_ref(ask) {
        return Err(NoReply);
    }
    let reply = export.answer_ref(ask);
    if wants_memory(&reply) {
        drop(reply);
        return Err(NoReply);
    }
    Ok(reply)
}

/// Whether a reply says that memory is wanting.
pub(crate) fn wants_memory(reply: &Reply) -> bool
    ensures { result ≡ wants_memory reply.now }
{
    matches!(reply, Reply::NoMemory)
}
