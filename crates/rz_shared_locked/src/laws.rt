//! What lasts while others act, and that the event of an answer may be added.
ghost use Rattle.rz_events.specs.Volume.{Volume};
ghost use Rattle.rz_shared_locked.specs.Laws.{IsLockedNodeKept, IsAskerKept, IsReadKept, IsAnswerLaw, IsArmLaw, IsLostLaw, IsLockedExportKept, IsCallerKept, IsReplyLaw, AreCallsKept, AreCallsAdded};

/// The state of a node stays the one that the log gives while its word has no event more.
pub(crate) fn locked_node_kept()
    ensures { (v : Volume) → IsLockedNodeKept v }
{
    rz_core::next_run();
    rz_log_laws::node_kept();
    rz_chronicle::words_kept();
}

/// A call that a caller may make, it may make later too.
pub(crate) fn asker_kept()
    ensures { (v : Volume) → IsAskerKept v }
{
    rz_core::next_run();
    rz_core::permanent();
    rz_log_laws::ask_kept();
    rz_chronicle::actors_kept();
}

/// What was read of a write stays so.
pub(crate) fn read_kept()
    ensures { (v : Volume) → IsReadKept v }
{
    rz_core::permanent();
}

/// The event of an answer may be added, and the node is then the one that the log gives.
pub(crate) fn answers()
    ensures { (v : Volume) → IsAnswerLaw v }
{
    rz_core::next_run();
    rz_core::nodes();
    rz_log_laws::node_kept();
    rz_log_laws::ask_kept();
    rz_chronicle::words_kept();
    rz_chronicle::actors_kept();
}

/// So may that of an arming.
pub(crate) fn arming()
    ensures { (v : Volume) → IsArmLaw v }
{
    rz_core::next_run();
    rz_log_laws::arming();
    rz_log_laws::node_kept();
    rz_chronicle::words_kept();
}

/// A node that is lost after a legal log holds nothing.
pub(crate) fn lost()
    ensures { (v : Volume) → IsLostLaw v }
{
    rz_core::next_run();
}

/// The export stays the one that the log gives while its word has no event more.
pub(crate) fn locked_export_kept()
    ensures { (v : Volume) → IsLockedExportKept v }
{
    rz_core::next_run();
    rz_log_laws::export_kept();
    rz_chronicle::words_kept();
}

/// A call of the export that a caller may make, it may make later too.
pub(crate) fn caller_kept()
    ensures { (v : Volume) → IsCallerKept v }
{
    rz_core::next_run();
    rz_log_laws::call_kept();
    rz_chronicle::actors_kept();
}

/// The event of a reply may be added, and the export is then the one that the log gives.
pub(crate) fn replies()
    ensures { (v : Volume) → IsReplyLaw v }
{
    rz_core::next_run();
    rz_core::exports();
    rz_log_laws::export_kept();
    rz_log_laws::call_kept();
    rz_chronicle::words_kept();
    rz_chronicle::actors_kept();
}

/// The calls that changed the export stay these while its word has no event more.
pub(crate) fn calls_kept()
    ensures { (v : Volume) → AreCallsKept v }
{
    rz_core::next_run();
    rz_restart_laws::untold();
    rz_chronicle::words_kept();
}

/// With the event of a reply its call joins them, where it changed the export.
pub(crate) fn calls_added()
    ensures { (v : Volume) → AreCallsAdded v }
{
    calls_kept();
    rz_core::next_run();
    rz_core::permanent();
    rz_restart_laws::told();
}
