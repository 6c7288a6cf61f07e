//! Laws without code: what the log of a performance says is true, and when a replay comes to its end.

ghost use Rattle.rz_report.specs.Clear.{ReplayCompletes, IsCompleteAgain};
ghost use Rattle.rz_report.specs.Told.{AreBegun, AreLossesTold, ArePlaysReported};

/// What the log of a script's play says is true, however the play ended: what is proved of each play that
/// has begun holds of one that stopped or came to its end.
pub(crate) fn true_logs()
    ensures { ArePlaysReported }
{
    rz_play_laws::ended();
    rz_play_laws::stopped();
    rz_play_laws::losses();
    rz_play_laws::legal();
    rz_play_laws::sound();
    rz_play_laws::rebuilt();
    rz_play_locks::none_lost();
    rz_play_locks::whole_views();
    rz_core::one_run();
    rz_safety::answering();
    rz_safety::written();
}

/// So each lost message is accounted for, also over disks that do not tell their texts.
pub(crate) fn told_losses()
    ensures { AreLossesTold }
{
    rz_play_laws::losses_over();
}

/// However a play ended, it has begun: what is proved of each play that has begun holds of it.
pub fn begins()
    ensures { AreBegun }
{
    rz_play_laws::ended();
    rz_play_laws::stopped();
}

/// A replay that begins anew comes to its end where nothing stands in its way: the words and the source mean
/// a script within the limits, there is a disk for each node, no turn too many is called for, and nothing
/// outside failed. Want of memory is the one other answer. Over disks that do not tell their texts it is so too.
pub fn completes()
    ensures { ReplayCompletes }
{}

/// So does one that goes on after earlier runs, where all disks open, and neither a turn too many nor the
/// journal cuts the play off.
pub fn completes_again()
    ensures { IsCompleteAgain }
{}
