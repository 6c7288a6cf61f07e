//! What lasts of gathered passes.
ghost use Rattle.rz_threads_workers.specs.Gathered.{IsHeldLaw};

/// What a pass holds of another's actor, it holds when it has gone on.
pub fn held_lasts()
    ensures { IsHeldLaw }
{}
