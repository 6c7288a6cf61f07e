//! What turns one after another make of an actor's operations. The functions have no code.
ghost use Rattle.rz_threads_worker.specs.Laws.{IsTurnLaw, IsCutLaw, IsOrderLaw};

/// A turn of an actor's machine is a turn of the actor.
pub fn turned()
    ensures { IsTurnLaw }
{}

/// A turn that was cut off is a beginning of one.
pub fn cut_off()
    ensures { IsCutLaw }
{}

/// Turns after turns are turns.
pub fn in_order()
    ensures { IsOrderLaw }
{}
