//! A history of operations under locks, which is legal.

ghost use Rattle.rz_core.specs.Legal.{IsLegal};
ghost use Rattle.rz_examples.specs.Plain.{plain};
ghost use Rattle.rz_examples.specs.Locked.{viewed};

/// A client waits for a lock, updates five bytes and views them again.
pub fn viewed()
    ensures { IsLegal plain viewed }
{}
