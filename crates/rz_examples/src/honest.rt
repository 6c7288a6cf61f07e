//! Histories that are legal.

ghost use Rattle.std.specs.Prelude.{◌≡◌, length};
ghost use Rattle.rz_core.specs.History.{of_actor};
ghost use Rattle.rz_core.specs.Legal.{IsLegal};
ghost use Rattle.rz_safety.specs.Rebuilt.{IsRebuilt};
ghost use Rattle.rz_examples.specs.Plain.{plain, mender};
ghost use Rattle.rz_examples.specs.Ordinary.{ordinary};
ghost use Rattle.rz_examples.specs.Mended.{finished, mended};
ghost use Rattle.rz_examples.specs.Ranged.{ranged};

/// A client makes a file, writes its first block and reads it again: fourteen events.
pub fn ordinary()
    ensures legal { IsLegal plain ordinary }
    ensures fourteen { length ordinary ≡ 14 }
{}

/// A node loses its disk, and a rebuilder mends it with the records of two others. Its own events are
/// those of a rebuild of node 1, for loss 1 and under fence 2, that refilled one key.
pub fn mended()
    ensures legal { IsLegal plain mended }
    ensures rebuilt { IsRebuilt (of_actor mender mended) 1 1 2 1 }
{}

/// The same to its end: the rebuilder says that it rebuilt the node.
pub fn finished()
    ensures { IsLegal plain finished }
{}

/// A client writes two bytes over the border of two blocks, and reads three blocks, of which the first
/// is a hole: thirty-two events.
pub fn ranged()
    ensures legal { IsLegal plain ranged }
    ensures thirty_two { length ranged ≡ 32 }
{}
