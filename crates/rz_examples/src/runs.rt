//! Histories of two runs of the program.

ghost use Rattle.std.specs.Prelude.{[]};
ghost use Rattle.rz_core.specs.Legal.{IsLegalAfter};
ghost use Rattle.rz_examples.specs.Plain.{plain};
ghost use Rattle.rz_examples.specs.Ordinary.{with_keeps, with_begin};
ghost use Rattle.rz_examples.specs.Runs.{second_run, taken_over};

/// The first run ends before a write is published, and the second one finds nothing of it. This is legal.
pub fn second_run()
    ensures { IsLegalAfter plain with_keeps second_run }
{
    rz_core::one_run();
}

/// A message is lost of an operation that the first run left open. This is not legal, and all before it is.
pub fn operation_taken_over()
    ensures legal { IsLegalAfter plain with_begin [] }
    ensures mistaken { ¬ IsLegalAfter plain with_begin taken_over }
{
    rz_core::one_run();
}
