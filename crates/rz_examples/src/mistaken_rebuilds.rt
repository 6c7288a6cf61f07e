//! Histories with a rebuild that goes wrong.

ghost use Rattle.rz_examples.specs.Plain.{plain};
ghost use Rattle.rz_examples.specs.Mistake.{HasMistake};
ghost use Rattle.rz_examples.specs.Mistakes.{late_refill, thin_refill};

/// A node takes a refill under a fence that is not its own.
pub fn late_refill()
    ensures { HasMistake plain late_refill }
{}

/// A node takes a refill of a record that one node alone gave.
pub fn thin_refill()
    ensures { HasMistake plain thin_refill }
{}
