//! Histories with a node that goes wrong.

ghost use Rattle.rz_examples.specs.Plain.{plain};
ghost use Rattle.rz_examples.specs.Mistake.{HasMistake};
ghost use Rattle.rz_examples.specs.Mistakes.{unknown_stops, invented, hidden};

/// A node stops that the volume does not have.
pub fn unknown_node()
    ensures { HasMistake plain unknown_stops }
{}

/// A node gives a record that it never held.
pub fn invented_record()
    ensures { HasMistake plain invented }
{}

/// A node holds a record, and says that it does not.
pub fn hidden_record()
    ensures { HasMistake plain hidden }
{}
