//! What each call keeps of an export, and that its parts make it again.

ghost use Rattle.std.specs.Prelude.{ℕ, List};
ghost use Rattle.rz_tree.specs.declared.parts.Part.{Part as APart};
ghost use Rattle.rz_events.specs.Volume.{Volume as AVolume};
ghost use Rattle.rz_events.specs.declared.export.Call.{Call as ACall};
ghost use Rattle.rz_export_model.specs.Export.{Export as AnExport};
ghost use Rattle.rz_export_laws.specs.Whole.{IsWholeAtFirst, StaysWhole, PartsMakeIt, PartsAreWhole};

/// A new export is whole.
pub fn new_is_whole()
    ensures { (volume : AVolume) (last : ℕ) → IsWholeAtFirst volume last }
{}

/// A call that the export takes keeps it whole.
pub fn stays_whole()
    ensures { (s : AnExport) (c : ACall) → StaysWhole s c }
{}

/// The parts of a whole export keep the rules of the parts of its volume, and make it again.
pub fn parts_make_it()
    ensures { (s : AnExport) → PartsMakeIt s }
{}

/// Parts that keep the rules of a volume, with names that a text can spell, make a whole export.
pub fn built()
    ensures { (volume : AVolume) (parts : List APart) → PartsAreWhole volume parts }
{}
