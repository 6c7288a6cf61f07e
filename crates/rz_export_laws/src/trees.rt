//! What each call keeps of the names and objects of an export.

ghost use Rattle.rz_export_laws.specs.WholeTree.{ArePathsWritten, AreTextsPlain, CallKeepsTree, EmptyIsWhole, TreeStaysWhole};

/// The tree of a new export is whole.
pub fn at_first()
    ensures { EmptyIsWhole }
{}

/// A call on names and objects keeps the tree whole; one that is refused changes nothing.
pub fn call_kept()
    ensures { CallKeepsTree }
{}

/// Each call of an export keeps its tree whole.
pub fn tree_kept()
    ensures { TreeStaysWhole }
{}

/// Each path of a whole tree can be written as text and read again.
pub fn paths_written()
    ensures { ArePathsWritten }
{}

/// Each path that a text spells has names without slashes.
pub fn texts_plain()
    ensures { AreTextsPlain }
{}
