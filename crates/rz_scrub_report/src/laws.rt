//! Laws without code.

ghost use Rattle.std.specs.Prelude.{◌≡◌, ◌⊎◌, ℕ, List, None};
ghost use Rattle.rz_events.specs.declared.files.Listed.{Listed};
ghost use Rattle.rz_words.specs.Grid.{Grid};
ghost use Rattle.rz_scrub_report.specs.Asks.{AreGiven, AreRecordsFound};
ghost use Rattle.rz_scrub_report.specs.Findings.{HasNothingAltered};
ghost use Rattle.rz_scrub_report.specs.Scrubs.{AreListed, AreUnaltered, EachListed, IsScrubbed};
ghost use Rattle.rz_scrub_report.specs.Stores.{State};

use crate::finding::Finding;
use crate::store::ScrubbedStore;
use rz_scrub::Verdict;

/// The law that no record counts as altered, and no verdict is unsure, where all records are those of
/// one block.
pub fn whole_records()
    ensures { HasNothingAltered }
{}

/// The law that too few records are found of a block, or that it is clean, where the nodes give the
/// projections of one block of words.
pub fn whole_blocks<S: ScrubbedStore>()
    ensures { (s : S) (l : Listed) (g : Grid) (w next : State) (finding : Finding) → AreGiven (S.described s).layout (S.gives s) w.nodes l g
        → AreRecordsFound (S.described s).layout (S.gives s) l w finding next → (finding ≡ Finding.Few) ⊎ (finding ≡ Finding.Judged Verdict.Clean) }
{}

/// The law that so it is of each line of a scrub, where the nodes of each block give such records.
pub fn whole_scrubs<S: ScrubbedStore>()
    ensures { (s : S) (w next : State) (text : List ℕ) → EachListed w.export (λ l. (g : Grid) × AreGiven (S.described s).layout (S.gives s) w.nodes l g)
        → IsScrubbed (S.described s).layout (S.gives s) w text next
        → (blocks : List Listed) × AreListed w.export None blocks × AreUnaltered (S.described s).layout blocks text }
{}
