//! Why there is at most one block to find.

ghost use Rattle.std.specs.Prelude.{◌≡◌, ◌≤◌};
ghost use Rattle.mj_angles.specs.Layout.{inverse_of};
ghost use Rattle.rz_words.specs.Grid.{Grid};
ghost use Rattle.rz_scrub.specs.Records.{Records, added};
ghost use Rattle.rz_scrub.specs.Misfits.{IsWithinReach};

use mj_katz::projections_determine;

/// The law that no two blocks are within the reach, where as many records as rows were added.
pub fn one_within_reach()
    ensures { (s : Records) (g h : Grid) → inverse_of s.layout ≤ added s → IsWithinReach s g → IsWithinReach s h → g ≡ h }
{
    projections_determine();
}
