//! Which version of a block gives way.

ghost use Rattle.std.specs.Prelude.{◌≡◌, ◌-◌, true, [], ◌∷◌};
ghost use Rattle.rz_node_model.specs.Versions.{kept, refilled, is_past};
ghost use Rattle.rz_core.specs.NodeWord.{itself};

/// Stamps 1 and 2 are held, and a write comes that began when 1 was published: 2 was not finished, and
/// goes.
pub fn unfinished_goes()
    ensures { kept itself 1 3 (2 ∷ 1 ∷ []) ≡ 3 ∷ 1 ∷ [] }
{}

/// Stamps 1 and 2 are held, and a write comes that began when 2 was published: 1 goes.
pub fn replaced_goes()
    ensures { kept itself 2 3 (2 ∷ 1 ∷ []) ≡ 3 ∷ 2 ∷ [] }
{}

/// Stamps 2 and 4 are held, and nothing between them was published when a write with stamp 5 began on
/// base 1: both may be unfinished, and the lesser goes.
pub fn lesser_goes()
    ensures { kept itself 1 5 (4 ∷ 2 ∷ []) ≡ 5 ∷ 4 ∷ [] }
{}

/// A refill takes the place of the lesser version, and stands in order.
pub fn refill_in_order()
    ensures { refilled itself 3 (4 ∷ 2 ∷ []) ≡ 4 ∷ 3 ∷ [] }
{}

/// A refill of stamp 1 is out of date where 3 is held with base 2, and 2.
pub fn out_of_date()
    ensures { is_past itself (λ s. s - 1) 1 (3 ∷ 2 ∷ []) ≡ true }
{}
