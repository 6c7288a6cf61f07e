//! What a book is of.
ghost use Rattle.std.specs.Prelude.{◌≡◌, ◌<◌, ◌+◌, ◌^◌, [], Bool, List, length};
ghost use Rattle.rz_events.specs.Volume.{Volume as AVolume};
ghost use Rattle.rz_events.specs.declared.events.Event.{Event as AnEvent};
ghost use Rattle.rz_chronicle.specs.Kinds.{kind_of, kind_after, is_honest, keeps_legal, volume_in, HasEarlierLog};

use std::marker::Brand;

/// What the call that makes a book picks: whether the book keeps its log legal, and the earlier log after
/// which it goes on, which has the newest event first. Proofs alone know either, so no program can ask.
pub trait Beginning {
    ghost honest: { Bool };

    ghost earlier: { List AnEvent };
}

impl Beginning for Brand {
    ghost use Rattle.std.specs.Prelude.{false};

    ghost honest = { false };

    ghost earlier = { [] };
}

/// The kind of a book whose log begins anew says its volume, and whether it is honest.
pub fn read_back()
    ensures { (honest : Bool) (v : AVolume) → (is_honest (kind_of honest v) ≡ honest) × (volume_in (kind_of honest v) ≡ v) }
{}

/// Each kind says its volume, whether the log is kept legal, and what the earlier log is.
pub fn read_back_after()
    ensures { (honest : Bool) (v : AVolume) (earlier : List AnEvent) → (keeps_legal (kind_after honest v earlier) ≡ honest) × (volume_in (kind_after honest v earlier) ≡ v) × (length earlier < 2 ^ 63 + 512 → HasEarlierLog (kind_after honest v earlier) earlier) }
{}
