//! One or two versions, and which gives way.

ghost use Rattle.std.specs.Prelude.{◌≡◌, ◌<◌, ℕ, Some, None};
ghost use Rattle.rz_node_model.specs.Versions.{greater_goes, kept, refilled, without, passes_keep, passes_refill, is_past, lesser_of};
ghost use Rattle.rz_versions.specs.Sides.{at, other, put_at, in_order, version_stamp, version_base, first_of, Differ, has, side_with, side_for, never, goes_by, room};

use std::marker::Model;

/// A version of a block: the stamp of its write, and the stamp that was published when it began.
#[derive(Clone, Copy, PartialEq, Eq, Drop)]
pub struct Version {
    pub stamp: u64,
    pub base: u64,
}

/// Where a new version goes.
#[derive(Clone, Copy, PartialEq, Eq, Drop)]
pub enum Room {
    /// On this side, in the place of what is there.
    Put { side: u8 },
    /// Nowhere: it is passed over, and this is the greatest stamp held.
    Passed { held: u64 },
}

/// At most two versions of distinct stamps, each on a side, 0 or 1.
#[derive(Clone, Copy, PartialEq, Eq, Drop)]
pub struct Versions {
    sides: [Option<Version>; 2],
}

impl Model for Versions {
    ghost use Rattle.std.specs.Prelude.{◌≡◌, length, slice_index_or, None, [], ◌∷◌};
    ghost use Rattle.rz_versions.specs.Sides.{Sides, sides_code, version_stamp, Differ};
    ghost use Rattle.rz_versions.specs.declared.versions.Version.{Version};

    ghost Value = { Sides Version };

    ghost coded = { sides_code };

    ghost view = { λ v. record { zero = slice_index_or v.sides 0 None; one = slice_index_or v.sides 1 None } };

    ghost use Rattle.rz_versions.specs.Two.{two_sides};

    ghost invariant = { λ v. (length v.sides ≡ 2) × Differ version_stamp (slice_index_or v.sides 0 None) (slice_index_or v.sides 1 None) };

    ghost inverse = { λ s. record { sides = s.zero ∷ s.one ∷ [] } };

    ghost inverse_ok = { λ a h. two_sides a h.0 };
}

impl Versions {
    /// No version.
    pub fn none() -> Versions
        ensures { result ≡ record { zero = None; one = None } }
    {
        Versions {
            sides: [None, None],
        }
    }

    /// The versions on these sides.
    pub fn of_sides(zero: Option<Version>, one: Option<Version>) -> Versions
        requires { Differ version_stamp zero one }
        ensures { result ≡ record { zero = zero; one = one } }
    {
        Versions { sides: [zero, one] }
    }

    /// What stands on the sides 0 and 1.
    pub fn both_sides(&self) -> (Option<Version>, Option<Version>)
        ensures zero { result.0 ≡ self.now.zero }
        ensures one { result.1 ≡ self.now.one }
        ensures differ { Differ version_stamp result.0 result.1 }
    {
        let zero = self.sides[0];
        (zero, self.sides[1])
    }

    /// The version of greater stamp.
    pub fn greatest(&self) -> Option<Version>
        ensures { result ≡ first_of (in_order version_stamp self.now) }
    {
        match (self.sides[0], self.sides[1]) {
            (Some(zero), Some(one)) => Some(if zero.stamp < one.stamp { one } else { zero }),
            (None, one) => one,
            (zero, None) => zero,
        }
    }

    /// The version of smaller stamp, also where there is one alone.
    pub fn lesser(&self) -> Option<Version>
        ensures { result ≡ lesser_of (in_order version_stamp self.now) }
    {
        match (self.sides[0], self.sides[1]) {
            (Some(zero), Some(one)) => Some(if zero.stamp < one.stamp { zero } else { one }),
            (None, one) => one,
            (zero, None) => zero,
        }
    }

    /// The side of a stamp.
    pub fn side_of(&self, stamp: u64) -> Option<u8>
        ensures { result ≡ side_with version_stamp self.now stamp }
    {
        if has(self.sides[0], stamp) {
            Some(0)
        } else if has(self.sides[1], stamp) {
            Some(1)
        } else {
            None
        }
    }

    /// Where a writer's version goes: above all that are held, and of two in the place of the greater
    /// where the lesser may be what was published when the new one began.
    pub fn for_keep(&self, v: Version) -> Room
        ensures room { result ≡ room (passes_keep version_stamp v.stamp (in_order version_stamp self.now)) (side_for version_stamp (greater_goes v.base) self.now) }

        // Put there, it leaves what the rule leaves.
        ensures kept { (side : ℕ) → result ≡ Room.Put side → in_order version_stamp (put_at self.now side (Some v)) ≡ kept version_stamp v.base v (in_order version_stamp self.now) }
        ensures side { (side : ℕ) → result ≡ Room.Put side → side < 2 }
        ensures other { (side : ℕ) → result ≡ Room.Put side → Differ version_stamp (other self.now side) (Some v) }
    {
        match self.greatest() {
            Some(greatest) if v.stamp <= greatest.stamp => Room::Passed {
                held: greatest.stamp,
            },
            _ => Room::Put {
                side: self.side_for(Some(v.base)),
            },
        }
    }

    /// Where a rebuilder's version goes: it is not held and not out of date, and of two it takes the
    /// place of the lesser.
    pub fn for_refill(&self, v: Version) -> Room
        ensures room { result ≡ room (passes_refill version_stamp version_base v.stamp (in_order version_stamp self.now)) (side_for version_stamp never self.now) }

        // Put there, it leaves what the rule leaves.
        ensures kept { (side : ℕ) → result ≡ Room.Put side → in_order version_stamp (put_at self.now side (Some v)) ≡ refilled version_stamp v (in_order version_stamp self.now) }
        ensures side { (side : ℕ) → result ≡ Room.Put side → side < 2 }
        ensures other { (side : ℕ) → result ≡ Room.Put side → Differ version_stamp (other self.now side) (Some v) }
    {
        match self.greatest() {
            Some(newest) if self.side_of(v.stamp).is_some() || self.is_past(v.stamp) => {
                Room::Passed { held: newest.stamp }
            }
            _ => Room::Put {
                side: self.side_for(None),
            },
        }
    }

    /// With a version on a side, in the place of what is there.
    pub fn with(&self, side: u8, v: Version) -> Versions
        requires side { side < 2 }
        requires other { Differ version_stamp (other self.now side) (Some v) }
        ensures { result ≡ put_at self.now side (Some v) }
    {
        if side == 0 {
            Versions {
                sides: [Some(v), self.sides[1]],
            }
        } else {
            Versions {
                sides: [self.sides[0], Some(v)],
            }
        }
    }

    /// With nothing on a side.
    pub fn without(&self, side: u8) -> Versions
        requires { side < 2 }
        ensures sides { result ≡ put_at self.now side None }
        ensures rest { (w : Version) → at self.now side ≡ Some w → in_order version_stamp result ≡ without version_stamp w.stamp (in_order version_stamp self.now) }
    {
        if side == 0 {
            Versions {
                sides: [None, self.sides[1]],
            }
        } else {
            Versions {
                sides: [self.sides[0], None],
            }
        }
    }

    // Two versions above the stamp are held, and the lesser was published before the greater began.
    fn is_past(&self, stamp: u64) -> bool
        ensures { result ≡ is_past version_stamp version_base stamp (in_order version_stamp self.now) }
    {
        match (self.sides[0], self.sides[1]) {
            (Some(zero), Some(one)) => {
                let (greater, lesser) = if zero.stamp < one.stamp {
                    (one, zero)
                } else {
                    (zero, one)
                };
                stamp < greater.stamp && stamp < lesser.stamp && lesser.stamp <= greater.base
            }
            _ => false,
        }
    }

    // The side for a new version. Of two the greater gives way to a base that parts them, and otherwise
    // the lesser.
    fn side_for(&self, base: Option<u64>) -> u8
        ensures { result ≡ side_for version_stamp (goes_by base) self.now }
    {
        match (self.sides[0], self.sides[1]) {
            (None, _) => 0,
            (Some(_), None) => 1,
            (Some(zero), Some(one)) => {
                if zero.stamp < one.stamp {
                    u8::from(goes(base, one.stamp, zero.stamp))
                } else {
                    u8::from(!goes(base, zero.stamp, one.stamp))
                }
            }
        }
    }
}

// Whether the greater of two versions gives way.
fn goes(base: Option<u64>, greater: u64, lesser: u64) -> bool
    ensures { result ≡ goes_by base greater lesser }
{
    match base {
        None => false,
        Some(base) => lesser <= base && base < greater,
    }
}

// Whether a side has a stamp.
fn has(side: Option<Version>, stamp: u64) -> bool
    ensures { result ≡ has version_stamp side stamp }
{
    match side {
        None => false,
        Some(v) => v.stamp == stamp,
    }
}
