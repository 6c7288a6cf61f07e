//! Projections of eight blocks, whose bins stand in a list of words.

ghost use Rattle.std.specs.Prelude.{◌≡◌, ◌≤◌, ◌<◌, ◌+◌, ◌++◌, ◌∷◌, [], All, ◌*◌, ◌^◌, length, unsigned_abs, vec_len, vec_capacity};
ghost use Rattle.rz_words.specs.Grid.{IsShape};
ghost use Rattle.mj_angles.proofs.Order.{lifted};
ghost use Rattle.mj_inverse.specs.Padded.{placed_at, placed_from};

use mj_angles::bins;

/// A projection of eight blocks.
#[derive(Clone, Copy)]
pub struct Placed {
    /// The angle of the projection.
    pub direction: i32,
    /// The angle, raised so that it is none below zero.
    pub angle: usize,
    /// Where its first bin stands, in places of eight words.
    pub from: usize,
}

/// A projection whose bins begin in place `from`.
fn one_placed(p: i32, from: usize) -> Placed
    requires { unsigned_abs p ≤ 16 }
    ensures { result ≡ placed_at p from }
{
    Placed {
        direction: p,
        angle: (p + 16) as usize,
        from,
    }
}

/// Adds a projection whose bins begin in place `from`.
pub fn add_placed(all: &mut Vec<Placed>, p: i32, from: usize)
    requires small { unsigned_abs p ≤ 16 }
    requires room { vec_len all.old < vec_capacity all.old }
    ensures items { all.new.items ≡ all.old.items ++ placed_at p from ∷ [] }
    ensures capacity { vec_capacity all.old ≤ vec_capacity all.new }
{
    let Ok(()) = all.push(one_placed(p, from)) else {
        return;
    };
}

/// Writes the projections at these angles, whose bins stand one after the other.
pub fn place_from(all: &mut [Placed], angles: &[i32], from: usize, rows: usize, cols: usize)
    requires shape { IsShape rows cols }
    requires small { All (λ p. unsigned_abs p ≤ 16) angles.now }
    requires room { length all.old ≡ length angles.now }
    requires few { from + length angles.now * (cols + 256) ≤ 2 ^ 32 }
    ensures { all.new ≡ placed_from rows cols from angles.now }
{
    match (angles.split_first(), all.split_first_mut()) {
        (Some((p, others)), Some((first, rest))) => {
            *first = one_placed(*p, from);
            place_from(rest, others, from + bins(*p, rows, cols), rows, cols);
        }
        _ => {}
    }
}

/// Adds bins.
pub fn add_words(words: &mut Vec<u64>, bins: &[u64])
    requires room { vec_len words.old + length bins.now ≤ vec_capacity words.old }
    ensures items { words.new.items ≡ words.old.items ++ bins.now }
    ensures capacity { vec_capacity words.old ≤ vec_capacity words.new }
{
    let Ok(()) = words.extend_from_slice(bins) else {
        return;
    };
}
