//! The outcomes of positions, a letter or a digit for each.

ghost use Rattle.std.specs.Prelude.{◌≡◌, ◌≤◌, ◌∷◌, ◌++◌, OnOk};
ghost use Rattle.rz_show.specs.Outcomes.{mask_word, seen_letter, seen_word, why_letter, why_word};

use rz_events::{Seen, Why};
use std::alloc::AllocError;

/// The letter of a position of a write.
#[tactic(auto, unfolding(crate::specs::Outcomes::why_letter))]
fn why_letter(why: Why) -> u8
    ensures { result ≡ why_letter why }
{
    match why {
        Why::NotAsked => b'-',
        Why::Kept => b'k',
        Why::Passed => b'p',
        Why::Down => b'd',
        Why::Lost => b'l',
        Why::Fenced => b'f',
        Why::Full => b'u',
        Why::DiskFault => b'x',
        Why::Missed => b'm',
        Why::Enrolled => b'e',
        Why::OtherFence => b'?',
        Why::NotLost => b'?',
        Why::OtherLoss => b'?',
    }
}

/// The letter of a position of a read.
#[tactic(auto, unfolding(crate::specs::Outcomes::seen_letter))]
fn seen_letter(seen: Seen) -> u8
    ensures { result ≡ seen_letter seen }
{
    match seen {
        Seen::NotAsked => b'-',
        Seen::Held => b's',
        Seen::Nothing => b'n',
        Seen::Down => b'd',
        Seen::Lost => b'l',
        Seen::DiskFault => b'x',
        Seen::Missed => b'm',
    }
}

/// Adds the letters of the first positions of a write after a space.
#[tactic(auto, unfolding(crate::specs::Outcomes::why_word))]
pub fn push_why(out: &mut Vec<u8>, positions: u8, why: &[Why; 16]) -> Result<(), AllocError>
    requires { positions ≤ 16 }
    ensures { OnOk result (out.new.items ≡ out.old.items ++ 32 ∷ why_word positions why.now) }
{
    out.push(b' ')?;
    for outcome in &why[..usize::from(positions)] {
        out.push(why_letter(*outcome))?;
    }
    Ok(())
}

/// Adds the letters of the first positions of a read after a space.
#[tactic(auto, unfolding(crate::specs::Outcomes::seen_word))]
pub fn push_seen(out: &mut Vec<u8>, positions: u8, seen: &[Seen; 16]) -> Result<(), AllocError>
    requires { positions ≤ 16 }
    ensures { OnOk result (out.new.items ≡ out.old.items ++ 32 ∷ seen_word positions seen.now) }
{
    out.push(b' ')?;
    for outcome in &seen[..usize::from(positions)] {
        out.push(seen_letter(*outcome))?;
    }
    Ok(())
}

/// Adds the digits of the first positions of a mask after a space: position 0 comes first.
#[tactic(auto, unfolding(crate::specs::Outcomes::mask_word))]
pub fn push_mask(out: &mut Vec<u8>, positions: u8, mask: u16) -> Result<(), AllocError>
    requires { positions ≤ 16 }
    ensures { OnOk result (out.new.items ≡ out.old.items ++ 32 ∷ mask_word positions mask) }
{
    out.push(b' ')?;
    for position in 0..positions {
        let bit = (mask >> position) % 2;
        out.push(b'0' + bit as u8)?;
    }
    Ok(())
}
