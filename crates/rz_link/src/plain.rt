//! A link that loses nothing.
ghost use Rattle.std.specs.Prelude.{◌≡◌};

use crate::{Link, Sent};

/// A link that loses nothing.
#[derive(Clone, Copy, Debug)]
pub struct PlainLink;

impl PlainLink {
    pub fn new() -> Self {
        PlainLink
    }
}

impl Link for PlainLink {
    ghost use Rattle.rz_link.specs.declared.Sent.TheVariants.{Through};

    ghost lost = { λ _. 0 };

    ghost says = { λ link node sent new. sent ≡ Through };

    fn send(&mut self, _node: u16) -> Sent
        ensures { result ≡ Sent.Through }
    {
        Sent::Through
    }
}
