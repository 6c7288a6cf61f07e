//! Items that are marked or not.

ghost use Rattle.std.specs.Prelude.{◌≡◌, Bool};

/// An item that is marked or not.
pub trait Mark: Drop {
    ghost is_marked: { Self → Bool };

    /// Whether it is marked.
    fn is_marked(&self) -> bool
        ensures { result ≡ is_marked self.now };
}
