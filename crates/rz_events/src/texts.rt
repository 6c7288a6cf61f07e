//! Texts and listings, which contracts see as lists.

ghost use Rattle.std.specs.Prelude.{◌≡◌, ℕ, List, IfOk};
ghost use Rattle.rz_events.specs.Texts.{IsInByteOrder};

use std::alloc::{AllocError, Global};
use std::marker::Model;

/// The bytes of a text: a path, a name, the target of a link, or what a block holds.
#[derive(Debug, Drop)]
pub struct Text {
    bytes: Vec<u8>,
}

impl Model for Text {
    ghost use Rattle.std.specs.Prelude.{List, ℕ};

    ghost Value = { List ℕ };

    ghost view = { λ t. t.bytes.items };
}

impl Text {
    /// The text with these bytes.
    pub fn from_bytes(alloc: Global, bytes: &[u8]) -> Result<Text, AllocError>
        ensures { IfOk result (λ t. t ≡ bytes.now) }
    {
        let bytes = Vec::from_slice(alloc, bytes)?;
        Ok(Text { bytes })
    }

    /// The text with the bytes of a vector, which takes no memory.
    pub fn from_vec(bytes: Vec<u8>) -> Text
        ensures { result ≡ bytes.items }
    {
        Text { bytes }
    }

    /// Its bytes.
    pub fn bytes(&self) -> &[u8]
        ensures { result.now ≡ self.now }
    {
        self.bytes.as_slice()
    }

    /// Its bytes as a vector, which takes no memory.
    pub fn into_vec(self) -> Vec<u8>
        ensures { result.items ≡ self }
    {
        self.bytes
    }

    /// A text with the same bytes.
    pub fn copy(&self, alloc: Global) -> Result<Text, AllocError>
        ensures { IfOk result (λ t. t ≡ self.now) }
    {
        Text::from_bytes(alloc, self.bytes())
    }
}

/// The names in a directory, in byte order.
#[derive(Drop)]
pub struct Listing {
    names: Vec<Text>,
}

impl Model for Listing {
    ghost use Rattle.std.specs.Prelude.{List, ℕ};
    ghost use Rattle.rz_events.specs.Texts.{IsInByteOrder};

    ghost Value = { List (List ℕ) };

    ghost view = { λ l. l.names.items };

    ghost invariant = { λ l. IsInByteOrder l.names.items };
}

impl Listing {
    /// The listing of these names.
    pub fn of(names: Vec<Text>) -> Listing
        requires { IsInByteOrder names.items }
        ensures { result ≡ names.items }
    {
        Listing { names }
    }

    /// Its names.
    pub fn names(&self) -> &[Text]
        ensures value { result.now ≡ self.now }
        ensures order { IsInByteOrder self.now }
    {
        self.names.as_slice()
    }

    /// A listing of the same names.
    pub fn copy(&self, alloc: Global) -> Result<Listing, AllocError>
        ensures { IfOk result (λ l. l ≡ self.now) }
    {
        let mut names = Vec::new(alloc);
        for name in self.names.as_slice() {
            names.push(name.copy(alloc)?)?;
        }
        Ok(Listing { names })
    }
}
