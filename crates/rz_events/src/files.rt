//! Files, where their projections lie, and what is published of their blocks.

ghost use Rattle.std.specs.Prelude.{◌≡◌, ℕ, List, length, ◌<◌, ◌≤◌, ◌∷◌, [], ◌++◌};

use crate::Key;
use std::marker::Model;

/// The nodes of a file, by position: at most 16 node numbers.
#[derive(Clone, Copy, Debug, PartialEq, Eq, Drop)]
pub struct Places {
    list: [u16; 16],
    count: u8,
}

impl Model for Places {
    ghost use Rattle.std.specs.Prelude.{List, ℕ, take};
    ghost use Rattle.rz_events.specs.Places.{IsPadded, padded};
    ghost use Rattle.rz_events.specs.Places.{padded-take};

    ghost Value = { List ℕ };

    ghost view = { λ p. take p.count p.list };

    ghost invariant = { λ p. IsPadded p.count p.list };

    ghost inverse = { padded };

    ghost inverse_ok = { λ p h. padded-take p.count p.list h };
}

impl Places {
    /// No places.
    pub fn none() -> Places
        ensures { result ≡ [] }
    {
        Places {
            list: [0; 16],
            count: 0,
        }
    }

    /// Adds a node at the end.
    pub fn push(&mut self, node: u16)
        requires { length self.old < 16 }
        ensures { self.new ≡ self.old ++ node ∷ [] }
    {
        self.list[self.count as usize] = node;
        self.count += 1;
    }

    /// The nodes, by position.
    pub fn list(&self) -> &[u16]
        ensures value { result.now ≡ self.now }
        ensures few { length self.now ≤ 16 }
    {
        &self.list[..self.count as usize]
    }
}

/// What a client learns of a file when it opens it.
#[derive(Clone, Copy, Drop)]
pub struct FileInfo {
    /// The number of the file.
    pub fid: u128,
    /// The cluster in which all its projections stand.
    pub cid: u16,
    /// The node of each position.
    pub places: Places,
    /// The size in bytes.
    pub size: u64,
}

/// What is published of a block: the write's stamp, the positions that have it (bit `i` is position
/// `i`), and the length of its text.
#[derive(Clone, Copy, Debug, PartialEq, Eq, Drop)]
pub struct Published {
    pub stamp: u64,
    pub mask: u16,
    pub length: u32,
}

/// A published block with its file.
#[derive(Clone, Copy, Drop)]
pub struct Listed {
    pub key: Key,
    pub info: FileInfo,
    pub published: Published,
}

/// The kinds of objects in the tree.
#[derive(Clone, Copy, Debug, PartialEq, Eq, Drop)]
pub enum Kind {
    File,
    Dir,
    Link,
}

/// The attributes of an object.
#[derive(Clone, Copy, Drop)]
pub struct Attr {
    pub fid: u128,
    pub kind: Kind,
    pub mode: u16,
    pub mtime: u64,
    pub links: u32,
    pub size: u64,
}

/// A storage node in the description of a volume: its number, and the pairs of cells of its disk.
#[derive(Clone, Copy, Debug, PartialEq, Eq, Drop)]
pub struct NodeSpec {
    pub sid: u16,
    pub cells: u32,
}
