//! Memory for entries to come.

ghost use Rattle.std.specs.Prelude.{ℕ, ◌≡◌, ◌+◌, IfOk};
ghost use Rattle.rz_index.specs.declared.nodes.IndexNode.{IndexNode};
ghost use Rattle.rz_index.specs.Standing.{Holds, Tree};

use crate::index::Entry;
use crate::nodes::IndexNode;
use crate::packed::Packed;
use rz_events::Key;
use rz_versions::Versions;
use std::alloc::{AllocError, Global};
use std::marker::Model;

/// Memory for so many entries to come.
#[derive(Drop)]
pub struct Spare {
    /// Nodes that no entry needs, in a tree. None stands at 0.
    pub(crate) row: Vec<IndexNode>,
    pub(crate) link: u32,
    entries: u32,
}

impl Model for Spare {
    ghost use Rattle.std.specs.Prelude.{ℕ};
    ghost use Rattle.rz_index.specs.Spares.{IsSpare};

    ghost Value = { ℕ };

    ghost view = { λ s. s.entries };

    ghost invariant = { λ s. IsSpare s.row.items s.link s.entries };
}

impl Spare {
    /// Memory for so many entries.
    pub fn with_room(alloc: Global, entries: u32) -> Result<Spare, AllocError>
        ensures { IfOk result (λ s. s ≡ entries) }
    {
        let mut row = Vec::with_capacity(alloc, entries as usize + 1)?;
        row.push(node(0))?;
        for link in 0..entries {
            row.push(node(link))?;
        }
        Ok(Spare {
            row,
            link: entries,
            entries,
        })
    }
}

// A node of no entry before the node of a link.
fn node(link: u32) -> IndexNode
    ensures left { result.left ≡ 0 }
    ensures right { result.right ≡ link }
{
    let entry = Entry {
        key: Key { fid: 0, block: 0 },
        cell: 0,
        versions: Versions::none(),
    };
    IndexNode {
        packed: Packed::new(&entry, 0),
        left: 0,
        right: link,
    }
}
