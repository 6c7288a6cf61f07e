//! The memory of open cells.
ghost use Rattle.std.specs.Prelude.{◌≡◌, ◌*◌, ℕ, None, IfOk, length, slice_index};
ghost use Rattle.rz_cells_slots.specs.Held.{in_cell};
ghost use Rattle.rz_cells_slots.specs.Shape.{IsGeometry, slot_of};

use crate::Geometry;
use crate::heads::Heads;
use std::alloc::{AllocError, Global};

/// A gate and a head for each cell, and room for one record.
#[derive(Drop)]
pub struct CellsMemory {
    pub gates: Vec<u8>,
    pub heads: Heads,
    pub buffer: Vec<u8>,
}

impl CellsMemory {
    pub fn new(alloc: Global, geometry: &Geometry) -> Result<CellsMemory, AllocError>
        requires { IsGeometry geometry.now }
        ensures gates { IfOk result (λ r. length r.gates.items ≡ 2 * geometry.now.cells) }
        ensures shut { IfOk result (λ r. (c : ℕ) → slice_index r.gates.items c ≡ 0) }
        ensures heads { IfOk result (λ r. length r.heads ≡ 2 * geometry.now.cells) }
        ensures empty { IfOk result (λ r. (c : ℕ) → in_cell r.heads c ≡ None) }
        ensures buffer { IfOk result (λ r. length r.buffer.items ≡ slot_of geometry.now) }
    {
        let cells = 2 * geometry.cells as usize;
        Ok(CellsMemory {
            gates: Vec::from_elem(alloc, 0, cells)?,
            heads: Heads::new(alloc, geometry.cells)?,
            buffer: Vec::from_elem(alloc, 0, geometry.slot_bytes() as usize)?,
        })
    }
}

/// Shuts all gates and forgets all heads, as in a new room.
pub fn empty(gates: &mut Vec<u8>, heads: &mut Heads)
    ensures gates { length gates.new.items ≡ length gates.old.items }
    ensures shut { (c : ℕ) → slice_index gates.new.items c ≡ 0 }
    ensures heads { length heads.new ≡ length heads.old }
    ensures empty { (c : ℕ) → in_cell heads.new c ≡ None }
{
    gates.fill(0);
    heads.clear();
}
