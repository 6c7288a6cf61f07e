//! One disk carried over onto another.
ghost use Rattle.std.specs.Prelude.{◌≡◌};
ghost use Rattle.mj_angles.specs.Layout.{bsize_of};
ghost use Rattle.rz_cells_slots.specs.Held.{count_held};
ghost use Rattle.rz_cells_slots.specs.Shape.{IsGeometry};
ghost use Rattle.rz_request.specs.Carried.{Carries};

use crate::outcome::stopped;
use crate::{Migrated, Stop};
use rz_cells::{Cells, Geometry};
use rz_disk::Disk;
use std::alloc::Global;

/// How many records these cells hold.
fn count<D: Disk>(cells: &Cells<D>) -> u64
    ensures { result ≡ count_held cells.now.heads }
{
    let geometry = cells.geometry();
    let mut records = 0;
    for cell in 0..2 * geometry.cells {
        if cells.head(cell).is_some() {
            records += 1;
        }
    }
    records
}

/// Carries the old disk over onto the new one, which is handed back.
pub fn carry<D: Disk>(
    alloc: Global,
    geometry: Geometry,
    old: &mut D,
    new: D,
) -> (D, Result<Migrated, Stop>)
    requires geometry { IsGeometry geometry }
    requires small { bsize_of geometry.layout ≡ 0 }
    ensures { Carries ⟦<D as Disk>⟧ geometry old.old old.new new result.0 result.1 }
{
    match Cells::migrate(alloc, geometry, old, new) {
        Ok(cells) => {
            let migrated = Migrated {
                fence: cells.fence(),
                records: count(&cells),
            };
            (cells.into_disk(), Ok(migrated))
        }
        Err((new, fault)) => (new, Err(stopped(fault))),
    }
}
