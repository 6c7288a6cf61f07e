//! A node's old disk carried over onto a new one, and what is told of it.

ghost use Rattle.rz_replay.specs.Migrations.{IsMigrationTold, TellsMigration};

use rz_disk::Disk;
use rz_ports::{Sink, Source};
use rz_report::{finish, stop};
use rz_request::{Migrated, Status, Stop, migrate};
use std::alloc::Global;

/// Writes what came of a migration, and gives the status.
fn tell<O: Sink>(alloc: Global, outcome: &Result<Migrated, Stop>, output: &mut O) -> u8
    ensures { TellsMigration outcome.now (record { before = O.taken output.old; after = O.taken output.new; old = O.faults output.old; new = O.faults output.new }) result }
{
    match outcome {
        Ok(migrated) => match migrated.line(alloc) {
            Ok(line) => finish(output, Status::DONE, &line),
            Err(_) => Status::NO_MEMORY,
        },
        Err(why) => stop(alloc, why, output),
    }
}

/// Carries the first of two disks, which is the old one of node `sid` in the volume of the input, over
/// onto the second. Writes what came of it, and gives the status. The disks are back in their order
/// afterwards.
pub fn carry<I: Source, O: Sink, D: Disk>(
    alloc: Global,
    sid: u16,
    input: &mut I,
    output: &mut O,
    disks: &mut Vec<D>,
) -> u8
    ensures { IsMigrationTold ⟦<D as Disk>⟧ sid (record { before = I.left input.old; after = I.left input.new; old = I.faults input.old; new = I.faults input.new }) disks.old.items disks.new.items (record { before = O.taken output.old; after = O.taken output.new; old = O.faults output.old; new = O.faults output.new }) result }
{
    let outcome = migrate(alloc, sid, input, disks);
    tell(alloc, &outcome, output)
}
