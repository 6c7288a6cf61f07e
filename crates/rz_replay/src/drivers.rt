//! The driver that a request is played on.

ghost use Rattle.std.specs.Prelude.{◌≡◌, IfOk, IfErr, length};
ghost use Rattle.rz_request.specs.Requests.{disks_for};
ghost use Rattle.rz_replay.specs.Drivers.{IsDriverFor, IsUnmade, unformatted, unopened};

use rz_disk::Disk;
use rz_driver::Driver;
use rz_nodes::{DriverFault, OpenRefusal};
use rz_request::{Refusal, Request, Stop, Wish};
use std::alloc::Global;

/// A driver over the disks that a request needs: new ones are formatted, and where earlier runs left them they
/// are opened. A journal's disk is the last. Where there is no driver the disks come back in their order.
pub(crate) fn driver_for<D: Disk>(
    alloc: Global,
    request: &Request,
    disks: Vec<D>,
) -> Result<Driver<D>, (Vec<D>, Stop)>
    requires count { length disks.items ≡ disks_for request.now.wish request.now.script }
    ensures made { IfOk result (λ d. IsDriverFor request.now disks.items d) }
    ensures unmade { IfErr result (λ r. IsUnmade ⟦<D as Disk>⟧ request.now.wish request.now.script.volume disks.items r.0.items r.1) }
{
    let volume = request.script.volume();
    match request.wish {
        Wish::First => match Driver::first(alloc, volume, disks) {
            Ok(driver) => Ok(driver),
            Err((back, fault)) => Err((back, unformatted(fault))),
        },
        Wish::Again => match Driver::again(alloc, volume, disks) {
            Ok(driver) => Ok(driver),
            Err((back, refusal)) => Err((back, unopened(refusal))),
        },
        Wish::Replay | Wish::Scrub | Wish::Load { .. } => match Driver::new(alloc, volume, disks) {
            Ok(driver) => Ok(driver),
            Err((back, fault)) => Err((back, unformatted(fault))),
        },
    }
}

/// Why there is nothing to play over disks that were not formatted.
fn unformatted(fault: DriverFault) -> Stop
    ensures { result ≡ unformatted fault }
{
    match fault {
        DriverFault::NoMemory => Stop::NoMemory,
        DriverFault::Disk { index } => Stop::Refused(Refusal::Disk { index }),
    }
}

/// Why there is nothing to play over disks that were not opened.
fn unopened(refusal: OpenRefusal) -> Stop
    ensures { result ≡ unopened refusal }
{
    match refusal {
        OpenRefusal::NoMemory => Stop::NoMemory,
        OpenRefusal::Open { index, cause } => Stop::Refused(Refusal::Open { index, cause }),
    }
}
