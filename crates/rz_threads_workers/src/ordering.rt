//! The row of all who work beside one another.
ghost use Rattle.std.specs.Prelude.{◌≡◌, ◌+◌, IfOk, map};
ghost use Rattle.rz_events.specs.declared.keys.Actor.TheVariants as a;
ghost use Rattle.rz_chronicle.specs.Dealing.{new_pass, ArePasses};
ghost use Rattle.rz_play.specs.World.{actors};

use rz_chronicle::{Naming, Pass};
use std::alloc::AllocError;

/// The passes of the clients and then those of the rebuilders.
pub fn passes_in_order<J: Naming>(
    clients: Vec<Pass<J>>,
    rebuilders: Vec<Pass<J>>,
) -> Result<Vec<Pass<J>>, AllocError>
    requires clients { ArePasses 64 (λ i. a.Client (i + 1)) clients.items }
    requires rebuilders { ArePasses 16 (λ i. a.Rebuilder (i + 1)) rebuilders.items }
    ensures { IfOk result (λ ps. ps.items ≡ map new_pass actors) }
{
    let mut passes = clients;
    let mut rest = rebuilders;
    passes.append(&mut rest)?;
    Ok(passes)
}
