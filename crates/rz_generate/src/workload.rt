//! The workload of a seed.

ghost use Rattle.std.specs.Prelude.{◌≡◌, IfOk};
ghost use Rattle.rz_generate.specs.Workload.{workload};

use crate::draws::generator_of;
use crate::lines::{push_ends, push_file};
use crate::volume::workload_volume;
use rz_script::Script;
use std::alloc::{AllocError, Global};

/// How many files there are, of which each client has as many.
const FILES: u8 = 200;

const FILES_OF_CLIENT: u8 = 25;

/// The workload of a seed: eight clients make 25 files each, write their blocks and read them, and a
/// disk is lost and rebuilt beside them. The one error is want of memory.
#[tactic(auto, unfolding(crate::specs::Workload::workload))]
pub fn generate(alloc: Global, seed: u64) -> Result<Script, AllocError>
    ensures { IfOk result (λ s. s ≡ workload seed) }
{
    let mut script = Script::new(alloc, workload_volume(alloc)?);
    let mut generator = generator_of(seed);
    'files: for number in 0..FILES {
        let client = 1 + number / FILES_OF_CLIENT;
        let file = 1 + number % FILES_OF_CLIENT;
        push_file(alloc, &mut script, &mut generator, client, file)?;
    }
    push_ends(&mut script)?;
    Ok(script)
}
