//! The script of an input, and the judgement of its size and of its disks.

ghost use Rattle.std.specs.Prelude.{◌≡◌, ℕ, Ok};
ghost use Rattle.rz_script.specs.Scripts as model;
ghost use Rattle.rz_request.specs.Requests.{HasScript, JudgesScript, is_large as too_large};

use crate::input::{Taken, take};
use crate::{Refusal, Stop};
use rz_ports::Source;
use rz_script::{Form, Script, ScriptError};
use std::alloc::Global;

/// The most bytes of all disks.
const DISK_BYTES: u64 = 536_870_912;

/// The most work of a script, in pieces of 4096 bytes.
const WORK: u64 = 32_768;

/// Whether the disks or the work of a script are too large.
fn is_large(script: &Script) -> bool
    ensures { result ≡ too_large script.now }
{
    script.volume().disk_bytes() > DISK_BYTES || script.weight() > WORK
}

/// A script that needs so many disks, over so many.
pub fn fit(script: Script, need: u64, disks: u64) -> Result<Script, Stop>
    ensures { (needs : model.Script → ℕ) → need ≡ needs script → JudgesScript (Ok script) needs disks result }
{
    if is_large(&script) {
        return Err(Stop::Refused(Refusal::Large));
    }
    if need != disks {
        return Err(Stop::Refused(Refusal::Disks { have: disks, need }));
    }
    Ok(script)
}

/// The script of this form in an input, which is read to its end, or until there is one byte more than
/// the limit.
pub fn read_script<I: Source>(alloc: Global, form: Form, input: &mut I) -> Result<Script, Stop>
    ensures { HasScript form (record { before = I.left input.old; after = I.left input.new; old = I.faults input.old; new = I.faults input.new }) result }
{
    match take(alloc, input) {
        Taken::All(bytes) => match Script::read(alloc, &bytes, form) {
            Ok(script) => Ok(script),
            Err(ScriptError::NoMemory) => Err(Stop::NoMemory),
            Err(ScriptError::Script { line, cause }) => {
                Err(Stop::Refused(Refusal::Script { line, cause }))
            }
            Err(ScriptError::Volume(fault)) => Err(Stop::Refused(Refusal::Volume(fault))),
        },
        Taken::Long => Err(Stop::Refused(Refusal::Long)),
        Taken::Failed => Err(Stop::Source),
        Taken::NoMemory => Err(Stop::NoMemory),
    }
}
