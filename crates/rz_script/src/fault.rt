//! Why a text is no script.

use rz_config::VolumeFault;
use rz_script_words::ScriptCause;
use std::alloc::AllocError;

/// Why a script was not read.
#[derive(Debug, Drop)]
pub enum ScriptError {
    /// There was no memory.
    NoMemory,
    /// The first bad line, counted from 1, and its first cause.
    Script { line: u32, cause: ScriptCause },
    /// The volume line describes no volume.
    Volume(VolumeFault),
}

impl From<AllocError> for ScriptError {
    ghost use Rattle.std.specs.Prelude.{◌≡◌};
    ghost use Rattle.rz_script.specs.declared.fault.ScriptError.TheVariants.{NoMemory};

    ghost from_gives = { λ _ e. e ≡ NoMemory };

    fn from(_error: AllocError) -> ScriptError {
        ScriptError::NoMemory
    }
}
