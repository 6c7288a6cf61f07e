//! Why a line is none.

use std::alloc::AllocError;

/// What is wrong with a line. The causes have the numbers 1 to 12 in this order.
#[derive(Clone, Copy, Debug, PartialEq, Eq, Drop)]
pub enum ScriptCause {
    /// The text is not UTF-8. Its line is 1.
    NotUtf8,
    /// The line has no form that a script has.
    UnknownLine,
    /// A word is missing.
    MissingWord,
    /// There is a word too many.
    ExtraWord,
    /// The word is no number of 64 bits.
    BadNumber,
    /// The number or the datum is beyond its limit.
    OutOfRange,
    /// The word names no actor.
    BadActor,
    /// The word names no node of the volume.
    BadNode,
    /// The word is no datum.
    BadDatum,
    /// The word is no operation of this actor.
    BadOperation,
    /// The volume stands after another line.
    LateVolume,
    /// The line or the operation is not for many threads.
    NotForRun,
}

/// Why a line was not read.
#[derive(Clone, Copy, Drop)]
pub enum LineError {
    NoMemory,
    Cause(ScriptCause),
}

impl From<AllocError> for LineError {
    ghost use Rattle.std.specs.Prelude.{◌≡◌};
    ghost use Rattle.rz_script_words.specs.declared.fault.LineError.TheVariants.{NoMemory};

    ghost from_gives = { λ _ e. e ≡ NoMemory };

    fn from(_error: AllocError) -> LineError {
        LineError::NoMemory
    }
}

impl From<ScriptCause> for LineError {
    ghost use Rattle.std.specs.Prelude.{◌≡◌};
    ghost use Rattle.rz_script_words.specs.declared.fault.LineError.TheVariants.{Cause};

    ghost from_gives = { λ cause e. e ≡ Cause cause };

    fn from(cause: ScriptCause) -> LineError {
        LineError::Cause(cause)
    }
}
