//! The names of the causes.

ghost use Rattle.std.specs.Prelude.{◌≡◌};
ghost use Rattle.rz_request.specs.Causes.{script_cause, volume_cause};

use rz_config::VolumeCause;
use rz_script::ScriptCause;

/// The cause of a line, in a word.
pub fn script_cause(cause: ScriptCause) -> &'static str
    ensures { result.now ≡ script_cause cause }
{
    match cause {
        ScriptCause::NotUtf8 => "NotUtf8",
        ScriptCause::UnknownLine => "UnknownLine",
        ScriptCause::MissingWord => "MissingWord",
        ScriptCause::ExtraWord => "ExtraWord",
        ScriptCause::BadNumber => "BadNumber",
        ScriptCause::OutOfRange => "OutOfRange",
        ScriptCause::BadActor => "BadActor",
        ScriptCause::BadNode => "BadNode",
        ScriptCause::BadDatum => "BadDatum",
        ScriptCause::BadOperation => "BadOperation",
        ScriptCause::LateVolume => "LateVolume",
        ScriptCause::NotForRun => "NotForRun",
    }
}

/// The cause of a volume, in a word.
pub fn volume_cause(cause: VolumeCause) -> &'static str
    ensures { result.now ≡ volume_cause cause }
{
    match cause {
        VolumeCause::NotJson => "NotJson",
        VolumeCause::NotObject => "NotObject",
        VolumeCause::UnknownKey => "UnknownKey",
        VolumeCause::Missing => "Missing",
        VolumeCause::NotNumber => "NotNumber",
        VolumeCause::OutOfRange => "OutOfRange",
        VolumeCause::NotList => "NotList",
        VolumeCause::Twice => "Twice",
        VolumeCause::TooFewNodes => "TooFewNodes",
        VolumeCause::TooMany => "TooMany",
    }
}
