//! The first words of lines.

ghost use Rattle.std.specs.Prelude.{◌≡◌};
ghost use Rattle.rz_script.specs.Grammar.{keyword_named, standing, keyword};

use crate::{Form, ScriptCause};

/// What a line is.
#[derive(Clone, Copy, Drop)]
pub enum Keyword {
    Volume,
    Op,
    Turn,
    Rounds,
    Rest,
    Stop,
    Start,
    Lose,
    Break,
    Miss,
}

/// The line that a word begins.
#[tactic(auto, unfolding(crate::specs::Grammar::keyword_named))]
fn keyword_named(word: &str) -> Option<Keyword>
    ensures { result ≡ keyword_named word.now }
{
    Some(match word {
        "volume" => Keyword::Volume,
        "op" => Keyword::Op,
        "turn" => Keyword::Turn,
        "rounds" => Keyword::Rounds,
        "rest" => Keyword::Rest,
        "stop" => Keyword::Stop,
        "start" => Keyword::Start,
        "lose" => Keyword::Lose,
        "break" => Keyword::Break,
        "miss" => Keyword::Miss,
        _ => return None,
    })
}

/// The keyword, where its line may stand after the volume's under a form of reading.
fn judge_keyword(form: Form, keyword: Keyword) -> Result<Keyword, ScriptCause>
    ensures { result ≡ standing form keyword }
{
    match (form, keyword) {
        (_, Keyword::Volume) => Err(ScriptCause::LateVolume),
        (Form::Migrate, _) => Err(ScriptCause::UnknownLine),
        (Form::Run, Keyword::Turn | Keyword::Rounds | Keyword::Rest | Keyword::Miss) => {
            Err(ScriptCause::NotForRun)
        }
        _ => Ok(keyword),
    }
}

/// What the first word of a line says.
#[tactic(auto, unfolding(crate::specs::Grammar::keyword))]
pub fn read_keyword(form: Form, word: &str) -> Result<Keyword, ScriptCause>
    ensures { result ≡ keyword form word.now }
{
    match keyword_named(word) {
        Some(keyword) => judge_keyword(form, keyword),
        None => Err(ScriptCause::UnknownLine),
    }
}
