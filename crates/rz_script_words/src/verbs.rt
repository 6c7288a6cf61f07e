//! The first words of operations.

ghost use Rattle.std.specs.Prelude.{◌≡◌};
ghost use Rattle.rz_script_words.specs.Grammar.{path_verb_named, pair_verb_named, other_verb_named, verb_named, judged, verb, path_call, pair_call};

use crate::fault::ScriptCause;
use crate::form::Form;
use rz_events::{Actor, Text, TreeCall};

/// The calls on the tree with one path.
#[derive(Clone, Copy, Drop)]
pub enum PathVerb {
    Lookup,
    Getattr,
    Rmdir,
    Mkdir,
    Create,
    Unlink,
    Readlink,
    Readdir,
}

/// The calls on the tree with two words.
#[derive(Clone, Copy, Drop)]
pub enum PairVerb {
    Rename,
    Link,
    Symlink,
}

/// What an operation does.
#[derive(Clone, Copy, Drop)]
pub enum Verb {
    OnPath(PathVerb),
    OnPair(PairVerb),
    Setattr,
    Put,
    Get,
    Write,
    Read,
    Rebuild,
    Update,
    View,
}

/// The call on one path that a word names.
#[tactic(auto, unfolding(crate::specs::Grammar::path_verb_named))]
fn path_verb_named(word: &str) -> Option<PathVerb>
    ensures { result ≡ path_verb_named word.now }
{
    Some(match word {
        "mkdir" => PathVerb::Mkdir,
        "rmdir" => PathVerb::Rmdir,
        "create" => PathVerb::Create,
        "unlink" => PathVerb::Unlink,
        "readlink" => PathVerb::Readlink,
        "readdir" => PathVerb::Readdir,
        "lookup" => PathVerb::Lookup,
        "getattr" => PathVerb::Getattr,
        _ => return None,
    })
}

/// The call on two words that a word names.
#[tactic(auto, unfolding(crate::specs::Grammar::pair_verb_named))]
fn pair_verb_named(word: &str) -> Option<PairVerb>
    ensures { result ≡ pair_verb_named word.now }
{
    Some(match word {
        "rename" => PairVerb::Rename,
        "link" => PairVerb::Link,
        "symlink" => PairVerb::Symlink,
        _ => return None,
    })
}

/// Any other operation that a word names.
#[tactic(auto, unfolding(crate::specs::Grammar::other_verb_named))]
fn other_verb_named(word: &str) -> Option<Verb>
    ensures { result ≡ other_verb_named word.now }
{
    Some(match word {
        "setattr" => Verb::Setattr,
        "put" => Verb::Put,
        "get" => Verb::Get,
        "write" => Verb::Write,
        "read" => Verb::Read,
        "update" => Verb::Update,
        "view" => Verb::View,
        "rebuild" => Verb::Rebuild,
        _ => return None,
    })
}

/// The operation that a word names.
#[tactic(auto, unfolding(crate::specs::Grammar::verb_named))]
fn verb_named(word: &str) -> Option<Verb>
    ensures { result ≡ verb_named word.now }
{
    if let Some(verb) = path_verb_named(word) {
        return Some(Verb::OnPath(verb));
    }
    if let Some(verb) = pair_verb_named(word) {
        return Some(Verb::OnPair(verb));
    }
    other_verb_named(word)
}

/// The verb, where an actor may do it under a form of reading.
fn judge_verb(form: Form, by: Actor, verb: Verb) -> Result<Verb, ScriptCause>
    ensures { result ≡ judged form by verb }
{
    match (by, verb) {
        (Actor::Rebuilder(_), Verb::Rebuild) => Ok(verb),
        (Actor::Rebuilder(_), _) => Err(ScriptCause::BadOperation),
        (Actor::Admin, _) => Err(ScriptCause::BadOperation),
        (Actor::Client(_), Verb::Rebuild) => Err(ScriptCause::BadOperation),
        (Actor::Client(_), Verb::Update | Verb::View) => match form {
            Form::Run => Err(ScriptCause::NotForRun),
            Form::Replay | Form::Migrate => Ok(verb),
        },
        (Actor::Client(_), _) => Ok(verb),
    }
}

/// What the first word of an operation says.
#[tactic(auto, unfolding(crate::specs::Grammar::verb))]
pub fn read_verb(form: Form, by: Actor, word: &str) -> Result<Verb, ScriptCause>
    ensures { result ≡ verb form by word.now }
{
    match verb_named(word) {
        Some(verb) => judge_verb(form, by, verb),
        None => Err(ScriptCause::BadOperation),
    }
}

/// The call of a verb on one path.
pub fn path_call(verb: PathVerb, path: Text) -> TreeCall
    ensures { result ≡ path_call verb path }
{
    match verb {
        PathVerb::Lookup => TreeCall::Lookup { path },
        PathVerb::Getattr => TreeCall::Getattr { path },
        PathVerb::Rmdir => TreeCall::Rmdir { path },
        PathVerb::Mkdir => TreeCall::Mkdir { path },
        PathVerb::Create => TreeCall::Create { path },
        PathVerb::Unlink => TreeCall::Unlink { path },
        PathVerb::Readlink => TreeCall::Readlink { path },
        PathVerb::Readdir => TreeCall::Readdir { path },
    }
}

/// The call of a verb on two words.
pub fn pair_call(verb: PairVerb, first: Text, second: Text) -> TreeCall
    ensures { result ≡ pair_call verb first second }
{
    match verb {
        PairVerb::Rename => TreeCall::Rename {
            path: first,
            to: second,
        },
        PairVerb::Link => TreeCall::Link {
            path: first,
            to: second,
        },
        PairVerb::Symlink => TreeCall::Symlink {
            target: first,
            path: second,
        },
    }
}
