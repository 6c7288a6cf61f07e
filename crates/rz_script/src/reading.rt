//! The reading of a whole script.

ghost use Rattle.std.specs.Prelude.{◌≡◌, ◌≤◌, ◌<◌, ◌+◌, ◌^◌, [], length};
ghost use Rattle.rz_script.specs.declared.fault.ScriptError.TheVariants as errors;
ghost use Rattle.rz_config.specs.Plain.{plain_volume};
ghost use Rattle.rz_script.specs.Given.{AddsLine, GivesScript, script_of};
ghost use Rattle.rz_script_words.specs.Grammar.{words, after_word};
ghost use Rattle.rz_script.specs.Grammar.{lines, line, lines_from, with_lines, given, head, headed, script};

use crate::lines::read_line;
use crate::{Form, Line, Script, ScriptCause, ScriptError, Volume};
use rz_config::VolumeError;
use rz_script_words::{LineError, Words, cut, rest_of};
use std::alloc::Global;

/// What a line is to the head of a script.
#[derive(Clone, Copy, Drop)]
pub enum LineRole {
    /// It has no word, or is a comment.
    Passed,
    /// It gives the volume.
    Volume,
    /// It is any other line.
    Other,
}

/// Adds the line of a text, where it has one.
fn push_line(
    alloc: Global,
    form: Form,
    volume: &Volume,
    found: &mut Vec<Line>,
    number: u64,
    text: &str,
) -> Result<(), ScriptError>
    requires { number + length text.now ≤ 2 ^ 32 }
    ensures { AddsLine found.old.items found.new.items number (line form volume.now (words text.now)) result }
{
    if text.is_empty() {
        return Ok(());
    }
    found.reserve(1)?;
    match read_line(alloc, form, volume, text) {
        Ok(None) => Ok(()),
        Ok(Some(line)) => {
            found.push_reserved(line);
            Ok(())
        }
        Err(LineError::NoMemory) => Err(ScriptError::NoMemory),
        Err(LineError::Cause(cause)) => Err(ScriptError::Script {
            line: number as u32,
            cause,
        }),
    }
}

/// Finds the lines of a text, of which the first has the number `first`.
fn read_lines_from(
    alloc: Global,
    form: Form,
    volume: &Volume,
    first: u64,
    text: &str,
    found: &mut Vec<Line>,
) -> Result<(), ScriptError>
    requires few { first + length text.now ≤ 2 ^ 32 }
    requires empty { found.old.items ≡ [] }
    ensures { GivesScript (λ _. found.new.items) result (lines_from form volume.now first (lines text.now)) }
{
    let mut rest = text;
    let mut number = first;
    while let Some((line, after)) = cut(rest, '\n') {
        push_line(alloc, form, volume, found, number, line)?;
        rest = after;
        number += 1;
    }
    push_line(alloc, form, volume, found, number, rest)
}

/// A volume with the lines of a text.
fn with_lines(
    alloc: Global,
    form: Form,
    volume: Volume,
    number: u64,
    rest: &str,
) -> Result<(Volume, Vec<Line>), ScriptError>
    requires { number + length rest.now ≤ 2 ^ 32 }
    ensures { GivesScript script_of result (with_lines volume (lines_from form volume number (lines rest.now))) }
{
    let mut found = Vec::new(alloc);
    match read_lines_from(alloc, form, &volume, number, rest, &mut found) {
        Ok(()) => Ok((volume, found)),
        Err(error) => {
            drop(found);
            drop(volume);
            Err(error)
        }
    }
}

/// The volume of a volume line, with the lines after it.
#[tactic(auto, unfolding(crate::specs::Grammar::given))]
fn with_volume(
    alloc: Global,
    form: Form,
    number: u64,
    line: &str,
    rest: &str,
) -> Result<(Volume, Vec<Line>), ScriptError>
    requires { number + 1 + length rest.now ≤ 2 ^ 32 }
    ensures { GivesScript script_of result (given number (after_word line.now) (λ v. lines_from form v (number + 1) (lines rest.now))) }
{
    let json = rest_of(line);
    if let Err(_) = Words::of(json).next() {
        return Err(ScriptError::Script {
            line: number as u32,
            cause: ScriptCause::MissingWord,
        });
    }
    match Volume::read(alloc, json) {
        Ok(volume) => with_lines(alloc, form, volume, number + 1, rest),
        Err(VolumeError::NoMemory) => Err(ScriptError::NoMemory),
        Err(VolumeError::Refused(fault)) => Err(ScriptError::Volume(fault)),
    }
}

/// The plain volume with the lines of a text.
fn with_plain_volume(
    alloc: Global,
    form: Form,
    number: u64,
    rest: &str,
) -> Result<(Volume, Vec<Line>), ScriptError>
    requires { number + length rest.now ≤ 2 ^ 32 }
    ensures { GivesScript script_of result (with_lines plain_volume (lines_from form plain_volume number (lines rest.now))) }
{
    let volume = Volume::plain(alloc)?;
    with_lines(alloc, form, volume, number, rest)
}

/// What a line is to the head.
#[tactic(auto, unfolding(crate::specs::Grammar::head))]
fn head_of(text: &str) -> LineRole
    ensures { result ≡ head (words text.now) }
{
    match Words::of(text).next() {
        Err(_) => LineRole::Passed,
        Ok(first) if first.starts_with('#') => LineRole::Passed,
        Ok("volume") => LineRole::Volume,
        Ok(_) => LineRole::Other,
    }
}

/// The volume and the lines of a text that is UTF-8.
fn read_headed(alloc: Global, form: Form, text: &str) -> Result<(Volume, Vec<Line>), ScriptError>
    requires { length text.now < 2 ^ 32 }
    ensures { GivesScript script_of result (headed form 1 (lines text.now)) }
{
    let mut rest = text;
    let mut number: u64 = 1;
    while let Some((line, after)) = cut(rest, '\n') {
        match head_of(line) {
            LineRole::Passed => {}
            LineRole::Volume => return with_volume(alloc, form, number, line, after),
            LineRole::Other => return with_plain_volume(alloc, form, number, rest),
        }
        rest = after;
        number += 1;
    }
    match head_of(rest) {
        LineRole::Passed => with_plain_volume(alloc, form, number, ""),
        LineRole::Volume => with_volume(alloc, form, number, rest, ""),
        LineRole::Other => with_plain_volume(alloc, form, number, rest),
    }
}

/// The script of a text that is UTF-8.
fn read_text(alloc: Global, form: Form, text: &str) -> Result<Script, ScriptError>
    requires { length text.now < 2 ^ 32 }
    ensures { GivesScript (λ s. s) result (headed form 1 (lines text.now)) }
{
    let (volume, lines) = read_headed(alloc, form, text)?;
    Ok(Script::of(volume, lines))
}

impl Script {
    /// The script that a text means, or its first fault. Blank lines and comments are passed over.
    #[tactic(auto, unfolding(crate::specs::Grammar::script))]
    pub fn read(alloc: Global, bytes: &[u8], form: Form) -> Result<Script, ScriptError>
        requires { length bytes.now < 2 ^ 32 }
        ensures { GivesScript (λ s. s) result (script form bytes.now) }
    {
        match std::str::from_utf8(bytes) {
            Ok(text) => read_text(alloc, form, text),
            Err(_) => Err(ScriptError::Script {
                line: 1,
                cause: ScriptCause::NotUtf8,
            }),
        }
    }
}
