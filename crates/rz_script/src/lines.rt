//! The lines of a script, word by word.

ghost use Rattle.std.specs.Prelude.{◌≡◌};
ghost use Rattle.rz_script.specs.declared.keywords.Keyword.TheVariants as keys;
ghost use Rattle.rz_script_words.specs.Given.{Gives};
ghost use Rattle.rz_script_words.specs.Grammar.{words};
ghost use Rattle.rz_script.specs.Grammar.{way, op, turn, rounds, rest, on_node, break_node, miss, after_keyword, counted, line};
ghost use Rattle.rz_script.specs.Shared.{turned};

use crate::keywords::{Keyword, read_keyword};
use crate::{Form, Line, ScriptCause, Volume};
use rz_script_words::judges::{read_actor, read_node, read_number, read_number_in};
use rz_script_words::{LineError, Words, read_operands, read_verb};
use std::alloc::Global;

/// Whether the reply of a message is lost, or the request itself.
#[tactic(auto, unfolding(crate::specs::Grammar::way))]
fn read_way(word: &str) -> Result<bool, ScriptCause>
    ensures { result ≡ way word.now }
{
    match word {
        "request" => Ok(false),
        "reply" => Ok(true),
        _ => Err(ScriptCause::UnknownLine),
    }
}

/// An operation of an actor.
#[tactic(auto, unfolding(crate::specs::Grammar::op))]
fn read_op(alloc: Global, form: Form, volume: &Volume, words: &mut Words) -> Result<Line, LineError>
    ensures { Gives result (op form volume.now words.old) }
{
    let by = read_actor(words.next()?)?;
    let verb = read_verb(form, by, words.next()?)?;
    let op = read_operands(alloc, volume, verb, words)?;
    Ok(Line::Op { by, op })
}

#[tactic(auto, unfolding(crate::specs::Grammar::turn))]
fn read_turn(words: &mut Words) -> Result<Line, ScriptCause>
    ensures { result ≡ turn words.old }
{
    let by = read_actor(words.next()?)?;
    let k = read_number_in(words.next()?, 1, 1_000_000)? as u32;
    words.end()?;
    Ok(Line::Turn { by, k })
}

#[tactic(auto, unfolding(crate::specs::Grammar::rounds))]
fn read_rounds(words: &mut Words) -> Result<Line, ScriptCause>
    ensures { result ≡ rounds words.old }
{
    let k = read_number_in(words.next()?, 1, 1_000_000)? as u32;
    words.end()?;
    Ok(Line::Rounds { k })
}

#[tactic(auto, unfolding(crate::specs::Grammar::rest))]
fn read_rest(words: &mut Words) -> Result<Line, ScriptCause>
    ensures { result ≡ rest words.old }
{
    words.end()?;
    Ok(Line::Rest)
}

/// A node that stops, starts or loses its disk, by the keyword.
#[tactic(auto, unfolding(crate::specs::Grammar::on_node))]
fn read_on_node(volume: &Volume, keyword: Keyword, words: &mut Words) -> Result<Line, ScriptCause>
    ensures { result ≡ on_node volume.now (turned keyword) words.old }
{
    let node = read_node(volume, words.next()?)?;
    words.end()?;
    Ok(match keyword {
        Keyword::Start => Line::Start { node },
        Keyword::Lose => Line::Lose { node },
        _ => Line::Stop { node },
    })
}

#[tactic(auto, unfolding(crate::specs::Grammar::break_node))]
fn read_break(volume: &Volume, words: &mut Words) -> Result<Line, ScriptCause>
    ensures { result ≡ break_node volume.now words.old }
{
    let node = read_node(volume, words.next()?)?;
    let k = read_number_in(words.next()?, 0, 1_000_000)?;
    let pick = read_number(words.next()?)?;
    words.end()?;
    Ok(Line::Break { node, k, pick })
}

#[tactic(auto, unfolding(crate::specs::Grammar::miss))]
fn read_miss(words: &mut Words) -> Result<Line, ScriptCause>
    ensures { result ≡ miss words.old }
{
    let by = read_actor(words.next()?)?;
    let reply = read_way(words.next()?)?;
    words.end()?;
    Ok(Line::Miss { by, reply })
}

/// The words after the first word of a line that has no operation.
#[tactic(auto, unfolding(crate::specs::Grammar::after_keyword))]
fn read_other(volume: &Volume, keyword: Keyword, words: &mut Words) -> Result<Line, ScriptCause>
    requires { ¬ (keyword ≡ keys.Op) }
    ensures { (form : Form) → result ≡ after_keyword form volume.now keyword words.old }
{
    match keyword {
        Keyword::Volume => Err(ScriptCause::LateVolume),
        Keyword::Op => unreachable!(),
        Keyword::Turn => read_turn(words),
        Keyword::Rounds => read_rounds(words),
        Keyword::Rest => read_rest(words),
        Keyword::Stop | Keyword::Start | Keyword::Lose => read_on_node(volume, keyword, words),
        Keyword::Break => read_break(volume, words),
        Keyword::Miss => read_miss(words),
    }
}

/// A line that counts.
#[tactic(auto, unfolding(crate::specs::Grammar::counted, crate::specs::Grammar::after_keyword))]
fn read_counted(
    alloc: Global,
    form: Form,
    volume: &Volume,
    first: &str,
    words: &mut Words,
) -> Result<Line, LineError>
    ensures { Gives result (counted form volume.now first.now words.old) }
{
    match read_keyword(form, first)? {
        Keyword::Op => read_op(alloc, form, volume, words),
        keyword => Ok(read_other(volume, keyword, words)?),
    }
}

/// The line of a text, or nothing where it is passed over.
#[tactic(auto, unfolding(crate::specs::Grammar::line))]
pub fn read_line(
    alloc: Global,
    form: Form,
    volume: &Volume,
    text: &str,
) -> Result<Option<Line>, LineError>
    ensures { Gives result (line form volume.now (words text.now)) }
{
    let mut words = Words::of(text);
    let Ok(first) = words.next() else {
        return Ok(None);
    };
    if first.starts_with('#') {
        return Ok(None);
    }
    Ok(Some(read_counted(alloc, form, volume, first, &mut words)?))
}
