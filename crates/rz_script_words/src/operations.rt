//! The operations of actors, word by word, after their first word.

ghost use Rattle.std.specs.Prelude.{◌≡◌};
ghost use Rattle.rz_script_words.specs.Given.{Gives};
ghost use Rattle.rz_script_words.specs.Grammar.{on_path, on_pair, setattr, put, get, bytes_at, range_at, rebuild, operands};
ghost use Rattle.rz_script_words.specs.Left.{left};
ghost use Rattle.rz_script_words.specs.Shared.{written, wanted};

use crate::fault::{LineError, ScriptCause};
use crate::judges::{
    read_datum, read_datum_from, read_length_from, read_node, read_number, read_number_in,
};
use crate::verbs::{PairVerb, PathVerb, Verb, pair_call, path_call};
use crate::words::Words;
use rz_config::Volume;
use rz_events::{Operation, Text, TreeCall};
use std::alloc::Global;

/// A call on one path.
#[tactic(auto, unfolding(crate::specs::Grammar::on_path))]
fn read_on_path(alloc: Global, verb: PathVerb, words: &mut Words) -> Result<Operation, LineError>
    ensures operation { Gives result (on_path verb words.old) }
    ensures left { words.new ≡ left (on_path verb) words.old }
{
    let path = words.next()?;
    words.end()?;
    let path = Text::from_bytes(alloc, path.as_bytes())?;
    Ok(Operation::Tree(path_call(verb, path)))
}

/// A call on two words.
#[tactic(auto, unfolding(crate::specs::Grammar::on_pair))]
fn read_on_pair(alloc: Global, verb: PairVerb, words: &mut Words) -> Result<Operation, LineError>
    ensures operation { Gives result (on_pair verb words.old) }
    ensures left { words.new ≡ left (on_pair verb) words.old }
{
    let first = words.next()?;
    let second = words.next()?;
    words.end()?;
    let first = Text::from_bytes(alloc, first.as_bytes())?;
    let second = Text::from_bytes(alloc, second.as_bytes())?;
    Ok(Operation::Tree(pair_call(verb, first, second)))
}

#[tactic(auto, using(crate::proofs::Left::setattr_mode, crate::proofs::Left::setattr_mtime), unfolding(crate::specs::Grammar::setattr))]
fn read_setattr(alloc: Global, words: &mut Words) -> Result<Operation, LineError>
    ensures operation { Gives result (setattr words.old) }
    ensures left { words.new ≡ left setattr words.old }
{
    let path = words.next()?;
    let mode = read_number_in(words.next()?, 0, 4095)? as u16;
    let mtime = read_number(words.next()?)?;
    words.end()?;
    let path = Text::from_bytes(alloc, path.as_bytes())?;
    Ok(Operation::Tree(TreeCall::Setattr { path, mode, mtime }))
}

#[tactic(auto, unfolding(crate::specs::Grammar::put))]
fn read_put(alloc: Global, volume: &Volume, words: &mut Words) -> Result<Operation, LineError>
    ensures operation { Gives result (put volume.now words.old) }
    ensures left { words.new ≡ left (put volume.now) words.old }
{
    let path = words.next()?;
    let block = read_number(words.next()?)?;
    let limit = volume.layout.block_bytes() as u64;
    let datum = read_datum(alloc, limit, words.next()?)?;
    words.end()?;
    let path = Text::from_bytes(alloc, path.as_bytes())?;
    Ok(Operation::Put { path, block, datum })
}

#[tactic(auto, using(crate::proofs::Left::get_block), unfolding(crate::specs::Grammar::get))]
fn read_get(alloc: Global, words: &mut Words) -> Result<Operation, LineError>
    ensures operation { Gives result (get words.old) }
    ensures left { words.new ≡ left get words.old }
{
    let path = words.next()?;
    let block = read_number(words.next()?)?;
    words.end()?;
    let path = Text::from_bytes(alloc, path.as_bytes())?;
    Ok(Operation::Get { path, block })
}

/// A datum that is written from an offset on. An update locks its range.
#[tactic(auto, unfolding(crate::specs::Grammar::bytes_at))]
fn read_write(alloc: Global, locks: bool, words: &mut Words) -> Result<Operation, LineError>
    ensures operation { Gives result (bytes_at (written locks) words.old) }
    ensures left { words.new ≡ left (bytes_at (written locks)) words.old }
{
    let path = words.next()?;
    let offset = read_number(words.next()?)?;
    let datum = read_datum_from(alloc, offset, words.next()?)?;
    words.end()?;
    let path = Text::from_bytes(alloc, path.as_bytes())?;
    Ok(if locks {
        Operation::Update {
            path,
            offset,
            datum,
        }
    } else {
        Operation::Write {
            path,
            offset,
            datum,
        }
    })
}

/// Bytes that are read from an offset on. A view locks its range.
#[tactic(auto, unfolding(crate::specs::Grammar::range_at))]
fn read_read(alloc: Global, locks: bool, words: &mut Words) -> Result<Operation, LineError>
    ensures operation { Gives result (range_at (wanted locks) words.old) }
    ensures left { words.new ≡ left (range_at (wanted locks)) words.old }
{
    let path = words.next()?;
    let offset = read_number(words.next()?)?;
    let length = read_length_from(offset, words.next()?)?;
    words.end()?;
    let path = Text::from_bytes(alloc, path.as_bytes())?;
    Ok(if locks {
        Operation::View {
            path,
            offset,
            length,
        }
    } else {
        Operation::Read {
            path,
            offset,
            length,
        }
    })
}

#[tactic(auto, using(crate::proofs::Left::rebuild_node), unfolding(crate::specs::Grammar::rebuild))]
fn read_rebuild(volume: &Volume, words: &mut Words) -> Result<Operation, ScriptCause>
    ensures operation { result ≡ rebuild volume.now words.old }
    ensures left { words.new ≡ left (rebuild volume.now) words.old }
{
    let node = read_node(volume, words.next()?)?;
    words.end()?;
    Ok(Operation::Rebuild { node })
}

/// The words after the first word of an operation. It takes words up to the first that is refused, and
/// leaves the others.
#[tactic(auto, unfolding(crate::specs::Grammar::operands))]
pub fn read_operands(
    alloc: Global,
    volume: &Volume,
    verb: Verb,
    words: &mut Words,
) -> Result<Operation, LineError>
    ensures operation { Gives result (operands volume.now verb words.old) }
    ensures left { words.new ≡ left (operands volume.now verb) words.old }
{
    match verb {
        Verb::OnPath(verb) => read_on_path(alloc, verb, words),
        Verb::OnPair(verb) => read_on_pair(alloc, verb, words),
        Verb::Setattr => read_setattr(alloc, words),
        Verb::Put => read_put(alloc, volume, words),
        Verb::Get => read_get(alloc, words),
        Verb::Write => read_write(alloc, false, words),
        Verb::Read => read_read(alloc, false, words),
        Verb::Update => read_write(alloc, true, words),
        Verb::View => read_read(alloc, true, words),
        Verb::Rebuild => Ok(read_rebuild(volume, words)?),
    }
}
