//! What one word means.

ghost use Rattle.std.specs.Prelude.{◌≡◌, ◌≤◌, ◌<◌, ◌+◌, ◌^◌, ◌==◌, nat_le, IfOk};
ghost use Rattle.std.specs.List.{slice_split};
ghost use Rattle.hex.specs.Hex.{decode_of};
ghost use Rattle.rz_config.specs.Described.{has_sid};
ghost use Rattle.rz_script_words.specs.Given.{Gives};
ghost use Rattle.rz_script_words.specs.Grammar.{number, number_in, actor, node, datum, at_most, made, hex, datum_from, length_from};
ghost use Rattle.rz_script_words.specs.Limits.{has_node, datum_length};

use crate::fault::{LineError, ScriptCause};
use crate::words::cut;
use rz_config::Volume;
use rz_events::{Actor, Datum, NodeSpec, Text};
use std::alloc::Global;

/// The most bytes of a range.
const MOST_BYTES: u64 = 134_217_728;

/// The end of the last range.
const LAST_BYTE: u64 = 4_294_967_296;

/// Decimal digits, at most a `u64`.
#[tactic(auto, unfolding(crate::specs::Grammar::number))]
pub fn read_number(word: &str) -> Result<u64, ScriptCause>
    ensures { result ≡ number word.now }
{
    crate::spelling::read_number(word).ok_or(ScriptCause::BadNumber)
}

/// A number from `low` to `high`.
#[tactic(auto, unfolding(crate::specs::Grammar::number_in))]
pub fn read_number_in(word: &str, low: u64, high: u64) -> Result<u64, ScriptCause>
    ensures value { result ≡ number_in low high word.now }
    ensures low { IfOk result (λ n. low ≤ n) }
    ensures high { IfOk result (λ n. n ≤ high) }
{
    let n = read_number(word)?;
    if n < low || high < n {
        return Err(ScriptCause::OutOfRange);
    }
    Ok(n)
}

/// A client or a rebuilder.
#[tactic(auto, unfolding(crate::specs::Grammar::actor))]
pub fn read_actor(word: &str) -> Result<Actor, ScriptCause>
    ensures { result ≡ actor word.now }
{
    if let Some(digits) = word.strip_prefix('c') {
        return match read_number_in(digits, 1, 64) {
            Ok(n) => Ok(Actor::Client(n as u8)),
            Err(_) => Err(ScriptCause::BadActor),
        };
    }
    if let Some(digits) = word.strip_prefix('r') {
        return match read_number_in(digits, 1, 16) {
            Ok(n) => Ok(Actor::Rebuilder(n as u8)),
            Err(_) => Err(ScriptCause::BadActor),
        };
    }
    Err(ScriptCause::BadActor)
}

/// Whether one of these nodes has this number.
fn is_among(nodes: &[NodeSpec], sid: u16) -> bool
    ensures { result ≡ has_sid sid nodes.now }
{
    nodes.iter().any(|n| n.sid == sid)
}

/// Whether a node of the volume has this number.
fn has_node(volume: &Volume, sid: u16) -> bool
    ensures { result ≡ has_node volume.now sid }
{
    let clusters = volume.clusters.as_slice();
    clusters.iter().any(|c| is_among(c.nodes.as_slice(), sid))
}

/// A node of the volume.
#[tactic(auto, unfolding(crate::specs::Grammar::node))]
pub fn read_node(volume: &Volume, word: &str) -> Result<u16, ScriptCause>
    ensures { result ≡ node volume.now word.now }
{
    let Some(digits) = word.strip_prefix('n') else {
        return Err(ScriptCause::BadNode);
    };
    match read_number_in(digits, 1, 65535) {
        Ok(sid) if has_node(volume, sid as u16) => Ok(sid as u16),
        _ => Err(ScriptCause::BadNode),
    }
}

/// The length and the seed of bytes that are made.
fn read_made(limit: u64, parts: &str) -> Result<Datum, ScriptCause>
    requires { limit < 2 ^ 32 }
    ensures { result ≡ made limit (slice_split (λ b. b == 58) parts.now) }
{
    let Some((length, seed)) = cut(parts, ':') else {
        return Err(ScriptCause::BadDatum);
    };
    if let Some(_) = cut(seed, ':') {
        return Err(ScriptCause::BadDatum);
    }
    let length = read_number_in(length, 0, limit)? as u32;
    let seed = read_number_in(seed, 0, 255)? as u8;
    Ok(Datum::Made { length, seed })
}

/// The bytes of a text.
fn read_bytes(alloc: Global, limit: u64, bytes: &[u8]) -> Result<Datum, LineError>
    ensures { Gives result (at_most limit bytes.now) }
{
    if limit < bytes.len() as u64 {
        return Err(LineError::Cause(ScriptCause::OutOfRange));
    }
    Ok(Datum::Bytes(Text::from_bytes(alloc, bytes)?))
}

/// The bytes of pairs of hexadecimal digits.
fn read_hex(alloc: Global, limit: u64, digits: &str) -> Result<Datum, LineError>
    ensures { Gives result (hex limit (decode_of digits.now)) }
{
    match hex::decode(alloc, digits) {
        Ok(bytes) => {
            if limit < bytes.len() as u64 {
                return Err(LineError::Cause(ScriptCause::OutOfRange));
            }
            Ok(Datum::Bytes(Text::from_vec(bytes)))
        }
        Err(hex::FromHexError::OutOfMemory) => Err(LineError::NoMemory),
        Err(_) => Err(LineError::Cause(ScriptCause::BadDatum)),
    }
}

/// A datum of at most `limit` bytes.
#[tactic(auto, unfolding(crate::specs::Grammar::datum))]
pub(crate) fn read_datum(alloc: Global, limit: u64, word: &str) -> Result<Datum, LineError>
    requires { limit < 2 ^ 32 }
    ensures { Gives result (datum limit word.now) }
{
    if let Some(text) = word.strip_prefix("t:") {
        return read_bytes(alloc, limit, text.as_bytes());
    }
    if let Some(digits) = word.strip_prefix("x:") {
        return read_hex(alloc, limit, digits);
    }
    if let Some(parts) = word.strip_prefix("g:") {
        return Ok(read_made(limit, parts)?);
    }
    Err(LineError::Cause(ScriptCause::BadDatum))
}

/// How many bytes a datum has.
pub fn datum_length(datum: &Datum) -> u64
    ensures { result ≡ datum_length datum.now }
{
    match datum {
        Datum::Bytes(text) => text.bytes().len() as u64,
        Datum::Made { length, .. } => u64::from(*length),
    }
}

/// Whether so many bytes from an offset on end within the last range.
fn ends_within(offset: u64, length: u64) -> bool
    ensures { result ≡ nat_le (offset + length) 4294967296 }
{
    length <= LAST_BYTE && offset <= LAST_BYTE - length
}

/// A datum of bytes from an offset on.
#[tactic(auto, unfolding(crate::specs::Grammar::datum_from))]
pub(crate) fn read_datum_from(alloc: Global, offset: u64, word: &str) -> Result<Datum, LineError>
    ensures { Gives result (datum_from offset word.now) }
{
    let datum = read_datum(alloc, MOST_BYTES, word)?;
    if ends_within(offset, datum_length(&datum)) {
        Ok(datum)
    } else {
        Err(LineError::Cause(ScriptCause::OutOfRange))
    }
}

/// A number of bytes from an offset on.
#[tactic(auto, unfolding(crate::specs::Grammar::length_from))]
pub(crate) fn read_length_from(offset: u64, word: &str) -> Result<u64, ScriptCause>
    ensures { result ≡ length_from offset word.now }
{
    let length = read_number_in(word, 0, MOST_BYTES)?;
    if ends_within(offset, length) {
        Ok(length)
    } else {
        Err(ScriptCause::OutOfRange)
    }
}
