//! The words of a line.

ghost use Rattle.std.specs.Prelude.{◌≡◌, ◌<◌, ◌+◌, ◌==◌, List, [], ◌∷◌, ◌++◌, length, drop, IfSome, MatchOption, MatchResult};
ghost use Rattle.std.specs.List.{slice_split, after_first};
ghost use Rattle.rz_script_words.specs.declared.fault.ScriptCause.TheVariants.{MissingWord};
ghost use Rattle.rz_script_words.specs.Grammar.{words, after_word, done};

use crate::ScriptCause;
use std::marker::Model;

/// The words of a line that are still to be read.
#[derive(Drop)]
pub struct Words<'a> {
    rest: &'a str,
}

impl<'a> Model for Words<'a> {
    ghost use Rattle.std.specs.Prelude.{List};
    ghost use Rattle.rz_script_words.specs.Words.{Word};
    ghost use Rattle.rz_script_words.specs.Grammar.{words};

    ghost Value = { List Word };

    ghost view = { λ w. words w.rest.now };
}

impl<'a> Words<'a> {
    /// All words of a line.
    pub fn of(line: &'a str) -> Words<'a>
        ensures { result ≡ words line.now }
    {
        Words { rest: line }
    }

    /// Takes the next word. Where none is left, a word is missing.
    pub fn next(&mut self) -> Result<&'a str, ScriptCause>
        ensures word { MatchResult result (λ w. self.old ≡ w.now ∷ self.new) (λ e. (self.old ≡ []) × (e ≡ MissingWord)) }
        ensures left { self.new ≡ drop 1 self.old }
    {
        match split_word(self.rest) {
            Some((word, rest)) => {
                self.rest = rest;
                Ok(word)
            }
            None => Err(ScriptCause::MissingWord),
        }
    }

    /// No word may be left.
    pub fn end(&self) -> Result<(), ScriptCause>
        ensures { result ≡ done tt self.now }
    {
        match split_word(self.rest) {
            Some(_) => Err(ScriptCause::ExtraWord),
            None => Ok(()),
        }
    }
}

/// The first piece before a byte, and what stands after that byte.
pub fn cut(text: &str, at: char) -> Option<(&str, &str)>
    requires { at < 128 }
    ensures pieces { MatchOption result (slice_split (λ b. b == at) text.now ≡ text.now ∷ [])
        (λ p. slice_split (λ b. b == at) text.now ≡ p.0.now ∷ slice_split (λ b. b == at) p.1.now) }
    ensures parts { MatchOption result (after_first (λ b. b == at) text.now ≡ []) (λ p. (text.now ≡ p.0.now ++ at ∷ p.1.now) × (p.1.now ≡ after_first (λ b. b == at) text.now)) }
    ensures shorter { IfSome result (λ p. length p.0.now + length p.1.now < length text.now) }
{
    text.split_once(at)
}

/// The first word, and what stands after it.
fn split_word(line: &str) -> Option<(&str, &str)>
    ensures word { MatchOption result (words line.now ≡ []) (λ p. words line.now ≡ p.0.now ∷ words p.1.now) }
    ensures after { MatchOption result (after_word line.now ≡ []) (λ p. p.1.now ≡ after_word line.now) }
{
    let mut rest = line;
    while let Some((word, after)) = cut(rest, ' ') {
        if !word.is_empty() {
            return Some((word, after));
        }
        rest = after;
    }
    if rest.is_empty() {
        None
    } else {
        Some((rest, ""))
    }
}

/// What stands after the first word of a line.
pub fn rest_of(line: &str) -> &str
    ensures { result.now ≡ after_word line.now }
{
    match split_word(line) {
        Some((_, rest)) => rest,
        None => "",
    }
}
