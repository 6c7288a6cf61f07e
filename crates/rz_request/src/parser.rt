//! The line as `clap` reads it.

ghost use Rattle.std.specs.Prelude.{◌≡◌, IfErr, IfOk, Some, false, map, string_bytes, true};
ghost use Rattle.clap.specs.Simple.{HasMatchesOf};
ghost use Rattle.clap.specs.Words.{app_of, kind_of, rule_of, takes, with_subcommand};
ghost use Rattle.clap.specs.declared.builder.command.Command.TheViews.{out-Command};
ghost use Rattle.rz_request.specs.Parser.{numbered, option, plain, rozo, short};

use clap::builder::ValueParser;
use clap::error::ErrorKind;
use clap::{Arg, ArgAction, ArgMatches, Command, Error};
use std::alloc::{AllocError, Global};

/// An argument whose values are of this kind.
fn with_values<'a>(arg: Arg<'a>, values: ValueParser<'a>) -> Arg<'a>
    ensures { result ≡ record arg.entry { value_parser = Some values.entry } }
{
    arg.value_parser(values)
}

/// An option of this name, what its value is called, and of which kind it is.
fn option<'a>(
    alloc: Global,
    name: &'a str,
    value: &'a str,
    values: ValueParser<'a>,
    is_required: bool,
) -> Arg<'a>
    ensures rule { rule_of result ≡ option name.entry.now values.entry is_required }
    ensures local { result.global ≡ false }
{
    let arg = Arg::new(alloc, name)
        .long(name)
        .value_name(value)
        .action(ArgAction::Set)
        .required(is_required);
    with_values(arg, values)
}

/// A command with the two options.
fn plain_command<'a>(alloc: Global, name: &'a str) -> Result<Command<'a>, AllocError>
    ensures app { IfOk result (λ c. app_of c ≡ plain name.entry.now) }
    ensures local { IfOk result (λ c. (out-Command c).has_globals ≡ false) }
{
    let disks = option(alloc, "disks", "N", ValueParser::Unsigned(1, 256), true);
    let command = Command::new(alloc, name).arg(disks)?;
    let folder = option(alloc, "dir", "FOLDER", ValueParser::NonEmptyString, false);
    command.arg(folder)
}

/// What the number of a command is called, and its range.
#[derive(Clone, Copy)]
struct Number<'a> {
    name: &'a str,
    low: u64,
    high: u64,
}

/// A command with the two options and a number.
fn numbered_command<'a>(
    alloc: Global,
    name: &'a str,
    number: Number<'a>,
) -> Result<Command<'a>, AllocError>
    ensures app { IfOk result (λ c. app_of c ≡ numbered name.entry.now number.entry.low number.entry.high) }
    ensures local { IfOk result (λ c. (out-Command c).has_globals ≡ false) }
{
    let command = plain_command(alloc, name)?;
    let Number {
        name: value,
        low,
        high,
    } = number;
    let number = Arg::new(alloc, "number")
        .value_name(value)
        .action(ArgAction::Set)
        .required(true);
    let number = with_values(number, ValueParser::Unsigned(low, high));
    command.arg(number)
}

/// A command with one more below it, which has the two options and this name.
fn with_plain<'a>(
    alloc: Global,
    above: Command<'a>,
    name: &'a str,
) -> Result<Command<'a>, AllocError>
    ensures { IfOk result (λ c. app_of c ≡ with_subcommand (app_of above.entry) (plain name.entry.now).top) }
{
    match plain_command(alloc, name) {
        Ok(command) => above.subcommand(command),
        Err(error) => {
            drop(above);
            Err(error)
        }
    }
}

/// A command with one more below it, which has a number too.
fn with_numbered<'a>(
    alloc: Global,
    above: Command<'a>,
    name: &'a str,
    number: Number<'a>,
) -> Result<Command<'a>, AllocError>
    ensures { IfOk result (λ c. app_of c ≡ with_subcommand (app_of above.entry) (numbered name.entry.now number.entry.low number.entry.high).top) }
{
    match numbered_command(alloc, name, number) {
        Ok(command) => above.subcommand(command),
        Err(error) => {
            drop(above);
            Err(error)
        }
    }
}

/// The program's commands without a number.
fn short_command<'a>(alloc: Global) -> Result<Command<'a>, AllocError>
    ensures { IfOk result (λ c. app_of c ≡ short) }
{
    let none = Command::new(alloc, "rozo")
        .subcommand_required(true)
        .bin_name("rozo")?;
    let one = with_plain(alloc, none, "replay")?;
    let two = with_plain(alloc, one, "run")?;
    let three = with_plain(alloc, two, "scrub")?;
    let four = with_plain(alloc, three, "first")?;
    with_plain(alloc, four, "again")
}

/// The whole command.
fn rozo_command<'a>(alloc: Global) -> Result<Command<'a>, AllocError>
    ensures { IfOk result (λ c. app_of c ≡ rozo) }
{
    let short = short_command(alloc)?;
    let seed = Number {
        name: "SEED",
        low: 0,
        high: u64::MAX,
    };
    let more = with_numbered(alloc, short, "load", seed)?;
    let sid = Number {
        name: "SID",
        low: 1,
        high: 65535,
    };
    with_numbered(alloc, more, "migrate", sid)
}

/// What `clap` reads of the words.
pub fn parse<'a>(alloc: Global, words: &'a [String]) -> Result<ArgMatches<'a>, Error>
    ensures ok { IfOk result (HasMatchesOf rozo (map string_bytes words.entry.now)) }
    ensures err { IfErr result (λ e. takes rozo (map string_bytes words.entry.now) ≡ true → kind_of e ≡ ErrorKind.OutOfMemory) }
{
    let command = rozo_command(alloc)?;
    command.try_get_matches_from(words)
}
