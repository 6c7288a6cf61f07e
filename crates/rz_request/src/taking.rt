//! What `clap` takes of a line.

ghost use Rattle.std.specs.Prelude.{◌≡◌, true};
ghost use Rattle.rz_request.specs.Line.{seen};

use crate::Command;
use crate::line::CommandLine;
use crate::numbers::read_number_in;
use clap::ArgMatches;

/// The command of this name, with the number behind it.
fn command_of(name: &str, number: Option<&str>) -> Option<Command> {
    match name {
        "replay" => Some(Command::Replay),
        "run" => Some(Command::Run),
        "load" => {
            let seed = read_number_in(number?, 0, u64::MAX)?;
            Some(Command::Load { seed })
        }
        "migrate" => {
            let sid = read_number_in(number?, 1, 65535)? as u16;
            Some(Command::Migrate { sid })
        }
        "scrub" => Some(Command::Scrub),
        "first" => Some(Command::First),
        "again" => Some(Command::Again),
        _ => None,
    }
}

/// The command, the disks and the folder of what was taken.
pub fn taken<'a>(matches: &ArgMatches<'a>) -> Option<CommandLine<'a>> {
    let (name, inner) = matches.subcommand()?;
    let command = command_of(name, inner.get_str("number"))?;
    let disks = read_number_in(inner.get_str("disks")?, 1, 256)? as u16;
    let folder = inner.get_str("dir");
    Some(CommandLine {
        command,
        disks,
        folder,
    })
}

/// Whether two lines say the same.
pub fn is_same(a: &CommandLine, b: &CommandLine) -> bool
    ensures { result ≡ true → seen a.now ≡ seen b.now }
{
    a.command == b.command && a.disks == b.disks && a.folder == b.folder
}
