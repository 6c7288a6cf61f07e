//! What a line states.

ghost use Rattle.std.specs.Prelude.{◌≡◌, ◌≤◌, IfSome, map, option_map, string_bytes};
ghost use Rattle.rz_request.specs.Items.{items, values};
ghost use Rattle.rz_request.specs.Line.{alone, command_of, disks_of, folder_of, is_path as may_be_path, meaning, number_stated, seen};
ghost use Rattle.rz_request.specs.declared.items.ItemKind.TheVariants as kinds;

use crate::Command;
use crate::items::{ItemKind, stated};
use crate::numbers::read_number_in;

/// A line that has the form.
#[derive(Clone, Copy)]
pub struct CommandLine<'a> {
    pub command: Command,
    pub disks: u16,
    pub folder: Option<&'a str>,
}

/// The number of disks.
fn read_disks(words: &[String]) -> Option<u16>
    ensures { result ≡ disks_of (values kinds.Disks (items (map string_bytes words.now))) }
{
    match stated(words, ItemKind::Disks) {
        Some(Some(word)) => match read_number_in(word, 1, 256) {
            Some(n) => Some(n as u16),
            None => None,
        },
        Some(None) => None,
        None => None,
    }
}

/// Whether a text may be the path of a folder: it is not empty, and begins with no hyphen.
fn is_path(text: &str) -> bool
    ensures { result ≡ may_be_path text.now }
{
    match text.as_bytes().split_first() {
        Some((first, _)) => *first != b'-',
        None => false,
    }
}

/// The folder, if there is one.
fn read_folder(words: &[String]) -> Option<Option<&str>>
    ensures { option_map (λ f. option_map (λ path. path.now) f) result ≡ folder_of (values kinds.Folder (items (map string_bytes words.now))) }
{
    match stated(words, ItemKind::Folder) {
        Some(None) => Some(None),
        Some(Some(path)) => {
            if is_path(path) {
                Some(Some(path))
            } else {
                None
            }
        }
        None => None,
    }
}

/// A command without a number.
fn read_alone(command: Command, words: &[String]) -> Option<Command>
    ensures { result ≡ alone command (values kinds.Plain (items (map string_bytes words.now))) }
{
    match stated(words, ItemKind::Plain) {
        Some(None) => Some(command),
        Some(Some(_)) => None,
        None => None,
    }
}

/// The number of a command.
fn read_numbered(words: &[String], low: u64, high: u64) -> Option<u64>
    ensures value { result ≡ number_stated low high (values kinds.Plain (items (map string_bytes words.now))) }
    ensures high { IfSome result (λ n. n ≤ high) }
{
    match stated(words, ItemKind::Plain) {
        Some(Some(word)) => read_number_in(word, low, high),
        Some(None) => None,
        None => None,
    }
}

/// The command.
fn read_command(name: &str, words: &[String]) -> Option<Command>
    ensures { result ≡ command_of name.now (values kinds.Plain (items (map string_bytes words.now))) }
{
    match name {
        "replay" => read_alone(Command::Replay, words),
        "run" => read_alone(Command::Run, words),
        "load" => match read_numbered(words, 0, u64::MAX) {
            Some(seed) => Some(Command::Load { seed }),
            None => None,
        },
        "migrate" => match read_numbered(words, 1, 65535) {
            Some(sid) => Some(Command::Migrate { sid: sid as u16 }),
            None => None,
        },
        "scrub" => read_alone(Command::Scrub, words),
        "first" => read_alone(Command::First, words),
        "again" => read_alone(Command::Again, words),
        _ => None,
    }
}

/// What the words state, where they have the form.
pub fn read_line(words: &[String]) -> Option<CommandLine<'_>>
    ensures { option_map seen result ≡ meaning (map string_bytes words.now) }
{
    let (_, words) = words.split_first()?;
    let (name, words) = words.split_first()?;
    let command = read_command(name.as_str(), words)?;
    let disks = read_disks(words)?;
    let folder = read_folder(words)?;
    Some(CommandLine {
        command,
        disks,
        folder,
    })
}
