//! The reading of the words.

ghost use Rattle.std.specs.Prelude.{◌≡◌, IfOk, Some, map, option_map, string_bytes};
ghost use Rattle.rz_request.specs.Line.{Answers, meaning, seen};

use crate::command::{Wanted, WordsError};
use crate::line::{CommandLine, read_line};
use crate::parser::parse;
use crate::taking::{is_same, taken};
use std::alloc::{AllocError, Global};

/// A folder of its own.
fn own(alloc: Global, folder: Option<&str>) -> Result<Option<String>, AllocError>
    ensures { IfOk result (λ f. option_map string_bytes f ≡ option_map (λ path. path.now) folder.entry) }
{
    match folder {
        Some(path) => Ok(Some(String::from_str(alloc, path)?)),
        None => Ok(None),
    }
}

/// What a line wants.
fn wish_for(alloc: Global, line: &CommandLine) -> Result<Wanted, WordsError>
    ensures { Answers (Some (seen line.now)) result }
{
    match own(alloc, line.folder) {
        Ok(folder) => Ok(Wanted {
            command: line.command,
            disks: line.disks,
            folder,
        }),
        Err(_) => Err(WordsError::NoMemory),
    }
}

/// What the words want, of which the first is the program's name.
///
/// The command comes first, then in any order `--disks N` with N from 1 to 256, at most one
/// `--dir PATH` and the command's number if it has one: any u64 for `load`, 1 to 65535 for `migrate`.
/// The value of an option may stand behind `=` too. A path is not empty and begins with no hyphen.
pub fn wanted(alloc: Global, words: &[String]) -> Result<Wanted, WordsError>
    ensures { Answers (meaning (map string_bytes words.now)) result }
{
    let Some(line) = read_line(words) else {
        return Err(WordsError::Usage);
    };
    let Ok(matches) = parse(alloc, words) else {
        return Err(WordsError::NoMemory);
    };
    match taken(&matches) {
        Some(taken) if is_same(&taken, &line) => wish_for(alloc, &taken),
        _ => Err(WordsError::NoMemory),
    }
}
