//! The program `rozo_sample`: the store used as a library, in as few lines as that takes. It reads a script
//! from standard input, plays it over disks in memory, and prints what came of each operation.
//!
//! The contract of `sample` says that the text is that of the log of a whole play of the script, and when
//! there is none. It does not say what a terminal takes, or that memory is there.
//!
//! In reading order: `sample`.
#![tactic(auto)]

mod sample;

use sample::{Refused, sample};
use std::io;
use std::io::{Read, Write};
use std::process::ExitCode;

/// One byte more than a script may have.
const ENOUGH: u64 = 4_194_305;

/// What a refusal is to somebody at a terminal.
fn words_of(refused: Refused) -> &'static str {
    match refused {
        Refused::Long => "the script is longer than 4 MiB",
        Refused::Script => "the input is no script",
        Refused::TooManyTurns => "the script calls for a turn too many",
        Refused::NoMemory => "memory is wanting",
    }
}

/// Plays the script of the standard input, and prints what came of it.
fn run(rt: &HostRuntime) -> io::Result<ExitCode> {
    let mut script = Vec::new(rt.alloc());
    rt.reader().take(ENOUGH).read_to_end(&mut script)?;
    match sample(rt.alloc(), &script) {
        Ok(text) => {
            io::writer(rt).write_all(&text)?;
            Ok(ExitCode::SUCCESS)
        }
        Err(refused) => {
            eprintln!(rt; "rozo_sample: {}", words_of(refused))?;
            Ok(ExitCode::FAILURE)
        }
    }
}

fn main(rt: HostRuntime) -> ExitCode {
    match run(&rt) {
        Ok(status) => status,
        Err(_) => ExitCode::FAILURE,
    }
}
