//! The request that words and an input make.

ghost use Rattle.std.specs.Prelude.{◌≡◌, map, string_bytes};
ghost use Rattle.rz_request.specs.Line.{meaning};
ghost use Rattle.rz_generate.specs.Workload.{workload};
ghost use Rattle.rz_request.specs.Requests.{Asks, IsRequestFor, IsWished, Judges, ReadsRequest, disks_for as needed_for, wish_of as wish_in};
ghost use Rattle.rz_request.specs.declared.wishes.Wish.TheVariants as wishes;

use crate::reading::{fit, read_script};
use crate::{Command, Refusal, Request, Stop, Wish, WordsError, wanted};
use rz_generate::generate;
use rz_ports::Source;
use rz_script::{Form, Script};
use std::alloc::Global;

/// The disks that a wish needs: one for each node, and one for a journal.
fn disks_for(wish: Wish, script: &Script) -> u64
    ensures { result ≡ needed_for wish script.now }
{
    let nodes = script.volume().node_count() as u64;
    match wish {
        Wish::First => nodes + 1,
        Wish::Again => nodes + 1,
        Wish::Replay | Wish::Scrub => nodes,
        Wish::Load { .. } => nodes,
    }
}

/// A script over so many disks.
fn fit_for(wish: Wish, script: Script, disks: u64) -> Result<Request, Stop>
    ensures judged { Judges (Ok script) wish disks result }
    ensures wish { IsRequestFor wish result }
{
    let need = disks_for(wish, &script);
    match fit(script, need, disks) {
        Ok(script) => Ok(Request { wish, script }),
        Err(stop) => Err(stop),
    }
}

/// The script of an input over so many disks.
fn read_input<I: Source>(
    alloc: Global,
    wish: Wish,
    input: &mut I,
    disks: u64,
) -> Result<Request, Stop>
    ensures asked { ReadsRequest (record { before = I.left input.old; after = I.left input.new; old = I.faults input.old; new = I.faults input.new }) wish disks result }
    ensures wish { IsRequestFor wish result }
{
    match read_script(alloc, Form::Replay, input) {
        Ok(script) => fit_for(wish, script, disks),
        Err(stop) => Err(stop),
    }
}

/// The workload of a seed over so many disks.
fn load(alloc: Global, seed: u64, disks: u64) -> Result<Request, Stop>
    ensures judged { Judges (Ok (workload seed)) (wishes.Load seed) disks result }
    ensures wish { IsRequestFor (wishes.Load seed) result }
{
    match generate(alloc, seed) {
        Ok(script) => fit_for(Wish::Load { seed }, script, disks),
        Err(_) => Err(Stop::NoMemory),
    }
}

/// The play that a command wishes for, where it is one of those that are built here.
fn wish_of(command: Command) -> Option<Wish>
    ensures { result ≡ wish_in command }
{
    match command {
        Command::Replay => Some(Wish::Replay),
        Command::Load { seed } => Some(Wish::Load { seed }),
        Command::Scrub => Some(Wish::Scrub),
        Command::First => Some(Wish::First),
        Command::Again => Some(Wish::Again),
        Command::Run => None,
        Command::Migrate { .. } => None,
    }
}

/// The play that words wish for.
fn read_words(alloc: Global, words: &[String]) -> Result<Wish, Stop>
    ensures { IsWished (meaning (map string_bytes words.now)) result }
{
    match wanted(alloc, words) {
        Ok(wanted) => match wish_of(wanted.command) {
            Some(wish) => Ok(wish),
            None => Err(Stop::Refused(Refusal::Usage)),
        },
        Err(WordsError::Usage) => Err(Stop::Refused(Refusal::Usage)),
        Err(WordsError::NoMemory) => Err(Stop::NoMemory),
    }
}

/// What words and an input ask for, over so many disks.
///
/// The words are judged first. For `load` the source is left unread; otherwise it is read to its end,
/// or until there is one byte more than the limit. Then come the grammar, the size of the disks
/// and of the work, and the number of disks: one for each node, and one for a journal.
pub fn request<I: Source>(
    alloc: Global,
    words: &[String],
    input: &mut I,
    disks: u64,
) -> Result<Request, Stop>
    ensures { Asks (meaning (map string_bytes words.now)) (record { before = I.left input.old; after = I.left input.new; old = I.faults input.old; new = I.faults input.new }) disks result }
{
    match read_words(alloc, words) {
        Ok(wish) => match wish {
            Wish::Replay => read_input(alloc, Wish::Replay, input, disks),
            Wish::Load { seed } => load(alloc, seed, disks),
            Wish::Scrub => read_input(alloc, Wish::Scrub, input, disks),
            Wish::First => read_input(alloc, Wish::First, input, disks),
            Wish::Again => read_input(alloc, Wish::Again, input, disks),
        },
        Err(stop) => Err(stop),
    }
}
