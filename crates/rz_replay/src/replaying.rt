//! What words and an input ask for, done over disks that are lent to it.

ghost use Rattle.std.specs.Prelude.{◌≡◌, ◌-◌, [], IsSome, MatchResult, length, map, reverse, string_bytes};
ghost use Rattle.rz_request.specs.Line.{meaning};
ghost use Rattle.rz_request.specs.Requests.{disks_for};
ghost use Rattle.rz_play_laws.specs.Runs.{IsScript};
ghost use Rattle.rz_replay.specs.Replays.{PlaysReplay, PlaysRequest, Replays, old_node_of};

use crate::drivers::driver_for;
use crate::laws::untouched;
use crate::migrating::carry;
use rz_disk::Disk;
use rz_events::Event;
use rz_link::Link;
use rz_ports::{Sink, Source};
use rz_report::{begins, perform, stop};
use rz_request::{Command, Request, Status, WordsError, request, wanted};
use rz_script::Script;
use std::alloc::{AllocError, Global};
use std::mem;

/// What a replay came to: its status, and the log of the play, the oldest event first.
#[derive(Drop)]
pub struct Played {
    pub status: u8,
    pub log: Vec<Event>,
}

/// Nothing was played.
fn unplayed(alloc: Global, status: u8) -> Played
    ensures status { result.status ≡ status }
    ensures log { result.log.items ≡ [] }
{
    Played {
        status,
        log: Vec::new(alloc),
    }
}

/// The node of which the words want the old disk carried over, if they want that. Memory is wanted only
/// for words that mean something.
fn old_node(alloc: Global, words: &[String]) -> Result<Option<u16>, AllocError>
    ensures { MatchResult result (λ node. node ≡ old_node_of (meaning (map string_bytes words.now))) (λ _. IsSome (meaning (map string_bytes words.now))) }
{
    match wanted(alloc, words) {
        Ok(wanted) => match wanted.command {
            Command::Migrate { sid } => Ok(Some(sid)),
            _ => Ok(None),
        },
        Err(WordsError::Usage) => Ok(None),
        Err(WordsError::NoMemory) => Err(AllocError),
    }
}

/// A script keeps the rules of its volume, and its lines the limits.
fn keeps_rules(script: &Script)
    ensures { IsScript script.now.volume script.now.lines }
{
    let _nodes = script.volume().node_count();
    let _lines = script.lines();
}

/// Plays a request over the disks that it needs, and writes what is to be told of it. The disks are back
/// afterwards.
fn play_request<D: Disk, L: Link, O: Sink>(
    alloc: Global,
    request: &Request,
    disks: &mut Vec<D>,
    link: &mut L,
    output: &mut O,
) -> Played
    requires { length disks.old.items ≡ disks_for request.now.wish request.now.script }
    ensures { PlaysRequest ⟦<D as Disk>⟧ request.now disks.old.items disks.new.items (L.lost link.new - L.lost link.old) (record { before = O.taken output.old; after = O.taken output.new; old = O.faults output.old; new = O.faults output.new }) result.status (reverse result.log.items) }
{
    untouched::<D>();
    begins();
    rz_restart_laws::restarting();
    rz_restart_laws::afterwards();
    rz_play_locks::after();
    rz_core::one_run();
    rz_core::next_run();
    keeps_rules(&request.script);
    let lent = mem::replace(disks, Vec::new(alloc));
    match driver_for(alloc, request, lent) {
        Ok(mut driver) => {
            let status = perform(
                alloc,
                request.wish,
                &request.script,
                &mut driver,
                link,
                output,
            );
            let (log, back) = driver.close();
            *disks = back;
            Played { status, log }
        }
        Err((back, unmade)) => {
            *disks = back;
            let status = stop(alloc, &unmade, output);
            unplayed(alloc, status)
        }
    }
}

/// Plays what words and an input ask for over the disks, of which there is one for each node in the
/// order of the description, and one more where a journal is wanted; and writes what is to be told of it.
/// The disks are back in their order afterwards.
fn play_words<I: Source, O: Sink, D: Disk, L: Link>(
    alloc: Global,
    words: &[String],
    input: &mut I,
    output: &mut O,
    disks: &mut Vec<D>,
    link: &mut L,
) -> Played
    ensures { PlaysReplay ⟦<D as Disk>⟧ (meaning (map string_bytes words.now)) (record { before = I.left input.old; after = I.left input.new; old = I.faults input.old; new = I.faults input.new }) disks.old.items disks.new.items (L.lost link.new - L.lost link.old) (record { before = O.taken output.old; after = O.taken output.new; old = O.faults output.old; new = O.faults output.new }) result.status (reverse result.log.items) }
{
    let count = disks.len() as u64;
    match request(alloc, words, input, count) {
        Ok(request) => play_request(alloc, &request, disks, link, output),
        Err(why) => {
            let status = stop(alloc, &why, output);
            unplayed(alloc, status)
        }
    }
}

/// Does what the words ask for: carries an old disk over onto a new one, or plays a script over the
/// disks. Writes what is to be told of it. The disks are back in their order afterwards.
pub fn replay<I: Source, O: Sink, D: Disk, L: Link>(
    alloc: Global,
    words: &[String],
    input: &mut I,
    output: &mut O,
    disks: &mut Vec<D>,
    link: &mut L,
) -> Played
    ensures { Replays ⟦<D as Disk>⟧ (meaning (map string_bytes words.now)) (record { before = I.left input.old; after = I.left input.new; old = I.faults input.old; new = I.faults input.new }) disks.old.items disks.new.items (L.lost link.new - L.lost link.old) (record { before = O.taken output.old; after = O.taken output.new; old = O.faults output.old; new = O.faults output.new }) result.status (reverse result.log.items) }
{
    match old_node(alloc, words) {
        Ok(Some(sid)) => {
            let status = carry(alloc, sid, input, output, disks);
            unplayed(alloc, status)
        }
        Ok(None) => play_words(alloc, words, input, output, disks, link),
        Err(_) => unplayed(alloc, Status::NO_MEMORY),
    }
}
