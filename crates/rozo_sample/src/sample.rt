//! A script played over disks in memory, and what is printed of it.

ghost use Rattle.std.specs.Prelude.{◌≡◌, [], IfOk, length};
ghost use Rattle.rz_play.specs.World.{new_world};
ghost use Rattle.rz_player.specs.Behind.{Before};
ghost use Rattle.rz_driver.specs.Worlds.{HoldsBetweenTurns, IsDriver, world_of};
ghost use Rattle.rozo_sample.specs.Samples.{IsSample, Shows, Tells};

use rz_disk::PlainDisk;
use rz_driver::Driver;
use rz_events::Event;
use rz_link::PlainLink;
use rz_player::{PlayEnd, play};
use rz_script::{Form, Script, ScriptError};
use rz_show::show;
use std::alloc::{AllocError, Global};

/// The most bytes of a script.
const LIMIT: usize = 4_194_304;

/// Why there is nothing to print.
#[derive(Clone, Copy, Debug, PartialEq, Eq, Drop)]
pub enum Refused {
    /// The text has more than 4 MiB.
    Long,
    /// The text is no script.
    Script,
    /// A turn more was called for than a play has.
    TooManyTurns,
    NoMemory,
}

/// So many disks in memory, of no bytes yet.
fn new_disks(alloc: Global, count: usize) -> Result<Vec<PlainDisk>, AllocError>
    ensures { IfOk result (λ disks. length disks.items ≡ count) }
{
    let mut disks = Vec::new(alloc);
    for _ in 0..count {
        disks.push(PlainDisk::new(alloc))?;
    }
    Ok(disks)
}

/// The text of the log of a play that ended so.
fn shown(alloc: Global, end: PlayEnd, log: &[Event]) -> Result<Vec<u8>, Refused>
    ensures { Tells end log.now result }
{
    match end {
        PlayEnd::Ended => match show(alloc, log, true) {
            Ok(text) => Ok(text),
            Err(_) => Err(Refused::NoMemory),
        },
        PlayEnd::TooManyTurns => Err(Refused::TooManyTurns),
        // There is no journal here, so that memory is what cuts a play off.
        PlayEnd::NoMemory | PlayEnd::Journal | PlayEnd::JournalFull => Err(Refused::NoMemory),
    }
}

/// Plays a script on a new driver of its volume, and gives the text of its log.
fn play_on(
    alloc: Global,
    script: &Script,
    mut driver: Driver<PlainDisk>,
) -> Result<Vec<u8>, Refused>
    requires ready { IsDriver driver }
    requires volume { driver.volume ≡ script.now.volume }
    requires new { world_of driver ≡ new_world script.now.volume }
    requires held { (b : Before) × (b.log ≡ []) × HoldsBetweenTurns driver b }
    ensures { Shows script.now result }
{
    let mut link = PlainLink::new();
    let end = play(&mut driver, script.lines(), &mut link);
    let (log, _disks) = driver.close();
    shown(alloc, end, &log)
}

/// Plays a script over new disks, one for each node of its volume, and gives the text of its log.
fn play_script(alloc: Global, script: &Script) -> Result<Vec<u8>, Refused>
    ensures { Shows script.now result }
{
    let Ok(disks) = new_disks(alloc, script.volume().node_count()) else {
        return Err(Refused::NoMemory);
    };
    match Driver::new(alloc, script.volume(), disks) {
        Ok(driver) => play_on(alloc, script, driver),
        Err(_) => Err(Refused::NoMemory),
    }
}

/// What is printed of the play of a text, which has at most 4 MiB.
pub fn sample(alloc: Global, text: &[u8]) -> Result<Vec<u8>, Refused>
    ensures { IsSample text.now result }
{
    if text.len() > LIMIT {
        return Err(Refused::Long);
    }
    match Script::read(alloc, text, Form::Replay) {
        Ok(script) => play_script(alloc, &script),
        Err(ScriptError::NoMemory) => Err(Refused::NoMemory),
        Err(ScriptError::Script { .. } | ScriptError::Volume(_)) => Err(Refused::Script),
    }
}
