//! The call of the program.
ghost use Rattle.std.specs.Prelude.{◌≡◌, IsTrue, length, map, string_bytes};
ghost use Rattle.rz_request.specs.Line.{meaning};
ghost use Rattle.rz_request.specs.Requests.{nodes_in};
ghost use Rattle.rz_run.specs.Runs.{PlaysRun, Runs};

use crate::outcome::Ran;
use crate::playing::play_named;
use rz_chronicle::{NewBook, read_back, read_back_after};
use rz_disk::Disk;
use rz_link::Link;
use rz_ports::{Sink, Source};
use rz_report::stop;
use rz_request::{Status, run_script};
use rz_script::Script;
use std::alloc::Global;
use std::marker::Brand;
use std::sync::Wait;
use std::thread::Threads;

/// Plays a script over disks and links. The book is honest where the disks tell what they hold: their type
/// says whether they do, which no program can ask.
fn play_script<R: Threads + Wait + Sync, O: Sink, D: Disk + Send, L: Link + Send>(
    rt: &R,
    alloc: Global,
    script: &Script,
    disks: Vec<D>,
    links: Vec<L>,
    output: &mut O,
) -> Ran<D, L>
    requires count { length disks.items ≡ nodes_in script.now }
    requires links { length links.items ≡ 80 }
    ensures { PlaysRun D.tells D.meter D.image L.lost script.now (record { old = disks.items; new = result.disks.items }) (record { old = links.items; new = result.links.items }) (record { before = O.taken output.old; after = O.taken output.new; old = O.faults output.old; new = O.faults output.new }) result.status }
{
    read_back();
    read_back_after();
    let volume = script.volume();
    let _rules = volume.node_count();
    match NewBook::after::<Brand>(alloc, volume) {
        Ok(opened) => {
            play_named::<Brand, R, O, D, L>(rt, alloc, opened, script, disks, links, output)
        }
        Err(_) => Ran {
            status: Status::NO_MEMORY,
            disks,
            links,
        },
    }
}

/// Plays the script that the words and the input ask for on threads, over one disk for each node in the order
/// of the description and one link for each client and each rebuilder in order, and writes what is to be told
/// of it. Callers say whether the disks tell what they hold. What is done does not hang on their word: over disks
/// that do, the log is true. It waits for the others, and returns when all have stopped.
pub fn run<R: Threads + Wait + Sync, I: Source, O: Sink, D: Disk + Send, L: Link + Send>(
    rt: &R,
    alloc: Global,
    words: &[String],
    input: &mut I,
    output: &mut O,
    disks: Vec<D>,
    links: Vec<L>,
    honest: bool,
) -> Ran<D, L>
    requires links { length links.items ≡ 80 }
    requires tells { IsTrue honest → IsTrue D.tells }
    ensures { Runs D.tells D.meter D.image L.lost (meaning (map string_bytes words.now)) (record { before = I.left input.old; after = I.left input.new; old = I.faults input.old; new = I.faults input.new }) (record { old = disks.items; new = result.disks.items }) (record { old = links.items; new = result.links.items }) (record { before = O.taken output.old; after = O.taken output.new; old = O.faults output.old; new = O.faults output.new }) result.status }
{
    let _ = honest;
    let count = disks.len() as u64;
    match run_script(alloc, words, input, count) {
        Ok(script) => play_script(rt, alloc, &script, disks, links, output),
        Err(why) => {
            let status = stop(alloc, &why, output);
            Ran {
                status,
                disks,
                links,
            }
        }
    }
}
