//! The script that words and an input ask for, where the actors are to have threads of their own.

ghost use Rattle.std.specs.Prelude.{◌≡◌, map, string_bytes};
ghost use Rattle.rz_request.specs.Line.{meaning};
ghost use Rattle.rz_script_words.specs.declared.form.Form.TheVariants as forms;
ghost use Rattle.rz_request.specs.Requests.{ReadsScript, nodes_in};
ghost use Rattle.rz_request.specs.Runs.{AsksRun, is_run as is_of_run};

use crate::reading::{fit, read_script};
use crate::{Command, Refusal, Stop, WordsError, wanted};
use rz_ports::Source;
use rz_script::{Form, Script};
use std::alloc::Global;

/// Whether it is the command of a run.
fn is_run(command: Command) -> bool
    ensures { result ≡ is_of_run command }
{
    matches!(command, Command::Run)
}

/// The script of an input, over one disk for each node.
fn read_run<I: Source>(alloc: Global, input: &mut I, disks: u64) -> Result<Script, Stop>
    ensures { ReadsScript forms.Run (record { before = I.left input.old; after = I.left input.new; old = I.faults input.old; new = I.faults input.new }) nodes_in disks result }
{
    match read_script(alloc, Form::Run, input) {
        Ok(script) => {
            let need = script.volume().node_count() as u64;
            fit(script, need, disks)
        }
        Err(stop) => Err(stop),
    }
}

/// The script that the words of a run and an input ask for, over so many disks.
///
/// The words are judged first: those of any other command are refused, with the source unread. Then the
/// source is read to its end, or until there is one byte more than the limit, and then come the grammar,
/// in which no line speaks of turns, the size of the disks and of the work, and the number of disks: one for
/// each node.
pub fn run_script<I: Source>(
    alloc: Global,
    words: &[String],
    input: &mut I,
    disks: u64,
) -> Result<Script, Stop>
    ensures { AsksRun (meaning (map string_bytes words.now)) (record { before = I.left input.old; after = I.left input.new; old = I.faults input.old; new = I.faults input.new }) disks result }
{
    match wanted(alloc, words) {
        Ok(wanted) => {
            if is_run(wanted.command) {
                read_run(alloc, input, disks)
            } else {
                Err(Stop::Refused(Refusal::Usage))
            }
        }
        Err(WordsError::Usage) => Err(Stop::Refused(Refusal::Usage)),
        Err(WordsError::NoMemory) => Err(Stop::NoMemory),
    }
}
