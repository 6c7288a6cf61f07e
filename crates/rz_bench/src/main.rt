//! The program `rz_bench`: it fills a storage node, an export and the export of a journal, makes calls on
//! them, and prints how many answered as expected and, where that is asked for, how long one took; and it
//! lets clients on threads of their own add events to the log that they share, and prints how many events
//! that log then has.
//!
//! Each call is made as its contract wants, and as many are counted as were ordered. The events of the log
//! are those that the book counts. Nothing is said of the times.
//!
//! In reading order: `words`, `tally`, `telling`; the node: `blank`, `nodes`, `node_runs`; the export:
//! `files`, `exports`, `export_runs`; the journal: `counting`, `journals`, `journal_runs`; the book: `work`,
//! `threads`, `book_runs`; and `runs`.
#![tactic(auto)]

mod blank;
mod book_runs;
mod counting;
mod export_runs;
mod exports;
mod files;
mod journal_runs;
mod journals;
mod node_runs;
mod nodes;
mod runs;
mod tally;
mod telling;
mod threads;
mod words;
mod work;

use std::io::ErrorKind;
use std::process::ExitCode;
use std::{env, io};
use words::BenchPlan;

const USAGE: &str = "usage: rz_bench [node PAIRS OPS] [export FILES BLOCKS OPS] \
[journal FILES BLOCKS WRITES] [book THREADS EVENTS] [times], of which one is to be run";

/// What the words of the command line want to be run, where they are understood.
fn plan(rt: &HostRuntime) -> io::Result<Option<BenchPlan>> {
    let words: Vec<String> = env::args(rt)?.collect(rt.alloc())?;
    let plan = words::plan_of(words.get(1..).unwrap_or(&[]));
    drop(words);
    Ok(plan)
}

/// The exit status of a run.
fn status(run: io::Result<()>) -> ExitCode {
    match run {
        Ok(()) => ExitCode::SUCCESS,
        Err(error) if error.kind() == ErrorKind::OutOfMemory => ExitCode::from(70),
        Err(_) => ExitCode::from(71),
    }
}

fn main(rt: HostRuntime) -> ExitCode {
    match plan(&rt) {
        Ok(Some(plan)) => status(runs::run(&rt, rt.alloc(), &plan)),
        Ok(None) => {
            let _told = eprintln!(rt; "{USAGE}");
            ExitCode::from(2)
        }
        Err(error) => status(Err(error)),
    }
}
