//! All that is planned, in turn.

use crate::book_runs::run_book;
use crate::export_runs::run_export;
use crate::journal_runs::run_journal;
use crate::node_runs::run_node;
use crate::telling::Teller;
use crate::words::BenchPlan;
use std::alloc::Global;
use std::io;
use std::rt::Clock;
use std::thread::Threads;

/// Runs what is planned.
pub fn run<R: Threads + Print + Clock + Sync + Drop>(
    rt: &R,
    alloc: Global,
    plan: &BenchPlan,
) -> io::Result<()> {
    let teller = Teller {
        rt,
        alloc,
        times: plan.times,
    };
    run_node(&teller, plan.node)?;
    run_export(&teller, plan.export)?;
    run_journal(&teller, plan.journal)?;
    run_book(&teller, plan.book)
}
