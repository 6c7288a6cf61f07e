//! A client or a rebuilder at work.
ghost use Rattle.std.specs.Prelude.{◌≡◌, ◌≤◌, [], length};
ghost use Rattle.std.specs.List.{AllByRecursion};
ghost use Rattle.mj_angles.specs.Layout.{max_bins_of};
ghost use Rattle.rz_core.specs.History.{of_actor};
ghost use Rattle.rz_chronicle.specs.Kinds.{volume_in};
ghost use Rattle.rz_script.specs.Lines.{IsOperation};
ghost use Rattle.rz_threads_worker.specs.Workers.{agenda_of, agenda_with, IsWorkerReady};

use crate::worker_agenda::Agenda;
use rz_chronicle::Pass;
use rz_events::{Actor, Event, Operation};
use rz_link::Link;
use rz_shared::Counting;
use std::alloc::Global;
use std::collections::VecDeque;

/// One actor beside others: what it has seen of the log, its link to the nodes, what it has to do, room for
/// the bins of a record, and its events that are shown, the oldest first.
#[derive(Drop)]
pub struct Worker<J: Counting, L: Link> {
    pub pass: Pass<J>,
    pub link: L,
    pub agenda: Agenda,
    pub bins: Vec<u64>,
    pub shown: Vec<Event>,
}

impl<J: Counting, L: Link> Worker<J, L> {
    /// A worker that has these operations to do and has done none yet.
    pub fn new(
        alloc: Global,
        pass: Pass<J>,
        link: L,
        todo: VecDeque<Operation>,
        bins: Vec<u64>,
    ) -> Worker<J, L>
        requires actor { ¬ (pass.actor ≡ Actor.Admin) }
        requires fresh { of_actor pass.actor pass.log ≡ [] }
        requires todo { AllByRecursion (IsOperation (volume_in J.kind) pass.actor) todo.items }
        requires room { max_bins_of (volume_in J.kind).layout ≤ length bins.items }
        ensures ready { IsWorkerReady J.kind result.pass result.agenda result.bins.items result.shown.items }
        ensures pass { result.pass ≡ pass }
        ensures link { result.link ≡ link }
        ensures agenda { agenda_of result.agenda ≡ agenda_with todo.items }
    {
        Worker {
            pass,
            link,
            agenda: Agenda {
                todo,
                number: 0,
                machine: None,
            },
            bins,
            shown: Vec::new(alloc),
        }
    }
}
