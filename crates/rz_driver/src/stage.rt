//! A driver as what a script is played on.
ghost use Rattle.std.specs.Prelude.{◌≡◌};

use crate::driver::Driver;
use crate::orders::{add_operation, plan_miss};
use rz_disk::Disk;
use rz_driver_nodes::{arm_node, order_node, start_node};
use rz_events::{Actor, Event, NodeAsk};
use rz_link::Link;
use rz_metadata::JournalRefusal;
use rz_player::{Halted, LoggedStage, PlayEnd, Stage};
use rz_script::Line;

impl<D: Disk> Stage for Driver<D> {
    ghost use Rattle.rz_driver.specs.Worlds.{HasCounted, world_of, IsDriver, HoldsBetweenTurns, LeavesAtEnd};
    ghost use Rattle.rz_driver.specs.Endings.{end_by};
    ghost use Rattle.rz_metadata.specs.Stands.{is_journaled, refusal_of};
    ghost use Rattle.std.proofs.Common.{inl, refl};

    ghost tells = { D.tells };

    ghost volume = { λ d. d.volume };

    ghost world = { λ d. world_of d };

    ghost journaled = { λ d. is_journaled d.shared.export };

    ghost cut_off = { λ d. end_by (refusal_of d.shared.export) };

    ghost counts_on = { λ d first. HasCounted d first };

    ghost is_ready = { λ d. IsDriver d };

    ghost holds = { λ d. HoldsBetweenTurns d };

    ghost leaves = { λ d refused. LeavesAtEnd d refused };

    ghost ends = { λ d b held. inl (held, refl) };

    fn cut_off(&self) -> PlayEnd {
        match self.shared.export.refusal() {
            None => PlayEnd::NoMemory,
            Some(JournalRefusal::Full) => PlayEnd::JournalFull,
            Some(JournalRefusal::Failed) => PlayEnd::Journal,
        }
    }

    fn turns(&self) -> u32 {
        self.turns
    }

    fn is_busy(&self, by: Actor) -> bool {
        self.is_at_work(by)
    }

    fn turn<L: Link>(&mut self, by: Actor, link: &mut L) -> Result<(), Halted> {
        self.take_turn(by, link)
    }

    fn order(&mut self, line: &Line) -> Result<(), Halted> {
        rz_play_laws::lined();
        rz_block_laws::lasting();
        rz_restart_laws::untold();
        let alloc = self.alloc;
        let agendas = &mut self.agendas;
        let servers = &mut self.shared.servers;
        let log = &mut self.shared.log;
        match line {
            Line::Op { by, op } => add_operation(alloc, agendas.as_mut_slice(), *by, op),
            Line::Miss { by, reply } => plan_miss(agendas.as_mut_slice(), *by, *reply),
            Line::Stop { node } => order_node(servers.as_mut_slice(), log, *node, &NodeAsk::Stop),
            Line::Lose { node } => order_node(servers.as_mut_slice(), log, *node, &NodeAsk::Lose),
            Line::Start { node } => start_node(alloc, servers.as_mut_slice(), log, *node),
            Line::Break { node, k, pick } => arm_node(
                servers.as_mut_slice(),
                log,
                *node,
                *k,
                *pick,
            ),
            Line::Turn { .. } | Line::Rounds { .. } | Line::Rest => Ok(()),
        }
    }
}

impl<D: Disk> LoggedStage for Driver<D> {
    fn log(&self) -> &[Event] {
        self.shared.log.events()
    }
}
