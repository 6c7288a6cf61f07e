//! The lines of a script, one after another.
ghost use Rattle.std.specs.Prelude.{◌≡◌, OnOk, OnErr};
ghost use Rattle.rz_script.specs.Lines.{IsLine, AreLines};
ghost use Rattle.rz_chronicle.specs.Keys.{IsLater};
ghost use Rattle.rz_chronicle.specs.Kinds.{IsFit, volume_in};
ghost use Rattle.rz_threads.specs.Orders.{Waits, IsLineDone, AreDone, AreLinesBegun};

use crate::orders::{arm, order};
use rz_chronicle::{Book, Pass};
use rz_disk::Disk;
use rz_events::{Actor, NodeAsk};
use rz_player::Halted;
use rz_script::Line;
use rz_shared::{Cluster, Counting};
use std::sync::Wait;

/// Carries out a line, if it is one of the administrator's.
fn carry_out<R: Wait, D: Disk, J: Counting>(
    rt: &R,
    cluster: &Cluster<D, J>,
    book: &Book<J>,
    pass: &mut Pass<J>,
    line: &Line,
) -> Result<(), Halted>
    requires admin { pass.old.actor ≡ Actor.Admin }
    requires line { IsLine (volume_in J.kind) line.now }
    ensures same { (pass.new.actor ≡ pass.old.actor) × (pass.new.keys ≡ pass.old.keys) }
    ensures done { OnOk result (IsLineDone J.kind line.now pass.old.log pass.new.log) }
    ensures idle { OnErr result (Waits pass.old.log pass.new.log) }
    ensures fit { IsFit J.kind pass.new.log }
{
    let _fit = pass.actor();
    match line {
        Line::Stop { node } => order(rt, cluster, book, pass, *node, &NodeAsk::Stop),
        Line::Start { node } => order(rt, cluster, book, pass, *node, &NodeAsk::Start),
        Line::Lose { node } => order(rt, cluster, book, pass, *node, &NodeAsk::Lose),
        Line::Break { node, k, pick } => {
            arm(rt, cluster, book, pass, *node, *k, *pick);
            Ok(())
        }
        Line::Op { .. }
        | Line::Turn { .. }
        | Line::Rounds { .. }
        | Line::Rest
        | Line::Miss { .. } => Ok(()),
    }
}

/// Carries out the administrator's lines, each when those before it are done. It ends early where a node
/// finds no memory to start: then the first lines are done.
pub fn administer<R: Wait, D: Disk, J: Counting>(
    rt: &R,
    cluster: &Cluster<D, J>,
    book: &Book<J>,
    pass: &mut Pass<J>,
    lines: &[Line],
) -> Result<(), Halted>
    requires admin { pass.old.actor ≡ Actor.Admin }
    requires lines { AreLines (volume_in J.kind) lines.now }
    ensures same { (pass.new.actor ≡ pass.old.actor) × (pass.new.keys ≡ pass.old.keys) }
    ensures later { IsLater pass.old.log pass.new.log }
    ensures done { OnOk result (AreDone J.kind lines.now pass.old.log pass.new.log) }
    ensures begun { OnErr result (AreLinesBegun J.kind lines.now pass.old.log pass.new.log) }
    ensures fit { IsFit J.kind pass.new.log }
{
    let _fit = pass.actor();
    for line in lines {
        carry_out(rt, cluster, book, pass, line)?;
    }
    Ok(())
}
