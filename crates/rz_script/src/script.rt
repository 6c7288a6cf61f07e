//! Scripts, and what they weigh.

ghost use Rattle.std.specs.Prelude.{◌≡◌, ◌<◌, ◌-◌, ◌^◌, [], ◌∷◌, ◌++◌, length, OnOk, OnErr, IfOk};
ghost use Rattle.rz_script.specs.Lines.{IsLine, AreLines};
ghost use Rattle.rz_script.specs.Given.{script_of};
ghost use Rattle.rz_script.specs.Scripts.{with_line, no_lines};
ghost use Rattle.rz_script.specs.Weights.{script_weight};

use crate::Line;
use crate::weights::lines_weight;
use mj_angles::Layout;
use rz_config::Volume;
use std::alloc::{AllocError, Global};
use std::marker::Model;

/// A script: its volume and its lines, which keep the limits of the volume.
#[derive(Drop)]
pub struct Script {
    volume: Volume,
    lines: Vec<Line>,
}

impl Model for Script {
    ghost use Rattle.std.specs.Prelude.{◌<◌, ◌^◌, length};
    ghost use Rattle.rz_script.specs.Lines.{AreLines};
    ghost use Rattle.rz_script.specs.Scripts as model;

    ghost Value = { model.Script };

    ghost view = { λ s. record { volume = s.volume; lines = s.lines.items } };

    ghost invariant = { λ s. AreLines s.volume s.lines.items × (length s.lines.items < 2 ^ 32) };
}

impl Script {
    /// A script without lines. It keeps the allocator.
    pub fn new(alloc: Global, volume: Volume) -> Script
        ensures { result ≡ no_lines volume }
    {
        Script {
            volume,
            lines: Vec::new(alloc),
        }
    }

    /// Adds a line at the end.
    pub fn push(&mut self, line: Line) -> Result<(), AllocError>
        requires line { IsLine self.old.volume line }
        requires few { length self.old.lines < 2 ^ 32 - 1 }
        ensures ok { OnOk result (self.new ≡ with_line self.old line) }
        ensures err { OnErr result (self.new ≡ self.old) }
    {
        self.lines.push(line)?;
        Ok(())
    }

    /// The volume.
    pub fn volume(&self) -> &Volume
        ensures { result.now ≡ self.now.volume }
    {
        &self.volume
    }

    /// The lines.
    pub fn lines(&self) -> &[Line]
        ensures value { result.now ≡ self.now.lines }
        ensures limits { AreLines self.now.volume self.now.lines }
        ensures few { length self.now.lines < 2 ^ 32 }
    {
        self.lines.as_slice()
    }

    /// What the script weighs, in pieces of 4096 bytes: a block for a put or a get, the blocks of its
    /// range for a read, and twice these for a write.
    pub fn weight(&self) -> u64
        ensures { result ≡ script_weight self.now }
    {
        lines_weight(self.layout(), self.lines())
    }

    /// The layout of the volume.
    fn layout(&self) -> Layout
        ensures { result ≡ self.now.volume.layout }
    {
        self.volume.layout
    }

    /// A volume with lines that keep its limits.
    pub(crate) fn of(volume: Volume, lines: Vec<Line>) -> Script
        requires limits { AreLines volume lines.items }
        requires few { length lines.items < 2 ^ 32 }
        ensures { result ≡ script_of (volume, lines) }
    {
        Script { volume, lines }
    }
}
