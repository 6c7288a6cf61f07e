//! The safety of the log: what a reader of a legal log may rely on.
//!
//! Definitions stand here, in reading order: `Reads` says when a write is acknowledged, when a read
//! began and when a block is quiet; `Sound` says what each read gives; `Writes` says how a write ends;
//! `Kept` says what the nodes of a published write hold; `Rebuilt` says what a finished rebuild has
//! done; `Order` says in which order numbers and calls come; `Positions` says how the outcomes of a
//! file's positions stand in tables. The laws hold of the logs of any number of runs.
#![tactic(auto)]

ghost use Rattle.std.specs.Prelude.{ℕ, List};
ghost use Rattle.rz_events.specs.Volume.{Volume};
ghost use Rattle.rz_events.specs.declared.keys.Key.{Key as AKey};
ghost use Rattle.rz_events.specs.declared.events.Event.{Event as AnEvent};
ghost use Rattle.rz_core.specs.Legal.{IsLegalInRuns};
ghost use Rattle.rz_safety.specs.Kept.{IsKept};
ghost use Rattle.rz_safety.specs.Order.{AreRising, IsMendedInOrder, IsOrdered};
ghost use Rattle.rz_safety.specs.Positions.{AreApart, AreByPosition, IsInAnyOrder};
ghost use Rattle.rz_safety.specs.Rebuilt.{AreRebuilt, IsComplete, IsFenced};
ghost use Rattle.rz_safety.specs.Sound.{IsSound, IsAnswering};
ghost use Rattle.rz_safety.specs.Writes.{AreWritesEnded};

/// A legal log is sound: each read gives one write's text, no older than what was acknowledged before
/// it began, or says why it gives none; and a node of a published write has no record of it only after
/// it lost its disk.
pub fn sound()
    ensures { (v : Volume) (h : List AnEvent) → IsLegalInRuns v h → IsSound v h }
{}

/// Each read of a legal log whose block is quiet answers, unless too many of the write's nodes did not
/// give its record.
pub fn answering()
    ensures { (v : Volume) (h : List AnEvent) → IsLegalInRuns v h → IsAnswering v h }
{}

/// In a legal log each node of a published mask holds the published stamp, or it was lost after it kept
/// or passed it. Then it is lost or fenced above the stamp, and was enrolled for that loss only after
/// the publish.
pub fn kept()
    ensures { (v : Volume) (h : List AnEvent) → IsLegalInRuns v h → IsKept h }
{}

/// In a legal log each version that a node holds was refilled, or its stamp is above the node's fence.
pub fn fenced()
    ensures { (v : Volume) (h : List AnEvent) → IsLegalInRuns v h → IsFenced h }
{}

/// In a legal log a node that was rebuilt, and not lost since, holds the published stamp of each key
/// of a live file whose published mask names it.
pub fn complete()
    ensures { (v : Volume) (h : List AnEvent) → IsLegalInRuns v h → IsComplete h }
{}

/// Each operation of a legal log that says it rebuilt a node did so, under the fence and with the number
/// of keys that it says; and where the node was not lost since its replacement, it is whole. What the node
/// holds then was refilled, or kept with a stamp above its fence.
pub fn rebuilt()
    ensures { (v : Volume) (h : List AnEvent) → IsLegalInRuns v h → AreRebuilt h }
{}

/// In a legal log each stamp is above all numbers that were drawn before it, and so is each fence that
/// was not given before.
pub fn rising()
    ensures { (v : Volume) (h : List AnEvent) → IsLegalInRuns v h → AreRising h }
{}

/// In a legal log a loss comes before its enrolment, and this before the replacement under its fence.
pub fn mended()
    ensures { (v : Volume) (h : List AnEvent) → IsLegalInRuns v h → IsMendedInOrder h }
{}

/// In a legal log a write's base is at least each stamp of the key that was acknowledged when it began,
/// and the stamps of a key are acknowledged in their order.
pub fn ordered()
    ensures { (v : Volume) (h : List AnEvent) → IsLegalInRuns v h → IsOrdered h }
{}

/// Each write of a legal log that ends was acknowledged, or was short of positions, denied, or overtaken
/// by a write of its block that began later.
pub fn written()
    ensures { (v : Volume) (h : List AnEvent) → IsLegalInRuns v h → AreWritesEnded v h }
{}

/// Positions that gave a record, no two of them equal, are as many distinct ones, in whatever order they
/// come.
pub fn enough()
    ensures { (given : List ℕ) → IsInAnyOrder given }
{}

/// The tables of outcomes, which are by node, are by position too, for a file on distinct nodes.
pub fn by_position()
    ensures { (key : AKey) (s : ℕ) (places : List ℕ) (o : List AnEvent) → AreApart places → AreByPosition key s places o }
{}
