//! The log of a play is legal, and so it is sound, whatever the script orders.
//!
//! The functions have no code. What each one says is its clause, which is proved of every script and of
//! every play of it, of one that stopped or has only begun, and of one that goes on after an earlier
//! log: by induction over its turns, in which each actor's own events say how far its operation has
//! come. `specs/Own` has what they say at each state of an operation, and needs nothing but these events
//! and the permanent facts; `specs/Fine` has what holds of a world between two turns, and `specs/Runs`
//! which scripts are meant and what is promised of a play that goes on.
#![tactic(auto)]

ghost use Rattle.std.specs.Prelude.{ℕ, Bool, ◌≡◌, ◌+◌, ◌≤◌, List};
ghost use Rattle.rz_events.specs.Volume.{Volume, IsVolume};
ghost use Rattle.rz_events.specs.declared.keys.Actor.{Actor as AnActor};
ghost use Rattle.rz_events.specs.declared.events.Event.{Event as AnEvent};
ghost use Rattle.rz_node_model.specs.States.{NodeState};
ghost use Rattle.rz_export_model.specs.Export.{Export as ExportState};
ghost use Rattle.rz_core.specs.History.{facts, of_actor};
ghost use Rattle.rz_core.specs.Legal.{IsLegal};
ghost use Rattle.rz_safety.specs.Sound.{IsSound};
ghost use Rattle.rz_safety.specs.Rebuilt.{AreRebuilt};
ghost use Rattle.rz_script.specs.declared.line.Line.{Line as ALine};
ghost use Rattle.rz_play.specs.World.{World, world_after, at_work};
ghost use Rattle.rz_play.specs.Turns.{IsTurn};
ghost use Rattle.rz_script.specs.Lines.{IsLine};
ghost use Rattle.rz_play.specs.Lines.{PlaysLine};
ghost use Rattle.rz_play.specs.Stops.{StopCause};
ghost use Rattle.rz_play.specs.Faults.{missed, misses};
ghost use Rattle.rz_play.specs.Played.{IsPlayedFrom, IsStoppedFrom, IsBegunFrom, IsBegun};
ghost use Rattle.rz_play_laws.specs.Own.{IsOwnOf, HasOwnEvents, IsOwnTurn, IsOwnKept, IsOwnProper};
ghost use Rattle.rz_play_laws.specs.Fine.{MayBegin, IsSeated, IsFine, IsFineIfShort, IsTelling};
ghost use Rattle.rz_play_laws.specs.Runs.{IsScript, IsRunAfter, IsWorldReached};

/// What an operation asks is proper, where its own events say how far it has come.
pub fn own_proper()
    ensures { (v : Volume) → IsOwnProper v }
{}

/// A turn of an operation: after the answer its own events again say how far it has come.
pub fn own_turn()
    ensures { (v : Volume) → IsOwnTurn v }
{}

/// What others do changes nothing of that.
pub fn own_kept()
    ensures { (v : Volume) → IsOwnKept v }
{}

/// Each event of a legal log says what is so for good: what a write began with, where a file lies.
pub fn facts_told()
    ensures { (v : Volume) → IsVolume v → IsTelling v }
{
    rz_log_laws::laid();
}

/// A play that came to its end has begun, and its last world is the same: so what is said below of plays
/// that have begun holds of it.
pub fn ended()
    ensures { (v : Volume) (first : World) (lines : List ALine) (log : List AnEvent)
        → (p : IsPlayedFrom v first lines log) → (begun : IsBegunFrom v first lines log) × (begun.last ≡ p.last) }
{}

/// So has a play that stopped before a turn.
pub fn stopped()
    ensures { (v : Volume) (cause : StopCause) (first : World) (lines : List ALine) (log : List AnEvent)
        → (p : IsStoppedFrom v cause first lines log) → (begun : IsBegunFrom v first lines log) × (begun.last ≡ p.last) }
{}

/// The log of a play is legal: each of its events is allowed after those before it.
pub fn legal()
    ensures { (v : Volume) (script : List ALine) → IsScript v script → (log : List AnEvent) → IsBegun v script log → IsLegal v log }
{
    facts_told();
}

/// The log of a play is sound: each read that found a text gives the newest acknowledged write of its
/// block.
pub fn sound()
    ensures { (v : Volume) (script : List ALine) → IsScript v script → (log : List AnEvent) → IsBegun v script log → IsSound v log }
{
    legal();
    rz_core::one_run();
    rz_safety::sound();
}

/// Each rebuild that a play says to be finished is: each key that it was told it refilled with the stamp
/// that it was told, in order, or another stamp was published since. The node is then whole.
pub fn rebuilt()
    ensures { (v : Volume) (script : List ALine) → IsScript v script → (log : List AnEvent) → IsBegun v script log → AreRebuilt log }
{
    legal();
    rz_core::one_run();
    rz_safety::rebuilt();
}

/// The same of a play that goes on after an earlier log, with the nodes and the export of that log.
pub fn after()
    ensures { (v : Volume) (script : List ALine) → IsScript v script
        → (nodes : ℕ → NodeState) (export : ExportState) (old : List AnEvent) → MayBegin v nodes export old
        → (log : List AnEvent) → IsBegunFrom v (world_after nodes export old) script log → IsRunAfter v old log }
{
    facts_told();
    rz_core::next_run();
    rz_safety::sound();
    rz_safety::answering();
    rz_safety::written();
    rz_safety::rebuilt();
}

/// A play leaves a world that is in order.
pub fn in_order()
    ensures { (v : Volume) (script : List ALine) → IsScript v script
        → (nodes : ℕ → NodeState) (export : ExportState) (old : List AnEvent) → MayBegin v nodes export old
        → (log : List AnEvent) (p : IsBegunFrom v (world_after nodes export old) script log) → IsFine v old p.last }
{
    facts_told();
}

/// A turn of an actor keeps a world in order, while the log has room.
pub fn turned()
    ensures { (v : Volume) → IsVolume v → (old : List AnEvent) (by : AnActor) → IsSeated by → (w next : World) → IsTurn v by w next → IsFine v old w → IsFineIfShort v old next }
{
    facts_told();
}

/// So does a line of a script.
pub fn lined()
    ensures { (v : Volume) → IsVolume v → (old : List AnEvent) (l : ALine) → IsLine v l → (w next : World) → PlaysLine v l w next → IsFine v old w → IsFineIfShort v old next }
{
    facts_told();
}

/// In such a world the events of an actor say how far the operation has come that its next turn is of.
pub fn working()
    ensures { (v : Volume) (old : List AnEvent) (w : World) → (fine : IsFine v old w) → (by : AnActor) → IsSeated by
        → IsOwnOf v (facts w.log) (of_actor by w.log) (of_actor by fine.run) by (at_work (w.agendas by)).work
        × HasOwnEvents v by (at_work (w.agendas by)).number (of_actor by fine.run) (at_work (w.agendas by)).work }
{}

/// In such a world each actor has a turn, whatever it asks.
pub fn goes_on()
    ensures { (v : Volume) (old : List AnEvent) (w : World) → IsFine v old w → (by : AnActor) → IsSeated by → (next : World) × IsTurn v by w next }
{}

/// Each message that was lost was lost by a line of the script or by the link.
pub fn losses()
    ensures { (v : Volume) (script : List ALine) (nodes : ℕ → NodeState) (export : ExportState) (old log : List AnEvent)
        → (p : IsBegunFrom v (world_after nodes export old) script log) → missed log ≤ missed old + misses script + p.last.lost }
{}

/// So was each one over disks that need not tell their texts.
pub fn losses_over()
    ensures { (v : Volume) (script : List ALine) (tells : Bool) (nodes : ℕ → NodeState) (export : ExportState) (old : List AnEvent) (last : World)
        → IsWorldReached v script tells (world_after nodes export old) last → missed last.log ≤ missed old + misses script + last.lost }
{}
