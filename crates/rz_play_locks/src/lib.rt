//! What byte-range locks give a play: no update is lost, and no view sees an update in part.
//!
//! The functions have no code: what each one says is its clause, which is proved of every script and of
//! every play of it, finished or not. `specs/Operations` says to which operation of the script an event
//! belongs, and when a block is guarded: where all its accepted publishes are those of updates.
//! `specs/Promises` says that no update is lost and that views are whole. `specs/Holding` says which locks
//! are held between two turns, and `specs/Texts` and `specs/Views` what an update or a view knows of the
//! published text. `specs/Kept` puts it together for a play that goes on after an earlier log.
#![tactic(auto)]

ghost use Rattle.std.specs.Prelude.{ℕ, List, ◌∷◌, ◌≡◌, false, None, Some};
ghost use Rattle.rz_events.specs.Volume.{Volume};
ghost use Rattle.rz_events.specs.declared.keys.Actor.{Actor as AnActor};
ghost use Rattle.rz_events.specs.declared.keys.Key.{Key as AKey};
ghost use Rattle.rz_events.specs.declared.operations.Operation.{Operation as AnOperation};
ghost use Rattle.rz_events.specs.declared.events.Event.{Event as AnEvent};
ghost use Rattle.rz_events.specs.declared.events.Event.TheVariants as e;
ghost use Rattle.rz_events.specs.Events.{same_actor};
ghost use Rattle.rz_locks.specs.declared.conflict.Lock.{Lock};
ghost use Rattle.rz_core.specs.History.{facts, of_actor};
ghost use Rattle.rz_core.specs.Legal.{IsLegalInRuns};
ghost use Rattle.rz_script.specs.declared.line.Line.{Line as ALine};
ghost use Rattle.rz_script.specs.Lines.{IsActor};
ghost use Rattle.rz_node_model.specs.States.{NodeState};
ghost use Rattle.rz_export_model.specs.Export.{Export as ExportState};
ghost use Rattle.rz_play.specs.World.{World, world_after};
ghost use Rattle.rz_play.specs.Turns.{IsTurn};
ghost use Rattle.rz_play.specs.Played.{IsBegun, IsBegunFrom};
ghost use Rattle.rz_play_laws.specs.Fine.{IsFine, MayBegin};
ghost use Rattle.rz_play_laws.specs.Runs.{IsScript};
ghost use Rattle.rz_play_locks.specs.Operations.{IsUpdate, given, in_hand};
ghost use Rattle.rz_play_locks.specs.Promises.{published_text, newest_text};
ghost use Rattle.rz_play_locks.specs.Holding.{AreLocksApart, HasBlock, IsKeeping, IsLockKept};
ghost use Rattle.rz_play_locks.specs.Kept.{IsKeptAfter, NoUpdateLost, AreViewsWhole};

/// Between two turns of a play no two locks that are held conflict.
pub fn apart()
    ensures { (v : Volume) (script : List ALine) → IsScript v script → (log : List AnEvent) (p : IsBegun v script log) → AreLocksApart p.last }
{
    rz_play_laws::facts_told();
}

/// And each operation holds the lock that it has to, from its granted open to its `Done`.
pub fn held()
    ensures { (v : Volume) (script : List ALine) → IsScript v script → (log : List AnEvent) (p : IsBegun v script log)
        → (more : AnActor → List AnOperation) × IsKeeping v.layout (λ a. given a script) more log p.last }
{
    rz_play_laws::facts_told();
}

/// A lock that is held is held on, until the `Done` of its operation.
pub fn released()
    ensures { (v : Volume) (old : List AnEvent) (ops more : AnActor → List AnOperation) (w next : World)
        → (fine : IsFine v old w) → IsFine v old next → IsKeeping v.layout ops more fine.run w → (by : AnActor) → IsActor by → IsTurn v by w next
        → (a : AnActor) (lock : Lock) → (w.agendas a).lock ≡ Some lock → IsLockKept w next a lock }
{}

/// While an actor has a lock on a block, no other actor's update has a publish of it accepted.
pub fn barred()
    ensures { (v : Volume) (old : List AnEvent) (ops more : AnActor → List AnOperation) (w next : World)
        → (fine : IsFine v old w) → IsFine v old next → IsKeeping v.layout ops more fine.run w → (by : AnActor) → IsActor by → IsTurn v by w next
        → (b : AnActor) (key : AKey) (stamp mask : ℕ) → next.log ≡ e.Publish b key stamp mask None ∷ w.log
        → IsUpdate (in_hand (ops by) (of_actor by fine.run)) → (a : AnActor) → IsActor a → same_actor a by ≡ false
        → (lock : Lock) → (w.agendas a).lock ≡ Some lock → ¬ HasBlock v.layout lock key }
{}

/// Each accepted publish of a guarded block is of the text that was published before it, with the bytes
/// of its own update in place.
pub fn none_lost()
    ensures { (v : Volume) (script : List ALine) → IsScript v script → (log : List AnEvent) → IsBegun v script log → NoUpdateLost v script log }
{
    rz_play_laws::facts_told();
}

/// Each view whose blocks are guarded, and that answers, gives the bytes of the texts that were published
/// at its last open. It never ends as moved.
pub fn whole_views()
    ensures { (v : Volume) (script : List ALine) → IsScript v script → (log : List AnEvent) → IsBegun v script log → AreViewsWhole v script log }
{
    rz_play_laws::facts_told();
}

/// All of this of a play that goes on after an earlier log, for the events of its run.
pub fn after()
    ensures { (v : Volume) (script : List ALine) → IsScript v script
        → (nodes : ℕ → NodeState) (export : ExportState) (old : List AnEvent) → MayBegin v nodes export old
        → (log : List AnEvent) (p : IsBegunFrom v (world_after nodes export old) script log)
        → IsKeptAfter v.layout (λ a. given a script) old log p.last }
{
    rz_play_laws::facts_told();
}

/// What is published of a block is the text of its newest accepted publish.
pub fn newest()
    ensures { (v : Volume) (log : List AnEvent) → IsLegalInRuns v log → (key : AKey)
        → newest_text (facts log) log key ≡ published_text log key }
{}
