//! The log: what its events say, and which histories are legal.
//!
//! Definitions stand here, in reading order: `History` has a history, its parts by word and by actor,
//! and the permanent facts; `NodeWord` and `ExportWord` say what the events of a node's and of the
//! export's word leave there; `Own` says what an actor's own events say, and `Outcomes` what came of
//! each position in a read or a write. `ExportRows`, `NodeRows` and `OwnRows` have one row for each
//! kind of event: when it is allowed; `Courses` has the course of an operation, which says what ends
//! it. `HeldRecords` has the records that a node holds. `Legal` puts the rows together. `Longer` says
//! what holds of a log that goes on after another. `Tied` says when the state of a node or of the
//! export is the one that the log gives, and what then holds of each of their calls.
//!
//! Each row reads three things alone: the events of the event's word, the events by its actor, and
//! the permanent facts. What a node and the export answer is said by the crates `rz_node_model` and
//! `rz_export_model`, and what an operation asks by `rz_operation_model`; nothing here says how they
//! keep their state.
#![tactic(auto)]

ghost use Rattle.std.specs.Prelude.{ℕ, List, Option};
ghost use Rattle.rz_events.specs.Volume.{Volume};
ghost use Rattle.rz_events.specs.declared.keys.Key.{Key as AKey};
ghost use Rattle.rz_events.specs.declared.records.Head.{Head as AHead};
ghost use Rattle.rz_events.specs.declared.nodes.NodeAsk.TheVariants as ask;
ghost use Rattle.rz_events.specs.declared.tree.TreeCall.{TreeCall as ATreeCall};
ghost use Rattle.rz_events.specs.declared.export.Call.TheVariants as call;
ghost use Rattle.rz_events.specs.declared.events.Event.{Event as AnEvent};
ghost use Rattle.rz_core.specs.Legal.{IsLocal, IsLocalInRuns};
ghost use Rattle.rz_core.specs.Longer.{IsNextRun, IsPermanent, IsPrefixLegal, IsPrefixLegalInRuns, IsOneRun};
ghost use Rattle.rz_core.specs.Tied.{HasState, IsExportLaw, IsExportLawOf, IsNodeLaw, IsNodeLawOf};

/// What is allowed stays allowed, whatever others do: a later history of the same facts allows an
/// event that an earlier one allowed, where what lies between is neither of the event's word nor by
/// its actor.
pub fn local()
    ensures { (v : Volume) → IsLocal v }
{}

/// The same in the log of several runs.
pub fn local_in_runs()
    ensures { (v : Volume) → IsLocalInRuns v }
{}

/// The beginnings of a legal log are legal.
pub fn beginnings()
    ensures { (v : Volume) → IsPrefixLegal v }
{}

/// The same of the log of several runs.
pub fn beginnings_in_runs()
    ensures { (v : Volume) → IsPrefixLegalInRuns v }
{}

/// A legal log is the log of one run: what holds of the logs of any number of runs holds of it.
pub fn one_run()
    ensures { (v : Volume) → IsOneRun v }
{}

/// A run that goes on after the log of any number of runs makes the log of one run more.
pub fn next_run()
    ensures { (v : Volume) → IsNextRun v }
{}

/// A permanent fact that stands in a log stands unchanged in every longer one.
pub fn permanent()
    ensures { (h more : List AnEvent) → IsPermanent h more }
{}

/// Each word of a node gives a state of the node, so one whose disk is not at hand has one too.
pub fn states()
    ensures { HasState }
{}

/// A keep by a node after a legal log, by the writer of its record and at the record's place: its event
/// is allowed, and the node's state after it is the one that the log then gives. So are a refusal, a
/// record that is passed over, and a disk fault.
pub fn node_keep()
    ensures { (v : Volume) (head : AHead) → IsNodeLawOf v (ask.Keep head) }
{}

/// The same of a refill by the rebuilder of the node.
pub fn node_refill()
    ensures { (v : Volume) (fence : ℕ) (head : AHead) → IsNodeLawOf v (ask.Refill fence head) }
{}

/// The same of a fetch: it tells the record of the very stamp exactly where the log has it.
pub fn node_fetch()
    ensures { (v : Volume) (key : AKey) (position stamp : ℕ) → IsNodeLawOf v (ask.Fetch key position stamp) }
{}

/// Each call of a node after a legal log, by a caller that may make it: its event, if it has one, is
/// allowed, and the node's state after it is the one that the log then gives.
pub fn nodes()
    ensures { (v : Volume) → IsNodeLaw v }
{}

/// A call on names after a legal log: its event is allowed, and the export is then as the log gives it.
pub fn export_tree()
    ensures { (v : Volume) (c : ATreeCall) → IsExportLawOf v (call.Tree c) }
{}

/// A begin after a legal log: its event is allowed, be it begun or denied, and the export is then as the
/// log gives it.
pub fn export_begin()
    ensures { (v : Volume) (key : AKey) (text : List ℕ) → IsExportLawOf v (call.Begin key text) }
{}

/// An enrolment after a legal log, of a loss that the caller was told by a probe of the node: it gives the
/// fence of the greatest loss, which is drawn where that loss is new, or it says that a greater one is known.
pub fn export_enroll()
    ensures { (v : Volume) (node loss : ℕ) → IsExportLawOf v (call.Enroll node loss) }
{}

/// A look after a legal log: it tells what is published of a block of a live file, or that there is no
/// such file or block.
pub fn export_look()
    ensures { (v : Volume) (key : AKey) → IsExportLawOf v (call.Look key) }
{}

/// The same of a recheck by an actor that looked the key up, or was told it.
pub fn export_recheck()
    ensures { (v : Volume) (key : AKey) → IsExportLawOf v (call.Recheck key) }
{}

/// A publish after a legal log, by the writer that kept its records at a quorum of nodes: it is accepted
/// where no later write of the key began and no node of the mask was enrolled above its stamp; else it
/// says which write or which node stands against it.
pub fn export_publish()
    ensures { (v : Volume) (key : AKey) (stamp mask length : ℕ) → IsExportLawOf v (call.Publish key stamp mask length) }
{}

/// A `Next` after a legal log: it tells the least key after the given one whose published mask names the
/// node, or that there is none.
pub fn export_next()
    ensures { (v : Volume) (node : ℕ) (after : Option AKey) → IsExportLawOf v (call.Next node after) }
{}

/// Each call of the export after a legal log, by a caller that may make it: the event of its reply is
/// allowed, a denial's as well, and the export's state after it is the one that the log then gives.
pub fn exports()
    ensures { (v : Volume) → IsExportLaw v }
{}
