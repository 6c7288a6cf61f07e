//! What is scrubbed.

ghost use Rattle.std.specs.Prelude.{◌≡◌, ◌≤◌, ◌∷◌, [], ℕ, List, length};
ghost use Rattle.mj_angles.specs.Layout.{max_bins_of};
ghost use Rattle.rz_events.specs.Volume.{Volume};
ghost use Rattle.rz_events.specs.declared.events.Event.{Event};
ghost use Rattle.rz_events.specs.declared.keys.Actor.TheVariants.{Admin};
ghost use Rattle.rz_events.specs.declared.keys.Key.{Key};
ghost use Rattle.rz_events.specs.declared.records.Held.{Held};
ghost use Rattle.rz_export_model.specs.Export.{published_after};
ghost use Rattle.rz_node_model.specs.NodeEvents.{fetch_event};
ghost use Rattle.rz_scrub_report.specs.Stores.{IsOnlyAsked, IsAnsweredFetch, AreBinsRead, State};

use mj_angles::Layout;
use rz_events::{FetchAnswer, Key, Listed};

/// A store whose published blocks can be listed, and whose nodes can be asked for records.
///
/// It keeps no events. Its contracts speak of the events that its asks would be, had the administrator's
/// asks a log.
pub trait ScrubbedStore {
    /// The volume that it is a store of.
    ghost described: { Self → Volume };

    /// The export and the nodes, beside these events.
    ghost state: { Self → List Event → State };

    /// It can be asked.
    ghost is_open: { Self → Type 0 };

    /// What the disk of a node gives of a record of a key: what is told of the record, what lay in the room
    /// for its bins, and what lies there then.
    ghost gives: { Self → ℕ → Key → Held → List ℕ → List ℕ → Type 0 };

    /// What is so of the disks beside these events, where each disk, by its place, had counted so many faults
    /// at first.
    ghost counts: { Self → List Event → (ℕ → ℕ) → Type 0 };

    /// The second is the first after no other calls than asks.
    ghost only_asked: { Self → Self → Type 0 };

    ghost itself: { (s : Self) → only_asked s s };

    ghost then: { (a b c : Self) → only_asked a b → only_asked b c → only_asked a c };

    fn layout(&self) -> Layout
        ensures { result ≡ (described self.now).layout };

    /// The least published block of a live file above a key.
    fn published(&self, after: Option<Key>) -> Option<Listed>
        ensures { (h : List Event) → result ≡ published_after (state self.now h).export after };

    /// Asks a node for its record of the stamp. The bins come to the front of the room. A node that the store
    /// does not have answers as its state says.
    fn fetch(&mut self, node: u16, key: Key, stamp: u64, room: &mut [u64]) -> FetchAnswer
        requires ready { is_open self.old }
        requires room { max_bins_of (described self.old).layout ≤ length room.old }
        ensures fetched { (position : ℕ) (h : List Event) → IsAnsweredFetch node key position stamp result (state self.old h) (state self.new (fetch_event Admin node key position stamp result ∷ h)) }
        ensures read { AreBinsRead (gives self.old node key) result room.old room.new }
        ensures onward { (position : ℕ) → IsOnlyAsked is_open described gives state counts only_asked self.old self.new (fetch_event Admin node key position stamp result ∷ []) };
}
