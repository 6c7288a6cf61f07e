//! A node is asked for a record.
ghost use Rattle.std.specs.Prelude.{◌≡◌, ◌≢◌, ◌≤◌, ◌∷◌, ℕ, List, Some, true, drop, length};
ghost use Rattle.mj_angles.specs.Layout.{max_bins_of};
ghost use Rattle.rz_events.specs.declared.keys.Actor.TheVariants.{Admin};
ghost use Rattle.rz_events.specs.declared.events.Event.{Event};
ghost use Rattle.rz_node.specs.Spends.{fetch_used};
ghost use Rattle.rz_node_model.specs.Afterwards.{after_fetch};
ghost use Rattle.rz_node_model.specs.Answers.{IsFetchAnswer, fetch_answer};
ghost use Rattle.rz_node_model.specs.NodeEvents.{fetch_event};
ghost use Rattle.rz_scrub_report.specs.Stores.{AreBinsRead};
ghost use Rattle.rz_driver_nodes.specs.Meters.{AreMetered, CarriesCounts, GoesAsServer};
ghost use Rattle.rz_driver_nodes.specs.Fetches.{GivesAt, GivesIn, HaveRoom, IsFetch};
ghost use Rattle.rz_driver_nodes.specs.Asked.{IsServerOnlyAsked, AreOnlyAsked};

use crate::server::find;
use rz_disk::Disk;
use rz_events::{FetchAnswer, Key};
use rz_nodes::Server;

/// Asks the node of this number for its record of a key with this stamp. The bins come to the front of
/// `room`. Where no node has the number, the answer is that of a node that holds nothing.
pub fn fetch_node<D: Disk>(
    servers: &mut [Server<D>],
    sid: u16,
    key: Key,
    stamp: u64,
    room: &mut [u64],
) -> FetchAnswer
    requires { HaveRoom (length room.old) servers.old }
    ensures fetched { IsFetch key stamp result sid servers.old servers.new }
    ensures asked { AreOnlyAsked D.text D.image servers.old servers.new }
    ensures read { AreBinsRead (GivesIn D.tells D.text servers.old sid key) result room.old room.new }
    ensures unread { fetch_used result ≢ Some true → room.new ≡ room.old }
    ensures behind { (count : ℕ) → HaveRoom count servers.old → drop count room.new ≡ drop count room.old }
    ensures metered { (position : ℕ) (numbers : List ℕ) (h : List Event) → CarriesCounts (AreMetered D.meter numbers servers.old h) (AreMetered D.meter numbers servers.new (fetch_event Admin sid key position stamp result ∷ h)) }
{
    match find(servers, sid) {
        Some(place) => fetch(&mut servers[place], key, stamp, room),
        None => FetchAnswer::Nothing,
    }
}

fn fetch<D: Disk>(server: &mut Server<D>, key: Key, stamp: u64, room: &mut [u64]) -> FetchAnswer
    requires { max_bins_of server.old.node.geometry.layout ≤ length room.old }
    ensures given { IsFetchAnswer (fetch_answer server.old.node.state key stamp) result }
    ensures after { server.new.node.state ≡ after_fetch result server.old.node.state }
    ensures asked { IsServerOnlyAsked D.text D.image server.old server.new }
    ensures read { AreBinsRead (GivesAt D.tells D.text server.old key) result room.old room.new }
    ensures unread { fetch_used result ≢ Some true → room.new ≡ room.old }
    ensures behind { drop (max_bins_of server.old.node.geometry.layout) room.new ≡ drop (max_bins_of server.old.node.geometry.layout) room.old }
    ensures metered { (position : ℕ) → GoesAsServer D.meter server.old server.new (Some (fetch_event Admin server.old.sid key position stamp result)) }
{
    rz_node_laws::faults();
    server.node.fetch_into(key, stamp, room)
}
