//! Nodes are put behind locks.
ghost use Rattle.std.specs.Prelude.{◌≡◌, ◌≤◌, false};
ghost use Rattle.std.specs.List.{AllZip};
ghost use Rattle.std.specs.Vec.{vec_len, vec_capacity};
ghost use Rattle.rz_shared.specs.Seating.{IsNodeReady, IsArrivedReady};

use crate::{LockedNode, Metering};
use rz_chronicle::WordToken;
use rz_disk::{Disk, Fused};
use rz_nodes::Server;
use std::alloc::Global;
use std::sync::Mutex;

/// What is known of a node whose disk is away, and which is down.
#[derive(Clone, Copy, Drop)]
pub struct AwayNode {
    pub sid: u16,
    /// The fence of its last replacement, or 0.
    pub fence: u64,
    /// How many disks it lost.
    pub losses: u64,
}

/// A node that was opened on its disk, or one whose disk is away.
#[derive(Drop)]
pub enum Arrived<D: Disk> {
    Here(Server<Fused<D>>),
    Away(AwayNode),
}

/// A lock for each node with the token of its word, in their order, and the emptied vector of the tokens.
pub(crate) fn locked_node_all<D: Disk, J: Metering>(
    alloc: Global,
    servers: Vec<Server<Fused<D>>>,
    word_tokens: Vec<WordToken<J>>,
    room: Vec<Mutex<LockedNode<Fused<D>, J>>>,
) -> (Vec<Mutex<LockedNode<Fused<D>, J>>>, Vec<WordToken<J>>)
    requires ready { AllZip (IsNodeReady D.tells D.meter D.image J.kind J.earlier J.first) servers.items word_tokens.items }
    requires room { (vec_len room ≡ 0) × (vec_len servers ≤ vec_capacity room) }
    ensures count { vec_len result.0 ≡ vec_len servers }
    ensures empty { vec_len result.1 ≡ 0 }
    ensures home { vec_capacity result.1 ≡ vec_capacity word_tokens }
{
    let mut servers = servers;
    let mut word_tokens = word_tokens;
    let mut locked_nodes = room;
    while let Some(server) = servers.pop() {
        if let Some(word_token) = word_tokens.pop() {
            locked_nodes.push_reserved(seated(alloc, server, word_token));
        } else {
            drop(server);
        }
    }
    locked_nodes.reverse();
    (locked_nodes, word_tokens)
}

/// A lock with a node in it and the token of its word.
fn seated<D: Disk, J: Metering>(
    alloc: Global,
    server: Server<Fused<D>>,
    word_token: WordToken<J>,
) -> Mutex<LockedNode<Fused<D>, J>>
    requires ready { IsNodeReady D.tells D.meter D.image J.kind J.earlier J.first server word_token }
{
    Mutex::new(LockedNode::opened(alloc, server.sid, server.node, word_token))
}

/// The same of nodes of which some are away.
pub(crate) fn locked_node_each<D: Disk, J: Metering>(
    alloc: Global,
    nodes: Vec<Arrived<D>>,
    word_tokens: Vec<WordToken<J>>,
    room: Vec<Mutex<LockedNode<Fused<D>, J>>>,
) -> (Vec<Mutex<LockedNode<Fused<D>, J>>>, Vec<WordToken<J>>)
    requires free { J.fixed ≡ false }
    requires ready { AllZip (IsArrivedReady D.tells D.meter D.image J.kind J.earlier J.first) nodes.items word_tokens.items }
    requires room { (vec_len room ≡ 0) × (vec_len nodes ≤ vec_capacity room) }
    ensures count { vec_len result.0 ≡ vec_len nodes }
    ensures empty { vec_len result.1 ≡ 0 }
    ensures home { vec_capacity result.1 ≡ vec_capacity word_tokens }
{
    let mut nodes = nodes;
    let mut word_tokens = word_tokens;
    let mut locked_nodes = room;
    while let Some(node) = nodes.pop() {
        if let Some(word_token) = word_tokens.pop() {
            locked_nodes.push_reserved(lock_of(alloc, node, word_token));
        } else {
            drop(node);
        }
    }
    locked_nodes.reverse();
    (locked_nodes, word_tokens)
}

/// A lock with a node in it that is here or away, and the token of its word.
fn lock_of<D: Disk, J: Metering>(
    alloc: Global,
    node: Arrived<D>,
    word_token: WordToken<J>,
) -> Mutex<LockedNode<Fused<D>, J>>
    requires free { J.fixed ≡ false }
    requires ready { IsArrivedReady D.tells D.meter D.image J.kind J.earlier J.first node word_token }
{
    match node {
        Arrived::Here(server) => seated(alloc, server, word_token),
        Arrived::Away(away) => Mutex::new(LockedNode::away(
            alloc,
            away.sid,
            away.fence,
            away.losses,
            word_token,
        )),
    }
}
