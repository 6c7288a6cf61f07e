//! The event of a node's answer.
ghost use Rattle.std.specs.Prelude.{◌≡◌};
ghost use Rattle.rz_node_model.specs.NodeEvents as model;
ghost use Rattle.rz_node_model.specs.NodeEvents.{keep_event, refill_event, fetch_event, drop_event, start_event, replace_event};

use rz_events::{
    Actor, Change, DropAnswer, Event, FetchAnswer, Head, KeepAnswer, Key, NodeAnswer, NodeAsk,
    RefillAnswer, ReplaceAnswer, StartAnswer, Why,
};

/// The event of an answer, or none.
pub fn node_event(by: Actor, node: u16, ask: &NodeAsk, answer: &NodeAnswer) -> Option<Event>
    ensures { result ≡ model.node_event by node ask.now answer.now }
{
    match (ask, answer) {
        (NodeAsk::Keep(head), NodeAnswer::Keep(given)) => Some(kept(by, node, head, *given)),
        (
            NodeAsk::Fetch {
                key,
                position,
                stamp,
            },
            NodeAnswer::Fetch(given),
        ) => Some(fetched(by, node, *key, *position, *stamp, *given)),
        (NodeAsk::Refill { fence, head }, NodeAnswer::Refill(given)) => {
            Some(refilled(by, node, *fence, head, *given))
        }
        (NodeAsk::Drop { fid }, NodeAnswer::Drop(given)) => Some(dropped(by, node, *fid, *given)),
        (NodeAsk::Probe, NodeAnswer::Probe(loss)) => Some(Event::Probe {
            by,
            node,
            loss: *loss,
        }),
        (NodeAsk::Stop, NodeAnswer::Stop(true)) => Some(Event::Stop { node }),
        (NodeAsk::Start, NodeAnswer::Start(given)) => started(node, *given),
        (NodeAsk::Lose, NodeAnswer::Lose(Some(loss))) => Some(Event::Lose { node, loss: *loss }),
        (NodeAsk::Replace { loss, fence }, NodeAnswer::Replace(given)) => {
            replaced(by, node, *loss, *fence, *given)
        }
        _ => None,
    }
}

fn kept(by: Actor, node: u16, head: &Head, given: KeepAnswer) -> Event
    ensures { result ≡ keep_event by node head.now.key head.now.stamp head.now.position given }
{
    let change = Change::Keep {
        key: head.key,
        stamp: head.stamp,
        position: head.position,
    };
    match given {
        KeepAnswer::Kept => Event::Did { by, node, change },
        KeepAnswer::Passed { held } => Event::Passed {
            by,
            node,
            key: head.key,
            stamp: head.stamp,
            held,
        },
        KeepAnswer::Lost => refused(by, node, Why::Lost, 0),
        KeepAnswer::Down => refused(by, node, Why::Down, 0),
        KeepAnswer::Fenced { fence } => refused(by, node, Why::Fenced, fence),
        KeepAnswer::Full => refused(by, node, Why::Full, 0),
        KeepAnswer::DiskFault => Event::Broke {
            by,
            node,
            change: Some(change),
        },
    }
}

fn refilled(by: Actor, node: u16, fence: u64, head: &Head, given: RefillAnswer) -> Event
    ensures { result ≡ refill_event by node fence head.now.key head.now.stamp head.now.position given }
{
    let change = Change::Refill {
        fence,
        key: head.key,
        stamp: head.stamp,
        position: head.position,
    };
    match given {
        RefillAnswer::Kept => Event::Did { by, node, change },
        RefillAnswer::Passed { held } => Event::Passed {
            by,
            node,
            key: head.key,
            stamp: head.stamp,
            held,
        },
        RefillAnswer::Lost => refused(by, node, Why::Lost, 0),
        RefillAnswer::Down => refused(by, node, Why::Down, 0),
        RefillAnswer::OtherFence { fence } => refused(by, node, Why::OtherFence, fence),
        RefillAnswer::Full => refused(by, node, Why::Full, 0),
        RefillAnswer::DiskFault => Event::Broke {
            by,
            node,
            change: Some(change),
        },
    }
}

fn fetched(by: Actor, node: u16, key: Key, position: u8, stamp: u64, given: FetchAnswer) -> Event
    ensures { result ≡ fetch_event by node key position stamp given }
{
    match given {
        FetchAnswer::Held(record) => Event::Fetch {
            by,
            node,
            key,
            position,
            stamp,
            answer: Some(record),
        },
        FetchAnswer::Nothing => Event::Fetch {
            by,
            node,
            key,
            position,
            stamp,
            answer: None,
        },
        FetchAnswer::Lost => refused(by, node, Why::Lost, 0),
        FetchAnswer::Down => refused(by, node, Why::Down, 0),
        FetchAnswer::DiskFault => Event::Broke {
            by,
            node,
            change: None,
        },
    }
}

fn dropped(by: Actor, node: u16, fid: u128, given: DropAnswer) -> Event
    ensures { result ≡ drop_event by node fid given }
{
    match given {
        DropAnswer::Dropped { block, stamp, .. } => Event::Did {
            by,
            node,
            change: Change::Drop {
                key: Key { fid, block },
                stamp,
            },
        },
        DropAnswer::Nothing => Event::Void { by, node, fid },
        DropAnswer::Lost => refused(by, node, Why::Lost, 0),
        DropAnswer::Down => refused(by, node, Why::Down, 0),
        DropAnswer::DiskFault { block, stamp } => Event::Broke {
            by,
            node,
            change: Some(Change::Drop {
                key: Key { fid, block },
                stamp,
            }),
        },
    }
}

fn started(node: u16, given: StartAnswer) -> Option<Event>
    ensures { result ≡ start_event node given }
{
    match given {
        StartAnswer::Started { took } => Some(Event::Start { node, took }),
        StartAnswer::NotDown | StartAnswer::NoMemory => None,
        StartAnswer::Unopened(fault) => Some(Event::Unopened {
            node,
            cause: fault.number(),
        }),
    }
}

fn replaced(by: Actor, node: u16, loss: u64, fence: u64, given: ReplaceAnswer) -> Option<Event>
    ensures { result ≡ replace_event by node loss fence given }
{
    match given {
        ReplaceAnswer::Replaced => Some(Event::Replace {
            by,
            node,
            loss,
            fence,
        }),
        ReplaceAnswer::NotLost => Some(refused(by, node, Why::NotLost, 0)),
        ReplaceAnswer::OtherLoss { loss } => Some(refused(by, node, Why::OtherLoss, loss)),
        ReplaceAnswer::NoMemory => None,
        ReplaceAnswer::DiskFault => Some(refused(by, node, Why::DiskFault, 0)),
    }
}

fn refused(by: Actor, node: u16, why: Why, told: u64) -> Event
    ensures { result ≡ Event.Refused by node why told }
{
    Event::Refused {
        by,
        node,
        why,
        told,
    }
}
