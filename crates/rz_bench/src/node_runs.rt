//! A node that is filled and called, and the lines that tell of it.

use crate::nodes::FullNode;
use crate::telling::Teller;
use crate::words::NodeSize;
use std::io;
use std::rt::Clock;
use std::time::Instant;

/// Makes calls on a node of this size, if there is to be one.
pub fn run_node<R: Print + Clock + Drop>(
    teller: &Teller<R>,
    size: Option<NodeSize>,
) -> io::Result<()> {
    let Some(size) = size else {
        return Ok(());
    };
    let pairs = size.pairs;
    println!(teller.rt; "node of {pairs} pairs")?;
    let start = teller.now()?;
    let mut node = FullNode::format(teller.alloc, pairs)?;
    let ran = run_calls(teller, &mut node, start, size.calls);
    drop(node);
    ran
}

fn run_calls<R: Print + Clock + Drop>(
    teller: &Teller<R>,
    node: &mut FullNode,
    start: Instant,
    calls: u32,
) -> io::Result<()> {
    teller.tell("fill", "kept", start, node.fill())?;
    let start = teller.now()?;
    teller.tell("overfill", "full", start, node.overfill(calls))?;
    let start = teller.now()?;
    teller.tell("drop-keep", "kept", start, node.drop_and_keep(calls))?;
    let start = teller.now()?;
    teller.tell("fetch", "held", start, node.fetch(calls))?;
    let start = teller.now()?;
    teller.tell("refill", "passed", start, node.refill(calls))?;
    let start = teller.now()?;
    teller.tell("keep", "kept", start, node.renew(calls))
}
