//! Disks that open for their nodes, and disks that are away.
use crate::nodes::{ONE, formatted};
use rz_disk::{Disk, PlainDisk};
use rz_events::{Layout, NodeSpec, OpenFault};
use rz_node::{Node, ReplaceAnswer};
use rz_nodes::{Arrival, KnownNode, Missing, open_each};
use std::process::Abort;
use std::test::Fail;

/// What is told of a disk: whether it is here, away or stale, and whether a fault is told that says that it
/// was never formatted.
#[derive(Clone, Copy, Debug, PartialEq, Eq, Drop)]
enum Outcome {
    Here,
    Absent,
    Stale,
    Unformatted,
    Other,
}

fn outcome_of(arrival: Arrival<PlainDisk>) -> Outcome {
    match arrival {
        Arrival::Here(server) => {
            drop(server);
            Outcome::Here
        }
        Arrival::Away(Missing::Absent) => Outcome::Absent,
        Arrival::Away(Missing::Stale(disk)) => {
            drop(disk);
            Outcome::Stale
        }
        Arrival::Away(Missing::Unopened(disk, fault)) => {
            drop(disk);
            if fault == OpenFault::Unformatted {
                Outcome::Unformatted
            } else {
                Outcome::Other
            }
        }
    }
}

/// What comes of a disk in the place of node 1, whose export knows this fence.
fn arrived(rt: &(impl Abort + AllocGlobal), fence: u64, disk: Option<PlainDisk>) -> Outcome {
    let known = KnownNode {
        node: NodeSpec { sid: 1, cells: 1 },
        losses: 0,
        fence,
    };
    let disks = vec![in rt.alloc(); disk].expect(rt, "memory");
    match open_each(rt.alloc(), Layout::L0, &[known], disks) {
        Ok((mut arrivals, home)) => {
            drop(home);
            let first = arrivals.pop();
            drop(arrivals);
            match first {
                Some(arrival) => outcome_of(arrival),
                None => rt.panic("nothing came"),
            }
        }
        Err(_) => rt.panic("memory"),
    }
}

/// The disk of node 1 after a loss whose fence is 7.
fn replaced(rt: &(impl Abort + AllocGlobal)) -> PlainDisk {
    let mut node: Node<PlainDisk> = formatted(rt, PlainDisk::new(rt.alloc()));
    let loss = node.lose();
    let answer = node.replace(rt.alloc(), 1, 7);
    assert!(rt; loss == Some(1) && answer == ReplaceAnswer::Replaced);
    node.into_disk()
}

#[test]
fn a_disk_is_here_absent_or_unformatted(rt: HostRuntime) -> Result<(), Fail> {
    let disk = formatted(&rt, PlainDisk::new(rt.alloc())).into_disk();
    let here = arrived(&rt, 0, Some(disk));
    let absent = arrived(&rt, 0, None);
    let mut blank = PlainDisk::new(rt.alloc());
    blank.reset(rt.alloc(), 8514).expect(&rt, "memory");
    let unformatted = arrived(&rt, 0, Some(blank));
    let empty = arrived(&rt, 0, Some(PlainDisk::new(rt.alloc())));
    assert!(rt; here == Outcome::Here && absent == Outcome::Absent);
    assert!(rt; unformatted == Outcome::Unformatted && empty == Outcome::Other);
    Ok(())
}

#[test]
fn a_disk_from_before_a_loss_is_stale(rt: HostRuntime) -> Result<(), Fail> {
    let lost = formatted(&rt, PlainDisk::new(rt.alloc())).into_disk();
    let stale = arrived(&rt, 7, Some(lost));
    let here = arrived(&rt, 7, Some(replaced(&rt)));
    let newer = arrived(&rt, 6, Some(replaced(&rt)));
    assert!(rt; stale == Outcome::Stale && here == Outcome::Here);
    assert!(rt; newer == Outcome::Stale);
    Ok(())
}
