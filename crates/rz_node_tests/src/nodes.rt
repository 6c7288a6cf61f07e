//! Each call that takes memory, with ample memory.
ghost use Rattle.std.specs.Prelude.{◌≡◌, IfOk, vec_len};

use rz_disk::{Disk, Fused, PlainDisk};
use rz_events::Layout;
use rz_node::{Geometry, Key, Node, Phase, ReplaceAnswer, StartAnswer};
use std::alloc::{AllocError, Global};
use std::process::Abort;
use std::test::Fail;

/// One pair of cells of node 1.
pub const ONE: Geometry = Geometry {
    layout: Layout::L0,
    bsize: 0,
    node: 1,
    cells: 1,
};

pub const KEY: Key = Key { fid: 1, block: 2 };

/// A node with one pair.
pub fn formatted<D: Disk>(rt: &(impl Abort + AllocGlobal), disk: D) -> Node<D>
    ensures { result.geometry ≡ ONE }
{
    match Node::format(rt.alloc(), ONE, disk) {
        Ok(node) => node,
        Err(_) => rt.panic("not formatted"),
    }
}

pub fn words(alloc: Global, word: u64) -> Result<Vec<u64>, AllocError>
    ensures { IfOk result (λ v. vec_len v ≡ 258) }
{
    vec![in alloc; word; 258]
}

fn is_send<T: Send + Drop>(_value: &T) {}

#[test]
fn nodes_may_go_to_other_threads(rt: HostRuntime) -> Result<(), Fail> {
    let node = formatted(&rt, Fused::new(PlainDisk::new(rt.alloc())));
    is_send(&node);
    drop(node);
    Ok(())
}

/// A node that lost two disks before, on a disk that has cells.
fn reopened(rt: &(impl Abort + AllocGlobal), disk: PlainDisk) -> Node<PlainDisk> {
    match Node::reopen(rt.alloc(), ONE, 3, disk) {
        Ok(node) => node,
        Err(_) => rt.panic("not opened"),
    }
}

#[test]
fn a_node_is_opened_and_started(rt: HostRuntime) -> Result<(), Fail> {
    let disk = formatted(&rt, PlainDisk::new(rt.alloc())).into_disk();
    let mut node = reopened(&rt, disk);
    let has_stopped = node.stop();
    let phase = node.phase();
    let answer = node.start(rt.alloc());
    drop(node);
    assert!(rt; has_stopped && phase == Phase::Down);
    assert!(rt; answer == StartAnswer::Started { took: false });
    Ok(())
}

#[test]
fn a_lost_disk_is_replaced(rt: HostRuntime) -> Result<(), Fail> {
    let mut node = formatted(&rt, PlainDisk::new(rt.alloc()));
    let loss = node.lose();
    let answer = node.replace(rt.alloc(), 1, 7);
    drop(node);
    assert!(rt; loss == Some(1) && answer == ReplaceAnswer::Replaced);
    Ok(())
}
