//! The bytes of a header, and each call that takes memory, with ample memory.

use rz_cells::{Cells, Geometry};
use rz_disk::{Disk, PlainDisk};
use rz_events::Layout;
use std::process::Abort;
use std::test::Fail;

/// One pair of cells of node 258.
const ONE: Geometry = Geometry {
    layout: Layout::L0,
    bsize: 0,
    node: 258,
    cells: 1,
};

/// The first bytes of a disk of these cells with fence 7, and the size of the disk.
const HEADER: &[u8; 33] = b"MJROZO02\0\0\x02\x01\x01\0\0\0\x07\0\0\0\0\0\0\0\0\0\0\0\0\0\0\0\x01";

const SIZE: u64 = 8514;

fn is_send<T: Send + Drop>(_value: &T) {}

/// Cells with fence 7, which may go to other threads.
fn formatted(rt: &(impl Abort + AllocGlobal)) -> Cells<PlainDisk> {
    match Cells::format(rt.alloc(), ONE, 7, PlainDisk::new(rt.alloc())) {
        Ok(cells) => {
            is_send(&cells);
            cells
        }
        Err(_) => rt.panic("not formatted"),
    }
}

#[test]
fn a_header_has_its_bytes(rt: HostRuntime) -> Result<(), Fail> {
    let mut disk = formatted(&rt).into_disk();
    let size = disk.size();
    assert!(rt; size == SIZE);
    let mut bytes = [9; 33];
    let read = disk.read(0, &mut bytes);
    drop(disk);
    assert!(rt; read.is_ok() && bytes == *HEADER);
    Ok(())
}

/// The cells on a disk that has some.
fn reopened(rt: &(impl Abort + AllocGlobal), disk: PlainDisk) -> Cells<PlainDisk> {
    match Cells::reopen(rt.alloc(), ONE, disk) {
        Ok(cells) => cells,
        Err(_) => rt.panic("not opened"),
    }
}

#[test]
fn cells_are_opened_and_made_anew(rt: HostRuntime) -> Result<(), Fail> {
    let mut cells = reopened(&rt, formatted(&rt).into_disk());
    let is_opened = cells.open_again(rt.alloc()).is_ok();
    let is_anew = cells.format_again(rt.alloc(), 8).is_ok();
    let fence = cells.fence();
    drop(cells);
    assert!(rt; (is_opened, is_anew, fence) == (true, true, 8));
    Ok(())
}
