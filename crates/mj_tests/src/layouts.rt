//! The numbers of the twelve layouts, one by one.

use mj_angles::{Layout, bins, offset, row_start};
use std::process::Abort;

/// A layout with its numbers, and the bins of its positions.
struct Row {
    layout: Layout,
    number: u8,
    bsize: u8,
    block_bytes: usize,
    inverse: usize,
    forward: usize,
    safe: usize,
    cols: usize,
    first_angle: i32,
    bins: &'static [usize],
    slot_bytes: usize,
}

const TABLE: [Row; 12] = [
    Row {
        layout: Layout::L0,
        number: 0,
        bsize: 0,
        block_bytes: 4096,
        inverse: 2,
        forward: 3,
        safe: 4,
        cols: 256,
        first_angle: -2,
        bins: &[258, 257, 256, 257],
        slot_bytes: 2112,
    },
    Row {
        layout: Layout::L0B1,
        number: 0,
        bsize: 1,
        block_bytes: 8192,
        inverse: 2,
        forward: 3,
        safe: 4,
        cols: 512,
        first_angle: -2,
        bins: &[514, 513, 512, 513],
        slot_bytes: 4160,
    },
    Row {
        layout: Layout::L0B2,
        number: 0,
        bsize: 2,
        block_bytes: 16384,
        inverse: 2,
        forward: 3,
        safe: 4,
        cols: 1024,
        first_angle: -2,
        bins: &[1026, 1025, 1024, 1025],
        slot_bytes: 8256,
    },
    Row {
        layout: Layout::L0B3,
        number: 0,
        bsize: 3,
        block_bytes: 32768,
        inverse: 2,
        forward: 3,
        safe: 4,
        cols: 2048,
        first_angle: -2,
        bins: &[2050, 2049, 2048, 2049],
        slot_bytes: 16448,
    },
    Row {
        layout: Layout::L1,
        number: 1,
        bsize: 0,
        block_bytes: 4096,
        inverse: 4,
        forward: 6,
        safe: 8,
        cols: 128,
        first_angle: -4,
        bins: &[140, 137, 134, 131, 128, 131, 134, 137],
        slot_bytes: 1168,
    },
    Row {
        layout: Layout::L1B1,
        number: 1,
        bsize: 1,
        block_bytes: 8192,
        inverse: 4,
        forward: 6,
        safe: 8,
        cols: 256,
        first_angle: -4,
        bins: &[268, 265, 262, 259, 256, 259, 262, 265],
        slot_bytes: 2192,
    },
    Row {
        layout: Layout::L1B2,
        number: 1,
        bsize: 2,
        block_bytes: 16384,
        inverse: 4,
        forward: 6,
        safe: 8,
        cols: 512,
        first_angle: -4,
        bins: &[524, 521, 518, 515, 512, 515, 518, 521],
        slot_bytes: 4240,
    },
    Row {
        layout: Layout::L1B3,
        number: 1,
        bsize: 3,
        block_bytes: 32768,
        inverse: 4,
        forward: 6,
        safe: 8,
        cols: 1024,
        first_angle: -4,
        bins: &[1036, 1033, 1030, 1027, 1024, 1027, 1030, 1033],
        slot_bytes: 8336,
    },
    Row {
        layout: Layout::L2,
        number: 2,
        bsize: 0,
        block_bytes: 4096,
        inverse: 8,
        forward: 12,
        safe: 16,
        cols: 64,
        first_angle: -8,
        bins: &[
            120, 113, 106, 99, 92, 85, 78, 71, 64, 71, 78, 85, 92, 99, 106, 113,
        ],
        slot_bytes: 1008,
    },
    Row {
        layout: Layout::L2B1,
        number: 2,
        bsize: 1,
        block_bytes: 8192,
        inverse: 8,
        forward: 12,
        safe: 16,
        cols: 128,
        first_angle: -8,
        bins: &[
            184, 177, 170, 163, 156, 149, 142, 135, 128, 135, 142, 149, 156, 163, 170, 177,
        ],
        slot_bytes: 1520,
    },
    Row {
        layout: Layout::L2B2,
        number: 2,
        bsize: 2,
        block_bytes: 16384,
        inverse: 8,
        forward: 12,
        safe: 16,
        cols: 256,
        first_angle: -8,
        bins: &[
            312, 305, 298, 291, 284, 277, 270, 263, 256, 263, 270, 277, 284, 291, 298, 305,
        ],
        slot_bytes: 2544,
    },
    Row {
        layout: Layout::L2B3,
        number: 2,
        bsize: 3,
        block_bytes: 32768,
        inverse: 8,
        forward: 12,
        safe: 16,
        cols: 512,
        first_angle: -8,
        bins: &[
            568, 561, 554, 547, 540, 533, 526, 519, 512, 519, 526, 533, 540, 547, 554, 561,
        ],
        slot_bytes: 4592,
    },
];

#[test]
fn layouts(rt: HostRuntime) {
    for row in &TABLE {
        check_numbers(&rt, row);
        check_positions(&rt, row);
    }
}

fn check_numbers(rt: &impl Abort, row: &Row) {
    let layout = row.layout;
    let found = [
        layout.block_bytes(),
        layout.inverse(),
        layout.forward(),
        layout.safe(),
        layout.cols(),
        48 + 8 * layout.max_bins(),
    ];
    let wanted = [
        row.block_bytes,
        row.inverse,
        row.forward,
        row.safe,
        row.cols,
        row.slot_bytes,
    ];
    assert_eq!(rt;
        (layout.number(), layout.bsize(), found),
        (row.number, row.bsize, wanted)
    );
    assert_eq!(rt; Layout::of(row.number, row.bsize), Some(layout));
}

fn check_positions(rt: &impl Abort, row: &Row) {
    let layout = row.layout;
    assert_eq!(rt; row.bins.len(), layout.safe());
    let mut angle = row.first_angle;
    for (position, bins) in row.bins.iter().enumerate() {
        let position = position as u8;
        let found = (position, layout.angle(position), layout.bins_at(position));
        assert_eq!(rt; found, (position, angle, *bins));
        angle = angle.wrapping_add(1);
    }
}

#[test]
fn lines(rt: HostRuntime) {
    assert_eq!(rt; (Layout::of(3, 0), Layout::of(0, 4)), (None, None));
    let found = [
        bins(-2, 2, 3),
        bins(16, 16, 2048),
        offset(-2, 2),
        offset(2, 2),
        row_start(2, 4, 3),
        row_start(-2, 4, 0),
        row_start(-2, 4, 3),
    ];
    assert_eq!(rt; found, [5, 2288, 2, 0, 6, 6, 0]);
}
