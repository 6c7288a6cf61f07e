//! What operations weigh.

ghost use Rattle.std.specs.Prelude.{◌≡◌, ◌≤◌, ◌<◌, ◌+◌, ◌*◌, ◌^◌, sum_by};
ghost use Rattle.rz_script.specs.Weights.{block_weight, range_weight, operation_weight, line_weight};

use crate::{Line, Operation};
use mj_angles::Layout;
use rz_script_words::judges::datum_length;

/// A block, in pieces of 4096 bytes.
fn block_weight(layout: Layout) -> u64
    ensures value { result ≡ block_weight layout }
    ensures few { result ≤ 8 }
{
    (layout.block_bytes() / 4096) as u64
}

/// So many bytes, which may begin and end within blocks.
fn range_weight(layout: Layout, length: u64) -> u64
    ensures value { result ≡ range_weight layout length }
    ensures few { 4096 * result ≤ length + 65536 }
{
    (length / layout.block_bytes() as u64 + 2) * block_weight(layout)
}

/// An operation.
fn operation_weight(layout: Layout, op: &Operation) -> u64
    ensures { result ≡ operation_weight layout op.now }
{
    match op {
        Operation::Tree(_) | Operation::Rebuild { .. } => 0,
        Operation::Put { .. } | Operation::Get { .. } => block_weight(layout),
        Operation::Read { length, .. } | Operation::View { length, .. } => {
            range_weight(layout, *length)
        }
        Operation::Write { datum, .. } | Operation::Update { datum, .. } => {
            2 * range_weight(layout, datum_length(datum))
        }
    }
}

/// A line.
fn line_weight(layout: Layout, line: &Line) -> u64
    ensures { result ≡ line_weight layout line.now }
{
    match line {
        Line::Op { op, .. } => operation_weight(layout, op),
        _ => 0,
    }
}

/// Some lines.
pub fn lines_weight(layout: Layout, lines: &[Line]) -> u64
    requires { sum_by (line_weight layout) lines.now < 2 ^ 64 }
    ensures { result ≡ sum_by (line_weight layout) lines.now }
{
    lines.iter().map(|line| line_weight(layout, line)).sum()
}
