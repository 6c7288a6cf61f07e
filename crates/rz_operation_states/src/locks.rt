//! The bytes that an operation locks: those of the blocks in which its range lies.

ghost use Rattle.std.specs.Prelude.{◌≡◌, ◌≤◌, ◌+◌, ◌^◌};
ghost use Rattle.mj_angles.specs.Layout.{block_bytes_of};
ghost use Rattle.rz_operation_model.specs.Ask.{first_byte, whole_bytes, lock_asks};
ghost use Rattle.rz_operation_states.specs.Meaning.{meaning_of, path_in};
ghost use Rattle.rz_operation_states.specs.Answers.{IsWithinFile};

use crate::ask::Ask;
use mj_angles::Layout;
use rz_events::TreeCall;
use rz_file::FilePlan;

/// The file is opened and its bytes are locked.
pub fn lock_ask<'a>(layout: Layout, call: &'a TreeCall, plan: &FilePlan) -> Ask<'a>
    requires { IsWithinFile plan.now.plan }
    ensures { meaning_of result ≡ lock_asks layout (path_in call.now) plan.now.plan }
{
    Ask::Lock {
        call,
        exclusive: plan.is_write(),
        from: first_byte(layout, plan.offset()),
        count: whole_bytes(layout, plan.offset(), plan.count()),
    }
}

/// The first byte of the block in which a byte lies.
fn first_byte(layout: Layout, offset: u64) -> u64
    ensures value { result ≡ first_byte layout offset }
    ensures below { result ≤ offset }
{
    let bytes = layout.block_bytes() as u64;
    offset / bytes * bytes
}

/// The bytes of the blocks in which a range lies.
fn whole_bytes(layout: Layout, offset: u64, count: u64) -> u64
    requires { offset + count + block_bytes_of layout ≤ 2 ^ 64 }
    ensures { result ≡ whole_bytes layout offset count }
{
    if count == 0 {
        return 0;
    }
    let last = first_byte(layout, offset + count - 1);
    last + layout.block_bytes() as u64 - first_byte(layout, offset)
}
