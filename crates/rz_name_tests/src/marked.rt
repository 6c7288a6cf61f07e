//! Room for marks is made, with ample memory.

use rz_blocks::Marks;
use rz_events::Key;
use std::test::Fail;

#[test]
fn room_is_made(rt: HostRuntime) -> Result<(), Fail> {
    let mut marks = Marks::new(rt.alloc());
    let made = marks.make_room(1, Key { fid: 9, block: 77 });
    drop(marks);
    assert!(rt; made.is_ok());
    Ok(())
}
