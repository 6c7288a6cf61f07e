//! Locks on ranges of one file, by owners that hold none.

ghost use Rattle.std.specs.Prelude.{◌≤◌};

use rz_locks::{LockAnswer, LockKind, Locks, Range};
use std::test::Fail;

/// Asks for a lock on bytes of file 1, in place of the one that the owner held.
fn asks(locks: &mut Locks, owner: u8, from: u64, length: u64, kind: LockKind) -> LockAnswer
    requires from_one { 1 ≤ owner }
    requires to_last { owner ≤ 64 }
{
    let range = Range {
        fid: 1,
        from,
        length,
    };
    locks.release(owner);
    locks.take(owner, range, kind)
}

#[test]
fn locks_are_granted_beside_others(rt: HostRuntime) -> Result<(), Fail> {
    let mut locks = Locks::new();
    let answers = [
        asks(&mut locks, 1, 0, 4096, LockKind::Exclusive),
        asks(&mut locks, 2, 4095, 1, LockKind::Shared),
        asks(&mut locks, 2, 4096, 1, LockKind::Shared),
        asks(&mut locks, 3, 0, 0, LockKind::Exclusive),
    ];
    drop(locks);
    let wanted = [
        LockAnswer::Granted,
        LockAnswer::Busy { owner: 1 },
        LockAnswer::Granted,
        LockAnswer::Granted,
    ];
    assert!(rt; answers == wanted);
    Ok(())
}

#[test]
fn a_released_lock_is_in_nobodys_way(rt: HostRuntime) -> Result<(), Fail> {
    let mut locks = Locks::new();
    let first = asks(&mut locks, 1, 0, 4096, LockKind::Exclusive);
    locks.release(1);
    let second = asks(&mut locks, 2, 0, 4096, LockKind::Shared);
    let third = asks(&mut locks, 3, 0, 4096, LockKind::Shared);
    drop(locks);
    assert!(rt; [first, second, third] == [LockAnswer::Granted; 3]);
    Ok(())
}
