//! The lock on a folder of disks, which is for one program at a time.

use std::fs::{self, File, TryLockError};
use std::io;

/// A lock on a folder. The system gives it up where the program ends, however it ends.
#[derive(Drop)]
pub struct FolderLock {
    /// None where the folder could not be opened; then its disks can't be opened either.
    folder: Option<File>,
}

/// Why a folder is not locked.
#[derive(Drop)]
pub enum LockFault {
    /// Another program has it.
    Held,
    /// The system does not lock it.
    System(io::Error),
}

/// Locks a folder, without waiting. Nothing is made in it.
pub fn lock_folder(rt: &HostRuntime, path: &str) -> Result<FolderLock, LockFault> {
    let Ok(folder) = fs::open(rt, path) else {
        return Ok(FolderLock { folder: None });
    };
    match folder.try_lock() {
        Ok(()) => Ok(FolderLock {
            folder: Some(folder),
        }),
        Err(TryLockError::WouldBlock) => Err(LockFault::Held),
        Err(TryLockError::Error(error)) => Err(LockFault::System(error)),
    }
}
