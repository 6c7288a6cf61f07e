use rz_disk::{Disk, DiskError, Failed, FileDisk, Fused, MemDisk, PlainDisk, RotDisk, store};
use std::alloc::Global;
use std::fs;
use std::io::ErrorKind;
use std::os::unix::fs::symlink;
use std::process::Abort;
use std::rt::Files;
use std::test::Fail;

const FOLDER: &str = "rz_disk_test";

const FILE: &str = "rz_disk_test/disk";

const DRAFT: &str = "rz_disk_test/disk.new";

const OTHER: &str = "rz_disk_test/other";

fn is_send<T: Send + Drop>(_value: &T) {}

/// Stores three bytes on a disk of eight, which may go to other threads, and reads them and their neighbours.
fn stored<D: Disk + Send>(disk: &mut D, alloc: Global) -> Result<[u8; 5], DiskError> {
    is_send(disk);
    let mut back = [9; 5];
    disk.reset(alloc, 8)?;
    store(disk, 2, b"abc").map_err(|_| DiskError::Failed)?;
    disk.read(1, &mut back).map_err(|_| DiskError::Failed)?;
    Ok(back)
}

#[test]
fn a_store_is_read_back(rt: HostRuntime) -> Result<(), Fail> {
    let mut mem = MemDisk::new(rt.alloc(), Vec::new(rt.alloc()));
    let in_memory = stored(&mut mem, rt.alloc());
    drop(mem);
    let mut rot = RotDisk::new(Fused::new(PlainDisk::new(rt.alloc())), 3, 0x80);
    let rotten = stored(&mut rot, rt.alloc());
    drop(rot);
    assert!(rt; in_memory == Ok(*b"\0abc\0") && rotten == Ok(*b"\0a\xe2c\0"));
    Ok(())
}

/// Whether a file has these bytes.
fn has_bytes(rt: &(impl Files + Abort + AllocGlobal), path: &str, bytes: &[u8]) -> bool {
    let there = fs::read(rt, path).expect(rt, "a file");
    let has_bytes = there.as_slice() == bytes;
    drop(there);
    has_bytes
}

#[test]
fn a_file_is_written_synced_read_and_reset(rt: HostRuntime) -> Result<(), Fail> {
    let _ = fs::create_dir(&rt, FOLDER);
    let _ = fs::remove_file(&rt, FILE);
    let mut disk = FileDisk::new(&rt, rt.alloc(), FILE).expect(&rt, "a disk");
    let is_there = fs::exists(&rt, FILE).expect(&rt, "a look");
    assert!(rt; disk.size() == 0 && !is_there);
    let stored = stored(&mut disk, rt.alloc());
    assert!(rt; stored == Ok(*b"\0abc\0") && disk.size() == 8);
    assert!(rt; has_bytes(&rt, FILE, b"\0\0abc\0\0\0"));
    let mut back = [9; 3];
    let reset = disk.reset(rt.alloc(), 3);
    assert!(rt; reset.is_ok() && has_bytes(&rt, FILE, b"\0\0\0"));
    assert!(rt; disk.size() == 3);
    let read = disk.read(0, &mut back);
    drop(disk);
    let has_draft = fs::exists(&rt, DRAFT).expect(&rt, "a look");
    fs::remove_file(&rt, FILE).expect(&rt, "a file");
    assert!(rt; read.is_ok() && back == [0; 3] && !has_draft);
    Ok(())
}

#[test]
fn a_file_that_is_there_stays_as_it_is(rt: HostRuntime) -> Result<(), Fail> {
    let _ = fs::create_dir(&rt, FOLDER);
    let _ = fs::remove_file(&rt, OTHER);
    let missing = FileDisk::existing(&rt, rt.alloc(), OTHER).err();
    assert!(rt; missing == Some(DiskError::Failed));
    fs::write(&rt, OTHER, b"there".as_slice()).expect(&rt, "a file");
    let mut disk = FileDisk::existing(&rt, rt.alloc(), OTHER).expect(&rt, "a disk");
    assert!(rt; disk.size() == 5);
    let mut back = [9; 5];
    let read = disk.read(0, &mut back);
    assert!(rt; read.is_ok() && has_bytes(&rt, OTHER, b"there"));
    let written = disk.write_at(4, b"m");
    let synced = disk.sync();
    drop(disk);
    assert!(rt; written.is_ok() && synced.is_ok() && has_bytes(&rt, OTHER, b"therm"));
    fs::remove_file(&rt, OTHER).expect(&rt, "a file");
    assert!(rt; back == *b"there");
    Ok(())
}

/// The three device calls on a disk of no bytes.
fn calls<D: Disk>(disk: &mut D) -> [Result<(), Failed>; 3] {
    let read = disk.read(0, &mut []);
    let written = disk.write_at(0, b"");
    let synced = disk.sync();
    [read, written, synced]
}

#[test]
fn a_failed_sync_fails_each_later_call(rt: HostRuntime) -> Result<(), Fail> {
    let mut disk = FileDisk::existing(&rt, rt.alloc(), "/dev/null").expect(&rt, "a disk");
    assert!(rt; disk.size() == 0 && disk.last_error().is_none());
    let first = calls(&mut disk);
    let later = calls(&mut disk);
    let error = disk.last_error().expect(&rt, "an error");
    drop(disk);
    assert!(rt; first == [Ok(()), Ok(()), Err(Failed)] && later == [Err(Failed); 3]);
    assert!(rt; error.kind() == ErrorKind::InvalidInput);
    Ok(())
}

/// Takes away what stood there.
fn clear(rt: &(impl Files + Abort + AllocGlobal), paths: &[&str]) {
    let _ = fs::create_dir(rt, FOLDER);
    for path in paths {
        let _ = fs::remove_file(rt, *path);
    }
}

/// Whether a path is a link.
fn is_link(rt: &(impl Files + Abort + AllocGlobal), path: &str) -> bool {
    match fs::symlink_metadata(rt, path) {
        Ok(found) => found.is_symlink(),
        Err(_) => false,
    }
}

#[test]
fn what_is_no_file_is_not_replaced(rt: HostRuntime) -> Result<(), Fail> {
    const LOOP: &str = "rz_disk_test/loop";
    clear(&rt, &[LOOP]);
    symlink(&rt, "loop", LOOP).expect(&rt, "a link");
    let mut disk = FileDisk::new(&rt, rt.alloc(), LOOP).expect(&rt, "a disk");
    let over_link = disk.reset(rt.alloc(), 1);
    drop(disk);
    let mut disk = FileDisk::new(&rt, rt.alloc(), FOLDER).expect(&rt, "a disk");
    let over_folder = disk.reset(rt.alloc(), 1);
    drop(disk);
    assert!(rt; over_link == Err(DiskError::Failed) && over_folder == Err(DiskError::Failed));
    assert!(rt; is_link(&rt, LOOP));
    clear(&rt, &[LOOP]);
    Ok(())
}
