//! A disk that stops when its power goes.
ghost use Rattle.std.specs.Prelude.{◌≡◌, ◌+◌, ◌≤◌, false, refl, length, replicate, IsErrOf, OnOk, OnErr, is_ok, is_err};
ghost use Rattle.rz_test_disks.specs.Counted.{faults_after, own_faults};

use crate::power::{Power, Supply};
use rz_disk::{Disk, DiskError, Failed};
use std::alloc::{AllocError, Global};

/// What is written waits for a sync. A crash brings none of what waits onto the disk, all of it, or a part.
/// A reset counts as a call too. It is for tests, and tells no text.
#[derive(Drop)]
pub struct OutageDisk<'a> {
    power: &'a Power,
    /// The bytes on the disk, up to the last one that was written. All others are zeros.
    bytes: Vec<u8>,
    /// The bytes that were written since the last sync, each behind its address.
    waiting: Vec<(usize, u8)>,
    size: u64,
    faults: u64,
}

impl<'a> OutageDisk<'a> {
    /// A disk of no bytes.
    pub fn new(alloc: Global, power: &'a Power) -> OutageDisk<'a>
        ensures size { result.size ≡ 0 }
        ensures faults { result.faults ≡ 0 }
    {
        OutageDisk {
            power,
            bytes: Vec::new(alloc),
            waiting: Vec::new(alloc),
            size: 0,
            faults: 0,
        }
    }
}

/// Whether a crash keeps the byte with this number among those that wait: none at pick 0, all at pick 1, and
/// at a greater pick each of which the number is a multiple of it.
fn is_kept(pick: u64, number: usize) -> bool {
    match pick {
        0 => false,
        _ => number as u64 % pick == 0,
    }
}

/// Stores a byte.
fn store(bytes: &mut Vec<u8>, at: usize, byte: u8) -> Result<(), AllocError> {
    if bytes.len() <= at {
        bytes.resize(at.saturating_add(1), 0)?;
    }
    if let Some(held) = bytes.get_mut(at) {
        *held = byte;
    }
    Ok(())
}

/// Brings those of the waiting bytes onto the disk that this pick keeps. Nothing waits then.
fn bring(bytes: &mut Vec<u8>, waiting: &mut Vec<(usize, u8)>, pick: u64) -> Result<(), AllocError> {
    for (number, &(at, byte)) in waiting.iter().enumerate() {
        if is_kept(pick, number) {
            store(bytes, at, byte)?;
        }
    }
    waiting.clear();
    Ok(())
}

/// Lets bytes wait.
fn wait(waiting: &mut Vec<(usize, u8)>, at: usize, bytes: &[u8]) -> Result<(), AllocError> {
    for (number, &byte) in bytes.iter().enumerate() {
        waiting.push((at.saturating_add(number), byte))?;
    }
    Ok(())
}

/// Reads the bytes from an address on, those that wait too.
fn show(bytes: &[u8], waiting: &[(usize, u8)], at: usize, out: &mut [u8]) {
    let held = &bytes[at.min(bytes.len())..];
    let common = held.len().min(out.len());
    out[..common].copy_from_slice(&held[..common]);
    out[common..].fill(0);
    for &(place, byte) in waiting {
        if place < at {
            continue;
        }
        if let Some(shown) = out.get_mut(place - at) {
            *shown = byte;
        }
    }
}

/// Counts a fault where a call did not go well.
fn settle(is_well: bool, faults: &mut u64) -> Result<(), Failed>
    ensures same { is_ok result ≡ is_well }
    ensures counted { faults.new ≡ faults_after (is_err result) faults.old }
{
    if is_well {
        return Ok(());
    }
    *faults = faults.saturating_add(1);
    Err(Failed)
}

impl<'a> Disk for OutageDisk<'a> {
    ghost tells = { false };

    ghost has_fuse = { false };

    ghost text = { λ d. replicate d.size 0 };

    ghost image = { λ d c. ⊥ };

    ghost picks = { λ d pick c. c ≡ replicate d.size 0 };

    ghost meter = { λ d. own_faults d.faults };

    ghost text_is_image = { λ d no. cc };

    ghost no_fuse = { λ d _. refl };

    ghost none_planned = { λ d _. refl };

    fn size(&self) -> u64 {
        self.size
    }

    fn reset(&mut self, _alloc: Global, size: u64) -> Result<(), DiskError>
        ensures size { OnOk result (self.new.size ≡ size) }
        ensures kept { OnErr result (self.new.size ≡ self.old.size) }
        ensures counted { self.new.faults ≡ faults_after (is_err result) self.old.faults }
        ensures memory { IsErrOf result DiskError.NoMemory → ⊥ }
    {
        let is_on = self.power.supply() == Supply::On;
        if is_on {
            self.bytes.clear();
            self.waiting.clear();
            self.size = size;
        }
        match settle(is_on, &mut self.faults) {
            Ok(()) => Ok(()),
            Err(Failed) => Err(DiskError::Failed),
        }
    }

    fn read(&mut self, at: u64, out: &mut [u8]) -> Result<(), Failed>
        requires { at + length out.old ≤ self.old.size }
        ensures size { self.new.size ≡ self.old.size }
        ensures counted { self.new.faults ≡ faults_after (is_err result) self.old.faults }
    {
        let is_on = self.power.supply() == Supply::On;
        if is_on {
            show(&self.bytes, &self.waiting, at as usize, out);
        }
        settle(is_on, &mut self.faults)
    }

    /// The bytes of the write in which the power goes wait too, and those of later ones do not.
    fn write_at(&mut self, at: u64, bytes: &[u8]) -> Result<(), Failed>
        requires { at + length bytes.now ≤ self.old.size }
        ensures size { self.new.size ≡ self.old.size }
        ensures counted { self.new.faults ≡ faults_after (is_err result) self.old.faults }
    {
        let supply = self.power.supply();
        let waits = supply != Supply::Gone && wait(&mut self.waiting, at as usize, bytes).is_ok();
        settle(supply == Supply::On && waits, &mut self.faults)
    }

    fn sync(&mut self) -> Result<(), Failed>
        ensures size { self.new.size ≡ self.old.size }
        ensures counted { self.new.faults ≡ faults_after (is_err result) self.old.faults }
    {
        let is_on = self.power.supply() == Supply::On;
        let is_well = is_on && bring(&mut self.bytes, &mut self.waiting, 1).is_ok();
        settle(is_well, &mut self.faults)
    }

    fn crash(&mut self, pick: u64)
        ensures size { self.new.size ≡ self.old.size }
        ensures faults { self.new.faults ≡ self.old.faults }
    {
        let _brought = bring(&mut self.bytes, &mut self.waiting, pick);
        self.waiting.clear();
    }

    fn arm(&mut self, _passes: Option<u64>)
        ensures { self.new ≡ self.old }
    {}
}
