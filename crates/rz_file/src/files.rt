//! The write of a range, and the read of a range.

ghost use Rattle.std.specs.Prelude.{◌≡◌, ◌<◌, ◌+◌, ◌^◌, IfOk, length};
ghost use Rattle.mj_angles.specs.Layout.{safe_of};
ghost use Rattle.rz_operation_model.specs.Files.{IsFileAnswer, file_ask, file_end, read_start, write_start};
ghost use Rattle.rz_file.specs.Machine.{FitsIfEnough, IsUnderWay, IsKeepAsked, AreBins, ComeWith, machine_with, bytes_in, text_in};

use crate::{FileMachine, FilePlan};
use mj_angles::Layout;
use rz_events::{FileAnswer, FileAsk, FileEnd, FileInfo};
use std::alloc::{AllocError, Global};
use std::marker::Model;
use std::thread::Threads;

/// The write of bytes into a file.
#[derive(Drop)]
pub struct FileWrite {
    machine: FileMachine,
}

impl Model for FileWrite {
    ghost use Rattle.rz_file.specs.Machine.{Machine};

    ghost Value = { Machine };

    ghost view = { λ f. f.machine };
}

impl FileWrite {
    /// The write of the text into a file from an offset on, with all the memory that it needs.
    pub fn start(
        alloc: Global,
        layout: Layout,
        info: &FileInfo,
        offset: u64,
        text: &[u8],
    ) -> Result<FileWrite, AllocError>
        requires places { length info.now.places ≡ safe_of layout }
        requires ends { offset + length text.now < 2 ^ 64 }
        ensures { IfOk result (λ f. f ≡ machine_with layout (write_start layout info.now offset text.now)) }
    {
        let plan = FilePlan::write(alloc, layout, offset, text.to_vec(alloc)?)?;
        Ok(FileWrite {
            machine: plan.open(info),
        })
    }

    /// The same, where the bins of whole blocks are made in as many threads as there are processors.
    pub fn start_par(
        rt: &(impl Threads + Sync),
        alloc: Global,
        layout: Layout,
        info: &FileInfo,
        offset: u64,
        text: &[u8],
    ) -> Result<FileWrite, AllocError>
        requires places { length info.now.places ≡ safe_of layout }
        requires ends { offset + length text.now < 2 ^ 64 }
        ensures { IfOk result (λ f. f ≡ machine_with layout (write_start layout info.now offset text.now)) }
    {
        let plan = FilePlan::write_par(rt, alloc, layout, offset, text.to_vec(alloc)?)?;
        Ok(FileWrite {
            machine: plan.open(info),
        })
    }

    /// What the range asks next.
    pub fn next(&self) -> FileAsk
        ensures value { result ≡ file_ask self.now.state }
        ensures under_way { IsUnderWay self.now.state }
    {
        self.machine.next()
    }

    /// The text of the block in hand: the one that was found, or that is written.
    pub fn text(&self) -> &[u8]
        ensures { result.now ≡ text_in self.now.state self.now.block }
    {
        self.machine.text()
    }

    /// Takes the answer to what was asked, and with a record the bins of its position.
    pub fn tell(&mut self, answer: FileAnswer, bins: &[u64])
        requires asked { IsFileAnswer self.old.layout (file_ask self.old.state) answer }
        requires bins { ComeWith self.old.layout (file_ask self.old.state) answer bins.now }
        ensures answered { FitsIfEnough self.old answer bins.now self.new }
        ensures layout { self.new.layout ≡ self.old.layout }
    {
        self.machine.tell(answer, bins);
    }

    /// How the range ended, once it has.
    pub fn end(&self) -> Option<FileEnd>
        ensures { result ≡ file_end self.now.state }
    {
        self.machine.end()
    }

    /// The bins of the position that the write of the block in hand asks a node to keep.
    pub fn bins(&self) -> &[u64]
        requires { IsKeepAsked (file_ask self.now.state) }
        ensures { AreBins self.now result.now }
    {
        self.machine.bins()
    }
}

/// The read of bytes of a file.
#[derive(Drop)]
pub struct FileRead {
    machine: FileMachine,
}

impl Model for FileRead {
    ghost use Rattle.rz_file.specs.Machine.{Machine};

    ghost Value = { Machine };

    ghost view = { λ f. f.machine };
}

impl FileRead {
    /// The read of so many bytes of a file from an offset on, cut at the file's size, with all the memory
    /// that it needs.
    pub fn start(
        alloc: Global,
        layout: Layout,
        info: &FileInfo,
        offset: u64,
        count: u64,
    ) -> Result<FileRead, AllocError>
        requires { length info.now.places ≡ safe_of layout }
        ensures { IfOk result (λ f. f ≡ machine_with layout (read_start layout info.now offset count)) }
    {
        let size = count.min(info.size.saturating_sub(offset));
        let plan = FilePlan::read(alloc, layout, offset, size)?;
        Ok(FileRead {
            machine: plan.open(info),
        })
    }

    /// What the range asks next.
    pub fn next(&self) -> FileAsk
        ensures value { result ≡ file_ask self.now.state }
        ensures under_way { IsUnderWay self.now.state }
    {
        self.machine.next()
    }

    /// The text of the block in hand: the one that was found, or that is written.
    pub fn text(&self) -> &[u8]
        ensures { result.now ≡ text_in self.now.state self.now.block }
    {
        self.machine.text()
    }

    /// Takes the answer to what was asked, and with a record the bins of its position.
    pub fn tell(&mut self, answer: FileAnswer, bins: &[u64])
        requires asked { IsFileAnswer self.old.layout (file_ask self.old.state) answer }
        requires bins { ComeWith self.old.layout (file_ask self.old.state) answer bins.now }
        ensures answered { FitsIfEnough self.old answer bins.now self.new }
        ensures layout { self.new.layout ≡ self.old.layout }
    {
        self.machine.tell(answer, bins);
    }

    /// How the range ended, once it has.
    pub fn end(&self) -> Option<FileEnd>
        ensures { result ≡ file_end self.now.state }
    {
        self.machine.end()
    }

    /// What was read so far.
    pub fn bytes(&self) -> &[u8]
        ensures { result.now ≡ bytes_in self.now.state }
    {
        self.machine.bytes()
    }
}
