//! A journal whose export has files, and published blocks spread over the files.

ghost use Rattle.std.specs.Prelude.{◌≡◌, ◌-◌, IfOk};

use crate::counting::CountingDisk;
use crate::files::{Files, create, is_first, made, mkdir, publish, published, stamp_of, volume};
use crate::tally::{Tally, spread};
use crate::words::FilesSize;
use rz_config::Volume;
use rz_events::{Call, Key, Reply, Text, TreeCall};
use rz_journal::{Journal, JournalFault, JournalReply};
use std::alloc::{AllocError, Global};
use std::io;
use std::rt::Clock;
use std::time::Instant;

/// The nodes of one cluster. Each block is on three of four of them.
const VOLUME: &str = r#"{"layout": 0, "bsize": 4096, "clusters": [{"cid": 1, "nodes": [
{"sid": 1, "cells": 1048576}, {"sid": 2, "cells": 1048576},
{"sid": 3, "cells": 1048576}, {"sid": 4, "cells": 1048576},
{"sid": 5, "cells": 1048576}, {"sid": 6, "cells": 1048576},
{"sid": 7, "cells": 1048576}, {"sid": 8, "cells": 1048576}]}]}"#;

/// A journal whose export has these files.
#[derive(Drop)]
pub struct FilledJournal {
    alloc: Global,
    journal: Journal<CountingDisk>,
    files: Files,
    /// How many calls had a reply, at most the last u64.
    replies: u64,
}

/// How many writes were made and accepted, and how many nanoseconds the longest took.
#[derive(Clone, Copy, Drop)]
pub struct Writes {
    pub tally: Tally,
    pub longest: u128,
}

/// The export's reply, where there is one.
fn reply_in(answer: &Option<JournalReply>) -> Option<&Reply> {
    match answer {
        Some(JournalReply::Reply(reply)) => Some(reply),
        _ => None,
    }
}

/// A journal on a new disk whose export has no file.
fn new_journal(alloc: Global) -> Result<Journal<CountingDisk>, AllocError> {
    let volume = volume(alloc, VOLUME)?;
    match Journal::format(alloc, volume, CountingDisk::new(alloc)) {
        Ok(journal) => Ok(journal),
        Err(refused) => {
            drop(refused);
            Err(AllocError)
        }
    }
}

/// A journal opened again on its disk, if it opens.
fn opened_again(
    alloc: Global,
    volume: Volume,
    disk: CountingDisk,
) -> Result<Option<Journal<CountingDisk>>, AllocError> {
    match Journal::reopen(alloc, volume, disk) {
        Ok(journal) => Ok(Some(journal)),
        Err((disk, fault)) => {
            drop(disk);
            match fault {
                JournalFault::NoMemory => Err(AllocError),
                _ => Ok(None),
            }
        }
    }
}

impl FilledJournal {
    /// A journal on a new disk, with no file.
    pub fn format(alloc: Global, size: FilesSize) -> Result<FilledJournal, AllocError>
        ensures { IfOk result (λ j. j.files.size ≡ size) }
    {
        let files = Files::none(alloc, size)?;
        match new_journal(alloc) {
            Ok(journal) => Ok(FilledJournal {
                alloc,
                journal,
                files,
                replies: 0,
            }),
            Err(error) => {
                drop(files);
                Err(error)
            }
        }
    }

    /// The journal opened again on its disk, if it opens.
    pub fn reopen(
        alloc: Global,
        disk: CountingDisk,
        files: Files,
    ) -> Result<Option<FilledJournal>, AllocError> {
        let Ok(volume) = volume(alloc, VOLUME) else {
            drop(disk);
            drop(files);
            return Err(AllocError);
        };
        match opened_again(alloc, volume, disk) {
            Ok(Some(journal)) => Ok(Some(FilledJournal {
                alloc,
                journal,
                files,
                replies: 0,
            })),
            Ok(None) => {
                drop(files);
                Ok(None)
            }
            Err(error) => {
                drop(files);
                Err(error)
            }
        }
    }

    /// The disk, and the files that stand on it.
    pub fn close(self) -> (CountingDisk, Files) {
        (self.journal.into_disk(), self.files)
    }

    /// How many calls had a reply.
    pub fn replies(&self) -> u64
        ensures { result ≡ self.now.replies }
    {
        self.replies
    }

    /// The answer to a call, where the export takes it.
    fn ask(&mut self, call: &Call) -> Option<JournalReply>
        ensures { self.new.files ≡ self.old.files }
    {
        if !self.journal.export().takes(call) {
            return None;
        }
        let answer = self.journal.answer(call);
        if matches!(&answer, JournalReply::Reply(_)) {
            self.replies = self.replies.saturating_add(1);
        }
        Some(answer)
    }

    /// Begins a write of a block and publishes it, and answers whether both were accepted.
    fn write(&mut self, number: u32) -> bool
        ensures { self.new.files ≡ self.old.files }
    {
        let key = self.files.key_of(number);
        let Some(stamp) = self.begin(key) else {
            return false;
        };
        let call = publish(key, published(number, stamp));
        let answer = self.ask(&call);
        let is_accepted = matches!(reply_in(&answer), Some(Reply::Accepted));
        drop(answer);
        drop(call);
        is_accepted
    }

    /// Begins a write of a block, and answers its stamp.
    fn begin(&mut self, key: Key) -> Option<u64>
        ensures { self.new.files ≡ self.old.files }
    {
        let text = Text::from_vec(Vec::new(self.alloc));
        let call = Call::Begin { key, text };
        let answer = self.ask(&call);
        let stamp = match reply_in(&answer) {
            Some(reply) => stamp_of(reply),
            None => None,
        };
        drop(answer);
        drop(call);
        stamp
    }

    /// Makes a call on names, and answers the number of the file that it made, or 0.
    fn name(&mut self, call: TreeCall) -> u128
        ensures { self.new.files ≡ self.old.files }
    {
        let call = Call::Tree(call);
        let answer = self.ask(&call);
        let fid = match reply_in(&answer) {
            Some(Reply::Tree(reply)) => made(reply),
            _ => 0,
        };
        drop(answer);
        drop(call);
        fid
    }

    /// Makes a file, and its directory before the first one there.
    fn make(&mut self, file: u32) -> Result<(), AllocError>
        ensures { self.new.files.size ≡ self.old.files.size }
    {
        if is_first(file) {
            let call = mkdir(self.alloc, file)?;
            self.name(call);
        }
        let call = create(self.alloc, file)?;
        let fid = self.name(call);
        self.files.note(fid)
    }

    /// Makes the files, and writes the first block of each.
    pub fn create(&mut self) -> Result<Tally, AllocError>
        ensures { IfOk result (λ t. t.calls ≡ self.old.files.size.files) }
    {
        let files = self.files.size.files;
        let mut tally = Tally::none();
        for file in 0..files {
            self.make(file)?;
            let accepted = self.write(file);
            tally.note(accepted);
        }
        Ok(tally)
    }

    /// Writes all other blocks.
    pub fn fill(&mut self) -> Tally
        ensures { result.calls ≡ self.old.files.size.blocks - self.old.files.size.files }
    {
        let files = self.files.size.files;
        let blocks = self.files.size.blocks;
        let mut tally = Tally::none();
        for number in files..blocks {
            let accepted = self.write(number);
            tally.note(accepted);
        }
        tally
    }

    /// Writes new versions of blocks that lie far from each other.
    pub fn renew<R: Clock>(&mut self, rt: &R) -> io::Result<Writes>
        ensures { IfOk result (λ w. w.tally.calls ≡ self.old.files.size.calls) }
    {
        let FilesSize { blocks, calls, .. } = self.files.size;
        let mut tally = Tally::none();
        let mut longest = 0;
        for call in 0..calls {
            let number = spread(call, blocks);
            let start = Instant::now(rt)?;
            let accepted = self.write(number);
            let nanos = start.elapsed(rt)?.as_nanos();
            tally.note(accepted);
            if longest < nanos {
                longest = nanos;
            }
        }
        Ok(Writes { tally, longest })
    }
}
