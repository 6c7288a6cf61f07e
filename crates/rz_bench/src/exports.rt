//! An export that has files, and published blocks spread over the files.

ghost use Rattle.std.specs.Prelude.{◌≡◌, ◌-◌, ◌≤◌, IfOk, OnOk, length, vec_len, vec_capacity};

use crate::files::{
    Files, NameUse, call_of, create, is_first, made, mkdir, publish, published, stamp_of, volume,
};
use crate::tally::{Tally, spread};
use crate::words::FilesSize;
use rz_events::{Key, Reply, TreeCall, TreeReply};
use rz_export::Export;
use std::alloc::{AllocError, Global};

/// The nodes of one cluster. Each block is on three of the first sixteen, since the last has too few
/// cells to be chosen.
const VOLUME: &str = r#"{"layout": 0, "bsize": 4096, "clusters": [{"cid": 1, "nodes": [
{"sid": 1, "cells": 1048576}, {"sid": 2, "cells": 1048576},
{"sid": 3, "cells": 1048576}, {"sid": 4, "cells": 1048576},
{"sid": 5, "cells": 1048576}, {"sid": 6, "cells": 1048576},
{"sid": 7, "cells": 1048576}, {"sid": 8, "cells": 1048576},
{"sid": 9, "cells": 1048576}, {"sid": 10, "cells": 1048576},
{"sid": 11, "cells": 1048576}, {"sid": 12, "cells": 1048576},
{"sid": 13, "cells": 1048576}, {"sid": 14, "cells": 1048576},
{"sid": 15, "cells": 1048576}, {"sid": 16, "cells": 1048576},
{"sid": 17, "cells": 1}]}]}"#;

/// A node that has its share of the blocks.
const USED: u16 = 1;

/// The node that has no block.
const UNUSED: u16 = 17;

/// An export that has these files.
#[derive(Drop)]
pub struct FilledExport {
    alloc: Global,
    export: Export,
    files: Files,
}

/// The key just below all that are not below this one.
fn before(key: Key) -> Key {
    match key.block.checked_sub(1) {
        Some(block) => Key {
            fid: key.fid,
            block,
        },
        None => Key {
            fid: key.fid.saturating_sub(1),
            block: u64::MAX,
        },
    }
}

/// Whether a reply lists a block above this one, or says that there is none.
fn is_above(reply: &Reply, key: Key) -> bool {
    match reply {
        Reply::Listed(Some(listed)) => key < listed.key,
        Reply::Listed(None) => true,
        _ => false,
    }
}

/// An export of these nodes that has no file.
fn new_export(alloc: Global) -> Result<Export, AllocError> {
    let volume = volume(alloc, VOLUME)?;
    Export::new(alloc, volume, 0)
}

impl FilledExport {
    /// An export of sixteen nodes that is to have so many files and blocks, and has none.
    pub fn new(alloc: Global, size: FilesSize) -> Result<FilledExport, AllocError>
        ensures { IfOk result (λ e. e.files.size ≡ size) }
    {
        let files = Files::none(alloc, size)?;
        match new_export(alloc) {
            Ok(export) => Ok(FilledExport {
                alloc,
                export,
                files,
            }),
            Err(error) => {
                drop(files);
                Err(error)
            }
        }
    }

    /// Begins a write of a block, and answers its stamp.
    fn begin(&mut self, key: Key) -> Result<Option<u64>, AllocError> {
        let reply = self.export.begin(key)?;
        let stamp = stamp_of(&reply);
        drop(reply);
        Ok(stamp)
    }

    /// Begins a write of a block and publishes it, and answers whether both were taken.
    fn publish(&mut self, number: u32) -> Result<bool, AllocError> {
        let key = self.files.key_of(number);
        let Some(stamp) = self.begin(key)? else {
            return Ok(false);
        };
        let published = published(number, stamp);
        let call = publish(key, published);
        let is_taken = self.export.takes(&call);
        drop(call);
        if !is_taken {
            return Ok(false);
        }
        let reply = self.export.publish(key, published);
        let is_accepted = matches!(reply, Reply::Accepted);
        drop(reply);
        Ok(is_accepted)
    }

    /// Makes a call on names.
    fn name(&mut self, call: TreeCall) -> Result<TreeReply, AllocError> {
        let reply = self.export.name(&call);
        drop(call);
        reply
    }

    /// Makes the directory of a file.
    fn make_directory(&mut self, file: u32) -> Result<(), AllocError> {
        let call = mkdir(self.alloc, file)?;
        drop(self.name(call)?);
        Ok(())
    }

    /// Makes a file.
    fn make_file(&mut self, file: u32) -> Result<(), AllocError> {
        let call = create(self.alloc, file)?;
        let reply = self.name(call)?;
        let fid = made(&reply);
        drop(reply);
        self.files.note(fid)
    }

    /// Makes the files, and publishes the first block of each, so that they spread over the nodes.
    pub fn create(&mut self) -> Result<Tally, AllocError>
        ensures { IfOk result (λ t. t.calls ≡ self.old.files.size.files) }
    {
        let files = self.files.size.files;
        let mut tally = Tally::none();
        for file in 0..files {
            if is_first(file) {
                self.make_directory(file)?;
            }
            self.make_file(file)?;
            let accepted = self.publish(file)?;
            tally.note(accepted);
        }
        Ok(tally)
    }

    /// Publishes all other blocks.
    pub fn fill(&mut self) -> Result<Tally, AllocError>
        ensures { IfOk result (λ t. t.calls ≡ self.old.files.size.blocks - self.old.files.size.files) }
    {
        let files = self.files.size.files;
        let blocks = self.files.size.blocks;
        let mut tally = Tally::none();
        for number in files..blocks {
            let accepted = self.publish(number)?;
            tally.note(accepted);
        }
        Ok(tally)
    }

    /// Publishes new versions of blocks.
    pub fn renew(&mut self, calls: u32) -> Result<Tally, AllocError>
        ensures { IfOk result (λ t. t.calls ≡ calls) }
    {
        let mut tally = Tally::none();
        for call in 0..calls {
            let accepted = self.publish(spread(call, self.files.size.blocks))?;
            tally.note(accepted);
        }
        Ok(tally)
    }

    /// Looks at blocks.
    pub fn look(&self, calls: u32) -> Tally
        ensures { result.calls ≡ calls }
    {
        let mut tally = Tally::none();
        for call in 0..calls {
            let reply = self
                .export
                .look(self.files.key_of(spread(call, self.files.size.blocks)));
            tally.note(matches!(reply, Reply::Looked(Some(_))));
            drop(reply);
        }
        tally
    }

    /// Looks at blocks as a reader does that met too few records.
    pub fn recheck(&self, calls: u32) -> Tally
        ensures { result.calls ≡ calls }
    {
        let mut tally = Tally::none();
        for call in 0..calls {
            let reply = self
                .export
                .recheck(self.files.key_of(spread(call, self.files.size.blocks)));
            tally.note(matches!(reply, Reply::Looked(Some(_))));
            drop(reply);
        }
        tally
    }

    /// Asks for the next block of one node above blocks.
    pub fn next(&self, calls: u32) -> Tally
        ensures { result.calls ≡ calls }
    {
        let mut tally = Tally::none();
        for call in 0..calls {
            let key = self.files.key_of(spread(call, self.files.size.blocks));
            let reply = self.export.next(USED, Some(key));
            tally.note(is_above(&reply, key));
            drop(reply);
        }
        tally
    }

    /// Asks for the next block of a node that has none above blocks.
    pub fn next_of_none(&self, calls: u32) -> Tally
        ensures { result.calls ≡ calls }
    {
        let mut tally = Tally::none();
        for call in 0..calls {
            let key = self.files.key_of(spread(call, self.files.size.blocks));
            let reply = self.export.next(UNUSED, Some(key));
            tally.note(matches!(reply, Reply::Listed(None)));
            drop(reply);
        }
        tally
    }

    /// Asks for the published block above all that are below a block, which is this one.
    pub fn published(&self, calls: u32) -> Tally
        ensures { result.calls ≡ calls }
    {
        let mut tally = Tally::none();
        for call in 0..calls {
            let key = self.files.key_of(spread(call, self.files.size.blocks));
            let is_it = match self.export.published(Some(before(key))) {
                Some(listed) => listed.key == key,
                None => false,
            };
            tally.note(is_it);
        }
        tally
    }

    /// Calls on the names of files, or on those beside them.
    pub fn calls(&self, kind: NameUse, count: u32) -> Result<Vec<TreeCall>, AllocError>
        ensures { IfOk result (λ v. vec_len v ≡ count) }
    {
        let mut calls = Vec::with_capacity(self.alloc, count as usize)?;
        match self.add_calls(&mut calls, kind, count) {
            Ok(()) => Ok(calls),
            Err(error) => {
                drop(calls);
                Err(error)
            }
        }
    }

    /// Adds so many calls to none.
    fn add_calls(
        &self,
        calls: &mut Vec<TreeCall>,
        kind: NameUse,
        count: u32,
    ) -> Result<(), AllocError>
        requires none { vec_len calls.old ≡ 0 }
        requires room { count ≤ vec_capacity calls.old }
        ensures { OnOk result (vec_len calls.new ≡ count) }
    {
        for number in 0..count {
            let file = spread(number, self.files.size.files);
            let call = call_of(self.alloc, kind, file)?;
            calls.push_reserved(call);
        }
        Ok(())
    }

    /// Makes calls that look up paths.
    pub fn look_up(&mut self, lookups: &[TreeCall]) -> Result<Tally, AllocError>
        ensures { IfOk result (λ t. t.calls ≡ length lookups.now) }
    {
        let mut tally = Tally::none();
        for lookup in lookups {
            let reply = self.export.name(lookup)?;
            tally.note(matches!(reply, TreeReply::Found { .. }));
            drop(reply);
        }
        Ok(tally)
    }

    /// Makes a file, and answers whether it was made.
    fn come(&mut self, create: &TreeCall) -> Result<bool, AllocError> {
        let reply = self.export.name(create)?;
        let is_made = matches!(reply, TreeReply::MadeFile(_));
        drop(reply);
        Ok(is_made)
    }

    /// Takes a file away, and answers whether it is gone.
    fn go(&mut self, unlink: &TreeCall) -> Result<bool, AllocError> {
        let reply = self.export.name(unlink)?;
        let is_gone = matches!(reply, TreeReply::Gone(Some(_)));
        drop(reply);
        Ok(is_gone)
    }

    /// Makes files, and takes each away again before the next one.
    pub fn come_and_go(
        &mut self,
        creates: &[TreeCall],
        unlinks: &[TreeCall],
    ) -> Result<Tally, AllocError>
        requires { length creates.now ≡ length unlinks.now }
        ensures { IfOk result (λ t. t.calls ≡ length creates.now) }
    {
        let mut tally = Tally::none();
        for round in 0..creates.len() {
            let is_made = self.come(&creates[round])?;
            let is_gone = self.go(&unlinks[round])?;
            tally.note(is_made && is_gone);
        }
        Ok(tally)
    }
}
