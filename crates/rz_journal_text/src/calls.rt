//! The calls on names.

ghost use Rattle.std.specs.Prelude.{◌≡◌, ◌++◌, OnOk};
ghost use Rattle.byteorder.specs.Endian.{little_bytes};
ghost use Rattle.rz_journal_text.specs.Spelling.{text_bytes, number_of, call_bytes, IsShort, HasShortTexts};

use crate::numbers::{write_text, write_u16, write_u64};
use rz_events::{Text, TreeCall};
use std::alloc::AllocError;

/// Adds the bytes of a call on names.
pub fn write_call(call: &TreeCall, out: &mut Vec<u8>) -> Result<(), AllocError>
    requires { HasShortTexts call.now }
    ensures { OnOk result (out.new.items ≡ out.old.items ++ call_bytes call.now) }
{
    out.push(number_of(call))?;
    match call {
        TreeCall::Lookup { path }
        | TreeCall::Getattr { path }
        | TreeCall::Rmdir { path }
        | TreeCall::Mkdir { path }
        | TreeCall::Create { path }
        | TreeCall::Unlink { path }
        | TreeCall::Readlink { path }
        | TreeCall::Readdir { path }
        | TreeCall::OpenFile { path } => write_text(path, out),
        TreeCall::Setattr { path, mode, mtime } => write_attributes(path, *mode, *mtime, out),
        TreeCall::Rename { path, to } | TreeCall::Link { path, to } => write_pair(path, to, out),
        TreeCall::Symlink { target, path } => write_pair(target, path, out),
    }
}

// Adds a path with its new attributes.
fn write_attributes(path: &Text, mode: u16, mtime: u64, out: &mut Vec<u8>) -> Result<(), AllocError>
    requires { IsShort path.now }
    ensures { OnOk result (out.new.items ≡ out.old.items ++ (text_bytes path.now ++ (little_bytes 2 mode ++ little_bytes 8 mtime))) }
{
    write_text(path, out)?;
    write_u16(mode, out)?;
    write_u64(mtime, out)
}

// Adds two texts.
fn write_pair(first: &Text, second: &Text, out: &mut Vec<u8>) -> Result<(), AllocError>
    requires first { IsShort first.now }
    requires second { IsShort second.now }
    ensures { OnOk result (out.new.items ≡ out.old.items ++ (text_bytes first.now ++ text_bytes second.now)) }
{
    write_text(first, out)?;
    write_text(second, out)
}

// The number of a call.
fn number_of(call: &TreeCall) -> u8
    ensures { result ≡ number_of call.now }
{
    match call {
        TreeCall::Lookup { .. } => 0,
        TreeCall::Getattr { .. } => 1,
        TreeCall::Rmdir { .. } => 2,
        TreeCall::Mkdir { .. } => 3,
        TreeCall::Create { .. } => 4,
        TreeCall::Unlink { .. } => 5,
        TreeCall::Readlink { .. } => 6,
        TreeCall::Readdir { .. } => 7,
        TreeCall::OpenFile { .. } => 8,
        TreeCall::Setattr { .. } => 9,
        TreeCall::Rename { .. } => 10,
        TreeCall::Link { .. } => 11,
        TreeCall::Symlink { .. } => 12,
    }
}
