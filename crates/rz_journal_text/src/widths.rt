//! The numbers of an entry are those of its fields' types.

ghost use Rattle.std.specs.Prelude.{All};
ghost use Rattle.rz_journal_text.specs.Spelling.{IsWide, IsKey, ArePlaces, IsPublished, IsCall, IsPart, IsEntry};

use crate::JournalEntry;
use rz_events::{Key, Places, Published, TreeCall};
use rz_tree::Part;

/// Each number of an entry has a value of its field's type.
pub fn has_widths(entry: &JournalEntry)
    ensures { IsEntry entry.now }
{
    match entry {
        JournalEntry::Tree(call) => call_has_widths(call),
        JournalEntry::Begin { key, bytes } => begin_has_widths(*key, *bytes),
        JournalEntry::Publish {
            key,
            stamp,
            mask,
            bytes,
        } => publish_has_widths(*key, *stamp, *mask, *bytes),
        JournalEntry::Enroll { node, loss } => enroll_has_widths(*node, *loss),
        JournalEntry::Built(part) => part_has_widths(part),
    }
}

fn call_has_widths(call: &TreeCall)
    ensures { IsCall call.now }
{
    if let TreeCall::Setattr { mode, mtime, .. } = call {
        attributes_have_widths(*mode, *mtime);
    }
}

fn attributes_have_widths(mode: u16, mtime: u64)
    ensures mode { IsWide 2 mode }
    ensures mtime { IsWide 8 mtime }
{}

fn key_has_widths(key: Key)
    ensures { IsKey key }
{
    file_and_block_have_widths(key.fid, key.block);
}

fn file_and_block_have_widths(fid: u128, block: u64)
    ensures fid { IsWide 16 fid }
    ensures block { IsWide 8 block }
{}

fn begin_has_widths(key: Key, bytes: u32)
    ensures key { IsKey key }
    ensures bytes { IsWide 4 bytes }
{
    key_has_widths(key);
}

fn publish_has_widths(key: Key, stamp: u64, mask: u16, bytes: u32)
    ensures key { IsKey key }
    ensures stamp { IsWide 8 stamp }
    ensures mask { IsWide 2 mask }
    ensures bytes { IsWide 4 bytes }
{
    key_has_widths(key);
}

fn enroll_has_widths(node: u16, loss: u64)
    ensures node { IsWide 2 node }
    ensures loss { IsWide 8 loss }
{}

fn part_has_widths(part: &Part)
    ensures { IsPart part.now }
{
    match part {
        Part::Counters { last, made } => counters_have_widths(*last, *made),
        Part::Object {
            fid,
            mode,
            mtime,
            size,
            cid,
            places,
            ..
        } => object_has_widths(*fid, *mode, *mtime, *size, *cid, places),
        Part::Name { fid, .. } => name_has_widths(*fid),
        Part::Block {
            key,
            latest,
            published,
        } => block_has_widths(*key, *latest, *published),
        Part::Enrolled { node, loss, fence } => enrolled_has_widths(*node, *loss, *fence),
    }
}

fn counters_have_widths(last: u64, made: u128)
    ensures last { IsWide 8 last }
    ensures made { IsWide 16 made }
{}

fn object_has_widths(fid: u128, mode: u16, mtime: u64, size: u64, cid: u16, places: &Places)
    ensures fid { IsWide 16 fid }
    ensures mode { IsWide 2 mode }
    ensures mtime { IsWide 8 mtime }
    ensures size { IsWide 8 size }
    ensures cid { IsWide 2 cid }
    ensures places { ArePlaces places.now }
{
    nodes_have_widths(places.list());
}

fn nodes_have_widths(nodes: &[u16])
    ensures { All (IsWide 2) nodes.now }
{}

fn name_has_widths(fid: u128)
    ensures { IsWide 16 fid }
{}

fn block_has_widths(key: Key, latest: u64, published: Option<Published>)
    ensures key { IsKey key }
    ensures latest { IsWide 8 latest }
    ensures published { IsPublished published }
{
    key_has_widths(key);
    if let Some(p) = published {
        published_has_widths(p.stamp, p.mask, p.length);
    }
}

fn published_has_widths(stamp: u64, mask: u16, length: u32)
    ensures stamp { IsWide 8 stamp }
    ensures mask { IsWide 2 mask }
    ensures length { IsWide 4 length }
{}

fn enrolled_has_widths(node: u16, loss: u64, fence: u64)
    ensures node { IsWide 2 node }
    ensures loss { IsWide 8 loss }
    ensures fence { IsWide 8 fence }
{}
